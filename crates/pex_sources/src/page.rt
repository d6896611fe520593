// The text of a script while it is written.
use crate::compiled_scripts::CompiledScript;
use crate::fault::{Attempt, NOT_FOUND};
use pex_values::Datum;
use std::alloc::Global;

/// The bytes so far. Where lines are indented, documentation stands on lines of its own. What appends fails where no memory is
/// found, and then part of its bytes may stand there.
#[derive(Drop)]
pub(crate) struct Page {
    pub alloc: Global,
    pub bytes: Vec<u8>,
    depth: usize,
    is_indented: bool,
    // Whether an empty line or the heading of a block stands before.
    is_at_start: bool,
}

/// The blanks before a line for each block in which it stands.
const INDENT: &[u8] = b"    ";

impl Page {
    /// A page without bytes.
    pub(crate) fn new(alloc: Global, is_indented: bool) -> Page {
        Page {
            alloc,
            bytes: Vec::new(alloc),
            depth: 0,
            is_indented,
            is_at_start: true,
        }
    }

    /// Appends these bytes to the line, one after the other.
    pub(crate) fn put(&mut self, parts: &[&[u8]]) -> Attempt<()> {
        for part in parts {
            self.bytes.extend_from_slice(part)?;
        }
        Ok(())
    }

    /// Begins a line with these bytes.
    pub(crate) fn begin(&mut self, parts: &[&[u8]]) -> Attempt<()> {
        self.is_at_start = false;
        for _ in 0..self.depth {
            self.bytes.extend_from_slice(INDENT)?;
        }
        self.put(parts)
    }

    /// Ends a line.
    pub(crate) fn end(&mut self) -> Attempt<()> {
        self.put(&[b"\n"])
    }

    /// An empty line before the next part, unless a block has just begun or the line before is empty.
    pub(crate) fn blank(&mut self) -> Attempt<()> {
        if self.is_indented && !self.is_at_start {
            self.end()?;
        }
        self.is_at_start = true;
        Ok(())
    }

    /// A whole line.
    pub(crate) fn line(&mut self, parts: &[&[u8]]) -> Attempt<()> {
        self.begin(parts)?;
        self.end()
    }

    /// Ends a heading with flags and documentation.
    pub(crate) fn end_heading(
        &mut self,
        script: &CompiledScript<'_>,
        flags: u32,
        doc: u16,
    ) -> Attempt<()> {
        self.put_flags(flags)?;
        let doc = script.text(doc);
        if doc.is_empty() {
            return self.end();
        }
        if self.is_indented {
            self.end()?;
            return self.line(&[b"{", doc, b"}"]);
        }
        self.put(&[b" {", doc, b"}\n"])
    }

    /// The lines from now on stand in one block more.
    pub(crate) fn indent(&mut self) {
        self.depth = self.depth.saturating_add(usize::from(self.is_indented));
        self.is_at_start = true;
    }

    /// A block ends.
    pub(crate) fn outdent(&mut self) {
        self.depth = self.depth.saturating_sub(1);
    }

    /// Appends the words for the flags of a script or a member.
    pub(crate) fn put_flags(&mut self, flags: u32) -> Attempt<()> {
        self.put_bits(flags, [b" Hidden", b" Conditional"])
    }

    /// Appends the words for the two lowest of some bits.
    pub(crate) fn put_bits(&mut self, bits: u32, words: [&[u8]; 2]) -> Attempt<()> {
        let [first, second] = words;
        self.put(&[if bits & 1 != 0 { first } else { b"" }])?;
        self.put(&[if bits & 2 != 0 { second } else { b"" }])
    }

    /// Appends a literal of a script, a number below 0 in hexadecimal. `NotFound` comes for what is none.
    pub(crate) fn put_literal(&mut self, script: &CompiledScript<'_>, value: Datum) -> Attempt<()> {
        match value {
            Datum::NoneValue => self.put(&[b"None"]),
            Datum::Int(number) if number < 0 => {
                self.put(&[format!(in self.alloc; "0x{number:x}")?.as_bytes()])
            }
            Datum::Int(number) => self.put(&[format!(in self.alloc; "{number}")?.as_bytes()]),
            Datum::Bool(0) => self.put(&[b"False"]),
            Datum::Bool(_) => self.put(&[b"True"]),
            Datum::Quoted(text) => self.put_text(script.text(text)),
            Datum::Word(_) | Datum::Float(_) => Err(NOT_FOUND),
        }
    }

    // Appends a text in quotes.
    fn put_text(&mut self, text: &[u8]) -> Attempt<()> {
        self.bytes.push(b'"')?;
        for byte in text {
            match *byte {
                b'\\' => self.put(&[b"\\\\"])?,
                b'"' => self.put(&[b"\\\""])?,
                b'\n' => self.put(&[b"\\n"])?,
                b'\t' => self.put(&[b"\\t"])?,
                other => self.bytes.push(other)?,
            }
        }
        self.put(&[b"\""])
    }
}
