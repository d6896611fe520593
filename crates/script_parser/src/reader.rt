// Reads the forms of a file's lines from first to last.
ghost use Rattle.std.specs.Prelude.{◌≡◌, ◌<◌, ◌≤◌, IfErr, IfOk, IfSome, IsTrue, OnOk, OnSome};
ghost use Rattle.line_parser.specs.Blocks.{begins_block, opens_block};

use crate::fault::{BlockFault, bad_block, of_line};
use line_parser::{LineTree, TypeWords, doc_at_end, parse_line};
use papy_base::{Made, Text};
use script_lexer::{Line, Spanned, Token};
use std::alloc::Global;

/// The lines that are still to be read.
#[derive(Drop)]
pub(crate) struct LineReader<'a> {
    pub(crate) alloc: Global,
    types: TypeWords,
    lines: &'a [Line],
    /// The place of the next line.
    at: usize,
}

/// A line, with its place among the logical lines.
#[derive(Drop)]
pub(crate) struct LineAt<'a> {
    pub(crate) at: usize,
    pub(crate) line: &'a Line,
}

impl<'a> LineReader<'a> {
    ghost use Rattle.script_parser.specs.Reader.{Found, GoesOn, IsBlockFault, StandsAt, left};

    pub(crate) fn new(alloc: Global, lines: &'a [Line]) -> Made<Self>
        ensures { IfOk result (λ reader. reader.lines.now ≡ lines.now) }
    {
        Ok(LineReader {
            alloc,
            types: TypeWords::new(alloc)?,
            lines,
            at: 0,
        })
    }

    /// The form of a line, and the documentation text at its end.
    pub(crate) fn tree(&self, found: &LineAt<'_>) -> Result<LineTree, BlockFault>
        requires { StandsAt self.now.lines.now found.now }
        ensures block { IfOk result (λ tree. IsTrue (opens_block tree.form) → IsTrue (begins_block found.now.line.now.tokens.items)) }
        ensures fault { IfErr result (IsBlockFault self.now.lines.now) }
    {
        match parse_line(self.alloc, &self.types, found.line) {
            Ok(tree) => Ok(tree),
            Err(fault) => Err(of_line(found.at, fault)),
        }
    }

    /// The next line, also where it is a documentation text alone, or none at the end.
    pub(crate) fn next(&mut self) -> Option<LineAt<'a>>
        ensures nearer { OnSome result (left self.new < left self.old) }
        ensures bound { left self.new ≤ left self.old }
        ensures onward { GoesOn self.old self.new }
        ensures found { IfSome result (Found self.old self.new) }
    {
        let at = self.at;
        let line = self.lines.get(at)?;
        self.at = at + 1;
        Some(LineAt { at, line })
    }

    /// The next line that is no documentation text alone, or none at the end.
    pub(crate) fn next_form(&mut self) -> Option<LineAt<'a>>
        ensures nearer { OnSome result (left self.new < left self.old) }
        ensures bound { left self.new ≤ left self.old }
        ensures onward { GoesOn self.old self.new }
        ensures found { IfSome result (Found self.old self.new) }
    {
        'docs: while let Some(found) = self.next() {
            if !is_doc_only(found.line.tokens.as_slice()) {
                return Some(found);
            }
        }
        None
    }

    /// The next line of an open block, which the file has to have.
    pub(crate) fn next_in_block(&mut self) -> Result<LineAt<'a>, BlockFault>
        ensures nearer { OnOk result (left self.new < left self.old) }
        ensures onward { GoesOn self.old self.new }
        ensures found { IfOk result (Found self.old self.new) }
        ensures fault { IfErr result (IsBlockFault self.old.lines.now) }
    {
        match self.next_form() {
            Some(found) => Ok(found),
            None => Err(bad_block(self.at)),
        }
    }

    /// The documentation of the line that was read: that at its end, or else that of the next line,
    /// where this is a documentation text alone.
    pub(crate) fn own_doc(&mut self, at_end: Option<Text>) -> Result<Option<Text>, BlockFault>
        ensures bound { left self.new ≤ left self.old }
        ensures onward { GoesOn self.old self.new }
        ensures fault { IfErr result (IsBlockFault self.old.lines.now) }
    {
        match self.lines.get(self.at) {
            Some(line) if at_end.is_none() && is_doc_only(line.tokens.as_slice()) => {
                self.at += 1;
                Ok(doc_at_end(self.alloc, line.tokens.as_slice())?)
            }
            _ => Ok(at_end),
        }
    }
}

fn is_doc_only(tokens: &[Spanned]) -> bool {
    match tokens {
        [] => true,
        [only] => matches!(only.token, Token::Doc(_)),
        _ => false,
    }
}
