//! The lines that a run writes into its report.

ghost use Rattle.std.specs.Prelude.{◌≡◌, ◌++◌, ◌∷◌, IfOk, slice_get};
ghost use Rattle.std.specs.Fmt.{decimal};
ghost use Rattle.body_runner.specs.Lines.{fault_line, line_in, trace_line};
ghost use Rattle.core_tree.specs.Outlines.{name_in};
ghost use Rattle.papy_base.specs.ReportWords.{escaped, escaped_byte, fault_name};

use crate::body::Home;
use crate::setting::Setting;
use papy_base::{Made, StackFault, Text};
use std::alloc::Global;

/// The line of a fault of the instruction at a place: `!k Script.function:line Kind`.
pub fn fault_line(home: &Home<'_>, place: usize, fault: StackFault) -> Made<Vec<u8>>
    ensures { let script = name_in (slice_get home.now.turn.now.setting.now.loaded.outline home.now.script) in
        let source = line_in (slice_get home.now.function.now.lines.items place) in
        IfOk result (λ line. line.items ≡ fault_line home.now.turn.now.stack script home.now.function.now.name source fault) }
{
    let turn = home.turn;
    let mut line = Vec::new(turn.alloc);
    append_number(&mut line, b'!', u32::from(turn.stack))?;
    line.push(b' ')?;
    line.extend_from_slice(script_name(turn.setting, home.script))?;
    line.push(b'.')?;
    line.extend_from_slice(home.function.name.as_bytes())?;
    let source = source_line(home.function.lines.as_slice(), place);
    append_number(&mut line, b':', u32::from(source))?;
    line.push(b' ')?;
    line.extend_from_slice(fault_name(fault))?;
    line.push(b'\n')?;
    Ok(line)
}

/// The line of a trace: `#k text`.
pub fn trace_line(alloc: Global, stack: u16, text: &Text) -> Made<Vec<u8>>
    ensures { IfOk result (λ line. line.items ≡ trace_line stack text.now) }
{
    let mut line = Vec::new(alloc);
    append_number(&mut line, b'#', u32::from(stack))?;
    line.push(b' ')?;
    append_escaped(&mut line, text.as_bytes())?;
    line.push(b'\n')?;
    Ok(line)
}

/// The name of the script of this number, empty where there is none.
pub fn script_name(setting: &Setting, script: u16) -> &[u8]
    ensures { result.now ≡ name_in (slice_get setting.now.loaded.outline script) }
{
    match setting.loaded.outline().scripts.get(usize::from(script)) {
        Some(outline) => outline.name.as_bytes(),
        None => &[],
    }
}

fn source_line(lines: &[u16], place: usize) -> u16
    ensures { result ≡ line_in (slice_get lines.now place) }
{
    match lines.get(place) {
        Some(line) => *line,
        None => 0,
    }
}

// Appends a mark and a number.
fn append_number(line: &mut Vec<u8>, mark: u8, number: u32) -> Made<()>
    ensures { IfOk result (λ _. line.new.items ≡ line.old.items ++ mark ∷ decimal number) }
{
    let digits = format!(in *line.allocator(); "{number}")?;
    line.push(mark)?;
    line.extend_from_slice(digits.as_bytes())?;
    Ok(())
}

/// Appends a text to a line, where a line feed stands as `\n` and a backslash as two.
///
/// # Errors
///
/// `OutOfMemory` comes where there is no room.
pub fn append_escaped(line: &mut Vec<u8>, text: &[u8]) -> Made<()>
    ensures { IfOk result (λ _. line.new.items ≡ line.old.items ++ escaped text.now) }
{
    for byte in text {
        append_byte(line, *byte)?;
    }
    Ok(())
}

fn append_byte(line: &mut Vec<u8>, byte: u8) -> Made<()>
    ensures { IfOk result (λ _. line.new.items ≡ line.old.items ++ escaped_byte byte) }
{
    match byte {
        b'\n' => line.extend_from_slice(b"\\n")?,
        b'\\' => line.extend_from_slice(b"\\\\")?,
        other => line.push(other)?,
    }
    Ok(())
}

fn fault_name(fault: StackFault) -> &'static [u8]
    ensures { result.now ≡ fault_name fault }
{
    match fault {
        StackFault::NoneCall => b"NoneCall",
        StackFault::NoneProperty => b"NoneProperty",
        StackFault::NoneArray => b"NoneArray",
        StackFault::IndexRange => b"IndexRange",
        StackFault::DivideZero => b"DivideZero",
        StackFault::TextTooLong => b"TextTooLong",
        StackFault::FrameLimit => b"FrameLimit",
        StackFault::ArrayLimit => b"ArrayLimit",
    }
}
