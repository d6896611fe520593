//! The line that tells how a command ended, and the status after it.
ghost use Rattle.std.specs.Prelude.{◌≡◌, IfOk, OnErr, map};
ghost use Rattle.std.specs.String.{string_bytes};
ghost use Rattle.command_files.specs.Ending.{cannot_read, out_of_memory, IsWordOf};
ghost use Rattle.command_files.specs.Refusal.{refusal_line, rule_status};
ghost use Rattle.papyrus_cmd.specs.TopCall.{Noted, Told, ToldOfFile, Tried};

use command_files::{Ending, Place, Rule, refusal_line};
use papy_base::{Made, OutOfMemory};
use papy_io::{IoFault, Sink};
use std::alloc::Global;

const OUT_OF_MEMORY: &[u8] = b"papyrus: out of memory\n";

const USAGE: &[u8] = b"papyrus: usage\n";

const CANNOT_READ: &[u8] = b"papyrus: cannot read ";

const CANNOT_WRITE: &[u8] = b"papyrus: cannot write\n";

const NOT_BUILT: &[u8] = b"papyrus: not built\n";

/// Writes a line. The status is the wanted one where it was written, 4 where that failed, and 1
/// where it found no memory.
fn note<E: Sink>(notes: &mut E, line: &[u8], wanted: u8) -> u8
    ensures { Noted line.now wanted result (E.written notes.old) (E.written notes.new) (E.faults notes.old) (E.faults notes.new) }
{
    match notes.write(line) {
        Ok(()) => wanted,
        Err(IoFault::Failed) => 4,
        Err(IoFault::OutOfMemory) => 1,
    }
}

/// Writes as much of a line as can be.
fn try_note<E: Sink>(notes: &mut E, line: &[u8])
    ensures { Tried line.now (E.written notes.old) (E.written notes.new) }
{
    let _ = notes.write(line);
}

fn cannot_read(alloc: Global, file: &[u8]) -> Made<Vec<u8>>
    ensures { IfOk result (λ line. line.items ≡ cannot_read file.now) }
{
    let mut line = Vec::with_capacity(alloc, CANNOT_READ.len())?;
    line.extend_from_slice(CANNOT_READ)?;
    line.extend_from_slice(file)?;
    line.push(b'\n')?;
    Ok(line)
}

/// Writes a line that names a file and gives the status, or tells that there was no memory for it.
fn note_of_file<E: Sink>(line: Made<Vec<u8>>, wanted: u8, notes: &mut E) -> u8
    ensures built { IfOk line (λ bytes. ToldOfFile bytes.items wanted result (E.written notes.old) (E.written notes.new) (E.faults notes.old) (E.faults notes.new)) }
    ensures not_built { OnErr line ((result ≡ 1) × Tried out_of_memory (E.written notes.old) (E.written notes.new)) }
{
    match line {
        Ok(line) => note(notes, &line, wanted),
        Err(_) => {
            try_note(notes, OUT_OF_MEMORY);
            1
        }
    }
}

/// Tells that a file was not read, and gives the status.
fn tell_unread<E: Sink>(alloc: Global, file: &[u8], notes: &mut E) -> u8
    ensures { ToldOfFile (cannot_read file.now) 3 result (E.written notes.old) (E.written notes.new) (E.faults notes.old) (E.faults notes.new) }
{
    let line = cannot_read(alloc, file);
    note_of_file(line, 3, notes)
}

/// Tells which rule a file breaks, and gives the status.
fn tell_refused<E: Sink>(alloc: Global, file: &[u8], place: &Place, rule: Rule, notes: &mut E) -> u8
    ensures { ToldOfFile (refusal_line file.now place.now rule) (rule_status rule) result (E.written notes.old) (E.written notes.new) (E.faults notes.old) (E.faults notes.new) }
{
    let line = refusal_line(alloc, file, place, rule);
    note_of_file(line, rule.status(), notes)
}

/// Tells in one line on `notes` how the command of these words ended, and gives the status.
pub fn tell<E: Sink>(alloc: Global, words: &[String], ending: Ending, notes: &mut E) -> u8
    requires { IsWordOf (map string_bytes words.now) ending }
    ensures { Told (map string_bytes words.now) ending result (E.written notes.old) (E.written notes.new) (E.faults notes.old) (E.faults notes.new) }
{
    match ending {
        Ending::Done => 0,
        Ending::OutOfMemory => {
            try_note(notes, OUT_OF_MEMORY);
            1
        }
        Ending::WriteFault => {
            try_note(notes, CANNOT_WRITE);
            4
        }
        Ending::Usage => note(notes, USAGE, 2),
        Ending::NotBuilt => note(notes, NOT_BUILT, 10),
        Ending::ReadFault { word } => tell_unread(alloc, words[word].as_bytes(), notes),
        Ending::Refused { word, place, rule } => {
            tell_refused(alloc, words[word].as_bytes(), &place, rule, notes)
        }
    }
}
