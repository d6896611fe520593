//! The command that checks a journal and counts for how many turns stacks waited.
ghost use Rattle.std.specs.Prelude.{◌≡◌, ◌≢◌, ◌<◌, ◌++◌, length, map, IfOk};
ghost use Rattle.std.specs.String.{string_bytes};
ghost use Rattle.papy_io.specs.Activity.{Idle};
ghost use Rattle.papy_io.specs.Count.{CountsFaults};
ghost use Rattle.command_files.specs.Outputs.{AnswersTo, Outputs};
ghost use Rattle.command_files.specs.Ending.{CountsReads, CountsWrites, IsWordBelow, MissesScript, word_at};
ghost use Rattle.command_files.specs.FileFault.{CountsFile, MissesFile};
ghost use Rattle.papyrus_cmd.specs.Answers.{WaitsAnswers};
ghost use Rattle.papyrus_cmd.specs.Waits.{Checks, ReadsWaits, counted_line, counted_text};
ghost use Rattle.papy_io.specs.Sink.{WritesText};

use crate::check::accepted_line;
use command_files::{Ending, FileFault, Place, Rule, read_text};
use papy_base::{Made, OutOfMemory, Text};
use papy_io::{Desk, IoFault, Sink};
use run_replay::{JournalFault, JournalRule, check_journal};
use std::alloc::Global;

/// The most bytes of a journal: 128 MiB.
const JOURNAL_LIMIT: u32 = 1 << 27;

/// What a journal counts, or which rule it breaks first.
fn checked(alloc: Global, journal: &[u8]) -> Result<run_replay::Waits, FileFault>
    ensures { Checks journal.now result }
{
    match check_journal(alloc, journal) {
        Ok(found) => Ok(found),
        Err(JournalFault::OutOfMemory) => Err(FileFault::OutOfMemory),
        Err(JournalFault::Broken { line, rule }) => Err(FileFault::Refused {
            place: Place::Line(line),
            rule: Rule::Journal(rule),
        }),
    }
}

/// Reads a journal and checks it.
fn read_waits<D: Desk>(
    alloc: Global,
    desk: &mut D,
    name: &[u8],
) -> Result<run_replay::Waits, FileFault>
    requires { D.busy desk.old ≡ Idle }
    ensures holds { D.holds desk.new ≡ D.holds desk.old }
    ensures busy { D.busy desk.new ≡ Idle }
    ensures write_faults { D.write_faults desk.new ≡ D.write_faults desk.old }
    ensures read_faults { CountsFile result (D.read_faults desk.old) (D.read_faults desk.new) }
    ensures missed { MissesFile name.now result (D.missed desk.new) }
    ensures read { ReadsWaits (D.holds desk.old) name.now result }
{
    let journal = match read_text(
        alloc,
        desk,
        name,
        JOURNAL_LIMIT,
        Place::Line(0),
        Rule::Journal(JournalRule::BadLine),
    ) {
        Ok(journal) => journal,
        Err(fault) => return Err(fault),
    };
    checked(alloc, &journal)
}

/// Appends the line of an instance.
fn append_count(alloc: Global, text: &mut Vec<u8>, instance: &(Text, u64)) -> Made<()>
    ensures { IfOk result (λ _. text.new.items ≡ text.old.items ++ counted_line instance.now) }
{
    let count = format!(in alloc; " {}\n", instance.1)?;
    text.extend_from_slice(instance.0.as_bytes())?;
    text.extend_from_slice(count.as_bytes())?;
    Ok(())
}

fn counted_text(alloc: Global, found: &run_replay::Waits) -> Made<Vec<u8>>
    ensures { IfOk result (λ text. text.items ≡ counted_text found.now) }
{
    let first = accepted_line(alloc, found.turns as usize)?;
    let mut text = first.as_bytes().to_vec(alloc)?;
    for instance in &found.instances {
        append_count(alloc, &mut text, instance)?;
    }
    Ok(text)
}

fn write_counted<S: Sink>(
    alloc: Global,
    found: &run_replay::Waits,
    out: &mut S,
) -> Result<(), IoFault>
    ensures written { WritesText (counted_text found.now) result (S.written out.old) (S.written out.new) }
    ensures faults { CountsFaults result (S.faults out.old) (S.faults out.new) }
{
    let text = counted_text(alloc, found)?;
    out.write(&text)
}

/// Reads the journal that the first word names, and writes `ok` and the number of its turns, and then for each of
/// its instances the name and the number of turns for which stacks waited for it, all together.
pub fn waits<D: Desk, S: Sink>(alloc: Global, files: &[String], desk: &mut D, out: &mut S) -> Ending
    requires idle { D.busy desk.old ≡ Idle }
    requires some { 0 < length files.now }
    ensures busy { D.busy desk.new ≡ Idle }
    ensures holds { D.holds desk.new ≡ D.holds desk.old }
    ensures write_faults { D.write_faults desk.new ≡ D.write_faults desk.old }
    ensures read_faults { CountsReads result (D.read_faults desk.old) (D.read_faults desk.new) }
    ensures missed { MissesScript (map string_bytes files.now) result (D.missed desk.new) }
    ensures faults { CountsWrites result (S.faults out.old) (S.faults out.new) }
    ensures never_usage { result ≢ Ending.Usage }
    ensures word { IsWordBelow 2 result }
    ensures output { Outputs (AnswersTo WaitsAnswers (word_at (map string_bytes files.now) 0)) (D.holds desk.old) result (S.written out.old) (S.written out.new) }
{
    let found = match read_waits(alloc, desk, files[0].as_bytes()) {
        Ok(found) => found,
        Err(fault) => return fault.at_word(1),
    };
    match write_counted(alloc, &found, out) {
        Ok(()) => Ending::Done,
        Err(fault) => Ending::from(fault),
    }
}
