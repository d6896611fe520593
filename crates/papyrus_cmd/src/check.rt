//! The command that tells whether a compiled file breaks a rule.
ghost use Rattle.std.specs.Prelude.{◌≡◌, ◌≢◌, ◌<◌, length, map, IfOk};
ghost use Rattle.std.specs.String.{string_bytes};
ghost use Rattle.papy_io.specs.Activity.{Idle};
ghost use Rattle.papy_io.specs.Count.{CountsFaults};
ghost use Rattle.command_files.specs.Outputs.{AnswersTo, Outputs};
ghost use Rattle.papyrus_cmd.specs.Answers.{CheckAnswers};
ghost use Rattle.papyrus_cmd.specs.Check.{accepted_line};
ghost use Rattle.command_files.specs.Ending.{CountsReads, CountsWrites, IsWordBelow, MissesScript, word_at};
ghost use Rattle.papy_io.specs.Sink.{WritesText};

use command_files::{Ending, count_pex};
use papy_base::Made;
use papy_io::{Desk, IoFault, Sink};
use std::alloc::Global;

/// The line of a file that was accepted, with a number.
pub fn accepted_line(alloc: Global, size: usize) -> Made<String>
    ensures { IfOk result (λ line. string_bytes line ≡ accepted_line size) }
{
    Ok(format!(in alloc; "ok {size}\n")?)
}

fn write_accepted<S: Sink>(alloc: Global, size: usize, out: &mut S) -> Result<(), IoFault>
    ensures written { WritesText (accepted_line size) result (S.written out.old) (S.written out.new) }
    ensures faults { CountsFaults result (S.faults out.old) (S.faults out.new) }
{
    let line = accepted_line(alloc, size)?;
    out.write(line.as_bytes())
}

/// Reads the compiled file that the first word names, and writes `ok` and the number of its bytes.
pub fn check<D: Desk, S: Sink>(alloc: Global, files: &[String], desk: &mut D, out: &mut S) -> Ending
    requires idle { D.busy desk.old ≡ Idle }
    requires some { 0 < length files.now }
    ensures busy { D.busy desk.new ≡ Idle }
    ensures holds { D.holds desk.new ≡ D.holds desk.old }
    ensures write_faults { D.write_faults desk.new ≡ D.write_faults desk.old }
    ensures read_faults { CountsReads result (D.read_faults desk.old) (D.read_faults desk.new) }
    ensures missed { MissesScript (map string_bytes files.now) result (D.missed desk.new) }
    ensures faults { CountsWrites result (S.faults out.old) (S.faults out.new) }
    ensures never_usage { result ≢ Ending.Usage }
    ensures word { IsWordBelow 2 result }
    ensures output { Outputs (AnswersTo CheckAnswers (word_at (map string_bytes files.now) 0)) (D.holds desk.old) result (S.written out.old) (S.written out.new) }
{
    let file = &files[0];
    let size = match count_pex(alloc, desk, file.as_bytes()) {
        Ok(size) => size,
        Err(fault) => return fault.at_word(1),
    };
    match write_accepted(alloc, size, out) {
        Ok(()) => Ending::Done,
        Err(fault) => Ending::from(fault),
    }
}
