//! The command that lists a compiled file.
ghost use Rattle.std.specs.Prelude.{◌≡◌, ◌≢◌, ◌<◌, length, map};
ghost use Rattle.std.specs.String.{string_bytes};
ghost use Rattle.papy_io.specs.Activity.{Idle};
ghost use Rattle.command_files.specs.Outputs.{AnswersTo, Outputs};
ghost use Rattle.papyrus_cmd.specs.Answers.{ShowAnswers};
ghost use Rattle.command_files.specs.Ending.{CountsReads, CountsWrites, IsWordBelow, MissesScript, word_at};

use command_files::{Ending, read_pex};
use papy_io::{Desk, Sink};
use pex_listing::{ShowFault, show as write_listing};
use std::alloc::Global;
use std::mem;

/// Reads the compiled file that the first word names, and writes its listing.
pub fn show<D: Desk, S: Sink>(alloc: Global, files: &[String], desk: &mut D, out: &mut S) -> Ending
    requires idle { D.busy desk.old ≡ Idle }
    requires some { 0 < length files.now }
    ensures busy { D.busy desk.new ≡ Idle }
    ensures holds { D.holds desk.new ≡ D.holds desk.old }
    ensures write_faults { D.write_faults desk.new ≡ D.write_faults desk.old }
    ensures read_faults { CountsReads result (D.read_faults desk.old) (D.read_faults desk.new) }
    ensures missed { MissesScript (map string_bytes files.now) result (D.missed desk.new) }
    ensures faults { CountsWrites result (S.faults out.old) (S.faults out.new) }
    ensures never_usage { result ≢ Ending.Usage }
    ensures word { IsWordBelow 2 result }
    ensures output { Outputs (AnswersTo ShowAnswers (word_at (map string_bytes files.now) 0)) (D.holds desk.old) result (S.written out.old) (S.written out.new) }
{
    let file = &files[0];
    let pex = match read_pex(alloc, desk, file.as_bytes()) {
        Ok(pex) => pex,
        Err(fault) => return fault.at_word(1),
    };
    match write_listing(alloc, &pex.value, out) {
        Ok(()) => {
            // The end of the program gives the value's memory back at once, and taking it apart doesn't.
            mem::forget(pex);
            Ending::Done
        }
        Err(ShowFault::WriteFault) => {
            drop(pex);
            Ending::WriteFault
        }
        Err(ShowFault::OutOfMemory) => {
            drop(pex);
            Ending::OutOfMemory
        }
    }
}
