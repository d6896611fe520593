//! The command that writes sources of compiled files.
ghost use Rattle.std.specs.Prelude.{◌≡◌, ◌≢◌, ◌+◌, ◌<◌, ◌≤◌, length, map};
ghost use Rattle.std.specs.String.{string_bytes};
ghost use Rattle.papy_io.specs.Activity.{Idle};
ghost use Rattle.pex_values.specs.Plain.{plain};
ghost use Rattle.command_files.specs.Ending.{CountsReads, CountsWrites, IsWordBelow, MissesScript};
ghost use Rattle.command_files.specs.Outputs.{EndsUnprinted};
ghost use Rattle.papyrus_cmd.specs.Answers.{LiftAnswersTo};
ghost use Rattle.papyrus_cmd.specs.Lift.{LiftLeaves, Lifts};

use crate::written::write_sources;
use command_files::{Ending, Place, Rule};
use papy_base::Text;
use papy_io::Desk;
use pex_lift::{LiftFault, lift as lift_files};
use pex_values::Pex;
use run_commands::read_set;
use std::alloc::Global;
use std::mem;

/// The sources of compiled files, or how the command ends that finds none.
fn lifted(alloc: Global, values: &Vec<Pex>) -> Result<Vec<Text>, Ending>
    ensures { Lifts (map plain values.now.items) result }
{
    match lift_files(alloc, values) {
        Ok(texts) => Ok(texts),
        Err(LiftFault::OutOfMemory) => Err(Ending::OutOfMemory),
        Err(LiftFault::Broken { rule }) => Err(Ending::Refused {
            word: 1,
            place: Place::Whole,
            rule: Rule::Lifting(rule),
        }),
    }
}

/// Reads compiled files, verifies them together, and writes a source of each under its name with `.lift.psc` in the place of
/// `.pex`, in their order. Nothing is written before all of them have their sources.
pub fn lift<D: Desk>(alloc: Global, files: &[String], desk: &mut D) -> Ending
    requires idle { D.busy desk.old ≡ Idle }
    requires some { 0 < length files.now }
    requires few { length files.now ≤ 256 }
    ensures busy { D.busy desk.new ≡ Idle }
    ensures holds { LiftLeaves (map string_bytes files.now) result (D.holds desk.old) (D.holds desk.new) }
    ensures write_faults { CountsWrites result (D.write_faults desk.old) (D.write_faults desk.new) }
    ensures read_faults { CountsReads result (D.read_faults desk.old) (D.read_faults desk.new) }
    ensures missed { MissesScript (map string_bytes files.now) result (D.missed desk.new) }
    ensures never_usage { result ≢ Ending.Usage }
    ensures word { IsWordBelow (length files.now + 1) result }
    ensures output { EndsUnprinted (LiftAnswersTo (map string_bytes files.now)) (D.holds desk.old) result }
{
    let set = match read_set(alloc, files, desk) {
        Ok(set) => set,
        Err(ending) => return ending,
    };
    let found = lifted(alloc, set.files());
    // The end of the program gives its memory back at once, and taking it apart doesn't.
    mem::forget(set);
    let texts = match found {
        Ok(texts) => texts,
        Err(ending) => return ending,
    };
    match write_sources(alloc, desk, files, &texts) {
        Ok(()) => Ending::Done,
        Err(fault) => Ending::from(fault),
    }
}
