//! The command that compiles scripts to files.
ghost use Rattle.std.specs.Prelude.{◌≡◌, ◌≢◌, ◌+◌, ◌≤◌, length, map};
ghost use Rattle.std.specs.String.{string_bytes};
ghost use Rattle.papy_io.specs.Activity.{Idle};
ghost use Rattle.command_files.specs.Outputs.{EndsUnprinted};
ghost use Rattle.papyrus_cmd.specs.Answers.{CompileAnswersTo};
ghost use Rattle.papyrus_cmd.specs.Compile.{CompileLeaves};
ghost use Rattle.command_files.specs.Ending.{CountsReads, CountsWrites, IsWordBelow, MissesScript};

use crate::written::write_each;
use command_files::{Ending, accept, compile_set};
use papy_io::Desk;
use std::alloc::Global;
use std::mem;

/// Reads and judges the scripts, and writes the compiled file of each under its name with `.pex` in the
/// place of `.psc`, in their order. Nothing is written before all of them have their bytes.
pub fn compile<D: Desk>(alloc: Global, scripts: &[String], desk: &mut D) -> Ending
    requires idle { D.busy desk.old ≡ Idle }
    requires few { length scripts.now ≤ 256 }
    ensures busy { D.busy desk.new ≡ Idle }
    ensures holds { CompileLeaves (map string_bytes scripts.now) result (D.holds desk.old) (D.holds desk.new) }
    ensures write_faults { CountsWrites result (D.write_faults desk.old) (D.write_faults desk.new) }
    ensures read_faults { CountsReads result (D.read_faults desk.old) (D.read_faults desk.new) }
    ensures missed { MissesScript (map string_bytes scripts.now) result (D.missed desk.new) }
    ensures never_usage { result ≢ Ending.Usage }
    ensures word { IsWordBelow (length scripts.now + 1) result }
    ensures output { EndsUnprinted (CompileAnswersTo (map string_bytes scripts.now)) (D.holds desk.old) result }
{
    let set = match accept(alloc, scripts, desk) {
        Ok(set) => set,
        Err(ending) => return ending,
    };
    let compiled = match compile_set(alloc, &set) {
        Ok(compiled) => compiled,
        Err(fault) => return Ending::from(fault),
    };
    match write_each(alloc, desk, scripts, &compiled.files) {
        Ok(()) => {
            // The end of the program gives their memory back at once, and taking them apart doesn't.
            mem::forget(compiled);
            mem::forget(set);
            Ending::Done
        }
        Err(fault) => {
            drop(compiled);
            Ending::from(fault)
        }
    }
}
