//! Files that are read whole.
ghost use Rattle.std.specs.Prelude.{◌≡◌, ◌≤◌, vec_len, IfOk};
ghost use Rattle.papy_io.specs.Activity.{Idle};
ghost use Rattle.command_files.specs.FileFault.{CountsFile, MissesFile};
ghost use Rattle.command_files.specs.TextFile.{ReadsText};

use crate::file_fault::FileFault;
use crate::refusal::{Place, Rule};
use papy_io::{Desk, ReadAllFault, read_all};
use std::alloc::Global;

/// Reads a whole file. One of more bytes than `limit` breaks `rule` at `place`.
///
/// # Errors
///
/// `ReadFault` comes where the desk refused to read, `Refused` where the file is too large, and
/// `OutOfMemory` where there is no room for it.
pub fn read_text<D: Desk>(
    alloc: Global,
    desk: &mut D,
    name: &[u8],
    limit: u32,
    place: Place,
    rule: Rule,
) -> Result<Vec<u8>, FileFault>
    requires { D.busy desk.old ≡ Idle }
    ensures holds { D.holds desk.new ≡ D.holds desk.old }
    ensures busy { D.busy desk.new ≡ Idle }
    ensures write_faults { D.write_faults desk.new ≡ D.write_faults desk.old }
    ensures read_faults { CountsFile result (D.read_faults desk.old) (D.read_faults desk.new) }
    ensures missed { MissesFile name.now result (D.missed desk.new) }
    ensures small { IfOk result (λ text. vec_len text ≤ limit) }
    ensures read { ReadsText (D.holds desk.old) name.now limit place rule result }
{
    match read_all(alloc, desk, name, limit) {
        Ok(text) => Ok(text),
        Err(ReadAllFault::TooLarge) => Err(FileFault::Refused { place, rule }),
        Err(ReadAllFault::ReadFault) => Err(FileFault::ReadFault),
        Err(ReadAllFault::OutOfMemory) => Err(FileFault::OutOfMemory),
    }
}
