//! Compiled files.
ghost use Rattle.std.specs.Prelude.{◌≡◌, ◌≤◌, vec_len, IfOk};
ghost use Rattle.papy_io.specs.Activity.{Idle};
ghost use Rattle.pex_codec.specs.Decoding.{IsDecoded, SpellOne};
ghost use Rattle.command_files.specs.FileFault.{CountsFile, MissesFile};
ghost use Rattle.command_files.specs.PexFile.{CountsPex, IsRefusalOf, ReadsBytes, ReadsPex};

use crate::file_fault::FileFault;
use crate::refusal::{Place, Rule};
use crate::text_file::read_text;
use papy_io::Desk;
use pex_codec::{PexFault, PexRule, decode, judge};
use pex_values::{FILE_LIMIT, Pex};
use std::alloc::Global;

/// A compiled file that was read, with its bytes.
#[derive(Drop)]
pub struct PexFile {
    /// What it spells.
    pub value: Pex,
    /// Its bytes.
    pub bytes: Vec<u8>,
}

/// The bytes of a compiled file. One of more than 16 MiB is refused.
fn read_bytes<D: Desk>(alloc: Global, desk: &mut D, name: &[u8]) -> Result<Vec<u8>, FileFault>
    requires { D.busy desk.old ≡ Idle }
    ensures holds { D.holds desk.new ≡ D.holds desk.old }
    ensures busy { D.busy desk.new ≡ Idle }
    ensures write_faults { D.write_faults desk.new ≡ D.write_faults desk.old }
    ensures read_faults { CountsFile result (D.read_faults desk.old) (D.read_faults desk.new) }
    ensures missed { MissesFile name.now result (D.missed desk.new) }
    ensures small { IfOk result (λ bytes. vec_len bytes ≤ 16777216) }
    ensures read { ReadsBytes (D.holds desk.old) name.now result }
{
    let place = Place::Offset(FILE_LIMIT);
    let rule = Rule::Pex(PexRule::TooLarge);
    read_text(alloc, desk, name, FILE_LIMIT, place, rule)
}

/// Why a file that was read gave nothing.
fn refused(fault: PexFault) -> FileFault
    ensures { IsRefusalOf fault result }
{
    match fault {
        PexFault::OutOfMemory => FileFault::OutOfMemory,
        PexFault::Broken { offset, rule } => FileFault::Refused {
            place: Place::Offset(offset),
            rule: Rule::Pex(rule),
        },
    }
}

/// Reads a compiled file. It is refused with the first rule P that it breaks, but one of more than 16 MiB with P12, whatever else it
/// breaks. `ReadFault` comes where it wasn't read.
#[tactic(auto, using(crate::proofs::PexRead::read_unread, crate::proofs::PexRead::read_refused, crate::proofs::PexRead::read_decoded, crate::proofs::PexRead::spelled_by))]
pub fn read_pex<D: Desk>(alloc: Global, desk: &mut D, name: &[u8]) -> Result<PexFile, FileFault>
    requires { D.busy desk.old ≡ Idle }
    ensures holds { D.holds desk.new ≡ D.holds desk.old }
    ensures busy { D.busy desk.new ≡ Idle }
    ensures write_faults { D.write_faults desk.new ≡ D.write_faults desk.old }
    ensures read_faults { CountsFile result (D.read_faults desk.old) (D.read_faults desk.new) }
    ensures missed { MissesFile name.now result (D.missed desk.new) }
    ensures decoded { IfOk result (λ file. IsDecoded (vec_len file.bytes) file.value) }
    ensures small { IfOk result (λ file. vec_len file.bytes ≤ 16777216) }
    ensures read { ReadsPex (D.holds desk.old) name.now result }
{
    let bytes = read_bytes(alloc, desk, name)?;
    match decode(alloc, &bytes) {
        Ok(value) => Ok(PexFile { value, bytes }),
        Err(fault) => {
            drop(bytes);
            Err(refused(fault))
        }
    }
}

/// Counts the bytes of a compiled file that `read_pex` would read, and refuses what it would refuse. It makes no value, so it takes less
/// time and memory.
#[tactic(auto, using(crate::proofs::PexRead::read_unread, crate::proofs::PexRead::read_refused, crate::proofs::PexRead::read_counted, crate::proofs::PexRead::spelled_one))]
pub fn count_pex<D: Desk>(alloc: Global, desk: &mut D, name: &[u8]) -> Result<usize, FileFault>
    requires { D.busy desk.old ≡ Idle }
    ensures holds { D.holds desk.new ≡ D.holds desk.old }
    ensures busy { D.busy desk.new ≡ Idle }
    ensures write_faults { D.write_faults desk.new ≡ D.write_faults desk.old }
    ensures read_faults { CountsFile result (D.read_faults desk.old) (D.read_faults desk.new) }
    ensures missed { MissesFile name.now result (D.missed desk.new) }
    ensures spelled { IfOk result SpellOne }
    ensures read { CountsPex (D.holds desk.old) name.now result }
{
    let bytes = read_bytes(alloc, desk, name)?;
    let size = bytes.len();
    let judged = judge(alloc, &bytes);
    drop(bytes);
    match judged {
        Ok(()) => Ok(size),
        Err(fault) => Err(refused(fault)),
    }
}
