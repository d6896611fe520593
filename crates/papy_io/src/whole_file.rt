//! Whole files: read from a desk up to a limit, and written to it.
ghost use Rattle.std.specs.Prelude.{◌≡◌};
ghost use Rattle.papy_io.specs.declared.whole_file.ReadAllFault.TheVariants as fault;
ghost use Rattle.papy_io.specs.Activity.{Idle, IsReading};
ghost use Rattle.papy_io.specs.ReadAll.{CountsFile, CountsReadFault, MissesFile, MissesLeft, ReadsFile, ReadsLeft};
ghost use Rattle.papy_io.specs.WriteFile.{WritesFile};
ghost use Rattle.papy_io.specs.Count.{CountsFaults};

use crate::desk::Desk;
use crate::fault::{Failed, IoFault};
use std::alloc::{AllocError, Global};
use thiserror::Error;

/// Why a file wasn't read.
#[derive(Clone, Copy, Debug, PartialEq, Eq, Error)]
pub enum ReadAllFault {
    /// The desk failed to start, to read or to finish.
    #[error("the file cannot be read")]
    ReadFault,
    /// The file has more bytes than the limit.
    #[error("the file is too large")]
    TooLarge,
    /// No memory was found.
    #[error("out of memory")]
    OutOfMemory,
}

impl From<Failed> for ReadAllFault {
    ghost from_gives = { λ _ e. e ≡ fault.ReadFault };

    fn from(_: Failed) -> ReadAllFault {
        ReadAllFault::ReadFault
    }
}

impl From<IoFault> for ReadAllFault {
    ghost use Rattle.papy_io.specs.ReadAll.{read_fault_of};

    ghost from_gives = { λ f e. e ≡ read_fault_of f };

    fn from(fault: IoFault) -> ReadAllFault {
        match fault {
            IoFault::Failed => ReadAllFault::ReadFault,
            IoFault::OutOfMemory => ReadAllFault::OutOfMemory,
        }
    }
}

impl From<AllocError> for ReadAllFault {
    ghost from_gives = { λ _ e. e ≡ fault.OutOfMemory };

    fn from(_: AllocError) -> ReadAllFault {
        ReadAllFault::OutOfMemory
    }
}

/// How many bytes are asked for at once.
const PIECE: usize = 8192;

/// Reads on to the end. The desk goes on reading the name after an error.
fn read_left<D: Desk>(alloc: Global, desk: &mut D, limit: u32) -> Result<Vec<u8>, ReadAllFault>
    requires { IsReading (D.busy desk.old) }
    ensures holds { D.holds desk.new ≡ D.holds desk.old }
    ensures left { ReadsLeft (D.busy desk.old) limit result (D.busy desk.new) }
    ensures taken { CountsFile limit result (D.taken desk.old) (D.taken desk.new) }
    ensures read_faults { CountsReadFault result (D.read_faults desk.old) (D.read_faults desk.new) }
    ensures write_faults { D.write_faults desk.new ≡ D.write_faults desk.old }
    ensures missed { MissesLeft (D.busy desk.old) result (D.missed desk.old) (D.missed desk.new) }
{
    let mut bytes = Vec::new(alloc);
    let mut buffer = [0u8; PIECE];
    loop {
        let count = desk.read(&mut buffer)?;
        if count == 0 {
            return Ok(bytes);
        }
        if count > limit as usize - bytes.len() {
            return Err(ReadAllFault::TooLarge);
        }
        bytes.extend_from_slice(&buffer[..count])?;
    }
}

/// Reads all bytes of a file, which are at most `limit`. The desk is idle afterwards.
///
/// `ReadFault` comes only where the desk failed, `TooLarge` only where it gave more bytes than
/// `limit`. A desk that never stops giving bytes is left after the first piece past the limit.
pub fn read_all<D: Desk>(
    alloc: Global,
    desk: &mut D,
    name: &[u8],
    limit: u32,
) -> Result<Vec<u8>, ReadAllFault>
    requires { D.busy desk.old ≡ Idle }
    ensures holds { D.holds desk.new ≡ D.holds desk.old }
    ensures busy { D.busy desk.new ≡ Idle }
    ensures bytes { ReadsFile (D.holds desk.old) name.now limit result }
    ensures taken { CountsFile limit result (D.taken desk.old) (D.taken desk.new) }
    ensures read_faults { CountsReadFault result (D.read_faults desk.old) (D.read_faults desk.new) }
    ensures write_faults { D.write_faults desk.new ≡ D.write_faults desk.old }
    ensures missed { MissesFile name.now result (D.missed desk.old) (D.missed desk.new) }
{
    desk.start_read(name)?;
    let all = read_left(alloc, desk, limit);
    desk.finish()?;
    all
}

/// Makes a name hold these bytes. The desk is idle afterwards.
///
/// After an error the name holds some of the first bytes, or what it held, or is not held, and every
/// other name is as it was. `Failed` comes only where the desk failed.
pub fn write_file<D: Desk>(desk: &mut D, name: &[u8], bytes: &[u8]) -> Result<(), IoFault>
    requires { D.busy desk.old ≡ Idle }
    ensures holds { WritesFile name.now bytes.now result (D.holds desk.old) (D.holds desk.new) }
    ensures busy { D.busy desk.new ≡ Idle }
    ensures taken { D.taken desk.new ≡ D.taken desk.old }
    ensures read_faults { D.read_faults desk.new ≡ D.read_faults desk.old }
    ensures write_faults { CountsFaults result (D.write_faults desk.old) (D.write_faults desk.new) }
    ensures missed { D.missed desk.new ≡ D.missed desk.old }
{
    desk.start_write(name)?;
    let written = desk.write(bytes);
    desk.finish()?;
    written
}
