ghost use Rattle.std.specs.Prelude.{◌≡◌};
ghost use Rattle.stack_save.specs.declared.fault.HeldFault.TheVariants.{Broken, OutOfMemory as NoMemoryToLoad};
ghost use Rattle.stack_save.specs.declared.fault.SaveFault.TheVariants.{OutOfMemory as NoMemoryToSave};
ghost use Rattle.stack_save.specs.Faults.{IsFileFault};

use papy_base::OutOfMemory;
use pex_codec::PexFault;
use std::alloc::{AllocError, AllocFailed};
use thiserror::Error;

/// Why a state wasn't saved.
#[derive(Clone, Copy, Debug, PartialEq, Eq, Error)]
pub enum SaveFault {
    /// The held file would have more than 67,108,864 bytes.
    #[error("the held file would be too large")]
    TooLarge,
    /// No memory was found.
    #[error("out of memory")]
    OutOfMemory,
}

impl From<AllocError> for SaveFault {
    ghost from_gives = { λ _ fault. fault ≡ NoMemoryToSave };

    fn from(_error: AllocError) -> SaveFault {
        SaveFault::OutOfMemory
    }
}

/// The rules of a held file, in the order in which they are judged.
#[derive(Clone, Copy, Debug, PartialEq, Eq)]
pub enum HeldRule {
    /// H7: the file has more than 67,108,864 bytes.
    TooLarge,
    /// H1: the first five bytes aren't 50 48 4C 44 01.
    BadMagic,
    /// H2: the bytes aren't the fields of a held file.
    BadLayout,
    /// H3: a PEX file in it can't be decoded, or the files don't verify.
    BadFiles,
    /// H4: the scene in it can't be read or bound.
    BadScene,
    /// H5: the state isn't one that a run of the files and the scene could have.
    BadState,
    /// H6: the devices aren't those that were held, in number or in kind.
    OtherDevices,
}

/// Why a held file wasn't loaded.
#[derive(Clone, Copy, Debug, PartialEq, Eq, Error)]
pub enum HeldFault {
    /// The first rule that is broken.
    #[error("{rule:?}")]
    Broken { rule: HeldRule },
    /// No memory was found.
    #[error("out of memory")]
    OutOfMemory,
}

impl From<OutOfMemory> for HeldFault {
    ghost from_gives = { λ _ fault. fault ≡ NoMemoryToLoad };

    fn from(_error: OutOfMemory) -> HeldFault {
        HeldFault::OutOfMemory
    }
}

impl From<AllocError> for HeldFault {
    ghost from_gives = { λ _ fault. fault ≡ NoMemoryToLoad };

    fn from(_error: AllocError) -> HeldFault {
        HeldFault::OutOfMemory
    }
}

impl<T: Drop> From<AllocFailed<T>> for HeldFault {
    ghost from_gives = { λ _ fault. fault ≡ NoMemoryToLoad };

    fn from(_error: AllocFailed<T>) -> HeldFault {
        HeldFault::OutOfMemory
    }
}

impl From<PexFault> for HeldFault {
    ghost from_gives = { IsFileFault };

    fn from(fault: PexFault) -> HeldFault {
        match fault {
            PexFault::Broken { .. } => refused(HeldRule::BadFiles),
            PexFault::OutOfMemory => HeldFault::OutOfMemory,
        }
    }
}

/// That a held file is refused by this rule.
pub(crate) fn refused(rule: HeldRule) -> HeldFault
    ensures { result ≡ Broken rule }
{
    HeldFault::Broken { rule }
}

/// A part that was read. The rule `BadLayout` is broken where it isn't at the front of the bytes.
pub(crate) type Taken<T> = Result<T, HeldFault>;
