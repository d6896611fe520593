ghost use Rattle.std.specs.Prelude.{◌≡◌};
ghost use Rattle.papy_io.specs.declared.fault.IoFault.TheVariants as io;

use papy_base::OutOfMemory;
use std::alloc::AllocError;
use thiserror::Error;

/// The system, or the desk or sink itself, refused a call.
#[derive(Clone, Copy, Debug, PartialEq, Eq, Error)]
#[error("the device failed")]
pub struct Failed;

/// Why a call that may take memory didn't succeed.
#[derive(Clone, Copy, Debug, PartialEq, Eq, Error)]
pub enum IoFault {
    /// The system, or the desk or sink itself, refused the call.
    #[error("the device failed")]
    Failed,
    /// No memory was found, and nothing has changed.
    #[error("out of memory")]
    OutOfMemory,
}

impl From<Failed> for IoFault {
    ghost from_gives = { λ _ e. e ≡ io.Failed };

    fn from(_: Failed) -> IoFault {
        IoFault::Failed
    }
}

impl From<OutOfMemory> for IoFault {
    ghost from_gives = { λ _ e. e ≡ io.OutOfMemory };

    fn from(_: OutOfMemory) -> IoFault {
        IoFault::OutOfMemory
    }
}

impl From<AllocError> for IoFault {
    ghost from_gives = { λ _ e. e ≡ io.OutOfMemory };

    fn from(_: AllocError) -> IoFault {
        IoFault::OutOfMemory
    }
}
