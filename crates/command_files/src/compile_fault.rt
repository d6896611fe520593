//! Why accepted scripts have no compiled files.
ghost use Rattle.std.specs.Prelude.{◌≡◌};
ghost use Rattle.command_files.specs.declared.compile_fault.CompileFault.TheVariants as compile;

use crate::ending::Ending;
use code_emit::EmitFault;
use pex_codec::EncodeFault;
use pex_verify::VerifyFault;
use std::alloc::{AllocError, AllocFailed};

/// Why accepted scripts have no compiled files.
#[derive(Clone, Copy, PartialEq, Eq)]
pub enum CompileFault {
    /// A script has no value, or one that doesn't fit a file or breaks a rule of files that run
    /// together.
    NotBuilt,
    /// No memory was found.
    OutOfMemory,
}

impl From<EmitFault> for CompileFault {
    fn from(fault: EmitFault) -> CompileFault {
        match fault {
            EmitFault::OutOfMemory => CompileFault::OutOfMemory,
            EmitFault::OutOfRange | EmitFault::TooLarge => CompileFault::NotBuilt,
        }
    }
}

impl From<EncodeFault> for CompileFault {
    fn from(fault: EncodeFault) -> CompileFault {
        match fault {
            EncodeFault::OutOfMemory => CompileFault::OutOfMemory,
            EncodeFault::TooManyItems => CompileFault::NotBuilt,
        }
    }
}

impl From<VerifyFault> for CompileFault {
    fn from(fault: VerifyFault) -> CompileFault {
        match fault {
            VerifyFault::OutOfMemory => CompileFault::OutOfMemory,
            VerifyFault::Broken { .. } => CompileFault::NotBuilt,
        }
    }
}

impl From<AllocError> for CompileFault {
    ghost from_gives = { λ _ given. given ≡ compile.OutOfMemory };

    fn from(_: AllocError) -> CompileFault {
        CompileFault::OutOfMemory
    }
}

impl<T: Drop> From<AllocFailed<T>> for CompileFault {
    ghost from_gives = { λ _ given. given ≡ compile.OutOfMemory };

    fn from(_: AllocFailed<T>) -> CompileFault {
        CompileFault::OutOfMemory
    }
}

impl From<CompileFault> for Ending {
    ghost use Rattle.command_files.specs.Ending.{compile_ending};

    ghost from_gives = { λ fault ending. ending ≡ compile_ending fault };

    fn from(fault: CompileFault) -> Ending {
        match fault {
            CompileFault::NotBuilt => Ending::NotBuilt,
            CompileFault::OutOfMemory => Ending::OutOfMemory,
        }
    }
}
