ghost use Rattle.std.specs.Prelude.{◌≡◌};
ghost use Rattle.code_emit.specs.declared.faults.EmitFault.TheVariants as fault;

use code_lower::LowerFault;
use papy_base::OutOfMemory;
use std::alloc::{AllocError, AllocFailed};
use thiserror::Error;

/// What is found or written, unless it can't be.
pub(crate) type Result<T> = std::result::Result<T, EmitFault>;

/// Why a set of scripts has no files. No set of accepted scripts is known that meets any but the last.
#[derive(Clone, Copy, Debug, PartialEq, Eq, Error)]
pub enum EmitFault {
    /// A number names no script, function, variable, local or parameter, a call takes a native function for one with a body
    /// or the other way round, the result of a call that has none is used, or a literal is an instance or an array.
    #[error("a number names nothing")]
    OutOfRange,
    /// More than 65,535 strings, or in a function more than 65,535 instructions, more than 8,192 parameters and
    /// locals, an expression with more than 4,000 first operands inside each other, an If with more than 4,000
    /// tests, or more than 1,000 expressions and statements inside each other in another way.
    #[error("too large for a file")]
    TooLarge,
    /// No memory was found.
    #[error("out of memory")]
    OutOfMemory,
}

impl From<OutOfMemory> for EmitFault {
    ghost from_gives = { λ _ given. given ≡ fault.OutOfMemory };

    fn from(_error: OutOfMemory) -> EmitFault {
        EmitFault::OutOfMemory
    }
}

impl From<AllocError> for EmitFault {
    ghost from_gives = { λ _ given. given ≡ fault.OutOfMemory };

    fn from(_error: AllocError) -> EmitFault {
        EmitFault::OutOfMemory
    }
}

impl<T: Drop> From<AllocFailed<T>> for EmitFault {
    ghost from_gives = { λ _ given. given ≡ fault.OutOfMemory };

    fn from(_error: AllocFailed<T>) -> EmitFault {
        EmitFault::OutOfMemory
    }
}

impl From<LowerFault> for EmitFault {
    fn from(fault: LowerFault) -> EmitFault {
        match fault {
            LowerFault::OutOfRange => EmitFault::OutOfRange,
            LowerFault::TooLarge => EmitFault::TooLarge,
            LowerFault::OutOfMemory => EmitFault::OutOfMemory,
        }
    }
}
