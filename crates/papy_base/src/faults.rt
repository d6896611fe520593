ghost use Rattle.std.specs.Prelude.{◌≡◌};
ghost use Rattle.papy_base.specs.declared.faults.Fault.TheVariants.{OutOfMemory as NoMemory};
ghost use Rattle.papy_base.specs.declared.faults.JoinFault.TheVariants.{OutOfMemory as JoinOutOfMemory};

use std::alloc::{AllocError, AllocFailed};
use thiserror::Error;

/// No memory was found. It may come in place of any other answer of a call that takes an allocator.
#[derive(Clone, Copy, Debug, PartialEq, Eq, Error)]
#[error("out of memory")]
pub struct OutOfMemory;

/// What was made, unless there was no memory for it.
pub type Made<T> = Result<T, OutOfMemory>;

impl From<AllocError> for OutOfMemory {
    fn from(_error: AllocError) -> OutOfMemory {
        OutOfMemory
    }
}

impl<T: Drop> From<AllocFailed<T>> for OutOfMemory {
    fn from(_error: AllocFailed<T>) -> OutOfMemory {
        OutOfMemory
    }
}

/// Why a part gives nothing, before its place is known: what is broken in it, or that no memory was found.
#[derive(Clone, Copy, PartialEq, Eq)]
pub enum Fault<B> {
    /// What is broken.
    Broken(B),
    /// No memory was found.
    OutOfMemory,
}

impl<B> From<OutOfMemory> for Fault<B> {
    ghost from_gives = { λ _ fault. fault ≡ NoMemory };

    fn from(_error: OutOfMemory) -> Fault<B> {
        Fault::OutOfMemory
    }
}

impl<B> From<AllocError> for Fault<B> {
    ghost from_gives = { λ _ fault. fault ≡ NoMemory };

    fn from(_error: AllocError) -> Fault<B> {
        Fault::OutOfMemory
    }
}

impl<B, T: Drop> From<AllocFailed<T>> for Fault<B> {
    ghost from_gives = { λ _ fault. fault ≡ NoMemory };

    fn from(_error: AllocFailed<T>) -> Fault<B> {
        Fault::OutOfMemory
    }
}

/// What goes wrong while a script runs. The stack prints its fault and goes on with a default value.
#[derive(Clone, Copy, Debug, PartialEq, Eq)]
pub enum StackFault {
    /// A method was called on None.
    NoneCall,
    /// A property of None was read or written.
    NoneProperty,
    /// An array operation met None.
    NoneArray,
    /// An index is below 0 or not below the array's length.
    IndexRange,
    /// A divisor is 0.
    DivideZero,
    /// A joined text would have more than 1,024 bytes.
    TextTooLong,
    /// A call found too many frames.
    FrameLimit,
    /// Too many arrays were made.
    ArrayLimit,
}

/// Why two texts weren't joined.
#[derive(Clone, Copy, Debug, PartialEq, Eq, Error)]
pub enum JoinFault {
    /// The joined text would have more than 1,024 bytes.
    #[error("the joined text is too long")]
    TooLong,
    /// No memory was found.
    #[error("out of memory")]
    OutOfMemory,
}

impl From<OutOfMemory> for JoinFault {
    ghost from_gives = { λ _ fault. fault ≡ JoinOutOfMemory };

    fn from(_error: OutOfMemory) -> JoinFault {
        JoinFault::OutOfMemory
    }
}

impl From<AllocError> for JoinFault {
    ghost from_gives = { λ _ fault. fault ≡ JoinOutOfMemory };

    fn from(_error: AllocError) -> JoinFault {
        JoinFault::OutOfMemory
    }
}
