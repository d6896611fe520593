ghost use Rattle.std.specs.Prelude.{◌≡◌};
ghost use Rattle.pex_codec.specs.declared.faults.EncodeFault.TheVariants.{OutOfMemory as NoMemoryToEncode};
ghost use Rattle.pex_codec.specs.declared.faults.PexFault.TheVariants.{Broken, OutOfMemory as NoMemoryToDecode};

use papy_base::OutOfMemory;
use std::alloc::AllocError;
use thiserror::Error;

/// Why a value wasn't encoded.
#[derive(Clone, Copy, Debug, PartialEq, Eq, Error)]
pub enum EncodeFault {
    /// The value doesn't fit a file: a list or a string is longer than its count can say, or the file
    /// would have more than 16 MiB.
    #[error("the value does not fit a file")]
    TooManyItems,
    /// No memory was found.
    #[error("out of memory")]
    OutOfMemory,
}

impl From<OutOfMemory> for EncodeFault {
    ghost from_gives = { λ _ fault. fault ≡ NoMemoryToEncode };

    fn from(_error: OutOfMemory) -> EncodeFault {
        EncodeFault::OutOfMemory
    }
}

impl From<AllocError> for EncodeFault {
    ghost from_gives = { λ _ fault. fault ≡ NoMemoryToEncode };

    fn from(_error: AllocError) -> EncodeFault {
        EncodeFault::OutOfMemory
    }
}

/// The rules of the file. A field is judged when its last byte is there.
#[derive(Clone, Copy, Debug, PartialEq, Eq)]
pub enum PexRule {
    /// P1: the first number isn't FA57C0DE. At offset 0.
    BadMagic,
    /// P2: the major version isn't 3, or the minor one isn't 1 or 2. At that byte.
    BadVersion,
    /// P3: the game isn't 1. At its number.
    BadGame,
    /// P4: the debug flag isn't 0 or 1. At the flag.
    BadDebugFlag,
    /// P5: a value's kind is over 5. At the kind.
    BadKind,
    /// P6: an opcode is over 23h. At the opcode.
    BadOpcode,
    /// P7: a count of more operands is no integer value, or is below 0. At the count's kind.
    BadCount,
    /// P8: a reference isn't below the number of strings. At the reference.
    BadIndex,
    /// P9: an object's size isn't the length of its data, nor that and 4. At the size.
    BadSize,
    /// P10: the bytes end before the value does. At their number.
    Truncated,
    /// P11: bytes follow the value. At the value's length.
    Trailing,
    /// P12: the value isn't complete after 16 MiB, and a byte follows. At offset 16,777,216.
    TooLarge,
}

impl PexRule {
    /// The rule is broken at this offset from the file's start.
    pub(crate) fn broken_at(self, offset: u32) -> PexFault
        ensures { result ≡ Broken offset self }
    {
        PexFault::Broken { offset, rule: self }
    }
}

/// Why bytes weren't decoded.
#[derive(Clone, Copy, Debug, PartialEq, Eq, Error)]
pub enum PexFault {
    /// The rule that is broken, and the offset from the file's start.
    #[error("{rule:?} at byte {offset}")]
    Broken { offset: u32, rule: PexRule },
    /// No memory was found.
    #[error("out of memory")]
    OutOfMemory,
}

impl From<OutOfMemory> for PexFault {
    ghost from_gives = { λ _ fault. fault ≡ NoMemoryToDecode };

    fn from(_error: OutOfMemory) -> PexFault {
        PexFault::OutOfMemory
    }
}

impl From<AllocError> for PexFault {
    ghost from_gives = { λ _ fault. fault ≡ NoMemoryToDecode };

    fn from(_error: AllocError) -> PexFault {
        PexFault::OutOfMemory
    }
}
