//! Why a journal is refused.

ghost use Rattle.std.specs.Prelude.{◌≡◌};
ghost use Rattle.run_replay.specs.declared.fault.JournalFault.TheVariants.{OutOfMemory as NoMemory};

use papy_base::OutOfMemory;
use thiserror::Error;

/// The rules of a journal. Where a line breaks both, the first counts.
#[derive(Clone, Copy, Debug, PartialEq, Eq)]
pub enum JournalRule {
    /// J1: a line has none of the forms, or its form may not stand where it stands.
    BadLine,
    /// J2: a move can't happen where it stands.
    BadMove,
}

/// Why a journal is refused.
#[derive(Clone, Copy, Debug, PartialEq, Eq, Error)]
pub enum JournalFault {
    /// The first line that breaks a rule, from 1. It is 0 for a journal of more than 128 MiB, and the number of the
    /// line after the last where a further line must come.
    #[error("line {line}: {rule:?}")]
    Broken { line: u32, rule: JournalRule },
    /// No memory was found.
    #[error("out of memory")]
    OutOfMemory,
}

impl From<OutOfMemory> for JournalFault {
    ghost from_gives = { λ _ fault. fault ≡ NoMemory };

    fn from(_error: OutOfMemory) -> JournalFault {
        JournalFault::OutOfMemory
    }
}
