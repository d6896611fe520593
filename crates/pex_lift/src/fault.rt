use papy_base::Fault;
use thiserror::Error;

/// The rule of lifting.
#[derive(Clone, Copy, Debug, PartialEq, Eq, Error)]
pub enum LiftRule {
    /// No sources were found for the files that compile to the same code.
    #[error("U1 NotLifted")]
    NotLifted,
}

/// Why files have no sources.
#[derive(Clone, Copy, Debug, PartialEq, Eq, Error)]
pub enum LiftFault {
    /// The rule is broken. It speaks of the whole set.
    #[error("{rule}")]
    Broken { rule: LiftRule },
    /// No memory was found.
    #[error("out of memory")]
    OutOfMemory,
}

/// What was lifted, or why nothing was.
pub(crate) type Lifted<T> = Result<T, Fault<LiftRule>>;

/// No sources were found, or they don't compile to the same code.
pub(crate) const NOT_LIFTED: Fault<LiftRule> = Fault::Broken(LiftRule::NotLifted);

impl From<Fault<LiftRule>> for LiftFault {
    fn from(fault: Fault<LiftRule>) -> LiftFault {
        match fault {
            Fault::Broken(rule) => LiftFault::Broken { rule },
            Fault::OutOfMemory => LiftFault::OutOfMemory,
        }
    }
}
