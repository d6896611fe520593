ghost use Rattle.std.specs.Prelude.{◌≡◌};
ghost use Rattle.type_rules.specs.declared.fault.TypeFault.TheVariants.{OutOfMemory as TypeOutOfMemory};

use expression_rules::TypeRule;
use papy_base::OutOfMemory;
use thiserror::Error;

/// Why a set of scripts isn't accepted.
#[derive(Clone, Copy, Debug, PartialEq, Eq, Error)]
pub enum TypeFault {
    /// The first broken rule: the file's number from 0, where the prelude's scripts aren't counted, the
    /// line, and the rule.
    #[error("file {file}, line {line}: {rule:?}")]
    Broken {
        file: u16,
        line: u32,
        rule: TypeRule,
    },
    /// No memory was found.
    #[error("out of memory")]
    OutOfMemory,
}

impl From<OutOfMemory> for TypeFault {
    ghost from_gives = { λ _ fault. fault ≡ TypeOutOfMemory };

    fn from(_error: OutOfMemory) -> TypeFault {
        TypeFault::OutOfMemory
    }
}
