// Why a line, or a script of lines, is refused.
ghost use Rattle.std.specs.Prelude.{◌≡◌};

use papy_base::{Fault, OutOfMemory};
use thiserror::Error;

/// The rules of lines and blocks, S1 to S3.
#[derive(Clone, Copy, Debug, PartialEq, Eq)]
pub enum LineRule {
    /// S1: the line has no form.
    BadLine,
    /// S2: over 64 brackets are open at once in the line, it has over 8,000 tokens, or its block would be
    /// the 65th `If` or `While` that is open.
    TooDeep,
    /// S3: the innermost open block doesn't admit the line, or the file ends with a block open or without
    /// lines.
    BadBlock,
}

/// Why [`parse_line`](crate::parse_line) gives no form.
#[derive(Clone, Copy, Debug, PartialEq, Eq, Error)]
pub enum LineFault {
    #[error("{rule:?}")]
    Broken { rule: LineRule },
    #[error("out of memory")]
    OutOfMemory,
}

/// The tokens of a line have no form.
#[derive(Clone, Copy)]
pub(crate) struct NoForm;

/// Why the tokens of a line give no form.
pub(crate) type FormFault = Fault<NoForm>;

impl From<OutOfMemory> for LineFault {
    ghost use Rattle.line_parser.specs.declared.fault.LineFault.TheVariants.{OutOfMemory};

    ghost from_gives = { λ _ e. e ≡ OutOfMemory };

    fn from(_e: OutOfMemory) -> LineFault {
        LineFault::OutOfMemory
    }
}

impl From<FormFault> for LineFault {
    ghost use Rattle.line_parser.specs.Fault.{line_fault};

    ghost from_gives = { λ f e. e ≡ line_fault f };

    fn from(fault: FormFault) -> LineFault {
        match fault {
            Fault::Broken(NoForm) => LineFault::Broken {
                rule: LineRule::BadLine,
            },
            Fault::OutOfMemory => LineFault::OutOfMemory,
        }
    }
}
