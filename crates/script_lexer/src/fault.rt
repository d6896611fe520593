ghost use Rattle.std.specs.Prelude.{◌≡◌};
ghost use Rattle.script_lexer.specs.declared.fault.LexFault.TheVariants.{OutOfMemory as NoMemory};

use papy_base::OutOfMemory;
use thiserror::Error;

/// The rules of the lexical form, L1 to L9, in the order of their numbers: where two are broken at one place, the first counts.
#[derive(Clone, Copy, Debug, PartialEq, Eq)]
pub enum LexRule {
    /// L1: a byte begins no token, blank, join, comment or line end.
    BadByte,
    /// L2: a text meets a line's end or the file's end.
    OpenText,
    /// L3: a backslash in a text isn't followed by `n`, `t`, a backslash or a quote.
    BadEscape,
    /// L4: decimal digits are followed by a point and a digit.
    FloatLiteral,
    /// L5: the keyword Float stands.
    FloatWord,
    /// L6: a number is out of range or has no digits, or a letter or `_` follows it at once.
    NumberRange,
    /// L7: a name has more than 255 bytes, a text more than 1,024, or a documentation more than 65,535.
    TextTooLong,
    /// L8: a comment of several lines or a documentation meets the file's end.
    OpenComment,
    /// L9: the file has more than 1 MiB, or a 65,536th physical line begins.
    TooLarge,
}

/// Why a file has no logical lines.
#[derive(Clone, Copy, Debug, PartialEq, Eq, Error)]
pub enum LexFault {
    /// The first broken rule of the file. The line is the physical line of its place, from 1, and 0
    /// for a file of more than 1 MiB.
    #[error("line {line}: {rule:?}")]
    Broken { line: u32, rule: LexRule },
    /// No memory was found.
    #[error("out of memory")]
    OutOfMemory,
}

impl From<OutOfMemory> for LexFault {
    ghost from_gives = { λ _ fault. fault ≡ NoMemory };

    fn from(_error: OutOfMemory) -> LexFault {
        LexFault::OutOfMemory
    }
}
