ghost use Rattle.std.specs.Prelude.{◌≡◌};
ghost use Rattle.pex_listing.specs.Assembled.{TellsFault, told_line};
ghost use Rattle.pex_listing.specs.Breaks.{Break};
ghost use Rattle.pex_listing.specs.Left.{Refuses};
ghost use Rattle.pex_listing.specs.declared.faults.ShowFault.TheVariants as show;

use papy_base::{Fault, OutOfMemory};
use std::alloc::AllocError;
use thiserror::Error;

/// Why a listing wasn't written whole.
#[derive(Clone, Copy, Debug, PartialEq, Eq, Error)]
pub enum ShowFault {
    /// The sink failed.
    #[error("the listing could not be written")]
    WriteFault,
    /// No memory was found.
    #[error("out of memory")]
    OutOfMemory,
}

impl From<OutOfMemory> for ShowFault {
    ghost from_gives = { λ _ fault. fault ≡ show.OutOfMemory };

    fn from(_error: OutOfMemory) -> ShowFault {
        ShowFault::OutOfMemory
    }
}

impl From<AllocError> for ShowFault {
    ghost from_gives = { λ _ fault. fault ≡ show.OutOfMemory };

    fn from(_error: AllocError) -> ShowFault {
        ShowFault::OutOfMemory
    }
}

/// The rules of listings.
#[derive(Clone, Copy, Debug, PartialEq, Eq)]
pub enum ListingRule {
    /// G1: no line that may stand here has this form, a number is out of its range, or with this line the value no
    /// longer fits 16 MiB or a count.
    BadLine,
    /// G2: the form is right, and a number, a string, hexadecimal digits or a reference isn't in its one spelling.
    NotCanonical,
    /// G3: a reference's word is no string, or its index is out of range.
    BadName,
    /// G4: the text ends within a line, or before a line that must come.
    End,
}

/// Why a text is no listing.
#[derive(Clone, Copy, Debug, PartialEq, Eq, Error)]
pub enum ListingFault {
    /// The first line that breaks a rule, from 1, and the rule: of several in one line BadLine comes before BadName,
    /// and that before NotCanonical.
    #[error("line {line}: {rule:?}")]
    Broken { line: u32, rule: ListingRule },
    /// No memory was found.
    #[error("out of memory")]
    OutOfMemory,
}

/// What is read of lines, or why one can't stand where it does.
pub(crate) type Read<T> = Result<T, LineRefusal>;

/// Why a line can't stand where it does.
pub(crate) type LineRefusal = Fault<ListingRule>;

pub(crate) const BAD_LINE: LineRefusal = Fault::Broken(ListingRule::BadLine);

/// The number by which a line is told. Fewer than 2^32 lines stand before one that is refused, since their parts
/// wouldn't fit.
fn told_line(line: u64) -> u32
    ensures { result ≡ told_line line }
{
    match u32::try_from(line) {
        Ok(line) => line,
        Err(_) => u32::MAX,
    }
}

/// The fault of the whole listing, where this is the line.
pub(crate) fn at_line(line: u64, fault: LineRefusal) -> ListingFault
    ensures { (first : Break) → Refuses first line fault → TellsFault first result }
{
    match fault {
        Fault::Broken(rule) => ListingFault::Broken {
            line: told_line(line),
            rule,
        },
        Fault::OutOfMemory => ListingFault::OutOfMemory,
    }
}
