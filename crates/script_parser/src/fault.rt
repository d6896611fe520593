// Why lines give no script.
ghost use Rattle.std.specs.Prelude.{◌≡◌, List};
ghost use Rattle.line_parser.specs.declared.fault.LineFault.TheVariants.{Broken};
ghost use Rattle.line_parser.specs.declared.fault.LineRule.TheVariants.{TooDeep};
ghost use Rattle.script_lexer.specs.declared.line.Line.{Line};
ghost use Rattle.script_parser.specs.Reader.{BreaksAt, IsBlockFault};

use line_parser::{LineFault, LineRule};
use papy_base::Fault;
use thiserror::Error;

/// Why [`parse_script`](crate::parse_script) gives no script.
#[derive(Clone, Copy, Debug, PartialEq, Eq, Error)]
pub enum ParseFault {
    /// The first bad line, by the physical line on which it begins, and the rule that it breaks. Where
    /// the file ends too early it is the line after the last.
    #[error("line {line}: {rule:?}")]
    Broken { line: u32, rule: LineRule },
    /// No memory was found.
    #[error("out of memory")]
    OutOfMemory,
}

/// A bad line, by its place among the logical lines, which is their number at the end, and the rule that it breaks.
#[derive(Clone, Copy)]
pub(crate) struct BrokenLine {
    pub(crate) at: usize,
    pub(crate) rule: LineRule,
}

/// Why lines give no block.
pub(crate) type BlockFault = Fault<BrokenLine>;

/// What is wrong with the line at this place.
pub(crate) fn of_line(at: usize, fault: LineFault) -> BlockFault
    ensures { (lines : List Line) → (fault ≡ Broken TooDeep → BreaksAt lines at TooDeep) → IsBlockFault lines result }
{
    match fault {
        LineFault::Broken { rule } => Fault::Broken(BrokenLine { at, rule }),
        LineFault::OutOfMemory => Fault::OutOfMemory,
    }
}

/// The line at this place isn't admitted, or is missing.
pub(crate) fn bad_block(at: usize) -> BlockFault
    ensures { (lines : List Line) → IsBlockFault lines result }
{
    Fault::Broken(BrokenLine {
        at,
        rule: LineRule::BadBlock,
    })
}
