ghost use Rattle.std.specs.Prelude.{◌≡◌};
ghost use Rattle.script_lexer.specs.Steps.{at_line};

use crate::fault::{LexFault, LexRule};
use crate::token::Token;
use papy_base::Fault;

/// A piece of a script: what stands between the places at which pieces begin.
#[derive(Drop)]
pub enum Piece {
    Blank,
    LineEnd,
    /// A backslash, blanks and a line end, which end no logical line.
    Join,
    Comment,
    Token(Token),
}

/// A piece and how many bytes it takes.
pub type MeasuredPiece = (Piece, usize);

/// Why no piece stands at a place, with the lowest rule that is broken there.
pub type PieceFault = Fault<LexRule>;

/// The fault of a file, where the place stands on this physical line.
pub fn at_line(fault: PieceFault, line: u32) -> LexFault
    ensures { result ≡ at_line fault line }
{
    match fault {
        Fault::Broken(rule) => LexFault::Broken { line, rule },
        Fault::OutOfMemory => LexFault::OutOfMemory,
    }
}
