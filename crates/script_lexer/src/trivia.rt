//! Joins, comments and documentations.

ghost use Rattle.std.specs.Prelude.{◌≡◌, ◌<◌, ◌≤◌, length, drop, Some, None, MatchOption, ⊤};
ghost use Rattle.script_lexer.specs.declared.opening.Opening.TheVariants as opening;
ghost use Rattle.script_lexer.specs.Pieces.{behind_close};
ghost use Rattle.script_lexer.specs.Answers.{Opens, Answers, begins_block};

use crate::fault::LexRule;
use crate::opening::ByteClass;
use crate::piece::{MeasuredPiece, Piece, PieceFault};
use crate::token::Token;
use papy_base::Text;
use std::alloc::Global;

/// The most bytes of a documentation.
pub const DOCUMENTATION_LIMIT: usize = 65535;

/// A join: a backslash, blanks and a line end.
pub fn join(rest: &[u8]) -> Result<MeasuredPiece, PieceFault>
    requires nonempty { 0 < length rest.now }
    requires opens { Opens opening.Join rest.now }
    ensures { Answers rest.now result }
{
    let (_, behind) = rest.split_at(1);
    let blanks = ByteClass::Blank.run_len(behind);
    if blanks < behind.len() && behind[blanks] == b'\n' {
        Ok((Piece::Join, blanks + 2))
    } else {
        Err(PieceFault::Broken(LexRule::BadByte))
    }
}

/// Where the first `/;` ends.
fn close_end(bytes: &[u8]) -> Option<usize>
    ensures within { MatchOption result ⊤ (λ end. end ≤ length bytes.now) }
    ensures close { MatchOption result (behind_close bytes.now ≡ None) (λ end. behind_close bytes.now ≡ Some (drop end bytes.now)) }
{
    for at in 1..bytes.len() {
        if bytes[at - 1] == b'/' && bytes[at] == b';' {
            return Some(at + 1);
        }
    }
    None
}

// Whether the comment is one of several lines.
fn begins_block(behind: &[u8]) -> bool
    ensures { result ≡ begins_block behind.now }
{
    matches!(behind, [b'/', ..])
}

/// A comment, up to the line's end or from `;/` to the first `/;`.
pub fn comment(rest: &[u8]) -> Result<MeasuredPiece, PieceFault>
    requires nonempty { 0 < length rest.now }
    requires opens { Opens opening.Comment rest.now }
    ensures { Answers rest.now result }
{
    let (_, behind) = rest.split_at(1);
    if !begins_block(behind) {
        let len = 1 + ByteClass::Comment.run_len(behind);
        return Ok((Piece::Comment, len));
    }
    let (_, body) = rest.split_at(2);
    match close_end(body) {
        Some(end) => Ok((Piece::Comment, end + 2)),
        None => Err(PieceFault::Broken(LexRule::OpenComment)),
    }
}

/// A documentation, up to the first closing brace.
pub fn documentation(alloc: Global, rest: &[u8]) -> Result<MeasuredPiece, PieceFault>
    requires nonempty { 0 < length rest.now }
    requires opens { Opens opening.Documentation rest.now }
    ensures { Answers rest.now result }
{
    let (_, behind) = rest.split_at(1);
    let len = ByteClass::Documentation.run_len(behind);
    if len > DOCUMENTATION_LIMIT {
        return Err(PieceFault::Broken(LexRule::TextTooLong));
    }
    if len >= behind.len() {
        return Err(PieceFault::Broken(LexRule::OpenComment));
    }
    let (bytes, _) = behind.split_at(len);
    let text = Text::try_from_bytes(alloc, bytes)?;
    Ok((Piece::Token(Token::Doc(text)), len + 2))
}
