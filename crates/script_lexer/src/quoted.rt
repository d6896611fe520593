//! Texts in quotes.

ghost use Rattle.std.specs.Prelude.{◌≡◌, ◌<◌, length, MatchOption, Some, None, IfOk};
ghost use Rattle.script_lexer.specs.declared.opening.Opening.TheVariants as opening;
ghost use Rattle.script_lexer.specs.Pieces.{item_bytes, item_value, is_good_item};
ghost use Rattle.script_lexer.specs.Answers.{Opens, Answers, BeginsItem, Stops, ReadsItems};

use crate::fault::LexRule;
use crate::piece::{MeasuredPiece, Piece, PieceFault};
use crate::token::Token;
use papy_base::{Made, Text};
use std::alloc::Global;

/// The most bytes that a text means.
pub const TEXT_LIMIT: usize = 1024;

/// What a text is made of.
#[derive(Clone, Copy)]
pub enum TextItem {
    /// A byte that stands for itself.
    Plain(u8),
    /// A backslash and this byte.
    Escaped(u8),
}

impl TextItem {
    /// How many bytes it takes.
    pub fn len(self) -> usize
        ensures { result ≡ length (item_bytes self) }
    {
        match self {
            TextItem::Plain(_) => 1,
            TextItem::Escaped(_) => 2,
        }
    }

    /// The byte that it means.
    pub fn value(self) -> u8
        ensures { result ≡ item_value self }
    {
        match self {
            TextItem::Plain(byte) => byte,
            TextItem::Escaped(b'n') => b'\n',
            TextItem::Escaped(b't') => b'\t',
            TextItem::Escaped(byte) => byte,
        }
    }

    /// Whether the backslash may stand before its byte.
    pub fn is_good(self) -> bool
        ensures { result ≡ is_good_item self }
    {
        match self {
            TextItem::Plain(_) => true,
            TextItem::Escaped(byte) => matches!(byte, b'n' | b't' | b'\\' | b'"'),
        }
    }
}

// The next item of a text, if it doesn't stop here.
fn next_item(rest: &[u8]) -> Option<TextItem>
    ensures { MatchOption result (Stops rest.now) (BeginsItem rest.now) }
{
    match rest {
        [] | [b'"' | b'\n', ..] => None,
        [b'\\'] | [b'\\', b'\n', ..] => None,
        [b'\\', byte, ..] => Some(TextItem::Escaped(*byte)),
        [byte, ..] => Some(TextItem::Plain(*byte)),
    }
}

// The items of a text, up to where it stops: what they mean, whether they are good, and how many bytes they take.
fn read_items(alloc: Global, bytes: &[u8]) -> Made<(Vec<u8>, bool, usize)>
    ensures { IfOk result (λ r. ReadsItems bytes.now r.0.items r.1 r.2) }
{
    let mut meant = Vec::new(alloc);
    let mut good = true;
    let mut rest = bytes;
    while let Some(item) = next_item(rest) {
        meant.push(item.value())?;
        good = good && item.is_good();
        let (_, after) = rest.split_at(item.len());
        rest = after;
    }
    let len = bytes.len() - rest.len();
    Ok((meant, good, len))
}

/// A text, up to its closing quote.
pub fn text(alloc: Global, rest: &[u8]) -> Result<MeasuredPiece, PieceFault>
    requires nonempty { 0 < length rest.now }
    requires opens { Opens opening.Quote rest.now }
    ensures { Answers rest.now result }
{
    let (_, behind) = rest.split_at(1);
    let (meant, good, len) = read_items(alloc, behind)?;
    if len >= behind.len() || behind[len] != b'"' {
        return Err(PieceFault::Broken(LexRule::OpenText));
    }
    if !good {
        return Err(PieceFault::Broken(LexRule::BadEscape));
    }
    if meant.len() > TEXT_LIMIT {
        return Err(PieceFault::Broken(LexRule::TextTooLong));
    }
    let text = Text::try_from_bytes(alloc, &meant)?;
    Ok((Piece::Token(Token::Quoted(text)), len + 2))
}
