//! Words, numbers and signs, which hold no line end.

ghost use Rattle.std.specs.Prelude.{◌≡◌, ◌<◌, ◌≤◌, ◌^◌, ◌↔◌, IsTrue, length, MatchOption, true, false, ⊤};
ghost use Rattle.std.specs.Char.{digit_value};
ghost use Rattle.std.specs.Str.Parse.{digits_value};
ghost use Rattle.script_lexer.specs.declared.opening.Opening.TheVariants as opening;
ghost use Rattle.script_lexer.specs.Pieces.{is_hexadecimal};
ghost use Rattle.script_lexer.specs.Rules.{IsFraction, BeginsWith};
ghost use Rattle.script_lexer.specs.Bytes.{is_word_start};
ghost use Rattle.script_lexer.specs.Answers.{Opens, Answers, is_hexadecimal_at, pair_at};

use crate::fault::LexRule;
use crate::keyword::Keyword;
use crate::opening::{ByteClass, is_word_start};
use crate::piece::{MeasuredPiece, Piece, PieceFault};
use crate::sign::Sign;
use crate::token::Token;
use papy_base::NamePool;

/// The most bytes of a name.
pub const NAME_LIMIT: usize = 255;

/// A word.
pub fn word(names: &mut NamePool, rest: &[u8]) -> Result<MeasuredPiece, PieceFault>
    requires nonempty { 0 < length rest.now }
    requires opens { Opens opening.Word rest.now }
    ensures { Answers rest.now result }
{
    let (_, behind) = rest.split_at(1);
    let len = 1 + ByteClass::Word.run_len(behind);
    if len > NAME_LIMIT {
        return Err(PieceFault::Broken(LexRule::TextTooLong));
    }
    let (bytes, _) = rest.split_at(len);
    match Keyword::of(bytes) {
        Some(keyword) => match keyword {
            Keyword::Float => Err(PieceFault::Broken(LexRule::FloatWord)),
            _ => Ok((Piece::Token(Token::Key(keyword)), len)),
        },
        None => {
            let name = names.name(bytes)?;
            Ok((Piece::Token(Token::Word(name)), len))
        }
    }
}

/// The greatest decimal number.
const DECIMAL_LIMIT: u32 = 2147483647;

// The value of a digit in a base up to 36.
fn digit(byte: u8) -> u64
    ensures { result ≡ digit_value byte }
{
    match byte {
        b'0'..=b'9' => byte as u64 - 48,
        b'A'..=b'Z' => byte as u64 - 55,
        b'a'..=b'z' => byte as u64 - 87,
        _ => 36,
    }
}

// The number that the digits write, where it has 32 bits.
fn magnitude(base: u32, digits: &[u8]) -> Option<u32>
    requires some { 1 ≤ base }
    requires few { base ≤ 36 }
    ensures value { MatchOption result (2 ^ 32 ≤ digits_value base digits.now) (λ n. n ≡ digits_value base digits.now) }
    ensures small { MatchOption result ⊤ (λ n. n < 2 ^ 32) }
{
    let mut number: u64 = 0;
    for byte in digits {
        number = number * base as u64 + digit(*byte);
        if number > 0xffff_ffff {
            return None;
        }
    }
    Some(number as u32)
}

fn is_hexadecimal(rest: &[u8]) -> bool
    ensures { result ≡ is_hexadecimal_at rest.now }
{
    matches!(rest, [b'0', b'x', digit, ..] if digit.is_ascii_hexdigit())
}

fn is_fraction(after: &[u8]) -> bool
    ensures { IsTrue result ↔ IsFraction after.now }
{
    matches!(after, [b'.', digit, ..] if digit.is_ascii_digit())
}

fn begins_word(after: &[u8]) -> bool
    ensures { IsTrue result ↔ BeginsWith is_word_start after.now }
{
    matches!(after, [first, ..] if is_word_start(*first))
}

// `0x` and hexadecimal digits, which are read as two's complement.
fn hexadecimal(rest: &[u8]) -> Result<MeasuredPiece, PieceFault>
    requires prefix { is_hexadecimal_at rest.now ≡ true }
    requires long { 2 ≤ length rest.now }
    requires opens { Opens opening.Number rest.now }
    ensures { Answers rest.now result }
{
    let (_, behind) = rest.split_at(2);
    let len = ByteClass::HexDigit.run_len(behind);
    let (digits, after) = behind.split_at(len);
    let Some(number) = magnitude(16, digits) else {
        return Err(PieceFault::Broken(LexRule::NumberRange));
    };
    if begins_word(after) {
        return Err(PieceFault::Broken(LexRule::NumberRange));
    }
    Ok((Piece::Token(Token::Int(number.cast_signed())), len + 2))
}

fn decimal(rest: &[u8]) -> Result<MeasuredPiece, PieceFault>
    requires prefix { is_hexadecimal_at rest.now ≡ false }
    requires nonempty { 0 < length rest.now }
    requires opens { Opens opening.Number rest.now }
    ensures { Answers rest.now result }
{
    let (_, behind) = rest.split_at(1);
    let len = 1 + ByteClass::Digit.run_len(behind);
    let (digits, after) = rest.split_at(len);
    if is_fraction(after) {
        return Err(PieceFault::Broken(LexRule::FloatLiteral));
    }
    let Some(number) = magnitude(10, digits) else {
        return Err(PieceFault::Broken(LexRule::NumberRange));
    };
    if number > DECIMAL_LIMIT || begins_word(after) {
        return Err(PieceFault::Broken(LexRule::NumberRange));
    }
    Ok((Piece::Token(Token::Int(number as i32)), len))
}

/// A number.
pub fn number(rest: &[u8]) -> Result<MeasuredPiece, PieceFault>
    requires nonempty { 0 < length rest.now }
    requires opens { Opens opening.Number rest.now }
    ensures { Answers rest.now result }
{
    if is_hexadecimal(rest) {
        hexadecimal(rest)
    } else {
        decimal(rest)
    }
}

// The sign of two bytes that stands here.
fn pair(rest: &[u8]) -> Option<Sign>
    ensures { result ≡ pair_at rest.now }
{
    match rest {
        [first, second, ..] => Sign::of_bytes(*first, *second),
        _ => None,
    }
}

/// A sign, the longest that stands here.
pub fn sign(rest: &[u8]) -> Result<MeasuredPiece, PieceFault>
    requires nonempty { 0 < length rest.now }
    requires opens { Opens opening.Sign rest.now }
    ensures { Answers rest.now result }
{
    match pair(rest) {
        Some(sign) => Ok((Piece::Token(Token::Sign(sign)), 2)),
        None => match Sign::of_byte(rest[0]) {
            Some(sign) => Ok((Piece::Token(Token::Sign(sign)), 1)),
            None => Err(PieceFault::Broken(LexRule::BadByte)),
        },
    }
}
