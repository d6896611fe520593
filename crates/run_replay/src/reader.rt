//! Lines, read.

ghost use Rattle.std.specs.Prelude.{◌≡◌, ◌≢◌, ◌<◌, ◌≤◌, ◌^◌, ℕ, List, ◌++◌, ◌∷◌, true, length, IfSome, MatchOption, option_map};
ghost use Rattle.std.specs.Fmt.{decimal};
ghost use Rattle.std.specs.List.{prefix_len};
ghost use Rattle.papy_base.specs.InstanceName.{is_instance_name};
ghost use Rattle.run_replay.specs.declared.reader.JournalWord.{JournalWord};
ghost use Rattle.run_replay.specs.declared.reader.Numbers.{Numbers};
ghost use Rattle.run_replay.specs.declared.reader.Numbers.TheVariants as numbers;
ghost use Rattle.run_replay.specs.Lines.{JournalLine, line_text, LineFits, word_of, spelled, AreSmall, Ends, is_not};
ghost use Rattle.run_replay.specs.Reading.{seen, line_with_one, line_with_two, numbered_line};

use crate::lock_move::LockMove;
use papy_base::{decimal_number, has_leading_zero, is_instance_name};

/// The greatest number of a turn.
const LAST_TURN: u32 = 1000000;

/// The greatest number of a stack.
const LAST_STACK: u32 = 1023;

/// The greatest number of an instance.
const LAST_INSTANCE: u32 = 255;

/// A line of a journal, whose form is good.
#[derive(Clone, Copy)]
pub(crate) enum ParsedLine<'a> {
    /// The first line.
    Heading,
    /// An instance, by its name.
    Instance(&'a [u8]),
    /// A turn begins.
    Turn(u32),
    /// The journal ends, after this many turns.
    End(u32),
    /// A stack moves.
    Move(LockMove),
}

/// The first word of a line.
#[derive(Clone, Copy, PartialEq, Eq)]
pub(crate) enum JournalWord {
    Journal,
    Instance,
    Turn,
    End,
    Join,
    Take,
    Release,
    Free,
    Leave,
    Sleep,
    Done,
    Run,
    Idle,
}

/// The keyword that a word spells.
fn keyword_of(word: &[u8]) -> Option<JournalWord>
    ensures { MatchOption result ((k : JournalWord) → word.now ≢ word_of k) (λ k. word.now ≡ word_of k) }
{
    match word {
        b"join" => Some(JournalWord::Join),
        b"take" => Some(JournalWord::Take),
        b"release" => Some(JournalWord::Release),
        b"run" => Some(JournalWord::Run),
        b"turn" => Some(JournalWord::Turn),
        b"sleep" => Some(JournalWord::Sleep),
        b"free" => Some(JournalWord::Free),
        b"leave" => Some(JournalWord::Leave),
        b"done" => Some(JournalWord::Done),
        b"idle" => Some(JournalWord::Idle),
        b"end" => Some(JournalWord::End),
        b"instance" => Some(JournalWord::Instance),
        b"journal" => Some(JournalWord::Journal),
        _ => None,
    }
}

/// The numbers of a line, of which there are at most two.
#[derive(Clone, Copy)]
pub(crate) enum Numbers {
    Nothing,
    One(u32),
    Two(u32, u32),
}

/// How many bytes stand before the first such byte.
pub(crate) fn len_before(sign: u8, bytes: &[u8]) -> usize
    ensures run { result ≡ prefix_len (is_not sign) bytes.now }
    ensures within { result ≤ length bytes.now }
{
    for (at, byte) in bytes.iter().enumerate() {
        if *byte == sign {
            return at;
        }
    }
    bytes.len()
}

// The number that a word writes, with no zero before another digit.
fn magnitude(digits: &[u8]) -> Option<u32>
    ensures { MatchOption result ((n : ℕ) → n < 2 ^ 32 → digits.now ≢ decimal n) (λ n. (digits.now ≡ decimal n) × (n < 2 ^ 32)) }
{
    if digits.is_empty() {
        return None;
    }
    if has_leading_zero(digits) {
        return None;
    }
    let number = decimal_number(digits)?;
    u32::try_from(number).ok()
}

/// What stands behind a blank.
fn behind_blank(bytes: &[u8]) -> Option<&[u8]>
    ensures { MatchOption result ((field : List ℕ) → bytes.now ≢ 32 ∷ field) (λ field. bytes.now ≡ 32 ∷ field.now) }
{
    match bytes {
        [b' ', field @ ..] => Some(field),
        _ => None,
    }
}

/// A blank and a number, with what stands behind them.
fn number_at(bytes: &[u8]) -> Option<(u32, &[u8])>
    ensures { MatchOption result
        ((n : ℕ) (after : List ℕ) → n < 2 ^ 32 → Ends 32 after → bytes.now ≢ 32 ∷ decimal n ++ after)
        (λ found. (bytes.now ≡ 32 ∷ decimal found.0 ++ found.1.now) × (found.0 < 2 ^ 32) × Ends 32 found.1.now) }
{
    let field = behind_blank(bytes)?;
    let (digits, after) = field.split_at(len_before(b' ', field));
    let number = magnitude(digits)?;
    Some((number, after))
}

/// The numbers that the bytes are, each behind a blank.
fn numbers_of(bytes: &[u8]) -> Option<Numbers>
    ensures { MatchOption result ((ns : Numbers) → AreSmall ns → bytes.now ≢ spelled ns) (λ ns. (bytes.now ≡ spelled ns) × AreSmall ns) }
{
    if bytes.is_empty() {
        return Some(Numbers::Nothing);
    }
    let (first, behind) = number_at(bytes)?;
    if behind.is_empty() {
        return Some(Numbers::One(first));
    }
    let (second, rest) = number_at(behind)?;
    if rest.is_empty() {
        return Some(Numbers::Two(first, second));
    }
    None
}

// The name behind a blank.
fn name_at(bytes: &[u8]) -> Option<&[u8]>
    ensures { MatchOption result
        ((name : List ℕ) → is_instance_name name ≡ true → bytes.now ≢ 32 ∷ name)
        (λ name. (bytes.now ≡ 32 ∷ name.now) × (is_instance_name name.now ≡ true)) }
{
    let name = behind_blank(bytes)?;
    if is_instance_name(name) {
        return Some(name);
    }
    None
}

// The line of this word and a number.
fn line_with_one<'a>(keyword: JournalWord, number: u32) -> Option<ParsedLine<'a>>
    ensures known { option_map seen result ≡ line_with_one keyword number }
    ensures read { IfSome result (λ l. LineFits (seen l) × (line_text (seen l) ≡ word_of keyword ++ spelled (numbers.One number))) }
{
    match keyword {
        JournalWord::Journal if number == 1 => Some(ParsedLine::Heading),
        JournalWord::Turn if number <= LAST_TURN => Some(ParsedLine::Turn(number)),
        JournalWord::End if number <= LAST_TURN => Some(ParsedLine::End(number)),
        JournalWord::Free if number <= LAST_STACK => Some(ParsedLine::Move(LockMove::Free(
            number as u16,
        ))),
        JournalWord::Leave if number <= LAST_STACK => Some(ParsedLine::Move(LockMove::Leave(
            number as u16,
        ))),
        JournalWord::Done if number <= LAST_STACK => Some(ParsedLine::Move(LockMove::Done(
            number as u16,
        ))),
        JournalWord::Run if number <= LAST_STACK => Some(ParsedLine::Move(LockMove::Run(
            number as u16,
        ))),
        _ => None,
    }
}

// The line of this word and two numbers.
fn line_with_two<'a>(keyword: JournalWord, first: u32, second: u32) -> Option<ParsedLine<'a>>
    ensures known { option_map seen result ≡ line_with_two keyword first second }
    ensures read { IfSome result (λ l. LineFits (seen l) × (line_text (seen l) ≡ word_of keyword ++ spelled (numbers.Two first second))) }
{
    if first > LAST_STACK {
        return None;
    }
    match keyword {
        JournalWord::Sleep => Some(ParsedLine::Move(LockMove::Sleep(first as u16, second))),
        JournalWord::Join if second <= LAST_INSTANCE => {
            Some(ParsedLine::Move(LockMove::Join(first as u16, second as u16)))
        }
        JournalWord::Take if second <= LAST_INSTANCE => {
            Some(ParsedLine::Move(LockMove::Take(first as u16, second as u16)))
        }
        JournalWord::Release if second <= LAST_INSTANCE => {
            Some(ParsedLine::Move(LockMove::Release(first as u16, second as u16)))
        }
        _ => None,
    }
}

// The line of this word and these numbers.
fn numbered_line<'a>(keyword: JournalWord, values: Numbers) -> Option<ParsedLine<'a>>
    ensures known { option_map seen result ≡ numbered_line keyword values }
    ensures read { IfSome result (λ l. LineFits (seen l) × (line_text (seen l) ≡ word_of keyword ++ spelled values)) }
{
    match values {
        Numbers::Nothing => match keyword {
            JournalWord::Idle => Some(ParsedLine::Move(LockMove::Idle)),
            _ => None,
        },
        Numbers::One(number) => line_with_one(keyword, number),
        Numbers::Two(first, second) => line_with_two(keyword, first, second),
    }
}

/// The line that the text is, without its end.
pub(crate) fn line_of(text: &[u8]) -> Option<ParsedLine<'_>>
    ensures { MatchOption result
        ((l : JournalLine) → LineFits l → text.now ≢ line_text l)
        (λ l. (text.now ≡ line_text (seen l)) × LineFits (seen l)) }
{
    let (word, rest) = text.split_at(len_before(b' ', text));
    let keyword = keyword_of(word)?;
    if keyword == JournalWord::Instance {
        let name = name_at(rest)?;
        return Some(ParsedLine::Instance(name));
    }
    let numbers = numbers_of(rest)?;
    numbered_line(keyword, numbers)
}
