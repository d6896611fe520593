ghost use Rattle.std.specs.Prelude.{◌≡◌, ◌+◌, ◌<◌, ◌≤◌, ◌^◌, ℕ, List, length, true, MatchOption, IfOk, IfErr, OnOk};
ghost use Rattle.script_lexer.specs.Bytes.{line_ends, stays_in_line};
ghost use Rattle.script_lexer.specs.Lines.{Answer, mark_len, physical_lines, logical_lines, text_of, IsAnswer, IsUnbroken, Lexes};
ghost use Rattle.script_lexer.specs.Progress.{IsReady};
ghost use Rattle.script_lexer.specs.Answers.{Opens, Answers};
ghost use Rattle.script_lexer.specs.Spans.{LinesStand};
ghost use Rattle.script_lexer.specs.Steps.{PassesBlanks, CountsWithin, ends_before_last, StepAnswer, TextAnswer, FileFault};
ghost use Rattle.script_lexer.specs.declared.opening.Opening.TheVariants as opening;
ghost use Rattle.script_lexer.specs.declared.piece.Piece.TheVariants as piece;

use crate::fault::{LexFault, LexRule};
use crate::in_line::{number, sign, word};
use crate::line::{Lines, Progress};
use crate::opening::{ByteClass, Opening};
use crate::piece::{MeasuredPiece, Piece, PieceFault, at_line};
use crate::quoted::text;
use crate::trivia::{comment, documentation, join};
use papy_base::NamePool;
use std::alloc::Global;

/// The most bytes of a file.
const FILE_LIMIT: usize = 1048576;

/// The most physical lines of a file.
const LINE_LIMIT: usize = 65535;

// How many physical lines end in the bytes.
fn count_line_ends(bytes: &[u8]) -> usize
    ensures count { result ≡ line_ends bytes.now }
    ensures within { result ≤ length bytes.now }
{
    bytes.iter().filter(|byte| **byte == b'\n').count()
}

// Passes blanks, which make no tokens, up to the first byte that is none. Past the last line a blank breaks a rule.
fn pass_blanks<'a>(progress: &mut Progress, rest: &'a [u8]) -> &'a [u8]
    requires { progress.old.at + length rest.now < 2 ^ 31 }
    ensures { PassesBlanks progress.old progress.new rest.now result.now }
{
    if progress.line as usize > LINE_LIMIT {
        return rest;
    }
    let len = ByteClass::Blank.run_len(rest);
    let (_, after) = rest.split_at(len);
    progress.at += len as u32;
    after
}

// How many physical lines end in the bytes of a piece that begins on this line, where its last byte stands on a line
// within the limit. Words, numbers and signs, which are most pieces, hold no line end.
fn line_ends_within(opening: Opening, line: u32, bytes: &[u8]) -> Option<u32>
    requires some { 0 < length bytes.now }
    requires small { length bytes.now < 2 ^ 31 }
    requires within { line ≤ 65536 }
    requires in_line { stays_in_line opening ≡ true → line_ends bytes.now ≡ 0 }
    ensures { MatchOption result (65535 < line + ends_before_last bytes.now) (CountsWithin line bytes.now) }
{
    let line = line as usize;
    if opening.stays_in_line() && line <= LINE_LIMIT {
        return Some(0);
    }
    let (front, last) = bytes.split_at(bytes.len() - 1);
    let before_last = count_line_ends(front);
    if line + before_last > LINE_LIMIT {
        return None;
    }
    Some((before_last + count_line_ends(last)) as u32)
}

// The longest piece that stands here, or the lowest rule that is broken here.
fn next_piece(
    alloc: Global,
    names: &mut NamePool,
    opening: Opening,
    rest: &[u8],
) -> Result<MeasuredPiece, PieceFault>
    requires nonempty { 0 < length rest.now }
    requires opens { Opens opening rest.now }
    ensures { Answers rest.now result }
{
    match opening {
        Opening::Blank => Ok((Piece::Blank, 1)),
        Opening::LineEnd => Ok((Piece::LineEnd, 1)),
        Opening::Join => join(rest),
        Opening::Comment => comment(rest),
        Opening::Documentation => documentation(alloc, rest),
        Opening::Quote => text(alloc, rest),
        Opening::Number => number(rest),
        Opening::Word => word(names, rest),
        Opening::Sign => sign(rest),
        Opening::Nothing => Err(PieceFault::Broken(LexRule::BadByte)),
    }
}

// One piece more. Gives what is left behind it.
fn step<'a>(
    alloc: Global,
    names: &mut NamePool,
    progress: &mut Progress,
    rest: &'a [u8],
) -> Result<&'a [u8], LexFault>
    requires nonempty { 0 < length rest.now }
    requires ready { IsReady progress.old }
    requires room { progress.old.at + length rest.now < 2 ^ 31 }
    requires within { progress.old.line ≤ 65536 }
    ensures { StepAnswer progress.old progress.new rest.now result }
{
    let line = progress.line;
    let opening = Opening::of(rest[0]);
    let (piece, len) = match next_piece(alloc, names, opening, rest) {
        Ok(found) => found,
        Err(fault) => return Err(at_line(fault, line)),
    };
    let (bytes, after) = rest.split_at(len);
    let Some(ends) = line_ends_within(opening, line, bytes) else {
        return Err(at_line(PieceFault::Broken(LexRule::TooLarge), 65536));
    };
    progress.take(alloc, piece, bytes, ends)?;
    Ok(after)
}

// How many bytes the mark EF BB BF takes.
fn mark_len(bytes: &[u8]) -> usize
    ensures value { result ≡ mark_len bytes.now }
    ensures within { result ≤ length bytes.now }
    ensures short { result ≤ 3 }
{
    match bytes {
        [0xef, 0xbb, 0xbf, ..] => 3,
        _ => 0,
    }
}

// The number of physical lines, where one begins behind the last line end.
fn last_line(text: &[u8], line: u32) -> u32
    requires { line ≡ 1 + line_ends text.now }
    ensures { result ≡ physical_lines text.now }
{
    if text.is_empty() {
        return 0;
    }
    if text[text.len() - 1] == b'\n' {
        line - 1
    } else {
        line
    }
}

// The logical lines of a text that begins at this place of its file.
fn lex_text(alloc: Global, start: u32, text: &[u8]) -> Result<Lines, LexFault>
    requires { start + length text.now < 2 ^ 31 }
    ensures { TextAnswer start text.now result }
{
    let mut names = NamePool::new(alloc)?;
    let mut progress = Progress::new(alloc, start);
    let mut rest = pass_blanks(&mut progress, text);
    while !rest.is_empty() {
        match step(alloc, &mut names, &mut progress, rest) {
            Ok(after) => rest = pass_blanks(&mut progress, after),
            Err(fault) => return Err(fault),
        }
    }
    let last = last_line(text, progress.line);
    let lines = progress.finish(alloc)?;
    Ok(Lines { lines, last })
}

/// Cuts a script's bytes into logical lines, each with its tokens and their places.
///
/// The lexical form is that of the Creation Kit wiki's Papyrus reference. Blanks are space, tab and
/// carriage return; a backslash, blanks and a line end join two physical lines; `;` opens a comment up
/// to the line's end, `;/` one up to the first `/;`, and `{` a documentation up to the first `}`. A
/// mark EF BB BF at the file's start is skipped, and places count it.
///
/// `Broken` comes exactly where a rule is broken, with the first place's rule and physical line. At
/// one place the lowest rule counts. A file of more than 1 MiB is refused at line 0.
pub fn lex(alloc: Global, bytes: &[u8]) -> Result<Lines, LexFault>
    // The lines are those of a reading of the whole file, and there is no broken rule.
    ensures cut { IfOk result (λ lines. Lexes bytes.now (logical_lines lines.lines.items) lines.last) }
    ensures unbroken { OnOk result (IsUnbroken (text_of bytes.now)) }
    ensures small { OnOk result (length bytes.now ≤ 1048576) }
    // Each token is spelled by its bytes, tokens stand in order, and line numbers rise.
    ensures spelled { IfOk result (λ lines. LinesStand bytes.now 0 1 (logical_lines lines.lines.items)) }
    // The first broken rule, with its line.
    ensures broken { IfErr result (FileFault bytes.now) }
{
    if bytes.len() > FILE_LIMIT {
        return Err(at_line(PieceFault::Broken(LexRule::TooLarge), 0));
    }
    let start = mark_len(bytes);
    let (_, text) = bytes.split_at(start);
    lex_text(alloc, start as u32, text)
}

/// A file has one answer: two readings of it make the same lines, and none where a rule is broken.
pub fn one_answer()
    ensures { (file : List ℕ) (x y : Answer) → IsAnswer file x → IsAnswer file y → x ≡ y }
{}
