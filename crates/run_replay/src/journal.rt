//! Journals, checked.

ghost use Rattle.std.specs.Prelude.{◌≡◌, ◌+◌, ◌<◌, ◌≤◌, ◌++◌, ◌∷◌, ◌^◌, ℕ, length, map, slice_index, List, MatchOption, OnOk, IfOk, IfErr};
ghost use Rattle.run_replay.specs.Book.{start, FirstBreak, IsLegal};
ghost use Rattle.run_replay.specs.Journal.{StepAnswer, ReadAnswer, JournalFaultIs, IsRefused};
ghost use Rattle.run_replay.specs.Discipline.{OneHolder, InOrder, LetsGo};
ghost use Rattle.run_replay.specs.Lines.{JournalLine, Lacks};
ghost use Rattle.run_replay.specs.Outline.{AreLines, turns_in, names_in};
ghost use Rattle.run_replay.specs.Waiting.{waited};
ghost use Rattle.run_replay.specs.declared.fault.JournalFault.TheVariants as faults;
ghost use Rattle.run_replay.specs.declared.fault.JournalRule.{JournalRule};
ghost use Rattle.run_replay.specs.declared.fault.JournalRule.TheVariants as rules;

use crate::book::Book;
use crate::fault::{JournalFault, JournalRule};
use crate::reader::{len_before, line_of};
use crate::waits::Waits;
use std::alloc::Global;

/// The most bytes of a journal.
const JOURNAL_LIMIT: usize = 134217728;

// What stands before the first line end, and what follows it.
fn cut_line(bytes: &[u8]) -> Option<(&[u8], &[u8])>
    ensures { MatchOption result (Lacks 10 bytes.now) (λ parts. (bytes.now ≡ parts.0.now ++ 10 ∷ parts.1.now) × Lacks 10 parts.0.now) }
{
    let at = len_before(b'\n', bytes);
    if at == bytes.len() {
        return None;
    }
    let (text, rest) = bytes.split_at(at);
    let (_, behind) = rest.split_at(1);
    Some((text, behind))
}

// Goes past the next line, which has this number. Gives what stands behind it.
fn step<'a>(
    alloc: Global,
    book: &mut Book,
    number: u32,
    rest: &'a [u8],
) -> Result<&'a [u8], JournalFault>
    requires some { 0 < length rest.now }
    requires room { (i : ℕ) → slice_index book.old.waited i < 2 ^ 63 }
    ensures { StepAnswer book.old book.new number rest.now result }
{
    let Some((text, behind)) = cut_line(rest) else {
        return Err(bad_line(number));
    };
    let Some(line) = line_of(text) else {
        return Err(bad_line(number));
    };
    if !book.may_stand(line) {
        return Err(bad_line(number));
    }
    if !book.is_allowed(line) {
        return Err(JournalFault::Broken {
            line: number,
            rule: JournalRule::BadMove,
        });
    }
    book.apply(alloc, line)?;
    Ok(behind)
}

fn bad_line(number: u32) -> JournalFault
    ensures { result ≡ faults.Broken number rules.BadLine }
{
    JournalFault::Broken {
        line: number,
        rule: JournalRule::BadLine,
    }
}

// Goes past all lines, of which the last must be the journal's end.
fn read_all(alloc: Global, book: &mut Book, bytes: &[u8]) -> Result<(), JournalFault>
    requires new { book.old ≡ start }
    requires few { length bytes.now ≤ 134217728 }
    ensures read { ReadAnswer book.new bytes.now result }
    ensures room { OnOk result ((i : ℕ) → slice_index book.new.waited i < 2 ^ 62) }
    ensures few { OnOk result (length book.new.waiters < 2 ^ 29) }
{
    let mut rest = bytes;
    let mut number: u32 = 1;
    while !rest.is_empty() {
        match step(alloc, book, number, rest) {
            Ok(behind) => rest = behind,
            Err(fault) => return Err(fault),
        }
        number += 1;
    }
    if !book.has_ended() {
        return Err(bad_line(number));
    }
    Ok(())
}

/// Checks a journal: whether its lines have their forms, and whether each move can happen where it stands, as the lines
/// before it leave the stacks and the one list of those that wait.
///
/// A journal has a heading, a line for each of at most 256 instances, turns from 0 without gap, and an end. A turn first
/// wakes sleepers and lets new stacks begin, then says whose it is, and then has what that stack does: it takes the
/// instance that it waited for, lets go of its place, and finds another. It is read once from its front, and what is
/// kept of it has at most 1,024 stacks and 256 instances.
///
/// # Errors
///
/// `Broken` comes exactly where the journal isn't legal, with the first line that breaks a rule. In one line `BadLine`
/// stands before `BadMove`. A journal of more than 128 MiB is refused at line 0.
pub fn check_journal(alloc: Global, bytes: &[u8]) -> Result<Waits, JournalFault>
    // The journal is legal, or it isn't, and that is the first line that breaks a rule.
    ensures legal { OnOk result (IsLegal bytes.now) }
    ensures refused { IfErr result (IsRefused bytes.now) }
    ensures broken { IfErr result (JournalFaultIs bytes.now) }
    // What is given is what its lines say.
    ensures turns { IfOk result (λ waits. (lines : List JournalLine) → AreLines bytes.now lines → waits.turns ≡ turns_in lines) }
    ensures instances { IfOk result (λ waits. (lines : List JournalLine) → AreLines bytes.now lines → map (λ p. p.0) waits.instances.items ≡ names_in lines) }
    ensures waited { IfOk result (λ waits. (lines : List JournalLine) → AreLines bytes.now lines
        → (i : ℕ) → i < length (names_in lines) → slice_index (map (λ p. p.1) waits.instances.items) i ≡ waited lines i) }
    // Its lines alone show that the rules of locks were kept.
    ensures one_holder { OnOk result ((lines : List JournalLine) → AreLines bytes.now lines → OneHolder lines) }
    ensures in_order { OnOk result ((lines : List JournalLine) → AreLines bytes.now lines → InOrder lines) }
    ensures lets_go { OnOk result ((lines : List JournalLine) → AreLines bytes.now lines → LetsGo lines) }
{
    if bytes.len() > JOURNAL_LIMIT {
        return Err(bad_line(0));
    }
    let mut book = Book::new(alloc);
    match read_all(alloc, &mut book, bytes) {
        Ok(()) => Ok(book.into_waits()),
        Err(fault) => Err(fault),
    }
}

/// A journal that isn't legal has one first line that breaks a rule, and that line breaks one rule first.
pub fn one_break()
    ensures { (bytes : List ℕ) (m n : ℕ) (q r : JournalRule) → FirstBreak bytes m q → FirstBreak bytes n r → (m ≡ n) × (q ≡ r) }
{}
