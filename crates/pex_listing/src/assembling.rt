//! Listings to values.

ghost use Rattle.std.specs.Prelude.{◌≡◌, ℕ, true, false, List, [], ◌∷◌, ◌++◌, codes, ◌+◌, ◌<◌, ◌^◌, ◌⊎◌, length, vec_len, Some, None, IfOk, IfSome, ⊤};
ghost use Rattle.std.specs.List.{flat_map, AllByRecursion};
ghost use Rattle.pex_values.specs.Fit.{Fits, IsCounted};
ghost use Rattle.pex_values.specs.Plain.{plain, plain_lines};
ghost use Rattle.pex_values.specs.Shape.{IsWellShaped, IsShapedFlag};
ghost use Rattle.pex_values.specs.Spelling as spell;
ghost use Rattle.pex_listing.specs.Lines.{first_line, line_end, number, string_line};
ghost use Rattle.pex_listing.specs.Listing as form;
ghost use Rattle.pex_listing.specs.Assembled.{TellsBreak};
ghost use Rattle.pex_listing.specs.Breaks.{Awaited, One, all_parts, any_number_of, debug_line, done, list_break, numbers};
ghost use Rattle.pex_listing.specs.Left.{IsTableOf, Leaves, Reads, begins, lines_left, view};
ghost use Rattle.pex_listing.specs.Opened.{Gives, Good, TakesLines, text_left};
ghost use Rattle.pex_listing.specs.Parted.{ReadsString, debug_lines};
ghost use Rattle.pex_listing.specs.Reading.{ReadsAll, HoldsLines, ReadsDebug, debug_rest, debug_start};
ghost use Rattle.pex_listing.specs.Spelled.{spelled_in};

use crate::faults::{BAD_LINE, ListingFault, ListingRule, Read, at_line};
use crate::listing::{Item, Listing, MOST_ITEMS, read_all};
use crate::strings::StringWords;
use papy_base::{Made, Text};
use pex_values::{Pex, PexDebug, PexLines};
use std::alloc::Global;

/// The first line: the minor version and the time.
fn read_version(listing: &mut Listing) -> Read<(u8, u64)>
    ensures shaped { IfOk result (λ v. ((v.0 ≡ 1) ⊎ (v.0 ≡ 2)) × (v.1 < 2 ^ 64)) }
    ensures line { IfOk result (λ v. TakesLines (first_line v.0 v.1) 0 listing.old listing.new) }
    ensures left { (strings : List (List ℕ)) → (awaited : List Awaited) → Good listing.old → Reads (lines_left strings (One (codes "pex" ∷ []) ∷ awaited) (view listing.old)) result (λ _. lines_left strings awaited (view listing.new)) listing.new }
{
    listing.expect(b"pex")?;
    let minor = listing.unsigned(1, 2);
    let time = listing.unsigned(0, u64::MAX);
    listing.next_line()?;
    Ok((minor as u8, time))
}

/// A line with a string behind this word, which must come. So many bytes are taken beside those of the string.
fn read_string(listing: &mut Listing, word: &[u8], beside: u32) -> Read<Text>
    ensures counted { IfOk result (λ text. IsCounted text) }
    ensures line { IfOk result (λ text. TakesLines (string_line word.now text) (beside + length text) listing.old listing.new) }
    ensures left { ReadsString word.now beside listing.old listing.new result }
{
    listing.expect(word)?;
    listing.spend(beside);
    let text = listing.string()?;
    listing.spend(text.as_bytes().len() as u32);
    listing.next_line()?;
    Ok(text)
}

/// The string table.
fn read_strings(listing: &mut Listing) -> Read<Vec<Text>>
    ensures all { IfOk result (λ strings. ReadsAll IsCounted spell.string (string_line (codes "string")) listing.old listing.new strings.items) }
    ensures left { (awaited : List Awaited) → Good listing.old → Reads (lines_left [] (any_number_of (codes "string") ∷ awaited) (view listing.old)) result (λ strings. lines_left strings.items awaited (view listing.new)) listing.new }
{
    let mut strings = Vec::new(listing.alloc);
    for _place in 0..MOST_ITEMS {
        if !listing.is_at(b"string") {
            return Ok(strings);
        }
        strings.push(read_string(listing, b"string", 2)?)?;
    }
    if listing.is_at(b"string") {
        return Err(BAD_LINE);
    }
    Ok(strings)
}

/// The numbers up to the end of a `lines` line. What stands behind 65,535 of them is left.
fn read_numbers(listing: &mut Listing) -> Made<Vec<u16>>
    ensures left { IfOk result (λ _. Leaves ⊤ (λ _. numbers 65535) (λ _. done [] []) listing.old listing.new) }
    ensures gives { IfOk result (λ numbers. Gives (IsCounted numbers.items × AllByRecursion (λ n. n < 2 ^ 16) numbers.items) (flat_map number numbers.items) (length (flat_map spell.two_bytes numbers.items)) listing.old listing.new) }
{
    let mut numbers = Vec::new(listing.alloc);
    for _place in 0..MOST_ITEMS {
        if !listing.has_field() {
            return Ok(numbers);
        }
        listing.spend(2);
        numbers.push(listing.unsigned_16())?;
    }
    Ok(numbers)
}

impl Item for PexLines {
    ghost holds = { HoldsLines };

    ghost spelling = { λ e. spell.lines (plain_lines e) };

    ghost lines = { λ spelled e. form.lines spelled (plain_lines e) };

    ghost words = { codes "lines" ∷ [] };

    fn is_next(listing: &Listing) -> bool {
        listing.is_at(b"lines")
    }

    fn read(listing: &mut Listing, names: &StringWords) -> Read<Self> {
        listing.expect(b"lines")?;
        listing.spend(9);
        let object = listing.reference(names);
        let state = listing.reference(names);
        let function = listing.reference(names);
        let kind = listing.unsigned_8();
        let lines = read_numbers(listing)?;
        listing.next_line()?;
        Ok(PexLines {
            object,
            state,
            function,
            kind,
            lines,
        })
    }
}

/// The line that tells that there is no debug information.
fn read_no_debug(listing: &mut Listing) -> Read<()>
    ensures line { IfOk result (λ _. TakesLines (codes "nodebug" ++ line_end) 0 listing.old listing.new) }
    ensures left { (strings : List (List ℕ)) → (awaited : List Awaited) → Good listing.old → begins (codes "nodebug" ∷ []) (view listing.old) ≡ true → Reads (lines_left strings (debug_line ∷ awaited) (view listing.old)) result (λ _. lines_left strings awaited (view listing.new)) listing.new }
{
    listing.expect(b"nodebug")?;
    listing.next_line()?;
    Ok(())
}

/// The time of the debug information.
fn read_debug_time(listing: &mut Listing) -> Read<u64>
    ensures time { IfOk result (λ t. t < 2 ^ 64) }
    ensures line { IfOk result (λ t. TakesLines (codes "debug" ++ number t ++ line_end) 10 listing.old listing.new) }
    ensures left { (strings : List (List ℕ)) → (awaited : List Awaited) → Good listing.old → begins (codes "nodebug" ∷ []) (view listing.old) ≡ false → Reads (lines_left strings (debug_line ∷ awaited) (view listing.old)) result (λ time. lines_left strings (debug_lines (Some time) ++ awaited) (view listing.new)) listing.new }
{
    listing.expect(b"debug")?;
    listing.spend(10);
    let time = listing.unsigned(0, u64::MAX);
    listing.next_line()?;
    Ok(time)
}

/// Whether there is debug information, and its time.
fn read_debug_line(listing: &mut Listing) -> Read<Option<u64>>
    ensures time { IfOk result (λ time. IfSome time (λ t. t < 2 ^ 64)) }
    ensures line { IfOk result (λ time. TakesLines (debug_start time) (debug_rest time) listing.old listing.new) }
    ensures left { (strings : List (List ℕ)) → (awaited : List Awaited) → Good listing.old → Reads (lines_left strings (debug_line ∷ awaited) (view listing.old)) result (λ time. lines_left strings (debug_lines time ++ awaited) (view listing.new)) listing.new }
{
    if listing.is_at(b"nodebug") {
        read_no_debug(listing)?;
        return Ok(None);
    }
    Ok(Some(read_debug_time(listing)?))
}

/// The debug information of this time, where there is one.
fn read_entries(
    listing: &mut Listing,
    names: &StringWords,
    time: Option<u64>,
) -> Read<Option<PexDebug>>
    requires { IfSome time (λ t. t < 2 ^ 64) }
    ensures reads { IfOk result (ReadsDebug (vec_len names.now.spelled) (spelled_in names.now) time listing.old listing.new) }
    ensures left { (strings : List (List ℕ)) → (awaited : List Awaited) → IsTableOf strings names.now → Good listing.old → Reads (lines_left strings (debug_lines time ++ awaited) (view listing.old)) result (λ _. lines_left strings awaited (view listing.new)) listing.new }
{
    let Some(time) = time else {
        return Ok(None);
    };
    let functions = read_all(listing, names)?;
    Ok(Some(PexDebug { time, functions }))
}

/// A user flag.
impl Item for (u16, u8) {
    ghost holds = { IsShapedFlag };

    ghost spelling = { spell.flag };

    ghost lines = { form.flag };

    ghost words = { codes "flag" ∷ [] };

    fn is_next(listing: &Listing) -> bool {
        listing.is_at(b"flag")
    }

    fn read(listing: &mut Listing, names: &StringWords) -> Read<Self> {
        listing.expect(b"flag")?;
        listing.spend(3);
        let name = listing.reference(names);
        let index = listing.unsigned_8();
        listing.next_line()?;
        Ok((name, index))
    }
}

/// The parts of a value in the order of the listing.
fn read_pex(listing: &mut Listing) -> Read<Pex>
    requires { listing.old.room.left + 29 ≡ 16777216 }
    ensures shaped { IfOk result (λ v. IsWellShaped (plain v)) }
    ensures fits { IfOk result (λ v. Fits (plain v)) }
    ensures text { IfOk result (λ v. text_left listing.old ≡ form.listing (plain v)) }
    ensures left { Good listing.old → Reads (lines_left [] all_parts (view listing.old)) result (λ _. None) listing.new }
{
    let version = read_version(listing)?;
    let source = read_string(listing, b"source", 0)?;
    let user = read_string(listing, b"user", 0)?;
    let machine = read_string(listing, b"machine", 0)?;
    let strings = read_strings(listing)?;
    let debug_time = read_debug_line(listing)?;
    let names = StringWords::new(listing.alloc, &strings)?;
    let debug = read_entries(listing, &names, debug_time)?;
    let user_flags = read_all(listing, &names)?;
    let objects = read_all(listing, &names)?;
    listing.end()?;
    Ok(Pex {
        minor: version.0,
        time: version.1,
        source,
        user,
        machine,
        strings,
        debug,
        user_flags,
        objects,
    })
}

/// The value whose listing the bytes are. It is well shaped and fits. `Broken` has the first line that breaks a rule,
/// as `ListingRule` says; where the text ends before a line that must come, that is the line after the last.
pub fn assemble(alloc: Global, bytes: &[u8]) -> Result<Pex, ListingFault>
    ensures shaped { IfOk result (λ v. IsWellShaped (plain v)) }
    ensures fits { IfOk result (λ v. Fits (plain v)) }
    ensures text { IfOk result (λ v. bytes.now ≡ form.listing (plain v)) }
    ensures first_break { TellsBreak (list_break bytes.now) result }
{
    let mut listing = Listing::new(alloc, bytes);
    match read_pex(&mut listing) {
        Ok(value) => Ok(value),
        Err(fault) => Err(at_line(listing.number(), fault)),
    }
}
