//! A listing as lines, a line as fields, and what the parts of a listing have in common.

ghost use Rattle.std.specs.Prelude.{◌≡◌, ℕ, List, ◌+◌, ◌<◌, ◌≤◌, ◌^◌, [], ◌∷◌, ◌++◌, false, length, vec_len, IfOk, IfErr, IfSome, Some, None, unwrap_or, option_map, if◌then◌else◌};
ghost use Rattle.std.specs.Fmt.{signed_decimal};
ghost use Rattle.std.specs.List.{flat_map};
ghost use Rattle.std.specs.Str.{bytes_eq};
ghost use Rattle.pex_values.specs.Shape.{IsReference};
ghost use Rattle.pex_listing.specs.Lines.{eight_digits, field, number, quoted};
ghost use Rattle.pex_listing.specs.Breaks.{Awaited, all_parts, before_byte, behind_byte, between, break_from, digits_rule, a_string, done, integer_rule, list_break, paid, reference_rule, size_rule};
ghost use Rattle.pex_listing.specs.Left.{Counted, IsTableOf, has_field, Pays, Reads, Tested, begins, behind_field, field_in, lines_left, line_left, missing_by, noted, number_of, place_behind, view};
ghost use Rattle.pex_listing.specs.Listing.{opcode_name, size_form};
ghost use Rattle.pex_listing.specs.Opened.{Begun, Cuts, Ends, Gives, Good, Notes, Spends, Takes, TakesLines, fields_left, text_left};
ghost use Rattle.pex_listing.specs.Parted.{ReadsPart, ReadsParts, opcode_by, opcode_in};
ghost use Rattle.pex_listing.specs.Reading.{ReadsAll};
ghost use Rattle.pex_listing.specs.Spelled.{spelled_in};
ghost use Rattle.papy_base.specs.declared.faults.Fault.TheVariants.{Broken};

use crate::faults::{BAD_LINE, ListingRule, Read};
use crate::fields::{
    hexadecimal_of, is_quoted, reference_of, signed_of, size_form_of, unquote, unsigned_of,
};
use crate::room::{Rest, Room};
use crate::showing::opcode_name;
use crate::strings::StringWords;
use papy_base::{Fault, Made, Text};
use pex_values::{FILE_LIMIT, SizeForm};
use std::alloc::Global;

/// The most items of a list.
pub(crate) const MOST_ITEMS: usize = 65_535;

/// The bytes of a value with empty strings and lists and without debug information.
const LEAST: u32 = 29;

/// How many opcodes there are.
const OPCODE_COUNT: u8 = 36;

fn is_name_of(word: &[u8], opcode: u8) -> bool
    ensures { result ≡ bytes_eq word.now (opcode_name opcode) }
{
    word == opcode_name(opcode).as_bytes()
}

/// The opcode of this name.
fn opcode_of(word: &[u8]) -> Option<u8>
    ensures name { IfSome result (λ code. word.now ≡ opcode_name code) }
    ensures place { result ≡ opcode_in word.now }
{
    for code in 0..OPCODE_COUNT {
        if is_name_of(word, code) {
            return Some(code);
        }
    }
    None
}

/// What stands before the first such byte, and what follows it.
fn cut(bytes: &[u8], byte: u8) -> Option<(&[u8], &[u8])>
    ensures whole { IfSome result (λ parts. bytes.now ≡ parts.0.now ++ byte ∷ parts.1.now) }
    ensures before { IfSome result (λ parts. parts.0.now ≡ before_byte byte bytes.now) }
    ensures behind { option_map (λ parts. parts.1.now) result ≡ behind_byte byte bytes.now }
{
    let at = bytes.iter().position(|each| *each == byte)?;
    Some((&bytes[..at], &bytes[at + 1..]))
}

/// What stands before the first space, and the fields behind it, if there is one.
fn split_field(bytes: &[u8]) -> (&[u8], Option<&[u8]>)
    ensures whole { bytes.now ≡ result.0.now ++ unwrap_or (option_map (λ fields. 32 ∷ fields.now) result.1) [] }
    ensures field { result.0.now ≡ before_byte 32 bytes.now }
    ensures behind { option_map (λ fields. fields.now) result.1 ≡ behind_byte 32 bytes.now }
{
    match cut(bytes, b' ') {
        Some((field, fields)) => (field, Some(fields)),
        None => (bytes, None),
    }
}

/// A listing with its open line, whose fields are read from the left. What a field breaks is noted, and the line is
/// judged at its end.
#[derive(Drop)]
pub(crate) struct Listing<'a> {
    /// The allocator of what is read.
    pub alloc: Global,
    /// The first word of the open line. None where no line is left that ends with LF.
    word: Option<&'a [u8]>,
    /// The fields of the open line that weren't read yet. None behind the last one.
    pub fields: Option<&'a [u8]>,
    /// The rule that the open line breaks so far: BadLine before BadName, and that before NotCanonical.
    broken: Option<ListingRule>,
    pub room: Room,
    rest: Rest<'a>,
}

impl<'a> Listing<'a> {
    /// The first line is open.
    pub(crate) fn new(alloc: Global, bytes: &'a [u8]) -> Listing<'a>
        ensures text { text_left result ≡ bytes.now }
        ensures room { result.room.left + 29 ≡ 16777216 }
        ensures left { Good result × (lines_left [] all_parts (view result) ≡ list_break bytes.now) }
    {
        let mut listing = Listing {
            alloc,
            word: None,
            fields: None,
            broken: None,
            room: Room {
                left: FILE_LIMIT - LEAST,
            },
            rest: Rest { bytes, lines: 0 },
        };
        listing.open_next();
        listing
    }

    /// Opens the line that follows.
    fn open_next(&mut self)
        ensures text { text_left self.new ≡ self.old.rest.bytes.now }
        ensures room { self.new.room.left ≡ self.old.room.left }
        ensures broken { self.new.broken ≡ self.old.broken }
        ensures left { (strings : List (List ℕ)) → (awaited : List Awaited) → lines_left strings awaited (view self.new) ≡ break_from (place_behind strings awaited (view self.old)) (between 10 self.old.rest.bytes.now) }
    {
        self.word = None;
        self.fields = None;
        let Some((line, rest)) = cut(self.rest.bytes, b'\n') else {
            return;
        };
        self.rest = Rest {
            bytes: rest,
            lines: self.rest.lines + 1,
        };
        let (word, fields) = split_field(line);
        self.word = Some(word);
        self.fields = fields;
    }

    /// The number of the open line from 1, or of the one that is missing.
    pub(crate) fn number(&self) -> u64
        ensures { result ≡ number_of (view self.now) }
    {
        match self.word {
            Some(_) => self.rest.lines,
            None => self.rest.lines + 1,
        }
    }

    /// Whether the open line begins with this word.
    pub(crate) fn is_at(&self, word: &[u8]) -> bool
        ensures { result ≡ begins (word.now ∷ []) (view self.now) }
    {
        match self.word {
            Some(found) => found == word,
            None => false,
        }
    }

    /// The opcode whose name the open line begins with.
    pub(crate) fn opcode(&self) -> Option<u8>
        ensures text { IfSome result (λ code. Begun (opcode_name code) 0 self.now self.now) }
        ensures code { result ≡ opcode_by (view self.now).word }
    {
        opcode_of(self.word?)
    }

    /// A line with this word must come.
    pub(crate) fn expect(&self, word: &[u8]) -> Read<()>
        ensures text { IfOk result (λ _. Begun word.now 0 self.now self.now) }
        ensures word { IfOk result (λ _. (view self.now).word ≡ Some word.now) }
        ensures missing { IfErr result (λ fault. (begins (word.now ∷ []) (view self.now) ≡ false) × (fault ≡ Broken (missing_by (view self.now).word))) }
    {
        match self.word {
            Some(found) if found == word => Ok(()),
            Some(_) => Err(BAD_LINE),
            None => Err(Fault::Broken(ListingRule::End)),
        }
    }

    /// No line may follow, also none without its LF.
    pub(crate) fn end(&self) -> Read<()>
        ensures text { IfOk result (λ _. text_left self.now ≡ []) }
        ensures left { (strings : List (List ℕ)) → Good self.now → Reads (lines_left strings [] (view self.now)) result (λ _. None) self.now }
    {
        match self.word {
            Some(_) => Err(BAD_LINE),
            None if self.rest.bytes.is_empty() => Ok(()),
            None => Err(Fault::Broken(ListingRule::End)),
        }
    }

    /// Goes on to the next line. The open one has no further field, so now it is judged.
    pub(crate) fn next_line(&mut self) -> Read<()>
        ensures ends { IfOk result (λ _. Ends self.old self.new) }
        ensures left { (strings : List (List ℕ)) → (awaited inside : List Awaited) → (added : List (List ℕ)) → Reads (line_left strings awaited (done inside added) (view self.old)) result (λ _. lines_left (strings ++ added) (inside ++ awaited) (view self.new)) self.new }
    {
        if self.word.is_none() {
            return Err(Fault::Broken(ListingRule::End));
        }
        if self.fields.is_some() {
            return Err(BAD_LINE);
        }
        if let Some(rule) = self.broken {
            return Err(Fault::Broken(rule));
        }
        self.open_next();
        Ok(())
    }

    /// Notes a rule that the open line breaks.
    pub(crate) fn note(&mut self, rule: ListingRule)
        ensures notes { Notes false self.old self.new }
        ensures noted { view self.new ≡ noted (Some rule) (view self.old) }
    {
        match (self.broken, rule) {
            (Some(ListingRule::BadLine), _) => {}
            (Some(ListingRule::BadName), ListingRule::NotCanonical | ListingRule::End) => {}
            (Some(ListingRule::NotCanonical), ListingRule::End) => {}
            _ => self.broken = Some(rule),
        }
    }

    /// Notes the rule unless the test holds.
    pub(crate) fn check(&mut self, holds: bool, rule: ListingRule)
        ensures notes { Notes holds self.old self.new }
        ensures noted { view self.new ≡ noted (if holds then None else Some rule) (view self.old) }
    {
        if !holds {
            self.note(rule);
        }
    }

    /// Takes so many bytes. The value no longer fits where fewer are left.
    pub(crate) fn spend(&mut self, bytes: u32)
        ensures spends { Spends bytes self.old self.new }
        ensures pays { Pays bytes self.old self.new }
        ensures same { (view self.new).fields ≡ (view self.old).fields }
    {
        let left = self.room.left;
        if bytes > left {
            self.note(ListingRule::BadLine);
            return;
        }
        self.room = Room { left: left - bytes };
    }

    /// Whether the open line has a further field, and may still be good.
    pub(crate) fn has_field(&self) -> bool
        ensures { result ≡ has_field (view self.now) }
    {
        self.fields.is_some() && !matches!(self.broken, Some(ListingRule::BadLine))
    }

    /// The next field.
    pub(crate) fn field(&mut self) -> &'a [u8]
        ensures cuts { Cuts result.now self.old self.new }
        ensures field { result.now ≡ field_in (view self.old).fields }
        ensures behind { view self.new ≡ behind_field (view self.old) }
    {
        let Some(fields) = self.fields else {
            self.note(ListingRule::BadLine);
            return b"";
        };
        let (field, behind) = split_field(fields);
        self.fields = behind;
        field
    }

    /// All that is left of the line, which is a string in quotes.
    pub(crate) fn string(&mut self) -> Made<Text>
        ensures short { IfOk result (λ text. length text < 2 ^ 16) }
        ensures taken { IfOk result (λ text. Takes (field (quoted text)) 0 self.old self.new) }
        ensures left { IfOk result (λ text. (strings : List (List ℕ)) → (awaited : List Awaited) → (adds : List ℕ → List (List ℕ)) → line_left strings awaited (a_string adds (unwrap_or (view self.old).fields [])) (view self.old) ≡ line_left strings awaited (paid (length text) (done [] (adds text))) (view self.new)) }
    {
        let Some(field) = self.fields else {
            self.note(ListingRule::BadLine);
            return Text::try_from_bytes(self.alloc, b"");
        };
        let Some(text) = unquote(self.alloc, field)? else {
            self.note(ListingRule::BadLine);
            return Text::try_from_bytes(self.alloc, b"");
        };
        let is_canonical = is_quoted(self.alloc, field, &text)?;
        self.fields = None;
        self.check(is_canonical, ListingRule::NotCanonical);
        Ok(text)
    }

    /// A number without sign from the least to the most, or `-0`.
    pub(crate) fn unsigned(&mut self, least: u64, most: u64) -> u64
        ensures least { Good self.new → least ≤ result }
        ensures most { result ≤ most }
        ensures taken { Takes (number result) 0 self.old self.new }
        ensures counted { Counted least most result self.old self.new }
    {
        let field = self.field();
        match unsigned_of(field, least, most) {
            Some((number, is_canonical)) => {
                self.check(is_canonical, ListingRule::NotCanonical);
                number
            }
            None => {
                self.note(ListingRule::BadLine);
                0
            }
        }
    }

    pub(crate) fn unsigned_8(&mut self) -> u8
        ensures taken { Takes (number result) 0 self.old self.new }
        ensures counted { Counted 0 255 result self.old self.new }
    {
        self.unsigned(0, 0xFF) as u8
    }

    pub(crate) fn unsigned_16(&mut self) -> u16
        ensures taken { Takes (number result) 0 self.old self.new }
        ensures counted { Counted 0 65535 result self.old self.new }
    {
        self.unsigned(0, 0xFFFF) as u16
    }

    pub(crate) fn unsigned_32(&mut self) -> u32
        ensures taken { Takes (number result) 0 self.old self.new }
        ensures counted { Counted 0 4294967295 result self.old self.new }
    {
        self.unsigned(0, 0xFFFF_FFFF) as u32
    }

    /// A number with a sign.
    pub(crate) fn signed(&mut self) -> i32
        ensures taken { Takes (field (signed_decimal result)) 0 self.old self.new }
        ensures tested { Tested integer_rule self.old self.new }
    {
        let field = self.field();
        match signed_of(field) {
            Some((number, is_canonical)) => {
                self.check(is_canonical, ListingRule::NotCanonical);
                number
            }
            None => {
                self.note(ListingRule::BadLine);
                0
            }
        }
    }

    /// Eight hexadecimal digits.
    pub(crate) fn hexadecimal(&mut self) -> u32
        ensures taken { Takes (field (eight_digits result)) 0 self.old self.new }
        ensures tested { Tested digits_rule self.old self.new }
    {
        let field = self.field();
        match hexadecimal_of(field) {
            Some((number, is_canonical)) => {
                self.check(is_canonical, ListingRule::NotCanonical);
                number
            }
            None => {
                self.note(ListingRule::BadLine);
                0
            }
        }
    }

    /// A reference.
    pub(crate) fn reference(&mut self, names: &StringWords) -> u16
        ensures gives { Gives (IsReference (vec_len names.now.spelled) result) (field (spelled_in names.now result)) 0 self.old self.new }
        ensures tested { (strings : List (List ℕ)) → IsTableOf strings names.now → Tested (reference_rule strings) self.old self.new }
    {
        let field = self.field();
        match reference_of(names, field) {
            Ok((place, is_canonical)) => {
                self.check(is_canonical, ListingRule::NotCanonical);
                place
            }
            Err(rule) => {
                self.note(rule);
                0
            }
        }
    }

    /// What the size field of an object counts.
    pub(crate) fn size_form(&mut self) -> SizeForm
        ensures taken { Takes (size_form result) 0 self.old self.new }
        ensures tested { Tested size_rule self.old self.new }
    {
        let word = self.field();
        match size_form_of(word) {
            Some(form) => form,
            None => {
                self.note(ListingRule::BadLine);
                SizeForm::Bare
            }
        }
    }
}

// ---- the parts of a value

/// A part of a value, which a listing has as one line or as several.
pub(crate) trait Item: Drop {
    /// Whether a value with so many strings may have it.
    ghost holds: { ℕ → Self → Type 0 };

    /// Its bytes in a file.
    ghost spelling: { Self → List ℕ };

    /// Its lines, where references are spelled so.
    ghost lines: { (ℕ → List ℕ) → Self → List ℕ };

    /// The words that its first line may begin with.
    ghost words: { List (List ℕ) };

    /// Whether the open line begins such a part.
    fn is_next(listing: &Listing) -> bool
        ensures { result ≡ begins words (view listing.now) };

    /// Reads the part.
    fn read(listing: &mut Listing, names: &StringWords) -> Read<Self>
        ensures holds { IfOk result (holds (vec_len names.now.spelled)) }
        ensures lines { IfOk result (λ part. TakesLines (lines (spelled_in names.now) part) (length (spelling part)) listing.old listing.new) }
        ensures left { ReadsPart words names.now listing.old listing.new result };
}

/// All such parts that follow.
pub(crate) fn read_all<T: Item>(listing: &mut Listing, names: &StringWords) -> Read<Vec<T>>
    ensures all { IfOk result (λ parts. ReadsAll (T.holds (vec_len names.now.spelled)) T.spelling (T.lines (spelled_in names.now)) listing.old listing.new parts.items) }
    ensures left { ReadsParts T.words names.now listing.old listing.new result }
{
    let mut parts = Vec::new(listing.alloc);
    for _place in 0..MOST_ITEMS {
        if !T::is_next(listing) {
            return Ok(parts);
        }
        parts.push(T::read(listing, names)?)?;
    }
    if T::is_next(listing) {
        return Err(BAD_LINE);
    }
    Ok(parts)
}
