//! Objects, their members, and the functions in them down to their instructions.

ghost use Rattle.std.specs.Prelude.{◌≡◌, ℕ, List, ◌+◌, ◌<◌, ◌++◌, ◌∷◌, true, false, [], codes, length, vec_len, is_some, IfOk, IfSome, ⊤};
ghost use Rattle.std.specs.List.{flat_map, AllByRecursion};
ghost use Rattle.pex_values.specs.Bits as bits_of;
ghost use Rattle.pex_values.specs.Plain.{plain_instruction, plain_function, plain_named, plain_property, plain_state, plain_object};
ghost use Rattle.pex_values.specs.Shape.{IsReference, ArePair, IsShapedDatum, IsShapedVariable};
ghost use Rattle.pex_values.specs.Spelling as spell;
ghost use Rattle.pex_listing.specs.Listing as form;
ghost use Rattle.pex_listing.specs.Breaks as breaks;
ghost use Rattle.pex_listing.specs.Breaks.{Awaited, Form, a_value, asked, done, function_line, pair_line, paid, values, values_behind};
ghost use Rattle.pex_listing.specs.Left.{IsTableOf, Leaves, Reads, has_field, line_left, lines_left, view};
ghost use Rattle.pex_listing.specs.Listing.{opcode_names};
ghost use Rattle.pex_listing.specs.Opened.{Continues, Gives, Good, TakesLines, fields_left};
ghost use Rattle.pex_listing.specs.Parted.{HasForm, ReadsPart, ReadsParts};
ghost use Rattle.pex_listing.specs.Reading.{ReadsAll, ReadsAccessor, HoldsInstruction, HoldsFunction, HoldsNamed, HoldsProperty, HoldsState, HoldsObject, more_bytes};
ghost use Rattle.pex_listing.specs.Spelled.{spelled_in};

use crate::faults::{BAD_LINE, ListingRule, Read};
use crate::fields::{ValueKind, value_kind_of};
use crate::listing::{Item, Listing, MOST_ITEMS, read_all};
use crate::strings::StringWords;
use papy_base::Made;
use pex_values::{
    Datum, Instruction, PexFunction, PexObject, PexProperty, PexState, PexVariable, has_read,
    has_variable, has_write, operand_count,
};

/// A value, whose bytes aren't taken yet.
fn read_value(listing: &mut Listing, names: &StringWords) -> Datum
    ensures left { (strings : List (List ℕ)) → IsTableOf strings names.now → Leaves Form (a_value strings) (paid (length (spell.datum result))) listing.old listing.new }
    ensures shorter { has_field (view listing.old) ≡ true → length (fields_left listing.new) < length (fields_left listing.old) }
    ensures gives { Gives (IsShapedDatum (vec_len names.now.spelled) result) (form.datum (spelled_in names.now) result) 0 listing.old listing.new }
{
    let word = listing.field();
    let Some(kind) = value_kind_of(word) else {
        listing.note(ListingRule::BadLine);
        return Datum::NoneValue;
    };
    match kind {
        ValueKind::Nothing => Datum::NoneValue,
        ValueKind::Name => Datum::Word(listing.reference(names)),
        ValueKind::Text => Datum::Quoted(listing.reference(names)),
        ValueKind::Integer => Datum::Int(listing.signed()),
        ValueKind::Real => Datum::Float(listing.hexadecimal()),
        ValueKind::Truth => Datum::Bool(listing.unsigned_8()),
    }
}

/// The bytes of a value in a file.
fn size_of(value: Datum) -> u32
    ensures { result ≡ length (spell.datum value) }
{
    match value {
        Datum::NoneValue => 1,
        Datum::Word(_) | Datum::Quoted(_) => 3,
        Datum::Int(_) | Datum::Float(_) => 5,
        Datum::Bool(_) => 2,
    }
}

/// A value.
fn read_datum(listing: &mut Listing, names: &StringWords) -> Datum
    ensures left { (strings : List (List ℕ)) → IsTableOf strings names.now → Leaves Form (a_value strings) (λ form. form) listing.old listing.new }
    ensures shorter { has_field (view listing.old) ≡ true → length (fields_left listing.new) < length (fields_left listing.old) }
    ensures gives { Gives (IsShapedDatum (vec_len names.now.spelled) result) (form.datum (spelled_in names.now) result) (length (spell.datum result)) listing.old listing.new }
{
    let value = read_value(listing, names);
    listing.spend(size_of(value));
    value
}

/// So many values.
fn read_fixed(listing: &mut Listing, names: &StringWords, count: u8) -> Made<Vec<Datum>>
    ensures values { IfOk result (λ v. Gives (AllByRecursion (IsShapedDatum (vec_len names.now.spelled)) v.items) (flat_map (form.datum (spelled_in names.now)) v.items) (length (flat_map spell.datum v.items)) listing.old listing.new) }
    ensures count { IfOk result (λ v. length v.items ≡ count) }
    ensures left { IfOk result (λ _. (strings : List (List ℕ)) → IsTableOf strings names.now → Leaves Form (values strings count) (λ form. form) listing.old listing.new) }
{
    let mut values = Vec::new(listing.alloc);
    for _place in 0..count {
        values.push(read_datum(listing, names))?;
    }
    Ok(values)
}

/// The values up to the end of the line, where some may stand there. Each takes a byte or more.
fn read_more(listing: &mut Listing, names: &StringWords, may_follow: bool) -> Made<Vec<Datum>>
    ensures values { IfOk result (λ v. Gives (AllByRecursion (IsShapedDatum (vec_len names.now.spelled)) v.items) (flat_map (form.datum (spelled_in names.now)) v.items) (more_bytes may_follow + length (flat_map spell.datum v.items)) listing.old listing.new) }
    ensures none { IfOk result (λ v. may_follow ≡ false → v.items ≡ []) }
    ensures left { IfOk result (λ _. (strings : List (List ℕ)) → IsTableOf strings names.now → Leaves ⊤ (λ _. values_behind strings may_follow) (λ _. done [] []) listing.old listing.new) }
{
    let mut values = Vec::new(listing.alloc);
    if !may_follow {
        return Ok(values);
    }
    listing.spend(5);
    while listing.has_field() {
        values.push(read_datum(listing, names))?;
    }
    Ok(values)
}

impl Item for Instruction {
    ghost holds = { HoldsInstruction };

    ghost spelling = { λ i. spell.instruction (plain_instruction i) };

    ghost lines = { λ spelled i. form.instruction spelled (plain_instruction i) };

    ghost words = { opcode_names };

    fn is_next(listing: &Listing) -> bool {
        listing.opcode().is_some()
    }

    fn read(listing: &mut Listing, names: &StringWords) -> Read<Self> {
        let Some(opcode) = listing.opcode() else {
            return Err(BAD_LINE);
        };
        let Some((count, may_follow)) = operand_count(opcode) else {
            return Err(BAD_LINE);
        };
        listing.spend(1);
        let fixed = read_fixed(listing, names, count)?;
        let more = read_more(listing, names, may_follow)?;
        listing.next_line()?;
        Ok(Instruction {
            opcode,
            fixed,
            more,
        })
    }
}

/// A name with its type, as a line has it that begins with this word.
fn read_pair(listing: &mut Listing, names: &StringWords, word: &[u8]) -> Read<(u16, u16)>
    ensures holds { IfOk result (ArePair (vec_len names.now.spelled)) }
    ensures line { IfOk result (λ pair. TakesLines (form.pair (spelled_in names.now) word.now pair) (length (spell.pair pair)) listing.old listing.new) }
    ensures left { HasForm word.now (λ strings _. pair_line strings) → ReadsPart (word.now ∷ []) names.now listing.old listing.new result }
{
    listing.expect(word)?;
    listing.spend(4);
    let name = listing.reference(names);
    let kind = listing.reference(names);
    listing.next_line()?;
    Ok((name, kind))
}

/// All `param` or `local` lines that follow.
fn read_pairs(listing: &mut Listing, names: &StringWords, word: &[u8]) -> Read<Vec<(u16, u16)>>
    ensures all { IfOk result (λ pairs. ReadsAll (ArePair (vec_len names.now.spelled)) spell.pair (form.pair (spelled_in names.now) word.now) listing.old listing.new pairs.items) }
    ensures left { HasForm word.now (λ strings _. pair_line strings) → ReadsParts (word.now ∷ []) names.now listing.old listing.new result }
{
    let mut pairs = Vec::new(listing.alloc);
    for _place in 0..MOST_ITEMS {
        if !listing.is_at(word) {
            return Ok(pairs);
        }
        pairs.push(read_pair(listing, names, word)?)?;
    }
    if listing.is_at(word) {
        return Err(BAD_LINE);
    }
    Ok(pairs)
}

/// The rest of the line that a function begins with, and the lines behind it. The bytes of a function with empty lists
/// were taken before.
fn read_function(listing: &mut Listing, names: &StringWords) -> Read<PexFunction>
    ensures holds { IfOk result (HoldsFunction (vec_len names.now.spelled)) }
    ensures good { IfOk result (λ _. Good listing.old) }
    ensures left { (strings : List (List ℕ)) → (awaited : List Awaited) → IsTableOf strings names.now → Reads (line_left strings awaited (function_line strings) (view listing.old)) result (λ _. lines_left strings awaited (view listing.new)) listing.new }
    ensures lines { IfOk result (λ f. Continues (form.function (spelled_in names.now) (plain_function f)) (length (spell.function (plain_function f))) 15 listing.old listing.new) }
{
    let result = listing.reference(names);
    let doc = listing.reference(names);
    let flags = listing.unsigned_32();
    let bits = listing.unsigned_8();
    listing.next_line()?;
    let parameters = read_pairs(listing, names, b"param")?;
    let locals = read_pairs(listing, names, b"local")?;
    let code = read_all(listing, names)?;
    Ok(PexFunction {
        result,
        doc,
        flags,
        bits,
        parameters,
        locals,
        code,
    })
}

/// A function of a state.
impl Item for (u16, PexFunction) {
    ghost holds = { HoldsNamed };

    ghost spelling = { λ f. spell.named (plain_named f) };

    ghost lines = { λ spelled f. form.named spelled (plain_named f) };

    ghost words = { codes "function" ∷ [] };

    fn is_next(listing: &Listing) -> bool {
        listing.is_at(b"function")
    }

    fn read(listing: &mut Listing, names: &StringWords) -> Read<Self> {
        listing.expect(b"function")?;
        listing.spend(17);
        let name = listing.reference(names);
        let function = read_function(listing, names)?;
        Ok((name, function))
    }
}

/// The function that reads or writes a property, where one is asked for. The bytes of one with empty lists were
/// taken before.
fn read_accessor(
    listing: &mut Listing,
    names: &StringWords,
    word: &[u8],
    is_asked: bool,
) -> Read<Option<PexFunction>>
    ensures reads { IfOk result (ReadsAccessor (vec_len names.now.spelled) (spelled_in names.now) word.now is_asked listing.old listing.new) }
    ensures left { HasForm word.now (λ strings _. function_line strings) → (strings : List (List ℕ)) → (awaited : List Awaited) → IsTableOf strings names.now → Good listing.old → Reads (lines_left strings (asked is_asked word.now ++ awaited) (view listing.old)) result (λ _. lines_left strings awaited (view listing.new)) listing.new }
{
    if !is_asked {
        return Ok(None);
    }
    listing.expect(word)?;
    Ok(Some(read_function(listing, names)?))
}

impl Item for PexVariable {
    ghost holds = { IsShapedVariable };

    ghost spelling = { spell.variable };

    ghost lines = { form.variable };

    ghost words = { codes "variable" ∷ [] };

    fn is_next(listing: &Listing) -> bool {
        listing.is_at(b"variable")
    }

    fn read(listing: &mut Listing, names: &StringWords) -> Read<Self> {
        listing.expect(b"variable")?;
        listing.spend(8);
        let name = listing.reference(names);
        let kind = listing.reference(names);
        let flags = listing.unsigned_32();
        let value = read_datum(listing, names);
        listing.next_line()?;
        Ok(PexVariable {
            name,
            kind,
            flags,
            value,
        })
    }
}

/// The bytes of a function with empty lists, where it is asked for.
fn least_bytes(is_asked: bool) -> u32
    ensures { result ≡ breaks.least_bytes is_asked }
{
    if is_asked { 15 } else { 0 }
}

/// The reference to the variable of a property, which stands only where the bits ask for it.
fn read_property_variable(listing: &mut Listing, names: &StringWords, bits: u8) -> Option<u16>
    ensures asked_for { is_some result ≡ bits_of.has_variable bits }
    ensures left { (strings : List (List ℕ)) → IsTableOf strings names.now → Leaves Form (breaks.own_variable strings (bits_of.has_variable bits)) (λ form. form) listing.old listing.new }
    ensures variable { Gives (IfSome result (IsReference (vec_len names.now.spelled))) (form.own_variable (spelled_in names.now) result) (length (spell.optional spell.two_bytes result)) listing.old listing.new }
{
    if !has_variable(bits) {
        return None;
    }
    listing.spend(2);
    Some(listing.reference(names))
}

/// The bytes of the functions that must follow are taken with those of the line.
impl Item for PexProperty {
    ghost holds = { HoldsProperty };

    ghost spelling = { λ p. spell.property (plain_property p) };

    ghost lines = { λ spelled p. form.property spelled (plain_property p) };

    ghost words = { codes "property" ∷ [] };

    fn is_next(listing: &Listing) -> bool {
        listing.is_at(b"property")
    }

    fn read(listing: &mut Listing, names: &StringWords) -> Read<Self> {
        listing.expect(b"property")?;
        listing.spend(11);
        let name = listing.reference(names);
        let kind = listing.reference(names);
        let doc = listing.reference(names);
        let flags = listing.unsigned_32();
        let bits = listing.unsigned_8();
        let variable = read_property_variable(listing, names, bits);
        let reads = has_read(bits);
        let writes = has_write(bits);
        listing.spend(least_bytes(reads) + least_bytes(writes));
        listing.next_line()?;
        let read = read_accessor(listing, names, b"read", reads)?;
        let write = read_accessor(listing, names, b"write", writes)?;
        Ok(PexProperty {
            name,
            kind,
            doc,
            flags,
            bits,
            variable,
            read,
            write,
        })
    }
}

impl Item for PexState {
    ghost holds = { HoldsState };

    ghost spelling = { λ s. spell.state (plain_state s) };

    ghost lines = { λ spelled s. form.state spelled (plain_state s) };

    ghost words = { codes "state" ∷ [] };

    fn is_next(listing: &Listing) -> bool {
        listing.is_at(b"state")
    }

    fn read(listing: &mut Listing, names: &StringWords) -> Read<Self> {
        listing.expect(b"state")?;
        listing.spend(4);
        let name = listing.reference(names);
        listing.next_line()?;
        let functions = read_all(listing, names)?;
        Ok(PexState { name, functions })
    }
}

impl Item for PexObject {
    ghost holds = { HoldsObject };

    ghost spelling = { λ o. spell.object (plain_object o) };

    ghost lines = { λ spelled o. form.object spelled (plain_object o) };

    ghost words = { codes "object" ∷ [] };

    fn is_next(listing: &Listing) -> bool {
        listing.is_at(b"object")
    }

    fn read(listing: &mut Listing, names: &StringWords) -> Read<Self> {
        listing.expect(b"object")?;
        listing.spend(22);
        let name = listing.reference(names);
        let size_form = listing.size_form();
        let parent = listing.reference(names);
        let doc = listing.reference(names);
        let flags = listing.unsigned_32();
        let auto_state = listing.reference(names);
        listing.next_line()?;
        let variables = read_all(listing, names)?;
        let properties = read_all(listing, names)?;
        let states = read_all(listing, names)?;
        Ok(PexObject {
            name,
            size_form,
            parent,
            doc,
            flags,
            auto_state,
            variables,
            properties,
            states,
        })
    }
}
