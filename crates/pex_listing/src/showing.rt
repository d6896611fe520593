//! Values to listings.

ghost use Rattle.std.specs.Prelude.{◌≡◌, ℕ, false, List, ◌<◌, ◌++◌, [], codes, option_map, OnOk};
ghost use Rattle.std.specs.Fmt.{digit_glyph};
ghost use Rattle.std.specs.List.{flat_map};
ghost use Rattle.pex_values.specs.Plain.{plain, plain_debug, plain_function, plain_instruction, plain_lines, plain_named, plain_object, plain_property, plain_state};
ghost use Rattle.pex_values.specs.Shape.{IsWellShaped};
ghost use Rattle.pex_listing.specs.Lines.{eight_digits, escaped, field, number, quoted, string_line, two_digits};
ghost use Rattle.pex_listing.specs.Listing as form;
ghost use Rattle.pex_listing.specs.Spelled.{spelled_in};
ghost use Rattle.pex_listing.specs.Showing.{Shows, Writes, WritesListing, Wrote, entries_of};

use crate::faults::ShowFault;
use crate::strings::StringWords;
use itoa::{Buffer, Integer};
use papy_base::Text;
use papy_io::{IoFault, Sink};
use pex_values::{
    Datum, Instruction, OPCODES, Pex, PexDebug, PexFunction, PexLines, PexObject, PexProperty,
    PexState, PexVariable, SizeForm,
};
use std::alloc::{AllocError, Global};

/// What becomes of bytes that are added to others.
type Added = Result<(), AllocError>;

/// What becomes of lines that are to be written.
type Written = Result<(), ShowFault>;

// ---- fields

/// The lower-case hexadecimal digit of this value.
fn hex_digit(value: u8) -> u8
    requires { value < 16 }
    ensures { result ≡ digit_glyph false value }
{
    if value < 10 {
        b'0' + value
    } else {
        b'a' + (value - 10)
    }
}

fn put_two_digits(out: &mut Vec<u8>, byte: u8) -> Added
    ensures { OnOk result (out.new.items ≡ out.old.items ++ two_digits byte) }
{
    out.push(hex_digit(byte / 16))?;
    Ok(out.push(hex_digit(byte % 16))?)
}

/// The eight hexadecimal digits of a number.
fn put_eight_digits(out: &mut Vec<u8>, number: u32) -> Added
    ensures { OnOk result (out.new.items ≡ out.old.items ++ eight_digits number) }
{
    for byte in &number.to_be_bytes() {
        put_two_digits(out, *byte)?;
    }
    Ok(())
}

/// A number as a field.
fn put_number<N: Integer>(out: &mut Vec<u8>, number: N) -> Added
    ensures { OnOk result (out.new.items ≡ out.old.items ++ field (N.text number)) }
{
    out.push(b' ')?;
    out.extend_from_slice(Buffer::new().format(number).as_bytes())
}

/// A byte between quotes: one from 20h to 7Eh as it is, but for `\"` and `\\`, and all others as `\x` and two
/// hexadecimal digits.
fn put_byte(out: &mut Vec<u8>, byte: u8) -> Added
    ensures { OnOk result (out.new.items ≡ out.old.items ++ escaped byte) }
{
    match byte {
        b'"' => out.extend_from_slice(b"\\\""),
        b'\\' => out.extend_from_slice(b"\\\\"),
        0x20..=0x7E => Ok(out.push(byte)?),
        _ => {
            out.extend_from_slice(b"\\x")?;
            put_two_digits(out, byte)
        }
    }
}

/// A string in quotes.
pub(crate) fn put_string(out: &mut Vec<u8>, string: &Text) -> Added
    ensures { OnOk result (out.new.items ≡ out.old.items ++ quoted string.now) }
{
    out.push(b'"')?;
    for byte in string.as_bytes() {
        put_byte(out, *byte)?;
    }
    Ok(out.push(b'"')?)
}

/// A line with a string behind its first word.
fn put_string_line(out: &mut Vec<u8>, word: &[u8], string: &Text) -> Added
    ensures { OnOk result (out.new.items ≡ out.old.items ++ string_line word.now string.now) }
{
    out.extend_from_slice(word)?;
    out.push(b' ')?;
    put_string(out, string)?;
    Ok(out.push(b'\n')?)
}

// ---- the parts of a file

/// A part of a file, as a listing has it.
trait Shown {
    /// Its text, by how references are spelled.
    ghost text: { (ℕ → List ℕ) → Self → List ℕ };

    /// Adds its text.
    fn put(&self, names: &StringWords, out: &mut Vec<u8>) -> Added
        ensures { OnOk result (out.new.items ≡ out.old.items ++ text (spelled_in names.now) self.now) };
}

/// Parts one after another.
fn put_all<T: Shown>(parts: &[T], names: &StringWords, out: &mut Vec<u8>) -> Added
    ensures { OnOk result (out.new.items ≡ out.old.items ++ flat_map (T.text (spelled_in names.now)) parts.now) }
{
    for part in parts {
        part.put(names, out)?;
    }
    Ok(())
}

/// A string of the table.
impl Shown for Text {
    ghost text = { λ spelled string. string_line (codes "string") string };

    fn put(&self, names: &StringWords, out: &mut Vec<u8>) -> Added {
        put_string_line(out, b"string", self)
    }
}

/// The line of an instruction in the source.
impl Shown for u16 {
    ghost text = { λ spelled n. number n };

    fn put(&self, names: &StringWords, out: &mut Vec<u8>) -> Added {
        put_number(out, *self)
    }
}

/// An entry of the debug information.
impl Shown for PexLines {
    ghost text = { λ spelled entry. form.lines spelled (plain_lines entry) };

    fn put(&self, names: &StringWords, out: &mut Vec<u8>) -> Added {
        out.extend_from_slice(b"lines")?;
        names.put(out, self.object)?;
        names.put(out, self.state)?;
        names.put(out, self.function)?;
        put_number(out, self.kind)?;
        put_all(&self.lines, names, out)?;
        Ok(out.push(b'\n')?)
    }
}

/// A user flag.
impl Shown for (u16, u8) {
    ghost text = { λ spelled flag. form.flag spelled flag };

    fn put(&self, names: &StringWords, out: &mut Vec<u8>) -> Added {
        out.extend_from_slice(b"flag")?;
        names.put(out, self.0)?;
        put_number(out, self.1)?;
        Ok(out.push(b'\n')?)
    }
}

/// A value as fields.
impl Shown for Datum {
    ghost text = { λ spelled datum. form.datum spelled datum };

    fn put(&self, names: &StringWords, out: &mut Vec<u8>) -> Added {
        match *self {
            Datum::NoneValue => out.extend_from_slice(b" none"),
            Datum::Word(place) => {
                out.extend_from_slice(b" id")?;
                names.put(out, place)
            }
            Datum::Quoted(place) => {
                out.extend_from_slice(b" text")?;
                names.put(out, place)
            }
            Datum::Int(number) => {
                out.extend_from_slice(b" int")?;
                put_number(out, number)
            }
            Datum::Float(bits) => {
                out.extend_from_slice(b" float ")?;
                put_eight_digits(out, bits)
            }
            Datum::Bool(byte) => {
                out.extend_from_slice(b" bool")?;
                put_number(out, byte)
            }
        }
    }
}

/// The last opcode.
const LAST: u8 = 0x23;

/// The name of an opcode. No bytes where there is none.
pub(crate) fn opcode_name(opcode: u8) -> &'static str
    ensures { result.now ≡ form.opcode_name opcode }
{
    if opcode > LAST {
        return "";
    }
    let entry = OPCODES[opcode as usize];
    entry.name
}

impl Shown for Instruction {
    ghost text = { λ spelled i. form.instruction spelled (plain_instruction i) };

    fn put(&self, names: &StringWords, out: &mut Vec<u8>) -> Added {
        out.extend_from_slice(opcode_name(self.opcode).as_bytes())?;
        put_all(&self.fixed, names, out)?;
        put_all(&self.more, names, out)?;
        Ok(out.push(b'\n')?)
    }
}

/// A `param` or `local` line for each pair of a name and a type.
fn put_pairs(out: &mut Vec<u8>, names: &StringWords, word: &[u8], pairs: &[(u16, u16)]) -> Added
    ensures { OnOk result (out.new.items ≡ out.old.items ++ flat_map (form.pair (spelled_in names.now) word.now) pairs.now) }
{
    for pair in pairs {
        out.extend_from_slice(word)?;
        names.put(out, pair.0)?;
        names.put(out, pair.1)?;
        out.push(b'\n')?;
    }
    Ok(())
}

/// The rest of the line that a function begins with, and the lines of its parameters, locals and code.
impl Shown for PexFunction {
    ghost text = { λ spelled f. form.function spelled (plain_function f) };

    fn put(&self, names: &StringWords, out: &mut Vec<u8>) -> Added {
        names.put(out, self.result)?;
        names.put(out, self.doc)?;
        put_number(out, self.flags)?;
        put_number(out, self.bits)?;
        out.push(b'\n')?;
        put_pairs(out, names, b"param", &self.parameters)?;
        put_pairs(out, names, b"local", &self.locals)?;
        put_all(&self.code, names, out)
    }
}

/// A function of a state.
impl Shown for (u16, PexFunction) {
    ghost text = { λ spelled f. form.named spelled (plain_named f) };

    fn put(&self, names: &StringWords, out: &mut Vec<u8>) -> Added {
        out.extend_from_slice(b"function")?;
        names.put(out, self.0)?;
        self.1.put(names, out)
    }
}

impl Shown for PexVariable {
    ghost text = { λ spelled v. form.variable spelled v };

    fn put(&self, names: &StringWords, out: &mut Vec<u8>) -> Added {
        out.extend_from_slice(b"variable")?;
        names.put(out, self.name)?;
        names.put(out, self.kind)?;
        put_number(out, self.flags)?;
        self.value.put(names, out)?;
        Ok(out.push(b'\n')?)
    }
}

/// The variable of an auto property.
fn put_own_variable(out: &mut Vec<u8>, names: &StringWords, variable: Option<u16>) -> Added
    ensures { OnOk result (out.new.items ≡ out.old.items ++ form.own_variable (spelled_in names.now) variable) }
{
    match variable {
        Some(place) => names.put(out, place),
        None => Ok(()),
    }
}

/// The line that a property begins with.
fn put_property_line(out: &mut Vec<u8>, names: &StringWords, property: &PexProperty) -> Added
    ensures { OnOk result (out.new.items ≡ out.old.items ++ form.property_line (spelled_in names.now) (plain_property property.now)) }
{
    out.extend_from_slice(b"property")?;
    names.put(out, property.name)?;
    names.put(out, property.kind)?;
    names.put(out, property.doc)?;
    put_number(out, property.flags)?;
    put_number(out, property.bits)?;
    put_own_variable(out, names, property.variable)?;
    Ok(out.push(b'\n')?)
}

/// The lines of a function that reads or writes a property.
fn put_accessor(
    out: &mut Vec<u8>,
    names: &StringWords,
    word: &[u8],
    accessor: &Option<PexFunction>,
) -> Added
    ensures { OnOk result (out.new.items ≡ out.old.items ++ form.accessor (spelled_in names.now) word.now (option_map plain_function accessor.now)) }
{
    let Some(function) = accessor else {
        return Ok(());
    };
    out.extend_from_slice(word)?;
    function.put(names, out)
}

/// A property with its functions.
impl Shown for PexProperty {
    ghost text = { λ spelled p. form.property spelled (plain_property p) };

    fn put(&self, names: &StringWords, out: &mut Vec<u8>) -> Added {
        put_property_line(out, names, self)?;
        put_accessor(out, names, b"read", &self.read)?;
        put_accessor(out, names, b"write", &self.write)
    }
}

/// The line that an object begins with.
fn put_object_line(out: &mut Vec<u8>, names: &StringWords, object: &PexObject) -> Added
    ensures { OnOk result (out.new.items ≡ out.old.items ++ form.object_line (spelled_in names.now) (plain_object object.now)) }
{
    out.extend_from_slice(b"object")?;
    names.put(out, object.name)?;
    out.extend_from_slice(match object.size_form {
        SizeForm::Counted => b" counted",
        SizeForm::Bare => b" bare",
    })?;
    names.put(out, object.parent)?;
    names.put(out, object.doc)?;
    put_number(out, object.flags)?;
    names.put(out, object.auto_state)?;
    Ok(out.push(b'\n')?)
}

/// The line that a state begins with.
fn put_state_line(out: &mut Vec<u8>, names: &StringWords, state: &PexState) -> Added
    ensures { OnOk result (out.new.items ≡ out.old.items ++ form.state_line (spelled_in names.now) (plain_state state.now)) }
{
    out.extend_from_slice(b"state")?;
    names.put(out, state.name)?;
    Ok(out.push(b'\n')?)
}

/// The lines before the string table.
fn put_heading(out: &mut Vec<u8>, value: &Pex) -> Added
    ensures { OnOk result (out.new.items ≡ out.old.items ++ form.heading (plain value.now)) }
{
    out.extend_from_slice(b"pex")?;
    put_number(out, value.minor)?;
    put_number(out, value.time)?;
    out.push(b'\n')?;
    put_string_line(out, b"source", &value.source)?;
    put_string_line(out, b"user", &value.user)?;
    put_string_line(out, b"machine", &value.machine)
}

/// The line before the entries of the debug information.
fn put_debug_line(out: &mut Vec<u8>, debug: &Option<PexDebug>) -> Added
    ensures { OnOk result (out.new.items ≡ out.old.items ++ form.debug_line (option_map plain_debug debug.now)) }
{
    let Some(debug) = debug else {
        return out.extend_from_slice(b"nodebug\n");
    };
    out.extend_from_slice(b"debug")?;
    put_number(out, debug.time)?;
    Ok(out.push(b'\n')?)
}

fn entries_of(debug: &Option<PexDebug>) -> &[PexLines]
    ensures { result.now ≡ entries_of debug.now }
{
    match debug {
        Some(debug) => debug.functions.as_slice(),
        None => &[],
    }
}

// ---- lines that are written where enough of them are there

/// How many bytes of lines are held back at least before the sink gets them.
const PART: usize = 65_536;

/// Writes the lines that are held back, and holds none.
fn flush<S: Sink>(out: &mut Vec<u8>, sink: &mut S) -> Written
    ensures faults { Shows S.faults result sink.old sink.new }
    ensures written { Wrote out.old.items result out.new.items (S.written sink.old) (S.written sink.new) }
    ensures emptied { OnOk result (out.new.items ≡ []) }
{
    let written = sink.write(out.as_slice());
    out.clear();
    match written {
        Ok(()) => Ok(()),
        Err(IoFault::Failed) => Err(ShowFault::WriteFault),
        Err(IoFault::OutOfMemory) => Err(ShowFault::OutOfMemory),
    }
}

/// Writes the lines that are held back where they are enough.
fn flush_part<S: Sink>(out: &mut Vec<u8>, sink: &mut S) -> Written
    ensures faults { Shows S.faults result sink.old sink.new }
    ensures written { Wrote out.old.items result out.new.items (S.written sink.old) (S.written sink.new) }
{
    if out.len() < PART {
        return Ok(());
    }
    flush(out, sink)
}

/// Adds a part, and writes it with what is held back where that is enough.
fn show_part<S: Sink, T: Shown>(
    part: &T,
    names: &StringWords,
    out: &mut Vec<u8>,
    sink: &mut S,
) -> Written
    ensures faults { Shows S.faults result sink.old sink.new }
    ensures written { Writes (T.text (spelled_in names.now) part.now) result out.old.items out.new.items (S.written sink.old) (S.written sink.new) }
{
    part.put(names, out)?;
    flush_part(out, sink)
}

/// Parts one after another.
fn show_all<S: Sink, T: Shown>(
    parts: &[T],
    names: &StringWords,
    out: &mut Vec<u8>,
    sink: &mut S,
) -> Written
    ensures faults { Shows S.faults result sink.old sink.new }
    ensures written { Writes (flat_map (T.text (spelled_in names.now)) parts.now) result out.old.items out.new.items (S.written sink.old) (S.written sink.new) }
{
    for part in parts {
        show_part(part, names, out, sink)?;
    }
    Ok(())
}

/// A state with its functions.
fn show_state<S: Sink>(
    state: &PexState,
    names: &StringWords,
    out: &mut Vec<u8>,
    sink: &mut S,
) -> Written
    ensures faults { Shows S.faults result sink.old sink.new }
    ensures written { Writes (form.state (spelled_in names.now) (plain_state state.now)) result out.old.items out.new.items (S.written sink.old) (S.written sink.new) }
{
    put_state_line(out, names, state)?;
    show_all(&state.functions, names, out, sink)
}

fn show_states<S: Sink>(
    states: &[PexState],
    names: &StringWords,
    out: &mut Vec<u8>,
    sink: &mut S,
) -> Written
    ensures faults { Shows S.faults result sink.old sink.new }
    ensures written { Writes (flat_map (λ s. form.state (spelled_in names.now) (plain_state s)) states.now) result out.old.items out.new.items (S.written sink.old) (S.written sink.new) }
{
    for state in states {
        show_state(state, names, out, sink)?;
    }
    Ok(())
}

/// An object with its members.
fn show_object<S: Sink>(
    object: &PexObject,
    names: &StringWords,
    out: &mut Vec<u8>,
    sink: &mut S,
) -> Written
    ensures faults { Shows S.faults result sink.old sink.new }
    ensures written { Writes (form.object (spelled_in names.now) (plain_object object.now)) result out.old.items out.new.items (S.written sink.old) (S.written sink.new) }
{
    put_object_line(out, names, object)?;
    show_all(&object.variables, names, out, sink)?;
    show_all(&object.properties, names, out, sink)?;
    show_states(&object.states, names, out, sink)
}

fn show_objects<S: Sink>(
    objects: &[PexObject],
    names: &StringWords,
    out: &mut Vec<u8>,
    sink: &mut S,
) -> Written
    ensures faults { Shows S.faults result sink.old sink.new }
    ensures written { Writes (flat_map (λ o. form.object (spelled_in names.now) (plain_object o)) objects.now) result out.old.items out.new.items (S.written sink.old) (S.written sink.new) }
{
    for object in objects {
        show_object(object, names, out, sink)?;
    }
    Ok(())
}

/// The debug information.
fn show_debug<S: Sink>(
    debug: &Option<PexDebug>,
    names: &StringWords,
    out: &mut Vec<u8>,
    sink: &mut S,
) -> Written
    ensures faults { Shows S.faults result sink.old sink.new }
    ensures written { Writes (form.debug (spelled_in names.now) (option_map plain_debug debug.now)) result out.old.items out.new.items (S.written sink.old) (S.written sink.new) }
{
    put_debug_line(out, debug)?;
    show_all(entries_of(debug), names, out, sink)
}

/// All lines but those that are held back at last.
fn show_parts<S: Sink>(value: &Pex, names: &StringWords, out: &mut Vec<u8>, sink: &mut S) -> Written
    ensures faults { Shows S.faults result sink.old sink.new }
    ensures written { Writes (form.all_lines (spelled_in names.now) (plain value.now)) result out.old.items out.new.items (S.written sink.old) (S.written sink.new) }
{
    put_heading(out, value)?;
    show_all(&value.strings, names, out, sink)?;
    show_debug(&value.debug, names, out, sink)?;
    show_all(&value.user_flags, names, out, sink)?;
    show_objects(&value.objects, names, out, sink)
}

/// The listing of a well shaped value. `WriteFault` comes only where the sink's count of faults rose. After a fault
/// some of the first bytes of the listing were written.
pub fn show<S: Sink>(alloc: Global, value: &Pex, sink: &mut S) -> Result<(), ShowFault>
    requires { IsWellShaped (plain value.now) }
    ensures faults { Shows S.faults result sink.old sink.new }
    ensures written { WritesListing (form.listing (plain value.now)) result (S.written sink.old) (S.written sink.new) }
{
    let names = StringWords::new(alloc, &value.strings)?;
    let mut out = Vec::new(alloc);
    show_parts(value, &names, &mut out, sink)?;
    flush(&mut out, sink)
}
