// Operands as the file has them.
#![tactic(auto, using(crate::proofs::Goes::going))]

ghost use Rattle.std.specs.Prelude.{◌≡◌, ℕ, Some, length, vec_len, slice_get, IfOk};
ghost use Rattle.std.specs.List.{AllByRecursion};
ghost use Rattle.pex_values.specs.Shape.{ArePair, IsReference, IsShapedDatum};
ghost use Rattle.code_emit.specs.Spelled.{Each, SpellsLiteral, SpellsOperand, SpellsPlace};
ghost use Rattle.code_emit.specs.Writing.{GoesOn};

use crate::faults::{EmitFault, Result};
use crate::strings::{Numbered, StringTable};
use code_lower::Place;
use core_tree::{CoreType, Value};
use papy_base::Name;
use pex_values::Datum;

/// An operand of an instruction.
#[derive(Clone, Copy)]
pub(crate) enum Operand<'a> {
    At(Place<'a>),
    /// The name of a function or a property.
    Member(&'a Name),
    /// The name of the script of this number.
    Script(u16),
    /// The offset of a jump or the size of an array.
    Number(i32),
    Nothing,
}

/// The operands as the file has them, of a function whose slots have these names and types.
pub(crate) fn operand_data(
    strings: &mut StringTable<'_>,
    slots: &[(u16, u16)],
    operands: &[Operand<'_>],
) -> Result<Vec<Datum>>
    requires { AllByRecursion (ArePair (length strings.old.strings)) slots.now }
    ensures operands { IfOk result (λ found. AllByRecursion (IsShapedDatum (length strings.new.strings)) found.items) }
    ensures spelled { IfOk result (λ found. Each (SpellsOperand (record { table = strings.new; slots = slots.now })) found.items operands.now) }
    ensures goes { GoesOn strings.old strings.new }
{
    let mut found = Vec::with_capacity(strings.alloc(), operands.len())?;
    for operand in operands {
        found.push(operand_datum(strings, slots, *operand)?)?;
    }
    Ok(found)
}

fn operand_datum(
    strings: &mut StringTable<'_>,
    slots: &[(u16, u16)],
    operand: Operand<'_>,
) -> Result<Datum>
    requires { AllByRecursion (ArePair (length strings.old.strings)) slots.now }
    ensures datum { IfOk result (IsShapedDatum (length strings.new.strings)) }
    ensures spelled { IfOk result (λ datum. SpellsOperand (record { table = strings.new; slots = slots.now }) datum operand.entry) }
    ensures goes { GoesOn strings.old strings.new }
{
    match operand {
        Operand::At(place) => place_datum(strings, slots, place),
        Operand::Member(name) => Ok(Datum::Word(strings.place_of(name.as_bytes())?)),
        Operand::Script(number) => {
            let kind = Numbered::Type(Some(CoreType::Script(number)));
            Ok(Datum::Word(strings.numbered(kind)?))
        }
        Operand::Number(number) => Ok(Datum::Int(number)),
        Operand::Nothing => Ok(Datum::NoneValue),
    }
}

/// The same of the arguments of a call.
pub(crate) fn place_data(
    strings: &mut StringTable<'_>,
    slots: &[(u16, u16)],
    places: &[Place<'_>],
) -> Result<Vec<Datum>>
    requires { AllByRecursion (ArePair (length strings.old.strings)) slots.now }
    ensures operands { IfOk result (λ found. AllByRecursion (IsShapedDatum (length strings.new.strings)) found.items) }
    ensures spelled { IfOk result (λ found. Each (SpellsPlace (record { table = strings.new; slots = slots.now })) found.items places.now) }
    ensures goes { GoesOn strings.old strings.new }
{
    let mut found = Vec::with_capacity(strings.alloc(), places.len())?;
    for place in places {
        found.push(place_datum(strings, slots, *place)?)?;
    }
    Ok(found)
}

fn place_datum(
    strings: &mut StringTable<'_>,
    slots: &[(u16, u16)],
    place: Place<'_>,
) -> Result<Datum>
    requires { AllByRecursion (ArePair (length strings.old.strings)) slots.now }
    ensures datum { IfOk result (IsShapedDatum (length strings.new.strings)) }
    ensures spelled { IfOk result (λ datum. SpellsPlace (record { table = strings.new; slots = slots.now }) datum place.entry) }
    ensures goes { GoesOn strings.old strings.new }
{
    match place {
        Place::Literal(value) => constant(strings, value),
        Place::Local(number) => Ok(Datum::Word(slot_name(slots, number)?)),
        Place::Temporary(number, _) => Ok(Datum::Word(slot_name(slots, number)?)),
        Place::Nothing(number) => Ok(Datum::Word(slot_name(slots, number)?)),
        Place::Variable(number, _) => {
            Ok(Datum::Word(strings.numbered(Numbered::Variable(number))?))
        }
        Place::OwnInstance => Ok(Datum::Word(strings.numbered(Numbered::OwnInstance)?)),
        Place::StateText => Ok(Datum::Word(strings.place_of(b"::State")?)),
    }
}

fn slot_name(slots: &[(u16, u16)], number: u16) -> Result<u16>
    ensures reference { IfOk result (λ name. (strings : ℕ) → AllByRecursion (ArePair strings) slots.now → IsReference strings name) }
    ensures slot { IfOk result (λ name. (slot : ℕ × ℕ) × (slice_get slots.now number ≡ Some slot) × (name ≡ slot.0)) }
{
    let slot = slots.get(usize::from(number));
    let slot = slot.ok_or(EmitFault::OutOfRange)?;
    Ok(slot.0)
}

/// A value that the tree has written out.
pub(crate) fn constant(strings: &mut StringTable<'_>, value: &Value) -> Result<Datum>
    ensures datum { IfOk result (IsShapedDatum (length strings.new.strings)) }
    ensures spelled { IfOk result (λ datum. SpellsLiteral strings.new datum value.now) }
    ensures goes { GoesOn strings.old strings.new }
{
    match value {
        Value::NoneValue => Ok(Datum::NoneValue),
        Value::Int(number) => Ok(Datum::Int(*number)),
        Value::Bool(truth) => Ok(Datum::Bool(u8::from(*truth))),
        Value::Text(text) => Ok(Datum::Quoted(strings.place_of(text.as_bytes())?)),
        Value::Instance(_) | Value::Array(_) => Err(EmitFault::OutOfRange),
    }
}
