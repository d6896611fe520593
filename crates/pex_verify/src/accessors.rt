// One property, with the functions that read and write it.
ghost use Rattle.std.specs.Prelude.{◌≡◌, ◌<◌, vec_len, Some, false, IfOk, IfSome, OnOk, IsTrue};
ghost use Rattle.pex_verify.specs.Places.{bounds_of};
ghost use Rattle.pex_verify.specs.Soundness.{IsSoundFunction, IsSoundProperty};
ghost use Rattle.pex_verify.specs.Types.{IsTypeAmong};
ghost use Rattle.pex_verify.specs.declared.value_type.ValueType.TheVariants.{Of};
ghost use Rattle.pex_verify.specs.Meanings.{value_meaning};
ghost use Rattle.pex_verify.specs.Rules.{IsNewProperty};
ghost use Rattle.pex_verify.specs.Signatures.{number_at};
ghost use Rattle.pex_verify.specs.Properties.{Reads, Writes, IsAccessor, AreAccessors, IsOfKind, IsProperty};

use crate::fault::{Judged, VerifyRule, check, refused};
use crate::function::{has_too_many_slots, known_type, load_function};
use crate::judged::{JudgedFunction, JudgedProperty};
use crate::scope::{Home, SlotList};
use crate::scripts::KIND_BITS;
use crate::sources::{OF_READ, OF_WRITE};
use crate::value_type::ValueType;
use core_tree::CoreType;
use pex_set::EMPTY_NAME;
use pex_values::{PexFunction, PexProperty};

/// The property at this place of the object, or the first rule that it and its functions break.
pub(crate) fn load_property(
    home: &Home<'_>,
    slots: &mut SlotList,
    place: usize,
    property: &PexProperty,
) -> Judged<JudgedProperty>
    ensures sound { IfOk result (IsSoundProperty (bounds_of home.now)) }
    ensures property { IfOk result (IsProperty home.now place property.now) }
{
    let kind = judged_type(home, place, property)?;
    let variable = judged_variable(home, property)?;
    let name = home.source.title(home.alloc, property.name)?;
    let read = load_reader(home, slots, property)?;
    let write = load_writer(home, slots, property)?;
    Ok(JudgedProperty {
        name,
        kind,
        bits: property.bits,
        variable,
        read,
        write,
    })
}

// The type of a property whose name is new: V2, V5, then V7.
fn judged_type(home: &Home<'_>, place: usize, property: &PexProperty) -> Judged<CoreType>
    ensures among { IfOk result (IsTypeAmong (vec_len home.now.set.now.heads)) }
    ensures meaning { IfOk result (λ kind. Of kind ≡ value_meaning home.now.set.now.types (number_at home.now.source.now.names.now property.now.kind)) }
    ensures new { OnOk result (IsNewProperty home.now place (number_at home.now.source.now.names.now property.now.name)) }
{
    let declared = home.set.value_type(home.source.names.number(property.kind));
    if declared != ValueType::Float && repeats_property(home, place, property) {
        return Err(refused(VerifyRule::DuplicateName));
    }
    match known_type(declared)? {
        Some(found) => Ok(found),
        None => Err(refused(VerifyRule::OperandType)),
    }
}

// Whether an earlier property of the object or a property of a parent has the name.
fn repeats_property(home: &Home<'_>, place: usize, property: &PexProperty) -> bool
    ensures { result ≡ false → IsNewProperty home.now place (number_at home.now.source.now.names.now property.now.name) }
{
    let here = usize::from(home.here);
    let name = home.source.names.number(property.name);
    if home.set.first_property(here, name) != Some(place) {
        return true;
    }
    match home.set.parent(here) {
        Some(parent) => home.set.find_property(parent, name).is_some(),
        None => false,
    }
}

// The variable of an auto property: V14 where it isn't one of the object, of the property's type.
fn judged_variable(home: &Home<'_>, property: &PexProperty) -> Judged<Option<u16>>
    ensures within { IfOk result (λ variable. IfSome variable (λ n. n < vec_len home.now.variables.now.list)) }
    ensures kind { IfOk result (IsOfKind home.now property.now property.now.variable) }
{
    let Some(reference) = property.variable else {
        return Ok(None);
    };
    let place = variable_place(home, property, reference);
    Ok(Some(place.ok_or(refused(VerifyRule::BadPropertyBits))?))
}

fn variable_place(home: &Home<'_>, property: &PexProperty, reference: u16) -> Option<u16>
    ensures within { IfSome result (λ n. n < vec_len home.now.variables.now.list) }
    ensures kind { IfSome result (λ n. IsOfKind home.now property.now (Some reference) (Some n)) }
{
    let names = home.source.names;
    let place = home.variables.place(names.number(reference))?;
    let variable = home.object.variables.get(usize::from(place))?;
    let is_alike = names.number(variable.kind) == names.number(property.kind);
    is_alike.then_some(place)
}

// The function that reads a property, if there is one.
fn load_reader(
    home: &Home<'_>,
    slots: &mut SlotList,
    property: &PexProperty,
) -> Judged<Option<JudgedFunction>>
    ensures sound { IfOk result (λ function. IfSome function (IsSoundFunction (bounds_of home.now))) }
    ensures written { IfOk result (AreAccessors home.now property.now.name (Reads home.now.source.now.names.now (number_at home.now.source.now.names.now property.now.kind)) property.now.read) }
{
    let Some(function) = &property.read else {
        return Ok(None);
    };
    let is_right = reads(home, property, function);
    Ok(Some(load_accessor(home, slots, property, function, OF_READ, is_right)?))
}

// The function that writes a property, if there is one.
fn load_writer(
    home: &Home<'_>,
    slots: &mut SlotList,
    property: &PexProperty,
) -> Judged<Option<JudgedFunction>>
    ensures sound { IfOk result (λ function. IfSome function (IsSoundFunction (bounds_of home.now))) }
    ensures written { IfOk result (AreAccessors home.now property.now.name (Writes home.now.set.now.types home.now.source.now.names.now (number_at home.now.source.now.names.now property.now.kind)) property.now.write) }
{
    let Some(function) = &property.write else {
        return Ok(None);
    };
    let is_right = writes(home, property, function);
    Ok(Some(load_accessor(home, slots, property, function, OF_WRITE, is_right)?))
}

// A function that reads or writes a property and has its name: V13, then V14 where it hasn't the form that its place
// asks for, or is global or native.
fn load_accessor(
    home: &Home<'_>,
    slots: &mut SlotList,
    property: &PexProperty,
    function: &PexFunction,
    purpose: u8,
    is_right: bool,
) -> Judged<JudgedFunction>
    ensures sound { IfOk result (IsSoundFunction (bounds_of home.now)) }
    ensures right { OnOk result (IsTrue is_right) }
    ensures accessor { IfOk result (IsAccessor home.now property.now.name function.now) }
{
    check(!has_too_many_slots(function), VerifyRule::TooMany)?;
    check(is_right, VerifyRule::BadPropertyBits)?;
    check(function.bits & KIND_BITS == 0, VerifyRule::BadPropertyBits)?;
    let names = home.source.names;
    let object = names.number(home.object.name);
    let name = names.number(property.name);
    let lines = home.lines.find(purpose, object, EMPTY_NAME, name);
    load_function(home, home.source, slots, property.name, function, lines)
}

// To read it no parameters, and a result of the property's type.
fn reads(home: &Home<'_>, property: &PexProperty, function: &PexFunction) -> bool
    ensures { IsTrue result → Reads home.now.source.now.names.now (number_at home.now.source.now.names.now property.now.kind) function.now }
{
    let names = home.source.names;
    function.parameters.is_empty() && names.number(function.result) == names.number(property.kind)
}

// To write it one parameter of the property's type, and no result.
fn writes(home: &Home<'_>, property: &PexProperty, function: &PexFunction) -> bool
    ensures { IsTrue result → Writes home.now.set.now.types home.now.source.now.names.now (number_at home.now.source.now.names.now property.now.kind) function.now }
{
    let names = home.source.names;
    match function.parameters.as_slice() {
        [only] => names.number(only.1) == names.number(property.kind)
            && home.set.result_type(names.number(function.result)) == ValueType::Nothing,
        _ => false,
    }
}
