//! Values, and what has lists of them or of cells: instances, arrays, devices, and stacks with their frames.

ghost use Rattle.std.specs.Prelude.{◌≡◌, ◌≤◌, ◌∷◌, ◌++◌, ⊤, List, map, refl, IfSome, OnOk};
ghost use Rattle.std.proofs.lemmas.List.{map-id};
ghost use Rattle.std.proofs.Common.{sym};
ghost use Rattle.core_tree.specs.Device.{DeviceState};
ghost use Rattle.core_tree.specs.declared.value.Value.{Value};
ghost use Rattle.machine_state.specs.Plain.{PlainInstance, PlainArray, PlainFrame, plain_instance, plain_array, plain_device, plain_frame, plain_stack};
ghost use Rattle.machine_state.specs.Ranges.{IsU16, IsTypeInRange, IsInstanceInRange, IsArrayInRange, IsDeviceInRange, IsFrameInRange, IsStackInRange, IsValueInRange, IsWayInRange};
ghost use Rattle.machine_state.specs.Savable.{FitsTwoBytes, name_of, IsElementType, IsSavableInstance, IsSavableArray, IsSavableDevice, IsSavableFrame, IsSavablePlace, IsSavableStack, IsSavableValue};
ghost use Rattle.stack_save.specs.Parts.{HasPut, Takes, IsPart};
ghost use Rattle.stack_save.specs.Reading as reading;
ghost use Rattle.stack_save.specs.Spelling as spell;

use crate::fault::Taken;
use crate::fields::{Cursor, put_i32, put_number_or_none, put_string};
use crate::items::{
    Item, put_items, put_list, put_long_list, take_items, take_list, take_long_list,
};
use core_tree::{CoreType, DeviceKind, Value};
use machine_state::{BodyPlace, FrameState, Way};
use papy_base::{Name, Text};
use pex_values::{put_byte, put_u16, put_u64};
use std::alloc::AllocError;

// ---- values

/// The value behind its tag.
#[tactic(auto, unfolding(crate::specs::Reading::value_at))]
fn take_tagged(cursor: &mut Cursor<'_>, tag: u8) -> Taken<Value>
    requires { tag ≤ 5 }
    ensures { Takes (λ value. value) (IsPart IsSavableValue IsValueInRange) spell.value reading.value_at result (tag ∷ cursor.old.rest.now) cursor.new.rest.now }
{
    match tag {
        0 => Ok(Value::NoneValue),
        1 => Ok(Value::Int(cursor.take_i32()?)),
        2 => Ok(Value::Bool(cursor.take_tag(1)? == 1)),
        3 => Ok(Value::Text(cursor.take_text()?)),
        4 => Ok(Value::Instance(cursor.take_u16()?)),
        _ => Ok(Value::Array(cursor.take_u16()?)),
    }
}

impl Item for Value {
    ghost Plain = { Value };

    ghost plain = { λ value. value };

    ghost plain_each = { λ items. items };

    ghost savable = { IsSavableValue };

    ghost in_range = { IsValueInRange };

    ghost spelling = { spell.value };

    ghost at = { reading.value_at };

    ghost each = { λ items. sym (map-id items) };

    fn put(&self, out: &mut Vec<u8>) -> Result<(), AllocError> {
        match self {
            Value::NoneValue => put_byte(out, 0),
            Value::Int(number) => {
                put_byte(out, 1)?;
                put_i32(out, *number)
            }
            Value::Bool(truth) => {
                put_byte(out, 2)?;
                put_byte(out, u8::from(*truth))
            }
            Value::Text(text) => {
                put_byte(out, 3)?;
                put_string(out, text.as_bytes())
            }
            Value::Instance(instance) => {
                put_byte(out, 4)?;
                put_u16(out, *instance)
            }
            Value::Array(array) => {
                put_byte(out, 5)?;
                put_u16(out, *array)
            }
        }
    }

    #[tactic(auto, unfolding(crate::specs::Reading::value_at))]
    fn take(cursor: &mut Cursor<'_>) -> Taken<Value> {
        let tag = cursor.take_tag(5)?;
        take_tagged(cursor, tag)
    }
}

// ---- instances, arrays and devices

/// An instance: the text of its state, and the values of its variables.
impl Item for (Text, Vec<Value>) {
    ghost Plain = { PlainInstance };

    ghost plain = { plain_instance };

    ghost plain_each = { map plain_instance };

    ghost savable = { IsSavableInstance };

    ghost in_range = { IsInstanceInRange };

    ghost spelling = { spell.instance };

    ghost at = { reading.instance_at };

    ghost each = { λ items. refl };

    #[tactic(auto, unfolding(crate::specs::Spelling::instance))]
    fn put(&self, out: &mut Vec<u8>) -> Result<(), AllocError> {
        put_string(out, self.0.as_bytes())?;
        put_long_list(out, &self.1)
    }

    #[tactic(auto, unfolding(crate::specs::Spelling::instance, crate::specs::Reading::instance_at))]
    fn take(cursor: &mut Cursor<'_>) -> Taken<(Text, Vec<Value>)> {
        Ok((cursor.take_text()?, take_long_list(cursor)?))
    }
}

/// The type of an array's elements.
fn put_element_type(out: &mut Vec<u8>, element: CoreType) -> Result<(), AllocError>
    requires { IsElementType element }
    ensures { OnOk result (HasPut (IsTypeInRange element) (spell.element_type element) out.old.items out.new.items) }
{
    match element {
        CoreType::Int => put_byte(out, 0),
        CoreType::Bool => put_byte(out, 1),
        CoreType::Text => put_byte(out, 2),
        CoreType::Script(script) => {
            put_byte(out, 3)?;
            put_u16(out, script)
        }
        _ => unreachable!(),
    }
}

/// The type behind its tag.
#[tactic(auto, unfolding(crate::specs::Reading::element_type_at))]
fn take_tagged_type(cursor: &mut Cursor<'_>, tag: u8) -> Taken<CoreType>
    requires { tag ≤ 3 }
    ensures { Takes (λ element. element) (IsPart IsElementType IsTypeInRange) spell.element_type reading.element_type_at result (tag ∷ cursor.old.rest.now) cursor.new.rest.now }
{
    match tag {
        0 => Ok(CoreType::Int),
        1 => Ok(CoreType::Bool),
        2 => Ok(CoreType::Text),
        _ => Ok(CoreType::Script(cursor.take_u16()?)),
    }
}

#[tactic(auto, unfolding(crate::specs::Reading::element_type_at))]
fn take_element_type(cursor: &mut Cursor<'_>) -> Taken<CoreType>
    ensures { Takes (λ element. element) (IsPart IsElementType IsTypeInRange) spell.element_type reading.element_type_at result cursor.old.rest.now cursor.new.rest.now }
{
    let tag = cursor.take_tag(3)?;
    take_tagged_type(cursor, tag)
}

/// An array: the type of its elements, and the elements.
impl Item for (CoreType, Vec<Value>) {
    ghost Plain = { PlainArray };

    ghost plain = { plain_array };

    ghost plain_each = { map plain_array };

    ghost savable = { IsSavableArray };

    ghost in_range = { IsArrayInRange };

    ghost spelling = { spell.array };

    ghost at = { reading.array_at };

    ghost each = { λ items. refl };

    #[tactic(auto, unfolding(crate::specs::Spelling::array))]
    fn put(&self, out: &mut Vec<u8>) -> Result<(), AllocError> {
        put_element_type(out, self.0)?;
        put_byte(out, self.1.len() as u8)?;
        put_items(out, &self.1)
    }

    #[tactic(auto, unfolding(crate::specs::Spelling::array, crate::specs::Reading::array_at, crate::specs::Reading::short_list_at))]
    fn take(cursor: &mut Cursor<'_>) -> Taken<(CoreType, Vec<Value>)> {
        let element = take_element_type(cursor)?;
        let count = cursor.take_byte()?;
        let values = take_items(cursor, count as usize)?;
        Ok((element, values))
    }
}

fn put_device_kind(out: &mut Vec<u8>, kind: DeviceKind) -> Result<(), AllocError>
    ensures { OnOk result (out.new.items ≡ out.old.items ++ spell.device_kind kind) }
{
    match kind {
        DeviceKind::Tape => put_byte(out, 0),
        DeviceKind::Sum => put_byte(out, 1),
        DeviceKind::Latch => put_byte(out, 2),
        DeviceKind::Dice => put_byte(out, 3),
    }
}

fn take_device_kind(cursor: &mut Cursor<'_>) -> Taken<DeviceKind>
    ensures { Takes (λ kind. kind) (λ _. ⊤) spell.device_kind reading.device_kind_at result cursor.old.rest.now cursor.new.rest.now }
{
    let tag = cursor.take_tag(3)?;
    Ok(match tag {
        0 => DeviceKind::Tape,
        1 => DeviceKind::Sum,
        2 => DeviceKind::Latch,
        _ => DeviceKind::Dice,
    })
}

/// A device: its kind, its cells and its place.
impl Item for (DeviceKind, Vec<i32>, u64) {
    ghost Plain = { DeviceState };

    ghost plain = { plain_device };

    ghost plain_each = { map plain_device };

    ghost savable = { IsSavableDevice };

    ghost in_range = { IsDeviceInRange };

    ghost spelling = { spell.device };

    ghost at = { reading.device_at };

    ghost each = { λ items. refl };

    #[tactic(auto, using(crate::proofs::Lists::each_trivial), unfolding(crate::specs::Spelling::device))]
    fn put(&self, out: &mut Vec<u8>) -> Result<(), AllocError> {
        put_device_kind(out, self.0)?;
        put_long_list(out, &self.1)?;
        put_u64(out, self.2)
    }

    #[tactic(auto, unfolding(crate::specs::Spelling::device, crate::specs::Reading::device_at))]
    fn take(cursor: &mut Cursor<'_>) -> Taken<(DeviceKind, Vec<i32>, u64)> {
        Ok((
            take_device_kind(cursor)?,
            take_long_list(cursor)?,
            cursor.take_u64()?,
        ))
    }
}

// ---- calls

/// The tag, the script and the name.
fn put_scripted(out: &mut Vec<u8>, tag: u8, script: u16, name: &Name) -> Result<(), AllocError>
    requires { FitsTwoBytes name.now }
    ensures { OnOk result (HasPut (IsU16 script) (spell.scripted tag script name.now) out.old.items out.new.items) }
{
    put_byte(out, tag)?;
    put_u16(out, script)?;
    put_string(out, name.as_bytes())
}

/// The tag and the name.
fn put_named(out: &mut Vec<u8>, tag: u8, name: &Name) -> Result<(), AllocError>
    requires { FitsTwoBytes name.now }
    ensures { OnOk result (out.new.items ≡ out.old.items ++ spell.named tag name.now) }
{
    put_byte(out, tag)?;
    put_string(out, name.as_bytes())
}

fn put_way(out: &mut Vec<u8>, way: &Way) -> Result<(), AllocError>
    requires { FitsTwoBytes (name_of way.now) }
    ensures { OnOk result (HasPut (IsWayInRange way.now) (spell.way way.now) out.old.items out.new.items) }
{
    match way {
        Way::Method(name) => put_named(out, 0, name),
        Way::Parent { script, name } => put_scripted(out, 1, *script, name),
        Way::Global { script, name } => put_scripted(out, 2, *script, name),
        Way::Get(name) => put_named(out, 3, name),
        Way::Set(name) => put_named(out, 4, name),
    }
}

/// The way behind its tag.
#[tactic(auto, unfolding(crate::specs::Reading::way_at))]
fn take_tagged_way(cursor: &mut Cursor<'_>, tag: u8) -> Taken<Way>
    requires { tag ≤ 4 }
    ensures { Takes (λ way. way) (IsPart (λ way. FitsTwoBytes (name_of way)) IsWayInRange) spell.way reading.way_at result (tag ∷ cursor.old.rest.now) cursor.new.rest.now }
{
    match tag {
        0 => Ok(Way::Method(cursor.take_name()?)),
        1 => Ok(Way::Parent {
            script: cursor.take_u16()?,
            name: cursor.take_name()?,
        }),
        2 => Ok(Way::Global {
            script: cursor.take_u16()?,
            name: cursor.take_name()?,
        }),
        3 => Ok(Way::Get(cursor.take_name()?)),
        _ => Ok(Way::Set(cursor.take_name()?)),
    }
}

#[tactic(auto, unfolding(crate::specs::Reading::way_at))]
fn take_way(cursor: &mut Cursor<'_>) -> Taken<Way>
    ensures { Takes (λ way. way) (IsPart (λ way. FitsTwoBytes (name_of way)) IsWayInRange) spell.way reading.way_at result cursor.old.rest.now cursor.new.rest.now }
{
    let tag = cursor.take_tag(4)?;
    take_tagged_way(cursor, tag)
}

/// A frame to enter behind its tag.
#[tactic(auto, unfolding(crate::specs::Spelling::call, crate::specs::Reading::call_at, crate::specs::Reading::frame_at))]
fn take_call(cursor: &mut Cursor<'_>) -> Taken<FrameState>
    ensures { Takes plain_frame (IsPart IsSavableFrame IsFrameInRange) spell.frame reading.frame_at result (0 ∷ cursor.old.rest.now) cursor.new.rest.now }
{
    Ok(FrameState::ToEnter {
        instance: cursor.take_number_or_none()?,
        way: take_way(cursor)?,
        arguments: take_list(cursor)?,
    })
}

// ---- bodies

#[tactic(auto, unfolding(crate::specs::Spelling::place))]
fn put_place(out: &mut Vec<u8>, place: &BodyPlace) -> Result<(), AllocError>
    requires { IsSavablePlace place.now }
    ensures { OnOk result (HasPut (IsU16 place.now.script) (spell.place place.now) out.old.items out.new.items) }
{
    put_u16(out, place.script)?;
    put_string(out, place.state.as_bytes())?;
    put_string(out, place.function.as_bytes())?;
    put_byte(out, place.kind)
}

#[tactic(auto, unfolding(crate::specs::Spelling::place, crate::specs::Reading::place_at))]
fn take_place(cursor: &mut Cursor<'_>) -> Taken<BodyPlace>
    ensures { Takes (λ place. place) (IsPart IsSavablePlace (λ place. IsU16 place.script)) spell.place reading.place_at result cursor.old.rest.now cursor.new.rest.now }
{
    Ok(BodyPlace {
        script: cursor.take_u16()?,
        state: cursor.take_text()?,
        function: cursor.take_text()?,
        kind: cursor.take_tag(2)?,
    })
}

fn put_reply(out: &mut Vec<u8>, reply: &Option<Value>) -> Result<(), AllocError>
    requires { IfSome reply.now IsSavableValue }
    ensures { OnOk result (HasPut (IfSome reply.now IsValueInRange) (spell.reply reply.now) out.old.items out.new.items) }
{
    match reply {
        None => put_byte(out, 0),
        Some(value) => {
            put_byte(out, 1)?;
            value.put(out)
        }
    }
}

#[tactic(auto, unfolding(crate::specs::Reading::reply_at))]
fn take_reply(cursor: &mut Cursor<'_>) -> Taken<Option<Value>>
    ensures { Takes (λ reply. reply) (IsPart (λ reply. IfSome reply IsSavableValue) (λ reply. IfSome reply IsValueInRange)) spell.reply reading.reply_at result cursor.old.rest.now cursor.new.rest.now }
{
    if cursor.take_tag(1)? == 0 {
        return Ok(None);
    }
    Ok(Some(Value::take(cursor)?))
}

/// A running frame behind its tag.
#[tactic(auto, unfolding(crate::specs::Spelling::body, crate::specs::Reading::body_at, crate::specs::Reading::frame_at))]
fn take_body(cursor: &mut Cursor<'_>) -> Taken<FrameState>
    ensures { Takes plain_frame (IsPart IsSavableFrame IsFrameInRange) spell.frame reading.frame_at result (1 ∷ cursor.old.rest.now) cursor.new.rest.now }
{
    Ok(FrameState::Running {
        instance: cursor.take_number_or_none()?,
        at: take_place(cursor)?,
        instruction: cursor.take_u16()?,
        slots: take_list(cursor)?,
        reply: take_reply(cursor)?,
    })
}

// ---- frames and stacks

impl Item for FrameState {
    ghost Plain = { PlainFrame };

    ghost plain = { plain_frame };

    ghost plain_each = { map plain_frame };

    ghost savable = { IsSavableFrame };

    ghost in_range = { IsFrameInRange };

    ghost spelling = { spell.frame };

    ghost at = { reading.frame_at };

    ghost each = { λ items. refl };

    #[tactic(auto, unfolding(crate::specs::Spelling::call, crate::specs::Spelling::body))]
    fn put(&self, out: &mut Vec<u8>) -> Result<(), AllocError> {
        match self {
            FrameState::ToEnter {
                instance,
                way,
                arguments,
            } => {
                put_byte(out, 0)?;
                put_number_or_none(out, *instance)?;
                put_way(out, way)?;
                put_list(out, arguments)
            }
            FrameState::Running {
                instance,
                at,
                instruction,
                slots,
                reply,
            } => {
                put_byte(out, 1)?;
                put_number_or_none(out, *instance)?;
                put_place(out, at)?;
                put_u16(out, *instruction)?;
                put_list(out, slots)?;
                put_reply(out, reply)
            }
        }
    }

    #[tactic(auto, unfolding(crate::specs::Reading::frame_at))]
    fn take(cursor: &mut Cursor<'_>) -> Taken<FrameState> {
        if cursor.take_tag(1)? == 0 {
            return take_call(cursor);
        }
        take_body(cursor)
    }
}

/// A stack.
impl Item for Vec<FrameState> {
    ghost Plain = { List PlainFrame };

    ghost plain = { plain_stack };

    ghost plain_each = { map plain_stack };

    ghost savable = { IsSavableStack };

    ghost in_range = { IsStackInRange };

    ghost spelling = { spell.stack };

    ghost at = { reading.stack_at };

    ghost each = { λ items. refl };

    fn put(&self, out: &mut Vec<u8>) -> Result<(), AllocError> {
        put_list(out, self)
    }

    fn take(cursor: &mut Cursor<'_>) -> Taken<Vec<FrameState>> {
        take_list(cursor)
    }
}
