//! What values count as, and what they are cast to.

ghost use Rattle.std.specs.Prelude.{◌≡◌, ◌++◌, slice_get, IfOk, OnOk};
ghost use Rattle.pex_verify.specs.Plain.{outline_of};
ghost use Rattle.script_meaning.specs.Values.{cast_to, instance_as, int_of, int_of_text, is_of_script, written};
ghost use Rattle.code_meaning.specs.Execution.{cast_where};
ghost use Rattle.body_runner.specs.Bodies.{home_of};
ghost use Rattle.body_runner.specs.Casts.{named, plain_text, text_of_bound, IsTextOf};
ghost use Rattle.body_runner.specs.Operands.{kind_of, worth, Stores};
ghost use Rattle.body_runner.specs.Sights.{titles_of};
ghost use Rattle.body_runner.specs.Values.{is_true, number_in, text_in};

use crate::body::{Home, Inner};
use crate::lines::script_name;
use crate::setting::Setting;
use crate::store::Store;
use core_tree::{CoreType, Value};
use instance_store::Arrays;
use loaded_code::Operand;
use papy_base::{Made, Text, read_int, write_int};
use std::alloc::Global;

/// The number of an Int, 1 of True, and 0 of all else.
pub fn number_of(value: &Value) -> i32
    ensures { result ≡ number_in value.now }
{
    match value {
        Value::Int(number) => *number,
        Value::Bool(true) => 1,
        _ => 0,
    }
}

/// Whether a value counts as true: it is no 0, False, empty text or None.
pub fn counts_as_true(value: &Value) -> bool
    ensures { result ≡ is_true value.now }
{
    match value {
        Value::NoneValue => false,
        Value::Int(number) => *number != 0,
        Value::Bool(truth) => *truth,
        Value::Text(text) => !text.as_bytes().is_empty(),
        Value::Instance(_) | Value::Array(_) => true,
    }
}

/// A text, and the empty one of all else.
pub fn text_in(alloc: Global, value: Value) -> Made<Text>
    ensures { IfOk result (λ text. text ≡ text_in value) }
{
    match value {
        Value::Text(text) => Ok(text),
        other => {
            drop(other);
            Text::try_from_bytes(alloc, &[])
        }
    }
}

impl Home<'_> {
    /// cast
    pub fn cast(&self, inner: &mut Inner<'_>, to: &Operand, value: &Operand) -> Made<()>
        ensures { OnOk result (Stores self.now inner.old inner.new to.now (cast_where (home_of self.now) (kind_of self.now to.now) (worth self.now inner.old value.now))) }
    {
        let Some(kind) = self.type_of(to) else {
            return Ok(());
        };
        let value = self.value(inner, value)?;
        let cast = self.cast_to(kind, value)?;
        self.write(inner, to, cast)
    }

    fn cast_to(&self, kind: CoreType, value: Value) -> Made<Value>
        ensures { IfOk result (λ cast. cast ≡ cast_to (outline_of self.now.turn.now.setting.now.loaded) (titles_of self.now.turn.now.setting.now.scene) kind value) }
    {
        match kind {
            CoreType::Int => Ok(Value::Int(cast_to_number(&value))),
            CoreType::Bool => Ok(Value::Bool(counts_as_true(&value))),
            CoreType::Text => {
                let text = plain_text(self.turn.alloc, self.turn.setting, &value);
                drop(value);
                Ok(Value::Text(text?))
            }
            CoreType::Script(script) => Ok(self.cast_to_script(script, value)),
            CoreType::IntArray => Ok(value),
            CoreType::BoolArray => Ok(value),
            CoreType::TextArray => Ok(value),
            CoreType::ScriptArray(_) => Ok(value),
        }
    }

    // None of an instance whose script is another one.
    fn cast_to_script(&self, script: u16, value: Value) -> Value
        ensures { result ≡ instance_as (outline_of self.now.turn.now.setting.now.loaded) (titles_of self.now.turn.now.setting.now.scene) script value }
    {
        let Value::Instance(instance) = value else {
            return value;
        };
        if self.is_of_script(instance, script) {
            return Value::Instance(instance);
        }
        Value::NoneValue
    }

    // Whether an instance's script is this one or stands below it.
    fn is_of_script(&self, instance: u16, script: u16) -> bool
        ensures { result ≡ is_of_script (outline_of self.now.turn.now.setting.now.loaded) script (slice_get (titles_of self.now.turn.now.setting.now.scene) instance) }
    {
        match self.turn.setting.script_of(instance) {
            Some(own) => self.turn.setting.is_child(own, script),
            None => false,
        }
    }
}

fn cast_to_number(value: &Value) -> i32
    ensures { result ≡ int_of value.now }
{
    match value {
        Value::NoneValue => 0,
        Value::Int(number) => *number,
        Value::Bool(true) => 1,
        Value::Bool(false) => 0,
        Value::Text(text) => int_of_text(text.as_bytes()),
        Value::Instance(_) => 0,
        Value::Array(_) => 0,
    }
}

fn int_of_text(text: &[u8]) -> i32
    ensures { result ≡ int_of_text text.now }
{
    read_int(text)
}

/// The text that a cast of a value gives: a number's decimals, `True` or `False`, `[Script <name>]`, or `None`, also of an
/// array.
fn plain_text(alloc: Global, setting: &Setting, value: &Value) -> Made<Text>
    ensures { IfOk result (λ text. text ≡ written (outline_of setting.now.loaded) (titles_of setting.now.scene) value.now) }
{
    let mut bytes = Vec::new(alloc);
    append_plain(&mut bytes, setting, value)?;
    Text::try_from_bytes(alloc, bytes.as_slice())
}

/// The text of a value: a number's decimals, `True` or `False`, `[Script <name>]`, `None`, or an array's
/// elements between brackets.
#[tactic(auto, using(crate::proofs::Texts::is_text))]
pub fn text_of(alloc: Global, setting: &Setting, store: &Store, value: &Value) -> Made<Text>
    ensures { IfOk result (IsTextOf setting.now.loaded.outline setting.now.scene value.now) }
{
    let mut bytes = Vec::new(alloc);
    if let Value::Array(array) = value {
        append_array(&mut bytes, setting, &store.arrays, *array)?;
        return Text::try_from_bytes(alloc, bytes.as_slice());
    }
    append_plain(&mut bytes, setting, value)?;
    Text::try_from_bytes(alloc, bytes.as_slice())
}

// The text of a value that is no array.
fn append_plain(bytes: &mut Vec<u8>, setting: &Setting, value: &Value) -> Made<()>
    ensures { OnOk result (bytes.new.items ≡ bytes.old.items ++ plain_text setting.now.loaded.outline setting.now.scene value.now) }
{
    match value {
        Value::Int(number) => {
            let digits = write_int(*bytes.allocator(), *number)?;
            append(bytes, digits.as_bytes())
        }
        Value::Bool(true) => append(bytes, b"True"),
        Value::Bool(false) => append(bytes, b"False"),
        Value::Text(text) => append(bytes, text.as_bytes()),
        Value::Instance(instance) => append_instance(bytes, setting, *instance),
        Value::NoneValue | Value::Array(_) => append(bytes, b"None"),
    }
}

fn append(bytes: &mut Vec<u8>, more: &[u8]) -> Made<()>
    ensures { OnOk result (bytes.new.items ≡ bytes.old.items ++ more.now) }
{
    bytes.extend_from_slice(more)?;
    Ok(())
}

fn append_instance(bytes: &mut Vec<u8>, setting: &Setting, instance: u16) -> Made<()>
    ensures { OnOk result (bytes.new.items ≡ bytes.old.items ++ text_of_bound setting.now.loaded.outline (slice_get setting.now.scene.instances.items instance)) }
{
    let Some(bound) = setting.scene.instances.get(usize::from(instance)) else {
        return Ok(());
    };
    append_named(
        bytes,
        script_name(setting, bound.script),
        bound.name.as_bytes(),
    )
}

// `[Script <name>]`
fn append_named(bytes: &mut Vec<u8>, script: &[u8], name: &[u8]) -> Made<()>
    ensures { OnOk result (bytes.new.items ≡ bytes.old.items ++ named script.now name.now) }
{
    bytes.push(b'[')?;
    bytes.extend_from_slice(script)?;
    bytes.extend_from_slice(b" <")?;
    bytes.extend_from_slice(name)?;
    bytes.extend_from_slice(b">]")?;
    Ok(())
}

fn append_array(bytes: &mut Vec<u8>, setting: &Setting, arrays: &Arrays, array: u16) -> Made<()> {
    bytes.push(b'[')?;
    if array < arrays.count() {
        for (at, item) in arrays.items_of(array).iter().enumerate() {
            if at > 0 {
                bytes.extend_from_slice(b", ")?;
            }
            append_plain(bytes, setting, item)?;
        }
    }
    bytes.push(b']')?;
    Ok(())
}
