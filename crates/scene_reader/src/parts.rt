// The parts of a scene that JSON values are read as.
ghost use Rattle.std.specs.Prelude.{◌≡◌, ◌≤◌, ◌≤ℤ◌, ℤ, ◌||◌, ℕ, List, [], true, false, codes, length, map, nat_lt, nat_le, option_and_then, option_map, Some, None, IfErr, IfOk, OnOk};
ghost use Rattle.std.specs.List.{All};
ghost use Rattle.std.specs.Option.{ForSome};
ghost use Rattle.papy_base.specs.InstanceName.{IsInstanceName};
ghost use Rattle.core_tree.specs.Scenes.{tape_shape};
ghost use Rattle.serde_json.specs.Data.{Data};
ghost use Rattle.serde_json.specs.Find.{as_number, as_object, as_str, get as get_in};
ghost use Rattle.serde_json.specs.View.{items_view, members_view, view};
ghost use Rattle.scene_reader.specs.Default.{CallPlan, InstancePlan, call_plan, instance_plan};
ghost use Rattle.scene_reader.specs.Reading.{Finds, Reading, each_item, each_member, entries as entries_in, has_only, have_only, is_among, limited, list as list_in, needed as needed_in, optional};
ghost use Rattle.scene_reader.specs.SceneOf as scenes;
ghost use Rattle.scene_reader.specs.declared.fault.PartFault.TheVariants.{Shape};
ghost use Rattle.core_tree.specs.declared.scene_tree.Binding.{Binding};
ghost use Rattle.core_tree.specs.declared.scene_tree.SceneValue.{SceneValue};
ghost use Rattle.scene_reader.specs.declared.parts.Version.{Version};
ghost use Rattle.scene_reader.specs.Limits.{BindingKeeps, CallKeeps, InstanceKeeps, IsShort, IsTurns, Keeps, NamedKeeps, TapeKeeps, ValueKeeps};

use crate::fault::PartFault;
use core_tree::{Binding, SceneCall, SceneInstance, SceneValue};
use papy_base::{Text, is_instance_name};
use serde_json::{Map, Value};
use std::alloc::Global;

// The limits of scenes. A scene that passes one is refused only once its whole shape was read, since a
// fault of shape anywhere comes first.

/// The most bytes of a scene file.
pub const FILE_LIMIT: usize = 16 * 1024 * 1024;
/// The most bytes of a text.
const TEXT_LIMIT: usize = 1024;
/// The most instances.
pub const INSTANCE_LIMIT: usize = 256;
/// The most calls.
pub const CALL_LIMIT: usize = 1024;
/// The most numbers of a tape.
const TAPE_LIMIT: usize = 100_000;
/// The most entries of an order of stacks.
pub const ORDER_LIMIT: usize = 1_000_000;
/// The most turns of a run, of a latency and before a call.
pub const TURN_LIMIT: u32 = 1_000_000;
/// The most loop passes of a turn.
pub const QUANTUM_LIMIT: u32 = 1000;

/// Whether the key is one of these.
fn is_among(keys: &[&str], key: &str) -> bool
    ensures { result ≡ is_among (map (λ k. k.now) keys.now) key.now }
{
    keys.iter().any(|other| key == *other)
}

/// Whether the object has no other keys than these.
fn have_only(object: &Map<String, Value>, keys: &[&str]) -> bool
    ensures { result ≡ have_only (map (λ k. k.now) keys.now) (members_view object.now.entries) }
{
    for (key, _value) in object.iter() {
        if !is_among(keys, key.as_str()) {
            return false;
        }
    }
    true
}

/// Refuses what is no object, and an object with another key than these.
pub(crate) fn check_keys(value: &Value, keys: &[&str]) -> Result<(), PartFault>
    ensures closed { OnOk result (has_only (map (λ k. k.now) keys.now) (as_object (view value.now)) ≡ true) }
    ensures other { IfErr result (λ fault. (fault ≡ Shape) × (has_only (map (λ k. k.now) keys.now) (as_object (view value.now)) ≡ false)) }
{
    match value.as_object() {
        Some(object) if have_only(object, keys) => Ok(()),
        _ => Err(PartFault::Shape),
    }
}

/// The versions of the form of scenes. The second has prompt natives and the quantum.
#[derive(Clone, Copy, PartialEq, Eq)]
pub(crate) enum Version {
    One,
    Two,
}

/// Reads the parts of a scene of a version.
#[derive(Clone, Copy)]
pub(crate) struct SceneReader {
    pub(crate) alloc: Global,
    pub(crate) version: Version,
}

/// What a part of a scene is read as. Where it passes a limit, that is noted as `broken`, and another value stands for it.
pub(crate) trait Item: Drop {
    /// What it is, without capacities.
    ghost Plan: { Type 0 };

    ghost plan: { Self → Self.Plan };

    ghost reading: { Version → Data → Reading Self.Plan };

    /// Whether it keeps its limits.
    ghost keeps: { Self → Type 0 };

    fn read(reader: SceneReader, broken: &mut bool, value: &Value) -> Result<Self, PartFault>
        ensures limits { IfOk result (λ item. Keeps broken.old broken.new (keeps item)) }
        ensures found { Finds broken.old broken.new (Self.reading reader.version (view value.now)) Self.plan result };
}

/// Notes that a limit is broken where there are more than it allows.
fn require_at_most(broken: &mut bool, count: usize, most: usize)
    ensures limits { Keeps broken.old broken.new (count ≤ most) }
    ensures noted { broken.new ≡ (nat_lt most count || broken.old) }
{
    if count > most {
        *broken = true;
    }
}

// A whole number. One past its bounds breaks a limit, and reads as the least one.
fn whole(broken: &mut bool, value: &Value, least: i64, most: i64) -> Result<i64, PartFault>
    requires { least ≤ℤ most }
    ensures within { IfOk result (λ n. (least ≤ℤ n) × (n ≤ℤ most)) }
    ensures limits { OnOk result (Keeps broken.old broken.new (Unit {0})) }
    ensures found { Finds broken.old broken.new (scenes.whole least most (view value.now)) (λ n. n) result }
{
    let Some(number) = value.as_number() else {
        return Err(PartFault::Shape);
    };
    let Some(whole) = number.as_i128() else {
        return Err(PartFault::Shape);
    };
    if i128::from(least) <= whole && whole <= i128::from(most) {
        Ok(whole as i64)
    } else {
        *broken = true;
        Ok(least)
    }
}

/// A number between these two.
pub(crate) fn count(
    broken: &mut bool,
    value: &Value,
    least: u32,
    most: u32,
) -> Result<u32, PartFault>
    requires { least ≤ most }
    ensures within { IfOk result (λ n. (least ≤ n) × (n ≤ most)) }
    ensures limits { IfOk result (λ n. Keeps broken.old broken.new ((least ≤ n) × (n ≤ most))) }
    ensures found { Finds broken.old broken.new (scenes.count least most (view value.now)) (λ n. n) result }
{
    let Some(number) = value.as_number() else {
        return Err(PartFault::Shape);
    };
    if number.is_f64() {
        return Err(PartFault::Shape);
    }
    match number.as_u64() {
        Some(count) if u64::from(least) <= count && count <= u64::from(most) => Ok(count as u32),
        _ => {
            *broken = true;
            Ok(least)
        }
    }
}

impl SceneReader {
    /// The text that the value is.
    pub(crate) fn text(self, broken: &mut bool, value: &Value) -> Result<Text, PartFault>
        ensures limits { IfOk result (λ text. Keeps broken.old broken.new (IsShort text)) }
        ensures found { Finds broken.old broken.new (scenes.text (view value.now)) (λ text. text) result }
    {
        match value.as_str() {
            Some(text) => self.text_of(broken, text),
            None => Err(PartFault::Shape),
        }
    }

    /// A text of these bytes. One that is too long breaks a limit.
    pub(crate) fn text_of(self, broken: &mut bool, text: &str) -> Result<Text, PartFault>
        ensures limits { IfOk result (λ text. Keeps broken.old broken.new (IsShort text)) }
        ensures found { Finds broken.old broken.new (scenes.short text.now) (λ text. text) result }
    {
        require_at_most(broken, text.len(), TEXT_LIMIT);
        Ok(Text::try_from_bytes(self.alloc, text.as_bytes())?)
    }

    /// What stands at a key, where something must.
    pub(crate) fn needed<T: Item>(
        self,
        broken: &mut bool,
        value: &Value,
        key: &str,
    ) -> Result<T, PartFault>
        ensures limits { IfOk result (λ item. Keeps broken.old broken.new (T.keeps item)) }
        ensures found { Finds broken.old broken.new (needed_in key.now (T.reading self.version) (view value.now)) T.plan result }
    {
        match value.get(key) {
            Some(found) => T::read(self, broken, found),
            None => Err(PartFault::Shape),
        }
    }

    /// The items.
    fn items<T: Item>(self, broken: &mut bool, values: &[Value]) -> Result<Vec<T>, PartFault>
        ensures limits { IfOk result (λ items. Keeps broken.old broken.new (All T.keeps items.items)) }
        ensures found { Finds broken.old broken.new (each_item (T.reading self.version) (items_view values.now)) (λ items. map T.plan items.items) result }
    {
        let mut items = Vec::with_capacity(self.alloc, values.len())?;
        for value in values {
            let item = T::read(self, broken, value)?;
            items.push(item)?;
        }
        Ok(items)
    }

    /// The items of an array.
    pub(crate) fn list<T: Item>(self, broken: &mut bool, value: &Value) -> Result<Vec<T>, PartFault>
        ensures limits { IfOk result (λ items. Keeps broken.old broken.new (All T.keeps items.items)) }
        ensures found { Finds broken.old broken.new (list_in (T.reading self.version) (view value.now)) (λ items. map T.plan items.items) result }
    {
        match value.as_array() {
            Some(values) => self.items(broken, values.as_slice()),
            None => Err(PartFault::Shape),
        }
    }

    /// The items of an array. More than `most` break a limit.
    pub(crate) fn short_list<T: Item>(
        self,
        broken: &mut bool,
        value: &Value,
        most: usize,
    ) -> Result<Vec<T>, PartFault>
        ensures count { IfOk result (λ items. Keeps broken.old broken.new (length items.items ≤ most)) }
        ensures limits { IfOk result (λ items. Keeps broken.old broken.new (All T.keeps items.items)) }
        ensures found { Finds broken.old broken.new (limited (λ items. nat_le (length items) most) (list_in (T.reading self.version) (view value.now))) (λ items. map T.plan items.items) result }
    {
        let items = self.list::<T>(broken, value)?;
        require_at_most(broken, items.len(), most);
        Ok(items)
    }

    /// The items of the array at a key, where there must be one. More than `most` break a limit.
    pub(crate) fn needed_list<T: Item>(
        self,
        broken: &mut bool,
        value: &Value,
        key: &str,
        most: usize,
    ) -> Result<Vec<T>, PartFault>
        ensures count { IfOk result (λ items. Keeps broken.old broken.new (length items.items ≤ most)) }
        ensures limits { IfOk result (λ items. Keeps broken.old broken.new (All T.keeps items.items)) }
        ensures found { Finds broken.old broken.new (needed_in key.now (λ v. limited (λ items. nat_le (length items) most) (list_in (T.reading self.version) v)) (view value.now)) (λ items. map T.plan items.items) result }
    {
        match value.get(key) {
            Some(found) => self.short_list::<T>(broken, found, most),
            None => Err(PartFault::Shape),
        }
    }

    /// The items of the array at a key, none where there is no such key.
    pub(crate) fn optional_list<T: Item>(
        self,
        broken: &mut bool,
        value: &Value,
        key: &str,
    ) -> Result<Vec<T>, PartFault>
        ensures limits { IfOk result (λ items. Keeps broken.old broken.new (All T.keeps items.items)) }
        ensures found { Finds broken.old broken.new (optional key.now [] (list_in (T.reading self.version)) (view value.now)) (λ items. map T.plan items.items) result }
    {
        match value.get(key) {
            Some(found) => self.list::<T>(broken, found),
            None => Ok(Vec::new(self.alloc)),
        }
    }

    /// The entries of an object.
    fn members<T: Item>(
        self,
        broken: &mut bool,
        object: &Map<String, Value>,
    ) -> Result<Vec<(Text, T)>, PartFault>
        ensures limits { IfOk result (λ entries. Keeps broken.old broken.new (All (NamedKeeps T.keeps) entries.items)) }
        ensures found { Finds broken.old broken.new (each_member scenes.short (T.reading self.version) (members_view object.now.entries)) (λ entries. map (λ e. (e.0, T.plan e.1)) entries.items) result }
    {
        let mut entries = Vec::with_capacity(self.alloc, object.len())?;
        for (key, value) in object.iter() {
            let name = self.text_of(broken, key.as_str())?;
            let item = T::read(self, broken, value)?;
            entries.push((name, item))?;
        }
        Ok(entries)
    }

    /// The entries of the object at a key in the order of their names' bytes, none where there is no such key.
    pub(crate) fn optional_entries<T: Item>(
        self,
        broken: &mut bool,
        value: &Value,
        key: &str,
    ) -> Result<Vec<(Text, T)>, PartFault>
        ensures limits { IfOk result (λ entries. Keeps broken.old broken.new (All (NamedKeeps T.keeps) entries.items)) }
        ensures found { Finds broken.old broken.new (optional key.now [] (entries_in scenes.short (T.reading self.version)) (view value.now)) (λ entries. map (λ e. (e.0, T.plan e.1)) entries.items) result }
    {
        let Some(found) = value.get(key) else {
            return Ok(Vec::new(self.alloc));
        };
        match found.as_object() {
            Some(object) => self.members::<T>(broken, object),
            None => Err(PartFault::Shape),
        }
    }
}

/// A cell of a tape.
impl Item for i32 {
    ghost Plan = { ℤ };

    ghost plan = { λ n. n };

    ghost reading = { λ _. scenes.int };

    ghost keeps = { λ _. Unit {0} };

    fn read(reader: SceneReader, broken: &mut bool, value: &Value) -> Result<i32, PartFault> {
        Ok(whole(broken, value, i64::from(i32::MIN), i64::from(i32::MAX))? as i32)
    }
}

/// The number of a device or of a stack.
impl Item for u16 {
    ghost Plan = { ℕ };

    ghost plan = { λ n. n };

    ghost reading = { λ _. scenes.place };

    ghost keeps = { λ _. Unit {0} };

    fn read(reader: SceneReader, broken: &mut bool, value: &Value) -> Result<u16, PartFault> {
        Ok(count(broken, value, 0, u32::from(u16::MAX))? as u16)
    }
}

/// A number of turns.
impl Item for u32 {
    ghost Plan = { ℕ };

    ghost plan = { λ n. n };

    ghost reading = { λ _. scenes.turn };

    ghost keeps = { IsTurns };

    fn read(reader: SceneReader, broken: &mut bool, value: &Value) -> Result<u32, PartFault> {
        count(broken, value, 0, TURN_LIMIT)
    }
}

impl Item for Text {
    ghost Plan = { List ℕ };

    ghost plan = { λ text. text };

    ghost reading = { λ _. scenes.text };

    ghost keeps = { IsShort };

    fn read(reader: SceneReader, broken: &mut bool, value: &Value) -> Result<Text, PartFault> {
        reader.text(broken, value)
    }
}

/// A tape.
impl Item for Vec<i32> {
    ghost Plan = { List ℤ };

    ghost plan = { tape_shape };

    ghost reading = { λ _. scenes.tape };

    ghost keeps = { TapeKeeps };

    fn read(reader: SceneReader, broken: &mut bool, value: &Value) -> Result<Vec<i32>, PartFault> {
        reader.short_list::<i32>(broken, value, TAPE_LIMIT)
    }
}

impl Item for SceneCall {
    ghost Plan = { CallPlan };

    ghost plan = { call_plan };

    ghost reading = { λ _. scenes.call };

    ghost keeps = { CallKeeps };

    fn read(reader: SceneReader, broken: &mut bool, value: &Value) -> Result<SceneCall, PartFault> {
        check_keys(value, &["turn", "instance", "function", "arguments"])?;
        let turn = reader.needed::<u32>(broken, value, "turn")?;
        let instance = reader.needed::<Text>(broken, value, "instance")?;
        let function = reader.needed::<Text>(broken, value, "function")?;
        let arguments = reader.optional_list::<SceneValue>(broken, value, "arguments")?;
        Ok(SceneCall {
            turn,
            instance,
            function,
            arguments,
        })
    }
}

impl Item for SceneInstance {
    ghost Plan = { InstancePlan };

    ghost plan = { instance_plan };

    ghost reading = { λ _. scenes.instance };

    ghost keeps = { InstanceKeeps };

    fn read(
        reader: SceneReader,
        broken: &mut bool,
        value: &Value,
    ) -> Result<SceneInstance, PartFault> {
        check_keys(value, &["name", "script", "set"])?;
        let name = instance_name(reader.alloc, value)?;
        let script = reader.needed::<Text>(broken, value, "script")?;
        let set = reader.optional_entries::<SceneValue>(broken, value, "set")?;
        Ok(SceneInstance { name, script, set })
    }
}

// The name of the instance that the value is.
fn instance_name(alloc: Global, value: &Value) -> Result<Text, PartFault>
    ensures limits { IfOk result IsInstanceName }
    ensures found { Finds false false (needed_in (codes "name") scenes.instance_name (view value.now)) (λ name. name) result }
{
    let Some(found) = value.get("name") else {
        return Err(PartFault::Shape);
    };
    let Some(name) = found.as_str() else {
        return Err(PartFault::Shape);
    };
    if !is_instance_name(name.as_bytes()) {
        return Err(PartFault::Shape);
    }
    Ok(Text::try_from_bytes(alloc, name.as_bytes())?)
}

impl Item for SceneValue {
    ghost Plan = { SceneValue };

    ghost plan = { λ value. value };

    ghost reading = { λ _. scenes.scene_value };

    ghost keeps = { ValueKeeps };

    fn read(
        reader: SceneReader,
        broken: &mut bool,
        value: &Value,
    ) -> Result<SceneValue, PartFault> {
        match value {
            Value::Null => Ok(SceneValue::NoneValue),
            Value::Bool(truth) => Ok(SceneValue::Bool(*truth)),
            Value::Number(_) => Ok(SceneValue::Int(i32::read(reader, broken, value)?)),
            Value::String(text) => Ok(SceneValue::Text(reader.text_of(broken, text.as_str())?)),
            Value::Array(_) => Err(PartFault::Shape),
            Value::Object(_) => {
                check_keys(value, &["instance"])?;
                Ok(SceneValue::Instance(reader.needed::<Text>(broken, value, "instance")?))
            }
        }
    }
}

impl Item for Binding {
    ghost Plan = { Binding };

    ghost plan = { λ binding. binding };

    ghost reading = { scenes.binding };

    ghost keeps = { BindingKeeps };

    fn read(reader: SceneReader, broken: &mut bool, value: &Value) -> Result<Binding, PartFault> {
        let Some(kind) = kind_of(value) else {
            return Err(PartFault::Shape);
        };
        if kind == "sleep" {
            return sleep(value);
        }
        if kind == "trace" {
            return trace(reader, broken, value);
        }
        if kind == "device" {
            return device(reader, broken, value);
        }
        Err(PartFault::Shape)
    }
}

fn kind_of(value: &Value) -> Option<&str>
    ensures { option_map (λ kind. kind.now) result ≡ option_and_then as_str (get_in (codes "kind") (view value.now)) }
{
    value.get("kind").and_then(Value::as_str)
}

fn sleep(value: &Value) -> Result<Binding, PartFault>
    ensures limits { IfOk result BindingKeeps }
    ensures found { Finds false false (scenes.sleep (view value.now)) (λ binding. binding) result }
{
    check_keys(value, &["kind"])?;
    Ok(Binding::Sleep)
}

fn trace(reader: SceneReader, broken: &mut bool, value: &Value) -> Result<Binding, PartFault>
    ensures limits { IfOk result (λ binding. Keeps broken.old broken.new (BindingKeeps binding)) }
    ensures found { Finds broken.old broken.new (scenes.trace reader.version (view value.now)) (λ binding. binding) result }
{
    check_keys(value, &["kind", "latency", "prompt"])?;
    let latency = latency(reader, broken, value)?;
    Ok(tracing(latency))
}

fn tracing(latency: Option<u32>) -> Binding
    ensures binding { result ≡ scenes.tracing latency }
    ensures limits { ForSome latency IsTurns → BindingKeeps result }
{
    match latency {
        None => Binding::PromptTrace,
        Some(latency) => Binding::Trace { latency },
    }
}

fn device(reader: SceneReader, broken: &mut bool, value: &Value) -> Result<Binding, PartFault>
    ensures limits { IfOk result (λ binding. Keeps broken.old broken.new (BindingKeeps binding)) }
    ensures found { Finds broken.old broken.new (scenes.device reader.version (view value.now)) (λ binding. binding) result }
{
    check_keys(value, &["kind", "device", "latency", "prompt"])?;
    let device = reader.needed::<u16>(broken, value, "device")?;
    let latency = latency(reader, broken, value)?;
    Ok(calling(device, latency))
}

fn calling(device: u16, latency: Option<u32>) -> Binding
    ensures binding { result ≡ scenes.calling device latency }
    ensures limits { ForSome latency IsTurns → BindingKeeps result }
{
    match latency {
        None => Binding::PromptDevice { device },
        Some(latency) => Binding::Device { device, latency },
    }
}

// Whether a native is prompt. The key belongs to version 2.
fn prompt(version: Version, value: &Value) -> Result<bool, PartFault>
    ensures { Finds false false (scenes.prompt_from version (get_in (codes "prompt") (view value.now))) (λ prompt. prompt) result }
{
    let Some(found) = value.get("prompt") else {
        return Ok(false);
    };
    match version {
        Version::One => Err(PartFault::Shape),
        Version::Two => found.as_bool().ok_or(PartFault::Shape),
    }
}

// How many turns later a native's effect lets its caller go on, or none where it does in the same turn.
fn latency(reader: SceneReader, broken: &mut bool, value: &Value) -> Result<Option<u32>, PartFault>
    ensures limits { IfOk result (λ latency. Keeps broken.old broken.new (ForSome latency IsTurns)) }
    ensures found { Finds broken.old broken.new (scenes.latency reader.version (view value.now)) (λ latency. latency) result }
{
    let is_prompt = prompt(reader.version, value)?;
    match value.get("latency") {
        Some(latency) => {
            if is_prompt {
                return Err(PartFault::Shape);
            }
            Ok(Some(u32::read(reader, broken, latency)?))
        }
        None => Ok(if is_prompt { None } else { Some(0) }),
    }
}
