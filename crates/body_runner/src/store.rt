//! What scripts change beside their frames: variables, state texts and arrays.

ghost use Rattle.std.specs.Prelude.{◌≡◌, ◌↔◌, ◌<◌, ◌≤◌, [], Ok, not, IfErr, IfOk, IsTrue, OnErr, OnOk, length, slice_set, vec_len};
ghost use Rattle.instance_store.specs.Arrays.{arrays_with, found, length_of, read, write_answer, IsRefusal};
ghost use Rattle.instance_store.specs.Instances.{instance_at, instance_with, variable_of};
ghost use Rattle.core_tree.specs.Values.{is_array_type};
ghost use Rattle.script_meaning.specs.Arrays.{new_array, with_array};
ghost use Rattle.body_runner.specs.Sights.{arrays_of};
ghost use Rattle.body_runner.specs.Values.{array_in};

use core_tree::{CoreType, Scene, Value};
use instance_store::{Arrays, Instances, StoreFault};
use papy_base::{Made, OutOfMemory, StackFault, Text};
use pex_verify::Loaded;
use std::alloc::Global;

/// What scripts change beside their frames.
#[derive(Drop)]
pub struct Store {
    pub instances: Instances,
    // The number of the name of each instance's state, none where no file has it.
    states: Vec<Option<usize>>,
    pub arrays: Arrays,
    ghost one_each: { vec_len states ≡ length instances },
}

impl Store {
    /// The values at the start.
    pub fn create(alloc: Global, loaded: &Loaded, scene: &Scene) -> Made<Store>
        requires { vec_len scene.now.instances < 65536 }
        ensures count { IfOk result (λ store. length store.instances ≡ vec_len scene.now.instances) }
        ensures arrays { IfOk result (λ store. store.arrays ≡ []) }
    {
        let instances = Instances::create(alloc, loaded.outline(), scene)?;
        let count = scene.instances.len();
        Store::of(alloc, loaded, instances, Arrays::new(alloc), count)
    }

    /// The values of these instances and arrays.
    pub fn of(
        alloc: Global,
        loaded: &Loaded,
        instances: Instances,
        arrays: Arrays,
        count: usize,
    ) -> Made<Store>
        requires all { count ≡ length instances }
        requires few { count < 65536 }
        ensures count { IfOk result (λ store. length store.instances ≡ count) }
        ensures arrays { IfOk result (λ store. store.arrays ≡ arrays) }
    {
        let states = first_states(alloc, loaded, &instances, count)?;
        Ok(Store {
            instances,
            states,
            arrays,
        })
    }

    /// The number of the name of an instance's state, none where there is no instance.
    pub fn state_number(&self, instance: Option<u16>) -> Option<usize> {
        *self.states.get(usize::from(instance?))?
    }

    /// Whether there is such an instance.
    pub fn has_instance(&self, instance: u16) -> bool
        ensures { IsTrue result ↔ (instance < length self.now.instances) }
    {
        usize::from(instance) < self.states.len()
    }

    /// Gives an instance another state.
    pub fn set_state(
        &mut self,
        alloc: Global,
        loaded: &Loaded,
        instance: u16,
        state: Text,
    ) -> Made<()>
        ensures ok { OnOk result (self.new.instances ≡ slice_set self.old.instances instance (record (instance_at self.old.instances instance) { state = state })) }
        ensures err { OnErr result (self.new.instances ≡ self.old.instances) }
        ensures count { length self.new.instances ≡ length self.old.instances }
        ensures arrays { self.new.arrays ≡ self.old.arrays }
    {
        let number = loaded.name_number(alloc, state.as_bytes())?;
        if let Some(held) = self.states.get_mut(usize::from(instance)) {
            *held = number;
            self.instances.set_state(instance, state);
        }
        Ok(())
    }

    /// The value of a variable, None where there isn't such a one.
    pub fn variable(&self, instance: u16, script: u16, variable: u16) -> Made<Value>
        ensures { IfOk result (λ value. value ≡ variable_of (instance_at self.now.instances instance) script variable) }
    {
        if !self.instances.has_variable(instance, script, variable) {
            return Ok(Value::NoneValue);
        }
        self.instances.get(instance, script, variable)
    }

    /// Writes a variable, if there is such a one.
    pub fn set_variable(&mut self, instance: u16, script: u16, variable: u16, value: Value)
        ensures written { self.new.instances ≡ slice_set self.old.instances instance (instance_with (instance_at self.old.instances instance) script variable value) }
        ensures count { length self.new.instances ≡ length self.old.instances }
        ensures arrays { self.new.arrays ≡ self.old.arrays }
    {
        if self.instances.has_variable(instance, script, variable) {
            self.instances.set(instance, script, variable, value);
        }
    }

    /// The text of an instance's state, the empty one where there is no such instance.
    pub fn state_text(&self, alloc: Global, instance: u16) -> Made<Text>
        ensures { IfOk result (λ text. text ≡ (instance_at self.now.instances instance).state) }
    {
        if !self.has_instance(instance) {
            return Text::try_from_bytes(alloc, &[]);
        }
        self.instances.state_of(instance).try_clone(alloc)
    }

    /// Adds an array of so many defaults of a type that is no array type, and gives it, or None with a fault where there
    /// are 4,096 already.
    pub fn make_array(&mut self, kind: CoreType, count: u8) -> Made<(Value, Option<StackFault>)>
        requires no_array_type { IsTrue (not (is_array_type kind)) }
        requires some { 1 ≤ count }
        requires at_most { count ≤ 128 }
        ensures made { IfOk result (λ made. made ≡ new_array (arrays_of self.old.arrays)) }
        ensures arrays { OnOk result (arrays_of self.new.arrays ≡ with_array (arrays_of self.old.arrays) kind count) }
        ensures instances { self.new.instances ≡ self.old.instances }
    {
        match self.arrays.create(kind, count) {
            Ok(array) => Ok((Value::Array(array), None)),
            Err(StoreFault::Fault(fault)) => Ok((Value::NoneValue, Some(fault))),
            Err(StoreFault::OutOfMemory) => Err(OutOfMemory),
        }
    }

    // ---- the array that a value is, which has no elements where it isn't there

    /// How many elements it has.
    pub fn length(&self, array: &Value) -> Result<i32, StackFault>
        ensures { result ≡ length_of self.now.arrays (array_in array.now) }
    {
        let Value::Array(number) = array else {
            return Err(StackFault::NoneArray);
        };
        if *number >= self.arrays.count() {
            return Ok(0);
        }
        self.arrays.length(Some(*number))
    }

    /// A copy of the element at an index.
    pub fn element(&self, array: &Value, at: i32) -> Result<Value, StoreFault>
        ensures item { IfOk result (λ value. read self.now.arrays (array_in array.now) at ≡ Ok value) }
        ensures fault { IfErr result (λ fault. IsRefusal (read self.now.arrays (array_in array.now) at) fault) }
    {
        let Value::Array(number) = array else {
            return Err(StoreFault::Fault(StackFault::NoneArray));
        };
        if *number >= self.arrays.count() {
            return Err(StoreFault::Fault(StackFault::IndexRange));
        }
        self.arrays.get_at(Some(*number), at)
    }

    /// Writes the element at an index, and no other.
    pub fn set_element(&mut self, array: &Value, at: i32, value: Value) -> Result<(), StackFault>
        ensures answer { result ≡ write_answer self.old.arrays (array_in array.now) at }
        ensures after { self.new.arrays ≡ arrays_with self.old.arrays (array_in array.now) at value }
        ensures instances { self.new.instances ≡ self.old.instances }
    {
        let Value::Array(number) = array else {
            drop(value);
            return Err(StackFault::NoneArray);
        };
        if *number >= self.arrays.count() {
            drop(value);
            return Err(StackFault::IndexRange);
        }
        self.arrays.set_at(Some(*number), at, value)
    }

    /// The place of an element that equals the value, else -1, as [`Arrays::find`] looks for it.
    pub fn find(
        &self,
        array: &Value,
        value: &Value,
        start: i32,
        back: bool,
    ) -> Result<i32, StackFault>
        ensures { result ≡ found self.now.arrays (array_in array.now) value.now start back }
    {
        let Value::Array(number) = array else {
            return Err(StackFault::NoneArray);
        };
        if *number >= self.arrays.count() {
            return Ok(-1);
        }
        self.arrays.find(Some(*number), value, start, back)
    }
}

// The number of the name of each instance's first state.
fn first_states(
    alloc: Global,
    loaded: &Loaded,
    instances: &Instances,
    count: usize,
) -> Made<Vec<Option<usize>>>
    requires all { count ≡ length instances.now }
    requires few { count < 65536 }
    ensures { IfOk result (λ states. vec_len states ≡ count) }
{
    let mut states = Vec::with_capacity(alloc, count)?;
    for instance in 0..count {
        let state = instances.state_of(instance as u16);
        states.push(loaded.name_number(alloc, state.as_bytes())?)?;
    }
    Ok(states)
}

/// Copies of the values.
pub fn copies(alloc: Global, values: &[Value]) -> Made<Vec<Value>>
    ensures { IfOk result (λ copies. copies.items ≡ values.now) }
{
    let mut copies = Vec::with_capacity(alloc, values.len())?;
    for value in values {
        copies.push(value.try_clone(alloc)?)?;
    }
    Ok(copies)
}
