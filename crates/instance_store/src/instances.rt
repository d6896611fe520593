//! The instances of a world, and their variables.

ghost use Rattle.std.specs.Prelude.{◌≡◌, ◌↔◌, ◌<◌, List, IfOk, IfSome, OnErr, IsTrue, length, map, slice_get, slice_set, vec_len};
ghost use Rattle.std.specs.Option.{option_copied};
ghost use Rattle.core_tree.specs.Values.{is_text};
ghost use Rattle.instance_store.specs.Depths.{AreLevel, IsLevel};
ghost use Rattle.instance_store.specs.Instances.{instance_at, place_of, values_of, variable_of, scripts_with, scripts_with_at, instance_with, auto_state_of, initial_values, initial_values_of, start_state, started};

use core_tree::{BoundInstance, Outline, OutlineScript, OutlineVariable, Scene, Value};
use papy_base::{Made, Name, Text, lineage_of};
use std::alloc::Global;
use std::marker::Model;

/// The values of a script's variables, in the order of its file.
#[derive(Drop)]
pub struct ScriptVariables {
    script: usize,
    values: Vec<Value>,
}

impl Model for ScriptVariables {
    ghost use Rattle.instance_store.specs.Instances.{ScriptValues};

    ghost Value = { ScriptValues };

    ghost view = { λ v. record { script = v.script; values = v.values.items } };
}

impl ScriptVariables {
    /// The variables of the script of this number, with these values.
    pub fn new(script: usize, values: Vec<Value>) -> ScriptVariables
        ensures { result ≡ record { script = script; values = values.items } }
    {
        ScriptVariables { script, values }
    }

    /// Their values.
    pub fn values(&self) -> &[Value]
        ensures { result.now ≡ self.now.values }
    {
        self.values.as_slice()
    }
}

/// The text of an instance's state, and its variables. Those of its own script stand first, so they
/// are found first.
#[derive(Drop)]
pub struct Instance {
    state: Text,
    scripts: Vec<ScriptVariables>,
}

impl Model for Instance {
    ghost use Rattle.instance_store.specs.Instances.{InstanceState};

    ghost Value = { InstanceState };

    ghost view = { λ i. record { state = i.state; scripts = i.scripts.items } };
}

impl Instance {
    /// An instance in this state, with the variables of each of its scripts from its own upward.
    pub fn new(state: Text, scripts: Vec<ScriptVariables>) -> Instance
        ensures { result ≡ record { state = state; scripts = scripts.items } }
    {
        Instance { state, scripts }
    }

    /// Whether the script declares such a variable.
    pub fn has(&self, script: usize, variable: u16) -> bool
        ensures { IsTrue result ↔ (variable < length (values_of self.now.scripts script)) }
    {
        let place = place_of(self.scripts.as_slice(), script);
        place.is_some_and(|place| usize::from(variable) < self.scripts[place].values.len())
    }

    /// A copy of a variable's value.
    pub fn get(&self, alloc: Global, script: usize, variable: u16) -> Made<Value>
        requires { variable < length (values_of self.now.scripts script) }
        ensures value { IfOk result (λ value. value ≡ variable_of self.now script variable) }
        ensures memory { OnErr result (IsTrue (is_text (variable_of self.now script variable))) }
    {
        let Some(place) = place_of(self.scripts.as_slice(), script) else {
            unreachable!();
        };
        self.scripts[place].values[usize::from(variable)].try_clone(alloc)
    }
}

/// Writes a variable, if there is such a one.
fn write(scripts: &mut Vec<ScriptVariables>, script: usize, variable: u16, value: Value)
    ensures { scripts.new.items ≡ scripts_with scripts.old.items script variable value }
{
    let place = place_of(scripts.as_slice(), script);
    write_at(scripts, place, variable, value);
}

// Writes a variable of the script that stands at this place.
fn write_at(scripts: &mut Vec<ScriptVariables>, place: Option<usize>, variable: u16, value: Value)
    requires { IfSome place (λ place. place < vec_len scripts.old) }
    ensures { scripts.new.items ≡ scripts_with_at scripts.old.items place variable value }
{
    if let Some(place) = place {
        let values = &mut scripts[place].values;
        if let Some(held) = values.get_mut(usize::from(variable)) {
            *held = value;
        }
    }
}

fn place_of(scripts: &[ScriptVariables], script: usize) -> Option<usize>
    ensures found { result ≡ place_of scripts.now script }
    ensures within { IfSome result (λ place. place < length scripts.now) }
{
    scripts.iter().position(|part| part.script == script)
}

/// The instances of a scene, numbered in its order. Contracts see, for each, the text of its state
/// and the values of its variables, script by script.
#[derive(Drop)]
pub struct Instances {
    instances: Vec<Instance>,
    // How many scripts stand above each script, by its number, so that the variables of a script that stands far above
    // an instance's are found at once. Empty where the instances don't agree on it.
    depths: Vec<usize>,
}

impl Model for Instances {
    ghost use Rattle.std.specs.Prelude.{List};
    ghost use Rattle.instance_store.specs.Depths.{AreLevel};
    ghost use Rattle.instance_store.specs.Instances.{InstanceState};

    ghost Value = { List InstanceState };

    ghost view = { λ i. i.instances.items };

    ghost invariant = { λ i. AreLevel i.depths.items i.instances.items };
}

impl Instances {
    /// The instances of a scene that is bound to the outline, as they are at the start: their
    /// variables have the initial values of their scripts, and then those that the scene sets. The
    /// state is the Auto state of the instance's script or of the nearest parent that has one, else
    /// the empty text.
    ///
    /// # Errors
    ///
    /// `OutOfMemory` comes where there is no room.
    pub fn create(alloc: Global, outline: &Outline, scene: &Scene) -> Made<Instances>
        ensures { IfOk result (λ instances. instances ≡ map (started outline.now.scripts.items) scene.now.instances.items) }
    {
        let mut instances = Vec::with_capacity(alloc, scene.instances.len())?;
        for instance in &scene.instances {
            instances.push(start_instance(alloc, &outline.scripts, instance)?)?;
        }
        Instances::of(alloc, instances)
    }

    /// These instances, numbered in their order.
    ///
    /// # Errors
    ///
    /// `OutOfMemory` comes where there is no room.
    pub fn of(alloc: Global, instances: Vec<Instance>) -> Made<Instances>
        ensures { IfOk result (λ made. made ≡ instances.items) }
    {
        let depths = depths_of(alloc, instances.as_slice())?;
        Ok(Instances { instances, depths })
    }

    // The place of a script among those of an instance.
    fn place(&self, instance: usize, script: usize) -> Option<usize>
        requires { instance < length self.now }
        ensures found { result ≡ place_of (instance_at self.now instance).scripts script }
        ensures within { IfSome result (λ place. place < length (instance_at self.now instance).scripts) }
    {
        let found = &self.instances[instance];
        if self.depths.is_empty() {
            return place_of(found.scripts.as_slice(), script);
        }
        place_at_depth(&self.depths, found.scripts.as_slice(), script)
    }

    /// The variables of an instance, script by script, from its own upward.
    pub fn scripts_of(&self, instance: u16) -> &[ScriptVariables]
        requires { instance < length self.now }
        ensures { result.now ≡ (instance_at self.now instance).scripts }
    {
        self.instances[usize::from(instance)].scripts.as_slice()
    }

    /// Whether there is such an instance, and its script or one above it, of this number, declares
    /// such a variable.
    pub fn has_variable(&self, instance: u16, script: u16, variable: u16) -> bool
        ensures { IsTrue result ↔ ((instance < length self.now) × (variable < length (values_of (instance_at self.now instance).scripts script))) }
    {
        let number = usize::from(instance);
        if number >= self.instances.len() {
            return false;
        }
        match self.place(number, usize::from(script)) {
            Some(place) => {
                usize::from(variable) < self.instances[number].scripts[place].values.len()
            }
            None => false,
        }
    }

    /// The value of a variable that the script declares. `OutOfMemory` comes only of a text.
    pub fn get(&self, instance: u16, script: u16, variable: u16) -> Made<Value>
        requires instance_in { instance < length self.now }
        requires variable_in { variable < length (values_of (instance_at self.now instance).scripts script) }
        ensures value { IfOk result (λ value. value ≡ variable_of (instance_at self.now instance) script variable) }
        ensures memory { OnErr result (IsTrue (is_text (variable_of (instance_at self.now instance) script variable))) }
    {
        let (alloc, number) = (*self.instances.allocator(), usize::from(instance));
        let Some(place) = self.place(number, usize::from(script)) else {
            unreachable!();
        };
        self.instances[number].scripts[place].values[usize::from(variable)].try_clone(alloc)
    }

    /// Writes a variable that the script declares, and no other.
    pub fn set(&mut self, instance: u16, script: u16, variable: u16, value: Value)
        requires instance_in { instance < length self.old }
        requires variable_in { variable < length (values_of (instance_at self.old instance).scripts script) }
        ensures { self.new ≡ slice_set self.old instance (instance_with (instance_at self.old instance) script variable value) }
    {
        let number = usize::from(instance);
        let place = self.place(number, usize::from(script));
        write_at(&mut self.instances[number].scripts, place, variable, value);
    }

    /// The text of an instance's state.
    pub fn state_of(&self, instance: u16) -> &Text
        requires { instance < length self.now }
        ensures { result.now ≡ (instance_at self.now instance).state }
    {
        &self.instances[usize::from(instance)].state
    }

    /// Gives an instance another state, and no other instance.
    pub fn set_state(&mut self, instance: u16, state: Text)
        requires { instance < length self.old }
        ensures { self.new ≡ slice_set self.old instance (record (instance_at self.old instance) { state = state }) }
    {
        self.instances[usize::from(instance)].state = state;
    }
}

// ---- how far below their roots scripts stand

fn depth_of(depths: &[usize], script: usize) -> Option<usize>
    ensures { result ≡ slice_get depths.now script }
{
    depths.get(script).copied()
}

// The place of a script, where each stands as far before the end as there are scripts above it.
fn place_at_depth(depths: &[usize], scripts: &[ScriptVariables], script: usize) -> Option<usize>
    requires { IsLevel depths.now scripts.now }
    ensures found { result ≡ place_of scripts.now script }
    ensures within { IfSome result (λ place. place < length scripts.now) }
{
    let Some(depth) = depth_of(depths, script) else {
        return None;
    };
    if depth >= scripts.len() {
        return None;
    }
    let place = scripts.len() - depth - 1;
    let found = &scripts[place];
    if found.script != script {
        return None;
    }
    Some(place)
}

// The depth of each script, none where these instances don't agree on it.
fn depths_of(alloc: Global, instances: &[Instance]) -> Made<Vec<usize>>
    ensures { IfOk result (λ depths. AreLevel depths.items instances.now) }
{
    let mut depths = vec![in alloc; 0; script_count(instances)]?;
    for instance in instances {
        note_depths(&mut depths, instance.scripts.as_slice());
    }
    if !are_level(depths.as_slice(), instances) {
        return Ok(Vec::new(alloc));
    }
    Ok(depths)
}

fn are_level(depths: &[usize], instances: &[Instance]) -> bool
    ensures { IsTrue result → AreLevel depths.now instances.now }
{
    for instance in instances {
        if !is_level(depths, instance.scripts.as_slice()) {
            return false;
        }
    }
    true
}

// One more than the highest number of a script.
fn script_count(instances: &[Instance]) -> usize {
    let mut count = 0;
    for instance in instances {
        for part in &instance.scripts {
            count = count.max(part.script.saturating_add(1));
        }
    }
    count
}

fn note_depths(depths: &mut Vec<usize>, scripts: &[ScriptVariables]) {
    for (place, part) in scripts.iter().enumerate() {
        if let Some(depth) = depths.get_mut(part.script) {
            *depth = scripts.len() - place - 1;
        }
    }
}

// Whether each script has as many behind it as its depth says.
fn is_level(depths: &[usize], scripts: &[ScriptVariables]) -> bool
    ensures { IsTrue result → IsLevel depths.now scripts.now }
{
    for (place, part) in scripts.iter().enumerate() {
        if depth_of(depths, part.script) != Some(scripts.len() - place - 1) {
            return false;
        }
    }
    true
}

// ---- as they are at the start

/// An instance with the initial values of its scripts, then those of the scene.
fn start_instance(
    alloc: Global,
    scripts: &[OutlineScript],
    instance: &BoundInstance,
) -> Made<Instance>
    ensures { IfOk result (λ found. found ≡ started scripts.now instance.now) }
{
    let above = lineage_of(alloc, scripts, usize::from(instance.script))?;
    let state = start_state(alloc, scripts, &above)?;
    let mut variables = all_initial_values(alloc, scripts, &above)?;
    for entry in &instance.set {
        let value = entry.2.try_clone(alloc)?;
        write(&mut variables, usize::from(entry.0), entry.1, value);
    }
    Ok(Instance::new(state, variables))
}

fn start_state(alloc: Global, scripts: &[OutlineScript], above: &[usize]) -> Made<Text>
    ensures { IfOk result (λ state. state ≡ start_state scripts.now above.now) }
{
    for script in above {
        if let Some(name) = auto_state_of(scripts, *script) {
            return Text::try_from_bytes(alloc, name.as_bytes());
        }
    }
    Text::try_from_bytes(alloc, &[])
}

fn auto_state_of(scripts: &[OutlineScript], script: usize) -> Option<&Name>
    ensures { option_copied result ≡ auto_state_of (slice_get scripts.now script) }
{
    scripts.get(script)?.auto_state.as_ref()
}

fn all_initial_values(
    alloc: Global,
    scripts: &[OutlineScript],
    above: &[usize],
) -> Made<Vec<ScriptVariables>>
    ensures { IfOk result (λ found. found.items ≡ map (initial_values scripts.now) above.now) }
{
    let mut found = Vec::with_capacity(alloc, above.len())?;
    for script in above {
        let values = script_initial_values(alloc, scripts, *script)?;
        found.push(ScriptVariables::new(*script, values))?;
    }
    Ok(found)
}

fn script_initial_values(
    alloc: Global,
    scripts: &[OutlineScript],
    script: usize,
) -> Made<Vec<Value>>
    ensures { IfOk result (λ values. values.items ≡ initial_values_of (slice_get scripts.now script)) }
{
    match scripts.get(script) {
        None => Ok(Vec::new(alloc)),
        Some(outline) => values_of(alloc, &outline.variables),
    }
}

fn values_of(alloc: Global, variables: &[OutlineVariable]) -> Made<Vec<Value>>
    ensures { IfOk result (λ values. values.items ≡ map (λ variable. variable.value) variables.now) }
{
    let mut values = Vec::with_capacity(alloc, variables.len())?;
    for variable in variables {
        values.push(variable.value.try_clone(alloc)?)?;
    }
    Ok(values)
}
