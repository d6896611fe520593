// A scene bound to an outline, step by step: its instances and what they set, what native functions do, and its calls.
ghost use Rattle.std.specs.Prelude.{IfOk, IfSome, IsTrue, OnOk, Some, [], flat_map, is_none, is_some, length, map, not, slice_get, ◌≡◌, ◌≤◌};
ghost use Rattle.std.specs.List.{All};
ghost use Rattle.papy_base.specs.Case.{folded};
ghost use Rattle.papy_base.specs.Table.{Notes, number_in};
ghost use Rattle.scene_reader.specs.Limits.{CallKeeps, EntryKeeps, InstanceKeeps, KeepsLimits, NativeKeeps, ValueKeeps};
ghost use Rattle.scene_binder.specs.Bound.{AreBoundNatives, AreOfTypes, IsBound, IsBoundCall, IsBoundEntry, IsBoundInstance, IsCallableOn, IsInstanceOf, IsOfType, call_parts, instance_name, script_of};
ghost use Rattle.scene_binder.specs.Faults.{IsJudgedBy, binding_faults, broken, call_breaks, entry_breaks, function_for, has_body, in_turn, instance_breaks, is_of, kept_if, natives_break, property_for, set_breaks, value_breaks, value_fits, values_fit};
ghost use Rattle.scene_binder.specs.Instances.{IsInstantiable, tree_call_parts, tree_name, tree_script};
ghost use Rattle.scene_binder.specs.Kept.{IsOfTree};
ghost use Rattle.scene_binder.specs.Limits.{CallKeepsLimits, InstanceKeepsLimits, IsShortEntry, IsShortValue, NativeKeepsLimits, SceneKeepsLimits};
ghost use Rattle.scene_binder.specs.Meant.{IsMeant, IsNativeMeant};
ghost use Rattle.scene_binder.specs.Scope.{AreNamed, CallIs, CallsAre, EntriesAre, EntryIs, InstanceIs, SetIs, SetsAre, ValueIs, ValuesAre, known_number, known_script};

use crate::natives::Natives;
use crate::scripts::OutlineScripts;
use core_tree::{
    BoundCall, BoundInstance, BoundNative, CoreType, Outline, OutlineFunction, Scene, SceneCall,
    SceneInstance, SceneTree, SceneValue, Value,
};
use papy_base::{Made, Name, NameTable, Text};
use scene_reader::{SceneFault, SceneRule};
use std::alloc::Global;

/// What was bound, or why nothing was.
type Bound<T> = Result<T, SceneFault>;

/// The scene with its names looked up in an outline, for this number of devices.
///
/// # Errors
///
/// The first broken rule, in these steps, each over all its items before the next begins: for each
/// instance `DuplicateName` (C10), then `NoScript` (C4); for each entry of a `set` `DuplicateName`,
/// `NoProperty` (C5), then `Arguments` (C7); for each entry of `natives` `DuplicateName`, `NoFunction`
/// (C6), `NoDevice` (C9), then `UnboundNative` (C8); `NoDevice` of what natives do without an entry,
/// then of the tapes; `UnboundNative` of natives without binding; for each call `NoFunction`, then
/// `Arguments`. `OutOfMemory` comes where there is no room.
pub fn bind(
    alloc: Global,
    tree: SceneTree,
    outline: &Outline,
    devices: u16,
) -> Result<Scene, SceneFault>
    ensures bound { IfOk result (IsBound outline.now.scripts.items) }
    ensures kept { IfOk result (IsOfTree tree devices) }
    ensures meant { IfOk result (IsMeant tree outline.now.scripts.items) }
    ensures limits { IfOk result (λ scene. KeepsLimits tree → SceneKeepsLimits scene) }
    ensures judged { IsJudgedBy (binding_faults outline.now.scripts.items devices tree) result }
{
    let scripts = OutlineScripts::new(alloc, outline)?;
    let instances = NamedInstances::new(alloc, &scripts, &tree.instances)?;
    let scope = Known {
        alloc,
        scripts: &scripts,
        instances: &instances,
    };
    let bound = scope.bind_instances(&tree.instances)?;
    let natives = bind_natives(alloc, &tree, outline, devices)?;
    let calls = scope.bind_calls(&tree.calls)?;
    Ok(Scene {
        instances: bound,
        calls,
        natives,
        tapes: tree.tapes,
        devices,
        order: tree.order,
        turns: tree.turns,
        quantum: tree.quantum,
    })
}

fn bind_natives(
    alloc: Global,
    tree: &SceneTree,
    outline: &Outline,
    devices: u16,
) -> Bound<Vec<BoundNative>>
    ensures natives { IfOk result (λ natives. AreBoundNatives outline.now.scripts.items devices natives.items) }
    ensures meant { IfOk result (λ natives. All (IsNativeMeant outline.now.scripts.items tree.now.natives.items) natives.items) }
    ensures tapes { IfOk result (λ _. length tree.now.tapes.items ≤ devices) }
    ensures judged { IsJudgedBy (natives_break outline.now.scripts.items devices tree.now.natives.items (length tree.now.tapes.items)) result }
    ensures limits { IfOk result (λ natives. All NativeKeeps tree.now.natives.items → All NativeKeepsLimits natives.items) }
{
    let mut natives = Natives::new(alloc, outline, devices)?;
    natives.bind_all(&tree.natives)?;
    natives.bind_defaults()?;
    if tree.tapes.len() > usize::from(devices) {
        return Err(SceneFault::of(SceneRule::NoDevice));
    }
    natives.finish()
}

/// The instances that values and calls may name.
#[derive(Drop)]
struct NamedInstances {
    names: NameTable,
    scripts: Vec<u16>,
}

impl NamedInstances {
    /// The instances of a scene. `DuplicateName` and `NoScript` come by the first instance that breaks
    /// one of them.
    fn new(alloc: Global, outline: &OutlineScripts<'_>, instances: &[SceneInstance]) -> Bound<Self>
        ensures count { IfOk result (λ found. length found.scripts.items ≡ length instances.now) }
        ensures scripts { IfOk result (λ found. All (IsInstantiable outline.now) found.scripts.items) }
        ensures named { IfOk result (λ found. AreNamed found instances.now) }
        ensures scripts_named { IfOk result (λ found. map Some found.scripts.items ≡ map (tree_script outline.now) instances.now) }
        ensures judged { IsJudgedBy (in_turn (instance_breaks outline.now) [] instances.now) result }
    {
        let mut names = NameTable::new(alloc);
        let mut scripts = Vec::with_capacity(alloc, instances.len())?;
        for (number, instance) in instances.iter().enumerate() {
            note_new(alloc, &mut names, &instance.name, number)?;
            scripts.push(outline.find_instantiable(alloc, instance.script.as_bytes())?)?;
        }
        Ok(NamedInstances { names, scripts })
    }

    /// The number of the instance of this name.
    fn find(&self, alloc: Global, name: &Text) -> Made<Option<u16>>
        ensures named { IfOk result (λ found. IfSome found (λ n. number_in self.now.names (folded name.now) ≡ Some n)) }
        ensures same { IfOk result (λ found. found ≡ known_number self.now name.now) }
    {
        let number = self.names.find(&Name::from_bytes(alloc, name.as_bytes())?);
        Ok(number.and_then(|number| u16::try_from(number).ok()))
    }

    /// The script of the instance of this number.
    fn script_of(&self, instance: u16) -> Option<u16>
        ensures { result ≡ slice_get self.now.scripts.items instance }
    {
        self.scripts.as_slice().get(usize::from(instance)).copied()
    }
}

/// Notes the number of a name. `DuplicateName` comes where the name has one.
fn note_new(alloc: Global, names: &mut NameTable, name: &Text, number: usize) -> Bound<()>
    ensures noted { OnOk result (Notes names.old names.new name.now number) }
    ensures judged { IsJudgedBy (broken SceneRule.DuplicateName (is_some (number_in names.old (folded name.now)))) result }
{
    let name = Name::from_bytes(alloc, name.as_bytes())?;
    if names.find(&name).is_some() {
        return Err(SceneFault::of(SceneRule::DuplicateName));
    }
    names.note(alloc, &name, number)?;
    Ok(())
}

/// What values may name.
#[derive(Clone, Copy)]
struct Known<'s, 'a> {
    alloc: Global,
    scripts: &'s OutlineScripts<'a>,
    instances: &'s NamedInstances,
}

impl<'s, 'a> Known<'s, 'a> {
    /// The instances, each with the values that it sets. `DuplicateName`, `NoProperty` and `Arguments` come by
    /// the first entry that breaks one of them.
    fn bind_instances(self, instances: &[SceneInstance]) -> Bound<Vec<BoundInstance>>
        requires count { length self.instances.now.scripts.items ≡ length instances.now }
        requires scripts { All (IsInstantiable self.scripts.now) self.instances.now.scripts.items }
        ensures bound { IfOk result (λ bound. All (IsBoundInstance self.entry.scripts.now self.entry.instances.now.scripts.items) bound.items) }
        ensures scripts { IfOk result (λ bound. map script_of bound.items ≡ self.entry.instances.now.scripts.items) }
        ensures names { IfOk result (λ bound. map instance_name bound.items ≡ map tree_name instances.now) }
        ensures limits { IfOk result (λ bound. All InstanceKeeps instances.now → All InstanceKeepsLimits bound.items) }
        ensures judged { map Some self.entry.instances.now.scripts.items ≡ map (tree_script self.entry.scripts.now) instances.now → IsJudgedBy (flat_map (set_breaks self.entry.scripts.now (known_script self.entry.instances.now)) instances.now) result }
        ensures meant { IfOk result (λ bound. SetsAre self.entry.scripts.now self.entry.instances.now instances.now bound.items) }
    {
        let mut bound = Vec::with_capacity(self.alloc, instances.len())?;
        for (number, instance) in instances.iter().enumerate() {
            let script = self.instances.scripts[number];
            bound.push(self.bind_instance(script, instance)?)?;
        }
        Ok(bound)
    }

    fn bind_instance(self, script: u16, instance: &SceneInstance) -> Bound<BoundInstance>
        requires { IsInstantiable self.scripts.now script }
        ensures bound { IfOk result (IsBoundInstance self.entry.scripts.now self.entry.instances.now.scripts.items) }
        ensures script { IfOk result (λ bound. script_of bound ≡ script) }
        ensures name { IfOk result (λ bound. instance_name bound ≡ tree_name instance.now) }
        ensures limits { IfOk result (λ bound. InstanceKeeps instance.now → InstanceKeepsLimits bound) }
        ensures judged { IsJudgedBy (in_turn (entry_breaks self.entry.scripts.now (known_script self.entry.instances.now) (Some script)) [] instance.now.set.items) result }
        ensures meant { IfOk result (SetIs self.entry.scripts.now self.entry.instances.now instance.now) }
    {
        Ok(BoundInstance {
            name: instance.name.try_clone(self.alloc)?,
            script,
            set: self.bind_entries(script, &instance.set)?,
        })
    }

    fn bind_entries(self, script: u16, set: &[(Text, SceneValue)]) -> Bound<Vec<(u16, u16, Value)>>
        ensures bound { IfOk result (λ bound. All (IsBoundEntry self.entry.scripts.now self.entry.instances.now.scripts.items script) bound.items) }
        ensures short { IfOk result (λ bound. All EntryKeeps set.now → All IsShortEntry bound.items) }
        ensures judged { IsJudgedBy (in_turn (entry_breaks self.entry.scripts.now (known_script self.entry.instances.now) (Some script)) [] set.now) result }
        ensures meant { IfOk result (λ bound. EntriesAre self.entry.scripts.now self.entry.instances.now script set.now bound.items) }
    {
        let mut names = NameTable::new(self.alloc);
        let mut bound = Vec::with_capacity(self.alloc, set.len())?;
        for (place, entry) in set.iter().enumerate() {
            note_new(self.alloc, &mut names, &entry.0, place)?;
            bound.push(self.bind_entry(script, &entry.0, &entry.1)?)?;
        }
        Ok(bound)
    }

    fn bind_entry(self, script: u16, name: &Text, value: &SceneValue) -> Bound<(u16, u16, Value)>
        ensures bound { IfOk result (IsBoundEntry self.entry.scripts.now self.entry.instances.now.scripts.items script) }
        ensures short { IfOk result (λ bound. ValueKeeps value.now → IsShortEntry bound) }
        ensures judged { IsJudgedBy (value_breaks self.entry.scripts.now (known_script self.entry.instances.now) (property_for self.entry.scripts.now (Some script) name.now) value.now) result }
        ensures meant { IfOk result (EntryIs self.entry.scripts.now self.entry.instances.now script (name.now, value.now)) }
    {
        let name = name.as_bytes();
        let found = self.scripts.find_property(self.alloc, script, name)?;
        let Some((owner, property)) = found else {
            return Err(SceneFault::of(SceneRule::NoProperty));
        };
        let owner = u16::try_from(owner).map_err(|_| SceneFault::of(SceneRule::NoProperty))?;
        let value = self.value_for(property.kind, value)?;
        Ok((owner, property.variable, value))
    }

    /// The calls. `NoFunction` and `Arguments` come by the first call that breaks one of them.
    fn bind_calls(self, calls: &[SceneCall]) -> Bound<Vec<BoundCall>>
        ensures bound { IfOk result (λ bound. All (IsBoundCall self.entry.scripts.now self.entry.instances.now.scripts.items) bound.items) }
        ensures parts { IfOk result (λ bound. map call_parts bound.items ≡ map tree_call_parts calls.now) }
        ensures limits { IfOk result (λ bound. All CallKeeps calls.now → All CallKeepsLimits bound.items) }
        ensures judged { IsJudgedBy (flat_map (call_breaks self.entry.scripts.now (known_script self.entry.instances.now)) calls.now) result }
        ensures meant { IfOk result (λ bound. CallsAre self.entry.instances.now calls.now bound.items) }
    {
        let mut bound = Vec::with_capacity(self.alloc, calls.len())?;
        for call in calls {
            bound.push(self.bind_call(call)?)?;
        }
        Ok(bound)
    }

    fn bind_call(self, call: &SceneCall) -> Bound<BoundCall>
        ensures bound { IfOk result (IsBoundCall self.entry.scripts.now self.entry.instances.now.scripts.items) }
        ensures parts { IfOk result (λ bound. call_parts bound ≡ tree_call_parts call.now) }
        ensures limits { IfOk result (λ bound. CallKeeps call.now → CallKeepsLimits bound) }
        ensures judged { IsJudgedBy (call_breaks self.entry.scripts.now (known_script self.entry.instances.now) call.now) result }
        ensures meant { IfOk result (CallIs self.entry.instances.now call.now) }
    {
        let Some(instance) = self.instances.find(self.alloc, &call.instance)? else {
            return Err(SceneFault::of(SceneRule::NoFunction));
        };
        let name = call.function.as_bytes();
        let function = self.called_function(instance, name)?;
        let arguments = self.bind_arguments(&function.parameters, &call.arguments)?;
        Ok(BoundCall {
            turn: call.turn,
            instance,
            function: Name::from_bytes(self.alloc, name)?,
            arguments,
        })
    }

    /// The function that a call of this name on the instance means.
    fn called_function(self, instance: u16, name: &[u8]) -> Bound<&'a OutlineFunction>
        ensures judged { IsJudgedBy (broken SceneRule.NoFunction (is_none (kept_if has_body (function_for self.entry.scripts.now (slice_get self.entry.instances.now.scripts.items instance) name.now)))) result }
        ensures found { IfOk result (λ function. (kept_if has_body (function_for self.entry.scripts.now (slice_get self.entry.instances.now.scripts.items instance) name.now)) ≡ Some function.now) }
        ensures callable { IfOk result (λ function. IsCallableOn self.entry.scripts.now self.entry.instances.now.scripts.items instance name.now function.now) }
    {
        let fault = SceneFault::of(SceneRule::NoFunction);
        let script = self.instances.script_of(instance).ok_or(fault)?;
        match self.scripts.find_function(self.alloc, script, name)? {
            Some(function) if !function.is_native && !function.is_global => Ok(function),
            _ => Err(fault),
        }
    }

    fn bind_arguments(self, parameters: &[CoreType], arguments: &[SceneValue]) -> Bound<Vec<Value>>
        ensures typed { IfOk result (λ values. AreOfTypes self.entry.scripts.now self.entry.instances.now.scripts.items parameters.now values.items) }
        ensures short { IfOk result (λ values. All ValueKeeps arguments.now → All IsShortValue values.items) }
        ensures judged { IsJudgedBy (broken SceneRule.Arguments (not (values_fit self.entry.scripts.now (known_script self.entry.instances.now) parameters.now arguments.now))) result }
        ensures meant { IfOk result (λ values. ValuesAre self.entry.instances.now arguments.now values.items) }
    {
        if arguments.len() != parameters.len() {
            return Err(SceneFault::of(SceneRule::Arguments));
        }
        let mut bound = Vec::with_capacity(self.alloc, arguments.len())?;
        for (place, value) in arguments.iter().enumerate() {
            bound.push(self.value_for(parameters[place], value)?)?;
        }
        Ok(bound)
    }

    /// The value where a type is asked for. `Arguments` comes where it isn't of the type.
    fn value_for(self, kind: CoreType, value: &SceneValue) -> Bound<Value>
        ensures typed { IfOk result (IsOfType self.entry.scripts.now self.entry.instances.now.scripts.items kind) }
        ensures short { IfOk result (λ bound. ValueKeeps value.now → IsShortValue bound) }
        ensures judged { IsJudgedBy (broken SceneRule.Arguments (not (value_fits self.entry.scripts.now (known_script self.entry.instances.now) kind value.now))) result }
        ensures meant { IfOk result (ValueIs self.entry.instances.now value.now) }
    {
        match (kind, value) {
            (CoreType::Int, SceneValue::Int(number)) => Ok(Value::Int(*number)),
            (CoreType::Bool, SceneValue::Bool(truth)) => Ok(Value::Bool(*truth)),
            (CoreType::Text, SceneValue::Text(text)) => Ok(Value::Text(text.try_clone(
                self.alloc,
            )?)),
            (CoreType::Script(kind), SceneValue::Instance(name)) => self.instance_for(kind, name),
            (_, SceneValue::NoneValue) if kind.holds_none() => Ok(Value::NoneValue),
            _ => Err(SceneFault::of(SceneRule::Arguments)),
        }
    }

    /// The instance of this name, where it is one of the script or of one below it.
    fn instance_for(self, script: u16, name: &Text) -> Bound<Value>
        ensures typed { IfOk result (IsOfType self.entry.scripts.now self.entry.instances.now.scripts.items (CoreType.Script script)) }
        ensures short { IfOk result IsShortValue }
        ensures judged { IsJudgedBy (broken SceneRule.Arguments (not (is_of self.entry.scripts.now (known_script self.entry.instances.now name.now) script))) result }
        ensures meant { IfOk result (InstanceIs self.entry.instances.now name.now) }
    {
        match self.instances.find(self.alloc, name)? {
            Some(number) if self.is_instance_of(number, script) => Ok(Value::Instance(number)),
            _ => Err(SceneFault::of(SceneRule::Arguments)),
        }
    }

    fn is_instance_of(self, instance: u16, script: u16) -> bool
        ensures same { result ≡ is_of self.entry.scripts.now (slice_get self.entry.instances.now.scripts.items instance) script }
        ensures there { IsTrue result → IsInstanceOf self.entry.scripts.now self.entry.instances.now.scripts.items instance script }
    {
        match self.instances.script_of(instance) {
            Some(child) => self.scripts.is_child(child, script),
            None => false,
        }
    }
}
