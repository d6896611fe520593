// What the native functions of an outline do.
ghost use Rattle.std.specs.Prelude.{◌≡◌, ◌↔◌, ◌<◌, ℕ, List, [], ◌∷◌, ◌++◌, flat_map, length, option_and_then, IsTrue, IfErr, IfOk, OnOk, IfSome, Some, slice_get};
ghost use Rattle.std.specs.List.{All, list_all};
ghost use Rattle.papy_base.specs.Case.{folded};
ghost use Rattle.papy_base.specs.Table.{number_in};
ghost use Rattle.core_tree.specs.declared.outline.OutlineScript.{OutlineScript};
ghost use Rattle.core_tree.specs.declared.scene_tree.Binding.{Binding as NativeBinding};
ghost use Rattle.scene_reader.specs.Limits.{BindingKeeps, NativeKeeps};
ghost use Rattle.scene_binder.specs.Bound.{AreBoundNatives};
ghost use Rattle.scene_binder.specs.Faults.{IsJudgedBy, default_breaks, has_device as device_there, in_turn, is_cell as cell, is_reply as reply, native_breaks, types_allow as allowed};
ghost use Rattle.scene_binder.specs.Limits.{NativeKeepsLimits, NativesKeepLimits};
ghost use Rattle.scene_binder.specs.Natives.{AllowsBinding, HasDevice, IsCell, IsReply, native_place_here, native_places_from, native_places_in};
ghost use Rattle.scene_binder.specs.Meant.{IsNativeMeant, binding_in, default_entries, full_name as named_in};
ghost use Rattle.scene_binder.specs.NativeList.{Adds, AreBoundBy, AreMeant, AreNatives, IsFunctionOf, IsUnbound};
ghost use Rattle.scene_binder.specs.NativeState.{AreSettled, Binds, BindsDefault, default_known_breaks, known_breaks, leaves_out, left_breaks, native_under};

use core_tree::{Binding, BoundNative, CoreType, Outline, OutlineFunction, OutlineScript};
use papy_base::{Made, Name, NameTable, Text};
use scene_reader::{SceneFault, SceneRule};
use std::alloc::Global;

/// A native function, with what it does where that is known.
#[derive(Drop)]
struct Native<'a> {
    script: u16,
    place: u16,
    function: &'a OutlineFunction,
    binding: Option<Binding>,
}

/// The native functions of an outline, in its order.
#[derive(Drop)]
pub(crate) struct Natives<'a> {
    natives: Vec<Native<'a>>,
    names: NameTable,
    devices: u16,
}

impl<'a> Natives<'a> {
    /// The native functions of this outline, without bindings.
    pub(crate) fn new(alloc: Global, outline: &'a Outline, devices: u16) -> Made<Self>
        ensures natives { IfOk result (AreNatives outline.now.scripts.items) }
        ensures unbound { IfOk result (λ natives. All IsUnbound natives.natives.items) }
        ensures devices { IfOk result (λ natives. natives.devices ≡ devices) }
        ensures limits { IfOk result NativesKeepLimits }
    {
        let mut found = Natives {
            natives: Vec::new(alloc),
            names: NameTable::new(alloc),
            devices,
        };
        for (number, script) in outline.scripts.iter().enumerate() {
            found.add_script(number, script)?;
        }
        Ok(found)
    }

    // Numbers of scripts and places of functions have 16 bits.
    fn add_script(&mut self, number: usize, script: &'a OutlineScript) -> Made<()>
        ensures { OnOk result (Adds self.old self.new (native_places_in number script.now) (λ scripts. slice_get scripts number ≡ Some script.now)) }
    {
        match u16::try_from(number) {
            Ok(number) => self.add_functions(number, script),
            Err(_) => Ok(()),
        }
    }

    fn add_functions(&mut self, number: u16, script: &'a OutlineScript) -> Made<()>
        ensures { OnOk result (Adds self.old self.new (native_places_from number 0 script.now.functions.items) (λ scripts. slice_get scripts number ≡ Some script.now)) }
    {
        let functions = script.functions.as_slice();
        for (place, function) in functions.iter().enumerate() {
            self.add(script, number, place, function)?;
        }
        Ok(())
    }

    // Adds a function where it is native.
    fn add(
        &mut self,
        script: &OutlineScript,
        number: u16,
        place: usize,
        function: &'a OutlineFunction,
    ) -> Made<()>
        ensures { OnOk result (Adds self.old self.new (native_place_here number place function.now) (λ scripts. IsFunctionOf scripts number script.now place function.now)) }
    {
        let Ok(at) = u16::try_from(place) else {
            return Ok(());
        };
        if !function.is_native {
            return Ok(());
        }
        let alloc = *self.natives.allocator();
        let name = full_name(alloc, &script.name, &function.name)?;
        self.names.note(alloc, &name, self.natives.len())?;
        self.natives.push(Native {
            script: number,
            place: at,
            function,
            binding: None,
        })?;
        Ok(())
    }

    /// Gives the natives the bindings of a scene. `DuplicateName`, `NoFunction`, `NoDevice` and
    /// `UnboundNative` come by the first entry that breaks one of them.
    pub(crate) fn bind_all(&mut self, entries: &[(Text, Binding)]) -> Result<(), SceneFault>
        ensures natives { (scripts : List OutlineScript) → AreNatives scripts self.old → AreNatives scripts self.new }
        ensures devices { self.new.devices ≡ self.old.devices }
        ensures limits { All NativeKeeps entries.now → NativesKeepLimits self.old → NativesKeepLimits self.new }
        ensures bound { OnOk result ((scripts : List OutlineScript) → AreNatives scripts self.old → AreBoundBy scripts [] self.old → AreBoundBy scripts entries.now self.new) }
        ensures judged { (scripts : List OutlineScript) → AreNatives scripts self.old → AreSettled scripts [] [] self.old → IsJudgedBy (in_turn (native_breaks scripts self.old.devices) [] entries.now) result }
        ensures settled { OnOk result ((scripts : List OutlineScript) → AreNatives scripts self.old → AreSettled scripts [] [] self.old → AreSettled scripts entries.now [] self.new) }
    {
        for entry in entries {
            self.bind(entry.0.as_bytes(), entry.1)?;
        }
        Ok(())
    }

    // An earlier entry of the same name has bound the same native.
    fn bind(&mut self, name: &[u8], binding: Binding) -> Result<(), SceneFault>
        ensures judged { IsJudgedBy (known_breaks self.old.devices (native_under self.old (folded name.now)) binding) result }
        ensures binds { OnOk result (Binds self.old self.new (folded name.now) binding) }
        ensures kept { IfErr result (λ _. self.new ≡ self.old) }
        ensures natives { (scripts : List OutlineScript) → AreNatives scripts self.old → AreNatives scripts self.new }
        ensures devices { self.new.devices ≡ self.old.devices }
        ensures limits { BindingKeeps binding → NativesKeepLimits self.old → NativesKeepLimits self.new }
        ensures bound { OnOk result ((scripts : List OutlineScript) (entries : List (List ℕ × NativeBinding)) → AreNatives scripts self.old → AreBoundBy scripts entries self.old → AreBoundBy scripts (entries ++ (name.now, binding) ∷ []) self.new) }
        ensures meant { (scripts : List OutlineScript) (entries : List (List ℕ × NativeBinding)) → binding_in default_entries (folded name.now) ≡ Some binding → AreNatives scripts self.old → AreMeant scripts entries self.old → AreMeant scripts entries self.new }
    {
        let Some(number) = self.find(name)? else {
            return Err(SceneFault::of(SceneRule::NoFunction));
        };
        if self.natives[number].binding.is_some() {
            return Err(SceneFault::of(SceneRule::DuplicateName));
        }
        if !has_device(binding, self.devices) {
            return Err(SceneFault::of(SceneRule::NoDevice));
        }
        if !types_allow(self.natives[number].function, binding) {
            return Err(SceneFault::of(SceneRule::UnboundNative));
        }
        self.natives[number].binding = Some(binding);
        Ok(())
    }

    // The number of the native of this name.
    fn find(&self, name: &[u8]) -> Made<Option<usize>>
        ensures there { IfOk result (λ found. IfSome found (λ number. number < length self.now.natives.items)) }
        ensures named { IfOk result (λ found. IfSome found (λ number. number_in self.now.names (folded name.now) ≡ Some number)) }
        ensures same { IfOk result (λ found. option_and_then (slice_get self.now.natives.items) found ≡ native_under self.now (folded name.now)) }
    {
        let name = Name::from_bytes(*self.natives.allocator(), name)?;
        match self.names.find(&name) {
            Some(number) if number < self.natives.len() => Ok(Some(number)),
            _ => Ok(None),
        }
    }

    /// Gives the natives of the first scripts what they do without an entry. `NoDevice` comes where the
    /// device isn't there.
    pub(crate) fn bind_defaults(&mut self) -> Result<(), SceneFault>
        ensures judged { (scripts : List OutlineScript) (entries : List (List ℕ × NativeBinding)) → AreNatives scripts self.old → AreSettled scripts entries [] self.old → IsJudgedBy (flat_map (default_breaks scripts self.old.devices entries) default_entries) result }
        ensures settled { OnOk result ((scripts : List OutlineScript) (entries : List (List ℕ × NativeBinding)) → AreNatives scripts self.old → AreSettled scripts entries [] self.old → AreSettled scripts entries default_entries self.new) }
        ensures natives { (scripts : List OutlineScript) → AreNatives scripts self.old → AreNatives scripts self.new }
        ensures devices { self.new.devices ≡ self.old.devices }
        ensures limits { NativesKeepLimits self.old → NativesKeepLimits self.new }
        ensures meant { (scripts : List OutlineScript) (entries : List (List ℕ × NativeBinding)) → AreNatives scripts self.old → AreMeant scripts entries self.old → AreMeant scripts entries self.new }
    {
        self.bind_default(b"Debug.Trace", Binding::Trace { latency: 0 })?;
        self.bind_default(b"Scene.Sleep", Binding::Sleep)?;
        let dice = Binding::Device {
            device: 3,
            latency: 0,
        };
        self.bind_default(b"Utility.RandomInt", dice)
    }

    // What an entry has bound stays, and so does a native of other types.
    fn bind_default(&mut self, name: &[u8], binding: Binding) -> Result<(), SceneFault>
        ensures judged { IsJudgedBy (default_known_breaks self.old.devices (native_under self.old (folded name.now)) binding) result }
        ensures binds { OnOk result (BindsDefault self.old self.new (folded name.now) binding) }
        ensures natives { (scripts : List OutlineScript) → AreNatives scripts self.old → AreNatives scripts self.new }
        ensures devices { self.new.devices ≡ self.old.devices }
        ensures limits { BindingKeeps binding → NativesKeepLimits self.old → NativesKeepLimits self.new }
        ensures meant { (scripts : List OutlineScript) (entries : List (List ℕ × NativeBinding)) → binding_in default_entries (folded name.now) ≡ Some binding → AreNatives scripts self.old → AreMeant scripts entries self.old → AreMeant scripts entries self.new }
    {
        let Err(fault) = self.bind(name, binding) else {
            return Ok(());
        };
        if is_left_out(fault) {
            Ok(())
        } else {
            Err(fault)
        }
    }

    /// The natives with their bindings. `UnboundNative` comes where one has none.
    pub(crate) fn finish(&self) -> Result<Vec<BoundNative>, SceneFault>
        ensures judged { IsJudgedBy (flat_map left_breaks self.now.natives.items) result }
        ensures natives { (scripts : List OutlineScript) → AreNatives scripts self.now → IfOk result (λ bound. AreBoundNatives scripts self.now.devices bound.items) }
        ensures limits { IfOk result (λ bound. NativesKeepLimits self.now → All NativeKeepsLimits bound.items) }
        ensures meant { (scripts : List OutlineScript) (entries : List (List ℕ × NativeBinding)) → AreNatives scripts self.now → AreMeant scripts entries self.now → IfOk result (λ bound. All (IsNativeMeant scripts entries) bound.items) }
    {
        let alloc = *self.natives.allocator();
        let mut bound = Vec::with_capacity(alloc, self.natives.len())?;
        for native in &self.natives {
            let Some(binding) = native.binding else {
                return Err(SceneFault::of(SceneRule::UnboundNative));
            };
            bound.push(BoundNative {
                script: native.script,
                function: native.place,
                binding,
            })?;
        }
        Ok(bound)
    }
}

// `Script.Function`, as scenes name a native.
fn full_name(alloc: Global, script: &Name, function: &Name) -> Made<Name>
    ensures { IfOk result (λ name. name ≡ named_in script.now function.now) }
{
    let mut name = script.as_bytes().to_vec(alloc)?;
    name.push(b'.')?;
    name.extend_from_slice(function.as_bytes())?;
    Name::from_bytes(alloc, &name)
}

// A default binding is left out where the native isn't there, is bound or is of other types.
fn is_left_out(fault: SceneFault) -> bool
    ensures { result ≡ leaves_out fault }
{
    match fault {
        SceneFault::OutOfMemory => false,
        SceneFault::Broken { rule } => !matches!(rule, SceneRule::NoDevice),
    }
}

fn has_device(binding: Binding, devices: u16) -> bool
    ensures there { IsTrue result ↔ HasDevice devices binding }
    ensures same { result ≡ device_there devices binding }
{
    match binding {
        Binding::Device { device, .. } | Binding::PromptDevice { device } => device < devices,
        Binding::Sleep | Binding::Trace { .. } | Binding::PromptTrace => true,
    }
}

// Whether a native of these types may do this.
fn types_allow(function: &OutlineFunction, binding: Binding) -> bool
    ensures allowed { IsTrue result → AllowsBinding function.now.parameters.items function.now.result binding }
    ensures same { result ≡ allowed function.now.parameters.items function.now.result binding }
{
    let parameters = function.parameters.as_slice();
    match binding {
        Binding::Sleep => matches!((parameters, function.result), ([CoreType::Int], None)),
        Binding::Trace { .. } | Binding::PromptTrace => {
            matches!((parameters, function.result), ([CoreType::Text, ..], None))
        }
        Binding::Device { .. } | Binding::PromptDevice { .. } => {
            are_cells(parameters) && is_reply(function.result)
        }
    }
}

fn are_cells(kinds: &[CoreType]) -> bool
    ensures are_cells { IsTrue result → All IsCell kinds.now }
    ensures same { result ≡ list_all cell kinds.now }
{
    kinds.iter().all(|kind| is_cell(*kind))
}

// Devices know whole numbers and truth values.
fn is_cell(kind: CoreType) -> bool
    ensures is_cell { IsTrue result ↔ IsCell kind }
    ensures same { result ≡ cell kind }
{
    matches!(kind, CoreType::Int | CoreType::Bool)
}

fn is_reply(outcome: Option<CoreType>) -> bool
    ensures is_reply { IsTrue result ↔ IsReply outcome }
    ensures same { result ≡ reply outcome }
{
    matches!(outcome, None | Some(CoreType::Int | CoreType::Bool))
}
