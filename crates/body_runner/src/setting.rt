//! What no turn changes: the loaded scripts, the scene and what its natives are bound to; and what names mean there.

ghost use Rattle.std.specs.Prelude.{◌≡◌, ℕ, IfSome, length, slice_get};
ghost use Rattle.std.specs.Option.{option_copied, option_map};
ghost use Rattle.papy_base.specs.Lineage.{parent_of, stands_below};
ghost use Rattle.core_tree.specs.Outlines.{parents_of};
ghost use Rattle.machine_state.specs.Savable.{name_of};
ghost use Rattle.pex_verify.specs.Coded.{IsCodedFunction};
ghost use Rattle.body_runner.specs.Settings.{accessor_of, function_of, method_at, property_at, slot_type, type_of, AreCodedAccessors};

use crate::bindings::Bindings;
use crate::frame::{CallWay, LoadedBody};
use core_tree::{CoreType, Scene};
use loaded_code::{LoadedFunction, LoadedProperty, MethodPlace, Operand, PropertyPlace};
use machine_state::{BodyPlace, Way};
use papy_base::{Made, Name, is_below, lineage_of};
use pex_verify::Loaded;
use std::alloc::Global;

/// What a look-up finds.
#[derive(Clone, Copy, PartialEq, Eq)]
pub enum Found {
    Body(LoadedBody),
    Native(MethodPlace),
    /// An Auto property: a variable of the property's script.
    Variable(PropertyPlace, u16),
}

/// What no turn changes.
#[derive(Drop)]
pub struct Setting {
    pub loaded: Loaded,
    pub scene: Scene,
    pub bindings: Bindings,
}

impl Setting {
    /// The function of a body. An Auto property has none.
    pub fn function(&self, body: LoadedBody) -> Option<&LoadedFunction>
        ensures function { option_copied result ≡ function_of self.now.loaded.scripts body }
        ensures coded { IfSome result (λ f. IsCodedFunction (length self.now.loaded.scripts) f.now) }
    {
        match body {
            LoadedBody::Method(place) => self.method(place),
            LoadedBody::Reader(place) => {
                let property = self.property(place)?;
                accessor(property.variable, &property.read)
            }
            LoadedBody::Writer(place) => {
                let property = self.property(place)?;
                accessor(property.variable, &property.write)
            }
        }
    }

    /// The function at a place.
    pub fn method(&self, at: MethodPlace) -> Option<&LoadedFunction>
        ensures method { option_copied result ≡ method_at self.now.loaded.scripts at }
        ensures coded { IfSome result (λ f. IsCodedFunction (length self.now.loaded.scripts) f.now) }
    {
        if usize::from(at.script) >= self.loaded.outline().scripts.len() {
            return None;
        }
        let (_, functions) = self.loaded.script(at.script).states.get(at.state)?;
        functions.get(at.place)
    }

    /// The name of the state that declares a body. A property stands in none.
    pub fn state_name(&self, body: LoadedBody) -> &[u8] {
        let LoadedBody::Method(at) = body else {
            return &[];
        };
        if usize::from(at.script) >= self.loaded.outline().scripts.len() {
            return &[];
        }
        match self.loaded.script(at.script).states.get(at.state) {
            Some((name, _)) => name.as_bytes(),
            None => &[],
        }
    }

    /// The property at a place.
    pub fn property(&self, at: PropertyPlace) -> Option<&LoadedProperty>
        ensures property { option_copied result ≡ property_at self.now.loaded.scripts at }
        ensures coded { IfSome result (λ p. AreCodedAccessors (length self.now.loaded.scripts) p.now) }
    {
        if usize::from(at.script) >= self.loaded.outline().scripts.len() {
            return None;
        }
        self.loaded.script(at.script).properties.get(at.place)
    }

    /// The number of the script above a script.
    pub fn parent_of(&self, script: u16) -> Option<u16>
        ensures { result ≡ parent_of (parents_of self.now.loaded.outline) script }
    {
        let scripts = &self.loaded.outline().scripts;
        scripts.get(usize::from(script))?.parent
    }

    /// The number of an instance's script.
    pub fn script_of(&self, instance: u16) -> Option<u16>
        ensures { result ≡ option_map (λ found. found.script) (slice_get self.now.scene.instances.items instance) }
    {
        Some(self.scene.instances.get(usize::from(instance))?.script)
    }

    /// Whether the second script is the first one or stands above it.
    pub fn is_child(&self, child: u16, parent: u16) -> bool
        ensures { result ≡ stands_below (parents_of self.now.loaded.outline) child parent }
    {
        let scripts = &self.loaded.outline().scripts;
        is_below(scripts, usize::from(child), usize::from(parent))
    }

    /// The type of what is stored in an operand of a script's function, none where what is stored is dropped.
    #[inline(always)]
    pub fn type_of(
        &self,
        script: u16,
        function: &LoadedFunction,
        operand: &Operand,
    ) -> Option<CoreType>
        ensures { result ≡ type_of self.now.loaded.outline script function.now operand.now }
    {
        match operand {
            Operand::Slot(number) => slot_type(function, usize::from(*number)),
            Operand::Variable(number) => {
                let outline = self.loaded.outline().scripts.get(usize::from(script))?;
                Some(outline.variables.get(usize::from(*number))?.kind)
            }
            Operand::State => Some(CoreType::Text),
            Operand::Instance => Some(CoreType::Script(script)),
            _ => None,
        }
    }

    // ---- what names mean

    /// What a call means for an instance whose state's name has this number, none where nothing has the call's name.
    pub fn look_up(
        &self,
        state: Option<usize>,
        instance: Option<u16>,
        way: CallWay,
    ) -> Option<Found> {
        match way {
            CallWay::Missing => None,
            CallWay::Global(at) => Some(Found::Body(LoadedBody::Method(at))),
            CallWay::Method(name) => self.find_method(state, self.script_of(instance?)?, name),
            CallWay::Parent { script, name } => {
                instance?;
                self.find_method(state, self.parent_of(script)?, name)
            }
            CallWay::Get(name) | CallWay::Set(name) => {
                let at = self.loaded.find_property(self.script_of(instance?)?, name)?;
                Some(match self.property(at)?.variable {
                    Some(variable) => Found::Variable(at, variable),
                    None if matches!(way, CallWay::Get(_)) => Found::Body(LoadedBody::Reader(at)),
                    None => Found::Body(LoadedBody::Writer(at)),
                })
            }
        }
    }

    // The method that an instance has in a state, looked for from a script upward.
    fn find_method(&self, state: Option<usize>, script: u16, name: usize) -> Option<Found> {
        let at = self.loaded.find_method(script, state, name)?;
        if self.method(at)?.is_native {
            return Some(Found::Native(at));
        }
        Some(Found::Body(LoadedBody::Method(at)))
    }

    /// The body that a place names, none where it isn't spelled as one is declared.
    pub fn body_named(&self, alloc: Global, at: &BodyPlace) -> Made<Option<LoadedBody>> {
        let state = self.loaded.name_number(alloc, at.state.as_bytes())?;
        let name = self.loaded.name_number(alloc, at.function.as_bytes())?;
        let (Some(state), Some(name)) = (state, name) else {
            return Ok(None);
        };
        Ok(self.body_found(at, state, name))
    }

    // The body that look-ups find, where it is spelled as the place.
    fn body_found(&self, at: &BodyPlace, state: usize, name: usize) -> Option<LoadedBody> {
        let body = match at.kind {
            0 => LoadedBody::Method(self.loaded.find_method(at.script, Some(state), name)?),
            1 => LoadedBody::Reader(self.loaded.find_property(at.script, name)?),
            2 => LoadedBody::Writer(self.loaded.find_property(at.script, name)?),
            _ => return None,
        };
        let function = self.function(body)?;
        let is_spelled = self.state_name(body) == at.state.as_bytes()
            && function.name.as_bytes() == at.function.as_bytes();
        (body.script() == at.script && !function.is_native && is_spelled).then_some(body)
    }

    /// How a call looks its function up, none where nothing has its name.
    pub fn way_named(&self, alloc: Global, way: &Way) -> Made<Option<CallWay>> {
        let Some(name) = self.loaded.name_number(alloc, name_of(way).as_bytes())? else {
            return Ok(None);
        };
        Ok(match way {
            Way::Method(_) => Some(CallWay::Method(name)),
            Way::Parent { script, .. } => Some(CallWay::Parent {
                script: *script,
                name,
            }),
            Way::Global { script, .. } => self.global_named(*script, name),
            Way::Get(_) => Some(CallWay::Get(name)),
            Way::Set(_) => Some(CallWay::Set(name)),
        })
    }

    // A function of the empty state, from the script upward.
    fn global_named(&self, script: u16, name: usize) -> Option<CallWay> {
        self.loaded.outline().scripts.get(usize::from(script))?;
        let found = self.loaded.find_method(script, None, name)?;
        Some(CallWay::Global(found))
    }

    /// The script and the variable of an instance's Auto property of this number, in the order of the report: those of
    /// the root script come first.
    pub fn property_place(
        &self,
        alloc: Global,
        instance: u16,
        property: u32,
    ) -> Made<Option<(u16, u16)>> {
        let Some(script) = self.script_of(instance) else {
            return Ok(None);
        };
        let scripts = &self.loaded.outline().scripts;
        let mut left = property as usize;
        let above = lineage_of(alloc, scripts, usize::from(script))?;
        for number in above.iter().rev() {
            let Some(found) = scripts.get(*number) else {
                continue;
            };
            if let Some(property) = found.properties.get(left) {
                return Ok(Some((*number as u16, property.variable)));
            }
            left = left.saturating_sub(found.properties.len());
        }
        Ok(None)
    }
}

// A property that has a variable is Auto.
fn accessor(variable: Option<u16>, function: &Option<LoadedFunction>) -> Option<&LoadedFunction>
    ensures function { option_copied result ≡ accessor_of variable function.now }
    ensures coded { (scripts : ℕ) → IfSome function.now (IsCodedFunction scripts) → IfSome result (λ f. IsCodedFunction scripts f.now) }
{
    match variable {
        Some(_) => None,
        None => function.as_ref(),
    }
}

/// The type of a parameter or local, none where what is stored in it is dropped.
#[inline(always)]
pub fn slot_type(function: &LoadedFunction, number: usize) -> Option<CoreType>
    ensures { result ≡ slot_type function.now number }
{
    if let Some((_, kind)) = function.parameters.get(number) {
        return Some(*kind);
    }
    let local = number.checked_sub(function.parameters.len())?;
    let (_, kind) = function.locals.get(local)?;
    *kind
}

/// The name by which a call looks its function up.
pub fn name_of(way: &Way) -> &Name
    ensures { result.now ≡ name_of way.now }
{
    match way {
        Way::Method(name)
        | Way::Parent { name, .. }
        | Way::Global { name, .. }
        | Way::Get(name)
        | Way::Set(name) => name,
    }
}
