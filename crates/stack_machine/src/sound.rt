//! Whether a state is one that a run of a scene may come to, as far as its types and its locks tell: as many stacks as have
//! started, with frames in the order in which they call and in one place each; frames in bodies of the set that take what they
//! wait for, or find what they may enter; and values of their types. Each condition stands in a function.

ghost use Rattle.std.specs.Prelude.{◌≡◌, ◌≤◌, true, IfOk, length, vec_len};
ghost use Rattle.stack_machine.specs.Plans.{calls_before};

use crate::entry::{may_read, may_write};
use crate::restore::{ARRAY_LIMIT, ELEMENT_LIMIT};
use crate::savable::{is_element_type, pairs_ascend, sleepers_ascend, stacks_ascend};
use crate::world::ALL_FRAMES;
use body_runner::{
    CallWay, FRAME_LIMIT, Found, Setting, element_type, is_call, reply_result, slot_type,
};
use core_tree::{BoundCall, CoreType, DeviceKind, Scene, Value};
use loaded_code::LoadedFunction;
use machine_state::{BodyPlace, FrameState, MachineState, Way};
use papy_base::{Descent, Made, TEXT_LIMIT, upward};
use std::alloc::Global;

/// The most cells of a device.
const CELL_LIMIT: usize = 100_000;

/// A state that is judged for a scene of loaded scripts.
#[derive(Drop)]
pub struct JudgedState<'a> {
    pub alloc: Global,
    pub setting: &'a Setting,
    pub state: &'a MachineState,
    /// Which scripts stand below which.
    pub descent: Descent,
}

/// Whether the state is sound for the scene of the loaded scripts.
pub fn is_sound(alloc: Global, setting: &Setting, state: &MachineState) -> Made<bool>
    ensures turn { IfOk result (λ sound. sound ≡ true → state.now.turn ≤ setting.now.scene.turns) }
    ensures stacks { IfOk result (λ sound. sound ≡ true → vec_len state.now.stacks ≡ calls_before state.now.turn setting.now.scene.calls.items) }
    ensures within { IfOk result (λ sound. sound ≡ true → vec_len state.now.stacks ≤ vec_len setting.now.scene.calls) }
{
    if !has_sound_numbers(&setting.scene, state) {
        return Ok(false);
    }
    let judged = JudgedState {
        alloc,
        setting,
        state,
        descent: descent_of(alloc, setting)?,
    };
    judged.is_sound()
}

fn descent_of(alloc: Global, setting: &Setting) -> Made<Descent> {
    let scripts = &setting.loaded.outline().scripts;
    let mut parents = Vec::with_capacity(alloc, scripts.len())?;
    for script in scripts {
        parents.push(script.parent.map(usize::from))?;
    }
    Descent::of(alloc, parents.as_slice())
}

impl JudgedState<'_> {
    // What is sound beside the numbers of turns, stacks and instances.
    fn is_sound(&self) -> Made<bool> {
        if !self.has_sound_values()
            || !has_sound_stacks(self.state)
            || !has_sound_locks(self.alloc, self.state)?
        {
            return Ok(false);
        }
        for frames in &self.state.stacks {
            if !self.has_sound_frames(frames)? {
                return Ok(false);
            }
        }
        Ok(true)
    }

    fn has_sound_frames(&self, frames: &[FrameState]) -> Made<bool> {
        for (place, frame) in frames.iter().enumerate() {
            let above = frames.get(place.saturating_add(1));
            if !self.is_sound_call(frame, place == 0)? || !self.is_sound_body(frame, above)? {
                return Ok(false);
            }
        }
        Ok(true)
    }

    // Instances have as many values as their scripts have variables, of their types, arrays have 1 to 128 elements of theirs,
    // and devices are what loading them with their own cells and place makes.
    fn has_sound_values(&self) -> bool {
        let state = self.state;
        self.has_sound_instances()
            && state.arrays.len() <= usize::from(ARRAY_LIMIT)
            && state
                .arrays
                .iter()
                .all(|array| self.is_sound_array(array.0, &array.1))
            && state
                .devices
                .iter()
                .all(|device| is_sound_device(device.0, &device.1, device.2))
    }

    fn has_sound_instances(&self) -> bool {
        let bound = &self.setting.scene.instances;
        let mut instances = self.state.instances.iter().zip(bound);
        instances.all(|(instance, bound)| {
            instance.0.as_bytes().len() <= TEXT_LIMIT && self.fit_scripts(&instance.1, bound.script)
        })
    }

    // Whether values are those of a script and all above it. The script's own stand last.
    fn fit_scripts(&self, values: &[Value], script: u16) -> bool {
        let scripts = &self.setting.loaded.outline().scripts;
        let mut left = values;
        for number in upward(scripts, usize::from(script)) {
            let Some(outline) = scripts.get(number) else {
                break;
            };
            if left.len() < outline.variables.len() {
                return false;
            }
            let (above, own) = left.split_at(left.len() - outline.variables.len());
            let mut own = own.iter().zip(&outline.variables);
            if !own.all(|(value, variable)| self.fits(value, Some(variable.kind))) {
                return false;
            }
            left = above;
        }
        left.is_empty()
    }

    // The script that the type of an array's elements names is there.
    fn is_sound_array(&self, element: CoreType, items: &[Value]) -> bool {
        let scripts = self.setting.loaded.outline().scripts.len();
        is_element_type(element)
            && !matches!(element, CoreType::Script(script) if usize::from(script) >= scripts)
            && !items.is_empty()
            && items.len() <= ELEMENT_LIMIT
            && items.iter().all(|item| self.fits(item, Some(element)))
    }

    // ---- which values fit which types

    /// Whether a value fits a place of this type. A place without a type has None alone.
    pub fn fits(&self, value: &Value, kind: Option<CoreType>) -> bool {
        match (value, kind) {
            (Value::NoneValue, kind) => takes_none(kind),
            (Value::Int(_), Some(CoreType::Int)) => true,
            (Value::Bool(_), Some(CoreType::Bool)) => true,
            (Value::Text(_), Some(CoreType::Text)) => self.is_there(value),
            (Value::Instance(instance), Some(CoreType::Script(script))) => {
                self.is_of(*instance, script)
            }
            (Value::Array(array), Some(kind)) => self.is_array_of(*array, kind),
            _ => false,
        }
    }

    /// Whether the instance or array that a value names is there, and a text has at most 1,024 bytes.
    pub fn is_there(&self, value: &Value) -> bool {
        match value {
            Value::Instance(instance) => usize::from(*instance) < self.state.instances.len(),
            Value::Array(array) => usize::from(*array) < self.state.arrays.len(),
            Value::Text(text) => text.as_bytes().len() <= TEXT_LIMIT,
            Value::NoneValue | Value::Int(_) | Value::Bool(_) => true,
        }
    }

    /// Whether what a function gives fits a place of this type. A function that gives nothing gives None.
    pub fn result_fits(&self, given: Option<CoreType>, kind: CoreType) -> bool {
        match (given, kind) {
            (None, kind) => takes_none(Some(kind)),
            (Some(CoreType::Script(script)), CoreType::Script(above)) => {
                self.is_child(script, above)
            }
            (Some(given), kind) => given == kind,
        }
    }

    /// Whether an instance is of this script or one below it.
    pub fn is_of(&self, instance: u16, script: u16) -> bool {
        self.setting
            .script_of(instance)
            .is_some_and(|own| self.is_child(own, script))
    }

    // Whether the second script is the first one or stands above it.
    fn is_child(&self, child: u16, parent: u16) -> bool {
        self.descent
            .is_below(usize::from(child), usize::from(parent))
    }

    fn is_array_of(&self, array: u16, kind: CoreType) -> bool {
        let found = self.state.arrays.get(usize::from(array));
        found.is_some_and(|held| element_type(Some(kind)) == Some(held.0))
    }

    // ---- bodies

    /// Whether a frame that is running stands in a body of the set, has slots of the types of its function's parameters and locals,
    /// and an instance of the body's script exactly where the function isn't Global. Where a frame above is open or a reply
    /// waits, it has come to an instruction that calls, and the operand that takes the result takes these.
    pub fn is_sound_body(&self, frame: &FrameState, above: Option<&FrameState>) -> Made<bool> {
        let FrameState::Running {
            instance,
            at,
            instruction,
            slots,
            reply,
        } = frame
        else {
            return Ok(true);
        };
        let Some(function) = self.function_of(at)? else {
            return Ok(false);
        };
        let (place, count) = (usize::from(*instruction), function.parameters.len());
        let waits = above.is_some() || reply.is_some();
        let comes_to = function.code.get(place);
        if place > function.code.len()
            || !self.is_on_script(*instance, at.script, function)
            || slots.len() != count.saturating_add(function.locals.len())
            || !self.fit_slots(slots, function)
            || (waits && !comes_to.is_some_and(|found| is_call(found)))
        {
            return Ok(false);
        }
        // The type of what takes the result, none where anything is taken.
        let taken = comes_to.and_then(|found| reply_result(found)).and_then(|operand| self
            .setting
            .type_of(at.script, function, operand));
        let reply_fits = reply.as_ref().is_none_or(|value| match taken {
            Some(_) => self.fits(value, taken),
            None => self.is_there(value),
        });
        Ok(reply_fits && self.frame_fits(above, taken)?)
    }

    fn is_on_script(&self, instance: Option<u16>, script: u16, function: &LoadedFunction) -> bool {
        match instance {
            Some(instance) => !function.is_global && self.is_of(instance, script),
            None => function.is_global,
        }
    }

    // Whether each slot is of the type of the parameter or local at its place.
    fn fit_slots(&self, slots: &[Value], function: &LoadedFunction) -> bool {
        slots.iter().enumerate().all(|(number, value)| self.fits(
            value,
            slot_type(function, number),
        ))
    }

    // Whether what a frame will give is of the type, if there are both.
    fn frame_fits(&self, above: Option<&FrameState>, taken: Option<CoreType>) -> Made<bool> {
        let (Some(frame), Some(kind)) = (above, taken) else {
            return Ok(true);
        };
        let result = match frame {
            FrameState::Running { at, .. } => self.function_of(at)?.map(|function| function.result),
            FrameState::ToEnter { instance, way, .. } => {
                self.callee_of(*instance, way)?
                    .map(|callee| callee.result())
            }
        };
        Ok(result.is_some_and(|given| self.result_fits(given, kind)))
    }

    // The function of the body that a place names.
    fn function_of(&self, at: &BodyPlace) -> Made<Option<&LoadedFunction>> {
        let found = self.setting.body_named(self.alloc, at)?;
        Ok(found.and_then(|body| self.setting.function(body)))
    }

    // ---- calls

    /// Whether a frame that is to be entered calls what it may enter: a Global function with a body exactly for the way
    /// `Global`, where it has no instance, else one with a body, or a native one where a frame stands below, or an Auto
    /// property. Its arguments are of the types of the function's parameters.
    pub fn is_sound_call(&self, frame: &FrameState, is_first: bool) -> Made<bool> {
        let FrameState::ToEnter {
            instance,
            way,
            arguments,
        } = frame
        else {
            return Ok(true);
        };
        let is_global = matches!(way, Way::Global { .. });
        // A parent call stands in a script of its instance.
        let is_apart = matches!(
            (instance, way),
            (Some(instance), Way::Parent { script, .. }) if !self.is_of(*instance, *script)
        );
        if instance.is_none() != is_global || is_apart {
            return Ok(false);
        }
        Ok(match self.callee_of(*instance, way)? {
            Some(CallTarget::Function(function)) => {
                function.is_global == is_global
                    && (!function.is_native || (!is_global && !is_first))
                    && arguments.len() == function.parameters.len()
                    && self.fit_slots(arguments, function)
            }
            Some(CallTarget::AutoGet(_)) => arguments.is_empty(),
            Some(CallTarget::AutoSet(kind)) => match arguments.as_slice() {
                [value] => self.fits(value, Some(kind)),
                _ => false,
            },
            None => false,
        })
    }

    // What a call finds, none where nothing has its name.
    fn callee_of(&self, instance: Option<u16>, way: &Way) -> Made<Option<CallTarget<'_>>> {
        let Some(way) = self.setting.way_named(self.alloc, way)? else {
            return Ok(None);
        };
        let held = instance.and_then(|number| self.state.instances.get(usize::from(number)));
        let state = match held {
            Some(found) => {
                let loaded = &self.setting.loaded;
                loaded.name_number(self.alloc, found.0.as_bytes())?
            }
            None => None,
        };
        Ok(self.callee(state, instance, way))
    }

    fn callee(
        &self,
        state: Option<usize>,
        instance: Option<u16>,
        way: CallWay,
    ) -> Option<CallTarget<'_>> {
        Some(match self.setting.look_up(state, instance, way)? {
            Found::Body(body) => CallTarget::Function(self.setting.function(body)?),
            Found::Native(at) => CallTarget::Function(self.setting.method(at)?),
            Found::Variable(property, _) => {
                let found = self.setting.property(property)?;
                match way {
                    CallWay::Get(_) if may_read(found) => CallTarget::AutoGet(found.kind),
                    CallWay::Set(_) if may_write(found) => CallTarget::AutoSet(found.kind),
                    _ => return None,
                }
            }
        })
    }
}

// A tape and dice have their place within their cells or at their end. A sum and a latch have one cell, and the place 0.
fn is_sound_device(kind: DeviceKind, cells: &[i32], place: u64) -> bool {
    match kind {
        DeviceKind::Tape | DeviceKind::Dice => {
            cells.len() <= CELL_LIMIT && place <= cells.len() as u64
        }
        DeviceKind::Sum | DeviceKind::Latch => cells.len() == 1 && place == 0,
    }
}

fn takes_none(kind: Option<CoreType>) -> bool {
    match kind {
        Some(kind) => kind.holds_none(),
        None => true,
    }
}

// What a call finds.
#[derive(Clone, Copy)]
enum CallTarget<'a> {
    /// A function, or one that reads or writes a property.
    Function(&'a LoadedFunction),
    /// The reading of an Auto property of this type.
    AutoGet(CoreType),
    /// The writing of an Auto property of this type.
    AutoSet(CoreType),
}

impl CallTarget<'_> {
    // The type of what it gives, if it gives anything.
    fn result(self) -> Option<CoreType> {
        match self {
            CallTarget::Function(function) => function.result,
            CallTarget::AutoGet(kind) => Some(kind),
            CallTarget::AutoSet(_) => None,
        }
    }
}

// ---- stacks

/// Whether the turn is at most the scene's, as many stacks have started as there are calls before it, the last stack
/// is one of them, and the instances are the scene's in number.
pub fn has_sound_numbers(scene: &Scene, state: &MachineState) -> bool
    ensures turn { result ≡ true → state.now.turn ≤ scene.now.turns }
    ensures stacks { result ≡ true → vec_len state.now.stacks ≡ calls_before state.now.turn scene.now.calls.items }
    ensures within { result ≡ true → vec_len state.now.stacks ≤ vec_len scene.now.calls }
{
    let stacks = state.stacks.len();
    state.turn <= scene.turns
        && stacks == calls_before(&scene.calls, state.turn)
        && state.last.is_none_or(|number| usize::from(number) < stacks)
        && state.instances.len() == scene.instances.len()
}

fn calls_before(calls: &[BoundCall], turn: u32) -> usize
    ensures number { result ≡ calls_before turn calls.now }
    ensures within { result ≤ length calls.now }
{
    calls.iter().filter(|call| call.turn < turn).count()
}

/// Whether no stack has more than 128 frames, at most 512 stand beyond first frames, each first frame has an instance, and
/// only innermost ones are to be entered or have a reply.
pub fn has_sound_stacks(state: &MachineState) -> bool {
    let mut extra = 0usize;
    for frames in &state.stacks {
        if frames.len() > FRAME_LIMIT
            || frames
                .first()
                .is_some_and(|first| instance_of(first).is_none())
            || !are_waiting(frames)
        {
            return false;
        }
        extra = extra.saturating_add(frames.len().saturating_sub(1));
    }
    extra <= usize::from(ALL_FRAMES)
}

// All frames but the innermost one are running ones without a reply.
fn are_waiting(frames: &[FrameState]) -> bool {
    match frames.split_last() {
        Some((_, below)) => below.iter().all(|frame| matches!(
            frame,
            FrameState::Running { reply: None, .. }
        )),
        None => true,
    }
}

/// Whether each stack stands exactly once among owners, waiters, free stacks, sleepers and those that are done, the
/// innermost frame of each is one that may stand there, and the lists ascend that are in order of numbers.
pub fn has_sound_locks(alloc: Global, state: &MachineState) -> Made<bool> {
    let mut listed = vec![in alloc; false; state.stacks.len()]?;
    let are_placed = state
        .owners
        .iter()
        .chain(state.waiters.iter())
        .all(|pair| list_with(&mut listed, state, pair.1, Some(pair.0)))
        && state
            .free
            .iter()
            .all(|stack| list_with(&mut listed, state, *stack, None))
        && state.asleep.iter().all(|sleeper| has_reply(state, sleeper.0)
            && list(&mut listed, sleeper.0));
    Ok(
        are_placed
            && have_frames(&listed, &state.stacks)
            && pairs_ascend(&state.owners)
            && stacks_ascend(&state.free)
            && sleepers_ascend(&state.asleep),
    )
}

// Lists a stack. It is false where it was listed, or isn't there.
fn list(listed: &mut Vec<bool>, stack: u16) -> bool {
    match listed.get_mut(usize::from(stack)) {
        Some(is_listed) => {
            let is_new = !*is_listed;
            *is_listed = true;
            is_new
        }
        None => false,
    }
}

// Lists a stack whose innermost frame has this instance.
fn list_with(
    listed: &mut Vec<bool>,
    state: &MachineState,
    stack: u16,
    instance: Option<u16>,
) -> bool {
    innermost(state, stack).is_some_and(|frame| instance_of(frame) == instance)
        && list(listed, stack)
}

// A stack has frames exactly where it is listed.
fn have_frames(listed: &[bool], stacks: &[Vec<FrameState>]) -> bool {
    listed
        .iter()
        .zip(stacks)
        .all(|(is_listed, frames)| *is_listed != frames.is_empty())
}

fn has_reply(state: &MachineState, stack: u16) -> bool {
    matches!(
        innermost(state, stack),
        Some(FrameState::Running { reply: Some(_), .. })
    )
}

fn innermost(state: &MachineState, stack: u16) -> Option<&FrameState> {
    state.stacks.get(usize::from(stack))?.last()
}

fn instance_of(frame: &FrameState) -> Option<u16> {
    match frame {
        FrameState::ToEnter { instance, .. } | FrameState::Running { instance, .. } => *instance,
    }
}
