//! The state of a run between two turns, as it is told. A stack of which no place is told is done.

ghost use Rattle.std.specs.Prelude.{◌≡◌, None, IfOk, vec_len};
ghost use Rattle.machine_state.specs.Plain.{plain};
ghost use Rattle.machine_state.specs.Savable.{IsSavable};

use crate::machine::Machine;
use crate::savable::is_savable;
use crate::world::World;
use body_runner::{Call, Frame, Setting, Stack, called_way, copies, name_of};
use core_tree::{CoreType, DeviceKind, Value};
use instance_store::ScriptVariables;
use latent_natives::Device;
use machine_state::{BodyPlace, FrameState, MachineState, Way};
use papy_base::{Made, OutOfMemory, Text};
use run_replay::StackPlace;
use std::alloc::Global;

/// A device of a state: its kind, its cells and its place.
pub type HeldDevice = (DeviceKind, Vec<i32>, u64);

impl Machine {
    /// The state of the run as it stands, with these devices: all that later turns depend on beside the scripts and the
    /// scene. A pending call names its function as the instruction or the scene's call spells it.
    ///
    /// # Errors
    ///
    /// `OutOfMemory` comes where there is no room, and would come of a state with a list or a text that is longer than a
    /// held file can say, which no run reaches.
    pub fn snapshot(&self, alloc: Global, devices: &Vec<Box<dyn Device>>) -> Made<MachineState>
        requires { self.now.fault ≡ None }
        ensures savable { IfOk result (λ state. IsSavable (plain state)) }
        ensures turn { IfOk result (λ state. state.turn ≡ self.now.turns) }
        ensures stacks { IfOk result (λ state. vec_len state.stacks ≡ self.now.started) }
    {
        let teller = Teller {
            alloc,
            setting: &self.setting,
            world: &self.world,
        };
        let count = self.setting.scene.instances.len() as u16;
        let started = self.stack_count();
        let state = MachineState {
            turn: self.turns,
            last: self.world.last,
            instances: teller.instances(count)?,
            owners: teller.owners(count)?,
            waiters: teller.waiters(started)?,
            free: teller.free(started)?,
            asleep: teller.asleep(started)?,
            arrays: teller.arrays()?,
            devices: told_devices(alloc, devices)?,
            stacks: teller.stacks()?,
        };
        if !is_savable(&state) {
            drop(state);
            return Err(OutOfMemory);
        }
        Ok(state)
    }
}

// What tells the state of a world.
#[derive(Drop)]
struct Teller<'a> {
    alloc: Global,
    setting: &'a Setting,
    world: &'a World,
}

impl Teller<'_> {
    // The first so many instances.
    fn instances(&self, count: u16) -> Made<Vec<(Text, Vec<Value>)>> {
        let store = &self.world.store;
        let mut told = Vec::new(self.alloc);
        for instance in 0..count {
            if store.has_instance(instance) {
                let state = store.instances.state_of(instance).try_clone(self.alloc)?;
                let values = self.values(store.instances.scripts_of(instance))?;
                told.push((state, values))?;
            }
        }
        Ok(told)
    }

    // The values of scripts that stand upward, from the topmost script down.
    fn values(&self, scripts: &[ScriptVariables]) -> Made<Vec<Value>> {
        let mut values = Vec::new(self.alloc);
        for script in scripts.iter().rev() {
            values.append(&mut copies(self.alloc, script.values())?)?;
        }
        Ok(values)
    }

    // Those of the first so many instances that a stack holds.
    fn owners(&self, count: u16) -> Made<Vec<(u16, u16)>> {
        let mut owners = Vec::new(self.alloc);
        for instance in 0..count {
            if let Some(stack) = self.world.owner_of(instance) {
                owners.push((instance, stack))?;
            }
        }
        Ok(owners)
    }

    // The stacks that wait, in order of joining.
    fn waiters(&self, started: u16) -> Made<Vec<(u16, u16)>> {
        let (mut waiters, mut after) = (Vec::new(self.alloc), None);
        for _ in 0..started {
            let Some(stack) = self.world.next_waiter(after) else {
                break;
            };
            if let Some(pair) = self.world.wait_of(stack) {
                waiters.push(pair)?;
            }
            after = Some(stack);
        }
        Ok(waiters)
    }

    // The stacks that run free.
    fn free(&self, started: u16) -> Made<Vec<u16>> {
        let mut free = Vec::new(self.alloc);
        for stack in 0..started {
            if matches!(self.world.place_of(stack), StackPlace::Free) {
                free.push(stack)?;
            }
        }
        Ok(free)
    }

    // The stacks that sleep, with the turns at which they are due.
    fn asleep(&self, started: u16) -> Made<Vec<(u16, u32)>> {
        let mut asleep = Vec::new(self.alloc);
        for stack in 0..started {
            if let StackPlace::Asleep(until) = self.world.place_of(stack) {
                asleep.push((stack, until))?;
            }
        }
        Ok(asleep)
    }

    fn arrays(&self) -> Made<Vec<(CoreType, Vec<Value>)>> {
        let arrays = &self.world.store.arrays;
        let mut told = Vec::new(self.alloc);
        for array in 0..arrays.count() {
            let items = copies(self.alloc, arrays.items_of(array))?;
            told.push((*arrays.kind_of(array), items))?;
        }
        Ok(told)
    }

    // The frames of each stack that has started, outermost first.
    fn stacks(&self) -> Made<Vec<Vec<FrameState>>>
        ensures { IfOk result (λ told. vec_len told ≡ vec_len self.now.world.now.stacks) }
    {
        let mut told = Vec::with_capacity(self.alloc, self.world.stacks.len())?;
        for stack in &self.world.stacks {
            told.push(self.frames(stack)?)?;
        }
        Ok(told)
    }

    fn frames(&self, found: &Stack) -> Made<Vec<FrameState>> {
        let mut told = Vec::new(self.alloc);
        for frame in found.below() {
            told.push(self.frame(frame, None)?)?;
        }
        match found {
            Stack::Done => {}
            Stack::ToEnter { call, below } => told.push(self.call(call, below.last())?)?,
            Stack::Running {
                innermost,
                reply,
                ..
            } => told.push(self.frame(innermost, reply.as_ref())?)?,
        }
        Ok(told)
    }

    // A call that is to be entered, above this frame.
    fn call(&self, call: &Call, below: Option<&Frame>) -> Made<FrameState> {
        Ok(FrameState::ToEnter {
            instance: call.instance,
            way: self.way(call, below)?,
            arguments: copies(self.alloc, &call.arguments)?,
        })
    }

    // How a call names its function.
    fn way(&self, call: &Call, below: Option<&Frame>) -> Made<Way> {
        match (&call.kept, below) {
            (Some(kept), _) => copy_of(self.alloc, kept),
            (None, Some(frame)) => self.way_of_instruction(frame),
            (None, None) => Err(OutOfMemory),
        }
    }

    // As the instruction at which the frame below the call halts.
    fn way_of_instruction(&self, below: &Frame) -> Made<Way> {
        let function = self.setting.function(below.body).ok_or(OutOfMemory)?;
        let instruction = function.code.get(below.place).ok_or(OutOfMemory)?;
        called_way(self.alloc, instruction, below.body.script())?.ok_or(OutOfMemory)
    }

    // An open body, for which a reply may wait. Where it stands is spelled as it is declared.
    fn frame(&self, frame: &Frame, reply: Option<&Value>) -> Made<FrameState> {
        let (setting, body) = (self.setting, frame.body);
        let name = &setting.function(body).ok_or(OutOfMemory)?.name;
        Ok(FrameState::Running {
            instance: frame.instance,
            at: BodyPlace {
                script: body.script(),
                state: Text::try_from_bytes(self.alloc, setting.state_name(body))?,
                function: Text::try_from_bytes(self.alloc, name.as_bytes())?,
                kind: body.kind(),
            },
            instruction: u16::try_from(frame.place).ok().ok_or(OutOfMemory)?,
            slots: copies(self.alloc, &frame.slots)?,
            reply: match reply {
                Some(value) => Some(value.try_clone(self.alloc)?),
                None => None,
            },
        })
    }
}

fn told_devices(alloc: Global, devices: &Vec<Box<dyn Device>>) -> Made<Vec<HeldDevice>> {
    let mut told = Vec::new(alloc);
    for device in devices {
        told.push((device.kind(), device.cells().to_vec(alloc)?, device.place()))?;
    }
    Ok(told)
}

/// An equal way.
pub fn copy_of(alloc: Global, way: &Way) -> Made<Way> {
    let name = name_of(way).try_clone(alloc)?;
    Ok(match *way {
        Way::Method(_) => Way::Method(name),
        Way::Parent { script, .. } => Way::Parent { script, name },
        Way::Global { script, .. } => Way::Global { script, name },
        Way::Get(_) => Way::Get(name),
        Way::Set(_) => Way::Set(name),
    })
}
