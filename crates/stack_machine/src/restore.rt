//! A machine that goes on from a state of a run, which was found sound.

ghost use Rattle.std.specs.Prelude.{◌≡◌, ◌≤◌, ◌<◌, ℕ, true, None, IfErr, IfOk, IfSome, length, map, vec_len};
ghost use Rattle.latent_natives.specs.Devices.{SameKinds};
ghost use Rattle.stack_machine.specs.Plans.{ArePlanned, HasBegun};
ghost use Rattle.stack_machine.specs.Restoring.{LeavesDevices};
ghost use Rattle.lock_queue.specs.LockTable.{start_after};
ghost use Rattle.stack_machine.specs.Standing.{ArePlaced, IsSameSize, StandAtMost};
ghost use Rattle.stack_places.specs.Places.{standings};

use crate::machine::Machine;
use crate::plan::Plan;
use crate::snapshot::{HeldDevice, copy_of};
use crate::sound::is_sound;
use crate::status::RestoreFault;
use crate::world::{World, depth_of};
use body_runner::{Bindings, Call, Frame, Setting, Stack, Store};
use core_tree::{CoreType, Outline, Scene, Value};
use instance_store::{Arrays, Instance, Instances, ScriptVariables};
use latent_natives::{Device, load_device};
use machine_state::{FrameState, MachineState, Way};
use papy_base::{Made, OutOfMemory, Text, lineage_of};
use pex_verify::Loaded;
use stack_places::Places;
use std::alloc::Global;
use std::mem;

/// The most arrays, and the most elements of one.
pub const ARRAY_LIMIT: u16 = 4096;

pub const ELEMENT_LIMIT: usize = 128;

impl Machine {
    /// The machine that goes on from a state of a run of a scene, which is bound to the loaded outline and to the state's
    /// number of devices. Each device is loaded with its cells and its place, after all memory was found but that of
    /// the devices' cells. The scene has at most 65,535 instances and as many calls, as each scene that keeps the limits has.
    ///
    /// # Errors
    ///
    /// `BadState` comes where the state isn't sound for the scripts and the scene, and else `OtherDevices` where the devices
    /// are others than those of the state, in number or in kind. Neither changes a device. `OutOfMemory` comes where
    /// there is no room, and then the first devices may be loaded.
    pub fn restore(
        alloc: Global,
        loaded: Loaded,
        scene: Scene,
        state: MachineState,
        devices: &mut Vec<Box<dyn Device>>,
    ) -> Result<Machine, RestoreFault>
        requires instances { vec_len scene.instances < 65536 }
        requires calls { vec_len scene.calls < 65536 }
        ensures fixed { IfOk result (λ machine. (machine.outline ≡ loaded.outline) × (machine.scene ≡ scene)) }
        ensures turns { IfOk result (λ machine. machine.turns ≡ state.turn) }
        ensures started { IfOk result (λ machine. machine.started ≡ vec_len state.stacks) }
        ensures fault { IfOk result (λ machine. machine.fault ≡ None) }
        ensures devices { IfErr result (λ fault. LeavesDevices fault (map (λ d. device_state d) devices.old.items) (map (λ d. device_state d) devices.new.items)) }
        ensures kinds { SameKinds (map (λ d. device_state d) devices.old.items) (map (λ d. device_state d) devices.new.items) }
    {
        let prepared = match prepare(alloc, &loaded, &scene) {
            Ok(prepared) => prepared,
            Err(_) => {
                drop(state);
                drop(scene);
                drop(loaded);
                return Err(RestoreFault::OutOfMemory);
            }
        };
        let (bindings, plan) = prepared;
        let setting = Setting {
            loaded,
            scene,
            bindings,
        };
        let mut state = state;
        let turns = state.turn;
        let revived = revive(alloc, &setting, &plan, &mut state, devices);
        drop(state);
        match revived {
            Ok(world) => Ok(Machine {
                setting,
                plan,
                world,
                turns,
                fault: None,
            }),
            Err(fault) => {
                drop(setting);
                drop(plan);
                Err(fault)
            }
        }
    }
}

// What is looked up once, at the start.
fn prepare(alloc: Global, loaded: &Loaded, scene: &Scene) -> Made<(Bindings, Plan)>
    ensures { IfOk result (λ prepared. ArePlanned prepared.1.calls.items scene.now.calls.items) }
{
    let bindings = Bindings::of(alloc, loaded.outline(), &scene.natives)?;
    let plan = Plan::of(alloc, loaded, scene)?;
    Ok((bindings, plan))
}

// The world that a state makes. The state's vectors of values are emptied.
#[tactic(auto, using(crate::proofs::Begun::has_begun))]
fn revive(
    alloc: Global,
    setting: &Setting,
    plan: &Plan,
    state: &mut MachineState,
    devices: &mut Vec<Box<dyn Device>>,
) -> Result<World, RestoreFault>
    requires planned { ArePlanned plan.now.calls.items setting.now.scene.calls.items }
    requires instances { vec_len setting.now.scene.instances < 65536 }
    requires calls { vec_len setting.now.scene.calls < 65536 }
    ensures turn { IfOk result (λ _. state.old.turn ≤ setting.now.scene.turns) }
    ensures started { IfOk result (λ world. vec_len world.stacks ≡ vec_len state.old.stacks) }
    ensures begun { IfOk result (λ world. HasBegun plan.now.calls.items setting.now.scene.calls.items world state.old.turn) }
    ensures devices { IfErr result (λ fault. LeavesDevices fault (map (λ d. device_state d) devices.old.items) (map (λ d. device_state d) devices.new.items)) }
    ensures kinds { SameKinds (map (λ d. device_state d) devices.old.items) (map (λ d. device_state d) devices.new.items) }
{
    if !is_sound(alloc, setting, state)? {
        return Err(RestoreFault::BadState);
    }
    if !are_of_kinds(&state.devices, devices) {
        return Err(RestoreFault::OtherDevices);
    }
    let Some(world) = revived_world(alloc, setting, state)? else {
        return Err(RestoreFault::BadState);
    };
    load_devices(&state.devices, devices)?;
    Ok(world)
}

// Whether there are as many devices, of the same kinds in the same order.
fn are_of_kinds(told: &[HeldDevice], devices: &Vec<Box<dyn Device>>) -> bool {
    told.len() == devices.len()
        && devices
            .iter()
            .zip(told)
            .all(|(device, told)| device.kind() == told.0)
}

// None where some stack doesn't stand in one place, as each of a sound state does.
fn revived_world(alloc: Global, setting: &Setting, state: &mut MachineState) -> Made<Option<World>>
    requires instances { vec_len setting.now.scene.instances < 65536 }
    requires calls { vec_len setting.now.scene.calls < 65536 }
    requires stacks { vec_len state.old.stacks ≤ vec_len setting.now.scene.calls }
    ensures started { IfOk result (λ found. IfSome found (λ world. vec_len world.stacks ≡ vec_len state.old.stacks)) }
    ensures placed { IfOk result (λ found. IfSome found (λ world. ArePlaced (vec_len setting.now.scene.instances) (vec_len setting.now.scene.calls) (vec_len world.stacks) world.places)) }
    ensures last { IfOk result (λ found. IfSome found (λ world. start_after world.last ≤ vec_len world.stacks)) }
{
    let store = revived_store(alloc, setting, state)?;
    let stacks = revived_stacks(alloc, setting, &mut state.stacks)?;
    let started = stacks.len() as u16;
    let Some(places) = revived_places(alloc, &setting.scene, state, &stacks)? else {
        return Ok(None);
    };
    Ok(Some(World {
        alloc,
        store,
        extra: extra_of(&stacks),
        stacks,
        places,
        last: within(state.last, started),
    }))
}

// A stack where it has started.
fn within(stack: Option<u16>, started: u16) -> Option<u16>
    ensures { start_after result ≤ started }
{
    match stack {
        Some(stack) if stack < started => Some(stack),
        _ => None,
    }
}

fn extra_of(stacks: &[Stack]) -> u16 {
    let mut extra = 0u16;
    for stack in stacks {
        extra = extra.saturating_add(depth_of(stack));
    }
    extra
}

// Loads each device with its cells and its place.
fn load_devices(told: &[HeldDevice], devices: &mut Vec<Box<dyn Device>>) -> Made<()>
    ensures { SameKinds (map (λ d. device_state d) devices.old.items) (map (λ d. device_state d) devices.new.items) }
{
    for place in 0..devices.len() {
        if let Some((_, cells, at)) = told.get(place) {
            load_device(devices, place, cells.as_slice(), *at)?;
        }
    }
    Ok(())
}

// ---- instances and arrays

// The values of the state, which are taken out of it.
fn revived_store(alloc: Global, setting: &Setting, state: &mut MachineState) -> Made<Store>
    requires { vec_len setting.now.scene.instances < 65536 }
    ensures stacks { state.new.stacks ≡ state.old.stacks }
{
    let arrays = revived_arrays(alloc, &mut state.arrays)?;
    let instances = revived_instances(alloc, setting, &mut state.instances)?;
    let count = instances.len();
    let instances = Instances::of(alloc, instances)?;
    Store::of(alloc, &setting.loaded, instances, arrays, count)
}

fn revived_arrays(alloc: Global, told: &mut Vec<(CoreType, Vec<Value>)>) -> Made<Arrays> {
    let mut arrays = Arrays::new(alloc);
    for array in told.iter_mut() {
        let items = mem::replace(&mut array.1, Vec::new(alloc));
        if arrays.count() < ARRAY_LIMIT && items.len() <= ELEMENT_LIMIT {
            arrays.add(array.0, items)?;
        }
    }
    Ok(arrays)
}

fn revived_instances(
    alloc: Global,
    setting: &Setting,
    told: &mut Vec<(Text, Vec<Value>)>,
) -> Made<Vec<Instance>>
    requires { vec_len setting.now.scene.instances < 65536 }
    ensures { IfOk result (λ instances. vec_len instances < 65536) }
{
    let bound = &setting.scene.instances;
    let mut instances = Vec::with_capacity(alloc, bound.len())?;
    for (place, instance) in bound.iter().enumerate() {
        if let Some(entry) = told.get_mut(place) {
            let state = entry.0.try_clone(alloc)?;
            let outline = setting.loaded.outline();
            let scripts = revived_scripts(alloc, outline, instance.script, &mut entry.1)?;
            instances.push(Instance::new(state, scripts))?;
        }
    }
    Ok(instances)
}

// The values of a script and of those above it, whose own values stand last.
fn revived_scripts(
    alloc: Global,
    outline: &Outline,
    script: u16,
    values: &mut Vec<Value>,
) -> Made<Vec<ScriptVariables>> {
    let numbers = lineage_of(alloc, &outline.scripts, usize::from(script))?;
    let mut scripts = Vec::with_capacity(alloc, numbers.len())?;
    for number in &numbers {
        if let Some(found) = outline.scripts.get(*number) {
            let above = values.len().saturating_sub(found.variables.len());
            scripts.push(ScriptVariables::new(*number, values.split_off(above)?))?;
        }
    }
    Ok(scripts)
}

// ---- stacks, each in its place

// The stacks of the state, whose values are taken out of it.
fn revived_stacks(
    alloc: Global,
    setting: &Setting,
    told: &mut [Vec<FrameState>],
) -> Made<Vec<Stack>>
    ensures { IfOk result (λ stacks. vec_len stacks ≡ length told.old) }
{
    let mut stacks = Vec::with_capacity(alloc, setting.scene.calls.len())?;
    for place in 0..told.len() {
        stacks.push(revived_stack(alloc, setting, &mut told[place])?)?;
    }
    Ok(stacks)
}

// Where the stacks are, none where one of them doesn't stand in one place.
fn revived_places(
    alloc: Global,
    scene: &Scene,
    state: &MachineState,
    stacks: &[Stack],
) -> Made<Option<Places>>
    requires instances { vec_len scene.now.instances < 65536 }
    requires calls { vec_len scene.now.calls < 65536 }
    requires stacks { length stacks.now ≤ vec_len scene.now.calls }
    ensures { IfOk result (λ found. IfSome found (λ places. ArePlaced (vec_len scene.now.instances) (vec_len scene.now.calls) (length stacks.now) places)) }
{
    let (instances, room) = (scene.instances.len() as u16, scene.calls.len() as u16);
    let mut places = Places::with_room(alloc, instances, room)?;
    let started = stacks.len() as u16;
    take_all(&mut places, started, &state.owners);
    wait_all(&mut places, started, &state.waiters);
    free_all(&mut places, started, &state.free);
    sleep_all(&mut places, started, &state.asleep);
    end_all(&mut places, started, stacks);
    if !all_stand(&places, started) {
        drop(places);
        return Ok(None);
    }
    Ok(Some(places))
}

// A stack, of which all frames but the innermost one are open bodies.
fn revived_stack(alloc: Global, setting: &Setting, told: &mut [FrameState]) -> Made<Stack> {
    let Some((last, outer)) = told.split_last_mut() else {
        return Ok(Stack::Done);
    };
    let below = revived_frames(alloc, setting, outer)?;
    match last {
        FrameState::ToEnter {
            instance,
            way,
            arguments,
        } => {
            let call = revived_call(alloc, setting, *instance, way, arguments)?;
            Ok(Stack::ToEnter { call, below })
        }
        FrameState::Running { reply, .. } => {
            let reply = reply.take();
            let innermost = revived_frame(alloc, setting, last)?;
            Ok(Stack::Running {
                innermost,
                reply,
                below,
            })
        }
    }
}

fn revived_frames(alloc: Global, setting: &Setting, told: &mut [FrameState]) -> Made<Vec<Frame>> {
    let mut frames = Vec::with_capacity(alloc, told.len())?;
    for frame in told.iter_mut() {
        frames.push(revived_frame(alloc, setting, frame)?)?;
    }
    Ok(frames)
}

fn revived_call(
    alloc: Global,
    setting: &Setting,
    instance: Option<u16>,
    way: &Way,
    arguments: &mut Vec<Value>,
) -> Made<Call> {
    let found = setting.way_named(alloc, way)?.ok_or(OutOfMemory)?;
    let kept = Some(copy_of(alloc, way)?);
    Ok(Call {
        instance,
        way: found,
        arguments: mem::replace(arguments, Vec::new(alloc)),
        kept,
    })
}

// An open body.
fn revived_frame(alloc: Global, setting: &Setting, told: &mut FrameState) -> Made<Frame> {
    let FrameState::Running {
        instance,
        at,
        instruction,
        slots,
        ..
    } = told
    else {
        return Err(OutOfMemory);
    };
    let body = setting.body_named(alloc, at)?.ok_or(OutOfMemory)?;
    Ok(Frame {
        instance: *instance,
        body,
        place: usize::from(*instruction),
        slots: mem::replace(slots, Vec::new(alloc)),
    })
}

// A stack that has started and stands nowhere waits for an instance, or runs free where there is none.
fn wait(places: &mut Places, started: u16, stack: u16, instance: Option<u16>)
    requires { StandAtMost started places.old }
    ensures stand { StandAtMost started places.new }
    ensures size { IsSameSize places.old places.new }
{
    if stack >= started {
        return;
    }
    if !places.is_away(stack) {
        return;
    }
    let instance = places.if_there(instance);
    places.go_to_wait(stack, instance);
}

// A stack that is ready takes the instance for which it waits.
fn take(places: &mut Places, started: u16, stack: u16)
    requires { StandAtMost started places.old }
    ensures stand { StandAtMost started places.new }
    ensures size { IsSameSize places.old places.new }
{
    if stack >= started {
        return;
    }
    if !places.is_ready(stack) {
        return;
    }
    places.take(stack);
}

// A stack that has started and stands nowhere sleeps until a turn.
fn sleep(places: &mut Places, started: u16, stack: u16, until: u32)
    requires { StandAtMost started places.old }
    ensures stand { StandAtMost started places.new }
    ensures size { IsSameSize places.old places.new }
{
    if stack >= started {
        return;
    }
    if !places.is_away(stack) {
        return;
    }
    places.sleep(stack, until);
}

// A stack that has started and stands nowhere is done.
fn end(places: &mut Places, started: u16, stack: u16)
    requires { StandAtMost started places.old }
    ensures stand { StandAtMost started places.new }
    ensures size { IsSameSize places.old places.new }
{
    if stack >= started {
        return;
    }
    if !places.is_away(stack) {
        return;
    }
    places.end(stack);
}

// Lets stacks hold instances for which nobody waits yet.
fn take_all(places: &mut Places, started: u16, owners: &[(u16, u16)])
    requires { StandAtMost started places.old }
    ensures stand { StandAtMost started places.new }
    ensures size { IsSameSize places.old places.new }
{
    for owner in owners {
        wait(places, started, owner.1, Some(owner.0));
        take(places, started, owner.1);
    }
}

// Lets stacks wait for the instances of their frames, one behind another.
fn wait_all(places: &mut Places, started: u16, waiters: &[(u16, u16)])
    requires { StandAtMost started places.old }
    ensures stand { StandAtMost started places.new }
    ensures size { IsSameSize places.old places.new }
{
    for waiter in waiters {
        wait(places, started, waiter.1, Some(waiter.0));
    }
}

// Lets stacks run free, whose frames have no instance.
fn free_all(places: &mut Places, started: u16, free: &[u16])
    requires { StandAtMost started places.old }
    ensures stand { StandAtMost started places.new }
    ensures size { IsSameSize places.old places.new }
{
    for stack in free {
        wait(places, started, *stack, None);
    }
}

fn sleep_all(places: &mut Places, started: u16, asleep: &[(u16, u32)])
    requires { StandAtMost started places.old }
    ensures stand { StandAtMost started places.new }
    ensures size { IsSameSize places.old places.new }
{
    for sleeper in asleep {
        sleep(places, started, sleeper.0, sleeper.1);
    }
}

// Lets the stacks that have no frames be done.
fn end_all(places: &mut Places, started: u16, stacks: &[Stack])
    requires { StandAtMost started places.old }
    ensures stand { StandAtMost started places.new }
    ensures size { IsSameSize places.old places.new }
{
    for number in 0..started {
        if has_ended(stacks, number) {
            end(places, started, number);
        }
    }
}

fn has_ended(stacks: &[Stack], number: u16) -> bool {
    match stacks.get(usize::from(number)) {
        Some(stack) => stack.is_done(),
        None => false,
    }
}

// Whether each of so many stacks stands somewhere.
fn all_stand(places: &Places, started: u16) -> bool
    requires { StandAtMost started places.now }
    ensures { result ≡ true → (k : ℕ) → k < started → standings places.now.lists k ≡ 1 }
{
    for stack in 0..started {
        if places.is_away(stack) {
            return false;
        }
    }
    true
}
