//! The machine.
#![tactic(auto, using(crate::proofs::AsMany::as_many))]

ghost use Rattle.std.specs.Prelude.{◌≡◌, ◌↔◌, ◌+◌, ◌<◌, ◌≤◌, ◌^◌, false, Ok, Err, None, IfOk, IfSome, IsTrue, MatchResult, OnOk, map, take, vec_len};
ghost use Rattle.latent_natives.specs.Devices.{SameKinds};
ghost use Rattle.body_runner.specs.Casts.{IsTextOf};
ghost use Rattle.stack_machine.specs.Machine.{turns_after, fault_after, CountsTurn, HasEnded, HasNothingLeft, HasStarted};
ghost use Rattle.stack_machine.specs.Moves.{AppendsTurn, NotesEnd};
ghost use Rattle.stack_machine.specs.Plans.{ArePlanned, HasBegun, calls_before};
ghost use Rattle.stack_machine.specs.Standing.{IsFresh};
ghost use Rattle.stack_machine.specs.Written.{WritesLines};

use crate::moves::{MoveSink, NoNotes};
use crate::plan::Plan;
use crate::status::{Status, TurnEnd, TurnFault};
use crate::world::World;
use body_runner::{Bindings, Setting, Store, text_of};
use core_tree::{Outline, Scene, TurnOrder, Value};
use instance_store::Arrays;
use latent_natives::{Device, load_device};
use papy_base::{Made, Text};
use papy_io::Sink;
use pex_verify::Loaded;
use run_replay::LockMove;
use stack_places::Places;
use std::alloc::Global;
use std::marker::Model;

/// A world of loaded scripts that a scene set up, which runs in turns.
#[derive(Drop)]
pub struct Machine {
    pub(crate) setting: Setting,
    pub(crate) plan: Plan,
    pub(crate) world: World,
    // The turns that were done.
    pub(crate) turns: u32,
    // The fault that was answered.
    pub(crate) fault: Option<TurnFault>,
}

impl Model for Machine {
    ghost use Rattle.std.specs.Prelude.{◌≡◌, ◌<◌, ◌≤◌, None, length, vec_len};
    ghost use Rattle.body_runner.specs.Casts.{IsTextOf};
    ghost use Rattle.stack_machine.specs.Machine.{MachineView};
    ghost use Rattle.stack_machine.specs.Plans.{ArePlanned, HasBegun};

    ghost Value = { MachineView };

    ghost view = { λ m. record { outline = m.setting.loaded.outline; scene = m.setting.scene; turns = m.turns; started = vec_len m.world.stacks; done = length m.world.places.lists.done; fault = m.fault } };

    ghost invariant = { λ m. (vec_len m.setting.scene.instances < 65536) × (vec_len m.setting.scene.calls < 65536) × (m.turns ≤ m.setting.scene.turns) × (vec_len m.world.stacks < 65536) × (m.fault ≡ None → HasBegun m.plan.calls.items m.setting.scene.calls.items m.world m.turns) };
}

impl Machine {
    /// The world of a scene that is bound to the loaded outline and to this number of devices, before its first
    /// turn. Each device is loaded with its tape, or with no cells, from 0 on. The scene has at most 65,535
    /// instances and as many calls, as each scene that keeps the limits has.
    ///
    /// # Errors
    ///
    /// `OutOfMemory` comes where there is no room. Then the first devices may be loaded, and the rest are as
    /// they were.
    pub fn start(
        alloc: Global,
        loaded: Loaded,
        scene: Scene,
        devices: &mut Vec<Box<dyn Device>>,
    ) -> Made<Machine>
        requires instances { vec_len scene.instances < 65536 }
        requires calls { vec_len scene.calls < 65536 }
        ensures fixed { IfOk result (λ machine. (machine.outline ≡ loaded.outline) × (machine.scene ≡ scene)) }
        ensures fresh { IfOk result (λ machine. (machine.turns ≡ 0) × (machine.started ≡ 0) × (machine.fault ≡ None) × (machine.done ≡ 0)) }
        ensures kinds { SameKinds (map (λ d. device_state d) devices.old.items) (map (λ d. device_state d) devices.new.items) }
    {
        let first = initial(alloc, &loaded, &scene, devices)?;
        Ok(Machine {
            setting: Setting {
                loaded,
                scene,
                bindings: first.bindings,
            },
            plan: first.plan,
            world: first.world,
            turns: 0,
            fault: None,
        })
    }

    /// Does one turn: starts the stacks and wakes the sleepers of this turn, chooses a stack, and runs it to the
    /// act that ends its turn. The lines of the turn are written, each by one call of the sink.
    ///
    /// `Ended` comes exactly where the run has ended, as after the scene's number of turns, and changes nothing.
    ///
    /// # Errors
    ///
    /// `WriteFault` comes where the sink failed, and `OutOfMemory` where there is no room. Then a prefix of the
    /// turn's lines was written, and each later turn answers the same fault, writes nothing and leaves the
    /// devices as they were.
    pub fn turn<S: Sink>(
        &mut self,
        sink: &mut S,
        devices: &mut Vec<Box<dyn Device>>,
    ) -> Result<TurnEnd, TurnFault>
        ensures fixed { (self.new.outline ≡ self.old.outline) × (self.new.scene ≡ self.old.scene) }
        ensures turns { self.new.turns ≡ turns_after result self.old.turns }
        ensures within { self.new.turns ≤ self.new.scene.turns }
        ensures fault { self.new.fault ≡ fault_after result self.old.fault }
        ensures ended { result ≡ Ok TurnEnd.Ended → self.new ≡ self.old }
        ensures ends { self.old.fault ≡ None → (result ≡ Ok TurnEnd.Ended ↔ HasEnded self.old) }
        ensures count { self.old.fault ≡ None → CountsTurn result (S.faults sink.old) (S.faults sink.new) }
        ensures appended { WritesLines result (S.written sink.old) (S.written sink.new) }
        ensures kinds { SameKinds (map (λ d. device_state d) devices.old.items) (map (λ d. device_state d) devices.new.items) }
        ensures ran { HasStarted result self.new.started }
        ensures started { OnOk result (self.new.started ≡ calls_before self.new.turns self.new.scene.calls.items) }

        // After a fault.
        ensures same_fault { IfSome self.old.fault (λ fault. result ≡ Err fault) }
        ensures nothing_written { IfSome self.old.fault (λ fault. (S.written sink.new ≡ S.written sink.old) × (S.faults sink.new ≡ S.faults sink.old)) }
        ensures devices_kept { IfSome self.old.fault (λ fault. map (λ d. device_state d) devices.new.items ≡ map (λ d. device_state d) devices.old.items) }
    {
        self.turn_with(sink, devices, &mut NoNotes)
    }

    /// Does one turn as `turn` does, and appends its moves: those of the stacks that start and of the sleepers that
    /// wake, each in order of stack number; whose turn it is; and what that stack does, where its act leaves it at
    /// another place.
    ///
    /// After `Ended` the moves are as before.
    ///
    /// # Errors
    ///
    /// They are those of `turn`, and `OutOfMemory` comes also where there is no room for a move. Then the moves are as
    /// before.
    pub fn turn_noted<S: Sink>(
        &mut self,
        sink: &mut S,
        devices: &mut Vec<Box<dyn Device>>,
        moves: &mut Vec<LockMove>,
    ) -> Result<TurnEnd, TurnFault>
        ensures fixed { (self.new.outline ≡ self.old.outline) × (self.new.scene ≡ self.old.scene) }
        ensures turns { self.new.turns ≡ turns_after result self.old.turns }
        ensures within { self.new.turns ≤ self.new.scene.turns }
        ensures fault { self.new.fault ≡ fault_after result self.old.fault }
        ensures ended { result ≡ Ok TurnEnd.Ended → self.new ≡ self.old }
        ensures ends { self.old.fault ≡ None → (result ≡ Ok TurnEnd.Ended ↔ HasEnded self.old) }
        ensures count { self.old.fault ≡ None → CountsTurn result (S.faults sink.old) (S.faults sink.new) }
        ensures appended { WritesLines result (S.written sink.old) (S.written sink.new) }
        ensures kinds { SameKinds (map (λ d. device_state d) devices.old.items) (map (λ d. device_state d) devices.new.items) }
        ensures ran { HasStarted result self.new.started }
        ensures started { OnOk result (self.new.started ≡ calls_before self.new.turns self.new.scene.calls.items) }
        ensures moves { AppendsTurn result self.old.started self.new.started moves.old.items moves.new.items }

        // After a fault.
        ensures same_fault { IfSome self.old.fault (λ fault. result ≡ Err fault) }
        ensures nothing_written { IfSome self.old.fault (λ fault. (S.written sink.new ≡ S.written sink.old) × (S.faults sink.new ≡ S.faults sink.old)) }
        ensures devices_kept { IfSome self.old.fault (λ fault. map (λ d. device_state d) devices.new.items ≡ map (λ d. device_state d) devices.old.items) }
    {
        let before = moves.len();
        let result = self.turn_with(sink, devices, moves);
        cut_after_fault(result, before, moves);
        result
    }

    // One turn, whose moves are noted.
    fn turn_with<S: Sink, N: MoveSink>(
        &mut self,
        sink: &mut S,
        devices: &mut Vec<Box<dyn Device>>,
        notes: &mut N,
    ) -> Result<TurnEnd, TurnFault>
        ensures fixed { (self.new.outline ≡ self.old.outline) × (self.new.scene ≡ self.old.scene) }
        ensures turns { self.new.turns ≡ turns_after result self.old.turns }
        ensures within { self.new.turns ≤ self.new.scene.turns }
        ensures fault { self.new.fault ≡ fault_after result self.old.fault }
        ensures ended { result ≡ Ok TurnEnd.Ended → self.new ≡ self.old }
        ensures ends { self.old.fault ≡ None → (result ≡ Ok TurnEnd.Ended ↔ HasEnded self.old) }
        ensures count { self.old.fault ≡ None → CountsTurn result (S.faults sink.old) (S.faults sink.new) }
        ensures appended { WritesLines result (S.written sink.old) (S.written sink.new) }
        ensures kinds { SameKinds (map (λ d. device_state d) devices.old.items) (map (λ d. device_state d) devices.new.items) }
        ensures ran { HasStarted result self.new.started }
        ensures started { OnOk result (self.new.started ≡ calls_before self.new.turns self.new.scene.calls.items) }
        ensures noted { NotesEnd result self.old.started self.new.started (N.noted notes.old) (N.noted notes.new) }

        // After a fault.
        ensures same_fault { IfSome self.old.fault (λ fault. result ≡ Err fault) }
        ensures nothing_written { IfSome self.old.fault (λ fault. (S.written sink.new ≡ S.written sink.old) × (S.faults sink.new ≡ S.faults sink.old)) }
        ensures devices_kept { IfSome self.old.fault (λ fault. map (λ d. device_state d) devices.new.items ≡ map (λ d. device_state d) devices.old.items) }
    {
        if let Some(fault) = self.fault {
            return Err(fault);
        }
        if self.has_ended() {
            return Ok(TurnEnd::Ended);
        }
        match self.world.do_turn(&self.setting, &self.plan, self.turns, sink, devices, notes) {
            Ok(end) => {
                self.turns += 1;
                Ok(end)
            }
            Err(fault) => {
                self.fault = Some(fault);
                Err(fault)
            }
        }
    }

    // A run ends after its number of turns, or earlier where nothing is left.
    fn has_ended(&self) -> bool
        ensures ended { IsTrue result ↔ HasEnded self.now }
        ensures goes_on { result ≡ false → self.now.turns < self.now.scene.turns }
        ensures room { result ≡ false → self.now.turns + 1 < 2 ^ 32 }
    {
        self.turns >= self.setting.scene.turns || self.has_nothing_left()
    }

    // In round order nothing is left where every stack is done and no scene call is to come.
    fn has_nothing_left(&self) -> bool
        ensures { IsTrue result ↔ HasNothingLeft self.now }
    {
        let (scene, world) = (&self.setting.scene, &self.world);
        matches!(scene.order, TurnOrder::Round)
            && world.are_done()
            && world.stacks.len() >= scene.calls.len()
    }

    /// The number of stacks that have started.
    pub fn stack_count(&self) -> u16
        ensures { result ≡ self.now.started }
    {
        self.world.started()
    }

    /// The number of turns that were done.
    pub fn turns_done(&self) -> u32
        ensures { result ≡ self.now.turns }
    {
        self.turns
    }

    /// The scene of the start.
    pub fn scene(&self) -> &Scene
        ensures scene { result.now ≡ self.now.scene }
        ensures few_instances { vec_len self.now.scene.instances < 65536 }
        ensures few_calls { vec_len self.now.scene.calls < 65536 }
    {
        &self.setting.scene
    }

    /// The outline of the loaded scripts.
    pub fn outline(&self) -> &Outline
        ensures { result.now.scripts.items ≡ self.now.outline }
    {
        self.setting.loaded.outline()
    }

    /// What a stack that has started is doing.
    pub fn status_of(&self, stack: u16) -> Status
        requires { stack < self.now.started }
    {
        self.world.status_of(stack)
    }

    /// The stack that holds an instance.
    pub fn owner_of(&self, instance: u16) -> Option<u16>
        requires { instance < vec_len self.now.scene.instances }
    {
        self.world.owner_of(instance)
    }

    /// The text of an instance's state.
    pub fn state_of(&self, instance: u16) -> &Text
        requires { instance < vec_len self.now.scene.instances }
    {
        if self.world.store.has_instance(instance) {
            return self.world.store.instances.state_of(instance);
        }
        &self.plan.no_state
    }

    /// The value of an instance's Auto property of this number, where those of the root script come first, each
    /// script's in order of declaration.
    ///
    /// # Errors
    ///
    /// `OutOfMemory` comes where there is no room.
    pub fn property_at(&self, instance: u16, property: u32) -> Made<Value> {
        match self
            .setting
            .property_place(self.world.alloc, instance, property)?
        {
            Some((script, variable)) => self.world.store.variable(instance, script, variable),
            None => Ok(Value::NoneValue),
        }
    }

    /// The value of an instance's variable of this number, among the variables of this script. None where the
    /// instance has no such variable.
    ///
    /// # Errors
    ///
    /// `OutOfMemory` comes only of a text.
    pub fn variable_at(&self, instance: u16, script: u16, variable: u16) -> Made<Value> {
        self.world.store.variable(instance, script, variable)
    }

    /// The text of a value: a number's decimals, `True` or `False`, a text itself, `[Script <name>]` of an
    /// instance, `None`, or an array's elements between brackets, joined by a comma and a space.
    ///
    /// # Errors
    ///
    /// `OutOfMemory` comes where there is no room.
    pub fn value_text(&self, value: &Value) -> Made<Text>
        ensures { IfOk result (IsTextOf self.now.outline self.now.scene value.now) }
    {
        text_of(self.world.alloc, &self.setting, &self.world.store, value)
    }

    /// The arrays that scripts have made.
    pub fn arrays(&self) -> &Arrays {
        &self.world.store.arrays
    }
}

// What a machine has before its first turn, beside the scripts and the scene.
#[derive(Drop)]
struct Beginning {
    bindings: Bindings,
    plan: Plan,
    world: World,
}

fn initial(
    alloc: Global,
    loaded: &Loaded,
    scene: &Scene,
    devices: &mut Vec<Box<dyn Device>>,
) -> Made<Beginning>
    requires instances { vec_len scene.now.instances < 65536 }
    requires calls { vec_len scene.now.calls < 65536 }
    ensures fresh { IfOk result (λ first. IsFresh (vec_len scene.now.instances) (vec_len scene.now.calls) first.world) }
    ensures planned { IfOk result (λ first. ArePlanned first.plan.calls.items scene.now.calls.items) }
    ensures kinds { SameKinds (map (λ d. device_state d) devices.old.items) (map (λ d. device_state d) devices.new.items) }
{
    load_devices(&scene.tapes, devices)?;
    let bindings = Bindings::of(alloc, loaded.outline(), &scene.natives)?;
    let plan = Plan::of(alloc, loaded, scene)?;
    let world = initial_world(alloc, loaded, scene)?;
    Ok(Beginning {
        bindings,
        plan,
        world,
    })
}

fn initial_world(alloc: Global, loaded: &Loaded, scene: &Scene) -> Made<World>
    requires instances { vec_len scene.now.instances < 65536 }
    requires calls { vec_len scene.now.calls < 65536 }
    ensures { IfOk result (IsFresh (vec_len scene.now.instances) (vec_len scene.now.calls)) }
{
    let (instances, stacks) = (scene.instances.len() as u16, scene.calls.len() as u16);
    let store = Store::create(alloc, loaded, scene)?;
    Ok(World {
        alloc,
        store,
        stacks: Vec::with_capacity(alloc, usize::from(stacks))?,
        places: Places::with_room(alloc, instances, stacks)?,
        extra: 0,
        last: None,
    })
}

// After a fault no more than so many moves are left.
fn cut_after_fault(end: Result<TurnEnd, TurnFault>, before: usize, moves: &mut Vec<LockMove>)
    ensures { MatchResult end (λ _. moves.new.items ≡ moves.old.items) (λ _. moves.new.items ≡ take before moves.old.items) }
{
    if end.is_err() {
        moves.truncate(before);
    }
}

// Loads each device with its tape, or with no cells.
fn load_devices(tapes: &[Vec<i32>], devices: &mut Vec<Box<dyn Device>>) -> Made<()>
    ensures { SameKinds (map (λ d. device_state d) devices.old.items) (map (λ d. device_state d) devices.new.items) }
{
    for place in 0..devices.len() {
        let cells: &[i32] = match tapes.get(place) {
            Some(tape) => tape.as_slice(),
            None => &[],
        };
        load_device(devices, place, cells, 0)?;
    }
    Ok(())
}
