//! What turns change, and what a turn does.
#![tactic(auto, using(crate::proofs::Sinks::sinks))]

ghost use Rattle.std.specs.Prelude.{◌≡◌, ◌<◌, ◌+◌, ◌^◌, ◌≤◌, IfOk, IfSome, MatchResult, Ok, OnOk, map, vec_len};
ghost use Rattle.latent_natives.specs.Devices.{SameKinds};
ghost use Rattle.stack_machine.specs.Machine.{CountsTurn, HasStarted};
ghost use Rattle.stack_machine.specs.Moves.{AddsSome, AreOfBeginning, AreOfEnd, AreOfTurn, AreStarts, AreWakes, Begins, IsAct, Noted, Takes};
ghost use Rattle.stack_machine.specs.Plans.{HasBegun};
ghost use Rattle.stack_machine.specs.Standing.{IsInTurn, MayTake, Stands};
ghost use Rattle.stack_machine.specs.Written.{WritesLines};
ghost use Rattle.stack_places.specs.Places.{IsAway, SameStandings, StandsThen};

use crate::moves::{MoveSink, moves_between, note_any};
use crate::plan::{Plan, PlannedCall};
use crate::status::{TurnEnd, TurnFault};
use crate::turns::in_turn;
use body_runner::{Call, CallWay, FRAME_LIMIT, Setting, Stack, Store, Turn, copies};
use core_tree::BoundCall;
use latent_natives::Device;
use machine_state::Way;
use papy_base::Made;
use papy_io::Sink;
use run_replay::{LockMove, StackPlace};
use stack_places::Places;
use std::alloc::Global;

/// The most frames of all stacks beyond the first of each.
pub const ALL_FRAMES: u16 = 512;

/// What turns change.
#[derive(Drop)]
pub struct World {
    pub alloc: Global,
    pub store: Store,
    /// The stacks that have started, numbered in order of start.
    pub stacks: Vec<Stack>,
    /// Where each of them is.
    pub places: Places,
    /// The frames of all stacks beyond the first of each.
    pub extra: u16,
    /// The stack that was chosen last.
    pub last: Option<u16>,
}

impl World {
    /// Does the turn of this number: starts the stacks and wakes the sleepers of the turn, chooses a stack, and
    /// runs it to the act that ends its turn. The moves of the turn are noted.
    pub fn do_turn<S: Sink, N: MoveSink>(
        &mut self,
        setting: &Setting,
        plan: &Plan,
        number: u32,
        sink: &mut S,
        devices: &mut Vec<Box<dyn Device>>,
        notes: &mut N,
    ) -> Result<TurnEnd, TurnFault>
        requires begun { HasBegun plan.now.calls.items setting.now.scene.calls.items self.old number }
        requires room { number + 1 < 2 ^ 32 }
        ensures appended { WritesLines result (S.written sink.old) (S.written sink.new) }
        ensures count { CountsTurn result (S.faults sink.old) (S.faults sink.new) }
        ensures kinds { SameKinds (map (λ d. device_state d) devices.old.items) (map (λ d. device_state d) devices.new.items) }
        ensures ran { HasStarted result (vec_len self.new.stacks) }
        ensures goes_on { ¬ (result ≡ Ok TurnEnd.Ended) }
        ensures begun { OnOk result (HasBegun plan.now.calls.items setting.now.scene.calls.items self.new (number + 1)) }
        ensures few { vec_len self.new.stacks < 65536 }
        ensures noted { MatchResult result (λ end. Noted (AreOfTurn end (vec_len self.old.stacks) (vec_len self.new.stacks)) (N.noted notes.old) (N.noted notes.new)) (λ _. AddsSome (N.noted notes.old) (N.noted notes.new)) }
    {
        self.begin(setting, plan, number, notes)?;
        let started = self.stacks.len() as u16;
        let chosen = self
            .places
            .choose(&setting.scene.order, number, self.last, started);
        let Some(stack) = chosen else {
            notes.note(LockMove::Idle)?;
            return Ok(TurnEnd::Idle);
        };
        let turn = Turn {
            alloc: self.alloc,
            setting,
            number,
            stack,
        };
        self.take_turn(&turn, sink, devices, notes)?;
        self.last = chosen;
        Ok(TurnEnd::Ran(stack))
    }

    // The turn of the chosen stack: takes its instance where it waits, and runs it.
    fn take_turn<S: Sink, N: MoveSink>(
        &mut self,
        turn: &Turn<'_>,
        sink: &mut S,
        devices: &mut Vec<Box<dyn Device>>,
        notes: &mut N,
    ) -> Result<(), TurnFault>
        requires { MayTake turn.now (vec_len self.old.stacks) self.old.places }
        ensures appended { WritesLines result (S.written sink.old) (S.written sink.new) }
        ensures count { CountsTurn result (S.faults sink.old) (S.faults sink.new) }
        ensures kinds { SameKinds (map (λ d. device_state d) devices.old.items) (map (λ d. device_state d) devices.new.items) }
        ensures places { OnOk result (SameStandings self.old.places self.new.places) }
        ensures stacks { vec_len self.new.stacks ≡ vec_len self.old.stacks }
        ensures last { self.new.last ≡ self.old.last }
        ensures noted { MatchResult result (λ _. Noted (AreOfEnd (TurnEnd.Ran turn.now.stack)) (N.noted notes.old) (N.noted notes.new)) (λ _. AddsSome (N.noted notes.old) (N.noted notes.new)) }
    {
        notes.note(LockMove::Run(turn.stack))?;
        note_any(self.take(turn), notes)?;
        let from = match notes.keeps() {
            true => Some(self.place_of(turn.stack)),
            false => None,
        };
        self.run_stack(turn, sink, devices)?;
        self.note_act(turn.stack, from, notes)?;
        Ok(())
    }

    // Gives the chosen stack the instance that it waits for, if it waits for one. It gives the stack's move.
    fn take(&mut self, turn: &Turn<'_>) -> Option<LockMove>
        requires { MayTake turn.now (vec_len self.old.stacks) self.old.places }
        ensures places { SameStandings self.old.places self.new.places }
        ensures runs { IsInTurn turn.now self.new.places }
        ensures stacks { self.new.stacks ≡ self.old.stacks }
        ensures last { self.new.last ≡ self.old.last }
        ensures moved { IfSome result (Takes turn.now.stack) }
    {
        let awaited = self.places.waits_for(turn.stack);
        self.places.take(turn.stack);
        taking(turn.stack, awaited)
    }

    // Notes the moves of a stack's act, which began at a place. Where moves aren't kept, none is given.
    fn note_act<N: MoveSink>(&self, stack: u16, from: Option<StackPlace>, notes: &mut N) -> Made<()>
        ensures { MatchResult result (λ _. Noted (IsAct stack) (N.noted notes.old) (N.noted notes.new)) (λ _. AddsSome (N.noted notes.old) (N.noted notes.new)) }
    {
        let Some(from) = from else {
            return Ok(());
        };
        let to = self.place_of(stack);
        let Some((departure, arrival)) = moves_between(stack, from, to) else {
            return Ok(());
        };
        notes.note(departure)?;
        notes.note(arrival)
    }

    // The stack is lent for its turn.
    fn run_stack<S: Sink>(
        &mut self,
        turn: &Turn<'_>,
        sink: &mut S,
        devices: &mut Vec<Box<dyn Device>>,
    ) -> Result<(), TurnFault>
        requires started { turn.now.stack < vec_len self.old.stacks }
        requires runs { IsInTurn turn.now self.old.places }
        ensures appended { WritesLines result (S.written sink.old) (S.written sink.new) }
        ensures count { CountsTurn result (S.faults sink.old) (S.faults sink.new) }
        ensures kinds { SameKinds (map (λ d. device_state d) devices.old.items) (map (λ d. device_state d) devices.new.items) }
        ensures places { OnOk result (SameStandings self.old.places self.new.places) }
        ensures stacks { vec_len self.new.stacks ≡ vec_len self.old.stacks }
        ensures last { self.new.last ≡ self.old.last }
    {
        let stack = &mut self.stacks[usize::from(turn.stack)];
        let before = depth_of(stack);
        let has_room = self.extra < ALL_FRAMES && usize::from(before) + 1 < FRAME_LIMIT;
        in_turn(
            turn,
            &mut self.places,
            &mut self.store,
            has_room,
            stack,
            sink,
            devices,
        )?;
        self.extra = self
            .extra
            .saturating_sub(before)
            .saturating_add(depth_of(stack));
        Ok(())
    }

    // Starts the stacks of the scene calls of this turn, then wakes the sleepers that are due.
    fn begin<N: MoveSink>(
        &mut self,
        setting: &Setting,
        plan: &Plan,
        turn: u32,
        notes: &mut N,
    ) -> Made<()>
        requires { HasBegun plan.now.calls.items setting.now.scene.calls.items self.old turn }
        ensures begun { OnOk result (HasBegun plan.now.calls.items setting.now.scene.calls.items self.new (turn + 1)) }
        ensures few { vec_len self.new.stacks < 65536 }
        ensures noted { MatchResult result (λ _. Noted (AreOfBeginning (vec_len self.old.stacks) (vec_len self.new.stacks)) (N.noted notes.old) (N.noted notes.new)) (λ _. AddsSome (N.noted notes.old) (N.noted notes.new)) }
    {
        self.start_stacks(setting, plan, turn, notes)?;
        self.wake(turn, notes)
    }

    // Starts the stacks of the scene calls of this turn.
    fn start_stacks<N: MoveSink>(
        &mut self,
        setting: &Setting,
        plan: &Plan,
        turn: u32,
        notes: &mut N,
    ) -> Made<()>
        requires { HasBegun plan.now.calls.items setting.now.scene.calls.items self.old turn }
        ensures begun { OnOk result (HasBegun plan.now.calls.items setting.now.scene.calls.items self.new (turn + 1)) }
        ensures few { vec_len self.new.stacks < 65536 }
        ensures noted { MatchResult result (λ _. Noted (AreStarts (vec_len self.old.stacks) (vec_len self.new.stacks)) (N.noted notes.old) (N.noted notes.new)) (λ _. AddsSome (N.noted notes.old) (N.noted notes.new)) }
    {
        let calls = plan.calls.as_slice();
        let first = self.stacks.len();
        for planned in &calls[first..] {
            if planned.turn > turn {
                break;
            }
            let moved = self.start(setting, *planned)?;
            notes.note(moved)?;
        }
        Ok(())
    }

    // Starts the stack of a scene call, which waits for the instance of the call.
    fn start(&mut self, setting: &Setting, planned: PlannedCall) -> Made<LockMove>
        requires room { vec_len self.old.stacks < self.old.places.room }
        requires few { vec_len self.old.stacks < 65536 }
        requires call { planned.number < vec_len setting.now.scene.calls }
        requires stands { Stands (vec_len self.old.stacks) self.old.last self.old.places }
        ensures by_one { OnOk result (vec_len self.new.stacks ≡ vec_len self.old.stacks + 1) }
        ensures stands { OnOk result (Stands (vec_len self.new.stacks) self.new.last self.new.places) }
        ensures at_most { vec_len self.new.stacks ≤ vec_len self.old.stacks + 1 }
        ensures room { self.new.places.room ≡ self.old.places.room }
        ensures moved { IfOk result (Begins (vec_len self.old.stacks)) }
    {
        let stack = self.stacks.len() as u16;
        let call = &setting.scene.calls[planned.number];
        let first = first_call(self.alloc, call, planned.name)?;
        self.stacks.push(first)?;
        Ok(self.go_to_wait(stack, Some(call.instance)))
    }

    // Lets a stack that stands nowhere wait for an instance, or run free where there is none.
    fn go_to_wait(&mut self, stack: u16, instance: Option<u16>) -> LockMove
        requires within { stack < self.old.places.room }
        requires away { IsAway self.old.places.lists stack }
        ensures places { StandsThen stack self.old.places self.new.places }
        ensures asleep { self.new.places.lists.asleep ≡ self.old.places.lists.asleep }
        ensures stacks { self.new.stacks ≡ self.old.stacks }
        ensures last { self.new.last ≡ self.old.last }
        ensures moved { Begins stack result }
    {
        let instance = self.places.if_there(instance);
        self.places.go_to_wait(stack, instance);
        waiting(stack, instance)
    }

    // Lets the sleepers that are due wait, in order of stack number.
    fn wake<N: MoveSink>(&mut self, turn: u32, notes: &mut N) -> Made<()>
        requires { Stands (vec_len self.old.stacks) self.old.last self.old.places }
        ensures stands { OnOk result (Stands (vec_len self.new.stacks) self.new.last self.new.places) }
        ensures room { self.new.places.room ≡ self.old.places.room }
        ensures stacks { vec_len self.new.stacks ≡ vec_len self.old.stacks }
        ensures noted { MatchResult result (λ _. Noted (AreWakes 0 (vec_len self.old.stacks)) (N.noted notes.old) (N.noted notes.new)) (λ _. AddsSome (N.noted notes.old) (N.noted notes.new)) }
    {
        while let Some(stack) = self.places.wake(turn) {
            let instance = self.instance_of(stack);
            let moved = self.go_to_wait(stack, instance);
            notes.note(moved)?;
        }
        Ok(())
    }

    // The instance of a stack's innermost frame.
    fn instance_of(&self, stack: u16) -> Option<u16> {
        self.stacks.get(usize::from(stack))?.instance()
    }
}

// The move of a stack that takes the instance for which it waits, if it waits for one.
fn taking(stack: u16, instance: Option<u16>) -> Option<LockMove>
    ensures { IfSome result (Takes stack) }
{
    match instance {
        Some(instance) => Some(LockMove::Take(stack, instance)),
        None => None,
    }
}

// The move of a stack that waits for an instance, or runs free.
fn waiting(stack: u16, instance: Option<u16>) -> LockMove
    ensures { Begins stack result }
{
    match instance {
        Some(instance) => LockMove::Join(stack, instance),
        None => LockMove::Free(stack),
    }
}

// The call of the scene with which a stack starts.
fn first_call(alloc: Global, call: &BoundCall, name: Option<usize>) -> Made<Stack> {
    let way = match name {
        Some(name) => CallWay::Method(name),
        None => CallWay::Missing,
    };
    Ok(Stack::ToEnter {
        call: Call {
            instance: Some(call.instance),
            way,
            arguments: copies(alloc, &call.arguments)?,
            kept: Some(Way::Method(call.function.try_clone(alloc)?)),
        },
        below: Vec::new(alloc),
    })
}

/// How many frames are below the innermost one of a stack.
pub fn depth_of(stack: &Stack) -> u16 {
    u16::try_from(stack.below().len()).unwrap_or(u16::MAX)
}
