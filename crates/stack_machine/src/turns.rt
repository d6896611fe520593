//! The turn of a stack: its innermost call is entered, or its innermost body goes on, up to an act, which is done.
#![tactic(auto, using(crate::proofs::Sinks::sinks))]

ghost use Rattle.std.specs.Prelude.{OnOk, map};
ghost use Rattle.latent_natives.specs.Devices.{SameKinds};
ghost use Rattle.stack_machine.specs.Entering.{arguments_in, PerformsOnce};
ghost use Rattle.stack_machine.specs.Machine.{CountsTurn};
ghost use Rattle.stack_machine.specs.Runs.{AreBound};
ghost use Rattle.stack_machine.specs.Standing.{IsInTurn};
ghost use Rattle.stack_machine.specs.Written.{WritesLines};
ghost use Rattle.stack_places.specs.Places.{SameStandings};

use crate::acts::{arguments_out, called, opened, rested, returned};
use crate::entry::{Entry, entry_of};
use crate::natives::{is_prompt, latency_of, perform};
use crate::run::{Act, run};
use crate::status::TurnFault;
use body_runner::{Stack, Store, Turn};
use core_tree::Value;
use latent_natives::Device;
use loaded_code::MethodPlace;
use papy_base::Made;
use papy_io::Sink;
use stack_places::Places;
use std::mem;

/// Does the turn of a stack. One that is done stays so, and is never chosen.
pub fn in_turn<S: Sink>(
    turn: &Turn<'_>,
    places: &mut Places,
    store: &mut Store,
    has_room: bool,
    stack: &mut Stack,
    sink: &mut S,
    devices: &mut Vec<Box<dyn Device>>,
) -> Result<(), TurnFault>
    requires { IsInTurn turn.now places.old }
    ensures appended { WritesLines result (S.written sink.old) (S.written sink.new) }
    ensures count { CountsTurn result (S.faults sink.old) (S.faults sink.new) }
    ensures kinds { SameKinds (map (λ d. device_state d) devices.old.items) (map (λ d. device_state d) devices.new.items) }
    ensures places { OnOk result (SameStandings places.old places.new) }
{
    match stack {
        Stack::Done => Ok(()),
        Stack::ToEnter { call, .. } => {
            let entry = entry_of(turn.setting, store, call);
            entered(turn, places, store, has_room, stack, entry, sink, devices)
        }
        Stack::Running { .. } => ran(turn, places, store, has_room, stack, sink, devices),
    }
}

// Enters the innermost call of a stack, which found this.
fn entered<S: Sink>(
    turn: &Turn<'_>,
    places: &mut Places,
    store: &mut Store,
    has_room: bool,
    stack: &mut Stack,
    entry: Entry<'_>,
    sink: &mut S,
    devices: &mut Vec<Box<dyn Device>>,
) -> Result<(), TurnFault>
    requires { IsInTurn turn.now places.old }
    ensures appended { WritesLines result (S.written sink.old) (S.written sink.new) }
    ensures count { CountsTurn result (S.faults sink.old) (S.faults sink.new) }
    ensures kinds { SameKinds (map (λ d. device_state d) devices.old.items) (map (λ d. device_state d) devices.new.items) }
    ensures places { OnOk result (SameStandings places.old places.new) }
{
    match entry {
        Entry::Body(body, function) => {
            opened(turn, stack, body, function)?;
            ran(turn, places, store, has_room, stack, sink, devices)
        }
        Entry::Native(at) => native_entered(turn, places, stack, at, sink, devices),
        Entry::Read { script, variable } => {
            let value = read(store, stack.instance(), script, variable)?;
            returned(turn, places, stack, value);
            Ok(())
        }
        Entry::Write { script, variable } => {
            let value = first_of(arguments_out(turn.alloc, stack));
            write(store, stack.instance(), script, variable, value);
            returned(turn, places, stack, Value::NoneValue);
            Ok(())
        }
        Entry::Nothing => {
            returned(turn, places, stack, Value::NoneValue);
            Ok(())
        }
    }
}

// Performs the native function that the innermost call of a stack found. Where that is prompt it returns at once.
fn native_entered<S: Sink>(
    turn: &Turn<'_>,
    places: &mut Places,
    stack: &mut Stack,
    at: MethodPlace,
    sink: &mut S,
    devices: &mut Vec<Box<dyn Device>>,
) -> Result<(), TurnFault>
    requires { IsInTurn turn.now places.old }
    ensures appended { WritesLines result (S.written sink.old) (S.written sink.new) }
    ensures count { CountsTurn result (S.faults sink.old) (S.faults sink.new) }
    ensures kinds { SameKinds (map (λ d. device_state d) devices.old.items) (map (λ d. device_state d) devices.new.items) }
    ensures places { OnOk result (SameStandings places.old places.new) }
    ensures performed { AreBound turn.now.setting.now → OnOk result (PerformsOnce turn.now at (arguments_in stack.old) (map (λ d. device_state d) devices.old.items) (map (λ d. device_state d) devices.new.items) (S.written sink.old) (S.written sink.new)) }
{
    let arguments = arguments_out(turn.alloc, stack);
    if !is_prompt(turn.setting, at) {
        return native_done(turn, places, stack, at, arguments, sink, devices);
    }
    let value = perform(turn, at, &arguments, sink, devices)?;
    drop(arguments);
    returned(turn, places, stack, value);
    Ok(())
}

// Performs a native that isn't prompt, and lets its stack rest.
fn native_done<S: Sink>(
    turn: &Turn<'_>,
    places: &mut Places,
    stack: &mut Stack,
    at: MethodPlace,
    arguments: Vec<Value>,
    sink: &mut S,
    devices: &mut Vec<Box<dyn Device>>,
) -> Result<(), TurnFault>
    requires { IsInTurn turn.now places.old }
    ensures appended { WritesLines result (S.written sink.old) (S.written sink.new) }
    ensures count { CountsTurn result (S.faults sink.old) (S.faults sink.new) }
    ensures kinds { SameKinds (map (λ d. device_state d) devices.old.items) (map (λ d. device_state d) devices.new.items) }
    ensures places { OnOk result (SameStandings places.old places.new) }
    ensures performed { AreBound turn.now.setting.now → OnOk result (PerformsOnce turn.now at arguments.items (map (λ d. device_state d) devices.old.items) (map (λ d. device_state d) devices.new.items) (S.written sink.old) (S.written sink.new)) }
{
    let value = perform(turn, at, &arguments, sink, devices)?;
    let latency = latency_of(turn.setting, at, &arguments);
    drop(arguments);
    rested(turn, places, stack, latency, value);
    Ok(())
}

fn first_of(arguments: Vec<Value>) -> Value {
    let mut arguments = arguments;
    match arguments.first_mut() {
        Some(value) => mem::replace(value, Value::NoneValue),
        None => Value::NoneValue,
    }
}

fn read(store: &Store, own: Option<u16>, script: u16, variable: u16) -> Made<Value> {
    match own {
        Some(instance) => store.variable(instance, script, variable),
        None => Ok(Value::NoneValue),
    }
}

fn write(store: &mut Store, own: Option<u16>, script: u16, variable: u16, value: Value) {
    match own {
        Some(instance) => store.set_variable(instance, script, variable, value),
        None => drop(value),
    }
}

// Runs the innermost body of a stack to its next act, and does that.
fn ran<S: Sink>(
    turn: &Turn<'_>,
    places: &mut Places,
    store: &mut Store,
    has_room: bool,
    stack: &mut Stack,
    sink: &mut S,
    devices: &mut Vec<Box<dyn Device>>,
) -> Result<(), TurnFault>
    requires { IsInTurn turn.now places.old }
    ensures appended { WritesLines result (S.written sink.old) (S.written sink.new) }
    ensures count { CountsTurn result (S.faults sink.old) (S.faults sink.new) }
    ensures kinds { SameKinds (map (λ d. device_state d) devices.old.items) (map (λ d. device_state d) devices.new.items) }
    ensures places { OnOk result (SameStandings places.old places.new) }
{
    let Stack::Running {
        innermost,
        reply,
        ..
    } = stack
    else {
        return Ok(());
    };
    let reply = reply.take();
    let act = run(turn, store, has_room, innermost, reply, sink, devices)?;
    acted(turn, places, stack, act, sink, devices)
}

// Does the act to which the innermost body of a stack came. After a loop pass the stack stays as it is.
fn acted<S: Sink>(
    turn: &Turn<'_>,
    places: &mut Places,
    stack: &mut Stack,
    act: Act,
    sink: &mut S,
    devices: &mut Vec<Box<dyn Device>>,
) -> Result<(), TurnFault>
    requires { IsInTurn turn.now places.old }
    ensures appended { WritesLines result (S.written sink.old) (S.written sink.new) }
    ensures count { CountsTurn result (S.faults sink.old) (S.faults sink.new) }
    ensures kinds { SameKinds (map (λ d. device_state d) devices.old.items) (map (λ d. device_state d) devices.new.items) }
    ensures places { OnOk result (SameStandings places.old places.new) }
{
    match act {
        Act::Pass => Ok(()),
        Act::Call(call) => Ok(called(turn, places, stack, call)?),
        Act::Native { at, arguments } => {
            native_done(turn, places, stack, at, arguments, sink, devices)
        }
        Act::Return(value) => {
            returned(turn, places, stack, value);
            Ok(())
        }
    }
}
