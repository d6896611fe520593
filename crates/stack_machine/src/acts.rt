//! What the acts of a stack in its turn do to its frames and its place.

ghost use Rattle.std.specs.Prelude.{◌≡◌};
ghost use Rattle.stack_places.specs.Places.{SameStandings};
ghost use Rattle.stack_machine.specs.Entering.{arguments_in};
ghost use Rattle.stack_machine.specs.Standing.{IsInTurn};

use body_runner::{Call, CallWay, Frame, LoadedBody, Stack, Turn};
use core_tree::Value;
use loaded_code::LoadedFunction;
use papy_base::Made;
use stack_places::Places;
use std::alloc::Global;
use std::mem;

/// Opens the body that the innermost call of a stack found. The call's arguments are its first slots, and its locals begin with their
/// defaults.
pub fn opened(
    turn: &Turn<'_>,
    stack: &mut Stack,
    body: LoadedBody,
    function: &LoadedFunction,
) -> Made<()> {
    let instance = stack.instance();
    let mut slots = arguments_out(turn.alloc, stack);
    for (_, kind) in &function.locals {
        slots.push(Value::default_of(turn.alloc, *kind)?)?;
    }
    let below = below_out(turn.alloc, stack);
    *stack = Stack::Running {
        innermost: Frame {
            instance,
            body,
            place: 0,
            slots,
        },
        reply: None,
        below,
    };
    Ok(())
}

/// Puts a call on a stack whose innermost body made it.
pub fn called(turn: &Turn<'_>, places: &mut Places, stack: &mut Stack, call: Call) -> Made<()>
    requires { IsInTurn turn.now places.old }
    ensures { SameStandings places.old places.new }
{
    leave_for(turn, places, call.way, stack.instance(), call.instance);
    let below = frames_out(turn.alloc, stack)?;
    *stack = Stack::ToEnter { call, below };
    Ok(())
}

// A stack goes over to the instance of a call that it made. A call of the parent's method keeps the lock.
fn leave_for(turn: &Turn<'_>, places: &mut Places, way: CallWay, from: Option<u16>, to: Option<u16>)
    requires { IsInTurn turn.now places.old }
    ensures { SameStandings places.old places.new }
{
    match way {
        CallWay::Parent { .. } => {}
        CallWay::Method(_) => go_over(turn, places, from, to),
        CallWay::Global(_) => go_over(turn, places, from, to),
        CallWay::Get(_) => go_over(turn, places, from, to),
        CallWay::Set(_) => go_over(turn, places, from, to),
        CallWay::Missing => go_over(turn, places, from, to),
    }
}

fn go_over(turn: &Turn<'_>, places: &mut Places, from: Option<u16>, to: Option<u16>)
    requires { IsInTurn turn.now places.old }
    ensures { SameStandings places.old places.new }
{
    let to = places.if_there(to);
    places.go_over(turn.stack, from, to);
}

/// Takes off the innermost frame of a stack, which gave a value. The frame below it takes the value, and where there is none
/// the stack is done.
pub fn returned(turn: &Turn<'_>, places: &mut Places, stack: &mut Stack, value: Value)
    requires { IsInTurn turn.now places.old }
    ensures { SameStandings places.old places.new }
{
    let own = stack.instance();
    let mut below = below_out(turn.alloc, stack);
    match below.pop() {
        Some(caller) => {
            go_over(turn, places, own, caller.instance);
            answer(stack, caller, value, below);
        }
        None => end(turn, places, stack, value),
    }
}

/// Lets a stack rest after a native that isn't prompt. Its innermost body takes the native's reply, or where the native itself was
/// called the frame below that call.
pub fn rested(turn: &Turn<'_>, places: &mut Places, stack: &mut Stack, latency: u32, value: Value)
    requires { IsInTurn turn.now places.old }
    ensures { SameStandings places.old places.new }
{
    if let Stack::Running {
        innermost,
        reply,
        ..
    } = stack
    {
        rest(turn, places, latency, innermost.instance);
        *reply = Some(value);
        return;
    }
    let mut below = below_out(turn.alloc, stack);
    match below.pop() {
        Some(caller) => {
            rest(turn, places, latency, caller.instance);
            answer(stack, caller, value, below);
        }
        None => end(turn, places, stack, value),
    }
}

// The turns of all runs and of all natives are far fewer than the most that a number tells.
fn rest(turn: &Turn<'_>, places: &mut Places, latency: u32, instance: Option<u16>)
    requires { IsInTurn turn.now places.old }
    ensures { SameStandings places.old places.new }
{
    let latency = latency.min(u32::MAX - 1 - turn.number);
    let instance = places.if_there(instance);
    places.rest(turn.stack, turn.number, latency, instance);
}

// A frame is given a value, with which its stack goes on.
fn answer(stack: &mut Stack, caller: Frame, value: Value, below: Vec<Frame>) {
    *stack = Stack::Running {
        innermost: caller,
        reply: Some(value),
        below,
    };
}

// No frame is left that could take the value.
fn end(turn: &Turn<'_>, places: &mut Places, stack: &mut Stack, value: Value)
    requires { IsInTurn turn.now places.old }
    ensures { SameStandings places.old places.new }
{
    drop(value);
    places.finish(turn.stack);
    *stack = Stack::Done;
}

// ---- what is taken out of a stack that changes

/// The arguments of a stack's innermost call.
pub fn arguments_out(alloc: Global, stack: &mut Stack) -> Vec<Value>
    ensures { result.items ≡ arguments_in stack.old }
{
    match stack {
        Stack::ToEnter { call, .. } => mem::replace(&mut call.arguments, Vec::new(alloc)),
        _ => Vec::new(alloc),
    }
}

// The frames below the innermost one.
fn below_out(alloc: Global, stack: &mut Stack) -> Vec<Frame> {
    match stack {
        Stack::Done => Vec::new(alloc),
        Stack::ToEnter { below, .. } => mem::replace(below, Vec::new(alloc)),
        Stack::Running { below, .. } => mem::replace(below, Vec::new(alloc)),
    }
}

// All open bodies, the innermost one last.
fn frames_out(alloc: Global, stack: &mut Stack) -> Made<Vec<Frame>> {
    let mut frames = below_out(alloc, stack);
    if let Stack::Running { innermost, .. } = stack {
        frames.push(Frame {
            instance: innermost.instance,
            body: innermost.body,
            place: innermost.place,
            slots: mem::replace(&mut innermost.slots, Vec::new(alloc)),
        })?;
    }
    Ok(frames)
}
