//! The run of a stack, up to what ends its turn.
#![tactic(auto, using(crate::proofs::Sinks::sinks))]

ghost use Rattle.std.specs.Prelude.{◌≡◌, ◌+◌, ◌<◌, ◌^◌, [], ◌∷◌, IfOk, List, None, OnOk, Some, map, pred, slice_get};
ghost use Rattle.core_tree.specs.Values.{default_result};
ghost use Rattle.papy_io.specs.Sink.{Appended};
ghost use Rattle.script_meaning.specs.World.{Faulted};
ghost use Rattle.code_meaning.specs.LookUp.{BodyPlace};
ghost use Rattle.code_meaning.specs.Operands.{place_of};
ghost use Rattle.loaded_code.specs.declared.instruction.LoadedInstruction.{LoadedInstruction};
ghost use Rattle.body_runner.specs.Bodies.{home_of};
ghost use Rattle.body_runner.specs.Operands.{KeepsLoans};
ghost use Rattle.body_runner.specs.Rows.{LeavesAt};
ghost use Rattle.body_runner.specs.Sights.{IsThere};
ghost use Rattle.latent_natives.specs.Devices.{SameKinds};
ghost use Rattle.stack_machine.specs.Machine.{CountsTurn};
ghost use Rattle.stack_machine.specs.Runs.{bytes_of, from_halt, from_passes, from_place, is_pass, Answers, Follows, FrameStops, GivesAt, IsBodyAt, IsHalt, IsReady, MayRun, RunsTo, Stops};
ghost use Rattle.stack_machine.specs.declared.run.Act.TheVariants as acts;
ghost use Rattle.stack_machine.specs.Written.{WritesLines};

use crate::natives::{is_prompt, perform};
use crate::status::TurnFault;
use body_runner::{Call, Event, Frame, Home, Inner, Row, Step, Store, Turn, fault_line};
use core_tree::Value;
use latent_natives::Device;
use loaded_code::MethodPlace;
use papy_base::{Made, StackFault};
use papy_io::Sink;

/// What ends the turn of a body.
#[derive(Drop)]
pub enum Act {
    /// A loop pass.
    Pass,
    /// A call that needs a frame.
    Call(Call),
    /// A global native that isn't prompt is to be performed.
    Native {
        at: MethodPlace,
        arguments: Vec<Value>,
    },
    /// The body gives this value.
    Return(Value),
}

// Where a body halts, and what it comes to there.
#[derive(Drop)]
struct Halt {
    at: usize,
    act: Act,
}

/// Runs a body up to the act that ends the turn. The reply that it awaits is stored first, and it goes on behind its act. One
/// without a function returns None.
pub fn run<S: Sink>(
    turn: &Turn<'_>,
    store: &mut Store,
    has_room: bool,
    innermost: &mut Frame,
    reply: Option<Value>,
    sink: &mut S,
    devices: &mut Vec<Box<dyn Device>>,
) -> Result<Act, TurnFault>
    ensures appended { WritesLines result (S.written sink.old) (S.written sink.new) }
    ensures count { CountsTurn result (S.faults sink.old) (S.faults sink.new) }
    ensures kinds { SameKinds (map (λ d. device_state d) devices.old.items) (map (λ d. device_state d) devices.new.items) }
    ensures ran { MayRun turn.now innermost.old store.old.instances → IfOk result (λ act. FrameStops turn.now has_room reply act (map (λ d. device_state d) devices.old.items) (map (λ d. device_state d) devices.new.items) (S.written sink.old) (S.written sink.new) innermost.old innermost.new store.old store.new) }
{
    let Some(function) = turn.setting.function(innermost.body) else {
        drop(reply);
        return Ok(Act::Return(Value::NoneValue));
    };
    let home = Home {
        turn,
        function,
        instance: innermost.instance,
        script: innermost.body.script(),
        has_room,
    };
    let place = innermost.place;
    let halt = run_from(
        &home,
        &mut innermost.slots,
        store,
        place,
        reply,
        sink,
        devices,
    )?;
    innermost.place = halt.at;
    Ok(halt.act)
}

// Runs a body from the place of an act. The reply that it awaits is stored first, and it goes on behind its act.
fn run_from<S: Sink>(
    home: &Home<'_>,
    slots: &mut Vec<Value>,
    store: &mut Store,
    from: usize,
    reply: Option<Value>,
    sink: &mut S,
    devices: &mut Vec<Box<dyn Device>>,
) -> Result<Halt, TurnFault>
    ensures appended { WritesLines result (S.written sink.old) (S.written sink.new) }
    ensures count { CountsTurn result (S.faults sink.old) (S.faults sink.new) }
    ensures kinds { SameKinds (map (λ d. device_state d) devices.old.items) (map (λ d. device_state d) devices.new.items) }
    ensures stops { (place : BodyPlace) → IsBodyAt home.now place → IsReady home.now store.old.instances → from + 1 < 2 ^ 64 → IfOk result (λ halt. Stops home.now place from reply halt (map (λ d. device_state d) devices.old.items) (map (λ d. device_state d) devices.new.items) (S.written sink.old) (S.written sink.new) slots.old.items slots.new.items store.old store.new) }
{
    let mut inner = Inner { slots, store };
    match reply {
        Some(reply) => resume(home, &mut inner, from, reply, sink, devices),
        None => run_on(home, &mut inner, from, sink, devices),
    }
}

// Stores the reply that a body awaits, and runs it on behind its act.
fn resume<S: Sink>(
    home: &Home<'_>,
    inner: &mut Inner<'_>,
    from: usize,
    reply: Value,
    sink: &mut S,
    devices: &mut Vec<Box<dyn Device>>,
) -> Result<Halt, TurnFault>
    ensures appended { WritesLines result (S.written sink.old) (S.written sink.new) }
    ensures count { CountsTurn result (S.faults sink.old) (S.faults sink.new) }
    ensures kinds { SameKinds (map (λ d. device_state d) devices.old.items) (map (λ d. device_state d) devices.new.items) }
    ensures loans { IsReady home.now inner.old.store.now.instances → OnOk result (KeepsLoans inner.old inner.new) }
    ensures stops { (place : BodyPlace) → IsBodyAt home.now place → IsReady home.now inner.old.store.now.instances → from + 1 < 2 ^ 64 → IfOk result (λ halt. Stops home.now place from (Some reply) halt (map (λ d. device_state d) devices.old.items) (map (λ d. device_state d) devices.new.items) (S.written sink.old) (S.written sink.new) inner.old.slots.now.items inner.new.slots.now.items inner.old.store.now inner.new.store.now) }
{
    give(home, inner, from, reply)?;
    run_on(home, inner, from.saturating_add(1), sink, devices)
}

// Stores the reply to the act at a place.
fn give(home: &Home<'_>, inner: &mut Inner<'_>, place: usize, reply: Value) -> Made<()>
    ensures { IsThere home.now.instance inner.old.store.now.instances → OnOk result (GivesAt home.now (slice_get home.now.function.now.code.items place) reply inner.old inner.new) }
{
    match home.function.code.get(place) {
        Some(call) => home.give(inner, call, reply),
        None => {
            drop(reply);
            Ok(())
        }
    }
}

// Runs a body up to the act that ends its turn, which a loop pass does only as the last that the turn may have.
fn run_on<S: Sink>(
    home: &Home<'_>,
    inner: &mut Inner<'_>,
    from: usize,
    sink: &mut S,
    devices: &mut Vec<Box<dyn Device>>,
) -> Result<Halt, TurnFault>
    ensures appended { WritesLines result (S.written sink.old) (S.written sink.new) }
    ensures count { CountsTurn result (S.faults sink.old) (S.faults sink.new) }
    ensures kinds { SameKinds (map (λ d. device_state d) devices.old.items) (map (λ d. device_state d) devices.new.items) }
    ensures ran { IsReady home.now inner.old.store.now.instances → IfOk result (λ halt. RunsTo home.now (from_passes home.now (pred home.now.turn.now.setting.now.scene.quantum) from inner.old (map (λ d. device_state d) devices.old.items)) halt (map (λ d. device_state d) devices.new.items) (S.written sink.old) (S.written sink.new) inner.old inner.new) }
    ensures loans { IsReady home.now inner.old.store.now.instances → OnOk result (KeepsLoans inner.old inner.new) }
    ensures stops { (place : BodyPlace) → IsBodyAt home.now place → IsReady home.now inner.old.store.now.instances → IfOk result (λ halt. Stops home.now place from None halt (map (λ d. device_state d) devices.old.items) (map (λ d. device_state d) devices.new.items) (S.written sink.old) (S.written sink.new) inner.old.slots.now.items inner.new.slots.now.items inner.old.store.now inner.new.store.now) }
{
    let mut place = from;
    let mut left = home.turn.setting.scene.quantum.saturating_sub(1);
    while left > 0 {
        let halt = run_pass(home, inner, place, sink, devices)?;
        if !is_pass(&halt.act) {
            return Ok(halt);
        }
        place = halt.at;
        drop(halt);
        left -= 1;
    }
    run_pass(home, inner, place, sink, devices)
}

fn is_pass(act: &Act) -> bool
    ensures { result ≡ is_pass act.now }
{
    match act {
        Act::Pass => true,
        Act::Call(_) => false,
        Act::Native { .. } => false,
        Act::Return(_) => false,
    }
}

// Runs a body up to the next act. Places only rise.
fn run_pass<S: Sink>(
    home: &Home<'_>,
    inner: &mut Inner<'_>,
    from: usize,
    sink: &mut S,
    devices: &mut Vec<Box<dyn Device>>,
) -> Result<Halt, TurnFault>
    ensures appended { WritesLines result (S.written sink.old) (S.written sink.new) }
    ensures count { CountsTurn result (S.faults sink.old) (S.faults sink.new) }
    ensures kinds { SameKinds (map (λ d. device_state d) devices.old.items) (map (λ d. device_state d) devices.new.items) }
    ensures ran { IsReady home.now inner.old.store.now.instances → IfOk result (λ halt. RunsTo home.now (from_place home.now from inner.old (map (λ d. device_state d) devices.old.items)) halt (map (λ d. device_state d) devices.new.items) (S.written sink.old) (S.written sink.new) inner.old inner.new) }
{
    let code = home.function.code.as_slice();
    let mut place = from;
    while place < code.len() {
        let row = home.run_row(inner, place)?;
        if let Some(halt) = follow(home, inner, sink, devices, row)? {
            return Ok(halt);
        }
        place = row.place + 1;
    }
    Ok(returned(home, place)?)
}

// A body that ends without a return gives the default of its type.
fn returned(home: &Home<'_>, place: usize) -> Made<Halt>
    ensures { IfOk result (λ halt. halt ≡ record { at = place; act = acts.Return (default_result home.now.function.now.result) }) }
{
    let value = Value::default_of(home.turn.alloc, home.function.result)?;
    Ok(Halt {
        at: place,
        act: Act::Return(value),
    })
}

// Does what follows a row of instructions, none where the next instruction does. A jump that doesn't lead ahead
// is a loop pass.
fn follow<S: Sink>(
    home: &Home<'_>,
    inner: &mut Inner<'_>,
    sink: &mut S,
    devices: &mut Vec<Box<dyn Device>>,
    row: Row,
) -> Result<Option<Halt>, TurnFault>
    ensures appended { WritesLines result (S.written sink.old) (S.written sink.new) }
    ensures count { CountsTurn result (S.faults sink.old) (S.faults sink.new) }
    ensures kinds { SameKinds (map (λ d. device_state d) devices.old.items) (map (λ d. device_state d) devices.new.items) }
    ensures follows { IsReady home.now inner.old.store.now.instances → IsHalt home.now row.place row.halt → IfOk result (λ halt. Follows home.now (from_halt home.now row.place row.halt inner.old (map (λ d. device_state d) devices.old.items)) row.place halt (map (λ d. device_state d) devices.new.items) (S.written sink.old) (S.written sink.new) inner.old inner.new) }
{
    match row.halt {
        Step::Done => Ok(Some(returned(home, row.place)?)),
        Step::Jump(landing) => Ok(Some(Halt {
            at: usize::from(landing),
            act: Act::Pass,
        })),
        Step::Faulted(fault) => refuse(home, row.place, sink, fault),
        Step::Leaves => leave(home, inner, row.place, sink, devices),
    }
}

// Runs the instruction at a place, which calls or returns.
fn leave<S: Sink>(
    home: &Home<'_>,
    inner: &mut Inner<'_>,
    place: usize,
    sink: &mut S,
    devices: &mut Vec<Box<dyn Device>>,
) -> Result<Option<Halt>, TurnFault>
    ensures appended { WritesLines result (S.written sink.old) (S.written sink.new) }
    ensures count { CountsTurn result (S.faults sink.old) (S.faults sink.new) }
    ensures kinds { SameKinds (map (λ d. device_state d) devices.old.items) (map (λ d. device_state d) devices.new.items) }
    ensures follows { IsReady home.now inner.old.store.now.instances → LeavesAt home.now place → IfOk result (λ halt. Follows home.now (from_place home.now place inner.old (map (λ d. device_state d) devices.old.items)) place halt (map (λ d. device_state d) devices.new.items) (S.written sink.old) (S.written sink.new) inner.old inner.new) }
{
    let Some(instruction) = home.function.code.get(place) else {
        return Ok(Some(returned(home, place)?));
    };
    match home.leave(inner, instruction)? {
        Event::Refused(fault) => refuse(home, place, sink, fault),
        Event::Called(call) => Ok(Some(Halt {
            at: place,
            act: Act::Call(call),
        })),
        Event::Returned(value) => Ok(Some(Halt {
            at: place,
            act: Act::Return(value),
        })),
        Event::Native { at, arguments } => {
            if !is_prompt(home.turn.setting, at) {
                return Ok(Some(Halt {
                    at: place,
                    act: Act::Native { at, arguments },
                }));
            }
            let halt = answer_native(home, inner, place, at, &arguments, sink, devices);
            drop(arguments);
            halt
        }
    }
}

// Performs a global native that is prompt. That is no act: its reply is stored, and the next instruction follows.
fn answer_native<S: Sink>(
    home: &Home<'_>,
    inner: &mut Inner<'_>,
    place: usize,
    native: MethodPlace,
    arguments: &[Value],
    sink: &mut S,
    devices: &mut Vec<Box<dyn Device>>,
) -> Result<Option<Halt>, TurnFault>
    ensures appended { WritesLines result (S.written sink.old) (S.written sink.new) }
    ensures count { CountsTurn result (S.faults sink.old) (S.faults sink.new) }
    ensures kinds { SameKinds (map (λ d. device_state d) devices.old.items) (map (λ d. device_state d) devices.new.items) }
    ensures none { IfOk result (λ halt. halt ≡ None) }
    ensures answered { IsReady home.now inner.old.store.now.instances → (call : LoadedInstruction) → slice_get home.now.function.now.code.items place ≡ Some call → OnOk result (Answers home.now call native arguments.now (map (λ d. device_state d) devices.old.items) (map (λ d. device_state d) devices.new.items) (S.written sink.old) (S.written sink.new) inner.old inner.new) }
{
    let reply = perform(home.turn, native, arguments, sink, devices)?;
    give(home, inner, place, reply)?;
    Ok(None)
}

// Writes a fault of the instruction at a place, behind which the body goes on.
fn refuse<S: Sink>(
    home: &Home<'_>,
    place: usize,
    sink: &mut S,
    fault: StackFault,
) -> Result<Option<Halt>, TurnFault>
    ensures appended { WritesLines result (S.written sink.old) (S.written sink.new) }
    ensures count { CountsTurn result (S.faults sink.old) (S.faults sink.new) }
    ensures none { IfOk result (λ halt. halt ≡ None) }
    ensures prints { OnOk result (Appended (bytes_of (Faulted home.now.turn.now.stack (place_of (home_of home.now) place) fault ∷ [])) (S.written sink.old) (S.written sink.new)) }
{
    let line = fault_line(home, place, fault)?;
    sink.write(line.as_slice())?;
    Ok(None)
}
