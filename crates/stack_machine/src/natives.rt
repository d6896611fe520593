//! What native functions do.
#![tactic(auto, using(crate::proofs::Sinks::sinks))]

ghost use Rattle.std.specs.Prelude.{◌≡◌, IfOk, OnErr, OnOk, map};
ghost use Rattle.core_tree.specs.declared.value.Value.TheVariants as values;
ghost use Rattle.latent_natives.specs.Devices.{SameKinds};
ghost use Rattle.papy_io.specs.Sink.{Appended};
ghost use Rattle.stack_machine.specs.Machine.{CountsTurn};
ghost use Rattle.stack_machine.specs.Natives.{called_device, device_reply, devices_after, devices_called, first_number, is_prompt, latency_of, line_of, reply_called, reply_value, result_of, traced, turns_asleep};
ghost use Rattle.body_runner.specs.Settings.{binding_in};
ghost use Rattle.body_runner.specs.Values.{number_in};
ghost use Rattle.script_meaning.specs.Requests as meant;
ghost use Rattle.stack_machine.specs.Runs.{native_at, AreBound, Performs};
ghost use Rattle.stack_machine.specs.Written.{WritesLines};

use crate::status::TurnFault;
use body_runner::{Setting, Turn, number_of, trace_line};
use core_tree::{Binding, CoreType, Value};
use latent_natives::{Device, call_device};
use loaded_code::MethodPlace;
use papy_base::Made;
use papy_io::Sink;
use std::alloc::Global;

/// The longest latency, in turns.
const LONGEST_SLEEP: i32 = 1_000_000;

/// Whether a native is prompt: its reply comes at once, and no act.
pub fn is_prompt(setting: &Setting, native: MethodPlace) -> bool
    ensures table { result ≡ is_prompt (binding_in setting.now.bindings.natives.items native) }
    ensures meant { AreBound setting.now → result ≡ meant.is_prompt (meant.binding_in setting.now.scene.natives.items (native_at native)) }
{
    match setting.bindings.of_native(native) {
        Some(Binding::PromptTrace) => true,
        Some(Binding::PromptDevice { .. }) => true,
        Some(Binding::Sleep) => false,
        Some(Binding::Trace { .. }) => false,
        Some(Binding::Device { .. }) => false,
        None => false,
    }
}

/// For how many turns a stack sleeps after a native that isn't prompt.
pub fn latency_of(setting: &Setting, native: MethodPlace, arguments: &[Value]) -> u32
    ensures table { result ≡ latency_of (binding_in setting.now.bindings.natives.items native) arguments.now }
    ensures meant { AreBound setting.now → result ≡ meant.latency_of (meant.binding_in setting.now.scene.natives.items (native_at native)) arguments.now }
{
    match setting.bindings.of_native(native) {
        Some(Binding::Sleep) => sleep_of(arguments),
        Some(Binding::Trace { latency }) => latency,
        Some(Binding::Device { latency, .. }) => latency,
        Some(Binding::PromptTrace) => 0,
        Some(Binding::PromptDevice { .. }) => 0,
        None => 0,
    }
}

/// Performs a native, once, and gives its reply.
pub fn perform<S: Sink>(
    turn: &Turn<'_>,
    native: MethodPlace,
    arguments: &[Value],
    sink: &mut S,
    devices: &mut Vec<Box<dyn Device>>,
) -> Result<Value, TurnFault>
    ensures appended { WritesLines result (S.written sink.old) (S.written sink.new) }
    ensures count { CountsTurn result (S.faults sink.old) (S.faults sink.new) }
    ensures kinds { SameKinds (map (λ d. device_state d) devices.old.items) (map (λ d. device_state d) devices.new.items) }
    ensures performed { AreBound turn.now.setting.now → IfOk result (λ reply. Performs turn.now native arguments.now reply (map (λ d. device_state d) devices.old.items) (map (λ d. device_state d) devices.new.items) (S.written sink.old) (S.written sink.new)) }
{
    let binding = turn.setting.bindings.of_native(native);
    perform_bound(turn, native, binding, arguments, sink, devices)
}

// Performs a native that is bound so.
fn perform_bound<S: Sink>(
    turn: &Turn<'_>,
    native: MethodPlace,
    binding: Option<Binding>,
    arguments: &[Value],
    sink: &mut S,
    devices: &mut Vec<Box<dyn Device>>,
) -> Result<Value, TurnFault>
    ensures appended { WritesLines result (S.written sink.old) (S.written sink.new) }
    ensures count { CountsTurn result (S.faults sink.old) (S.faults sink.new) }
    ensures kinds { SameKinds (map (λ d. device_state d) devices.old.items) (map (λ d. device_state d) devices.new.items) }
    ensures line { OnOk result (Appended (line_of binding turn.now.stack arguments.now) (S.written sink.old) (S.written sink.new)) }
    ensures devices { OnOk result (map (λ d. device_state d) devices.new.items ≡ devices_called (called_device binding) (map (λ d. device_state d) devices.old.items) arguments.now) }
    ensures reply { let kind = result_of turn.now.setting.now.loaded.outline native in
        IfOk result (λ reply. reply ≡ reply_called (called_device binding) (map (λ d. device_state d) devices.old.items) arguments.now kind) }
{
    match binding {
        Some(Binding::Sleep) => Ok(Value::NoneValue),
        Some(Binding::Trace { .. }) => trace(turn, arguments, sink),
        Some(Binding::PromptTrace) => trace(turn, arguments, sink),
        Some(Binding::Device { device, .. }) => {
            let reply = call(turn.alloc, device, arguments, devices)?;
            Ok(value_of(result_of(turn.setting, native), reply))
        }
        Some(Binding::PromptDevice { device }) => {
            let reply = call(turn.alloc, device, arguments, devices)?;
            Ok(value_of(result_of(turn.setting, native), reply))
        }
        None => Ok(Value::NoneValue),
    }
}

// The argument of a sleep, cut to what it may be.
fn sleep_of(arguments: &[Value]) -> u32
    ensures { result ≡ turns_asleep (first_number arguments.now) }
{
    let asked = match arguments.first() {
        Some(value) => number_of(value),
        None => 0,
    };
    if asked <= 0 {
        return 0;
    }
    asked.min(LONGEST_SLEEP).cast_unsigned()
}

fn trace<S: Sink>(turn: &Turn<'_>, arguments: &[Value], sink: &mut S) -> Result<Value, TurnFault>
    ensures appended { WritesLines result (S.written sink.old) (S.written sink.new) }
    ensures count { CountsTurn result (S.faults sink.old) (S.faults sink.new) }
    ensures line { OnOk result (Appended (traced turn.now.stack arguments.now) (S.written sink.old) (S.written sink.new)) }
    ensures reply { IfOk result (λ reply. reply ≡ values.NoneValue) }
{
    let Some(Value::Text(text)) = arguments.first() else {
        return Ok(Value::NoneValue);
    };
    let line = trace_line(turn.alloc, turn.stack, text)?;
    sink.write(line.as_slice())?;
    Ok(Value::NoneValue)
}

// The reply of a device, 0 where it isn't there.
fn call(
    alloc: Global,
    device: u16,
    arguments: &[Value],
    devices: &mut Vec<Box<dyn Device>>,
) -> Made<i32>
    ensures kinds { SameKinds (map (λ d. device_state d) devices.old.items) (map (λ d. device_state d) devices.new.items) }
    ensures reply { IfOk result (λ reply. reply ≡ device_reply (map (λ d. device_state d) devices.old.items) device arguments.now) }
    ensures after { OnOk result (map (λ d. device_state d) devices.new.items ≡ devices_after (map (λ d. device_state d) devices.old.items) device arguments.now) }
    ensures err { OnErr result (map (λ d. device_state d) devices.new.items ≡ map (λ d. device_state d) devices.old.items) }
{
    let numbers = numbers_of(alloc, arguments)?;
    let place = usize::from(device);
    if place >= devices.len() {
        return Ok(0);
    }
    Ok(call_device(devices, place, numbers.as_slice()))
}

fn numbers_of(alloc: Global, arguments: &[Value]) -> Made<Vec<i32>>
    ensures { IfOk result (λ numbers. numbers.items ≡ map number_in arguments.now) }
{
    let mut numbers = Vec::with_capacity(alloc, arguments.len())?;
    for argument in arguments {
        numbers.push(number_of(argument))?;
    }
    Ok(numbers)
}

// The type of a native's result, as the outline tells it.
fn result_of(setting: &Setting, native: MethodPlace) -> Option<CoreType>
    ensures { result ≡ result_of setting.now.loaded.outline native }
{
    let scripts = &setting.loaded.outline().scripts;
    let script = scripts.get(usize::from(native.script))?;
    script.functions.get(native.place)?.result
}

// A reply as a value of the native's result type.
fn value_of(kind: Option<CoreType>, reply: i32) -> Value
    ensures { result ≡ reply_value kind reply }
{
    match kind {
        None => Value::NoneValue,
        Some(CoreType::Bool) => Value::Bool(reply != 0),
        Some(_) => Value::Int(reply),
    }
}
