//! A run from where a machine stands to its end.

ghost use Rattle.std.specs.Prelude.{◌≡◌, ◌≤◌, Err, None, IfOk, IfSome, map, vec_len};
ghost use Rattle.latent_natives.specs.Devices.{SameKinds};
ghost use Rattle.stack_machine.specs.Machine.{CountsTurn, HasEnded};
ghost use Rattle.stack_machine.specs.Written.{WritesLines};
ghost use Rattle.papy_io.specs.Sink.{AppendsSome};
ghost use Rattle.scene_runner.specs.Report.{Reports};

use crate::closing::write_closing;
use latent_natives::Device;
use papy_io::Sink;
use stack_machine::{Machine, TurnEnd, TurnFault};
use std::alloc::Global;

/// Does turns until the run of a machine has ended, with as many devices as its scene was bound to, and writes the closing report: the number of turns, each instance with its
/// state and its Auto properties, and what each stack is doing. Each line is one call of the sink.
///
/// # Errors
///
/// `WriteFault` comes where the sink failed, and `OutOfMemory` where there is no room. Then some of the first lines
/// were written. A machine that has answered a fault before answers it again, and nothing is written.
pub fn run_scene<S: Sink>(
    alloc: Global,
    machine: &mut Machine,
    sink: &mut S,
    devices: &mut Vec<Box<dyn Device>>,
) -> Result<(), TurnFault>
    requires { vec_len devices.old ≡ machine.old.scene.devices }
    ensures fixed { (machine.new.outline ≡ machine.old.outline) × (machine.new.scene ≡ machine.old.scene) }
    ensures ended { IfOk result (λ _. HasEnded machine.new) }
    ensures within { IfOk result (λ _. machine.new.turns ≤ machine.new.scene.turns) }
    ensures reports { IfOk result (λ _. Reports machine.new.turns (S.written sink.old) (S.written sink.new)) }
    ensures count { machine.old.fault ≡ None → CountsTurn result (S.faults sink.old) (S.faults sink.new) }
    ensures appended { AppendsSome (S.written sink.old) (S.written sink.new) }
    ensures kinds { SameKinds (map (λ d. device_state d) devices.old.items) (map (λ d. device_state d) devices.new.items) }

    // After a fault.
    ensures same_fault { IfSome machine.old.fault (λ fault. result ≡ Err fault) }
    ensures nothing_written { IfSome machine.old.fault (λ fault. (S.written sink.new ≡ S.written sink.old) × (S.faults sink.new ≡ S.faults sink.old)) }
{
    finish_turns(machine, sink, devices)?;
    write_closing(alloc, machine, sink)
}

/// Does turns until the run of a machine has ended, with as many devices as its scene was bound to. Each line is one
/// call of the sink.
///
/// # Errors
///
/// They are those of `run_scene`.
pub fn finish_turns<S: Sink>(
    machine: &mut Machine,
    sink: &mut S,
    devices: &mut Vec<Box<dyn Device>>,
) -> Result<(), TurnFault>
    requires { vec_len devices.old ≡ machine.old.scene.devices }
    ensures fixed { (machine.new.outline ≡ machine.old.outline) × (machine.new.scene ≡ machine.old.scene) }
    ensures no_fault { IfOk result (λ _. machine.new.fault ≡ None) }
    ensures ended { IfOk result (λ _. HasEnded machine.new) }
    ensures within { IfOk result (λ _. machine.new.turns ≤ machine.new.scene.turns) }
    ensures count { machine.old.fault ≡ None → CountsTurn result (S.faults sink.old) (S.faults sink.new) }
    ensures appended { WritesLines result (S.written sink.old) (S.written sink.new) }
    ensures kinds { SameKinds (map (λ d. device_state d) devices.old.items) (map (λ d. device_state d) devices.new.items) }
    ensures same_fault { IfSome machine.old.fault (λ fault. result ≡ Err fault) }
    ensures nothing_written { IfSome machine.old.fault (λ fault. (S.written sink.new ≡ S.written sink.old) × (S.faults sink.new ≡ S.faults sink.old)) }
{
    if machine.turn(sink, devices)? == TurnEnd::Ended {
        return Ok(());
    }
    turn_on(machine, sink, devices)
}

// Does turns until the run has ended.
fn turn_on<S: Sink>(
    machine: &mut Machine,
    sink: &mut S,
    devices: &mut Vec<Box<dyn Device>>,
) -> Result<(), TurnFault>
    requires { machine.old.fault ≡ None }
    ensures fixed { (machine.new.outline ≡ machine.old.outline) × (machine.new.scene ≡ machine.old.scene) }
    ensures no_fault { IfOk result (λ _. machine.new.fault ≡ None) }
    ensures ended { IfOk result (λ _. HasEnded machine.new) }
    ensures within { IfOk result (λ _. machine.new.turns ≤ machine.new.scene.turns) }
    ensures count { CountsTurn result (S.faults sink.old) (S.faults sink.new) }
    ensures appended { WritesLines result (S.written sink.old) (S.written sink.new) }
    ensures kinds { SameKinds (map (λ d. device_state d) devices.old.items) (map (λ d. device_state d) devices.new.items) }
{
    loop {
        if machine.turn(sink, devices)? == TurnEnd::Ended {
            return Ok(());
        }
    }
}
