//! Some turns of a machine, and all turns with their journal.
ghost use Rattle.std.specs.Prelude.{◌≡◌, ◌≤◌, ◌+◌, ◌⊎◌, IfOk, None, map};
ghost use Rattle.std.specs.Bool.{OnFalse, OnTrue};
ghost use Rattle.latent_natives.specs.Devices.{SameKinds};
ghost use Rattle.papy_io.specs.Sink.{AppendsSome};
ghost use Rattle.scene_binder.specs.Bound.{instance_name};
ghost use Rattle.scene_runner.specs.Report.{Reports};
ghost use Rattle.stack_machine.specs.Machine.{CountsTurn, HasEnded};
ghost use Rattle.stack_machine.specs.Written.{WritesLines};
ghost use Rattle.run_commands.specs.Journal.{IsJournalOf, NotesTurns};

use core_tree::BoundInstance;
use latent_natives::Device;
use papy_base::{Made, Text};
use papy_io::Sink;
use run_replay::{ending, heading, turn_text};
use scene_runner::write_closing;
use stack_machine::{Machine, TurnEnd, TurnFault};
use std::alloc::Global;

/// Does so many turns, or those that are left of the run where they are fewer.
pub fn do_turns<S: Sink>(
    machine: &mut Machine,
    most: u32,
    sink: &mut S,
    devices: &mut Vec<Box<dyn Device>>,
) -> Result<(), TurnFault>
    requires { machine.old.fault ≡ None }
    ensures scene { machine.new.scene ≡ machine.old.scene }
    ensures no_fault { IfOk result (λ _. machine.new.fault ≡ None) }
    ensures turns { IfOk result (λ _. machine.old.turns ≤ machine.new.turns) }
    ensures most { IfOk result (λ _. machine.new.turns ≤ machine.old.turns + most) }
    ensures whole { IfOk result (λ _. (machine.new.turns ≡ machine.old.turns + most) ⊎ HasEnded machine.new) }
    ensures count { CountsTurn result (S.faults sink.old) (S.faults sink.new) }
    ensures appended { WritesLines result (S.written sink.old) (S.written sink.new) }
    ensures kinds { SameKinds (map (λ d. device_state d) devices.old.items) (map (λ d. device_state d) devices.new.items) }
{
    'turns: for _ in 0..most {
        if machine.turn(sink, devices)? == TurnEnd::Ended {
            return Ok(());
        }
    }
    Ok(())
}

// The names of a scene's instances.
fn names_of(alloc: Global, instances: &[BoundInstance]) -> Made<Vec<Text>>
    ensures { IfOk result (λ names. names.items ≡ map instance_name instances.now) }
{
    let mut names = Vec::new(alloc);
    for instance in instances {
        names.push(instance.name.try_clone(alloc)?)?;
    }
    Ok(names)
}

// Does a turn, and appends its lines to the journal. False where the run has ended.
fn note_turn<S: Sink>(
    alloc: Global,
    machine: &mut Machine,
    journal: &mut Vec<u8>,
    sink: &mut S,
    devices: &mut Vec<Box<dyn Device>>,
) -> Result<bool, TurnFault>
    requires { machine.old.fault ≡ None }
    ensures scene { machine.new.scene ≡ machine.old.scene }
    ensures no_fault { IfOk result (λ _. machine.new.fault ≡ None) }
    ensures noted { IfOk result (λ _. NotesTurns machine.old.turns machine.new.turns journal.old.items journal.new.items) }
    ensures goes_on { IfOk result (λ on. OnTrue on (machine.new.turns ≡ machine.old.turns + 1)) }
    ensures ended { IfOk result (λ on. OnFalse on (HasEnded machine.new)) }
    ensures within { machine.new.turns ≤ machine.new.scene.turns }
    ensures count { CountsTurn result (S.faults sink.old) (S.faults sink.new) }
    ensures appended { WritesLines result (S.written sink.old) (S.written sink.new) }
    ensures kinds { SameKinds (map (λ d. device_state d) devices.old.items) (map (λ d. device_state d) devices.new.items) }
{
    let turn = machine.turns_done();
    let mut moves = Vec::new(alloc);
    if machine.turn_noted(sink, devices, &mut moves)? == TurnEnd::Ended {
        return Ok(false);
    }
    let lines = turn_text(alloc, turn, &moves)?;
    journal.extend_from_slice(&lines)?;
    Ok(true)
}

// Does the turns that are left, and appends their lines to the journal.
fn note_turns<S: Sink>(
    alloc: Global,
    machine: &mut Machine,
    journal: &mut Vec<u8>,
    sink: &mut S,
    devices: &mut Vec<Box<dyn Device>>,
) -> Result<(), TurnFault>
    requires { machine.old.fault ≡ None }
    ensures scene { machine.new.scene ≡ machine.old.scene }
    ensures no_fault { IfOk result (λ _. machine.new.fault ≡ None) }
    ensures noted { IfOk result (λ _. NotesTurns machine.old.turns machine.new.turns journal.old.items journal.new.items) }
    ensures ended { IfOk result (λ _. HasEnded machine.new) }
    ensures within { IfOk result (λ _. machine.new.turns ≤ machine.new.scene.turns) }
    ensures count { CountsTurn result (S.faults sink.old) (S.faults sink.new) }
    ensures appended { WritesLines result (S.written sink.old) (S.written sink.new) }
    ensures kinds { SameKinds (map (λ d. device_state d) devices.old.items) (map (λ d. device_state d) devices.new.items) }
{
    loop {
        if !note_turn(alloc, machine, journal, sink, devices)? {
            return Ok(());
        }
    }
}

/// Runs a machine from its first turn to its end, and writes the closing report. Gives the journal of the run.
pub fn noted_run<S: Sink>(
    alloc: Global,
    machine: &mut Machine,
    sink: &mut S,
    devices: &mut Vec<Box<dyn Device>>,
) -> Result<Vec<u8>, TurnFault>
    requires no_fault { machine.old.fault ≡ None }
    requires no_turns { machine.old.turns ≡ 0 }
    ensures scene { machine.new.scene ≡ machine.old.scene }
    ensures journal { IfOk result (λ journal. IsJournalOf (map instance_name machine.new.scene.instances.items) machine.new.turns journal.items) }
    ensures reports { IfOk result (λ _. Reports machine.new.turns (S.written sink.old) (S.written sink.new)) }
    ensures ended { IfOk result (λ _. HasEnded machine.new) }
    ensures within { IfOk result (λ _. machine.new.turns ≤ machine.new.scene.turns) }
    ensures count { CountsTurn result (S.faults sink.old) (S.faults sink.new) }
    ensures appended { AppendsSome (S.written sink.old) (S.written sink.new) }
    ensures kinds { SameKinds (map (λ d. device_state d) devices.old.items) (map (λ d. device_state d) devices.new.items) }
{
    let names = names_of(alloc, &machine.scene().instances)?;
    let mut journal = heading(alloc, &names)?;
    note_turns(alloc, machine, &mut journal, sink, devices)?;
    let last = ending(alloc, machine.turns_done())?;
    journal.extend_from_slice(&last)?;
    write_closing(alloc, machine, sink)?;
    Ok(journal)
}
