//! The closing report of a run.

ghost use Rattle.std.specs.Prelude.{◌≡◌, ◌<◌, IfOk, None};
ghost use Rattle.stack_machine.specs.Machine.{CountsTurn};
ghost use Rattle.stack_machine.specs.Written.{IsLines, WritesLines};
ghost use Rattle.papy_io.specs.Sink.{Appended, AppendsSome};
ghost use Rattle.scene_runner.specs.Report.{Closes};

use crate::lines::{instance_line, property_line, stack_line, turns_line};
use core_tree::OutlineProperty;
use papy_base::{Made, upward};
use papy_io::{IoFault, Sink};
use stack_machine::{Machine, TurnFault};
use std::alloc::Global;

/// Writes the closing lines of a machine that has answered no fault, as it stands: the number of turns, each instance
/// with its state and its Auto properties, and what each stack is doing. Each line is one call of the sink.
///
/// # Errors
///
/// `WriteFault` comes where the sink failed, and `OutOfMemory` where there is no room. Then some of the first lines
/// were written.
pub fn write_closing<S: Sink>(
    alloc: Global,
    machine: &Machine,
    sink: &mut S,
) -> Result<(), TurnFault>
    requires { machine.now.fault ≡ None }
    ensures closes { IfOk result (λ _. Closes machine.now.turns (S.written sink.old) (S.written sink.new)) }
    ensures count { CountsTurn result (S.faults sink.old) (S.faults sink.new) }
    ensures appended { AppendsSome (S.written sink.old) (S.written sink.new) }
{
    let turns = turns_line(alloc, machine.turns_done())?;
    write_line(sink, turns.as_bytes())?;
    write_instances(alloc, machine, sink)?;
    write_stacks(alloc, machine, sink)
}

fn write_line<S: Sink>(sink: &mut S, line: &[u8]) -> Result<(), TurnFault>
    requires { IsLines line.now }
    ensures written { IfOk result (λ _. Appended line.now (S.written sink.old) (S.written sink.new)) }
    ensures count { CountsTurn result (S.faults sink.old) (S.faults sink.new) }
    ensures appended { WritesLines result (S.written sink.old) (S.written sink.new) }
{
    match sink.write(line) {
        Ok(()) => Ok(()),
        Err(IoFault::Failed) => Err(TurnFault::WriteFault),
        Err(IoFault::OutOfMemory) => Err(TurnFault::OutOfMemory),
    }
}

fn write_instances<S: Sink>(alloc: Global, machine: &Machine, sink: &mut S) -> Result<(), TurnFault>
    ensures count { CountsTurn result (S.faults sink.old) (S.faults sink.new) }
    ensures appended { WritesLines result (S.written sink.old) (S.written sink.new) }
{
    for instance in 0..machine.scene().instances.len() {
        let line = instance_line(alloc, machine, instance as u16)?;
        write_line(sink, line.as_slice())?;
        write_properties(alloc, machine, instance as u16, sink)?;
    }
    Ok(())
}

// Writes an instance's Auto properties, those of the script on top first.
fn write_properties<S: Sink>(
    alloc: Global,
    machine: &Machine,
    instance: u16,
    sink: &mut S,
) -> Result<(), TurnFault>
    ensures count { CountsTurn result (S.faults sink.old) (S.faults sink.new) }
    ensures appended { WritesLines result (S.written sink.old) (S.written sink.new) }
{
    let scripts = scripts_of(alloc, machine, instance)?;
    for script in scripts.iter().rev() {
        write_declared(alloc, machine, instance, *script, sink)?;
    }
    Ok(())
}

// Writes the Auto properties that one of an instance's scripts declares.
fn write_declared<S: Sink>(
    alloc: Global,
    machine: &Machine,
    instance: u16,
    script: u16,
    sink: &mut S,
) -> Result<(), TurnFault>
    ensures count { CountsTurn result (S.faults sink.old) (S.faults sink.new) }
    ensures appended { WritesLines result (S.written sink.old) (S.written sink.new) }
{
    for property in properties_of(machine, script) {
        let value = machine.variable_at(instance, script, property.variable)?;
        let line = property_line(alloc, machine, &property.name, &value)?;
        write_line(sink, line.as_slice())?;
    }
    Ok(())
}

fn write_stacks<S: Sink>(alloc: Global, machine: &Machine, sink: &mut S) -> Result<(), TurnFault>
    ensures count { CountsTurn result (S.faults sink.old) (S.faults sink.new) }
    ensures appended { WritesLines result (S.written sink.old) (S.written sink.new) }
{
    for stack in 0..machine.stack_count() {
        let line = stack_line(alloc, machine, stack)?;
        write_line(sink, line.as_slice())?;
    }
    Ok(())
}

// The Auto properties that a script declares.
fn properties_of(machine: &Machine, script: u16) -> &[OutlineProperty] {
    match machine.outline().scripts.get(usize::from(script)) {
        Some(found) => found.properties.as_slice(),
        None => &[],
    }
}

// The script of an instance, and those above it in turn.
fn scripts_of(alloc: Global, machine: &Machine, instance: u16) -> Made<Vec<u16>> {
    let Some(bound) = machine.scene().instances.get(usize::from(instance)) else {
        return Ok(Vec::new(alloc));
    };
    let way = upward(&machine.outline().scripts, usize::from(bound.script));
    Ok(
        way.filter_map(|script| u16::try_from(script).ok())
            .collect(alloc)?,
    )
}
