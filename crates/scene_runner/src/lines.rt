//! The lines of a closing report.
#![tactic(auto, using(crate::proofs::Appending::pushed_line))]

ghost use Rattle.std.specs.Prelude.{◌≡◌, ◌<◌, IfOk, vec_len};
ghost use Rattle.std.specs.String.{string_bytes};
ghost use Rattle.stack_machine.specs.Written.{IsLines};
ghost use Rattle.scene_runner.specs.Report.{turns_line};

use core_tree::Value;
use papy_base::{Made, Name};
use stack_machine::{Machine, Status, append_escaped};
use std::alloc::Global;

/// The number of turns: `turns n`.
pub fn turns_line(alloc: Global, turns: u32) -> Made<String>
    ensures { IfOk result (λ line. string_bytes line ≡ turns_line turns) }
{
    Ok(format!(in alloc; "turns {turns}\n")?)
}

/// An instance with its script and its state: `name : Script @state`.
pub fn instance_line(alloc: Global, machine: &Machine, instance: u16) -> Made<Vec<u8>>
    requires { instance < vec_len machine.now.scene.instances }
    ensures { IfOk result (λ line. IsLines line.items) }
{
    let mut line = Vec::new(alloc);
    append_instance(&mut line, machine, instance)?;
    line.extend_from_slice(b" : ")?;
    append_script(&mut line, machine, instance)?;
    line.extend_from_slice(b" @")?;
    append_escaped(&mut line, machine.state_of(instance).as_bytes())?;
    line.push(b'\n')?;
    Ok(line)
}

/// An Auto property with its value: `  Property = value`.
pub fn property_line(alloc: Global, machine: &Machine, name: &Name, value: &Value) -> Made<Vec<u8>>
    ensures { IfOk result (λ line. IsLines line.items) }
{
    let mut line = Vec::new(alloc);
    line.extend_from_slice(b"  ")?;
    line.extend_from_slice(name.as_bytes())?;
    line.extend_from_slice(b" = ")?;
    append_escaped(&mut line, machine.value_text(value)?.as_bytes())?;
    line.push(b'\n')?;
    Ok(line)
}

/// What a stack is doing: `stack k` and `done`, `ready`, `waits NAME` or `asleep T`.
pub fn stack_line(alloc: Global, machine: &Machine, stack: u16) -> Made<Vec<u8>>
    requires { stack < machine.now.started }
    ensures { IfOk result (λ line. IsLines line.items) }
{
    let mut line = Vec::new(alloc);
    let start = format!(in alloc; "stack {stack} ")?;
    line.extend_from_slice(start.as_bytes())?;
    append_status(&mut line, machine, machine.status_of(stack))?;
    line.push(b'\n')?;
    Ok(line)
}

fn append_status(line: &mut Vec<u8>, machine: &Machine, status: Status) -> Made<()> {
    match status {
        Status::Done => line.extend_from_slice(b"done")?,
        Status::Ready => line.extend_from_slice(b"ready")?,
        Status::Waits(instance) => {
            line.extend_from_slice(b"waits ")?;
            append_instance(line, machine, instance)?;
        }
        Status::Asleep(turn) => {
            let text = format!(in *line.allocator(); "asleep {turn}")?;
            line.extend_from_slice(text.as_bytes())?;
        }
    }
    Ok(())
}

// The name of an instance.
fn append_instance(line: &mut Vec<u8>, machine: &Machine, instance: u16) -> Made<()> {
    if let Some(bound) = machine.scene().instances.get(usize::from(instance)) {
        line.extend_from_slice(bound.name.as_bytes())?;
    }
    Ok(())
}

// The name of an instance's script.
fn append_script(line: &mut Vec<u8>, machine: &Machine, instance: u16) -> Made<()> {
    let Some(bound) = machine.scene().instances.get(usize::from(instance)) else {
        return Ok(());
    };
    let scripts = &machine.outline().scripts;
    if let Some(script) = scripts.get(usize::from(bound.script)) {
        line.extend_from_slice(script.name.as_bytes())?;
    }
    Ok(())
}
