//! Files, a scene and a state to the bytes of a held file.

ghost use Rattle.std.specs.Prelude.{◌≡◌, ◌<◌, ◌≤◌, ◌^◌, ◌++◌, map, length, OnOk};
ghost use Rattle.std.specs.List.{AllByRecursion, flat_map};
ghost use Rattle.machine_state.specs.Plain.{plain};
ghost use Rattle.machine_state.specs.Ranges.{IsInRange};
ghost use Rattle.machine_state.specs.Savable.{FitsTwoBytes, FitsFourBytes, IsSavable};
ghost use Rattle.pex_values.specs.Spelling as pex;
ghost use Rattle.stack_save.specs.Held.{SaveGives};
ghost use Rattle.papy_base.specs.Bytes.{bytes_of};
ghost use Rattle.stack_save.specs.Parts.{HasPut, AreLocksInRange, AreThingsInRange};
ghost use Rattle.stack_save.specs.Spelling as spell;

use crate::fault::SaveFault;
use crate::fields::{put_long_string, put_number_or_none};
use crate::items::put_list;
use crate::{HEADING, HELD_LIMIT};
use machine_state::MachineState;
use pex_values::{put_u16, put_u32};
use std::alloc::{AllocError, Global};

#[tactic(auto, using(crate::proofs::Lists::each_trivial), unfolding(crate::specs::Spelling::locks))]
fn put_locks(out: &mut Vec<u8>, state: &MachineState) -> Result<(), AllocError>
    requires { IsSavable (plain state.now) }
    ensures { OnOk result (HasPut (AreLocksInRange (spell.locks_of (plain state.now))) (spell.locks (spell.locks_of (plain state.now))) out.old.items out.new.items) }
{
    put_list(out, &state.owners)?;
    put_list(out, &state.waiters)?;
    put_list(out, &state.free)?;
    put_list(out, &state.asleep)
}

#[tactic(auto, unfolding(crate::specs::Spelling::things))]
fn put_things(out: &mut Vec<u8>, state: &MachineState) -> Result<(), AllocError>
    requires { IsSavable (plain state.now) }
    ensures { OnOk result (HasPut (AreThingsInRange (spell.things_of (plain state.now))) (spell.things (spell.things_of (plain state.now))) out.old.items out.new.items) }
{
    put_list(out, &state.arrays)?;
    put_list(out, &state.devices)?;
    put_list(out, &state.stacks)
}

#[tactic(auto, unfolding(crate::specs::Spelling::state))]
fn put_state(out: &mut Vec<u8>, state: &MachineState) -> Result<(), AllocError>
    requires { IsSavable (plain state.now) }
    ensures { OnOk result (HasPut (IsInRange (plain state.now)) (spell.state (plain state.now)) out.old.items out.new.items) }
{
    put_u32(out, state.turn)?;
    put_number_or_none(out, state.last)?;
    put_list(out, &state.instances)?;
    put_locks(out, state)?;
    put_things(out, state)
}

/// The files in a row, each behind its length.
fn put_each_file(out: &mut Vec<u8>, files: &[Vec<u8>]) -> Result<(), AllocError>
    requires { AllByRecursion FitsFourBytes (map bytes_of files.now) }
    ensures { OnOk result (out.new.items ≡ out.old.items ++ flat_map spell.long_string (map bytes_of files.now)) }
{
    for file in files {
        put_long_string(out, file)?;
    }
    Ok(())
}

fn put_files(out: &mut Vec<u8>, files: &[Vec<u8>]) -> Result<(), AllocError>
    requires count { length files.now < 2 ^ 16 }
    requires each { AllByRecursion FitsFourBytes (map bytes_of files.now) }
    ensures { OnOk result (out.new.items ≡ out.old.items ++ pex.list spell.long_string (map bytes_of files.now)) }
{
    put_u16(out, files.len() as u16)?;
    put_each_file(out, files)
}

/// The bytes of the held file with these PEX files, each as its bytes, this scene file and this state. `TooLarge` comes
/// exactly where it would have more than 67,108,864 bytes.
#[tactic(auto, unfolding(crate::specs::Spelling::spelling))]
pub fn save(
    alloc: Global,
    files: &Vec<Vec<u8>>,
    scene: &[u8],
    state: &MachineState,
) -> Result<Vec<u8>, SaveFault>
    requires files { FitsTwoBytes files.now.items }
    requires each_file { AllByRecursion FitsFourBytes (map bytes_of files.now.items) }
    requires scene { length scene.now ≤ 16777216 }
    requires state { IsSavable (plain state.now) }
    ensures { SaveGives (map bytes_of files.now.items) scene.now (plain state.now) result }
{
    let mut out = Vec::new(alloc);
    out.extend_from_slice(&HEADING)?;
    put_files(&mut out, files)?;
    put_long_string(&mut out, scene)?;
    put_state(&mut out, state)?;
    if out.len() > HELD_LIMIT as usize {
        return Err(SaveFault::TooLarge);
    }
    Ok(out)
}
