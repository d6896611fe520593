//! The command that runs compiled files on a scene for some turns, and holds the run in a file.
ghost use Rattle.std.specs.Prelude.{◌≡◌, ◌≢◌, ◌+◌, ◌≤◌, IfOk, None, length, map, vec_len};
ghost use Rattle.std.specs.String.{string_bytes};
ghost use Rattle.machine_state.specs.Plain.{plain};
ghost use Rattle.machine_state.specs.Savable.{IsSavable};
ghost use Rattle.papy_io.specs.Activity.{Idle};
ghost use Rattle.stack_machine.specs.Machine.{CountsTurn};
ghost use Rattle.stack_machine.specs.Written.{WritesLines};
ghost use Rattle.papy_base.specs.Bytes.{bytes_of};
ghost use Rattle.command_files.specs.Ending.{CountsBoth, CountsReads, IsWordBelow, word_at};
ghost use Rattle.command_files.specs.Outputs.{Outputs};
ghost use Rattle.latent_natives.specs.Devices.{SameKinds};
ghost use Rattle.run_commands.specs.Answers.{HoldAnswers};
ghost use Rattle.run_commands.specs.Hold.{HoldLeaves, PlaysHeld, Saves};
ghost use Rattle.run_commands.specs.Journal.{CountsNoted};
ghost use Rattle.run_commands.specs.Play.{HasFewParts};
ghost use Rattle.run_commands.specs.Program.{AreSmall, MissesRead};

use crate::play::{start_machine, turns_ending};
use crate::program::{Program, read_program};
use crate::turns::do_turns;
use command_files::{Ending, Place, Rule};
use latent_natives::Device;
use machine_state::MachineState;
use papy_io::{Desk, Sink, write_file};
use stack_machine::{Machine, TurnFault};
use stack_save::{HeldRule, SaveFault, save};
use std::alloc::Global;

// The state of a machine after at most so many turns more, whose lines are written.
fn state_after<S: Sink>(
    alloc: Global,
    machine: &mut Machine,
    most: u32,
    out: &mut S,
    devices: &mut Vec<Box<dyn Device>>,
) -> Result<MachineState, TurnFault>
    requires { machine.old.fault ≡ None }
    ensures savable { IfOk result (λ state. IsSavable (plain state)) }
    ensures within { IfOk result (λ state. state.turn ≤ machine.old.turns + most) }
    ensures count { CountsTurn result (S.faults out.old) (S.faults out.new) }
    ensures appended { WritesLines result (S.written out.old) (S.written out.new) }
    ensures kinds { SameKinds (map (λ d. device_state d) devices.old.items) (map (λ d. device_state d) devices.new.items) }
{
    do_turns(machine, most, out, devices)?;
    Ok(machine.snapshot(alloc, devices)?)
}

// The bytes of a held run, or how the command ends for which they are too many.
fn saved(
    alloc: Global,
    files: &Vec<Vec<u8>>,
    scene: &[u8],
    state: &MachineState,
) -> Result<Vec<u8>, Ending>
    requires few_files { vec_len files.now ≤ 256 }
    requires small { AreSmall files.now.items }
    requires few_bytes { length scene.now ≤ 16777216 }
    requires savable { IsSavable (plain state.now) }
    ensures { Saves (map bytes_of files.now.items) scene.now (plain state.now) result }
{
    match save(alloc, files, scene, state) {
        Ok(bytes) => Ok(bytes),
        Err(SaveFault::TooLarge) => Err(Ending::Refused {
            word: 3,
            place: Place::Whole,
            rule: Rule::Held(HeldRule::TooLarge),
        }),
        Err(SaveFault::OutOfMemory) => Err(Ending::OutOfMemory),
    }
}

// Binds a scene to loaded files and runs it for at most so many turns. Gives the bytes of the held run.
fn play_held<S: Sink>(
    alloc: Global,
    program: Program,
    most: u32,
    out: &mut S,
    devices: &mut Vec<Box<dyn Device>>,
) -> Result<Vec<u8>, Ending>
    requires few { HasFewParts program.tree }
    requires few_files { vec_len program.kept ≤ 256 }
    requires small { AreSmall program.kept.items }
    requires few_bytes { vec_len program.text ≤ 16777216 }
    requires few_devices { vec_len devices.old ≤ 65535 }
    ensures faults { CountsNoted result (S.faults out.old) (S.faults out.new) }
    ensures plays { PlaysHeld most (map bytes_of program.kept.items) program.text.items result (S.written out.old) (S.written out.new) }
    ensures kinds { SameKinds (map (λ d. device_state d) devices.old.items) (map (λ d. device_state d) devices.new.items) }
{
    let Program {
        tree,
        text,
        loaded,
        kept,
    } = program;
    let mut machine = match start_machine(alloc, loaded, tree, 2, devices) {
        Ok(machine) => machine,
        Err(ending) => return Err(ending),
    };
    let turned = state_after(alloc, &mut machine, most, out, devices);
    drop(machine);
    match turned {
        Ok(state) => {
            let bytes = saved(alloc, &kept, &text, &state);
            drop(state);
            bytes
        }
        Err(fault) => Err(turns_ending(fault)),
    }
}

/// Reads the scene that the second word names and the compiled files that those behind the third name, runs the files
/// on the scene for at most so many turns, writes their lines, and then the held run under the name that the third
/// word is. The first word is the number of turns.
pub fn hold<D: Desk, S: Sink>(
    alloc: Global,
    most: u32,
    files: &[String],
    desk: &mut D,
    out: &mut S,
    devices: &mut Vec<Box<dyn Device>>,
) -> Ending
    requires idle { D.busy desk.old ≡ Idle }
    requires some { 4 ≤ length files.now }
    requires few { length files.now ≤ 259 }
    requires few_devices { vec_len devices.old ≤ 65535 }
    ensures busy { D.busy desk.new ≡ Idle }
    ensures leaves { HoldLeaves most (map string_bytes files.now) (word_at (map string_bytes files.now) 2) result (D.holds desk.old) (D.holds desk.new) }
    ensures read_faults { CountsReads result (D.read_faults desk.old) (D.read_faults desk.new) }
    ensures missed { MissesRead 2 4 (map string_bytes files.now) result (D.missed desk.new) }
    ensures faults { CountsBoth result (S.faults out.old) (S.faults out.new) (D.write_faults desk.old) (D.write_faults desk.new) }
    ensures never_usage { result ≢ Ending.Usage }
    ensures word { IsWordBelow (length files.now + 1) result }
    ensures output { Outputs (HoldAnswers (map string_bytes files.now)) (D.holds desk.old) result (S.written out.old) (S.written out.new) }
    ensures kinds { SameKinds (map (λ d. device_state d) devices.old.items) (map (λ d. device_state d) devices.new.items) }
{
    let program = match read_program(alloc, files, 2, 4, desk, true) {
        Ok(program) => program,
        Err(ending) => return ending,
    };
    let bytes = match play_held(alloc, program, most, out, devices) {
        Ok(bytes) => bytes,
        Err(ending) => return ending,
    };
    match write_file(desk, files[2].as_bytes(), &bytes) {
        Ok(()) => Ending::Done,
        Err(fault) => Ending::from(fault),
    }
}
