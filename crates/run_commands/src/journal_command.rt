//! The command that runs compiled files on a scene, and writes the journal of the run.
ghost use Rattle.std.specs.Prelude.{◌≡◌, ◌≢◌, ◌+◌, ◌≤◌, length, map, vec_len};
ghost use Rattle.std.specs.String.{string_bytes};
ghost use Rattle.papy_io.specs.Activity.{Idle};
ghost use Rattle.command_files.specs.Ending.{CountsBoth, CountsReads, IsWordBelow, word_at};
ghost use Rattle.command_files.specs.Outputs.{Outputs};
ghost use Rattle.latent_natives.specs.Devices.{SameKinds};
ghost use Rattle.run_commands.specs.Answers.{JournalAnswers};
ghost use Rattle.run_commands.specs.Journal.{CountsNoted, JournalLeaves, PlaysNoted};
ghost use Rattle.run_commands.specs.Play.{HasFewParts};
ghost use Rattle.run_commands.specs.Program.{MissesRead};

use crate::play::{start_machine, turns_ending};
use crate::program::{Program, read_program};
use crate::turns::noted_run;
use command_files::Ending;
use core_tree::SceneTree;
use latent_natives::Device;
use papy_io::{Desk, Sink, write_file};
use pex_verify::Loaded;
use std::alloc::Global;

// Binds a scene to loaded files and runs it, and writes the report. Gives the journal of the run.
fn play_noted<S: Sink>(
    alloc: Global,
    loaded: Loaded,
    tree: SceneTree,
    out: &mut S,
    devices: &mut Vec<Box<dyn Device>>,
) -> Result<Vec<u8>, Ending>
    requires few { HasFewParts tree }
    requires few_devices { vec_len devices.old ≤ 65535 }
    ensures faults { CountsNoted result (S.faults out.old) (S.faults out.new) }
    ensures plays { PlaysNoted tree 1 result (S.written out.old) (S.written out.new) }
    ensures kinds { SameKinds (map (λ d. device_state d) devices.old.items) (map (λ d. device_state d) devices.new.items) }
{
    let mut machine = match start_machine(alloc, loaded, tree, 1, devices) {
        Ok(machine) => machine,
        Err(ending) => return Err(ending),
    };
    match noted_run(alloc, &mut machine, out, devices) {
        Ok(journal) => {
            drop(machine);
            Ok(journal)
        }
        Err(fault) => {
            drop(machine);
            Err(turns_ending(fault))
        }
    }
}

/// Reads the scene that the first word names and the compiled files that those behind the second name, runs the files
/// on the scene, writes the report, and then the journal of the run under the name that the second word is.
pub fn journal<D: Desk, S: Sink>(
    alloc: Global,
    files: &[String],
    desk: &mut D,
    out: &mut S,
    devices: &mut Vec<Box<dyn Device>>,
) -> Ending
    requires idle { D.busy desk.old ≡ Idle }
    requires some { 3 ≤ length files.now }
    requires few { length files.now ≤ 258 }
    requires few_devices { vec_len devices.old ≤ 65535 }
    ensures busy { D.busy desk.new ≡ Idle }
    ensures leaves { JournalLeaves (word_at (map string_bytes files.now) 1) result (S.written out.old) (S.written out.new) (D.holds desk.old) (D.holds desk.new) }
    ensures read_faults { CountsReads result (D.read_faults desk.old) (D.read_faults desk.new) }
    ensures missed { MissesRead 1 3 (map string_bytes files.now) result (D.missed desk.new) }
    ensures faults { CountsBoth result (S.faults out.old) (S.faults out.new) (D.write_faults desk.old) (D.write_faults desk.new) }
    ensures never_usage { result ≢ Ending.Usage }
    ensures word { IsWordBelow (length files.now + 1) result }
    ensures output { Outputs (JournalAnswers (map string_bytes files.now)) (D.holds desk.old) result (S.written out.old) (S.written out.new) }
    ensures kinds { SameKinds (map (λ d. device_state d) devices.old.items) (map (λ d. device_state d) devices.new.items) }
{
    let program = match read_program(alloc, files, 1, 3, desk, false) {
        Ok(program) => program,
        Err(ending) => return ending,
    };
    let Program { tree, loaded, .. } = program;
    let journal = match play_noted(alloc, loaded, tree, out, devices) {
        Ok(journal) => journal,
        Err(ending) => return ending,
    };
    match write_file(desk, files[1].as_bytes(), &journal) {
        Ok(()) => Ending::Done,
        Err(fault) => Ending::from(fault),
    }
}
