//! The command that runs scripts on a scene.
ghost use Rattle.std.specs.Prelude.{◌≡◌, ◌≢◌, ◌+◌, ◌<◌, ◌≤◌, length, map, vec_len};
ghost use Rattle.std.specs.String.{string_bytes};
ghost use Rattle.papy_io.specs.Activity.{Idle};
ghost use Rattle.command_files.specs.Ending.{CountsReads, CountsWrites, IsWordBelow, MissesScript};
ghost use Rattle.command_files.specs.Outputs.{Outputs};
ghost use Rattle.latent_natives.specs.Devices.{SameKinds};
ghost use Rattle.run_commands.specs.Answers.{RunAnswers};
ghost use Rattle.run_commands.specs.Play.{HasFewParts, PlaysSet};

use crate::play::play;
use command_files::{CompileFault, Ending, accept, compile_set, load_scene};
use core_tree::{CoreSet, SceneTree};
use latent_natives::Device;
use papy_io::{Desk, Sink};
use pex_verify::Loaded;
use std::alloc::Global;

// The set that the files of accepted scripts are.
fn loaded_set(alloc: Global, set: &CoreSet) -> Result<Loaded, CompileFault>
    requires { vec_len set.now.scripts ≤ 65535 }
{
    let compiled = compile_set(alloc, set)?;
    match compiled.judged.load(alloc) {
        Ok(loaded) => Ok(loaded),
        Err(_) => Err(CompileFault::OutOfMemory),
    }
}

/// Compiles accepted scripts, and runs their files on a scene that the word of this number names.
pub fn run_set<S: Sink>(
    alloc: Global,
    set: &CoreSet,
    tree: SceneTree,
    word: usize,
    out: &mut S,
    devices: &mut Vec<Box<dyn Device>>,
) -> Ending
    requires scripts { vec_len set.now.scripts ≤ 65535 }
    requires few { HasFewParts tree }
    requires few_devices { vec_len devices.old ≤ 65535 }
    ensures faults { CountsWrites result (S.faults out.old) (S.faults out.new) }
    ensures plays { PlaysSet tree word result (S.written out.old) (S.written out.new) }
    ensures kinds { SameKinds (map (λ d. device_state d) devices.old.items) (map (λ d. device_state d) devices.new.items) }
{
    match loaded_set(alloc, set) {
        Ok(loaded) => play(alloc, loaded, tree, word, out, devices),
        Err(fault) => Ending::from(fault),
    }
}

/// Reads the scene that the first word names and the scripts that the others name, compiles the scripts, runs
/// their files on the scene, and writes the report.
pub fn run<D: Desk, S: Sink>(
    alloc: Global,
    files: &[String],
    desk: &mut D,
    out: &mut S,
    devices: &mut Vec<Box<dyn Device>>,
) -> Ending
    requires idle { D.busy desk.old ≡ Idle }
    requires some { 1 < length files.now }
    requires few { length files.now ≤ 257 }
    requires few_devices { vec_len devices.old ≤ 65535 }
    ensures busy { D.busy desk.new ≡ Idle }
    ensures holds { D.holds desk.new ≡ D.holds desk.old }
    ensures write_faults { D.write_faults desk.new ≡ D.write_faults desk.old }
    ensures read_faults { CountsReads result (D.read_faults desk.old) (D.read_faults desk.new) }
    ensures missed { MissesScript (map string_bytes files.now) result (D.missed desk.new) }
    ensures faults { CountsWrites result (S.faults out.old) (S.faults out.new) }
    ensures never_usage { result ≢ Ending.Usage }
    ensures word { IsWordBelow (length files.now + 1) result }
    ensures output { Outputs (RunAnswers (map string_bytes files.now)) (D.holds desk.old) result (S.written out.old) (S.written out.new) }
    ensures kinds { SameKinds (map (λ d. device_state d) devices.old.items) (map (λ d. device_state d) devices.new.items) }
{
    let tree = match load_scene(alloc, desk, files[0].as_bytes()) {
        Ok(tree) => tree,
        Err(fault) => return fault.at_word(1),
    };
    let set = match accept(alloc, &files[1..], desk) {
        Ok(set) => set,
        Err(ending) => {
            drop(tree);
            return ending.one_later();
        }
    };
    run_set(alloc, &set, tree, 1, out, devices)
}
