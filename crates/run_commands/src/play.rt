//! A run of loaded scripts on a scene, from its first turn to its report.
ghost use Rattle.std.specs.Prelude.{◌≡◌, ◌≤◌, IfOk, map, vec_len};
ghost use Rattle.command_files.specs.Ending.{CountsWrites};
ghost use Rattle.latent_natives.specs.Devices.{SameKinds};
ghost use Rattle.run_commands.specs.Play.{HasFewParts, Plays, Starts, turns_ending};

use command_files::{Ending, FileFault};
use core_tree::SceneTree;
use latent_natives::Device;
use papy_io::Sink;
use pex_verify::Loaded;
use scene_runner::{bind, run_scene};
use stack_machine::{Machine, TurnFault};
use std::alloc::Global;

/// How a command ends whose run's turns ended so.
pub fn turns_ending(fault: TurnFault) -> Ending
    ensures { result ≡ turns_ending fault }
{
    match fault {
        TurnFault::WriteFault => Ending::WriteFault,
        TurnFault::OutOfMemory => Ending::OutOfMemory,
    }
}

/// Binds a scene to loaded scripts, and gives the machine before its first turn. `word` is the number of the word that
/// names the scene.
pub fn start_machine(
    alloc: Global,
    loaded: Loaded,
    tree: SceneTree,
    word: usize,
    devices: &mut Vec<Box<dyn Device>>,
) -> Result<Machine, Ending>
    requires few { HasFewParts tree }
    requires few_devices { vec_len devices.old ≤ 65535 }
    ensures starts { Starts tree word result }
    ensures devices { IfOk result (λ machine. vec_len devices.new ≡ machine.scene.devices) }
    ensures kinds { SameKinds (map (λ d. device_state d) devices.old.items) (map (λ d. device_state d) devices.new.items) }
{
    let scene = match bind(alloc, tree, loaded.outline(), devices.len() as u16) {
        Ok(scene) => scene,
        Err(fault) => {
            drop(loaded);
            return Err(FileFault::from(fault).at_word(word));
        }
    };
    match Machine::start(alloc, loaded, scene, devices) {
        Ok(machine) => Ok(machine),
        Err(_) => Err(Ending::OutOfMemory),
    }
}

/// Binds a scene to loaded scripts and runs it, and writes the report. `word` is the number of the word that
/// names the scene. A scene that breaks a rule is refused before anything is written.
pub fn play<S: Sink>(
    alloc: Global,
    loaded: Loaded,
    tree: SceneTree,
    word: usize,
    out: &mut S,
    devices: &mut Vec<Box<dyn Device>>,
) -> Ending
    requires few { HasFewParts tree }
    requires few_devices { vec_len devices.old ≤ 65535 }
    ensures faults { CountsWrites result (S.faults out.old) (S.faults out.new) }
    ensures plays { Plays tree word result (S.written out.old) (S.written out.new) }
    ensures kinds { SameKinds (map (λ d. device_state d) devices.old.items) (map (λ d. device_state d) devices.new.items) }
{
    let mut machine = match start_machine(alloc, loaded, tree, word, devices) {
        Ok(machine) => machine,
        Err(ending) => return ending,
    };
    match run_scene(alloc, &mut machine, out, devices) {
        Ok(()) => {
            drop(machine);
            Ending::Done
        }
        Err(fault) => {
            drop(machine);
            turns_ending(fault)
        }
    }
}
