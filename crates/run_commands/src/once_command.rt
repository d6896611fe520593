//! The command that runs scripts with one instance of the first.
ghost use Rattle.std.specs.Prelude.{◌≡◌, ◌≢◌, ◌+◌, ◌<◌, ◌≤◌, length, map, vec_len};
ghost use Rattle.std.specs.String.{string_bytes};
ghost use Rattle.papy_io.specs.Activity.{Idle};
ghost use Rattle.command_files.specs.Ending.{CountsReads, CountsWrites, IsWordBelow, MissesScript};
ghost use Rattle.command_files.specs.Outputs.{Outputs};
ghost use Rattle.latent_natives.specs.Devices.{SameKinds};
ghost use Rattle.run_commands.specs.Answers.{OnceAnswers};

use crate::run_command::run_set;
use command_files::{Ending, accept};
use latent_natives::Device;
use papy_base::PRELUDE_COUNT;
use papy_io::{Desk, Sink};
use scene_runner::default_scene;
use std::alloc::Global;

/// Runs scripts with one instance of the first and one call of its `OnInit`, and writes the report.
pub fn once<D: Desk, S: Sink>(
    alloc: Global,
    scripts: &[String],
    desk: &mut D,
    out: &mut S,
    devices: &mut Vec<Box<dyn Device>>,
) -> Ending
    requires idle { D.busy desk.old ≡ Idle }
    requires some { 0 < length scripts.now }
    requires few { length scripts.now ≤ 256 }
    requires few_devices { vec_len devices.old ≤ 65535 }
    ensures busy { D.busy desk.new ≡ Idle }
    ensures holds { D.holds desk.new ≡ D.holds desk.old }
    ensures write_faults { D.write_faults desk.new ≡ D.write_faults desk.old }
    ensures read_faults { CountsReads result (D.read_faults desk.old) (D.read_faults desk.new) }
    ensures missed { MissesScript (map string_bytes scripts.now) result (D.missed desk.new) }
    ensures faults { CountsWrites result (S.faults out.old) (S.faults out.new) }
    ensures never_usage { result ≢ Ending.Usage }
    ensures word { IsWordBelow (length scripts.now + 1) result }
    ensures output { Outputs (OnceAnswers (map string_bytes scripts.now)) (D.holds desk.old) result (S.written out.old) (S.written out.new) }
    ensures kinds { SameKinds (map (λ d. device_state d) devices.old.items) (map (λ d. device_state d) devices.new.items) }
{
    let set = match accept(alloc, scripts, desk) {
        Ok(set) => set,
        Err(ending) => return ending,
    };
    let tree = match default_scene(alloc, &set.scripts[PRELUDE_COUNT].name) {
        Ok(tree) => tree,
        Err(_) => return Ending::OutOfMemory,
    };
    run_set(alloc, &set, tree, 0, out, devices)
}
