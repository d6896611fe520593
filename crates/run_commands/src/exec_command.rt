//! The command that runs compiled files on a scene.
ghost use Rattle.std.specs.Prelude.{◌≡◌, ◌≢◌, ◌+◌, ◌<◌, ◌≤◌, length, map, vec_len};
ghost use Rattle.std.specs.String.{string_bytes};
ghost use Rattle.papy_io.specs.Activity.{Idle};
ghost use Rattle.command_files.specs.Ending.{CountsReads, CountsWrites, IsWordBelow};
ghost use Rattle.command_files.specs.Outputs.{Outputs};
ghost use Rattle.latent_natives.specs.Devices.{SameKinds};
ghost use Rattle.run_commands.specs.Answers.{ExecAnswers};
ghost use Rattle.run_commands.specs.Program.{MissesRead};

use crate::play::play;
use crate::program::{Program, read_program};
use command_files::Ending;
use latent_natives::Device;
use papy_io::{Desk, Sink};
use std::alloc::Global;

/// Reads the scene that the first word names and the compiled files that the others name, runs the files on the
/// scene, and writes the report.
pub fn exec<D: Desk, S: Sink>(
    alloc: Global,
    files: &[String],
    desk: &mut D,
    out: &mut S,
    devices: &mut Vec<Box<dyn Device>>,
) -> Ending
    requires idle { D.busy desk.old ≡ Idle }
    requires some { 1 < length files.now }
    requires few { length files.now ≤ 257 }
    requires few_devices { vec_len devices.old ≤ 65535 }
    ensures busy { D.busy desk.new ≡ Idle }
    ensures holds { D.holds desk.new ≡ D.holds desk.old }
    ensures write_faults { D.write_faults desk.new ≡ D.write_faults desk.old }
    ensures read_faults { CountsReads result (D.read_faults desk.old) (D.read_faults desk.new) }
    ensures missed { MissesRead 1 2 (map string_bytes files.now) result (D.missed desk.new) }
    ensures faults { CountsWrites result (S.faults out.old) (S.faults out.new) }
    ensures never_usage { result ≢ Ending.Usage }
    ensures word { IsWordBelow (length files.now + 1) result }
    ensures output { Outputs (ExecAnswers (map string_bytes files.now)) (D.holds desk.old) result (S.written out.old) (S.written out.new) }
    ensures kinds { SameKinds (map (λ d. device_state d) devices.old.items) (map (λ d. device_state d) devices.new.items) }
{
    let program = match read_program(alloc, files, 1, 2, desk, false) {
        Ok(program) => program,
        Err(ending) => return ending,
    };
    let Program { tree, loaded, .. } = program;
    play(alloc, loaded, tree, 1, out, devices)
}
