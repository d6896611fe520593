//! The command that goes on with a held run.
ghost use Rattle.std.specs.Prelude.{◌≡◌, ◌≢◌, ◌+◌, ◌<◌, ◌≤◌, All, IfErr, IfOk, None, length, map, vec_len};
ghost use Rattle.std.specs.String.{string_bytes};
ghost use Rattle.papy_io.specs.Activity.{Idle};
ghost use Rattle.papy_io.specs.Sink.{AppendsSome};
ghost use Rattle.pex_verify.specs.Files.{IsFile};
ghost use Rattle.stack_machine.specs.Machine.{CountsTurn};
ghost use Rattle.stack_save.specs.declared.fault.HeldFault.TheVariants as HeldFault;
ghost use Rattle.command_files.specs.Ending.{CountsReads, CountsWrites, IsWordBelow, word_at};
ghost use Rattle.command_files.specs.FileFault.{CountsFile, MissesFile};
ghost use Rattle.command_files.specs.Outputs.{AnswersTo, Outputs};
ghost use Rattle.latent_natives.specs.Devices.{SameKinds};
ghost use Rattle.run_commands.specs.Answers.{ResumeAnswers};
ghost use Rattle.run_commands.specs.Program.{MissesRead};
ghost use Rattle.run_commands.specs.Resume.{GoesOn, IsLate, IsReady, LoadsHeld, ReadsHeld, Resumes, held_ending};

use crate::play::turns_ending;
use crate::turns::do_turns;
use command_files::{Ending, FileFault, Place, Rule, read_text};
use core_tree::{Outline, Scene};
use latent_natives::Device;
use papy_io::{Desk, Sink};
use pex_values::Pex;
use pex_verify::{Loaded, VerifyFault, verify};
use scene_runner::{SceneFault, bind, read_scene, write_closing};
use stack_machine::{Machine, RestoreFault, TurnFault};
use stack_save::{HELD_LIMIT, Held, HeldFault, HeldRule, load};
use std::alloc::Global;

/// The most bytes of a scene.
const SCENE_LIMIT: usize = 1 << 24;

fn broken(rule: HeldRule) -> HeldFault
    ensures { result ≡ HeldFault.Broken rule }
{
    HeldFault::Broken { rule }
}

// What the bytes of a held file hold, or why they are refused.
fn loaded_held(alloc: Global, bytes: &[u8]) -> Result<Held, FileFault>
    ensures loads { LoadsHeld bytes.now result }
    ensures ready { IfOk result IsReady }
{
    match load(alloc, bytes) {
        Ok(held) => Ok(held),
        Err(HeldFault::OutOfMemory) => Err(FileFault::OutOfMemory),
        Err(HeldFault::Broken { rule }) => Err(FileFault::Refused {
            place: Place::Whole,
            rule: Rule::Held(rule),
        }),
    }
}

// Reads a held file.
fn read_held<D: Desk>(alloc: Global, desk: &mut D, name: &[u8]) -> Result<Held, FileFault>
    requires { D.busy desk.old ≡ Idle }
    ensures holds { D.holds desk.new ≡ D.holds desk.old }
    ensures busy { D.busy desk.new ≡ Idle }
    ensures write_faults { D.write_faults desk.new ≡ D.write_faults desk.old }
    ensures read_faults { CountsFile result (D.read_faults desk.old) (D.read_faults desk.new) }
    ensures missed { MissesFile name.now result (D.missed desk.new) }
    ensures ready { IfOk result IsReady }
    ensures read { ReadsHeld (D.holds desk.old) name.now result }
{
    let bytes = match read_text(
        alloc,
        desk,
        name,
        HELD_LIMIT,
        Place::Whole,
        Rule::Held(HeldRule::TooLarge),
    ) {
        Ok(bytes) => bytes,
        Err(fault) => return Err(fault),
    };
    loaded_held(alloc, &bytes)
}

// The compiled files of a held run as a set.
fn held_set(alloc: Global, files: Vec<Pex>) -> Result<Loaded, HeldFault>
    requires few { vec_len files < 65536 }
    requires valid { All IsFile files.items }
    ensures { IfErr result IsLate }
{
    match verify(alloc, files) {
        Ok(loaded) => Ok(loaded),
        Err(VerifyFault::OutOfMemory) => Err(HeldFault::OutOfMemory),
        Err(fault) => {
            drop(fault);
            Err(broken(HeldRule::BadFiles))
        }
    }
}

fn scene_fault(fault: SceneFault) -> HeldFault
    ensures { IsLate result }
{
    match fault {
        SceneFault::Broken { .. } => broken(HeldRule::BadScene),
        SceneFault::OutOfMemory => HeldFault::OutOfMemory,
    }
}

// The scene of a held run, bound to so many devices.
fn held_scene(
    alloc: Global,
    text: &[u8],
    outline: &Outline,
    devices: u16,
) -> Result<Scene, HeldFault>
    ensures late { IfErr result IsLate }
    ensures instances { IfOk result (λ scene. vec_len scene.instances < 65536) }
    ensures calls { IfOk result (λ scene. vec_len scene.calls < 65536) }
{
    if text.len() > SCENE_LIMIT {
        return Err(broken(HeldRule::BadScene));
    }
    let tree = match read_scene(alloc, text) {
        Ok(tree) => tree,
        Err(fault) => return Err(scene_fault(fault)),
    };
    match bind(alloc, tree, outline, devices) {
        Ok(scene) => Ok(scene),
        Err(fault) => Err(scene_fault(fault)),
    }
}

fn restore_fault(fault: RestoreFault) -> HeldFault
    ensures { IsLate result }
{
    match fault {
        RestoreFault::BadState => broken(HeldRule::BadState),
        RestoreFault::OtherDevices => broken(HeldRule::OtherDevices),
        RestoreFault::OutOfMemory => HeldFault::OutOfMemory,
    }
}

// The machine that goes on from a held run.
fn restored(
    alloc: Global,
    held: Held,
    devices: &mut Vec<Box<dyn Device>>,
) -> Result<Machine, HeldFault>
    requires ready { IsReady held }
    ensures late { IfErr result IsLate }
    ensures turns { IfOk result (λ machine. machine.turns ≡ held.state.turn) }
    ensures no_fault { IfOk result (λ machine. machine.fault ≡ None) }
    ensures kinds { SameKinds (map (λ d. device_state d) devices.old.items) (map (λ d. device_state d) devices.new.items) }
{
    let Held {
        files,
        scene: text,
        state,
    } = held;
    let loaded = match held_set(alloc, files) {
        Ok(loaded) => loaded,
        Err(fault) => {
            drop(state);
            return Err(fault);
        }
    };
    let bound = held_scene(alloc, &text, loaded.outline(), state.devices.len() as u16);
    drop(text);
    match bound {
        Ok(scene) => match Machine::restore(alloc, loaded, scene, state, devices) {
            Ok(machine) => Ok(machine),
            Err(fault) => Err(restore_fault(fault)),
        },
        Err(fault) => {
            drop(loaded);
            drop(state);
            Err(fault)
        }
    }
}

// Goes on for at most so many turns, and writes the closing report.
fn go_on<S: Sink>(
    alloc: Global,
    machine: &mut Machine,
    most: u32,
    out: &mut S,
    devices: &mut Vec<Box<dyn Device>>,
) -> Result<(), TurnFault>
    requires { machine.old.fault ≡ None }
    ensures rest { IfOk result (λ _. GoesOn machine.old.turns most (S.written out.old) (S.written out.new)) }
    ensures count { CountsTurn result (S.faults out.old) (S.faults out.new) }
    ensures appended { AppendsSome (S.written out.old) (S.written out.new) }
    ensures kinds { SameKinds (map (λ d. device_state d) devices.old.items) (map (λ d. device_state d) devices.new.items) }
{
    do_turns(machine, most, out, devices)?;
    write_closing(alloc, machine, out)
}

fn held_ending(fault: HeldFault) -> Ending
    ensures { result ≡ held_ending fault }
{
    match fault {
        HeldFault::Broken { rule } => Ending::Refused {
            word: 2,
            place: Place::Whole,
            rule: Rule::Held(rule),
        },
        HeldFault::OutOfMemory => Ending::OutOfMemory,
    }
}

// Goes on with a loaded run.
fn resume_held<S: Sink>(
    alloc: Global,
    held: Held,
    most: u32,
    out: &mut S,
    devices: &mut Vec<Box<dyn Device>>,
) -> Ending
    requires ready { IsReady held }
    ensures faults { CountsWrites result (S.faults out.old) (S.faults out.new) }
    ensures resumes { Resumes held.state.turn most result (S.written out.old) (S.written out.new) }
    ensures kinds { SameKinds (map (λ d. device_state d) devices.old.items) (map (λ d. device_state d) devices.new.items) }
{
    let mut machine = match restored(alloc, held, devices) {
        Ok(machine) => machine,
        Err(fault) => return held_ending(fault),
    };
    let ended = go_on(alloc, &mut machine, most, out, devices);
    drop(machine);
    match ended {
        Ok(()) => Ending::Done,
        Err(fault) => turns_ending(fault),
    }
}

/// Reads the held run that the second word names, goes on with it for at most so many turns, and writes their lines and
/// the closing report. The first word is the number of turns.
pub fn resume<D: Desk, S: Sink>(
    alloc: Global,
    most: u32,
    files: &[String],
    desk: &mut D,
    out: &mut S,
    devices: &mut Vec<Box<dyn Device>>,
) -> Ending
    requires idle { D.busy desk.old ≡ Idle }
    requires two { 2 ≤ length files.now }
    ensures busy { D.busy desk.new ≡ Idle }
    ensures holds { D.holds desk.new ≡ D.holds desk.old }
    ensures write_faults { D.write_faults desk.new ≡ D.write_faults desk.old }
    ensures read_faults { CountsReads result (D.read_faults desk.old) (D.read_faults desk.new) }
    ensures missed { MissesRead 2 (length (map string_bytes files.now) + 1) (map string_bytes files.now) result (D.missed desk.new) }
    ensures faults { CountsWrites result (S.faults out.old) (S.faults out.new) }
    ensures never_usage { result ≢ Ending.Usage }
    ensures word { IsWordBelow (length files.now + 1) result }
    ensures output { Outputs (AnswersTo (ResumeAnswers most) (word_at (map string_bytes files.now) 1)) (D.holds desk.old) result (S.written out.old) (S.written out.new) }
    ensures kinds { SameKinds (map (λ d. device_state d) devices.old.items) (map (λ d. device_state d) devices.new.items) }
{
    let held = match read_held(alloc, desk, files[1].as_bytes()) {
        Ok(held) => held,
        Err(fault) => return fault.at_word(2),
    };
    resume_held(alloc, held, most, out, devices)
}
