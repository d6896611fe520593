//! Which command is run.
ghost use Rattle.std.specs.Prelude.{◌≡◌, ◌≢◌, ◌↔◌, ◌+◌, ◌≤◌, length, map, vec_len, None};
ghost use Rattle.std.specs.String.{string_bytes};
ghost use Rattle.latent_natives.specs.Devices.{SameKinds};
ghost use Rattle.papy_io.specs.Activity.{Idle};
ghost use Rattle.command_files.specs.Ending.{CountsBoth, CountsReads, CountsWrites, IsWordBelow, IsWordOf, MissesScript};
ghost use Rattle.command_files.specs.Outputs.{Outputs, WritesOnly};
ghost use Rattle.papyrus_cmd.specs.Answers.{Answers, FileCommandOn, PlayCommandOn};
ghost use Rattle.papyrus_cmd.specs.Command.{command_of, files_used};
ghost use Rattle.papyrus_cmd.specs.Dispatch.{SuitsFiles, SuitsPlay};
ghost use Rattle.papyrus_cmd.specs.Missed.{MissesPlayed, MissesWord};
ghost use Rattle.papyrus_cmd.specs.TopCall.{FileCommandLeaves, FilesLeft, PlayCommandLeaves, RunsNone};

use crate::asm::asm;
use crate::check::check;
use crate::command::{Command, FileCommand, PlayCommand, command_of};
use crate::compile::compile;
use crate::help::{help, version};
use crate::lift::lift;
use crate::show::show;
use crate::upgrade::upgrade;
use crate::waits::waits;
use command_files::Ending;
use latent_natives::Device;
use papy_io::{Desk, Sink};
use run_commands::{exec, hold, journal, once, resume, run as run_scripts, sample};
use std::alloc::Global;

fn write_text<S: Sink>(out: &mut S, text: &[u8]) -> Ending
    ensures faults { CountsWrites result (S.faults out.old) (S.faults out.new) }
    ensures output { WritesOnly text.now result (S.written out.old) (S.written out.new) }
{
    match out.write(text) {
        Ok(()) => Ending::Done,
        Err(fault) => Ending::from(fault),
    }
}

// Runs a command that works on files.
fn use_files<D: Desk, S: Sink>(
    alloc: Global,
    command: FileCommand,
    files: &[String],
    desk: &mut D,
    out: &mut S,
) -> Ending
    requires idle { D.busy desk.old ≡ Idle }
    requires suits { SuitsFiles command (length files.now) }
    ensures busy { D.busy desk.new ≡ Idle }
    ensures holds { FileCommandLeaves command (map string_bytes files.now) result (D.holds desk.old) (D.holds desk.new) }
    ensures read_faults { CountsReads result (D.read_faults desk.old) (D.read_faults desk.new) }
    ensures missed { MissesScript (files_used command (map string_bytes files.now)) result (D.missed desk.new) }
    ensures faults { CountsBoth result (S.faults out.old) (S.faults out.new) (D.write_faults desk.old) (D.write_faults desk.new) }
    ensures never_usage { result ≢ Ending.Usage }
    ensures word { IsWordBelow (length files.now + 1) result }
    ensures output { Outputs (FileCommandOn command (map string_bytes files.now)) (D.holds desk.old) result (S.written out.old) (S.written out.new) }
{
    match command {
        FileCommand::Compile => compile(alloc, files, desk),
        FileCommand::Check => check(alloc, files, desk, out),
        FileCommand::Show => show(alloc, files, desk, out),
        FileCommand::Asm => asm(alloc, files, desk),
        FileCommand::Upgrade => upgrade(alloc, files, desk),
        FileCommand::Waits => waits(alloc, files, desk, out),
        FileCommand::Lift => lift(alloc, files, desk),
    }
}

// Runs a command that runs scripts.
fn play<D: Desk, S: Sink>(
    alloc: Global,
    command: PlayCommand,
    files: &[String],
    desk: &mut D,
    out: &mut S,
    devices: &mut Vec<Box<dyn Device>>,
) -> Ending
    requires idle { D.busy desk.old ≡ Idle }
    requires suits { SuitsPlay command (length files.now) }
    requires few_devices { vec_len devices.old ≤ 65535 }
    ensures busy { D.busy desk.new ≡ Idle }
    ensures leaves { PlayCommandLeaves command (map string_bytes files.now) result (S.written out.old) (S.written out.new) (D.holds desk.old) (D.holds desk.new) }
    ensures read_faults { CountsReads result (D.read_faults desk.old) (D.read_faults desk.new) }
    ensures missed { MissesPlayed command (map string_bytes files.now) result (D.missed desk.new) }
    ensures faults { CountsBoth result (S.faults out.old) (S.faults out.new) (D.write_faults desk.old) (D.write_faults desk.new) }
    ensures never_usage { result ≢ Ending.Usage }
    ensures word { IsWordBelow (length files.now + 1) result }
    ensures output { Outputs (PlayCommandOn command (map string_bytes files.now)) (D.holds desk.old) result (S.written out.old) (S.written out.new) }
    ensures kinds { SameKinds (map (λ d. device_state d) devices.old.items) (map (λ d. device_state d) devices.new.items) }
{
    match command {
        PlayCommand::Once => once(alloc, files, desk, out, devices),
        PlayCommand::Run => run_scripts(alloc, files, desk, out, devices),
        PlayCommand::Exec => exec(alloc, files, desk, out, devices),
        PlayCommand::Journal => journal(alloc, files, desk, out, devices),
        PlayCommand::Hold(turns) => hold(alloc, turns, files, desk, out, devices),
        PlayCommand::Resume(turns) => resume(alloc, turns, files, desk, out, devices),
        PlayCommand::Sample(workers) => sample(alloc, workers, out, devices),
    }
}

/// Runs the command that the words are, writes what it writes to `out`, and lets the scripts that it runs act
/// on the devices.
pub fn run<D: Desk, S: Sink>(
    alloc: Global,
    words: &[String],
    desk: &mut D,
    out: &mut S,
    devices: &mut Vec<Box<dyn Device>>,
) -> Ending
    requires idle { D.busy desk.old ≡ Idle }
    requires few_devices { vec_len devices.old ≤ 65535 }
    ensures busy { D.busy desk.new ≡ Idle }
    ensures files { FilesLeft (map string_bytes words.now) result (S.written out.old) (S.written out.new) (D.holds desk.old) (D.holds desk.new) }
    ensures read_faults { CountsReads result (D.read_faults desk.old) (D.read_faults desk.new) }
    ensures missed { MissesWord (map string_bytes words.now) result (D.missed desk.new) }
    ensures faults { CountsBoth result (S.faults out.old) (S.faults out.new) (D.write_faults desk.old) (D.write_faults desk.new) }
    ensures word { IsWordOf (map string_bytes words.now) result }
    ensures usage { (result ≡ Ending.Usage) ↔ (command_of (map string_bytes words.now) ≡ None) }
    ensures output { Outputs (Answers (map string_bytes words.now)) (D.holds desk.old) result (S.written out.old) (S.written out.new) }
    ensures kinds { SameKinds (map (λ d. device_state d) devices.old.items) (map (λ d. device_state d) devices.new.items) }
    ensures untouched { RunsNone (map string_bytes words.now) → map (λ d. device_state d) devices.new.items ≡ map (λ d. device_state d) devices.old.items }
{
    match command_of(words) {
        None => Ending::Usage,
        Some(Command::Help) => write_text(out, help()),
        Some(Command::Version) => write_text(out, version()),
        Some(Command::Files(command)) => use_files(alloc, command, &words[1..], desk, out),
        Some(Command::Play(command)) => play(alloc, command, &words[1..], desk, out, devices),
    }
}
