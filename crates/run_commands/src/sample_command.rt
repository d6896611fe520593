//! The command that runs a sample of any size.
ghost use Rattle.std.specs.Prelude.{◌≡◌, ◌≢◌, ◌+◌, ◌<◌, ◌≤◌, All, IfErr, IfOk, Option, length, map, vec_len};
ghost use Rattle.std.specs.Io.BufRead.{drop_through, take_through};
ghost use Rattle.std.specs.String.{string_bytes};
ghost use Rattle.papy_io.specs.Count.{CountsFaults};
ghost use Rattle.papy_io.specs.Files.{Files};
ghost use Rattle.pex_codec.specs.Spells.{Spells};
ghost use Rattle.pex_values.specs.Plain.{plain};
ghost use Rattle.pex_verify.specs.Files.{IsFile};
ghost use Rattle.command_files.specs.Ending.{CountsWrites, IsWordBelow};
ghost use Rattle.command_files.specs.Outputs.{Outputs};
ghost use Rattle.latent_natives.specs.Devices.{SameKinds};
ghost use Rattle.run_commands.specs.Answers.{ReadsNothing, SampleAnswers};
ghost use Rattle.scene_runner.specs.Report.{IsClosing};
ghost use Rattle.run_commands.specs.Report.{IsClosingWithin, first_lines, most_turns, sample_text, scripts_line};
ghost use Rattle.run_commands.specs.Sample.{EndsUnreported};
ghost use Rattle.papy_io.specs.Sink.{WritesText};

use crate::play::start_machine;
use crate::sample_scene::sample_scene;
use crate::sample_scripts::sample_scripts;
use command_files::{CompileFault, Ending, accept_texts, compile_set};
use latent_natives::Device;
use papy_base::{Made, OutOfMemory};
use papy_io::{IoFault, MemorySink, Sink};
use pex_codec::{PexFault, decode};
use pex_values::Pex;
use pex_verify::{Loaded, verify};
use scene_runner::{finish_turns, write_closing};
use stack_machine::{Machine, TurnFault};
use std::alloc::Global;

/// Why a sample's scripts have no compiled files, where they weren't accepted. No sample is known whose scripts
/// break a rule.
fn unaccepted(ending: Ending) -> CompileFault {
    match ending {
        Ending::OutOfMemory => CompileFault::OutOfMemory,
        other => {
            drop(other);
            CompileFault::NotBuilt
        }
    }
}

/// The bytes of the compiled files of the sample's scripts.
fn compiled_files(alloc: Global, workers: u8) -> Result<Vec<Vec<u8>>, CompileFault>
    requires { workers ≤ 200 }
    ensures { IfOk result (λ files. vec_len files ≡ workers + 1) }
{
    let scripts = match sample_scripts(alloc, workers) {
        Ok(scripts) => scripts,
        Err(_) => return Err(CompileFault::OutOfMemory),
    };
    match accept_texts(alloc, &scripts) {
        Ok(set) => Ok(compile_set(alloc, &set)?.files),
        Err(ending) => Err(unaccepted(ending)),
    }
}

/// Why a sample's own bytes spell no value. None are known that don't.
fn unread(fault: PexFault) -> CompileFault {
    match fault {
        PexFault::OutOfMemory => CompileFault::OutOfMemory,
        PexFault::Broken { .. } => CompileFault::NotBuilt,
    }
}

/// The value that all of these bytes spell.
fn decoded(alloc: Global, bytes: &[u8]) -> Result<Pex, CompileFault>
    ensures { IfOk result (λ value. Spells (plain value) bytes.now) }
{
    match decode(alloc, bytes) {
        Ok(value) => Ok(value),
        Err(fault) => Err(unread(fault)),
    }
}

fn decode_each(alloc: Global, files: &[Vec<u8>]) -> Result<Vec<Pex>, CompileFault>
    ensures count { IfOk result (λ values. vec_len values ≡ length files.now) }
    ensures valid { IfOk result (λ values. All IsFile values.items) }
{
    let mut values = Vec::with_capacity(alloc, files.len())?;
    for bytes in files {
        let value = decoded(alloc, bytes)?;
        values.push(value)?;
    }
    Ok(values)
}

/// The sample's compiled files, read from their own bytes and verified.
fn load(alloc: Global, workers: u8) -> Result<Loaded, CompileFault>
    requires { workers ≤ 200 }
{
    let files = compiled_files(alloc, workers)?;
    let values = decode_each(alloc, &files)?;
    Ok(verify(alloc, values)?)
}

/// Runs a machine to its end, and gives its closing report apart from the lines of its turns.
fn closing_of(
    alloc: Global,
    machine: &mut Machine,
    devices: &mut Vec<Box<dyn Device>>,
) -> Result<MemorySink, TurnFault>
    requires { vec_len devices.old ≡ machine.old.scene.devices }
    ensures scene { machine.new.scene ≡ machine.old.scene }
    ensures closes { IfOk result (λ closing. IsClosing machine.new.turns closing.written) }
    ensures within { IfOk result (λ _. machine.new.turns ≤ machine.new.scene.turns) }
    ensures kinds { SameKinds (map (λ d. device_state d) devices.old.items) (map (λ d. device_state d) devices.new.items) }
{
    let mut lines = MemorySink::new(alloc, Vec::new(alloc));
    finish_turns(machine, &mut lines, devices)?;
    drop(lines);
    let mut closing = MemorySink::new(alloc, Vec::new(alloc));
    write_closing(alloc, machine, &mut closing)?;
    Ok(closing)
}

/// The closing report of a sample's run, or how it ends without one.
fn report_of(
    alloc: Global,
    workers: u8,
    devices: &mut Vec<Box<dyn Device>>,
) -> Result<MemorySink, Ending>
    requires few { workers ≤ 200 }
    requires few_devices { vec_len devices.old ≤ 65535 }
    ensures report { IfOk result (λ closing. IsClosingWithin most_turns closing.written) }
    ensures ends { IfErr result EndsUnreported }
    ensures kinds { SameKinds (map (λ d. device_state d) devices.old.items) (map (λ d. device_state d) devices.new.items) }
{
    let loaded = match load(alloc, workers) {
        Ok(loaded) => loaded,
        Err(fault) => return Err(Ending::from(fault)),
    };
    let tree = match sample_scene(alloc, workers) {
        Ok(tree) => tree,
        Err(_) => {
            drop(loaded);
            return Err(Ending::OutOfMemory);
        }
    };
    let mut machine = match start_machine(alloc, loaded, tree, 0, devices) {
        Ok(machine) => machine,
        Err(ending) => return Err(ending),
    };
    let closing = closing_of(alloc, &mut machine, devices);
    drop(machine);
    match closing {
        Ok(closing) => Ok(closing),
        // A sink in memory that lists no call fails only for want of memory.
        Err(_) => Err(Ending::OutOfMemory),
    }
}

fn scripts_line(alloc: Global, workers: u8) -> Made<String>
    ensures { IfOk result (λ line. string_bytes line ≡ scripts_line workers) }
{
    let scripts = u32::from(workers) + 1;
    Ok(format!(in alloc; "scripts {scripts}\n")?)
}

/// The first line of a text with its line break, and what is behind it.
fn split_line(text: &[u8]) -> (&[u8], &[u8])
    ensures line { result.0.now ≡ take_through 10 text.now }
    ensures behind { result.1.now ≡ drop_through 10 text.now }
{
    for (place, byte) in text.iter().enumerate() {
        if *byte == b'\n' {
            return text.split_at(place + 1);
        }
    }
    (text, &[])
}

/// Writes the first three lines of a closing report, each by one call of the sink: the turns, the hub, and its total.
fn write_lines<S: Sink>(report: &[u8], out: &mut S) -> Result<(), IoFault>
    ensures written { WritesText (first_lines 3 report.now) result (S.written out.old) (S.written out.new) }
    ensures faults { CountsFaults result (S.faults out.old) (S.faults out.new) }
{
    let (turns, behind) = split_line(report);
    out.write(turns)?;
    let (hub, properties) = split_line(behind);
    out.write(hub)?;
    let (total, _) = split_line(properties);
    out.write(total)
}

/// Writes the number of scripts and the first three lines of a closing report.
fn write_sample<S: Sink>(
    alloc: Global,
    workers: u8,
    report: &[u8],
    out: &mut S,
) -> Result<(), IoFault>
    ensures written { WritesText (sample_text workers report.now) result (S.written out.old) (S.written out.new) }
    ensures faults { CountsFaults result (S.faults out.old) (S.faults out.new) }
{
    let line = scripts_line(alloc, workers)?;
    out.write(line.as_bytes())?;
    write_lines(report, out)
}

/// Makes a hub and so many workers, each of which adds its number to the hub's total a thousand times, compiles
/// them, runs their files, and writes the number of scripts and the first three lines of the closing report.
pub fn sample<S: Sink>(
    alloc: Global,
    workers: u8,
    out: &mut S,
    devices: &mut Vec<Box<dyn Device>>,
) -> Ending
    requires some { 0 < workers }
    requires few { workers ≤ 200 }
    requires few_devices { vec_len devices.old ≤ 65535 }
    ensures faults { CountsWrites result (S.faults out.old) (S.faults out.new) }
    ensures never_usage { result ≢ Ending.Usage }
    ensures reads_nothing { ReadsNothing result }
    ensures word { IsWordBelow 1 result }
    ensures output { (holds : Option Files) → Outputs (λ _. SampleAnswers workers) holds result (S.written out.old) (S.written out.new) }
    ensures kinds { SameKinds (map (λ d. device_state d) devices.old.items) (map (λ d. device_state d) devices.new.items) }
{
    let report = match report_of(alloc, workers, devices) {
        Ok(report) => report,
        Err(ending) => return ending,
    };
    match write_sample(alloc, workers, report.bytes(), out) {
        Ok(()) => Ending::Done,
        Err(fault) => Ending::from(fault),
    }
}
