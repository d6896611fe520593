//! The program `papyrus`: its command line, the files of the current folder, and the standard streams.
#![tactic(auto)]

use latent_natives::{Device, Dice, Latch, Sum, Tape};
use papy_base::{Made, OutOfMemory};
use papy_io::{FolderDesk, Sink, StreamSink};
use papyrus_cmd::papyrus;
use std::env;
use std::io::ErrorKind;
use std::process::ExitCode;

const OUT_OF_MEMORY: u8 = 1;

const USAGE: u8 = 2;

const CANNOT_WRITE: u8 = 4;

/// The words of the command line behind the program's name.
fn command_line(rt: &HostRuntime) -> Result<Vec<String>, ErrorKind> {
    let mut words = Vec::new(rt.alloc());
    let arguments = env::args(rt).map_err(|error| error.kind())?;
    for word in arguments.skip(1) {
        words.push(word).map_err(|_| ErrorKind::OutOfMemory)?;
    }
    Ok(words)
}

/// Words that can't be read as text are no command.
fn refuse(rt: &HostRuntime) -> u8 {
    let mut notes = StreamSink::over(rt.stderr());
    match notes.write(b"papyrus: usage\n") {
        Ok(()) => USAGE,
        Err(_) => CANNOT_WRITE,
    }
}

/// Runs the command of these words with a tape, a sum, a latch and dice.
fn run(rt: HostRuntime, words: &[String]) -> Made<u8> {
    let alloc = rt.alloc();
    let mut devices: Vec<Box<dyn Device>> = Vec::with_capacity(alloc, 4)?;
    devices.push(Box::new(alloc, Tape::new(alloc)?)?)?;
    devices.push(Box::new(alloc, Sum::new(alloc)?)?)?;
    devices.push(Box::new(alloc, Latch::new(alloc)?)?)?;
    devices.push(Box::new(alloc, Dice::new(alloc)?)?)?;
    let mut out = StreamSink::over(rt.stdout());
    let mut notes = StreamSink::over(rt.stderr());
    let mut desk = FolderDesk::over(rt, alloc);
    Ok(papyrus(alloc, words, &mut desk, &mut out, &mut notes, &mut devices))
}

fn main(rt: HostRuntime) -> ExitCode {
    let status = match command_line(&rt) {
        Ok(words) => run(rt, words.as_slice()).unwrap_or(OUT_OF_MEMORY),
        Err(ErrorKind::OutOfMemory) => OUT_OF_MEMORY,
        Err(_) => refuse(&rt),
    };
    ExitCode::from(status)
}
