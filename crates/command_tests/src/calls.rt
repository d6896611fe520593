//! Calls of the program on a desk in memory.
ghost use Rattle.std.specs.Prelude.{◌≡◌, IfOk, vec_len};
ghost use Rattle.papy_io.specs.Activity.{Idle};

use latent_natives::{Device, Dice, Latch, Sum, Tape};
use papy_io::{MemoryDesk, MemorySink};
use papyrus_cmd::papyrus;
use std::alloc::{AllocError, Global};
use std::test::Fail;

/// What a call answered: its status, and what it wrote.
#[derive(Drop)]
pub(crate) struct CommandAnswer {
    pub(crate) status: u8,
    pub(crate) out: MemorySink,
    pub(crate) notes: MemorySink,
}

pub(crate) fn words_of(alloc: Global, words: &[&str]) -> Result<Vec<String>, AllocError> {
    let mut owned = Vec::new(alloc);
    for word in words {
        owned.push(String::from_str(alloc, word)?)?;
    }
    Ok(owned)
}

/// The devices of the program.
pub(crate) fn four_devices(alloc: Global) -> Result<Vec<Box<dyn Device>>, Fail>
    ensures { IfOk result (λ devices. vec_len devices ≡ 4) }
{
    let mut devices: Vec<Box<dyn Device>> = Vec::new(alloc);
    devices.push(Box::new(alloc, Tape::new(alloc)?)?)?;
    devices.push(Box::new(alloc, Sum::new(alloc)?)?)?;
    devices.push(Box::new(alloc, Latch::new(alloc)?)?)?;
    devices.push(Box::new(alloc, Dice::new(alloc)?)?)?;
    Ok(devices)
}

fn sink(alloc: Global, failing: &[u32]) -> Result<MemorySink, AllocError> {
    Ok(MemorySink::new(alloc, Vec::from_slice(alloc, failing)?))
}

/// Runs the command of these words with these failing calls of `out` and of `notes`.
pub(crate) fn call_failing(
    alloc: Global,
    desk: &mut MemoryDesk,
    words: &[String],
    out: &[u32],
    notes: &[u32],
) -> Result<CommandAnswer, Fail>
    requires { desk.old.busy ≡ Idle }
    ensures { desk.new.busy ≡ Idle }
{
    let mut out = sink(alloc, out)?;
    let mut notes = sink(alloc, notes)?;
    let mut devices = four_devices(alloc)?;
    let status = papyrus(alloc, words, desk, &mut out, &mut notes, &mut devices);
    Ok(CommandAnswer { status, out, notes })
}
