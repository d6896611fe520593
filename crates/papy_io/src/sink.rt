//! What takes bytes one piece after another: a trait, a sink in memory, and a sink over a writer of std.
ghost use Rattle.std.specs.Prelude.{◌≡◌, ◌↔◌, ℕ, List, [], Contains, IsErrOf, OnOk, None, Some, Option};
ghost use Rattle.std.specs.Io.KnownBytes.{Appends};
ghost use Rattle.papy_io.specs.declared.fault.IoFault.TheVariants as io;
ghost use Rattle.papy_io.specs.Count.{CountsFaults};
ghost use Rattle.papy_io.specs.MemorySink.{MemoryWrites};
ghost use Rattle.papy_io.specs.Sink.{SinkWrites};

use crate::fault::IoFault;
use crate::numbers::{counted, is_listed};
use std::alloc::Global;
use std::io;
use std::io::Write;
use std::marker::Model;

/// What takes bytes one piece after another, as standard output does.
///
/// `written` is all that was written, where the sink tells its bytes. `faults` is the number of
/// calls that failed. It has 64 bits and stays at its last value.
pub trait Sink {
    ghost written: { Self → Option (List ℕ) };

    ghost faults: { Self → ℕ };

    /// Appends all bytes. After `Failed` some of the first bytes may have been appended, and after
    /// `OutOfMemory` nothing has changed.
    fn write(&mut self, bytes: &[u8]) -> Result<(), IoFault>
        ensures written { SinkWrites result bytes.now (written self.old) (written self.new) }
        ensures faults { CountsFaults result (faults self.old) (faults self.new) };
}

/// A sink in memory, whose calls of `write` fail where their numbers are listed.
///
/// A clause sees what was `written`, the numbers of the `failing` calls, the number of `calls` that
/// were made, which is that of the next, and the number of `faults`.
#[derive(Drop)]
pub struct MemorySink {
    written: Vec<u8>,
    failing: Vec<u32>,
    calls: u64,
    faults: u64,
}

impl Model for MemorySink {
    ghost use Rattle.papy_io.specs.MemorySink.{SinkState};

    ghost Value = { SinkState };

    ghost view = { λ s. record { written = s.written.items; failing = s.failing.items; calls = s.calls; faults = s.faults } };
}

impl MemorySink {
    /// An empty sink. A call of `write` fails exactly where its number, from 0, is in the list.
    pub fn new(alloc: Global, failing: Vec<u32>) -> MemorySink
        ensures { result ≡ record { written = []; failing = failing.items; calls = 0; faults = 0 } }
    {
        MemorySink {
            written: Vec::new(alloc),
            failing,
            calls: 0,
            faults: 0,
        }
    }

    /// What was written.
    pub fn bytes(&self) -> &[u8]
        ensures { result.now ≡ self.now.written }
    {
        self.written.as_slice()
    }
}

impl Sink for MemorySink {
    ghost written = { λ s. Some s.written };

    ghost faults = { λ s. s.faults };

    /// Appends all bytes. The call fails, and takes no bytes, exactly where its number is listed. A
    /// call that finds no memory has no number.
    fn write(&mut self, bytes: &[u8]) -> Result<(), IoFault>
        ensures failed { IsErrOf result io.Failed ↔ Contains self.old.failing self.old.calls }
        ensures after { MemoryWrites result bytes.now self.old self.new }
        ensures written { SinkWrites result bytes.now (Some self.old.written) (Some self.new.written) }
        ensures faults { CountsFaults result self.old.faults self.new.faults }
    {
        if is_listed(&self.failing, self.calls) {
            self.calls = counted(self.calls);
            self.faults = counted(self.faults);
            return Err(IoFault::Failed);
        }
        self.written.extend_from_slice(bytes)?;
        self.calls = counted(self.calls);
        Ok(())
    }
}

/// A sink over a writer of std, as standard output. It tells no bytes.
///
/// A clause sees the `writer` and the number of `faults`. What `Ok` is answered for was flushed, so
/// that no failure stays unseen in a buffer.
#[derive(Drop)]
pub struct StreamSink<W: Write + Drop> {
    writer: W,
    faults: u64,
}

impl<W: Write + Drop> Model for StreamSink<W> {
    ghost use Rattle.papy_io.specs.StreamSink.{StreamState};

    ghost Value = { StreamState W };

    ghost view = { λ s. record { writer = s.writer; faults = s.faults } };
}

impl<W: Write + Drop> StreamSink<W> {
    /// A sink that hands all bytes to this writer.
    pub fn over(writer: W) -> StreamSink<W>
        ensures { result ≡ record { writer = writer; faults = 0 } }
    {
        StreamSink { writer, faults: 0 }
    }
}

/// Writes all bytes and flushes them.
fn write_out<W: Write>(writer: &mut W, bytes: &[u8]) -> io::Result<()>
    ensures { OnOk result (Appends (W.contents writer.old) (W.contents writer.new) bytes.now) }
{
    writer.write_all(bytes)?;
    writer.flush()
}

impl<W: Write + Drop> Sink for StreamSink<W> {
    ghost written = { λ _. None };

    ghost faults = { λ s. s.faults };

    /// Appends all bytes. Each error of the writer counts as a fault. A writer that tells its contents
    /// has got all bytes after `Ok`.
    fn write(&mut self, bytes: &[u8]) -> Result<(), IoFault>
        ensures written { SinkWrites result bytes.now None None }
        ensures faults { CountsFaults result self.old.faults self.new.faults }
        ensures contents { OnOk result (Appends (W.contents self.old.writer) (W.contents self.new.writer) bytes.now) }
    {
        if write_out(&mut self.writer, bytes).is_err() {
            self.faults = counted(self.faults);
            return Err(IoFault::Failed);
        }
        Ok(())
    }
}
