//! A desk in memory, for tests.
ghost use Rattle.std.specs.Prelude.{◌≡◌, ◌↔◌, ◌⊎◌, ◌≢◌, ℕ, ◌<◌, min, take, length, List, Option, None, Some, Ok, Err, IsSome, IsErrOf, IsErr, OnOk, OnErr};
ghost use Rattle.std.specs.Option.{option_copied};
ghost use Rattle.std.specs.FinMap as map;
ghost use Rattle.papy_io.specs.declared.fault.IoFault.TheVariants as io;
ghost use Rattle.papy_io.specs.Activity.{Idle, IsReading, IsWriting};
ghost use Rattle.papy_io.specs.Count.{CountsFaults, CountsFailures};
ghost use Rattle.papy_io.specs.Desk.{CountsReadFinish, CountsTaken, CountsWriteFinish, ReadsOn, StartsFile, WritesOn};
ghost use Rattle.papy_io.specs.Files.{Files};
ghost use Rattle.papy_io.specs.MemoryDesk.{IsToFail, StartsReadIn, ReadsIn, StartsWriteIn, WritesIn, FinishesIn, empty_desk};
ghost use Rattle.papy_io.specs.MemoryWork.{activity_in, missed_in, IsReadingWork, MissesFailed, WorksOn};

use crate::desk::Desk;
use crate::fault::{Failed, IoFault};
use crate::memory_files::MemoryFiles;
use crate::numbers::{counted, counted_by, is_listed};
use papy_base::Made;
use std::alloc::Global;
use std::marker::Model;
use std::mem;

/// What the desk works on.
#[derive(Drop)]
enum MemoryWork {
    Idle,
    Reading {
        name: Vec<u8>,
        /// How many bytes were read.
        at: usize,
        /// Whether a call has failed since the start.
        is_missed: bool,
    },
    Writing {
        name: Vec<u8>,
    },
}

/// Copies as many bytes as fit, and gives their number.
fn copy_front(bytes: &[u8], buffer: &mut [u8]) -> usize
    ensures count { result ≡ min (length bytes.now) (length buffer.old) }
    ensures front { take result buffer.new ≡ take result bytes.now }
{
    let count = bytes.len().min(buffer.len());
    buffer[..count].copy_from_slice(&bytes[..count]);
    count
}

impl MemoryWork {
    /// Reads the next bytes of the name.
    fn read(&mut self, files: &MemoryFiles, buffer: &mut [u8]) -> usize
        requires reading { IsReading (activity_in files.now self.old) }
        requires place { WorksOn files.now self.old }
        requires room { 0 < length buffer.old }
        ensures busy { ReadsOn (activity_in files.now self.old) (Ok result) buffer.new (activity_in files.now self.new) }
        ensures place { WorksOn files.now self.new }
        ensures missed { (earlier : Option (List ℕ)) → missed_in self.new earlier ≡ missed_in self.old earlier }
    {
        match self {
            MemoryWork::Reading { name, at, .. } => match files.get(name) {
                Some(bytes) => {
                    let count = copy_front(&bytes[*at..], buffer);
                    *at += count;
                    count
                }
                None => unreachable!(),
            },
            _ => unreachable!(),
        }
    }

    /// Notes that a call has failed while the name was read.
    fn miss(&mut self)
        requires { IsReadingWork self.old }
        ensures busy { (files : Files) → activity_in files self.new ≡ activity_in files self.old }
        ensures place { (files : Files) → WorksOn files self.old → WorksOn files self.new }
        ensures missed { (files : Files) (earlier : Option (List ℕ)) → MissesFailed (activity_in files self.old) (missed_in self.new earlier) }
    {
        match self {
            MemoryWork::Reading { is_missed, .. } => *is_missed = true,
            _ => unreachable!(),
        }
    }
}

/// A desk in memory, whose calls fail where their numbers are listed.
///
/// A clause sees the `files`, what the desk is `busy` with, how many bytes were `taken`, the counts
/// `read_faults` and `write_faults`, the name that was `missed` last, the numbers of the `failing`
/// calls, and the number of `calls` that were made, which is that of the next. A call that finds no
/// memory has no number. Finding a name takes time in proportion to the logarithm of their number.
#[derive(Drop)]
pub struct MemoryDesk {
    alloc: Global,
    files: MemoryFiles,
    work: MemoryWork,
    /// The name that was missed last before the current work.
    missed_before: Option<Vec<u8>>,
    taken: u64,
    read_faults: u64,
    write_faults: u64,
    failing: Vec<u32>,
    calls: u64,
}

impl Model for MemoryDesk {
    ghost use Rattle.std.specs.Prelude.{List, ℕ};
    ghost use Rattle.std.specs.Option.{option_map};
    ghost use Rattle.std.specs.FinMap as map;
    ghost use Rattle.papy_io.specs.MemoryDesk.{MemoryState, coded_state};

    ghost Value = { MemoryState };

    ghost coded = { coded_state };

    ghost use Rattle.papy_io.specs.MemoryWork.{activity_in, missed_in, WorksOn};

    ghost view = { λ d. record {
      files = d.files;
      busy = activity_in d.files d.work;
      taken = d.taken;
      read_faults = d.read_faults;
      write_faults = d.write_faults;
      missed = missed_in d.work (option_map (λ name. name.items) d.missed_before);
      failing = d.failing.items;
      calls = d.calls;
    } };

    ghost invariant = { λ d. WorksOn d.files d.work };
}

impl MemoryDesk {
    /// An empty desk. A call of the trait fails exactly where its number, from 0, is in the list, or
    /// where it starts to read a name that is not held.
    pub fn new(alloc: Global, failing: Vec<u32>) -> MemoryDesk
        ensures { result ≡ empty_desk failing.items }
    {
        MemoryDesk {
            alloc,
            files: MemoryFiles::new(alloc),
            work: MemoryWork::Idle,
            missed_before: None,
            taken: 0,
            read_faults: 0,
            write_faults: 0,
            failing,
            calls: 0,
        }
    }

    /// Makes a name hold these bytes. It is no call of the trait and has no number.
    pub fn put(&mut self, name: &[u8], bytes: &[u8]) -> Made<()>
        requires { self.old.busy ≡ Idle }
        ensures ok { OnOk result (self.new ≡ record self.old { files = map.insert self.old.files name.now bytes.now }) }
        ensures err { OnErr result (self.new ≡ self.old) }
    {
        let name = Vec::from_slice(self.alloc, name)?;
        let bytes = Vec::from_slice(self.alloc, bytes)?;
        self.files.insert(name, bytes)?;
        Ok(())
    }

    /// The bytes that a name holds.
    pub fn bytes_of(&self, name: &[u8]) -> Option<&[u8]>
        ensures { option_copied result ≡ map.get self.now.files name.now }
    {
        self.files.get(name)
    }
}

impl Desk for MemoryDesk {
    ghost holds = { λ d. Some d.files };

    ghost busy = { λ d. d.busy };

    ghost taken = { λ d. d.taken };

    ghost read_faults = { λ d. d.read_faults };

    ghost write_faults = { λ d. d.write_faults };

    ghost missed = { λ d. d.missed };

    /// Starts to read a name at its first byte. The call fails exactly where its number is listed or
    /// the name is not held.
    fn start_read(&mut self, name: &[u8]) -> Result<(), IoFault>
        requires { self.old.busy ≡ Idle }
        ensures ok { OnOk result ((¬ IsToFail self.old) × IsSome (map.get self.old.files name.now)) }
        ensures failed { IsErrOf result io.Failed → IsToFail self.old ⊎ (map.get self.old.files name.now ≡ None) }
        ensures after { StartsReadIn name.now result self.old self.new }
        ensures read_faults { CountsFaults result self.old.read_faults self.new.read_faults }
    {
        let kept = Vec::from_slice(self.alloc, name)?;
        if is_listed(&self.failing, self.calls) || self.files.get(name).is_none() {
            self.missed_before = Some(kept);
            self.read_faults = counted(self.read_faults);
            self.calls = counted(self.calls);
            return Err(IoFault::Failed);
        }
        self.work = MemoryWork::Reading {
            name: kept,
            at: 0,
            is_missed: false,
        };
        self.calls = counted(self.calls);
        Ok(())
    }

    /// Puts the next bytes into the front of the buffer and gives their number, 0 at the end. The call
    /// fails exactly where its number is listed.
    fn read(&mut self, buffer: &mut [u8]) -> Result<usize, Failed>
        requires reading { IsReading self.old.busy }
        requires room { 0 < length buffer.old }
        ensures failed { IsErr result ↔ IsToFail self.old }
        ensures after { ReadsIn self.old.busy result self.old self.new }
        ensures busy { ReadsOn self.old.busy result buffer.new self.new.busy }
        ensures taken { CountsTaken result self.old.taken self.new.taken }
        ensures read_faults { CountsFailures result self.old.read_faults self.new.read_faults }
    {
        let is_to_fail = is_listed(&self.failing, self.calls);
        self.calls = counted(self.calls);
        if is_to_fail {
            self.work.miss();
            self.read_faults = counted(self.read_faults);
            return Err(Failed);
        }
        let count = self.work.read(&self.files, buffer);
        self.taken = counted_by(self.taken, count as u64);
        Ok(count)
    }

    /// Starts to write a name, which holds no bytes then. The call fails, and changes no file, exactly
    /// where its number is listed.
    fn start_write(&mut self, name: &[u8]) -> Result<(), IoFault>
        requires { self.old.busy ≡ Idle }
        ensures failed { IsErrOf result io.Failed ↔ IsToFail self.old }
        ensures after { StartsWriteIn name.now result self.old self.new }
        ensures holds { StartsFile name.now result (Some self.old.files) (Some self.new.files) }
        ensures write_faults { CountsFaults result self.old.write_faults self.new.write_faults }
    {
        if is_listed(&self.failing, self.calls) {
            self.write_faults = counted(self.write_faults);
            self.calls = counted(self.calls);
            return Err(IoFault::Failed);
        }
        let kept = Vec::from_slice(self.alloc, name)?;
        self.put(name, &[])?;
        self.work = MemoryWork::Writing { name: kept };
        self.calls = counted(self.calls);
        Ok(())
    }

    /// Appends all bytes to the name that is written. The call fails, and takes no bytes, exactly where
    /// its number is listed.
    fn write(&mut self, bytes: &[u8]) -> Result<(), IoFault>
        requires { IsWriting self.old.busy }
        ensures failed { IsErrOf result io.Failed ↔ IsToFail self.old }
        ensures after { WritesIn self.old.busy bytes.now result self.old self.new }
        ensures holds { WritesOn self.old.busy result bytes.now (Some self.old.files) (Some self.new.files) }
        ensures write_faults { CountsFaults result self.old.write_faults self.new.write_faults }
    {
        if is_listed(&self.failing, self.calls) {
            self.write_faults = counted(self.write_faults);
            self.calls = counted(self.calls);
            return Err(IoFault::Failed);
        }
        match &self.work {
            MemoryWork::Writing { name } => self.files.append(name.as_slice(), bytes)?,
            _ => unreachable!(),
        }
        self.calls = counted(self.calls);
        Ok(())
    }

    /// Ends the reading or the writing. The call fails exactly where its number is listed.
    fn finish(&mut self) -> Result<(), Failed>
        requires { self.old.busy ≢ Idle }
        ensures failed { IsErr result ↔ IsToFail self.old }
        ensures after { FinishesIn self.old.busy result self.old self.new }
        ensures read_faults { CountsReadFinish self.old.busy result self.old.read_faults self.new.read_faults }
        ensures write_faults { CountsWriteFinish self.old.busy result self.old.write_faults self.new.write_faults }
    {
        let is_to_fail = is_listed(&self.failing, self.calls);
        self.calls = counted(self.calls);
        match mem::replace(&mut self.work, MemoryWork::Idle) {
            MemoryWork::Idle => unreachable!(),
            MemoryWork::Reading {
                name,
                is_missed,
                ..
            } => {
                if is_to_fail || is_missed {
                    self.missed_before = Some(name);
                }
                if is_to_fail {
                    self.read_faults = counted(self.read_faults);
                    return Err(Failed);
                }
            }
            MemoryWork::Writing { .. } => {
                if is_to_fail {
                    self.write_faults = counted(self.write_faults);
                    return Err(Failed);
                }
            }
        }
        Ok(())
    }
}
