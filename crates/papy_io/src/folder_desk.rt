//! A desk over the files of the current folder.
ghost use Rattle.std.specs.Prelude.{◌≡◌, List, ℕ, None, Option};
ghost use Rattle.papy_io.specs.Activity.{Idle, IsReading, IsWriting};
ghost use Rattle.papy_io.specs.Desk.{MissesRead, ReadsOn};
ghost use Rattle.papy_io.specs.FolderWork.{activity_of, missed_of};

use crate::desk::Desk;
use crate::fault::{Failed, IoFault};
use crate::numbers::{counted, counted_by};
use std::alloc::Global;
use std::io::{Read, Write};
use std::marker::Model;
use std::rt::Files;
use std::{fs, mem, str};

/// What the desk works on.
#[derive(Drop)]
enum FolderWork<F> {
    Idle,
    Reading {
        name: Vec<u8>,
        file: F,
        /// Whether a call has failed since the start.
        is_missed: bool,
    },
    Writing {
        name: Vec<u8>,
        file: F,
    },
}

impl<F: Read + Write> FolderWork<F> {
    fn read(&mut self, buffer: &mut [u8]) -> Result<usize, Failed>
        requires { IsReading (activity_of self.old) }
        ensures busy { ReadsOn (activity_of self.old) result buffer.new (activity_of self.new) }
        ensures missed { (earlier : Option (List ℕ)) →
            MissesRead (activity_of self.old) result (missed_of self.old earlier) (missed_of self.new earlier) }
    {
        match self {
            FolderWork::Reading {
                file,
                is_missed,
                ..
            } => match file.read(buffer) {
                Ok(count) => Ok(count),
                Err(_) => {
                    *is_missed = true;
                    Err(Failed)
                }
            },
            _ => unreachable!(),
        }
    }

    fn write(&mut self, bytes: &[u8]) -> Result<(), Failed>
        requires { IsWriting (activity_of self.old) }
        ensures busy { activity_of self.new ≡ activity_of self.old }
        ensures missed { (earlier : Option (List ℕ)) → missed_of self.new earlier ≡ missed_of self.old earlier }
    {
        match self {
            FolderWork::Writing { file, .. } => file.write_all(bytes).map_err(|_| Failed),
            _ => unreachable!(),
        }
    }
}

/// Opens a file to read it. A name that isn't UTF-8 is no file's.
fn open<R: Files>(rt: &R, name: &[u8]) -> Result<R::File, Failed> {
    let path = str::from_utf8(name).map_err(|_| Failed)?;
    fs::open(rt, path).map_err(|_| Failed)
}

/// Makes an empty file, or empties the one that is there.
fn create<R: Files>(rt: &R, name: &[u8]) -> Result<R::File, Failed> {
    let path = str::from_utf8(name).map_err(|_| Failed)?;
    fs::create(rt, path).map_err(|_| Failed)
}

/// A desk over the files of the current folder. It tells no bytes.
///
/// Each call that the system refuses, and each name that isn't UTF-8, counts as a fault.
#[derive(Drop)]
pub struct FolderDesk<R: Files + Drop> {
    rt: R,
    alloc: Global,
    work: FolderWork<R::File>,
    /// The name that was missed last before the current work.
    missed_before: Option<Vec<u8>>,
    taken: u64,
    read_faults: u64,
    write_faults: u64,
}

impl<R: Files + Drop> Model for FolderDesk<R> {
    ghost use Rattle.std.specs.Prelude.{List, ℕ};
    ghost use Rattle.std.specs.Option.{option_map};
    ghost use Rattle.papy_io.specs.DeskState.{DeskState};
    ghost use Rattle.papy_io.specs.FolderWork.{activity_of, missed_of};

    ghost Value = { DeskState };

    ghost view = { λ d. record {
      busy = activity_of d.work;
      taken = d.taken;
      read_faults = d.read_faults;
      write_faults = d.write_faults;
      missed = missed_of d.work (option_map (λ name. name.items) d.missed_before);
    } };
}

impl<R: Files + Drop> FolderDesk<R> {
    /// An idle desk over the files of the current folder, which it reaches through the runtime.
    pub fn over(rt: R, alloc: Global) -> FolderDesk<R>
        ensures { result ≡ record { busy = Idle; taken = 0; read_faults = 0; write_faults = 0; missed = None } }
    {
        FolderDesk {
            rt,
            alloc,
            work: FolderWork::Idle,
            missed_before: None,
            taken: 0,
            read_faults: 0,
            write_faults: 0,
        }
    }
}

impl<R: Files + Drop> Desk for FolderDesk<R> {
    ghost holds = { λ _. None };

    ghost busy = { λ d. d.busy };

    ghost taken = { λ d. d.taken };

    ghost read_faults = { λ d. d.read_faults };

    ghost write_faults = { λ d. d.write_faults };

    ghost missed = { λ d. d.missed };

    fn start_read(&mut self, name: &[u8]) -> Result<(), IoFault> {
        let kept = Vec::from_slice(self.alloc, name)?;
        let Ok(file) = open(&self.rt, name) else {
            self.missed_before = Some(kept);
            self.read_faults = counted(self.read_faults);
            return Err(IoFault::Failed);
        };
        self.work = FolderWork::Reading {
            name: kept,
            file,
            is_missed: false,
        };
        Ok(())
    }

    fn read(&mut self, buffer: &mut [u8]) -> Result<usize, Failed> {
        match self.work.read(buffer) {
            Ok(count) => {
                self.taken = counted_by(self.taken, count as u64);
                Ok(count)
            }
            Err(Failed) => {
                self.read_faults = counted(self.read_faults);
                Err(Failed)
            }
        }
    }

    fn start_write(&mut self, name: &[u8]) -> Result<(), IoFault> {
        let kept = Vec::from_slice(self.alloc, name)?;
        let Ok(file) = create(&self.rt, name) else {
            self.write_faults = counted(self.write_faults);
            return Err(IoFault::Failed);
        };
        self.work = FolderWork::Writing { name: kept, file };
        Ok(())
    }

    fn write(&mut self, bytes: &[u8]) -> Result<(), IoFault> {
        if self.work.write(bytes).is_err() {
            self.write_faults = counted(self.write_faults);
            return Err(IoFault::Failed);
        }
        Ok(())
    }

    fn finish(&mut self) -> Result<(), Failed> {
        match mem::replace(&mut self.work, FolderWork::Idle) {
            FolderWork::Idle => unreachable!(),
            FolderWork::Reading {
                name,
                is_missed,
                ..
            } => {
                if is_missed {
                    self.missed_before = Some(name);
                }
                Ok(())
            }
            FolderWork::Writing { mut file, .. } => match file.flush() {
                Ok(()) => Ok(()),
                Err(_) => {
                    self.write_faults = counted(self.write_faults);
                    Err(Failed)
                }
            },
        }
    }
}
