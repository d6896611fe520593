//! Why a file that a command reads gave nothing.
ghost use Rattle.std.specs.Prelude.{◌≡◌};
ghost use Rattle.command_files.specs.FileFault.{ending_at};

use crate::ending::Ending;
use crate::refusal::{Place, Rule};
use papy_base::OutOfMemory;
use papy_io::IoFault;

/// Why a file that a command reads gave nothing.
#[derive(Drop)]
pub enum FileFault {
    /// It was not read.
    ReadFault,
    /// No memory was found.
    OutOfMemory,
    /// It breaks a rule.
    Refused { place: Place, rule: Rule },
}

impl FileFault {
    /// How a command ends whose word of this number, from 0, names the file.
    pub fn at_word(self, word: usize) -> Ending
        ensures { result ≡ ending_at word self }
    {
        match self {
            FileFault::ReadFault => Ending::ReadFault { word },
            FileFault::OutOfMemory => Ending::OutOfMemory,
            FileFault::Refused { place, rule } => Ending::Refused { word, place, rule },
        }
    }
}

impl From<IoFault> for FileFault {
    ghost use Rattle.command_files.specs.FileFault.{start_fault};

    ghost from_gives = { λ fault found. found ≡ start_fault fault };

    fn from(fault: IoFault) -> FileFault {
        match fault {
            IoFault::Failed => FileFault::ReadFault,
            IoFault::OutOfMemory => FileFault::OutOfMemory,
        }
    }
}

impl From<OutOfMemory> for FileFault {
    ghost use Rattle.command_files.specs.declared.file_fault.FileFault.TheVariants as file;

    ghost from_gives = { λ _ found. found ≡ file.OutOfMemory };

    fn from(_: OutOfMemory) -> FileFault {
        FileFault::OutOfMemory
    }
}
