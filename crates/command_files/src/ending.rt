//! How a command ends.
ghost use Rattle.std.specs.Prelude.{◌≡◌};
ghost use Rattle.command_files.specs.Ending.{IsWordBelow, one_later};

use crate::refusal::{Place, Rule};
use papy_io::IoFault;

/// How a command ends.
#[derive(Drop)]
pub enum Ending {
    /// It did what it is for.
    Done,
    /// No memory was found.
    OutOfMemory,
    /// The words are no command.
    Usage,
    /// The file that the word of this number names was not read.
    ReadFault {
        /// The number of the word, from 0.
        word: usize,
    },
    /// The output was not written.
    WriteFault,
    /// The file that the word of this number names breaks a rule.
    Refused {
        /// The number of the word, from 0.
        word: usize,
        /// Where in the file.
        place: Place,
        /// Which rule.
        rule: Rule,
    },
    /// Accepted scripts have no compiled files. No scripts are known that end so.
    NotBuilt,
}

impl Ending {
    /// The same of words that stand one place later.
    pub fn one_later(self) -> Ending
        requires { IsWordBelow 65535 self }
        ensures { result ≡ one_later self }
    {
        match self {
            Ending::ReadFault { word } => Ending::ReadFault { word: word + 1 },
            Ending::Refused { word, place, rule } => Ending::Refused {
                word: word + 1,
                place,
                rule,
            },
            other => other,
        }
    }
}

impl From<IoFault> for Ending {
    ghost use Rattle.command_files.specs.Ending.{write_ending};

    ghost from_gives = { λ fault ending. ending ≡ write_ending fault };

    fn from(fault: IoFault) -> Ending {
        match fault {
            IoFault::Failed => Ending::WriteFault,
            IoFault::OutOfMemory => Ending::OutOfMemory,
        }
    }
}
