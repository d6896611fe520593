//! What turns and stacks answer, and why a state gives no machine.

ghost use Rattle.std.specs.Prelude.{◌≡◌};
ghost use Rattle.stack_machine.specs.Faults.{fault_of_sink};
ghost use Rattle.stack_machine.specs.declared.status.RestoreFault.TheVariants.{OutOfMemory as NoMemoryToRestore};
ghost use Rattle.stack_machine.specs.declared.status.TurnFault.TheVariants.{OutOfMemory as TurnOutOfMemory};

use papy_base::OutOfMemory;
use papy_io::IoFault;
use std::alloc::AllocError;
use thiserror::Error;

/// How a turn ended.
#[derive(Clone, Copy, Debug, PartialEq, Eq)]
pub enum TurnEnd {
    /// The stack of this number ran.
    Ran(u16),
    /// No stack ran.
    Idle,
    /// The run has ended, and nothing has changed.
    Ended,
}

/// Why a turn didn't come to its end. The machine answers the same from then on.
#[derive(Clone, Copy, Debug, PartialEq, Eq, Error)]
pub enum TurnFault {
    /// A line of the report wasn't written.
    #[error("the report wasn't written")]
    WriteFault,
    /// No memory was found.
    #[error("out of memory")]
    OutOfMemory,
}

/// Why a state gives no machine.
#[derive(Clone, Copy, Debug, PartialEq, Eq, Error)]
pub enum RestoreFault {
    /// The state isn't sound for the scripts and the scene.
    #[error("the state isn't sound")]
    BadState,
    /// The devices are others than those of the state, in number or in kind.
    #[error("the devices are others than those of the state")]
    OtherDevices,
    /// No memory was found.
    #[error("out of memory")]
    OutOfMemory,
}

/// What a stack that has started is doing.
#[derive(Clone, Copy, Debug, PartialEq, Eq)]
pub enum Status {
    /// Its first call has returned.
    Done,
    /// It may get the next turn.
    Ready,
    /// It waits for the instance of this number.
    Waits(u16),
    /// It sleeps and is due at this turn.
    Asleep(u32),
}

impl From<OutOfMemory> for TurnFault {
    ghost from_gives = { λ _ fault. fault ≡ TurnOutOfMemory };

    fn from(_error: OutOfMemory) -> TurnFault {
        TurnFault::OutOfMemory
    }
}

impl From<AllocError> for TurnFault {
    ghost from_gives = { λ _ fault. fault ≡ TurnOutOfMemory };

    fn from(_error: AllocError) -> TurnFault {
        TurnFault::OutOfMemory
    }
}

impl From<IoFault> for TurnFault {
    ghost from_gives = { λ error fault. fault ≡ fault_of_sink error };

    fn from(error: IoFault) -> TurnFault {
        match error {
            IoFault::Failed => TurnFault::WriteFault,
            IoFault::OutOfMemory => TurnFault::OutOfMemory,
        }
    }
}

impl From<OutOfMemory> for RestoreFault {
    ghost from_gives = { λ _ fault. fault ≡ NoMemoryToRestore };

    fn from(_error: OutOfMemory) -> RestoreFault {
        RestoreFault::OutOfMemory
    }
}
