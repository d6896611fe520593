ghost use Rattle.std.specs.Prelude.{◌≡◌};
ghost use Rattle.scene_reader.specs.SceneText.{part_fault, text_fault};
ghost use Rattle.scene_reader.specs.declared.fault.PartFault.TheVariants.{OutOfMemory as NoPartMemory};
ghost use Rattle.scene_reader.specs.declared.fault.ReadFault.TheVariants.{Invalid as NoJson, OutOfMemory as NoRoom};
ghost use Rattle.scene_reader.specs.declared.fault.SceneFault.TheVariants.{OutOfMemory as NoMemory};

use json::Invalid;
use papy_base::OutOfMemory;
use std::alloc::{AllocError, AllocFailed};
use thiserror::Error;

/// The rules of scenes, in the order of their numbers, C1 to C10.
#[derive(Clone, Copy, Debug, PartialEq, Eq, PartialOrd, Ord)]
pub enum SceneRule {
    /// C1: the file is no JSON text.
    NotJson,
    /// C2: a key is missing, isn't allowed in its place or in this version, or has a value of another form.
    Shape,
    /// C3: the file is over 16 MiB, or a number, a text or a list passes its limit.
    Limit,
    /// C4: an instance's script is none of the set, or is Debug, Utility or Scene.
    NoScript,
    /// C5: an instance sets what is no Auto property of its script or of a parent.
    NoProperty,
    /// C6: a call names no instance or no function that it may call, or a key of `natives` no native function.
    NoFunction,
    /// C7: a value isn't of the type that its place asks for, or a call has another number of arguments.
    Arguments,
    /// C8: a native function has no binding, or one that its types don't allow.
    UnboundNative,
    /// C9: a binding or a tape is for a device that isn't there.
    NoDevice,
    /// C10: two instances, two entries of one `set` or two of `natives` have one name.
    DuplicateName,
}

/// Why a scene is refused.
#[derive(Clone, Copy, Debug, PartialEq, Eq, Error)]
pub enum SceneFault {
    /// The first broken rule.
    #[error("{rule:?}")]
    Broken { rule: SceneRule },
    /// No memory was found.
    #[error("out of memory")]
    OutOfMemory,
}

impl SceneFault {
    /// The fault of a broken rule.
    pub fn of(rule: SceneRule) -> SceneFault
        ensures { result ≡ SceneFault.Broken rule }
    {
        SceneFault::Broken { rule }
    }

    // The fault of a text without a JSON value.
    pub(crate) fn of_text(fault: ReadFault) -> SceneFault
        ensures { result ≡ text_fault fault }
    {
        match fault {
            ReadFault::Invalid => SceneFault::of(SceneRule::NotJson),
            ReadFault::OutOfMemory => SceneFault::OutOfMemory,
        }
    }

    // A part's fault as the scene's.
    pub(crate) fn of_part(part: PartFault) -> SceneFault
        ensures { result ≡ part_fault part }
    {
        match part {
            PartFault::Shape => SceneFault::of(SceneRule::Shape),
            PartFault::OutOfMemory => SceneFault::OutOfMemory,
        }
    }
}

impl From<OutOfMemory> for SceneFault {
    ghost from_gives = { λ _ fault. fault ≡ NoMemory };

    fn from(_error: OutOfMemory) -> SceneFault {
        SceneFault::OutOfMemory
    }
}

impl From<AllocError> for SceneFault {
    ghost from_gives = { λ _ fault. fault ≡ NoMemory };

    fn from(_error: AllocError) -> SceneFault {
        SceneFault::OutOfMemory
    }
}

impl<T: Drop> From<AllocFailed<T>> for SceneFault {
    ghost from_gives = { λ _ fault. fault ≡ NoMemory };

    fn from(_error: AllocFailed<T>) -> SceneFault {
        SceneFault::OutOfMemory
    }
}

/// Why a JSON value is no part of a scene. A broken limit is noted and told later, since a fault of shape comes first.
#[derive(Clone, Copy)]
pub(crate) enum PartFault {
    /// It hasn't the form of the part.
    Shape,
    /// No memory was found.
    OutOfMemory,
}

impl From<OutOfMemory> for PartFault {
    ghost from_gives = { λ _ fault. fault ≡ NoPartMemory };

    fn from(_error: OutOfMemory) -> PartFault {
        PartFault::OutOfMemory
    }
}

impl From<AllocError> for PartFault {
    ghost from_gives = { λ _ fault. fault ≡ NoPartMemory };

    fn from(_error: AllocError) -> PartFault {
        PartFault::OutOfMemory
    }
}

impl<T: Drop> From<AllocFailed<T>> for PartFault {
    ghost from_gives = { λ _ fault. fault ≡ NoPartMemory };

    fn from(_error: AllocFailed<T>) -> PartFault {
        PartFault::OutOfMemory
    }
}

/// Why a text's JSON value wasn't read.
#[derive(Clone, Copy)]
pub(crate) enum ReadFault {
    /// It has none.
    Invalid,
    /// No memory was found.
    OutOfMemory,
}

impl From<Invalid> for ReadFault {
    ghost from_gives = { λ _ fault. fault ≡ NoJson };

    fn from(_error: Invalid) -> ReadFault {
        ReadFault::Invalid
    }
}

impl From<AllocError> for ReadFault {
    ghost from_gives = { λ _ fault. fault ≡ NoRoom };

    fn from(_error: AllocError) -> ReadFault {
        ReadFault::OutOfMemory
    }
}

impl<T: Drop> From<AllocFailed<T>> for ReadFault {
    ghost from_gives = { λ _ fault. fault ≡ NoRoom };

    fn from(_error: AllocFailed<T>) -> ReadFault {
        ReadFault::OutOfMemory
    }
}
