ghost use Rattle.std.specs.Prelude.{◌≡◌, IsTrue, OnOk};
ghost use Rattle.pex_verify.specs.declared.fault.VerifyFault.TheVariants.{OutOfMemory as NoMemory};

use papy_base::{Fault, Made, OutOfMemory, Text};
use std::alloc::{AllocError, AllocFailed, Global};
use thiserror::Error;

/// The rules of files that run together, in the order of their numbers, V1 to V14.
#[derive(Clone, Copy, Debug, PartialEq, Eq, PartialOrd, Ord)]
pub enum VerifyRule {
    /// V1: an instruction is fadd, fsub, fmul, fdiv or fneg.
    FloatOpcode,
    /// V2: a type name is Float or Float[], or a value is a float.
    FloatValue,
    /// V3: the parent is no object of the set, or is Debug, Utility or Scene.
    UnknownParent,
    /// V4: an object is above itself.
    ParentCycle,
    /// V5: an earlier object, member, parameter or local has the name, or a parent has the property.
    DuplicateName,
    /// V6: an identifier that is read or written names nothing that is seen there.
    UnknownVariable,
    /// V7: an operand, a type name, an initial value or a returned value isn't of the form or type that its
    /// place asks for.
    OperandType,
    /// V8: a jump leads before the first instruction or past the function's end.
    JumpRange,
    /// V9: a call has another number of arguments than the function has parameters.
    ArgumentCount,
    /// V10: a function or a property isn't there, or isn't what its use asks for.
    UnknownFunction,
    /// V11: a function differs from the one that it replaces.
    SignatureDiffers,
    /// V12: a text has over 1,024 bytes, or the name of an object or of its auto state over 255.
    TextTooLong,
    /// V13: a function has over 8,192 parameters and locals, or the set over 4,096 objects.
    TooMany,
    /// V14: a property's variable or function isn't what its bits ask for.
    BadPropertyBits,
}

/// Why files can't run together.
#[derive(Debug, Drop, Error)]
pub enum VerifyFault {
    /// The first broken rule, with its place: the file's number from 0; the object's name; the name of the
    /// variable, property, state or state's function, where the place lies in one (in a function of a
    /// property it is the property's); and the instruction's number, where it is one.
    #[error("file {file}: {rule:?}")]
    Broken {
        file: u16,
        object: Text,
        member: Option<Text>,
        at: Option<u16>,
        rule: VerifyRule,
    },
    /// No memory was found.
    #[error("out of memory")]
    OutOfMemory,
}

impl From<OutOfMemory> for VerifyFault {
    ghost from_gives = { λ _ fault. fault ≡ NoMemory };

    fn from(_error: OutOfMemory) -> VerifyFault {
        VerifyFault::OutOfMemory
    }
}

impl From<AllocError> for VerifyFault {
    ghost from_gives = { λ _ fault. fault ≡ NoMemory };

    fn from(_error: AllocError) -> VerifyFault {
        VerifyFault::OutOfMemory
    }
}

impl<T: Drop> From<AllocFailed<T>> for VerifyFault {
    ghost from_gives = { λ _ fault. fault ≡ NoMemory };

    fn from(_error: AllocFailed<T>) -> VerifyFault {
        VerifyFault::OutOfMemory
    }
}

/// The rule that a part of an object breaks, and the number of the instruction, where it is one.
#[derive(Clone, Copy)]
pub(crate) struct Breach {
    at: Option<u16>,
    rule: VerifyRule,
}

/// Why a part of an object is refused, before its place is named.
pub(crate) type Refusal = Fault<Breach>;

pub(crate) fn refused(rule: VerifyRule) -> Refusal {
    Fault::Broken(Breach { at: None, rule })
}

/// The same at the instruction of this number.
pub(crate) fn at_instruction(place: usize, refusal: Refusal) -> Refusal {
    let at = Some(place.min(usize::from(u16::MAX)) as u16);
    match refusal {
        Fault::Broken(Breach { rule, .. }) => Fault::Broken(Breach { at, rule }),
        Fault::OutOfMemory => Fault::OutOfMemory,
    }
}

/// What keeps the rules, or why it is refused.
pub(crate) type Judged<T> = Result<T, Refusal>;

/// What is valid, or the first fault in it.
pub(crate) type Valid<T> = Result<T, VerifyFault>;

/// The rule is broken unless this holds.
pub(crate) fn check(holds: bool, rule: VerifyRule) -> Judged<()>
    ensures { OnOk result (IsTrue holds) }
{
    if holds { Ok(()) } else { Err(refused(rule)) }
}

/// An object, as faults name it.
#[derive(Clone, Copy)]
pub(crate) struct Site<'a> {
    pub(crate) file: u16,
    pub(crate) object: &'a [u8],
}

impl<'a> Site<'a> {
    /// The fault of a rule that the object itself breaks.
    pub(crate) fn fault(&self, alloc: Global, rule: VerifyRule) -> VerifyFault {
        let fault = self.broken(alloc, None, refused(rule));
        fault.unwrap_or(VerifyFault::OutOfMemory)
    }

    /// The fault of a refusal in the member of this name.
    pub(crate) fn fault_in(&self, alloc: Global, member: &[u8], refusal: Refusal) -> VerifyFault {
        let fault = self.broken(alloc, Some(member), refusal);
        fault.unwrap_or(VerifyFault::OutOfMemory)
    }

    fn broken(&self, alloc: Global, member: Option<&[u8]>, refusal: Refusal) -> Made<VerifyFault> {
        let Fault::Broken(Breach { at, rule }) = refusal else {
            return Ok(VerifyFault::OutOfMemory);
        };
        let member = match member {
            Some(member) => Some(Text::try_from_bytes(alloc, member)?),
            None => None,
        };
        Ok(VerifyFault::Broken {
            file: self.file,
            object: Text::try_from_bytes(alloc, self.object)?,
            member,
            at,
            rule,
        })
    }
}
