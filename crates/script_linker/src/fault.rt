ghost use Rattle.std.specs.Prelude.{◌≡◌};
ghost use Rattle.script_linker.specs.Rules.{rule_number};
ghost use Rattle.script_linker.specs.declared.fault.LinkFault.TheVariants.{OutOfMemory as LinkOutOfMemory};

use papy_base::{NumberedRule, OutOfMemory};
use thiserror::Error;

/// The rules of a set of scripts, in the order of their numbers, N1 to N12.
#[derive(Clone, Copy, Debug, PartialEq, Eq, PartialOrd, Ord)]
pub enum LinkRule {
    /// N1: an earlier file has the script's name.
    DuplicateScript = 1,
    /// N2: the script's name is one of the prelude's six.
    PreludeName,
    /// N3: the parent is no script of the set, or is Debug, Utility or Scene.
    UnknownParent,
    /// N4: the script is above itself.
    ExtendsCycle,
    /// N5: an import names no script of the set.
    UnknownImport,
    /// N6: an earlier member has the name, or a function has the name GotoState or GetState.
    DuplicateMember,
    /// N7: a second state is Auto.
    TwoAutoStates,
    /// N8: no function of the empty state, of the script or of one above it, has the name of a state's function.
    StateFunctionAlone,
    /// N9: a function differs from the one that it replaces, or isn't what its place asks for.
    SignatureDiffers,
    /// N10: a parent has a property of that name.
    PropertyInParent,
    /// N11: a parameter without default follows one with a default.
    DefaultOrder,
    /// N12: the file is behind the 256th, or it has over 20,000 different words, texts and documentation texts.
    Limit,
}

impl NumberedRule for LinkRule {
    ghost number_of = { rule_number };

    /// The rule's number, from 1 to 12.
    fn number(self) -> u8 {
        self as u8
    }
}

/// Why files are no set of scripts.
#[derive(Clone, Copy, Debug, PartialEq, Eq, Error)]
pub enum LinkFault {
    /// The first broken rule: the file's number from 0, the line of the thing that breaks it, and
    /// the rule.
    #[error("file {file}, line {line}: {rule:?}")]
    Broken {
        file: u16,
        line: u32,
        rule: LinkRule,
    },
    /// No memory was found.
    #[error("out of memory")]
    OutOfMemory,
}

impl From<OutOfMemory> for LinkFault {
    ghost from_gives = { λ _ fault. fault ≡ LinkOutOfMemory };

    fn from(_error: OutOfMemory) -> LinkFault {
        LinkFault::OutOfMemory
    }
}
