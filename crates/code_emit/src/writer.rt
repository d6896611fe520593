// What is written of a file: its strings and debug entries.
#![tactic(auto, using(crate::proofs::Goes::going))]

ghost use Rattle.std.specs.Prelude.{◌≡◌, ◌<◌, ◌^◌, ◌++◌, ◌∷◌, [], length, map, IfOk};
ghost use Rattle.std.specs.List.{AllByRecursion};
ghost use Rattle.pex_values.specs.Plain.{plain_lines};
ghost use Rattle.code_emit.specs.Spelled.{Each, SpellsLines, part_named};
ghost use Rattle.code_emit.specs.Writing.{GoesOn, Notes};

use crate::faults::Result;
use crate::strings::StringTable;
use pex_values::PexLines;

/// What is written so far.
#[derive(Drop)]
pub(crate) struct Writer<'a> {
    pub strings: StringTable<'a>,
    pub debug: Vec<PexLines>,
}

/// Where a function stands: the names of its object and its state, its own name, and what its debug entry has as its kind.
#[derive(Clone, Copy)]
pub(crate) struct DebugName<'a> {
    pub object: &'a [u8],
    pub state: &'a [u8],
    pub name: &'a [u8],
    pub kind: u8,
}

impl Writer<'_> {
    /// Adds the debug entry of a function.
    pub(crate) fn note_lines(&mut self, place: DebugName<'_>, lines: Vec<u16>) -> Result<()>
        requires { AllByRecursion (λ line. line < 2 ^ 16) lines.items }
        ensures goes { GoesOn self.old.strings self.new.strings }
        ensures notes { IfOk result (λ _. Notes (length self.new.strings.strings) (map plain_lines self.old.debug.items) (map plain_lines self.new.debug.items) (λ added. Each (SpellsLines self.new.strings (part_named place.entry)) added (lines.items ∷ []))) }
    {
        let object = self.strings.place_of(place.object)?;
        let state = self.strings.place_of(place.state)?;
        let function = self.strings.place_of(place.name)?;
        self.debug.push(PexLines {
            object,
            state,
            function,
            kind: place.kind,
            lines,
        })?;
        Ok(())
    }
}

/// The user flags of a script or a member, as the file has them.
pub(crate) fn flag_bits(flags: u32) -> u32
    ensures value { result ≡ flags }
    ensures within { result < 2 ^ 32 }
{
    flags
}
