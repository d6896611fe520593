// Sets of files that keep the rules.
ghost use Rattle.std.specs.Prelude.{◌≡◌, ◌<◌, length, vec_len, slice_index_or, All, IfOk};
ghost use Rattle.pex_verify.specs.Files.{IsFile};

use crate::members::{MemberTable, method_place};
use core_tree::Outline;
use loaded_code::{LoadedScript, MethodPlace, PropertyPlace};
use papy_base::Made;
use pex_set::{EMPTY_NAME, NameNumbers};
use pex_values::Pex;
use std::alloc::Global;
use std::marker::Model;

/// Files that break no rule. Scripts are numbered in order of file and object behind those of the prelude,
/// which are Debug, Utility, Scene, Form, Quest and ObjectReference.
#[derive(Drop)]
pub struct Loaded {
    pub(crate) outline: Outline,
    pub(crate) files: Vec<Pex>,
    pub(crate) scripts: Vec<LoadedScript>,
    pub(crate) table: NameNumbers,
    pub(crate) members: MemberTable,
}

impl Model for Loaded {
    ghost use Rattle.pex_verify.specs.Kept.{KeepsTables};
    ghost use Rattle.pex_verify.specs.Sets.{LoadedSet};

    ghost Value = { LoadedSet };

    ghost view = { λ l. record { outline = l.outline.scripts.items; files = l.files.items; scripts = l.scripts.items } };

    ghost invariant = { λ l. KeepsTables (record { outline = l.outline.scripts.items; files = l.files.items; scripts = l.scripts.items }) l.table l.members };
}

impl Loaded {
    ghost use Rattle.core_tree.specs.declared.outline.OutlineScript.{OutlineScript};
    ghost use Rattle.pex_set.specs.Names.{number_in};
    ghost use Rattle.pex_verify.specs.Coded.{IsCodedScript};
    ghost use Rattle.pex_verify.specs.NameTables.{names_in};
    ghost use Rattle.pex_verify.specs.Sets.{AreSoundOutlines};
    ghost use Rattle.pex_verify.specs.Soundness.{bounds_with};
    ghost use Rattle.pex_verify.specs.Whole.{IsWholeSet};

    /// The members of the scripts without their code.
    pub fn outline(&self) -> &Outline
        ensures outline { result.now.scripts.items ≡ self.now.outline }
        ensures sound { AreSoundOutlines (length self.now.scripts) self.now.outline }
        ensures whole { IsWholeSet self.now }
    {
        &self.outline
    }

    /// The files as they were handed in.
    pub fn files(&self) -> &Vec<Pex>
        ensures files { result.now.items ≡ self.now.files }
        ensures sound { All IsFile result.now.items }
    {
        &self.files
    }

    /// The script of this number.
    pub fn script(&self, n: u16) -> &LoadedScript
        requires { n < length self.now.scripts }
        ensures script { result.now ≡ slice_index_or self.now.scripts n result.now }
        ensures sound { (o : OutlineScript) → IsCodedScript (bounds_with (length self.now.scripts) (vec_len (slice_index_or self.now.outline n o).variables)) result.now }
    {
        &self.scripts[usize::from(n)]
    }

    /// The number of a name, with the case of A to Z ignored, none where no file has the name.
    pub fn name_number(&self, alloc: Global, name: &[u8]) -> Made<Option<usize>>
        ensures { IfOk result (λ number. number ≡ number_in (names_in self.now.files) name.now) }
    {
        self.table.find(alloc, name)
    }

    /// The method of this name that an instance of the script runs while it is in this state: one of this
    /// state from the script upward, else one of the empty state. Both names are given by number. The
    /// number of a state's name is none where no file has it.
    pub fn find_method(
        &self,
        script: u16,
        state: Option<usize>,
        name: usize,
    ) -> Option<MethodPlace> {
        let script = usize::from(script);
        let state = state.unwrap_or(EMPTY_NAME);
        match self.members.in_state(script, state, name) {
            Some(found) => method_place(found),
            None => method_place(self.members.in_state(script, EMPTY_NAME, name)?),
        }
    }

    /// The property whose name has this number, from the script upward.
    pub fn find_property(&self, script: u16, name: usize) -> Option<PropertyPlace> {
        let found = self.members.property(usize::from(script), name)?;
        Some(PropertyPlace {
            script: u16::try_from(found.object).ok()?,
            place: found.place,
        })
    }
}
