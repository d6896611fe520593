ghost use Rattle.std.specs.Prelude.{◌≡◌, ◌<◌, ◌↔◌, List, length, IsTrue, slice_index_or, option_map};
ghost use Rattle.papy_base.specs.Lineage.{Nearest, StandsAbove};
ghost use Rattle.script_linker.specs.Lookup.{parents_of, HasNoCircle, own_function, own_property};

use crate::scripts::Scripts;
use papy_base::{Name, Text};
use script_parser::Script;
use std::marker::Model;

/// A script with the name of its file.
#[derive(Drop)]
pub struct SourceFile {
    pub name: Text,
    pub script: Script,
}

/// A function of an empty state: the number of its script and its place among the script's functions.
#[derive(Clone, Copy, Debug, PartialEq, Eq)]
pub struct FunctionRef {
    pub script: u16,
    pub place: u16,
}

/// A property: the number of its script and its place among the script's properties.
#[derive(Clone, Copy, Debug, PartialEq, Eq)]
pub struct PropertyRef {
    pub script: u16,
    pub place: u16,
}

/// Scripts that break no rule of a set, with their parents.
///
/// The scripts Debug, Utility, Scene, Form, Quest and ObjectReference have the numbers 0 to 5, and the
/// files follow in their order. A script without parent, other than the first three, has those of the
/// members GotoState, GetState, OnBeginState and OnEndState that it doesn't declare, last among its
/// functions and in this order.
#[derive(Drop)]
pub struct ScriptSet {
    pub(crate) scripts: Scripts,
}

impl Model for ScriptSet {
    ghost use Rattle.std.specs.Prelude.{List};
    ghost use Rattle.script_linker.specs.declared.set.SourceFile.{SourceFile};
    ghost use Rattle.script_linker.specs.Lookup.{HasNumbers};
    ghost use Rattle.script_linker.specs.contracts.set.SourceFile as source_file;
    ghost use Rattle.std.specs.Coded.{coded_list};

    ghost Value = { List SourceFile };

    ghost coded = { coded_list source_file.the_row.coded };

    ghost view = { λ s. s.scripts };

    ghost invariant = { λ s. HasNumbers s.scripts };
}

impl ScriptSet {
    ghost use Rattle.script_linker.specs.declared.set.SourceFile.{SourceFile};
    ghost use Rattle.script_linker.specs.Refs.{function_pair, property_pair};

    /// How many scripts the set has, the prelude's six among them.
    pub fn count(&self) -> u16
        ensures { result ≡ length self.now }
    {
        self.scripts.count() as u16
    }

    /// The script of this number.
    pub fn script(&self, n: u16) -> &Script
        requires { n < length self.now }
        ensures { (file : SourceFile) → result.now ≡ (slice_index_or self.now n file).script }
    {
        &self.scripts.file(usize::from(n)).script
    }

    /// The name of the script's file, which is empty for a script of the prelude.
    pub fn file_name(&self, n: u16) -> &Text
        requires { n < length self.now }
        ensures { (file : SourceFile) → result.now ≡ (slice_index_or self.now n file).name }
    {
        &self.scripts.file(usize::from(n)).name
    }

    /// The nearest function of this name in the empty states, from the script upward.
    pub fn find_function(&self, script: u16, name: &Name) -> Option<FunctionRef>
        requires { script < length self.now }
        ensures { Nearest (parents_of self.now) (own_function self.now name.now) script (option_map function_pair result) }
    {
        let (script, place) = self.scripts.nearest_function(usize::from(script), name)?;
        Some(FunctionRef {
            script: script as u16,
            place: place as u16,
        })
    }

    /// The nearest property of this name, from the script upward.
    pub fn find_property(&self, script: u16, name: &Name) -> Option<PropertyRef>
        requires { script < length self.now }
        ensures { Nearest (parents_of self.now) (own_property self.now name.now) script (option_map property_pair result) }
    {
        let (script, place) = self.scripts.nearest_property(usize::from(script), name)?;
        Some(PropertyRef {
            script: script as u16,
            place: place as u16,
        })
    }

    /// Whether the parent is the script itself or stands above it.
    pub fn is_child(&self, child: u16, parent: u16) -> bool
        requires { child < length self.now }
        ensures above { IsTrue result ↔ StandsAbove (parents_of self.now) child parent }
        ensures no_circle { HasNoCircle (parents_of self.now) }
    {
        self.scripts
            .stands_below(usize::from(child), usize::from(parent))
    }
}
