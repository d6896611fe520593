// Scripts with their parents and the tables of their members, whether or not they break a rule.
ghost use Rattle.std.specs.Prelude.{◌≡◌, ℕ, ◌<◌, ◌↔◌, List, Option, length, IfOk, IfSome, IsTrue, slice_index_or};
ghost use Rattle.papy_base.specs.Case.{folded};
ghost use Rattle.papy_base.specs.Lineage.{AreAmong, AreRooted, Nearest, StandsAbove, parent_of};
ghost use Rattle.papy_base.specs.Table.{number_in};
ghost use Rattle.papy_base.specs.declared.name_table.NameTable.{NameTable};
ghost use Rattle.script_linker.specs.Index.{HasFunctionTables, HasPropertyTables};
ghost use Rattle.script_linker.specs.Lookup.{parents_of, HasNoCircle, own_function, own_property, IsFunctionOf, IsPropertyOf};

use crate::set::SourceFile;
use papy_base::{Made, Name, NameTable, is_below, parent_of, upward};
use std::alloc::Global;
use std::marker::Model;

/// Scripts whose parents don't run in a circle.
#[derive(Drop)]
pub(crate) struct Scripts {
    files: Vec<SourceFile>,
    functions: Vec<NameTable>,
    properties: Vec<NameTable>,
    parents: Vec<Option<usize>>,
}

impl Model for Scripts {
    ghost use Rattle.std.specs.Prelude.{List};
    ghost use Rattle.script_linker.specs.declared.set.SourceFile.{SourceFile};
    ghost use Rattle.script_linker.specs.Index.{IsIndexed};
    ghost use Rattle.script_linker.specs.contracts.set.SourceFile as source_file;
    ghost use Rattle.std.specs.Coded.{coded_list};

    ghost Value = { List SourceFile };

    ghost coded = { coded_list source_file.the_row.coded };

    ghost view = { λ s. s.files.items };

    ghost invariant = { λ s. IsIndexed s.files.items s.functions.items s.properties.items s.parents.items };
}

impl Scripts {
    /// The scripts of these files.
    pub(crate) fn new(
        alloc: Global,
        files: Vec<SourceFile>,
        parents: Vec<Option<usize>>,
    ) -> Made<Scripts>
        requires parents { parents.items ≡ parents_of files.items }
        requires among { AreAmong parents.items }
        requires rooted { AreRooted parents.items }
        ensures { IfOk result (λ scripts. scripts ≡ files.items) }
    {
        let (functions, properties) = tables(alloc, files.as_slice())?;
        Ok(Scripts {
            files,
            functions,
            properties,
            parents,
        })
    }

    pub(crate) fn count(&self) -> usize
        ensures { result ≡ length self.now }
    {
        self.files.len()
    }

    pub(crate) fn file(&self, number: usize) -> &SourceFile
        requires { number < length self.now }
        ensures { result.now ≡ slice_index_or self.now number result.now }
    {
        &self.files[number]
    }

    pub(crate) fn parent(&self, number: usize) -> Option<usize>
        requires { number < length self.now }
        ensures parent { result ≡ parent_of (parents_of self.now) number }
        ensures within { IfSome result (λ p. p < length self.now) }
    {
        parent_of(&self.parents, number)
    }

    /// The script and the place of the nearest function of this name in the empty states, from the
    /// script upward.
    pub(crate) fn nearest_function(&self, script: usize, name: &Name) -> Option<(usize, usize)>
        requires { script < length self.now }
        ensures nearest { Nearest (parents_of self.now) (own_function self.now name.now) script result }
        ensures within { IfSome result (IsFunctionOf self.now) }
    {
        self.nearest(self.functions.as_slice(), script, name)
    }

    /// The same of properties.
    pub(crate) fn nearest_property(&self, script: usize, name: &Name) -> Option<(usize, usize)>
        requires { script < length self.now }
        ensures nearest { Nearest (parents_of self.now) (own_property self.now name.now) script result }
        ensures within { IfSome result (IsPropertyOf self.now) }
    {
        self.nearest(self.properties.as_slice(), script, name)
    }

    /// Whether the parent is the script itself or stands above it.
    pub(crate) fn stands_below(&self, script: usize, parent: usize) -> bool
        requires { script < length self.now }
        ensures above { IsTrue result ↔ StandsAbove (parents_of self.now) script parent }
        ensures no_circle { HasNoCircle (parents_of self.now) }
    {
        is_below(&self.parents, script, parent)
    }

    // The script and the place that its table has, from the script upward, for this name. Each script
    // has `own` in its table.
    fn nearest(&self, tables: &[NameTable], script: usize, name: &Name) -> Option<(usize, usize)>
        ghost own: { ℕ → Option ℕ }
        requires script { script < length self.now }
        requires count { length tables.now ≡ length self.now }
        requires tables { (n : ℕ) (table : NameTable) → n < length self.now → number_in (slice_index_or tables.now n table) (folded name.now) ≡ own n }
        ensures { Nearest (parents_of self.now) own script result }
    {
        for here in upward(&self.parents, script) {
            if let Some(place) = tables[here].find(name) {
                return Some((here, place));
            }
        }
        None
    }
}

// The tables of each file's functions, and those of its properties.
fn tables(alloc: Global, files: &[SourceFile]) -> Made<(Vec<NameTable>, Vec<NameTable>)>
    ensures function_count { IfOk result (λ tables. length tables.0.items ≡ length files.now) }
    ensures property_count { IfOk result (λ tables. length tables.1.items ≡ length files.now) }
    ensures functions { IfOk result (λ tables. HasFunctionTables files.now tables.0.items) }
    ensures properties { IfOk result (λ tables. HasPropertyTables files.now tables.1.items) }
{
    let mut functions = Vec::with_capacity(alloc, files.len())?;
    let mut properties = Vec::with_capacity(alloc, files.len())?;
    for file in files {
        functions.push(NameTable::of_places(alloc, file.script.functions.as_slice())?)?;
        properties.push(NameTable::of_places(alloc, file.script.properties.as_slice())?)?;
    }
    Ok((functions, properties))
}
