// The files of a set, with the numbers of their names and the source lines of their functions.
ghost use Rattle.std.specs.Prelude.{◌≡◌, ◌+◌, ◌<◌, ℕ, List, ◌∷◌, length, map, sum_by, All, IfOk, OnOk, vec_len};
ghost use Rattle.pex_set.specs.Names.{with_names, IsGrown};
ghost use Rattle.pex_verify.specs.NameTables.{with_files};
ghost use Rattle.pex_verify.specs.Signatures.{title_at};
ghost use Rattle.pex_verify.specs.Heads.{placed_objects, AreNumbered};
ghost use Rattle.pex_verify.specs.Sources.{object_count, objects_in, objects_of, AreStrings, AreNamed, HaveParts, IsNamed};

use crate::fault::Site;
use papy_base::{Made, Name, Text};
use pex_set::{FileNames, NameNumbers, Objects, text_at};
use pex_values::{Pex, PexFunction, PexObject};
use std::alloc::Global;
use std::collections::HashMap;

/// One file of a set.
#[derive(Clone, Copy)]
pub(crate) struct SetFile<'a> {
    /// The number that faults give.
    pub(crate) file: u16,
    pub(crate) pex: &'a Pex,
    /// The numbers of its strings.
    pub(crate) names: &'a FileNames,
    /// Its strings as names, which share their bytes with all names that are made from them.
    pub(crate) titles: &'a [Name],
}

impl<'a> SetFile<'a> {
    pub(crate) fn text(&self, reference: u16) -> &'a [u8]
        ensures { result.now ≡ title_at self.now.pex.now.strings.items reference }
    {
        text_at(self.pex.strings.as_slice(), reference)
    }

    /// The string at this reference as a name.
    pub(crate) fn title(&self, alloc: Global, reference: u16) -> Made<Name>
        ensures { IfOk result (λ name. name ≡ title_at self.now.titles.now reference) }
    {
        match self.titles.get(usize::from(reference)) {
            Some(title) => title.try_clone(alloc),
            None => Name::from_bytes(alloc, &[]),
        }
    }

    pub(crate) fn site(&self, object: &PexObject) -> Site<'a> {
        Site {
            file: self.file,
            object: self.text(object.name),
        }
    }
}

/// The members that every script without parent has.
#[derive(Clone, Copy)]
pub(crate) struct DefaultMembers<'a> {
    pub(crate) list: &'a [(u16, PexFunction)],
    /// The prelude, which has their strings.
    pub(crate) source: &'a SetFile<'a>,
}

/// The strings of a file as names, and their numbers.
#[derive(Drop)]
pub(crate) struct FileStrings {
    names: FileNames,
    titles: Vec<Name>,
}

impl FileStrings {
    /// These strings, of which the table then has the numbers.
    pub(crate) fn of(alloc: Global, table: &mut NameNumbers, strings: &[Text]) -> Made<FileStrings>
        ensures strings { IfOk result (AreStrings table.new strings.now) }
        ensures grows { OnOk result (IsGrown table.old table.new) }
        ensures table { OnOk result (table.new ≡ with_names table.old strings.now) }
    {
        let names = FileNames::of_strings(alloc, table, strings)?;
        let mut titles = Vec::with_capacity(alloc, strings.len())?;
        for string in strings {
            titles.push(Name::from_bytes(alloc, string.as_bytes())?)?;
        }
        Ok(FileStrings { names, titles })
    }
}

/// The strings of these files, in their order.
pub(crate) fn strings_of_files(
    alloc: Global,
    table: &mut NameNumbers,
    files: &[Pex],
) -> Made<Vec<FileStrings>>
    ensures strings { IfOk result (λ strings. AreNamed table.new files.now strings.items) }
    ensures grows { OnOk result (IsGrown table.old table.new) }
    ensures table { OnOk result (table.new ≡ with_files table.old files.now) }
{
    let mut strings = Vec::with_capacity(alloc, files.len())?;
    for pex in files {
        strings.push(FileStrings::of(alloc, table, pex.strings.as_slice())?)?;
    }
    Ok(strings)
}

/// The file that has this number in faults, with its strings.
pub(crate) fn source_of<'a>(file: u16, pex: &'a Pex, strings: &'a FileStrings) -> SetFile<'a>
    ensures pex { result.pex.now ≡ pex.now }
    ensures names { result.names.now ≡ strings.now.names }
    ensures titles { result.titles.now ≡ strings.now.titles.items }
{
    SetFile {
        file,
        pex,
        names: &strings.names,
        titles: strings.titles.as_slice(),
    }
}

/// The prelude and these files behind it.
pub(crate) fn all_sources<'a>(
    alloc: Global,
    prelude: SetFile<'a>,
    files: &'a [Pex],
    strings: &'a [FileStrings],
) -> Made<Vec<SetFile<'a>>>
    requires few { length files.now < 65536 }
    requires strings { length strings.now ≡ length files.now }
    ensures count { IfOk result (λ sources. object_count sources.items ≡ objects_in prelude.entry + sum_by objects_of files.now) }
    ensures files { IfOk result (λ sources. map (λ source. source.pex.now) sources.items ≡ prelude.entry.pex.now ∷ files.now) }
    ensures parts { HaveParts prelude.entry.pex.now → All HaveParts files.now → IfOk result (λ sources. All (λ source. HaveParts source.pex.now) sources.items) }
    ensures named { (table : List (List ℕ)) → IsNamed table prelude.entry → AreNamed table files.now strings.now → IfOk result (λ sources. All (IsNamed table) sources.items) }
{
    let mut sources = Vec::with_capacity(alloc, files.len())?;
    sources.push(prelude)?;
    for (number, pex) in files.iter().enumerate() {
        sources.push(source_of(number as u16, pex, &strings[number]))?;
    }
    Ok(sources)
}

/// The objects of these files.
pub(crate) fn objects_of(alloc: Global, sources: &[SetFile<'_>]) -> Made<Objects>
    ensures count { IfOk result (λ objects. length objects ≡ object_count sources.now) }
    ensures numbered { IfOk result (AreNumbered (placed_objects sources.now)) }
{
    let mut objects = Objects::new(alloc);
    for source in sources {
        objects.add_file(source.names, source.pex)?;
    }
    Ok(objects)
}

/// What kind of function a debug entry speaks of.
pub(crate) const OF_STATE: u8 = 0;

pub(crate) const OF_READ: u8 = 1;

pub(crate) const OF_WRITE: u8 = 2;

/// The lines of a file's debug entries: those of the first one for each kind, object, state and function.
#[derive(Drop)]
pub(crate) struct FileLines<'a> {
    lines: HashMap<(u8, (usize, usize, usize)), &'a [u16]>,
}

impl<'a> FileLines<'a> {
    pub(crate) fn of(alloc: Global, names: &FileNames, pex: &'a Pex) -> Made<FileLines<'a>> {
        let mut lines = HashMap::new(alloc);
        if let Some(debug) = &pex.debug {
            for entry in &debug.functions {
                let object = names.number(entry.object);
                let state = names.number(entry.state);
                let key = (entry.kind, (object, state, names.number(entry.function)));
                lines.entry(key)?.or_insert(entry.lines.as_slice());
            }
        }
        Ok(FileLines { lines })
    }

    /// The lines of a function, of which each name is given by its number. There are none where no entry
    /// speaks of it.
    pub(crate) fn find(&self, kind: u8, object: usize, state: usize, function: usize) -> &'a [u16] {
        match self.lines.get(&(kind, (object, state, function))) {
            Some(lines) => *lines,
            None => &[],
        }
    }
}

/// One line for each of so many instructions: the lines that were found, and 0 past them.
pub(crate) fn lines_of(alloc: Global, found: &[u16], count: usize) -> Made<Vec<u16>>
    ensures { IfOk result (λ lines. vec_len lines ≡ count) }
{
    let mut lines = Vec::with_capacity(alloc, count)?;
    lines.extend_from_slice(&found[..found.len().min(count)])?;
    lines.resize(count, 0)?;
    Ok(lines)
}
