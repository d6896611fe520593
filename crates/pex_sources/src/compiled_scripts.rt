// The scripts of a set, the prelude's before those of the files, and what is found among them by name.
use crate::fault::{Attempt, NOT_FOUND, check};
use crate::page::Page;
use papy_base::{Made, Text, upward};
use pex_set::{FileNames, NameNumbers, Prelude, text_at};
use pex_values::{Pex, PexFunction, PexObject, PexProperty, PexVariable};
use std::alloc::Global;
use std::collections::{HashMap, HashSet};

/// The numbers of the first words.
pub(crate) const INT: usize = 1;

pub(crate) const BOOL: usize = 2;

pub(crate) const STRING: usize = 3;

pub(crate) const NONE: usize = 4;

pub(crate) const OWN_INSTANCE: usize = 5;

pub(crate) const STATE_VARIABLE: usize = 6;

/// The words that no parameter or local may have, by their numbers from 1 on: the keywords, and the name of the state's variable.
#[rattlefmt::skip]
static WORDS: [&str; 35] = [
    "int", "bool", "string", "none", "self", "::state", "as", "auto", "autoreadonly", "else", "elseif", "endevent",
    "endfunction", "endif", "endproperty", "endstate", "endwhile", "event", "extends", "false", "float", "function",
    "global", "if", "import", "length", "native", "new", "parent", "property", "return", "scriptname", "state", "true",
    "while",
];

/// A parameter or a local: its script, references to its name and type, and its place.
pub(crate) type Slot<'a> = (&'a CompiledScript<'a>, (u16, u16), usize);

/// A script of the set, as its compiled file has it.
#[derive(Drop)]
pub(crate) struct CompiledScript<'a> {
    /// Its place among the scripts of the set.
    pub place: usize,
    pub object: &'a PexObject,
    pub strings: &'a [Text],
    pub names: FileNames,
}

impl<'a> CompiledScript<'a> {
    /// The string of a reference, and an empty one where the file has none.
    pub(crate) fn text(&self, reference: u16) -> &'a [u8] {
        text_at(self.strings, reference)
    }

    /// The number of the name at a reference.
    pub(crate) fn number(&self, reference: u16) -> usize {
        self.names.number(reference)
    }

    /// The number of its own name.
    pub(crate) fn name(&self) -> usize {
        self.number(self.object.name)
    }

    /// The variable at a place, or `NotFound`.
    pub(crate) fn variable(&self, place: usize) -> Attempt<&'a PexVariable> {
        self.object.variables.get(place).ok_or(NOT_FOUND)
    }
}

/// A script by its place, and a name by its number.
type Key = (usize, usize);

/// The scripts and their names.
#[derive(Drop)]
pub(crate) struct CompiledScripts<'a> {
    pub alloc: Global,
    scripts: Vec<CompiledScript<'a>>,
    // Of each script the place of its parent, where there is one.
    parents: Vec<Option<usize>>,
    // What stands in the names that are made up, so that nothing in the set has one of them.
    infix: String,
    table: NameNumbers,
    by_name: HashMap<usize, usize>,
    // Of each script its own name.
    names: HashMap<Key, ()>,
    functions: HashMap<Key, &'a PexFunction>,
    // By their names, and Auto properties also by those of their variables.
    properties: HashMap<Key, &'a PexProperty>,
    variables: HashMap<Key, usize>,
    // The names that no parameter or local may have: words, and those of scripts, variables and properties.
    taken: HashSet<usize>,
    // What each script without parent has, also where its file doesn't, with references into the prelude's strings.
    members: &'a [(u16, PexFunction)],
}

impl<'a> CompiledScripts<'a> {
    /// A set without scripts.
    pub(crate) fn new(alloc: Global, prelude: &'a Prelude) -> Made<CompiledScripts<'a>> {
        let table = NameNumbers::new(alloc)?;
        Ok(CompiledScripts {
            alloc,
            scripts: Vec::new(alloc),
            parents: Vec::new(alloc),
            infix: String::new(alloc),
            table,
            by_name: HashMap::new(alloc),
            names: HashMap::new(alloc),
            functions: HashMap::new(alloc),
            properties: HashMap::new(alloc),
            variables: HashMap::new(alloc),
            taken: HashSet::new(alloc),
            members: &prelude.members,
        })
    }

    /// Adds the scripts of these files behind those of the prelude. `NotFound` comes where a file hasn't one script.
    pub(crate) fn fill(&mut self, prelude: &'a Prelude, files: &'a [Pex]) -> Attempt<()> {
        self.infix = free_infix(self.alloc, files)?;
        self.take_words()?;
        self.add_file(&prelude.file)?;
        for file in files {
            check(file.objects.len() == 1)?;
            self.add_file(file)?;
        }
        Ok(self.add_parents()?)
    }

    fn take_words(&mut self) -> Made<()> {
        for word in WORDS.iter() {
            let number = self.table.number(self.alloc, word.as_bytes())?;
            self.taken.insert(number)?;
        }
        Ok(())
    }

    fn add_file(&mut self, file: &'a Pex) -> Made<()> {
        for object in &file.objects {
            let script = CompiledScript {
                place: self.scripts.len(),
                object,
                strings: &file.strings,
                names: FileNames::of_strings(self.alloc, &mut self.table, &file.strings)?,
            };
            self.add_members(&script)?;
            self.scripts.push(script)?;
        }
        Ok(())
    }

    // Adds the members of the next script, and its name.
    fn add_members(&mut self, script: &CompiledScript<'a>) -> Made<()> {
        self.by_name.insert(script.name(), script.place)?;
        self.names.insert((script.place, script.name()), ())?;
        self.taken.insert(script.name())?;
        self.add_functions(script)?;
        self.add_properties(script)?;
        self.add_variables(script)
    }

    // Adds the functions of the empty state, which stands first where there is one.
    fn add_functions(&mut self, script: &CompiledScript<'a>) -> Made<()> {
        if let Some(state) = script.object.states.first() {
            for (name, function) in &state.functions {
                let key = (script.place, script.number(*name));
                self.functions.insert(key, function)?;
            }
        }
        Ok(())
    }

    fn add_properties(&mut self, script: &CompiledScript<'a>) -> Made<()> {
        for property in &script.object.properties {
            let name = script.number(property.name);
            self.taken.insert(name)?;
            self.properties.insert((script.place, name), property)?;
            if let Some(variable) = property.variable {
                let key = (script.place, script.number(variable));
                self.properties.insert(key, property)?;
            }
        }
        Ok(())
    }

    fn add_variables(&mut self, script: &CompiledScript<'a>) -> Made<()> {
        for (place, variable) in script.object.variables.iter().enumerate() {
            let name = script.number(variable.name);
            self.taken.insert(name)?;
            self.variables.insert((script.place, name), place)?;
        }
        Ok(())
    }

    // Adds the places of the parents, once every script has its name.
    fn add_parents(&mut self) -> Made<()> {
        for script in &self.scripts {
            let parent = self.by_name.get(&script.number(script.object.parent));
            self.parents.push(parent.copied())?;
        }
        Ok(())
    }

    /// The script of this number, or `NotFound`.
    pub(crate) fn script(&self, number: usize) -> Attempt<&CompiledScript<'a>> {
        self.scripts.get(number).ok_or(NOT_FOUND)
    }

    /// The place of a script's own variable of this name.
    pub(crate) fn variable(&self, script: &CompiledScript<'_>, name: usize) -> Option<usize> {
        self.variables.get(&(script.place, name)).copied()
    }

    /// A script's own property of this name, or whose variable has it.
    pub(crate) fn property(
        &self,
        script: &CompiledScript<'_>,
        name: usize,
    ) -> Option<&'a PexProperty> {
        self.properties.get(&(script.place, name)).copied()
    }

    /// Appends the name of a parameter or a local: its own where that is a word that is free, else one by its type and place.
    pub(crate) fn put_slot(&self, page: &mut Page, slot: Slot<'_>) -> Attempt<()> {
        let (script, (name, kind), place) = slot;
        let own = script.text(name);
        if is_word(own) && !self.taken.contains(&script.number(name)) {
            return page.put(&[own]);
        }
        let kind = script.number(kind);
        let (stem, infix) = (self.stem(kind), self.infix.as_str());
        let name = format!(in page.alloc; "{stem}{infix}{place}")?;
        page.put(&[name.as_bytes()])
    }

    // The beginning of a made up name for a value of this type.
    fn stem(&self, kind: usize) -> &'static str {
        match kind {
            INT => "number",
            BOOL => "flag",
            STRING => "text",
            _ if self.script_of(kind).is_some() => "object",
            _ => "list",
        }
    }

    // The script that is this type.
    fn script_of(&self, kind: usize) -> Option<&CompiledScript<'a>> {
        self.scripts.get(*self.by_name.get(&kind)?)
    }

    // The nearest script that has a member of this name, from the script of this type upward, and the member.
    fn nearest<T: Copy>(
        &self,
        members: &HashMap<Key, T>,
        kind: usize,
        name: usize,
    ) -> Option<(&CompiledScript<'a>, T)> {
        let first = *self.by_name.get(&kind)?;
        let mut way = upward(&self.parents, first);
        let (place, member) = way.find_map(|place| Some((place, *members.get(&(place, name))?)))?;
        Some((self.scripts.get(place)?, member))
    }

    /// The nearest function of a name, from the script of this type upward, with its script. What each script without parent has
    /// is given with a script of the prelude.
    pub(crate) fn find_function(
        &self,
        kind: usize,
        name: usize,
    ) -> Option<(&CompiledScript<'a>, &'a PexFunction)> {
        let found = self.nearest(&self.functions, kind, name);
        if found.is_some() {
            return found;
        }
        let first = self.scripts.first()?;
        let mut members = self.members.iter();
        let (_, function) = members.find(|(member, _)| first.number(*member) == name)?;
        Some((first, function))
    }

    /// The nearest property of a name, from the script of this type upward, with the number of its type.
    pub(crate) fn find_property(&self, kind: usize, name: usize) -> Option<usize> {
        let (script, property) = self.nearest(&self.properties, kind, name)?;
        Some(script.number(property.kind))
    }

    /// Whether the name of a script means a variable or a property in this one.
    pub(crate) fn hides(&self, script: &CompiledScript<'_>, name: usize) -> bool {
        self.variable(script, name).is_some() || self.find_property(script.name(), name).is_some()
    }

    /// The type of the elements of an array type. `NotFound` comes for every other type.
    pub(crate) fn element(&self, kind: usize) -> Attempt<usize> {
        let element = self.table.name(kind).strip_suffix(b"[]").ok_or(NOT_FOUND)?;
        self.table.find(self.alloc, element)?.ok_or(NOT_FOUND)
    }

    /// Whether a value of one type converts to another by itself.
    pub(crate) fn converts(&self, kind: usize, to: usize) -> bool {
        match (kind, to) {
            _ if kind == to || to == BOOL => true,
            (INT | BOOL | NONE, STRING) => true,
            (_, STRING) => self.script_of(kind).is_some(),
            (NONE, _) => self.table.name(to).ends_with(b"[]") || self.script_of(to).is_some(),
            _ => self.nearest(&self.names, kind, to).is_some(),
        }
    }

    /// The type in which two values of these types are compared.
    pub(crate) fn common(&self, left: usize, right: usize) -> Option<usize> {
        for to in [STRING, BOOL, right, left] {
            if (left == to || right == to) && self.converts(left, to) && self.converts(right, to) {
                return Some(to);
            }
        }
        None
    }
}

// Whether the bytes are a word.
fn is_word(name: &[u8]) -> bool {
    !matches!(name, [] | [b'0'..=b'9', ..])
        && name.iter().all(|b| *b == b'_' || b.is_ascii_alphanumeric())
}

/// The beginnings of made up names.
static STEMS: [&str; 5] = ["number", "flag", "text", "object", "list"];

/// What stands between the stem and the place in a made up name, so that no string of the files is such a name: nothing, or where
// one is, a number between two `_`. Of the strings that end with digits it is told what stands before these.
fn free_infix(alloc: Global, files: &[Pex]) -> Made<String> {
    let mut heads = NameNumbers::new(alloc)?;
    for string in files.iter().flat_map(|file| file.strings.iter()) {
        let string = string.as_bytes();
        let last = string.iter().rposition(|byte| !byte.is_ascii_digit());
        let end = last.map_or(string.len(), |last| last.saturating_add(1));
        if let Some((head, [_, ..])) = string.split_at_checked(end) {
            heads.number(alloc, head)?;
        }
    }
    least_free(alloc, &heads)
}

fn least_free(alloc: Global, heads: &NameNumbers) -> Made<String> {
    let mut infix = String::new(alloc);
    for number in 0..heads.count() {
        if is_free(alloc, heads, &infix)? {
            return Ok(infix);
        }
        infix = format!(in alloc; "_{number}_")?;
    }
    Ok(infix)
}

// Whether no stem with this infix is among the heads.
fn is_free(alloc: Global, heads: &NameNumbers, infix: &str) -> Made<bool> {
    for stem in STEMS.iter() {
        let head = format!(in alloc; "{stem}{infix}")?;
        if heads.find(alloc, head.as_bytes())?.is_some() {
            return Ok(false);
        }
    }
    Ok(true)
}
