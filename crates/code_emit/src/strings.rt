// The strings of a file, each once, in order of first use, and the names that are known by numbers.
#![tactic(auto, using(crate::proofs::Goes::going))]

ghost use Rattle.std.specs.Prelude.{◌≡◌, ◌<◌, ◌^◌, [], length, map, slice_get, option_map, Some, IfOk, IfSome, OnOk};
ghost use Rattle.pex_values.specs.Shape.{IsReference};
ghost use Rattle.code_emit.specs.Spelled.{doc_text};
ghost use Rattle.code_emit.specs.Strings.{Reads, ReadsName, home_of, name_of, noted_at, origin_of, type_name, type_number, with_string, array_name};
ghost use Rattle.code_emit.specs.Writing.{GoesOn};

use crate::faults::{EmitFault, Result};
use core_tree::{CoreScript, CoreSet, CoreType, CoreVariable};
use indexmap::IndexSet;
use papy_base::Text;
use std::alloc::Global;
use std::marker::Model;

/// The most strings of a file.
const MOST_STRINGS: usize = 65_535;

/// The script whose file is written, and its set.
#[derive(Clone, Copy)]
pub(crate) struct Source<'a> {
    pub set: &'a CoreSet,
    pub script: &'a CoreScript,
}

/// A name that is looked up as a string once, and known by a number from then on.
#[derive(Clone, Copy)]
pub(crate) enum Numbered {
    /// The name of a type, as of a result or a local. Without a type it is `None`.
    Type(Option<CoreType>),
    /// A variable of the script.
    Variable(u16),
    /// A parameter or a local of any function, temporaries counted.
    Local(u16),
    /// `self`
    OwnInstance,
}

/// The strings so far. Contracts see them as a list, in which none stands twice, beside what the names are of.
#[derive(Drop)]
pub(crate) struct StringTable<'a> {
    alloc: Global,
    source: Source<'a>,
    numbers: IndexSet<Vec<u8>>,
    // The places of numbered names that were looked up already.
    noted: Vec<Option<u16>>,
}

impl<'a> Model for StringTable<'a> {
    ghost use Rattle.std.specs.Prelude.{ℕ, ◌≤◌, List, length, map};
    ghost use Rattle.code_emit.specs.Strings.{AreNamed, AreNoted, Table, home_of, origin_of};

    ghost Value = { Table };

    ghost view = { λ s. record { home = home_of (origin_of s.source); strings = map (λ k. k.items) s.numbers.keys } };

    ghost invariant = { λ s. (length s.numbers.keys ≤ 65535) × AreNoted (length s.numbers.keys) s.noted.items × AreNamed (record { home = home_of (origin_of s.source); strings = map (λ k. k.items) s.numbers.keys }) s.noted.items };
}

impl<'a> StringTable<'a> {
    /// No strings.
    pub(crate) fn new(alloc: Global, source: Source<'a>) -> StringTable<'a>
        ensures { result ≡ record { home = home_of (origin_of source.entry); strings = [] } }
    {
        StringTable {
            alloc,
            source,
            numbers: IndexSet::new(alloc),
            noted: Vec::new(alloc),
        }
    }

    /// The allocator of what is written.
    pub(crate) fn alloc(&self) -> Global {
        self.alloc
    }

    /// The place of this string, which is added where it isn't there.
    pub(crate) fn place_of(&mut self, string: &[u8]) -> Result<u16>
        ensures added { OnOk result (self.new.strings ≡ with_string self.old.strings string.now) }
        ensures place { IfOk result (IsReference (length self.new.strings)) }
        ensures named { IfOk result (λ place. Reads self.new.strings place string.now) }
        ensures goes { GoesOn self.old self.new }
    {
        if let Some(place) = self.numbers.get_index_of(string) {
            return Ok(place as u16);
        }
        if self.numbers.len() >= MOST_STRINGS {
            return Err(EmitFault::TooLarge);
        }
        let inserted = self.numbers.insert_full(string.to_vec(self.alloc)?)?;
        Ok(inserted.0 as u16)
    }

    /// The place of a text that may be missing, which is then the empty one.
    pub(crate) fn text(&mut self, text: &Option<Text>) -> Result<u16>
        ensures place { IfOk result (IsReference (length self.new.strings)) }
        ensures named { IfOk result (λ place. Reads self.new.strings place (doc_text text.now)) }
        ensures goes { GoesOn self.old self.new }
    {
        match text {
            Some(text) => self.place_of(text.as_bytes()),
            None => self.place_of(b""),
        }
    }

    /// The place of a name that is known by its number once it was looked up.
    #[inline(always)]
    pub(crate) fn numbered(&mut self, name: Numbered) -> Result<u16>
        ensures place { IfOk result (IsReference (length self.new.strings)) }
        ensures named { IfOk result (λ place. ReadsName self.new.strings place (name_of self.new.home name)) }
        ensures goes { GoesOn self.old self.new }
    {
        if let Some(place) = self.noted(name) {
            return Ok(place);
        }
        self.new_name(name)
    }

    /// The place of a name that wasn't looked up before.
    #[inline(never)]
    fn new_name(&mut self, name: Numbered) -> Result<u16>
        ensures place { IfOk result (IsReference (length self.new.strings)) }
        ensures named { IfOk result (λ place. ReadsName self.new.strings place (name_of self.new.home name)) }
        ensures goes { GoesOn self.old self.new }
    {
        let string = name_bytes(self.alloc, &self.source, name)?;
        let place = self.place_of(&string)?;
        self.note(name, place)?;
        Ok(place)
    }

    /// The place of a numbered name, where it was noted.
    fn noted(&self, name: Numbered) -> Option<u16>
        ensures place { IfSome result (IsReference (length self.now.strings)) }
        ensures named { IfSome result (λ place. ReadsName self.now.strings place (name_of self.now.home name)) }
    {
        *self.noted.get(slot(name))?
    }

    /// Notes the place of a numbered name.
    fn note(&mut self, name: Numbered, place: u16) -> Result<()>
        requires place { IsReference (length self.old.strings) place }
        requires named { ReadsName self.old.strings place (name_of self.old.home name) }
        ensures { self.new ≡ self.old }
    {
        let slot = slot(name);
        if slot >= self.noted.len() {
            self.noted.resize(slot + 1, None)?;
        }
        self.noted[slot] = Some(place);
        Ok(())
    }

    /// The strings as texts, in their order.
    pub(crate) fn texts(&self) -> Result<Vec<Text>>
        ensures { IfOk result (λ texts. texts.items ≡ self.now.strings) }
    {
        texts_of(self.alloc, self.numbers.as_slice())
    }
}

// Where the place of a name is noted: behind that without a number of its own the kinds take turns.
fn slot(name: Numbered) -> usize
    ensures within { result < 2 ^ 35 }
    ensures place { result ≡ noted_at name }
{
    match name {
        Numbered::OwnInstance => 0,
        Numbered::Type(kind) => 3 * type_number(kind) as usize + 1,
        Numbered::Variable(number) => 3 * usize::from(number) + 2,
        Numbered::Local(number) => 3 * usize::from(number) + 3,
    }
}

fn texts_of(alloc: Global, strings: &[Vec<u8>]) -> Result<Vec<Text>>
    ensures { IfOk result (λ texts. texts.items ≡ map (λ string. string.items) strings.now) }
{
    let mut texts = Vec::with_capacity(alloc, strings.len())?;
    for string in strings {
        texts.push(Text::try_from_bytes(alloc, string.as_slice())?)?;
    }
    Ok(texts)
}

/// The name as bytes.
fn name_bytes(alloc: Global, source: &Source<'_>, name: Numbered) -> Result<Vec<u8>>
    ensures { IfOk result (λ bytes. name_of (home_of (origin_of source.now)) name ≡ Some bytes.items) }
{
    match name {
        Numbered::Type(kind) => type_name(alloc, &source.set.scripts, kind),
        Numbered::Local(number) => Ok(format!(in alloc; "::temp{number}")?.into_bytes()),
        Numbered::Variable(number) => variable_name(alloc, &source.script.variables, number),
        Numbered::OwnInstance => Ok(b"self".to_vec(alloc)?),
    }
}

fn variable_name(alloc: Global, variables: &[CoreVariable], number: u16) -> Result<Vec<u8>>
    ensures { IfOk result (λ bytes. slice_get (map (λ variable. variable.name) variables.now) number ≡ Some bytes.items) }
{
    let variable = variables.get(usize::from(number));
    let variable = variable.ok_or(EmitFault::OutOfRange)?;
    Ok(variable.name.as_bytes().to_vec(alloc)?)
}

/// Each type has a number of its own.
fn type_number(kind: Option<CoreType>) -> u32
    ensures within { result < 2 ^ 32 }
    ensures number { result ≡ type_number kind }
{
    match kind {
        None => 0,
        Some(CoreType::Int) => 1,
        Some(CoreType::Bool) => 2,
        Some(CoreType::Text) => 3,
        Some(CoreType::IntArray) => 4,
        Some(CoreType::BoolArray) => 5,
        Some(CoreType::TextArray) => 6,
        Some(CoreType::Script(number)) => 7 + 2 * u32::from(number),
        Some(CoreType::ScriptArray(number)) => 8 + 2 * u32::from(number),
    }
}

/// The name of a type. That of an array ends with `[]` behind the name of its elements' type.
fn type_name(alloc: Global, scripts: &[CoreScript], kind: Option<CoreType>) -> Result<Vec<u8>>
    ensures { IfOk result (λ bytes. type_name (map (λ script. script.name) scripts.now) kind ≡ Some bytes.items) }
{
    let name: &[u8] = match kind {
        None => b"None",
        Some(CoreType::Int) => b"Int",
        Some(CoreType::Bool) => b"Bool",
        Some(CoreType::Text) => b"String",
        Some(CoreType::IntArray) => b"Int[]",
        Some(CoreType::BoolArray) => b"Bool[]",
        Some(CoreType::TextArray) => b"String[]",
        Some(CoreType::Script(number)) => script_name(scripts, number)?,
        Some(CoreType::ScriptArray(number)) => return array_name(alloc, scripts, number),
    };
    Ok(name.to_vec(alloc)?)
}

fn array_name(alloc: Global, scripts: &[CoreScript], number: u16) -> Result<Vec<u8>>
    ensures { IfOk result (λ bytes. option_map array_name (slice_get (map (λ script. script.name) scripts.now) number) ≡ Some bytes.items) }
{
    let mut name = script_name(scripts, number)?.to_vec(alloc)?;
    name.extend_from_slice(b"[]")?;
    Ok(name)
}

/// The name of the script of this number.
pub(crate) fn script_name(scripts: &[CoreScript], number: u16) -> Result<&[u8]>
    ensures { IfOk result (λ name. slice_get (map (λ script. script.name) scripts.now) number ≡ Some name.now) }
{
    let script = scripts.get(usize::from(number));
    let script = script.ok_or(EmitFault::OutOfRange)?;
    Ok(script.name.as_bytes())
}
