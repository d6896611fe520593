// Names as numbers, with the case of A to Z ignored, and the strings of a file by these numbers.
ghost use Rattle.std.specs.Prelude.{◌≡◌, ◌↔◌, ℕ, List, [], ◌∷◌, ◌++◌, Some, true, map, length, slice_index_or, IfOk, OnOk, OnErr};
ghost use Rattle.std.specs.Str.{str_to_ascii_lowercase, str_eq_ignore_ascii_case};
ghost use Rattle.pex_set.specs.Names.{number_in, with_name, with_names, IsGrown, IsNumbered};

use indexmap::IndexSet;
use papy_base::{Made, Text};
use std::alloc::Global;
use std::marker::Model;

/// The number of the empty name.
pub const EMPTY_NAME: usize = 0;

/// A number for each name: two names have the same one exactly where they are the same with the case of
/// A to Z ignored. Contracts see the names by number, with A to Z read as a to z.
#[derive(Drop)]
pub struct NameNumbers {
    names: IndexSet<Vec<u8>>,
}

impl Model for NameNumbers {
    ghost use Rattle.std.specs.Prelude.{ℕ, List, map};

    ghost Value = { List (List ℕ) };

    ghost view = { λ table. map (λ name. name.items) table.names.keys };

    ghost use Rattle.pex_set.specs.Names.{IsNumbered};

    ghost invariant = { λ table. IsNumbered (map (λ name. name.items) table.names.keys) };
}

impl NameNumbers {
    /// A table of the empty name alone.
    pub fn new(alloc: Global) -> Made<NameNumbers>
        ensures { IfOk result (λ table. table ≡ [] ∷ []) }
    {
        let mut names = IndexSet::new(alloc);
        names.insert(Vec::new(alloc))?;
        Ok(NameNumbers { names })
    }

    /// The number of this name, a new one where the table has none.
    pub fn number(&mut self, alloc: Global, name: &[u8]) -> Made<usize>
        ensures table { OnOk result (self.new ≡ with_name self.old name.now) }
        ensures number { IfOk result (λ number. number_in self.new name.now ≡ Some number) }
        ensures unchanged { OnErr result (self.new ≡ self.old) }
    {
        let folded = folded(alloc, name)?;
        let (number, _) = self.names.insert_full(folded)?;
        Ok(number)
    }

    /// The number of this name, where the table has one.
    pub fn find(&self, alloc: Global, name: &[u8]) -> Made<Option<usize>>
        ensures { IfOk result (λ number. number ≡ number_in self.now name.now) }
    {
        let folded = folded(alloc, name)?;
        Ok(self.names.get_index_of(folded.as_slice()))
    }

    /// How many names there are. Their numbers are those below it.
    pub fn count(&self) -> usize
        ensures count { result ≡ length self.now }
        ensures numbers { IsNumbered self.now }
    {
        self.names.len()
    }

    /// The name of this number with A to Z read as a to z, and no bytes where no name has it.
    pub fn name(&self, number: usize) -> &[u8]
        ensures { result.now ≡ slice_index_or self.now number [] }
    {
        match self.names.get_index(number) {
            Some(name) => name.as_slice(),
            None => &[],
        }
    }
}

// The bytes of a name with A to Z read as a to z.
fn folded(alloc: Global, name: &[u8]) -> Made<Vec<u8>>
    ensures { IfOk result (λ bytes. bytes.items ≡ str_to_ascii_lowercase name.now) }
{
    let mut bytes = name.to_vec(alloc)?;
    bytes.as_mut_slice().make_ascii_lowercase();
    Ok(bytes)
}

/// The numbers of a file's strings, in the order of its string table.
#[derive(Drop)]
pub struct FileNames {
    numbers: Vec<usize>,
}

impl Model for FileNames {
    ghost use Rattle.std.specs.Prelude.{ℕ, List};

    ghost Value = { List ℕ };

    ghost view = { λ names. names.numbers.items };
}

impl FileNames {
    /// The numbers of these strings, which the table then has.
    pub fn of_strings(alloc: Global, table: &mut NameNumbers, strings: &[Text]) -> Made<FileNames>
        ensures length { IfOk result (λ names. length names ≡ length strings.now) }
        ensures numbers { IfOk result (λ names. map Some names ≡ map (number_in table.new) strings.now) }
        ensures table { OnOk result (table.new ≡ with_names table.old strings.now) }
        ensures grows { IsGrown table.old table.new }
    {
        let mut numbers = Vec::with_capacity(alloc, strings.len())?;
        for string in strings {
            numbers.push(table.number(alloc, string.as_bytes())?)?;
        }
        Ok(FileNames { numbers })
    }

    /// The number of the string at this reference, and that of the empty name where there is none.
    pub fn number(&self, reference: u16) -> usize
        ensures { result ≡ slice_index_or self.now reference EMPTY_NAME }
    {
        let number = self.numbers.get(usize::from(reference));
        number.copied().unwrap_or(EMPTY_NAME)
    }
}

/// The bytes of the string at this reference, and none where there is no such string.
pub fn text_at(strings: &[Text], reference: u16) -> &[u8]
    ensures { result.now ≡ slice_index_or strings.now reference [] }
{
    match strings.get(usize::from(reference)) {
        Some(text) => text.as_bytes(),
        None => &[],
    }
}

/// Names have one number where they are alike and no other, and a number stays as the table grows. `EMPTY_NAME` is that of
/// the empty name alone.
pub fn one_number_of_a_name()
    ensures alike { (table : List (List ℕ)) (a b : List ℕ) (number : ℕ) → number_in table a ≡ Some number
        → (number_in table b ≡ Some number) ↔ (str_eq_ignore_ascii_case a b ≡ true) }
    ensures stays { (table more : List (List ℕ)) (name : List ℕ) (number : ℕ) → number_in table name ≡ Some number
        → number_in (table ++ more) name ≡ Some number }
    ensures empty { (table : List (List ℕ)) (name : List ℕ) → IsNumbered table
        → (number_in table name ≡ Some EMPTY_NAME) ↔ (name ≡ []) }
    ensures grows { (table : List (List ℕ)) (name : List ℕ) → IsGrown table (with_name table name) }
{}
