// Names with numbers, looked up with the case of A to Z ignored.
ghost use Rattle.std.specs.Prelude.{◌≡◌, ℕ, List, IfOk, OnOk};
ghost use Rattle.papy_base.specs.Case.{folded};
ghost use Rattle.papy_base.specs.Table.{number_in, least_of, IsPlaceTable, Sets, Notes};

use crate::faults::Made;
use crate::name::Name;
use std::alloc::Global;
use std::collections::HashMap;

/// A thing that has a name.
pub trait Named {
    ghost name_of: { Self → List ℕ };

    fn name(&self) -> &Name
        ensures { result.now ≡ name_of self.now };
}

/// The least number that was noted for each name, with the case of A to Z ignored.
#[derive(Drop)]
pub struct NameTable {
    numbers: HashMap<Vec<u8>, usize>,
}

impl NameTable {
    /// A table of no names.
    pub fn new(alloc: Global) -> NameTable
        ensures { (bytes : List ℕ) → number_in result bytes ≡ None }
    {
        NameTable {
            numbers: HashMap::new(alloc),
        }
    }

    /// The places at which these things stand, the first of each name.
    pub fn of_places<T: Named>(alloc: Global, things: &[T]) -> Made<NameTable>
        ensures { IfOk result (IsPlaceTable T.name_of things.now) }
    {
        let mut table = NameTable::new(alloc);
        for (place, thing) in things.iter().enumerate() {
            table.note(alloc, thing.name(), place)?;
        }
        Ok(table)
    }

    /// Notes a number for a name, unless a lesser one was noted before.
    pub fn note(&mut self, alloc: Global, name: &Name, number: usize) -> Made<()>
        ensures { OnOk result (Notes self.old self.new name.now number) }
    {
        let least = lesser(number, self.find(name));
        self.set(name.folded().to_vec(alloc)?, least)
    }

    // Gives the name of these folded bytes this number.
    fn set(&mut self, folded: Vec<u8>, number: usize) -> Made<()>
        ensures { OnOk result (Sets self.old self.new folded.items number) }
    {
        self.numbers.insert(folded, number)?;
        Ok(())
    }

    /// The least number that was noted for the name, none where none was.
    pub fn find(&self, name: &Name) -> Option<usize>
        ensures { result ≡ number_in self.now (folded name.now) }
    {
        self.numbers.get(name.folded()).copied()
    }
}

fn lesser(number: usize, other: Option<usize>) -> usize
    ensures { result ≡ least_of number other }
{
    match other {
        Some(other) => number.min(other),
        None => number,
    }
}
