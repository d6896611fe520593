// The parameters and locals of a function, and which of them are seen.
ghost use Rattle.std.specs.Prelude.{◌≡◌, [], ◌∷◌, ◌++◌, IfOk, IfSome, OnOk, Some, slice_get, vec_len};

use crate::COMPARED_LIMIT;
use core_tree::CoreType;
use papy_base::{Made, Name};
use std::alloc::Global;
use std::collections::HashMap;

/// A parameter or a local: its number, and its type where that is known.
#[derive(Clone, Copy, PartialEq, Eq)]
pub struct Local {
    pub number: usize,
    pub kind: Option<CoreType>,
}

/// The parameters and locals of a function, numbered in order of their lines. A name is seen from
/// where it is added to the end of the block.
#[derive(Drop)]
pub struct Locals {
    alloc: Global,
    /// The types of all that were added, none where a type isn't known.
    pub kinds: Vec<Option<CoreType>>,
    // The names that are seen with their numbers, in the order in which they were added.
    seen: Vec<(Name, usize)>,
    // The numbers of those behind the first 16, by their names with A to Z read as a to z.
    further: HashMap<Vec<u8>, usize>,
}

impl Locals {
    /// No locals.
    pub fn new(alloc: Global) -> Locals
        ensures { result.kinds.items ≡ [] }
    {
        Locals {
            alloc,
            kinds: Vec::new(alloc),
            seen: Vec::new(alloc),
            further: HashMap::new(alloc),
        }
    }

    /// The local of this name that is seen.
    pub fn find(&self, name: &Name) -> Option<Local>
        ensures { IfSome result (λ local. slice_get self.now.kinds.items local.number ≡ Some local.kind) }
    {
        let number = self.number_of(name)?;
        let kind = *self.kinds.get(number)?;
        Some(Local { number, kind })
    }

    /// Adds a local, which is seen from now on, and gives its number.
    pub fn add(&mut self, name: &Name, kind: Option<CoreType>) -> Made<usize>
        ensures number { IfOk result (λ number. number ≡ vec_len self.old.kinds) }
        ensures added { OnOk result (self.new.kinds.items ≡ self.old.kinds.items ++ kind ∷ []) }
    {
        let number = self.kinds.len();
        self.kinds.push(kind)?;
        if self.seen.len() >= COMPARED_LIMIT {
            let folded = name.folded().to_vec(self.alloc)?;
            self.further.insert(folded, number)?;
        }
        self.seen.push((name.try_clone(self.alloc)?, number))?;
        Ok(number)
    }

    /// How many names are seen. `close` with this number ends the block that begins here.
    pub fn mark(&self) -> usize {
        self.seen.len()
    }

    /// Ends a block: the names that were added after the mark are no longer seen.
    pub fn close(&mut self, mark: usize)
        ensures { self.new.kinds ≡ self.old.kinds }
    {
        'names: while self.seen.len() > mark {
            if let Some((name, _)) = self.seen.pop()
                && self.seen.len() >= COMPARED_LIMIT
            {
                let _number = self.further.remove(name.folded());
            }
        }
    }

    // The number of the last name that is seen and is the same.
    fn number_of(&self, name: &Name) -> Option<usize> {
        if self.seen.len() > COMPARED_LIMIT
            && let Some(number) = self.further_number(name)
        {
            return Some(number);
        }
        let compared = self.seen.len().min(COMPARED_LIMIT);
        let mut latest = self.seen[..compared].iter().rev();
        let (_, number) = latest.find(|(other, _)| other.same(name))?;
        Some(*number)
    }

    // Few functions have so many names: the search is kept out of the common one's frame.
    #[inline(never)]
    fn further_number(&self, name: &Name) -> Option<usize> {
        self.further.get(name.folded()).copied()
    }
}
