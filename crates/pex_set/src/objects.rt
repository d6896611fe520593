// The objects of a set, with their names and parents.
ghost use Rattle.std.specs.Prelude.{◌≡◌, ◌+◌, ◌==◌, ℕ, [], ◌∷◌, ◌++◌, Some, None, length, vec_len, slice_get, nat_eq, if◌then◌else◌, IfOk, OnOk, OnErr};
ghost use Rattle.std.specs.HashMap.{get};
ghost use Rattle.std.specs.Option.{option_or};
ghost use Rattle.papy_base.specs.Lineage.{AreAmong};
ghost use Rattle.pex_set.specs.Objects.{first_named, parent_in, parents_in, AddsFile};

use crate::names::{EMPTY_NAME, FileNames};
use papy_base::Made;
use pex_values::Pex;
use std::alloc::Global;
use std::collections::HashMap;
use std::marker::Model;

/// What is known of an object before its members are read.
#[derive(Clone, Copy, PartialEq, Eq)]
pub struct Head {
    /// The number of its file among those that were added, the prelude's being the first.
    pub file: usize,
    /// The reference to its name.
    pub title: u16,
    /// The number of its name.
    pub name: usize,
    /// The number of its parent's name, that of the empty name where it names none.
    pub parent: usize,
}

/// The objects of files in order of file and object.
#[derive(Drop)]
pub struct Objects {
    heads: Vec<Head>,
    // The first object of each name.
    first: HashMap<usize, usize>,
    // How many files were added.
    files: usize,
}

impl Model for Objects {
    ghost use Rattle.std.specs.Prelude.{List};
    ghost use Rattle.pex_set.specs.declared.objects.Head.{Head};

    ghost Value = { List Head };

    ghost view = { λ objects. objects.heads.items };

    ghost use Rattle.std.specs.Prelude.{◌≡◌, ℕ, nat_eq};
    ghost use Rattle.std.specs.HashMap.{get};
    ghost use Rattle.pex_set.specs.Objects.{first_named};

    ghost invariant = { λ objects. (name : ℕ) → get nat_eq objects.first name ≡ first_named objects.heads.items name };
}

impl Objects {
    /// No objects.
    pub fn new(alloc: Global) -> Objects
        ensures { result ≡ [] }
    {
        Objects {
            heads: Vec::new(alloc),
            first: HashMap::new(alloc),
            files: 0,
        }
    }

    /// Adds the objects of the next file, whose strings have these numbers.
    pub fn add_file(&mut self, names: &FileNames, pex: &Pex) -> Made<()>
        ensures length { OnOk result (length self.new ≡ length self.old + vec_len pex.now.objects) }
        ensures heads { OnOk result (AddsFile self.old names.now pex.now.objects.items self.new) }
    {
        let file = self.files;
        for object in &pex.objects {
            let head = Head {
                file,
                title: object.name,
                name: names.number(object.name),
                parent: names.number(object.parent),
            };
            self.add(head)?;
        }
        self.files = file.saturating_add(1);
        Ok(())
    }

    fn add(&mut self, head: Head) -> Made<()>
        ensures added { OnOk result (self.new ≡ self.old ++ head ∷ []) }
        ensures unchanged { OnErr result (self.new ≡ self.old) }
    {
        self.heads.reserve(1)?;
        note_first(&mut self.first, head.name, self.heads.len())?;
        self.heads.push_reserved(head);
        Ok(())
    }

    /// How many objects there are.
    pub fn count(&self) -> usize
        ensures { result ≡ length self.now }
    {
        self.heads.len()
    }

    /// The object of this number, where there is one.
    pub fn head(&self, number: usize) -> Option<Head>
        ensures { result ≡ slice_get self.now number }
    {
        self.heads.get(number).copied()
    }

    /// The number of the first object of this name.
    pub fn first_named(&self, name: usize) -> Option<usize>
        ensures { result ≡ first_named self.now name }
    {
        self.first.get(&name).copied()
    }

    /// The number of each object's parent, none where it names none or one that is not there.
    pub fn parents(&self, alloc: Global) -> Made<Vec<Option<usize>>>
        ensures length { IfOk result (λ parents. vec_len parents ≡ length self.now) }
        ensures parents { IfOk result (λ parents. parents.items ≡ parents_in self.now) }
        ensures among { IfOk result (λ parents. AreAmong parents.items) }
    {
        let mut parents = Vec::with_capacity(alloc, self.heads.len())?;
        for head in &self.heads {
            parents.push(self.parent_of(head))?;
        }
        Ok(parents)
    }

    fn parent_of(&self, head: &Head) -> Option<usize>
        ensures { result ≡ parent_in self.now head.now }
    {
        if head.parent == EMPTY_NAME {
            return None;
        }
        self.first_named(head.parent)
    }
}

// Notes this object as the first of its name, where none is noted.
fn note_first(first: &mut HashMap<usize, usize>, name: usize, number: usize) -> Made<()>
    ensures noted { OnOk result ((other : ℕ) → get nat_eq first.new other ≡ option_or (get nat_eq first.old other) (if name == other then Some number else None)) }
    ensures unchanged { OnErr result ((other : ℕ) → get nat_eq first.new other ≡ get nat_eq first.old other) }
{
    if first.get(&name).is_none() {
        first.insert(name, number)?;
    }
    Ok(())
}
