//! The files of a desk in memory.
ghost use Rattle.std.specs.Prelude.{◌≡◌, ◌++◌, IsSome, OnOk, OnErr};
ghost use Rattle.std.specs.Option.{option_copied};
ghost use Rattle.std.specs.FinMap as map;
ghost use Rattle.papy_io.specs.MemoryFiles.{bytes_in};

use std::alloc::{AllocError, Global};
use std::collections::BTreeMap;
use std::marker::Model;

/// Files by name, seen as the map from names to bytes.
#[derive(Drop)]
pub(crate) struct MemoryFiles {
    tree: BTreeMap<Vec<u8>, Vec<u8>>,
}

impl Model for MemoryFiles {
    ghost use Rattle.std.specs.Coded.{coded_list, coded_ℕ};
    ghost use Rattle.std.specs.FinMap as map;
    ghost use Rattle.papy_io.specs.Files.{Files};

    ghost Value = { Files };

    ghost coded = { map.code (coded_list coded_ℕ) (coded_list coded_ℕ) };

    ghost use Rattle.papy_io.specs.MemoryFiles.{files_of};

    ghost view = { λ f. files_of f.tree.entries };
}

impl MemoryFiles {
    pub(crate) fn new(alloc: Global) -> MemoryFiles
        ensures { result ≡ map.empty }
    {
        MemoryFiles {
            tree: BTreeMap::new(alloc),
        }
    }

    /// The bytes that a name holds.
    pub(crate) fn get(&self, name: &[u8]) -> Option<&[u8]>
        ensures { option_copied result ≡ map.get self.now name.now }
    {
        match self.tree.get(name) {
            Some(bytes) => Some(bytes.as_slice()),
            None => None,
        }
    }

    /// Makes a name hold these bytes.
    pub(crate) fn insert(&mut self, name: Vec<u8>, bytes: Vec<u8>) -> Result<(), AllocError>
        ensures ok { OnOk result (self.new ≡ map.insert self.old name.items bytes.items) }
        ensures err { OnErr result (self.new ≡ self.old) }
    {
        self.tree.insert(name, bytes)?;
        Ok(())
    }

    /// Adds bytes at the end of those that a name holds.
    pub(crate) fn append(&mut self, name: &[u8], bytes: &[u8]) -> Result<(), AllocError>
        requires { IsSome (map.get self.old name.now) }
        ensures ok { OnOk result (self.new ≡ map.insert self.old name.now (bytes_in self.old name.now ++ bytes.now)) }
        ensures err { OnErr result (self.new ≡ self.old) }
    {
        let held = self.tree.get_mut(name).unwrap();
        held.extend_from_slice(bytes)
    }
}
