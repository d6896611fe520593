ghost use Rattle.std.specs.Prelude.{◌≡◌, ◌↔◌, ℕ, List, IfOk, IsTrue};
ghost use Rattle.papy_base.specs.Case.{SameIgnoringCase, folded};

use crate::faults::Made;
use std::alloc::Global;
use std::marker::Model;
use std::rc::Rc;

// A name's bytes as they were written, and with A to Z read as a to z.
#[derive(Debug, Drop)]
struct Spelling {
    written: Vec<u8>,
    folded: Vec<u8>,
}

/// The name of a script, a member, a variable or a state, as it was written.
///
/// Names of Papyrus compare with the case of A to Z ignored, and print as they were declared. A clone shares the bytes
/// of its original.
#[derive(Debug, Drop)]
pub struct Name {
    spelling: Rc<Spelling>,
}

impl Model for Name {
    ghost Value = { List ℕ };

    ghost view = { λ name. name.spelling.value.written.items };

    ghost invariant = { λ name. name.spelling.value.folded.items ≡ folded name.spelling.value.written.items };
}

impl Name {
    /// A name of these bytes.
    pub fn from_bytes(alloc: Global, bytes: &[u8]) -> Made<Name>
        ensures { IfOk result (λ name. name ≡ bytes.now) }
    {
        let written = bytes.to_vec(alloc)?;
        let mut folded = bytes.to_vec(alloc)?;
        folded.as_mut_slice().make_ascii_lowercase();
        let spelling = Rc::new(alloc, Spelling { written, folded })?;
        Ok(Name { spelling })
    }

    /// The bytes of the name.
    pub fn as_bytes(&self) -> &[u8]
        ensures { result.now ≡ self.now }
    {
        self.spelling.written.as_slice()
    }

    /// The bytes of the name with A to Z read as a to z, by which names are compared and looked up.
    pub fn folded(&self) -> &[u8]
        ensures { result.now ≡ folded self.now }
    {
        self.spelling.folded.as_slice()
    }

    /// Whether the two names are the same where A to Z are read as a to z.
    pub fn same(&self, other: &Name) -> bool
        ensures { IsTrue result ↔ SameIgnoringCase self.now other.now }
    {
        same_bytes(self.folded(), other.folded())
    }

    /// An equal name, which shares the bytes of this one.
    pub fn try_clone(&self, _alloc: Global) -> Made<Name>
        ensures { IfOk result (λ name. name ≡ self.now) }
    {
        let spelling = self.spelling.clone()?;
        Ok(Name { spelling })
    }
}

/// Whether the bytes are the same. For the few bytes of a name this is quicker than the comparison of slices.
pub(crate) fn same_bytes(left: &[u8], right: &[u8]) -> bool
    ensures { IsTrue result ↔ left.now ≡ right.now }
{
    left.len() == right.len() && left.iter().zip(right).all(|(a, b)| a == b)
}
