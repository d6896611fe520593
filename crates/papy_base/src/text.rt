ghost use Rattle.std.specs.Prelude.{◌≡◌, ◌+◌, ◌<◌, ◌↔◌, ℕ, List, ◌++◌, length, IfOk, IsErrOf, IsTrue};
ghost use Rattle.papy_base.specs.Case.{SameIgnoringCase};

use crate::faults::{JoinFault, Made};
use std::alloc::Global;
use std::marker::Model;

/// The most bytes that a joined text may have.
pub const TEXT_LIMIT: usize = 1024;

/// A value of the type String: any bytes.
#[derive(Debug, Drop)]
pub struct Text {
    bytes: Vec<u8>,
}

impl Model for Text {
    ghost Value = { List ℕ };

    ghost view = { λ text. text.bytes.items };
}

impl Text {
    /// A text of these bytes.
    pub fn try_from_bytes(alloc: Global, bytes: &[u8]) -> Made<Text>
        ensures { IfOk result (λ text. text ≡ bytes.now) }
    {
        let bytes = bytes.to_vec(alloc)?;
        Ok(Text { bytes })
    }

    /// The bytes of the text.
    pub fn as_bytes(&self) -> &[u8]
        ensures { result.now ≡ self.now }
    {
        self.bytes.as_slice()
    }

    /// An equal text.
    pub fn try_clone(&self, alloc: Global) -> Made<Text>
        ensures { IfOk result (λ text. text ≡ self.now) }
    {
        Text::try_from_bytes(alloc, self.as_bytes())
    }

    /// This text followed by the other. `TooLong` comes exactly where the two have more than 1,024
    /// bytes together.
    pub fn try_join(&self, alloc: Global, other: &Text) -> Result<Text, JoinFault>
        ensures joined { IfOk result (λ text. text ≡ self.now ++ other.now) }
        ensures too_long { IsErrOf result JoinFault.TooLong ↔ (1024 < length self.now + length other.now) }
    {
        let (left, right) = (self.as_bytes(), other.as_bytes());
        if left.len() > TEXT_LIMIT || right.len() > TEXT_LIMIT - left.len() {
            return Err(JoinFault::TooLong);
        }
        let mut bytes = Vec::with_capacity(alloc, left.len() + right.len())?;
        bytes.extend_from_slice(left)?;
        bytes.extend_from_slice(right)?;
        Ok(Text { bytes })
    }

    /// Whether the two texts are equal where A to Z are read as a to z.
    pub fn same(&self, other: &Text) -> bool
        ensures { IsTrue result ↔ SameIgnoringCase self.now other.now }
    {
        self.as_bytes().eq_ignore_ascii_case(other.as_bytes())
    }
}
