ghost use Rattle.std.specs.Prelude.{◌≡◌, IfOk};

use crate::faults::Made;
use crate::name::{Name, same_bytes};
use std::alloc::Global;

// The number of places in a pool.
const PLACES: usize = 1024;

/// Makes names from bytes, and gives a name that it made lately again where it has the same bytes, so that most equal names
/// share their bytes.
///
/// It holds one name at each of 1,024 places. The bytes alone say which place is theirs.
#[derive(Drop)]
pub struct NamePool {
    alloc: Global,
    names: Vec<Option<Name>>,
}

impl NamePool {
    /// A pool of no names.
    pub fn new(alloc: Global) -> Made<NamePool> {
        let mut names = Vec::with_capacity(alloc, PLACES)?;
        for _ in 0..PLACES {
            names.push(None)?;
        }
        Ok(NamePool { alloc, names })
    }

    /// A name of these bytes.
    pub fn name(&mut self, bytes: &[u8]) -> Made<Name>
        ensures { IfOk result (λ name. name ≡ bytes.now) }
    {
        match self.names.get_mut(place_of(bytes)) {
            Some(Some(name)) if same_bytes(name.as_bytes(), bytes) => name.try_clone(self.alloc),
            Some(place) => {
                let name = Name::from_bytes(self.alloc, bytes)?;
                *place = Some(name.try_clone(self.alloc)?);
                Ok(name)
            }
            None => Name::from_bytes(self.alloc, bytes),
        }
    }
}

// The place of a name in a pool.
fn place_of(bytes: &[u8]) -> usize {
    let mut sum: u32 = 0;
    for byte in bytes {
        sum = sum.wrapping_mul(31).wrapping_add(u32::from(*byte));
    }
    (sum ^ (sum >> 10)) as usize % PLACES
}
