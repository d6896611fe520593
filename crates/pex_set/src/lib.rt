//! A set of compiled Papyrus files (PEX 3.1 and 3.2): its names as numbers, the scripts that every set has,
//! and the objects of a set with their parents.
#![tactic(auto)]

mod inherited;
mod names;
mod objects;
mod prelude;

pub use inherited::{Inherited, MemberNames, MemberPlace, OwnMembers};
pub use names::{EMPTY_NAME, FileNames, NameNumbers, one_number_of_a_name, text_at};
pub use objects::{Head, Objects};
pub use prelude::Prelude;
