//! What names mean in a set of scripts: types, variables, properties and functions, and the locals of
//! a function.
#![tactic(auto)]

mod catalog;
mod layout;
mod locals;

pub use catalog::{Callee, Catalog, Kind, array_of};
pub use layout::{Layout, Source};
pub use locals::{Local, Locals};

// Among so many names each is compared, which takes less time than to hash one.
const COMPARED_LIMIT: usize = 16;
