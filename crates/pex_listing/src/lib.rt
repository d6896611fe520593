//! The listing of compiled Papyrus files: a text with one line for each part, which has all that the file has.
#![tactic(auto)]

mod assembling;
mod faults;
mod fields;
mod laws;
mod listing;
mod objects;
mod room;
mod showing;
mod strings;

pub use assembling::assemble;
pub use faults::{ListingFault, ListingRule, ShowFault};
pub use laws::{one_value, spelled_fields_break_no_rule};
pub use showing::show;
