//! The values that running scripts keep: the variables and state texts of instances, and arrays.
#![tactic(auto)]

mod arrays;
mod instances;
mod values;

pub use arrays::{Arrays, StoreFault};
pub use instances::{Instance, Instances, ScriptVariables};
pub use values::equals;
