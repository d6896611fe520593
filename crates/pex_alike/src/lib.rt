//! When two compiled Papyrus files (PEX 3.1 and 3.2) have the same code, whatever their parameters and locals are called.
#![tactic(auto)]

mod alike;
mod function_names;
mod members;

pub use members::same_code;
