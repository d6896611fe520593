//! The expressions and assignments of a function: each word resolved, each conversion written out, and the
//! first broken rule noted.
#![tactic(auto)]

mod assignment;
mod calls;
mod conversions;
mod expression;
mod names;
mod operators;
mod rule;
mod scope;

pub use conversions::{default_fits, kind_of, value_of};
pub use rule::{ScriptNotes, TypeRule};
pub use scope::Scope;
