//! Sets of scripts: each script with its parent, the members that every script has, and the rules of
//! a set, by the Papyrus language reference (Creation Kit wiki) with the choices of this project.
#![tactic(auto)]

mod declarations;
mod fault;
mod linker;
mod parents;
mod prelude;
mod rules;
mod scripts;
mod set;
mod signatures;

pub use fault::{LinkFault, LinkRule};
pub use linker::link;
pub use set::{FunctionRef, PropertyRef, ScriptSet, SourceFile};
