//! Sources of compiled Papyrus files (PEX 3.1 and 3.2), checked by compiling them.
#![tactic(auto)]

mod fault;
mod lifting;

pub use fault::{LiftFault, LiftRule};
pub use lifting::lift;
