//! Where each stack of a run is: it owns an instance, waits for one, runs free, sleeps or is done. Each move is the one that
//! the meaning of scripts gives a world.
#![tactic(auto)]

mod choosing;
mod ending;
mod passing;
mod places;
mod waking;

pub use passing::ready_stack_runs;
pub use places::Places;
pub use waking::{Stacks, wake_all};
