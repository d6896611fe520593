//! The state of a run between two turns as plain data, which a machine can be made from again.
#![tactic(auto)]

mod frame;
mod state;

pub use frame::{BodyPlace, FrameState, Way};
pub use state::MachineState;
