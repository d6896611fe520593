//! The machine that runs loaded Papyrus scripts in turns: one stack runs at a time, from one act to the next.
#![tactic(auto)]

mod acts;
mod entry;
mod machine;
mod moves;
mod natives;
mod parts;
mod plan;
mod restore;
mod run;
mod savable;
mod snapshot;
mod sound;
mod standing;
mod status;
mod turns;
mod world;

pub use body_runner::append_escaped;
pub use machine::Machine;
pub use machine_state::{BodyPlace, FrameState, MachineState, Way};
pub use run_replay::LockMove;
pub use status::{RestoreFault, Status, TurnEnd, TurnFault};
