//! The locks of instances: who holds each, and who waits for it, in order of joining.
#![tactic(auto)]

mod locks;
mod queues;
mod ready;
mod seat;

pub use locks::Locks;
pub use seat::Seat;
