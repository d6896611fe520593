//! Devices that native functions call, and the stacks that sleep after such a call.
#![tactic(auto)]

mod device;
mod devices;
mod sleepers;

pub use device::{Device, call_device, load_device};
pub use devices::{Dice, Latch, Sum, Tape};
pub use sleepers::Sleepers;
