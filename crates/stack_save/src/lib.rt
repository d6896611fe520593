//! Held files: the state of a run, with the PEX files and the scene that it runs, as bytes and back.
#![tactic(auto)]

mod fault;
mod fields;
mod items;
mod loading;
mod saving;
mod values;

pub use fault::{HeldFault, HeldRule, SaveFault};
pub use loading::{Held, load, one_spelling};
pub use saving::save;

/// The most bytes that a held file may have.
pub const HELD_LIMIT: u32 = 67_108_864;

/// The first bytes of a held file: `PHLD`, and the layout's number.
const HEADING: [u8; 5] = [0x50, 0x48, 0x4C, 0x44, 1];
