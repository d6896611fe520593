//! Scenes bound to the scripts that they run: names become numbers, and each native function gets what
//! it does.
#![tactic(auto)]

mod binder;
mod natives;
mod scripts;

pub use binder::bind;
