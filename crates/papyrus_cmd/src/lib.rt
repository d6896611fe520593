//! The commands of `papyrus`.
#![tactic(auto)]

mod asm;
mod check;
mod command;
mod compile;
mod dispatch;
mod help;
mod lift;
mod notes;
mod show;
mod top;
mod upgrade;
mod waits;
mod written;

pub use asm::asm_writes_a_listed_file_again;
pub use top::papyrus;
