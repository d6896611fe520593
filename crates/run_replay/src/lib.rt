//! Journals of runs: their text, and what can be said of the locks from the text alone.
#![tactic(auto)]

mod book;
mod fault;
mod journal;
mod lock_move;
mod reader;
mod stack_place;
mod text;
mod waits;

pub use fault::{JournalFault, JournalRule};
pub use journal::{check_journal, one_break};
pub use lock_move::LockMove;
pub use stack_place::StackPlace;
pub use text::{ending, heading, turn_text};
pub use waits::Waits;
