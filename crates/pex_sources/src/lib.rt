//! Texts that may be the sources of compiled Papyrus files (PEX 3.1 and 3.2), which is to be checked by compiling them.
#![tactic(auto)]

mod blocks;
mod code;
mod compiled_scripts;
mod declarations;
mod expressions;
mod fault;
mod page;
mod reader;
mod slots;
mod source_texts;
mod trees;

pub use fault::{NotFound, SourceFault};
pub use source_texts::sources;
