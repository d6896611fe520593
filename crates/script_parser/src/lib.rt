//! The script of a file's logical lines: the blocks of Papyrus (Creation Kit wiki), with each line in
//! its place, or the first bad line.
#![tactic(auto)]

mod block;
mod fault;
mod parser;
mod reader;
mod script;
mod words;

pub use fault::ParseFault;
pub use parser::parse_script;
pub use script::{
    Body, Function, Property, PropertyForm, Script, State, Statement, StatementForm, Variable,
};
