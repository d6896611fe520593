//! The form of one logical line of a script, by the line grammar of the Papyrus language reference
//! (Creation Kit wiki), without the Float type.
#![tactic(auto)]

mod cursor;
mod expression;
mod fault;
mod form;
mod nesting;
mod simple;
mod tree;

pub use fault::{LineFault, LineRule};
pub use form::{doc_at_end, parse_line};
pub use simple::TypeWords;
pub use tree::{
    Access, Argument, Constant, Expr, Heading, LineForm, LineTree, Parameter, TypeName,
};
