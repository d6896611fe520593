//! The logical lines of a Papyrus script: its bytes cut into tokens, or the first broken rule.
#![tactic(auto)]

mod fault;
mod in_line;
mod keyword;
mod lexer;
mod line;
mod opening;
mod piece;
mod quoted;
mod sign;
mod token;
mod trivia;

pub use fault::{LexFault, LexRule};
pub use keyword::Keyword;
pub use lexer::{lex, one_answer};
pub use line::{Line, Lines};
pub use sign::Sign;
pub use token::{Spanned, Token};
