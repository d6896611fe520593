//! The rules of types and names, and scripts with each word resolved and each conversion written out,
//! by the Papyrus language reference (Creation Kit wiki) with the choices of this project.
#![tactic(auto)]

mod elaboration;
mod fault;
mod functions;
mod members;
mod sizes;
mod statements;
mod work;

pub use elaboration::elaborate;
pub use expression_rules::TypeRule;
pub use fault::TypeFault;
