//! Names, texts and whole numbers of Papyrus scripts, tables of names, what stands above what by the numbers of parents,
//! which broken rule comes first, what every set declares, and how decimal digits and names of instances are read: what
//! every other crate stands on.
#![tactic(auto)]

mod decimal;
mod descent;
mod digits;
mod earliest;
mod faults;
mod instance_name;
mod int;
mod lineage;
mod name;
mod name_pool;
mod name_table;
mod prelude;
mod text;

pub use decimal::{read_int, write_int};
pub use descent::{Descent, Span, on_circles};
pub use digits::{decimal_number, has_leading_zero};
pub use earliest::{BrokenRule, Earliest, NumberedRule};
pub use faults::{Fault, JoinFault, Made, OutOfMemory, StackFault};
pub use instance_name::is_instance_name;
pub use int::{add, div, mul, neg, rem, sub};
pub use lineage::{HasParent, Lineage, is_below, lineage_of, parent_of, upward};
pub use name::Name;
pub use name_pool::NamePool;
pub use name_table::{NameTable, Named};
pub use prelude::{
    LIBRARY_COUNT, PRELUDE, PRELUDE_COUNT, STATE_MEMBERS, StandardBody, StandardFunction,
    StandardParameter, StandardScript,
};
pub use text::{TEXT_LIMIT, Text};
