//! Bodies of loaded code: what their operands are worth, and what each instruction does.
#![tactic(auto)]

mod bindings;
mod body;
mod calls;
mod casts;
mod frame;
mod instructions;
mod lines;
mod rows;
mod setting;
mod store;

pub use bindings::Bindings;
pub use body::{Home, Inner, Turn};
pub use calls::{Event, called_way, is_call, reply_result};
pub use casts::{number_of, text_of};
pub use frame::{Call, CallWay, FRAME_LIMIT, Frame, LoadedBody, Stack};
pub use instructions::{Step, element_type};
pub use lines::{append_escaped, fault_line, trace_line};
pub use rows::Row;
pub use setting::{Found, Setting, name_of, slot_type};
pub use store::{Store, copies};
