//! Code as a set of compiled files is loaded: an instruction is a form of its own for each opcode, with its operands
//! by name, and each identifier that is read or written stands as what it means.
//!
//! The opcodes and their operands are those of UESP's page on the compiled script format.
#![tactic(auto)]

mod instruction;
mod operand;
mod script;

pub use instruction::LoadedInstruction;
pub use operand::Operand;
pub use script::{LoadedFunction, LoadedProperty, LoadedScript, MethodPlace, PropertyPlace};
