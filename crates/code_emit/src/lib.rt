//! From the typed trees of scripts, and the code that stands for them, to compiled files (PEX 3.1).
//!
//! The format is that of UESP's page "Skyrim Mod:File Formats/PEX" (Compiled Script File).
#![tactic(auto)]

mod emitter;
mod faults;
mod functions;
mod instructions;
mod operands;
mod strings;
mod writer;

pub use emitter::emit;
pub use faults::EmitFault;
