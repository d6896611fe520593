//! Which compiled Papyrus files (PEX 3.1 and 3.2) may run together: the rules V1 to V14, and sets that keep them,
//! with every identifier, type and jump resolved.
//!
//! The opcodes are those of UESP's page "Skyrim Mod:File Formats/PEX" (Compiled Script File).
#![tactic(auto)]

mod accessors;
mod action;
mod coded;
mod fault;
mod form;
mod function;
mod instruction;
mod judged;
mod judged_files;
mod loaded;
mod members;
mod object;
mod offering;
mod operand_rules;
mod outlines_meant;
mod outlining;
mod scope;
mod scripts;
mod sources;
mod typed_sets;
mod value_type;
mod verifier;

pub use fault::{VerifyFault, VerifyRule};
pub use judged_files::{JudgedFiles, judge, verify};
pub use loaded::Loaded;
pub use loaded_code::{
    LoadedFunction, LoadedInstruction, LoadedProperty, LoadedScript, MethodPlace, Operand,
    PropertyPlace,
};
pub use offering::verified_scripts_offer_what_they_tell;
pub use outlines_meant::verified_outlines_are_as_meant;
pub use typed_sets::verified_sets_are_typed;
