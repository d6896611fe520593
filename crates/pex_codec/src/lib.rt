//! Compiled Papyrus files (PEX 3.1 and 3.2): values to bytes and back.
//!
//! The format is that of UESP's page "Skyrim Mod:File Formats/PEX" (Compiled Script File).
#![tactic(auto)]

mod code;
mod cursor;
mod decoder;
mod faults;
mod file;
mod items;
mod laws;
mod objects;
mod scan;

pub use decoder::{Decoder, Fed, decode, judge};
pub use faults::{EncodeFault, PexFault, PexRule};
pub use file::encode;
pub use laws::{encoded_is_decoded, one_refusal, one_spelling, pieces_add_up, reading_is_exact};
