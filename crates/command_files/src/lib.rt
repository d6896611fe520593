//! What the commands of `papyrus` share: the files that they read, scripts, scenes and compiled files among them, what
//! accepted scripts compile to, and how a command ends.
#![tactic(auto)]

mod compile_fault;
mod compiled;
mod ending;
mod file_fault;
mod pex_file;
mod refusal;
mod scene_file;
mod scripts;
mod source_texts;
mod text_file;

pub use compile_fault::CompileFault;
pub use compiled::{CompiledSet, compile_set};
pub use ending::Ending;
pub use file_fault::FileFault;
pub use pex_file::{PexFile, count_pex, read_pex};
pub use refusal::{Place, Rule, refusal_line};
pub use scene_file::{KeptScene, load_kept_scene, load_scene, read_scene_text};
pub use scripts::accept;
pub use source_texts::{NamedText, accept_texts};
pub use text_file::read_text;
