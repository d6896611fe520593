//! The commands that run scripts: from their text by `run` and `once`, from compiled files by `exec`, `journal` and
//! `hold`, a held run by `resume`, and the scripts of `sample`; and how compiled files are read and verified together.
#![tactic(auto)]

mod exec_command;
mod hold_command;
mod journal_command;
mod once_command;
mod play;
mod program;
mod resume_command;
mod run_command;
mod sample_command;
mod sample_scene;
mod sample_scripts;
mod turns;

pub use exec_command::exec;
pub use hold_command::hold;
pub use journal_command::journal;
pub use once_command::once;
pub use play::{start_machine, turns_ending};
pub use program::{Program, read_program, read_set};
pub use resume_command::resume;
pub use run_command::run;
pub use sample_command::sample;
