//! Runs of scenes, from their first turn to their closing report. What reads a scene and binds it to scripts stands here
//! too, so that a caller needs this crate alone.
#![tactic(auto)]

mod closing;
mod lines;
mod runner;

pub use closing::write_closing;
pub use runner::{finish_turns, run_scene};
pub use scene_binder::bind;
pub use scene_reader::{SceneFault, SceneRule, default_scene, read_scene, upgrade_scene};
