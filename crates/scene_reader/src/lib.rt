//! Scene files: what to run, as a JSON text (RFC 8259). A scene says which instances there are, which
//! calls start stacks, what native functions do, and in which order stacks get their turns.
#![tactic(auto)]

mod document;
mod fault;
mod parts;
mod scene;

pub use fault::{SceneFault, SceneRule};
pub use scene::{default_scene, read_scene, upgrade_scene};
