//! The typed trees of scripts, the values they compute with, outlines and scenes, and the same as plain data, in which
//! definitions speak of them.
#![tactic(auto)]

mod core_type;
mod expression;
mod operator;
mod outline;
mod outlining;
mod scene;
mod scene_tree;
mod script;
mod statement;
mod value;

pub use core_type::CoreType;
pub use expression::{Core, FunctionPlace};
pub use operator::{Arith, Order};
pub use outline::{Outline, OutlineFunction, OutlineProperty, OutlineScript, OutlineVariable};
pub use outlining::outline_of;
pub use scene::{BoundCall, BoundInstance, BoundNative, Scene};
pub use scene_tree::{Binding, SceneCall, SceneInstance, SceneTree, SceneValue, TurnOrder};
pub use script::{
    CoreAccess, CoreFunction, CoreProperty, CoreScript, CoreSet, CoreState, CoreVariable,
};
pub use statement::{CoreLine, CoreStatement};
pub use value::Value;

/// The kind of a device that native functions may call.
#[derive(Clone, Copy, Debug, PartialEq, Eq)]
pub enum DeviceKind {
    /// Replies with one cell after another.
    Tape,
    /// Adds its arguments to its one cell.
    Sum,
    /// Replies with its one cell and keeps its first argument.
    Latch,
    /// Replies with numbers in a range, chosen by its cells.
    Dice,
}
