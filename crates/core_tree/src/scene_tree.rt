// A scene as its file has it: things are named, and nothing is looked up.

use papy_base::Text;

/// A value in a scene.
#[derive(Drop)]
pub enum SceneValue {
    NoneValue,
    Int(i32),
    Bool(bool),
    Text(Text),
    /// The instance of this name.
    Instance(Text),
}

/// An instance of a script, with the values that its properties are set to.
#[derive(Drop)]
pub struct SceneInstance {
    pub name: Text,
    pub script: Text,
    pub set: Vec<(Text, SceneValue)>,
}

/// A call that starts a stack at a turn.
#[derive(Drop)]
pub struct SceneCall {
    /// At most 1,000,000.
    pub turn: u32,
    pub instance: Text,
    pub function: Text,
    pub arguments: Vec<SceneValue>,
}

/// What a native function does. A latency is in turns, at most 1,000,000.
#[derive(Clone, Copy, Debug, PartialEq, Eq)]
pub enum Binding {
    /// The stack sleeps as many turns as its one argument says.
    Sleep,
    /// The first argument is a line of the report.
    Trace { latency: u32 },
    /// The device of this number is called, and its reply is the result.
    Device { device: u16, latency: u32 },
    /// As `Trace`, in the calling stack's turn.
    PromptTrace,
    /// As `Device`, in the calling stack's turn.
    PromptDevice { device: u16 },
}

/// Which stack gets a turn.
#[derive(Drop)]
pub enum TurnOrder {
    /// The next one that is ready, cyclically.
    Round,
    /// The listed one.
    List(Vec<u16>),
}

/// A scene.
#[derive(Drop)]
pub struct SceneTree {
    pub instances: Vec<SceneInstance>,
    pub calls: Vec<SceneCall>,
    /// What the native function `Script.Function` does.
    pub natives: Vec<(Text, Binding)>,
    /// What each device is loaded with, in their order.
    pub tapes: Vec<Vec<i32>>,
    pub order: TurnOrder,
    /// At most 1,000,000.
    pub turns: u32,
    /// How many loop passes a turn may have, from 1 to 1,000.
    pub quantum: u32,
}
