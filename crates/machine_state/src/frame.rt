// What the frames of a stack hold between two turns.

use core_tree::Value;
use papy_base::{Name, Text};

/// How the function of a call is looked up when it is entered. Names are spelled as the call wrote them, and a script
/// is given by its number.
#[derive(Drop)]
pub enum Way {
    /// A function of this name, in the state of the frame's instance.
    Method(Name),
    /// A function of this name above this script, in which the call stands.
    Parent { script: u16, name: Name },
    /// The Global function of this name in this script.
    Global { script: u16, name: Name },
    /// The read function of the property of this name.
    Get(Name),
    /// The write function of the property of this name.
    Set(Name),
}

/// Where a body stands, spelled as it is declared.
#[derive(Drop)]
pub struct BodyPlace {
    pub script: u16,
    /// The state that declares the function. It is empty for a property's function, and for one outside of states.
    pub state: Text,
    /// The function's name, or the property's.
    pub function: Text,
    /// 0 for a function, 1 for a property's read function, 2 for its write function.
    pub kind: u8,
}

/// A frame of a stack. Its instance is none in a Global function.
#[derive(Drop)]
pub enum FrameState {
    /// A call that isn't entered yet.
    ToEnter {
        instance: Option<u16>,
        way: Way,
        arguments: Vec<Value>,
    },
    /// A body in which a stack has come to an instruction.
    Running {
        instance: Option<u16>,
        at: BodyPlace,
        /// The next instruction, or the calling one where a frame stands above this one or a reply waits.
        instruction: u16,
        /// The parameters, then the locals.
        slots: Vec<Value>,
        /// The value that waits for the calling instruction.
        reply: Option<Value>,
    },
}
