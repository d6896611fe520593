//! The frames of stacks.

ghost use Rattle.std.specs.Prelude.{◌≡◌, ◌≤◌};
ghost use Rattle.code_meaning.specs.LookUp.{script_of};
ghost use Rattle.body_runner.specs.Frames.{frames_below, inner_instance, is_done, place_of};

use core_tree::Value;
use loaded_code::{MethodPlace, PropertyPlace};
use machine_state::Way;

/// The most frames of one stack.
pub const FRAME_LIMIT: usize = 128;

/// How a call names its function. Names stand as their numbers.
#[derive(Clone, Copy, PartialEq, Eq)]
pub enum CallWay {
    /// A method, from the instance's script upward.
    Method(usize),
    /// A method, from the parent of the script in which the call stands.
    Parent { script: u16, name: usize },
    /// A global function with a body.
    Global(MethodPlace),
    /// The reading of a property.
    Get(usize),
    /// The writing of a property.
    Set(usize),
    /// By a name that no file has, so that nothing is found.
    Missing,
}

/// A call that is to be entered: its function is looked up then.
#[derive(Drop)]
pub struct Call {
    /// None for a global function.
    pub instance: Option<u16>,
    pub way: CallWay,
    /// By parameter.
    pub arguments: Vec<Value>,
    /// How a call of the scene's names its function, or one with which a restored machine began. Any other is spelled by the
    /// instruction at which the frame below it halts.
    pub kept: Option<Way>,
}

/// Which body runs.
#[derive(Clone, Copy, PartialEq, Eq)]
pub enum LoadedBody {
    /// A function of a state.
    Method(MethodPlace),
    /// The function that reads a property.
    Reader(PropertyPlace),
    /// The function that writes a property.
    Writer(PropertyPlace),
}

impl LoadedBody {
    /// The number of the script in which the body stands.
    pub fn script(self) -> u16
        ensures { result ≡ script_of (place_of self) }
    {
        match self {
            LoadedBody::Method(method) => method.script,
            LoadedBody::Reader(property) => property.script,
            LoadedBody::Writer(property) => property.script,
        }
    }

    /// 0 for a function of a state, 1 for one that reads a property, 2 for one that writes it.
    pub fn kind(self) -> u8
        ensures { result ≤ 2 }
    {
        match self {
            LoadedBody::Method(_) => 0,
            LoadedBody::Reader(_) => 1,
            LoadedBody::Writer(_) => 2,
        }
    }
}

/// An open body, and the instance that it is on.
#[derive(Drop)]
pub struct Frame {
    /// None in a global function.
    pub instance: Option<u16>,
    pub body: LoadedBody,
    /// The place of the instruction that comes next, or of the act whose reply is awaited.
    pub place: usize,
    /// The parameters, and the locals behind them.
    pub slots: Vec<Value>,
}

/// The frames of one stack. Those below the innermost one stand outermost first, and each waits for what the one above it gives.
#[derive(Drop)]
pub enum Stack {
    /// Its first call has returned.
    Done,
    /// The innermost frame is still a call.
    ToEnter {
        call: Call,
        below: Vec<Frame>,
    },
    /// The innermost frame is an open body.
    Running {
        innermost: Frame,
        /// What its act gave, until the next turn of the stack.
        reply: Option<Value>,
        below: Vec<Frame>,
    },
}

impl Stack {
    /// The instance of the innermost frame.
    pub fn instance(&self) -> Option<u16>
        ensures { result ≡ inner_instance self.now }
    {
        match self {
            Stack::Done => None,
            Stack::ToEnter { call, .. } => call.instance,
            Stack::Running { innermost, .. } => innermost.instance,
        }
    }

    /// The frames below the innermost one.
    pub fn below(&self) -> &[Frame]
        ensures { result.now ≡ frames_below self.now }
    {
        match self {
            Stack::Done => &[],
            Stack::ToEnter { below, .. } => below.as_slice(),
            Stack::Running { below, .. } => below.as_slice(),
        }
    }

    /// Whether its first call has returned.
    pub fn is_done(&self) -> bool
        ensures { result ≡ is_done self.now }
    {
        match self {
            Stack::Done => true,
            Stack::ToEnter { .. } => false,
            Stack::Running { .. } => false,
        }
    }
}
