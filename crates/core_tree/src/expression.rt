// Expressions whose names are resolved and whose conversions are written out.

use crate::core_type::CoreType;
use crate::operator::{Arith, Order};
use crate::value::Value;
use papy_base::Name;

/// A function of an empty state: its script's number in the set, and its place in that state.
#[derive(Clone, Copy, PartialEq, Eq)]
pub struct FunctionPlace {
    pub script: u16,
    pub place: u16,
}

/// An expression. Nothing in it converts by itself: each conversion is a `Cast`.
///
/// In a call `arguments` stand in the order of writing, default arguments last, and `places` has the
/// number of each one's parameter. A name is spelled as the script writes it. `result` is None where
/// the function gives no value. Locals are numbered with the parameters first.
///
/// A tree has up to three levels for two tokens of its line, and a line has at most 8,000 tokens.
#[derive(Drop)]
pub enum Core {
    Lit(Value),
    /// A parameter or a local of the function.
    Local(u16),
    /// A variable of the function's script, on the frame's own instance.
    Field(u16),
    SelfValue,
    /// The name of the state that the frame's own instance is in.
    StateText,
    /// Arithmetic on whole numbers. The operation is never `Join`.
    Arith(Arith, Box<Core>, Box<Core>),
    Neg(Box<Core>),
    Not(Box<Core>),
    /// One text followed by the other.
    Join(Box<Core>, Box<Core>),
    /// Whether two values of one type are equal.
    Equal(Box<Core>, Box<Core>),
    Order(Order, Box<Core>, Box<Core>),
    And(Box<Core>, Box<Core>),
    Or(Box<Core>, Box<Core>),
    Cast(CoreType, Box<Core>),
    CallMethod {
        of: Box<Core>,
        name: Name,
        arguments: Vec<Core>,
        places: Vec<u16>,
        result: Option<CoreType>,
    },
    CallParent {
        name: Name,
        arguments: Vec<Core>,
        places: Vec<u16>,
        result: Option<CoreType>,
    },
    /// A call of a Global function with a body.
    CallGlobal {
        at: FunctionPlace,
        arguments: Vec<Core>,
        places: Vec<u16>,
        result: Option<CoreType>,
    },
    /// A call of a Global native function.
    CallNative {
        at: FunctionPlace,
        arguments: Vec<Core>,
        places: Vec<u16>,
        result: Option<CoreType>,
    },
    /// A property of an instance, with its type.
    PropGet {
        of: Box<Core>,
        name: Name,
        result: CoreType,
    },
    /// A new array of 1 to 128 elements of this type.
    NewArray(CoreType, u8),
    Length(Box<Core>),
    /// An array's element: the array, the index and the element type.
    Element(Box<Core>, Box<Core>, CoreType),
    /// The first index of a value in an array: the array, the value and the index to start at.
    Find(Box<Core>, Box<Core>, Box<Core>),
    /// The last index, searched from the start downward.
    FindBack(Box<Core>, Box<Core>, Box<Core>),
}
