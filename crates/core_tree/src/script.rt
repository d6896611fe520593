// Scripts whose names are resolved. Each list is in the order of the file.

use crate::core_type::CoreType;
use crate::statement::CoreLine;
use crate::value::Value;
use papy_base::{Name, Text};

/// A function or an event.
#[derive(Drop)]
pub struct CoreFunction {
    pub name: Name,
    pub parameters: Vec<CoreType>,
    /// The types of the locals, which are numbered after the parameters.
    pub locals: Vec<CoreType>,
    pub result: Option<CoreType>,
    pub is_global: bool,
    pub is_native: bool,
    pub doc: Option<Text>,
    /// Bit 0 for `Hidden`, bit 1 for `Conditional`, here and in the other flags.
    pub flags: u32,
    /// The statements, none where the function is native.
    pub body: Vec<CoreLine>,
    /// The line on which the function ends.
    pub end_line: u16,
}

/// A variable of a script, with its value at the start.
#[derive(Drop)]
pub struct CoreVariable {
    pub name: Name,
    pub kind: CoreType,
    pub value: Value,
    pub flags: u32,
}

/// How a property is read and written.
#[derive(Drop)]
pub enum CoreAccess {
    /// By the variable of this number.
    Auto(u16),
    /// By its Get, where it has one, and its Set, where it has one.
    Full(Option<CoreFunction>, Option<CoreFunction>),
}

/// A property of a script.
#[derive(Drop)]
pub struct CoreProperty {
    pub name: Name,
    pub kind: CoreType,
    pub access: CoreAccess,
    pub doc: Option<Text>,
    pub flags: u32,
}

/// A state with its functions.
#[derive(Drop)]
pub struct CoreState {
    /// Empty for the empty state.
    pub name: Name,
    pub functions: Vec<CoreFunction>,
}

/// A script.
#[derive(Drop)]
pub struct CoreScript {
    /// The name of the file, which is empty for a script of the prelude.
    pub file: Text,
    pub name: Name,
    /// The parent's number in the set.
    pub parent: Option<u16>,
    pub flags: u32,
    pub doc: Option<Text>,
    /// The state in which instances begin, the empty state where there is none.
    pub auto_state: Option<Name>,
    /// The variables, those of Auto properties among them.
    pub variables: Vec<CoreVariable>,
    pub properties: Vec<CoreProperty>,
    /// The states, the empty state first.
    pub states: Vec<CoreState>,
}

/// Scripts that refer to each other by number. The first six are those of the prelude.
#[derive(Drop)]
pub struct CoreSet {
    pub scripts: Vec<CoreScript>,
}
