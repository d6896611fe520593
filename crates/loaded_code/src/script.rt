// Functions, properties and scripts.

use crate::instruction::LoadedInstruction;
use core_tree::CoreType;
use papy_base::Name;

/// A function of a state, or one that reads or writes a property and has the property's name.
#[derive(Drop)]
pub struct LoadedFunction {
    pub name: Name,
    pub result: Option<CoreType>,
    pub is_global: bool,
    pub is_native: bool,
    pub parameters: Vec<(Name, CoreType)>,
    /// The locals, which are numbered behind the parameters. One of the type None has no type here.
    pub locals: Vec<(Name, Option<CoreType>)>,
    pub code: Vec<LoadedInstruction>,
    /// The source line of each instruction, 0 where the file tells none.
    pub lines: Vec<u16>,
}

/// A property.
#[derive(Drop)]
pub struct LoadedProperty {
    pub name: Name,
    pub kind: CoreType,
    /// 1 for read, 2 for write, 4 for auto. The higher bits are those of the file.
    pub bits: u8,
    /// The number of an auto property's variable among those of its script.
    pub variable: Option<u16>,
    pub read: Option<LoadedFunction>,
    pub write: Option<LoadedFunction>,
}

/// A script. The members that a script without parent lacks stand last in its empty state. Where it has no
/// empty state, one is added as its last state.
#[derive(Drop)]
pub struct LoadedScript {
    pub properties: Vec<LoadedProperty>,
    pub states: Vec<(Name, Vec<LoadedFunction>)>,
}

/// A function of a state: the script's number, the state's place in the script, and the function's place
/// in the state.
#[derive(Clone, Copy, PartialEq, Eq)]
pub struct MethodPlace {
    pub script: u16,
    pub state: usize,
    pub place: usize,
}

/// A property: its script's number, and its place among the script's properties.
#[derive(Clone, Copy, PartialEq, Eq)]
pub struct PropertyPlace {
    pub script: u16,
    pub place: usize,
}
