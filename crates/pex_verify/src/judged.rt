// Code as it is judged: an instruction by its opcode, with the operands that the file gives it in order. The last step of
// loading makes loaded code of it.

use core_tree::CoreType;
use loaded_code::MethodPlace;
use papy_base::{Name, Text};

/// An operand of an instruction. An identifier that is read or written stands as what it means.
#[derive(Drop)]
pub(crate) enum JudgedOperand {
    NoneValue,
    /// The name of a function, a property or a script, as the file spells it.
    Word(Name),
    Quoted(Text),
    Int(i32),
    Bool(bool),
    /// A parameter or a local: its number among the parameters and the locals behind them.
    Slot(u16),
    /// A variable of the script: its number among the script's variables.
    Variable(u16),
    /// `self`
    Instance,
    /// `::State`
    State,
}

/// An instruction.
#[derive(Drop)]
pub(crate) struct JudgedInstruction {
    pub(crate) opcode: u8,
    /// The operands that the opcode always has.
    pub(crate) fixed: Vec<JudgedOperand>,
    /// The arguments of a call.
    pub(crate) more: Vec<JudgedOperand>,
    /// Where a jump leads: the number of an instruction, or how many there are.
    pub(crate) jump: Option<u16>,
    /// The number of the name of the method or property that is meant.
    pub(crate) name: Option<usize>,
    /// The global function that a callstatic calls.
    pub(crate) function: Option<MethodPlace>,
}

/// A function of a state, or one that reads or writes a property and has the property's name.
#[derive(Drop)]
pub(crate) struct JudgedFunction {
    pub(crate) name: Name,
    pub(crate) result: Option<CoreType>,
    pub(crate) is_global: bool,
    pub(crate) is_native: bool,
    pub(crate) parameters: Vec<(Name, CoreType)>,
    /// The locals, which are numbered behind the parameters. One of the type None has no type here.
    pub(crate) locals: Vec<(Name, Option<CoreType>)>,
    pub(crate) code: Vec<JudgedInstruction>,
    /// The source line of each instruction, 0 where the file tells none.
    pub(crate) lines: Vec<u16>,
}

/// A property.
#[derive(Drop)]
pub(crate) struct JudgedProperty {
    pub(crate) name: Name,
    pub(crate) kind: CoreType,
    /// 1 for read, 2 for write, 4 for auto. The higher bits are those of the file.
    pub(crate) bits: u8,
    /// The number of an auto property's variable among those of its script.
    pub(crate) variable: Option<u16>,
    pub(crate) read: Option<JudgedFunction>,
    pub(crate) write: Option<JudgedFunction>,
}

/// A script. The members that a script without parent lacks stand last in its empty state. Where it has no
/// empty state, one is added as its last state.
#[derive(Drop)]
pub(crate) struct JudgedScript {
    pub(crate) properties: Vec<JudgedProperty>,
    pub(crate) states: Vec<(Name, Vec<JudgedFunction>)>,
}
