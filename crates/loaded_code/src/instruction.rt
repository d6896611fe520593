// Instructions: a form for each opcode.

use crate::operand::Operand;
use crate::script::MethodPlace;
use papy_base::Name;

/// An instruction. Forms stand in the order of their opcodes, and operands in the order of the file. The forms of
/// floats are missing, since no set that is loaded has one.
#[derive(Drop)]
pub enum LoadedInstruction {
    Nop,
    IAdd {
        result: Operand,
        left: Operand,
        right: Operand,
    },
    ISub {
        result: Operand,
        left: Operand,
        right: Operand,
    },
    IMul {
        result: Operand,
        left: Operand,
        right: Operand,
    },
    IDiv {
        result: Operand,
        left: Operand,
        right: Operand,
    },
    IMod {
        result: Operand,
        left: Operand,
        right: Operand,
    },
    Not {
        result: Operand,
        value: Operand,
    },
    INeg {
        result: Operand,
        value: Operand,
    },
    Assign {
        result: Operand,
        value: Operand,
    },
    Cast {
        result: Operand,
        value: Operand,
    },
    CmpEq {
        result: Operand,
        left: Operand,
        right: Operand,
    },
    CmpLt {
        result: Operand,
        left: Operand,
        right: Operand,
    },
    CmpLe {
        result: Operand,
        left: Operand,
        right: Operand,
    },
    CmpGt {
        result: Operand,
        left: Operand,
        right: Operand,
    },
    CmpGe {
        result: Operand,
        left: Operand,
        right: Operand,
    },
    /// An offset counts from the jump itself. The landing is the place where it leads: the number of an instruction,
    /// or how many there are.
    Jmp {
        offset: i32,
        landing: u16,
    },
    JmpT {
        condition: Operand,
        offset: i32,
        landing: u16,
    },
    JmpF {
        condition: Operand,
        offset: i32,
        landing: u16,
    },
    /// The number is that of the name in the set that was loaded.
    CallMethod {
        name: Name,
        number: Option<usize>,
        object: Operand,
        result: Operand,
        arguments: Vec<Operand>,
    },
    CallParent {
        name: Name,
        number: Option<usize>,
        result: Operand,
        arguments: Vec<Operand>,
    },
    /// The script is the one that the call names, and the function the one that it means: this script's, or one that
    /// stands above it.
    CallStatic {
        script: u16,
        name: Name,
        function: Option<MethodPlace>,
        result: Operand,
        arguments: Vec<Operand>,
    },
    Return {
        value: Operand,
    },
    StrCat {
        result: Operand,
        left: Operand,
        right: Operand,
    },
    PropGet {
        name: Name,
        number: Option<usize>,
        object: Operand,
        result: Operand,
    },
    PropSet {
        name: Name,
        number: Option<usize>,
        object: Operand,
        value: Operand,
    },
    ArrayCreate {
        result: Operand,
        size: u8,
    },
    ArrayLength {
        result: Operand,
        array: Operand,
    },
    ArrayGetElement {
        result: Operand,
        array: Operand,
        index: Operand,
    },
    ArraySetElement {
        array: Operand,
        index: Operand,
        value: Operand,
    },
    ArrayFindElement {
        array: Operand,
        result: Operand,
        value: Operand,
        start: Operand,
    },
    ArrayRFindElement {
        array: Operand,
        result: Operand,
        value: Operand,
        start: Operand,
    },
}
