// Statements, each with the line on which it begins.

use crate::core_type::CoreType;
use crate::expression::Core;
use crate::operator::Arith;
use papy_base::Name;

/// A statement, and the line on which it begins.
#[derive(Drop)]
#[cycle(statement)]
pub struct CoreLine {
    pub line: u16,
    pub form: CoreStatement,
}

/// What a statement does. At most 64 `If` and `While` stand inside each other.
#[derive(Drop)]
#[cycle(statement)]
pub enum CoreStatement {
    SetLocal(u16, Core),
    SetField(u16, Core),
    /// The frame's own instance goes to the state of this name.
    SetState(Core),
    /// A property is written: the instance, the property's name and the value.
    SetProp(Core, Name, Core),
    /// A compound assignment to a property: the instance, the property's name and type, the
    /// operation and the right side.
    ChangeProp(Core, Name, CoreType, Arith, Core),
    /// An element is written: the array, the index and the value.
    SetElement(Core, Core, Core),
    /// A compound assignment to an element: the array, the index, the element type, the operation
    /// and the right side.
    ChangeElement(Core, Core, CoreType, Arith, Core),
    /// An expression whose value isn't used.
    Plain(Core),
    Return(Option<Core>),
    /// The line, the test and the statements of `If` and each `ElseIf`, and the statements of `Else`.
    If(Vec<(u16, Core, Vec<CoreLine>)>, Vec<CoreLine>),
    /// The test, the statements and the line of `EndWhile`.
    While(Core, Vec<CoreLine>, u16),
}
