// A script as its lines give it.

use line_parser::{Constant, Expr, Heading, TypeName};
use papy_base::{Name, Named, Text};
use script_lexer::Sign;

/// A variable of a script.
#[derive(Drop)]
pub struct Variable {
    pub kind: TypeName,
    pub name: Name,
    pub value: Option<Constant>,
    pub flags: u32,
    pub line: u16,
}

impl Named for Variable {
    ghost name_of = { λ variable. variable.name };

    fn name(&self) -> &Name {
        &self.name
    }
}

/// What a function does.
#[derive(Drop)]
pub enum Body {
    /// The game, or a device, does it.
    Native,
    Lines(Vec<Statement>),
}

/// A function or an event.
#[derive(Drop)]
pub struct Function {
    pub heading: Heading,
    pub doc: Option<Text>,
    pub body: Body,
    /// The line of the heading.
    pub line: u16,
    /// The line of `EndFunction` or `EndEvent`, or a native function's own line.
    pub end_line: u16,
}

impl Named for Function {
    ghost name_of = { λ function. function.heading.name };

    fn name(&self) -> &Name {
        &self.heading.name
    }
}

/// A statement, and the line on which it begins.
#[derive(Drop)]
#[cycle(statement)]
pub struct Statement {
    pub line: u16,
    pub form: StatementForm,
}

/// What a statement does. At most 64 `If` and `While` stand inside each other.
#[derive(Drop)]
#[cycle(statement)]
pub enum StatementForm {
    /// A local.
    Definition {
        kind: TypeName,
        name: Name,
        value: Option<Expr>,
    },
    Assign {
        target: Expr,
        sign: Sign,
        value: Expr,
    },
    Plain(Expr),
    Return(Option<Expr>),
    /// The line, the test and the statements of `If` and each `ElseIf`, and the statements of `Else`.
    If {
        tests: Vec<(u16, Expr, Vec<Statement>)>,
        otherwise: Vec<Statement>,
    },
    While {
        test: Expr,
        body: Vec<Statement>,
        end_line: u16,
    },
}

/// How a property is read and written.
#[derive(Drop)]
pub enum PropertyForm {
    Auto(Option<Constant>),
    ReadOnly(Constant),
    /// By functions, at least one.
    Full(Vec<Function>),
}

/// A property of a script.
#[derive(Drop)]
pub struct Property {
    pub kind: TypeName,
    pub name: Name,
    pub form: PropertyForm,
    pub doc: Option<Text>,
    pub flags: u32,
    pub line: u16,
}

impl Named for Property {
    ghost name_of = { λ property. property.name };

    fn name(&self) -> &Name {
        &self.name
    }
}

/// A state with its functions.
#[derive(Drop)]
pub struct State {
    pub name: Name,
    pub is_auto: bool,
    pub functions: Vec<Function>,
    pub line: u16,
}

impl Named for State {
    ghost name_of = { λ state. state.name };

    fn name(&self) -> &Name {
        &self.name
    }
}

/// A script. Each list is in the order of the file.
#[derive(Drop)]
pub struct Script {
    pub name: Name,
    pub line: u16,
    pub parent: Option<Name>,
    pub flags: u32,
    pub doc: Option<Text>,
    /// The line and the name of each import.
    pub imports: Vec<(u16, Name)>,
    pub variables: Vec<Variable>,
    pub properties: Vec<Property>,
    pub functions: Vec<Function>,
    pub states: Vec<State>,
    /// How many different words, texts and documentation texts the file has.
    pub words: u32,
}
