// What a line means: its form, with the trees of its expressions.

use papy_base::{Name, Text};
use script_lexer::{Keyword, Sign};

/// A type as a script writes it. `Int`, `Bool` and `String` are words of those spellings.
#[derive(Drop)]
pub struct TypeName {
    pub word: Name,
    pub is_array: bool,
}

/// An argument of a call, with the parameter's name where it is written.
#[derive(Drop)]
#[cycle(tree)]
pub struct Argument {
    pub name: Option<Name>,
    pub value: Expr,
}

/// An expression. Binary signs group to the left, and brackets leave no node.
///
/// A tree is at most as deep as its line has tokens, which are at most 8,000.
#[derive(Drop)]
#[cycle(tree)]
pub enum Expr {
    Int(i32),
    Bool(bool),
    Quoted(Text),
    NoneValue,
    SelfValue,
    Word(Name),
    /// `name(arguments)`
    Call {
        name: Name,
        arguments: Vec<Argument>,
    },
    /// `Parent.name(arguments)`
    ParentCall {
        name: Name,
        arguments: Vec<Argument>,
    },
    /// `of.name(arguments)`
    MemberCall {
        of: Box<Expr>,
        name: Name,
        arguments: Vec<Argument>,
    },
    /// `of.name`
    Member {
        of: Box<Expr>,
        name: Name,
    },
    /// `of.Length`
    Length {
        of: Box<Expr>,
    },
    /// `of[at]`
    Index {
        of: Box<Expr>,
        at: Box<Expr>,
    },
    /// `New element[count]`
    NewArray {
        element: Name,
        count: i32,
    },
    /// `-of` or `!of`
    Unary {
        sign: Sign,
        of: Box<Expr>,
    },
    Binary {
        sign: Sign,
        left: Box<Expr>,
        right: Box<Expr>,
    },
    /// `of As to`
    Cast {
        of: Box<Expr>,
        to: TypeName,
    },
}

/// A parameter of a function or an event.
#[derive(Drop)]
pub struct Parameter {
    pub kind: TypeName,
    pub name: Name,
    pub default: Option<Constant>,
}

/// A value that is written out.
#[derive(Drop)]
pub enum Constant {
    Int(i32),
    Bool(bool),
    Quoted(Text),
    NoneValue,
}

/// The first line of a function or an event.
#[derive(Drop)]
pub struct Heading {
    pub result: Option<TypeName>,
    pub name: Name,
    pub parameters: Vec<Parameter>,
    pub is_event: bool,
    pub is_global: bool,
    pub is_native: bool,
    /// Bit 0 for `Hidden`, bit 1 for `Conditional`, here and in the other forms.
    pub flags: u32,
}

/// How a property is read and written.
#[derive(Drop)]
pub enum Access {
    Auto(Option<Constant>),
    ReadOnly(Constant),
    /// By functions, on the lines that follow.
    Full,
}

/// The form of a line.
#[derive(Drop)]
pub enum LineForm {
    ScriptName {
        name: Name,
        parent: Option<Name>,
        flags: u32,
    },
    Import(Name),
    /// A variable of the script, or a local.
    Definition {
        kind: TypeName,
        name: Name,
        value: Option<Expr>,
        flags: u32,
    },
    Property {
        kind: TypeName,
        name: Name,
        access: Access,
        flags: u32,
    },
    Function(Heading),
    State {
        name: Name,
        is_auto: bool,
    },
    If(Expr),
    ElseIf(Expr),
    While(Expr),
    /// `Else`, or a keyword that ends a block.
    Key(Keyword),
    Return(Option<Expr>),
    /// `target = value`, or with another sign of assignment, as `+=`.
    Assign {
        target: Expr,
        sign: Sign,
        value: Expr,
    },
    /// An expression alone.
    Plain(Expr),
    /// Nothing but a documentation text.
    DocOnly,
}

/// A line's form, and the documentation text at its end.
#[derive(Drop)]
pub struct LineTree {
    pub form: LineForm,
    pub doc: Option<Text>,
}
