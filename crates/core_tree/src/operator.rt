// The operations on two values.

/// An operation that a compound assignment may do, as `+=`. All but `Join` also stand in expressions.
#[derive(Clone, Copy, PartialEq, Eq)]
pub enum Arith {
    Add,
    Sub,
    Mul,
    Div,
    Rem,
    /// One text followed by the other.
    Join,
}

/// A comparison of two whole numbers.
#[derive(Clone, Copy, PartialEq, Eq)]
pub enum Order {
    Less,
    LessEqual,
    Greater,
    GreaterEqual,
}
