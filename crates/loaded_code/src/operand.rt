// What an instruction reads a value from or stores one in.

use papy_base::Text;

/// An operand of an instruction. An identifier stands as what it means.
#[derive(Drop)]
pub enum Operand {
    NoneValue,
    Quoted(Text),
    Int(i32),
    Bool(bool),
    /// A parameter or a local: its number among the parameters and the locals behind them.
    Slot(u16),
    /// A variable of the script: its number among the script's variables.
    Variable(u16),
    /// `self`
    Instance,
    /// `::State`
    State,
}
