use papy_base::Text;

/// What a compiled file holds. A `u16` that is called a reference is an index into `strings`.
#[derive(Drop)]
pub struct Pex {
    /// The minor version, 1 or 2. The major one is 3.
    pub minor: u8,
    /// When the file was compiled, in seconds since 1970.
    pub time: u64,
    /// The name of the source file.
    pub source: Text,
    /// Who compiled it.
    pub user: Text,
    /// The machine on which it was compiled.
    pub machine: Text,
    /// The string table.
    pub strings: Vec<Text>,
    /// Where the instructions stand in the source, if the file says so.
    pub debug: Option<crate::debug::PexDebug>,
    /// References to flag names, each with the number of its bit.
    pub user_flags: Vec<(u16, u8)>,
    /// The scripts.
    pub objects: Vec<PexObject>,
}

/// What the size field of an object counts. Both forms occur.
#[derive(Clone, Copy, Debug, PartialEq, Eq)]
pub enum SizeForm {
    /// The object's data and the four bytes of the field itself.
    Counted,
    /// The object's data alone.
    Bare,
}

/// A script.
#[derive(Drop)]
pub struct PexObject {
    /// A reference.
    pub name: u16,
    pub size_form: SizeForm,
    /// A reference to the parent's name; the empty string where there is none.
    pub parent: u16,
    /// A reference to the documentation.
    pub doc: u16,
    pub flags: u32,
    /// A reference to the name of the state in which an instance begins.
    pub auto_state: u16,
    pub variables: Vec<PexVariable>,
    pub properties: Vec<PexProperty>,
    pub states: Vec<PexState>,
}

/// A variable of a script.
#[derive(Drop)]
pub struct PexVariable {
    /// A reference.
    pub name: u16,
    /// A reference to the type's name.
    pub kind: u16,
    pub flags: u32,
    /// The value at the start.
    pub value: Datum,
}

/// A property of a script.
#[derive(Drop)]
pub struct PexProperty {
    /// A reference.
    pub name: u16,
    /// A reference to the type's name.
    pub kind: u16,
    /// A reference to the documentation.
    pub doc: u16,
    pub flags: u32,
    /// 1 for read, 2 for write, 4 for auto. The higher bits are kept as they stand.
    pub bits: u8,
    /// A reference to the variable of an auto property.
    pub variable: Option<u16>,
    pub read: Option<PexFunction>,
    pub write: Option<PexFunction>,
}

/// A state with its functions, each beside a reference to its name.
#[derive(Drop)]
pub struct PexState {
    /// A reference; that of the empty string for the empty state.
    pub name: u16,
    pub functions: Vec<(u16, PexFunction)>,
}

/// A function. Its name stands beside it.
#[derive(Drop)]
pub struct PexFunction {
    /// A reference to the result type's name.
    pub result: u16,
    /// A reference to the documentation.
    pub doc: u16,
    pub flags: u32,
    /// 1 for global, 2 for native. The higher bits are kept as they stand.
    pub bits: u8,
    /// References to names and types.
    pub parameters: Vec<(u16, u16)>,
    /// References to names and types.
    pub locals: Vec<(u16, u16)>,
    pub code: Vec<Instruction>,
}

/// An instruction: an opcode, the operands that it always has, and those that it counts.
#[derive(Drop)]
pub struct Instruction {
    pub opcode: u8,
    pub fixed: Vec<Datum>,
    pub more: Vec<Datum>,
}

/// An operand or an initial value.
#[derive(Clone, Copy, Debug, PartialEq, Eq)]
pub enum Datum {
    NoneValue,
    /// A reference to an identifier.
    Word(u16),
    /// A reference to a text.
    Quoted(u16),
    Int(i32),
    /// The four bytes of a 32-bit float. They are kept and never computed with.
    Float(u32),
    /// 0 means False, every other byte True.
    Bool(u8),
}
