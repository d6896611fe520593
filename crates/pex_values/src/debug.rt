/// Where the instructions stand in the source.
#[derive(Drop)]
pub struct PexDebug {
    /// When the source was changed last, in seconds since 1970.
    pub time: u64,
    /// An entry for each function that has lines.
    pub functions: Vec<PexLines>,
}

/// The source lines of one function, one for each instruction.
#[derive(Drop)]
pub struct PexLines {
    /// A reference.
    pub object: u16,
    /// A reference.
    pub state: u16,
    /// A reference.
    pub function: u16,
    /// What kind of function it is. Every number is kept as it stands.
    pub kind: u8,
    /// The line of each instruction.
    pub lines: Vec<u16>,
}
