//! What is left of a file and of a text while a listing is read.

ghost use Rattle.std.specs.Prelude.{◌+◌, ◌<◌, ◌≤◌, ◌^◌, length};

/// The bytes that no part of the value has taken yet. The parts that every value has are taken at the start.
#[derive(Clone, Copy)]
pub(crate) struct Room {
    pub left: u32,
    ghost within: { left ≤ 16777216 },
}

/// What follows the open line.
#[derive(Clone, Copy)]
pub(crate) struct Rest<'a> {
    pub bytes: &'a [u8],
    /// How many lines were opened.
    pub lines: u64,
    ghost few: { lines + length bytes.now < 2 ^ 63 },
}
