/// Where a stack is that has begun.
#[derive(Clone, Copy, PartialEq, Eq)]
pub enum StackPlace {
    /// It runs without an instance.
    Free,
    /// It waits for this instance.
    Waits(u16),
    /// It holds this instance.
    Holds(u16),
    /// It sleeps until this turn.
    Asleep(u32),
    /// Its first call has returned.
    Done,
    /// It let go of its place in this turn, and has no other yet.
    Between,
}
