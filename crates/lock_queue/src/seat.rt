//! What a stack does about locks.

/// The seat of a stack.
#[derive(Clone, Copy, PartialEq, Eq)]
pub enum Seat {
    /// It has no lock and asks for none: it sleeps, is done or hasn't started.
    Resting,
    /// It runs without a lock.
    Free,
    /// It waits for this instance.
    Waits(u16),
    /// It holds this instance.
    Holds(u16),
}
