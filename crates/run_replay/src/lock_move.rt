//! What stacks do about locks.

/// One move of a stack in a turn. The stack's number comes first.
#[derive(Clone, Copy, Debug, PartialEq, Eq)]
pub enum LockMove {
    /// The stack waits for an instance from now on, behind all others.
    Join(u16, u16),
    /// The stack, which waited for the instance, holds it from now on.
    Take(u16, u16),
    /// The stack lets go of the instance.
    Release(u16, u16),
    /// The stack runs on without an instance.
    Free(u16),
    /// The stack, which ran without an instance, stops doing so.
    Leave(u16),
    /// The stack sleeps until a turn.
    Sleep(u16, u32),
    /// The stack is done.
    Done(u16),
    /// The turn is this stack's.
    Run(u16),
    /// The turn is no stack's.
    Idle,
}
