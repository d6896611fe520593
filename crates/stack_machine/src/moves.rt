//! The moves of stacks from one place to another, and who is told them.

ghost use Rattle.std.specs.Prelude.{◌≡◌, ◌∷◌, [], List, Option, None, Some, IfSome, OnErr, OnOk};
ghost use Rattle.std.specs.Option.{is_some, option_to_list};
ghost use Rattle.run_replay.specs.declared.lock_move.LockMove.{LockMove};
ghost use Rattle.stack_machine.specs.Moves.{Adds, Arrives, LetsGo};

use papy_base::Made;
use run_replay::{LockMove, StackPlace};

/// What is told the moves of a turn, in order.
pub trait MoveSink {
    ghost noted: { Self → Option (List LockMove) };

    /// Whether moves are kept. Where they aren't, nobody need look for them.
    fn keeps(&self) -> bool
        ensures { result ≡ is_some (noted self.now) };

    /// Notes one more move.
    fn note(&mut self, moved: LockMove) -> Made<()>
        ensures added { OnOk result (Adds (moved ∷ []) (noted self.old) (noted self.new)) }
        ensures kept { OnErr result (noted self.new ≡ noted self.old) };
}

/// Keeps no moves.
#[derive(Drop)]
pub struct NoNotes;

impl MoveSink for NoNotes {
    ghost noted = { λ _. None };

    fn keeps(&self) -> bool {
        false
    }

    fn note(&mut self, _moved: LockMove) -> Made<()> {
        Ok(())
    }
}

impl MoveSink for Vec<LockMove> {
    ghost noted = { λ moves. Some moves.items };

    fn keeps(&self) -> bool {
        true
    }

    fn note(&mut self, moved: LockMove) -> Made<()> {
        self.push(moved)?;
        Ok(())
    }
}

/// Notes a move where there is one.
pub fn note_any<N: MoveSink>(moved: Option<LockMove>, notes: &mut N) -> Made<()>
    ensures added { OnOk result (Adds (option_to_list moved) (N.noted notes.old) (N.noted notes.new)) }
    ensures kept { OnErr result (N.noted notes.new ≡ N.noted notes.old) }
{
    match moved {
        Some(moved) => notes.note(moved),
        None => Ok(()),
    }
}

/// The two moves of a stack from one place to another, none where it stays.
pub fn moves_between(stack: u16, from: StackPlace, to: StackPlace) -> Option<(LockMove, LockMove)>
    ensures { IfSome result (λ moves. LetsGo stack moves.0 × Arrives stack moves.1) }
{
    if from == to {
        return None;
    }
    Some((departure(stack, from), arrival(stack, to)?))
}

// How a stack lets go of its place.
fn departure(stack: u16, from: StackPlace) -> LockMove
    ensures { LetsGo stack result }
{
    match from {
        StackPlace::Holds(instance) => LockMove::Release(stack, instance),
        _ => LockMove::Leave(stack),
    }
}

// How it finds another. No act gives a stack an instance, or leaves it between two places.
fn arrival(stack: u16, to: StackPlace) -> Option<LockMove>
    ensures { IfSome result (Arrives stack) }
{
    match to {
        StackPlace::Free => Some(LockMove::Free(stack)),
        StackPlace::Waits(instance) => Some(LockMove::Join(stack, instance)),
        StackPlace::Asleep(until) => Some(LockMove::Sleep(stack, until)),
        StackPlace::Done => Some(LockMove::Done(stack)),
        StackPlace::Holds(_) | StackPlace::Between => None,
    }
}
