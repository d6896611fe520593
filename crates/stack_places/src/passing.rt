//! What a stack in its turn does about its place.

ghost use Rattle.std.specs.Prelude.{◌≡◌, ◌<◌, ◌+◌, ◌^◌, ℕ, true, IfSome};
ghost use Rattle.run_laws.specs.Exclusive.{Exclusive};
ghost use Rattle.script_meaning.specs.Locks.{is_ready, moves, rests, same_instance, takes};
ghost use Rattle.script_meaning.specs.Stacks.{State};
ghost use Rattle.stack_places.specs.Places.{Moved, Moves, MovesIn, PlaceLists, Runs, finishes, places_in};

use crate::places::Places;

/// A stack that is ready owns what it took, or runs free, and stands there alone. This is a law: it does nothing.
pub fn ready_stack_runs<B>()
    ensures { (state : State B) (k : ℕ) (after : PlaceLists) → Exclusive state → is_ready state.world k ≡ true → Moved (takes k) (places_in state.world) after → Runs after k }
{}

impl Places {
    /// Lets a stack in its turn go over from a frame on one instance to a frame on another. Where they are the same, it keeps its lock.
    pub fn go_over(&mut self, stack: u16, from: Option<u16>, to: Option<u16>)
        requires within { stack < self.old.room }
        requires runs { Runs self.old.lists stack }
        requires there { IfSome to (λ i. i < self.old.instances) }
        ensures { Moves (moves stack from to) self.old self.new }
    {
        if is_same(from, to) {
            return;
        }
        self.let_go(stack);
        self.go_to_wait(stack, to);
    }

    /// Lets a stack rest for so many turns after the turn of this number, in which it performed a native; with 0 it waits at once
    /// for the instance of its frame, or runs free where the frame has none.
    pub fn rest(&mut self, stack: u16, turn: u32, latency: u32, instance: Option<u16>)
        requires within { stack < self.old.room }
        requires runs { Runs self.old.lists stack }
        requires there { IfSome instance (λ i. i < self.old.instances) }
        requires due { turn + 1 + latency < 2 ^ 32 }
        ensures { MovesIn turn (rests stack latency instance) self.old self.new }
    {
        self.let_go(stack);
        if latency == 0 {
            self.go_to_wait(stack, instance);
        } else {
            self.sleep(stack, turn + 1 + latency);
        }
    }

    /// Lets a stack in its turn, whose first call has returned, be done.
    pub fn finish(&mut self, stack: u16)
        requires within { stack < self.old.room }
        requires runs { Runs self.old.lists stack }
        ensures { Moves (finishes stack) self.old self.new }
    {
        self.let_go(stack);
        self.end(stack);
    }
}

// Whether two frames are on one instance.
fn is_same(from: Option<u16>, to: Option<u16>) -> bool
    ensures { result ≡ same_instance from to }
{
    match (from, to) {
        (Some(a), Some(b)) => a == b,
        _ => false,
    }
}
