//! Which stack gets a turn.

ghost use Rattle.std.specs.Prelude.{◌≡◌, ◌≤◌, ℕ, Some};
ghost use Rattle.core_tree.specs.Scenes.{order_shape};
ghost use Rattle.lock_queue.specs.LockTable.{start_after};
ghost use Rattle.script_meaning.specs.Turns.{chosen, if_ready};
ghost use Rattle.script_meaning.specs.World.{World};
ghost use Rattle.stack_places.specs.Places.{IsAway, placed};

use crate::places::Places;
use core_tree::TurnOrder;

impl Places {
    /// The stack that gets the turn of this number, where so many stacks have started: in round order the first ready one after the
    /// last, cyclically, and in list order the one that is listed for the turn, where it is ready. None gets an idle turn.
    pub fn choose(
        &self,
        order: &TurnOrder,
        turn: u32,
        last: Option<u16>,
        started: u16,
    ) -> Option<u16>
        requires within { start_after last ≤ started }
        requires room { started ≤ self.now.room }
        requires away { (k : ℕ) → started ≤ k → IsAway self.now.lists k }
        ensures { (world : World) → world.turn ≡ turn → world.last ≡ last → world.started ≡ started → result ≡ chosen (order_shape order.now) (placed self.now.lists world) }
    {
        match order {
            TurnOrder::Round => self.ready_after(last, started),
            TurnOrder::List(stacks) => match stacks.get(turn as usize) {
                Some(stack) => self.if_ready(*stack, started),
                None => None,
            },
        }
    }

    // A stack where it is ready, which none is that hasn't started.
    fn if_ready(&self, stack: u16, started: u16) -> Option<u16>
        requires room { started ≤ self.now.room }
        requires away { (k : ℕ) → started ≤ k → IsAway self.now.lists k }
        ensures { (world : World) → result ≡ if_ready (placed self.now.lists world) (Some stack) }
    {
        if stack >= started {
            return None;
        }
        if self.is_ready(stack) {
            Some(stack)
        } else {
            None
        }
    }
}
