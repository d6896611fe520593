//! Sleepers that are due.

ghost use Rattle.std.specs.Prelude.{◌≡◌, List};
ghost use Rattle.code_meaning.specs.LookUp.{Body};
ghost use Rattle.script_meaning.specs.Stacks.{Stack, inner_instance, stack_at};
ghost use Rattle.stack_places.specs.Waking.{AreThere, SleepAlone, Wakes};

use crate::places::Places;

/// The stacks of a run, of which places know no frame.
pub trait Stacks {
    ghost stacks: { Self → List (Stack Body) };

    /// The instance of a stack's innermost frame.
    fn instance_of(&self, stack: u16) -> Option<u16>
        ensures { result ≡ inner_instance (stack_at (stacks self.now) stack) };
}

/// Lets the sleepers that are due at a turn wait for the instances of their innermost frames, or run free, in order of stack number.
pub fn wake_all<T: Stacks>(places: &mut Places, stacks: &T, turn: u32)
    requires alone { SleepAlone turn places.old.lists }
    requires there { AreThere turn places.old.instances (T.stacks stacks.now) places.old.lists }
    ensures woke { Wakes turn (T.stacks stacks.now) places.old.lists places.new.lists }
    ensures instances { places.new.instances ≡ places.old.instances }
    ensures room { places.new.room ≡ places.old.room }
{
    while let Some(stack) = places.wake(turn) {
        places.go_to_wait(stack, stacks.instance_of(stack));
    }
}
