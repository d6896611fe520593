//! Where stacks are, as it is told.

ghost use Rattle.std.specs.Prelude.{◌≡◌, ◌↔◌, ◌<◌, IsTrue, length, vec_len};

use crate::status::Status;
use crate::world::World;
use run_replay::StackPlace;

impl World {
    /// Where a stack is that has started.
    pub fn place_of(&self, stack: u16) -> StackPlace {
        let places = &self.places;
        if !places.has_place(stack) {
            return StackPlace::Done;
        }
        if places.is_done(stack) {
            return StackPlace::Done;
        }
        if let Some(until) = places.until(stack) {
            return StackPlace::Asleep(until);
        }
        if let Some(instance) = places.held_by(stack) {
            return StackPlace::Holds(instance);
        }
        match places.waits_for(stack) {
            Some(instance) => StackPlace::Waits(instance),
            None => StackPlace::Free,
        }
    }

    /// What a stack that has started is doing.
    pub fn status_of(&self, stack: u16) -> Status {
        match self.place_of(stack) {
            StackPlace::Done => Status::Done,
            StackPlace::Asleep(until) => Status::Asleep(until),
            StackPlace::Waits(instance) if !self.is_ready(stack) => Status::Waits(instance),
            StackPlace::Free | StackPlace::Waits(_) | StackPlace::Holds(_) | StackPlace::Between =>
                Status::Ready,
        }
    }

    fn is_ready(&self, stack: u16) -> bool {
        if !self.places.has_place(stack) {
            return false;
        }
        self.places.is_ready(stack)
    }

    /// The stack that holds an instance.
    pub fn owner_of(&self, instance: u16) -> Option<u16> {
        let instance = self.places.if_there(Some(instance))?;
        self.places.owner_of(instance)
    }

    /// The instance that a stack waits for, and the stack.
    pub fn wait_of(&self, stack: u16) -> Option<(u16, u16)> {
        if !self.places.has_place(stack) {
            return None;
        }
        Some((self.places.waits_for(stack)?, stack))
    }

    /// The stack that follows a waiting one in order of joining, or the first of all.
    pub fn next_waiter(&self, after: Option<u16>) -> Option<u16> {
        match after {
            None => self.places.next_waiter(None),
            Some(stack) => {
                if !self.places.has_place(stack) {
                    return None;
                }
                self.places.next_waiter(Some(stack))
            }
        }
    }

    /// Whether every stack that has started is done.
    pub fn are_done(&self) -> bool
        requires { vec_len self.now.stacks < 65536 }
        ensures { IsTrue result ↔ (length self.now.places.lists.done ≡ vec_len self.now.stacks) }
    {
        self.places.done_count() == self.started()
    }

    /// How many stacks have started.
    pub fn started(&self) -> u16
        requires { vec_len self.now.stacks < 65536 }
        ensures { result ≡ vec_len self.now.stacks }
    {
        self.stacks.len() as u16
    }
}
