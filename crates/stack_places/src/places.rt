//! The places of stacks, and what moves them.

ghost use Rattle.std.specs.Prelude.{◌≡◌, ◌↔◌, ◌<◌, ◌≤◌, ℕ, IfOk, IfSome, IsTrue, ◌&&◌, not, false, is_none, length, replicate};
ghost use Rattle.std.specs.Option.{ForSome};
ghost use Rattle.std.specs.List.{find, list_any};
ghost use Rattle.lock_queue.specs.LockTable.{start_after};
ghost use Rattle.script_meaning.specs.Locks.{ends, goes_to_wait, is_ready, let_go, sleeps, stack_of, takes, waited_for};
ghost use Rattle.script_meaning.specs.Report.{due_of};
ghost use Rattle.run_laws.specs.Exclusive.{first_is, how_many, is_number};
ghost use Rattle.script_meaning.specs.Turns.{all_done, round};
ghost use Rattle.script_meaning.specs.World.{World};
ghost use Rattle.stack_places.specs.Places.{IsAway, IsReady, Moves, NobodyStands, Runs, TakesDue, due_in, is_zero, placed, standings};

use latent_natives::Sleepers;
use lock_queue::Locks;
use papy_base::Made;
use std::alloc::Global;
use std::marker::Model;

/// Where stacks are. Contracts see the lists of owners, waiters, free stacks, stacks that are done and sleepers, as the worlds
/// of a run have them.
#[derive(Drop)]
pub struct Places {
    locks: Locks,
    // How many instances there are.
    instances: u16,
    sleepers: Sleepers,
    // Which stacks are done, and how many.
    done: Vec<bool>,
    done_count: u16,
}

impl Model for Places {
    ghost use Rattle.std.specs.Prelude.{◌≡◌, ◌<◌, length, vec_len};
    ghost use Rattle.stack_places.specs.Lists.{is_true, numbers_of};
    ghost use Rattle.stack_places.specs.Places.{PlaceTable, table_of};

    ghost Value = { PlaceTable };

    ghost view = { λ p. table_of p.locks p.sleepers p.done.items };

    ghost invariant = { λ p. (length p.sleepers ≡ length p.locks.seats) × (vec_len p.done ≡ length p.locks.seats) × (length p.locks.seats < 65536) × (p.done_count ≡ length (numbers_of is_true 0 p.done.items)) × (p.instances ≡ p.locks.instances) };
}

impl Places {
    /// Places for this many stacks on this many instances. No stack stands anywhere.
    ///
    /// # Errors
    ///
    /// `OutOfMemory` comes where there is no room. No other call takes memory.
    pub fn with_room(alloc: Global, instances: u16, stacks: u16) -> Made<Places>
        ensures { IfOk result (NobodyStands instances stacks) }
    {
        Ok(Places {
            locks: Locks::with_room(alloc, instances, stacks)?,
            instances,
            sleepers: Sleepers::with_room(alloc, stacks)?,
            done: none_done(alloc, stacks)?,
            done_count: 0,
        })
    }

    /// An instance where it is there.
    pub fn if_there(&self, instance: Option<u16>) -> Option<u16>
        ensures { IfSome result (λ i. i < self.now.instances) }
    {
        match instance {
            Some(instance) if instance < self.instances => Some(instance),
            _ => None,
        }
    }

    /// Whether there is room for a stack of this number.
    pub fn has_place(&self, stack: u16) -> bool
        ensures { IsTrue result ↔ (stack < self.now.room) }
    {
        usize::from(stack) < self.done.len()
    }

    /// Whether a stack stands nowhere.
    pub fn is_away(&self, stack: u16) -> bool
        requires { stack < self.now.room }
        ensures { result ≡ is_zero (standings self.now.lists stack) }
    {
        self.locks.seats_agree();
        let until = self.sleepers.until(stack);
        is_nowhere(
            self.locks.rests(stack),
            until,
            self.done[usize::from(stack)],
        )
    }

    /// The stack that follows a waiting one in order of joining, or the first of all.
    pub fn next_waiter(&self, after: Option<u16>) -> Option<u16>
        requires { ForSome after (λ stack. stack < self.now.room) }
    {
        if let Some(stack) = after {
            self.locks.waits_for(stack)?;
        }
        self.locks.next_waiter(after)
    }

    /// Lets a stack that stands nowhere wait for an instance, behind all others, or run free where none is given.
    pub fn go_to_wait(&mut self, stack: u16, instance: Option<u16>)
        requires within { stack < self.old.room }
        requires away { IsAway self.old.lists stack }
        requires there { IfSome instance (λ i. i < self.old.instances) }
        ensures { Moves (goes_to_wait stack instance) self.old self.new }
    {
        self.locks.seats_agree();
        match instance {
            Some(instance) => self.locks.join(stack, instance),
            None => self.locks.run_free(stack),
        }
    }

    /// Gives a stack that is ready the instance that it waits for, if it waits for one.
    pub fn take(&mut self, stack: u16)
        requires within { stack < self.old.room }
        requires ready { IsReady self.old.lists stack }
        ensures { Moves (takes stack) self.old self.new }
    {
        self.locks.seats_agree();
        if let Some(instance) = self.locks.waits_for(stack) {
            self.locks.take(stack, instance);
        }
    }

    /// Releases what a stack in its turn owns, or takes a free one out.
    pub fn let_go(&mut self, stack: u16)
        requires within { stack < self.old.room }
        requires runs { Runs self.old.lists stack }
        ensures { Moves (let_go stack) self.old self.new }
    {
        self.locks.seats_agree();
        match self.locks.held_by(stack) {
            Some(_) => self.locks.release(stack),
            None => self.locks.rest(stack),
        }
    }

    /// Lets a stack that stands nowhere sleep until a turn.
    pub fn sleep(&mut self, stack: u16, until: u32)
        requires within { stack < self.old.room }
        requires away { IsAway self.old.lists stack }
        ensures { Moves (sleeps stack until) self.old self.new }
    {
        self.locks.seats_agree();
        self.sleepers.rest(stack, until);
    }

    /// Takes away the sleeper of the least number that is due at a turn. It is `None` exactly where none is due.
    pub fn wake(&mut self, turn: u32) -> Option<u16>
        ensures taken { TakesDue turn result self.old self.new }
        ensures first { IfSome result (λ stack. (k : ℕ) → 1 ≤ how_many (first_is k) (due_in turn self.new.lists) → stack < k) }
    {
        self.sleepers.due(turn)
    }

    /// Notes that a stack that stands nowhere is done.
    pub fn end(&mut self, stack: u16)
        requires within { stack < self.old.room }
        requires away { IsAway self.old.lists stack }
        ensures { Moves (ends stack) self.old self.new }
    {
        self.locks.seats_agree();
        self.done[usize::from(stack)] = true;
        self.done_count += 1;
    }

    /// How many stacks are done.
    pub fn done_count(&self) -> u16
        ensures { result ≡ length self.now.lists.done }
    {
        self.done_count
    }

    /// Whether all of so many stacks that have started are done.
    pub fn are_all_done(&self, started: u16) -> bool
        requires once { (k : ℕ) → k < started → standings self.now.lists k ≤ 1 }
        requires none_else { (k : ℕ) → started ≤ k → IsAway self.now.lists k }
        ensures { (world : World) → world.started ≡ started → result ≡ all_done (placed self.now.lists world) }
    {
        self.done_count == started
    }

    /// Whether a stack is done.
    pub fn is_done(&self, stack: u16) -> bool
        requires { stack < self.now.room }
        ensures { result ≡ list_any (is_number stack) self.now.lists.done }
    {
        self.done[usize::from(stack)]
    }

    /// The stack that owns an instance.
    pub fn owner_of(&self, instance: u16) -> Option<u16>
        requires { instance < self.now.instances }
        ensures { result ≡ stack_of self.now.lists.owners instance }
    {
        self.locks.owner_of(instance)
    }

    /// The instance that a stack owns.
    pub fn held_by(&self, stack: u16) -> Option<u16>
        requires { stack < self.now.room }
        ensures { result ≡ waited_for stack self.now.lists.owners }
    {
        self.locks.seats_agree();
        self.locks.held_by(stack)
    }

    /// The instance that a stack waits for.
    pub fn waits_for(&self, stack: u16) -> Option<u16>
        requires { stack < self.now.room }
        ensures { result ≡ waited_for stack self.now.lists.waiters }
    {
        self.locks.seats_agree();
        self.locks.waits_for(stack)
    }

    /// The turn at which a stack is due, none where it doesn't sleep.
    pub fn until(&self, stack: u16) -> Option<u32>
        requires { stack < self.now.room }
        ensures { result ≡ due_of stack self.now.lists.asleep }
    {
        self.sleepers.until(stack)
    }

    /// Whether a stack may get a turn.
    pub fn is_ready(&self, stack: u16) -> bool
        requires { stack < self.now.room }
        ensures { (world : World) → result ≡ is_ready (placed self.now.lists world) stack }
    {
        self.locks.seats_agree();
        self.locks.ready_next(stack_before(stack)) == Some(stack)
    }

    /// The stack that gets the next turn of a round in which so many stacks have started.
    pub fn ready_after(&self, last: Option<u16>, started: u16) -> Option<u16>
        requires within { start_after last ≤ started }
        requires room { started ≤ self.now.room }
        requires away { (k : ℕ) → started ≤ k → IsAway self.now.lists k }
        ensures { (world : World) → world.last ≡ last → world.started ≡ started → result ≡ find (is_ready (placed self.now.lists world)) (round (placed self.now.lists world)) }
    {
        self.locks.seats_agree();
        self.locks.ready_next(last)
    }
}

fn is_nowhere(rests: bool, until: Option<u32>, is_done: bool) -> bool
    ensures { result ≡ rests && is_none until && not is_done }
{
    rests && until.is_none() && !is_done
}

fn none_done(alloc: Global, stacks: u16) -> Made<Vec<bool>>
    ensures { IfOk result (λ done. done.items ≡ replicate stacks false) }
{
    Ok(vec![in alloc; false; usize::from(stacks)]?)
}

// The stack whose number is one less.
fn stack_before(stack: u16) -> Option<u16>
    ensures start { start_after result ≡ stack }
    ensures below { ForSome result (λ before. before < stack) }
{
    stack.checked_sub(1)
}
