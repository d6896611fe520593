//! Who holds each instance, and who waits.

ghost use Rattle.std.specs.Prelude.{◌≡◌, ◌<◌, ◌++◌, ◌∷◌, [], ◌&&◌, ℕ, Some, is_none, IfOk, IsSome, IsTrue, length, replicate, slice_set};
ghost use Rattle.std.specs.Option.{ForSome};
ghost use Rattle.lock_queue.specs.LockTable.{IsIdle, seat_of, held_by, waits_for, owner_of, pairs_of, pairs_if, may_take, rests, without_stack, waiter_after, ready_after, start_after};

use crate::queues::{Queues, StackList};
use crate::ready::ReadySet;
use crate::seat::Seat;
use papy_base::Made;
use std::alloc::Global;
use std::marker::Model;

/// The locks of instances. Contracts see the seat of each stack and one list of the stacks that
/// wait, each after its instance, in order of joining.
#[derive(Drop)]
pub struct Locks {
    seats: Vec<Seat>,
    owners: Vec<Option<u16>>,
    order: StackList,
    queues: Queues,
    ready: ReadySet,
}

impl Model for Locks {
    ghost use Rattle.std.specs.Prelude.{length};
    ghost use Rattle.lock_queue.specs.LockTable.{LockTable};
    ghost use Rattle.lock_queue.specs.Agreement.{Agree, waiters_of};

    ghost Value = { LockTable };

    ghost view = { λ l. record { seats = l.seats.items; waiters = waiters_of l.seats.items l.order.stacks; instances = length l.owners.items } };

    ghost invariant = { λ l. Agree l.seats.items l.owners.items l.order l.queues l.ready.words.items };
}

impl Locks {
    /// Locks of this many instances for this many stacks, all of which rest.
    ///
    /// # Errors
    ///
    /// `OutOfMemory` comes where there is no room. No other call takes memory.
    pub fn with_room(alloc: Global, instances: u16, stacks: u16) -> Made<Locks>
        ensures { IfOk result (λ l. l ≡ record { seats = replicate stacks Seat.Resting; waiters = []; instances = instances }) }
    {
        Ok(Locks {
            seats: vec![in alloc; Seat::Resting; usize::from(stacks)]?,
            owners: vec![in alloc; None; usize::from(instances)]?,
            order: StackList::with_room(alloc, stacks)?,
            queues: Queues::with_room(alloc, instances, stacks)?,
            ready: ReadySet::with_room(alloc, stacks)?,
        })
    }

    /// Lets a resting or free stack wait for an instance, behind all others.
    pub fn join(&mut self, stack: u16, instance: u16)
        requires stack_in { stack < length self.old.seats }
        requires instance_in { instance < self.old.instances }
        requires idle { IsIdle (seat_of self.old stack) }
        ensures { self.new ≡ record self.old { seats = slice_set self.old.seats stack (Seat.Waits instance); waiters = self.old.waiters ++ (instance, stack) ∷ [] } }
    {
        let owner = self.owners[usize::from(instance)];
        let starts_ready = is_open(owner, self.queues.first(instance));
        self.seats[usize::from(stack)] = Seat::Waits(instance);
        self.order.push(stack);
        self.queues.push(instance, stack);
        self.ready.set(stack, starts_ready);
    }

    /// Whether a stack that waits for an instance may take it: nobody holds the instance, and no
    /// earlier stack waits for it.
    pub fn may_take(&self, stack: u16, instance: u16) -> bool
        requires stack_in { stack < length self.now.seats }
        requires instance_in { instance < self.now.instances }
        requires waits { seat_of self.now stack ≡ Seat.Waits instance }
        ensures { result ≡ may_take self.now stack instance }
    {
        self.owners[usize::from(instance)].is_none() && self.queues.first(instance) == Some(stack)
    }

    /// Gives an instance to the stack that may take it.
    pub fn take(&mut self, stack: u16, instance: u16)
        requires stack_in { stack < length self.old.seats }
        requires instance_in { instance < self.old.instances }
        requires waits { seat_of self.old stack ≡ Seat.Waits instance }
        requires first { IsTrue (may_take self.old stack instance) }
        ensures { self.new ≡ record self.old { seats = slice_set self.old.seats stack (Seat.Holds instance); waiters = without_stack self.old.waiters stack } }
    {
        self.seats[usize::from(stack)] = Seat::Holds(instance);
        self.owners[usize::from(instance)] = Some(stack);
        self.order.remove(stack);
        self.queues.pop(instance, stack);
    }

    /// Takes its instance from a holder, which then rests.
    pub fn release(&mut self, stack: u16)
        requires stack_in { stack < length self.old.seats }
        requires holds { IsSome (held_by (seat_of self.old stack)) }
        ensures { self.new ≡ record self.old { seats = slice_set self.old.seats stack Seat.Resting } }
    {
        let Seat::Holds(instance) = self.seats[usize::from(stack)] else {
            unreachable!();
        };
        self.seats[usize::from(stack)] = Seat::Resting;
        self.owners[usize::from(instance)] = None;
        self.ready.set(stack, false);
        self.ready.insert(self.queues.first(instance));
    }

    /// Lets a resting stack run without a lock.
    pub fn run_free(&mut self, stack: u16)
        requires stack_in { stack < length self.old.seats }
        requires rests { seat_of self.old stack ≡ Seat.Resting }
        ensures { self.new ≡ record self.old { seats = slice_set self.old.seats stack Seat.Free } }
    {
        self.seats[usize::from(stack)] = Seat::Free;
        self.ready.set(stack, true);
    }

    /// Lets a free stack rest.
    pub fn rest(&mut self, stack: u16)
        requires stack_in { stack < length self.old.seats }
        requires free { seat_of self.old stack ≡ Seat.Free }
        ensures { self.new ≡ record self.old { seats = slice_set self.old.seats stack Seat.Resting } }
    {
        self.seats[usize::from(stack)] = Seat::Resting;
        self.ready.set(stack, false);
    }

    /// The stack that follows a waiting one in order of joining, whatever they wait for, or the
    /// first of all. It is `None` exactly at the end of the list.
    pub fn next_waiter(&self, after: Option<u16>) -> Option<u16>
        requires { ForSome after (λ s. IsSome (waits_for (seat_of self.now s))) }
        ensures { result ≡ waiter_after self.now.waiters after }
    {
        match after {
            None => self.order.first(),
            Some(stack) => self.order.next(stack),
        }
    }

    /// The stack that holds an instance.
    pub fn owner_of(&self, instance: u16) -> Option<u16>
        requires { instance < self.now.instances }
        ensures { result ≡ owner_of self.now instance }
    {
        self.owners[usize::from(instance)]
    }

    /// The instance that a stack holds.
    pub fn held_by(&self, stack: u16) -> Option<u16>
        requires { stack < length self.now.seats }
        ensures { result ≡ held_by (seat_of self.now stack) }
    {
        match self.seats[usize::from(stack)] {
            Seat::Holds(instance) => Some(instance),
            _ => None,
        }
    }

    /// Whether a stack rests.
    pub fn rests(&self, stack: u16) -> bool
        requires { stack < length self.now.seats }
        ensures { result ≡ rests (seat_of self.now stack) }
    {
        match self.seats[usize::from(stack)] {
            Seat::Resting => true,
            Seat::Free => false,
            Seat::Waits(_) => false,
            Seat::Holds(_) => false,
        }
    }

    /// The instance that a stack waits for. The stack then stands once among those that wait, and else it doesn't.
    pub fn waits_for(&self, stack: u16) -> Option<u16>
        requires { stack < length self.now.seats }
        ensures instance { result ≡ waits_for (seat_of self.now stack) }
        ensures pairs { pairs_of self.now stack ≡ pairs_if stack (waits_for (seat_of self.now stack)) }
    {
        match self.seats[usize::from(stack)] {
            Seat::Waits(instance) => Some(instance),
            _ => None,
        }
    }

    /// Each stack waits where its seat says so, and is the owner of what its seat holds. This is a law: it does nothing.
    pub fn seats_agree(&self)
        ensures waiters { (k : ℕ) → pairs_of self.now k ≡ pairs_if k (waits_for (seat_of self.now k)) }
        ensures owners { (k instance : ℕ) → seat_of self.now k ≡ Seat.Holds instance → owner_of self.now instance ≡ Some k }
        ensures held { (k instance : ℕ) → seat_of self.now k ≡ Seat.Holds instance → instance < self.now.instances }
        ensures awaited { (k instance : ℕ) → seat_of self.now k ≡ Seat.Waits instance → instance < self.now.instances }
        ensures few { length self.now.seats < 65536 }
    {
        let _ = &self.seats;
    }

    /// The first ready stack after this one, cyclically, or from 0. A stack is ready where it holds
    /// an instance, runs free, or may take the instance that it waits for. It is `None` exactly
    /// where no stack is ready.
    pub fn ready_next(&self, last: Option<u16>) -> Option<u16>
        requires { ForSome last (λ s. s < length self.now.seats) }
        ensures { result ≡ ready_after self.now last }
    {
        let stack = self.ready.next_from(start_from(last))?;
        Some(stack as u16)
    }
}

// Nobody holds an instance and nobody waits for it.
fn is_open(owner: Option<u16>, first: Option<u16>) -> bool
    ensures { result ≡ is_none owner && is_none first }
{
    owner.is_none() && first.is_none()
}

fn start_from(last: Option<u16>) -> usize
    ensures { result ≡ start_after last }
{
    last.map_or(0, |stack| usize::from(stack) + 1)
}
