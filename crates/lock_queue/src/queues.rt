//! Lists of stacks by links from stack to stack, in vectors indexed by stack: one list in both directions, and the queue of each
//! instance in one.

ghost use Rattle.std.specs.Prelude.{◌≡◌, ◌<◌, ℕ, ◌++◌, ◌∷◌, [], IfOk, None, Some, length, replicate, slice_set, vec_len};
ghost use Rattle.std.specs.Option.{ForSome};
ghost use Rattle.lock_queue.specs.Links.{Lacks, Has, without, first_of, stack_after, relinked, end_after};
ghost use Rattle.lock_queue.specs.Queues.{queue_at, last_after};

use std::alloc::{AllocError, Global};
use std::marker::Model;

/// Makes the link of a stack lead to another, or the end where no stack is given.
fn relink(links: &mut Vec<Option<u16>>, end: &mut Option<u16>, from: Option<u16>, to: Option<u16>)
    requires { ForSome from (λ stack. stack < vec_len links.old) }
    ensures links { links.new.items ≡ relinked links.old.items from to }
    ensures end { end.new ≡ end_after end.old from to }
{
    match from {
        Some(stack) => links[usize::from(stack)] = to,
        None => *end = to,
    }
}

/// A list of different stacks. Each call takes constant time.
#[derive(Drop)]
pub struct StackList {
    after: Vec<Option<u16>>,
    before: Vec<Option<u16>>,
    first: Option<u16>,
    last: Option<u16>,
}

impl Model for StackList {
    ghost use Rattle.std.specs.Prelude.{length};
    ghost use Rattle.lock_queue.specs.Order.{Sequence, IsLinked};
    ghost use Rattle.lock_queue.specs.Links.{walk};

    ghost Value = { Sequence };

    ghost view = { λ o. record { room = length o.after.items; stacks = walk (length o.after.items) o.after.items o.first } };

    ghost invariant = { λ o. IsLinked o.after.items o.before.items o.first o.last
        (length o.after.items) (walk (length o.after.items) o.after.items o.first) };
}

impl StackList {
    /// No stack, and room for this many.
    pub fn with_room(alloc: Global, room: u16) -> Result<StackList, AllocError>
        ensures { IfOk result (λ o. o ≡ record { room = room; stacks = [] }) }
    {
        let links = usize::from(room);
        Ok(StackList {
            after: vec![in alloc; None; links]?,
            before: vec![in alloc; None; links]?,
            first: None,
            last: None,
        })
    }

    /// Puts a stack at the end.
    pub fn push(&mut self, stack: u16)
        requires within { stack < self.old.room }
        requires new { Lacks self.old.stacks stack }
        ensures { self.new ≡ record self.old { stacks = self.old.stacks ++ stack ∷ [] } }
    {
        let place = usize::from(stack);
        let last = self.last;
        self.before[place] = last;
        self.after[place] = None;
        relink(&mut self.after, &mut self.first, last, Some(stack));
        self.last = Some(stack);
    }

    /// Takes a stack out, wherever it stands.
    pub fn remove(&mut self, stack: u16)
        requires { Has self.old.stacks stack }
        ensures { self.new ≡ record self.old { stacks = without self.old.stacks stack } }
    {
        let place = usize::from(stack);
        let before = self.before[place];
        let after = self.after[place];
        relink(&mut self.after, &mut self.first, before, after);
        relink(&mut self.before, &mut self.last, after, before);
    }

    /// The first stack, if there is one.
    pub fn first(&self) -> Option<u16>
        ensures { result ≡ first_of self.now.stacks }
    {
        self.first
    }

    /// The stack that follows this one, if it isn't the last.
    pub fn next(&self, stack: u16) -> Option<u16>
        requires { Has self.now.stacks stack }
        ensures { result ≡ stack_after self.now.stacks stack }
    {
        self.after[usize::from(stack)]
    }
}

/// For each instance a queue of stacks, where no stack stands in two. Each call takes constant time.
#[derive(Drop)]
pub struct Queues {
    next: Vec<Option<u16>>,
    firsts: Vec<Option<u16>>,
    lasts: Vec<Option<u16>>,
}

impl Model for Queues {
    ghost use Rattle.std.specs.Prelude.{length};
    ghost use Rattle.lock_queue.specs.Queues.{Lines, AreQueues, lines_of};

    ghost Value = { Lines };

    ghost view = { λ q. record { room = length q.next.items; lists = lines_of q.next.items q.firsts.items } };

    ghost invariant = { λ q. AreQueues q.next.items q.firsts.items q.lasts.items
        (length q.next.items) (lines_of q.next.items q.firsts.items) };
}

impl Queues {
    /// An empty queue for each instance, and room for this many stacks.
    pub fn with_room(alloc: Global, instances: u16, room: u16) -> Result<Queues, AllocError>
        ensures { IfOk result (λ q. q ≡ record { room = room; lists = replicate instances [] }) }
    {
        let queues = usize::from(instances);
        Ok(Queues {
            next: vec![in alloc; None; usize::from(room)]?,
            firsts: vec![in alloc; None; queues]?,
            lasts: vec![in alloc; None; queues]?,
        })
    }

    /// Puts a stack at the end of an instance's queue.
    pub fn push(&mut self, instance: u16, stack: u16)
        requires instance_in { instance < length self.old.lists }
        requires stack_in { stack < self.old.room }
        requires new { (i : ℕ) → Lacks (queue_at self.old.lists i) stack }
        ensures { self.new ≡ record self.old {
          lists = slice_set self.old.lists instance
              (queue_at self.old.lists instance ++ stack ∷ []);
        } }
    {
        let queue = usize::from(instance);
        let last = self.lasts[queue];
        self.next[usize::from(stack)] = None;
        relink(&mut self.next, &mut self.firsts[queue], last, Some(stack));
        self.lasts[queue] = Some(stack);
    }

    /// Takes the first stack out of an instance's queue.
    pub fn pop(&mut self, instance: u16, stack: u16)
        requires { first_of (queue_at self.old.lists instance) ≡ Some stack }
        ensures { self.new ≡ record self.old {
          lists = slice_set self.old.lists instance
              (without (queue_at self.old.lists instance) stack);
        } }
    {
        let queue = usize::from(instance);
        let next = self.next[usize::from(stack)];
        self.firsts[queue] = next;
        self.lasts[queue] = last_with(self.lasts[queue], next);
    }

    /// The first stack of an instance's queue, if there is one.
    pub fn first(&self, instance: u16) -> Option<u16>
        requires { instance < length self.now.lists }
        ensures { result ≡ first_of (queue_at self.now.lists instance) }
    {
        self.firsts[usize::from(instance)]
    }
}

fn last_with(last: Option<u16>, next: Option<u16>) -> Option<u16>
    ensures { result ≡ last_after last next }
{
    next.and(last)
}
