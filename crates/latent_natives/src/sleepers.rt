//! The stacks that sleep, and the turns at which they are due, in a tree.

ghost use Rattle.std.specs.Prelude.{◌≡◌, ◌+◌, ◌<◌, ◌≤◌, ◌++◌, length, IfOk, None, Some, replicate, slice_index_or, slice_set, position};
ghost use Rattle.latent_natives.specs.Sleepers.{is_due, without_first_due};
ghost use Rattle.latent_natives.specs.SleepTree.{sleeps, NotBefore};

use papy_base::Made;
use std::alloc::Global;
use std::marker::Model;

/// The stacks that sleep. Contracts see, for each stack below the room, the turn at which it is due, or none where
/// it doesn't sleep. A stack that is due is found without a look at those that aren't.
#[cycle(sleep_tree)]
#[derive(Drop)]
pub struct Sleepers {
    // No sleep ends before this turn.
    earliest: u32,
    count: u16,
    node: Node,
}

#[cycle(sleep_tree)]
#[derive(Drop)]
enum Node {
    Empty,
    One(Option<u32>),
    // Neither side is empty.
    Two(Box<Sleepers>, Box<Sleepers>),
}

impl Model for Sleepers {
    ghost use Rattle.std.specs.Prelude.{◌≡◌, ◌<◌, ℕ, List, Option, length};

    ghost Value = { List (Option ℕ) };

    ghost use Rattle.latent_natives.specs.SleepTree.{sleeps, NotBefore, HasFullSides};

    ghost view = { λ t. sleeps t.node };

    ghost invariant = { λ t. (t.count ≡ length (sleeps t.node)) × NotBefore t.earliest (sleeps t.node) × HasFullSides t.node × (t.count < 65536) };

    ghost size = { length };

    ghost use Rattle.latent_natives.specs.SleepTreeFalls.{depth_le-length-sleeps};

    ghost size_decreases = { λ t h. depth_le-length-sleeps t.node h.2 };
}

impl Sleepers {
    /// Room for this many stacks, of which none sleeps.
    ///
    /// # Errors
    ///
    /// `OutOfMemory` comes where there is no room. No other call takes memory.
    pub fn with_room(alloc: Global, stacks: u16) -> Made<Sleepers>
        ensures { IfOk result (λ s. s ≡ replicate stacks None) }
    {
        match stacks {
            0 => Ok(Sleepers {
                earliest: u32::MAX,
                count: 0,
                node: Node::Empty,
            }),
            1 => Ok(Sleepers {
                earliest: u32::MAX,
                count: 1,
                node: Node::One(None),
            }),
            _ => {
                let left = Sleepers::with_room(alloc, stacks / 2)?;
                let right = Sleepers::with_room(alloc, stacks - stacks / 2)?;
                Sleepers::of_sides(alloc, left, right)
            }
        }
    }

    // The stacks of one tree, and behind them those of another.
    fn of_sides(alloc: Global, left: Sleepers, right: Sleepers) -> Made<Sleepers>
        requires filled { (1 ≤ length left) × (1 ≤ length right) }
        requires few { length left + length right < 65536 }
        ensures { IfOk result (λ t. t ≡ left ++ right) }
    {
        let count = left.count() + right.count();
        let earliest = left.earliest().min(right.earliest());
        let node = Node::Two(Box::new(alloc, left)?, Box::new(alloc, right)?);
        Ok(Sleepers {
            earliest,
            count,
            node,
        })
    }

    /// Lets a stack sleep until a turn.
    pub fn rest(&mut self, stack: u16, until: u32)
        requires within { stack < length self.old }
        requires awake { slice_index_or self.old stack None ≡ None }
        ensures { self.new ≡ slice_set self.old stack (Some until) }
    {
        self.set(stack, Some(until));
    }

    /// Takes out the least stack whose turn is not after this one. It is `None` exactly where
    /// there is none.
    pub fn due(&mut self, turn: u32) -> Option<u16>
        ensures least { result ≡ position (is_due turn) self.old }
        ensures taken { self.new ≡ without_first_due turn self.old }
    {
        let stack = self.first_due(turn)?;
        self.set(stack, None);
        Some(stack)
    }

    // How many stacks there are.
    fn count(&self) -> u16
        ensures { result ≡ length self.now }
    {
        self.count
    }

    // A turn before which no sleep ends.
    fn earliest(&self) -> u32
        ensures { NotBefore result self.now }
    {
        self.earliest
    }

    // Lets a stack sleep until a turn, or not at all.
    fn set(&mut self, stack: u16, until: Option<u32>)
        requires { stack < length self.old }
        ensures { self.new ≡ slice_set self.old stack until }
    {
        match &mut self.node {
            Node::Empty => {}
            Node::One(held) => *held = until,
            Node::Two(left, right) => {
                let middle = left.count();
                if stack < middle {
                    left.set(stack, until);
                } else {
                    right.set(stack - middle, until);
                }
            }
        }
        self.earliest = earliest_of(&self.node);
    }

    /// The turn at which a stack is due, or `None` where it doesn't sleep.
    pub fn until(&self, stack: u16) -> Option<u32>
        requires { stack < length self.now }
        ensures { result ≡ slice_index_or self.now stack None }
    {
        match &self.node {
            Node::Empty => None,
            Node::One(until) => *until,
            Node::Two(left, right) => {
                let middle = left.count();
                if stack < middle {
                    left.until(stack)
                } else {
                    right.until(stack - middle)
                }
            }
        }
    }

    // The least stack whose turn is not after this one.
    fn first_due(&self, turn: u32) -> Option<u16>
        ensures { result ≡ position (is_due turn) self.now }
    {
        if turn < self.earliest {
            return None;
        }
        match &self.node {
            Node::Empty => None,
            Node::One(until) => if is_due(*until, turn) { Some(0) } else { None },
            Node::Two(left, right) => {
                let on_left = left.first_due(turn);
                if on_left.is_some() {
                    return on_left;
                }
                match right.first_due(turn) {
                    Some(stack) => Some(left.count() + stack),
                    None => None,
                }
            }
        }
    }
}

// Whether a sleep ends at this turn or before.
fn is_due(until: Option<u32>, turn: u32) -> bool
    ensures { result ≡ is_due turn until }
{
    matches!(until, Some(due) if due <= turn)
}

// A turn before which no sleep of a node ends.
fn earliest_of(node: &Node) -> u32
    ensures { NotBefore result (sleeps node.now) }
{
    match node {
        Node::Empty | Node::One(None) => u32::MAX,
        Node::One(Some(until)) => *until,
        Node::Two(left, right) => left.earliest().min(right.earliest()),
    }
}
