// What objects have from the objects above them.
ghost use Rattle.std.specs.Prelude.{◌≡◌, ◌↔◌, ℕ, ◌<◌, true, All, List, [], ◌∷◌, ◌++◌, reverse, vec_len, IsSome, MatchOption, IfOk, OnOk};
ghost use Rattle.std.specs.List.{last_or};
ghost use Rattle.pex_set.specs.declared.inherited.OwnMember.{OwnMember};
ghost use Rattle.pex_set.specs.Inherited.{found_in, is_up_to as comes_by, Ascends, Names, Reaches, AreLaminar, IsNearest};
ghost use Rattle.pex_set.specs.Sweep.{member_of as member_by, is_reached, earlier_end, AreSorted, AreInOrder, AreCovered, IsBehind, Fits, IsOrdered, IsSwept, AreMoved, IsLastBehind, IsOpened};

use papy_base::{Made, Span};
use std::alloc::Global;
use std::marker::Model;

/// The names by which a member is looked for, as numbers: that of its state, and its own.
pub type MemberNames = (usize, usize);

/// Where a member stands: the number of its object, the place of its state there, and its own place in the state.
#[derive(Clone, Copy, PartialEq, Eq, PartialOrd, Ord)]
pub struct MemberPlace {
    pub object: usize,
    pub state: usize,
    pub place: usize,
}

// A rank behind names. Positions ascend by the names first.
type Position = (MemberNames, usize);

// Whether a position comes no later than the other.
fn is_up_to(position: Position, other: Position) -> bool
    ensures { result ≡ comes_by position other }
{
    position <= other
}

/// A member, with the ranks of the objects that have it unless a nearer one hides it.
#[derive(Clone, Copy)]
struct OwnMember {
    names: MemberNames,
    span: Span,
    place: MemberPlace,
}

/// The members of objects, as they are collected.
#[derive(Drop)]
pub struct OwnMembers {
    members: Vec<OwnMember>,
}

impl Model for OwnMembers {
    ghost use Rattle.std.specs.Prelude.{List};
    ghost use Rattle.pex_set.specs.declared.inherited.OwnMember.{OwnMember};

    ghost Value = { List OwnMember };

    ghost view = { λ own. own.members.items };
}

impl OwnMembers {
    /// No members.
    pub fn new(alloc: Global) -> OwnMembers
        ensures { result ≡ [] }
    {
        OwnMembers {
            members: Vec::new(alloc),
        }
    }

    /// Adds a member of an object with these ranks. Objects come one after the other. Of two members of an object with the
    /// same names, the first counts.
    pub fn add(&mut self, names: MemberNames, place: MemberPlace, span: Span) -> Made<()>
        ensures { OnOk result
            (self.new ≡ self.old ++ record { names = names; span = span; place = place } ∷ []) }
    {
        self.members.push(OwnMember { names, span, place })?;
        Ok(())
    }

    /// What each object has from itself upward.
    pub fn inherited(self, alloc: Global) -> Made<Inherited>
        ensures nearest { IfOk result
            (λ inherited. AreLaminar self → (names : Names) (rank : ℕ) → IsNearest self names rank (found_in inherited names rank)) }
        ensures absent { IfOk result
            (λ inherited. AreLaminar self → (names : Names) (rank : ℕ) → (found_in inherited names rank ≡ None) ↔ All (λ member. ¬ Reaches member names rank) self) }
    {
        let mut members = self.members;
        members.sort_by_key(|member| (member.names, member.span.start))?;
        swept(alloc, members.as_slice())
    }
}

// From this position on, up to the next stretch, objects have this member of the names.
#[derive(Clone, Copy)]
struct Stretch {
    start: Position,
    member: Option<MemberPlace>,
}

/// What objects have from themselves and from the objects above them, the nearest first. A look-up takes about as many
/// steps as the number of members has digits.
#[derive(Drop)]
pub struct Inherited {
    stretches: Vec<Stretch>,
}

impl Model for Inherited {
    ghost use Rattle.std.specs.Prelude.{List};
    ghost use Rattle.pex_set.specs.declared.inherited.Stretch.{Stretch};
    ghost use Rattle.pex_set.specs.Inherited.{Ascends};

    ghost Value = { List Stretch };

    ghost view = { λ inherited. inherited.stretches.items };

    ghost invariant = { λ inherited. Ascends inherited.stretches.items };
}

impl Inherited {
    /// The nearest member of these names, from the object of this rank upward.
    pub fn find(&self, names: MemberNames, rank: usize) -> Option<MemberPlace>
        ensures { result ≡ found_in self.now names rank }
    {
        let position = (names, rank);
        let stretches = self.stretches.as_slice();
        let behind = stretches.partition_point(|stretch| is_up_to(stretch.start, position));
        member_of(last(&stretches[..behind]))
    }
}

// The last of the stretches.
fn last(stretches: &[Stretch]) -> Option<Stretch>
    ensures { result ≡ last_or None stretches.now }
{
    stretches.last().copied()
}

// What the stretch has.
fn member_of(stretch: Option<Stretch>) -> Option<MemberPlace>
    ensures { result ≡ member_by stretch }
{
    stretch?.member
}

// Goes over members in the order of their names and starts.
#[derive(Drop)]
struct Sweep {
    stretches: Vec<Stretch>,
    // What is found behind each member whose ranks go on. That of the innermost stands last.
    ends: Vec<Stretch>,
}

// What objects have of members in the order of their names and starts.
fn swept(alloc: Global, members: &[OwnMember]) -> Made<Inherited>
    requires { AreSorted members.now }
    ensures { IfOk result
        (λ inherited. AreInOrder members.now → AreCovered members.now inherited) }
{
    let mut sweep = Sweep {
        stretches: Vec::with_capacity(alloc, members.len().saturating_mul(2))?,
        ends: Vec::new(alloc),
    };
    for member in members {
        sweep.add(member)?;
    }
    sweep.inherited()
}

impl Sweep {
    // Adds a member, unless its object has an earlier one of these names, or no ranks.
    fn add(&mut self, member: &OwnMember) -> Made<()>
        ensures ordered { (done : List OwnMember)
            → IsOrdered done self.old.stretches.items self.old.ends.items
            → IsBehind done member.now
            → OnOk result (IsOrdered (done ++ member.now ∷ []) self.new.stretches.items self.new.ends.items) }
        ensures swept { (done : List OwnMember)
            → IsOrdered done self.old.stretches.items self.old.ends.items
            → IsSwept done self.old.stretches.items self.old.ends.items
            → Fits done member.now
            → OnOk result (IsSwept (done ++ member.now ∷ []) self.new.stretches.items self.new.ends.items) }
    {
        let start = (member.names, member.span.start);
        let end = (member.names, member.span.end);
        if self.has_come_to(start) || is_up_to(end, start) {
            return Ok(());
        }
        self.close(start)?;
        self.open(start, end, member.place)
    }

    // Whether the latest member starts there.
    fn has_come_to(&self, start: Position) -> bool
        ensures { result ≡ is_reached start (last_or None self.now.stretches.items) }
    {
        let latest = last(self.stretches.as_slice());
        latest.is_some_and(|latest| is_up_to(start, latest.start))
    }

    // Ends the members that end up to this position.
    fn close(&mut self, position: Position) -> Made<()>
        ensures moved { OnOk result
            (AreMoved position self.old.stretches.items self.old.ends.items self.new.stretches.items self.new.ends.items) }
        ensures rest { OnOk result (IsLastBehind position self.new.ends.items) }
    {
        while let Some(end) = self.next_end(position) {
            self.stretches.push(end)?;
        }
        Ok(())
    }

    // Takes out the end of the innermost member, where it comes up to this position.
    fn next_end(&mut self, position: Position) -> Option<Stretch>
        ensures stretches { self.new.stretches.items ≡ self.old.stretches.items }
        ensures fewer { IsSome result → vec_len self.new.ends < vec_len self.old.ends }
        ensures ends { MatchOption result
            ((self.new.ends.items ≡ self.old.ends.items) × IsLastBehind position self.new.ends.items)
            (λ end. (self.old.ends.items ≡ self.new.ends.items ++ end ∷ []) × (comes_by end.start position ≡ true)) }
    {
        let end = last(self.ends.as_slice())?;
        if !is_up_to(end.start, position) {
            return None;
        }
        self.ends.pop();
        Some(end)
    }

    // Begins a member inside those that go on, with which it ends at the latest.
    fn open(&mut self, start: Position, end: Position, place: MemberPlace) -> Made<()>
        ensures { OnOk result
            (IsOpened start end place self.old.stretches.items self.old.ends.items self.new.stretches.items self.new.ends.items) }
    {
        let outer = member_of(last(self.stretches.as_slice()));
        let end = self.end_within(end);
        self.ends.push(Stretch {
            start: end,
            member: outer,
        })?;
        self.stretches.push(Stretch {
            start,
            member: Some(place),
        })?;
        Ok(())
    }

    // The end, or that of the innermost member, where this comes earlier.
    fn end_within(&self, end: Position) -> Position
        ensures { result ≡ earlier_end end (last_or None self.now.ends.items) }
    {
        match last(self.ends.as_slice()) {
            Some(outer) if !is_up_to(end, outer.start) => outer.start,
            _ => end,
        }
    }

    // Ends all members.
    fn inherited(mut self) -> Made<Inherited>
        requires { Ascends (self.stretches.items ++ reverse self.ends.items) }
        ensures { IfOk result (λ inherited. inherited ≡ self.stretches.items ++ reverse self.ends.items) }
    {
        self.ends.reverse();
        self.stretches.append(&mut self.ends)?;
        Ok(Inherited {
            stretches: self.stretches,
        })
    }
}
