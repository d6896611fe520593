//! What the lines of a journal leave, and which may follow them.

ghost use Rattle.std.specs.Prelude.{◌≡◌, ◌≤◌, OnOk, true, length, slice_set};
ghost use Rattle.std.specs.List.{prefix_len};
ghost use Rattle.run_replay.specs.Lines.{LineFits};
ghost use Rattle.run_replay.specs.Book.{Standing, start, place_of, is_due, is_between, is_free, holds, waits, is_first, is_other, since_of, without_stack, nobody_due, nobody_holds, is_ready, before_run, after_run, between_turns, in_turn, just_ran, may_let_go, begins, wakes, arrives, is_settled, stage_after, may_stand, move_may_stand, is_allowed, move_is_allowed, joined, settled_at, moved, after};

use crate::lock_move::LockMove;
use crate::reader::ParsedLine;
use crate::stack_place::StackPlace;
use crate::waits::{Waits, add_to};
use papy_base::{Made, Text};
use std::alloc::Global;
use std::marker::Model;

/// The most instances of a journal.
const INSTANCE_LIMIT: usize = 256;

/// Whether the stack sleeps and its turn has come, where this many turns have begun.
fn is_due(place: Option<StackPlace>, turns: u32) -> bool
    ensures { result ≡ is_due turns place }
{
    matches!(place, Some(StackPlace::Asleep(until)) if until < turns)
}

fn is_between(place: Option<StackPlace>) -> bool
    ensures { result ≡ is_between place }
{
    matches!(place, Some(StackPlace::Between))
}

fn is_free(place: Option<StackPlace>) -> bool
    ensures { result ≡ is_free place }
{
    matches!(place, Some(StackPlace::Free))
}

fn holds(place: Option<StackPlace>, instance: u16) -> bool
    ensures { result ≡ holds instance place }
{
    matches!(place, Some(StackPlace::Holds(held)) if held == instance)
}

fn waits(place: Option<StackPlace>, instance: u16) -> bool
    ensures { result ≡ waits instance place }
{
    matches!(place, Some(StackPlace::Waits(awaited)) if awaited == instance)
}

/// A stack that waits for an instance.
#[derive(Clone, Copy)]
pub(crate) struct Waiter {
    stack: u16,
    instance: u16,
    /// The turn in which it joined.
    since: u32,
}

/// Whether this stack is the first of those that wait for the instance.
fn is_first(instance: u16, stack: u16, waiters: &[Waiter]) -> bool
    ensures { result ≡ is_first instance stack waiters.now }
{
    for waiter in waiters {
        if waiter.instance == instance {
            return waiter.stack == stack;
        }
    }
    false
}

/// The turn in which a stack joined that waits.
fn since_of(stack: u16, waiters: &[Waiter]) -> u32
    ensures { result ≡ since_of stack waiters.now }
{
    for waiter in waiters {
        if waiter.stack == stack {
            return waiter.since;
        }
    }
    0
}

// The place of a stack among the waiters, or their number where it is none of them.
fn place_among(stack: u16, waiters: &[Waiter]) -> usize
    ensures place { result ≡ prefix_len (is_other stack) waiters.now }
    ensures within { result ≤ length waiters.now }
{
    for (at, waiter) in waiters.iter().enumerate() {
        if waiter.stack == stack {
            return at;
        }
    }
    waiters.len()
}

/// Takes a stack out of the waiters.
fn remove_stack(stack: u16, waiters: &mut Vec<Waiter>)
    ensures { waiters.new.items ≡ without_stack stack waiters.old.items }
{
    let at = place_among(stack, waiters.as_slice());
    if at < waiters.len() {
        waiters.remove(at);
    }
}

/// How far a journal is.
#[derive(Clone, Copy)]
pub(crate) enum Stage {
    /// No line was read.
    Start,
    /// The heading stands, and no turn.
    Instances,
    /// A turn has begun, and no stack was woken in it.
    Begun,
    /// A turn has begun, and this stack was the last to be woken.
    Woken(u16),
    /// The turn is this stack's, as the line before says.
    Ran(u16),
    /// The turn's stack took the instance that it waited for.
    Acting(u16),
    /// The turn's stack let go of its place.
    Left(u16),
    /// The turn is no stack's.
    Idle,
    /// The journal has ended.
    Ended,
}

// A turn may begin, or the journal end.
fn between_turns(stage: Stage) -> bool
    ensures { result ≡ between_turns stage }
{
    !before_run(stage) && !matches!(stage, Stage::Start | Stage::Ended)
}

// A turn has begun, and it isn't said yet whose it is.
fn before_run(stage: Stage) -> bool
    ensures { result ≡ before_run stage }
{
    matches!(stage, Stage::Begun | Stage::Woken(_))
}

fn after_run(stage: Stage) -> bool
    ensures { result ≡ after_run stage }
{
    matches!(stage, Stage::Ran(_) | Stage::Acting(_) | Stage::Left(_))
}

fn in_turn(stage: Stage) -> bool
    ensures { result ≡ in_turn stage }
{
    before_run(stage) || after_run(stage)
}

// The turn is this stack's, as the line before says.
fn just_ran(stage: Stage, stack: u16) -> bool
    ensures { result ≡ just_ran stage stack }
{
    matches!(stage, Stage::Ran(runner) if runner == stack)
}

// The turn is this stack's, and it hasn't let go of its place.
fn may_let_go(stage: Stage, stack: u16) -> bool
    ensures { result ≡ may_let_go stage stack }
{
    matches!(stage, Stage::Ran(runner) | Stage::Acting(runner) if runner == stack)
}

// The stage after a stack was woken, or found a place again.
fn stage_after(stage: Stage, stack: u16) -> Stage
    ensures { result ≡ stage_after stage stack }
{
    match stage {
        Stage::Ran(_) | Stage::Acting(_) | Stage::Left(_) => Stage::Left(stack),
        _ => Stage::Woken(stack),
    }
}

// Nobody sleeps whose turn has begun.
fn nobody_due(turns: u32, places: &[StackPlace]) -> bool
    ensures { result ≡ nobody_due turns places.now }
{
    places.iter().all(|place| !is_due(Some(*place), turns))
}

fn nobody_holds(instance: u16, places: &[StackPlace]) -> bool
    ensures { result ≡ nobody_holds instance places.now }
{
    places.iter().all(|place| !holds(Some(*place), instance))
}

fn put(stack: u16, place: StackPlace, places: &mut Vec<StackPlace>)
    ensures { places.new.items ≡ slice_set places.old.items stack place }
{
    let at = usize::from(stack);
    if at < places.len() {
        places[at] = place;
    }
}

/// What the lines so far leave.
#[derive(Drop)]
pub(crate) struct Book {
    stage: Stage,
    instances: Vec<(Text, u64)>,
    turns: u32,
    turn: u32,
    places: Vec<StackPlace>,
    waiters: Vec<Waiter>,
}

impl Model for Book {
    ghost use Rattle.run_replay.specs.Book.{Standing};
    ghost use Rattle.std.specs.Prelude.{map};

    ghost Value = { Standing };

    ghost view = { λ b. record { stage = b.stage; names = map (λ p. p.0) b.instances.items; turns = b.turns; turn = b.turn; waited = map (λ p. p.1) b.instances.items; places = b.places.items; waiters = b.waiters.items } };
}

impl Book {
    ghost use Rattle.run_replay.specs.Reading.{seen};
    ghost use Rattle.std.specs.Prelude.{◌↔◌, IsTrue};
    ghost use Rattle.std.specs.Prelude.{◌<◌, ◌^◌, ℕ, length, map, slice_index};
    ghost use Rattle.run_replay.specs.declared.lock_move.LockMove.TheVariants as moves;
    ghost use Rattle.run_replay.specs.Book.{counted};
    ghost use Rattle.run_replay.specs.declared.book.Stage.TheVariants as stages;

    /// No line was read.
    pub(crate) fn new(alloc: Global) -> Book
        ensures { result ≡ start }
    {
        Book {
            stage: Stage::Start,
            instances: Vec::new(alloc),
            turns: 0,
            turn: 0,
            places: Vec::new(alloc),
            waiters: Vec::new(alloc),
        }
    }

    fn place_of(&self, stack: u16) -> Option<StackPlace>
        ensures { result ≡ place_of self.now stack }
    {
        self.places.get(usize::from(stack)).copied()
    }

    fn is_ready(&self, stack: u16) -> bool
        ensures { result ≡ is_ready self.now stack }
    {
        match self.place_of(stack) {
            Some(StackPlace::Free | StackPlace::Holds(_)) => true,
            Some(StackPlace::Waits(instance)) => {
                nobody_holds(instance, self.places.as_slice())
                    && is_first(instance, stack, self.waiters.as_slice())
            }
            _ => false,
        }
    }

    fn move_may_stand(&self, moved: LockMove) -> bool
        ensures { result ≡ move_may_stand self.now moved }
    {
        match moved {
            LockMove::Join(_, instance)
            | LockMove::Take(_, instance)
            | LockMove::Release(_, instance) => {
                in_turn(self.stage) && usize::from(instance) < self.instances.len()
            }
            LockMove::Run(_) | LockMove::Idle => before_run(self.stage),
            _ => in_turn(self.stage),
        }
    }

    /// Whether the form of the line may stand here.
    pub(crate) fn may_stand(&self, line: ParsedLine) -> bool
        ensures { result ≡ may_stand self.now (seen line.entry) }
    {
        match line {
            ParsedLine::Heading => matches!(self.stage, Stage::Start),
            ParsedLine::Instance(_) => {
                matches!(self.stage, Stage::Instances if self.instances.len() < INSTANCE_LIMIT)
            }
            ParsedLine::Turn(turn) => between_turns(self.stage) && turn == self.turns,
            ParsedLine::End(turns) => between_turns(self.stage) && turns == self.turns,
            ParsedLine::Move(moved) => self.move_may_stand(moved),
        }
    }

    // This turn's stack took its instance where it waited, and has a place again where it let go of its own.
    fn is_settled(&self) -> bool
        ensures { result ≡ is_settled self.now self.now.stage }
    {
        match self.stage {
            Stage::Ran(stack) => !matches!(self.place_of(stack), Some(StackPlace::Waits(_))),
            Stage::Left(stack) => !is_between(self.place_of(stack)),
            _ => true,
        }
    }

    // A sleeper whose turn has begun, with a higher number than those woken before it in this turn.
    fn wakes(&self, stack: u16) -> bool
        ensures { result ≡ wakes self.now self.now.stage stack }
    {
        match self.stage {
            Stage::Begun => is_due(self.place_of(stack), self.turns),
            Stage::Woken(last) => last < stack && is_due(self.place_of(stack), self.turns),
            _ => false,
        }
    }

    // The stack begins, before any is woken in this turn.
    fn begins(&self, stack: u16) -> bool
        ensures { result ≡ begins self.now self.now.stage stack }
    {
        matches!(self.stage, Stage::Begun if usize::from(stack) == self.places.len())
    }

    // It let go of its place in this turn, and has no other yet.
    fn arrives(&self, stack: u16) -> bool
        ensures { result ≡ arrives self.now stack }
    {
        after_run(self.stage) && is_between(self.place_of(stack))
    }

    fn move_is_allowed(&self, moved: LockMove) -> bool
        ensures { result ≡ move_is_allowed self.now moved }
    {
        match moved {
            LockMove::Join(stack, _) => {
                self.begins(stack) || (self.wakes(stack) || self.arrives(stack))
            }
            LockMove::Take(stack, instance) => {
                just_ran(self.stage, stack) && waits(self.place_of(stack), instance)
            }
            LockMove::Release(stack, instance) => {
                may_let_go(self.stage, stack) && holds(self.place_of(stack), instance)
            }
            LockMove::Free(stack) => self.wakes(stack) || self.arrives(stack),
            LockMove::Leave(stack) => may_let_go(self.stage, stack)
                && is_free(self.place_of(stack)),
            LockMove::Sleep(stack, until) => self.arrives(stack) && !(until < self.turns),
            LockMove::Done(stack) => self.arrives(stack),
            LockMove::Run(stack) => {
                nobody_due(self.turns, self.places.as_slice()) && self.is_ready(stack)
            }
            LockMove::Idle => nobody_due(self.turns, self.places.as_slice()),
        }
    }

    /// Whether a line that may stand here is allowed.
    pub(crate) fn is_allowed(&self, line: ParsedLine) -> bool
        ensures { result ≡ is_allowed self.now (seen line.entry) }
    {
        match line {
            ParsedLine::Heading | ParsedLine::Instance(_) => true,
            ParsedLine::Turn(_) | ParsedLine::End(_) => self.is_settled(),
            ParsedLine::Move(moved) => self.move_is_allowed(moved),
        }
    }

    // A stack moves to a place.
    fn settle(&mut self, stack: u16, place: StackPlace)
        ensures { self.new ≡ settled_at self.old stack place }
    {
        self.stage = stage_after(self.stage, stack);
        put(stack, place, &mut self.places);
    }

    fn join(&mut self, stack: u16, instance: u16) -> Made<()>
        ensures { OnOk result (self.new ≡ joined self.old stack instance) }
    {
        let place = StackPlace::Waits(instance);
        if usize::from(stack) == self.places.len() {
            self.stage = Stage::Begun;
            self.places.push(place)?;
        } else {
            self.settle(stack, place);
        }
        self.waiters.push(Waiter {
            stack,
            instance,
            since: self.turn,
        })?;
        Ok(())
    }

    fn take(&mut self, stack: u16, instance: u16)
        requires room { (i : ℕ) → slice_index self.old.waited i < 2 ^ 63 }
        ensures { self.new ≡ moved self.old (moves.Take stack instance) }
    {
        let since = since_of(stack, self.waiters.as_slice());
        let waited = self.turn.saturating_sub(since);
        add_to(instance, waited, &mut self.instances);
        self.stage = Stage::Acting(stack);
        put(stack, StackPlace::Holds(instance), &mut self.places);
        remove_stack(stack, &mut self.waiters);
    }

    // What a move that is allowed leaves.
    fn apply_move(&mut self, step: LockMove) -> Made<()>
        requires room { (i : ℕ) → slice_index self.old.waited i < 2 ^ 63 }
        ensures { OnOk result (self.new ≡ moved self.old step) }
    {
        match step {
            LockMove::Join(stack, instance) => self.join(stack, instance)?,
            LockMove::Take(stack, instance) => self.take(stack, instance),
            LockMove::Release(stack, _) | LockMove::Leave(stack) => {
                self.stage = Stage::Left(stack);
                put(stack, StackPlace::Between, &mut self.places);
            }
            LockMove::Free(stack) => self.settle(stack, StackPlace::Free),
            LockMove::Sleep(stack, until) => self.settle(stack, StackPlace::Asleep(until)),
            LockMove::Done(stack) => self.settle(stack, StackPlace::Done),
            LockMove::Run(stack) => self.stage = Stage::Ran(stack),
            LockMove::Idle => self.stage = Stage::Idle,
        }
        Ok(())
    }

    /// Goes past a line that is allowed.
    pub(crate) fn apply(&mut self, alloc: Global, line: ParsedLine) -> Made<()>
        requires fits { LineFits (seen line) }
        requires stands { may_stand self.old (seen line) ≡ true }
        requires room { (i : ℕ) → slice_index self.old.waited i < 2 ^ 63 }
        ensures { OnOk result (self.new ≡ after self.old (seen line.entry)) }
    {
        match line {
            ParsedLine::Heading => self.stage = Stage::Instances,
            ParsedLine::Instance(name) => {
                self.instances
                    .push((Text::try_from_bytes(alloc, name)?, 0))?;
            }
            ParsedLine::Turn(turn) => {
                self.stage = Stage::Begun;
                self.turns += 1;
                self.turn = turn;
            }
            ParsedLine::End(_) => self.stage = Stage::Ended,
            ParsedLine::Move(moved) => self.apply_move(moved)?,
        }
        Ok(())
    }

    /// Whether the journal has ended.
    pub(crate) fn has_ended(&self) -> bool
        ensures { IsTrue result ↔ self.now.stage ≡ stages.Ended }
    {
        matches!(self.stage, Stage::Ended)
    }

    /// What is counted of the journal, with those that wait to its end.
    pub(crate) fn into_waits(self) -> Waits
        requires room { (i : ℕ) → slice_index self.waited i < 2 ^ 62 }
        requires few { length self.waiters < 2 ^ 29 }
        ensures turns { result.turns ≡ self.turns }
        ensures instances { map (λ p. p.0) result.instances.items ≡ self.names }
        ensures counts { map (λ p. p.1) result.instances.items ≡ counted self.waiters self.turns self.waited }
    {
        let turns = self.turns;
        let mut instances = self.instances;
        for waiter in &self.waiters {
            let waited = turns.saturating_sub(waiter.since);
            add_to(waiter.instance, waited, &mut instances);
        }
        Waits { turns, instances }
    }
}
