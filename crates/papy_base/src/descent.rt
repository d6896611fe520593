// Which objects stand above themselves, and which stand below which.
ghost use Rattle.std.specs.Prelude.{◌≡◌, ◌⊎◌, ◌+◌, ◌<◌, ◌++◌, ℕ, true, length, vec_len, IfOk, OnOk, slice_get, option_to_list};
ghost use Rattle.std.specs.Option.{option_and_then};
ghost use Rattle.papy_base.specs.Circles.{is_marked, CanStart, Walked, IsOnCircle, IsMarked, AreSearched, MarksCircles, NoneMarked};
ghost use Rattle.papy_base.specs.Lineage.{AreAmong, AreRooted};
ghost use Rattle.papy_base.specs.Orders.{parent_number as number_of_parent, IsForest, AreLinked, IsOrder, AreReached, reaching};
ghost use Rattle.papy_base.specs.Ranks.{has as is_between, span_at, is_below as is_by_ranks, IsDescentOf};

use crate::faults::Made;
use std::alloc::Global;
use std::marker::Model;

/// Of each object, whether it stands above itself: on a circle of parents, each of which is one of the objects. An object that
/// only leads to a circle of parents doesn't.
pub fn on_circles(alloc: Global, parents: &[Option<usize>]) -> Made<Vec<bool>>
    ensures length { IfOk result (λ found. vec_len found ≡ length parents.now) }
    ensures exact { IfOk result (λ found. AreAmong parents.now → MarksCircles parents.now found.items) }
    ensures rooted { IfOk result (λ found. AreAmong parents.now → NoneMarked found.items → AreRooted parents.now) }
{
    let mut is_above_itself = vec![in alloc; false; parents.len()]?;
    let mut walks = vec![in alloc; None; parents.len()]?;
    for start in 0..parents.len() {
        search_from(parents, &mut walks, &mut is_above_itself, start);
    }
    Ok(is_above_itself)
}

// Marks the circle to which the object leads, where no earlier walk came to it.
fn search_from(
    parents: &[Option<usize>],
    walks: &mut [Option<usize>],
    is_above_itself: &mut [bool],
    start: usize,
)
    ensures { AreAmong parents.now → start < length parents.now → AreSearched parents.now walks.old is_above_itself.old start
        → AreSearched parents.now walks.new is_above_itself.new (start + 1) }
{
    if let Some(end) = walk(parents, walks, start) {
        mark_circle(parents, is_above_itself, end);
    }
}

// Goes upward from an object to the first one that some walk has been at, and notes this walk at each on
// the way. Gives that last object where this walk itself has been at it: then it stands on a circle.
fn walk(parents: &[Option<usize>], walks: &mut [Option<usize>], start: usize) -> Option<usize>
    ensures { CanStart parents.now walks.old start → Walked parents.now walks.old start result walks.new }
{
    let mut here = start;
    for _ in 0..parents.len() {
        if here >= walks.len() {
            return None;
        }
        if let Some(walk) = walks[here] {
            return if walk == start { Some(here) } else { None };
        }
        walks[here] = Some(start);
        here = item_at(parents, here)?;
    }
    // It has been at each of the objects.
    Some(here)
}

// Marks the objects of the circle that this one stands on.
fn mark_circle(parents: &[Option<usize>], is_above_itself: &mut [bool], start: usize)
    ensures { length is_above_itself.old ≡ length parents.now → IsOnCircle parents.now start
        → IsMarked parents.now is_above_itself.old start is_above_itself.new }
{
    let mut here = start;
    for _ in 0..parents.len() {
        mark(is_above_itself, here);
        let Some(parent) = item_at(parents, here) else {
            return;
        };
        if parent == start {
            return;
        }
        here = parent;
    }
}

fn mark(is_above_itself: &mut [bool], object: usize)
    ensures marked { object < length is_above_itself.old → is_marked is_above_itself.new object ≡ true }
    ensures stay { (other : ℕ) → is_marked is_above_itself.old other ≡ true → is_marked is_above_itself.new other ≡ true }
    ensures only { (other : ℕ) → is_marked is_above_itself.new other ≡ true
        → (is_marked is_above_itself.old other ≡ true) ⊎ (other ≡ object) }
{
    if object < is_above_itself.len() {
        is_above_itself[object] = true;
    }
}

/// The ranks of an object and of all below it: from `start` on, and below `end`.
#[derive(Clone, Copy, PartialEq, Eq, PartialOrd, Ord)]
pub struct Span {
    pub start: usize,
    pub end: usize,
}

impl Span {
    /// Whether the rank is one of them.
    pub fn has(self, rank: usize) -> bool
        ensures { result ≡ is_between self rank }
    {
        self.start <= rank && rank < self.end
    }
}

/// No ranks.
const NO_RANKS: Span = Span { start: 0, end: 0 };

/// Ranks of objects by which each is followed at once by all that stand below it.
#[derive(Drop)]
pub struct Descent {
    spans: Vec<Span>,
}

impl Model for Descent {
    ghost use Rattle.std.specs.Prelude.{List};
    ghost use Rattle.papy_base.specs.declared.descent.Span.{Span};

    ghost Value = { List Span };

    ghost view = { λ descent. descent.spans.items };
}

impl Descent {
    /// The ranks of objects with these parents. A parent that is none of the objects counts as none. Objects on a
    /// circle of parents, and those below one, get no ranks.
    pub fn of(alloc: Global, parents: &[Option<usize>]) -> Made<Descent>
        ensures count { IfOk result (λ descent. length descent ≡ length parents.now) }
        ensures exact { IfOk result (λ descent. AreAmong parents.now → AreRooted parents.now → IsDescentOf parents.now descent) }
    {
        let order = order_of(alloc, parents)?;
        let mut spans = vec![in alloc; NO_RANKS; parents.len()]?;
        number(parents, &order, &mut spans);
        reach(parents, &order, &mut spans);
        Ok(Descent { spans })
    }

    /// The ranks of the object and of all below it. None where there is no such object.
    pub fn span(&self, object: usize) -> Span
        ensures { result ≡ span_at self.now object }
    {
        span_of(&self.spans, object)
    }

    /// Whether one object is the other or stands below it.
    pub fn is_below(&self, object: usize, above: usize) -> bool
        ensures { result ≡ is_by_ranks self.now object above }
    {
        object == above || self.span(above).has(self.span(object).start)
    }
}

fn span_of(spans: &[Span], object: usize) -> Span
    ensures { result ≡ span_at spans.now object }
{
    spans.get(object).copied().unwrap_or(NO_RANKS)
}

// The objects, each followed at once by all below it. Those on a circle of parents or below one are left out.
fn order_of(alloc: Global, parents: &[Option<usize>]) -> Made<Vec<usize>>
    ensures { IfOk result (λ order. IsForest parents.now → IsOrder parents.now order.items) }
{
    let links = Links::of(alloc, parents)?;
    let mut order = Vec::with_capacity(alloc, parents.len())?;
    // The objects to go on with, the next one last.
    let mut open = Vec::new(alloc);
    push_some(&mut open, item_at(&links.last, parents.len()))?;
    for _ in 0..parents.len() {
        let Some(object) = open.pop() else {
            break;
        };
        order.push(object)?;
        push_some(&mut open, item_at(&links.before, object))?;
        push_some(&mut open, item_at(&links.last, object))?;
    }
    Ok(order)
}

fn push_some(list: &mut Vec<usize>, object: Option<usize>) -> Made<()>
    ensures { OnOk result (list.new.items ≡ list.old.items ++ option_to_list object) }
{
    if let Some(object) = object {
        list.push(object)?;
    }
    Ok(())
}

// Gives each object its place in the order as its rank.
fn number(parents: &[Option<usize>], order: &[usize], spans: &mut [Span])
    requires { length spans.old ≡ length parents.now }
    ensures { IsOrder parents.now order.now → AreReached parents.now order.now spans.new (length order.now) }
{
    for (rank, object) in order.iter().enumerate() {
        if *object < spans.len() {
            spans[*object] = Span {
                start: rank,
                end: rank + 1,
            };
        }
    }
}

// Lets the span of each object reach as far as those of the objects below it.
fn reach(parents: &[Option<usize>], order: &[usize], spans: &mut [Span])
    ensures { IsForest parents.now → IsOrder parents.now order.now → AreReached parents.now order.now spans.old (length order.now) → AreReached parents.now order.now spans.new 0 }
{
    for reached in 0..order.len() {
        let object = order[order.len() - 1 - reached];
        reach_parent(spans, object, parent_number(parents, object));
    }
}

fn reach_parent(spans: &mut [Span], object: usize, parent: usize)
    ensures { spans.new ≡ reaching spans.old object parent }
{
    let end = span_of(spans, object).end;
    if parent < spans.len() {
        spans[parent].end = spans[parent].end.max(end);
    }
}

// The objects of each parent, linked as a list from the last to the first.
#[derive(Drop)]
struct Links {
    // The last object of each parent, and at the end the last one without parent.
    last: Vec<Option<usize>>,
    // The object before each that has the same parent.
    before: Vec<Option<usize>>,
}

impl Links {
    fn of(alloc: Global, parents: &[Option<usize>]) -> Made<Links>
        ensures { IfOk result (λ links. AreLinked parents.now (length parents.now) links.last.items links.before.items) }
    {
        let mut last = vec![in alloc; None; parents.len() + 1]?;
        let mut before = vec![in alloc; None; parents.len()]?;
        for object in 0..parents.len() {
            let parent = parent_number(parents, object);
            before[object] = last[parent];
            last[parent] = Some(object);
        }
        Ok(Links { last, before })
    }
}

// The number of the object's parent, and one past the objects where it has none among them.
fn parent_number(parents: &[Option<usize>], object: usize) -> usize
    ensures { result ≡ number_of_parent parents.now object }
{
    item_at(parents, object).map_or(parents.len(), |parent| parent.min(parents.len()))
}

// What stands at the place, and none past the list.
fn item_at(list: &[Option<usize>], place: usize) -> Option<usize>
    ensures { result ≡ option_and_then (λ item. item) (slice_get list.now place) }
{
    *list.get(place)?
}
