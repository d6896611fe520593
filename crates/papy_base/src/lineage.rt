// The way up from one of several things: its parent, its parent's parent and so on.
ghost use Rattle.std.specs.Prelude.{◌≡◌, ℕ, Option, Some, map, IfOk};
ghost use Rattle.papy_base.specs.Lineage.{lineage, parent_of, stands_below};

use crate::faults::Made;
use std::alloc::Global;
use std::marker::Model;

/// A thing of a list that may have a parent in the same list.
pub trait HasParent {
    ghost parent_number: { Self → Option ℕ };

    /// The place of the parent in the list, none where it has no parent.
    fn parent(&self) -> Option<usize>
        ensures { result ≡ parent_number self.now };
}

impl HasParent for Option<usize> {
    ghost parent_number = { λ parent. parent };

    fn parent(&self) -> Option<usize> {
        *self
    }
}

/// The place of the parent of the thing at this place, none where it has no parent or nothing stands there.
pub fn parent_of<T: HasParent>(things: &[T], place: usize) -> Option<usize>
    ensures { result ≡ parent_of (map T.parent_number things.now) place }
{
    things.get(place)?.parent()
}

/// The places of a thing of a list and of those above it, the nearest first. From [`upward`].
#[derive(Drop)]
pub struct Lineage<'a, T: HasParent> {
    things: &'a [T],
    next: Option<usize>,
    left: usize,
}

impl<'a, T: HasParent> Model for Lineage<'a, T> {
    ghost use Rattle.std.specs.Prelude.{List, ℕ, map};
    ghost use Rattle.papy_base.specs.Lineage.{upward};

    ghost Value = { List ℕ };

    ghost view = { λ way. upward way.left (map T.parent_number way.things.now) way.next };
}

/// The place of a thing of this list, the place of its parent, and so on upward. There are at most as many as the list
/// has things, so it ends where the parents make a circle too.
pub fn upward<T: HasParent>(things: &[T], first: usize) -> Lineage<'_, T>
    ensures { result ≡ lineage (map T.parent_number things.now) (Some first) }
{
    Lineage {
        things,
        next: Some(first),
        left: things.len(),
    }
}

impl<'a, T: HasParent> Iterator for Lineage<'a, T> {
    ghost use Rattle.std.specs.Iterator.{YieldsFirst, item_count};

    type Item = usize;

    ghost next_gives = { YieldsFirst (λ way. way) };

    ghost remaining = { item_count (λ way. way) };

    fn next(&mut self) -> Option<usize> {
        let here = self.next?;
        if self.left == 0 {
            return None;
        }
        self.left -= 1;
        self.next = parent_of(self.things, here);
        Some(here)
    }
}

/// Whether one thing of a list is the other or stands below it.
pub fn is_below<T: HasParent>(things: &[T], first: usize, above: usize) -> bool
    ensures { result ≡ stands_below (map T.parent_number things.now) first above }
{
    upward(things, first).any(|place| place == above)
}

/// The same as [`upward`], as a list.
///
/// `OutOfMemory` comes where no memory is found.
pub fn lineage_of<T: HasParent>(alloc: Global, things: &[T], first: usize) -> Made<Vec<usize>>
    ensures { IfOk result (λ places. places.items ≡ lineage (map T.parent_number things.now) (Some first)) }
{
    Ok(upward(things, first).collect(alloc)?)
}
