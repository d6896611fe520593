//! What the items of lists have in common, lists of them, and the items that are numbers or pairs of numbers.

ghost use Rattle.std.specs.Prelude.{◌≡◌, ◌<◌, ◌^◌, ⊤, ℕ, ℤ, List, Option, length, map, OnOk};
ghost use Rattle.std.specs.List.{AllByRecursion, flat_map};
ghost use Rattle.std.proofs.lemmas.List.{map-id};
ghost use Rattle.std.proofs.Common.{sym};
ghost use Rattle.machine_state.specs.Ranges.{IsU16, IsI32, IsPairInRange, IsSleeperInRange};
ghost use Rattle.pex_values.specs.Spelling as pex;
ghost use Rattle.stack_save.specs.Parts.{HasPut, Takes, IsPart, AreItems, AreParts};
ghost use Rattle.stack_save.specs.Reading as reading;
ghost use Rattle.stack_save.specs.Spelling as spell;

use crate::fault::Taken;
use crate::fields::{Cursor, put_i32};
use pex_values::{put_u16, put_u32};
use std::alloc::AllocError;

/// A list gets room for at most so many items before they are there.
const MOST_RESERVED: usize = 65_536;

/// An item of a list of a held file.
pub(crate) trait Item: Drop {
    /// The same with lists in place of vectors.
    ghost Plain: { Type 0 };

    ghost plain: { Self → Plain };

    ghost plain_each: { List Self → List Plain };

    /// Whether it fits its fields.
    ghost savable: { Plain → Type 0 };

    /// Whether its numbers are those of their types.
    ghost in_range: { Plain → Type 0 };

    /// Its bytes.
    ghost spelling: { Plain → List ℕ };

    /// The item at the front of bytes.
    ghost at: { List ℕ → Option (Plain × List ℕ) };

    /// Adds it at the end.
    fn put(&self, out: &mut Vec<u8>) -> Result<(), AllocError>
        requires { savable (plain self.now) }
        ensures { OnOk result (HasPut (in_range (plain self.now)) (spelling (plain self.now)) out.old.items out.new.items) };

    /// Takes it from the front.
    fn take(cursor: &mut Cursor<'_>) -> Taken<Self>
        ensures { Takes plain (IsPart savable in_range) spelling at result cursor.old.rest.now cursor.new.rest.now };

    ghost each: { (items : List Self) → plain_each items ≡ map plain items };
}

/// The items in a row.
pub(crate) fn put_items<T: Item>(out: &mut Vec<u8>, items: &[T]) -> Result<(), AllocError>
    requires { AllByRecursion T.savable (T.plain_each items.now) }
    ensures { OnOk result (HasPut (AllByRecursion T.in_range (T.plain_each items.now)) (flat_map T.spelling (T.plain_each items.now)) out.old.items out.new.items) }
{
    for item in items {
        item.put(out)?;
    }
    Ok(())
}

/// The number of items in two bytes, and the items.
pub(crate) fn put_list<T: Item>(out: &mut Vec<u8>, items: &[T]) -> Result<(), AllocError>
    requires count { length items.now < 2 ^ 16 }
    requires each { AllByRecursion T.savable (T.plain_each items.now) }
    ensures { OnOk result (HasPut (AllByRecursion T.in_range (T.plain_each items.now)) (pex.list T.spelling (T.plain_each items.now)) out.old.items out.new.items) }
{
    put_u16(out, items.len() as u16)?;
    put_items(out, items)
}

/// The same with four bytes for the number.
pub(crate) fn put_long_list<T: Item>(out: &mut Vec<u8>, items: &[T]) -> Result<(), AllocError>
    requires count { length items.now < 2 ^ 32 }
    requires each { AllByRecursion T.savable (T.plain_each items.now) }
    ensures { OnOk result (HasPut (AllByRecursion T.in_range (T.plain_each items.now)) (spell.long_list T.spelling (T.plain_each items.now)) out.old.items out.new.items) }
{
    put_u32(out, items.len() as u32)?;
    put_items(out, items)
}

/// So many items.
pub(crate) fn take_items<T: Item>(cursor: &mut Cursor<'_>, count: usize) -> Taken<Vec<T>>
    ensures { Takes (λ items. T.plain_each items.items) (AreItems count T.savable T.in_range) (flat_map T.spelling) (reading.items_at T.at count) result cursor.old.rest.now cursor.new.rest.now }
{
    let room = count.min(cursor.rest.len()).min(MOST_RESERVED);
    let mut items = Vec::with_capacity(cursor.alloc, room)?;
    'items: for _ in 0..count {
        let item = T::take(cursor)?;
        items.push(item)?;
    }
    Ok(items)
}

/// The number of items in two bytes, and the items.
#[tactic(auto, unfolding(crate::specs::Reading::list_at))]
pub(crate) fn take_list<T: Item>(cursor: &mut Cursor<'_>) -> Taken<Vec<T>>
    ensures { Takes (λ items. T.plain_each items.items) (AreParts (2 ^ 16) T.savable T.in_range) (pex.list T.spelling) (reading.list_at T.at) result cursor.old.rest.now cursor.new.rest.now }
{
    let count = cursor.take_u16()?;
    take_items(cursor, count as usize)
}

/// The same with four bytes for the number.
#[tactic(auto, unfolding(crate::specs::Reading::long_list_at))]
pub(crate) fn take_long_list<T: Item>(cursor: &mut Cursor<'_>) -> Taken<Vec<T>>
    ensures { Takes (λ items. T.plain_each items.items) (AreParts (2 ^ 32) T.savable T.in_range) (spell.long_list T.spelling) (reading.long_list_at T.at) result cursor.old.rest.now cursor.new.rest.now }
{
    let count = cursor.take_u32()?;
    take_items(cursor, count as usize)
}

// ---- numbers and pairs of numbers

/// A free stack.
impl Item for u16 {
    ghost Plain = { ℕ };

    ghost plain = { λ n. n };

    ghost plain_each = { λ items. items };

    ghost savable = { λ _. ⊤ };

    ghost in_range = { IsU16 };

    ghost spelling = { pex.two_bytes };

    ghost at = { reading.number_at 2 };

    ghost each = { λ items. sym (map-id items) };

    fn put(&self, out: &mut Vec<u8>) -> Result<(), AllocError> {
        put_u16(out, *self)
    }

    fn take(cursor: &mut Cursor<'_>) -> Taken<u16> {
        cursor.take_u16()
    }
}

/// A cell of a device.
impl Item for i32 {
    ghost Plain = { ℤ };

    ghost plain = { λ n. n };

    ghost plain_each = { λ items. items };

    ghost savable = { λ _. ⊤ };

    ghost in_range = { IsI32 };

    ghost spelling = { spell.integer };

    ghost at = { reading.integer_at };

    ghost each = { λ items. sym (map-id items) };

    fn put(&self, out: &mut Vec<u8>) -> Result<(), AllocError> {
        put_i32(out, *self)
    }

    fn take(cursor: &mut Cursor<'_>) -> Taken<i32> {
        cursor.take_i32()
    }
}

/// An instance and the stack that owns it or waits for it.
impl Item for (u16, u16) {
    ghost Plain = { ℕ × ℕ };

    ghost plain = { λ pair. pair };

    ghost plain_each = { λ items. items };

    ghost savable = { λ _. ⊤ };

    ghost in_range = { IsPairInRange };

    ghost spelling = { pex.pair };

    ghost at = { reading.pair_at };

    ghost each = { λ items. sym (map-id items) };

    fn put(&self, out: &mut Vec<u8>) -> Result<(), AllocError> {
        put_u16(out, self.0)?;
        put_u16(out, self.1)
    }

    #[tactic(auto, unfolding(crate::specs::Reading::pair_at))]
    fn take(cursor: &mut Cursor<'_>) -> Taken<(u16, u16)> {
        Ok((cursor.take_u16()?, cursor.take_u16()?))
    }
}

/// A stack that sleeps and the turn at which it is due.
impl Item for (u16, u32) {
    ghost Plain = { ℕ × ℕ };

    ghost plain = { λ pair. pair };

    ghost plain_each = { λ items. items };

    ghost savable = { λ _. ⊤ };

    ghost in_range = { IsSleeperInRange };

    ghost spelling = { spell.sleeper };

    ghost at = { reading.sleeper_at };

    ghost each = { λ items. sym (map-id items) };

    fn put(&self, out: &mut Vec<u8>) -> Result<(), AllocError> {
        put_u16(out, self.0)?;
        put_u32(out, self.1)
    }

    #[tactic(auto, unfolding(crate::specs::Reading::sleeper_at))]
    fn take(cursor: &mut Cursor<'_>) -> Taken<(u16, u32)> {
        Ok((cursor.take_u16()?, cursor.take_u32()?))
    }
}
