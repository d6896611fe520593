//! How the parts of a file are taken from its bytes and written to them, and the lists of them.

ghost use Rattle.std.specs.Prelude.{◌≡◌, ◌+◌, ◌<◌, ◌≤◌, ◌^◌, ◌++◌, ℕ, List, length, map, take, drop, vec_len, IfOk, ⊤};
ghost use Rattle.std.proofs.lemmas.List.{map-id};
ghost use Rattle.std.proofs.Common.{sym};
ghost use Rattle.pex_values.specs.Fit.{IsCounted};
ghost use Rattle.pex_values.specs.Spelling as spell;
ghost use Rattle.pex_codec.specs.Reading as reading;
ghost use Rattle.pex_codec.specs.Reading.{Reader, items_at, list_at};
ghost use Rattle.pex_codec.specs.Taking.{Takes};
ghost use Rattle.pex_codec.specs.Writing.{counted_fits, Writes, FitEach, FitsAsList};

use crate::cursor::{Cursor, Taken};
use crate::faults::EncodeFault;
use byteorder::{BigEndian, ByteOrder};
use papy_base::Text;
use pex_values::{put_byte, put_u16};
use std::alloc::Global;

/// A part of a file, of which there may be lists.
pub(crate) trait Item: Drop {
    /// The same with lists in place of vectors.
    ghost Plain: { Type 0 };

    ghost plain: { Self → Plain };

    ghost plain_each: { List Self → List Plain };

    /// The item at an offset of a file with so many strings.
    ghost at: { ℕ → Reader Plain };

    /// Whether its lists are short enough for their counts.
    ghost fits: { Plain → Type 0 };

    /// Whether a list of such items fits.
    ghost list_fits: { List Plain → Type 0 };

    /// Its bytes.
    ghost spelling: { Plain → List ℕ };

    fn take(alloc: Global, cursor: &mut Cursor<'_>, strings: u16) -> Taken<Self>
        ensures { Takes plain (at strings) result cursor.old cursor.new };

    /// Adds the item at the end, where it fits.
    fn write(&self, out: &mut Vec<u8>) -> Result<(), EncodeFault>
        ensures { Writes result out.old.items out.new.items (fits (plain self.now)) (spelling (plain self.now)) };

    ghost each: { (items : List Self) → plain_each items ≡ map plain items };

    ghost listed: { (items : List Plain) → FitsAsList fits list_fits items };
}

/// So many items.
pub(crate) fn take_items<T: Item>(
    alloc: Global,
    cursor: &mut Cursor<'_>,
    strings: u16,
    count: usize,
) -> Taken<Vec<T>>
    ensures taken { Takes (λ items. T.plain_each items.items) (items_at (T.at strings) count) result cursor.old cursor.new }
    ensures count { IfOk result (λ items. length items.items ≡ count) }
{
    let room = count.min(cursor.rest.len());
    let mut items = Vec::with_capacity(alloc, room)?;
    'items: for _ in 0..count {
        let item = T::take(alloc, cursor, strings)?;
        items.push(item)?;
    }
    Ok(items)
}

/// The number of items, and each item.
#[tactic(auto, unfolding(crate::specs::Reading::list_at))]
pub(crate) fn take_list<T: Item>(
    alloc: Global,
    cursor: &mut Cursor<'_>,
    strings: u16,
) -> Taken<Vec<T>>
    ensures taken { Takes (λ items. T.plain_each items.items) (list_at (T.at strings)) result cursor.old cursor.new }
    ensures count { IfOk result (λ items. length items.items < 2 ^ 16) }
{
    let count = cursor.u16()?;
    take_items(alloc, cursor, strings, count as usize)
}

/// Writes a number over the four bytes at a place.
pub(crate) fn set_u32(out: &mut Vec<u8>, at: usize, n: u32)
    requires { at + 4 ≤ vec_len out.old }
    ensures { out.new.items ≡ take at out.old.items ++ spell.four_bytes n ++ drop 4 (drop at out.old.items) }
{
    BigEndian::write_u32(&mut out[at..], n);
}

fn put_count(out: &mut Vec<u8>, count: usize) -> Result<(), EncodeFault>
    ensures { Writes result out.old.items out.new.items (count < 2 ^ 16) (spell.two_bytes count) }
{
    if count > 0xFFFF {
        return Err(EncodeFault::TooManyItems);
    }
    put_u16(out, count as u16)?;
    Ok(())
}

fn put_each<T: Item>(out: &mut Vec<u8>, items: &[T]) -> Result<(), EncodeFault>
    ensures { Writes result out.old.items out.new.items (FitEach (λ item. T.fits (T.plain item)) items.now)
        (spell.list (λ item. T.spelling (T.plain item)) items.now) }
{
    put_count(out, items.len())?;
    for item in items {
        item.write(out)?;
    }
    Ok(())
}

/// A count, and that many items.
pub(crate) fn put_list<T: Item>(out: &mut Vec<u8>, items: &[T]) -> Result<(), EncodeFault>
    ensures { Writes result out.old.items out.new.items (T.list_fits (T.plain_each items.now))
        (spell.list T.spelling (T.plain_each items.now)) }
{
    put_each(out, items)
}

/// A string of the table, and those of the header.
impl Item for Text {
    ghost Plain = { List ℕ };

    ghost plain = { λ text. text };

    ghost plain_each = { λ items. items };

    ghost at = { λ _. reading.string_at };

    ghost fits = { IsCounted };

    ghost list_fits = { FitEach IsCounted };

    ghost spelling = { spell.string };

    ghost each = { λ items. sym (map-id items) };

    ghost listed = { λ items. record { all = λ fit. fit; fit = λ all. all } };

    fn take(alloc: Global, cursor: &mut Cursor<'_>, _strings: u16) -> Taken<Self> {
        let bytes = cursor.string()?;
        Ok(Text::try_from_bytes(alloc, bytes)?)
    }

    fn write(&self, out: &mut Vec<u8>) -> Result<(), EncodeFault> {
        let bytes = self.as_bytes();
        put_count(out, bytes.len())?;
        out.extend_from_slice(bytes)?;
        Ok(())
    }
}

/// The line of an instruction.
impl Item for u16 {
    ghost Plain = { ℕ };

    ghost plain = { λ n. n };

    ghost plain_each = { λ items. items };

    ghost at = { λ _. reading.number_at 2 };

    ghost fits = { λ _. ⊤ };

    ghost list_fits = { IsCounted };

    ghost spelling = { spell.two_bytes };

    ghost each = { λ items. sym (map-id items) };

    ghost listed = { counted_fits };

    fn take(_alloc: Global, cursor: &mut Cursor<'_>, _strings: u16) -> Taken<Self> {
        cursor.u16()
    }

    fn write(&self, out: &mut Vec<u8>) -> Result<(), EncodeFault> {
        Ok(put_u16(out, *self)?)
    }
}

/// A flag: a reference to its name, and the number of its bit.
impl Item for (u16, u8) {
    ghost Plain = { ℕ × ℕ };

    ghost plain = { λ flag. flag };

    ghost plain_each = { λ items. items };

    ghost at = { reading.flag_at };

    ghost fits = { λ _. ⊤ };

    ghost list_fits = { IsCounted };

    ghost spelling = { spell.flag };

    ghost each = { λ items. sym (map-id items) };

    ghost listed = { counted_fits };

    fn take(_alloc: Global, cursor: &mut Cursor<'_>, strings: u16) -> Taken<Self> {
        cursor.flag(strings)
    }

    fn write(&self, out: &mut Vec<u8>) -> Result<(), EncodeFault> {
        put_u16(out, self.0)?;
        put_byte(out, self.1)?;
        Ok(())
    }
}

/// A parameter or a local variable of a function: references to its name and type.
impl Item for (u16, u16) {
    ghost Plain = { ℕ × ℕ };

    ghost plain = { λ pair. pair };

    ghost plain_each = { λ items. items };

    ghost at = { reading.pair_at };

    ghost fits = { λ _. ⊤ };

    ghost list_fits = { IsCounted };

    ghost spelling = { spell.pair };

    ghost each = { λ items. sym (map-id items) };

    ghost listed = { counted_fits };

    fn take(_alloc: Global, cursor: &mut Cursor<'_>, strings: u16) -> Taken<Self> {
        cursor.pair(strings)
    }

    fn write(&self, out: &mut Vec<u8>) -> Result<(), EncodeFault> {
        put_u16(out, self.0)?;
        put_u16(out, self.1)?;
        Ok(())
    }
}
