//! The arrays of a world.

ghost use Rattle.std.specs.Prelude.{◌≡◌, ◌↔◌, ◌⊎◌, ◌<◌, ◌≤◌, [], ◌++◌, ◌∷◌, IfOk, IfErr, IsErrOf, IsTrue, OnErr, OnOk, not, pos, length, replicate, vec_len};
ghost use Rattle.std.specs.Option.{ForSome};
ghost use Rattle.instance_store.specs.declared.arrays.StoreFault.TheVariants.{OutOfMemory as StoreOutOfMemory};
ghost use Rattle.core_tree.specs.Values.{default_of, is_array_type};
ghost use Rattle.instance_store.specs.Arrays.{array_at, length_of, read, write_answer, arrays_with, found, item_of, write_answer_of, array_with, found_place, IsRefusal, IsCreated};
ghost use Rattle.core_tree.specs.Values.{place_number};

use crate::values::{found_place, place_in, place_number};
use core_tree::{CoreType, Value};
use papy_base::{Made, OutOfMemory, StackFault};
use std::alloc::Global;
use std::marker::Model;
use thiserror::Error;

/// Why a call that takes memory gives no answer.
#[derive(Clone, Copy, Debug, PartialEq, Eq, Error)]
pub enum StoreFault {
    /// The script has done what it can't.
    #[error("a fault of the running script")]
    Fault(StackFault),
    /// No memory was found.
    #[error("out of memory")]
    OutOfMemory,
}

impl From<OutOfMemory> for StoreFault {
    ghost from_gives = { λ _ fault. fault ≡ StoreOutOfMemory };

    fn from(_error: OutOfMemory) -> StoreFault {
        StoreFault::OutOfMemory
    }
}

/// An array of at most 128 values.
#[derive(Drop)]
struct ValueArray {
    kind: CoreType,
    items: Vec<Value>,
}

impl Model for ValueArray {
    ghost use Rattle.std.specs.Prelude.{◌≤◌, vec_len};
    ghost use Rattle.instance_store.specs.Arrays.{ArrayState};

    ghost Value = { ArrayState };

    ghost view = { λ a. record { kind = a.kind; items = a.items.items } };

    ghost invariant = { λ a. vec_len a.items ≤ 128 };
}

impl ValueArray {
    /// How many elements it has, at most 128.
    fn length(&self) -> i32
        ensures { result ≡ pos (length self.now.items) }
    {
        self.items.len() as i32
    }

    /// A copy of the element at an index.
    fn get(&self, alloc: Global, at: i32) -> Result<Value, StoreFault>
        ensures item { IfOk result (λ value. item_of self.now at ≡ Ok value) }
        ensures fault { IfErr result (λ fault. IsRefusal (item_of self.now at) fault) }
    {
        let fault = StoreFault::Fault(StackFault::IndexRange);
        let place = place_in(self.items.len(), at).ok_or(fault)?;
        Ok(self.items[place].try_clone(alloc)?)
    }

    /// Writes the element at an index.
    fn set(&mut self, at: i32, value: Value) -> Result<(), StackFault>
        ensures answer { result ≡ write_answer_of self.old at }
        ensures after { self.new ≡ array_with self.old at value }
    {
        let place = place_in(self.items.len(), at).ok_or(StackFault::IndexRange)?;
        self.items[place] = value;
        Ok(())
    }

    /// The place of a value, or -1.
    fn find(&self, value: &Value, start: i32, back: bool) -> i32
        ensures { result ≡ place_number (found_place self.now.items value.now start back) }
    {
        place_number(found_place(&self.items, value, start, back))
    }
}

/// So many defaults of a type.
fn defaults(alloc: Global, kind: CoreType, count: u8) -> Made<Vec<Value>>
    ensures { IfOk result (λ items. items.items ≡ replicate count (default_of kind)) }
{
    let mut items = Vec::with_capacity(alloc, usize::from(count))?;
    for _made in 0..count {
        items.push(Value::default_of(alloc, Some(kind))?)?;
    }
    Ok(items)
}

/// The most arrays that a run may make.
const ARRAY_LIMIT: usize = 4096;

/// The arrays that scripts have made, numbered from 0. Contracts see, for each, the type of its
/// elements and the list of their values.
///
/// In each call a number that is given is that of an array that is there.
#[derive(Drop)]
pub struct Arrays {
    arrays: Vec<ValueArray>,
}

impl Model for Arrays {
    ghost use Rattle.std.specs.Prelude.{◌≤◌, List, vec_len};
    ghost use Rattle.instance_store.specs.Arrays.{ArrayState};

    ghost Value = { List ArrayState };

    ghost view = { λ a. a.arrays.items };

    ghost invariant = { λ a. vec_len a.arrays ≤ 4096 };
}

impl Arrays {
    /// No arrays.
    pub fn new(alloc: Global) -> Arrays
        ensures { result ≡ [] }
    {
        Arrays {
            arrays: Vec::new(alloc),
        }
    }

    /// The number of arrays, at most 4,096.
    pub fn count(&self) -> u16
        ensures number { result ≡ length self.now }
        ensures at_most { length self.now ≤ 4096 }
    {
        self.arrays.len() as u16
    }

    /// The type of an array's elements.
    pub fn kind_of(&self, array: u16) -> &CoreType
        requires { array < length self.now }
        ensures { result.now ≡ (array_at self.now array).kind }
    {
        &self.arrays[usize::from(array)].kind
    }

    /// Makes an array of 1 to 128 elements of a type that is no array type, and gives its number.
    /// The elements are 0, false, the empty text or None.
    ///
    /// # Errors
    ///
    /// `ArrayLimit` comes exactly where there are 4,096 arrays. `OutOfMemory` comes where there is
    /// no room. Then nothing has changed.
    pub fn create(&mut self, kind: CoreType, count: u8) -> Result<u16, StoreFault>
        requires no_array_type { IsTrue (not (is_array_type kind)) }
        requires some { 1 ≤ count }
        requires at_most { count ≤ 128 }
        ensures ok { IfOk result (λ number. IsCreated self.old self.new kind count number) }
        ensures limit { IsErrOf result (StoreFault.Fault StackFault.ArrayLimit) ↔ (4096 ≤ length self.old) }
        ensures fault { IfErr result (λ fault. (fault ≡ StoreFault.Fault StackFault.ArrayLimit) ⊎ (fault ≡ StoreFault.OutOfMemory)) }
        ensures err { OnErr result (self.new ≡ self.old) }
    {
        let number = self.arrays.len();
        if number >= ARRAY_LIMIT {
            return Err(StoreFault::Fault(StackFault::ArrayLimit));
        }
        let alloc = *self.arrays.allocator();
        self.add(kind, defaults(alloc, kind, count)?)?;
        Ok(number as u16)
    }

    /// Adds an array of these elements, at most 128 of a type that is no array type.
    ///
    /// # Errors
    ///
    /// `OutOfMemory` comes where there is no room. Then nothing has changed.
    pub fn add(&mut self, kind: CoreType, items: Vec<Value>) -> Made<()>
        requires room { length self.old < 4096 }
        requires at_most { vec_len items ≤ 128 }
        ensures ok { OnOk result (self.new ≡ self.old ++ record { kind = kind; items = items.items } ∷ []) }
        ensures err { OnErr result (self.new ≡ self.old) }
    {
        self.arrays.push(ValueArray { kind, items })?;
        Ok(())
    }

    /// The elements of an array.
    pub fn items_of(&self, array: u16) -> &[Value]
        requires { array < length self.now }
        ensures { result.now ≡ (array_at self.now array).items }
    {
        self.arrays[usize::from(array)].items.as_slice()
    }

    /// The number of an array's elements. `NoneArray` comes exactly where no array is given.
    pub fn length(&self, array: Option<u16>) -> Result<i32, StackFault>
        requires { ForSome array (λ number. number < length self.now) }
        ensures { result ≡ length_of self.now array }
    {
        let number = array.ok_or(StackFault::NoneArray)?;
        Ok(self.arrays[usize::from(number)].length())
    }

    /// The element at an index.
    ///
    /// # Errors
    ///
    /// `NoneArray` comes exactly where no array is given, and `IndexRange` exactly where the index
    /// is below 0 or not below the array's length. `OutOfMemory` comes only of a text.
    pub fn get_at(&self, array: Option<u16>, at: i32) -> Result<Value, StoreFault>
        requires { ForSome array (λ number. number < length self.now) }
        ensures item { IfOk result (λ value. read self.now array at ≡ Ok value) }
        ensures fault { IfErr result (λ fault. IsRefusal (read self.now array at) fault) }
    {
        let number = array.ok_or(StoreFault::Fault(StackFault::NoneArray))?;
        self.arrays[usize::from(number)].get(*self.arrays.allocator(), at)
    }

    /// Writes the element at an index, and no other.
    ///
    /// # Errors
    ///
    /// `NoneArray` and `IndexRange` as in `get_at`. Then nothing has changed.
    pub fn set_at(&mut self, array: Option<u16>, at: i32, value: Value) -> Result<(), StackFault>
        requires { ForSome array (λ number. number < length self.old) }
        ensures answer { result ≡ write_answer self.old array at }
        ensures after { self.new ≡ arrays_with self.old array at value }
    {
        let number = array.ok_or(StackFault::NoneArray)?;
        self.arrays[usize::from(number)].set(at, value)
    }

    /// The first place not below the start whose element equals the value, or with `back` the last
    /// place not above the start, else -1. A start below 0 counts as 0; with `back` a start below 0
    /// or not below the length counts as the last place. Texts are compared with the case of A to Z
    /// ignored.
    ///
    /// # Errors
    ///
    /// `NoneArray` comes exactly where no array is given.
    pub fn find(
        &self,
        array: Option<u16>,
        value: &Value,
        start: i32,
        back: bool,
    ) -> Result<i32, StackFault>
        requires { ForSome array (λ number. number < length self.now) }
        ensures { result ≡ found self.now array value.now start back }
    {
        let number = array.ok_or(StackFault::NoneArray)?;
        Ok(self.arrays[usize::from(number)].find(value, start, back))
    }
}
