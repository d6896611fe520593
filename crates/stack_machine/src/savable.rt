//! Whether a held file has the fields for a state: lists and texts are no longer than their counts can say, and what has to
//! ascend does.

ghost use Rattle.std.specs.Prelude.{◌≡◌, true, List, map, refl};
ghost use Rattle.std.proofs.lemmas.List.{map-id};
ghost use Rattle.std.proofs.Common.{sym};
ghost use Rattle.std.specs.List.Sorted.{IsStrictlyIncreasing};
ghost use Rattle.std.specs.List.{AllByRecursion};
ghost use Rattle.core_tree.specs.Device.{DeviceState};
ghost use Rattle.core_tree.specs.declared.value.Value.{Value};
ghost use Rattle.machine_state.specs.Plain.{PlainArray, PlainFrame, PlainInstance, plain, plain_array, plain_device, plain_frame, plain_instance, plain_stack};
ghost use Rattle.machine_state.specs.Savable.{FitsTwoBytes, IsElementType, IsNumbered, IsSavable, IsSavableArray, IsSavableDevice, IsSavableFrame, IsSavableInstance, IsSavablePlace, IsSavableStack, IsSavableValue, firsts};

use body_runner::name_of;
use core_tree::{CoreType, DeviceKind, Value};
use machine_state::{BodyPlace, FrameState, MachineState};
use papy_base::Text;

/// So many fit a count of one, two or four bytes.
const BYTE: usize = 256;

const TWO_BYTES: usize = 65_536;

const FOUR_BYTES: usize = 4_294_967_296;

/// What stands in lists of a state.
trait Savable {
    /// The same with lists in place of vectors.
    ghost Plain: { Type 0 };

    ghost plain: { Self → Plain };

    ghost plain_each: { List Self → List Plain };

    /// Whether it fits its fields.
    ghost savable: { Plain → Type 0 };

    /// Whether a held file has the fields for it.
    fn is_savable(&self) -> bool
        ensures { result ≡ true → savable (plain self.now) };

    ghost each: { (items : List Self) → plain_each items ≡ map plain items };
}

fn are_savable<T: Savable>(items: &[T]) -> bool
    ensures { result ≡ true → AllByRecursion T.savable (T.plain_each items.now) }
{
    for item in items {
        if !item.is_savable() {
            return false;
        }
    }
    true
}

// Those of a list whose count has two bytes.
fn is_savable_list<T: Savable>(items: &[T]) -> bool
    ensures count { result ≡ true → FitsTwoBytes items.now }
    ensures each { result ≡ true → AllByRecursion T.savable (T.plain_each items.now) }
{
    items.len() < TWO_BYTES && are_savable(items)
}

/// Whether a held file has the fields for the state. Each state of a run is such a one.
pub fn is_savable(state: &MachineState) -> bool
    ensures { result ≡ true → IsSavable (plain state.now) }
{
    is_numbered(state.last)
        && is_savable_list(&state.instances)
        && are_savable_locks(state)
        && is_savable_list(&state.arrays)
        && is_savable_list(&state.devices)
        && is_savable_list(&state.stacks)
}

fn are_savable_locks(state: &MachineState) -> bool
    ensures owners { result ≡ true → FitsTwoBytes state.now.owners.items }
    ensures owners_ascend { result ≡ true → IsStrictlyIncreasing (firsts state.now.owners.items) }
    ensures waiters { result ≡ true → FitsTwoBytes state.now.waiters.items }
    ensures free { result ≡ true → FitsTwoBytes state.now.free.items }
    ensures free_ascend { result ≡ true → IsStrictlyIncreasing state.now.free.items }
    ensures asleep { result ≡ true → FitsTwoBytes state.now.asleep.items }
    ensures asleep_ascend { result ≡ true → IsStrictlyIncreasing (firsts state.now.asleep.items) }
{
    state.owners.len() < TWO_BYTES
        && state.waiters.len() < TWO_BYTES
        && state.free.len() < TWO_BYTES
        && state.asleep.len() < TWO_BYTES
        && pairs_ascend(&state.owners)
        && stacks_ascend(&state.free)
        && sleepers_ascend(&state.asleep)
}

/// Whether pairs ascend.
pub fn pairs_ascend(pairs: &[(u16, u16)]) -> bool
    ensures { result ≡ true → IsStrictlyIncreasing (firsts pairs.now) }
{
    pairs.is_sorted_by(|a, b| a.0 < b.0)
}

/// Whether numbers ascend.
pub fn stacks_ascend(stacks: &[u16]) -> bool
    ensures { result ≡ true → IsStrictlyIncreasing stacks.now }
{
    stacks.is_sorted_by(|a, b| *a < *b)
}

/// Whether sleepers ascend.
pub fn sleepers_ascend(sleepers: &[(u16, u32)]) -> bool
    ensures { result ≡ true → IsStrictlyIncreasing (firsts sleepers.now) }
{
    sleepers.is_sorted_by(|a, b| a.0 < b.0)
}

// The number that would say none is no number.
fn is_numbered(number: Option<u16>) -> bool
    ensures { result ≡ true → IsNumbered number }
{
    number.is_none_or(|number| number < u16::MAX)
}

impl Savable for Value {
    ghost Plain = { Value };

    ghost plain = { λ value. value };

    ghost plain_each = { λ items. items };

    ghost savable = { IsSavableValue };

    ghost each = { λ items. sym (map-id items) };

    fn is_savable(&self) -> bool {
        match self {
            Value::Text(text) => text.as_bytes().len() < TWO_BYTES,
            _ => true,
        }
    }
}

/// An instance: the text of its state, and the values of its variables.
impl Savable for (Text, Vec<Value>) {
    ghost Plain = { PlainInstance };

    ghost plain = { plain_instance };

    ghost plain_each = { map plain_instance };

    ghost savable = { IsSavableInstance };

    ghost each = { λ items. refl };

    fn is_savable(&self) -> bool {
        self.0.as_bytes().len() < TWO_BYTES && self.1.len() < FOUR_BYTES && are_savable(&self.1)
    }
}

/// An array: the type of its elements, and the elements.
impl Savable for (CoreType, Vec<Value>) {
    ghost Plain = { PlainArray };

    ghost plain = { plain_array };

    ghost plain_each = { map plain_array };

    ghost savable = { IsSavableArray };

    ghost each = { λ items. refl };

    fn is_savable(&self) -> bool {
        is_element_type(self.0) && self.1.len() < BYTE && are_savable(&self.1)
    }
}

/// Whether a type is none of arrays.
pub fn is_element_type(kind: CoreType) -> bool
    ensures { result ≡ true → IsElementType kind }
{
    match kind {
        CoreType::Int | CoreType::Bool | CoreType::Text | CoreType::Script(_) => true,
        CoreType::IntArray | CoreType::BoolArray | CoreType::TextArray | CoreType::ScriptArray(_) =>
            false,
    }
}

/// A device: its kind, its cells and its place.
impl Savable for (DeviceKind, Vec<i32>, u64) {
    ghost Plain = { DeviceState };

    ghost plain = { plain_device };

    ghost plain_each = { map plain_device };

    ghost savable = { IsSavableDevice };

    ghost each = { λ items. refl };

    fn is_savable(&self) -> bool {
        self.1.len() < FOUR_BYTES
    }
}

/// A stack.
impl Savable for Vec<FrameState> {
    ghost Plain = { List PlainFrame };

    ghost plain = { plain_stack };

    ghost plain_each = { map plain_stack };

    ghost savable = { IsSavableStack };

    ghost each = { λ items. refl };

    fn is_savable(&self) -> bool {
        is_savable_list(self)
    }
}

impl Savable for FrameState {
    ghost Plain = { PlainFrame };

    ghost plain = { plain_frame };

    ghost plain_each = { map plain_frame };

    ghost savable = { IsSavableFrame };

    ghost each = { λ items. refl };

    fn is_savable(&self) -> bool {
        match self {
            FrameState::ToEnter {
                instance,
                way,
                arguments,
            } => {
                is_numbered(*instance)
                    && name_of(way).as_bytes().len() < TWO_BYTES
                    && is_savable_list(arguments)
            }
            FrameState::Running {
                instance,
                at,
                slots,
                reply,
                ..
            } => {
                is_numbered(*instance)
                    && is_savable_place(at)
                    && is_savable_list(slots)
                    && reply.as_ref().is_none_or(|value| value.is_savable())
            }
        }
    }
}

fn is_savable_place(at: &BodyPlace) -> bool
    ensures { result ≡ true → IsSavablePlace at.now }
{
    at.state.as_bytes().len() < TWO_BYTES
        && at.function.as_bytes().len() < TWO_BYTES
        && at.kind <= 2
}
