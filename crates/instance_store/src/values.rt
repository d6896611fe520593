//! Comparison of values, and places in lists of them.

ghost use Rattle.std.specs.Prelude.{◌≡◌, ◌≤◌, ◌<◌, IfSome, length, position};
ghost use Rattle.std.specs.Option.{ForSome};
ghost use Rattle.instance_store.specs.Values.{equals};
ghost use Rattle.instance_store.specs.Arrays.{place_in, first_equal, last_equal, first_place, end_behind, found_place};
ghost use Rattle.core_tree.specs.Values.{place_number};

use core_tree::Value;

/// Whether two values are equal, as `==` of a script says: texts with the case of A to Z ignored, instances and arrays where
/// they are the same one.
pub fn equals(value: &Value, other: &Value) -> bool
    ensures { result ≡ equals value.now other.now }
{
    match (value, other) {
        (Value::NoneValue, Value::NoneValue) => true,
        (Value::Int(a), Value::Int(b)) => a == b,
        (Value::Bool(a), Value::Bool(b)) => a == b,
        (Value::Text(a), Value::Text(b)) => a.as_bytes().eq_ignore_ascii_case(b.as_bytes()),
        (Value::Instance(a), Value::Instance(b)) => a == b,
        (Value::Array(a), Value::Array(b)) => a == b,
        _ => false,
    }
}

/// The place that an index names, if it is below the count.
pub fn place_in(count: usize, index: i32) -> Option<usize>
    ensures { result ≡ place_in count index }
{
    let place = usize::try_from(index).ok()?;
    if place < count { Some(place) } else { None }
}

/// The place of a value: the first one not below the start, or with `back` the last one not above it.
pub fn found_place(items: &[Value], value: &Value, start: i32, back: bool) -> Option<usize>
    ensures place { result ≡ found_place items.now value.now start back }
    ensures within { IfSome result (λ place. place < length items.now) }
{
    if back {
        last_equal(items, value, end_behind(items.len(), start))
    } else {
        first_equal(items, value, first_place(start))
    }
}

/// The first place not below the start whose item equals the value.
fn first_equal(items: &[Value], value: &Value, start: usize) -> Option<usize>
    ensures place { result ≡ first_equal items.now value.now start }
    ensures within { IfSome result (λ place. place < length items.now) }
{
    let found = first_in(items.get(start..)?, value)?;
    Some(start + found)
}

fn first_in(items: &[Value], value: &Value) -> Option<usize>
    ensures place { result ≡ position (λ item. equals item value.now) items.now }
    ensures within { IfSome result (λ place. place < length items.now) }
{
    items.iter().position(|item| equals(item, value))
}

/// The last place below the end whose item equals the value.
fn last_equal(items: &[Value], value: &Value, end: usize) -> Option<usize>
    requires { end ≤ length items.now }
    ensures place { result ≡ last_equal items.now value.now end }
    ensures within { IfSome result (λ place. place < length items.now) }
{
    let mut end = end;
    while end > 0 {
        end -= 1;
        if equals(&items[end], value) {
            return Some(end);
        }
    }
    None
}

/// Where a search forward begins.
fn first_place(start: i32) -> usize
    ensures { result ≡ first_place start }
{
    start.max(0) as usize
}

/// Where a search backward begins: behind the start, or behind the last item.
fn end_behind(count: usize, start: i32) -> usize
    ensures end { result ≡ end_behind count (place_in count start) }
    ensures within { result ≤ count }
{
    place_in(count, start).map_or(count, |place| place + 1)
}

/// A place as scripts see it.
pub fn place_number(place: Option<usize>) -> i32
    requires { ForSome place (λ place. place < 128) }
    ensures { result ≡ place_number place }
{
    place.map_or(-1, |place| place as i32)
}
