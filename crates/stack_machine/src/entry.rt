//! What a call finds at its entry.

use body_runner::{Call, CallWay, Found, LoadedBody, Setting, Store};
use loaded_code::{LoadedFunction, LoadedProperty, MethodPlace, PropertyPlace};

/// What a look-up finds.
#[derive(Clone, Copy)]
pub enum Entry<'a> {
    /// A body, and its function.
    Body(LoadedBody, &'a LoadedFunction),
    /// A native function.
    Native(MethodPlace),
    /// A variable of this script, which is read.
    Read { script: u16, variable: u16 },
    /// A variable of this script, which is written.
    Write { script: u16, variable: u16 },
    /// Nothing that may be entered.
    Nothing,
}

/// Looks a call up.
pub fn entry_of<'a>(setting: &'a Setting, store: &Store, call: &Call) -> Entry<'a> {
    let state = store.state_number(call.instance);
    match setting.look_up(state, call.instance, call.way) {
        Some(Found::Body(body)) => body_of(setting, call, body),
        Some(Found::Native(at)) => Entry::Native(at),
        Some(Found::Variable(property, variable)) => use_of(setting, call.way, property, variable),
        None => Entry::Nothing,
    }
}

// A body is entered with as many arguments as its function has parameters.
fn body_of<'a>(setting: &'a Setting, call: &Call, body: LoadedBody) -> Entry<'a> {
    let Some(function) = setting.function(body) else {
        return Entry::Nothing;
    };
    if call.arguments.len() != function.parameters.len() {
        return Entry::Nothing;
    }
    Entry::Body(body, function)
}

// The use of an Auto property that the property allows.
fn use_of<'a>(
    setting: &'a Setting,
    way: CallWay,
    property: PropertyPlace,
    variable: u16,
) -> Entry<'a> {
    let Some(found) = setting.property(property) else {
        return Entry::Nothing;
    };
    let script = property.script;
    match way {
        CallWay::Get(_) if may_read(found) => Entry::Read { script, variable },
        CallWay::Set(_) if may_write(found) => Entry::Write { script, variable },
        _ => Entry::Nothing,
    }
}

// The bits of a property that may be read, and of one that may be written.
const READ: u8 = 1;

const WRITE: u8 = 2;

/// Whether a property may be read.
pub fn may_read(property: &LoadedProperty) -> bool {
    property.bits & READ != 0
}

/// Whether a property may be written.
pub fn may_write(property: &LoadedProperty) -> bool {
    property.bits & WRITE != 0
}
