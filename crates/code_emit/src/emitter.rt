// The files of a set of scripts: the fixed parts, and the object of a script, with its members in order.
#![tactic(auto, using(crate::proofs::Goes::going))]

ghost use Rattle.std.specs.Prelude.{◌≡◌, ◌-◌, [], None, Some, false, IfOk, IfSome, vec_len, length, map, drop, unwrap_or, option_map};
ghost use Rattle.std.specs.List.{AllByRecursion};
ghost use Rattle.core_tree.specs.Set.{function_of, function_of_option, property_of, script_of, state_of};
ghost use Rattle.pex_values.specs.Bits.{has_variable, has_read, has_write};
ghost use Rattle.pex_values.specs.Plain.{plain, plain_function, plain_lines, plain_named, plain_property, plain_state, plain_object};
ghost use Rattle.pex_values.specs.Shape.{IsReference, IsShapedFlag, IsShapedFunction, IsShapedNamed, IsShapedVariable, IsShapedProperty, IsShapedState, IsShapedObject, IsWellShaped};
ghost use Rattle.code_emit.specs.Spelled.{Each, EachWith, SpellsAccessor, SpellsFlag, SpellsNamed, SpellsObject, SpellsProperty, SpellsScript, SpellsState, SpellsVariable, accessor_bits, parent_name, part_of, user_flags};
ghost use Rattle.code_emit.specs.Strings.{Origin, Reads, ReadsName, home_of, origin_of};
ghost use Rattle.code_emit.specs.Writing.{GoesOn, Notes};

use crate::faults::{EmitFault, Result};
use crate::functions::function;
use crate::operands::constant;
use crate::strings::{Numbered, Source, StringTable, script_name};
use crate::writer::{DebugName, Writer, flag_bits};
use core_tree::{
    CoreAccess, CoreFunction, CoreProperty, CoreScript, CoreSet, CoreState, CoreVariable,
};
use papy_base::{OutOfMemory, PRELUDE_COUNT, Text};
use pex_values::{
    Pex, PexDebug, PexFunction, PexObject, PexProperty, PexState, PexVariable, SizeForm,
};
use std::alloc::Global;

/// The kinds of debug entries: of a state's function, of a Get and of a Set.
const STATE_FUNCTION: u8 = 0;

const READ: u8 = 1;

const WRITE: u8 = 2;

/// The bits of an auto property.
const AUTO_BITS: u8 = 7;

/// The compiled files of a set, one for each script behind the prelude's, in their order.
///
/// Each has one object, whose empty state comes first where the script's does, one debug entry for each function with a
/// body, the user flags `hidden` 0 and `conditional` 1, and each of its strings once, in order of first use: by the
/// object's parts, each function's debug entry before the function, and then the user flags. Its source is the last part
/// of the file's name, and its times are 0.
///
/// # Errors
///
/// `OutOfRange` comes where a number of the set names nothing, `TooLarge` where a function or the strings of a script
/// pass the limits that `EmitFault` tells, and `OutOfMemory` where no memory is found.
pub fn emit(alloc: Global, set: &CoreSet) -> std::result::Result<Vec<Pex>, EmitFault>
    ensures shaped { IfOk result (λ files. AllByRecursion IsWellShaped (map plain files.items)) }
    ensures count { IfOk result (λ files. vec_len files ≡ vec_len set.now.scripts - PRELUDE_COUNT) }
    ensures spelled { IfOk result (λ files. Each (λ file script. SpellsScript (record { set = set.now; script = script }) file) (map plain files.items) (drop PRELUDE_COUNT set.now.scripts.items)) }
{
    let scripts = set.scripts.as_slice();
    let first = scripts.len().min(PRELUDE_COUNT);
    files(alloc, set, &scripts[first..])
}

fn files(alloc: Global, set: &CoreSet, scripts: &[CoreScript]) -> Result<Vec<Pex>>
    ensures shaped { IfOk result (λ files. AllByRecursion IsWellShaped (map plain files.items)) }
    ensures count { IfOk result (λ files. vec_len files ≡ length scripts.now) }
    ensures spelled { IfOk result (λ files. Each (λ file script. SpellsScript (record { set = set.now; script = script }) file) (map plain files.items) scripts.now) }
{
    let mut files = Vec::new(alloc);
    for script in scripts {
        files.push(emit_file(alloc, Source { set, script })?)?;
    }
    Ok(files)
}

fn emit_file(alloc: Global, source: Source<'_>) -> Result<Pex>
    ensures shaped { IfOk result (λ file. IsWellShaped (plain file)) }
    ensures spelled { IfOk result (λ file. SpellsScript (origin_of source.entry) (plain file)) }
{
    let mut writer = Writer {
        strings: StringTable::new(alloc, source),
        debug: Vec::new(alloc),
    };
    let object = object(&mut writer, &source)?;
    let user_flags = user_flags(&mut writer.strings)?;
    let strings = writer.strings.texts()?;
    let objects = vec![in alloc; object]?;
    Ok(Pex {
        minor: 1,
        time: 0,
        source: source_name(alloc, &source.script.file)?,
        user: Text::try_from_bytes(alloc, b"")?,
        machine: Text::try_from_bytes(alloc, b"")?,
        strings,
        debug: Some(PexDebug {
            time: 0,
            functions: writer.debug,
        }),
        user_flags,
        objects,
    })
}

fn user_flags(strings: &mut StringTable<'_>) -> Result<Vec<(u16, u8)>>
    ensures flags { IfOk result (λ flags. AllByRecursion (IsShapedFlag (length strings.new.strings)) flags.items) }
    ensures spelled { IfOk result (λ flags. Each (SpellsFlag strings.new) flags.items user_flags) }
    ensures goes { GoesOn strings.old strings.new }
{
    let hidden = strings.place_of(b"hidden")?;
    let conditional = strings.place_of(b"conditional")?;
    let flags = vec![in strings.alloc(); (hidden, 0), (conditional, 1)]?;
    Ok(flags)
}

/// What stands behind the last `/` of a file's name.
fn source_name(alloc: Global, file: &Text) -> Result<Text> {
    let name = file.as_bytes();
    let last = name.iter().rposition(|byte| *byte == b'/');
    let start = last.map_or(0, |at| at.saturating_add(1));
    Ok(Text::try_from_bytes(alloc, name.get(start..).unwrap_or(name))?)
}

// ---- the object of a script

// What the file has of a script.
fn object(writer: &mut Writer<'_>, source: &Source<'_>) -> Result<PexObject>
    requires { writer.old.strings.home ≡ home_of (origin_of source.now) }
    ensures object { IfOk result (λ o. IsShapedObject (length writer.new.strings.strings) (plain_object o)) }
    ensures spelled { IfOk result (λ o. Notes (length writer.new.strings.strings) (map plain_lines writer.old.debug.items) (map plain_lines writer.new.debug.items) (SpellsObject (origin_of source.now) writer.new.strings (plain_object o) (script_of source.now.script.now))) }
    ensures goes { GoesOn writer.old.strings writer.new.strings }
{
    let script = source.script;
    let name = writer.strings.place_of(script.name.as_bytes())?;
    let parent = parent(&mut writer.strings, source)?;
    let doc = writer.strings.text(&script.doc)?;
    let auto_state = auto_state(&mut writer.strings, script)?;
    let variables = variables(&mut writer.strings, &script.variables)?;
    let properties = properties(writer, source, &script.properties)?;
    let states = states(writer, source, &script.states)?;
    Ok(PexObject {
        name,
        size_form: SizeForm::Counted,
        parent,
        doc,
        flags: flag_bits(script.flags),
        auto_state,
        variables,
        properties,
        states,
    })
}

// The place of the parent's name, of the empty one where there is no parent.
fn parent(strings: &mut StringTable<'_>, source: &Source<'_>) -> Result<u16>
    ensures place { IfOk result (IsReference (length strings.new.strings)) }
    ensures named { IfOk result (λ place. ReadsName strings.new.strings place (parent_name (home_of (origin_of source.now)).scripts source.now.script.now.parent)) }
    ensures goes { GoesOn strings.old strings.new }
{
    match source.script.parent {
        Some(number) => strings.place_of(script_name(&source.set.scripts, number)?),
        None => strings.place_of(b""),
    }
}

fn auto_state(strings: &mut StringTable<'_>, script: &CoreScript) -> Result<u16>
    ensures place { IfOk result (IsReference (length strings.new.strings)) }
    ensures named { IfOk result (λ place. Reads strings.new.strings place (unwrap_or script.now.auto_state [])) }
    ensures goes { GoesOn strings.old strings.new }
{
    match &script.auto_state {
        Some(state) => strings.place_of(state.as_bytes()),
        None => strings.place_of(b""),
    }
}

fn variables(strings: &mut StringTable<'_>, variables: &[CoreVariable]) -> Result<Vec<PexVariable>>
    ensures variables { IfOk result (λ found. AllByRecursion (IsShapedVariable (length strings.new.strings)) found.items) }
    ensures spelled { IfOk result (λ found. Each (SpellsVariable strings.new) found.items variables.now) }
    ensures goes { GoesOn strings.old strings.new }
{
    let mut found = Vec::with_capacity(strings.alloc(), variables.len())?;
    for variable in variables {
        found.push(one_variable(strings, variable)?)?;
    }
    Ok(found)
}

fn one_variable(strings: &mut StringTable<'_>, variable: &CoreVariable) -> Result<PexVariable>
    ensures variable { IfOk result (IsShapedVariable (length strings.new.strings)) }
    ensures spelled { IfOk result (λ v. SpellsVariable strings.new v variable.now) }
    ensures goes { GoesOn strings.old strings.new }
{
    let name = strings.place_of(variable.name.as_bytes())?;
    let kind = strings.numbered(Numbered::Type(Some(variable.kind)))?;
    let value = constant(strings, &variable.value)?;
    Ok(PexVariable {
        name,
        kind,
        flags: flag_bits(variable.flags),
        value,
    })
}

fn properties(
    writer: &mut Writer<'_>,
    source: &Source<'_>,
    properties: &[CoreProperty],
) -> Result<Vec<PexProperty>>
    ensures properties { IfOk result (λ found. AllByRecursion (IsShapedProperty (length writer.new.strings.strings)) (map plain_property found.items)) }
    ensures spelled { IfOk result (λ found. Notes (length writer.new.strings.strings) (map plain_lines writer.old.debug.items) (map plain_lines writer.new.debug.items) (EachWith (SpellsProperty (origin_of source.now) writer.new.strings) (map plain_property found.items) (map property_of properties.now))) }
    ensures goes { GoesOn writer.old.strings writer.new.strings }
{
    let mut found = Vec::with_capacity(writer.strings.alloc(), properties.len())?;
    for property in properties {
        found.push(one_property(writer, source, property)?)?;
    }
    Ok(found)
}

fn one_property(
    writer: &mut Writer<'_>,
    source: &Source<'_>,
    property: &CoreProperty,
) -> Result<PexProperty>
    ensures property { IfOk result (λ p. IsShapedProperty (length writer.new.strings.strings) (plain_property p)) }
    ensures spelled { IfOk result (λ p. Notes (length writer.new.strings.strings) (map plain_lines writer.old.debug.items) (map plain_lines writer.new.debug.items) (SpellsProperty (origin_of source.now) writer.new.strings (plain_property p) (property_of property.now))) }
    ensures goes { GoesOn writer.old.strings writer.new.strings }
{
    let strings = &mut writer.strings;
    let name = strings.place_of(property.name.as_bytes())?;
    let kind = strings.numbered(Numbered::Type(Some(property.kind)))?;
    let doc = strings.text(&property.doc)?;
    match &property.access {
        CoreAccess::Auto(variable) => {
            let variable = strings.numbered(Numbered::Variable(*variable))?;
            Ok(PexProperty {
                name,
                kind,
                doc,
                flags: flag_bits(property.flags),
                bits: AUTO_BITS,
                variable: Some(variable),
                read: None,
                write: None,
            })
        }
        CoreAccess::Full(read, write) => {
            let read = accessor(writer, source, property, read, READ)?;
            let write = accessor(writer, source, property, write, WRITE)?;
            Ok(PexProperty {
                name,
                kind,
                doc,
                flags: flag_bits(property.flags),
                bits: accessor_bits(read.is_some(), write.is_some()),
                variable: None,
                read,
                write,
            })
        }
    }
}

fn accessor_bits(reads: bool, writes: bool) -> u8
    ensures value { result ≡ accessor_bits reads writes }
    ensures variable { has_variable result ≡ false }
    ensures read { has_read result ≡ reads }
    ensures write { has_write result ≡ writes }
{
    match (reads, writes) {
        (false, false) => 0,
        (true, false) => 1,
        (false, true) => 2,
        (true, true) => 3,
    }
}

// The Get or the Set of a property, where it has one.
fn accessor(
    writer: &mut Writer<'_>,
    source: &Source<'_>,
    property: &CoreProperty,
    found: &Option<CoreFunction>,
    kind: u8,
) -> Result<Option<PexFunction>>
    ensures accessor { IfOk result (λ f. IfSome (option_map plain_function f) (IsShapedFunction (length writer.new.strings.strings))) }
    ensures spelled { IfOk result (λ f. Notes (length writer.new.strings.strings) (map plain_lines writer.old.debug.items) (map plain_lines writer.new.debug.items) (SpellsAccessor (origin_of source.now) writer.new.strings (part_of (origin_of source.now) [] property.now.name kind) (option_map plain_function f) (function_of_option found.now))) }
    ensures goes { GoesOn writer.old.strings writer.new.strings }
{
    let Some(found) = found else {
        return Ok(None);
    };
    let place = DebugName {
        object: source.script.name.as_bytes(),
        state: b"",
        name: property.name.as_bytes(),
        kind,
    };
    Ok(Some(function(writer, source, found, place)?))
}

fn states(
    writer: &mut Writer<'_>,
    source: &Source<'_>,
    states: &[CoreState],
) -> Result<Vec<PexState>>
    ensures states { IfOk result (λ found. AllByRecursion (IsShapedState (length writer.new.strings.strings)) (map plain_state found.items)) }
    ensures spelled { IfOk result (λ found. Notes (length writer.new.strings.strings) (map plain_lines writer.old.debug.items) (map plain_lines writer.new.debug.items) (EachWith (SpellsState (origin_of source.now) writer.new.strings) (map plain_state found.items) (map state_of states.now))) }
    ensures goes { GoesOn writer.old.strings writer.new.strings }
{
    let mut found = Vec::with_capacity(writer.strings.alloc(), states.len())?;
    for state in states {
        found.push(one_state(writer, source, state)?)?;
    }
    Ok(found)
}

fn one_state(writer: &mut Writer<'_>, source: &Source<'_>, state: &CoreState) -> Result<PexState>
    ensures state { IfOk result (λ s. IsShapedState (length writer.new.strings.strings) (plain_state s)) }
    ensures spelled { IfOk result (λ s. Notes (length writer.new.strings.strings) (map plain_lines writer.old.debug.items) (map plain_lines writer.new.debug.items) (SpellsState (origin_of source.now) writer.new.strings (plain_state s) (state_of state.now))) }
    ensures goes { GoesOn writer.old.strings writer.new.strings }
{
    let name = writer.strings.place_of(state.name.as_bytes())?;
    let functions = state_functions(writer, source, state.name.as_bytes(), &state.functions)?;
    Ok(PexState { name, functions })
}

fn state_functions(
    writer: &mut Writer<'_>,
    source: &Source<'_>,
    state: &[u8],
    functions: &[CoreFunction],
) -> Result<Vec<(u16, PexFunction)>>
    ensures functions { IfOk result (λ found. AllByRecursion (IsShapedNamed (length writer.new.strings.strings)) (map plain_named found.items)) }
    ensures spelled { IfOk result (λ found. Notes (length writer.new.strings.strings) (map plain_lines writer.old.debug.items) (map plain_lines writer.new.debug.items) (EachWith (SpellsNamed (origin_of source.now) writer.new.strings state.now) (map plain_named found.items) (map function_of functions.now))) }
    ensures goes { GoesOn writer.old.strings writer.new.strings }
{
    let mut found = Vec::with_capacity(writer.strings.alloc(), functions.len())?;
    for each in functions {
        found.push(named_function(writer, source, state, each)?)?;
    }
    Ok(found)
}

fn named_function(
    writer: &mut Writer<'_>,
    source: &Source<'_>,
    state: &[u8],
    of: &CoreFunction,
) -> Result<(u16, PexFunction)>
    ensures function { IfOk result (λ f. IsShapedNamed (length writer.new.strings.strings) (plain_named f)) }
    ensures spelled { IfOk result (λ f. Notes (length writer.new.strings.strings) (map plain_lines writer.old.debug.items) (map plain_lines writer.new.debug.items) (SpellsNamed (origin_of source.now) writer.new.strings state.now (plain_named f) (function_of of.now))) }
    ensures goes { GoesOn writer.old.strings writer.new.strings }
{
    let name = writer.strings.place_of(of.name.as_bytes())?;
    let place = DebugName {
        object: source.script.name.as_bytes(),
        state,
        name: of.name.as_bytes(),
        kind: STATE_FUNCTION,
    };
    Ok((name, function(writer, source, of, place)?))
}
