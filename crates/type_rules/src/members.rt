// The variables, the properties and the states of a script, and the values with which variables and properties begin.
ghost use Rattle.std.specs.Prelude.{◌≡◌, ◌<◌, ◌++◌, All, Some, codes, map, option_map, if◌then◌else◌, IfOk, OnOk, vec_len};
ghost use Rattle.std.specs.Str.{str_eq_ignore_ascii_case};
ghost use Rattle.core_tree.specs.InRange.{AccessInRange, LiteralInRange, ResultInRange, VariableInRange};
ghost use Rattle.core_tree.specs.Set.{access_of};
ghost use Rattle.type_rules.specs.Ranges.{CoreFunctionInRange, CorePropertyInRange, CoreStateInRange, KeepsScript, WorkInRange, functions_of, known, set_of, variables_of};
ghost use Rattle.type_rules.specs.Heads.{access_head, auto_state_of, constant_get, core_access_head, core_function_head, core_property_head, core_state_head, function_head, getter, property_head, setter, state_heads};
ghost use Rattle.type_rules.specs.Heads.AccessHead.{ByFunctions};
ghost use Rattle.type_rules.specs.Variables.{core_variable_head, variable_head};
ghost use Rattle.type_scope.specs.Sources.{declaration, of_property, of_variable};

use crate::functions::{clone_text, core_function};
use crate::work::ScriptRules;
use core_tree::{
    Core, CoreAccess, CoreFunction, CoreLine, CoreProperty, CoreState, CoreStatement, CoreType,
    CoreVariable, Value,
};
use expression_rules::{TypeRule, kind_of, value_of};
use line_parser::Constant;
use papy_base::{Made, Name, OutOfMemory};
use script_parser::{Function, Property, PropertyForm, Script, State, Variable};
use std::alloc::Global;
use type_scope::{Kind, Source};

// The nodes of a Get that returns a constant: the Return and the literal.
const CONSTANT_GET_SIZE: u32 = 2;

/// The variables of the script, those of its Auto properties among them, in order of line.
pub(crate) fn core_variables(work: &mut ScriptRules<'_>) -> Made<Vec<CoreVariable>>
    ensures kept { KeepsScript work.old work.new }
    ensures heads { IfOk result (λ found. map core_variable_head found.items ≡ map (variable_head (set_of work.old)) (map declaration work.old.layout.now.sources.items)) }
    ensures count { IfOk result (λ found. vec_len found ≡ variables_of work.old) }
    ensures in_range { IfOk result (λ found. All (VariableInRange (functions_of work.old)) found.items) }
{
    let layout = work.layout;
    let mut found = Vec::with_capacity(work.catalog.alloc, layout.sources.len())?;
    for source in &layout.sources {
        found.push(source_variable(work, source)?)?;
    }
    Ok(found)
}

fn source_variable(work: &mut ScriptRules<'_>, source: &Source<'_>) -> Made<CoreVariable>
    ensures kept { KeepsScript work.old work.new }
    ensures head { IfOk result (λ made. core_variable_head made ≡ variable_head (set_of work.old) (declaration source.now)) }
    ensures in_range { IfOk result (VariableInRange (functions_of work.old)) }
{
    match *source {
        Source::Declared(variable) => declared_variable(work, variable),
        Source::Auto(property, _) => property_variable(work, property),
    }
}

fn declared_variable(work: &mut ScriptRules<'_>, variable: &Variable) -> Made<CoreVariable>
    ensures kept { KeepsScript work.old work.new }
    ensures head { IfOk result (λ made. core_variable_head made ≡ variable_head (set_of work.old) (of_variable variable.now)) }
    ensures in_range { IfOk result (VariableInRange (functions_of work.old)) }
{
    let kind = work.kind_at(variable.line, &variable.kind);
    Ok(CoreVariable {
        name: variable.name.try_clone(work.catalog.alloc)?,
        kind: known(kind),
        value: first_value(work, variable.line, &variable.value, kind)?,
        flags: variable.flags,
    })
}

// The variable in which an Auto property keeps its value.
fn property_variable(work: &mut ScriptRules<'_>, property: &Property) -> Made<CoreVariable>
    ensures kept { KeepsScript work.old work.new }
    ensures head { IfOk result (λ made. core_variable_head made ≡ variable_head (set_of work.old) (of_property property.now)) }
    ensures in_range { IfOk result (VariableInRange (functions_of work.old)) }
{
    let kind = work.kind_at(property.line, &property.kind);
    Ok(CoreVariable {
        name: variable_name(work.catalog.alloc, &property.name)?,
        kind: known(kind),
        value: property_value(work, property, kind)?,
        flags: 0,
    })
}

fn property_value(
    work: &mut ScriptRules<'_>,
    property: &Property,
    kind: Option<CoreType>,
) -> Made<Value>
    ensures kept { KeepsScript work.old work.new }
    ensures in_range { IfOk result LiteralInRange }
{
    match &property.form {
        PropertyForm::Auto(value) => first_value(work, property.line, value, kind),
        _ => Value::default_of(work.catalog.alloc, kind),
    }
}

// The name of the variable of the Auto property of this name.
fn variable_name(alloc: Global, property: &Name) -> Made<Name>
    ensures { IfOk result (λ name. name ≡ codes "::" ++ property.now ++ codes "_var") }
{
    let mut bytes = b"::".to_vec(alloc)?;
    bytes.extend_from_slice(property.as_bytes())?;
    bytes.extend_from_slice(b"_var")?;
    Name::from_bytes(alloc, bytes.as_slice())
}

/// The properties of the script, in their order.
pub(crate) fn core_properties(
    work: &mut ScriptRules<'_>,
    properties: &[Property],
) -> Made<Vec<CoreProperty>>
    ensures heads { IfOk result (λ found. map core_property_head found.items ≡ map (property_head (set_of work.old)) properties.now) }
    ensures kept { OnOk result (KeepsScript work.old work.new) }
    ensures in_range { WorkInRange work.old → IfOk result (λ found. All (CorePropertyInRange work.old) found.items) }
{
    let mut found = Vec::with_capacity(work.catalog.alloc, properties.len())?;
    for (place, property) in properties.iter().enumerate() {
        found.push(core_property(work, place, property)?)?;
    }
    Ok(found)
}

fn core_property(
    work: &mut ScriptRules<'_>,
    place: usize,
    property: &Property,
) -> Made<CoreProperty>
    ensures head { IfOk result (λ made. core_property_head made ≡ property_head (set_of work.old) property.now) }
    ensures kept { OnOk result (KeepsScript work.old work.new) }
    ensures in_range { WorkInRange work.old → IfOk result (CorePropertyInRange work.old) }
{
    let name = property.name.try_clone(work.catalog.alloc)?;
    let doc = clone_text(work.catalog.alloc, &property.doc)?;
    let kind = work.kind_at(property.line, &property.kind);
    let access = core_access(work, place, property, kind)?;
    Ok(CoreProperty {
        name,
        kind: known(kind),
        access,
        doc,
        flags: property.flags,
    })
}

// How a property of this type is read and written.
fn core_access(
    work: &mut ScriptRules<'_>,
    place: usize,
    property: &Property,
    kind: Option<CoreType>,
) -> Made<CoreAccess>
    ensures head { IfOk result (λ access. core_access_head access ≡ access_head (set_of work.old) (known kind) property.now.line property.now.form) }
    ensures kept { OnOk result (KeepsScript work.old work.new) }
    ensures in_range { WorkInRange work.old → ResultInRange (functions_of work.old) kind →
        IfOk result (λ access. AccessInRange (functions_of work.old) (variables_of work.old) (access_of access)) }
{
    match &property.form {
        // The layout has a variable for each such property.
        PropertyForm::Auto(_) => match work.layout.auto_variable(place) {
            Some(variable) => Ok(CoreAccess::Auto(variable)),
            None => Err(OutOfMemory),
        },
        PropertyForm::ReadOnly(constant) => {
            let get = constant_get(work, property.line, constant, kind)?;
            Ok(CoreAccess::Full(Some(get), None))
        }
        PropertyForm::Full(functions) => full_access(work, functions.as_slice()),
    }
}

// The Get of an AutoReadOnly property, which stands on the property's line.
fn constant_get(
    work: &mut ScriptRules<'_>,
    line: u16,
    constant: &Constant,
    kind: Option<CoreType>,
) -> Made<CoreFunction>
    ensures head { IfOk result (λ made. core_function_head made ≡ constant_get (known kind) line) }
    ensures kept { OnOk result (KeepsScript work.old work.new) }
    ensures in_range { ResultInRange (functions_of work.old) kind → IfOk result (CoreFunctionInRange work.old) }
{
    let alloc = work.catalog.alloc;
    let value = constant_value(work, line, constant, kind)?;
    let mut body = Vec::with_capacity(alloc, 1)?;
    body.push(CoreLine {
        line,
        form: CoreStatement::Return(Some(Core::Lit(value))),
    })?;
    work.note_size(line, CONSTANT_GET_SIZE);
    Ok(CoreFunction {
        name: Name::from_bytes(alloc, b"Get")?,
        parameters: Vec::new(alloc),
        locals: Vec::new(alloc),
        result: Some(known(kind)),
        is_global: false,
        is_native: false,
        doc: None,
        flags: 0,
        body,
        end_line: line,
    })
}

// The functions of a full property, at most one Get and one Set.
#[derive(Drop)]
struct Accessors {
    read: Option<CoreFunction>,
    write: Option<CoreFunction>,
}

impl Accessors {
    fn add(&mut self, made: CoreFunction)
        ensures read { self.new.read ≡ (if str_eq_ignore_ascii_case made.name (codes "Get") then Some made else self.old.read) }
        ensures write { self.new.write ≡ (if str_eq_ignore_ascii_case made.name (codes "Get") then self.old.write else Some made) }
    {
        if is_get(&made.name) {
            self.read = Some(made);
        } else {
            self.write = Some(made);
        }
    }
}

fn is_get(name: &Name) -> bool
    ensures { result ≡ str_eq_ignore_ascii_case name.now (codes "Get") }
{
    name.as_bytes().eq_ignore_ascii_case(b"Get")
}

fn full_access(work: &mut ScriptRules<'_>, functions: &[Function]) -> Made<CoreAccess>
    ensures head { IfOk result (λ access. core_access_head access
        ≡ ByFunctions (option_map (function_head (set_of work.old)) (getter functions.now)) (option_map (function_head (set_of work.old)) (setter functions.now))) }
    ensures kept { OnOk result (KeepsScript work.old work.new) }
    ensures in_range { WorkInRange work.old → IfOk result (λ access. AccessInRange (functions_of work.old) (variables_of work.old) (access_of access)) }
{
    let mut found = Accessors {
        read: None,
        write: None,
    };
    for function in functions {
        let made = core_function(work, function)?;
        found.add(made);
    }
    Ok(CoreAccess::Full(found.read, found.write))
}

/// The states of the script, the empty state first.
pub(crate) fn core_states(work: &mut ScriptRules<'_>, script: &Script) -> Made<Vec<CoreState>>
    ensures heads { IfOk result (λ found. map core_state_head found.items ≡ state_heads (set_of work.old) script.now) }
    ensures kept { OnOk result (KeepsScript work.old work.new) }
    ensures in_range { WorkInRange work.old → IfOk result (λ found. All (CoreStateInRange work.old) found.items) }
{
    let alloc = work.catalog.alloc;
    let mut found = Vec::with_capacity(alloc, script.states.len())?;
    let empty = Name::from_bytes(alloc, b"")?;
    found.push(core_state(work, empty, script.functions.as_slice())?)?;
    for state in &script.states {
        let name = state.name.try_clone(alloc)?;
        found.push(core_state(work, name, state.functions.as_slice())?)?;
    }
    Ok(found)
}

fn core_state(work: &mut ScriptRules<'_>, name: Name, functions: &[Function]) -> Made<CoreState>
    ensures head { IfOk result (λ made. core_state_head made ≡ record { name = name; functions = map (function_head (set_of work.old)) functions.now }) }
    ensures kept { OnOk result (KeepsScript work.old work.new) }
    ensures in_range { WorkInRange work.old → IfOk result (CoreStateInRange work.old) }
{
    let functions = core_functions(work, functions)?;
    Ok(CoreState { name, functions })
}

// The functions of a state, in their order.
fn core_functions(work: &mut ScriptRules<'_>, functions: &[Function]) -> Made<Vec<CoreFunction>>
    ensures heads { IfOk result (λ found. map core_function_head found.items ≡ map (function_head (set_of work.old)) functions.now) }
    ensures kept { OnOk result (KeepsScript work.old work.new) }
    ensures in_range { WorkInRange work.old → IfOk result (λ found. All (CoreFunctionInRange work.old) found.items) }
{
    let mut found = Vec::with_capacity(work.catalog.alloc, functions.len())?;
    for function in functions {
        found.push_reserved(core_function(work, function)?);
    }
    Ok(found)
}

/// The name of the first Auto state.
pub(crate) fn auto_state(alloc: Global, states: &[State]) -> Made<Option<Name>>
    ensures { IfOk result (λ found. found ≡ auto_state_of states.now) }
{
    for state in states {
        if state.is_auto {
            return Ok(Some(state.name.try_clone(alloc)?));
        }
    }
    Ok(None)
}

// The value that a constant at this line gives a thing of this type, or without a constant the one
// with which such things begin. A constant of another type breaks K6, but None fits each script type
// and array type.
fn first_value(
    work: &mut ScriptRules<'_>,
    line: u16,
    constant: &Option<Constant>,
    kind: Option<CoreType>,
) -> Made<Value>
    ensures kept { KeepsScript work.old work.new }
    ensures in_range { IfOk result LiteralInRange }
{
    match constant {
        Some(constant) => constant_value(work, line, constant, kind),
        None => Value::default_of(work.catalog.alloc, kind),
    }
}

// The value that a constant at this line gives a thing of this type.
fn constant_value(
    work: &mut ScriptRules<'_>,
    line: u16,
    constant: &Constant,
    kind: Option<CoreType>,
) -> Made<Value>
    ensures kept { KeepsScript work.old work.new }
    ensures in_range { IfOk result LiteralInRange }
{
    let value = value_of(work.catalog.alloc, constant)?;
    if !is_value_of(kind_of(constant), kind) {
        work.fault(line, TypeRule::NoConversion);
    }
    Ok(value)
}

// Whether a constant of this kind is a value of the type as it stands. All are of an unknown type.
fn is_value_of(given: Kind, kind: Option<CoreType>) -> bool {
    match kind {
        Some(kind) => given == Kind::Of(kind) || (given == Kind::NoneLiteral && kind.holds_none()),
        None => true,
    }
}

/// A type, or where it isn't known some type of a tree that nobody uses.
pub(crate) fn known(kind: Option<CoreType>) -> CoreType
    ensures { result ≡ known kind }
{
    match kind {
        Some(kind) => kind,
        None => CoreType::Int,
    }
}
