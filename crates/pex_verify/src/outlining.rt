// The outline of a script.
ghost use Rattle.std.specs.Prelude.{◌≡◌, ◌++◌, map, option_to_list, vec_len, All, IfOk, OnOk};
ghost use Rattle.std.specs.List.{filter_map};
ghost use Rattle.core_tree.specs.Outlines.{function_shape};
ghost use Rattle.pex_verify.specs.Signatures.{title_at};
ghost use Rattle.pex_verify.specs.Outlining.{loaded_shape, functions_without_state, unless_empty, auto_property, IsOutlineOf};
ghost use Rattle.pex_verify.specs.Places.{bounds_of};
ghost use Rattle.pex_verify.specs.Types.{IsTypeAmong};
ghost use Rattle.pex_verify.specs.Soundness.{IsSoundFunction, AreSoundFunctions, IsSoundProperty, IsSoundScript, AreTyped, IsOutlineProperty, IsOutlineFunction, IsSoundOutline};

use crate::judged::{JudgedFunction, JudgedProperty, JudgedScript};
use crate::scope::Home;
use crate::sources::SetFile;
use core_tree::{CoreType, OutlineFunction, OutlineProperty, OutlineScript, OutlineVariable};
use papy_base::{Made, Name};
use std::alloc::Global;

/// A script's name, parent, auto state, variables, auto properties and functions of the empty state.
pub(crate) fn outline_script(home: &Home<'_>, script: &JudgedScript) -> Made<OutlineScript>
    requires sound { IsSoundScript (bounds_of home.now) script.now }
    requires typed { AreTyped (vec_len home.now.set.now.heads) home.now.variables.now.list.items }
    ensures count { IfOk result (λ outline. vec_len outline.variables ≡ vec_len home.now.variables.now.list) }
    ensures sound { IfOk result (IsSoundOutline (vec_len home.now.set.now.heads)) }
    ensures outline { IfOk result (IsOutlineOf home.now script.now) }
{
    let source = home.source;
    Ok(OutlineScript {
        name: source.title(home.alloc, home.object.name)?,
        parent: home.set.parent_number(usize::from(home.here)),
        auto_state: name_unless_empty(home.alloc, source, home.object.auto_state)?,
        variables: outline_variables(home)?,
        properties: outline_properties(home, script.properties.as_slice())?,
        functions: outline_functions(home, empty_state(home, script))?,
    })
}

fn name_unless_empty(alloc: Global, source: &SetFile<'_>, reference: u16) -> Made<Option<Name>>
    ensures { IfOk result (λ name. name ≡ unless_empty (title_at source.now.titles.now reference)) }
{
    let name = source.title(alloc, reference)?;
    if name.as_bytes().is_empty() {
        return Ok(None);
    }
    Ok(Some(name))
}

fn outline_variables(home: &Home<'_>) -> Made<Vec<OutlineVariable>>
    requires { AreTyped (vec_len home.now.set.now.heads) home.now.variables.now.list.items }
    ensures count { IfOk result (λ found. vec_len found ≡ vec_len home.now.variables.now.list) }
    ensures typed { IfOk result (λ found. AreTyped (vec_len home.now.set.now.heads) found.items) }
    ensures same { IfOk result (λ found. found.items ≡ home.now.variables.now.list.items) }
{
    let alloc = home.alloc;
    let variables = &home.variables.list;
    let mut found = Vec::with_capacity(alloc, variables.len())?;
    for variable in variables {
        found.push(OutlineVariable {
            name: variable.name.try_clone(alloc)?,
            kind: variable.kind,
            value: variable.value.try_clone(alloc)?,
        })?;
    }
    Ok(found)
}

fn outline_properties(home: &Home<'_>, properties: &[JudgedProperty]) -> Made<Vec<OutlineProperty>>
    requires { All (IsSoundProperty (bounds_of home.now)) properties.now }
    ensures sound { IfOk result (λ found. All (IsOutlineProperty (bounds_of home.now)) found.items) }
    ensures properties { IfOk result (λ found. found.items ≡ filter_map auto_property properties.now) }
{
    let mut found = Vec::new(home.alloc);
    for property in properties {
        add_where_some(&mut found, outline_property(home, property)?)?;
    }
    Ok(found)
}

// The property, where it is an Auto property.
fn outline_property(home: &Home<'_>, property: &JudgedProperty) -> Made<Option<OutlineProperty>>
    ensures { IfOk result (λ outline. outline ≡ auto_property property.now) }
{
    match property.variable {
        Some(variable) => Ok(Some(OutlineProperty {
            name: property.name.try_clone(home.alloc)?,
            kind: property.kind,
            variable,
        })),
        None => Ok(None),
    }
}

fn add_where_some(found: &mut Vec<OutlineProperty>, property: Option<OutlineProperty>) -> Made<()>
    ensures { OnOk result (found.new.items ≡ found.old.items ++ option_to_list property) }
{
    match property {
        Some(property) => {
            found.push(property)?;
            Ok(())
        }
        None => Ok(()),
    }
}

// The functions of the state without name.
fn empty_state<'a>(home: &Home<'_>, script: &'a JudgedScript) -> &'a [JudgedFunction]
    requires { IsSoundScript (bounds_of home.now) script.now }
    ensures sound { AreSoundFunctions (bounds_of home.now) result.now }
    ensures first { result.now ≡ functions_without_state script.now.states.items }
{
    for state in &script.states {
        if state.0.as_bytes().is_empty() {
            return state.1.as_slice();
        }
    }
    &[]
}

fn outline_functions(home: &Home<'_>, functions: &[JudgedFunction]) -> Made<Vec<OutlineFunction>>
    requires { AreSoundFunctions (bounds_of home.now) functions.now }
    ensures sound { IfOk result (λ found. All (IsOutlineFunction (vec_len home.now.set.now.heads)) found.items) }
    ensures shapes { IfOk result (λ found. map function_shape found.items ≡ map loaded_shape functions.now) }
{
    let mut found = Vec::with_capacity(home.alloc, functions.len())?;
    for function in functions {
        found.push(outline_function(home, function)?)?;
    }
    Ok(found)
}

fn outline_function(home: &Home<'_>, function: &JudgedFunction) -> Made<OutlineFunction>
    requires { IsSoundFunction (bounds_of home.now) function.now }
    ensures sound { IfOk result (IsOutlineFunction (vec_len home.now.set.now.heads)) }
    ensures shape { IfOk result (λ outline. function_shape outline ≡ loaded_shape function.now) }
{
    Ok(OutlineFunction {
        name: function.name.try_clone(home.alloc)?,
        parameters: outline_parameters(home, function)?,
        result: function.result,
        is_global: function.is_global,
        is_native: function.is_native,
    })
}

fn outline_parameters(home: &Home<'_>, function: &JudgedFunction) -> Made<Vec<CoreType>>
    requires { IsSoundFunction (bounds_of home.now) function.now }
    ensures sound { IfOk result (λ parameters. All (IsTypeAmong (vec_len home.now.set.now.heads)) parameters.items) }
    ensures kinds { IfOk result (λ parameters. parameters.items ≡ map (λ p. p.1) function.now.parameters.items) }
{
    let mut parameters = Vec::with_capacity(home.alloc, function.parameters.len())?;
    for parameter in &function.parameters {
        parameters.push(parameter.1)?;
    }
    Ok(parameters)
}
