// The outline of a set of scripts.
ghost use Rattle.std.specs.Prelude.{◌≡◌, map, flat_map, IfOk};
ghost use Rattle.core_tree.specs.Outlines.{function_shape, function_outline, variable_outline, auto_property, script_shape, script_outline};

use crate::outline::{Outline, OutlineFunction, OutlineProperty, OutlineScript, OutlineVariable};
use crate::script::{CoreAccess, CoreFunction, CoreProperty, CoreScript, CoreSet, CoreVariable};
use papy_base::{Made, Name};
use std::alloc::Global;

/// The outline of a set of scripts: of each script its name, its parent, its auto state, its
/// variables, its Auto properties and the functions of its empty state, in the order of the set.
///
/// `OutOfMemory` comes where no memory is found.
pub fn outline_of(alloc: Global, set: &CoreSet) -> Made<Outline>
    ensures { IfOk result (λ outline. map script_shape outline.scripts.items ≡ map script_outline set.now.scripts.items) }
{
    let scripts = outline_scripts(alloc, set.scripts.as_slice())?;
    Ok(Outline { scripts })
}

fn outline_scripts(alloc: Global, scripts: &[CoreScript]) -> Made<Vec<OutlineScript>>
    ensures { IfOk result (λ found. map script_shape found.items ≡ map script_outline scripts.now) }
{
    let mut found = Vec::with_capacity(alloc, scripts.len())?;
    for script in scripts {
        found.push(outline_script(alloc, script)?)?;
    }
    Ok(found)
}

fn outline_script(alloc: Global, script: &CoreScript) -> Made<OutlineScript>
    ensures { IfOk result (λ found. script_shape found ≡ script_outline script.now) }
{
    let functions = match script.states.first() {
        Some(empty) => outline_functions(alloc, empty.functions.as_slice())?,
        None => Vec::new(alloc),
    };
    Ok(OutlineScript {
        name: script.name.try_clone(alloc)?,
        parent: script.parent,
        auto_state: clone_name(alloc, &script.auto_state)?,
        variables: outline_variables(alloc, script.variables.as_slice())?,
        properties: outline_properties(alloc, script.properties.as_slice())?,
        functions,
    })
}

fn clone_name(alloc: Global, name: &Option<Name>) -> Made<Option<Name>>
    ensures { IfOk result (λ found. found ≡ name.now) }
{
    match name {
        Some(name) => Ok(Some(name.try_clone(alloc)?)),
        None => Ok(None),
    }
}

fn outline_variables(alloc: Global, variables: &[CoreVariable]) -> Made<Vec<OutlineVariable>>
    ensures { IfOk result (λ found. found.items ≡ map variable_outline variables.now) }
{
    let mut found = Vec::with_capacity(alloc, variables.len())?;
    for variable in variables {
        found.push(OutlineVariable {
            name: variable.name.try_clone(alloc)?,
            kind: variable.kind,
            value: variable.value.try_clone(alloc)?,
        })?;
    }
    Ok(found)
}

fn outline_properties(alloc: Global, properties: &[CoreProperty]) -> Made<Vec<OutlineProperty>>
    ensures { IfOk result (λ found. found.items ≡ flat_map auto_property properties.now) }
{
    let mut found = Vec::new(alloc);
    for property in properties {
        if let CoreAccess::Auto(variable) = &property.access {
            found.push(OutlineProperty {
                name: property.name.try_clone(alloc)?,
                kind: property.kind,
                variable: *variable,
            })?;
        }
    }
    Ok(found)
}

fn outline_functions(alloc: Global, functions: &[CoreFunction]) -> Made<Vec<OutlineFunction>>
    ensures { IfOk result (λ found. map function_shape found.items ≡ map function_outline functions.now) }
{
    let mut found = Vec::with_capacity(alloc, functions.len())?;
    for function in functions {
        found.push(outline_function(alloc, function)?)?;
    }
    Ok(found)
}

fn outline_function(alloc: Global, function: &CoreFunction) -> Made<OutlineFunction>
    ensures { IfOk result (λ found. function_shape found ≡ function_outline function.now) }
{
    Ok(OutlineFunction {
        name: function.name.try_clone(alloc)?,
        parameters: function.parameters.as_slice().to_vec(alloc)?,
        result: function.result,
        is_global: function.is_global,
        is_native: function.is_native,
    })
}
