// Functions, with their parameters and statements judged.
ghost use Rattle.std.specs.Prelude.{◌≡◌, ◌≤◌, [], ◌∷◌, ◌++◌, All, List, map, option_map, vec_len, IfOk, OnOk};
ghost use Rattle.core_tree.specs.InRange.{BlockInRange, FunctionInRange, TypeInRange};
ghost use Rattle.core_tree.specs.Set.{function_of};
ghost use Rattle.core_tree.specs.Tree.{block_of};
ghost use Rattle.expression_rules.specs.Scopes.{Keeps, ScopeInRange, scope_bounds};
ghost use Rattle.type_rules.specs.Ranges.{CoreFunctionInRange, Grows, KeepsScript, PromiseInRange, WorkInRange, known, promised, scope_set, set_of};
ghost use Rattle.script_linker.specs.declared.set.SourceFile.{SourceFile};
ghost use Rattle.type_rules.specs.Heads.{core_function_head, function_head, parameter_type, type_in};
ghost use Rattle.type_scope.specs.Types.{type_named};

use crate::members::known;
use crate::sizes::function_size;
use crate::statements::{BLOCK_LIMIT, Promise, core_block};
use crate::work::ScriptRules;
use core_tree::{CoreFunction, CoreLine, CoreType};
use expression_rules::{Scope, TypeRule, default_fits};
use line_parser::{Constant, Parameter, TypeName};
use papy_base::{Made, Text};
use script_parser::{Body, Function};
use std::alloc::Global;

/// A function. What its heading breaks is noted at its line, what its statements break at theirs.
pub(crate) fn core_function(work: &mut ScriptRules<'_>, function: &Function) -> Made<CoreFunction>
    ensures head { IfOk result (λ made. core_function_head made ≡ function_head (set_of work.old) function.now) }
    ensures kept { OnOk result (KeepsScript work.old work.new) }
    ensures in_range { WorkInRange work.old → IfOk result (CoreFunctionInRange work.old) }
{
    let heading = &function.heading;
    let mut scope = work.open_scope(heading.is_global, function.line);
    let promise = promise_of(&mut scope, &heading.result);
    add_parameters(&mut scope, heading.parameters.as_slice())?;
    let kinds = scope.locals.kinds.as_slice();
    let parameters = known_types(scope.catalog.alloc, kinds)?;
    let body = core_body(&mut scope, &function.body, promise)?;
    let made = assemble(function, &scope, promise, parameters, body)?;
    let size = function_size(&made);
    work.close_scope(scope.into_notes(), function.line, size);
    Ok(made)
}

fn promise_of(scope: &mut Scope<'_>, result_type: &Option<TypeName>) -> Promise
    ensures promised { promised result ≡ option_map (type_in (scope_set scope.old)) result_type.now }
    ensures kept { Keeps scope.old scope.new }
    ensures in_range { PromiseInRange (scope_bounds scope.old).functions result }
{
    match result_type {
        Some(name) => Promise::Value(scope.kind_named(name)),
        None => Promise::Nothing,
    }
}

fn add_parameters(scope: &mut Scope<'_>, parameters: &[Parameter]) -> Made<()>
    ensures grows { OnOk result (Grows scope.old scope.new) }
    ensures added { OnOk result (map known scope.new.locals.kinds.items ≡ map known scope.old.locals.kinds.items ++ map (parameter_type (scope_set scope.old)) parameters.now) }
{
    for parameter in parameters {
        add_parameter(scope, parameter)?;
    }
    Ok(())
}

fn add_parameter(scope: &mut Scope<'_>, parameter: &Parameter) -> Made<()>
    ensures grows { OnOk result (Grows scope.old scope.new) }
    ensures added { OnOk result (scope.new.locals.kinds.items ≡ scope.old.locals.kinds.items ++ type_named (scope_set scope.old) parameter.now.kind ∷ []) }
{
    let kind = scope.kind_named(&parameter.kind);
    let _number = scope.new_local(&parameter.name, kind)?;
    judge_default(scope, &parameter.default, kind);
    Ok(())
}

// A default that doesn't convert to its parameter's type by itself breaks K6.
fn judge_default(scope: &mut Scope<'_>, default: &Option<Constant>, kind: Option<CoreType>)
    ensures { Keeps scope.old scope.new }
{
    if let Some(default) = default {
        if !default_fits(scope.catalog, default, kind) {
            scope.fault(TypeRule::NoConversion);
        }
    }
}

fn core_body(scope: &mut Scope<'_>, body: &Body, promise: Promise) -> Made<Vec<CoreLine>>
    ensures grows { OnOk result (Grows scope.old scope.new) }
    ensures in_range { ScopeInRange scope.old → PromiseInRange (scope_bounds scope.old).functions promise →
        IfOk result (λ lines. BlockInRange (scope_bounds scope.new) (block_of lines.items)) }
{
    match body {
        Body::Native => Ok(Vec::new(scope.catalog.alloc)),
        Body::Lines(statements) => {
            core_block(scope, statements.as_slice(), promise, BLOCK_LIMIT)
        }
    }
}

// The types behind those of the parameters are those of the locals.
fn assemble(
    function: &Function,
    scope: &Scope<'_>,
    promise: Promise,
    parameters: Vec<CoreType>,
    body: Vec<CoreLine>,
) -> Made<CoreFunction>
    ensures in_range { ScopeInRange scope.now → vec_len parameters ≤ vec_len scope.now.locals.kinds → All (TypeInRange (scope_bounds scope.now).functions) parameters.items →
        PromiseInRange (scope_bounds scope.now).functions promise → BlockInRange (scope_bounds scope.now) (block_of body.items) →
        IfOk result (λ made. FunctionInRange (scope_bounds scope.now).functions (scope_bounds scope.now).variables (function_of made)) }
    ensures head { (set : List SourceFile) → parameters.items ≡ map (parameter_type set) function.now.heading.parameters.items →
        promised promise ≡ option_map (type_in set) function.now.heading.result → IfOk result (λ made. core_function_head made ≡ function_head set function.now) }
{
    let alloc = scope.catalog.alloc;
    let heading = &function.heading;
    let kinds = scope.locals.kinds.as_slice();
    let (_, locals) = kinds.split_at(parameters.len().min(kinds.len()));
    Ok(CoreFunction {
        name: heading.name.try_clone(alloc)?,
        parameters,
        locals: known_types(alloc, locals)?,
        result: result_of(promise),
        is_global: heading.is_global,
        is_native: heading.is_native,
        doc: clone_text(alloc, &function.doc)?,
        flags: heading.flags,
        body,
        end_line: function.end_line,
    })
}

fn known_types(alloc: Global, kinds: &[Option<CoreType>]) -> Made<Vec<CoreType>>
    ensures { IfOk result (λ found. found.items ≡ map known kinds.now) }
{
    let mut found = Vec::with_capacity(alloc, kinds.len())?;
    for kind in kinds {
        found.push_reserved(known(*kind));
    }
    Ok(found)
}

fn result_of(promise: Promise) -> Option<CoreType>
    ensures { result ≡ promised promise }
{
    match promise {
        Promise::Nothing => None,
        Promise::Value(kind) => Some(known(kind)),
    }
}

/// An equal text, where there is one.
pub(crate) fn clone_text(alloc: Global, text: &Option<Text>) -> Made<Option<Text>>
    ensures { IfOk result (λ found. found ≡ text.now) }
{
    match text {
        Some(text) => Ok(Some(text.try_clone(alloc)?)),
        None => Ok(None),
    }
}
