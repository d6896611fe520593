// The statements of a function, with their words resolved and their conversions written out.
ghost use Rattle.std.specs.Prelude.{IfOk, OnOk};
ghost use Rattle.core_tree.specs.InRange.{BlockInRange, BranchesInRange, ResultInRange};
ghost use Rattle.core_tree.specs.Tree.{block_of, branches_of};
ghost use Rattle.expression_rules.specs.Ranges.{CoreInRange, FormInRange};
ghost use Rattle.expression_rules.specs.Scopes.{Keeps, ScopeInRange, scope_bounds};
ghost use Rattle.type_rules.specs.Ranges.{Grows, PromiseInRange};

use core_tree::{Core, CoreLine, CoreStatement, CoreType, Value};
use expression_rules::{Scope, TypeRule};
use line_parser::{Expr, TypeName};
use papy_base::{Made, Name, OutOfMemory};
use script_parser::{Statement, StatementForm};

/// The most blocks that stand inside each other: the body of a function, and 64 `If` and `While` in it.
pub(crate) const BLOCK_LIMIT: u8 = 65;

/// What a function's Return gives.
#[derive(Clone, Copy, PartialEq, Eq)]
pub(crate) enum Promise {
    Nothing,
    /// A value of this type, where the type is known.
    Value(Option<CoreType>),
}

/// The statements in a row. At most `depth` blocks may stand inside each other, this one among them.
/// Their locals are seen up to their end. Parsed statements never pass the limit of blocks.
#[cycle(block)]
pub(crate) fn core_block(
    scope: &mut Scope<'_>,
    statements: &[Statement],
    promise: Promise,
    depth: u8,
) -> Made<Vec<CoreLine>>
    ensures grows { OnOk result (Grows scope.old scope.new) }
    ensures in_range { ScopeInRange scope.old → PromiseInRange (scope_bounds scope.old).functions promise →
        IfOk result (λ lines. BlockInRange (scope_bounds scope.new) (block_of lines.items)) }
{
    let Some(inner) = depth.checked_sub(1) else {
        return Err(OutOfMemory);
    };
    let mark = scope.locals.mark();
    let mut found = Vec::with_capacity(scope.catalog.alloc, statements.len())?;
    for statement in statements {
        scope.line = statement.line;
        found.push_reserved(CoreLine {
            line: statement.line,
            form: core_statement(scope, &statement.form, promise, inner)?,
        });
    }
    scope.locals.close(mark);
    Ok(found)
}

#[cycle(block)]
fn core_statement(
    scope: &mut Scope<'_>,
    form: &StatementForm,
    promise: Promise,
    depth: u8,
) -> Made<CoreStatement>
    ensures grows { OnOk result (Grows scope.old scope.new) }
    ensures in_range { ScopeInRange scope.old → PromiseInRange (scope_bounds scope.old).functions promise →
        IfOk result (FormInRange (scope_bounds scope.new)) }
{
    match form {
        StatementForm::Definition { kind, name, value } => definition(scope, kind, name, value),
        StatementForm::Assign {
            target,
            sign,
            value,
        } => scope.assign(target, *sign, value),
        StatementForm::Plain(tree) => Ok(CoreStatement::Plain(scope.any(tree)?)),
        StatementForm::Return(value) => return_statement(scope, value, promise),
        StatementForm::If { tests, otherwise } => {
            let tests = branches(scope, tests.as_slice(), promise, depth)?;
            let otherwise = core_block(scope, otherwise.as_slice(), promise, depth)?;
            Ok(CoreStatement::If(tests, otherwise))
        }
        StatementForm::While {
            test,
            body,
            end_line,
        } => {
            let test = scope.truth(test)?;
            let body = core_block(scope, body.as_slice(), promise, depth)?;
            Ok(CoreStatement::While(test, body, *end_line))
        }
    }
}

// The tests of an `If`, each with the statements that follow it.
#[cycle(block)]
fn branches(
    scope: &mut Scope<'_>,
    tests: &[(u16, Expr, Vec<Statement>)],
    promise: Promise,
    depth: u8,
) -> Made<Vec<(u16, Core, Vec<CoreLine>)>>
    ensures grows { OnOk result (Grows scope.old scope.new) }
    ensures in_range { ScopeInRange scope.old → PromiseInRange (scope_bounds scope.old).functions promise →
        IfOk result (λ tests. BranchesInRange (scope_bounds scope.new) (branches_of tests.items)) }
{
    let mut found = Vec::with_capacity(scope.catalog.alloc, tests.len())?;
    for (line, test, body) in tests {
        scope.line = *line;
        let test = scope.truth(test)?;
        let body = core_block(scope, body.as_slice(), promise, depth)?;
        found.push_reserved((*line, test, body));
    }
    Ok(found)
}

// A local, which is seen from its own line on, so in its own value too.
fn definition(
    scope: &mut Scope<'_>,
    kind: &TypeName,
    name: &Name,
    value: &Option<Expr>,
) -> Made<CoreStatement>
    ensures grows { OnOk result (Grows scope.old scope.new) }
    ensures in_range { ScopeInRange scope.old → IfOk result (FormInRange (scope_bounds scope.new)) }
{
    let kind = scope.kind_named(kind);
    let number = scope.new_local(name, kind)?;
    let value = local_value(scope, value, kind)?;
    Ok(CoreStatement::SetLocal(number, value))
}

// The value that is written, or where none is that of the type.
fn local_value(scope: &mut Scope<'_>, value: &Option<Expr>, kind: Option<CoreType>) -> Made<Core>
    ensures kept { Keeps scope.old scope.new }
    ensures in_range { ScopeInRange scope.old → ResultInRange (scope_bounds scope.old).functions kind → IfOk result (CoreInRange (scope_bounds scope.old)) }
{
    match value {
        Some(tree) => scope.value_as(tree, kind),
        None => Ok(Core::Lit(Value::default_of(scope.catalog.alloc, kind)?)),
    }
}

// A value stands exactly in the functions with a result, else K10.
fn return_statement(
    scope: &mut Scope<'_>,
    value: &Option<Expr>,
    promise: Promise,
) -> Made<CoreStatement>
    ensures kept { Keeps scope.old scope.new }
    ensures in_range { ScopeInRange scope.old → PromiseInRange (scope_bounds scope.old).functions promise → IfOk result (FormInRange (scope_bounds scope.old)) }
{
    match (value, promise) {
        (None, Promise::Nothing) => Ok(CoreStatement::Return(None)),
        (Some(tree), Promise::Value(kind)) => {
            Ok(CoreStatement::Return(Some(scope.value_as(tree, kind)?)))
        }
        (None, Promise::Value(_)) => {
            scope.fault(TypeRule::ReturnValue);
            Ok(CoreStatement::Return(None))
        }
        (Some(tree), Promise::Nothing) => {
            scope.fault(TypeRule::ReturnValue);
            Ok(CoreStatement::Return(Some(scope.any(tree)?)))
        }
    }
}
