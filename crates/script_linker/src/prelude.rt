// The six scripts that every set begins with, and the four members that every script without parent has, from the rows of
// their table. Their lines and flags are 0.
ghost use Rattle.std.specs.Prelude.{◌≡◌, ◌++◌, None, [], ◌∷◌, All, IfOk, OnOk, codes, filter, is_none, map, option_map, vec_len};
ghost use Rattle.papy_base.specs.Case.{folded};
ghost use Rattle.papy_base.specs.Table.{place_of};
ghost use Rattle.script_linker.specs.Generated.{AreMembers, AreStandard, Calls, Does, HasGiven, HaveGiven, IsBody, IsMember, IsStandard, IsStatement, Pairwise, Returns, Sets, acts_of_goto, is_lacking, lacking, plain_type, standard_scripts};
ghost use Rattle.script_linker.specs.Link.{IsCompleted, AreCompleted};
ghost use Rattle.script_linker.specs.Lookup.{HasSmallScript, StartsWithPrelude, function_name};
ghost use Rattle.script_linker.specs.Rows.{acts_of, is_event, lacking_among, member_of, parameter_of, standard_of};

use crate::set::SourceFile;
use line_parser::{Constant, Expr, Heading, Parameter, TypeName};
use papy_base::{
    Made, Name, PRELUDE, STATE_MEMBERS, StandardBody, StandardFunction, StandardParameter,
    StandardScript, Text,
};
use script_lexer::Sign;
use script_parser::{Body, Function, Script, Statement, StatementForm};
use std::alloc::Global;

/// The variable that holds the name of an instance's state. No script can write this word.
const STATE_WORD: &[u8] = b"::State";

/// The scripts Debug, Utility, Scene, Form, Quest and ObjectReference, in files without a name. Form
/// has the members that every script without parent has.
pub(crate) fn prelude_files(alloc: Global) -> Made<Vec<SourceFile>>
    ensures start { IfOk result (λ files. StartsWithPrelude files.items) }
    ensures count { IfOk result (λ files. vec_len files ≡ 6) }
    ensures few { IfOk result (λ files. All HasSmallScript files.items) }
    ensures standard { IfOk result (λ files. AreStandard standard_scripts files.items) }
{
    declared_files(alloc, &PRELUDE)
}

fn declared_files(alloc: Global, rows: &[StandardScript]) -> Made<Vec<SourceFile>>
    ensures { IfOk result (λ files. AreStandard (map standard_of rows.now) files.items) }
{
    let mut files = Vec::with_capacity(alloc, rows.len())?;
    for row in rows {
        files.push(declared_file(alloc, row)?)?;
    }
    Ok(files)
}

// The script that the row declares, in a file without a name.
fn declared_file(alloc: Global, row: &StandardScript) -> Made<SourceFile>
    ensures { IfOk result (IsStandard (standard_of row.now)) }
{
    let file_name = Text::try_from_bytes(alloc, b"")?;
    let name = Name::from_bytes(alloc, row.name.as_bytes())?;
    let parent = optional_name(alloc, row.parent)?;
    let functions = file_functions(alloc, row)?;
    let script = Script {
        name,
        line: 0,
        parent,
        flags: 0,
        doc: None,
        imports: Vec::new(alloc),
        variables: Vec::new(alloc),
        properties: Vec::new(alloc),
        functions,
        states: Vec::new(alloc),
        words: 0,
    };
    Ok(SourceFile {
        name: file_name,
        script,
    })
}

// A type without parent has the members of such scripts, and any other script what its row has.
fn file_functions(alloc: Global, row: &StandardScript) -> Made<Vec<Function>>
    ensures { IfOk result (λ functions. AreMembers (standard_of row.now).members functions.items) }
{
    if row.is_library || row.parent.is_some() {
        lacking_functions(alloc, &[], row.functions)
    } else {
        lacking_members(alloc, &[])
    }
}

/// Adds to each script without parent those of the members GotoState, GetState, OnBeginState and
/// OnEndState that it doesn't declare, in this order.
pub(crate) fn add_generated(alloc: Global, files: &mut Vec<SourceFile>) -> Made<()>
    ensures completed { OnOk result (AreCompleted files.old.items files.new.items) }
    ensures given { OnOk result (HaveGiven files.old.items files.new.items) }
{
    for number in 0..files.len() {
        let file = &mut files[number];
        complete(alloc, file)?;
    }
    Ok(())
}

// Adds the members that the script lacks, where it has no parent.
fn complete(alloc: Global, file: &mut SourceFile) -> Made<()>
    ensures completed { OnOk result (IsCompleted file.old file.new) }
    ensures given { OnOk result (HasGiven file.old file.new) }
{
    if file.script.parent.is_none() {
        let mut added = lacking_members(alloc, file.script.functions.as_slice())?;
        file.script.functions.append(&mut added)?;
    }
    Ok(())
}

// Those of the four members that these functions lack.
fn lacking_members(alloc: Global, functions: &[Function]) -> Made<Vec<Function>>
    ensures { IfOk result (λ added. AreMembers (lacking functions.now) added.items) }
{
    lacking_functions(alloc, functions, &STATE_MEMBERS)
}

// What those of the rows declare whose names these functions lack.
fn lacking_functions(
    alloc: Global,
    functions: &[Function],
    rows: &[StandardFunction],
) -> Made<Vec<Function>>
    ensures { IfOk result (λ added. AreMembers (lacking_among (map member_of rows.now) functions.now) added.items) }
{
    let mut added = Vec::with_capacity(alloc, rows.len())?;
    for row in rows {
        add_lacking(&mut added, functions, declared_function(alloc, row)?)?;
    }
    Ok(added)
}

// Adds the member where no function has its name.
fn add_lacking(added: &mut Vec<Function>, functions: &[Function], member: Function) -> Made<()>
    ensures { OnOk result
        (added.new.items ≡ added.old.items ++ filter (λ made. is_lacking functions.now made.heading.name) (member ∷ [])) }
{
    if first_named(functions, &member.heading.name).is_none() {
        added.push(member)?;
    } else {
        drop(member);
    }
    Ok(())
}

// The place of the first function of this name.
fn first_named(functions: &[Function], name: &Name) -> Option<usize>
    ensures { result ≡ place_of function_name functions.now (folded name.now) }
{
    functions
        .iter()
        .position(|function| name.same(&function.heading.name))
}

// The function that the row declares. A native one is Global too.
fn declared_function(alloc: Global, row: &StandardFunction) -> Made<Function>
    ensures { IfOk result (IsMember (member_of row.now)) }
{
    let name = Name::from_bytes(alloc, row.name.as_bytes())?;
    let result_word = optional_name(alloc, row.result)?;
    let parameters = parameters(alloc, row.parameters)?;
    let body = body(alloc, row.body)?;
    let is_native = is_native(row.body);
    Ok(Function {
        heading: Heading {
            result: result_word.map(|word| plain_type(word)),
            name,
            parameters,
            is_event: is_event(row.body),
            is_global: is_native,
            is_native,
            flags: 0,
        },
        doc: None,
        body,
        line: 0,
        end_line: 0,
    })
}

fn is_native(body: StandardBody) -> bool
    ensures { result ≡ is_none (acts_of body) }
{
    matches!(body, StandardBody::Native)
}

fn is_event(body: StandardBody) -> bool
    ensures { result ≡ is_event body }
{
    matches!(body, StandardBody::EmptyEvent)
}

fn optional_name(alloc: Global, word: Option<&str>) -> Made<Option<Name>>
    ensures { IfOk result (λ name. name ≡ option_map (λ word. word.now) word.entry) }
{
    match word {
        Some(word) => Ok(Some(Name::from_bytes(alloc, word.as_bytes())?)),
        None => Ok(None),
    }
}

fn parameters(alloc: Global, rows: &[StandardParameter]) -> Made<Vec<Parameter>>
    ensures { IfOk result (λ parameters. parameters.items ≡ map parameter_of rows.now) }
{
    let mut parameters = Vec::with_capacity(alloc, rows.len())?;
    for row in rows {
        parameters.push(Parameter {
            kind: plain_type(Name::from_bytes(alloc, row.kind.as_bytes())?),
            name: Name::from_bytes(alloc, row.name.as_bytes())?,
            default: row.default.map(|value| Constant::Int(value)),
        })?;
    }
    Ok(parameters)
}

fn body(alloc: Global, body: StandardBody) -> Made<Body>
    ensures { IfOk result (IsBody (acts_of body)) }
{
    match body {
        StandardBody::Native => Ok(Body::Native),
        StandardBody::EmptyEvent => Ok(Body::Lines(Vec::new(alloc))),
        StandardBody::ChangeState => Ok(Body::Lines(goto_lines(alloc)?)),
        StandardBody::ReturnState => Ok(Body::Lines(get_lines(alloc)?)),
    }
}

// Calls OnEndState, changes the state, and calls OnBeginState.
fn goto_lines(alloc: Global) -> Made<Vec<Statement>>
    ensures { IfOk result (λ lines. Pairwise IsStatement acts_of_goto lines.items) }
{
    let mut lines = Vec::with_capacity(alloc, 3)?;
    lines.push(statement(call(alloc, b"OnEndState")?))?;
    lines.push(statement(state_change(alloc)?))?;
    lines.push(statement(call(alloc, b"OnBeginState")?))?;
    Ok(lines)
}

fn state_change(alloc: Global) -> Made<StatementForm>
    ensures { IfOk result (Does (Sets (codes "::State") (codes "asNewState"))) }
{
    let state = Name::from_bytes(alloc, STATE_WORD)?;
    let new = Name::from_bytes(alloc, b"asNewState")?;
    Ok(StatementForm::Assign {
        target: Expr::Word(state),
        sign: Sign::Assign,
        value: Expr::Word(new),
    })
}

// Returns the name of the state.
fn get_lines(alloc: Global) -> Made<Vec<Statement>>
    ensures { IfOk result (λ lines. Pairwise IsStatement (Returns (codes "::State") ∷ []) lines.items) }
{
    let state = Name::from_bytes(alloc, STATE_WORD)?;
    let line = statement(StatementForm::Return(Some(Expr::Word(state))));
    Ok(vec![in alloc; line]?)
}

// A type that is no array.
fn plain_type(word: Name) -> TypeName
    ensures { result ≡ plain_type word }
{
    TypeName {
        word,
        is_array: false,
    }
}

fn statement(form: StatementForm) -> Statement
    ensures line { result.line ≡ 0 }
    ensures form { result.form ≡ form }
{
    Statement { line: 0, form }
}

// A call without arguments as a statement.
fn call(alloc: Global, name: &[u8]) -> Made<StatementForm>
    ensures { IfOk result (Does (Calls name.now)) }
{
    Ok(StatementForm::Plain(Expr::Call {
        name: Name::from_bytes(alloc, name)?,
        arguments: Vec::new(alloc),
    }))
}
