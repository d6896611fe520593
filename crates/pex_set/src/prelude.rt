// The scripts that every set has, and the members of every script without parent.
ghost use Rattle.std.specs.Prelude.{◌≡◌, vec_len, map, position, bytes_eq, All, IfOk};
ghost use Rattle.pex_meaning.specs.Prelude.{prelude, members};
ghost use Rattle.pex_values.specs.Plain.{plain, plain_function, plain_instruction, plain_named, plain_object, plain_state};
ghost use Rattle.papy_base.specs.declared.prelude.StandardBody.TheVariants.{ChangeState, ReturnState};
ghost use Rattle.pex_set.specs.Plain.{HasNoProperties};
ghost use Rattle.pex_set.specs.Rows.{reference_in, word_in, parameter_in, instruction_in, bits_of, locals_in, code_in, function_in, named_in, states_in, object_in};

use papy_base::{
    Made, PRELUDE, STATE_MEMBERS, StandardBody, StandardFunction, StandardParameter,
    StandardScript, Text,
};
use pex_values::{
    ASSIGN, CALL_METHOD, Datum, Instruction, Pex, PexFunction, PexObject, PexState, RETURN,
    SizeForm,
};
use std::alloc::Global;

/// What stands before the files of a set.
#[derive(Drop)]
pub struct Prelude {
    /// The scripts of the prelude, as a file.
    pub file: Pex,
    /// GotoState, GetState, OnBeginState and OnEndState, with references into the strings of `file`.
    pub members: Vec<(u16, PexFunction)>,
}

// The string table: each string once, in the order in which they are first used.
#[rattlefmt::skip]
static STRINGS: [&str; 27] = [
    "", "Debug", "Trace", "None", "asTextToPrint", "String", "aiSeverity", "Int", "Utility", "RandomInt", "aiMin",
    "aiMax", "Scene", "Sleep", "turns", "Form", "Quest", "OnInit", "ObjectReference", "GotoState", "asNewState",
    "::NoneVar", "OnEndState", "self", "::State", "OnBeginState", "GetState",
];

// The reference to the empty string.
const EMPTY: u16 = 0;

// The bits of a global native function.
const GLOBAL_NATIVE: u8 = 3;

impl Prelude {
    /// The prelude's six scripts and the four members.
    pub fn new(alloc: Global) -> Made<Prelude>
        ensures file { IfOk result (λ made. plain made.file ≡ prelude) }
        ensures members { IfOk result (λ made. map plain_named made.members.items ≡ members) }
        ensures objects { IfOk result (λ made. vec_len made.file.objects ≡ 6) }
        ensures plain { IfOk result (λ made. All HasNoProperties made.file.objects.items) }
    {
        let strings = strings(alloc, &STRINGS)?;
        let members = functions(alloc, strings.as_slice(), &STATE_MEMBERS)?;
        let objects = objects(alloc, strings.as_slice(), &PRELUDE)?;
        let file = Pex {
            minor: 2,
            time: 0,
            source: Text::try_from_bytes(alloc, &[])?,
            user: Text::try_from_bytes(alloc, &[])?,
            machine: Text::try_from_bytes(alloc, &[])?,
            strings,
            debug: None,
            user_flags: Vec::new(alloc),
            objects,
        };
        Ok(Prelude { file, members })
    }
}

fn strings(alloc: Global, words: &[&str]) -> Made<Vec<Text>>
    ensures { IfOk result (λ strings. strings.items ≡ map (λ word. word.now) words.now) }
{
    let mut strings = Vec::with_capacity(alloc, words.len())?;
    for word in words {
        strings.push(Text::try_from_bytes(alloc, word.as_bytes())?)?;
    }
    Ok(strings)
}

// The reference to a word.
fn reference(strings: &[Text], word: &str) -> u16
    ensures { result ≡ reference_in strings.now word.now }
{
    let place = place_of(strings, word).unwrap_or(strings.len());
    place.min(usize::from(u16::MAX)) as u16
}

fn place_of(strings: &[Text], word: &str) -> Option<usize>
    ensures { result ≡ position (bytes_eq word.now) strings.now }
{
    strings.iter().position(|string| is_word(string, word))
}

fn is_word(string: &Text, word: &str) -> bool
    ensures { result ≡ bytes_eq word.now string.now }
{
    word.as_bytes() == string.as_bytes()
}

// The word, or another one where there is none.
fn word_or(word: Option<&'static str>, other: &'static str) -> &'static str
    ensures { result.now ≡ word_in word.entry other.now }
{
    match word {
        Some(word) => word,
        None => other,
    }
}

fn objects(alloc: Global, strings: &[Text], rows: &[StandardScript]) -> Made<Vec<PexObject>>
    ensures objects { IfOk result (λ objects. map plain_object objects.items ≡ map (object_in strings.now) rows.now) }
    ensures plain { IfOk result (λ objects. All HasNoProperties objects.items) }
{
    let mut objects = Vec::with_capacity(alloc, rows.len())?;
    for row in rows {
        objects.push(object(alloc, strings, row)?)?;
    }
    Ok(objects)
}

fn object(alloc: Global, strings: &[Text], script: &StandardScript) -> Made<PexObject>
    ensures object { IfOk result (λ object. plain_object object ≡ object_in strings.now script.now) }
    ensures plain { IfOk result HasNoProperties }
{
    Ok(PexObject {
        name: reference(strings, script.name),
        size_form: SizeForm::Counted,
        parent: reference(strings, word_or(script.parent, "")),
        doc: EMPTY,
        flags: 0,
        auto_state: EMPTY,
        variables: Vec::new(alloc),
        properties: Vec::new(alloc),
        states: states(alloc, strings, script.functions)?,
    })
}

// The empty state with these functions, and no state where there are none.
fn states(alloc: Global, strings: &[Text], rows: &[StandardFunction]) -> Made<Vec<PexState>>
    ensures { IfOk result (λ states. map plain_state states.items ≡ states_in strings.now rows.now) }
{
    let mut states = Vec::new(alloc);
    if !rows.is_empty() {
        states.push(PexState {
            name: EMPTY,
            functions: functions(alloc, strings, rows)?,
        })?;
    }
    Ok(states)
}

fn functions(
    alloc: Global,
    strings: &[Text],
    rows: &[StandardFunction],
) -> Made<Vec<(u16, PexFunction)>>
    ensures { IfOk result (λ functions. map plain_named functions.items ≡ map (named_in strings.now) rows.now) }
{
    let mut functions = Vec::with_capacity(alloc, rows.len())?;
    for row in rows {
        let function = function(alloc, strings, row)?;
        functions.push((reference(strings, row.name), function))?;
    }
    Ok(functions)
}

fn function(alloc: Global, strings: &[Text], row: &StandardFunction) -> Made<PexFunction>
    ensures { IfOk result (λ function. plain_function function ≡ function_in strings.now row.now) }
{
    Ok(PexFunction {
        result: reference(strings, word_or(row.result, "None")),
        doc: EMPTY,
        flags: 0,
        bits: bits_of_body(row.body),
        parameters: parameters(alloc, strings, row.parameters)?,
        locals: locals(alloc, strings, row.body)?,
        code: code(alloc, strings, row.body)?,
    })
}

fn bits_of_body(body: StandardBody) -> u8
    ensures { result ≡ bits_of body }
{
    match body {
        StandardBody::Native => GLOBAL_NATIVE,
        StandardBody::EmptyEvent => 0,
        StandardBody::ChangeState => 0,
        StandardBody::ReturnState => 0,
    }
}

fn parameters(alloc: Global, strings: &[Text], rows: &[StandardParameter]) -> Made<Vec<(u16, u16)>>
    ensures { IfOk result (λ parameters. parameters.items ≡ map (parameter_in strings.now) rows.now) }
{
    let mut parameters = Vec::with_capacity(alloc, rows.len())?;
    for row in rows {
        parameters.push((reference(strings, row.name), reference(strings, row.kind)))?;
    }
    Ok(parameters)
}

// The calls that change the state have a local for their result.
fn locals(alloc: Global, strings: &[Text], body: StandardBody) -> Made<Vec<(u16, u16)>>
    ensures { IfOk result (λ locals. locals.items ≡ locals_in strings.now body) }
{
    let mut locals = Vec::new(alloc);
    if matches!(body, StandardBody::ChangeState) {
        locals.push((reference(strings, "::NoneVar"), reference(strings, "None")))?;
    }
    Ok(locals)
}

fn code(alloc: Global, strings: &[Text], body: StandardBody) -> Made<Vec<Instruction>>
    ensures { IfOk result (λ code. map plain_instruction code.items ≡ code_in strings.now body) }
{
    match body {
        StandardBody::Native => Ok(Vec::new(alloc)),
        StandardBody::EmptyEvent => Ok(Vec::new(alloc)),
        StandardBody::ChangeState => change_state(alloc, strings),
        StandardBody::ReturnState => return_state(alloc, strings),
    }
}

// Calls OnEndState, changes the state, and calls OnBeginState.
fn change_state(alloc: Global, strings: &[Text]) -> Made<Vec<Instruction>>
    ensures { IfOk result (λ code. map plain_instruction code.items ≡ code_in strings.now ChangeState) }
{
    let end = ["OnEndState", "self", "::NoneVar"];
    let begin = ["OnBeginState", "self", "::NoneVar"];
    let mut code = Vec::with_capacity(alloc, 3)?;
    code.push(instruction(alloc, strings, CALL_METHOD, &end)?)?;
    code.push(instruction(alloc, strings, ASSIGN, &["::State", "asNewState"])?)?;
    code.push(instruction(alloc, strings, CALL_METHOD, &begin)?)?;
    Ok(code)
}

fn return_state(alloc: Global, strings: &[Text]) -> Made<Vec<Instruction>>
    ensures { IfOk result (λ code. map plain_instruction code.items ≡ code_in strings.now ReturnState) }
{
    let mut code = Vec::with_capacity(alloc, 1)?;
    code.push(instruction(alloc, strings, RETURN, &["::State"])?)?;
    Ok(code)
}

// An instruction of which each operand is a name.
fn instruction(alloc: Global, strings: &[Text], opcode: u8, names: &[&str]) -> Made<Instruction>
    ensures { IfOk result (λ made. plain_instruction made ≡ instruction_in strings.now opcode (map (λ name. name.now) names.now)) }
{
    let mut fixed = Vec::with_capacity(alloc, names.len())?;
    for name in names {
        fixed.push(Datum::Word(reference(strings, *name)))?;
    }
    Ok(Instruction {
        opcode,
        fixed,
        more: Vec::new(alloc),
    })
}
