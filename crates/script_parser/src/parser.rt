// From a file's lines to its script, with its members and those of its states and properties.
ghost use Rattle.std.specs.Prelude.{◌≡◌, ◌+◌, ◌^◌, ◌<◌, ◌≤◌, All, List, IfErr, IfOk, OnOk, Some, slice_get};
ghost use Rattle.script_lexer.specs.declared.line.Line.{Line};
ghost use Rattle.script_parser.specs.Faults.{IsFaultOf, IsLineOf, IsNumberOf};
ghost use Rattle.script_parser.specs.Lines.{lines_of};
ghost use Rattle.script_parser.specs.Reader.{GoesOn, IsBlockFault, StandsAt, left};
ghost use Rattle.script_parser.specs.Stands.{AccessorsStand, FunctionsStand, PropertyStands, ScriptStands};
ghost use Rattle.script_parser.specs.Words.{words_of, CountsDifferent};

use crate::block::{OPEN_LIMIT, closed_block};
use crate::fault::{BlockFault, BrokenLine, ParseFault, bad_block};
use crate::reader::{LineAt, LineReader};
use crate::script::{Body, Function, Property, PropertyForm, Script, State, Variable};
use crate::words::count_words;
use line_parser::{Access, Constant, Expr, Heading, LineForm, LineTree, TypeName};
use papy_base::{Name, Text, neg};
use script_lexer::{Keyword, Line, Lines, Sign};
use std::alloc::Global;

/// The script of a file's logical lines, whose blocks are those of the Creation Kit wiki's Papyrus
/// reference. Each of its lists is in the order of the file, and `words` counts the different byte lists
/// of the file's words, texts and documentation texts.
///
/// # Errors
/// `Broken` comes with the first bad line: `BadLine` where it has no form; `TooDeep` where over 64
/// brackets are open in it, it has over 8,000 tokens, or it is the 65th `If` or `While` that is open;
/// `BadBlock` where the innermost open block doesn't admit it, and, with the line after the last, where
/// the file ends with a block open or has no lines. `OutOfMemory` comes where no memory is found.
pub fn parse_script(alloc: Global, lines: &Lines) -> Result<Script, ParseFault>
    requires { lines.now.last + 1 < 2 ^ 32 }
    ensures words { IfOk result
        (λ script. CountsDifferent (words_of lines.now.lines.items) script.words) }
    // What the script declares stands on its lines.
    ensures lines { IfOk result (λ script. All (IsNumberOf lines.now.lines.items) (lines_of script)) }
    ensures line { IfErr result (IsFaultOf lines.now) }
{
    match script(alloc, lines.lines.as_slice()) {
        Ok(script) => Ok(script),
        Err(BlockFault::Broken(BrokenLine { at, rule })) => Err(ParseFault::Broken {
            line: line_at(lines, at),
            rule,
        }),
        Err(BlockFault::OutOfMemory) => Err(ParseFault::OutOfMemory),
    }
}

// The physical line on which the logical line at this place begins, or the one after the last.
fn line_at(lines: &Lines, at: usize) -> u32
    requires { lines.now.last + 1 < 2 ^ 32 }
    ensures line { IsLineOf lines.now result }
    ensures number { (line : Line) → slice_get lines.now.lines.items at ≡ Some line → result ≡ line.number }
{
    if at >= lines.lines.len() {
        return lines.last + 1;
    }
    lines.lines[at].number as u32
}

fn script(alloc: Global, lines: &[Line]) -> Result<Script, BlockFault>
    ensures words { IfOk result (λ script. CountsDifferent (words_of lines.now) script.words) }
    ensures stands { IfOk result (ScriptStands lines.now) }
    ensures fault { IfErr result (IsBlockFault lines.now) }
{
    let words = count_words(alloc, lines)?;
    let mut reader = LineReader::new(alloc, lines)?;
    let mut script = heading(&mut reader)?;
    'members: while let Some(first) = reader.next_form() {
        member(&mut reader, &mut script, first)?;
    }
    script.words = words;
    Ok(script)
}

// The script of the first line, without members yet and with no words counted.
fn heading(reader: &mut LineReader<'_>) -> Result<Script, BlockFault>
    ensures onward { GoesOn reader.old reader.new }
    ensures stands { IfOk result (ScriptStands reader.old.lines.now) }
    ensures fault { IfErr result (IsBlockFault reader.old.lines.now) }
{
    let alloc = reader.alloc;
    let Some(first) = reader.next() else {
        return Err(bad_block(0));
    };
    let LineTree { form, doc } = reader.tree(&first)?;
    let doc = reader.own_doc(doc)?;
    match form {
        LineForm::ScriptName {
            name,
            parent,
            flags,
        } => Ok(Script {
            name,
            line: first.line.number,
            parent,
            flags,
            doc,
            imports: Vec::new(alloc),
            variables: Vec::new(alloc),
            properties: Vec::new(alloc),
            functions: Vec::new(alloc),
            states: Vec::new(alloc),
            words: 0,
        }),
        other => {
            drop(other);
            Err(bad_block(first.at))
        }
    }
}

// Puts the member that begins with this line into the script.
fn member(
    reader: &mut LineReader<'_>,
    script: &mut Script,
    first: LineAt<'_>,
) -> Result<(), BlockFault>
    requires { StandsAt reader.old.lines.now first }
    ensures bound { OnOk result (left reader.new ≤ left reader.old) }
    ensures onward { OnOk result (GoesOn reader.old reader.new) }
    ensures fault { IfErr result (IsBlockFault reader.old.lines.now) }
    ensures stands { ScriptStands reader.old.lines.now script.old → OnOk result (ScriptStands reader.old.lines.now script.new) }
{
    let LineTree { form, doc } = reader.tree(&first)?;
    let at = first.at;
    let line = first.line.number;
    match form {
        LineForm::Import(name) => Ok(script.imports.push((line, name))?),
        LineForm::Definition {
            kind,
            name,
            value,
            flags,
        } => Ok(
            script.variables.push(Variable {
                kind,
                name,
                value: initial_value(at, value)?,
                flags,
                line,
            })?,
        ),
        LineForm::Function(heading) => {
            let function = function(reader, line, heading, doc)?;
            Ok(script.functions.push(function)?)
        }
        LineForm::State { name, is_auto } => Ok(
            script.states.push(State {
                name,
                is_auto,
                functions: functions_until(reader, Keyword::EndState)?,
                line,
            })?,
        ),
        other => {
            let property = property(reader, &first, other, doc)?;
            Ok(script.properties.push(property)?)
        }
    }
}

// The property that begins with a line of this form, which has to be that of one.
fn property(
    reader: &mut LineReader<'_>,
    first: &LineAt<'_>,
    form: LineForm,
    doc: Option<Text>,
) -> Result<Property, BlockFault>
    requires { StandsAt reader.old.lines.now first.now }
    ensures bound { OnOk result (left reader.new ≤ left reader.old) }
    ensures onward { OnOk result (GoesOn reader.old reader.new) }
    ensures fault { IfErr result (IsBlockFault reader.old.lines.now) }
    ensures stands { IfOk result (PropertyStands reader.old.lines.now) }
{
    match form {
        LineForm::Property {
            kind,
            name,
            access,
            flags,
        } => {
            let doc = reader.own_doc(doc)?;
            Ok(Property {
                kind,
                name,
                form: property_form(reader, access)?,
                doc,
                flags,
                line: first.line.number,
            })
        }
        other => {
            drop(other);
            Err(bad_block(first.at))
        }
    }
}

fn property_form(reader: &mut LineReader<'_>, access: Access) -> Result<PropertyForm, BlockFault>
    ensures bound { OnOk result (left reader.new ≤ left reader.old) }
    ensures onward { OnOk result (GoesOn reader.old reader.new) }
    ensures fault { IfErr result (IsBlockFault reader.old.lines.now) }
    ensures stands { IfOk result (AccessorsStand reader.old.lines.now) }
{
    match access {
        Access::Auto(value) => Ok(PropertyForm::Auto(value)),
        Access::ReadOnly(value) => Ok(PropertyForm::ReadOnly(value)),
        Access::Full => {
            let functions = functions_until(reader, Keyword::EndProperty)?;
            Ok(PropertyForm::Full(functions))
        }
    }
}

// The constant whose tree a variable's value is, which has to be one.
fn initial_value(at: usize, value: Option<Expr>) -> Result<Option<Constant>, BlockFault>
    ensures { (lines : List Line) → IfErr result (IsBlockFault lines) }
{
    match value {
        Some(tree) => match constant_of(tree) {
            Some(constant) => Ok(Some(constant)),
            None => Err(bad_block(at)),
        },
        None => Ok(None),
    }
}

fn constant_of(tree: Expr) -> Option<Constant> {
    match tree {
        Expr::Int(number) => Some(Constant::Int(number)),
        Expr::Bool(truth) => Some(Constant::Bool(truth)),
        Expr::Quoted(text) => Some(Constant::Quoted(text)),
        Expr::NoneValue => Some(Constant::NoneValue),
        Expr::Unary {
            sign: Sign::Minus,
            of,
        } => negated(Box::into_inner(of)),
        other => {
            drop(other);
            None
        }
    }
}

fn negated(tree: Expr) -> Option<Constant> {
    match tree {
        Expr::Int(number) => Some(Constant::Int(neg(number))),
        other => {
            drop(other);
            None
        }
    }
}

// A function with its body and its end, behind its heading.
fn function(
    reader: &mut LineReader<'_>,
    line: u16,
    heading: Heading,
    doc: Option<Text>,
) -> Result<Function, BlockFault>
    ensures bound { OnOk result (left reader.new ≤ left reader.old) }
    ensures onward { OnOk result (GoesOn reader.old reader.new) }
    ensures fault { IfErr result (IsBlockFault reader.old.lines.now) }
    ensures line { IfOk result (λ function. function.line ≡ line) }
{
    let doc = reader.own_doc(doc)?;
    if heading.is_native {
        return Ok(Function {
            heading,
            doc,
            body: Body::Native,
            line,
            end_line: line,
        });
    }
    let end = if heading.is_event {
        Keyword::EndEvent
    } else {
        Keyword::EndFunction
    };
    let (body, end_line) = closed_block(reader, end, OPEN_LIMIT)?;
    Ok(Function {
        heading,
        doc,
        body: Body::Lines(body),
        line,
        end_line,
    })
}

// The functions of a state or of a property up to the keyword that ends it. A property has at least
// one.
fn functions_until(reader: &mut LineReader<'_>, end: Keyword) -> Result<Vec<Function>, BlockFault>
    ensures bound { OnOk result (left reader.new ≤ left reader.old) }
    ensures onward { OnOk result (GoesOn reader.old reader.new) }
    ensures fault { IfErr result (IsBlockFault reader.old.lines.now) }
    ensures stands { IfOk result (λ functions. FunctionsStand reader.old.lines.now functions.items) }
{
    let mut functions = Vec::new(reader.alloc);
    'functions: loop {
        let first = reader.next_in_block()?;
        let LineTree { form, doc } = reader.tree(&first)?;
        let line = first.line.number;
        match form {
            LineForm::Function(heading) => functions.push(function(reader, line, heading, doc)?)?,
            LineForm::Key(Keyword::EndState) if end == Keyword::EndState => return Ok(functions),
            LineForm::Key(Keyword::EndProperty)
                if end == Keyword::EndProperty && !functions.is_empty() => {
                return Ok(functions);
            }
            other => {
                drop(other);
                return Err(bad_block(first.at));
            }
        }
    }
}
