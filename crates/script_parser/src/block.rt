// The statements of a function, and the blocks inside them.
ghost use Rattle.std.specs.Prelude.{◌≡◌, ◌+◌, ◌<◌, ◌≤◌, List, IfErr, IfOk, OnOk};
ghost use Rattle.script_lexer.specs.declared.line.Line.{Line};
ghost use Rattle.script_parser.specs.Reader.{BlockAt, GoesOn, IsBlockFault, blocks_before, left};

use crate::fault::{BlockFault, BrokenLine, bad_block};
use crate::reader::LineReader;
use crate::script::{Statement, StatementForm};
use line_parser::{Expr, LineForm, LineRule, LineTree};
use script_lexer::Keyword;

/// The most `If` and `While` that may be open.
pub(crate) const OPEN_LIMIT: u8 = 64;

// Statements in a row, and the line that ends them: its form, the first that is none of a statement, its place and its number.
type Block = (Vec<Statement>, LineForm, usize, u16);

// The statements up to the line that ends them. At most `depth` blocks may be open in them.
#[cycle(statements)]
fn statements(reader: &mut LineReader<'_>, depth: u8) -> Result<Block, BlockFault>
    requires { 64 ≤ blocks_before reader.old + depth }
    ensures nearer { OnOk result (left reader.new < left reader.old) }
    ensures onward { OnOk result (GoesOn reader.old reader.new) }
    ensures fault { IfErr result (IsBlockFault reader.old.lines.now) }
{
    let mut found = Vec::new(reader.alloc);
    'lines: loop {
        let first = reader.next_in_block()?;
        let LineTree { form, doc } = reader.tree(&first)?;
        drop(doc);
        let at = first.at;
        let line = first.line.number;
        let form = match form {
            LineForm::Definition {
                kind,
                name,
                value,
                flags: 0,
            } => StatementForm::Definition { kind, name, value },
            LineForm::Assign {
                target,
                sign,
                value,
            } => StatementForm::Assign {
                target,
                sign,
                value,
            },
            LineForm::Plain(value) => StatementForm::Plain(value),
            LineForm::Return(value) => StatementForm::Return(value),
            LineForm::If(test) => if_block(reader, line, test, inner_depth(at, depth)?)?,
            LineForm::While(test) => while_block(reader, test, inner_depth(at, depth)?)?,
            end => return Ok((found, end, at, line)),
        };
        found.push(Statement { line, form })?;
    }
}

// How many blocks may be open in the one that begins at this place.
fn inner_depth(at: usize, depth: u8) -> Result<u8, BlockFault>
    ensures inner { IfOk result (λ inner. inner + 1 ≡ depth) }
    ensures fault { (lines : List Line) → BlockAt lines at depth → IfErr result (IsBlockFault lines) }
{
    match depth.checked_sub(1) {
        Some(inner) => Ok(inner),
        None => Err(BlockFault::Broken(BrokenLine {
            at,
            rule: LineRule::TooDeep,
        })),
    }
}

// The parts of an `If` behind its first line.
#[cycle(statements)]
fn if_block(
    reader: &mut LineReader<'_>,
    line: u16,
    test: Expr,
    depth: u8,
) -> Result<StatementForm, BlockFault>
    requires { 64 ≤ blocks_before reader.old + depth }
    ensures nearer { OnOk result (left reader.new < left reader.old) }
    ensures onward { OnOk result (GoesOn reader.old reader.new) }
    ensures fault { IfErr result (IsBlockFault reader.old.lines.now) }
{
    let mut tests = Vec::new(reader.alloc);
    let otherwise = if_parts(reader, &mut tests, line, test, depth)?;
    Ok(StatementForm::If { tests, otherwise })
}

// Adds each test of an `If` with its body, and gives the body behind `Else`. The list is lent, as its end on each way out would be proved anew.
#[cycle(statements)]
fn if_parts(
    reader: &mut LineReader<'_>,
    tests: &mut Vec<(u16, Expr, Vec<Statement>)>,
    line: u16,
    test: Expr,
    depth: u8,
) -> Result<Vec<Statement>, BlockFault>
    requires { 64 ≤ blocks_before reader.old + depth }
    ensures nearer { OnOk result (left reader.new < left reader.old) }
    ensures onward { OnOk result (GoesOn reader.old reader.new) }
    ensures fault { IfErr result (IsBlockFault reader.old.lines.now) }
{
    let mut end = if_part(reader, tests, line, test, depth)?;
    'parts: loop {
        let (form, at, line) = end;
        match form {
            LineForm::ElseIf(test) => end = if_part(reader, tests, line, test, depth)?,
            LineForm::Key(Keyword::Else) => {
                let (otherwise, _) = closed_block(reader, Keyword::EndIf, depth)?;
                return Ok(otherwise);
            }
            LineForm::Key(Keyword::EndIf) => return Ok(Vec::new(reader.alloc)),
            other => {
                drop(other);
                return Err(bad_block(at));
            }
        }
    }
}

// Adds a test with its body, and gives the line that ends this: its form, its place and its number.
#[cycle(statements)]
fn if_part(
    reader: &mut LineReader<'_>,
    tests: &mut Vec<(u16, Expr, Vec<Statement>)>,
    line: u16,
    test: Expr,
    depth: u8,
) -> Result<(LineForm, usize, u16), BlockFault>
    requires { 64 ≤ blocks_before reader.old + depth }
    ensures nearer { OnOk result (left reader.new < left reader.old) }
    ensures onward { OnOk result (GoesOn reader.old reader.new) }
    ensures fault { IfErr result (IsBlockFault reader.old.lines.now) }
{
    let (body, end, end_at, end_line) = statements(reader, depth)?;
    match tests.push((line, test, body)) {
        Ok(()) => Ok((end, end_at, end_line)),
        Err(failed) => {
            drop(end);
            Err(BlockFault::from(failed))
        }
    }
}

/// The statements up to the line that ends them, which has to be this keyword, and its number.
#[cycle(statements)]
pub(crate) fn closed_block(
    reader: &mut LineReader<'_>,
    keyword: Keyword,
    depth: u8,
) -> Result<(Vec<Statement>, u16), BlockFault>
    requires { 64 ≤ blocks_before reader.old + depth }
    ensures nearer { OnOk result (left reader.new < left reader.old) }
    ensures onward { OnOk result (GoesOn reader.old reader.new) }
    ensures fault { IfErr result (IsBlockFault reader.old.lines.now) }
{
    let (body, end, end_at, end_line) = statements(reader, depth)?;
    let is_closed = matches!(&end, LineForm::Key(word) if *word == keyword);
    drop(end);
    if is_closed {
        Ok((body, end_line))
    } else {
        drop(body);
        Err(bad_block(end_at))
    }
}

// The body of a `While` behind its first line, up to `EndWhile`.
#[cycle(statements)]
fn while_block(
    reader: &mut LineReader<'_>,
    test: Expr,
    depth: u8,
) -> Result<StatementForm, BlockFault>
    requires { 64 ≤ blocks_before reader.old + depth }
    ensures nearer { OnOk result (left reader.new < left reader.old) }
    ensures onward { OnOk result (GoesOn reader.old reader.new) }
    ensures fault { IfErr result (IsBlockFault reader.old.lines.now) }
{
    let (body, end_line) = closed_block(reader, Keyword::EndWhile, depth)?;
    Ok(StatementForm::While {
        test,
        body,
        end_line,
    })
}
