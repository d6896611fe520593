// The forms of lines, one function for each production.
ghost use Rattle.std.specs.Prelude.{◌≡◌, ◌↔◌, ◌≢◌, false, IfOk, IsErrOf, IsTrue};
ghost use Rattle.line_parser.specs.Blocks.{begins_block, is_block_word, opens_block};
ghost use Rattle.line_parser.specs.Nesting.{IsTooDeep};
ghost use Rattle.line_parser.specs.declared.fault.LineFault.TheVariants.{Broken};
ghost use Rattle.line_parser.specs.declared.fault.LineRule.TheVariants.{TooDeep, BadBlock};

use crate::cursor::TokenCursor;
use crate::expression::expression;
use crate::fault::{FormFault, LineFault, LineRule};
use crate::nesting::{BRACKET_LIMIT, is_too_deep};
use crate::simple::{
    TypeWords, begins_declaration, flags, initial_constant, parameters, type_name,
};
use crate::tree::{Access, Heading, LineForm, LineTree, TypeName};
use papy_base::{Made, Text};
use script_lexer::{Keyword, Line, Sign, Spanned, Token};
use std::alloc::Global;

const ASSIGNMENTS: [Sign; 6] = [
    Sign::Assign,
    Sign::PlusAssign,
    Sign::MinusAssign,
    Sign::StarAssign,
    Sign::SlashAssign,
    Sign::PercentAssign,
];

/// The form that the line grammar gives a logical line, and the documentation text at its end.
///
/// # Errors
/// `TooDeep` where over 64 brackets are open at once or the line has over 8,000 tokens, else `BadLine`
/// where the line has no form, and never `BadBlock`. `OutOfMemory` where no memory is found.
pub fn parse_line(alloc: Global, types: &TypeWords, line: &Line) -> Result<LineTree, LineFault>
    ensures too_deep { IsErrOf result (Broken TooDeep) ↔ IsTooDeep line.now.tokens.items }
    ensures no_block { result ≢ Err (Broken BadBlock) }
    // The form of `If` or `While` is that of a line that begins so.
    ensures block { IfOk result (λ tree. IsTrue (opens_block tree.form) → IsTrue (begins_block line.now.tokens.items)) }
{
    let tokens = line.tokens.as_slice();
    if is_too_deep(tokens) {
        return Err(LineFault::Broken {
            rule: LineRule::TooDeep,
        });
    }
    let doc = doc_at_end(alloc, tokens)?;
    let mut cursor = TokenCursor {
        alloc,
        types,
        rest: without_doc(tokens),
    };
    let form = form(&mut cursor)?;
    if cursor.rest.is_empty() {
        Ok(LineTree { form, doc })
    } else {
        drop(form);
        Err(LineFault::Broken {
            rule: LineRule::BadLine,
        })
    }
}

// The tokens before a documentation text where one is last, or else all.
fn without_doc(tokens: &[Spanned]) -> &[Spanned]
    ensures { IsTrue (begins_block result.now) → IsTrue (begins_block tokens.now) }
{
    match tokens.split_last() {
        Some((last, others)) if matches!(last.token, Token::Doc(_)) => others,
        _ => tokens,
    }
}

/// The documentation text that is last of a line's tokens, where one is.
pub fn doc_at_end(alloc: Global, tokens: &[Spanned]) -> Made<Option<Text>> {
    let Some(last) = tokens.last() else {
        return Ok(None);
    };
    let Token::Doc(text) = &last.token else {
        return Ok(None);
    };
    Ok(Some(text.try_clone(alloc)?))
}

fn form(cursor: &mut TokenCursor<'_>) -> Result<LineForm, FormFault>
    ensures { IfOk result (λ form. IsTrue (opens_block form) → IsTrue (begins_block cursor.old.rest.now)) }
{
    if begins_declaration(cursor.rest) {
        return declaration(cursor);
    }
    match cursor.next_keyword() {
        Some(keyword) => keyword_form(cursor, keyword),
        None if cursor.rest.is_empty() => Ok(LineForm::DocOnly),
        None => statement(cursor),
    }
}

// A line that begins with a keyword, and with no declared type.
fn keyword_form(cursor: &mut TokenCursor<'_>, keyword: Keyword) -> Result<LineForm, FormFault>
    ensures { IfOk result (λ form. IsTrue (opens_block form) → IsTrue (is_block_word keyword)) }
{
    match keyword {
        Keyword::ScriptName => script_name(cursor),
        Keyword::Import => import(cursor),
        Keyword::Auto | Keyword::State => state(cursor),
        Keyword::Function | Keyword::Event => function(cursor, keyword, None),
        Keyword::If | Keyword::ElseIf | Keyword::While => test_line(cursor, keyword),
        Keyword::Return => return_line(cursor),
        Keyword::Else
        | Keyword::EndEvent
        | Keyword::EndFunction
        | Keyword::EndIf
        | Keyword::EndProperty
        | Keyword::EndState
        | Keyword::EndWhile => {
            cursor.take_keyword(keyword);
            Ok(LineForm::Key(keyword))
        }
        _ => statement(cursor),
    }
}

fn script_name(cursor: &mut TokenCursor<'_>) -> Result<LineForm, FormFault>
    ensures { IfOk result (λ form. opens_block form ≡ false) }
{
    cursor.expect_keyword(Keyword::ScriptName)?;
    let name = cursor.expect_word()?;
    let parent = if cursor.take_keyword(Keyword::Extends) {
        Some(cursor.expect_word()?)
    } else {
        None
    };
    let flags = flags(cursor)?;
    Ok(LineForm::ScriptName {
        name,
        parent,
        flags,
    })
}

fn import(cursor: &mut TokenCursor<'_>) -> Result<LineForm, FormFault>
    ensures { IfOk result (λ form. opens_block form ≡ false) }
{
    cursor.expect_keyword(Keyword::Import)?;
    Ok(LineForm::Import(cursor.expect_word()?))
}

fn state(cursor: &mut TokenCursor<'_>) -> Result<LineForm, FormFault>
    ensures { IfOk result (λ form. opens_block form ≡ false) }
{
    let is_auto = cursor.take_keyword(Keyword::Auto);
    cursor.expect_keyword(Keyword::State)?;
    let name = cursor.expect_word()?;
    Ok(LineForm::State { name, is_auto })
}

// `If`, `ElseIf` or `While`, and its test.
fn test_line(cursor: &mut TokenCursor<'_>, keyword: Keyword) -> Result<LineForm, FormFault>
    ensures { IfOk result (λ form. IsTrue (opens_block form) → IsTrue (is_block_word keyword)) }
{
    cursor.expect_keyword(keyword)?;
    let test = expression(cursor, BRACKET_LIMIT)?;
    Ok(match keyword {
        Keyword::If => LineForm::If(test),
        Keyword::While => LineForm::While(test),
        _ => LineForm::ElseIf(test),
    })
}

fn return_line(cursor: &mut TokenCursor<'_>) -> Result<LineForm, FormFault>
    ensures { IfOk result (λ form. opens_block form ≡ false) }
{
    cursor.expect_keyword(Keyword::Return)?;
    if cursor.rest.is_empty() {
        return Ok(LineForm::Return(None));
    }
    Ok(LineForm::Return(Some(expression(cursor, BRACKET_LIMIT)?)))
}

// A type, and what it is the type of.
fn declaration(cursor: &mut TokenCursor<'_>) -> Result<LineForm, FormFault>
    ensures { IfOk result (λ form. opens_block form ≡ false) }
{
    let kind = type_name(cursor)?;
    match cursor.next_keyword() {
        Some(Keyword::Property) => property(cursor, kind),
        Some(Keyword::Function) => function(cursor, Keyword::Function, Some(kind)),
        _ => definition(cursor, kind),
    }
}

fn definition(cursor: &mut TokenCursor<'_>, kind: TypeName) -> Result<LineForm, FormFault>
    ensures { IfOk result (λ form. opens_block form ≡ false) }
{
    let name = cursor.expect_word()?;
    let value = if cursor.take_sign(Sign::Assign) {
        Some(expression(cursor, BRACKET_LIMIT)?)
    } else {
        None
    };
    let flags = flags(cursor)?;
    Ok(LineForm::Definition {
        kind,
        name,
        value,
        flags,
    })
}

fn property(cursor: &mut TokenCursor<'_>, kind: TypeName) -> Result<LineForm, FormFault>
    ensures { IfOk result (λ form. opens_block form ≡ false) }
{
    cursor.expect_keyword(Keyword::Property)?;
    let name = cursor.expect_word()?;
    let access = access(cursor)?;
    let flags = flags(cursor)?;
    Ok(LineForm::Property {
        kind,
        name,
        access,
        flags,
    })
}

fn access(cursor: &mut TokenCursor<'_>) -> Result<Access, FormFault> {
    let value = initial_constant(cursor)?;
    if cursor.take_keyword(Keyword::Auto) {
        return Ok(Access::Auto(value));
    }
    let Some(value) = value else {
        return Ok(Access::Full);
    };
    cursor.expect_keyword(Keyword::AutoReadOnly)?;
    Ok(Access::ReadOnly(value))
}

// What begins with `Function` or `Event`, whichever the keyword is.
fn function(
    cursor: &mut TokenCursor<'_>,
    keyword: Keyword,
    result_type: Option<TypeName>,
) -> Result<LineForm, FormFault>
    ensures { IfOk result (λ form. opens_block form ≡ false) }
{
    cursor.expect_keyword(keyword)?;
    let name = cursor.expect_word()?;
    let parameters = parameters(cursor)?;
    let is_event = keyword == Keyword::Event;
    let (is_global, is_native) = global_and_native(cursor, is_event);
    let flags = flags(cursor)?;
    Ok(LineForm::Function(Heading {
        result: result_type,
        name,
        parameters,
        is_event,
        is_global,
        is_native,
        flags,
    }))
}

// `Global`, which no event is, and `Native`, each at most once, in either order.
fn global_and_native(cursor: &mut TokenCursor<'_>, is_event: bool) -> (bool, bool) {
    let is_global = !is_event && cursor.take_keyword(Keyword::Global);
    let is_native = cursor.take_keyword(Keyword::Native);
    if is_native && !is_global && !is_event {
        return (cursor.take_keyword(Keyword::Global), true);
    }
    (is_global, is_native)
}

// An assignment, or an expression alone.
fn statement(cursor: &mut TokenCursor<'_>) -> Result<LineForm, FormFault>
    ensures { IfOk result (λ form. opens_block form ≡ false) }
{
    let target = expression(cursor, BRACKET_LIMIT)?;
    let Some(sign) = cursor.take_one_of(&ASSIGNMENTS) else {
        return Ok(LineForm::Plain(target));
    };
    Ok(LineForm::Assign {
        target,
        sign,
        value: expression(cursor, BRACKET_LIMIT)?,
    })
}
