// The grammar of expressions, one function for each production.
ghost use Rattle.std.specs.Prelude.{◌≡◌, ◌+◌, ◌<◌, length, OnOk, IfOk};

use crate::cursor::{TokenCursor, is_sign_at};
use crate::fault::{FormFault, NoForm};
use crate::simple::{leaf, type_name};
use crate::tree::{Argument, Expr};
use papy_base::{Fault, Made, Name};
use script_lexer::{Keyword, Sign};
use std::alloc::Global;

const UNARY_SIGNS: [Sign; 2] = [Sign::Minus, Sign::Not];

const UNARY_PRECEDENCE: u8 = 6;

/// An expression. At most `depth` brackets may be open in it.
#[cycle(expression)]
pub(crate) fn expression(cursor: &mut TokenCursor<'_>, depth: u8) -> Result<Expr, FormFault>
    ensures shorter { OnOk result (length cursor.new.rest.now < length cursor.old.rest.now) }
{
    operands(cursor, 1, depth)
}

// Operands with signs of at least this precedence between them. Most are one token. An operand behind a sign holds
// only signs that bind tighter, so signs of one precedence group to the left.
#[cycle(expression)]
fn operands(cursor: &mut TokenCursor<'_>, least: u8, depth: u8) -> Result<Expr, FormFault>
    ensures shorter { OnOk result (length cursor.new.rest.now < length cursor.old.rest.now) }
{
    if cursor.next_is_alone(least) {
        return leaf(cursor);
    }
    let mut left = unary(cursor, depth)?;
    'signs: while let Some((sign, precedence)) = cursor.take_binary(least) {
        let right = operands(cursor, precedence + 1, depth)?;
        left = Expr::Binary {
            sign,
            left: boxed(cursor.alloc, left)?,
            right: boxed(cursor.alloc, right)?,
        };
    }
    Ok(left)
}

#[cycle(expression)]
fn unary(cursor: &mut TokenCursor<'_>, depth: u8) -> Result<Expr, FormFault>
    ensures shorter { OnOk result (length cursor.new.rest.now < length cursor.old.rest.now) }
{
    if cursor.next_is_alone(UNARY_PRECEDENCE) {
        return leaf(cursor);
    }
    let Some(sign) = cursor.take_one_of(&UNARY_SIGNS) else {
        return cast(cursor, depth);
    };
    let of = cast(cursor, depth)?;
    Ok(Expr::Unary {
        sign,
        of: boxed(cursor.alloc, of)?,
    })
}

// An atom with members, calls and indexes behind it, and the type that it is cast to.
#[cycle(expression)]
fn cast(cursor: &mut TokenCursor<'_>, depth: u8) -> Result<Expr, FormFault>
    ensures shorter { OnOk result (length cursor.new.rest.now < length cursor.old.rest.now) }
{
    let mut of = atom(cursor, depth)?;
    'links: while cursor.next_is_link() {
        of = link(cursor, of, depth)?;
    }
    if !cursor.take_keyword(Keyword::As) {
        return Ok(of);
    }
    let to = type_name(cursor)?;
    Ok(Expr::Cast {
        of: boxed(cursor.alloc, of)?,
        to,
    })
}

// A member, a call of one, or an index.
#[cycle(expression)]
fn link(cursor: &mut TokenCursor<'_>, of: Expr, depth: u8) -> Result<Expr, FormFault>
    ensures shorter { OnOk result (length cursor.new.rest.now < length cursor.old.rest.now) }
{
    if cursor.take_sign(Sign::Dot) {
        return member(cursor, of, depth);
    }
    cursor.expect_sign(Sign::OpenBracket)?;
    let at = bracketed(cursor, Sign::CloseBracket, depth)?;
    Ok(Expr::Index {
        of: boxed(cursor.alloc, of)?,
        at: boxed(cursor.alloc, at)?,
    })
}

// What stands behind a `.`.
#[cycle(expression)]
fn member(cursor: &mut TokenCursor<'_>, of: Expr, depth: u8) -> Result<Expr, FormFault>
    ensures shorter { OnOk result (length cursor.new.rest.now < length cursor.old.rest.now) }
{
    let of = boxed(cursor.alloc, of)?;
    if cursor.take_keyword(Keyword::Length) {
        return Ok(Expr::Length { of });
    }
    let name = cursor.expect_word()?;
    if !cursor.take_sign(Sign::OpenParen) {
        return Ok(Expr::Member { of, name });
    }
    let arguments = arguments(cursor, depth)?;
    Ok(Expr::MemberCall {
        of,
        name,
        arguments,
    })
}

// An expression and the closing sign behind it; the opening one is taken.
#[cycle(expression)]
fn bracketed(cursor: &mut TokenCursor<'_>, close: Sign, depth: u8) -> Result<Expr, FormFault>
    ensures shorter { OnOk result (length cursor.new.rest.now < length cursor.old.rest.now) }
{
    let inner = expression(cursor, one_deeper(depth)?)?;
    cursor.expect_sign(close)?;
    Ok(inner)
}

#[cycle(expression)]
fn atom(cursor: &mut TokenCursor<'_>, depth: u8) -> Result<Expr, FormFault>
    ensures shorter { OnOk result (length cursor.new.rest.now < length cursor.old.rest.now) }
{
    if cursor.take_sign(Sign::OpenParen) {
        bracketed(cursor, Sign::CloseParen, depth)
    } else if cursor.take_keyword(Keyword::Parent) {
        cursor.expect_sign(Sign::Dot)?;
        let (name, arguments) = call(cursor, depth)?;
        Ok(Expr::ParentCall { name, arguments })
    } else if is_sign_at(cursor.rest, 1, Sign::OpenParen) {
        let (name, arguments) = call(cursor, depth)?;
        Ok(Expr::Call { name, arguments })
    } else {
        leaf(cursor)
    }
}

// A function's name and the arguments of its call.
#[cycle(expression)]
fn call(cursor: &mut TokenCursor<'_>, depth: u8) -> Result<(Name, Vec<Argument>), FormFault>
    ensures shorter { OnOk result (length cursor.new.rest.now < length cursor.old.rest.now) }
{
    let name = cursor.expect_word()?;
    cursor.expect_sign(Sign::OpenParen)?;
    Ok((name, arguments(cursor, depth)?))
}

// The arguments of a call and the `)` behind them; the `(` is taken.
#[cycle(expression)]
fn arguments(cursor: &mut TokenCursor<'_>, depth: u8) -> Result<Vec<Argument>, FormFault>
    ensures shorter { OnOk result (length cursor.new.rest.now < length cursor.old.rest.now) }
{
    let depth = one_deeper(depth)?;
    let mut found = Vec::new(cursor.alloc);
    'arguments: while !cursor.list_ends(found.is_empty())? {
        let name = cursor.take_argument_name()?;
        let value = expression(cursor, depth)?;
        found.push(Argument { name, value })?;
    }
    Ok(found)
}

// How many brackets may be open behind one more.
fn one_deeper(depth: u8) -> Result<u8, FormFault>
    ensures { IfOk result (λ inner. inner + 1 ≡ depth) }
{
    match depth.checked_sub(1) {
        Some(inner) => Ok(inner),
        None => Err(Fault::Broken(NoForm)),
    }
}

fn boxed(alloc: Global, of: Expr) -> Made<Box<Expr>> {
    Ok(Box::new(alloc, of)?)
}
