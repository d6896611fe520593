// Types, constants and flags: the parts of a line that hold no expression.
ghost use Rattle.std.specs.Prelude.{◌<◌, ◌≤◌, length, OnOk};

use crate::cursor::{TokenCursor, is_array_mark_at};
use crate::fault::{FormFault, NoForm};
use crate::tree::{Constant, Expr, Parameter, TypeName};
use papy_base::{Fault, Made, Name, neg};
use script_lexer::{Keyword, Sign, Spanned, Token};
use std::alloc::Global;

/// The names of the types `Int`, `Bool` and `String`, which are keywords. The lines of a file share them.
#[derive(Drop)]
pub struct TypeWords {
    pub(crate) int: Name,
    pub(crate) bool: Name,
    pub(crate) string: Name,
}

impl TypeWords {
    /// The names as they are declared.
    pub fn new(alloc: Global) -> Made<TypeWords> {
        Ok(TypeWords {
            int: Name::from_bytes(alloc, b"Int")?,
            bool: Name::from_bytes(alloc, b"Bool")?,
            string: Name::from_bytes(alloc, b"String")?,
        })
    }
}

// The word of a type: a word, `Int`, `Bool` or `String`.
fn type_word(cursor: &mut TokenCursor<'_>) -> Result<Name, FormFault>
    ensures shorter { OnOk result (length cursor.new.rest.now < length cursor.old.rest.now) }
{
    let types = cursor.types;
    let word = match cursor.next_keyword() {
        Some(Keyword::Int) => &types.int,
        Some(Keyword::Bool) => &types.bool,
        Some(Keyword::String) => &types.string,
        _ => return cursor.expect_word(),
    };
    cursor.skip();
    Ok(word.try_clone(cursor.alloc)?)
}

/// A type, with `[]` for an array.
pub(crate) fn type_name(cursor: &mut TokenCursor<'_>) -> Result<TypeName, FormFault>
    ensures shorter { OnOk result (length cursor.new.rest.now < length cursor.old.rest.now) }
{
    let word = type_word(cursor)?;
    let is_array = cursor.take_array_mark();
    Ok(TypeName { word, is_array })
}

/// An atom that holds no expression: a word, `Self`, a new array, or a constant without `-`.
pub(crate) fn leaf(cursor: &mut TokenCursor<'_>) -> Result<Expr, FormFault>
    ensures shorter { OnOk result (length cursor.new.rest.now < length cursor.old.rest.now) }
{
    let token = cursor.take()?;
    match token {
        Token::Word(name) => Ok(Expr::Word(name.try_clone(cursor.alloc)?)),
        Token::Int(number) => Ok(Expr::Int(*number)),
        Token::Key(Keyword::SelfWord) => Ok(Expr::SelfValue),
        Token::Key(Keyword::New) => new_array(cursor),
        _ => value_of(cursor.alloc, token),
    }
}

fn value_of(alloc: Global, token: &Token) -> Result<Expr, FormFault> {
    Ok(match constant_of(alloc, token)? {
        Constant::Int(number) => Expr::Int(number),
        Constant::Bool(truth) => Expr::Bool(truth),
        Constant::Quoted(text) => Expr::Quoted(text),
        Constant::NoneValue => Expr::NoneValue,
    })
}

fn new_array(cursor: &mut TokenCursor<'_>) -> Result<Expr, FormFault>
    ensures shorter { OnOk result (length cursor.new.rest.now < length cursor.old.rest.now) }
{
    let element = type_word(cursor)?;
    cursor.expect_sign(Sign::OpenBracket)?;
    let count = cursor.expect_int()?;
    cursor.expect_sign(Sign::CloseBracket)?;
    Ok(Expr::NewArray { element, count })
}

// A constant without `-`.
fn constant_of(alloc: Global, token: &Token) -> Result<Constant, FormFault> {
    match token {
        Token::Int(number) => Ok(Constant::Int(*number)),
        Token::Quoted(text) => Ok(Constant::Quoted(text.try_clone(alloc)?)),
        Token::Key(Keyword::True) => Ok(Constant::Bool(true)),
        Token::Key(Keyword::False) => Ok(Constant::Bool(false)),
        Token::Key(Keyword::None) => Ok(Constant::NoneValue),
        _ => Err(Fault::Broken(NoForm)),
    }
}

// A constant. The least number's negation is itself.
fn constant(cursor: &mut TokenCursor<'_>) -> Result<Constant, FormFault>
    ensures shorter { OnOk result (length cursor.new.rest.now < length cursor.old.rest.now) }
{
    if cursor.take_sign(Sign::Minus) {
        return Ok(Constant::Int(neg(cursor.expect_int()?)));
    }
    constant_of(cursor.alloc, cursor.take()?)
}

/// `=` and a constant, where `=` is next.
pub(crate) fn initial_constant(cursor: &mut TokenCursor<'_>) -> Result<Option<Constant>, FormFault>
    ensures bound { OnOk result (length cursor.new.rest.now ≤ length cursor.old.rest.now) }
{
    if cursor.take_sign(Sign::Assign) {
        Ok(Some(constant(cursor)?))
    } else {
        Ok(None)
    }
}

fn parameter(cursor: &mut TokenCursor<'_>) -> Result<Parameter, FormFault>
    ensures shorter { OnOk result (length cursor.new.rest.now < length cursor.old.rest.now) }
{
    let kind = type_name(cursor)?;
    let name = cursor.expect_word()?;
    let default = initial_constant(cursor)?;
    Ok(Parameter {
        kind,
        name,
        default,
    })
}

/// The parameters of a function in their brackets.
pub(crate) fn parameters(cursor: &mut TokenCursor<'_>) -> Result<Vec<Parameter>, FormFault> {
    cursor.expect_sign(Sign::OpenParen)?;
    let mut found = Vec::new(cursor.alloc);
    'parameters: while !cursor.list_ends(found.is_empty())? {
        found.push(parameter(cursor)?)?;
    }
    Ok(found)
}

const HIDDEN: u32 = 1;

const CONDITIONAL: u32 = 2;

/// The flags `Hidden` and `Conditional`, each at most once.
pub(crate) fn flags(cursor: &mut TokenCursor<'_>) -> Result<u32, FormFault> {
    let mut bits = 0;
    'flags: while let Some((first, others)) = cursor.rest.split_first() {
        let Token::Word(name) = &first.token else {
            break;
        };
        let bit = flag_bit(name)?;
        if bits & bit != 0 {
            return Err(Fault::Broken(NoForm));
        }
        bits |= bit;
        cursor.rest = others;
    }
    Ok(bits)
}

fn flag_bit(name: &Name) -> Result<u32, FormFault> {
    if name.as_bytes().eq_ignore_ascii_case(b"hidden") {
        Ok(HIDDEN)
    } else if name.as_bytes().eq_ignore_ascii_case(b"conditional") {
        Ok(CONDITIONAL)
    } else {
        Err(Fault::Broken(NoForm))
    }
}

/// Whether the tokens begin a declaration: a type, and behind it `Property`, `Function` or a word.
pub(crate) fn begins_declaration(tokens: &[Spanned]) -> bool {
    let behind = if is_array_mark_at(tokens, 1) { 3 } else { 1 };
    match (tokens.first(), tokens.get(behind)) {
        (Some(kind), Some(declared)) => is_type_word(&kind.token) && is_declared(&declared.token),
        _ => false,
    }
}

fn is_type_word(token: &Token) -> bool {
    matches!(
        token,
        Token::Word(_) | Token::Key(Keyword::Int | Keyword::Bool | Keyword::String)
    )
}

fn is_declared(token: &Token) -> bool {
    matches!(
        token,
        Token::Word(_) | Token::Key(Keyword::Property | Keyword::Function)
    )
}
