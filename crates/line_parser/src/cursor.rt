// Reads the tokens of a line from left to right.
ghost use Rattle.std.specs.Prelude.{◌≡◌, ◌+◌, ◌<◌, ◌≤◌, length, IsTrue, IsSome, IfOk, IfSome, OnSome, OnOk};
ghost use Rattle.line_parser.specs.Blocks.{first_keyword};

use crate::fault::{FormFault, NoForm};
use crate::simple::TypeWords;
use papy_base::{Fault, Name};
use script_lexer::{Keyword, Sign, Spanned, Token};
use std::alloc::Global;

/// The tokens of a line that are still to be read.
#[derive(Drop)]
pub(crate) struct TokenCursor<'a> {
    pub(crate) alloc: Global,
    pub(crate) types: &'a TypeWords,
    pub(crate) rest: &'a [Spanned],
}

impl<'a> TokenCursor<'a> {
    pub(crate) fn next_sign(&self) -> Option<Sign>
        ensures { IsSome result → 0 < length self.now.rest.now }
    {
        sign_at(self.rest, 0)
    }

    pub(crate) fn next_keyword(&self) -> Option<Keyword>
        ensures some { IsSome result → 0 < length self.now.rest.now }
        ensures first { result ≡ first_keyword self.now.rest.now }
    {
        match self.rest.first()?.token {
            Token::Key(found) => Some(found),
            _ => None,
        }
    }

    /// Whether the next token stands alone, where it is an operand: nothing is behind it, or a sign that neither goes on with it
    /// nor is a binary one of at least this precedence.
    pub(crate) fn next_is_alone(&self, least: u8) -> bool {
        self.next_sign().is_none()
            && match sign_at(self.rest, 1) {
                Some(Sign::Dot | Sign::OpenBracket | Sign::OpenParen) => false,
                Some(behind) => precedence(behind) < least,
                None => self.rest.len() == 1,
            }
    }

    /// Whether the next token is `.` or `[`.
    pub(crate) fn next_is_link(&self) -> bool {
        matches!(self.next_sign(), Some(Sign::Dot | Sign::OpenBracket))
    }

    /// Takes the next token, which has to be there.
    pub(crate) fn take(&mut self) -> Result<&'a Token, FormFault>
        ensures shorter { OnOk result (length self.new.rest.now < length self.old.rest.now) }
    {
        let Some((first, others)) = self.rest.split_first() else {
            return Err(Fault::Broken(NoForm));
        };
        self.rest = others;
        Ok(&first.token)
    }

    /// Passes over the next token.
    pub(crate) fn skip(&mut self)
        requires { 0 < length self.old.rest.now }
        ensures { length self.new.rest.now + 1 ≡ length self.old.rest.now }
    {
        self.rest = &self.rest[1..];
    }

    /// Takes the next token where it is this sign.
    pub(crate) fn take_sign(&mut self, wanted: Sign) -> bool
        ensures shorter { IsTrue result → length self.new.rest.now < length self.old.rest.now }
        ensures bound { length self.new.rest.now ≤ length self.old.rest.now }
    {
        if is_sign_at(self.rest, 0, wanted) {
            self.skip();
            return true;
        }
        false
    }

    /// Takes the next token where it is this keyword.
    pub(crate) fn take_keyword(&mut self, wanted: Keyword) -> bool
        ensures shorter { IsTrue result → length self.new.rest.now < length self.old.rest.now }
        ensures bound { length self.new.rest.now ≤ length self.old.rest.now }
    {
        match self.next_keyword() {
            Some(found) if found == wanted => {
                self.skip();
                true
            }
            _ => false,
        }
    }

    /// Takes the next token, which has to be this sign.
    pub(crate) fn expect_sign(&mut self, wanted: Sign) -> Result<(), FormFault>
        ensures shorter { OnOk result (length self.new.rest.now < length self.old.rest.now) }
    {
        if self.take_sign(wanted) {
            Ok(())
        } else {
            Err(Fault::Broken(NoForm))
        }
    }

    /// Takes the next token, which has to be this keyword.
    pub(crate) fn expect_keyword(&mut self, wanted: Keyword) -> Result<(), FormFault>
        ensures shorter { OnOk result (length self.new.rest.now < length self.old.rest.now) }
    {
        if self.take_keyword(wanted) {
            Ok(())
        } else {
            Err(Fault::Broken(NoForm))
        }
    }

    /// Takes the next token, which has to be a word.
    pub(crate) fn expect_word(&mut self) -> Result<Name, FormFault>
        ensures shorter { OnOk result (length self.new.rest.now < length self.old.rest.now) }
    {
        match self.take()? {
            Token::Word(name) => Ok(name.try_clone(self.alloc)?),
            _ => Err(Fault::Broken(NoForm)),
        }
    }

    /// Takes the next token, which has to be a number.
    pub(crate) fn expect_int(&mut self) -> Result<i32, FormFault>
        ensures shorter { OnOk result (length self.new.rest.now < length self.old.rest.now) }
    {
        match self.take()? {
            Token::Int(number) => Ok(*number),
            _ => Err(Fault::Broken(NoForm)),
        }
    }

    /// Takes `[` and `]` where they are next.
    pub(crate) fn take_array_mark(&mut self) -> bool
        ensures bound { length self.new.rest.now ≤ length self.old.rest.now }
    {
        let found = is_array_mark_at(self.rest, 0);
        if found {
            self.rest = &self.rest[2..];
        }
        found
    }

    /// Takes the name of an argument and its `=` where they are next: no expression goes on with `=`.
    pub(crate) fn take_argument_name(&mut self) -> Result<Option<Name>, FormFault>
        ensures bound { OnOk result (length self.new.rest.now ≤ length self.old.rest.now) }
    {
        if !is_sign_at(self.rest, 1, Sign::Assign) {
            return Ok(None);
        }
        let name = self.expect_word()?;
        self.expect_sign(Sign::Assign)?;
        Ok(Some(name))
    }

    /// Takes a binary sign of at least this precedence where it is next, and gives its precedence.
    pub(crate) fn take_binary(&mut self, least: u8) -> Option<(Sign, u8)>
        ensures shorter { OnSome result (length self.new.rest.now < length self.old.rest.now) }
        ensures bound { length self.new.rest.now ≤ length self.old.rest.now }
        ensures least { IfSome result (λ found. least ≤ found.1) }
        ensures most { IfSome result (λ found. found.1 ≤ 5) }
    {
        let sign = self.next_sign()?;
        let found = precedence(sign);
        if found < least {
            return None;
        }
        self.skip();
        Some((sign, found))
    }

    /// Takes the next token where it is one of these signs.
    pub(crate) fn take_one_of(&mut self, signs: &[Sign]) -> Option<Sign>
        ensures bound { length self.new.rest.now ≤ length self.old.rest.now }
    {
        let sign = self.next_sign()?;
        if !signs.contains(&sign) {
            return None;
        }
        self.skip();
        Some(sign)
    }

    /// Whether a list in brackets ends here. Takes its `)`, or else the `,` before an element that isn't the first.
    pub(crate) fn list_ends(&mut self, is_first: bool) -> Result<bool, FormFault>
        ensures bound { OnOk result (length self.new.rest.now ≤ length self.old.rest.now) }
        ensures shorter { IfOk result (λ ends. IsTrue ends → length self.new.rest.now < length self.old.rest.now) }
    {
        if self.take_sign(Sign::CloseParen) {
            return Ok(true);
        }
        if is_first {
            return Ok(false);
        }
        self.expect_sign(Sign::Comma)?;
        Ok(false)
    }
}

// How tightly a binary sign binds, from 1 for the loosest, and 0 for another sign.
fn precedence(sign: Sign) -> u8
    ensures { result ≤ 5 }
{
    match sign {
        Sign::Or => 1,
        Sign::And => 2,
        Sign::Equal
        | Sign::NotEqual
        | Sign::Less
        | Sign::Greater
        | Sign::LessEqual
        | Sign::GreaterEqual => 3,
        Sign::Plus | Sign::Minus => 4,
        Sign::Star | Sign::Slash | Sign::Percent => 5,
        _ => 0,
    }
}

fn sign_at(tokens: &[Spanned], at: usize) -> Option<Sign>
    ensures { IsSome result → at < length tokens.now }
{
    match tokens.get(at)?.token {
        Token::Sign(found) => Some(found),
        _ => None,
    }
}

/// Whether this sign is at a place of the tokens.
pub(crate) fn is_sign_at(tokens: &[Spanned], at: usize, wanted: Sign) -> bool
    ensures { IsTrue result → at < length tokens.now }
{
    matches!(sign_at(tokens, at), Some(found) if found == wanted)
}

/// Whether `[` and `]` stand at a place of the tokens.
pub(crate) fn is_array_mark_at(tokens: &[Spanned], at: usize) -> bool
    ensures { IsTrue result → at + 2 ≤ length tokens.now }
{
    is_sign_at(tokens, at, Sign::OpenBracket) && is_sign_at(tokens, at + 1, Sign::CloseBracket)
}
