// Whether a line is too long or its brackets are too deep, which is tested before its form.
ghost use Rattle.std.specs.Prelude.{◌≡◌, ◌↔◌, IsTrue};
ghost use Rattle.line_parser.specs.Nesting.{opens, closes, OpensTooMany, IsTooDeep};

use script_lexer::{Sign, Spanned, Token};

/// The most `(` and `[` that may be open at once.
pub(crate) const BRACKET_LIMIT: u8 = 64;

/// The most tokens that a line may have.
const TOKEN_LIMIT: usize = 8000;

/// Whether over 64 brackets are open at once, or there are over 8,000 tokens.
pub(crate) fn is_too_deep(tokens: &[Spanned]) -> bool
    ensures { IsTrue result ↔ IsTooDeep tokens.now }
{
    tokens.len() > TOKEN_LIMIT || opens_too_many(tokens)
}

// A line of at most 64 tokens opens at most 64 brackets.
fn opens_too_many(tokens: &[Spanned]) -> bool
    ensures { IsTrue result ↔ OpensTooMany tokens.now }
{
    tokens.len() > usize::from(BRACKET_LIMIT) && passes_limit(tokens)
}

fn passes_limit(tokens: &[Spanned]) -> bool
    ensures { IsTrue result ↔ OpensTooMany tokens.now }
{
    let mut open = 0;
    for spanned in tokens {
        if opens_bracket(&spanned.token) {
            if open == BRACKET_LIMIT {
                return true;
            }
            open += 1;
        } else if closes_bracket(&spanned.token) {
            open = open.saturating_sub(1);
        }
    }
    false
}

fn opens_bracket(token: &Token) -> bool
    ensures { result ≡ opens token.now }
{
    matches!(token, Token::Sign(Sign::OpenParen | Sign::OpenBracket))
}

fn closes_bracket(token: &Token) -> bool
    ensures { result ≡ closes token.now }
{
    matches!(token, Token::Sign(Sign::CloseParen | Sign::CloseBracket))
}
