//! How deep tokens are nested.
ghost use Rattle.std.specs.Prelude.{◌≡◌, map};
ghost use Rattle.line_tokens.specs.View.{token_view};
ghost use Rattle.script_model.specs.Tokens.{closes, is_too_deep, opens};

use crate::token::{Sign, Token};

/// How many levels may be open at once.
const MAX_OPEN: usize = 64;

/// How many levels a token opens.
fn opens<'a>(token: &Token<'a>) -> usize
    ensures { result ≡ opens (token_view token.now) }
{
    match token {
        Token::Punctuation(Sign::Open | Sign::OpenBracket) => 1,
        Token::Word(b"if" | b"bind") => 1,
        _ => 0,
    }
}

/// How many levels a token closes.
fn closes<'a>(token: &Token<'a>) -> usize
    ensures { result ≡ closes (token_view token.now) }
{
    match token {
        Token::Punctuation(Sign::Close | Sign::CloseBracket) => 1,
        _ => 0,
    }
}

/// Whether behind some token more than 64 levels are open.
pub fn is_too_deep<'a>(tokens: &[Token<'a>]) -> bool
    ensures { result ≡ is_too_deep 0 0 (map token_view tokens.now) }
{
    let mut opened = 0usize;
    let mut closed = 0usize;
    for token in tokens {
        opened += opens(token);
        closed += closes(token);
        if opened.saturating_sub(closed) > MAX_OPEN {
            return true;
        }
    }
    false
}
