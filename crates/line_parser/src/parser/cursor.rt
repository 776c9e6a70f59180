//! Tokens, read from the front.
ghost use Rattle.std.specs.Prelude.{◌≡◌, ◌<◌, ◌^◌, ◌∷◌, [], map, drop, if◌then◌else◌, IfNone, IfSome};
ghost use Rattle.line_parser.specs.Reading.{begins_with, begins_with_word, count_of_word, is_empty};
ghost use Rattle.line_tokens.specs.View.{sign_view, token_view};
ghost use Rattle.script_model.specs.Parsing.{is_sign, is_word, tally};
ghost use Rattle.script_model.specs.Tokens.{sign_byte};

use line_tokens::{Sign, Token};
use std::marker::Model;

/// The tokens that are left to read, seen as their list.
#[derive(Drop)]
pub(super) struct Cursor<'t, 'a> {
    rest: &'t [Token<'a>],
}

impl<'t, 'a> Model for Cursor<'t, 'a> {
    ghost use Rattle.std.specs.Prelude.{List, map};
    ghost use Rattle.script_model.specs.Tokens as tokens;
    ghost use Rattle.line_tokens.specs.View.{token_view};

    ghost Value = { List tokens.Token };

    ghost view = { λ c. map token_view c.rest.now };
}

/// Whether a token is the sign.
fn is_sign(token: &Token<'_>, sign: Sign) -> bool
    ensures { result ≡ is_sign (sign_byte (sign_view sign)) (token_view token.now) }
{
    matches!(token, Token::Punctuation(found) if *found == sign)
}

/// Whether a token is the word.
pub(super) fn is_word(token: &Token<'_>, word: &[u8]) -> bool
    ensures { result ≡ is_word word.now (token_view token.now) }
{
    matches!(token, Token::Word(found) if word == *found)
}

impl<'t, 'a> Cursor<'t, 'a> {
    /// A cursor in front of the tokens.
    pub(super) fn new(tokens: &'t [Token<'a>]) -> Cursor<'t, 'a>
        ensures { result ≡ map token_view tokens.now }
    {
        Cursor { rest: tokens }
    }

    /// How many tokens are left.
    pub(super) fn len(&self) -> usize
        ensures count { result ≡ tally self.entry.now }
        ensures fits { result < 2 ^ 63 }
    {
        self.rest.len()
    }

    /// Whether no token is left.
    pub(super) fn is_empty(&self) -> bool
        ensures { result ≡ is_empty self.entry.now }
    {
        self.rest.is_empty()
    }

    /// Takes the next token.
    pub(super) fn next(&mut self) -> Option<&'t Token<'a>>
        ensures token { IfSome result (λ token. self.old ≡ token_view token.now ∷ self.new) }
        ensures none { IfNone result (self.old ≡ []) }
        ensures end { IfNone result (self.new ≡ []) }
    {
        match self.rest {
            [first, rest @ ..] => {
                self.rest = rest;
                Some(first)
            }
            [] => None,
        }
    }

    /// Takes the sign, where it is the next token.
    pub(super) fn eat(&mut self, sign: Sign) -> bool
        ensures found { result ≡ begins_with (sign_byte (sign_view sign)) self.old }
        ensures rest { self.new ≡ if result then drop 1 self.old else self.old }
    {
        match self.rest {
            [first, rest @ ..] if is_sign(first, sign) => {
                self.rest = rest;
                true
            }
            _ => false,
        }
    }

    /// Takes the word, where it is the next token.
    pub(super) fn eat_word(&mut self, word: &[u8]) -> bool
        ensures found { result ≡ begins_with_word word.now self.old }
        ensures rest { self.new ≡ if result then drop 1 self.old else self.old }
    {
        match self.rest {
            [first, rest @ ..] if is_word(first, word) => {
                self.rest = rest;
                true
            }
            _ => false,
        }
    }

    /// Takes the word as often as it stands at the front, and counts it.
    pub(super) fn eat_each(&mut self, word: &[u8]) -> usize
        ensures count { result ≡ count_of_word word.now self.old }
        ensures rest { self.new ≡ drop result self.old }
    {
        let limit = self.len();
        for count in 0..limit {
            if !self.eat_word(word) {
                return count;
            }
        }
        limit
    }
}
