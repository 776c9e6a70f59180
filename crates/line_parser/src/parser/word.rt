//! Words, types, times and spans, read from tokens.
ghost use Rattle.std.specs.Prelude.{◌≡◌, map, option_map};
ghost use Rattle.std.specs.Str.{bytes_eq};
ghost use Rattle.line_parser.specs.Reading.{base_in, name_in, span_in, word_in};
ghost use Rattle.line_parser.specs.View.{time_view};
ghost use Rattle.line_tokens.specs.View.{token_view};
ghost use Rattle.script_model.specs.Parsing.{base_front, base_named, name_front, span_front, time_front, type_front};

use super::cursor::Cursor;
use crate::number::{time, time_without_unit};
use crate::reserved::is_name;
use crate::tree::Time;
use inc_value::{Base, Ty};
use line_tokens::Token;

/// Whether a word is the wanted one.
pub(super) fn equals(word: &[u8], wanted: &[u8]) -> bool
    ensures { result ≡ bytes_eq word.now wanted.now }
{
    word == wanted
}

/// The word that a token is.
pub(super) fn word_in<'t, 'a>(token: &'t Token<'a>) -> Option<&'t [u8]>
    ensures { option_map (λ word. word.now) result ≡ word_in (token_view token.now) }
{
    match token {
        Token::Word(word) => Some(*word),
        _ => None,
    }
}

/// The name that a token is: a word that is not reserved.
fn name_in<'t, 'a>(token: &'t Token<'a>) -> Option<&'t [u8]>
    ensures { option_map (λ name. name.now) result ≡ name_in (token_view token.now) }
{
    match token {
        Token::Word(word) if is_name(word) => Some(*word),
        _ => None,
    }
}

/// Reads a name.
pub(super) fn name_of<'t>(tokens: &mut Cursor<'t, '_>) -> Option<&'t [u8]>
    ensures { option_map (λ name. (name.now, tokens.new)) result ≡ name_front tokens.old }
{
    name_in(tokens.next()?)
}

/// The base type with this name.
fn base_named(word: &[u8]) -> Option<Base>
    ensures { result ≡ base_named word.now }
{
    match word {
        b"int" => Some(Base::Int),
        b"bool" => Some(Base::Bool),
        b"text" => Some(Base::Text),
        _ => None,
    }
}

/// The base type that a token names.
fn base_in<'a>(token: &Token<'a>) -> Option<Base>
    ensures { result ≡ base_in (token_view token.now) }
{
    match token {
        Token::Word(word) => base_named(word),
        _ => None,
    }
}

/// Reads a base type.
fn base_of(tokens: &mut Cursor<'_, '_>) -> Option<Base>
    ensures { option_map (λ base. (base, tokens.new)) result ≡ base_front tokens.old }
{
    base_in(tokens.next()?)
}

/// Reads a type.
pub(super) fn type_of(tokens: &mut Cursor<'_, '_>) -> Option<Ty>
    ensures { option_map (λ ty. (ty, tokens.new)) result ≡ type_front tokens.old }
{
    let Some(token) = tokens.next() else {
        return None;
    };
    let Some(word) = word_in(token) else {
        return None;
    };
    if equals(word, b"node") {
        match base_of(tokens) {
            Some(base) => Some(Ty::Node(base)),
            None => None,
        }
    } else {
        match base_named(word) {
            Some(base) => Some(base.ty()),
            None => None,
        }
    }
}

/// The span that a token is.
fn span_in<'a>(token: &Token<'a>) -> Option<Time>
    ensures { option_map time_view result ≡ span_in (token_view token.now) }
{
    match token {
        Token::Time { digits, unit } => Some(time(digits, *unit)),
        Token::Number {
            negative: false,
            digits,
        } => Some(time_without_unit(digits)),
        _ => None,
    }
}

/// Reads a span.
pub(super) fn span_of(tokens: &mut Cursor<'_, '_>) -> Option<Time>
    ensures { option_map (λ span. (time_view span, tokens.new)) result ≡ span_front tokens.old }
{
    span_in(tokens.next()?)
}

/// Reads a time, which is written as the span since time 0.
pub(super) fn time_of(tokens: &mut Cursor<'_, '_>) -> Option<Time>
    ensures { option_map (λ time. (time_view time, tokens.new)) result ≡ time_front tokens.old }
{
    span_of(tokens)
}
