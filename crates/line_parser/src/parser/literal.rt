//! Literals, read from tokens.
ghost use Rattle.std.specs.Prelude.{◌≡◌, ◌∷◌, IfOk, map, option_map};
ghost use Rattle.line_parser.specs.Reading.{integer_in, text_in, truth_in};
ghost use Rattle.line_parser.specs.View.{literal_view, timed_view};
ghost use Rattle.line_tokens.specs.View.{token_view};
ghost use Rattle.script_model.specs.Literals.{Referred};
ghost use Rattle.script_model.specs.Parsing.{fold_head, literal_front, name_front, read, step_front, then_read};

use super::cursor::Cursor;
use super::word::{name_of, time_of};
use crate::name::Name;
use crate::number::integer;
use crate::tree::{Literal, TimedLiteral};
use inc_value::{Text, TextFault};
use line_tokens::{Content, Sign, Token};
use std::alloc::{AllocError, Global};

/// The literal that a word is.
pub(super) fn truth_of(word: &[u8]) -> Option<Literal>
    ensures { option_map literal_view result ≡ truth_in word.now }
{
    match word {
        b"true" => Some(Literal::Bool(true)),
        b"false" => Some(Literal::Bool(false)),
        _ => None,
    }
}

/// The literal that a sign and digits are.
fn integer_of(negative: bool, digits: &[u8]) -> Option<Literal>
    ensures { option_map literal_view result ≡ integer_in negative digits.now }
{
    Some(Literal::Integer(integer(negative, digits)?))
}

/// The literal with this content; none where it is too long for a text.
fn text_of(alloc: Global, content: &Content) -> Result<Option<Literal>, AllocError>
    ensures { IfOk result (λ found. option_map literal_view found ≡ text_in content.now) }
{
    match Text::new(alloc, content.bytes()) {
        Ok(text) => Ok(Some(Literal::Text(text))),
        Err(TextFault::Memory) => Err(AllocError),
        Err(TextFault::TooLong | TextFault::NotPrintable) => Ok(None),
    }
}

/// Reads the name behind an `&`, and so the reference.
fn reference_of(alloc: Global, tokens: &mut Cursor<'_, '_>) -> Result<Option<Literal>, AllocError>
    ensures { IfOk result (λ found. option_map (λ literal. (literal_view literal, tokens.new)) found
        ≡ then_read (name_front tokens.old) (λ name left. read (Referred name) left)) }
{
    match name_of(tokens) {
        Some(name) => Ok(Some(Literal::Reference(Name::new(alloc, name)?))),
        None => Ok(None),
    }
}

/// Reads the literal that begins with the token, and goes on with the others.
pub(super) fn literal_with<'a>(
    alloc: Global,
    first: &Token<'a>,
    tokens: &mut Cursor<'_, '_>,
) -> Result<Option<Literal>, AllocError>
    ensures { IfOk result (λ found. option_map (λ literal. (literal_view literal, tokens.new)) found
        ≡ literal_front (token_view first.now ∷ tokens.old)) }
{
    match first {
        Token::Word(word) => Ok(truth_of(word)),
        Token::Number { negative, digits } => Ok(integer_of(*negative, digits)),
        Token::Text(content) => text_of(alloc, content),
        Token::Punctuation(Sign::Ampersand) => reference_of(alloc, tokens),
        _ => Ok(None),
    }
}

/// Reads a literal.
pub(super) fn literal_of(
    alloc: Global,
    tokens: &mut Cursor<'_, '_>,
) -> Result<Option<Literal>, AllocError>
    ensures { IfOk result (λ found. option_map (λ literal. (literal_view literal, tokens.new)) found ≡ literal_front tokens.old) }
{
    match tokens.next() {
        Some(first) => literal_with(alloc, first, tokens),
        None => Ok(None),
    }
}

/// Reads `TIME: LITERAL`.
pub(super) fn step_of(
    alloc: Global,
    tokens: &mut Cursor<'_, '_>,
) -> Result<Option<TimedLiteral>, AllocError>
    ensures { IfOk result (λ found. option_map (λ step. (timed_view step, tokens.new)) found ≡ step_front tokens.old) }
{
    let Some(time) = time_of(tokens) else {
        return Ok(None);
    };
    if !tokens.eat(Sign::Colon) {
        return Ok(None);
    }
    let literal = found!(literal_of(alloc, tokens));
    Ok(Some(TimedLiteral { time, literal }))
}

/// Reads `NAME from LITERAL`, which a fold begins with.
pub(super) fn fold_head(
    alloc: Global,
    tokens: &mut Cursor<'_, '_>,
) -> Result<Option<(Name, Literal)>, AllocError>
    ensures { IfOk result (λ found. option_map (λ head. ((head.0, literal_view head.1), tokens.new)) found ≡ fold_head tokens.old) }
{
    let Some(function) = name_of(tokens) else {
        return Ok(None);
    };
    if !tokens.eat_word(b"from") {
        return Ok(None);
    }
    let function = Name::new(alloc, function)?;
    let first = found!(literal_of(alloc, tokens));
    Ok(Some((function, first)))
}
