//! Commands, read from tokens.
ghost use Rattle.std.specs.Prelude.{◌≡◌, IfOk, map, option_map};
ghost use Rattle.line_parser.specs.Reading.{span_alone, stabilize_alone, time_alone};
ghost use Rattle.line_parser.specs.TreeView.{line_view};
ghost use Rattle.line_parser.specs.View.{time_view};
ghost use Rattle.line_tokens.specs.View.{token_view};
ghost use Rattle.script_model.specs.Grammar.{Advance, AdvanceTo};
ghost use Rattle.script_model.specs.Parsing.{command_read, command_with, expert_read, expert_with, let_read, observer_with, set_read, span_front, time_front, turn_with, var_read, whole};

use super::cursor::Cursor;
use super::formula::formula_of;
use super::literal::{fold_head, literal_of};
use super::names::{OneName, TwoNames, one_name_of, two_names_of};
use super::word::{equals, name_of, span_of, time_of, type_of};
use crate::name::Name;
use crate::tree::{Line, Time};
use line_tokens::Token;
use std::alloc::{AllocError, Global};

/// Reads a span, behind which nothing is left.
fn span_alone(tokens: &mut Cursor<'_, '_>) -> Option<Time>
    ensures { option_map time_view result ≡ span_alone tokens.old }
{
    let span = span_of(tokens)?;
    if tokens.is_empty() { Some(span) } else { None }
}

/// Reads a time, behind which nothing is left.
fn time_alone(tokens: &mut Cursor<'_, '_>) -> Option<Time>
    ensures { option_map time_view result ≡ time_alone tokens.old }
{
    let time = time_of(tokens)?;
    if tokens.is_empty() { Some(time) } else { None }
}

/// `var NAME TYPE LITERAL`, behind its first word.
fn var_of(alloc: Global, tokens: &mut Cursor<'_, '_>) -> Result<Option<Line>, AllocError>
    ensures { IfOk result (λ found. option_map line_view found ≡ var_read tokens.old) }
{
    let Some(name) = name_of(tokens) else {
        return Ok(None);
    };
    let Some(ty) = type_of(tokens) else {
        return Ok(None);
    };
    let first = found!(literal_of(alloc, tokens));
    if !tokens.is_empty() {
        drop(first);
        return Ok(None);
    }
    match Name::new(alloc, name) {
        Ok(name) => Ok(Some(Line::Var { name, ty, first })),
        Err(error) => {
            drop(first);
            Err(error)
        }
    }
}

/// `set NAME LITERAL`, behind its first word.
fn set_of(alloc: Global, tokens: &mut Cursor<'_, '_>) -> Result<Option<Line>, AllocError>
    ensures { IfOk result (λ found. option_map line_view found ≡ set_read tokens.old) }
{
    let Some(name) = name_of(tokens) else {
        return Ok(None);
    };
    let value = found!(literal_of(alloc, tokens));
    if !tokens.is_empty() {
        drop(value);
        return Ok(None);
    }
    match Name::new(alloc, name) {
        Ok(name) => Ok(Some(Line::Set { name, value })),
        Err(error) => {
            drop(value);
            Err(error)
        }
    }
}

/// `let NAME FORMULA`, behind its first word.
fn let_of(alloc: Global, tokens: &mut Cursor<'_, '_>) -> Result<Option<Line>, AllocError>
    ensures { IfOk result (λ found. option_map line_view found ≡ let_read tokens.old) }
{
    let Some(name) = name_of(tokens) else {
        return Ok(None);
    };
    let depth = tokens.len() + 1;
    let formula = found!(formula_of(alloc, depth, tokens));
    if !tokens.is_empty() {
        drop(formula);
        return Ok(None);
    }
    match Name::new(alloc, name) {
        Ok(name) => Ok(Some(Line::Let { name, formula })),
        Err(error) => {
            drop(formula);
            Err(error)
        }
    }
}

/// `expert NAME fold NAME from LITERAL`, behind its first word.
fn expert_of(alloc: Global, tokens: &mut Cursor<'_, '_>) -> Result<Option<Line>, AllocError>
    ensures { IfOk result (λ found. option_map line_view found ≡ expert_read tokens.old) }
{
    let Some(name) = name_of(tokens) else {
        return Ok(None);
    };
    if !tokens.eat_word(b"fold") {
        return Ok(None);
    }
    let (function, first) = found!(fold_head(alloc, tokens));
    if !tokens.is_empty() {
        return Ok(None);
    }
    Ok(Some(Line::Expert {
        name: Name::new(alloc, name)?,
        function,
        first,
    }))
}

/// `advance SPAN`, behind its first word.
fn advance_of(tokens: &mut Cursor<'_, '_>) -> Option<Line>
    ensures { option_map line_view result ≡ whole (span_front tokens.old) Advance }
{
    Some(Line::Advance {
        span: span_alone(tokens)?,
    })
}

/// `advance-to TIME`, behind its first token.
fn advance_to_of(tokens: &mut Cursor<'_, '_>) -> Option<Line>
    ensures { option_map line_view result ≡ whole (time_front tokens.old) AdvanceTo }
{
    Some(Line::AdvanceTo {
        time: time_alone(tokens)?,
    })
}

/// `stabilize`, behind which nothing is left.
fn stabilize_of(tokens: &Cursor<'_, '_>) -> Option<Line>
    ensures { option_map line_view result ≡ stabilize_alone tokens.now }
{
    if tokens.is_empty() {
        Some(Line::Stabilize)
    } else {
        None
    }
}

/// The command that begins with `word` and goes on with `tokens`.
fn command_with(
    alloc: Global,
    word: &[u8],
    tokens: &mut Cursor<'_, '_>,
) -> Result<Option<Line>, AllocError>
    ensures { IfOk result (λ found. option_map line_view found ≡ command_with word.now tokens.old) }
{
    if equals(word, b"var") {
        var_of(alloc, tokens)
    } else if equals(word, b"set") {
        set_of(alloc, tokens)
    } else if equals(word, b"let") {
        let_of(alloc, tokens)
    } else {
        expert_with(alloc, word, tokens)
    }
}

/// So, of experts, grabs and observers, the clock and the stabilize.
fn expert_with(
    alloc: Global,
    word: &[u8],
    tokens: &mut Cursor<'_, '_>,
) -> Result<Option<Line>, AllocError>
    ensures { IfOk result (λ found. option_map line_view found ≡ expert_with word.now tokens.old) }
{
    if equals(word, b"expert") {
        expert_of(alloc, tokens)
    } else if equals(word, b"link") {
        two_names_of(alloc, TwoNames::Link, tokens)
    } else if equals(word, b"unlink") {
        two_names_of(alloc, TwoNames::Unlink, tokens)
    } else if equals(word, b"stale") {
        one_name_of(alloc, OneName::Stale, tokens)
    } else if equals(word, b"grab") {
        two_names_of(alloc, TwoNames::Grab, tokens)
    } else {
        observer_with(alloc, word, tokens)
    }
}

/// So, of observers, the clock and the stabilize.
fn observer_with(
    alloc: Global,
    word: &[u8],
    tokens: &mut Cursor<'_, '_>,
) -> Result<Option<Line>, AllocError>
    ensures { IfOk result (λ found. option_map line_view found ≡ observer_with word.now tokens.old) }
{
    if equals(word, b"observe") {
        two_names_of(alloc, TwoNames::Observe, tokens)
    } else if equals(word, b"unobserve") {
        one_name_of(alloc, OneName::Unobserve, tokens)
    } else if equals(word, b"watch") {
        one_name_of(alloc, OneName::Watch, tokens)
    } else if equals(word, b"show") {
        one_name_of(alloc, OneName::Show, tokens)
    } else {
        Ok(turn_with(word, tokens))
    }
}

/// So, of the clock and the stabilize.
fn turn_with(word: &[u8], tokens: &mut Cursor<'_, '_>) -> Option<Line>
    ensures { option_map line_view result ≡ turn_with word.now tokens.old }
{
    if equals(word, b"advance") {
        advance_of(tokens)
    } else if equals(word, b"stabilize") {
        stabilize_of(tokens)
    } else {
        None
    }
}

/// The command that the tokens are.
pub(super) fn command_of(alloc: Global, tokens: &[Token<'_>]) -> Result<Option<Line>, AllocError>
    ensures { IfOk result (λ found. option_map line_view found ≡ command_read (map token_view tokens.now)) }
{
    let mut tokens = Cursor::new(tokens);
    match tokens.next() {
        Some(Token::Word(word)) => command_with(alloc, word, &mut tokens),
        Some(Token::AdvanceTo) => Ok(advance_to_of(&mut tokens)),
        _ => Ok(None),
    }
}
