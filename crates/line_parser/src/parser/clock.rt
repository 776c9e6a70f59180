//! What the clock gives, read from tokens.
ghost use Rattle.std.specs.Prelude.{◌≡◌, [], IfOk, map, option_map};
ghost use Rattle.line_parser.specs.Reading.{truth_in};
ghost use Rattle.line_parser.specs.TreeView.{tree_view};
ghost use Rattle.line_parser.specs.View.{literal_view, timed_view};
ghost use Rattle.script_model.specs.Grammar as grammar;
ghost use Rattle.script_model.specs.Parsing.{any_front, clock_front, list_front, read, span_front, step_front, steps_front, then_read, time_front};

use super::cursor::Cursor;
use super::literal::{literal_of, step_of, truth_of};
use super::word::{equals, span_of, time_of};
use crate::tree::{Literal, TimedLiteral, Tree};
use line_tokens::Sign;
use std::alloc::{AllocError, Global};

/// A literal as a formula.
pub(super) fn written(literal: Literal) -> Tree
    ensures { tree_view result ≡ grammar.Literal (literal_view literal) }
{
    Tree::Literal(literal)
}

/// Reads what stands behind the word `at`.
fn at_of(tokens: &mut Cursor<'_, '_>) -> Option<Tree>
    ensures { option_map (λ tree. (tree_view tree, tokens.new)) result ≡ then_read (time_front tokens.old) (λ time left. read (grammar.At time) left) }
{
    Some(Tree::At(time_of(tokens)?))
}

/// Reads what stands behind the word `after`.
fn after_of(tokens: &mut Cursor<'_, '_>) -> Option<Tree>
    ensures { option_map (λ tree. (tree_view tree, tokens.new)) result ≡ then_read (span_front tokens.old) (λ span left. read (grammar.After span) left) }
{
    Some(Tree::After(span_of(tokens)?))
}

/// Reads what stands behind the word `every`.
fn every_of(tokens: &mut Cursor<'_, '_>) -> Option<Tree>
    ensures { option_map (λ tree. (tree_view tree, tokens.new)) result ≡ then_read (span_front tokens.old) (λ span left. read (grammar.Every span) left) }
{
    Some(Tree::Every(span_of(tokens)?))
}

/// Reads one or more steps, at most `limit`, with commas between them, and the `]` that ends them.
#[tactic(auto, using(crate::proofs::Steps::list_front_none, crate::proofs::Steps::list_front_more, crate::proofs::Steps::behind_eaten, crate::proofs::Steps::steps_pushed))]
fn some_steps_of(
    alloc: Global,
    limit: usize,
    tokens: &mut Cursor<'_, '_>,
) -> Result<Option<Vec<TimedLiteral>>, AllocError>
    ensures { IfOk result (λ found. option_map (λ steps. (map timed_view steps.items, tokens.new)) found
        ≡ list_front step_front 93 limit [] tokens.old) }
{
    let mut found = Vec::new(alloc);
    for _count in 0..limit {
        let step = found!(step_of(alloc, tokens));
        found.push(step)?;
        if tokens.eat(Sign::CloseBracket) {
            return Ok(Some(found));
        }
        if !tokens.eat(Sign::Comma) {
            return Ok(None);
        }
    }
    Ok(None)
}

/// Reads the steps behind a `[`, and the `]` that ends them.
#[tactic(auto, using(crate::proofs::Steps::steps_eaten))]
fn any_steps_of(
    alloc: Global,
    tokens: &mut Cursor<'_, '_>,
) -> Result<Option<Vec<TimedLiteral>>, AllocError>
    ensures { IfOk result (λ found. option_map (λ steps. (map timed_view steps.items, tokens.new)) found
        ≡ any_front step_front 93 tokens.old) }
{
    if tokens.eat(Sign::CloseBracket) {
        return Ok(Some(Vec::new(alloc)));
    }
    let limit = tokens.len();
    some_steps_of(alloc, limit, tokens)
}

/// Reads what stands behind the word `steps`: a first value, and the steps.
fn steps_of(alloc: Global, tokens: &mut Cursor<'_, '_>) -> Result<Option<Tree>, AllocError>
    ensures { IfOk result (λ found. option_map (λ tree. (tree_view tree, tokens.new)) found ≡ steps_front tokens.old) }
{
    let first = found!(literal_of(alloc, tokens));
    if !tokens.eat(Sign::OpenBracket) {
        return Ok(None);
    }
    let steps = found!(any_steps_of(alloc, tokens));
    Ok(Some(Tree::Steps { first, steps }))
}

/// Reads what the clock gives, or a literal, that begins with the word.
pub(super) fn clock_of(
    alloc: Global,
    word: &[u8],
    tokens: &mut Cursor<'_, '_>,
) -> Result<Option<Tree>, AllocError>
    ensures { IfOk result (λ found. option_map (λ tree. (tree_view tree, tokens.new)) found ≡ clock_front word.now tokens.old) }
{
    if equals(word, b"at") {
        Ok(at_of(tokens))
    } else if equals(word, b"now") {
        Ok(Some(Tree::Now))
    } else if equals(word, b"steps") {
        steps_of(alloc, tokens)
    } else if equals(word, b"after") {
        Ok(after_of(tokens))
    } else if equals(word, b"every") {
        Ok(every_of(tokens))
    } else {
        Ok(truth_tree(word))
    }
}

/// The formula that is the truth value with this name.
fn truth_tree(word: &[u8]) -> Option<Tree>
    ensures { option_map tree_view result ≡ option_map grammar.Literal (truth_in word.now) }
{
    Some(written(truth_of(word)?))
}
