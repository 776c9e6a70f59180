//! Formulas, read from tokens.
ghost use Rattle.std.specs.Prelude.{◌≡◌, [], IfOk, map, option_map};
ghost use Rattle.line_parser.specs.Reading.{unfrozen_front};
ghost use Rattle.line_parser.specs.TreeView.{tree_view};
ghost use Rattle.line_tokens.specs.View.{sign_view};
ghost use Rattle.script_model.specs.Parsing.{any_front, bind_front, expect, fold_front, formula_read, if_front, is_word, join_front, list_front, named_front, reserved_front};
ghost use Rattle.script_model.specs.Tokens.{sign_byte};

use super::clock::{clock_of, written};
use super::cursor::Cursor;
use super::freeze::frozen_of;
use super::literal::{fold_head, literal_with};
use super::word::{equals, name_of};
use crate::name::Name;
use crate::reserved::is_name;
use crate::tree::Tree;
use line_tokens::{Sign, Token};
use std::alloc::{AllocError, Global};

/// The most arguments that a function has.
const MAX_ARGUMENTS: usize = 9;

/// Reads a formula. At most `depth` formulas stand within one another. Freezes round it are read in a loop.
#[cycle(formula)]
#[tactic(auto, using(crate::proofs::Freezes::too_few, crate::proofs::Freezes::in_a_row))]
pub(super) fn formula_of(
    alloc: Global,
    depth: usize,
    tokens: &mut Cursor<'_, '_>,
) -> Result<Option<Tree>, AllocError>
    ensures { IfOk result (λ found. option_map (λ tree. (tree_view tree, tokens.new)) found ≡ formula_read depth tokens.old) }
{
    let freezes = tokens.eat_each(b"freeze");
    if depth <= freezes {
        return Ok(None);
    }
    let child = found!(unfrozen_of(alloc, depth - freezes - 1, tokens));
    frozen_of(alloc, freezes, child, tokens)
}

/// Reads a formula that begins with no freeze.
#[cycle(formula)]
fn unfrozen_of(
    alloc: Global,
    depth: usize,
    tokens: &mut Cursor<'_, '_>,
) -> Result<Option<Tree>, AllocError>
    ensures { IfOk result (λ found. option_map (λ tree. (tree_view tree, tokens.new)) found ≡ unfrozen_front (formula_read depth) tokens.old) }
{
    let Some(first) = tokens.next() else {
        return Ok(None);
    };
    match first {
        Token::Word(word) if is_name(word) => named_of(alloc, depth, word, tokens),
        Token::Word(word) => reserved_of(alloc, depth, word, tokens),
        _ => {
            let literal = found!(literal_with(alloc, first, tokens));
            Ok(Some(written(literal)))
        }
    }
}

/// Reads what stands behind the name: nothing, or the arguments of the function that it is.
#[cycle(formula)]
fn named_of(
    alloc: Global,
    depth: usize,
    word: &[u8],
    tokens: &mut Cursor<'_, '_>,
) -> Result<Option<Tree>, AllocError>
    ensures { IfOk result (λ found. option_map (λ tree. (tree_view tree, tokens.new)) found
        ≡ named_front (formula_read depth) word.now tokens.old) }
{
    let name = Name::new(alloc, word)?;
    if !tokens.eat(Sign::Open) {
        return Ok(Some(Tree::Name(name)));
    }
    let arguments = found!(list_of(alloc, depth, MAX_ARGUMENTS, Sign::Close, tokens));
    Ok(Some(Tree::Call {
        function: name,
        arguments,
    }))
}

/// Reads the formula that begins with the word, which is reserved and not `freeze`.
#[cycle(formula)]
fn reserved_of(
    alloc: Global,
    depth: usize,
    word: &[u8],
    tokens: &mut Cursor<'_, '_>,
) -> Result<Option<Tree>, AllocError>
    ensures { IfOk result (λ found. option_map (λ tree. (tree_view tree, tokens.new)) found
        ≡ reserved_front (formula_read depth) word.now tokens.old) }
{
    if equals(word, b"if") {
        if_of(alloc, depth, tokens)
    } else if equals(word, b"bind") {
        bind_of(alloc, depth, tokens)
    } else if equals(word, b"join") {
        join_of(alloc, depth, tokens)
    } else if equals(word, b"fold") {
        fold_of(alloc, depth, tokens)
    } else {
        clock_of(alloc, word, tokens)
    }
}

/// Reads what stands behind the word `if`: a test and two sides.
#[cycle(formula)]
fn if_of(
    alloc: Global,
    depth: usize,
    tokens: &mut Cursor<'_, '_>,
) -> Result<Option<Tree>, AllocError>
    ensures { IfOk result (λ found. option_map (λ tree. (tree_view tree, tokens.new)) found ≡ if_front (formula_read depth) tokens.old) }
{
    let test = found!(boxed_of(alloc, depth, tokens));
    let then_side = found!(side_of(alloc, depth, b"then", tokens));
    let else_side = found!(side_of(alloc, depth, b"else", tokens));
    Ok(Some(Tree::If {
        test,
        then_side,
        else_side,
    }))
}

/// Reads what stands behind the word `bind`: a variable, a left side and a body.
#[cycle(formula)]
fn bind_of(
    alloc: Global,
    depth: usize,
    tokens: &mut Cursor<'_, '_>,
) -> Result<Option<Tree>, AllocError>
    ensures { IfOk result (λ found. option_map (λ tree. (tree_view tree, tokens.new)) found ≡ bind_front (formula_read depth) tokens.old) }
{
    let Some(variable) = name_of(tokens) else {
        return Ok(None);
    };
    if !tokens.eat(Sign::Equals) {
        return Ok(None);
    }
    let left = found!(boxed_of(alloc, depth, tokens));
    let body = found!(side_of(alloc, depth, b"in", tokens));
    Ok(Some(Tree::Bind {
        variable: Name::new(alloc, variable)?,
        left,
        body,
    }))
}

/// Reads the word, and the formula behind it.
#[cycle(formula)]
fn side_of(
    alloc: Global,
    depth: usize,
    word: &[u8],
    tokens: &mut Cursor<'_, '_>,
) -> Result<Option<Box<Tree>>, AllocError>
    ensures { IfOk result (λ found. option_map (λ tree. (tree_view tree.value, tokens.new)) found
        ≡ expect (is_word word.now) tokens.old (formula_read depth)) }
{
    if !tokens.eat_word(word) {
        return Ok(None);
    }
    boxed_of(alloc, depth, tokens)
}

/// Reads a formula, onto the heap.
#[cycle(formula)]
fn boxed_of(
    alloc: Global,
    depth: usize,
    tokens: &mut Cursor<'_, '_>,
) -> Result<Option<Box<Tree>>, AllocError>
    ensures { IfOk result (λ found. option_map (λ tree. (tree_view tree.value, tokens.new)) found ≡ formula_read depth tokens.old) }
{
    let tree = found!(formula_of(alloc, depth, tokens));
    Ok(Some(Box::new(alloc, tree)?))
}

/// Reads what stands behind the word `join`.
#[cycle(formula)]
fn join_of(
    alloc: Global,
    depth: usize,
    tokens: &mut Cursor<'_, '_>,
) -> Result<Option<Tree>, AllocError>
    ensures { IfOk result (λ found. option_map (λ tree. (tree_view tree, tokens.new)) found ≡ join_front (formula_read depth) tokens.old) }
{
    if !tokens.eat(Sign::Open) {
        return Ok(None);
    }
    let child = found!(boxed_of(alloc, depth, tokens));
    if tokens.eat(Sign::Close) {
        Ok(Some(Tree::Join { child }))
    } else {
        Ok(None)
    }
}

/// Reads what stands behind the word `fold`: a function, a first value, and the elements.
#[cycle(formula)]
fn fold_of(
    alloc: Global,
    depth: usize,
    tokens: &mut Cursor<'_, '_>,
) -> Result<Option<Tree>, AllocError>
    ensures { IfOk result (λ found. option_map (λ tree. (tree_view tree, tokens.new)) found ≡ fold_front (formula_read depth) tokens.old) }
{
    let (function, first) = found!(fold_head(alloc, tokens));
    if !tokens.eat(Sign::OpenBracket) {
        return Ok(None);
    }
    let elements = found!(elements_of(alloc, depth, tokens));
    Ok(Some(Tree::Fold {
        function,
        first,
        elements,
    }))
}

/// Reads the elements of a fold, and the `]` that ends them.
#[cycle(formula)]
#[tactic(auto, using(crate::proofs::Steps::elements_eaten))]
fn elements_of(
    alloc: Global,
    depth: usize,
    tokens: &mut Cursor<'_, '_>,
) -> Result<Option<Vec<Tree>>, AllocError>
    ensures { IfOk result (λ found. option_map (λ trees. (map tree_view trees.items, tokens.new)) found
        ≡ any_front (formula_read depth) 93 tokens.old) }
{
    if tokens.eat(Sign::CloseBracket) {
        return Ok(Some(Vec::new(alloc)));
    }
    let limit = tokens.len();
    list_of(alloc, depth, limit, Sign::CloseBracket, tokens)
}

/// Reads one or more formulas, at most `limit`, with commas between them, and the sign that ends them.
#[cycle(formula)]
#[tactic(auto, using(crate::proofs::Steps::list_front_none, crate::proofs::Steps::list_front_more, crate::proofs::Steps::behind_eaten, crate::proofs::Steps::map_pushed))]
fn list_of(
    alloc: Global,
    depth: usize,
    limit: usize,
    end: Sign,
    tokens: &mut Cursor<'_, '_>,
) -> Result<Option<Vec<Tree>>, AllocError>
    ensures { IfOk result (λ found. option_map (λ trees. (map tree_view trees.items, tokens.new)) found
        ≡ list_front (formula_read depth) (sign_byte (sign_view end)) limit [] tokens.old) }
{
    let mut found = Vec::new(alloc);
    for _count in 0..limit {
        let formula = found!(formula_of(alloc, depth, tokens));
        found.push(formula)?;
        if tokens.eat(end) {
            return Ok(Some(found));
        }
        if !tokens.eat(Sign::Comma) {
            return Ok(None);
        }
    }
    Ok(None)
}
