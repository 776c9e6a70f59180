//! The freezes round a formula, read from tokens.
ghost use Rattle.std.specs.Prelude.{◌≡◌, [], IfOk, map, option_map};
ghost use Rattle.line_parser.specs.Reading.{frozen_front, whens_front};
ghost use Rattle.line_parser.specs.TreeView.{tree_view};
ghost use Rattle.script_model.specs.Parsing.{when_front};

use super::cursor::Cursor;
use super::word::name_of;
use crate::name::Name;
use crate::tree::Tree;
use std::alloc::{AllocError, Global};

/// Reads `when NAME`.
fn when_of(alloc: Global, tokens: &mut Cursor<'_, '_>) -> Result<Option<Name>, AllocError>
    ensures { IfOk result (λ found. option_map (λ name. (name, tokens.new)) found ≡ when_front tokens.old) }
{
    if !tokens.eat_word(b"when") {
        return Ok(None);
    }
    match name_of(tokens) {
        Some(name) => Ok(Some(Name::new(alloc, name)?)),
        None => Ok(None),
    }
}

/// Reads `when NAME` so many times.
#[tactic(auto, using(crate::proofs::Freezes::none_more, crate::proofs::Freezes::next_more))]
fn whens_of(
    alloc: Global,
    count: usize,
    tokens: &mut Cursor<'_, '_>,
) -> Result<Option<Vec<Name>>, AllocError>
    ensures { IfOk result (λ found. option_map (λ names. (names.items, tokens.new)) found ≡ whens_front count [] tokens.old) }
{
    let mut found = Vec::new(alloc);
    for _index in 0..count {
        let name = found!(when_of(alloc, tokens));
        found.push(name)?;
    }
    Ok(Some(found))
}

/// Reads what stands behind a formula with so many freezes round it.
#[tactic(auto, using(crate::proofs::Freezes::none_frozen, crate::proofs::Freezes::some_frozen))]
pub(super) fn frozen_of(
    alloc: Global,
    freezes: usize,
    child: Tree,
    tokens: &mut Cursor<'_, '_>,
) -> Result<Option<Tree>, AllocError>
    ensures { IfOk result (λ found. option_map (λ tree. (tree_view tree, tokens.new)) found ≡ frozen_front freezes (tree_view child) tokens.old) }
{
    if freezes == 0 {
        return Ok(Some(child));
    }
    let child = Box::new(alloc, child)?;
    let predicate = found!(when_of(alloc, tokens));
    let around = found!(whens_of(alloc, freezes - 1, tokens));
    Ok(Some(Tree::Freeze {
        child,
        predicate,
        around,
    }))
}
