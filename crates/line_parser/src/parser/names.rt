//! Commands of one name or of two, read from tokens.
ghost use Rattle.std.specs.Prelude.{◌≡◌, IfOk, option_map};
ghost use Rattle.line_parser.specs.Naming.{of_one_name, of_two_names};
ghost use Rattle.line_parser.specs.Reading.{name_alone, names_alone};
ghost use Rattle.line_parser.specs.TreeView.{line_view};
ghost use Rattle.script_model.specs.Parsing.{one_name, two_names};

use super::cursor::Cursor;
use super::word::name_of;
use crate::name::Name;
use crate::tree::Line;
use std::alloc::{AllocError, Global};

/// A command of one name.
#[derive(Clone, Copy)]
pub(super) enum OneName {
    Stale,
    Unobserve,
    Watch,
    Show,
}

/// A command of two names.
#[derive(Clone, Copy)]
pub(super) enum TwoNames {
    Link,
    Unlink,
    Grab,
    Observe,
}

/// Reads a name, behind which nothing is left.
fn name_alone(alloc: Global, tokens: &mut Cursor<'_, '_>) -> Result<Option<Name>, AllocError>
    ensures { IfOk result (λ name. name ≡ name_alone tokens.old) }
{
    let Some(name) = name_of(tokens) else {
        return Ok(None);
    };
    if !tokens.is_empty() {
        return Ok(None);
    }
    Ok(Some(Name::new(alloc, name)?))
}

/// Reads two names, behind which nothing is left.
fn names_alone(
    alloc: Global,
    tokens: &mut Cursor<'_, '_>,
) -> Result<Option<(Name, Name)>, AllocError>
    ensures { IfOk result (λ names. names ≡ names_alone tokens.old) }
{
    let Some(first) = name_of(tokens) else {
        return Ok(None);
    };
    let Some(second) = name_of(tokens) else {
        return Ok(None);
    };
    if !tokens.is_empty() {
        return Ok(None);
    }
    let first = Name::new(alloc, first)?;
    match Name::new(alloc, second) {
        Ok(second) => Ok(Some((first, second))),
        Err(error) => {
            drop(first);
            Err(error)
        }
    }
}

/// The command of the name.
fn with_name(command: OneName, name: Name) -> Line
    ensures { line_view result ≡ of_one_name command name }
{
    match command {
        OneName::Stale => Line::Stale { expert: name },
        OneName::Unobserve => Line::Unobserve { observer: name },
        OneName::Watch => Line::Watch { observer: name },
        OneName::Show => Line::Show { observer: name },
    }
}

/// The command of the names.
fn with_names(command: TwoNames, first: Name, second: Name) -> Line
    ensures { line_view result ≡ of_two_names command first second }
{
    match command {
        TwoNames::Link => Line::Link {
            expert: first,
            name: second,
        },
        TwoNames::Unlink => Line::Unlink {
            expert: first,
            name: second,
        },
        TwoNames::Grab => Line::Grab {
            name: first,
            bind: second,
        },
        TwoNames::Observe => Line::Observe {
            observer: first,
            name: second,
        },
    }
}

/// Reads the name of a command, behind its first word.
#[tactic(auto, using(crate::proofs::Steps::one_alone))]
pub(super) fn one_name_of(
    alloc: Global,
    command: OneName,
    tokens: &mut Cursor<'_, '_>,
) -> Result<Option<Line>, AllocError>
    ensures { IfOk result (λ found. option_map line_view found ≡ one_name (of_one_name command) tokens.old) }
{
    let name = found!(name_alone(alloc, tokens));
    Ok(Some(with_name(command, name)))
}

/// Reads the names of a command, behind its first word.
#[tactic(auto, using(crate::proofs::Steps::both_alone))]
pub(super) fn two_names_of(
    alloc: Global,
    command: TwoNames,
    tokens: &mut Cursor<'_, '_>,
) -> Result<Option<Line>, AllocError>
    ensures { IfOk result (λ found. option_map line_view found ≡ two_names (of_two_names command) tokens.old) }
{
    let (first, second) = found!(names_alone(alloc, tokens));
    Ok(Some(with_names(command, first, second)))
}
