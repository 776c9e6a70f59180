//! Names that lines read.
ghost use Rattle.std.specs.Prelude.{◌≡◌, ◌∷◌, map, IfOk};
ghost use Rattle.std.specs.List.{list_any};
ghost use Rattle.script_model.specs.Check.{is_among, read_names, referred_names};
ghost use Rattle.script_model.specs.Parsing.{trees_of};
ghost use Rattle.formula_lang.specs.Within.{names_within, names_within_all, referred_in};
ghost use Rattle.formula_lang.specs.Rows.{is_unknown};
ghost use Rattle.line_parser.specs.TreeView.{line_view, tree_view};
ghost use Rattle.line_parser.specs.View.{literal_view, timed_view};

use crate::names::Names;
use crate::scope::{is_variable_name, named_within};
use crate::typing::is_declared;
use line_parser::{Line, Literal, Name, TimedLiteral, Tree};
use std::alloc::{AllocError, Global};

/// Whether a name that the line reads isn't declared, and is no variable of a bind where it stands.
pub(crate) fn mentions_unknown(
    alloc: Global,
    line: &Line,
    names: &Names,
) -> Result<bool, AllocError>
    ensures { IfOk result (λ is_unknown_read. is_unknown_read
        ≡ list_any (is_unknown names.entry.now) (read_names (line_view line.now))) }
{
    match line {
        Line::Var { first, .. } | Line::Expert { first, .. } => {
            Ok(has_unknown_reference(names, first))
        }
        Line::Set { name, value } => {
            Ok(!is_declared(names, name) || has_unknown_reference(names, value))
        }
        Line::Let { formula, .. } => has_unknown_name(alloc, names, &[], formula),
        Line::Link { expert, name } | Line::Unlink { expert, name } => {
            Ok(!is_declared(names, expert) || !is_declared(names, name))
        }
        Line::Stale { expert: name } | Line::Grab { bind: name, .. } | Line::Observe { name, .. } =>
            Ok(!is_declared(names, name)),
        _ => Ok(false),
    }
}

/// Whether a name that a formula reads within binds of these variables isn't declared, and is no variable of a bind where
/// it stands.
#[cycle(names_of)]
fn has_unknown_name(
    alloc: Global,
    names: &Names,
    variables: &[Name],
    tree: &Tree,
) -> Result<bool, AllocError>
    ensures { IfOk result (λ unknown. unknown ≡ list_any (is_unknown names.entry.now) (names_within variables.now (tree_view tree.now))) }
{
    match tree {
        Tree::Literal(literal) => Ok(has_unknown_reference(names, literal)),
        Tree::Name(name) => Ok(!is_variable_name(variables, name) && !is_declared(names, name)),
        Tree::Call { arguments, .. } => have_unknown_name(alloc, names, variables, arguments),
        Tree::Fold {
            first,
            elements,
            ..
        } => {
            let elements = have_unknown_name(alloc, names, variables, elements)?;
            Ok(has_unknown_reference(names, first) | elements)
        }
        Tree::If {
            test,
            then_side,
            else_side,
        } => {
            let test = has_unknown_name(alloc, names, variables, test)?;
            let then_side = has_unknown_name(alloc, names, variables, then_side)?;
            let else_side = has_unknown_name(alloc, names, variables, else_side)?;
            Ok(test | then_side | else_side)
        }
        Tree::Bind {
            variable,
            left,
            body,
        } => {
            let left = has_unknown_name(alloc, names, variables, left)?;
            let body = has_unknown_name_within(alloc, names, variables, variable, body)?;
            Ok(left | body)
        }
        Tree::Join { child } => has_unknown_name(alloc, names, variables, child),
        Tree::Steps { first, steps } => {
            Ok(has_unknown_reference(names, first) | have_unknown_reference(names, steps))
        }
        Tree::Freeze { child, .. } => has_unknown_name(alloc, names, variables, child),
        Tree::At(_) | Tree::Now | Tree::After(_) | Tree::Every(_) => Ok(false),
    }
}

/// The same of the body of a bind within the others.
#[cycle(names_of)]
fn has_unknown_name_within(
    alloc: Global,
    names: &Names,
    variables: &[Name],
    variable: &Name,
    body: &Tree,
) -> Result<bool, AllocError>
    ensures { IfOk result (λ unknown. unknown
        ≡ list_any (is_unknown names.entry.now) (names_within (variable.now ∷ variables.now) (tree_view body.now))) }
{
    match named_within(alloc, variable, variables) {
        Ok(variables) => {
            let unknown = has_unknown_name(alloc, names, &variables, body);
            drop(variables);
            unknown
        }
        Err(fault) => Err(fault),
    }
}

/// Whether a name that one of the formulas reads isn't declared, and is no variable of a bind where it stands.
#[cycle(names_of)]
fn have_unknown_name(
    alloc: Global,
    names: &Names,
    variables: &[Name],
    trees: &[Tree],
) -> Result<bool, AllocError>
    ensures { IfOk result (λ unknown. unknown
        ≡ list_any (is_unknown names.entry.now) (names_within_all variables.now (trees_of (map tree_view trees.now)))) }
{
    for tree in trees {
        if has_unknown_name(alloc, names, variables, tree)? {
            return Ok(true);
        }
    }
    Ok(false)
}

/// Whether a name that the literal of one of the steps refers to isn't declared.
fn have_unknown_reference(names: &Names, steps: &[TimedLiteral]) -> bool
    ensures { result ≡ list_any (is_unknown names.entry.now) (referred_in (map timed_view steps.now)) }
{
    for step in steps {
        if has_unknown_reference(names, &step.literal) {
            return true;
        }
    }
    false
}

/// Whether a name that a literal refers to isn't declared. A variable of a bind doesn't count.
fn has_unknown_reference(names: &Names, literal: &Literal) -> bool
    ensures { result ≡ list_any (is_unknown names.entry.now) (referred_names (literal_view literal.now)) }
{
    match literal {
        Literal::Reference(name) => !is_declared(names, name),
        Literal::Integer(_) | Literal::Bool(_) | Literal::Text(_) => false,
    }
}
