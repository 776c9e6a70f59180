//! Formulas, searched for what lines are refused for.
ghost use Rattle.std.specs.Prelude.{◌≡◌, map};
ghost use Rattle.std.specs.List.{list_any};
ghost use Rattle.script_model.specs.Check.{trees_in, trees_in_all};
ghost use Rattle.script_model.specs.Parsing.{trees_of};
ghost use Rattle.line_parser.specs.TreeView.{tree_view};
ghost use Rattle.line_parser.specs.View.{time_view, timed_view};
ghost use Rattle.line_times.specs.Sought.{after_has, at_has, every_has, freeze_has, is_sought, steps_have};

use crate::nanoseconds::{is_empty, is_too_large};
use crate::steps::{do_rise, have_large_time};
use line_parser::{Time, TimedLiteral, Tree};

/// What is looked for in formulas.
#[derive(Clone, Copy)]
pub(crate) enum Sought {
    /// A form that has to be the whole of a declared formula.
    TopForm,
    /// A time or a span that is too large.
    LargeTime,
    /// Steps whose times don't rise strictly.
    FallingTimes,
    /// A span to be counted that is empty.
    EmptySpan,
}

/// Whether an `at` with the time is what is sought.
fn at_has(sought: Sought, time: Time) -> bool
    ensures { result ≡ at_has sought (time_view time) }
{
    match sought {
        Sought::LargeTime => is_too_large(time),
        Sought::TopForm | Sought::FallingTimes | Sought::EmptySpan => false,
    }
}

/// Whether a `steps` with these is what is sought.
fn steps_have(sought: Sought, steps: &[TimedLiteral]) -> bool
    ensures { result ≡ steps_have sought (map timed_view steps.now) }
{
    match sought {
        Sought::LargeTime => have_large_time(steps),
        Sought::FallingTimes => !do_rise(steps),
        Sought::TopForm | Sought::EmptySpan => false,
    }
}

/// Whether an `after` with the span is what is sought.
fn after_has(sought: Sought, span: Time) -> bool
    ensures { result ≡ after_has sought (time_view span) }
{
    match sought {
        Sought::TopForm => true,
        Sought::LargeTime => is_too_large(span),
        Sought::FallingTimes | Sought::EmptySpan => false,
    }
}

/// Whether an `every` with the span is what is sought.
fn every_has(sought: Sought, span: Time) -> bool
    ensures { result ≡ every_has sought (time_view span) }
{
    match sought {
        Sought::TopForm => true,
        Sought::LargeTime => is_too_large(span),
        Sought::EmptySpan => is_empty(span),
        Sought::FallingTimes => false,
    }
}

/// Whether a freeze is what is sought.
fn freeze_has(sought: Sought) -> bool
    ensures { result ≡ freeze_has sought }
{
    match sought {
        Sought::TopForm => true,
        Sought::LargeTime | Sought::FallingTimes | Sought::EmptySpan => false,
    }
}

/// Whether a formula is or holds what is sought.
#[cycle(seek)]
#[inline(never)]
pub(crate) fn holds(sought: Sought, tree: &Tree) -> bool
    ensures { result ≡ list_any (is_sought sought) (trees_in (tree_view tree.now)) }
{
    match tree {
        Tree::Literal(_) | Tree::Name(_) | Tree::Now => false,
        Tree::Call { arguments, .. } => one_holds(sought, arguments),
        Tree::Fold { elements, .. } => one_holds(sought, elements),
        Tree::If {
            test,
            then_side,
            else_side,
        } => holds(sought, test) | holds(sought, then_side) | holds(sought, else_side),
        Tree::Bind { left, body, .. } => holds(sought, left) | holds(sought, body),
        Tree::Join { child } => holds(sought, child),
        Tree::At(time) => at_has(sought, *time),
        Tree::Steps { steps, .. } => steps_have(sought, steps),
        Tree::After(span) => after_has(sought, *span),
        Tree::Every(span) => every_has(sought, *span),
        Tree::Freeze { child, .. } => freeze_has(sought) | holds(sought, child),
    }
}

/// Whether one of the formulas is or holds what is sought.
#[cycle(seek)]
fn one_holds(sought: Sought, trees: &[Tree]) -> bool
    ensures { result ≡ list_any (is_sought sought) (trees_in_all (trees_of (map tree_view trees.now))) }
{
    for tree in trees {
        if holds(sought, tree) {
            return true;
        }
    }
    false
}
