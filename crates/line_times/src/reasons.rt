//! Why lines are refused for their times and spans, and for forms that have to be the whole of a declared formula.
ghost use Rattle.std.specs.Prelude.{◌≡◌, ◌||◌, true, ℕ, List, is_none};
ghost use Rattle.std.specs.List.{list_any};
ghost use Rattle.script_model.specs.Check.{has_falling_times, inner_trees, is_back, is_empty_interval, is_past, is_top_form, spans_of, times_of, trees_of};
ghost use Rattle.script_model.specs.Grammar.{Let};
ghost use Rattle.line_parser.specs.TreeView.{line_view, tree_view};

use crate::nanoseconds::{Nanoseconds, is_past, is_too_large, nanoseconds_of};
use crate::search::{Sought, holds};
use line_parser::{Line, Tree};

/// Whether a formula is of a form that has to be the whole of a declared one.
pub fn is_top_form(tree: &Tree) -> bool
    ensures { result ≡ is_top_form (tree_view tree.now) }
{
    match tree {
        Tree::After(_) | Tree::Every(_) => true,
        Tree::Freeze { .. } => true,
        Tree::Literal(_)
        | Tree::Name(_)
        | Tree::Now
        | Tree::Call { .. }
        | Tree::Fold { .. }
        | Tree::If { .. }
        | Tree::Bind { .. }
        | Tree::Join { .. }
        | Tree::At(_)
        | Tree::Steps { .. } => false,
    }
}

/// Whether a form that has to be the whole of a declared formula stands elsewhere.
pub fn is_not_whole(line: &Line) -> bool
    ensures { result ≡ list_any is_top_form (inner_trees (line_view line.now)) }
{
    match line {
        Line::Let { formula, .. } => holds_top_form(formula),
        _ => false,
    }
}

/// Whether a form that has to be the whole of a declared formula stands within a formula.
fn holds_top_form(tree: &Tree) -> bool
    ensures { (name : List ℕ) → result ≡ list_any is_top_form (inner_trees (Let name (tree_view tree.now))) }
{
    match tree {
        Tree::Freeze { child, around, .. } => match around.as_slice() {
            [] => holds(Sought::TopForm, child),
            [_, ..] => true,
        },
        Tree::After(_) | Tree::Every(_) => false,
        Tree::Literal(_)
        | Tree::Name(_)
        | Tree::Now
        | Tree::Call { .. }
        | Tree::Fold { .. }
        | Tree::If { .. }
        | Tree::Bind { .. }
        | Tree::Join { .. }
        | Tree::At(_)
        | Tree::Steps { .. } => holds(Sought::TopForm, tree),
    }
}

/// Whether a formula is a span from now on that ends beyond the greatest time.
fn ends_too_late(tree: &Tree, now: Nanoseconds) -> bool
    ensures { (name : List ℕ) → result ≡ list_any (is_past now) (spans_of (Let name (tree_view tree.now))) }
{
    match tree {
        Tree::After(span) => is_past(*span, now),
        Tree::Literal(_)
        | Tree::Name(_)
        | Tree::Now
        | Tree::Call { .. }
        | Tree::Fold { .. }
        | Tree::If { .. }
        | Tree::Bind { .. }
        | Tree::Join { .. }
        | Tree::At(_)
        | Tree::Steps { .. }
        | Tree::Every(_) => false,
        Tree::Freeze { .. } => false,
    }
}

/// Whether a time or a span of the line is too large, or the end of a span from now on.
pub fn is_time_too_large(line: &Line, now: Nanoseconds) -> bool
    ensures { result ≡ (list_any is_none (times_of (line_view line.now)) || list_any (is_past now) (spans_of (line_view line.now))) }
{
    match line {
        Line::Let { formula, .. } => holds(Sought::LargeTime, formula)
            | ends_too_late(formula, now),
        Line::Advance { span } => is_past(*span, now),
        Line::AdvanceTo { time } => is_too_large(*time),
        _ => false,
    }
}

/// Whether the times of some steps of the line don't rise strictly.
pub fn is_not_rising(line: &Line) -> bool
    ensures { result ≡ list_any has_falling_times (trees_of (line_view line.now)) }
{
    match line {
        Line::Let { formula, .. } => holds(Sought::FallingTimes, formula),
        _ => false,
    }
}

/// Whether a span of the line that is to be counted is empty.
pub fn is_span_zero(line: &Line) -> bool
    ensures { result ≡ list_any is_empty_interval (trees_of (line_view line.now)) }
{
    match line {
        Line::Let { formula, .. } => holds(Sought::EmptySpan, formula),
        _ => false,
    }
}

/// Whether the clock would go back.
pub fn is_back(line: &Line, now: Nanoseconds) -> bool
    ensures { result ≡ is_back now (line_view line.now) }
{
    match line {
        Line::AdvanceTo { time } => nanoseconds_of(*time).count() < now.count(),
        _ => false,
    }
}
