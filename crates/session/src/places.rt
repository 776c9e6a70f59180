//! Counting the places of formulas.
ghost use Rattle.std.specs.Prelude.{◌≡◌, ◌<◌, ◌+◌, map, MatchOption};
ghost use Rattle.formula_lang.specs.CommandView.{body_view, formula_view, formulas_of};
ghost use Rattle.script_model.specs.Formula.{places_in, places_in_all, places_of_body};

use formula_lang::{Declaration, Formula};

/// The room that is left behind a formula's places; none where they don't fit.
#[cycle(room)]
pub(crate) fn room_behind(formula: &Formula, room: usize) -> Option<usize>
    ensures { MatchOption result (room < places_in (formula_view formula.now)) (λ left. left + places_in (formula_view formula.now) ≡ room) }
{
    match formula {
        Formula::Literal(_) | Formula::At(_) | Formula::Steps { .. } | Formula::Now => {
            room.checked_sub(1)
        }
        Formula::Name(_) | Formula::Bound(_) => Some(room),
        Formula::Apply { arguments, .. } => room_behind_each(arguments, room)?.checked_sub(1),
        Formula::Fold { elements, .. } => room_behind_each(elements, room)?.checked_sub(1),
        Formula::If { test, yes, no } => {
            let left = room_behind(test, room)?;
            let left = room_behind(yes, left)?;
            room_behind(no, left)?.checked_sub(1)
        }
        Formula::Join(child) => room_behind(child, room)?.checked_sub(1),
        Formula::Bind { left, body } => {
            let left_over = room_behind(left, room)?;
            room_behind(body, left_over)?.checked_sub(2)
        }
    }
}

/// The room that is left behind the places of formulas; none where they don't fit.
#[cycle(room)]
fn room_behind_each(formulas: &[Formula], room: usize) -> Option<usize>
    ensures { let count = places_in_all (formulas_of (map formula_view formulas.now)) in MatchOption result (room < count) (λ left. left + count ≡ room) }
{
    let mut left = room;
    for formula in formulas {
        left = room_behind(formula, left)?;
    }
    Some(left)
}

/// The room that is left behind the places of what is declared; none where they don't fit.
pub(crate) fn room_behind_body(body: &Declaration, room: usize) -> Option<usize>
    ensures { MatchOption result (room < places_of_body (body_view body.now)) (λ left. left + places_of_body (body_view body.now) ≡ room) }
{
    match body {
        Declaration::Variable(_)
        | Declaration::After(_)
        | Declaration::Every { .. }
        | Declaration::Expert { .. } => room.checked_sub(1),
        Declaration::Frozen { child, .. } => room_behind(child, room)?.checked_sub(1),
        Declaration::Computed(formula) => room_behind(formula, room),
    }
}
