//! The right sides that changes chose.
ghost use Rattle.std.specs.Prelude.{◌≡◌, ◌↔◌, Some, IsTrue};
ghost use Rattle.inc_terms.specs.Code.{def_of};
ghost use Rattle.inc_terms.specs.Depend.{change};
ghost use Rattle.point_map.specs.Rows.{at};
ghost use Rattle.node_outcomes.specs.Choosing.{right_in};
ghost use Rattle.node_outcomes.specs.Row.{outcome_in};

use crate::row::Progress;
use inc_terms::Def;
use inc_value::{NodeId, Outcome, Point};
use point_map::PointMap;
use slot_map::SlotMap;

/// The right side of a node that is so defined: the one that its change's outcome chooses, if it ran and chose one. A
/// bind's is its root, which stands among the roots by its change.
pub fn right_side(
    rows: &SlotMap<Progress>,
    roots: &PointMap<NodeId>,
    node: NodeId,
    def: &Def,
) -> Option<NodeId>
    ensures { result ≡ right_in rows.now roots.now node (def_of def.now) }
{
    let own = Point::change(node);
    let given = rows.get(own)?.outcome.as_ref()?;
    match def {
        Def::Bind { .. } => roots.get(own).copied(),
        Def::Const(_)
        | Def::Var(_)
        | Def::Map(_, _)
        | Def::Fold(_, _, _)
        | Def::If { .. }
        | Def::Join(_)
        | Def::At(_)
        | Def::Steps(_, _)
        | Def::Now
        | Def::Every { .. }
        | Def::Freeze { .. }
        | Def::Expert { .. } => def.right_side(given),
    }
}

/// Whether a node's change ran last with this outcome of its subject.
pub fn ran_with(rows: &SlotMap<Progress>, node: NodeId, given: &Outcome) -> bool
    ensures { IsTrue result ↔ (outcome_in (at rows.now (change node)) ≡ Some given.now) }
{
    match rows.get(Point::change(node)) {
        Some(row) => match &row.outcome {
            Some(before) => before.same(given),
            None => false,
        },
        None => false,
    }
}
