//! What is to be recomputed.
ghost use Rattle.std.specs.Prelude.{◌≡◌};
ghost use Rattle.inc_value.specs.declared.node.Point.{Point};
ghost use Rattle.necessary_graph.specs.Part.{Needed, IsInStep};
ghost use Rattle.wiring.specs.Wiring.{IsEnqueued, AreEnqueued, IsMarked};

use crate::work::Work;
use inc_value::Point;
use necessary_graph::Skip;
use node_outcomes::{Progress, was_settled};
use slot_map::SlotMap;

/// The points that were settled in a round.
#[derive(Drop)]
pub(crate) struct Settled<'a> {
    pub rows: &'a SlotMap<Progress>,
    pub round: u64,
}

impl<'a> Skip for Settled<'a> {
    ghost use Rattle.point_map.specs.Rows.{at};
    ghost use Rattle.node_outcomes.specs.Row.{settled_in};

    ghost skipped = { λ s p. settled_in s.round (at s.rows.now p) };

    fn skips(&self, p: Point) -> bool {
        was_settled(self.rows, p, self.round)
    }
}

impl Work {
    /// Puts a needed point into the heap, unless it was settled.
    pub fn enqueue(&mut self, p: Point)
        requires needed { Needed self.old.graph p }
        requires step { IsInStep self.old.graph }
        ensures enqueued { IsEnqueued self.old self.new p }
        ensures rest { self.new ≡ record self.old { graph = self.new.graph } }
    {
        if !was_settled(&self.rows, p, self.round) {
            self.graph.insert(p);
        }
    }

    /// Puts a needed point into the heap, also one that was settled.
    pub fn schedule(&mut self, p: Point)
        requires step { IsInStep self.old.graph }
        ensures scheduled { IsMarked self.old.graph self.new.graph p }
        ensures step { IsInStep self.new.graph }
        ensures rest { self.new ≡ record self.old { graph = self.new.graph } }
    {
        if self.graph.is_needed(p) {
            self.graph.insert(p);
        }
    }

    /// The points that read this one are to be recomputed, but for those that were settled.
    pub(crate) fn enqueue_readers(&mut self, p: Point)
        requires step { IsInStep self.old.graph }
        ensures enqueued { AreEnqueued self.old self.new p }
        ensures step { IsInStep self.new.graph }
        ensures rest { self.new ≡ record self.old { graph = self.new.graph } }
    {
        let settled = Settled {
            rows: &self.rows,
            round: self.round,
        };
        self.graph.insert_readers(p, &settled);
    }
}
