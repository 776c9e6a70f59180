//! Nodes that die, and what is left of them to the end of the round.
ghost use Rattle.std.specs.Prelude.{◌≡◌, ◌⊎◌, None, Some, IsSome};
ghost use Rattle.inc_value.specs.Counts.{raised};
ghost use Rattle.inc_value.specs.declared.node.Point.{Point, Point as APoint};
ghost use Rattle.inc_terms.specs.Depend.{main, change};
ghost use Rattle.point_map.specs.Rows.{at, Holds};
ghost use Rattle.link_table.specs.Links.{Reads};
ghost use Rattle.necessary_graph.specs.Part.{IsInStep};
ghost use Rattle.necessary_graph.specs.Sweep.{IsUnlinked};
ghost use Rattle.wiring.specs.Graph.{died_at, rowless};
ghost use Rattle.wiring.specs.Scoped.{IsForgotten, IsPointForgotten, AreTold, IsReleased};

use crate::work::Work;
use inc_value::{NodeId, Point};
use necessary_graph::Skip;
use node_lists::Deaths;
use node_outcomes::{Progress, was_settled};
use slot_map::SlotMap;

/// The points that aren't told of a death: those that were settled in the round, and those of nodes that die too.
#[derive(Drop)]
pub(crate) struct Untold<'a> {
    pub rows: &'a SlotMap<Progress>,
    pub deaths: &'a Deaths,
    pub round: u64,
}

impl<'a> Skip for Untold<'a> {
    ghost use Rattle.std.specs.Prelude.{◌||◌, is_some};
    ghost use Rattle.inc_terms.specs.Depend.{main};
    ghost use Rattle.point_map.specs.Rows.{at};
    ghost use Rattle.node_outcomes.specs.Row.{settled_in};

    ghost skipped = { λ s p. settled_in s.round (at s.rows.now p) || is_some (at s.deaths.now.scopes (main p.node)) };

    fn skips(&self, p: Point) -> bool {
        self.deaths.holds(p.node) || was_settled(self.rows, p, self.round)
    }
}

impl Work {
    /// What is kept of a node that died in this round goes, but its points that are needed and their gate's links. What reads
    /// it and lives on is to be recomputed, unless it was settled. This takes no memory.
    pub fn forget(&mut self, node: NodeId)
        requires main { Holds self.old.rows (main node) × Holds self.old.graph.heights (main node) }
        requires change { Holds self.old.rows (change node) → Holds self.old.graph.heights (change node) }
        requires died { IsSome (died_at self.old node) }
        requires step { IsInStep self.old.graph }
        ensures forgotten { IsForgotten self.old self.new node }
        ensures absent { (p : APoint) → at self.old.graph.heights p ≡ None → at self.new.graph.heights p ≡ None }
        ensures counted { self.new.scoped.dead ≡ raised self.old.scoped.dead }
        ensures pair_counted { Holds self.old.rows (change node) → self.new.pairs.dead ≡ raised self.old.pairs.dead }
        ensures step { IsInStep self.new.graph }
    {
        self.tell_survivors(Point::main(node));
        self.forget_point(Point::main(node));
        self.scoped.count_dead();
        let own = Point::change(node);
        if self.rows.holds(own) {
            self.forget_point(own);
            self.forget_root(own);
            self.pairs.count_dead();
        }
    }

    /// What is kept of a point of a node that died goes. The point itself stays where it is needed.
    fn forget_point(&mut self, p: Point)
        requires there { Holds self.old.graph.heights p }
        requires row { Holds self.old.rows p }
        requires step { IsInStep self.old.graph }
        ensures forgotten { IsPointForgotten self.old self.new p }
        ensures step { IsInStep self.new.graph }
        ensures rest { self.new ≡ record self.old { graph = self.new.graph; rows = self.new.rows } }
    {
        self.graph.remove(p);
        drop(self.rows.remove(p));
        if !self.graph.is_needed(p) {
            self.graph.drop_point(p);
        }
    }

    /// The points that read this one of a node that died are to be recomputed, but for those that were settled and those of
    /// nodes that died too.
    fn tell_survivors(&mut self, p: Point)
        requires step { IsInStep self.old.graph }
        ensures told { AreTold self.old self.new p }
        ensures step { IsInStep self.new.graph }
        ensures rest { self.new ≡ record self.old { graph = self.new.graph } }
    {
        let untold = Untold {
            rows: &self.rows,
            deaths: &self.deaths,
            round: self.round,
        };
        self.graph.insert_readers(p, &untold);
    }

    /// The points of the nodes that died in this round lose their gates' links. What is still needed of them has no links
    /// from then on, and goes with its last reader or root. This takes no memory.
    pub fn release_dead(&mut self)
        requires step { IsInStep self.old.graph }
        ensures released { IsReleased self.old self.new }
        ensures step { IsInStep self.new.graph }
        ensures rest { self.new ≡ record self.old { graph = self.new.graph; deaths = self.new.deaths } }
    {
        while let Some(death) = self.deaths.pop() {
            let gate = Point::change(death.scope);
            self.release(Point::main(death.node), gate);
            self.release(Point::change(death.node), gate);
        }
    }

    /// Takes the link of a point to its gate off, if it has one. One that isn't there has none: it is looked up once.
    fn release(&mut self, p: Point, gate: Point)
        requires step { IsInStep self.old.graph }
        ensures off { IsUnlinked (rowless self.old) self.old.graph self.new.graph p gate
            ⊎ ((self.new.graph ≡ self.old.graph) × (Reads self.old.graph.links p gate → ⊥)) }
        ensures step { IsInStep self.new.graph }
        ensures rest { self.new ≡ record self.old { graph = self.new.graph } }
    {
        if self.graph.is_there(p) && self.graph.reads(p, gate) {
            self.unlink(p, gate);
        }
    }
}
