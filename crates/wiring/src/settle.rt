//! Points that are settled, and what a bind is built for.
ghost use Rattle.std.specs.Prelude.{◌≡◌, None};
ghost use Rattle.inc_value.specs.declared.node.Point.{Point};
ghost use Rattle.inc_terms.specs.Code.{def_of};
ghost use Rattle.inc_terms.specs.Depend.{change};
ghost use Rattle.point_map.specs.Rows.{Holds, Changes};
ghost use Rattle.necessary_graph.specs.Part.{IsInStep};
ghost use Rattle.node_outcomes.specs.Choosing.{right_in};
ghost use Rattle.node_outcomes.specs.Row.{IsRewritten, with_outcome, without_outcome};
ghost use Rattle.wiring.specs.Turning.{HasTurned};
ghost use Rattle.wiring.specs.Wiring.{KeepsGraph, KeepsRound, TellsReaders};

use crate::work::Work;
use inc_terms::Def;
use inc_value::{NodeId, Outcome, Point};
use node_outcomes::{forget_outcome, ran_with, set_outcome};

impl Work {
    /// Settles a main on an outcome. Unless its cutoff stops it, the points that read the main are to be recomputed. This
    /// takes no memory.
    pub fn settle(&mut self, p: Point, outcome: Outcome)
        requires there { Holds self.old.rows p }
        requires step { IsInStep self.old.graph }
        ensures row { IsRewritten self.old.rows self.new.rows p (with_outcome outcome self.old.round) }
        ensures graph { KeepsGraph self.old.graph self.new.graph }
        ensures told { TellsReaders self.old self.new p outcome }
        ensures step { IsInStep self.new.graph }
        ensures rest { self.new ≡ record self.old { graph = self.new.graph; rows = self.new.rows } }
        ensures round { KeepsRound self.old self.new }
        ensures todo { self.new.todo ≡ self.old.todo }
    {
        let stopped = set_outcome(&mut self.rows, p, outcome, self.round);
        if !stopped {
            self.enqueue_readers(p);
        }
    }

    /// Settles a node's change on an outcome of its subject. Where it is another than before, a main with a right side
    /// loses it, and is to be recomputed. This takes no memory.
    pub fn turn(&mut self, node: NodeId, def: &Def, given: Outcome)
        requires there { Holds self.old.rows (change node) }
        requires step { IsInStep self.old.graph }
        ensures { HasTurned self.old self.new node (right_in self.old.rows self.old.roots node (def_of def.now)) given }
    {
        if !ran_with(&self.rows, node, &given) && self.is_attached(node) {
            self.drop_right(node, def);
        }
        set_outcome(&mut self.rows, Point::change(node), given, self.round);
    }

    /// Settles the change of a bind that was built anew for the outcome: what the bind is built for is the change's outcome.
    /// This takes no memory.
    pub fn settle_built(&mut self, bind: NodeId, given: Outcome)
        requires row { Holds self.old.rows (change bind) }
        requires step { IsInStep self.old.graph }
        ensures heap { Changes self.old.graph.heap self.new.graph.heap (change bind) None }
        ensures graph { KeepsGraph self.old.graph self.new.graph }
        ensures row { IsRewritten self.old.rows self.new.rows (change bind) (with_outcome given self.old.round) }
        ensures step { IsInStep self.new.graph }
        ensures rest { self.new ≡ record self.old { graph = self.new.graph; rows = self.new.rows } }
    {
        let own = Point::change(bind);
        self.graph.remove(own);
        set_outcome(&mut self.rows, own, given, self.round);
    }

    /// A bind is built for nothing: it has no root.
    pub fn forget_built(&mut self, bind: NodeId)
        requires row { Holds self.old.rows (change bind) }
        ensures root { Changes self.old.roots self.new.roots (change bind) None }
        ensures row { IsRewritten self.old.rows self.new.rows (change bind) without_outcome }
        ensures rest { self.new ≡ record self.old { rows = self.new.rows; roots = self.new.roots } }
    {
        let own = Point::change(bind);
        forget_outcome(&mut self.rows, own);
        self.forget_root(own);
    }

    /// The root that was built for a bind is forgotten, if one was.
    pub(crate) fn forget_root(&mut self, own: Point)
        ensures root { Changes self.old.roots self.new.roots own None }
        ensures rest { self.new ≡ record self.old { roots = self.new.roots } }
    {
        if self.roots.holds(own) {
            let _root = self.roots.remove(own);
        }
    }
}
