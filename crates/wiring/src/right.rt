//! Right sides: linked to the mains of nodes of two points, and taken off.
ghost use Rattle.std.specs.Prelude.{◌≡◌, ◌⊎◌, ◌<◌, true, Some, IsSome, IfErr, OnOk, OnErr, ◌↔◌, IsTrue};
ghost use Rattle.inc_terms.specs.Depend.{change, main, subject_of};
ghost use Rattle.inc_terms.specs.Graph.{Row as ARow};
ghost use Rattle.inc_terms.specs.Code.{def_of};
ghost use Rattle.point_map.specs.Rows.{at};
ghost use Rattle.necessary_graph.specs.Part.{IsInStep, Needed};
ghost use Rattle.node_arena.specs.Arena.{row_at};
ghost use Rattle.node_outcomes.specs.Row.{stage_in, settled_in};
ghost use Rattle.node_outcomes.specs.Choosing.{right_in};
ghost use Rattle.wiring.specs.Kept.{IsKept};
ghost use Rattle.wiring.specs.Turning.{IsWaiting, IsAttached, IsDetached};
ghost use Rattle.wiring.specs.Wiring.{KeepsPlaces, Attaches, AttachRefused};
ghost use Rattle.wiring.specs.Scoped.{HasDetached};

use crate::refused::Refused;
use crate::work::Work;
use inc_terms::Def;
use inc_value::{NodeId, Point};
use node_arena::Arena;
use node_outcomes::{Stage, is_full, is_static, right_side, set_stage};

impl Work {
    /// Links a main that waits for its node's change, which ran, to its right side. Where it doesn't wait nothing changes,
    /// and this takes no memory.
    pub fn attach_right(&mut self, arena: &Arena, node: NodeId) -> Result<(), Refused>
        requires row { (r : ARow) × (row_at arena.now node ≡ Some r) × IsSome (subject_of r.def) }
        requires settled { settled_in self.old.round (at self.old.rows (change node)) ≡ true }
        requires kept { IsKept arena.now self.old }
        ensures attached { OnOk result (Attaches arena.now self.old self.new node) }
        ensures refused { IfErr result (AttachRefused arena.now self.old self.new node) }
        ensures places { KeepsPlaces self.old self.new }
        ensures kept { IsKept arena.now self.new }
        ensures full { OnOk result (IsWaiting self.old node → (stage_in (at self.new.rows (main node)) ≡ Some Stage.Full)
            ⊎ (self.new.retries < self.old.retries)) }
        ensures stays { IsWaiting self.old node ⊎ (self.new ≡ self.old) }
        ensures waits { OnErr result (IsWaiting self.old node) }
    {
        if !self.is_waiting(node) {
            return Ok(());
        }
        let p = Point::main(node);
        set_stage(&mut self.rows, p, Stage::Full);
        let Some(row) = arena.get(node) else {
            return Ok(());
        };
        let Some(target) = right_side(&self.rows, &self.roots, node, &row.def) else {
            return Ok(());
        };
        match self.connect(arena, p, Point::main(target)) {
            Ok(_) => Ok(()),
            Err(refused) => Err(refused),
        }
    }

    /// Whether a node's main is needed and has all its links.
    pub fn is_attached(&self, node: NodeId) -> bool
        ensures { IsTrue result ↔ IsAttached self.now node }
    {
        let p = Point::main(node);
        self.graph.is_needed(p) && is_full(&self.rows, p)
    }

    /// Whether a node's main is needed and waits for the node's change.
    pub fn is_waiting(&self, node: NodeId) -> bool
        ensures { IsTrue result ↔ IsWaiting self.now node }
    {
        let p = Point::main(node);
        self.graph.is_needed(p) && is_static(&self.rows, p)
    }

    /// Takes a node's main's right side off, for which it waits again. The main is to be recomputed.
    pub fn drop_right(&mut self, node: NodeId, def: &Def)
        requires attached { IsAttached self.old node }
        requires step { IsInStep self.old.graph }
        ensures detached { IsDetached self.old self.new node (right_in self.old.rows self.old.roots node (def_of def.now)) }
        ensures step { IsInStep self.new.graph }
    {
        let p = Point::main(node);
        self.enqueue(p);
        set_stage(&mut self.rows, p, Stage::Static);
        if let Some(target) = right_side(&self.rows, &self.roots, node, def) {
            let q = Point::main(target);
            if self.graph.reads(p, q) {
                self.unlink(p, q);
            }
        }
    }

    /// The main of a bind that is to be built anew has no right side any more. The bind's change stays in the heap until it
    /// is settled.
    pub fn detach(&mut self, node: NodeId, def: &Def)
        requires needed { Needed self.old.graph (change node) }
        requires step { IsInStep self.old.graph }
        ensures detached { HasDetached self.old self.new node (right_in self.old.rows self.old.roots node (def_of def.now)) }
        ensures step { IsInStep self.new.graph }
        ensures rest { self.new ≡ record self.old { graph = self.new.graph; rows = self.new.rows } }
    {
        self.graph.insert(Point::change(node));
        if self.is_attached(node) {
            self.drop_right(node, def);
        }
    }
}
