//! Links that no change confirmed in a round, taken off where a link is refused.
ghost use Rattle.std.specs.Prelude.{◌<◌, ◌≡◌, Some, ◌⊎◌, ◌↔◌, false, IsTrue};
ghost use Rattle.inc_value.specs.declared.node.Point.{Point, Point as APoint};
ghost use Rattle.inc_value.specs.declared.node.NodeId.{NodeId as ANode};
ghost use Rattle.inc_terms.specs.Graph.{Row as ARow};
ghost use Rattle.inc_terms.specs.Depend.{change};
ghost use Rattle.point_map.specs.Rows.{at, Holds};
ghost use Rattle.necessary_graph.specs.Part.{Needed, IsInStep};
ghost use Rattle.necessary_graph.specs.Sweep.{IsReduced};
ghost use Rattle.node_arena.specs.Arena.{row_at};
ghost use Rattle.node_outcomes.specs.Row.{stage_in, settled_in};
ghost use Rattle.wiring.specs.Kept.{IsKept};
ghost use Rattle.wiring.specs.TakingOff.{TakesSome, TakesMore, LosesLinks, PutsNodeBack};
ghost use Rattle.wiring.specs.Wiring.{OnlyLoses, IsSpared, IsBehindGate, TakesOne, IsConfirmedAt, IsAtGate, GoesBack};
ghost use Rattle.wiring.specs.Graph.{rowless};

use crate::link::Rowless;
use crate::wire::lacks_links;
use crate::work::Work;
use inc_value::{NodeId, Point};
use node_arena::Arena;
use node_outcomes::{Progress, Stage, is_full, is_static, right_side, set_stage, was_settled};
use slot_map::SlotMap;

impl Work {
    /// Takes off links that weren't confirmed in this round, and lets fewer links be tried again: those of these points'
    /// nodes, or all, where that leaves the points as they were, or links were tried again too often.
    pub(crate) fn make_way(&mut self, arena: &Arena, points: &[Point])
        requires kept { IsKept arena.now self.old }
        requires some { 0 < self.old.retries }
        ensures taken { TakesMore arena.now self.old self.new }
        ensures fewer { self.new.retries < self.old.retries }
    {
        let took = self.take_off_along(arena, points);
        if took && self.retries > 1 {
            self.retries -= 1;
        } else {
            self.take_off_unconfirmed(arena);
        }
    }

    /// Takes off the links that weren't confirmed in this round of these points' nodes. Answers whether one of the points has
    /// fewer links then.
    fn take_off_along(&mut self, arena: &Arena, points: &[Point]) -> bool
        requires kept { IsKept arena.now self.old }
        ensures { TakesSome arena.now self.old self.new }
    {
        let mut took = false;
        for p in points {
            let full = is_full(&self.rows, *p);
            let lacking = lacks_links(&self.rows, *p);
            self.take_off_at(arena, p.node);
            took |= full != is_full(&self.rows, *p);
            took |= lacking != lacks_links(&self.rows, *p);
        }
        took
    }

    /// Takes off the links of a node that weren't confirmed in this round.
    fn take_off_at(&mut self, arena: &Arena, node: NodeId)
        requires kept { IsKept arena.now self.old }
        ensures { TakesSome arena.now self.old self.new }
    {
        self.put_back_unconfirmed(arena, node);
        self.take_off(arena, node);
    }

    /// Takes off the links that weren't confirmed in this round, and puts the changes that are to confirm them into the heap:
    /// of a point in a scope whose gate didn't run all but that to the gate, and the right side of a node whose change didn't
    /// run. No link may be tried again then: refusals are final. Each node in a scope and each node of two points is looked
    /// at once. This takes no memory.
    pub fn take_off_unconfirmed(&mut self, arena: &Arena)
        requires kept { IsKept arena.now self.old }
        ensures taken { TakesMore arena.now self.old self.new }
        ensures strict { self.new.retries ≡ 0 }
        ensures loses { OnlyLoses self.old.graph self.new.graph }
    {
        for place in 0..self.scoped.len() {
            let node = self.scoped.at(place);
            self.put_back_unconfirmed(arena, node);
        }
        for index in 0..self.pairs.len() {
            let pair = self.pairs.at(index);
            self.take_off(arena, pair);
        }
        self.retries = 0;
    }

    /// Takes a node's right side off, if its change didn't run in this round, and puts the change into the heap.
    pub(crate) fn take_off(&mut self, arena: &Arena, node: NodeId)
        requires kept { IsKept arena.now self.old }
        ensures stays { LosesLinks arena.now self.old self.new }
        ensures taken { TakesOne arena.now self.old self.new }
        ensures confirmed { IsConfirmedAt arena.now self.new node }
        ensures fewer { (n : ANode) → IsConfirmedAt arena.now self.old n → IsConfirmedAt arena.now self.new n }
        ensures behind { (p : APoint) → IsBehindGate arena.now self.old p → IsBehindGate arena.now self.new p }
        ensures spared { (p : APoint) → IsSpared arena.now self.old p → at self.new.rows p ≡ at self.old.rows p }
    {
        let Some(row) = arena.get(node) else {
            return;
        };
        let own = Point::change(node);
        if self.is_attached(node)
            && !was_settled(&self.rows, own, self.round)
            && right_side(&self.rows, &self.roots, node, &row.def).is_some()
        {
            self.schedule(own);
            self.drop_right(node, &row.def);
        }
    }

    /// Puts a node in a scope back, if its gate didn't run in this round: its points that are needed have their gate's link
    /// alone. The gate is put into the heap for them.
    pub fn put_back_unconfirmed(&mut self, arena: &Arena, node: NodeId)
        requires kept { IsKept arena.now self.old }
        ensures { PutsNodeBack arena.now self.old self.new node }
    {
        let Some(row) = arena.get(node) else {
            return;
        };
        let Some(bind) = row.scope else {
            return;
        };
        if !was_settled(&self.rows, Point::change(bind), self.round) {
            self.put_back_node(arena, node, bind);
        }
    }

    /// Puts a node in the scope of a bind back whose change wasn't settled in this round.
    pub fn put_back_node(&mut self, arena: &Arena, node: NodeId, bind: NodeId)
        requires kept { IsKept arena.now self.old }
        requires row { (r : ARow) × (row_at arena.now node ≡ Some r) × (r.scope ≡ Some bind) }
        ensures stays { LosesLinks arena.now self.old self.new }
        ensures taken { settled_in self.old.round (at self.old.rows (change bind)) ≡ false → TakesOne arena.now self.old self.new }
        ensures behind { (p : APoint) → p.node ≡ node → IsAtGate self.new p }
        ensures heap { (p : APoint) → Holds self.new.graph.heap p
            → Holds self.old.graph.heap p ⊎ ((p.node ≡ node) ⊎ (p ≡ change bind)) }
        ensures rows { (p : APoint) → (at self.new.rows p ≡ at self.old.rows p)
            ⊎ ((p.node ≡ node) × GoesBack arena.now self.old self.new p bind) }
    {
        self.put_back(arena, Point::main(node), bind);
        self.put_back(arena, Point::change(node), bind);
    }

    /// A needed point that has more links than that to its gate has that alone, for which it waits again. It is to be
    /// recomputed, and so is the gate.
    fn put_back(&mut self, arena: &Arena, p: Point, bind: NodeId)
        requires kept { IsKept arena.now self.old }
        requires row { (r : ARow) × (row_at arena.now p.node ≡ Some r) × (r.scope ≡ Some bind) }
        ensures stays { LosesLinks arena.now self.old self.new }
        ensures taken { settled_in self.old.round (at self.old.rows (change bind)) ≡ false → TakesOne arena.now self.old self.new }
        ensures behind { IsAtGate self.new p }
        ensures heap { (a : APoint) → Holds self.new.graph.heap a
            → Holds self.old.graph.heap a ⊎ ((a ≡ p) ⊎ (a ≡ change bind)) }
        ensures rows { (a : APoint) → (at self.new.rows a ≡ at self.old.rows a)
            ⊎ ((a ≡ p) × GoesBack arena.now self.old self.new p bind) }
    {
        let _ = arena;
        if self.graph.is_needed(p) && has_more_than_gate(&self.rows, p) {
            let gate = Point::change(bind);
            self.schedule(gate);
            self.enqueue(p);
            set_stage(&mut self.rows, p, Stage::Gated);
            self.reduce(p, gate);
        }
    }

    /// Takes off all links of a needed point but those to its gate. What is no longer needed then loses its links and leaves
    /// the heap, and points of dead nodes that are no longer needed are dropped. This takes no memory.
    pub fn reduce(&mut self, p: Point, gate: Point)
        requires needed { Needed self.old.graph p }
        ensures reduced { IsReduced (rowless self.old) self.old.graph self.new.graph p gate }
        ensures step { IsInStep self.new.graph }
        ensures rest { self.new ≡ record self.old { graph = self.new.graph } }
    {
        let rowless = Rowless { rows: &self.rows };
        self.graph.reduce(p, gate, &rowless);
    }
}

/// Whether a point of a live node has links beside that to its gate.
fn has_more_than_gate(rows: &SlotMap<Progress>, p: Point) -> bool
    ensures { IsTrue result ↔ ((stage_in (at rows.now p) ≡ Some Stage.Static) ⊎ (stage_in (at rows.now p) ≡ Some Stage.Full)) }
{
    is_static(rows, p) || is_full(rows, p)
}
