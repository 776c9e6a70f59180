//! Roots and links for what is newly needed.
ghost use Rattle.std.specs.Prelude.{◌≡◌, ◌≢◌, ◌⊎◌, ◌↔◌, ◌<◌, ◌≤◌, [], true, drop, length, None, Some, IsTrue, IsFalse, IsSome, map, vec_len, vec_capacity, IfOk, IfErr};
ghost use Rattle.std.specs.Prelude.{OnOk, OnErr};
ghost use Rattle.inc_value.specs.Choice.{Among};
ghost use Rattle.inc_value.specs.declared.node.NodeId.{NodeId as ANode};
ghost use Rattle.inc_value.specs.declared.node.Point.{Point, Point as APoint};
ghost use Rattle.inc_value.specs.declared.node.Part.TheVariants.{Main};
ghost use Rattle.inc_terms.specs.Code.{def_of};
ghost use Rattle.inc_terms.specs.Depend.{kids_of, main, subject_of, change};
ghost use Rattle.inc_terms.specs.Graph.{Row as ARow};
ghost use Rattle.inc_terms.specs.Within.{Given};
ghost use Rattle.point_map.specs.Rows.{at, Holds, KeepsRows};
ghost use Rattle.link_table.specs.Links.{Reads};
ghost use Rattle.necessity.specs.Need.{OneRootMore, root_times};
ghost use Rattle.necessary_graph.specs.Part.{Needed, IsInStep};
ghost use Rattle.node_arena.specs.Arena.{row_at};
ghost use Rattle.expert_nodes.specs.Experts.{IsCreated, fresh_at, kids_at};
ghost use Rattle.node_outcomes.specs.Row.{stage_in};
ghost use Rattle.wiring.specs.Answers.{WireAnswers, TakenAnswers, GateAnswers, AsksGate};
ghost use Rattle.wiring.specs.Graph.{graph_at};
ghost use Rattle.wiring.specs.Kept.{IsKept};
ghost use Rattle.wiring.specs.Rooting.{PutsRootOn};
ghost use Rattle.wiring.specs.Stands.{hand};
ghost use Rattle.wiring.specs.Wiring.{GateRan, LacksLinks, Wires, WireRefused, IsNewlyNeeded, ShowsSame, PutsRoots, RootRefused, KeepsPlaces, IsLevelled};
ghost use Rattle.wiring.specs.Wiring.{WaitsFor};

use crate::refused::Refused;
use crate::work::Work;
use inc_terms::Def;
use inc_value::{NodeId, Part, Point};
use necessary_graph::NecessaryGraph;
use node_arena::Arena;
use node_outcomes::{
    Progress, Stage, is_bare, is_frozen, is_full, is_gated, set_stage, was_settled,
};
use slot_map::SlotMap;
use std::alloc::AllocError;

impl Work {
    /// Puts a root on, and gives what is newly needed its links.
    pub fn put_root(&mut self, arena: &Arena, p: Point) -> Result<(), Refused>
        requires kept { IsKept arena.now self.old }
        requires quiet { self.old.todo.items ≡ [] }
        requires given { Given arena.now.given p.node }
        requires main { p.part ≡ Main }
        ensures rooted { OnOk result (OneRootMore self.old.graph.roots self.new.graph.roots p) }
        ensures wired { OnOk result (PutsRoots arena.now self.old self.new) }
        ensures refused { IfErr result (RootRefused arena.now self.old self.new) }
        ensures empty { OnOk result (self.new.todo.items ≡ []) }
        ensures round { self.new.round ≡ self.old.round }
        ensures kept { IsKept arena.now self.new }
        ensures others { (a : Point) → a ≢ p → root_times self.new.graph.roots a ≡ root_times self.old.graph.roots a }
    {
        match self.root_on(p) {
            Ok(()) => self.wire(arena),
            Err(AllocError) => Err(Refused::Memory),
        }
    }

    /// Puts a root on, and what is newly needed into the worklist. Without memory no root comes on.
    fn root_on(&mut self, p: Point) -> Result<(), AllocError>
        requires step { IsInStep self.old.graph }
        ensures rooted { OnOk result (PutsRootOn self.old self.new p) }
        ensures levelled { OnErr result (IsLevelled self.old self.new) }
    {
        let opened = match self.make_room(p) {
            Ok(opened) => opened,
            Err(AllocError) => return Err(AllocError),
        };
        match self.graph.root_on(p) {
            Ok(newly) => {
                self.wake(p, newly);
                Ok(())
            }
            Err(AllocError) => {
                self.close(p, opened);
                Err(AllocError)
            }
        }
    }

    /// Gives the points of the worklist the links that they may have by now. Where there is none this takes no memory.
    pub fn wire(&mut self, arena: &Arena) -> Result<(), Refused>
        requires kept { IsKept arena.now self.old }
        ensures wired { OnOk result (Wires arena.now self.old self.new None) }
        ensures refused { IfErr result (WireRefused arena.now self.old self.new None) }
        ensures listed { OnErr result (self.old.todo.items ≢ []) }
        ensures empty { OnOk result (self.new.todo.items ≡ []) }
        ensures idle { self.old.todo.items ≡ [] → self.new ≡ record self.old { todo = self.new.todo } }
        ensures places { KeepsPlaces self.old self.new }
        ensures kept { IsKept arena.now self.new }
    {
        while let Some(p) = self.todo.pop() {
            if self.graph.is_needed(p) {
                match self.wire_one(arena, p) {
                    Ok(()) => {}
                    Err(refused) => return Err(refused),
                }
            }
        }
        Ok(())
    }

    /// Gives a point the links that it may have by now. One in a scope is linked to its gate first, and waits for it unless
    /// it ran in this round; then it gets all others, but a main of a node of two points not that to its right side, for
    /// which it waits until the node's change ran. A point of a node that died in this round has its gate's link alone.
    fn wire_one(&mut self, arena: &Arena, p: Point) -> Result<(), Refused>
        requires needed { Needed self.old.graph p }
        requires kept { IsKept arena.now self.old }
        ensures { TakenAnswers arena.now self.old self.new p result }
    {
        let Some(row) = arena.get(p.node) else {
            return self.wire_ghost(arena, p);
        };
        if is_full(&self.rows, p) {
            return self.wire_fresh(arena, p);
        }
        match self.wire_gate(arena, p, row.scope) {
            Ok(true) => self.wire_rest(arena, p, &row.def),
            Ok(false) => Ok(()),
            Err(refused) => Err(refused),
        }
    }

    /// Links the main of an expert that has its links to what it was linked to since.
    fn wire_fresh(&mut self, arena: &Arena, p: Point) -> Result<(), Refused>
        requires needed { Needed self.old.graph p }
        requires full { stage_in (at self.old.rows p) ≡ Some Stage.Full }
        requires kept { IsKept arena.now self.old }
        ensures { TakenAnswers arena.now self.old self.new p result }
    {
        if !self.experts.holds(p.node) {
            return Ok(());
        }
        let taken = self.experts.taken(p.node);
        self.connect_listed(arena, p, taken)
    }

    /// Links a point of a node that died in this round to its gate.
    fn wire_ghost(&mut self, arena: &Arena, p: Point) -> Result<(), Refused>
        requires needed { Needed self.old.graph p }
        requires dead { row_at arena.now p.node ≡ None }
        requires kept { IsKept arena.now self.old }
        ensures { WireAnswers arena.now self.old self.new (Some (hand p [])) result }
    {
        let Some(bind) = self.deaths.scope_of(p.node) else {
            return Ok(());
        };
        let gate = Point::change(bind);
        if self.graph.reads(p, gate) {
            return Ok(());
        }
        match self.connect(arena, p, gate) {
            Ok(_) => Ok(()),
            Err(refused) => Err(refused),
        }
    }

    /// Links a point that has no links yet to the gate of its scope, if it stands in one. Answers whether it is to have its
    /// other links now: it lacks them, and its gate ran in this round. Where the gate didn't run it is put into the heap.
    fn wire_gate(&mut self, arena: &Arena, p: Point, scope: Option<NodeId>) -> Result<bool, Refused>
        requires needed { Needed self.old.graph p }
        requires row { (r : ARow) × (row_at arena.now p.node ≡ Some r) × (r.scope ≡ scope) }
        requires there { Holds self.old.rows p }
        requires partly { stage_in (at self.old.rows p) ≢ Some Stage.Full }
        requires kept { IsKept arena.now self.old }
        ensures { GateAnswers arena.now self.old self.new p result }
    {
        let Some(bind) = scope else {
            return Ok(lacks_links(&self.rows, p));
        };
        if is_bare(&self.rows, p) {
            return self.link_gate(arena, p, bind);
        }
        if !is_gated(&self.rows, p) {
            return Ok(false);
        }
        Ok(self.passes_gate(arena, p, bind))
    }

    /// Links a point in the scope of the bind that has no links yet to its gate, the bind's change. Answers whether the gate
    /// ran in this round, and the point is needed still.
    fn link_gate(&mut self, arena: &Arena, p: Point, bind: NodeId) -> Result<bool, Refused>
        requires needed { Needed self.old.graph p }
        requires row { (r : ARow) × (row_at arena.now p.node ≡ Some r) × (r.scope ≡ Some bind) }
        requires bare { stage_in (at self.old.rows p) ≡ Some Stage.Bare }
        requires kept { IsKept arena.now self.old }
        ensures { GateAnswers arena.now self.old self.new p result }
    {
        set_stage(&mut self.rows, p, Stage::Gated);
        match self.connect(arena, p, Point::change(bind)) {
            Ok(true) => Ok(self.passes_gate(arena, p, bind)),
            Ok(false) => Ok(false),
            Err(refused) => Err(refused),
        }
    }

    /// Whether the gate of a point that has the link to it alone ran in this round. Where it didn't it is put into the heap.
    fn passes_gate(&mut self, arena: &Arena, p: Point, bind: NodeId) -> bool
        requires needed { Needed self.old.graph p }
        requires row { (r : ARow) × (row_at arena.now p.node ≡ Some r) × (r.scope ≡ Some bind) }
        requires gated { stage_in (at self.old.rows p) ≡ Some Stage.Gated }
        requires kept { IsKept arena.now self.old }
        ensures { AsksGate arena.now self.old self.new p bind result }
    {
        let _ = arena;
        let gate = Point::change(bind);
        if was_settled(&self.rows, gate, self.round) {
            return true;
        }
        self.schedule(gate);
        false
    }

    /// Gives a point its links but that to its gate: all, or, of a main of a node of two points, all but that to its right
    /// side, for which it waits until the node's change ran.
    fn wire_rest(&mut self, arena: &Arena, p: Point, def: &Def) -> Result<(), Refused>
        requires needed { Needed self.old.graph p }
        requires row { (r : ARow) × (row_at arena.now p.node ≡ Some r) × (r.def ≡ def_of def.now) }
        requires there { Holds self.old.rows p }
        requires lacking { LacksLinks arena.now self.old p }
        requires ran { GateRan arena.now self.old p }
        requires kept { IsKept arena.now self.old }
        ensures { WireAnswers arena.now self.old self.new (Some (hand p [])) result }
    {
        match (p.part, def.subject()) {
            (Part::Main, None) => {
                set_stage(&mut self.rows, p, Stage::Full);
                self.connect_present(arena, p, def)
            }
            (Part::Main, Some(_)) => self.wire_pair(arena, p.node),
            (Part::Change, Some(subject)) => {
                set_stage(&mut self.rows, p, Stage::Full);
                match self.connect(arena, p, Point::main(subject)) {
                    Ok(_) => Ok(()),
                    Err(refused) => Err(refused),
                }
            }
            (Part::Change, None) => Ok(()),
        }
    }

    /// Links the main of a node of one point to the mains of its present children: those that it lists, but none where it is
    /// a freeze that keeps a value, and those of an expert's list.
    fn connect_present(&mut self, arena: &Arena, p: Point, def: &Def) -> Result<(), Refused>
        requires main { p.part ≡ Main }
        requires row { (r : ARow) × (row_at arena.now p.node ≡ Some r) × (r.def ≡ def_of def.now) × (subject_of r.def ≡ None) }
        requires needed { Needed self.old.graph p }
        requires full { stage_in (at self.old.rows p) ≡ Some Stage.Full }
        requires ran { GateRan arena.now self.old p }
        requires kept { IsKept arena.now self.old }
        ensures { WireAnswers arena.now self.old self.new
            (Some (hand p (map main (kids_of (graph_at arena.now self.old) p.node (def_of def.now))))) result }
    {
        match def {
            Def::Expert { .. } => self.connect_listed(arena, p, 0),
            Def::Freeze { .. } if is_frozen(&self.rows, p.node) => self.connect_each(arena, p, &[]),
            _ => self.connect_each(arena, p, def.kids()),
        }
    }

    /// Links an expert's main to the mains of its list from a place on. All of it is taken up then.
    fn connect_listed(&mut self, arena: &Arena, p: Point, from: usize) -> Result<(), Refused>
        requires main { p.part ≡ Main }
        requires created { IsCreated self.old.experts p.node }
        requires within { from ≤ length (kids_at self.old.experts p.node) }
        requires needed { Needed self.old.graph p }
        requires full { stage_in (at self.old.rows p) ≡ Some Stage.Full }
        requires kept { IsKept arena.now self.old }
        ensures { WireAnswers arena.now self.old self.new (Some (hand p (map main (drop from (kids_at self.old.experts p.node))))) result }
    {
        self.experts.take_up(p.node);
        let mut place = from;
        while place < self.experts.kids(p.node).len() {
            let kid = self.experts.kids(p.node)[place];
            match self.connect(arena, p, Point::main(kid)) {
                Ok(true) => {}
                Ok(false) => return Ok(()),
                Err(refused) => return Err(refused),
            }
            place += 1;
        }
        Ok(())
    }

    /// Links a main to the mains of its children.
    fn connect_each(&mut self, arena: &Arena, p: Point, kids: &[NodeId]) -> Result<(), Refused>
        requires main { p.part ≡ Main }
        requires row { (r : ARow) × (row_at arena.now p.node ≡ Some r) × (kids.now ≡ kids_of (graph_at arena.now self.old) p.node r.def)
            × (subject_of r.def ≡ None) }
        requires given { (k : ANode) → Among k kids.now → Given arena.now.given k }
        requires plain { fresh_at self.old.experts p.node ≡ [] }
        requires needed { Needed self.old.graph p }
        requires full { stage_in (at self.old.rows p) ≡ Some Stage.Full }
        requires ran { GateRan arena.now self.old p }
        requires kept { IsKept arena.now self.old }
        ensures { WireAnswers arena.now self.old self.new (Some (hand p (map main kids.now))) result }
    {
        for kid in kids {
            match self.connect(arena, p, Point::main(*kid)) {
                Ok(true) => {}
                Ok(false) => return Ok(()),
                Err(refused) => return Err(refused),
            }
        }
        Ok(())
    }

    /// Links the main of a node of two points to the node's change, for which it waits then.
    fn wire_pair(&mut self, arena: &Arena, node: NodeId) -> Result<(), Refused>
        requires row { (r : ARow) × (row_at arena.now node ≡ Some r) × IsSome (subject_of r.def) }
        requires needed { Needed self.old.graph (main node) }
        requires lacking { LacksLinks arena.now self.old (main node) }
        requires ran { GateRan arena.now self.old (main node) }
        requires kept { IsKept arena.now self.old }
        ensures { WireAnswers arena.now self.old self.new (Some (hand (main node) [])) result }
    {
        let p = Point::main(node);
        let own = Point::change(node);
        set_stage(&mut self.rows, p, Stage::Static);
        match self.connect(arena, p, own) {
            Ok(true) => {
                self.schedule(own);
                Ok(())
            }
            Ok(false) => Ok(()),
            Err(refused) => Err(refused),
        }
    }

    /// The points of a bind's scope that wait for the bind's change are to have their links. Where none waits this takes
    /// no memory. Without memory nothing changes.
    pub fn wake_scope(&mut self, bind: NodeId) -> Result<(), AllocError>
        requires quiet { self.old.todo.items ≡ [] }
        ensures woken { OnOk result ((p : APoint) → Among p self.new.todo.items ↔ WaitsFor self.old p (change bind)) }
        ensures rest { self.new ≡ record self.old { todo = self.new.todo } }
        ensures err { OnErr result (self.new.todo.items ≡ []) }
        ensures waits { OnErr result ((p : APoint) × WaitsFor self.old p (change bind)) }
    {
        match gather_gated(&self.graph, &self.rows, Point::change(bind), &mut self.todo) {
            Ok(()) => Ok(()),
            Err(AllocError) => {
                self.todo.clear();
                Err(AllocError)
            }
        }
    }

    /// A point that wasn't needed before is to have its links and to be recomputed. One of a node that died in this round is
    /// to have its gate's alone, and one of another dead node has none.
    pub fn newly_needed(&mut self, p: Point)
        requires needed { Needed self.old.graph p }
        requires room { vec_len self.old.todo < vec_capacity self.old.todo }
        requires step { IsInStep self.old.graph }
        ensures { IsNewlyNeeded self.old self.new p }
    {
        if self.rows.holds(p) {
            set_stage(&mut self.rows, p, Stage::Bare);
            self.enqueue(p);
            self.todo.push_reserved(p);
        } else if self.deaths.holds(p.node) {
            self.todo.push_reserved(p);
        }
    }

    /// A needed point that wasn't needed before is to have its links and to be recomputed.
    pub(crate) fn wake(&mut self, p: Point, newly: bool)
        requires needed { Needed self.old.graph p }
        requires room { vec_len self.old.todo < vec_capacity self.old.todo }
        requires step { IsInStep self.old.graph }
        ensures woken { IsTrue newly → IsNewlyNeeded self.old self.new p }
        ensures unchanged { IsFalse newly → self.new ≡ self.old }
        ensures step { IsInStep self.new.graph }
    {
        if newly {
            self.newly_needed(p);
        }
    }

    /// Makes room for a point that may be newly needed: a place of the worklist, and the point itself where its node
    /// is dead. Answers whether the point was added.
    pub(crate) fn make_room(&mut self, p: Point) -> Result<bool, AllocError>
        requires step { IsInStep self.old.graph }
        ensures there { OnOk result (Holds self.new.graph.heights p) }
        ensures opened { IfOk result (λ opened. IsTrue opened ↔ (at self.old.graph.heights p ≡ None)) }
        ensures unneeded { IfOk result (λ opened. IsTrue opened → Needed self.old.graph p → ⊥) }
        ensures room { OnOk result (vec_len self.new.todo < vec_capacity self.new.todo) }
        ensures looks { ShowsSame self.old self.new }
        ensures others { (q : Point) → q ≢ p → at self.new.graph.heights q ≡ at self.old.graph.heights q }
        ensures err { OnErr result (KeepsRows self.old.graph.heights self.new.graph.heights) }
        ensures rows { self.new.rows ≡ self.old.rows }
        ensures step { IsInStep self.new.graph }
    {
        let Ok(()) = self.todo.reserve(1) else {
            return Err(AllocError);
        };
        if self.graph.is_there(p) {
            return Ok(false);
        }
        match self.graph.add(p, 0) {
            Ok(()) => Ok(true),
            Err(AllocError) => Err(AllocError),
        }
    }
}

/// Puts the points that read the gate and have its link alone behind the list.
fn gather_gated(
    graph: &NecessaryGraph,
    rows: &SlotMap<Progress>,
    gate: Point,
    todo: &mut Vec<Point>,
) -> Result<(), AllocError>
    ensures gathered { OnOk result ((p : APoint) → Among p todo.new.items
        ↔ (Among p todo.old.items ⊎ (Reads graph.now.links p gate × (stage_in (at rows.now p) ≡ Some Stage.Gated)))) }
    ensures waits { OnErr result ((p : APoint) × Reads graph.now.links p gate × (stage_in (at rows.now p) ≡ Some Stage.Gated)) }
{
    for reader in graph.readers(gate) {
        if is_gated(rows, reader) {
            let Ok(()) = todo.push(reader) else {
                return Err(AllocError);
            };
        }
    }
    Ok(())
}

/// Whether a point of a live node has its gate's link alone, or none.
pub(crate) fn lacks_links(rows: &SlotMap<Progress>, p: Point) -> bool
    ensures { IsTrue result ↔ ((stage_in (at rows.now p) ≡ Some Stage.Bare) ⊎ (stage_in (at rows.now p) ≡ Some Stage.Gated)) }
{
    is_bare(rows, p) || is_gated(rows, p)
}
