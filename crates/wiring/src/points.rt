//! The points of nodes: added with a node, dropped with it, and there for a dead node while they are needed.
ghost use Rattle.std.specs.Prelude.{◌≡◌, ◌⊎◌, ◌<◌, ◌≤◌, ℕ, None, Some, IsTrue, IsFalse, OnOk, OnErr};
ghost use Rattle.inc_value.specs.Choice.{Among};
ghost use Rattle.inc_value.specs.declared.node.NodeId.{NodeId as ANode};
ghost use Rattle.inc_value.specs.declared.node.Part.{Part};
ghost use Rattle.inc_value.specs.declared.node.Point.{Point, Point as APoint};
ghost use Rattle.inc_terms.specs.Code.{def_of};
ghost use Rattle.inc_terms.specs.Depend.{main, change};
ghost use Rattle.point_map.specs.Rows.{at, Holds, Changes, KeepsRows};
ghost use Rattle.expert_nodes.specs.Experts.{ExpertChanges, expert_at};
ghost use Rattle.necessary_graph.specs.Part.{Needed, IsInStep};
ghost use Rattle.node_outcomes.specs.Progress.{new_row};
ghost use Rattle.node_arena.specs.Arena.{IsLive};
ghost use Rattle.wiring.specs.Experts.{ExpertIsAdded};
ghost use Rattle.wiring.specs.Places.{ChangesNode, for_parts, pairs_with};
ghost use Rattle.wiring.specs.Wiring.{GraphStays};

use crate::work::Work;
use expert_nodes::Experts;
use inc_terms::Def;
use inc_value::{NodeId, Point};
use necessary_graph::NecessaryGraph;
use node_arena::Arena;
use node_outcomes::unsettled;
use std::alloc::AllocError;

impl Work {
    /// Adds a point of a new node that is so defined, with all memory that it needs in a round but for links.
    pub fn add(&mut self, p: Point, def: &Def, height: u32) -> Result<(), AllocError>
        requires low { height ≤ 128 }
        requires absent { at self.old.graph.heights p ≡ None }
        requires no_row { at self.old.rows p ≡ None }
        requires step { IsInStep self.old.graph }
        ensures row { OnOk result (Changes self.old.rows self.new.rows p
            (Some (new_row (def_of def.now)))) }
        ensures added { OnOk result (Changes self.old.graph.heights self.new.graph.heights p (Some height)) }
        ensures err { OnErr result (KeepsRows self.old.rows self.new.rows) }
        ensures err_heights { OnErr result (KeepsRows self.old.graph.heights self.new.graph.heights) }
        ensures stays { GraphStays self.old self.new }
        ensures rest { self.new ≡ record self.old { graph = self.new.graph; rows = self.new.rows } }
    {
        let Ok(row) = unsettled(*self.todo.allocator(), def) else {
            return Err(AllocError);
        };
        let Ok(()) = self.rows.add(p, row) else {
            return Err(AllocError);
        };
        match self.graph.add(p, height) {
            Ok(()) => Ok(()),
            Err(AllocError) => {
                drop(self.rows.remove(p));
                Err(AllocError)
            }
        }
    }

    /// Adds the points of a new node that is so defined and stands in the scope, if in one: its main, and a change where
    /// it has a subject. An expert has an empty list then.
    pub fn add_node(
        &mut self,
        arena: &Arena,
        node: NodeId,
        def: &Def,
        scope: Option<NodeId>,
    ) -> Result<(), AllocError>
        requires no_main { (at self.old.graph.heights (main node) ≡ None) × (at self.old.rows (main node) ≡ None) }
        requires no_change { (at self.old.graph.heights (change node) ≡ None) × (at self.old.rows (change node) ≡ None) }
        requires no_expert { expert_at self.old.experts node ≡ None }
        requires step { IsInStep self.old.graph }
        ensures rows { OnOk result (ChangesNode self.old.rows self.new.rows node (for_parts (def_of def.now) (λ part. new_row (def_of def.now)))) }
        ensures added { OnOk result ((h : Part → ℕ)
            × ChangesNode self.old.graph.heights self.new.graph.heights node (for_parts (def_of def.now) h)) }
        ensures experts { OnOk result (ExpertIsAdded (def_of def.now) self.old.experts self.new.experts node) }
        ensures pairs { OnOk result ((n : ANode) → IsLive arena.now n ⊎ (n ≡ node) → Among n (pairs_with (def_of def.now)
            self.old.pairs.nodes node) → Among n self.new.pairs.nodes) }
        ensures err { OnErr result (KeepsRows self.old.rows self.new.rows) }
        ensures err_heights { OnErr result (KeepsRows self.old.graph.heights self.new.graph.heights) }
        ensures err_experts { OnErr result (self.new.experts ≡ self.old.experts) }
        ensures err_pairs { OnErr result ((n : ANode) → IsLive arena.now n → Among n self.old.pairs.nodes
            → Among n self.new.pairs.nodes) }
        ensures err_fewer_pairs { OnErr result ((n : ANode) → Among n self.new.pairs.nodes → Among n self.old.pairs.nodes) }
        ensures stays { GraphStays self.old self.new }
        ensures scoped { self.new.scoped ≡ self.old.scoped }
    {
        let floor = floor_of(&self.graph, scope);
        match def.subject() {
            Some(subject) => {
                let height = height_over(&self.graph, &[subject], floor);
                self.add_pair(arena, node, def, height)
            }
            None => {
                let height = height_over(&self.graph, def.kids(), floor);
                self.add_single(node, def, height)
            }
        }
    }

    /// Adds the points of a new node that stands in the scope of the bind, with all memory that they need in a round but for
    /// links.
    pub fn add_scoped(
        &mut self,
        arena: &Arena,
        node: NodeId,
        def: &Def,
        bind: NodeId,
    ) -> Result<(), AllocError>
        requires no_main { (at self.old.graph.heights (main node) ≡ None) × (at self.old.rows (main node) ≡ None) }
        requires no_change { (at self.old.graph.heights (change node) ≡ None) × (at self.old.rows (change node) ≡ None) }
        requires no_expert { expert_at self.old.experts node ≡ None }
        requires step { IsInStep self.old.graph }
        ensures rows { OnOk result (ChangesNode self.old.rows self.new.rows node (for_parts (def_of def.now) (λ part. new_row (def_of def.now)))) }
        ensures added { OnOk result ((h : Part → ℕ)
            × ChangesNode self.old.graph.heights self.new.graph.heights node (for_parts (def_of def.now) h)) }
        ensures experts { OnOk result (ExpertIsAdded (def_of def.now) self.old.experts self.new.experts node) }
        ensures pairs { OnOk result ((n : ANode) → IsLive arena.now n ⊎ (n ≡ node) → Among n (pairs_with (def_of def.now)
            self.old.pairs.nodes node) → Among n self.new.pairs.nodes) }
        ensures scoped { OnOk result (Among node self.new.scoped.nodes) }
        ensures others_scoped { (n : ANode) → IsLive arena.now n → Among n self.old.scoped.nodes
            → Among n self.new.scoped.nodes }
        ensures err { OnErr result (KeepsRows self.old.rows self.new.rows) }
        ensures err_heights { OnErr result (KeepsRows self.old.graph.heights self.new.graph.heights) }
        ensures err_experts { OnErr result (self.new.experts ≡ self.old.experts) }
        ensures err_pairs { OnErr result ((n : ANode) → IsLive arena.now n → Among n self.old.pairs.nodes
            → Among n self.new.pairs.nodes) }
        ensures err_fewer_pairs { OnErr result ((n : ANode) → Among n self.new.pairs.nodes → Among n self.old.pairs.nodes) }
        ensures err_fewer_scoped { OnErr result ((n : ANode) → Among n self.new.scoped.nodes → Among n self.old.scoped.nodes) }
        ensures stays { GraphStays self.old self.new }
    {
        let Ok(()) = self.scoped.reserve(arena) else {
            return Err(AllocError);
        };
        let Ok(()) = self.add_node(arena, node, def, Some(bind)) else {
            return Err(AllocError);
        };
        self.scoped.add(node);
        Ok(())
    }

    /// Adds the main of a new node of one point, and an empty list if it is an expert.
    fn add_single(&mut self, node: NodeId, def: &Def, height: u32) -> Result<(), AllocError>
        requires low { height ≤ 128 }
        requires no_main { (at self.old.graph.heights (main node) ≡ None) × (at self.old.rows (main node) ≡ None) }
        requires no_expert { expert_at self.old.experts node ≡ None }
        requires step { IsInStep self.old.graph }
        ensures row { OnOk result (Changes self.old.rows self.new.rows (main node)
            (Some (new_row (def_of def.now)))) }
        ensures added { OnOk result (Changes self.old.graph.heights self.new.graph.heights (main node) (Some height)) }
        ensures experts { OnOk result (ExpertIsAdded (def_of def.now) self.old.experts self.new.experts node) }
        ensures err { OnErr result (KeepsRows self.old.rows self.new.rows) }
        ensures err_heights { OnErr result (KeepsRows self.old.graph.heights self.new.graph.heights) }
        ensures err_experts { OnErr result (self.new.experts ≡ self.old.experts) }
        ensures stays { GraphStays self.old self.new }
        ensures rest { self.new ≡ record self.old { graph = self.new.graph; rows = self.new.rows; experts = self.new.experts } }
    {
        let Ok(()) = self.add(Point::main(node), def, height) else {
            return Err(AllocError);
        };
        match def {
            Def::Expert { .. } => match self.experts.create(node) {
                Ok(()) => Ok(()),
                Err(AllocError) => {
                    self.drop_point(Point::main(node));
                    Err(AllocError)
                }
            },
            _ => Ok(()),
        }
    }

    /// Adds both points of a new node of two points, the main over the change where there is a height for it.
    fn add_pair(
        &mut self,
        arena: &Arena,
        node: NodeId,
        def: &Def,
        height: u32,
    ) -> Result<(), AllocError>
        requires low { height ≤ 128 }
        requires no_main { (at self.old.graph.heights (main node) ≡ None) × (at self.old.rows (main node) ≡ None) }
        requires no_change { (at self.old.graph.heights (change node) ≡ None) × (at self.old.rows (change node) ≡ None) }
        requires step { IsInStep self.old.graph }
        ensures rows { OnOk result (ChangesNode self.old.rows self.new.rows node (λ part. Some (new_row (def_of def.now)))) }
        ensures added { OnOk result ((h : Part → ℕ)
            × ChangesNode self.old.graph.heights self.new.graph.heights node (λ part. Some (h part))) }
        ensures pairs { OnOk result (Among node self.new.pairs.nodes × ((n : ANode) → IsLive arena.now n
            → Among n self.old.pairs.nodes → Among n self.new.pairs.nodes)) }
        ensures err { OnErr result (KeepsRows self.old.rows self.new.rows) }
        ensures err_heights { OnErr result (KeepsRows self.old.graph.heights self.new.graph.heights) }
        ensures err_pairs { OnErr result ((n : ANode) → IsLive arena.now n → Among n self.old.pairs.nodes
            → Among n self.new.pairs.nodes) }
        ensures err_fewer_pairs { OnErr result ((n : ANode) → Among n self.new.pairs.nodes → Among n self.old.pairs.nodes) }
        ensures stays { GraphStays self.old self.new }
        ensures scoped { self.new.scoped ≡ self.old.scoped }
        ensures experts { self.new.experts ≡ self.old.experts }
    {
        let Ok(()) = self.pairs.reserve(arena) else {
            return Err(AllocError);
        };
        let own = Point::change(node);
        let Ok(()) = self.add(own, def, height) else {
            return Err(AllocError);
        };
        let Ok(()) = self.add(Point::main(node), def, (height + 1).min(128)) else {
            self.drop_point(own);
            return Err(AllocError);
        };
        self.pairs.add(node);
        Ok(())
    }

    /// Drops the points of a node that died, and its list if it was an expert. None of the points is needed.
    pub fn drop_node(&mut self, node: NodeId)
        requires main { Holds self.old.graph.heights (main node) × Holds self.old.rows (main node) }
        requires change { Holds self.old.rows (change node) → Holds self.old.graph.heights (change node) }
        requires unneeded { (p : APoint) → p.node ≡ node → Needed self.old.graph p → ⊥ }
        requires no_change { at self.old.rows (change node) ≡ None → at self.old.graph.heights (change node) ≡ None }
        ensures rows { ChangesNode self.old.rows self.new.rows node (λ part. None) }
        ensures dropped { ChangesNode self.old.graph.heights self.new.graph.heights node (λ part. None) }
        ensures stays { GraphStays self.old self.new }
        ensures heap { self.new.graph.heap ≡ self.old.graph.heap }
        ensures expert { ExpertChanges self.old.experts self.new.experts node None }
        ensures no_expert { expert_at self.old.experts node ≡ None → self.new.experts ≡ self.old.experts }
        ensures rest { self.new ≡ record self.old { graph = self.new.graph; rows = self.new.rows; experts = self.new.experts } }
    {
        forget_expert(&mut self.experts, node);
        self.drop_point(Point::main(node));
        let own = Point::change(node);
        if self.rows.holds(own) {
            self.drop_point(own);
        }
    }

    /// Drops a point of a node that died. It isn't needed.
    pub fn drop_point(&mut self, p: Point)
        requires there { Holds self.old.graph.heights p }
        requires row { Holds self.old.rows p }
        requires unneeded { Needed self.old.graph p → ⊥ }
        ensures row { Changes self.old.rows self.new.rows p None }
        ensures dropped { Changes self.old.graph.heights self.new.graph.heights p None }
        ensures stays { GraphStays self.old self.new }
        ensures heap { self.new.graph.heap ≡ self.old.graph.heap }
        ensures rest { self.new ≡ record self.old { graph = self.new.graph; rows = self.new.rows } }
    {
        self.graph.drop_point(p);
        drop(self.rows.remove(p));
    }

    /// Nodes stay listed whose ids were given before the count, and no others. This looks at few others, as they are
    /// listed in the order in which they were made.
    pub fn forget_since(&mut self, count: u64)
        ensures kept { (n : ANode) → n.gen_ < count → Among n self.old.pairs.nodes → Among n self.new.pairs.nodes }
        ensures forgotten { (n : ANode) → Among n self.new.pairs.nodes → n.gen_ < count }
        ensures kept_scoped { (n : ANode) → n.gen_ < count → Among n self.old.scoped.nodes
            → Among n self.new.scoped.nodes }
        ensures forgotten_scoped { (n : ANode) → Among n self.new.scoped.nodes → n.gen_ < count }
        ensures rest { self.new ≡ record self.old { pairs = self.new.pairs; scoped = self.new.scoped } }
    {
        self.pairs.forget_since(count);
        self.scoped.forget_since(count);
    }

    /// Drops the point again, if it was added.
    pub fn close(&mut self, p: Point, opened: bool)
        requires there { Holds self.old.graph.heights p }
        requires unneeded { IsTrue opened → Needed self.old.graph p → ⊥ }
        requires step { IsInStep self.old.graph }
        ensures closed { IsTrue opened → Changes self.old.graph.heights self.new.graph.heights p None }
        ensures kept { IsFalse opened → self.new ≡ self.old }
        ensures links { self.new.graph.links ≡ self.old.graph.links }
        ensures roots { self.new.graph.roots ≡ self.old.graph.roots }
        ensures heap { self.new.graph.heap ≡ self.old.graph.heap }
        ensures step { IsInStep self.new.graph }
        ensures rest { self.new ≡ record self.old { graph = self.new.graph } }
    {
        if opened {
            self.graph.drop_point(p);
        }
    }
}

/// An expert is no more, if the node was one.
fn forget_expert(experts: &mut Experts, node: NodeId)
    ensures forgotten { ExpertChanges experts.old experts.new node None }
    ensures kept { expert_at experts.old node ≡ None → experts.new ≡ experts.old }
{
    if experts.holds(node) {
        experts.forget(node);
    }
}

/// The least height of a node in a scope, where there is one: above the scope's gate.
fn floor_of(graph: &NecessaryGraph, scope: Option<NodeId>) -> u32
    ensures { result ≤ 129 }
{
    match scope {
        Some(bind) if graph.is_there(Point::change(bind)) => graph.height(Point::change(bind)) + 1,
        _ => 0,
    }
}

/// A height from the floor on above those of the nodes that are there, where there is one. A point that is made at it
/// needn't be lifted when it is linked.
fn height_over(graph: &NecessaryGraph, kids: &[NodeId], floor: u32) -> u32
    requires { floor ≤ 129 }
    ensures { result ≤ 128 }
{
    let mut height = floor;
    for kid in kids {
        let p = Point::main(*kid);
        if graph.is_there(p) {
            height = height.max(graph.height(p) + 1);
        }
    }
    height.min(128)
}
