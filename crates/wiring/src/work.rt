//! What a stabilize works on beside the nodes: who is needed, how far each point has come, and what is to be done.
ghost use Rattle.std.specs.Prelude.{◌≡◌, ◌<◌, [], None, vec_capacity};
ghost use Rattle.inc_value.specs.declared.node.NodeId.{NodeId as ANode};
ghost use Rattle.inc_value.specs.declared.node.Point.{Point};
ghost use Rattle.stabilize_round.specs.State.{all_retries};
ghost use Rattle.point_map.specs.Rows.{at};
ghost use Rattle.recompute_heap.specs.Agree.{IsEmpty};
ghost use Rattle.link_table.specs.Links.{times};
ghost use Rattle.necessity.specs.Need.{root_times};
ghost use Rattle.necessary_graph.specs.Part.{IsInStep};
ghost use Rattle.wiring.specs.Graph.{died_at};
ghost use Rattle.wiring.specs.Scoped.{IsReleased};

use expert_nodes::Experts;
use inc_value::{NodeId, Point};
use necessary_graph::NecessaryGraph;
use node_lists::{Deaths, Listed};
use node_outcomes::Progress;
use point_map::PointMap;
use slot_map::SlotMap;
use std::alloc::Global;

/// How often refused links may be tried again in a round.
const ALL_RETRIES: u32 = 1024;

/// What a stabilize works on beside the nodes.
pub struct Work {
    /// Need, heights, and what is to be recomputed.
    pub graph: NecessaryGraph,
    /// A row for each point of a live node.
    pub rows: SlotMap<Progress>,
    /// The root of each bind that is built for a value, at its change, whose outcome is what the bind is built for.
    pub roots: PointMap<NodeId>,
    /// The lists of experts, and which experts were made stale.
    pub experts: Experts,
    /// The nodes of two points, all live ones among them.
    pub pairs: Listed,
    /// The nodes in scopes of binds, all live ones among them.
    pub scoped: Listed,
    /// The nodes that died in this round. A rebuild makes room for those that it lets die.
    pub deaths: Deaths,
    /// Points that are newly needed and have no links yet, or waited for a change that ran, and mains of experts whose lists
    /// gained nodes.
    pub todo: Vec<Point>,
    /// The nodes whose functions were called in this round, each once. A fold of no nodes takes no call. There is room for all
    /// live nodes.
    pub ran: Vec<NodeId>,
    /// How often refused links may still be tried again in this round. At 0 all that wasn't confirmed is off, and refusals
    /// are final.
    pub retries: u32,
    /// The number of this round. The first is 1.
    pub round: u64,
}

// (written out: whoever drops one proves one call, and no drop of its parts)
impl Drop for Work {
    fn drop(self) {
        let Work {
            graph,
            rows,
            roots,
            experts,
            pairs,
            scoped,
            deaths,
            todo,
            ran,
            retries: _,
            round: _,
        } = self;
        drop(graph);
        drop(rows);
        drop(roots);
        drop(experts);
        drop(pairs);
        drop(scoped);
        drop(deaths);
        drop(todo);
        drop(ran);
    }
}

impl Work {
    /// No points. This takes no memory.
    pub fn new(alloc: Global) -> Work
        ensures rows { (p : Point) → at result.rows p ≡ None }
        ensures heights { (p : Point) → at result.graph.heights p ≡ None }
        ensures roots { (p : Point) → root_times result.graph.roots p ≡ 0 }
        ensures links { (p q : Point) → times result.graph.links p q ≡ 0 }
        ensures heap { IsEmpty result.graph.heap }
        ensures todo { result.todo.items ≡ [] }
        ensures ran { result.ran.items ≡ [] }
        ensures right_sides { (p : Point) → at result.roots p ≡ None }
        ensures experts { result.experts ≡ [] }
        ensures pairs { result.pairs.nodes ≡ [] }
        ensures scoped { result.scoped.nodes ≡ [] }
        ensures deaths { result.deaths.nodes ≡ [] }
        ensures died { (n : ANode) → died_at result n ≡ None }
        ensures round { result.round ≡ 1 }
        ensures retries { result.retries ≡ all_retries }
        ensures step { IsInStep result.graph }
    {
        Work {
            graph: NecessaryGraph::new(alloc),
            rows: SlotMap::new(alloc),
            roots: PointMap::new(alloc),
            experts: Experts::new(alloc),
            pairs: Listed::new(alloc),
            scoped: Listed::new(alloc),
            deaths: Deaths::new(alloc),
            todo: Vec::new(alloc),
            ran: Vec::new(alloc),
            retries: ALL_RETRIES,
            round: 1,
        }
    }

    /// A round ends, and the next has this number: nothing was settled or called in it yet, and no node died in it. This
    /// takes no memory.
    pub fn end_round(&mut self, next: u64)
        requires step { IsInStep self.old.graph }
        ensures ran { self.new.ran.items ≡ [] }
        ensures room { vec_capacity self.new.ran ≡ vec_capacity self.old.ran }
        ensures retries { self.new.retries ≡ all_retries }
        ensures round { self.new.round ≡ next }
        ensures released { IsReleased self.old self.new }
        ensures step { IsInStep self.new.graph }
        ensures rows { self.new.rows ≡ self.old.rows }
        ensures right_sides { self.new.roots ≡ self.old.roots }
        ensures experts { self.new.experts ≡ self.old.experts }
        ensures pairs { self.new.pairs ≡ self.old.pairs }
        ensures scoped { self.new.scoped ≡ self.old.scoped }
        ensures todo { self.new.todo ≡ self.old.todo }
    {
        self.release_dead();
        self.ran.clear();
        self.retries = ALL_RETRIES;
        self.round = next;
    }
}
