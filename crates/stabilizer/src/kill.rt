//! What was built for a bind is cut off, and dies.
ghost use Rattle.std.specs.Prelude.{◌≡◌, ◌≤◌, ◌<◌, ◌-◌, None, Some, IsSome, [], length, drop, vec_capacity};
ghost use Rattle.inc_value.specs.Choice.{Among, NoRepeats};
ghost use Rattle.inc_value.specs.declared.node.NodeId.{NodeId as ANode};
ghost use Rattle.inc_terms.specs.Depend.{change};
ghost use Rattle.point_map.specs.Rows.{Holds};
ghost use Rattle.scopes.specs.Scopes.{node_count};
ghost use Rattle.necessary_graph.specs.Part.{Needed, IsInStep};
ghost use Rattle.node_arena.specs.Arena.{live, IsLive};
ghost use Rattle.wiring.specs.Graph.{died_at};
ghost use Rattle.wiring.specs.Kept.{IsKept};
ghost use Rattle.timed_nodes.specs.Timed.{KeepsClock};
ghost use Rattle.stabilizer.specs.Kept.{PartsKept, graph_in};
ghost use Rattle.stabilizer.specs.Dying.{AreDying, IsCutOff, HasDied, HaveGatesAlone, LeavesStanding, StandsBut, scope_at, AreListed, MayForget};
ghost use Rattle.stabilizer.specs.Dying.{AreBehind, AreForgotten, LosesRight, IsInvalidated, IsPutToGate, KeepsGate};
ghost use Rattle.stabilizer.specs.Staying.{ChangeIsTaken};

use crate::parts::Parts;
use inc_value::{NodeId, Point};

impl Parts {
    /// The main of a bind loses its right side, and the nodes of the bind's scope, and of scopes within it, all links but
    /// those to their gates; they are to die. The bind's change is in the heap again. This takes no memory, and costs what is
    /// to die.
    pub(crate) fn cut_off(&mut self, bind: NodeId)
        requires kept { PartsKept self.old }
        requires live { IsLive self.old.arena bind }
        requires taken { ChangeIsTaken self.old.work bind }
        requires quiet { self.old.work.todo.items ≡ [] }
        requires room { node_count self.old.scopes ≤ vec_capacity self.old.dying }
        ensures cut { IsCutOff self.old self.new bind }
        ensures dying { AreDying (graph_in self.new) bind self.new.dying.items }
        ensures few { length self.new.dying.items ≤ node_count self.old.scopes }
        ensures scopes { LeavesStanding self.old self.new bind }
    {
        self.detach(bind);
        self.invalidate(bind);
    }

    /// The bind's change is in the heap again, and its main has no right side any more.
    fn detach(&mut self, bind: NodeId)
        requires live { IsLive self.old.arena bind }
        requires needed { Needed self.old.work.graph (change bind) }
        requires step { IsInStep self.old.work.graph }
        ensures detached { LosesRight self.old.arena self.old.work self.new.work bind }
        ensures rest { self.new ≡ record self.old { work = self.new.work } }
    {
        if let Some(row) = self.arena.get(bind) {
            self.work.detach(bind, &row.def);
        }
    }

    /// A bind's scope is invalidated: its nodes, and those of scopes within it, are put back to their gates, and are to die.
    fn invalidate(&mut self, bind: NodeId)
        requires kept { PartsKept self.old }
        requires room { node_count self.old.scopes ≤ vec_capacity self.old.dying }
        ensures { IsInvalidated self.old self.new bind }
    {
        self.scopes.kill(bind);
        while let Some(node) = self.scopes.next_killed() {
            self.put_to_gate(node);
            self.dying.push_reserved(node);
        }
    }

    /// A node in a scope is put back to its gate: its points have the links to it alone.
    fn put_to_gate(&mut self, node: NodeId)
        requires kept { IsKept self.old.arena self.old.work }
        requires scoped { IsSome (scope_at self.old.arena node) }
        ensures put { IsPutToGate self.old.arena self.old.work self.new.work node }
        ensures rest { self.new ≡ record self.old { work = self.new.work } }
    {
        if let Some(scope) = self.scope_of(node) {
            self.work.put_back_node(&self.arena, node, scope);
            self.keep_gate(Point::main(node), Point::change(scope));
            self.keep_gate(Point::change(node), Point::change(scope));
        }
    }

    /// A needed point keeps its links to the gate alone.
    fn keep_gate(&mut self, p: Point, gate: Point)
        requires step { IsInStep self.old.work.graph }
        ensures gate { KeepsGate self.old.work self.new.work p gate }
        ensures rest { self.new ≡ record self.old { work = self.new.work } }
    {
        if self.work.graph.is_needed(p) {
            self.work.reduce(p, gate);
        }
    }

    /// The nodes that are to die, those of a bind's scope and of scopes within it, die, and the bind is built for nothing.
    /// This takes no memory, and costs what dies.
    pub(crate) fn let_die(&mut self, bind: NodeId)
        requires kept { IsKept self.old.arena self.old.work }
        requires clock { KeepsClock self.old.arena self.old.timed }
        requires listing { live self.old.arena ≤ vec_capacity self.old.ran }
        requires dying { AreDying (graph_in self.old) bind self.old.dying.items }
        requires gates { HaveGatesAlone self.old bind }
        requires scopes { StandsBut self.old bind }
        requires row { Holds self.old.work.rows (change bind) }
        requires room { length self.old.dying.items ≤ self.old.work.deaths.spare }
        ensures died { HasDied self.old self.new bind }
        ensures kept { PartsKept self.new }
    {
        let before = self.work.deaths.len();
        self.list_dying();
        self.work.forget_built(bind);
        self.forget_dead(before);
    }

    /// The nodes that are to die go over to the dead of the round, each with its scope.
    fn list_dying(&mut self)
        requires once { NoRepeats self.old.dying.items }
        requires scopes { (n : ANode) → Among n self.old.dying.items → IsSome (scope_at self.old.arena n) }
        requires absent { (n : ANode) → Among n self.old.dying.items → died_at self.old.work n ≡ None }
        requires room { length self.old.dying.items ≤ self.old.work.deaths.spare }
        ensures listed { AreListed self.old.arena self.old.work self.new.work self.old.dying.items }
        ensures behind { AreBehind self.old.work.deaths.nodes self.new.work.deaths.nodes self.old.dying.items }
        ensures none { self.new.dying.items ≡ [] }
        ensures rest { self.new ≡ record self.old { work = self.new.work; dying = self.new.dying } }
    {
        while let Some(node) = self.dying.pop() {
            if let Some(scope) = self.scope_of(node) {
                self.work.deaths.add(node, scope);
            }
        }
    }

    /// The bind in whose scope a live node stands.
    fn scope_of(&self, node: NodeId) -> Option<NodeId>
        ensures { result ≡ scope_at self.now.arena node }
    {
        self.arena.get(node)?.scope
    }

    /// The nodes that died in the round behind so many others are forgotten and dropped.
    fn forget_dead(&mut self, before: usize)
        requires forget { MayForget self.old.arena self.old.work (drop before self.old.work.deaths.nodes) }
        ensures forgotten { AreForgotten self.old.arena self.new.arena self.old.work self.new.work (drop before self.old.work.deaths.nodes) }
        ensures step { IsInStep self.new.work.graph }
        ensures clock { KeepsClock self.old.arena self.old.timed → KeepsClock self.new.arena self.new.timed }
        ensures rest { self.new ≡ record self.old { arena = self.new.arena; timed = self.new.timed; work = self.new.work } }
    {
        let mut place = self.work.deaths.len();
        while place > before {
            place -= 1;
            let node = self.work.deaths.at(place);
            self.work.forget(node);
            self.timed.forget(node);
            self.arena.drop_node(node);
        }
    }
}
