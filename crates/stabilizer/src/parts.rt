//! The nodes of a graph with all that a stabilizer keeps of them.
ghost use Rattle.std.specs.Prelude.{◌≡◌, ◌≢◌, ◌⊎◌, ◌↔◌, ◌+◌, ◌-◌, ◌++◌, ◌<◌, ◌≤◌, ◌+ℤ◌, ◌<ℤ◌, pos, List, [], length, true, None, Some, slice_get, vec_len, vec_capacity};
ghost use Rattle.std.specs.Prelude.{IfOk, IfSome, IsNone, OnOk, OnErr, IsErr, IsErrOf, option_copied};
ghost use Rattle.inc_value.specs.Choice.{Among};
ghost use Rattle.expert_nodes.specs.Experts.{IsCreated, kids_at};
ghost use Rattle.inc_value.specs.declared.node.NodeId.{NodeId};
ghost use Rattle.inc_value.specs.declared.node.Point.{Point};
ghost use Rattle.inc_terms.specs.Clock.{IsTimed};
ghost use Rattle.inc_terms.specs.Code.{def_of};
ghost use Rattle.inc_terms.specs.Depend.{change, main};
ghost use Rattle.inc_terms.specs.Graph.{Row as ARow};
ghost use Rattle.inc_terms.specs.Within.{FunctionLaws, Given, ValueWithin};
ghost use Rattle.point_map.specs.Rows.{at, Holds};
ghost use Rattle.point_map.specs.Rows.{Changes as RowChanges};
ghost use Rattle.link_table.specs.Links.{Reads, times};
ghost use Rattle.necessity.specs.Need.{IsRoot};
ghost use Rattle.necessary_graph.specs.Part.{web, Needed, IsInStep};
ghost use Rattle.node_arena.specs.Arena.{row_at, live, IsLive, NamesGiven, IsFull, IsVariable, IsSet};
ghost use Rattle.node_arena.specs.Typing.{Makes, FitsNode, IsAddable};
ghost use Rattle.node_outcomes.specs.Meaning.{Meaning};
ghost use Rattle.node_outcomes.specs.Row.{IsRewritten, kept_in, outcome_in, with_cutoff, with_frozen};
ghost use Rattle.stabilizer.specs.Adding.{HasNode, AddsNothing, SaysAdded};
ghost use Rattle.stabilizer.specs.Between.{StaysButHeap, LosesRoot, LosesNode, IsTakenBack};
ghost use Rattle.stabilizer.specs.Between.{GainsLink, GainsNothing, IsCut, IsMadeStale, LosesLink};
ghost use Rattle.stabilizer.specs.Freezing.{CanFreeze, FreezesKeep, HasToFreeze, IsTakenOff, MayList};
ghost use Rattle.stabilizer.specs.Look.{is_unfrozen};
ghost use Rattle.stabilizer.specs.Clock.{AreMarked};
ghost use Rattle.timed_nodes.specs.Timed.{IsMovedTo};
ghost use Rattle.stabilizer.specs.Kept.{PartsKept};
ghost use Rattle.wiring.specs.Places.{ChangesNode};
ghost use Rattle.wiring.specs.Wiring.{IsMarked};
ghost use Rattle.stabilizer.specs.Round.{IsReady, AreNewFreezes, AreRooted};

use expert_nodes::{LinkFault, UnlinkFault};
use inc_terms::Def;
use inc_value::{NodeId, Outcome, Point, Ty, Value};
use map_nodes::Cutoff;
use node_arena::{AddFault, Arena, Row, SetFault};
use node_outcomes::{fires, freeze, is_frozen, set_cutoff};
use observers::Sight;
use point_map::PointMap;
use scopes::Scopes;
use std::alloc::{AllocError, Global};
use timed_nodes::{AdvanceFault, AfterFault, TimedNodes};
use wiring::Work;

/// The nodes of a graph with all that a stabilizer keeps of them.
pub struct Parts {
    pub(crate) alloc: Global,
    pub(crate) arena: Arena,
    /// The nodes that read the clock.
    pub(crate) timed: TimedNodes,
    /// Which nodes stand in the scopes of binds.
    pub(crate) scopes: Scopes,
    pub(crate) work: Work,
    /// The nodes that a kill has found, from when they leave their scopes to when they are among the round's dead: a node
    /// that dies is in one of the three at a time. None between any two calls.
    pub(crate) dying: Vec<NodeId>,
    /// The nodes whose functions were called in the last round that ended, each once. There is room for all live nodes, as the
    /// next round lists its own here.
    pub(crate) ran: Vec<NodeId>,
}

// (written out: whoever drops one proves one call, and no drop of its parts)
impl Drop for Parts {
    fn drop(self) {
        let Parts {
            alloc: _,
            arena,
            timed,
            scopes,
            work,
            dying,
            ran,
        } = self;
        drop(arena);
        drop(timed);
        drop(scopes);
        drop(work);
        drop(dying);
        drop(ran);
    }
}

impl Parts {
    /// No nodes. This takes no memory.
    pub fn new(alloc: Global) -> Parts
        ensures ready { (M : Meaning) → FunctionLaws M.functions M.known M.ids → IsReady M result }
        ensures empty { (n : NodeId) → row_at result.arena n ≡ None }
        ensures live { live result.arena ≡ 0 }
        ensures given { result.arena.given ≡ 0 }
        ensures time { result.arena.time ≡ pos 0 }
        ensures roots { AreRooted result.arena result.work 0 [] }
        ensures ran { result.ran.items ≡ [] }
        ensures rows { (a : Point) → at result.work.rows a ≡ None }
        ensures links { (a b : Point) → times result.work.graph.links a b ≡ 0 }
    {
        Parts {
            alloc,
            arena: Arena::new(alloc),
            timed: TimedNodes::new(alloc),
            scopes: Scopes::new(alloc),
            work: Work::new(alloc),
            dying: Vec::new(alloc),
            ran: Vec::new(alloc),
        }
    }

    /// The nodes.
    pub fn arena(&self) -> &Arena
        ensures { result.now ≡ self.now.arena }
    {
        &self.arena
    }

    /// Adds a node outside any scope, with all memory that a round takes for it but for links and calls. Spans that it
    /// counts begin between 0 and the present time, and aren't empty. What is looked at comes in the order of the faults.
    /// A refused call leaves all nodes and all that is kept of them.
    pub fn add(&mut self, def: Def, ty: Ty) -> Result<NodeId, AddFault>
        requires kept { PartsKept self.old }
        requires timed { IsTimed self.old.arena.time (def_of def) }
        ensures unknown { IsErrOf result AddFault.Unknown ↔ ¬ NamesGiven self.old.arena.given (def_of def) }
        ensures wrong_type { IsErrOf result AddFault.WrongType
            ↔ (NamesGiven self.old.arena.given (def_of def) × ¬ Makes self.old.arena (def_of def) ty) }
        ensures full { IsErrOf result AddFault.Full
            ↔ (NamesGiven self.old.arena.given (def_of def) × Makes self.old.arena (def_of def) ty
            × IsFull self.old.arena) }
        ensures adds { SaysAdded self.old self.new (def_of def) ty result }
    {
        if let Err(fault) = self.arena.admits(&def, ty) {
            drop(def);
            return Err(fault);
        }
        let id = self.arena.next_id();
        match self.place(id, def, ty) {
            Ok(()) => Ok(id),
            Err(AllocError) => Err(AddFault::Memory),
        }
    }

    /// Adds a node that can be added, outside any scope, under the id that the nodes give next. Without memory all nodes
    /// stay, and all that is kept of them.
    fn place(&mut self, id: NodeId, def: Def, ty: Ty) -> Result<(), AllocError>
        requires kept { PartsKept self.old }
        requires fits { IsAddable self.old.arena (def_of def) ty }
        requires timed { IsTimed self.old.arena.time (def_of def) }
        requires next { id.gen_ ≡ self.old.arena.given }
        ensures placed { OnOk result (HasNode self.old self.new id (record { def = def_of def; ty = ty; scope = None })) }
        ensures left { OnErr result (AddsNothing self.old self.new) }
    {
        let Ok(()) = make_room_to_list(&self.arena, &mut self.work.ran, &mut self.ran) else {
            drop(def);
            return Err(AllocError);
        };
        let added = self.work.add_node(&self.arena, id, &def, None);
        match added {
            Ok(()) => {}
            Err(AllocError) => {
                drop(def);
                return Err(AllocError);
            }
        }
        let row = Row {
            def,
            ty,
            scope: None,
        };
        match self.arena.insert(id, row) {
            Ok(()) => Ok(()),
            Err(AllocError) => {
                self.work.drop_node(id);
                self.work.forget_since(self.arena.given());
                Err(AllocError)
            }
        }
    }

    /// Sets a variable to another value of its type. What is looked at comes in the order of the faults; a refused
    /// call changes nothing. This takes no memory.
    pub fn set_var(&mut self, id: NodeId, value: Value) -> Result<(), SetFault>
        requires kept { PartsKept self.old }
        ensures set { OnOk result (IsSet self.old.arena self.new.arena id value) }
        ensures unknown { IsErrOf result SetFault.Unknown
            ↔ ¬ (Given self.old.arena.given id × ValueWithin (Given self.old.arena.given) value) }
        ensures not_var { IsErrOf result SetFault.NotVar
            ↔ (Given self.old.arena.given id × ValueWithin (Given self.old.arena.given) value
            × ¬ IsVariable self.old.arena id) }
        ensures wrong_type { IsErrOf result SetFault.WrongType
            ↔ (ValueWithin (Given self.old.arena.given) value × IsVariable self.old.arena id
            × ¬ FitsNode self.old.arena id value) }
        ensures err { OnErr result (self.new ≡ self.old) }
        ensures told { OnOk result (Needed self.old.work.graph (main id) → Holds self.new.work.graph.heap (main id)) }
        ensures stays { StaysButHeap self.old self.new }
    {
        match self.arena.set_var(id, value) {
            Ok(()) => {
                self.work.schedule(Point::main(id));
                Ok(())
            }
            Err(fault) => Err(fault),
        }
    }

    /// Sets the cutoff of a node, which is Equal at first. A dead one has none, and nothing changes. This takes no
    /// memory.
    pub fn set_cutoff(&mut self, id: NodeId, cutoff: Cutoff)
        requires kept { PartsKept self.old }
        ensures cutoff { IsRewritten self.old.work.rows self.new.work.rows (main id) (with_cutoff cutoff) }
        ensures rest { self.new ≡ record self.old { work = record self.old.work { rows = self.new.work.rows } } }
        ensures dead { at self.old.work.rows (main id) ≡ None → self.new ≡ self.old }
        ensures kept { PartsKept self.new }
        ensures ready { (M : Meaning) → IsReady M self.old → IsReady M self.new }
    {
        let p = Point::main(id);
        if self.work.rows.holds(p) {
            set_cutoff(&mut self.work.rows, p, cutoff);
        }
    }

    /// The time by which nodes are read, in nanoseconds.
    pub fn time(&self) -> i64
        ensures { result ≡ self.now.arena.time }
    {
        self.arena.time()
    }

    /// The time that is a span after the present one, both in nanoseconds. None is past the greatest.
    pub fn after(&self, span: u64) -> Result<i64, AfterFault>
        requires kept { PartsKept self.now }
        ensures ok { IfOk result (λ t. t ≡ (self.now.arena.time +ℤ pos span)) }
        ensures range { IsErr result ↔ (pos 9223372036854775807 <ℤ (self.now.arena.time +ℤ pos span)) }
    {
        self.timed.after(span)
    }

    /// Moves the time on to one in nanoseconds, which may be the present one. Needed nodes that show another value then
    /// are put into the heap. Fails only where the time is before the present one, or for want of memory; then the nodes
    /// stay, and all that is kept of them.
    pub fn advance(&mut self, to: i64) -> Result<(), AdvanceFault>
        requires kept { PartsKept self.old }
        ensures back { IsErrOf result AdvanceFault.Back ↔ (to <ℤ self.old.arena.time) }
        ensures moved { OnOk result (IsMovedTo self.old.arena self.new.arena to) }
        ensures err { OnErr result (self.new ≡ record self.old { timed = self.new.timed }) }
        ensures stays { StaysButHeap self.old self.new }
    {
        if to < self.arena.time() {
            return Err(AdvanceFault::Back);
        }
        match self.timed.take_in(&self.arena) {
            Ok(()) => {}
            Err(AllocError) => return Err(AdvanceFault::Memory),
        }
        match self.timed.move_to(to) {
            Ok(()) => {
                self.arena.move_to(to);
                self.schedule_stale();
                Ok(())
            }
            Err(AllocError) => Err(AdvanceFault::Memory),
        }
    }

    /// The nodes that a move of the time has found are put into the heap, where they are needed.
    fn schedule_stale(&mut self)
        requires step { IsInStep self.old.work.graph }
        ensures marked { AreMarked self.old.work.graph self.new.work.graph self.old.timed.stale }
        ensures none { self.new.timed.stale ≡ [] }
        ensures step { IsInStep self.new.work.graph }
        ensures rest { self.new ≡ record self.old {
          work = record self.old.work { graph = self.new.work.graph };
          timed = record self.old.timed { stale = self.new.timed.stale };
        } }
    {
        while let Some(node) = self.timed.next_stale() {
            self.work.schedule(Point::main(node));
        }
    }

    /// Puts a node behind an expert's list. A refused call changes nothing.
    pub fn link(&mut self, expert: NodeId, kid: NodeId) -> Result<(), LinkFault>
        requires kept { PartsKept self.old }
        requires given { Given self.old.arena.given kid }
        requires fits { MayList self.old.arena expert kid }
        ensures linked { OnOk result (GainsLink self.old self.new expert kid) }
        ensures full { IsErrOf result LinkFault.LinksFull ↔ (4096 ≤ length (kids_at self.old.work.experts expert)) }
        ensures barred { IsErrOf result LinkFault.LinksFull → self.new ≡ self.old }
        ensures err { OnErr result (GainsNothing self.old self.new) }
    {
        if self.work.experts.is_full(expert) {
            return Err(LinkFault::LinksFull);
        }
        let Ok(()) = self.work.todo.reserve(1) else {
            return Err(LinkFault::Memory);
        };
        match self.work.experts.link(expert, kid) {
            Ok(()) => {
                grow(&mut self.work, Point::main(expert));
                Ok(())
            }
            Err(fault) => Err(fault),
        }
    }

    /// Takes the first occurrence of a node off an expert's list. A refused call changes nothing. This takes no memory.
    pub fn unlink(&mut self, expert: NodeId, kid: NodeId) -> Result<(), UnlinkFault>
        requires kept { PartsKept self.old }
        requires ready { (M : Meaning) × IsReady M self.old }
        requires created { IsCreated self.old.work.experts expert }
        ensures unlinked { OnOk result (LosesLink self.old self.new expert kid) }
        ensures absent { OnErr result (Among kid (kids_at self.old.work.experts expert) → ⊥) }
        ensures err { OnErr result (self.new ≡ self.old) }
    {
        if !self.work.experts.is_linked(expert, kid) {
            return Err(UnlinkFault::NotLinked);
        }
        match self.work.experts.unlink(expert, kid) {
            Ok(taken_up) => {
                let p = Point::main(expert);
                cut(&mut self.work, p, Point::main(kid), taken_up);
                self.work.schedule(p);
                Ok(())
            }
            Err(fault) => Err(fault),
        }
    }

    /// Marks an expert, which runs once more where it is needed. This takes no memory.
    pub fn make_stale(&mut self, expert: NodeId)
        requires kept { PartsKept self.old }
        requires created { IsCreated self.old.work.experts expert }
        ensures { IsMadeStale self.old self.new expert }
    {
        self.work.experts.make_stale(expert);
        let main = Point::main(expert);
        self.work.schedule(main);
    }

    /// Freezes whose predicates were found true in this round keep the values: they are roots no more, and read nothing.
    /// This looks at the nodes whose functions were called in it alone, and takes no memory.
    pub(crate) fn freeze_fired(&mut self)
        requires step { IsInStep self.old.work.graph }
        requires can { CanFreeze self.old.arena self.old.work.rows self.old.work.graph self.old.ran.items }
        ensures keep { FreezesKeep self.old.arena self.old.work.rows self.new.work.rows self.old.work.graph self.new.work.graph }
        ensures rest { self.new ≡ record self.old { work = record self.old.work { rows = self.new.work.rows; graph = self.new.work.graph } } }
    {
        for place in 0..self.ran.len() {
            let node = self.ran[place];
            if let Some(kid) = self.fired_kid(node) {
                self.freeze(node, kid);
            }
        }
    }

    /// A freeze keeps the value of the child on which its predicate was called last.
    fn freeze(&mut self, node: NodeId, kid: NodeId)
        requires step { IsInStep self.old.work.graph }
        requires row { Holds self.old.work.rows (main node) }
        requires root { IsRoot (web self.old.work.graph) (main node) }
        requires reads { Reads self.old.work.graph.links (main node) (main kid) }
        ensures rows { IsRewritten self.old.work.rows self.new.work.rows (main node) with_frozen }
        ensures off { IsTakenOff self.new.work.rows self.old.work.graph self.new.work.graph node kid }
        ensures step { IsInStep self.new.work.graph }
        ensures rest { self.new ≡ record self.old { work = record self.old.work { rows = self.new.work.rows; graph = self.new.work.graph } } }
    {
        let p = Point::main(node);
        freeze(&mut self.work.rows, p);
        self.work.root_off(p);
        if self.work.graph.is_needed(p) {
            self.work.unlink(p, Point::main(kid));
        }
    }

    /// The child of a freeze that is to keep a value.
    fn fired_kid(&self, node: NodeId) -> Option<NodeId>
        ensures fires { IfSome result (λ kid. HasToFreeze self.now.arena self.now.work.rows node kid) }
        ensures none { IsNone result → (kid : NodeId) → HasToFreeze self.now.arena self.now.work.rows node kid → ⊥ }
    {
        match &self.arena.get(node)?.def {
            Def::Freeze { kid, .. } if fires(&self.work.rows, node) => Some(*kid),
            _ => None,
        }
    }

    /// Lists the freezes whose ids were given since the count and that keep no value behind the nodes. Where no id was given
    /// since, this takes no memory.
    pub fn freezes_since(&self, count: u64, nodes: &mut Vec<NodeId>) -> Result<(), AllocError>
        requires kept { PartsKept self.now }
        ensures listed { OnOk result ((freezes : List NodeId) × (nodes.new.items ≡ nodes.old.items ++ freezes)
            × AreNewFreezes self.now.arena self.now.work count freezes) }
        ensures since { OnErr result (count < self.now.arena.given) }
    {
        let mut next = count;
        while let Some(id) = self.arena.first_since(next) {
            if self.is_unfrozen(id) {
                let Ok(()) = nodes.push(id) else {
                    return Err(AllocError);
                };
            }
            next = id.gen_ + 1;
        }
        Ok(())
    }

    /// Whether the node is a live freeze that keeps no value.
    fn is_unfrozen(&self, node: NodeId) -> bool
        ensures { result ≡ is_unfrozen (row_at self.now.arena node) (kept_in (at self.now.work.rows (main node))) }
    {
        match self.arena.get(node) {
            Some(row) => match row.def {
                Def::Freeze { .. } => !is_frozen(&self.work.rows, node),
                _ => false,
            },
            None => false,
        }
    }

    /// Takes a root off a node, once. What is no longer needed then loses its links; its outcome and its last call
    /// stay. This takes no memory.
    pub fn unroot(&mut self, id: NodeId)
        requires root { IsRoot (web self.old.work.graph) (main id) }
        requires kept { PartsKept self.old }
        ensures { LosesRoot self.old self.new id }
    {
        self.work.root_off(Point::main(id));
    }

    /// Drops the nodes whose ids were given since the count; none of them is needed. Their ids stay used up. This takes
    /// no memory.
    pub fn back_to(&mut self, count: u64)
        requires kept { PartsKept self.old }
        requires unneeded { (p : Point) → count ≤ p.node.gen_ → Needed self.old.work.graph p → ⊥ }
        requires unscoped { (n b : NodeId) (r : ARow) → row_at self.old.arena n ≡ Some r → r.scope ≡ Some b
            → (n.gen_ < count) × (b.gen_ < count) }
        ensures { IsTakenBack self.old self.new count }
    {
        let mut next = count;
        while let Some(id) = self.arena.first_since(next) {
            self.drop_node(id);
            next = id.gen_ + 1;
        }
        self.work.forget_since(count);
    }

    /// Drops a node that isn't needed.
    fn drop_node(&mut self, id: NodeId)
        requires live { IsLive self.old.arena id }
        requires kept { PartsKept self.old }
        requires unneeded { (p : Point) → p.node ≡ id → Needed self.old.work.graph p → ⊥ }
        requires unscoped { (n b : NodeId) (r : ARow) → row_at self.old.arena n ≡ Some r → r.scope ≡ Some b
            → (n ≢ id) × (b ≢ id) }
        ensures { LosesNode self.old self.new id }
    {
        self.arena.drop_node(id);
        self.timed.forget(id);
        self.work.drop_node(id);
        forget_roots(&mut self.work.roots, id);
    }

    /// The outcome of a live node. None before it was first brought up to date, and of a dead one, which shows Invalid.
    pub fn outcome(&self, id: NodeId) -> Option<&Outcome>
        ensures { option_copied result ≡ outcome_in (at self.now.work.rows (main id)) }
    {
        self.work.rows.get(Point::main(id))?.outcome.as_ref()
    }

    /// The root of what a bind is built for, if it is a live bind that is built for a value.
    pub fn root_of(&self, bind: NodeId) -> Option<NodeId>
        ensures { result ≡ at self.now.work.roots (change bind) }
    {
        Some(*self.work.roots.get(Point::change(bind))?)
    }

    /// The nodes whose functions were called in the last round that ended, each once.
    pub fn ran(&self) -> &[NodeId]
        ensures { result.now ≡ self.now.ran.items }
    {
        &self.ran
    }
}

/// Makes room in both lists for all live nodes, and one more. Each has what it had.
pub(crate) fn make_room_to_list(
    arena: &Arena,
    called: &mut Vec<NodeId>,
    listed: &mut Vec<NodeId>,
) -> Result<(), AllocError>
    ensures room { OnOk result ((live arena.now < vec_capacity called.new) × (live arena.now < vec_capacity listed.new)) }
    ensures called { (called.new.items ≡ called.old.items) × (vec_capacity called.old ≤ vec_capacity called.new) }
    ensures listed { (listed.new.items ≡ listed.old.items) × (vec_capacity listed.old ≤ vec_capacity listed.new) }
{
    let count = arena.live() as usize + 1;
    let Ok(()) = make_room_for(called, count) else {
        return Err(AllocError);
    };
    make_room_for(listed, count)
}

/// Makes room for so many nodes in all.
fn make_room_for(nodes: &mut Vec<NodeId>, count: usize) -> Result<(), AllocError>
    ensures room { OnOk result (count ≤ vec_capacity nodes.new) }
    ensures items { nodes.new.items ≡ nodes.old.items }
    ensures more { vec_capacity nodes.old ≤ vec_capacity nodes.new }
{
    nodes.reserve(count.saturating_sub(nodes.len()))
}

/// The main of an expert whose list grew is due where it is needed, and is to be given its links.
fn grow(work: &mut Work, p: Point)
    requires room { vec_len work.old.todo < vec_capacity work.old.todo }
    requires step { IsInStep work.old.graph }
    ensures marked { IsMarked work.old.graph work.new.graph p }
    ensures step { IsInStep work.new.graph }
    ensures listed { Needed work.old.graph p → Among p work.new.todo.items }
    ensures still { (q : Point) → Among q work.old.todo.items → Among q work.new.todo.items }
    ensures only { (q : Point) → Among q work.new.todo.items → Among q work.old.todo.items ⊎ (q ≡ p) }
    ensures rest { work.new ≡ record work.old { graph = work.new.graph; todo = work.new.todo } }
{
    work.schedule(p);
    if work.graph.is_needed(p) {
        list(&mut work.todo, p);
    }
}

/// Puts a point behind the others, unless it is the last of them.
fn list(points: &mut Vec<Point>, p: Point)
    requires room { vec_len points.old < vec_capacity points.old }
    ensures listed { Among p points.new.items }
    ensures still { (q : Point) → Among q points.old.items → Among q points.new.items }
    ensures only { (q : Point) → Among q points.new.items → Among q points.old.items ⊎ (q ≡ p) }
{
    if is_last(points, p) {
        return;
    }
    points.push_reserved(p);
}

/// Whether a point is the last of them.
fn is_last(points: &Vec<Point>, p: Point) -> bool
    ensures { result ≡ true → slice_get points.now.items (length points.now.items - 1) ≡ Some p }
{
    match points.last() {
        Some(last) => *last == p,
        None => false,
    }
}

/// The link of an expert's main to what it was unlinked from comes off, if that had been taken up. One that isn't needed has
/// no links.
fn cut(work: &mut Work, p: Point, kid: Point, taken_up: bool)
    requires step { IsInStep work.old.graph }
    requires reads { taken_up ≡ true → Needed work.old.graph p → Reads work.old.graph.links p kid }
    ensures off { IsCut work.old work.new p kid taken_up }
    ensures step { IsInStep work.new.graph }
    ensures rest { work.new ≡ record work.old { graph = work.new.graph } }
{
    if !taken_up {
        return;
    }
    if work.graph.is_needed(p) {
        work.unlink(p, kid);
    }
}

/// What was built for a node has no root any more.
fn forget_roots(roots: &mut PointMap<NodeId>, node: NodeId)
    ensures { ChangesNode roots.old roots.new node (λ part. None) }
{
    forget_root(roots, Point::main(node));
    forget_root(roots, Point::change(node));
}

/// No root stands at the point any more.
fn forget_root(roots: &mut PointMap<NodeId>, p: Point)
    ensures { RowChanges roots.old roots.new p None }
{
    if roots.holds(p) {
        let _root = roots.remove(p);
    }
}

impl Sight for Parts {
    ghost use Rattle.stabilizer.specs.Telling.{shows_of};

    ghost shows = { shows_of };

    fn outcome_of(&self, node: NodeId) -> Option<&Outcome> {
        self.outcome(node)
    }
}
