//! Right sides that are built, and dropped again where a build is refused.
ghost use Rattle.std.specs.Prelude.{◌≡◌, ◌↔◌, ◌≤◌, ◌<◌, ◌+◌, ◌-◌, false, None, Some, IfOk, IfErr, OnOk, OnErr, ℕ, vec_capacity};
ghost use Rattle.inc_value.specs.declared.node.NodeId.{NodeId as ANode};
ghost use Rattle.inc_value.specs.declared.node.Point.{Point as APoint};
ghost use Rattle.inc_terms.specs.Depend.{change};
ghost use Rattle.expert_nodes.specs.Experts.{expert_at};
ghost use Rattle.point_map.specs.Rows.{at, KeepsRows};
ghost use Rattle.scopes.specs.Scopes.{IsApart, Enters};
ghost use Rattle.necessary_graph.specs.Part.{IsInStep};
ghost use Rattle.node_arena.specs.Arena.{row_at, live, IsLive};
ghost use Rattle.node_arena.specs.Building.{building_in};
ghost use Rattle.node_arena.specs.RightSide.{IsRoot};
ghost use Rattle.node_arena.specs.Sound.{IsSoundArena};
ghost use Rattle.node_outcomes.specs.Computing.{is_expert};
ghost use Rattle.stabilizer.specs.Building.{StopsBuilding, AdoptsBefore, NoneSince, MayAdopt, GetsPoints, KeepsRest, MayDisown, MayLeave, HaveLeft};
ghost use Rattle.stabilizer.specs.Building.{HasDisowned, DropsSince};
ghost use Rattle.stabilizer.specs.Rooted.{MayBuildFor, WasBuilt, GetsRoot, GetsNoRoot};
ghost use Rattle.stabilizer.specs.Giving.{GivesLive};

use crate::parts::{Parts, make_room_to_list};
use inc_terms::Nodes;
use inc_value::{FnRef, NodeId, Point, Value};
use node_arena::{Arena, BuildFault, Functions};
use std::alloc::{AllocError, Global};
use wiring::Refused;

/// What a bind's right sides are built by: a function, and the captured nodes.
#[derive(Drop)]
pub(crate) struct Recipe {
    function: FnRef,
    captures: Nodes,
}

impl Recipe {
    /// That of a bind with this function and these captures.
    pub fn new(alloc: Global, function: FnRef, captures: &[NodeId]) -> Result<Recipe, AllocError>
        ensures { IfOk result (λ r. (r.function ≡ function) × (r.captures ≡ captures.now)) }
    {
        Ok(Recipe {
            function,
            captures: Nodes::from_slice(alloc, captures)?,
        })
    }
}

impl Parts {
    /// Builds the right side of a left value, and keeps its root. A refused call leaves no node of it, and no root.
    pub(crate) fn build_root<F: Functions>(
        &mut self,
        functions: &mut F,
        bind: NodeId,
        recipe: &Recipe,
        left: &Value,
    ) -> Result<(), Refused>
        requires may { MayBuildFor F.Functions functions.old self.old bind recipe.now.function recipe.now.captures left.now }
        requires rootless { at self.old.work.roots (change bind) ≡ None }
        ensures root { OnOk result (GetsRoot F.Functions functions.old functions.new self.old self.new bind
            recipe.now.function recipe.now.captures left.now) }
        ensures refused { IfErr result (GetsNoRoot F.Functions functions.old functions.new self.old self.new bind
            recipe.now.function) }
    {
        self.work.roots.reserve(1)?;
        let root = self.build(functions, bind, recipe, left)?;
        self.work.roots.insert(Point::change(bind), root);
        Ok(())
    }

    /// Builds the right side of a left value, and makes the points of its nodes. A refused call leaves no node of it.
    fn build<F: Functions>(
        &mut self,
        functions: &mut F,
        bind: NodeId,
        recipe: &Recipe,
        left: &Value,
    ) -> Result<NodeId, Refused>
        requires { MayBuildFor F.Functions functions.old self.old bind recipe.now.function recipe.now.captures left.now }
        ensures built { WasBuilt F.Functions functions.old functions.new self.old self.new bind }
        ensures none { OnErr result ((n : ANode) → self.old.arena.given ≤ n.gen_ → row_at self.new.arena n ≡ None) }
        ensures root { IfOk result (λ n. IsRoot (building_in bind self.new.arena) recipe.now.captures n
            ((F.right functions.old recipe.now.function).term left.now) recipe.now.function.sig.gives) }
        ensures stops { IfErr result (StopsBuilding self.old.arena.given self.new.arena) }
        ensures gives { OnOk result (GivesLive self.old.arena.given 0 self.new.arena) }
        ensures spends { self.new.arena.given
            ≤ self.old.arena.given + (F.right functions.old recipe.now.function).size }
    {
        let count = self.arena.given();
        let built = self.arena.build(
            self.alloc,
            functions,
            bind,
            recipe.function,
            left,
            recipe.captures.as_slice(),
        );
        match built {
            Ok(root) => match self.adopt_since(bind, count) {
                Ok(()) => Ok(root),
                Err(AllocError) => {
                    self.disown_since(bind, count);
                    Err(Refused::Memory)
                }
            },
            Err(fault) => {
                self.disown_since(bind, count);
                Err(refusal_of_build(fault))
            }
        }
    }

    /// Makes the points of the nodes that were added to a bind's scope since the count, and room to list all live nodes as
    /// those whose functions are called. Without memory some have their points.
    fn adopt_since(&mut self, bind: NodeId, count: u64) -> Result<(), AllocError>
        requires ready { MayAdopt self.old count }
        ensures all { OnOk result ((next : ℕ) × AdoptsBefore self.old self.new bind count next
            × NoneSince self.old.arena next) }
        ensures called { OnOk result (live self.old.arena ≤ vec_capacity self.new.work.ran) }
        ensures listed { OnOk result (live self.old.arena ≤ vec_capacity self.new.ran) }
        ensures some { OnErr result ((next : ℕ) × AdoptsBefore self.old self.new bind count next) }
    {
        let Ok(()) = make_room_to_list(&self.arena, &mut self.work.ran, &mut self.ran) else {
            return Err(AllocError);
        };
        let mut next = count;
        while let Some(node) = self.arena.first_since(next) {
            self.adopt(bind, node)?;
            next = node.gen_ + 1;
        }
        Ok(())
    }

    /// Makes the points of a node that was added to a bind's scope. Without memory it has none, and stands in no scope.
    fn adopt(&mut self, bind: NodeId, node: NodeId) -> Result<(), AllocError>
        requires live { IsLive self.old.arena node }
        requires step { IsInStep self.old.work.graph }
        requires no_row { (p : APoint) → p.node ≡ node → at self.old.work.rows p ≡ None }
        requires no_point { (p : APoint) → p.node ≡ node → at self.old.work.graph.heights p ≡ None }
        requires apart { IsApart self.old.scopes node }
        requires plain { is_expert (row_at self.old.arena node) ≡ false }
        requires no_expert { expert_at self.old.work.experts node ≡ None }
        ensures points { OnOk result (GetsPoints self.old.arena self.old.work self.new.work node) }
        ensures enters { OnOk result (Enters self.old.scopes self.new.scopes node bind) }
        ensures rest { KeepsRest self.old.arena self.old.work self.new.work }
        ensures arena { self.new.arena ≡ self.old.arena }
        ensures timed { self.new.timed ≡ self.old.timed }
        ensures dying { self.new.dying.items ≡ self.old.dying.items }
        ensures ran { self.new.ran ≡ self.old.ran }
        ensures err_rows { OnErr result (KeepsRows self.old.work.rows self.new.work.rows) }
        ensures err_points { OnErr result (KeepsRows self.old.work.graph.heights self.new.work.graph.heights) }
        ensures err_scopes { OnErr result (self.new.scopes ≡ self.old.scopes) }
    {
        let Some(row) = self.arena.get(node) else {
            return Ok(());
        };
        self.work.add_scoped(&self.arena, node, &row.def, bind)?;
        match self.scopes.enter(bind, node) {
            Ok(()) => Ok(()),
            Err(AllocError) => {
                self.work.drop_node(node);
                Err(AllocError)
            }
        }
    }

    /// Drops the nodes that were added to a bind's scope since the count, with the points that some have. None of them is
    /// needed. This takes no memory.
    fn disown_since(&mut self, bind: NodeId, count: u64)
        requires ready { MayDisown self.old bind count }
        ensures disowned { HasDisowned self.old self.new bind count }
    {
        self.drop_entered(bind);
        self.work.forget_since(count);
        drop_since(&mut self.arena, count);
    }

    /// The nodes that were added to a bind's scope leave it, and lose their points.
    fn drop_entered(&mut self, bind: NodeId)
        requires ready { MayLeave self.old bind }
        ensures left { HaveLeft self.old self.new bind }
    {
        self.scopes.kill(bind);
        while let Some(node) = self.scopes.next_killed() {
            self.work.drop_node(node);
        }
    }
}

/// Drops the nodes whose ids were given since the count.
fn drop_since(arena: &mut Arena, count: u64)
    requires sound { IsSoundArena arena.old }
    requires later { count ≤ arena.old.given }
    ensures drops { DropsSince arena.old arena.new count }
{
    let mut next = count;
    while let Some(node) = arena.first_since(next) {
        arena.drop_node(node);
        next = node.gen_ + 1;
    }
}

/// Why a stabilize is refused where a right side isn't built.
fn refusal_of_build(fault: BuildFault) -> Refused
    ensures full { (result ≡ Refused.Full) ↔ (fault ≡ BuildFault.Full) }
    ensures memory { (result ≡ Refused.Memory) ↔ (fault ≡ BuildFault.Memory) }
{
    match fault {
        BuildFault::Full => Refused::Full,
        BuildFault::Memory => Refused::Memory,
    }
}
