//! Binds that are built anew.
ghost use Rattle.std.specs.Prelude.{◌≡◌, ◌≤◌, ◌<◌, ◌-◌, IfErr, OnOk, OnErr, true, vec_capacity};
ghost use Rattle.inc_terms.specs.Depend.{change};
ghost use Rattle.point_map.specs.Rows.{at, KeepsRows};
ghost use Rattle.node_outcomes.specs.Meaning.{meaning_of};
ghost use Rattle.node_outcomes.specs.Row.{settled_in};
ghost use Rattle.stabilizer.specs.Kept.{PartsKept, counts_by};
ghost use Rattle.stabilizer.specs.Rebuilding.{IsToBuild, BuildsAnew, BuildRefused, IsToSettle, RebuildStays};
ghost use Rattle.stabilizer.specs.Giving.{GivesLive};
ghost use Rattle.stabilizer.specs.Staying.{MayStep, ChangeIsTaken};

use crate::build::Recipe;
use crate::parts::Parts;
use inc_value::{NodeId, Outcome};
use node_arena::Functions;
use node_lists::Deaths;
use std::alloc::AllocError;
use wiring::Refused;

impl Parts {
    /// Builds a bind anew for an outcome of its left, another than what it is built for: all nodes of its scope, and of
    /// scopes within it, die; then its function builds the right side of a value, and Invalid has none. Its change is
    /// settled. All memory for the deaths is taken before. A build that is refused, or has no memory, leaves the bind built
    /// for nothing, without a root and without nodes in its scope, and its change in the heap; want of memory before the
    /// deaths leaves all as it was.
    pub(crate) fn rebuild<F: Functions>(
        &mut self,
        functions: &mut F,
        node: NodeId,
        recipe: &Recipe,
        given: Outcome,
    ) -> Result<(), Refused>
        requires may { MayStep F.Functions functions.old self.old }
        requires to_build { IsToBuild self.old node recipe.now.function recipe.now.captures given }
        requires taken { ChangeIsTaken self.old.work node }
        ensures built { OnOk result (BuildsAnew (meaning_of F.Functions functions.old) self.old self.new node
            (counts_by F.Functions functions.old) (counts_by F.Functions functions.new)) }
        ensures refused { IfErr result (BuildRefused (meaning_of F.Functions functions.old) (F.right functions.new) self.old self.new node
            (counts_by F.Functions functions.old) (counts_by F.Functions functions.new)) }
        ensures gives { OnOk result (GivesLive self.old.arena.given 0 self.new.arena) }
        ensures settled { OnOk result (settled_in self.new.work.round (at self.new.work.rows (change node)) ≡ true) }
        ensures kept { PartsKept self.new }
        ensures stays { RebuildStays F.Functions functions.old functions.new self.old self.new node }
    {
        match self.renew(functions, node, recipe, &given) {
            Ok(()) => {
                self.work.settle_built(node, given);
                Ok(())
            }
            Err(refused) => {
                drop(given);
                Err(refused)
            }
        }
    }

    /// Does all of that but for settling the change.
    fn renew<F: Functions>(
        &mut self,
        functions: &mut F,
        node: NodeId,
        recipe: &Recipe,
        given: &Outcome,
    ) -> Result<(), Refused>
        requires may { MayStep F.Functions functions.old self.old }
        requires to_build { IsToBuild self.old node recipe.now.function recipe.now.captures given.now }
        requires taken { ChangeIsTaken self.old.work node }
        ensures ready { OnOk result (IsToSettle F.Functions functions.old functions.new self.old self.new node given.now) }
        ensures refused { IfErr result (BuildRefused (meaning_of F.Functions functions.old) (F.right functions.new) self.old self.new node
            (counts_by F.Functions functions.old) (counts_by F.Functions functions.new)) }
        ensures kept { OnErr result (PartsKept self.new) }
        ensures stays { RebuildStays F.Functions functions.old functions.new self.old self.new node }
    {
        make_room(&mut self.dying, &mut self.work.deaths, self.scopes.len())?;
        self.cut_off(node);
        self.let_die(node);
        let Outcome::Val(left) = given else {
            return Ok(());
        };
        self.build_root(functions, node, recipe, left)
    }
}

/// Makes room for so many deaths.
fn make_room(dying: &mut Vec<NodeId>, deaths: &mut Deaths, most: usize) -> Result<(), AllocError>
    ensures dying { dying.new.items ≡ dying.old.items }
    ensures deaths { KeepsRows deaths.old.scopes deaths.new.scopes }
    ensures room { OnOk result (most ≤ vec_capacity dying.new) }
    ensures spare { OnOk result (most ≤ deaths.new.spare) }
{
    dying.reserve(most)?;
    deaths.reserve(most)
}
