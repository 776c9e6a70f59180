//! Steps and rounds.
ghost use Rattle.std.specs.Prelude.{◌≡◌, ◌≢◌, List, [], None, Some, map, All, true};
ghost use Rattle.std.specs.Prelude.{IfOk, OnOk, OnErr, IfErr, IfSome, IfNone};
ghost use Rattle.inc_value.specs.Counts.{raised};
ghost use Rattle.inc_value.specs.declared.function.FnRef.{FnRef as AFunction};
ghost use Rattle.inc_value.specs.declared.node.NodeId.{NodeId};
ghost use Rattle.inc_value.specs.declared.node.Point.{Point as APoint};
ghost use Rattle.inc_terms.specs.Code.{def_of};
ghost use Rattle.inc_terms.specs.Depend.{main, change};
ghost use Rattle.inc_terms.specs.Graph.{Row as ARow};
ghost use Rattle.inc_terms.specs.Within.{Given};
ghost use Rattle.point_map.specs.Rows.{at, Holds};
ghost use Rattle.recompute_heap.specs.Agree.{IsEmpty};
ghost use Rattle.necessary_graph.specs.Part.{IsInStep};
ghost use Rattle.node_arena.specs.Arena.{row_at};
ghost use Rattle.node_outcomes.specs.Meaning.{functions_of, meaning_of};
ghost use Rattle.node_outcomes.specs.Row.{settled_in, outcome_in};
ghost use Rattle.observers.specs.Observers.{AllLight, notices_of, told_by};
ghost use Rattle.wiring.specs.Kept.{IsKept};
ghost use Rattle.wiring.specs.Wiring.{PutsRoots, RootRefused, WaitsFor};
ghost use Rattle.stabilizer.specs.Kept.{PartsKept, KeepsMeaning, StaysFlat, WantsTell, counts_by};
ghost use Rattle.stabilizer.specs.Lacking.{MainLacks, ChangeLacks, StepLacks, SettleLacks, SettleOrTellLacks, RoundLacks};
ghost use Rattle.stabilizer.specs.Rebuilding.{BuildRefused};
ghost use Rattle.stabilizer.specs.Round.{IsReady};
ghost use Rattle.stabilizer.specs.Round.{IsInRound, MayBegin, RootsMore, OnlyRoots, Settles, SettleRefused};
ghost use Rattle.stabilizer.specs.Ended.{RoundEnds, RoundStops, RoundLeaves};
ghost use Rattle.stabilizer.specs.Stepping.{MainIsSettled, MainIsLeft, IsUnbuiltBind, IsBuiltFor, IsTurnedAwake, IsAsleep, IsTurned, ChangeIsSettled, ChangeIsLeft};
ghost use Rattle.stabilizer.specs.Stepping.{StepIsMade, NoneIsLeft, StepIsRefused, StepsMade};
ghost use Rattle.stabilizer.specs.Giving.{GivesLive, GivesFew, StopsFull};
ghost use Rattle.stabilizer.specs.Staying.{MayStep, ChangeIsTaken, RoundStays};
ghost use Rattle.stabilizer.specs.Steady.{IsSteady};
ghost use Rattle.stabilizer.specs.Telling.{AreCurrent, HasOpened, LookAtGiven, NoneIsSettled, SettledAreNews, ShowAsSeen, shows_of};
ghost use Rattle.stabilizer.specs.Weights.{SidesFit};

use crate::build::Recipe;
use crate::news::News;
use crate::parts::Parts;
use inc_terms::Def;
use inc_value::{NodeId, Outcome, Part, Point};
use node_arena::{Arena, Functions};
use node_outcomes::{Progress, compute, ran_with, shown};
use observers::Observers;
use slot_map::SlotMap;
use std::alloc::{AllocError, Global};
use std::mem;
use wiring::{Refused, Work};

/// Brings what is needed of a graph up to date.
pub struct Stabilizer;

impl Stabilizer {
    /// Takes a point of least height from the heap, any one of them, and settles it. None where the heap is empty.
    pub fn step<F: Functions>(
        parts: &mut Parts,
        functions: &mut F,
    ) -> Result<Option<Point>, Refused>
        requires { MayStep F.Functions functions.old parts.old }
        ensures made { IfOk result (λ taken. IfSome taken (StepIsMade (meaning_of F.Functions functions.old) parts.old parts.new
            (counts_by F.Functions functions.old) (counts_by F.Functions functions.new))) }
        ensures ended { IfOk result (λ taken. IfNone taken (NoneIsLeft parts.old parts.new
            (counts_by F.Functions functions.old) (counts_by F.Functions functions.new))) }
        ensures refused { IfErr result (StepIsRefused (meaning_of F.Functions functions.old) (F.right functions.new) parts.old parts.new
            (counts_by F.Functions functions.old) (counts_by F.Functions functions.new)) }
        ensures quiet { OnOk result (parts.new.work.todo.items ≡ []) }
        ensures stays { RoundStays F.Functions functions.old functions.new parts.old parts.new }
        ensures wants { WantsTell result (F.wants functions.old) (F.wants functions.new) }
        ensures lacks { OnErr result (StepLacks parts.old (F.wants functions.old) (F.wants functions.new)) }
    {
        let Some(p) = parts.work.graph.pop_least() else {
            return Ok(None);
        };
        match p.part {
            Part::Change => {
                step_change(parts, functions, p.node)?;
                Ok(Some(p))
            }
            Part::Main => match step_main(parts, functions, p.node) {
                Ok(()) => Ok(Some(p)),
                Err(refused) => {
                    parts.work.graph.insert(p);
                    Err(refused)
                }
            },
        }
    }

    /// A round: links experts to what their lists gained, puts roots on at these nodes, brings all that is needed up to date,
    /// and tells observers of it. Then freezes keep the values on which their predicates were found true. No time goes into
    /// observers of nodes that weren't settled and didn't die. A steady round takes no memory beside what functions take.
    pub fn run<F: Functions>(
        parts: &mut Parts,
        functions: &mut F,
        roots: &[NodeId],
        observers: &mut Observers,
    ) -> Result<(), Refused>
        requires ready { IsReady (meaning_of F.Functions functions.old) parts.old }
        requires sound { F.is_sound functions.old }
        requires fit { SidesFit (F.known functions.old) (F.right functions.old) parts.old.arena }
        requires given { All (Given parts.old.arena.given) roots.now }
        requires begins { MayBegin parts.old roots.now }
        requires looks { LookAtGiven parts.old observers.old.made }
        requires shown { ShowAsSeen parts.old observers.old.made }
        ensures ended { OnOk result (RoundEnds F.Functions functions.old functions.new parts.old parts.new roots.now) }
        ensures refused { IfErr result (RoundStops F.Functions functions.old functions.new parts.old parts.new roots.now) }
        ensures leaves { RoundLeaves F.Functions functions.old functions.new parts.old parts.new }
        ensures told { OnOk result (observers.new.made ≡ told_by (shows_of parts.new) observers.old.made) }
        ensures notices { OnOk result (observers.new.notices ≡ notices_of (shows_of parts.new) 0 observers.old.made) }
        ensures observers { OnErr result (observers.new ≡ observers.old) }
        ensures quiet { OnOk result (parts.new.work.todo.items ≡ []) }
        ensures wants { WantsTell result (F.wants functions.old) (F.wants functions.new) }
        ensures lacks { OnErr result (RoundLacks (meaning_of F.Functions functions.old) parts.old roots.now
            observers.old.made (counts_by F.Functions functions.old) (F.wants functions.old) (F.wants functions.new)) }
        ensures steady { OnErr result (IsSteady (functions_of F.Functions functions.old) parts.old roots.now observers.old.made
            → F.wants functions.new ≡ raised (F.wants functions.old)) }
    {
        let Some(next) = parts.work.round.checked_add(1) else {
            return Err(Refused::Memory);
        };
        parts.work.wire(&parts.arena)?;
        put_roots(&mut parts.work, &parts.arena, roots)?;
        settle_and_tell(parts, functions, observers)?;
        mem::swap(&mut parts.ran, &mut parts.work.ran);
        parts.freeze_fired();
        parts.work.end_round(next);
        Ok(())
    }
}

/// Puts roots on at these nodes, and gives what is newly needed its links.
fn put_roots(work: &mut Work, arena: &Arena, roots: &[NodeId]) -> Result<(), Refused>
    requires kept { IsKept arena.now work.old }
    requires quiet { work.old.todo.items ≡ [] }
    requires given { All (Given arena.now.given) roots.now }
    ensures rooted { OnOk result (RootsMore work.old.graph.roots work.new.graph.roots (map main roots.now)) }
    ensures roots { OnlyRoots work.old.graph.roots work.new.graph.roots (map main roots.now) }
    ensures wired { OnOk result (PutsRoots arena.now work.old work.new) }
    ensures still { OnOk result (roots.now ≡ [] → work.new ≡ work.old) }
    ensures refused { IfErr result (RootRefused arena.now work.old work.new) }
    ensures some { OnErr result (roots.now ≢ []) }
    ensures quiet { OnOk result (work.new.todo.items ≡ []) }
    ensures round { work.new.round ≡ work.old.round }
    ensures kept { IsKept arena.now work.new }
{
    for node in roots {
        work.put_root(arena, Point::main(*node))?;
    }
    Ok(())
}

/// Makes steps until the heap is empty, and tells observers what their nodes then show.
fn settle_and_tell<F: Functions>(
    parts: &mut Parts,
    functions: &mut F,
    observers: &mut Observers,
) -> Result<(), Refused>
    requires may { MayStep F.Functions functions.old parts.old }
    requires in_round { IsInRound (meaning_of F.Functions functions.old) parts.old (counts_by F.Functions functions.old) }
    requires opened { HasOpened (meaning_of F.Functions functions.old) parts.old (counts_by F.Functions functions.old)
        observers.old.made }
    ensures settled { OnOk result (Settles (meaning_of F.Functions functions.old) parts.old parts.new
        (counts_by F.Functions functions.old) (counts_by F.Functions functions.new)) }
    ensures empty { OnOk result (IsEmpty parts.new.work.graph.heap) }
    ensures refused { IfErr result (SettleRefused (meaning_of F.Functions functions.old) parts.old parts.new
        (counts_by F.Functions functions.old) (counts_by F.Functions functions.new)) }
    ensures gives { OnOk result (GivesLive parts.old.arena.given 0 parts.new.arena) }
    ensures spends { OnErr result (GivesFew (F.right functions.new) parts.old.arena.given parts.new.arena) }
    ensures full { IfErr result (StopsFull (F.right functions.new) parts.new.arena
        (counts_by F.Functions functions.old) (counts_by F.Functions functions.new)) }
    ensures quiet { OnOk result (parts.new.work.todo.items ≡ []) }
    ensures stays { RoundStays F.Functions functions.old functions.new parts.old parts.new }
    ensures wants { WantsTell result (F.wants functions.old) (F.wants functions.new) }
    ensures told { OnOk result (observers.new.made ≡ told_by (shows_of parts.new) observers.old.made) }
    ensures notices { OnOk result (observers.new.notices ≡ notices_of (shows_of parts.new) 0 observers.old.made) }
    ensures observers { OnErr result (observers.new ≡ observers.old) }
    ensures lacks { OnErr result (SettleOrTellLacks (meaning_of F.Functions functions.old) parts.old observers.old.made
        (counts_by F.Functions functions.old) (F.wants functions.old) (F.wants functions.new)) }
{
    let mut news = News::new(observers.news_room());
    match settle_all(parts, functions, &mut news) {
        Ok(()) => {
            news.add_dead(&parts.work.deaths);
            match tell(parts, news, observers) {
                Ok(()) => Ok(()),
                Err(AllocError) => Err(Refused::Memory),
            }
        }
        Err(refused) => Err(refused),
    }
}

/// Tells observers what their nodes show, where one of a node that isn't news shows it already. Only a text that is shown
/// or told needs memory.
fn tell(parts: &Parts, news: News, observers: &mut Observers) -> Result<(), AllocError>
    requires current { AreCurrent parts.now news observers.old.made }
    ensures told { OnOk result (observers.new.made ≡ told_by (shows_of parts.now) observers.old.made) }
    ensures notices { OnOk result (observers.new.notices ≡ notices_of (shows_of parts.now) 0 observers.old.made) }
    ensures heavy { OnErr result (¬ AllLight (shows_of parts.now) observers.old.made) }
    ensures err { OnErr result (observers.new ≡ observers.old) }
{
    let News { nodes, all } = news;
    let told = if all {
        observers.tell_all(parts)
    } else {
        observers.tell(parts, &nodes)
    };
    observers.keep_room(nodes);
    told
}

/// Makes steps until the heap is empty. Nodes whose mains are settled become news.
fn settle_all<F: Functions>(
    parts: &mut Parts,
    functions: &mut F,
    news: &mut News,
) -> Result<(), Refused>
    requires may { MayStep F.Functions functions.old parts.old }
    requires fresh { NoneIsSettled parts.old.work }
    requires in_round { IsInRound (meaning_of F.Functions functions.old) parts.old (counts_by F.Functions functions.old) }
    ensures settled { OnOk result (Settles (meaning_of F.Functions functions.old) parts.old parts.new
        (counts_by F.Functions functions.old) (counts_by F.Functions functions.new)) }
    ensures steps { OnOk result (StepsMade (meaning_of F.Functions functions.old) parts.old (counts_by F.Functions functions.old)
        parts.new (counts_by F.Functions functions.new)) }
    ensures empty { OnOk result (IsEmpty parts.new.work.graph.heap) }
    ensures refused { IfErr result (SettleRefused (meaning_of F.Functions functions.old) parts.old parts.new
        (counts_by F.Functions functions.old) (counts_by F.Functions functions.new)) }
    ensures gives { OnOk result (GivesLive parts.old.arena.given 0 parts.new.arena) }
    ensures spends { OnErr result (GivesFew (F.right functions.new) parts.old.arena.given parts.new.arena) }
    ensures full { IfErr result (StopsFull (F.right functions.new) parts.new.arena
        (counts_by F.Functions functions.old) (counts_by F.Functions functions.new)) }
    ensures news { OnOk result (SettledAreNews parts.new.work news.new) }
    ensures quiet { OnOk result (parts.new.work.todo.items ≡ []) }
    ensures stays { RoundStays F.Functions functions.old functions.new parts.old parts.new }
    ensures wants { WantsTell result (F.wants functions.old) (F.wants functions.new) }
    ensures lacks { OnErr result (SettleLacks (meaning_of F.Functions functions.old) parts.old
        (counts_by F.Functions functions.old) (F.wants functions.old) (F.wants functions.new)) }
{
    while let Some(p) = Stabilizer::step(parts, functions)? {
        news.add(p.node);
    }
    Ok(())
}

/// Settles a main that was taken from the heap.
fn step_main<F: Functions>(
    parts: &mut Parts,
    functions: &mut F,
    node: NodeId,
) -> Result<(), Refused>
    requires may { MayStep F.Functions functions.old parts.old }
    requires row { Holds parts.old.work.rows (main node) }
    requires taken { at parts.old.work.graph.heap (main node) ≡ None }
    ensures settled { OnOk result (MainIsSettled (functions_of F.Functions functions.old) parts.old.arena parts.old.work parts.new.work
        node (counts_by F.Functions functions.old) (counts_by F.Functions functions.new)) }
    ensures refused { OnErr result (MainIsLeft parts.old.arena parts.old.work parts.new.work node
        (counts_by F.Functions functions.old) (counts_by F.Functions functions.new)) }
    ensures memory { IfErr result (λ e. e ≡ Refused.Memory) }
    ensures lacks { OnErr result (MainLacks parts.old.arena parts.old.work node (F.wants functions.old) (F.wants functions.new)) }
    ensures rest { parts.new ≡ record parts.old { work = parts.new.work } }
    ensures kept { PartsKept parts.new }
    ensures functions { KeepsMeaning F.Functions functions.old functions.new }
    ensures wants { WantsTell result (F.wants functions.old) (F.wants functions.new) }
    ensures flat { StaysFlat parts.old.arena parts.new.arena }
{
    let computed = compute(
        parts.alloc,
        &parts.arena,
        &mut parts.work.rows,
        &parts.work.roots,
        &mut parts.work.experts,
        &mut parts.work.ran,
        parts.work.round,
        functions,
        node,
    );
    match computed {
        Ok(outcome) => {
            parts.work.settle(Point::main(node), outcome);
            Ok(())
        }
        Err(AllocError) => Err(Refused::Memory),
    }
}

/// Settles a change that was taken from the heap: with another outcome of its subject than before its main loses its
/// right side, and a bind is built anew. A main that waits for it gets the right side that it chooses now, and points of a
/// bind's scope that wait for it get their links.
fn step_change<F: Functions>(
    parts: &mut Parts,
    functions: &mut F,
    node: NodeId,
) -> Result<(), Refused>
    requires may { MayStep F.Functions functions.old parts.old }
    requires taken { ChangeIsTaken parts.old.work node }
    ensures settled { OnOk result (ChangeIsSettled (meaning_of F.Functions functions.old) parts.old parts.new node
        (counts_by F.Functions functions.old) (counts_by F.Functions functions.new)) }
    ensures refused { IfErr result (ChangeIsLeft (meaning_of F.Functions functions.old) (F.right functions.new) parts.old parts.new node
        (counts_by F.Functions functions.old) (counts_by F.Functions functions.new)) }
    ensures quiet { OnOk result (parts.new.work.todo.items ≡ []) }
    ensures lacks { OnErr result (ChangeLacks parts.old node) }
    ensures stays { RoundStays F.Functions functions.old functions.new parts.old parts.new }
    ensures wants { F.wants functions.new ≡ F.wants functions.old }
{
    match turn_change(parts, functions, node) {
        Ok(()) => {}
        Err(refused) => {
            parts.work.schedule(Point::change(node));
            return Err(refused);
        }
    }
    parts.work.attach_right(&parts.arena, node)?;
    parts.work.wire(&parts.arena)
}

/// Settles a change on what its subject shows. Where that is another outcome than before, the node's main loses its right
/// side, and a bind is built anew. Where it is what a bind is built for, the points of its scope that wait for the change
/// are put into the worklist. A refused call settles nothing.
fn turn_change<F: Functions>(
    parts: &mut Parts,
    functions: &mut F,
    node: NodeId,
) -> Result<(), Refused>
    requires may { MayStep F.Functions functions.old parts.old }
    requires taken { ChangeIsTaken parts.old.work node }
    ensures turned { OnOk result (IsTurned (meaning_of F.Functions functions.old) parts.old parts.new node
        (counts_by F.Functions functions.old) (counts_by F.Functions functions.new)) }
    ensures refused { IfErr result (BuildRefused (meaning_of F.Functions functions.old) (F.right functions.new) parts.old parts.new node
        (counts_by F.Functions functions.old) (counts_by F.Functions functions.new)) }
    ensures settled { OnOk result (settled_in parts.new.work.round (at parts.new.work.rows (change node)) ≡ true) }
    ensures row { (r : ARow) → row_at parts.old.arena node ≡ Some r → row_at parts.new.arena node ≡ Some r }
    ensures there { Holds parts.new.work.rows (change node) }
    ensures quiet { OnErr result (parts.new.work.todo.items ≡ []) }
    ensures lacks { OnErr result (ChangeLacks parts.old node) }
    ensures stays { RoundStays F.Functions functions.old functions.new parts.old parts.new }
    ensures wants { F.wants functions.new ≡ F.wants functions.old }
{
    let Some(row) = parts.arena.get(node) else {
        return Ok(());
    };
    let Some(subject) = row.def.subject() else {
        return Ok(());
    };
    let given = shown(parts.alloc, &parts.work.rows, subject)?;
    match due_recipe(parts.alloc, &parts.work.rows, node, &row.def, &given) {
        Ok(None) => turn_as_built(&mut parts.work, node, &row.def, given),
        Ok(Some(recipe)) => {
            let built = parts.rebuild(functions, node, &recipe, given);
            drop(recipe);
            built
        }
        Err(AllocError) => {
            drop(given);
            Err(Refused::Memory)
        }
    }
}

/// What a node's right side is to be built by, if the node is a bind that isn't built for the outcome.
fn due_recipe(
    alloc: Global,
    rows: &SlotMap<Progress>,
    node: NodeId,
    def: &Def,
    given: &Outcome,
) -> Result<Option<Recipe>, AllocError>
    ensures due { IfOk result (λ due. IfSome due (λ r. IsUnbuiltBind (def_of def.now) r.function r.captures
        (outcome_in (at rows.now (change node))) given.now)) }
    ensures built { IfOk result (λ due. due ≡ None → IsBuiltFor (def_of def.now) (outcome_in (at rows.now (change node))) given.now) }
    ensures lacks { OnErr result ((f : AFunction) × (captures : List NodeId)
        × IsUnbuiltBind (def_of def.now) f captures (outcome_in (at rows.now (change node))) given.now) }
{
    match def {
        Def::Bind {
            function,
            captures,
            ..
        } if !ran_with(rows, node, given) => Ok(Some(Recipe::new(
            alloc,
            *function,
            captures.as_slice(),
        )?)),
        _ => Ok(None),
    }
}

/// Settles the change of a node that is no bind, or is built for the outcome. The points of its scope that wait for the
/// change are put into the worklist. Without memory nothing is settled, and the worklist is empty.
fn turn_as_built(work: &mut Work, node: NodeId, def: &Def, given: Outcome) -> Result<(), Refused>
    requires row { Holds work.old.rows (change node) }
    requires step { IsInStep work.old.graph }
    requires quiet { work.old.todo.items ≡ [] }
    ensures turned { OnOk result (IsTurnedAwake work.old work.new node (def_of def.now) given) }
    ensures refused { IfErr result (IsAsleep work.old work.new) }
    ensures waits { OnErr result ((p : APoint) × WaitsFor work.old p (change node)) }
{
    match work.wake_scope(node) {
        Ok(()) => {
            work.turn(node, def, given);
            Ok(())
        }
        Err(AllocError) => {
            drop(given);
            Err(Refused::Memory)
        }
    }
}
