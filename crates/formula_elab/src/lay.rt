//! Laying formulas out as nodes to be made.
ghost use Rattle.std.specs.Prelude.{◌≡◌, ◌<◌, ◌≤◌, ◌^◌, ◌++◌, ◌∷◌, [], Bool, false, None, length, map, IfOk, OnOk};
ghost use Rattle.inc_value.specs.Choice.{Every};
ghost use Rattle.inc_value.specs.declared.function.FnRef.{FnRef};
ghost use Rattle.inc_value.specs.declared.ty.Ty.{Ty};
ghost use Rattle.formula_lang.specs.Fits.{BodyFits};
ghost use Rattle.formula_lang.specs.CommandView.{body_view, constant_view, formula_view, formulas_of, timed_view};
ghost use Rattle.script_model.specs.Formula.{Apply, Bind, Fold, Freeze, Join, TimedValue, binds_in, binds_in_all, binds_of_body, places_in, places_in_all, places_of_body};
ghost use Rattle.formula_elab.specs.Laying.{laid_body, AreLaid, IsLaid, IsLaidBody};
ghost use Rattle.formula_elab.specs.Made.{ShowsOnceMade};
ghost use Rattle.formula_elab.specs.Names.{EveryName, EveryNameOfAll, EveryNameOf};
ghost use Rattle.script_model.specs.Leaves.{EveryReference};
ghost use Rattle.formula_elab.specs.Opened.{node_at, weight, AreInOrder};
ghost use Rattle.formula_elab.specs.Types.{type_at, AreTypedAsTargets};
ghost use Rattle.formula_elab.specs.declared.opened.Open.TheVariants as open_node;
ghost use Rattle.formula_elab.specs.declared.opened.Part.TheVariants as part;
ghost use Rattle.formula_elab.specs.declared.plan.Planned.TheVariants as planned;
ghost use Rattle.transfer.specs.Both.{graph_value};
ghost use Rattle.transfer.specs.Shows.{graph_step};

use crate::opened::{Open, Part, Parts};
use crate::plan::{Plan, Planned};
use crate::types::{formula_type, joined_type};
use crate::value::{steps_of, value_of};
use crate::write::write_body;
use formula_lang::{Constant, Declaration, Formula, Names, Nanoseconds, TimedConstant};
use inc_value::{FnRef, NodeId};
use std::alloc::{AllocError, Global};

/// What is to be made in a graph for what is declared, where the nodes of the declarations stand by position: a node for each
/// place outside of the bodies of binds, and a function for each bind, inner ones first.
pub fn elaborate(
    alloc: Global,
    body: &Declaration,
    names: &Names,
    ids: &[NodeId],
) -> Result<Plan, AllocError>
    requires one_each { length ids.now ≡ length names.now.declared }
    requires names { EveryNameOf (λ n. n < length ids.now) (body_view body.now) }
    requires fits { (known : FnRef → Bool) × (ty : Ty) × BodyFits known names.now (body_view body.now) ty }
    requires targets { AreTypedAsTargets names.now }
    requires few { places_of_body (body_view body.now) ≤ 1048575 }
    requires few_binds { binds_of_body (body_view body.now) ≤ 64 }
    ensures order { IfOk result (λ plan. AreInOrder [] plan.makes) }
    ensures places { IfOk result (λ plan. length plan.makes ≤ places_of_body (body_view body.now)) }
    ensures weight { IfOk result (λ plan. weight plan.makes ≡ places_of_body (body_view body.now)) }
    ensures declares { IfOk result (λ plan. ShowsOnceMade (node_at ids.now) (body_view body.now) plan.makes plan.root) }
    ensures made { IfOk result (λ plan. plan.made ≡ []) }
    ensures waits { IfOk result (λ plan. plan.is_waiting ≡ false) }
    ensures makes { IfOk result (λ plan. plan.makes ≡ (laid_body (node_at ids.now) (type_at names.entry.now) 0 (body_view body.now)).makes) }
    ensures root { IfOk result (λ plan. plan.root ≡ (laid_body (node_at ids.now) (type_at names.entry.now) 0 (body_view body.now)).root) }
{
    let mut makes = Vec::new(alloc);
    let root = lay_body(alloc, body, names, ids, &mut makes)?;
    Ok(Plan::new(alloc, makes, root))
}

/// Lays out what is declared behind what is to be made already. The answer is its node.
fn lay_body(
    alloc: Global,
    body: &Declaration,
    names: &Names,
    ids: &[NodeId],
    makes: &mut Vec<Planned>,
) -> Result<Part, AllocError>
    requires one_each { length ids.now ≡ length names.now.declared }
    requires names { EveryNameOf (λ n. n < length ids.now) (body_view body.now) }
    requires few { places_of_body (body_view body.now) < 2 ^ 64 }
    requires few_binds { binds_of_body (body_view body.now) ≤ 64 }
    requires fits { (known : FnRef → Bool) × (ty : Ty) × BodyFits known names.now (body_view body.now) ty }
    ensures { IfOk result (λ root. IsLaidBody (node_at ids.now) (type_at names.entry.now)
        (body_view body.now) makes.old.items makes.new.items root) }
{
    match body {
        Declaration::Variable(value) => { add_node(Open::Var(value_of(alloc, value, ids)?), makes) }
        Declaration::Computed(formula) => lay(alloc, formula, names, ids, makes),
        Declaration::After(time) => add_node(Open::At(Nanoseconds::new(*time).time()), makes),
        Declaration::Every { base, span } => add_node(
            Open::Every {
                base: base.time(),
                span: span.count(),
            },
            makes,
        ),
        Declaration::Frozen { child, predicate } => {
            lay_freeze(alloc, child, *predicate, names, ids, makes)
        }
        Declaration::Expert { function, first } => add_node(
            Open::Expert(*function, value_of(alloc, first, ids)?),
            makes,
        ),
    }
}

/// Lays a freeze of a formula out behind what is to be made already. The answer is its node.
fn lay_freeze(
    alloc: Global,
    child: &Formula,
    predicate: FnRef,
    names: &Names,
    ids: &[NodeId],
    makes: &mut Vec<Planned>,
) -> Result<Part, AllocError>
    requires one_each { length ids.now ≡ length names.now.declared }
    requires names { EveryName (λ n. n < length ids.now) 0 (formula_view child.now) }
    requires few { places_in (formula_view child.now) < 2 ^ 64 }
    requires few_binds { binds_in (formula_view child.now) ≤ 64 }
    ensures { IfOk result (λ root. IsLaidBody (node_at ids.now) (type_at names.entry.now)
        (Freeze (formula_view child.now) predicate None) makes.old.items makes.new.items root) }
{
    let ty = formula_type(alloc, names, &[], child)?;
    let child = lay(alloc, child, names, ids, makes)?;
    add_node(
        Open::Freeze {
            ty,
            child,
            predicate,
        },
        makes,
    )
}

/// Adds a node behind what is to be made already. The answer is its place. (Like others that go with each level of a formula, it
/// isn't inlined, so that each level takes little stack.)
#[inline(never)]
fn add_node(node: Open, makes: &mut Vec<Planned>) -> Result<Part, AllocError>
    ensures root { IfOk result (λ root. root ≡ part.Made (length makes.old.items)) }
    ensures added { OnOk result (makes.new.items ≡ makes.old.items ++ planned.Node node ∷ []) }
{
    let root = Part::Made(makes.len());
    makes.push(Planned::Node(node))?;
    Ok(root)
}

/// Lays a formula out behind what is to be made already. The answer is its node.
#[cycle(lay)]
#[inline(never)]
fn lay(
    alloc: Global,
    formula: &Formula,
    names: &Names,
    ids: &[NodeId],
    makes: &mut Vec<Planned>,
) -> Result<Part, AllocError>
    requires one_each { length ids.now ≡ length names.now.declared }
    requires names { EveryName (λ n. n < length ids.now) 0 (formula_view formula.now) }
    requires few { places_in (formula_view formula.now) < 2 ^ 64 }
    requires few_binds { binds_in (formula_view formula.now) ≤ 64 }
    ensures { IfOk result (λ root. IsLaid (node_at ids.now) (type_at names.entry.now)
        (formula_view formula.now) makes.old.items makes.new.items root) }
{
    match formula {
        Formula::Literal(value) => { add_node(Open::Const(value_of(alloc, value, ids)?), makes) }
        Formula::Name(position) => Ok(Part::Given(ids[*position])),
        // No bind stands round the formula.
        Formula::Bound(_) => unreachable!(),
        Formula::Apply {
            function,
            arguments,
        } => lay_map(alloc, *function, arguments, names, ids, makes),
        Formula::Fold {
            function,
            first,
            elements,
        } => lay_fold(alloc, *function, first, elements, names, ids, makes),
        Formula::If { test, yes, no } => {
            let ty = formula_type(alloc, names, &[], yes)?;
            let test = lay(alloc, test, names, ids, makes)?;
            let yes = lay(alloc, yes, names, ids, makes)?;
            let no = lay(alloc, no, names, ids, makes)?;
            add_node(Open::If { ty, test, yes, no }, makes)
        }
        Formula::Join(child) => lay_join(alloc, child, names, ids, makes),
        Formula::Bind { left, body } => lay_bind(alloc, left, body, names, ids, makes),
        Formula::At(time) => add_node(Open::At(time.time()), makes),
        Formula::Steps { first, steps } => lay_steps(alloc, first, steps, ids, makes),
        Formula::Now => add_node(Open::Now, makes),
    }
}

/// Lays steps out behind what is to be made already. The answer is their node.
#[inline(never)]
fn lay_steps(
    alloc: Global,
    first: &Constant,
    steps: &[TimedConstant],
    ids: &[NodeId],
    makes: &mut Vec<Planned>,
) -> Result<Part, AllocError>
    requires first { EveryReference (λ n. n < length ids.now) (constant_view first.now) }
    requires steps { Every (λ (s : TimedValue). EveryReference (λ n. n < length ids.now) s.value) (map timed_view steps.now) }
    ensures root { IfOk result (λ root. root ≡ part.Made (length makes.old.items)) }
    ensures added { OnOk result (makes.new.items ≡ makes.old.items ++ planned.Node (open_node.Steps (graph_value (node_at ids.now) (constant_view first.now))
        (map (graph_step (node_at ids.now)) (map timed_view steps.now))) ∷ []) }
{
    let steps = steps_of(alloc, steps, ids)?;
    match value_of(alloc, first, ids) {
        Ok(first) => add_node(Open::Steps(first, steps), makes),
        Err(fault) => {
            drop(steps);
            Err(fault)
        }
    }
}

/// Lays a function of these formulas out behind what is to be made already. The answer is its node.
#[cycle(lay)]
#[inline(never)]
fn lay_map(
    alloc: Global,
    function: FnRef,
    arguments: &[Formula],
    names: &Names,
    ids: &[NodeId],
    makes: &mut Vec<Planned>,
) -> Result<Part, AllocError>
    requires one_each { length ids.now ≡ length names.now.declared }
    requires names { EveryNameOfAll (λ n. n < length ids.now) 0 (formulas_of (map formula_view arguments.now)) }
    requires few { places_in_all (formulas_of (map formula_view arguments.now)) < 2 ^ 64 }
    requires few_binds { binds_in_all (formulas_of (map formula_view arguments.now)) ≤ 64 }
    ensures { IfOk result (λ root. IsLaid (node_at ids.now) (type_at names.entry.now)
        (Apply function (formulas_of (map formula_view arguments.now))) makes.old.items makes.new.items root) }
{
    let arguments = Parts::new(lay_each(alloc, arguments, names, ids, makes)?);
    add_node(Open::Map(function, arguments), makes)
}

/// Lays a fold of these formulas out behind what is to be made already. The answer is its node.
#[cycle(lay)]
#[inline(never)]
fn lay_fold(
    alloc: Global,
    function: FnRef,
    first: &Constant,
    elements: &[Formula],
    names: &Names,
    ids: &[NodeId],
    makes: &mut Vec<Planned>,
) -> Result<Part, AllocError>
    requires one_each { length ids.now ≡ length names.now.declared }
    requires first { EveryReference (λ n. n < length ids.now) (constant_view first.now) }
    requires names { EveryNameOfAll (λ n. n < length ids.now) 0 (formulas_of (map formula_view elements.now)) }
    requires few { places_in_all (formulas_of (map formula_view elements.now)) < 2 ^ 64 }
    requires few_binds { binds_in_all (formulas_of (map formula_view elements.now)) ≤ 64 }
    ensures { IfOk result (λ root. IsLaid (node_at ids.now) (type_at names.entry.now)
        (Fold function (constant_view first.now) (formulas_of (map formula_view elements.now))) makes.old.items makes.new.items root) }
{
    let first = value_of(alloc, first, ids)?;
    let elements = Parts::new(lay_each(alloc, elements, names, ids, makes)?);
    add_node(Open::Fold(function, first, elements), makes)
}

/// Lays a join of this formula out behind what is to be made already. The answer is its node.
#[cycle(lay)]
#[inline(never)]
fn lay_join(
    alloc: Global,
    child: &Formula,
    names: &Names,
    ids: &[NodeId],
    makes: &mut Vec<Planned>,
) -> Result<Part, AllocError>
    requires one_each { length ids.now ≡ length names.now.declared }
    requires names { EveryName (λ n. n < length ids.now) 0 (formula_view child.now) }
    requires few { places_in (formula_view child.now) < 2 ^ 64 }
    requires few_binds { binds_in (formula_view child.now) ≤ 64 }
    ensures { IfOk result (λ root. IsLaid (node_at ids.now) (type_at names.entry.now)
        (Join (formula_view child.now)) makes.old.items makes.new.items root) }
{
    let ty = joined_type(formula_type(alloc, names, &[], child)?);
    let child = lay(alloc, child, names, ids, makes)?;
    add_node(Open::Join { ty, child }, makes)
}

/// Lays a bind of these formulas out behind what is to be made already: its left, its function, and its node. The answer is
/// its node.
#[cycle(lay)]
#[inline(never)]
fn lay_bind(
    alloc: Global,
    left: &Formula,
    body: &Formula,
    names: &Names,
    ids: &[NodeId],
    makes: &mut Vec<Planned>,
) -> Result<Part, AllocError>
    requires one_each { length ids.now ≡ length names.now.declared }
    requires names { EveryName (λ n. n < length ids.now) 0 (Bind (formula_view left.now) (formula_view body.now)) }
    requires few { places_in (Bind (formula_view left.now) (formula_view body.now)) < 2 ^ 64 }
    requires few_binds { binds_in (Bind (formula_view left.now) (formula_view body.now)) ≤ 64 }
    ensures { IfOk result (λ root. IsLaid (node_at ids.now) (type_at names.entry.now)
        (Bind (formula_view left.now) (formula_view body.now)) makes.old.items makes.new.items root) }
{
    let variable = formula_type(alloc, names, &[], left)?;
    let left = lay(alloc, left, names, ids, makes)?;
    let body = write_body(alloc, body, names, ids, &[variable], makes)?;
    let ty = body.sig().gives();
    let number = makes.len();
    makes.push(Planned::Body(body))?;
    add_node(
        Open::Bind {
            ty,
            left,
            body: number,
        },
        makes,
    )
}

/// Lays formulas out one after the other. The answer is their nodes.
#[cycle(lay)]
#[inline(never)]
fn lay_each(
    alloc: Global,
    formulas: &[Formula],
    names: &Names,
    ids: &[NodeId],
    makes: &mut Vec<Planned>,
) -> Result<Vec<Part>, AllocError>
    requires one_each { length ids.now ≡ length names.now.declared }
    requires names { EveryNameOfAll (λ n. n < length ids.now) 0 (formulas_of (map formula_view formulas.now)) }
    requires few { places_in_all (formulas_of (map formula_view formulas.now)) < 2 ^ 64 }
    requires few_binds { binds_in_all (formulas_of (map formula_view formulas.now)) ≤ 64 }
    ensures { IfOk result (λ roots. AreLaid (node_at ids.now) (type_at names.entry.now)
        (formulas_of (map formula_view formulas.now)) makes.old.items makes.new.items roots.items) }
{
    let mut nodes = Vec::new(alloc);
    for formula in formulas {
        nodes.push(lay(alloc, formula, names, ids, makes)?)?;
    }
    Ok(nodes)
}
