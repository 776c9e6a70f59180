//! Writing the bodies of binds as lines.
ghost use Rattle.std.specs.Prelude.{◌≡◌, ◌<◌, ◌≤◌, ◌+◌, ◌^◌, length, map, IfOk, OnOk};
ghost use Rattle.script_functions.specs.declared.line.Line.TheVariants as line;
ghost use Rattle.script_functions.specs.declared.line.Part.TheVariants as part;
ghost use Rattle.formula_lang.specs.CommandView.{constant_view, formula_view, formulas_of, timed_view};
ghost use Rattle.inc_value.specs.Choice.{Every};
ghost use Rattle.script_model.specs.Formula.{Apply, Fold, Join, TimedValue, binds_in, binds_in_all, places_in, places_in_all};
ghost use Rattle.script_model.specs.Leaves.{EveryReference};
ghost use Rattle.transfer.specs.Both.{graph_value};
ghost use Rattle.transfer.specs.Shows.{graph_step};
ghost use Rattle.formula_elab.specs.Bodies.{size_of};
ghost use Rattle.formula_elab.specs.Names.{EveryName, EveryNameOfAll};
ghost use Rattle.formula_elab.specs.Opened.{node_at};
ghost use Rattle.formula_elab.specs.Types.{type_at};
ghost use Rattle.formula_elab.specs.Writing.{variable, variables, with_each_named, with_line, with_named, AreWritten, IsBindAdded, IsWritten, IsWrittenBody};
ghost use Rattle.formula_elab.specs.declared.body.OpenLine.TheVariants as open_line;

use crate::body::{OpenBody, OpenLine, Page};
use crate::plan::Planned;
use crate::types::{formula_type, within};
use crate::value::{steps_of, value_of};
use formula_lang::{Constant, Formula, Names, TimedConstant};
use inc_value::{FnRef, NodeId, Sig, Ty};
use script_functions::{Line, Part, Parts};
use std::alloc::{AllocError, Global};

/// Writes the body of a bind, where the variables of the binds round it have these types, its own first. The functions of
/// the binds in it are laid out behind what is to be made already.
#[cycle(write)]
#[inline(never)]
pub(crate) fn write_body(
    alloc: Global,
    formula: &Formula,
    names: &Names,
    ids: &[NodeId],
    tys: &[Ty],
    makes: &mut Vec<Planned>,
) -> Result<OpenBody, AllocError>
    requires some { 1 ≤ length tys.now }
    requires few_binds { length tys.now + binds_in (formula_view formula.now) ≤ 64 }
    requires one_each { length ids.now ≡ length names.now.declared }
    requires names { EveryName (λ n. n < length ids.now) (length tys.now) (formula_view formula.now) }
    requires few { 1 + places_in (formula_view formula.now) < 2 ^ 64 }
    ensures { IfOk result (λ body. IsWrittenBody (node_at ids.now) (type_at names.entry.now) tys.now
        (formula_view formula.now) makes.old.items makes.new.items body) }
{
    let sig = Sig::new(tys, formula_type(alloc, names, tys, formula)?);
    let mut page = Page::new(alloc);
    match write(alloc, formula, names, ids, tys, &mut page, makes) {
        Ok(root) => Ok(page.finish(sig, root)),
        Err(fault) => {
            drop(page);
            Err(fault)
        }
    }
}

/// Writes a formula. The answer is the part that reads it.
#[cycle(write)]
#[inline(never)]
fn write(
    alloc: Global,
    formula: &Formula,
    names: &Names,
    ids: &[NodeId],
    tys: &[Ty],
    page: &mut Page,
    makes: &mut Vec<Planned>,
) -> Result<Part, AllocError>
    requires one_each { length ids.now ≡ length names.now.declared }
    requires names { EveryName (λ n. n < length ids.now) (length tys.now) (formula_view formula.now) }
    requires few_binds { length tys.now + binds_in (formula_view formula.now) ≤ 64 }
    requires few { size_of page.old + places_in (formula_view formula.now) < 2 ^ 64 }
    ensures { IfOk result (λ part. IsWritten (node_at ids.now) (type_at names.entry.now) tys.now
        (formula_view formula.now) makes.old.items makes.new.items page.old page.new part) }
{
    match formula {
        Formula::Literal(value) => write_literal(alloc, value, ids, page),
        Formula::Name(position) => page.list(ids[*position], names.get(*position).ty),
        Formula::Bound(binds_between) => Ok(variable(*binds_between)),
        Formula::Apply {
            function,
            arguments,
        } => write_map(alloc, *function, arguments, names, ids, tys, page, makes),
        Formula::Fold {
            function,
            first,
            elements,
        } => write_fold(
            alloc, *function, first, elements, names, ids, tys, page, makes,
        ),
        Formula::If { test, yes, no } => {
            let test = write(alloc, test, names, ids, tys, page, makes)?;
            let yes = write(alloc, yes, names, ids, tys, page, makes)?;
            let no = write(alloc, no, names, ids, tys, page, makes)?;
            page.add(OpenLine::Ready(Line::If { test, yes, no }))
        }
        Formula::Join(child) => write_join(alloc, child, names, ids, tys, page, makes),
        Formula::Bind { left, body } => {
            let inner = within(alloc, formula_type(alloc, names, tys, left)?, tys)?;
            let left = write(alloc, left, names, ids, tys, page, makes)?;
            let body = write_body(alloc, body, names, ids, &inner, makes)?;
            drop(inner);
            add_bind(alloc, left, body, tys.len(), page, makes)
        }
        Formula::At(time) => page.add(OpenLine::Ready(Line::At(time.time()))),
        Formula::Steps { first, steps } => write_steps(alloc, first, steps, ids, page),
        Formula::Now => page.add(OpenLine::Ready(Line::Now)),
    }
}

/// Writes a literal. The node that it names is listed.
#[inline(never)]
fn write_literal(
    alloc: Global,
    constant: &Constant,
    ids: &[NodeId],
    page: &mut Page,
) -> Result<Part, AllocError>
    requires names { EveryReference (λ n. n < length ids.now) (constant_view constant.now) }
    requires few { size_of page.old + 1 < 2 ^ 64 }
    ensures part { IfOk result (λ p. p
        ≡ part.Line (length (with_named (node_at ids.now) page.old (constant_view constant.now)).lines + 1)) }
    ensures page { OnOk result (page.new ≡ with_line (with_named (node_at ids.now) page.old (constant_view constant.now))
        (open_line.Ready (line.Const (graph_value (node_at ids.now) (constant_view constant.now))))) }
{
    list_named(constant, ids, page)?;
    let value = value_of(alloc, constant, ids)?;
    page.add(OpenLine::Ready(Line::Const(value)))
}

/// Writes steps. The nodes that their values name are listed.
#[inline(never)]
fn write_steps(
    alloc: Global,
    first: &Constant,
    steps: &[TimedConstant],
    ids: &[NodeId],
    page: &mut Page,
) -> Result<Part, AllocError>
    requires first { EveryReference (λ n. n < length ids.now) (constant_view first.now) }
    requires steps { Every (λ (s : TimedValue). EveryReference (λ n. n < length ids.now) s.value) (map timed_view steps.now) }
    requires few { size_of page.old + 1 < 2 ^ 64 }
    ensures part { IfOk result (λ p. p ≡ part.Line (length
        (with_each_named (node_at ids.now) (with_named (node_at ids.now) page.old (constant_view first.now)) (map timed_view steps.now)).lines + 1)) }
    ensures page { OnOk result (page.new ≡ with_line
        (with_each_named (node_at ids.now) (with_named (node_at ids.now) page.old (constant_view first.now)) (map timed_view steps.now))
        (open_line.Ready (line.Steps (graph_value (node_at ids.now) (constant_view first.now))
        (map (graph_step (node_at ids.now)) (map timed_view steps.now))))) }
    ensures size { OnOk result (size_of page.new ≡ size_of page.old + 1) }
{
    list_named(first, ids, page)?;
    list_each_named(steps, ids, page)?;
    let steps = steps_of(alloc, steps, ids)?;
    match value_of(alloc, first, ids) {
        Ok(first) => page.add(OpenLine::Ready(Line::Steps(first, steps))),
        Err(fault) => {
            drop(steps);
            Err(fault)
        }
    }
}

/// Lists the nodes that the values of steps name.
fn list_each_named(
    steps: &[TimedConstant],
    ids: &[NodeId],
    page: &mut Page,
) -> Result<(), AllocError>
    requires names { Every (λ (s : TimedValue). EveryReference (λ n. n < length ids.now) s.value) (map timed_view steps.now) }
    ensures listed { OnOk result (page.new ≡ with_each_named (node_at ids.now) page.old (map timed_view steps.now)) }
    ensures size { OnOk result (size_of page.new ≡ size_of page.old) }
{
    for step in steps {
        list_named(&step.value, ids, page)?;
    }
    Ok(())
}

/// Lists the node that a constant names, if it names one.
fn list_named(constant: &Constant, ids: &[NodeId], page: &mut Page) -> Result<(), AllocError>
    requires names { EveryReference (λ n. n < length ids.now) (constant_view constant.now) }
    ensures listed { OnOk result (page.new ≡ with_named (node_at ids.now) page.old (constant_view constant.now)) }
    ensures size { OnOk result (size_of page.new ≡ size_of page.old) }
{
    match constant {
        Constant::Reference { target, base } => {
            page.list(ids[*target], base.ty())?;
            Ok(())
        }
        Constant::Int(_) | Constant::Bool(_) | Constant::Text(_) => Ok(()),
    }
}

/// Writes a function of these formulas.
#[cycle(write)]
#[inline(never)]
fn write_map(
    alloc: Global,
    function: FnRef,
    arguments: &[Formula],
    names: &Names,
    ids: &[NodeId],
    tys: &[Ty],
    page: &mut Page,
    makes: &mut Vec<Planned>,
) -> Result<Part, AllocError>
    requires one_each { length ids.now ≡ length names.now.declared }
    requires names { EveryName (λ n. n < length ids.now) (length tys.now) (Apply function (formulas_of (map formula_view arguments.now))) }
    requires few_binds { length tys.now + binds_in (Apply function (formulas_of (map formula_view arguments.now))) ≤ 64 }
    requires few { size_of page.old + places_in (Apply function (formulas_of (map formula_view arguments.now))) < 2 ^ 64 }
    ensures { IfOk result (λ part. IsWritten (node_at ids.now) (type_at names.entry.now) tys.now
        (Apply function (formulas_of (map formula_view arguments.now))) makes.old.items makes.new.items page.old page.new part) }
{
    let arguments = write_each(alloc, arguments, names, ids, tys, page, makes)?;
    page.add(OpenLine::Ready(Line::Map(function, arguments)))
}

/// Writes a fold of these formulas. The node that its first value names is listed.
#[cycle(write)]
#[inline(never)]
fn write_fold(
    alloc: Global,
    function: FnRef,
    first: &Constant,
    elements: &[Formula],
    names: &Names,
    ids: &[NodeId],
    tys: &[Ty],
    page: &mut Page,
    makes: &mut Vec<Planned>,
) -> Result<Part, AllocError>
    requires one_each { length ids.now ≡ length names.now.declared }
    requires names { EveryName (λ n. n < length ids.now) (length tys.now) (Fold function (constant_view first.now) (formulas_of (map formula_view elements.now))) }
    requires few_binds { length tys.now + binds_in (Fold function (constant_view first.now) (formulas_of (map formula_view elements.now))) ≤ 64 }
    requires few { size_of page.old + places_in (Fold function (constant_view first.now) (formulas_of (map formula_view elements.now))) < 2 ^ 64 }
    ensures { IfOk result (λ part. IsWritten (node_at ids.now) (type_at names.entry.now) tys.now
        (Fold function (constant_view first.now) (formulas_of (map formula_view elements.now))) makes.old.items makes.new.items page.old page.new part) }
{
    list_named(first, ids, page)?;
    let first = value_of(alloc, first, ids)?;
    let elements = write_each(alloc, elements, names, ids, tys, page, makes)?;
    page.add(OpenLine::Ready(Line::Fold(function, first, elements)))
}

/// Writes a join of this formula.
#[cycle(write)]
#[inline(never)]
fn write_join(
    alloc: Global,
    child: &Formula,
    names: &Names,
    ids: &[NodeId],
    tys: &[Ty],
    page: &mut Page,
    makes: &mut Vec<Planned>,
) -> Result<Part, AllocError>
    requires one_each { length ids.now ≡ length names.now.declared }
    requires names { EveryName (λ n. n < length ids.now) (length tys.now) (Join (formula_view child.now)) }
    requires few_binds { length tys.now + binds_in (Join (formula_view child.now)) ≤ 64 }
    requires few { size_of page.old + places_in (Join (formula_view child.now)) < 2 ^ 64 }
    ensures { IfOk result (λ part. IsWritten (node_at ids.now) (type_at names.entry.now) tys.now
        (Join (formula_view child.now)) makes.old.items makes.new.items page.old page.new part) }
{
    let child = write(alloc, child, names, ids, tys, page, makes)?;
    page.add(OpenLine::Ready(Line::Join(child)))
}

/// Adds the line of a bind of the part, which captures so many variables. Its function, of the body, is laid out behind what
/// is to be made already.
#[inline(never)]
fn add_bind(
    alloc: Global,
    left: Part,
    body: OpenBody,
    count: usize,
    page: &mut Page,
    makes: &mut Vec<Planned>,
) -> Result<Part, AllocError>
    requires few { size_of page.old + (size_of body.page + 1) < 2 ^ 64 }
    ensures { IfOk result (λ part. IsBindAdded left body count makes.old.items makes.new.items page.old page.new part) }
{
    page.list_those_of(&body)?;
    let most = body.size();
    let number = makes.len();
    makes.push(Planned::Body(body))?;
    let captures = variables(alloc, count)?;
    page.add(OpenLine::Bind {
        left,
        body: number,
        most,
        captures,
    })
}

/// Writes formulas one after the other.
#[cycle(write)]
#[inline(never)]
fn write_each(
    alloc: Global,
    formulas: &[Formula],
    names: &Names,
    ids: &[NodeId],
    tys: &[Ty],
    page: &mut Page,
    makes: &mut Vec<Planned>,
) -> Result<Parts, AllocError>
    requires one_each { length ids.now ≡ length names.now.declared }
    requires names { EveryNameOfAll (λ n. n < length ids.now) (length tys.now) (formulas_of (map formula_view formulas.now)) }
    requires few_binds { length tys.now + binds_in_all (formulas_of (map formula_view formulas.now)) ≤ 64 }
    requires few { size_of page.old + places_in_all (formulas_of (map formula_view formulas.now)) < 2 ^ 64 }
    ensures { IfOk result (λ parts. AreWritten (node_at ids.now) (type_at names.entry.now) tys.now
        (formulas_of (map formula_view formulas.now)) makes.old.items makes.new.items page.old page.new parts) }
{
    let mut parts = Vec::new(alloc);
    for formula in formulas {
        parts.push(write(alloc, formula, names, ids, tys, page, makes)?)?;
    }
    Parts::from_slice(alloc, &parts)
}

/// The part that reads the variable of a bind, by how many binds stand between: the left value, or a capture.
fn variable(binds_between: usize) -> Part
    ensures { result ≡ variable binds_between }
{
    if binds_between == 0 {
        return Part::Line(0);
    }
    Part::Captured(binds_between - 1)
}

/// The parts that read all variables, of which there are so many, the innermost first.
fn variables(alloc: Global, count: usize) -> Result<Parts, AllocError>
    ensures { IfOk result (λ parts. parts ≡ variables count) }
{
    let mut parts = Vec::new(alloc);
    for binds_between in 0..count {
        parts.push(variable(binds_between))?;
    }
    Parts::from_slice(alloc, &parts)
}
