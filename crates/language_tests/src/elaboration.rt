//! Plans carried out.
ghost use Rattle.std.specs.Prelude.{◌≡◌, ◌≤◌, ◌↔◌, false, length, IfSome, IsSome, IsTrue};
ghost use Rattle.inc_value.specs.declared.function.FnKind.TheVariants.{Rhs};
ghost use Rattle.script_model.specs.Formula.{Bind};
ghost use Rattle.formula_lang.specs.CommandView.{formula_view};
ghost use Rattle.formula_elab.specs.Plan.{IsAnswer};
ghost use Rattle.language_tests.specs.Planning.{negation_of_two, sum_of_both, total_of_three};
ghost use Rattle.language_tests.specs.Planning.{negation_of_bound, sum_of_bounds, nested_bind};
ghost use Rattle.language_tests.specs.Planning.{one_name, IsPlannable, AwaitsNode, AwaitsFunction};

use formula_elab::{Made, Make, Plan, elaborate};
use formula_lang::{Constant, Declaration, Formula, Kind, Names};
use inc_terms::Def;
use inc_value::{FnId, FnKind, FnRef, NodeId, Sig, Ty, Value};
use script_functions::Body;
use std::alloc::Global;
use std_library::Function;

/// The node of this number.
fn node(number: u64) -> NodeId {
    NodeId {
        slot: 0,
        gen_: number,
    }
}

/// Whether the types are the same, one for one.
fn are_same(left: &[Ty], right: &[Ty]) -> bool
    ensures { IsTrue result ↔ (left.now ≡ right.now) }
{
    left == right
}

/// The negation of 2.
fn negation(alloc: Global) -> Option<Formula>
    ensures { IfSome result (λ f. formula_view f ≡ negation_of_two) }
{
    match vec![in alloc; Formula::Literal(Constant::Int(2))] {
        Ok(arguments) => Some(Formula::Apply {
            function: Function::Neg.reference(),
            arguments,
        }),
        Err(_) => None,
    }
}

/// The sum of the first declaration and the negation.
fn sum(alloc: Global, negation: Formula) -> Option<Formula>
    requires { formula_view negation ≡ negation_of_two }
    ensures { IfSome result (λ f. formula_view f ≡ sum_of_both) }
{
    match vec![in alloc; Formula::Name(0), negation] {
        Ok(arguments) => Some(Formula::Apply {
            function: Function::Add.reference(),
            arguments,
        }),
        Err(_) => None,
    }
}

/// The fold of `add` from 5 over the first declaration, the sum, and the first declaration again.
fn total(alloc: Global, sum: Formula) -> Option<Formula>
    requires { formula_view sum ≡ sum_of_both }
    ensures { IfSome result (λ f. formula_view f ≡ total_of_three) }
{
    match vec![in alloc; Formula::Name(0), sum, Formula::Name(0)] {
        Ok(elements) => Some(Formula::Fold {
            function: Function::Add.reference(),
            first: Constant::Int(5),
            elements,
        }),
        Err(_) => None,
    }
}

/// The total over the sum over the negation of 2.
fn formula(alloc: Global) -> Option<Formula>
    ensures { IfSome result (λ f. formula_view f ≡ total_of_three) }
{
    match negation(alloc) {
        Some(negation) => match sum(alloc, negation) {
            Some(sum) => total(alloc, sum),
            None => None,
        },
        None => None,
    }
}

/// Whether the first to be made is the constant 2.
#[tactic(auto, using(crate::proofs::Planning::awaits_node))]
fn begins_with_two(plan: &mut Plan) -> bool
    requires { plan.old.is_waiting ≡ false }
    ensures { IsTrue result → AwaitsNode plan.new }
{
    match plan.next(None) {
        Ok(Some(Make::Node(def, ty))) => {
            let is = matches!(&def, Def::Const(Value::Int(2))) && ty == Ty::Int;
            drop(def);
            is
        }
        _ => false,
    }
}

/// Whether it is the function of the nodes: a fold from a number, or a map where there is none.
fn is_made_by(def: &Def, f: &FnRef, number: Option<i64>, kids: &[NodeId]) -> bool {
    match def {
        Def::Map(map, nodes) => map == f && number == None && nodes.as_slice() == kids,
        Def::Fold(fold, Value::Int(first), nodes) => {
            fold == f && number == Some(*first) && nodes.as_slice() == kids
        }
        _ => false,
    }
}

/// Whether the next to be made is the function of the nodes, where the last was made as this node.
#[tactic(auto, using(crate::proofs::Planning::node_waits, crate::proofs::Planning::node_answers, crate::proofs::Planning::awaits_node))]
fn goes_on_with(
    plan: &mut Plan,
    made: NodeId,
    f: &FnRef,
    number: Option<i64>,
    kids: &[NodeId],
) -> bool
    requires { AwaitsNode plan.old }
    ensures { IsTrue result → AwaitsNode plan.new }
{
    match plan.next(Some(Made::Node(made))) {
        Ok(Some(Make::Node(def, ty))) => {
            let is = is_made_by(&def, f, number, kids) && ty == Ty::Int;
            drop(def);
            is
        }
        _ => false,
    }
}

/// Whether nothing is left to be made, where the last was made as this node, and it is the root.
#[tactic(auto, using(crate::proofs::Planning::node_waits, crate::proofs::Planning::node_answers))]
fn ends_with(plan: &mut Plan, made: NodeId) -> bool
    requires { AwaitsNode plan.old }
{
    match plan.next(Some(Made::Node(made))) {
        Ok(None) => plan.root() == made,
        Ok(Some(make)) => {
            drop(make);
            false
        }
        Err(_) => false,
    }
}

/// Whether the plan makes arguments and elements before what is made of them.
fn makes_total(plan: &mut Plan, add: &FnRef, neg: &FnRef) -> bool
    requires { plan.old.is_waiting ≡ false }
{
    begins_with_two(plan)
        && goes_on_with(plan, node(20), neg, None, &[node(20)])
        && goes_on_with(plan, node(21), add, None, &[node(7), node(21)])
        && goes_on_with(plan, node(22), add, Some(5), &[node(7), node(22), node(7)])
        && ends_with(plan, node(23))
}

/// One declared name, of an Int.
pub(crate) fn names(alloc: Global) -> Option<Names>
    ensures { IfSome result (λ names. names ≡ one_name) }
{
    let mut names = Names::new(alloc);
    match names.declare(b"a".as_slice(), Ty::Int, Kind::Var, 0) {
        Ok(()) => Some(names),
        Err(_) => None,
    }
}

/// The plan of the declaration of a formula over one node.
#[tactic(auto, using(crate::proofs::Planning::body_fits))]
fn planned(alloc: Global, formula: Formula) -> Option<Plan>
    requires { IsPlannable (formula_view formula) }
    ensures { IfSome result (λ plan. plan.is_waiting ≡ false) }
{
    let body = Declaration::Computed(formula);
    let plan = match names(alloc) {
        Some(names) => elaborate(alloc, &body, &names, &[node(7)]).ok(),
        None => None,
    };
    drop(body);
    plan
}

/// Whether the total is made so.
fn plans_total(alloc: Global) -> bool {
    let (add, neg) = (Function::Add.reference(), Function::Neg.reference());
    match formula(alloc) {
        Some(formula) => match planned(alloc, formula) {
            Some(mut plan) => {
                let well = makes_total(&mut plan, &add, &neg);
                drop(plan);
                well
            }
            None => false,
        },
        None => false,
    }
}

/// The negation of the variable of the innermost bind.
fn negation_of_variable(alloc: Global) -> Option<Formula>
    ensures { IfSome result (λ f. formula_view f ≡ negation_of_bound) }
{
    match vec![in alloc; Formula::Bound(0)] {
        Ok(arguments) => Some(Formula::Apply {
            function: Function::Neg.reference(),
            arguments,
        }),
        Err(_) => None,
    }
}

/// The sum of the variables of two binds.
fn sum_of_variables(alloc: Global) -> Option<Formula>
    ensures { IfSome result (λ f. formula_view f ≡ sum_of_bounds) }
{
    match vec![in alloc; Formula::Bound(1), Formula::Bound(0)] {
        Ok(arguments) => Some(Formula::Apply {
            function: Function::Add.reference(),
            arguments,
        }),
        Err(_) => None,
    }
}

/// The bind with this left and this body.
fn bind(alloc: Global, left: Formula, body: Formula) -> Option<Formula>
    ensures { IfSome result (λ f. formula_view f ≡ Bind (formula_view left) (formula_view body)) }
{
    match (Box::new(alloc, left), Box::new(alloc, body)) {
        (Ok(left), Ok(body)) => Some(Formula::Bind { left, body }),
        _ => None,
    }
}

/// The bind of the first declaration, in whose body a bind of the negation of its variable sums both variables.
fn bind_within_bind(alloc: Global) -> Option<Formula>
    ensures { IfSome result (λ f. formula_view f ≡ nested_bind) }
{
    match (negation_of_variable(alloc), sum_of_variables(alloc)) {
        (Some(negation), Some(sum)) => match bind(alloc, negation, sum) {
            Some(inner) => bind(alloc, Formula::Name(0), inner),
            None => None,
        },
        _ => None,
    }
}

/// A function of right sides of this number, of integers.
fn right_side(number: u64, takes: &[Ty]) -> FnRef
    requires some { 1 ≤ length takes.now }
    requires few { length takes.now ≤ 64 }
    ensures { result.id.kind ≡ Rhs }
{
    FnRef {
        id: FnId {
            kind: FnKind::Rhs,
            number,
        },
        sig: Sig::new(takes, Ty::Int),
    }
}

/// Whether the body is of these types, takes so many nodes at most and has so many lines.
fn is_body(body: &Body, sig: Sig, size: u64, lines: usize) -> bool
    ensures { IsTrue result → body.now.draft.sig ≡ sig }
{
    let found = body.draft().sig();
    are_same(found.takes(), sig.takes())
        && found.gives() == sig.gives()
        && body.size() == size
        && body.draft().lines().len() == lines
}

/// Whether the next to be made is a body of which this function may be made, that takes so many nodes at most and has so
/// many lines, where the last was made as told.
#[tactic(auto, using(crate::proofs::Planning::awaits_function))]
fn makes_body(
    plan: &mut Plan,
    made: Option<Made>,
    function: &FnRef,
    size: u64,
    lines: usize,
) -> bool
    requires answered { IsSome made ↔ IsTrue plan.old.is_waiting }
    requires kind { IfSome made (IsAnswer plan.old) }
    ensures { IsTrue result → AwaitsFunction plan.new function.now.sig }
{
    match plan.next(made) {
        Ok(Some(Make::Body(body))) => {
            let is = is_body(&body, function.sig, size, lines);
            drop(body);
            is
        }
        Ok(Some(make)) => {
            drop(make);
            false
        }
        _ => false,
    }
}

/// Whether it is the bind of the node by the function.
fn is_bind(def: &Def, made: &FnRef, kid: NodeId) -> bool {
    match def {
        Def::Bind {
            left,
            function,
            captures,
        } => *left == kid && function == made && captures.as_slice().is_empty(),
        _ => false,
    }
}

/// Whether the next to be made is the bind of the node by the function, where that was made last.
#[tactic(auto, using(crate::proofs::Planning::function_waits, crate::proofs::Planning::function_answers, crate::proofs::Planning::awaits_node))]
fn makes_bind(plan: &mut Plan, made: FnRef, kid: NodeId) -> bool
    requires kind { made.id.kind ≡ Rhs }
    requires awaited { AwaitsFunction plan.old made.sig }
    ensures { IsTrue result → AwaitsNode plan.new }
{
    match plan.next(Some(Made::Fn(made))) {
        Ok(Some(Make::Node(def, ty))) => {
            let is = is_bind(&def, &made, kid) && ty == Ty::Int;
            drop(def);
            is
        }
        Ok(Some(make)) => {
            drop(make);
            false
        }
        _ => false,
    }
}

/// Whether the inner body is made first, then the outer one, and then the bind.
#[tactic(auto, using(crate::proofs::Planning::function_waits, crate::proofs::Planning::function_answers))]
fn makes_both(plan: &mut Plan) -> bool
    requires { plan.old.is_waiting ≡ false }
{
    let inner = right_side(5, &[Ty::Int, Ty::Int]);
    let outer = right_side(6, &[Ty::Int]);
    makes_body(plan, None, &inner, 2, 1)
        && makes_body(plan, Some(Made::Fn(inner)), &outer, 5, 2)
        && makes_bind(plan, outer, node(7))
        && ends_with(plan, node(24))
}

/// Whether a bind within a bind is made so.
fn plans_binds(alloc: Global) -> bool {
    match bind_within_bind(alloc) {
        Some(formula) => match planned(alloc, formula) {
            Some(mut plan) => {
                let well = makes_both(&mut plan);
                drop(plan);
                well
            }
            None => false,
        },
        None => false,
    }
}

#[test]
fn makes_arguments_and_elements_first(rt: HostRuntime) {
    assert!(rt; plans_total(rt.alloc()));
}

#[test]
fn makes_inner_bodies_first(rt: HostRuntime) {
    assert!(rt; plans_binds(rt.alloc()));
}
