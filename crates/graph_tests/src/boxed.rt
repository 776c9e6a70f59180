//! A bind whose right sides a boxed function builds, over any keeper of functions.
ghost use Rattle.std.specs.Prelude.{◌≡◌, [], IfSome, IsTrue};
ghost use Rattle.inc_value.specs.declared.function.FnKind.TheVariants.{Map};
ghost use Rattle.node_arena.specs.Meanings.{KeepsKnown};

use closure_examples::{Neg, NegOfLeft, Sum, Table};
use closures::Closures;
use graph::Graph;
use inc_value::{Base, FnRef, NodeId, ObsId, Outcome, Value};
use node_arena::{Functions, MapFn, RhsFn};
use std::alloc::Global;
use std::test::Fail;

/// The left variable, and the observer of the bind.
#[derive(Clone, Copy)]
struct Bound {
    left: NodeId,
    observer: ObsId,
}

/// A bind of the table over a left variable and captures: 7, true and a reference to the 7. It is observed.
fn make_bound<F: Functions>(graph: &mut Graph<F>, table: FnRef) -> Option<Bound>
    requires known { IsTrue (F.known graph.old.functions table) }
    requires none_listed { (F.right graph.old.functions table).ids ≡ [] }
{
    let left = graph.var(Value::Int(1)).ok()?;
    let x = graph.var(Value::Int(7)).ok()?;
    let c = graph.var(Value::Bool(true)).ok()?;
    let h = graph.var(Value::Node(x, Base::Int)).ok()?;
    let bind = graph.bind(left, table, &[x, c, h]).ok()?;
    let observer = graph.observe(bind).ok()?;
    Some(Bound { left, observer })
}

/// What the bind shows where the left variable holds the number.
fn shown_at<F: Functions>(graph: &mut Graph<F>, bound: Bound, number: i64) -> Option<i64> {
    graph.set_var(bound.left, Value::Int(number)).ok()?;
    graph.stabilize().ok()?;
    match graph.value(bound.observer) {
        Ok(Outcome::Val(Value::Int(number))) => Some(*number),
        _ => None,
    }
}

/// What the table lists for its left numbers, and by the clock.
const AT_FIRST: [(i64, i64); 9] = [
    (1, 5),
    (2, -7),
    (3, 14),
    (4, 7),
    (5, 7),
    (6, -7),
    (7, 0),
    (8, 1),
    (9, 0),
];

const FROM_FIVE_SECONDS: [(i64, i64); 3] = [(9, 1), (7, 5_000_000_000), (8, 2)];

/// Whether the bind shows the second number of each pair where its left variable holds the first.
fn shows_each<F: Functions>(graph: &mut Graph<F>, bound: Bound, wanted: &[(i64, i64)]) -> bool {
    for (left, number) in wanted {
        if shown_at(graph, bound, *left) != Some(*number) {
            return false;
        }
    }
    true
}

/// Whether the bind shows what the table lists, at first and once the clock has come to five seconds.
fn shows_all<F: Functions>(graph: &mut Graph<F>, table: FnRef) -> bool
    requires known { IsTrue (F.known graph.old.functions table) }
    requires none_listed { (F.right graph.old.functions table).ids ≡ [] }
{
    let Some(bound) = make_bound(graph, table) else {
        return false;
    };
    if !shows_each(graph, bound, &AT_FIRST) {
        return false;
    }
    match graph.advance(5_000_000_000) {
        Ok(()) => shows_each(graph, bound, &FROM_FIVE_SECONDS),
        Err(_) => false,
    }
}

/// Whether a bind of the table over these functions shows what the table lists.
fn shows_table<F: Functions>(alloc: Global, functions: F, table: FnRef) -> bool
    requires sound { F.is_sound functions }
    requires known { IsTrue (F.known functions table) }
    requires none_listed { (F.right functions table).ids ≡ [] }
{
    let mut graph = Graph::new(alloc, functions);
    let well = shows_all(&mut graph, table);
    drop(graph.into_functions());
    well
}

/// The root of the right side that a bind has.
fn root<F: Functions>(graph: &Graph<F>, bind: NodeId) -> Option<NodeId> {
    graph.right_side(bind).ok()?
}

/// Whether a bind of negations of its left value shows that of 1, has the same right side where its left is set to 1 again,
/// and another one, whose root lives beside no older one, where it is set to 2.
fn is_built_anew<F: Functions>(graph: &mut Graph<F>, bind: NodeId, bound: Bound) -> bool {
    if shown_at(graph, bound, 1) != Some(-1) {
        return false;
    }
    let Some(first) = root(graph, bind) else {
        return false;
    };
    if shown_at(graph, bound, 1) != Some(-1) || root(graph, bind) != Some(first) {
        return false;
    }
    if shown_at(graph, bound, 2) != Some(-2) || root(graph, bind) == Some(first) {
        return false;
    }
    matches!(graph.is_live(first), Ok(false))
}

/// Whether a bind of the negation over a left variable is built as the left changes.
fn follows<F: Functions>(graph: &mut Graph<F>, negation: FnRef) -> bool
    requires known { IsTrue (F.known graph.old.functions negation) }
    requires none_listed { (F.right graph.old.functions negation).ids ≡ [] }
{
    let Ok(left) = graph.var(Value::Int(1)) else {
        return false;
    };
    let Ok(bind) = graph.bind(left, negation, &[]) else {
        return false;
    };
    let Ok(observer) = graph.observe(bind) else {
        return false;
    };
    is_built_anew(graph, bind, Bound { left, observer })
}

/// Whether a bind of the negation over these functions is built as its left changes.
fn negation_follows<F: Functions>(alloc: Global, functions: F, negation: FnRef) -> bool
    requires sound { F.is_sound functions }
    requires known { IsTrue (F.known functions negation) }
    requires none_listed { (F.right functions negation).ids ≡ [] }
{
    let mut graph = Graph::new(alloc, functions);
    let well = follows(&mut graph, negation);
    drop(graph.into_functions());
    well
}

/// Keeps the function, if it has the types of a map.
pub(crate) fn keep_map(functions: &mut Closures, function: Box<dyn MapFn>) -> Option<FnRef>
    requires { ⟦<Closures as Functions>⟧.is_sound functions.old }
    ensures sound { ⟦<Closures as Functions>⟧.is_sound functions.new }
    ensures known { IfSome result (λ f. IsTrue (⟦<Closures as Functions>⟧.known functions.new f)) }
    ensures kind { IfSome result (λ f. f.id.kind ≡ Map) }
    ensures keeps_known { KeepsKnown (⟦<Closures as Functions>⟧.known functions.old)
        (⟦<Closures as Functions>⟧.known functions.new) }
{
    if !function.sig().is_map() {
        return None;
    }
    functions.add_map(function).ok()
}

#[test]
fn a_boxed_table_is_shown(rt: HostRuntime) -> Result<(), Fail> {
    let alloc = rt.alloc();
    let mut functions = Closures::new(alloc);
    let boxed: Box<dyn MapFn> = Box::new(alloc, Neg {})?;
    let neg = match keep_map(&mut functions, boxed) {
        Some(f) => f,
        None => return Err(Fail::new("no negation is kept")),
    };
    let boxed: Box<dyn MapFn> = Box::new(alloc, Sum {})?;
    let add = match keep_map(&mut functions, boxed) {
        Some(f) => f,
        None => return Err(Fail::new("no sum is kept")),
    };
    let Some(of_left) = NegOfLeft::new(&neg) else {
        return Err(Fail::new("the negation has other types"));
    };
    let boxed: Box<dyn RhsFn> = Box::new(alloc, of_left)?;
    let of_left = match functions.add_rhs(boxed) {
        Ok(f) => f,
        Err(_) => return Err(Fail::new("no negation of the left is kept")),
    };
    let Some(table) = Table::new(&neg, &add, &of_left) else {
        return Err(Fail::new("the functions have other types"));
    };
    let boxed: Box<dyn RhsFn> = Box::new(alloc, table)?;
    let table = match functions.add_rhs(boxed) {
        Ok(f) => f,
        Err(_) => return Err(Fail::new("no table is kept")),
    };
    let shown = shows_table(alloc, functions, table);
    assert!(rt; shown);
    Ok(())
}

#[test]
fn a_boxed_negation_is_built_anew(rt: HostRuntime) -> Result<(), Fail> {
    let alloc = rt.alloc();
    let mut functions = Closures::new(alloc);
    let boxed: Box<dyn MapFn> = Box::new(alloc, Neg {})?;
    let neg = match keep_map(&mut functions, boxed) {
        Some(f) => f,
        None => return Err(Fail::new("no negation is kept")),
    };
    let Some(of_left) = NegOfLeft::new(&neg) else {
        return Err(Fail::new("the negation has other types"));
    };
    let boxed: Box<dyn RhsFn> = Box::new(alloc, of_left)?;
    let of_left = match functions.add_rhs(boxed) {
        Ok(f) => f,
        Err(_) => return Err(Fail::new("no negation of the left is kept")),
    };
    let follows = negation_follows(alloc, functions, of_left);
    assert!(rt; follows);
    Ok(())
}
