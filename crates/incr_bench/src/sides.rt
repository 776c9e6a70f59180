//! Right sides of binds.
ghost use Rattle.std.specs.Prelude.{◌≡◌, ◌≤◌, ◌↔◌, [], IfOk, IsTrue};
ghost use Rattle.inc_value.specs.Choice.{Every};
ghost use Rattle.script_functions.specs.Lines.{line_uses};
ghost use Rattle.incr_bench.specs.Sides.{CanCall};
ghost use Rattle.incr_bench.specs.Status.{of_line};

use crate::fault::Fault;
use inc_value::{FnRef, Sig, Ty};
use node_arena::{Functions, MoreFault};
use script_functions::{Body, Draft, Line, LineFault, Part, Parts, ScriptFns, TypedLine};
use std::alloc::Global;
use std_library::{Function, StdLib};

/// Why a line that isn't added stops a run.
fn of_line(fault: LineFault) -> Fault
    ensures { result ≡ of_line fault }
{
    match fault {
        LineFault::Memory => Fault::Memory,
        LineFault::Unknown | LineFault::WrongType | LineFault::TooLarge => Fault::Refused,
    }
}

/// Adds a line.
fn add(draft: &mut Draft, line: Line) -> Result<(), Fault>
    ensures { draft.new.listed ≡ draft.old.listed }
{
    match draft.add(line) {
        Ok(_) => Ok(()),
        Err(fault) => Err(of_line(fault)),
    }
}

/// Adds a line that applies a function to parts.
fn add_map(
    alloc: Global,
    draft: &mut Draft,
    function: Function,
    parts: &[Part],
) -> Result<(), Fault>
    ensures { draft.new.listed ≡ draft.old.listed }
{
    let parts = Parts::from_slice(alloc, parts)?;
    add(draft, Line::Map(function.reference(), parts))
}

/// Adds so many negations of the left number, and sums of them, pairwise.
fn add_tree(alloc: Global, draft: &mut Draft, leaves: usize) -> Result<(), Fault>
    requires { leaves ≤ 1000000 }
    ensures { draft.new.listed ≡ draft.old.listed }
{
    for _ in 0..leaves {
        add_map(alloc, draft, Function::Neg, &[Part::Line(0)])?;
    }
    for k in 1..leaves {
        let kids = [Part::Line(2 * k - 1), Part::Line(2 * k)];
        add_map(alloc, draft, Function::Add, &kids)?;
    }
    Ok(())
}

/// Adds a bind of a function on the captured number, which takes so many nodes at most.
fn add_bind(alloc: Global, draft: &mut Draft, function: FnRef, most: u64) -> Result<(), Fault>
    ensures { draft.new.listed ≡ draft.old.listed }
{
    let captures = Parts::from_slice(alloc, &[])?;
    let line = Line::Bind {
        left: Part::Captured(0),
        function,
        most,
        captures,
    };
    add(draft, line)
}

/// The right sides of lines, of which the one at a place is the root.
fn finished(draft: Draft, added: Result<(), Fault>, root: usize) -> Result<Body, Fault>
    ensures { IfOk result (λ body. body.draft ≡ draft) }
{
    match added {
        Ok(()) => match Body::new(draft, Part::Line(root)) {
            Ok(body) => Ok(body),
            Err(fault) => Err(of_line(fault)),
        },
        Err(fault) => {
            drop(draft);
            Err(fault)
        }
    }
}

/// Right sides of so many nodes beside the left number, one more where that is even: negations of it, summed pairwise.
fn tree(alloc: Global, size: usize) -> Result<Body, Fault>
    requires { size ≤ 1000000 }
    ensures { IfOk result (λ body. body.draft.listed ≡ []) }
{
    let leaves = size / 2 + 1;
    let mut draft = Draft::new(alloc, Sig::new(&[Ty::Int], Ty::Int), Vec::new(alloc));
    let added = add_tree(alloc, &mut draft, leaves);
    finished(draft, added, 2 * leaves - 1)
}

/// Right sides that bind a function, which takes so many nodes at most, on a captured number.
fn binding(alloc: Global, function: FnRef, most: u64) -> Result<Body, Fault>
    ensures { IfOk result (λ body. body.draft.listed ≡ []) }
{
    let sig = Sig::new(&[Ty::Int, Ty::Int], Ty::Int);
    let mut draft = Draft::new(alloc, sig, Vec::new(alloc));
    let added = add_bind(alloc, &mut draft, function, most);
    finished(draft, added, 1)
}

/// Whether the function is known, lists no nodes, and takes so many at most.
fn can_call(functions: &ScriptFns<StdLib>, function: &FnRef, most: u64) -> bool
    ensures { IsTrue result ↔ CanCall (⟦<ScriptFns<StdLib> as Functions>⟧.known functions.now)
        (⟦<ScriptFns<StdLib> as Functions>⟧.right functions.now) (record { function = function.now; most = most }) }
{
    if !functions.knows(*function) {
        return false;
    }
    match functions.body(*function) {
        Some(body) => body.size() <= most && body.draft().listed().is_empty(),
        None => true,
    }
}

/// Whether what the line calls can be called.
fn can_call_line(functions: &ScriptFns<StdLib>, line: &TypedLine) -> bool
    ensures { IsTrue result ↔ Every (CanCall (⟦<ScriptFns<StdLib> as Functions>⟧.known functions.now)
        (⟦<ScriptFns<StdLib> as Functions>⟧.right functions.now)) (line_uses line.now.line) }
{
    match &line.line {
        Line::Map(function, _) | Line::Fold(function, _, _) => can_call(functions, function, 0),
        Line::Bind { function, most, .. } => can_call(functions, function, *most),
        Line::Const(_)
        | Line::If { .. }
        | Line::Join(_)
        | Line::At(_)
        | Line::Steps(_, _)
        | Line::Now => true,
    }
}

/// Whether what the lines call can be called.
fn can_call_lines(functions: &ScriptFns<StdLib>, lines: &[TypedLine]) -> bool
    ensures { IsTrue result ↔ Every (λ x. Every (CanCall (⟦<ScriptFns<StdLib> as Functions>⟧.known functions.now)
        (⟦<ScriptFns<StdLib> as Functions>⟧.right functions.now)) (line_uses x.line)) lines.now }
{
    for line in lines {
        if !can_call_line(functions, line) {
            return false;
        }
    }
    true
}

/// Keeps right sides that list no nodes. They are refused where a function that their lines call isn't known, lists nodes, or
/// takes more of them than the line says.
fn keep(alloc: Global, functions: &mut ScriptFns<StdLib>, body: Body) -> Result<FnRef, Fault>
    requires sound { ⟦<ScriptFns<StdLib> as Functions>⟧.is_sound functions.old }
    requires lists_none { body.draft.listed ≡ [] }
    ensures sound { ⟦<ScriptFns<StdLib> as Functions>⟧.is_sound functions.new }
    ensures known { IfOk result (λ f. IsTrue (⟦<ScriptFns<StdLib> as Functions>⟧.known functions.new f)) }
    ensures lists_none { IfOk result (λ f. (⟦<ScriptFns<StdLib> as Functions>⟧.right functions.new f).ids ≡ []) }
{
    if !can_call_lines(functions, body.draft().lines()) {
        drop(body);
        return Err(Fault::Refused);
    }
    match functions.more(alloc, body) {
        Ok(function) => Ok(function),
        Err((fault, body)) => {
            drop(body);
            match fault {
                MoreFault::TooMany => Err(Fault::Refused),
                MoreFault::Memory => Err(Fault::Memory),
            }
        }
    }
}

/// Keeps the right sides of a shape, and gives the function that makes them: so many nodes beside the left number, or where
/// they are nested a bind on a captured number of such a function.
pub fn keep_sides(
    alloc: Global,
    functions: &mut ScriptFns<StdLib>,
    size: usize,
    nested: bool,
) -> Result<FnRef, Fault>
    requires sound { ⟦<ScriptFns<StdLib> as Functions>⟧.is_sound functions.old }
    requires small { size ≤ 1000000 }
    ensures sound { ⟦<ScriptFns<StdLib> as Functions>⟧.is_sound functions.new }
    ensures known { IfOk result (λ f. IsTrue (⟦<ScriptFns<StdLib> as Functions>⟧.known functions.new f)) }
    ensures lists_none { IfOk result (λ f. (⟦<ScriptFns<StdLib> as Functions>⟧.right functions.new f).ids ≡ []) }
{
    let body = tree(alloc, size)?;
    let most = body.size();
    let inner = keep(alloc, functions, body)?;
    if !nested {
        return Ok(inner);
    }
    let outer = binding(alloc, inner, most)?;
    keep(alloc, functions, outer)
}
