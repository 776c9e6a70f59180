//! What commands come to by their names, functions and types.
ghost use Rattle.std.specs.Prelude.{◌≡◌, ◌+◌, ℕ, false, true, IfOk, IsErrOf, None, Some, option_map, unwrap_or};
ghost use Rattle.script_model.specs.Check.{Declare, Names as AllNames, Reason as AReason, command_of, first_that, is_against, is_top_form, line_order, reason_number};
ghost use Rattle.script_model.specs.Formula.{Meanings, meanings_of};
ghost use Rattle.script_model.specs.Grammar.{Var, Set, Let, Freeze, Expert, Link, Unlink, Stale, Grab, Observe, Show, Unobserve, Watch};
ghost use Rattle.formula_lang.specs.CommandView.{body_view, command_view};
ghost use Rattle.formula_lang.specs.Fits.{FitsNames};
ghost use Rattle.formula_lang.specs.Verdict.{reason_view};
ghost use Rattle.formula_lang.specs.declared.refusal.Reason.{Reason};
ghost use Rattle.line_parser.specs.TreeView.{line_view, tree_view};
ghost use Rattle.line_parser.specs.View.{literal_view, time_view};

use crate::command::{Command, Declaration};
use crate::mentioning::mentions_unknown;
use crate::names::{Kind, Names};
use crate::refusal::{Reason, first_reason};
use crate::typing::{declared_as, element_of, is_same_type, literal_of_type, typed};
use inc_value::Ty;
use line_parser::{Line, Literal, Name, Time, Tree};
use line_times::nanoseconds_of;
use node_arena::Library;
use std::alloc::{AllocError, Global};
use thiserror::Error;

/// Why a command is not carried out.
#[derive(Clone, Copy, Debug, PartialEq, Eq, Error)]
pub enum CheckFault {
    /// It is refused, with the number that is printed: 3 for a name that is taken, 4 for one that
    /// is unknown, 5 for an unknown function, 6 for types that don't fit, 7 for a `set` of what is
    /// no variable, 8 for a `grab` of what is no bind, 10 for a `link`, an `unlink` or a `stale` of
    /// what is no expert, 11 for an unknown observer, 12 for one that is in use, 14 for a `freeze`,
    /// an `after` or an `every` within a formula, 15 for a time that is past,
    /// 16 for one beyond the greatest, 17 for steps whose times don't rise, and 18 for an empty span.
    #[error("refused {0}")]
    Refusal(u8),
    /// There is no memory for the checked command.
    #[error("out of memory")]
    Memory,
}

impl From<AllocError> for CheckFault {
    ghost use Rattle.std.specs.Prelude.{◌≡◌};
    ghost use Rattle.formula_lang.specs.declared.checking.CheckFault.TheVariants.{Memory};

    ghost from_gives = { λ _ e. e ≡ Memory };

    fn from(_error: AllocError) -> CheckFault {
        CheckFault::Memory
    }
}

/// The command with a position for each name and a reference for each function, or the first
/// reason in the order of refusals that stands against the line. Each is looked at over the whole
/// line before the next. Names, functions and types of what comes back fit together.
///
/// `Memory` may come at any point.
pub fn check<L: Library>(
    alloc: Global,
    line: &Line,
    names: &Names,
    library: &L,
) -> Result<Command, CheckFault>
    ensures allowed { IfOk result (λ c. let F = meanings_of (L.named library.now) (L.value library.now) in
        (first_that (is_against F names.entry.now (line_view line.now)) line_order ≡ None)
        × (command_of F names.entry.now (line_view line.now) ≡ Some (command_view c))) }
    ensures refused { (n : ℕ) → IsErrOf result (CheckFault.Refusal n) → (why : AReason)
        × (first_that (is_against (meanings_of (L.named library.now) (L.value library.now)) names.entry.now (line_view line.now))
        line_order ≡ Some why) × (reason_number why ≡ n) }
    ensures fits { IfOk result (λ c. FitsNames (L.known library.now) names.entry.now (command_view c)) }
{
    names.keeps_order();
    let is_unknown = mentions_unknown(alloc, line, names)?;
    let command = command_of(alloc, line, names, library)?;
    let against = first_reason(line, names, library, is_unknown, command.is_none());
    decided(command, against)
}

/// The command that the line comes to, unless a reason stands against it.
fn decided(command: Option<Command>, against: Option<Reason>) -> Result<Command, CheckFault>
    requires { against ≡ None → command ≡ None → ⊥ }
    ensures allowed { IfOk result (λ c. (command ≡ Some c) × (against ≡ None)) }
    ensures refused { (n : ℕ) → IsErrOf result (CheckFault.Refusal n)
        → (why : Reason) × (against ≡ Some why) × (reason_number (reason_view why) ≡ n) }
{
    match against {
        Some(reason) => {
            drop(command);
            Err(CheckFault::Refusal(reason.number()))
        }
        None => match command {
            Some(command) => Ok(command),
            None => unreachable!(),
        },
    }
}

/// What a line comes to, where its names, functions and types fit.
fn command_of<L: Library>(
    alloc: Global,
    line: &Line,
    names: &Names,
    library: &L,
) -> Result<Option<Command>, AllocError>
    ensures { IfOk result (λ c. option_map command_view c
        ≡ command_of (meanings_of (L.named library.now) (L.value library.now)) names.entry.now (line_view line.now)) }
{
    match line {
        Line::Var { name, ty, first } => variable(alloc, names, name, *ty, first),
        Line::Set { name, value } => assignment(alloc, names, name, value),
        Line::Let { name, formula } => definition(alloc, names, library, name, formula),
        Line::Grab { name, bind } => grab(alloc, names, name, bind),
        Line::Observe { observer, name } => observation(alloc, names, observer, name),
        Line::Unobserve { observer } => ending(alloc, observer),
        Line::Watch { observer } => watching(alloc, observer),
        Line::Expert {
            name,
            function,
            first,
        } => expert(alloc, names, library, name, function, first),
        Line::Link { expert, name } => Ok(linking(names, expert, name)),
        Line::Unlink { expert, name } => Ok(unlinking(names, expert, name)),
        Line::Stale { expert } => Ok(renewal(names, expert)),
        Line::Advance { span } => Ok(Some(Command::Advance {
            time: after(names, *span),
        })),
        Line::AdvanceTo { time } => Ok(Some(Command::Advance {
            time: nanoseconds_of(*time).count(),
        })),
        Line::Stabilize => Ok(Some(Command::Stabilize)),
        Line::Show { observer } => showing(alloc, observer),
    }
}

/// The declaration of a variable.
fn variable(
    alloc: Global,
    names: &Names,
    name: &Name,
    ty: Ty,
    first: &Literal,
) -> Result<Option<Command>, AllocError>
    ensures { (F : Meanings) → IfOk result (λ c. option_map command_view c ≡ command_of F names.entry.now (Var name.now ty (literal_view first.now))) }
{
    match literal_of_type(alloc, names, ty, first)? {
        Some(first) => timed(alloc, name, ty, Declaration::Variable(first)),
        None => Ok(None),
    }
}

/// The setting of a variable.
fn assignment(
    alloc: Global,
    names: &Names,
    name: &Name,
    value: &Literal,
) -> Result<Option<Command>, AllocError>
    ensures { (F : Meanings) → IfOk result (λ c. option_map command_view c ≡ command_of F names.entry.now (Set name.now (literal_view value.now))) }
{
    let Some(declared) = declared_as(names, name) else {
        return Ok(None);
    };
    match literal_of_type(alloc, names, declared.ty, value)? {
        Some(value) => Ok(Some(Command::Assign {
            target: declared.target,
            value,
        })),
        None => Ok(None),
    }
}

/// The declaration of a name for a formula.
fn definition<L: Library>(
    alloc: Global,
    names: &Names,
    library: &L,
    name: &Name,
    formula: &Tree,
) -> Result<Option<Command>, AllocError>
    ensures { IfOk result (λ c. option_map command_view c
        ≡ command_of (meanings_of (L.named library.now) (L.value library.now)) names.entry.now (Let name.now (tree_view formula.now))) }
{
    match formula {
        Tree::After(span) => {
            let body = Declaration::After(after(names, *span));
            timed(alloc, name, Ty::Bool, body)
        }
        Tree::Every(span) => {
            let base = names.clock();
            let span = nanoseconds_of(*span);
            timed(alloc, name, Ty::Int, Declaration::Every { base, span })
        }
        Tree::Literal(_)
        | Tree::Name(_)
        | Tree::Now
        | Tree::Call { .. }
        | Tree::Fold { .. }
        | Tree::If { .. }
        | Tree::Bind { .. }
        | Tree::Join { .. }
        | Tree::At(_)
        | Tree::Steps { .. } => computed(alloc, names, library, name, formula),
        Tree::Freeze {
            child,
            predicate,
            around,
        } => match around.as_slice() {
            [] => freeze(alloc, names, library, name, child, predicate),
            // (a freeze within a freeze)
            [_, ..] => Ok(None),
        },
    }
}

/// The declaration of a name for the first value of a formula on which a predicate is true.
fn freeze<L: Library>(
    alloc: Global,
    names: &Names,
    library: &L,
    name: &Name,
    child: &Tree,
    predicate: &Name,
) -> Result<Option<Command>, AllocError>
    ensures { IfOk result (λ c. option_map command_view c
        ≡ command_of (meanings_of (L.named library.now) (L.value library.now)) names.entry.now (Let name.now (Freeze (tree_view child.now) predicate.now))) }
{
    let Some(predicate) = library.find(predicate.bytes()) else {
        return Ok(None);
    };
    match typed(alloc, names, library, &[], child) {
        Ok(Some(child)) => child.frozen(alloc, name, predicate),
        Ok(None) => Ok(None),
        Err(fault) => Err(fault),
    }
}

/// The declaration of a name for the fold of a list that commands change.
fn expert<L: Library>(
    alloc: Global,
    names: &Names,
    library: &L,
    name: &Name,
    function: &Name,
    first: &Literal,
) -> Result<Option<Command>, AllocError>
    ensures { IfOk result (λ c. option_map command_view c
        ≡ command_of (meanings_of (L.named library.now) (L.value library.now)) names.entry.now
        (Expert name.now function.now (literal_view first.now))) }
{
    let Some(function) = library.find(function.bytes()) else {
        return Ok(None);
    };
    if element_of(&function).is_none() {
        return Ok(None);
    }
    let ty = function.sig.gives();
    let first = match literal_of_type(alloc, names, ty, first) {
        Ok(Some(first)) => first,
        Ok(None) => return Ok(None),
        Err(fault) => return Err(fault),
    };
    timed(alloc, name, ty, Declaration::Expert { function, first })
}

/// The linking of a declaration to an expert, if it has the type that the expert takes.
fn linking(names: &Names, expert: &Name, name: &Name) -> Option<Command>
    ensures { (F : Meanings) → option_map command_view result ≡ command_of F names.entry.now (Link expert.now name.now) }
{
    let expert = declared_as(names, expert)?.target;
    let linked = declared_as(names, name)?;
    match names.get(expert).kind {
        Kind::Expert { takes } if is_same_type(linked.ty, takes) => Some(Command::Link {
            expert,
            target: linked.target,
        }),
        _ => None,
    }
}

/// The unlinking of a declaration from an expert.
fn unlinking(names: &Names, expert: &Name, name: &Name) -> Option<Command>
    ensures { (F : Meanings) → option_map command_view result ≡ command_of F names.entry.now (Unlink expert.now name.now) }
{
    Some(Command::Unlink {
        expert: declared_as(names, expert)?.target,
        target: declared_as(names, name)?.target,
    })
}

/// The renewal of an expert.
fn renewal(names: &Names, expert: &Name) -> Option<Command>
    ensures { (F : Meanings) → option_map command_view result ≡ command_of F names.entry.now (Stale expert.now) }
{
    Some(Command::Stale {
        expert: declared_as(names, expert)?.target,
    })
}

/// The declaration of a name for what is no formula of others.
fn timed(
    alloc: Global,
    name: &Name,
    ty: Ty,
    body: Declaration,
) -> Result<Option<Command>, AllocError>
    ensures { IfOk result (λ c. option_map command_view c ≡ Some (Declare name.now ty (body_view body))) }
{
    match Name::new(alloc, name.bytes()) {
        Ok(name) => body.named(alloc, name, ty),
        Err(fault) => {
            drop(body);
            Err(fault)
        }
    }
}

/// The time at which a span ends that begins now, in nanoseconds. It is refused where it is beyond the greatest.
fn after(names: &Names, span: Time) -> u64
    ensures { result ≡ names.entry.now.now + unwrap_or (time_view span) 0 }
{
    names.clock().count() + nanoseconds_of(span).count()
}

/// The declaration of a name for a formula that may stand within others.
fn computed<L: Library>(
    alloc: Global,
    names: &Names,
    library: &L,
    name: &Name,
    formula: &Tree,
) -> Result<Option<Command>, AllocError>
    requires { is_top_form (tree_view formula.now) ≡ false }
    ensures { IfOk result (λ c. option_map command_view c
        ≡ command_of (meanings_of (L.named library.now) (L.value library.now)) names.entry.now (Let name.now (tree_view formula.now))) }
{
    match typed(alloc, names, library, &[], formula) {
        Ok(Some(typed)) => match Name::new(alloc, name.bytes()) {
            Ok(name) => typed.declared(alloc, name),
            Err(fault) => {
                drop(typed);
                Err(fault)
            }
        },
        Ok(None) => Ok(None),
        Err(fault) => Err(fault),
    }
}

/// The declaration of a name for a bind's right side.
fn grab(
    alloc: Global,
    names: &Names,
    name: &Name,
    bind: &Name,
) -> Result<Option<Command>, AllocError>
    ensures { (F : Meanings) → IfOk result (λ c. option_map command_view c ≡ command_of F names.entry.now (Grab name.now bind.now)) }
{
    let Some(declared) = declared_as(names, bind) else {
        return Ok(None);
    };
    Ok(Some(Command::Grab {
        name: Name::new(alloc, name.bytes())?,
        ty: declared.ty,
        bind: declared.target,
    }))
}

/// The making of an observer.
fn observation(
    alloc: Global,
    names: &Names,
    observer: &Name,
    name: &Name,
) -> Result<Option<Command>, AllocError>
    ensures { (F : Meanings) → IfOk result (λ c. option_map command_view c ≡ command_of F names.entry.now (Observe observer.now name.now)) }
{
    let Some(declared) = declared_as(names, name) else {
        return Ok(None);
    };
    Ok(Some(Command::Observe {
        observer: Name::new(alloc, observer.bytes())?,
        target: declared.target,
    }))
}

/// The ending of an observer.
fn ending(alloc: Global, observer: &Name) -> Result<Option<Command>, AllocError>
    ensures { (F : Meanings) (names : AllNames) → IfOk result (λ c. option_map command_view c ≡ command_of F names (Unobserve observer.now)) }
{
    Ok(Some(Command::Unobserve {
        observer: Name::new(alloc, observer.bytes())?,
    }))
}

/// The watching of an observer.
fn watching(alloc: Global, observer: &Name) -> Result<Option<Command>, AllocError>
    ensures { (F : Meanings) (names : AllNames) → IfOk result (λ c. option_map command_view c ≡ command_of F names (Watch observer.now)) }
{
    Ok(Some(Command::Watch {
        observer: Name::new(alloc, observer.bytes())?,
    }))
}

/// The showing of an observer.
fn showing(alloc: Global, observer: &Name) -> Result<Option<Command>, AllocError>
    ensures { (F : Meanings) (names : AllNames) → IfOk result (λ c. option_map command_view c ≡ command_of F names (Show observer.now)) }
{
    Ok(Some(Command::Show {
        observer: Name::new(alloc, observer.bytes())?,
    }))
}
