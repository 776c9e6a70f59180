//! Why commands are refused: the rows that are looked at, in order.
ghost use Rattle.std.specs.Prelude.{◌≡◌, is_none, map, option_map};
ghost use Rattle.std.specs.List.{list_any};
ghost use Rattle.script_model.specs.Check.{binds_of, command_of, experts_of, first_that, functions_in, is_against, is_among, is_bind, is_declared, is_expert, is_variable, kind_of, line_order, new_names, new_observers, observers_of, read_names, reason_number, variables_of};
ghost use Rattle.script_model.specs.Formula.{Meanings, meanings_of};
ghost use Rattle.script_model.specs.Grammar.{Set, Show};
ghost use Rattle.script_model.specs.Literals.{Literal as ALiteral};
ghost use Rattle.line_parser.specs.TreeView.{line_view};
ghost use Rattle.formula_lang.specs.Verdict.{reason_view};
ghost use Rattle.formula_lang.specs.Rows.{is_no_bind, is_no_expert, is_no_observer, is_no_variable, is_unknown as is_unknown_in, lacks};

use crate::names::{Kind, Names};
use crate::typing::{declared_as, has_unknown_function, is_declared};
use line_parser::{Line, Name};
use line_times::{is_back, is_not_rising, is_not_whole, is_span_zero, is_time_too_large};
use node_arena::Library;

/// Why a command is refused.
#[derive(Clone, Copy, PartialEq, Eq)]
pub(crate) enum Reason {
    NameTaken,
    ObserverTaken,
    NameUnknown,
    ObserverUnknown,
    FunctionUnknown,
    NotWhole,
    NotVariable,
    NotBind,
    NotExpert,
    IllTyped,
    TimeTooLarge,
    TimesNotRising,
    SpanIsZero,
    BackInTime,
}

/// The order in which they are looked at.
const ORDER: [Reason; 14] = [
    Reason::NameTaken,
    Reason::ObserverTaken,
    Reason::NameUnknown,
    Reason::ObserverUnknown,
    Reason::FunctionUnknown,
    Reason::NotWhole,
    Reason::NotVariable,
    Reason::NotBind,
    Reason::NotExpert,
    Reason::IllTyped,
    Reason::TimeTooLarge,
    Reason::TimesNotRising,
    Reason::SpanIsZero,
    Reason::BackInTime,
];

impl Reason {
    /// The number that is printed.
    pub(crate) fn number(self) -> u8
        ensures { result ≡ reason_number (reason_view self) }
    {
        match self {
            Reason::NameTaken => 3,
            Reason::NameUnknown => 4,
            Reason::FunctionUnknown => 5,
            Reason::IllTyped => 6,
            Reason::NotVariable => 7,
            Reason::NotBind => 8,
            Reason::NotExpert => 10,
            Reason::ObserverUnknown => 11,
            Reason::ObserverTaken => 12,
            Reason::NotWhole => 14,
            Reason::BackInTime => 15,
            Reason::TimeTooLarge => 16,
            Reason::TimesNotRising => 17,
            Reason::SpanIsZero => 18,
        }
    }
}

/// The first reason that stands against the line.
pub(crate) fn first_reason<L: Library>(
    line: &Line,
    names: &Names,
    library: &L,
    is_unknown: bool,
    is_ill_typed: bool,
) -> Option<Reason>
    requires read { is_unknown ≡ list_any (is_unknown_in names.now) (read_names (line_view line.now)) }
    requires typed { is_ill_typed ≡ is_none (command_of (meanings_of (L.named library.now) (L.value library.now)) names.now (line_view line.now)) }
    ensures { option_map reason_view result
        ≡ first_that (is_against (meanings_of (L.named library.now) (L.value library.now)) names.entry.now (line_view line.now)) line_order }
{
    match line {
        Line::Stabilize => None,
        Line::Show { observer } => first_against_show(names, observer),
        Line::Set { name, .. } => first_against_set(names, name, is_unknown, is_ill_typed),
        _ => first_of_all(line, names, library, is_unknown, is_ill_typed),
    }
}

/// The one reason that may stand against a `show`.
fn first_against_show(names: &Names, observer: &Name) -> Option<Reason>
    ensures { (F : Meanings) → option_map reason_view result ≡ first_that (is_against F names.entry.now (Show observer.now)) line_order }
{
    if names.is_in_use(observer.bytes()) {
        None
    } else {
        Some(Reason::ObserverUnknown)
    }
}

/// The first of the three reasons that may stand against a `set`.
fn first_against_set(
    names: &Names,
    name: &Name,
    is_unknown: bool,
    is_ill_typed: bool,
) -> Option<Reason>
    ensures { (F : Meanings) (value : ALiteral) → is_unknown ≡ list_any (is_unknown_in names.entry.now) (read_names (Set name.now value))
        → is_ill_typed ≡ is_none (command_of F names.entry.now (Set name.now value))
        → option_map reason_view result ≡ first_that (is_against F names.entry.now (Set name.now value)) line_order }
{
    if is_unknown {
        Some(Reason::NameUnknown)
    } else if !is_variable(names, name) {
        Some(Reason::NotVariable)
    } else if is_ill_typed {
        Some(Reason::IllTyped)
    } else {
        None
    }
}

/// The first reason that stands against the line, looked for in all of them.
fn first_of_all<L: Library>(
    line: &Line,
    names: &Names,
    library: &L,
    is_unknown: bool,
    is_ill_typed: bool,
) -> Option<Reason>
    requires read { is_unknown ≡ list_any (is_unknown_in names.now) (read_names (line_view line.now)) }
    requires typed { is_ill_typed ≡ is_none (command_of (meanings_of (L.named library.now) (L.value library.now)) names.now (line_view line.now)) }
    ensures { option_map reason_view result
        ≡ first_that (is_against (meanings_of (L.named library.now) (L.value library.now)) names.entry.now (line_view line.now)) line_order }
{
    for reason in ORDER {
        if is_against(line, names, library, is_unknown, is_ill_typed, reason) {
            return Some(reason);
        }
    }
    None
}

/// Whether the reason stands against the line.
fn is_against<L: Library>(
    line: &Line,
    names: &Names,
    library: &L,
    is_unknown: bool,
    is_ill_typed: bool,
    reason: Reason,
) -> bool
    requires read { is_unknown ≡ list_any (is_unknown_in names.now) (read_names (line_view line.now)) }
    requires typed { is_ill_typed ≡ is_none (command_of (meanings_of (L.named library.now) (L.value library.now)) names.now (line_view line.now)) }
    ensures { result
        ≡ is_against (meanings_of (L.named library.now) (L.value library.now)) names.entry.now (line_view line.now) (reason_view reason) }
{
    match reason {
        Reason::NameTaken => is_name_taken(line, names),
        Reason::ObserverTaken => is_observer_taken(line, names),
        Reason::NameUnknown => is_unknown,
        Reason::ObserverUnknown => is_observer_unknown(line, names),
        Reason::FunctionUnknown => is_function_unknown(line, library),
        Reason::NotWhole => is_not_whole(line),
        Reason::NotVariable => is_no_variable(line, names),
        Reason::NotBind => is_no_bind(line, names),
        Reason::NotExpert => is_no_expert(line, names),
        Reason::IllTyped => is_ill_typed,
        Reason::TimeTooLarge => is_time_too_large(line, names.clock()),
        Reason::TimesNotRising => is_not_rising(line),
        Reason::SpanIsZero => is_span_zero(line),
        Reason::BackInTime => is_back(line, names.clock()),
    }
}

/// Whether the new name is declared.
fn is_name_taken(line: &Line, names: &Names) -> bool
    ensures { result ≡ list_any (is_declared names.entry.now) (new_names (line_view line.now)) }
{
    match line {
        Line::Var { name, .. }
        | Line::Let { name, .. }
        | Line::Expert { name, .. }
        | Line::Grab { name, .. } => is_declared(names, name),
        _ => false,
    }
}

/// Whether the new observer's name is in use.
fn is_observer_taken(line: &Line, names: &Names) -> bool
    ensures { result ≡ list_any (is_among names.entry.now.observers) (new_observers (line_view line.now)) }
{
    match line {
        Line::Observe { observer, .. } => names.is_in_use(observer.bytes()),
        _ => false,
    }
}

/// Whether the observer's name isn't in use.
fn is_observer_unknown(line: &Line, names: &Names) -> bool
    ensures { result ≡ list_any (is_no_observer names.entry.now) (observers_of (line_view line.now)) }
{
    match line {
        Line::Unobserve { observer } | Line::Watch { observer } | Line::Show { observer } => {
            !names.is_in_use(observer.bytes())
        }
        _ => false,
    }
}

/// Whether the library has no function of a name.
fn is_function_unknown<L: Library>(line: &Line, library: &L) -> bool
    ensures { result ≡ list_any (lacks (L.named library.now)) (functions_in (line_view line.now)) }
{
    match line {
        Line::Let { formula, .. } => has_unknown_function(library, formula),
        Line::Expert { function, .. } => library.find(function.bytes()).is_none(),
        _ => false,
    }
}

/// Whether what is set is no variable.
fn is_no_variable(line: &Line, names: &Names) -> bool
    ensures { result ≡ list_any (is_no_variable names.entry.now) (variables_of (line_view line.now)) }
{
    match line {
        Line::Set { name, .. } => !is_variable(names, name),
        _ => false,
    }
}

/// Whether what is grabbed is no bind.
fn is_no_bind(line: &Line, names: &Names) -> bool
    ensures { result ≡ list_any (is_no_bind names.entry.now) (binds_of (line_view line.now)) }
{
    match line {
        Line::Grab { bind, .. } => !is_bind(names, bind),
        _ => false,
    }
}

/// Whether what is linked, unlinked or renewed is no expert.
fn is_no_expert(line: &Line, names: &Names) -> bool
    ensures { result ≡ list_any (is_no_expert names.entry.now) (experts_of (line_view line.now)) }
{
    match line {
        Line::Link { expert, .. } | Line::Unlink { expert, .. } | Line::Stale { expert } => {
            !is_expert(names, expert)
        }
        _ => false,
    }
}

/// Whether the name stands for a variable.
fn is_variable(names: &Names, name: &Name) -> bool
    ensures { result ≡ is_variable (kind_of names.entry.now name.now) }
{
    match declared_as(names, name) {
        Some(declared) => matches!(names.get(declared.target).kind, Kind::Var),
        None => false,
    }
}

/// Whether the name stands for a bind.
fn is_bind(names: &Names, name: &Name) -> bool
    ensures { result ≡ is_bind (kind_of names.entry.now name.now) }
{
    match declared_as(names, name) {
        Some(declared) => matches!(names.get(declared.target).kind, Kind::Bind),
        None => false,
    }
}

/// Whether the name stands for an expert.
fn is_expert(names: &Names, name: &Name) -> bool
    ensures { result ≡ is_expert (kind_of names.entry.now name.now) }
{
    match declared_as(names, name) {
        Some(declared) => matches!(names.get(declared.target).kind, Kind::Expert { .. }),
        None => false,
    }
}
