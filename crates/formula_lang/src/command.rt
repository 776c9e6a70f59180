//! Commands whose names, functions and types are checked.
ghost use Rattle.std.specs.Prelude.{◌≡◌, Some, IfOk, option_map};
ghost use Rattle.script_model.specs.Check.{Declare, kind_of_body, target_of_body};
ghost use Rattle.formula_lang.specs.CommandView.{body_view, command_view};
ghost use Rattle.formula_lang.specs.NamesView.{kind_view};

use crate::names::Kind;
use crate::typing::element_of;
use inc_value::{Base, FnRef, Text, Ty};
use line_parser::Name;
use line_times::Nanoseconds;
use std::alloc::{AllocError, Global};

/// A value as a command holds it.
pub enum Constant {
    Int(i64),
    Bool(bool),
    Text(Text),
    /// The declaration at the position, whose values have the base type.
    Reference { target: usize, base: Base },
}

// (written out: whoever drops one proves one call, and no drop of its parts)
impl Drop for Constant {
    fn drop(self) {
        match self {
            Constant::Int(_) | Constant::Bool(_) | Constant::Reference { target: _, base: _ } => {}
            Constant::Text(text) => drop(text),
        }
    }
}

/// A value from a time on.
pub struct TimedConstant {
    pub time: Nanoseconds,
    pub value: Constant,
}

// (written out: whoever drops one proves one call, and no drop of its parts)
impl Drop for TimedConstant {
    fn drop(self) {
        let TimedConstant { time: _, value } = self;
        drop(value);
    }
}

/// A formula with a position for each name and a reference for each function.
#[derive(Drop)]
pub enum Formula {
    Literal(Constant),
    /// The declaration at this position.
    Name(usize),
    /// The variable of a bind round the formula, by how many binds stand between.
    Bound(usize),
    Apply {
        function: FnRef,
        arguments: Vec<Formula>,
    },
    /// The fold of a function from a first value over elements, in order.
    Fold {
        function: FnRef,
        first: Constant,
        elements: Vec<Formula>,
    },
    /// The second formula where the first, a test, is true, else the third.
    If {
        test: Box<Formula>,
        yes: Box<Formula>,
        no: Box<Formula>,
    },
    /// What the declaration is worth to which the formula refers.
    Join(Box<Formula>),
    /// The body, in which the bind's variable stands for the value of the left.
    Bind {
        left: Box<Formula>,
        body: Box<Formula>,
    },
    /// Whether the clock has come to the time.
    At(Nanoseconds),
    /// The first value, and then that of the last step whose time has come.
    Steps {
        first: Constant,
        steps: Vec<TimedConstant>,
    },
    /// The clock, in nanoseconds.
    Now,
}

/// What is declared.
pub enum Declaration {
    /// A variable with its first value.
    Variable(Constant),
    /// A name for a formula.
    Computed(Formula),
    /// Whether the clock has come to the time, in nanoseconds: the end of a span that begins with the declaration.
    After(u64),
    /// How many whole spans went by since the base, which is the time of the declaration.
    Every {
        base: Nanoseconds,
        span: Nanoseconds,
    },
    /// The first value of a formula on which a predicate is true, and until then the formula.
    Frozen {
        child: Formula,
        predicate: FnRef,
    },
    /// The fold of a function from a first value over a list of declarations, which commands change.
    Expert {
        function: FnRef,
        first: Constant,
    },
}

// (written out: whoever drops one proves one call, and no drop of its parts)
impl Drop for Declaration {
    fn drop(self) {
        match self {
            Declaration::Variable(first) => drop(first),
            Declaration::Computed(formula) => drop(formula),
            Declaration::Frozen {
                child,
                predicate: _,
            } => drop(child),
            Declaration::Expert { function: _, first } => drop(first),
            Declaration::After(_) | Declaration::Every { base: _, span: _ } => {}
        }
    }
}

impl Declaration {
    /// The position of the declaration that a new name at the position `own` stands for: that of the
    /// name that the whole formula is, or its own.
    pub fn target(&self, own: usize) -> usize
        ensures { result ≡ target_of_body own (body_view self.now) }
    {
        match self {
            Declaration::Computed(Formula::Name(target)) => *target,
            Declaration::Computed(
                Formula::Literal(_)
                | Formula::Bound(_)
                | Formula::Apply { .. }
                | Formula::Fold { .. }
                | Formula::If { .. }
                | Formula::Join(_)
                | Formula::Bind { .. }
                | Formula::At(_)
                | Formula::Steps { .. }
                | Formula::Now,
            )
            | Declaration::Variable(_)
            | Declaration::After(_)
            | Declaration::Every { .. }
            | Declaration::Frozen { .. }
            | Declaration::Expert { .. } => own,
        }
    }

    /// The command that declares a name with it.
    pub(crate) fn named(
        self,
        alloc: Global,
        name: Name,
        ty: Ty,
    ) -> Result<Option<Command>, AllocError>
        ensures { IfOk result (λ c. option_map command_view c ≡ Some (Declare name ty (body_view self))) }
    {
        match Box::new(alloc, self) {
            Ok(body) => Ok(Some(Command::Declare { name, ty, body })),
            Err(_) => {
                drop(name);
                Err(AllocError)
            }
        }
    }

    /// How a name is declared with it.
    pub fn kind(&self) -> Kind
        ensures { kind_view result ≡ kind_of_body (body_view self.now) }
    {
        match self {
            Declaration::Variable(_) => Kind::Var,
            Declaration::Computed(Formula::Bind { .. }) => Kind::Bind,
            Declaration::Computed(
                Formula::Literal(_)
                | Formula::Name(_)
                | Formula::Bound(_)
                | Formula::Apply { .. }
                | Formula::Fold { .. }
                | Formula::If { .. }
                | Formula::Join(_)
                | Formula::At(_)
                | Formula::Steps { .. }
                | Formula::Now,
            )
            | Declaration::After(_)
            | Declaration::Every { .. }
            | Declaration::Frozen { .. } => Kind::Let,
            Declaration::Expert { function, .. } => Kind::Expert {
                takes: element_of(function).unwrap_or(Ty::Int),
            },
        }
    }
}

/// A command with a position for each name that it reads.
pub enum Command {
    /// Declares a name.
    Declare {
        name: Name,
        ty: Ty,
        body: Box<Declaration>,
    },
    /// Declares a name for the present right side of the bind at a position.
    Grab {
        name: Name,
        ty: Ty,
        bind: usize,
    },
    /// Gives a variable a value.
    Assign {
        target: usize,
        value: Constant,
    },
    /// Observes the declaration at a position.
    Observe {
        observer: Name,
        target: usize,
    },
    /// Ends an observer.
    Unobserve {
        observer: Name,
    },
    /// Watches an observer.
    Watch {
        observer: Name,
    },
    /// Puts a declaration behind the list of an expert.
    Link {
        expert: usize,
        target: usize,
    },
    /// Takes a declaration off the list of an expert.
    Unlink {
        expert: usize,
        target: usize,
    },
    /// Has an expert's function called anew.
    Stale {
        expert: usize,
    },
    /// Moves the clock on to a time, in nanoseconds.
    Advance {
        time: u64,
    },
    /// Stabilizes.
    Stabilize,
    /// Shows what an observer has.
    Show {
        observer: Name,
    },
}

// (written out: whoever drops one proves one call, and no drop of its parts)
impl Drop for Command {
    fn drop(self) {
        match self {
            Command::Declare { name, ty: _, body } => {
                drop(name);
                drop(body);
            }
            Command::Grab {
                name,
                ty: _,
                bind: _,
            } => drop(name),
            Command::Assign { target: _, value } => drop(value),
            Command::Observe {
                observer,
                target: _,
            } => drop(observer),
            Command::Unobserve { observer }
            | Command::Watch { observer }
            | Command::Show { observer } => drop(observer),
            Command::Link {
                expert: _,
                target: _,
            }
            | Command::Unlink {
                expert: _,
                target: _,
            }
            | Command::Stale { expert: _ }
            | Command::Advance { time: _ }
            | Command::Stabilize => {}
        }
    }
}
