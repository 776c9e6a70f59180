//! The trees that lines are read into.

use crate::name::Name;
use inc_value::{Text, Ty};

/// A time or a span as it is written.
#[derive(Clone, Copy)]
pub enum Time {
    /// This many nanoseconds.
    Nanoseconds(u64),
    /// More than 9,223,372,036,854,775,807 nanoseconds.
    TooLarge,
}

/// A literal.
pub enum Literal {
    Integer(i64),
    /// `true` or `false`.
    Bool(bool),
    /// A text, without its quotes and escapes.
    Text(Text),
    /// `&NAME`: a reference to what the name stands for.
    Reference(Name),
}

// (written out: whoever drops one proves one call, and no drop of its parts)
impl Drop for Literal {
    fn drop(self) {
        match self {
            Literal::Integer(_) | Literal::Bool(_) => {}
            Literal::Text(text) => drop(text),
            Literal::Reference(name) => drop(name),
        }
    }
}

/// `TIME: LITERAL`: a literal from a time on.
pub struct TimedLiteral {
    pub time: Time,
    pub literal: Literal,
}

// (written out: whoever drops one proves one call, and no drop of its parts)
impl Drop for TimedLiteral {
    fn drop(self) {
        let TimedLiteral { time: _, literal } = self;
        drop(literal);
    }
}

/// A formula as it is written.
#[derive(Drop)]
pub enum Tree {
    /// A literal.
    Literal(Literal),
    /// A name of a declaration, or a variable of a bind round it.
    Name(Name),
    /// A function of one to nine arguments.
    Call {
        function: Name,
        arguments: Vec<Tree>,
    },
    /// `if FORMULA then FORMULA else FORMULA`.
    If {
        test: Box<Tree>,
        then_side: Box<Tree>,
        else_side: Box<Tree>,
    },
    /// `bind NAME = FORMULA in FORMULA`.
    Bind {
        variable: Name,
        left: Box<Tree>,
        body: Box<Tree>,
    },
    /// `join(FORMULA)`.
    Join {
        child: Box<Tree>,
    },
    /// `fold NAME from LITERAL [..]`: a fold of a function from a first value over elements, of which
    /// there may be none.
    Fold {
        function: Name,
        first: Literal,
        elements: Vec<Tree>,
    },
    /// `at TIME`.
    At(Time),
    /// `now`.
    Now,
    /// `steps LITERAL [..]`: a first value, and others from a time on each, of which there may be none.
    Steps {
        first: Literal,
        steps: Vec<TimedLiteral>,
    },
    /// `freeze FORMULA when NAME`, and the freezes directly round it, each with its predicate, from the inside
    /// out. They are kept in a row, so that no line is nested deeper than its levels are.
    Freeze {
        child: Box<Tree>,
        predicate: Name,
        around: Vec<Name>,
    },
    /// `after SPAN`.
    After(Time),
    /// `every SPAN`.
    Every(Time),
}

/// A command as it is written.
pub enum Line {
    /// `var NAME TYPE LITERAL`.
    Var {
        name: Name,
        ty: Ty,
        first: Literal,
    },
    /// `set NAME LITERAL`.
    Set {
        name: Name,
        value: Literal,
    },
    /// `let NAME FORMULA`.
    Let {
        name: Name,
        formula: Tree,
    },
    /// `expert NAME fold NAME from LITERAL`.
    Expert {
        name: Name,
        function: Name,
        first: Literal,
    },
    /// `link EXPERT NAME`.
    Link {
        expert: Name,
        name: Name,
    },
    /// `unlink EXPERT NAME`.
    Unlink {
        expert: Name,
        name: Name,
    },
    /// `stale EXPERT`.
    Stale {
        expert: Name,
    },
    /// `grab NAME BIND`.
    Grab {
        name: Name,
        bind: Name,
    },
    /// `observe OBSERVER NAME`.
    Observe {
        observer: Name,
        name: Name,
    },
    /// `unobserve OBSERVER`.
    Unobserve {
        observer: Name,
    },
    /// `watch OBSERVER`.
    Watch {
        observer: Name,
    },
    /// `show OBSERVER`.
    Show {
        observer: Name,
    },
    /// `advance SPAN`.
    Advance {
        span: Time,
    },
    /// `advance-to TIME`.
    AdvanceTo {
        time: Time,
    },
    /// `stabilize`.
    Stabilize,
}

// (written out: whoever drops one proves one call, and no drop of its parts)
impl Drop for Line {
    fn drop(self) {
        match self {
            Line::Var { name, ty: _, first } => {
                drop(name);
                drop(first);
            }
            Line::Set { name, value } => {
                drop(name);
                drop(value);
            }
            Line::Let { name, formula } => {
                drop(name);
                drop(formula);
            }
            Line::Expert {
                name,
                function,
                first,
            } => {
                drop(name);
                drop(function);
                drop(first);
            }
            Line::Link { expert, name } | Line::Unlink { expert, name } => {
                drop(expert);
                drop(name);
            }
            Line::Stale { expert } => drop(expert),
            Line::Grab { name, bind } => {
                drop(name);
                drop(bind);
            }
            Line::Observe { observer, name } => {
                drop(observer);
                drop(name);
            }
            Line::Unobserve { observer } | Line::Watch { observer } | Line::Show { observer } => {
                drop(observer)
            }
            Line::Advance { span: _ } | Line::AdvanceTo { time: _ } | Line::Stabilize => {}
        }
    }
}
