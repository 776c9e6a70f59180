//! Tables of acts on a graph without binds, with the number that each answers.

use crate::bodies::Side;
use std_library::Function;

/// What is done to a graph. Nodes and observers go by the order in which they were made or grabbed.
#[derive(Clone, Copy)]
pub(crate) enum Act {
    Constant(i64),
    Var(i64),
    /// Makes a variable that holds a truth.
    Truth(bool),
    /// Makes a variable that refers to a node of numbers.
    Refer(usize),
    /// Makes a node that reads its second node where the first is true, else the third.
    If(usize, usize, usize),
    /// The same, of nodes that refer to others.
    IfRefer(usize, usize, usize),
    /// Makes a node that reads the node of numbers to which a node refers.
    Join(usize),
    /// Makes a variable with so many negations over it, and observes the last one.
    Chain(usize),
    /// Makes so many negations over a node, each over the one before.
    Negations(usize, usize),
    /// Makes a map of as many of three nodes as its function takes.
    Map(Function, usize, usize, usize),
    /// Makes the fold by sums from a number on over three nodes.
    Fold(i64, usize, usize, usize),
    /// Makes the fold from a number on over no nodes.
    FoldNone(i64),
    /// Makes a freeze of a node by a predicate.
    Freeze(Function, usize),
    /// Makes an expert that folds from a number on by a function.
    Expert(Function, i64),
    /// Puts the second node behind the list of the first.
    Link(usize, usize),
    /// Takes the first link to the second node off the list of the first.
    Unlink(usize, usize),
    /// Has an expert called anew.
    MakeStale(usize),
    /// Makes constants that nothing reads, until so many nodes more fit. All that live must have been made or grabbed.
    Fill(usize),
    /// Makes the negation of a node and the negation of that, and takes both back.
    TakeBack(usize),
    /// Makes a node that shows whether a time has come, in nanoseconds.
    At(i64),
    /// Makes a node that shows the clock.
    Now,
    /// Makes a node that shows whether a span went by since it was made.
    After(u64),
    /// Makes a node that counts the whole spans that went by since it was made.
    Every(u64),
    /// Makes a node that shows a number, and then that of the last of two steps whose time has come: a time and a number each.
    Steps(i64, i64, i64, i64, i64),
    /// Moves the time on to one.
    Advance(i64),
    /// The time.
    Time,
    /// Makes a bind on a node.
    Bind(usize, Side),
    /// Makes a bind on the first node, whose right sides are binds on the second, whose right sides are sums of both
    /// values.
    Nested(usize, usize),
    /// Makes a bind on a node and takes it back.
    BindAndTakeBack(usize),
    /// The present root of a bind is a node from then on. 1 where there is one.
    Grab(usize),
    Set(usize, i64),
    SetTruth(usize, bool),
    /// Has a variable refer to another node.
    SetTarget(usize, usize),
    /// Sets a node's cutoff to Equal.
    Equal(usize),
    /// Sets a node's cutoff to Never.
    Never(usize),
    Observe(usize),
    Unobserve(u32),
    Stabilize,
    /// Stabilizes, and where that is refused tries to go back to a mark made before it.
    StabilizeOrBack,
    Show(u32),
    /// Whether a node is live.
    Live(usize),
    /// The place of the first node that is a node's owner, -1 where it has none.
    Owner(usize),
    /// How often a node's function was called in the last accepted stabilize.
    Ran(usize),
    /// Whether a node's function was the first that was called in it.
    First(usize),
    /// How many functions were called since the graph was made.
    Calls,
    /// How often right sides were built since the graph was made, and how many nodes were added for them.
    Builds,
    Adds,
    /// How many points a refused stabilize met.
    Points,
}

/// A diamond, whose nodes are run once each.
const DIAMOND: &[(Act, i64)] = &[
    (Act::Var(2), 0),
    (Act::Map(Function::Neg, 0, 0, 0), 0),
    (Act::Map(Function::Neg, 0, 0, 0), 0),
    (Act::Map(Function::Add, 1, 2, 0), 0),
    (Act::Observe(3), 0),
    (Act::Show(0), -105),
    (Act::Stabilize, 3),
    (Act::Calls, 3),
    (Act::Set(0, 3), 0),
    (Act::Show(0), -4),
    (Act::Stabilize, 3),
    (Act::Show(0), -6),
    (Act::Calls, 6),
    (Act::Ran(0), 0),
    (Act::Ran(1), 1),
    (Act::Ran(2), 1),
    (Act::Ran(3), 1),
    (Act::Stabilize, 0),
    (Act::Set(0, 3), 0),
    (Act::Stabilize, 0),
    (Act::Calls, 6),
];

/// The chosen branch alone is needed.
const CHOICE: &[(Act, i64)] = &[
    (Act::Truth(true), 0),
    (Act::Var(1), 0),
    (Act::Var(2), 0),
    (Act::Map(Function::Neg, 1, 0, 0), 0),
    (Act::Map(Function::Neg, 2, 0, 0), 0),
    (Act::If(0, 3, 4), 0),
    (Act::Observe(5), 0),
    (Act::Stabilize, 1),
    (Act::Show(0), -1),
    (Act::SetTruth(0, false), 0),
    (Act::Stabilize, 1),
    (Act::Show(0), -2),
    (Act::Set(1, 5), 0),
    (Act::Stabilize, 0),
    (Act::Show(0), -2),
    (Act::SetTruth(0, true), 0),
    (Act::Stabilize, 1),
    (Act::Show(0), -5),
];

/// The same, with its nodes made in another order.
const CHOICE_TURNED: &[(Act, i64)] = &[
    (Act::Var(2), 0),
    (Act::Map(Function::Neg, 0, 0, 0), 0),
    (Act::Var(1), 0),
    (Act::Truth(true), 0),
    (Act::Map(Function::Neg, 2, 0, 0), 0),
    (Act::If(3, 4, 1), 0),
    (Act::Observe(5), 0),
    (Act::Stabilize, 1),
    (Act::Show(0), -1),
    (Act::SetTruth(3, false), 0),
    (Act::Stabilize, 1),
    (Act::Show(0), -2),
    (Act::Set(2, 5), 0),
    (Act::Stabilize, 0),
    (Act::Show(0), -2),
];

/// A variable that refers to a node is observed, and takes no reference to a node of another type.
const REFERENCE: &[(Act, i64)] = &[
    (Act::Var(1), 0),
    (Act::Refer(0), 0),
    (Act::Truth(true), 0),
    (Act::Observe(1), 0),
    (Act::Stabilize, 0),
    (Act::Show(0), -109),
    (Act::SetTarget(1, 2), -104),
    (Act::SetTarget(1, 1), -104),
    (Act::Refer(2), -104),
    (Act::Join(0), -104),
    (Act::If(0, 0, 0), -104),
    (Act::If(2, 0, 1), -104),
];

/// A join on a variable that refers to the join.
const CIRCLE: &[(Act, i64)] = &[
    (Act::Var(1), 0),
    (Act::Refer(0), 0),
    (Act::Join(1), 0),
    (Act::SetTarget(1, 2), 0),
    (Act::Observe(2), 0),
    (Act::Stabilize, -120),
    (Act::Stabilize, -121),
    (Act::Observe(2), -121),
    (Act::Live(2), -121),
    (Act::Points, 2),
];

/// A circle that stands only until the changes have run.
const PASSING_CIRCLE: &[(Act, i64)] = &[
    (Act::Truth(true), 0),
    (Act::Var(1), 0),
    (Act::Refer(1), 0),
    (Act::Refer(1), 0),
    (Act::Join(2), 0),
    (Act::If(0, 4, 1), 0),
    (Act::Join(3), 0),
    (Act::If(0, 1, 6), 0),
    (Act::SetTarget(2, 7), 0),
    (Act::SetTarget(3, 5), 0),
    (Act::Observe(5), 0),
    (Act::Observe(7), 0),
    (Act::Stabilize, 0),
    (Act::Show(0), 1),
    (Act::SetTruth(0, false), 0),
    (Act::Stabilize, 0),
    (Act::Show(0), 1),
    (Act::Show(1), 1),
    (Act::Set(1, 9), 0),
    (Act::Stabilize, 0),
    (Act::Show(0), 9),
    (Act::Show(1), 9),
];

/// The same, with its nodes made and observed in another order.
const PASSING_CIRCLE_TURNED: &[(Act, i64)] = &[
    (Act::Var(1), 0),
    (Act::Refer(0), 0),
    (Act::Join(1), 0),
    (Act::Refer(0), 0),
    (Act::Join(3), 0),
    (Act::Truth(true), 0),
    (Act::If(5, 0, 2), 0),
    (Act::If(5, 4, 0), 0),
    (Act::SetTarget(1, 7), 0),
    (Act::SetTarget(3, 6), 0),
    (Act::Observe(6), 0),
    (Act::Observe(7), 0),
    (Act::Stabilize, 0),
    (Act::Show(0), 1),
    (Act::SetTruth(5, false), 0),
    (Act::Stabilize, 0),
    (Act::Show(0), 1),
    (Act::Show(1), 1),
];

/// A join is told to refer to its own reader while the choice over it, whose test takes longer, is turned away from it.
const LATE_CIRCLE: &[(Act, i64)] = &[
    (Act::Truth(true), 0),
    (Act::Truth(true), 0),
    (Act::Var(1), 0),
    (Act::Refer(2), 0),
    (Act::Map(Function::Not, 1, 0, 0), 0),
    (Act::Map(Function::Not, 4, 0, 0), 0),
    (Act::IfRefer(5, 3, 3), 0),
    (Act::Join(6), 0),
    (Act::If(0, 7, 2), 0),
    (Act::Observe(8), 0),
    (Act::Stabilize, 2),
    (Act::SetTruth(0, false), 0),
    (Act::SetTarget(3, 7), 0),
    (Act::Stabilize, 0),
    (Act::Show(0), 1),
];

/// Two long chains, of which each fits over the other only while that one stands low.
const CHAINS_THAT_CHANGE_PLACES: &[(Act, i64)] = &[
    (Act::Var(1), 0),
    (Act::Refer(0), 0),
    (Act::Refer(0), 0),
    (Act::Join(1), 0),
    (Act::Negations(3, 60), 0),
    (Act::Join(2), 0),
    (Act::Negations(64, 60), 0),
    (Act::Observe(63), 0),
    (Act::Observe(124), 0),
    (Act::SetTarget(2, 63), 0),
    (Act::Stabilize, 120),
    (Act::Show(0), 1),
    (Act::Show(1), 1),
    (Act::SetTarget(2, 0), 0),
    (Act::SetTarget(1, 124), 0),
    (Act::Stabilize, 0),
    (Act::SetTarget(1, 0), 0),
    (Act::SetTarget(2, 63), 0),
    (Act::Set(0, 5), 0),
    (Act::Stabilize, 120),
    (Act::Show(1), 5),
];

/// What is not observed is not run.
const UNOBSERVED: &[(Act, i64)] = &[
    (Act::Var(3), 0),
    (Act::Map(Function::Neg, 0, 0, 0), 0),
    (Act::Observe(1), 0),
    (Act::Stabilize, 1),
    (Act::Unobserve(0), 0),
    (Act::Show(0), -102),
    (Act::Set(0, 9), 0),
    (Act::Stabilize, 0),
    (Act::Observe(1), 0),
    (Act::Stabilize, 1),
    (Act::Show(1), -9),
    (Act::Set(1, 4), -103),
    (Act::Observe(7), 0),
];

/// What is taken back is dead.
const TAKEN_BACK: &[(Act, i64)] = &[
    (Act::Var(2), 0),
    (Act::Map(Function::Neg, 0, 0, 0), 0),
    (Act::TakeBack(1), 0),
    (Act::Live(0), 1),
    (Act::Live(1), 1),
    (Act::Live(2), 0),
    (Act::Live(3), 0),
    (Act::Owner(3), -1),
    (Act::Set(2, 1), -103),
    (Act::Var(5), 0),
    (Act::Live(4), 1),
    (Act::Observe(1), 0),
    (Act::Observe(2), 0),
    (Act::Stabilize, 1),
    (Act::Show(0), -2),
    (Act::Show(1), -109),
];

/// A fold is called once a child.
const FOLD: &[(Act, i64)] = &[
    (Act::Var(1), 0),
    (Act::Var(2), 0),
    (Act::Var(4), 0),
    (Act::Fold(10, 0, 1, 2), 0),
    (Act::Observe(3), 0),
    (Act::Stabilize, 1),
    (Act::Show(0), 17),
    (Act::Calls, 3),
    (Act::Set(1, 5), 0),
    (Act::Stabilize, 1),
    (Act::Show(0), 20),
    (Act::Calls, 6),
    (Act::Ran(3), 1),
    (Act::Set(1, 5), 0),
    (Act::Stabilize, 0),
    (Act::Calls, 6),
];

/// A new map of the same function and the same child as an older one was never called, and its function is called.
const TWINS: &[(Act, i64)] = &[
    (Act::Var(2), 0),
    (Act::Map(Function::Neg, 0, 0, 0), 0),
    (Act::Observe(1), 0),
    (Act::Stabilize, 1),
    (Act::Map(Function::Neg, 0, 0, 0), 0),
    (Act::Observe(2), 0),
    (Act::Stabilize, 1),
    (Act::Ran(1), 0),
    (Act::Ran(2), 1),
    (Act::Show(1), -2),
    (Act::Calls, 2),
];

/// A fold without children calls nothing, and isn't listed.
const EMPTY_FOLD: &[(Act, i64)] = &[
    (Act::FoldNone(7), 0),
    (Act::Observe(0), 0),
    (Act::Stabilize, 0),
    (Act::Show(0), 7),
    (Act::Calls, 0),
    (Act::Ran(0), 0),
    (Act::Stabilize, 0),
    (Act::Show(0), 7),
    (Act::Calls, 0),
];

/// A fold over a dead node is invalid.
const FOLD_OVER_DEAD: &[(Act, i64)] = &[
    (Act::Var(1), 0),
    (Act::TakeBack(0), 0),
    (Act::Fold(10, 0, 1, 0), 0),
    (Act::Observe(3), 0),
    (Act::Stabilize, 0),
    (Act::Show(0), -109),
    (Act::Calls, 0),
];

/// A cutoff of Never stops nothing.
const NEVER: &[(Act, i64)] = &[
    (Act::Var(3), 0),
    (Act::Var(5), 0),
    (Act::Map(Function::Add, 0, 1, 0), 0),
    (Act::Map(Function::Neg, 2, 0, 0), 0),
    (Act::Observe(3), 0),
    (Act::Stabilize, 2),
    (Act::Never(2), 0),
    (Act::Stabilize, 0),
    (Act::Set(0, 5), 0),
    (Act::Set(1, 3), 0),
    (Act::Stabilize, 2),
    (Act::Ran(2), 1),
    (Act::Ran(3), 1),
    (Act::Show(0), -8),
    (Act::Calls, 4),
    (Act::Equal(2), 0),
    (Act::Set(0, 3), 0),
    (Act::Set(1, 5), 0),
    (Act::Stabilize, 1),
    (Act::Ran(2), 1),
    (Act::Ran(3), 0),
    (Act::Calls, 5),
];

/// A variable of cutoff Never is told of the same value.
const NEVER_OF_A_VARIABLE: &[(Act, i64)] = &[
    (Act::Var(1), 0),
    (Act::Var(2), 0),
    (Act::Fold(10, 0, 1, 0), 0),
    (Act::Map(Function::Neg, 2, 0, 0), 0),
    (Act::Observe(3), 0),
    (Act::Never(1), 0),
    (Act::Stabilize, 2),
    (Act::Calls, 4),
    (Act::Set(1, 2), 0),
    (Act::Stabilize, 1),
    (Act::Ran(2), 1),
    (Act::Ran(3), 0),
    (Act::Calls, 7),
    (Act::Set(0, 1), 0),
    (Act::Stabilize, 0),
    (Act::Calls, 7),
];

/// A dead node has no cutoff.
const DEAD_CUTOFF: &[(Act, i64)] = &[
    (Act::Var(1), 0),
    (Act::TakeBack(0), 0),
    (Act::Never(1), 0),
    (Act::Map(Function::Neg, 1, 0, 0), 0),
    (Act::Observe(3), 0),
    (Act::Stabilize, 0),
    (Act::Show(0), -109),
    (Act::Calls, 0),
];

/// A comparison that gives the same tells the choice behind it of that, with cutoff Never.
const NEVER_UNDER_A_CHOICE: &[(Act, i64)] = &[
    (Act::Var(3), 0),
    (Act::Constant(0), 0),
    (Act::Constant(1), 0),
    (Act::Constant(2), 0),
    (Act::Map(Function::Lt, 1, 0, 0), 0),
    (Act::Map(Function::Pick, 4, 2, 3), 0),
    (Act::Observe(5), 0),
    (Act::Stabilize, 2),
    (Act::Never(4), 0),
    (Act::Set(0, 5), 0),
    (Act::Stabilize, 2),
    (Act::Calls, 4),
    (Act::First(4), 1),
    (Act::Ran(5), 1),
    (Act::Show(0), 1),
];

/// What a chain of 128 negations over a variable answers, observed.
const CHAIN_THAT_FITS: &[(Act, i64)] = &[
    (Act::Chain(128), 0),
    (Act::StabilizeOrBack, 128),
    (Act::Show(0), 1),
    (Act::Observe(0), 0),
    (Act::Unobserve(0), 0),
    (Act::Set(0, 2), 0),
    (Act::Constant(1), 0),
    (Act::Var(1), 0),
    (Act::Map(Function::Neg, 0, 0, 0), 0),
    (Act::TakeBack(0), 0),
    (Act::Live(0), 1),
    (Act::Stabilize, 0),
    (Act::Owner(0), 0),
    (Act::Points, 0),
];

/// What a chain of 129 negations over a variable answers, observed.
const CHAIN_THAT_BREAKS: &[(Act, i64)] = &[
    (Act::Chain(129), 0),
    (Act::StabilizeOrBack, -112),
    (Act::Show(0), -101),
    (Act::Observe(0), -101),
    (Act::Unobserve(0), -101),
    (Act::Set(0, 2), -101),
    (Act::Constant(1), -101),
    (Act::Var(1), -101),
    (Act::Map(Function::Neg, 0, 0, 0), -101),
    (Act::TakeBack(0), -101),
    (Act::Live(0), -101),
    (Act::Stabilize, -101),
    (Act::Owner(0), 0),
    (Act::Points, 130),
];

pub(crate) const TABLES: &[&[(Act, i64)]] = &[
    DIAMOND,
    CHOICE,
    CHOICE_TURNED,
    REFERENCE,
    CIRCLE,
    PASSING_CIRCLE,
    PASSING_CIRCLE_TURNED,
    LATE_CIRCLE,
    CHAINS_THAT_CHANGE_PLACES,
    UNOBSERVED,
    TAKEN_BACK,
    FOLD,
    TWINS,
    EMPTY_FOLD,
    FOLD_OVER_DEAD,
    NEVER,
    NEVER_OF_A_VARIABLE,
    NEVER_UNDER_A_CHOICE,
    DEAD_CUTOFF,
    CHAIN_THAT_FITS,
    CHAIN_THAT_BREAKS,
];
