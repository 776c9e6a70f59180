//! The words of the command line, and what they ask for.
ghost use Rattle.std.specs.Prelude.{◌≡◌, ◌≤◌, ◌<◌, None, Some, IfSome};
ghost use Rattle.incr_bench.specs.Jobs.{Asks, AsksFor, IsWithin, Writes, most_of, shape_of};
ghost use Rattle.incr_bench.specs.declared.job.Job.{Job as AJob};

use script_io::Word;
use std::convert::AsStr;

/// What is measured.
#[derive(Clone, Copy)]
pub enum Shape {
    /// One variable under a chain of negations, of which the last is observed.
    Chain,

    /// One variable under many negations, all observed.
    Fan,

    /// Variables that are summed pairwise.
    Tree,

    /// Variables that are summed by one fold.
    Fold,

    /// A comparison that stays as it is, with readers behind it.
    Cut,

    /// A comparison that stays as it is and tells its readers all the same.
    Never,

    /// A chain of 10 that changes, beside nodes that don't.
    Idle,

    /// An `if` over two chains of negations of one variable, of which a round chooses the other.
    Flip,

    /// The same, where a round sets the chains' variable too.
    Flipx,

    /// An `if` over two chains of 10 that is flipped, beside nodes that don't change.
    Aside,

    /// A join over variables, of which a round names another.
    Switch,

    /// A bind, whose right side of so many nodes a round builds anew.
    Bind,

    /// A bind of binds, of which a round builds the outer one anew or the inner one, whose right side has so many nodes.
    Nested,

    /// As the fan, where the negation is a function in a box.
    Boxed,

    /// Timers of one span, of which one is due in each round.
    Ticks,

    /// Variables whose observers are watched, of which the first changes in each round.
    Watched,

    /// The same, where another one changes in each round.
    Turns,

    /// The same, where all of them change in each round.
    Told,

    /// Variables that are observed and not watched, all of which change in each round.
    Shown,

    /// Variables whose observers are watched, of which a round ends one.
    Ended,

    /// Variables in the lists of experts, a thousand each, of which a round takes one off and puts it on again.
    Expert,

    /// The same, where that one changes too.
    Expertx,

    /// Freezes that keep a value, of a variable that changes.
    Frozen,

    /// Instruments of a trading screen, of which a round sets the numbers of one: their links, tests and references stay.
    Steady,
}

/// What the words ask for.
#[derive(Clone, Copy)]
pub struct Job {
    pub shape: Shape,
    pub size: usize,
    pub rounds: u64,
}

/// The largest size of a shape: as long as a chain may be, and as many nodes as a graph may have.
fn most(shape: Shape) -> usize
    ensures { result ≡ most_of shape }
{
    match shape {
        Shape::Chain => 128,
        Shape::Flip | Shape::Flipx => 127,
        Shape::Tree => 524_288,
        Shape::Bind | Shape::Nested => 200_000,
        Shape::Steady => 65_536,
        Shape::Fan
        | Shape::Fold
        | Shape::Cut
        | Shape::Never
        | Shape::Idle
        | Shape::Aside
        | Shape::Switch
        | Shape::Boxed
        | Shape::Ticks
        | Shape::Watched
        | Shape::Turns
        | Shape::Told
        | Shape::Shown
        | Shape::Ended
        | Shape::Expert
        | Shape::Expertx
        | Shape::Frozen => 1_000_000,
    }
}

/// The shape that a word names.
fn shape_named(name: &str) -> Option<Shape>
    ensures { result ≡ shape_of name.now }
{
    match name {
        "chain" => Some(Shape::Chain),
        "fan" => Some(Shape::Fan),
        "tree" => Some(Shape::Tree),
        "fold" => Some(Shape::Fold),
        "cut" => Some(Shape::Cut),
        "never" => Some(Shape::Never),
        "idle" => Some(Shape::Idle),
        "flip" => Some(Shape::Flip),
        "flipx" => Some(Shape::Flipx),
        "aside" => Some(Shape::Aside),
        "switch" => Some(Shape::Switch),
        "bind" => Some(Shape::Bind),
        "nested" => Some(Shape::Nested),
        "boxed" => Some(Shape::Boxed),
        "ticks" => Some(Shape::Ticks),
        "watched" => Some(Shape::Watched),
        "turns" => Some(Shape::Turns),
        "told" => Some(Shape::Told),
        "shown" => Some(Shape::Shown),
        "ended" => Some(Shape::Ended),
        "expert" => Some(Shape::Expert),
        "expertx" => Some(Shape::Expertx),
        "frozen" => Some(Shape::Frozen),
        "steady" => Some(Shape::Steady),
        _ => None,
    }
}

/// The number that a word writes.
fn number(word: &Word) -> Option<u64>
    ensures { Writes word.now result }
{
    word.as_str().parse::<u64>().ok()
}

/// A job of a shape, where its size is from 1 to the shape's largest.
fn sized(shape: Shape, size: u64, rounds: u64) -> Option<Job>
    ensures some { IfSome result (λ job. job ≡ record { shape = shape; size = size; rounds = rounds }) }
    ensures fits { IfSome result (λ job. job.size ≤ most_of job.shape) }
    ensures within { IfSome result IsWithin }
    ensures none { result ≡ None → 0 < size → size ≤ most_of shape → ⊥ }
{
    let size = size as usize;
    if size >= 1 && size <= most(shape) {
        Some(Job {
            shape,
            size,
            rounds,
        })
    } else {
        None
    }
}

/// The job for which a shape's name, its size and the rounds ask.
fn read(name: &Word, size: &Word, rounds: &Word) -> Option<Job>
    ensures asked { IfSome result (Asks name.now size.now rounds.now) }
    ensures within { IfSome result IsWithin }
    ensures none { result ≡ None → (job : AJob) → Asks name.now size.now rounds.now job → ⊥ }
{
    let shape = shape_named(name.as_str())?;
    let size = number(size)?;
    let rounds = number(rounds)?;
    sized(shape, size, rounds)
}

/// What the words of the command line ask for, of which the first is the program's name.
pub fn asked(words: &[Word]) -> Option<Job>
    ensures asked { IfSome result (AsksFor words.now) }
    ensures within { IfSome result IsWithin }
    ensures none { result ≡ None → (job : AJob) → AsksFor words.now job → ⊥ }
{
    match words {
        [_, name, size, rounds] => read(name, size, rounds),
        _ => None,
    }
}
