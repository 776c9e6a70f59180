//! Why a call of a graph is refused.
ghost use Rattle.std.specs.Prelude.{◌≡◌, ◌↔◌};
ghost use Rattle.graph.specs.Fault.{kept_of, of_add, of_advance, of_link, of_set, of_unlink, of_unordered, of_untimed};

use inc_value::Ty;
use node_arena::{AddFault, MoreFault, SetFault};
use stabilizer::{AdvanceFault, LinkFault, Refused, UnlinkFault};
use std::alloc::AllocError;
use thiserror::Error;

/// What broke a graph.
#[derive(Clone, Copy, Debug, PartialEq, Eq)]
pub enum Kept {
    /// Points that read in a circle.
    Cycle,
    /// A chain of points that is too long.
    Height,
    /// No further node could be added.
    Full,
    /// There was no memory.
    Memory,
}

/// Why a call of a graph is refused, in the order in which the causes are looked for.
#[derive(Clone, Copy, Debug, PartialEq, Eq, Error)]
pub enum GraphFault {
    /// An earlier stabilize was refused.
    #[error("an earlier stabilize was refused")]
    Broken(Kept),
    /// A node's id was never given, or an observer was never made or is ended.
    #[error("a node or an observer isn't known")]
    Unknown,
    /// The node isn't a live variable.
    #[error("the node isn't a live variable")]
    NotVar,
    /// The node isn't a live expert.
    #[error("the node isn't a live expert")]
    NotExpert,
    /// The types don't fit.
    #[error("the types don't fit")]
    WrongType,
    /// The time is before the present one.
    #[error("the time is before the present one")]
    Back,
    /// The time is past the greatest.
    #[error("the time is past the greatest")]
    Range,
    /// The spans to be counted are empty, or their base is below 0 or wasn't reached yet.
    #[error("no such spans can be counted")]
    Span,
    /// The times of steps don't rise strictly.
    #[error("the times don't rise strictly")]
    Order,
    /// No stabilize was accepted since the observer was made.
    #[error("no stabilize was accepted since the observer was made")]
    NotStabilized,
    /// The node isn't in the expert's list.
    #[error("the node isn't in the expert's list")]
    NotLinked,
    /// The expert's list has 4,096 nodes.
    #[error("the expert's list has 4096 nodes")]
    LinksFull,
    /// There are 4,294,967,295 observers, or as many functions are kept as can be.
    #[error("no further observer can be made, or no further function kept")]
    TooMany,
    /// There are 1,048,576 live nodes, or every id was given.
    #[error("no further node can be added")]
    Full,
    /// There is no memory.
    #[error("out of memory")]
    Memory,
}

/// Why a stabilize is refused. What it met is told by `Graph::broken`.
#[derive(Clone, Copy, Debug, PartialEq, Eq, Error)]
pub enum StabilizeFault {
    /// This stabilize was refused, which broke the graph.
    #[error("the stabilize was refused")]
    Refused(Kept),
    /// An earlier stabilize was refused.
    #[error("an earlier stabilize was refused")]
    Broken(Kept),
}

/// What breaks a graph where a stabilize is refused.
pub(crate) fn cause_of(refused: &Refused) -> Kept
    ensures { result ≡ kept_of refused.now }
{
    match refused {
        Refused::Cycle(_) => Kept::Cycle,
        Refused::Height(_) => Kept::Height,
        Refused::Full => Kept::Full,
        Refused::Memory => Kept::Memory,
    }
}

/// Why a node isn't added.
pub(crate) fn add_fault(fault: AddFault) -> GraphFault
    ensures { result ≡ of_add fault }
{
    match fault {
        AddFault::Unknown => GraphFault::Unknown,
        AddFault::WrongType => GraphFault::WrongType,
        AddFault::Full => GraphFault::Full,
        AddFault::Memory => GraphFault::Memory,
    }
}

/// Why a node isn't added that counts spans, of which there are none, or none yet: a count is an integer.
pub(crate) fn untimed_fault(ty: Ty) -> GraphFault
    ensures { result ≡ of_untimed ty }
{
    match ty {
        Ty::Int => GraphFault::Span,
        Ty::Bool | Ty::Text | Ty::Node(_) => GraphFault::WrongType,
    }
}

/// Why steps aren't added whose times don't rise: what is looked at before the times may be refused first.
pub(crate) fn order_fault(admitted: Result<(), AddFault>) -> GraphFault
    ensures { result ≡ of_unordered admitted }
{
    match admitted {
        Err(AddFault::Unknown) => GraphFault::Unknown,
        Err(AddFault::WrongType) => GraphFault::WrongType,
        Ok(()) | Err(AddFault::Full) | Err(AddFault::Memory) => GraphFault::Order,
    }
}

/// Why the time isn't moved on.
pub(crate) fn advance_fault(fault: AdvanceFault) -> GraphFault
    ensures { result ≡ of_advance fault }
{
    match fault {
        AdvanceFault::Back => GraphFault::Back,
        AdvanceFault::Memory => GraphFault::Memory,
    }
}

/// Why a node isn't put behind an expert's list.
pub(crate) fn link_fault(fault: LinkFault) -> GraphFault
    ensures { result ≡ of_link fault }
{
    match fault {
        LinkFault::LinksFull => GraphFault::LinksFull,
        LinkFault::Memory => GraphFault::Memory,
    }
}

/// Why a node isn't taken off an expert's list.
pub(crate) fn unlink_fault(fault: UnlinkFault) -> GraphFault
    ensures { result ≡ of_unlink fault }
{
    match fault {
        UnlinkFault::NotLinked => GraphFault::NotLinked,
    }
}

/// Why a function isn't kept.
pub(crate) fn more_fault(fault: MoreFault) -> GraphFault
    ensures too_many { (result ≡ GraphFault.TooMany) ↔ (fault ≡ MoreFault.TooMany) }
    ensures memory { (result ≡ GraphFault.Memory) ↔ (fault ≡ MoreFault.Memory) }
{
    match fault {
        MoreFault::TooMany => GraphFault::TooMany,
        MoreFault::Memory => GraphFault::Memory,
    }
}

/// Why a variable isn't set.
pub(crate) fn set_fault(fault: SetFault) -> GraphFault
    ensures { result ≡ of_set fault }
{
    match fault {
        SetFault::Unknown => GraphFault::Unknown,
        SetFault::NotVar => GraphFault::NotVar,
        SetFault::WrongType => GraphFault::WrongType,
    }
}

impl From<AllocError> for GraphFault {
    ghost use Rattle.std.specs.Prelude.{◌≡◌};
    ghost use Rattle.graph.specs.declared.fault.GraphFault.TheVariants.{Memory};

    ghost from_gives = { λ _ f. f ≡ Memory };

    fn from(_fault: AllocError) -> GraphFault {
        GraphFault::Memory
    }
}
