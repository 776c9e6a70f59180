//! Why a run stops before its end.
ghost use Rattle.std.specs.Prelude.{◌≡◌};
ghost use Rattle.incr_bench.specs.Status.{of_graph, of_stabilize};

use graph::{GraphFault, Kept, StabilizeFault};
use std::alloc::AllocError;

/// Why a run stops before its end.
#[derive(Clone, Copy)]
pub enum Fault {
    /// The graph refused what was asked of it.
    Refused,

    /// No memory was found.
    Memory,
}

/// Why a call of a graph stops a run.
pub fn of_graph(fault: GraphFault) -> Fault
    ensures { result ≡ of_graph fault }
{
    match fault {
        GraphFault::Memory | GraphFault::Broken(Kept::Memory) => Fault::Memory,
        _ => Fault::Refused,
    }
}

/// Why a refused stabilize stops a run.
pub fn of_stabilize(fault: StabilizeFault) -> Fault
    ensures { result ≡ of_stabilize fault }
{
    match fault {
        StabilizeFault::Refused(Kept::Memory) | StabilizeFault::Broken(Kept::Memory) =>
            Fault::Memory,
        _ => Fault::Refused,
    }
}

impl From<AllocError> for Fault {
    ghost use Rattle.std.specs.Prelude.{◌≡◌};
    ghost use Rattle.incr_bench.specs.declared.fault.Fault.TheVariants.{Memory};

    ghost from_gives = { λ _ f. f ≡ Memory };

    fn from(_fault: AllocError) -> Fault {
        Fault::Memory
    }
}
