//! Where a change of a node's outcome ends.
ghost use Rattle.std.specs.Prelude.{◌↔◌, IsTrue, Some};
ghost use Rattle.map_nodes.specs.Cutoff.{IsStopped};

use inc_value::Outcome;

/// Which new outcomes of a node are told to its readers.
#[derive(Clone, Copy, PartialEq, Eq)]
pub enum Cutoff {
    /// Those that differ from the one before.
    Equal,
    /// All.
    Never,
}

/// Whether a node's readers needn't be told of its new outcome.
pub fn stops(cutoff: Cutoff, old: &Outcome, new: &Outcome) -> bool
    ensures { IsTrue result ↔ IsStopped cutoff (Some old.now) new.now }
{
    match cutoff {
        Cutoff::Equal => old.same(new),
        Cutoff::Never => false,
    }
}
