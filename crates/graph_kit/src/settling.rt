//! A stabilize, with what it means for maps that are seen together with their children.
ghost use Rattle.std.specs.Prelude.{◌≡◌, ◌↔◌, IsErrOf, OnOk};
ghost use Rattle.inc_value.specs.declared.node.ObsId.{ObsId};
ghost use Rattle.node_arena.specs.Meanings.{SameValues};
ghost use Rattle.graph.specs.Standing.{IsBroken, node_at};
ghost use Rattle.graph.specs.declared.fault.Kept.{Kept};
ghost use Rattle.graph_kit.specs.Settled.{MapsAreRight, SeenStay};

use graph::{Graph, StabilizeFault};
use node_arena::Functions;

/// Brings all that is observed up to date. For `Graph::stabilize`, whose contract says more. Of each map that is observed with its
/// children, and shows a value as they do, that value is what its function gives of theirs.
pub fn settle<F: Functions>(graph: &mut Graph<F>) -> Result<(), StabilizeFault>
    ensures broken { (cause : Kept) → IsErrOf result (StabilizeFault.Broken cause) ↔ IsBroken graph.old cause }
    ensures maps { OnOk result (MapsAreRight (F.value graph.old.functions) graph.new) }
    ensures rows { OnOk result (SeenStay graph.old graph.new) }
    ensures observers { OnOk result ((o : ObsId) → node_at graph.new.observers o ≡ node_at graph.old.observers o) }
    ensures values { SameValues (F.value graph.old.functions) (F.value graph.new.functions) }
{
    graph.keeps_sound();
    graph.stabilize()
}
