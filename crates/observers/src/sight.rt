//! What nodes show.
ghost use Rattle.std.specs.Prelude.{◌≡◌, IfSome, IfNone};

use inc_value::{NodeId, Outcome};

/// Tells what nodes show at the end of a round.
pub trait Sight {
    ghost use Rattle.inc_value.specs.declared.node.NodeId.{NodeId};
    ghost use Rattle.inc_value.specs.declared.outcome.Outcome.{Outcome};
    ghost use Rattle.inc_value.specs.declared.outcome.Outcome.TheVariants.{Invalid};

    // what a node shows: a dead one shows Invalid
    ghost shows: { Self → NodeId → Outcome };

    /// What a node shows. None of one that shows Invalid for want of an outcome.
    fn outcome_of(&self, node: NodeId) -> Option<&Outcome>
        ensures some { IfSome result (λ outcome. outcome.now ≡ shows self.now node) }
        ensures none { IfNone result (shows self.now node ≡ Invalid) };
}
