//! The answer to a node that is added in a right side.
ghost use Rattle.std.specs.Prelude.{◌≡◌, IsErrOf};
ghost use Rattle.function_kit.specs.Making.{build_answer};

use inc_value::NodeId;
use node_arena::{AddFault, BuildFault};

/// The node that was added, where the ids that it names were given and its types fit.
pub(crate) fn added(answer: Result<NodeId, AddFault>) -> Result<NodeId, BuildFault>
    requires given { ¬ IsErrOf answer AddFault.Unknown }
    requires typed { ¬ IsErrOf answer AddFault.WrongType }
    ensures { result ≡ build_answer answer }
{
    match answer {
        Ok(id) => Ok(id),
        Err(fault) => Err(BuildFault::from_add(fault)),
    }
}
