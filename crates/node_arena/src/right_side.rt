//! Right sides built in an arena.
ghost use Rattle.std.specs.Prelude.{◌≡◌, ◌-◌, IfOk, IsErrOf, IsTrue};
ghost use Rattle.inc_value.specs.declared.function.FnKind.TheVariants.{Rhs};
ghost use Rattle.inc_terms.specs.Within.{Given};
ghost use Rattle.node_arena.specs.Arena.{IsFull};
ghost use Rattle.node_arena.specs.Building.{building_in, Grows};
ghost use Rattle.node_arena.specs.Sound.{IsSoundArena};
ghost use Rattle.node_arena.specs.RightSide.{MayBuild, IsRoot, SameMeaning, one_built};

use crate::{Arena, BuildFault, Builder, Functions};
use inc_value::{FnRef, NodeId, Value};
use std::alloc::Global;
use std::mem;

impl Arena {
    /// Builds the right side that a known function makes of the left value, in the scope of a bind in
    /// which no node stands: adds nodes, and gives the root, which reads back as the function's term
    /// with the captures put in. Ids that were given keep their rows; new nodes, also those that a
    /// refused call leaves, stand in the scope, call functions that this one lists, and are few enough.
    /// It is refused as full only where no further node can be added.
    pub fn build<F: Functions>(
        &mut self,
        alloc: Global,
        functions: &mut F,
        scope: NodeId,
        f: FnRef,
        left: &Value,
        captures: &[NodeId],
    ) -> Result<NodeId, BuildFault>
        requires scope { Given self.old.given scope }
        requires sound { F.is_sound functions.old }
        requires known { IsTrue (F.known functions.old f) }
        requires kind { f.id.kind ≡ Rhs }
        requires ready { MayBuild (building_in scope self.old) f.sig (F.right functions.old f) left.now captures.now }
        ensures sound { F.is_sound functions.new }
        ensures arena { IsSoundArena self.new }
        ensures grows { Grows (F.right functions.old f).uses (building_in scope self.old) (building_in scope self.new)
            (F.right functions.old f).size }
        ensures root { IfOk result (λ n. IsRoot (building_in scope self.new) captures.now n
            ((F.right functions.old f).term left.now) f.sig.gives) }
        ensures full { IsErrOf result BuildFault.Full → IsFull self.new }
        ensures tally { F.tally functions.new ≡ one_built (self.new.given - self.old.given) (F.tally functions.old) }
        ensures calls { F.calls functions.new ≡ F.calls functions.old }
        ensures wants { F.wants functions.new ≡ F.wants functions.old }
        ensures same { SameMeaning (F.named functions.old) (F.named functions.new) (F.known functions.old) (F.known functions.new)
            (F.value functions.old) (F.value functions.new) (F.right functions.old) (F.right functions.new) }
    {
        let held = mem::replace(self, Arena::new(alloc));
        let mut builder = Builder::new(alloc, held, scope);
        let root = functions.build(alloc, f, left, captures, &mut builder);
        *self = builder.finish();
        root
    }
}
