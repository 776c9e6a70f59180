//! The right sides of a script's bind.
ghost use Rattle.std.specs.Prelude.{◌≡◌, ◌≢◌, ◌↔◌, None, Some, IfOk, IsOk, IsSomeAnd, IsErrOf};
ghost use Rattle.script_functions.specs.Bodies.{IsWhole, type_at, size_of};

use crate::building::build_body;
use crate::{Draft, LineFault, Part};
use inc_value::{NodeId, Sig, Value};
use node_arena::{BuildFault, Builder, RhsFn};
use std::alloc::Global;
use std::marker::Model;

/// The right sides of a script's bind: of a left value, one node for each line.
pub struct Body {
    draft: Draft,
    root: Part,
}

// (written out: whoever drops one proves one call, and no drop of its parts)
impl Drop for Body {
    fn drop(self) {
        let Body { draft, root: _ } = self;
        drop(draft);
    }
}

impl Model for Body {
    ghost use Rattle.script_functions.specs.Bodies as spec;

    ghost Value = { spec.Body };

    ghost view = { λ b. record { draft = b.draft; root = b.root } };

    ghost use Rattle.script_functions.specs.Bodies.{IsWhole};

    ghost invariant = { λ b. IsWhole (record { draft = b.draft; root = b.root }) };
}

impl Body {
    /// The body of the lines that gives the part, which is of the type that the right sides are to have. A refused call
    /// drops the lines.
    pub fn new(draft: Draft, root: Part) -> Result<Body, LineFault>
        ensures made { IfOk result (λ b. b ≡ record { draft = draft; root = root }) }
        ensures fits { IsOk result ↔ (type_at draft root ≡ Some draft.sig.gives) }
        ensures unknown { IsErrOf result LineFault.Unknown ↔ (type_at draft root ≡ None) }
        ensures wrong_type { IsErrOf result LineFault.WrongType ↔ IsSomeAnd (type_at draft root) (λ t. t ≢ draft.sig.gives) }
    {
        match draft.type_of(root) {
            None => Err(LineFault::Unknown),
            Some(ty) if ty != draft.sig().gives() => Err(LineFault::WrongType),
            Some(_) => Ok(Body { draft, root }),
        }
    }

    /// Its lines.
    pub fn draft(&self) -> &Draft
        ensures value { result.now ≡ self.now.draft }
        ensures whole { IsWhole self.now }
    {
        &self.draft
    }

    /// The part that it gives.
    pub fn root(&self) -> Part
        ensures { result ≡ self.now.root }
    {
        self.root
    }

    /// How many nodes a right side takes at most, with those of the scopes within.
    pub fn size(&self) -> u64
        ensures { result ≡ size_of self.now.draft }
    {
        self.draft.size()
    }
}

impl RhsFn for Body {
    ghost use Rattle.node_arena.specs.Meanings.{uncounted};
    ghost use Rattle.script_functions.specs.Bodies.{side_of};

    ghost rhs_sig = { λ b. b.draft.sig };

    ghost rhs = { λ b. side_of b };

    ghost rhs_builds = { λ b. uncounted };

    fn sig(&self) -> Sig {
        self.draft.sig()
    }

    fn build(
        &mut self,
        alloc: Global,
        left: &Value,
        captures: &[NodeId],
        builder: &mut Builder,
    ) -> Result<NodeId, BuildFault> {
        build_body(alloc, self, left, captures, builder)
    }
}
