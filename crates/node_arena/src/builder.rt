//! The nodes of an arena while a function builds a right side.
ghost use Rattle.std.specs.Prelude.{◌≡◌, IfOk, IfErr, OnErr, map};
ghost use Rattle.inc_value.specs.Value.{type_of};
ghost use Rattle.inc_value.specs.declared.ty.Ty.TheVariants as ty;
ghost use Rattle.inc_terms.specs.Clock.{IsTimed};
ghost use Rattle.inc_terms.specs.Code.{def_of};
ghost use Rattle.inc_terms.specs.Steps.{step_of};
ghost use Rattle.inc_terms.specs.Graph.{Const, Map, Fold, If, Join, Bind, At, Steps, Now};
ghost use Rattle.inc_terms.specs.Within.{Given};
ghost use Rattle.node_arena.specs.Sound.{IsSoundArena};
ghost use Rattle.node_arena.specs.Building.{building_in, Answers, TellsFault, Adds};

use crate::{AddFault, Arena};
use inc_terms::{Def, Nodes, Step, StepList};
use inc_value::{FnRef, NodeId, Ty, Value};
use std::alloc::{AllocError, Global};
use std::marker::Model;

/// Owns the nodes of an arena while a function builds a right side, and adds nodes to the scope of
/// one bind.
#[derive(Drop)]
pub struct Builder {
    alloc: Global,
    arena: Arena,
    scope: NodeId,
}

impl Model for Builder {
    ghost use Rattle.node_arena.specs.Building.{Building, building_in};
    ghost use Rattle.inc_terms.specs.Within.{Given};

    ghost Value = { Building };

    ghost view = { λ b. building_in b.scope b.arena };

    ghost invariant = { λ b. Given b.arena.given b.scope };
}

impl Builder {
    /// A builder of nodes in the scope of the bind, which takes their memory from `alloc`.
    pub fn new(alloc: Global, arena: Arena, scope: NodeId) -> Builder
        requires { Given arena.given scope }
        ensures { result ≡ building_in scope arena }
    {
        Builder {
            alloc,
            arena,
            scope,
        }
    }

    /// The arena, with what was added.
    pub fn finish(self) -> Arena
        ensures arena { result ≡ self.arena }
        ensures sound { IsSoundArena result }
    {
        self.arena
    }

    /// How many ids the arena has given.
    pub fn given(&self) -> u64
        ensures { result ≡ self.now.arena.given }
    {
        self.arena.given()
    }

    /// Adds a node that always has the value. What is looked at comes in the order of the faults, want
    /// of memory last; a refused call leaves the nodes as they were.
    pub fn constant(&mut self, value: Value) -> Result<NodeId, AddFault>
        ensures answer { Answers self.old.arena (Const value) (type_of value) result }
        ensures told { TellsFault self.old.arena (Const value) (type_of value) result }
        ensures added { IfOk result (λ id. Adds self.old self.new id (Const value) (type_of value)) }
        ensures err { OnErr result (self.new ≡ self.old) }
    {
        let ty = value.ty();
        self.add(Def::Const(value), ty)
    }

    /// Adds a node that applies a function to the values of nodes. Faults as for a constant, but want
    /// of memory may also come first, when the list of nodes is copied.
    pub fn map(&mut self, f: FnRef, kids: &[NodeId]) -> Result<NodeId, AddFault>
        ensures answer { Answers self.old.arena (Map f kids.now) f.sig.gives result }
        ensures added { IfOk result (λ id. Adds self.old self.new id (Map f kids.now) f.sig.gives) }
        ensures err { OnErr result (self.new ≡ self.old) }
    {
        let nodes = self.listed(kids)?;
        self.add(Def::Map(f, nodes), f.sig.gives())
    }

    /// Adds a node that folds the values of nodes by a function of two arguments, from the initial
    /// value on. Faults as for a map.
    pub fn fold(&mut self, f: FnRef, initial: Value, kids: &[NodeId]) -> Result<NodeId, AddFault>
        ensures answer { Answers self.old.arena (Fold f initial kids.now) f.sig.gives result }
        ensures added { IfOk result (λ id. Adds self.old self.new id (Fold f initial kids.now) f.sig.gives) }
        ensures err { OnErr result (self.new ≡ self.old) }
    {
        let nodes = self.listed(kids)?;
        self.add(Def::Fold(f, initial, nodes), f.sig.gives())
    }

    /// Adds a node of the type that shows one node where the test's value is true, and the other where
    /// it is false. Faults as for a constant.
    pub fn if_(&mut self, ty: Ty, test: NodeId, yes: NodeId, no: NodeId) -> Result<NodeId, AddFault>
        ensures answer { Answers self.old.arena (If test yes no) ty result }
        ensures told { TellsFault self.old.arena (If test yes no) ty result }
        ensures added { IfOk result (λ id. Adds self.old self.new id (If test yes no) ty) }
        ensures err { OnErr result (self.new ≡ self.old) }
    {
        self.add(Def::If { test, yes, no }, ty)
    }

    /// Adds a node of the type that shows the node that the kid's value names. Faults as for a constant.
    pub fn join(&mut self, ty: Ty, kid: NodeId) -> Result<NodeId, AddFault>
        ensures answer { Answers self.old.arena (Join kid) ty result }
        ensures told { TellsFault self.old.arena (Join kid) ty result }
        ensures added { IfOk result (λ id. Adds self.old self.new id (Join kid) ty) }
        ensures err { OnErr result (self.new ≡ self.old) }
    {
        self.add(Def::Join(kid), ty)
    }

    /// Adds a bind: a node that shows the right side that the function makes of the left's value and
    /// the captured nodes. Faults as for a map.
    pub fn bind(&mut self, left: NodeId, f: FnRef, captures: &[NodeId]) -> Result<NodeId, AddFault>
        ensures answer { Answers self.old.arena (Bind left f captures.now) f.sig.gives result }
        ensures added { IfOk result (λ id. Adds self.old self.new id (Bind left f captures.now) f.sig.gives) }
        ensures err { OnErr result (self.new ≡ self.old) }
    {
        let nodes = self.listed(captures)?;
        let def = Def::Bind {
            left,
            function: f,
            captures: nodes,
        };
        self.add(def, f.sig.gives())
    }

    /// Adds a node that shows whether the clock has come to a time, in nanoseconds. Faults as for a constant.
    pub fn at(&mut self, time: i64) -> Result<NodeId, AddFault>
        ensures answer { Answers self.old.arena (At time) ty.Bool result }
        ensures told { TellsFault self.old.arena (At time) ty.Bool result }
        ensures added { IfOk result (λ id. Adds self.old self.new id (At time) ty.Bool) }
        ensures err { OnErr result (self.new ≡ self.old) }
    {
        self.add(Def::At(time), Ty::Bool)
    }

    /// Adds a node that shows the first value, and then that of the last step whose time has come, up to the first whose
    /// time hasn't. Faults as for a constant.
    pub fn steps(&mut self, initial: Value, steps: Vec<Step>) -> Result<NodeId, AddFault>
        ensures answer { Answers self.old.arena (Steps initial (map step_of steps.items)) (type_of initial) result }
        ensures told { TellsFault self.old.arena (Steps initial (map step_of steps.items)) (type_of initial) result }
        ensures added { IfOk result (λ id. Adds self.old self.new id (Steps initial (map step_of steps.items)) (type_of initial)) }
        ensures err { OnErr result (self.new ≡ self.old) }
    {
        self.listed_steps(initial, StepList::new(steps))
    }

    /// The same, of a list of steps.
    pub fn listed_steps(&mut self, initial: Value, steps: StepList) -> Result<NodeId, AddFault>
        ensures answer { Answers self.old.arena (Steps initial steps) (type_of initial) result }
        ensures told { TellsFault self.old.arena (Steps initial steps) (type_of initial) result }
        ensures added { IfOk result (λ id. Adds self.old self.new id (Steps initial steps) (type_of initial)) }
        ensures err { OnErr result (self.new ≡ self.old) }
    {
        let ty = initial.ty();
        self.add(Def::Steps(initial, steps), ty)
    }

    /// Adds a node that shows the clock, in nanoseconds. Faults as for a constant.
    pub fn now(&mut self) -> Result<NodeId, AddFault>
        ensures answer { Answers self.old.arena Now ty.Int result }
        ensures told { TellsFault self.old.arena Now ty.Int result }
        ensures added { IfOk result (λ id. Adds self.old self.new id Now ty.Int) }
        ensures err { OnErr result (self.new ≡ self.old) }
    {
        self.add(Def::Now, Ty::Int)
    }

    /// The nodes as a list of a definition.
    fn listed(&self, nodes: &[NodeId]) -> Result<Nodes, AddFault>
        ensures ok { IfOk result (λ list. list ≡ nodes.now) }
        ensures err { IfErr result (λ e. e ≡ AddFault.Memory) }
    {
        match Nodes::from_slice(self.alloc, nodes) {
            Ok(list) => Ok(list),
            Err(AllocError) => Err(AddFault::Memory),
        }
    }

    /// Adds a node to the scope.
    fn add(&mut self, def: Def, ty: Ty) -> Result<NodeId, AddFault>
        requires timed { IsTimed self.old.arena.time (def_of def) }
        ensures answer { Answers self.old.arena (def_of def) ty result }
        ensures told { TellsFault self.old.arena (def_of def) ty result }
        ensures added { IfOk result (λ id. Adds self.old self.new id (def_of def) ty) }
        ensures err { OnErr result (self.new ≡ self.old) }
    {
        self.arena.add(def, ty, Some(self.scope))
    }
}
