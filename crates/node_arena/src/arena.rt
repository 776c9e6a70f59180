//! The nodes of a graph by id.
ghost use Rattle.std.specs.Prelude.{◌≡◌, ◌+◌, ◌-◌, ◌<◌, ◌^◌, ◌↔◌, ◌≤ℤ◌, pos, Some, None, IfOk, IfSome, IfNone, OnOk, OnErr, IsErrOf, IsTrue, option_copied, option_map};
ghost use Rattle.inc_value.specs.declared.node.NodeId.{NodeId};
ghost use Rattle.inc_terms.specs.Clock.{IsTimed};
ghost use Rattle.inc_terms.specs.Code.{def_of};
ghost use Rattle.inc_terms.specs.Within.{Given};
ghost use Rattle.node_arena.specs.Arena.{row_of, row_at, live, IsLive, IsFull, Changes, NamesGiven};
ghost use Rattle.node_arena.specs.Sound.{IsSoundArena, IsFirstSince};
ghost use Rattle.node_arena.specs.Typing.{Makes, IsAddable};

mod order;
mod typing;
mod variable;

use inc_terms::Def;
use inc_value::{NodeId, Ty};
use order::{first_live, make_room, start_of};
use slab::Slab;
use std::alloc::{AllocError, Global};
use std::marker::Model;
use thiserror::Error;
use typing::{makes, names_given};
pub use variable::SetFault;

/// The most nodes that are live at once.
const MAX_LIVE: usize = 1_048_576;

/// A live node: what it is, the type of its values, and the bind in whose scope it stands.
#[derive(Drop)]
pub struct Row {
    pub def: Def,
    pub ty: Ty,
    pub scope: Option<NodeId>,
}

/// A slot that is taken, with the generation of its node.
#[derive(Drop)]
struct Entry {
    gen_: u64,
    row: Row,
}

/// The live nodes of a graph, and the time by which they are read. An id is given once: a node that was dropped never
/// lives again.
pub struct Arena {
    nodes: Slab<Entry>,
    // Given ids by rising generation, all that are live among them.
    order: Vec<NodeId>,
    given: u64,
    time: i64,
}

// (written out: whoever drops one proves one call, and no drop of its parts)
impl Drop for Arena {
    fn drop(self) {
        let Arena {
            nodes,
            order,
            given: _,
            time: _,
        } = self;
        drop(nodes);
        drop(order);
    }
}

impl Model for Arena {
    ghost use Rattle.node_arena.specs.Arena as spec;

    ghost Value = { spec.Arena };

    ghost view = { λ a. record { slots = a.nodes.slots; given = a.given; time = a.time } };

    ghost use Rattle.node_arena.specs.Sound.{IsKept};

    ghost invariant = { λ a. IsKept (record { slots = a.nodes.slots; given = a.given; time = a.time }) a.order.items };
}

/// Why a node isn't added.
#[derive(Clone, Copy, Debug, PartialEq, Eq, Error)]
pub enum AddFault {
    /// It names a node whose id was never given.
    #[error("a node's id was never given")]
    Unknown,
    /// The types don't fit.
    #[error("the types don't fit")]
    WrongType,
    /// There are 1,048,576 live nodes, or every id was given.
    #[error("no further node can be added")]
    Full,
    /// There is no memory for it.
    #[error("out of memory")]
    Memory,
}

impl Arena {
    /// An arena without nodes, which takes its memory from `alloc`.
    pub fn new(alloc: Global) -> Arena
        ensures empty { (n : NodeId) → row_at result n ≡ None }
        ensures live { live result ≡ 0 }
        ensures given { result.given ≡ 0 }
        ensures time { result.time ≡ pos 0 }
        ensures sound { IsSoundArena result }
    {
        Arena {
            nodes: Slab::new(alloc),
            order: Vec::new(alloc),
            given: 0,
            time: 0,
        }
    }

    /// The row of a node that is live.
    pub fn get(&self, id: NodeId) -> Option<&Row>
        ensures { option_map row_of (option_copied result) ≡ row_at self.now id }
    {
        match self.nodes.get(id.slot) {
            Some(entry) if entry.gen_ == id.gen_ => Some(&entry.row),
            _ => None,
        }
    }

    /// Whether the node is live.
    pub fn is_live(&self, id: NodeId) -> bool
        ensures { IsTrue result ↔ IsLive self.now id }
    {
        self.get(id).is_some()
    }

    /// How many nodes are live, at most 1,048,576.
    pub fn live(&self) -> u32
        ensures { result ≡ live self.now }
    {
        self.nodes.len() as u32
    }

    /// How many ids were given. An id was given exactly where its generation is below.
    pub fn given(&self) -> u64
        ensures { result ≡ self.now.given }
    {
        self.given
    }

    /// The time by which the nodes are read, in nanoseconds.
    pub fn time(&self) -> i64
        ensures { result ≡ self.now.time }
    {
        self.time
    }

    /// Moves the time on to one in nanoseconds, not before the present one.
    pub fn move_to(&mut self, time: i64)
        requires forward { self.old.time ≤ℤ time }
        ensures time { self.new.time ≡ time }
        ensures rows { (n : NodeId) → row_at self.new n ≡ row_at self.old n }
        ensures live { live self.new ≡ live self.old }
        ensures given { self.new.given ≡ self.old.given }
        ensures sound { IsSoundArena self.new }
    {
        self.time = time;
    }

    /// Whether such a node can be added, whatever memory there is. What is looked at comes in the order of the faults.
    pub fn admits(&self, def: &Def, ty: Ty) -> Result<(), AddFault>
        ensures fits { OnOk result (IsAddable self.now (def_of def.now) ty) }
        ensures unknown { IsErrOf result AddFault.Unknown ↔ ¬ NamesGiven self.now.given (def_of def.now) }
        ensures wrong_type { IsErrOf result AddFault.WrongType
            ↔ (NamesGiven self.now.given (def_of def.now) × ¬ Makes self.now (def_of def.now) ty) }
        ensures full { IsErrOf result AddFault.Full
            ↔ (NamesGiven self.now.given (def_of def.now) × Makes self.now (def_of def.now) ty × IsFull self.now) }
        ensures memory { ¬ IsErrOf result AddFault.Memory }
    {
        if !names_given(self.given, def) {
            return Err(AddFault::Unknown);
        }
        if !makes(self, def, ty) {
            return Err(AddFault::WrongType);
        }
        if self.nodes.len() >= MAX_LIVE || self.given == u64::MAX {
            return Err(AddFault::Full);
        }
        Ok(())
    }

    /// Adds a node of values of type `ty`, and gives its id. What is looked at comes in the order
    /// of the faults; a refused call leaves the arena as it was.
    pub fn add(&mut self, def: Def, ty: Ty, scope: Option<NodeId>) -> Result<NodeId, AddFault>
        requires scope { IfSome scope (Given self.old.given) }
        requires timed { IsTimed self.old.time (def_of def) }
        ensures addable { OnOk result (IsAddable self.old (def_of def) ty) }
        ensures id { IfOk result (λ id. id.gen_ ≡ self.old.given) }
        ensures slot { IfOk result (λ id. id.slot < 1048576) }
        ensures fresh { IfOk result (λ id. row_at self.old id ≡ None) }
        ensures added { IfOk result (λ id. Changes self.old self.new id
            (Some (record { def = def_of def; ty = ty; scope = scope }))) }
        ensures keeps { (n : NodeId) → Given self.old.given n → row_at self.new n ≡ row_at self.old n }
        ensures live { OnOk result (live self.new ≡ live self.old + 1) }
        ensures given { OnOk result (self.new.given ≡ self.old.given + 1) }
        ensures sound { OnOk result (IsSoundArena self.new) }
        ensures unknown { IsErrOf result AddFault.Unknown ↔ ¬ NamesGiven self.old.given (def_of def) }
        ensures wrong_type { IsErrOf result AddFault.WrongType
            ↔ (NamesGiven self.old.given (def_of def) × ¬ Makes self.old (def_of def) ty) }
        ensures full { IsErrOf result AddFault.Full
            ↔ (NamesGiven self.old.given (def_of def) × Makes self.old (def_of def) ty × IsFull self.old) }
        ensures err { OnErr result (self.new ≡ self.old) }
    {
        if let Err(fault) = self.admits(&def, ty) {
            drop(def);
            return Err(fault);
        }
        let id = self.next_id();
        match self.insert(id, Row { def, ty, scope }) {
            Ok(()) => Ok(id),
            Err(AllocError) => Err(AddFault::Memory),
        }
    }

    /// The id that the next node gets. No live node stands in its slot.
    pub fn next_id(&self) -> NodeId
        ensures generation { result.gen_ ≡ self.now.given }
        ensures fresh { row_at self.now result ≡ None }
        ensures vacant { (n : NodeId) → n.slot ≡ result.slot → row_at self.now n ≡ None }
    {
        NodeId {
            slot: self.nodes.vacant_key(),
            gen_: self.given,
        }
    }

    /// Adds a node that can be added, under the id that [`next_id`](Arena::next_id) gives. Without memory, or under
    /// another id, the arena stays as it was.
    pub fn insert(&mut self, id: NodeId, row: Row) -> Result<(), AllocError>
        requires fits { IsAddable self.old (def_of row.def) row.ty }
        requires scope { IfSome row.scope (Given self.old.given) }
        requires timed { IsTimed self.old.time (def_of row.def) }
        ensures id { OnOk result (id.gen_ ≡ self.old.given) }
        ensures slot { OnOk result (id.slot < 1048576) }
        ensures fresh { OnOk result (row_at self.old id ≡ None) }
        ensures added { OnOk result (Changes self.old self.new id (Some (row_of row))) }
        ensures keeps { (n : NodeId) → Given self.old.given n → row_at self.new n ≡ row_at self.old n }
        ensures live { OnOk result (live self.new ≡ live self.old + 1) }
        ensures given { OnOk result (self.new.given ≡ self.old.given + 1) }
        ensures sound { OnOk result (IsSoundArena self.new) }
        ensures err { OnErr result (self.new ≡ self.old) }
    {
        // The slab uses free slots first, so the slot is below; its contract doesn't say so.
        let next = self.nodes.vacant_key();
        if next >= MAX_LIVE || id.slot != next || id.gen_ != self.given {
            drop(row);
            return Err(AllocError);
        }
        if make_room(&self.nodes, &mut self.order).is_err() {
            drop(row);
            return Err(AllocError);
        }
        let gen_ = self.given;
        let slot = self.nodes.insert(Entry { gen_, row })?;
        self.order.push_reserved(NodeId { slot, gen_ });
        self.given += 1;
        Ok(())
    }

    /// Drops a live node. Its id is never given again.
    pub fn drop_node(&mut self, id: NodeId)
        requires { IsLive self.old id }
        ensures dropped { Changes self.old self.new id None }
        ensures live { live self.new + 1 ≡ live self.old }
        ensures given { self.new.given ≡ self.old.given }
        ensures sound { IsSoundArena self.new }
    {
        self.nodes.remove(id.slot);
    }

    /// The live node that was given first of those whose generation is not below the count. So the
    /// live nodes that were given since are walked by `first_since(count)` and, after each `id`,
    /// `first_since(id.gen_ + 1)`, also while nodes are added or dropped. From 0 on these are all
    /// live nodes.
    pub fn first_since(&self, count: u64) -> Option<NodeId>
        ensures some { IfSome result (λ id. IsFirstSince self.now count id) }
        ensures none { IfNone result ((n : NodeId) → IsLive self.now n → n.gen_ < count) }
    {
        let order = self.order.as_slice();
        first_live(self, order, start_of(order, count))
    }
}
