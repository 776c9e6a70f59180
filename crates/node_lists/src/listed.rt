//! Nodes in a list from which the dead go once they are many.
ghost use Rattle.std.specs.Prelude.{◌≡◌, ◌<◌, ◌≤◌, ◌++◌, ◌+◌, ◌-◌, ◌^◌, [], ◌∷◌, length, take, slice_get, is_some, Some, IsOk, IsTrue, OnOk};
ghost use Rattle.inc_value.specs.Choice.{Among};
ghost use Rattle.inc_value.specs.Counts.{raised};
ghost use Rattle.inc_value.specs.declared.node.NodeId.{NodeId as ANode};
ghost use Rattle.node_arena.specs.Arena.{IsLive, row_at, Arena as AnArena};
ghost use Rattle.node_lists.specs.Listed.{most_live, CountsLive, IsTidied, AreInOrder, Dies, live_ones, given_before};

use inc_value::NodeId;
use node_arena::Arena;
use std::alloc::{AllocError, Global};
use std::marker::Model;

/// Nodes of one kind. Dead ones stay until more than half are counted dead, so that the list costs what was put into it.
/// Only `reserve` takes memory.
pub struct Listed {
    nodes: Vec<NodeId>,
    dead: usize,
    // Whether the nodes stand in the order in which their ids were given. Then those of since a count are the last.
    in_order: bool,
}

// (written out: whoever drops one proves one call, and no drop of its parts)
impl Drop for Listed {
    fn drop(self) {
        let Listed {
            nodes,
            dead: _,
            in_order: _,
        } = self;
        drop(nodes);
    }
}

impl Model for Listed {
    ghost use Rattle.std.specs.Prelude.{◌-◌, IsTrue, vec_len, vec_capacity};
    ghost use Rattle.node_lists.specs.Listed.{Listed as Seen, AreInOrder};

    ghost Value = { Seen };

    ghost view = { λ l. record { nodes = l.nodes.items; dead = l.dead; spare = vec_capacity l.nodes - vec_len l.nodes } };

    ghost invariant = { λ l. IsTrue l.in_order → AreInOrder l.nodes.items };
}

/// Whether a node is live.
fn is_live(arena: &Arena, node: NodeId) -> bool
    ensures { result ≡ is_some (row_at arena.now node) }
{
    arena.is_live(node)
}

/// Whether the nodes are still in order once another is put behind them.
fn still_in_order(in_order: bool, nodes: &[NodeId], node: NodeId) -> bool
    requires order { IsTrue in_order → AreInOrder nodes.now }
    ensures order { IsTrue result → AreInOrder (nodes.now ++ node ∷ []) }
{
    if !in_order {
        return false;
    }
    match nodes.last() {
        Some(last) => last.gen_ <= node.gen_,
        None => true,
    }
}

/// Where the nodes begin whose ids weren't given before the count.
fn start_of(nodes: &[NodeId], count: u64) -> usize
    requires order { AreInOrder nodes.now }
    ensures { take result nodes.now ≡ given_before count nodes.now }
{
    nodes.partition_point(|node| node.gen_ < count)
}

impl Listed {
    /// No nodes. This takes no memory.
    pub fn new(alloc: Global) -> Listed
        ensures nodes { result.nodes ≡ [] }
        ensures dead { result.dead ≡ 0 }
        ensures spare { result.spare ≡ 0 }
        ensures counts { (a : AnArena) → CountsLive a result }
    {
        Listed {
            nodes: Vec::new(alloc),
            dead: 0,
            in_order: true,
        }
    }

    /// How many nodes there are, dead ones too.
    pub fn len(&self) -> usize
        ensures { result ≡ length self.now.nodes }
    {
        self.nodes.len()
    }

    /// How many nodes aren't counted dead. No more are live where no more were forgotten than died.
    pub fn live(&self) -> usize
        ensures live { result ≡ most_live self.now }
        ensures fits { result + 1 < 2 ^ 64 }
    {
        self.nodes.len().saturating_sub(self.dead)
    }

    /// The node at a place.
    pub fn at(&self, place: usize) -> NodeId
        requires { place < length self.now.nodes }
        ensures { slice_get self.now.nodes place ≡ Some result }
    {
        self.nodes[place]
    }

    /// Makes room for one more node. Where more than half are counted dead, all dead ones go. Live nodes stay listed.
    pub fn reserve(&mut self, arena: &Arena) -> Result<(), AllocError>
        ensures tidied { IsTidied arena.now self.old self.new }
        ensures kept { (n : ANode) → IsLive arena.now n → Among n self.old.nodes → Among n self.new.nodes }
        ensures fewer { (n : ANode) → Among n self.new.nodes → Among n self.old.nodes }
        ensures counts { (a : AnArena) → CountsLive a self.old → CountsLive a self.new }
        ensures live { CountsLive arena.now self.old → most_live self.new ≤ most_live self.old }
        ensures room { OnOk result (0 < self.new.spare) }
        ensures spare { self.old.spare ≤ self.new.spare }
        ensures succeeds { 0 < self.old.spare → IsOk result }
    {
        self.tidy(arena);
        self.nodes.reserve(1)
    }

    /// Where more than half are counted dead, all dead ones go.
    fn tidy(&mut self, arena: &Arena)
        ensures tidied { IsTidied arena.now self.old self.new }
        ensures spare { self.old.spare ≤ self.new.spare }
    {
        if self.dead > self.nodes.len() / 2 {
            self.keep_live(arena);
        }
    }

    /// The dead go.
    fn keep_live(&mut self, arena: &Arena)
        ensures nodes { self.new.nodes ≡ live_ones arena.now self.old.nodes }
        ensures dead { self.new.dead ≡ 0 }
        ensures spare { self.old.spare ≤ self.new.spare }
    {
        self.nodes.retain(|node| is_live(arena, *node));
        self.dead = 0;
    }

    /// Puts a node into the list. It takes one of the spare places.
    pub fn add(&mut self, node: NodeId)
        requires spare { 0 < self.old.spare }
        ensures nodes { self.new.nodes ≡ self.old.nodes ++ node ∷ [] }
        ensures dead { self.new.dead ≡ self.old.dead }
        ensures spare { self.new.spare + 1 ≡ self.old.spare }
        ensures counts { (a : AnArena) → CountsLive a self.old → CountsLive a self.new }
        ensures live { most_live self.new ≤ most_live self.old + 1 }
    {
        self.in_order = still_in_order(self.in_order, self.nodes.as_slice(), node);
        self.nodes.push_reserved(node);
    }

    /// One of the nodes dies, and is counted dead.
    pub fn count_dead(&mut self)
        ensures nodes { self.new.nodes ≡ self.old.nodes }
        ensures dead { self.new.dead ≡ raised self.old.dead }
        ensures spare { self.new.spare ≡ self.old.spare }
        ensures counts { (a b : AnArena) (n : ANode) → Dies a b n self.old.nodes → CountsLive a self.old → CountsLive b self.new }
        ensures live { (a b : AnArena) (n : ANode) → Dies a b n self.old.nodes → CountsLive a self.old
            → most_live self.new + 1 ≡ most_live self.old }
    {
        self.dead = self.dead.saturating_add(1);
    }

    /// Just the nodes stay whose ids were given before the count. Where the nodes are in order this looks at few others.
    pub fn forget_since(&mut self, count: u64)
        ensures nodes { self.new.nodes ≡ given_before count self.old.nodes }
        ensures kept { (n : ANode) → n.gen_ < count → Among n self.old.nodes → Among n self.new.nodes }
        ensures forgotten { (n : ANode) → Among n self.new.nodes → n.gen_ < count }
        ensures fewer { (n : ANode) → Among n self.new.nodes → Among n self.old.nodes }
        ensures dead { self.new.dead ≡ self.old.dead - (length self.old.nodes - length self.new.nodes) }
        ensures counts { (a : AnArena) → CountsLive a self.old → CountsLive a self.new }
        ensures live { most_live self.new ≤ most_live self.old }
        ensures spare { self.old.spare ≤ self.new.spare }
    {
        let before = self.len();
        self.keep_before(count);
        let gone = before.saturating_sub(self.len());
        self.uncount(gone);
    }

    /// Just the nodes stay whose ids were given before the count.
    fn keep_before(&mut self, count: u64)
        ensures nodes { self.new.nodes ≡ given_before count self.old.nodes }
        ensures dead { self.new.dead ≡ self.old.dead }
        ensures spare { self.old.spare ≤ self.new.spare }
    {
        if self.in_order {
            let start = start_of(self.nodes.as_slice(), count);
            self.nodes.truncate(start);
            return;
        }
        self.nodes.retain(|node| node.gen_ < count);
    }

    /// So many nodes fewer are counted dead, or none.
    fn uncount(&mut self, gone: usize)
        ensures nodes { self.new.nodes ≡ self.old.nodes }
        ensures dead { self.new.dead ≡ self.old.dead - gone }
        ensures spare { self.new.spare ≡ self.old.spare }
    {
        self.dead = self.dead.saturating_sub(gone);
    }
}
