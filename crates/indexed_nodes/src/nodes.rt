//! Nodes in a list, with an index.
ghost use Rattle.std.specs.Prelude.{◌≡◌, ◌<◌, ◌≤◌, ◌+◌, ◌++◌, [], ◌∷◌, length, slice_get, IfSome, IfNone, IsOk, OnOk, None, Some};
ghost use Rattle.indexed_nodes.specs.Indexed.{IsFirst, IsNowhere, key_of};
ghost use Rattle.point_map.specs.Rows.{at, Changes, Holds};

use inc_value::{NodeId, Part, Point};
use point_map::PointMap;
use std::alloc::{AllocError, Global};
use std::marker::Model;

/// Nodes in a list, and an index that has the first position of each. A contract sees the list. `reserve` makes room, and no
/// other call takes memory.
pub struct IndexedNodes {
    nodes: Vec<NodeId>,
    firsts: PointMap<usize>,
}

// (written out: whoever drops one proves one call, and no drop of its parts)
impl Drop for IndexedNodes {
    fn drop(self) {
        let IndexedNodes { nodes, firsts } = self;
        drop(nodes);
        drop(firsts);
    }
}

impl Model for IndexedNodes {
    ghost use Rattle.std.specs.Prelude.{◌-◌, min, vec_len, vec_capacity};
    ghost use Rattle.indexed_nodes.specs.Indexed.{Indexed, IsIndex};

    ghost Value = { Indexed };

    ghost view = { λ s. record {
      items = s.nodes.items;
      spare = min (vec_capacity s.nodes - vec_len s.nodes) s.firsts.spare;
    } };

    ghost invariant = { λ s. IsIndex s.nodes.items s.firsts };
}

/// The point at which the index has a node. Slot and generation change places: a map keeps points in buckets by their
/// slots, and nodes that died often had one slot, but no two nodes of a graph have one generation.
fn key_of(node: NodeId) -> Point
    ensures { result ≡ key_of node }
{
    Point {
        node: NodeId {
            slot: node.gen_ as usize,
            gen_: node.slot as u64,
        },
        part: Part::Main,
    }
}

/// The position at which the index has a node.
fn position_of(firsts: &PointMap<usize>, node: NodeId) -> Option<usize>
    ensures { result ≡ at firsts.now (key_of node) }
{
    Some(*firsts.get(key_of(node))?)
}

/// Enters a node at a position into the index, if it isn't there.
fn enter(firsts: &mut PointMap<usize>, node: NodeId, position: usize)
    requires spare { 0 < firsts.old.spare }
    ensures held { Holds firsts.old (key_of node) → firsts.new ≡ firsts.old }
    ensures entered { at firsts.old (key_of node) ≡ None → Changes firsts.old firsts.new (key_of node) (Some position) }
    ensures spare { firsts.old.spare ≤ firsts.new.spare + 1 }
{
    let key = key_of(node);
    if !firsts.holds(key) {
        firsts.insert(key, position);
    }
}

impl IndexedNodes {
    /// No nodes. This takes no memory.
    pub fn new(alloc: Global) -> IndexedNodes
        ensures items { result.items ≡ [] }
    {
        IndexedNodes {
            nodes: Vec::new(alloc),
            firsts: PointMap::new(alloc),
        }
    }

    /// The nodes in order.
    pub fn as_slice(&self) -> &[NodeId]
        ensures { result.now ≡ self.now.items }
    {
        &self.nodes
    }

    /// The node at a position.
    pub fn at(&self, position: usize) -> NodeId
        requires { position < length self.now.items }
        ensures { slice_get self.now.items position ≡ Some result }
    {
        self.nodes[position]
    }

    /// The first position of a node. None where it isn't listed.
    pub fn first(&self, node: NodeId) -> Option<usize>
        ensures first { IfSome result (IsFirst self.now.items node) }
        ensures none { IfNone result (IsNowhere self.now.items node) }
    {
        position_of(&self.firsts, node)
    }

    /// Makes room for so many more, so that as many calls of `push` take no memory. With or without memory the nodes stay.
    #[tactic(auto, using(crate::proofs::Index::index_kept))]
    pub fn reserve(&mut self, n: usize) -> Result<(), AllocError>
        ensures items { self.new.items ≡ self.old.items }
        ensures room { OnOk result (n ≤ self.new.spare) }
        ensures spare { self.old.spare ≤ self.new.spare }
        ensures succeeds { n ≤ self.old.spare → IsOk result }
    {
        self.nodes.reserve(n)?;
        self.firsts.reserve(n)
    }

    /// Puts a node behind the others. This takes one of the spare places.
    pub fn push(&mut self, node: NodeId)
        requires spare { 0 < self.old.spare }
        ensures items { self.new.items ≡ self.old.items ++ node ∷ [] }
        ensures spare { self.old.spare ≤ self.new.spare + 1 }
    {
        let position = self.nodes.len();
        self.nodes.push_reserved(node);
        enter(&mut self.firsts, node, position);
    }
}
