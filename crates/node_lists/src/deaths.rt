//! The nodes that died in a round.
ghost use Rattle.std.specs.Prelude.{◌≡◌, ◌<◌, ◌≤◌, ◌+◌, ◌++◌, [], ◌∷◌, length, slice_get, is_some, IfSome, IfNone, IsOk, OnSome, OnOk, None, Some};
ghost use Rattle.inc_value.specs.declared.node.Point.{Point as APoint};
ghost use Rattle.inc_terms.specs.Depend.{main};
ghost use Rattle.point_map.specs.Rows.{at, Changes, KeepsRows};
ghost use Rattle.node_lists.specs.Deaths.{AreDeaths};

use inc_value::{NodeId, Point};
use point_map::PointMap;
use std::alloc::{AllocError, Global};
use std::marker::Model;

/// A node that died in this round, and the bind in whose scope it stood.
#[derive(Clone, Copy)]
pub struct Death {
    pub node: NodeId,
    pub scope: NodeId,
}

/// The nodes that died in this round, in order, each with the bind in whose scope it stood. A contract sees the list of
/// nodes, and the scope of each at its main: no node died twice, and no other point has a scope. `reserve` makes room, and
/// no other call takes memory.
pub struct Deaths {
    nodes: Vec<NodeId>,
    scopes: PointMap<NodeId>,
}

// (written out: whoever drops one proves one call, and no drop of its parts)
impl Drop for Deaths {
    fn drop(self) {
        let Deaths { nodes, scopes } = self;
        drop(nodes);
        drop(scopes);
    }
}

impl Model for Deaths {
    ghost use Rattle.std.specs.Prelude.{◌-◌, min, vec_len, vec_capacity};
    ghost use Rattle.node_lists.specs.Deaths.{Deaths as Seen, AreDeaths};

    ghost Value = { Seen };

    ghost view = { λ d. record {
      nodes = d.nodes.items;
      scopes = d.scopes;
      spare = min (vec_capacity d.nodes - vec_len d.nodes) d.scopes.spare;
    } };

    ghost invariant = { λ d. AreDeaths d.nodes.items d.scopes };
}

impl Deaths {
    /// None died. This takes no memory.
    pub fn new(alloc: Global) -> Deaths
        ensures nodes { result.nodes ≡ [] }
        ensures scopes { (p : APoint) → at result.scopes p ≡ None }
        ensures spare { result.spare ≡ 0 }
        ensures told { AreDeaths result.nodes result.scopes }
    {
        Deaths {
            nodes: Vec::new(alloc),
            scopes: PointMap::new(alloc),
        }
    }

    /// Makes room for so many more, so that as many calls of `add` take no memory. With or without memory the same died.
    pub fn reserve(&mut self, n: usize) -> Result<(), AllocError>
        ensures nodes { self.new.nodes ≡ self.old.nodes }
        ensures scopes { KeepsRows self.old.scopes self.new.scopes }
        ensures room { OnOk result (n ≤ self.new.spare) }
        ensures spare { self.old.spare ≤ self.new.spare }
        ensures succeeds { n ≤ self.old.spare → IsOk result }
        ensures told { AreDeaths self.new.nodes self.new.scopes }
    {
        self.nodes.reserve(n)?;
        self.scopes.reserve(n)
    }

    /// How many died.
    pub fn len(&self) -> usize
        ensures len { result ≡ length self.now.nodes }
        ensures told { AreDeaths self.now.nodes self.now.scopes }
    {
        self.nodes.len()
    }

    /// The node at a place, in the order of dying.
    pub fn at(&self, place: usize) -> NodeId
        requires { place < length self.now.nodes }
        ensures { slice_get self.now.nodes place ≡ Some result }
    {
        self.nodes[place]
    }

    /// The bind in whose scope a node stood that died in this round. None of any other node.
    pub fn scope_of(&self, node: NodeId) -> Option<NodeId>
        ensures { result ≡ at self.now.scopes (main node) }
    {
        Some(*self.scopes.get(Point::main(node))?)
    }

    /// Whether the node died in this round.
    pub fn holds(&self, node: NodeId) -> bool
        ensures { result ≡ is_some (at self.now.scopes (main node)) }
    {
        self.scopes.holds(Point::main(node))
    }

    /// A node dies that stood in the scope of the bind. It takes one of the spare places.
    pub fn add(&mut self, node: NodeId, scope: NodeId)
        requires absent { at self.old.scopes (main node) ≡ None }
        requires spare { 0 < self.old.spare }
        ensures nodes { self.new.nodes ≡ self.old.nodes ++ node ∷ [] }
        ensures scope { Changes self.old.scopes self.new.scopes (main node) (Some scope) }
        ensures spare { self.new.spare + 1 ≡ self.old.spare }
        ensures told { AreDeaths self.new.nodes self.new.scopes }
    {
        self.nodes.push_reserved(node);
        self.scopes.insert(Point::main(node), scope);
    }

    /// Takes off the node that died last, with its scope. Its place is spare again. None exactly where none died.
    pub fn pop(&mut self) -> Option<Death>
        ensures last { IfSome result (λ d. self.old.nodes ≡ self.new.nodes ++ d.node ∷ []) }
        ensures scope { IfSome result (λ d. at self.old.scopes (main d.node) ≡ Some d.scope) }
        ensures scopes { IfSome result (λ d. Changes self.old.scopes self.new.scopes (main d.node) None) }
        ensures spare { OnSome result (self.new.spare ≡ self.old.spare + 1) }
        ensures none { IfNone result (self.old.nodes ≡ []) }
        ensures unchanged { IfNone result (self.new ≡ self.old) }
        ensures told { AreDeaths self.new.nodes self.new.scopes }
    {
        let node = self.nodes.pop()?;
        let scope = self.scopes.remove(Point::main(node));
        Some(Death { node, scope })
    }
}
