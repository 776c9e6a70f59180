ghost use Rattle.std.specs.Prelude.{◌≡◌, ◌≢◌, ◌⊎◌, ◌↔◌, ◌<◌, ◌+◌, ℕ, suc, [], Some, None, IfSome, IfNone, OnSome, IfOk, OnOk, OnErr, length};
ghost use Rattle.inc_value.specs.declared.node.NodeId.{NodeId};
ghost use Rattle.index_lists.specs.Lists.{list_at, count};
ghost use Rattle.slab.specs.Slab.{get};
ghost use Rattle.scopes.specs.Scopes.{node_count, Inside, IsDying, IsApart, Enters, Empties, Gives, Moved, KeepsStanding, Releases, IsByNumber, own_in, point_of};

use crate::member::Member;
use inc_value::{NodeId, Part, Point};
use index_lists::IndexLists;
use point_map::PointMap;
use slab::Slab;
use std::alloc::{AllocError, Global};
use std::marker::Model;

/// Which nodes stand in which scopes. A scope goes by a node, that of its bind, which may stand in a scope itself.
/// Where a scope is killed, its nodes and those of scopes within it are given one by one. Each is moved once on the way,
/// so a kill costs what it kills. Only `enter` takes memory.
pub struct Scopes {
    // The first list has the nodes that were killed. Each scope with nodes has the list behind that of its number.
    lists: IndexLists<Member>,
    numbers: PointMap<usize>,
    // The scope of each number. A number that is let go is given again.
    names: Slab<NodeId>,
}

// (written out: whoever drops one proves one call, and no drop of its parts)
impl Drop for Scopes {
    fn drop(self) {
        let Scopes {
            lists,
            numbers,
            names,
        } = self;
        drop(lists);
        drop(numbers);
        drop(names);
    }
}

impl Model for Scopes {
    ghost use Rattle.slab.specs.Slab.{get};
    ghost use Rattle.index_lists.specs.Lists.{list_at};
    ghost use Rattle.scopes.specs.Scopes.{Scopes as Seen, standing_of, killed_of, own_in, IsByNumber};

    ghost Value = { Seen };

    ghost view = { λ s. record { standing = standing_of s.lists.lists; killed = killed_of (list_at s.lists 0) } };

    ghost invariant = { λ s. IsByNumber s.lists (own_in s.numbers) (get s.names) };
}

// The point at which a scope's number is kept.
fn point_of(scope: NodeId) -> Point
    ensures { result ≡ point_of scope }
{
    Point {
        node: scope,
        part: Part::Main,
    }
}

// Puts the rows of a list behind those of the first.
fn move_all(lists: &mut IndexLists<Member>, list: usize)
    requires within { list < length lists.old.lists }
    requires scope { 0 < list }
    ensures moved { Moved lists.old lists.new list }
    ensures count { count lists.new ≡ count lists.old }
{
    while let Some((_place, row)) = lists.pop_front(list) {
        let _same = lists.push_back(0, row);
    }
}

// The number of a scope, which is made where it has none yet.
fn number_for(
    lists: &mut IndexLists<Member>,
    numbers: &mut PointMap<usize>,
    names: &mut Slab<NodeId>,
    scope: NodeId,
) -> Result<usize, AllocError>
    requires sound { IsByNumber lists.old (own_in numbers.old) (get names.old) }
    ensures sound { IsByNumber lists.new (own_in numbers.new) (get names.new) }
    ensures rows { KeepsStanding lists.old lists.new }
    ensures own { IfOk result (λ k. own_in numbers.new scope ≡ Some k) }
    ensures spare { lists.new.spare ≡ lists.old.spare }
{
    if let Some(number) = numbers.get(point_of(scope)) {
        return Ok(*number);
    }
    numbers.reserve(1)?;
    names.reserve(1)?;
    let number = names.vacant_key();
    let width = number.checked_add(2).ok_or(AllocError)?;
    lists.widen(width)?;
    let _same = names.insert_reserved(scope);
    numbers.insert(point_of(scope), number);
    Ok(number)
}

// Puts a scope's nodes behind those that were killed, and lets its number go.
fn release(
    lists: &mut IndexLists<Member>,
    numbers: &mut PointMap<usize>,
    names: &mut Slab<NodeId>,
    scope: NodeId,
)
    requires sound { IsByNumber lists.old (own_in numbers.old) (get names.old) }
    ensures sound { IsByNumber lists.new (own_in numbers.new) (get names.new) }
    ensures releases { Releases lists.old lists.new scope }
    ensures count { count lists.new ≡ count lists.old }
{
    let point = point_of(scope);
    if !numbers.holds(point) {
        return;
    }
    // The number of lists is what says that `number + 1` fits.
    let _width = lists.width();
    let number = numbers.remove(point);
    let _name = names.try_remove(number);
    move_all(lists, number + 1);
}

impl Scopes {
    /// No nodes in scopes. This takes no memory.
    pub fn new(alloc: Global) -> Scopes
        ensures standing { result.standing ≡ [] }
        ensures killed { result.killed ≡ [] }
    {
        Scopes {
            lists: IndexLists::new(alloc),
            numbers: PointMap::new(alloc),
            names: Slab::new(alloc),
        }
    }

    /// How many nodes stand in scopes, or were killed and aren't given yet.
    pub fn len(&self) -> usize
        ensures { result ≡ node_count self.now }
    {
        self.lists.len()
    }

    /// Puts a node into a scope. The node stands in no scope yet, and doesn't wait to be given. Fails only for want of
    /// memory, and then nothing changes.
    pub fn enter(&mut self, scope: NodeId, node: NodeId) -> Result<(), AllocError>
        requires apart { IsApart self.old node }
        ensures enters { OnOk result (Enters self.old self.new node scope) }
        ensures count { OnOk result (node_count self.new ≡ node_count self.old + 1) }
        ensures err { OnErr result (self.new ≡ self.old) }
    {
        self.lists.reserve(1)?;
        let number = number_for(&mut self.lists, &mut self.numbers, &mut self.names, scope)?;
        // The number of lists is what says that `number + 1` fits.
        let _width = self.lists.width();
        let _place = self.lists.push_back(number + 1, Member { node, scope });
        Ok(())
    }

    /// Kills the nodes of a scope and of scopes within it, which `next_killed` then gives. All that were killed before
    /// have been given. This takes no memory.
    pub fn kill(&mut self, scope: NodeId)
        requires none { self.old.killed ≡ [] }
        ensures dying { (node : NodeId) → IsDying self.new node ↔ Inside self.old scope node }
        ensures standing { Empties self.old self.new scope }
        ensures count { node_count self.new ≡ node_count self.old }
    {
        release(&mut self.lists, &mut self.numbers, &mut self.names, scope);
    }

    /// A node that dies and wasn't given yet: each is given once, and after the node in whose scope it stands. None
    /// exactly where all were given. This takes no memory.
    pub fn next_killed(&mut self) -> Option<NodeId>
        ensures was { IfSome result (IsDying self.old) }
        ensures gives { IfSome result (Gives self.old self.new) }
        ensures standing { IfSome result (Empties self.old self.new) }
        ensures count { OnSome result (node_count self.new + 1 ≡ node_count self.old) }
        ensures none { IfNone result ((node : NodeId) → IsDying self.old node → ⊥) }
        ensures all_given { IfNone result (self.new.killed ≡ []) }
        ensures unchanged { IfNone result (self.new ≡ self.old) }
    {
        if self.lists.width() == 0 {
            return None;
        }
        let (_place, row) = self.lists.pop_front(0)?;
        release(
            &mut self.lists,
            &mut self.numbers,
            &mut self.names,
            row.node,
        );
        Some(row.node)
    }
}
