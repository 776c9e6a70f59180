//! Ids in the order in which they were given. Ids of dropped nodes stay until many have gathered.
ghost use Rattle.std.specs.Prelude.{◌≡◌, ◌<◌, ◌≤◌, pos, IfSome, IfNone, OnOk, None, is_some, length, vec_len, vec_capacity};
ghost use Rattle.std.specs.List.{AllWithin};
ghost use Rattle.std.specs.List.Sorted.{IsNonDecreasingBy, IsPartitionPoint};
ghost use Rattle.inc_value.specs.declared.node.NodeId.{NodeId};
ghost use Rattle.node_arena.specs.Arena as spec;
ghost use Rattle.node_arena.specs.Arena.{row_at, live};
ghost use Rattle.node_arena.specs.Sound.{AreFew, IsOrder, IsFirstLive};

use super::{Arena, Entry};
use inc_value::NodeId;
use slab::Slab;
use std::alloc::AllocError;

/// Where the ids begin whose generation is not below the count.
pub(super) fn start_of(order: &[NodeId], count: u64) -> usize
    requires { IsNonDecreasingBy (λ n. n.gen_) order.now }
    ensures bound { result ≤ length order.now }
    ensures point { IsPartitionPoint (λ n. n.gen_ < count) (λ n. count ≤ n.gen_) order.now result }
{
    order.partition_point(|id| id.gen_ < count)
}

/// The first live one of the ids from the place on.
pub(super) fn first_live(arena: &Arena, order: &[NodeId], start: usize) -> Option<NodeId>
    requires { start ≤ length order.now }
    ensures some { IfSome result (λ id. IsFirstLive arena.now order.now start id) }
    ensures none { IfNone result (AllWithin (λ n. row_at arena.now n ≡ None) order.now start (length order.now)) }
{
    for place in start..order.len() {
        if arena.is_live(order[place]) {
            return Some(order[place]);
        }
    }
    None
}

/// Makes room for one more id.
pub(super) fn make_room(nodes: &Slab<Entry>, order: &mut Vec<NodeId>) -> Result<(), AllocError>
    ensures order { (a : spec.Arena) → a.slots ≡ nodes.now.slots → IsOrder a order.old.items → IsOrder a order.new.items }
    ensures few { (a : spec.Arena) → a.slots ≡ nodes.now.slots → IsOrder a order.old.items → AreFew a order.new.items }
    ensures room { OnOk result (vec_len order.new < vec_capacity order.new) }
{
    tidy(nodes, order);
    order.reserve(1)
}

/// Takes off the ids of dropped nodes where they are more than half.
fn tidy(nodes: &Slab<Entry>, order: &mut Vec<NodeId>)
    ensures few { (a : spec.Arena) → a.slots ≡ nodes.now.slots → IsOrder a order.old.items → AreFew a order.new.items }
    ensures order { (a : spec.Arena) → a.slots ≡ nodes.now.slots → IsOrder a order.old.items → IsOrder a order.new.items }
{
    if order.len() / 2 > nodes.len().saturating_add(32) {
        keep_live(nodes, order);
    }
}

/// Takes off the ids of dropped nodes.
fn keep_live(nodes: &Slab<Entry>, order: &mut Vec<NodeId>)
    ensures few { (a : spec.Arena) → a.slots ≡ nodes.now.slots → IsOrder a order.old.items → length order.new.items ≤ live a }
    ensures order { (a : spec.Arena) → a.slots ≡ nodes.now.slots → IsOrder a order.old.items → IsOrder a order.new.items }
{
    order.retain(|id| has(nodes, *id));
}

/// Whether the node stands in its slot.
fn has(nodes: &Slab<Entry>, id: NodeId) -> bool
    ensures { result ≡ is_some (row_at (record { slots = nodes.now.slots; given = 0; time = pos 0 }) id) }
{
    match nodes.get(id.slot) {
        Some(entry) => entry.gen_ == id.gen_,
        None => false,
    }
}
