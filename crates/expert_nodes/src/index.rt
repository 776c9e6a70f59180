//! Where the links of each node stand.
ghost use Rattle.std.specs.Prelude.{◌≡◌, ◌≢◌, ◌↔◌, [], ◌∷◌, ◌++◌, None, IfSome, IfNone, IsTrue, OnOk};
ghost use Rattle.inc_value.specs.declared.node.NodeId.{NodeId};
ghost use Rattle.expert_nodes.specs.Links.{HasRoom, IsEmptyAt, key_of, queue_at};
ghost use Rattle.point_map.specs.Rows.{at};

use crate::queue::Queue;
use inc_value::{NodeId, Part, Point};
use point_map::PointMap;
use std::alloc::{AllocError, Global};

/// The point at which the index has a node. Slot and generation change places: a map keeps points in buckets by their
/// slots, and nodes that died often had one slot, but no two nodes of a graph have one generation.
pub(crate) fn key_of(node: NodeId) -> Point
    ensures { result ≡ key_of node }
{
    Point {
        node: NodeId {
            slot: node.gen_ as usize,
            gen_: node.slot as u64,
        },
        part: Part::Main,
    }
}

/// Makes room for one more place of a node.
pub(crate) fn reserve_place(
    alloc: Global,
    index: &mut PointMap<Queue>,
    node: NodeId,
) -> Result<(), AllocError>
    ensures queues { (n : NodeId) → queue_at index.new n ≡ queue_at index.old n }
    ensures room { OnOk result (HasRoom index.new node) }
{
    match index.get_mut(key_of(node)) {
        Some(queue) => queue.reserve(),
        None => begin(alloc, index, node),
    }
}

/// Begins the places of a node that has none.
fn begin(alloc: Global, index: &mut PointMap<Queue>, node: NodeId) -> Result<(), AllocError>
    requires absent { at index.old (key_of node) ≡ None }
    ensures queues { (n : NodeId) → queue_at index.new n ≡ queue_at index.old n }
    ensures room { OnOk result (HasRoom index.new node) }
{
    index.reserve(1)?;
    let queue = Queue::with_room(alloc)?;
    index.insert(key_of(node), queue);
    Ok(())
}

/// Puts a place behind the others of a node.
pub(crate) fn put_place(index: &mut PointMap<Queue>, node: NodeId, place: usize)
    requires room { HasRoom index.old node }
    ensures own { queue_at index.new node ≡ queue_at index.old node ++ place ∷ [] }
    ensures others { (n : NodeId) → n ≢ node → queue_at index.new n ≡ queue_at index.old n }
{
    let queue = index.get_mut(key_of(node)).unwrap();
    queue.push(place);
}

/// Takes off the earliest place of a node, if it has one. A node without places takes no room.
pub(crate) fn take_place(index: &mut PointMap<Queue>, node: NodeId) -> Option<usize>
    ensures taken { IfSome result (λ place. queue_at index.old node ≡ place ∷ queue_at index.new node) }
    ensures none { IfNone result (queue_at index.old node ≡ []) }
    ensures unchanged { IfNone result (queue_at index.new node ≡ []) }
    ensures others { (n : NodeId) → n ≢ node → queue_at index.new n ≡ queue_at index.old n }
{
    let place = pop_place(index, node);
    forget_empty(index, node);
    place
}

/// Takes off the earliest place of a node, if it has one.
fn pop_place(index: &mut PointMap<Queue>, node: NodeId) -> Option<usize>
    ensures taken { IfSome result (λ place. queue_at index.old node ≡ place ∷ queue_at index.new node) }
    ensures none { IfNone result (queue_at index.old node ≡ []) }
    ensures unchanged { IfNone result (queue_at index.new node ≡ []) }
    ensures others { (n : NodeId) → n ≢ node → queue_at index.new n ≡ queue_at index.old n }
{
    match index.get_mut(key_of(node)) {
        Some(queue) => queue.pop(),
        None => None,
    }
}

/// Whether a node has a place.
pub(crate) fn has_place(index: &PointMap<Queue>, node: NodeId) -> bool
    ensures { IsTrue result ↔ (queue_at index.now node ≢ []) }
{
    match index.get(key_of(node)) {
        Some(queue) => !queue.is_empty(),
        None => false,
    }
}

/// A node without places has no row.
fn forget_empty(index: &mut PointMap<Queue>, node: NodeId)
    ensures { (n : NodeId) → queue_at index.new n ≡ queue_at index.old n }
{
    let key = key_of(node);
    if is_empty(index, key) {
        drop(index.remove(key));
    }
}

/// Whether a point has a row without places.
fn is_empty(index: &PointMap<Queue>, key: Point) -> bool
    ensures { IsTrue result → IsEmptyAt index.now key }
{
    match index.get(key) {
        Some(queue) => queue.is_empty(),
        None => false,
    }
}
