//! The links of one expert in two lists by index, with an index of where those of each node stand.
ghost use Rattle.std.specs.Prelude.{◌≡◌, ◌↔◌, ◌<◌, ◌≤◌, ◌+◌, ◌∷◌, [], ◌++◌, length, map, IsTrue, IfOk, OnOk, OnErr, vec_capacity, vec_len};
ghost use Rattle.inc_value.specs.Choice.{Among};
ghost use Rattle.index_lists.specs.Lists.{list_at};
ghost use Rattle.expert_nodes.specs.Links.{AreMarked, HasRoom, IsIndexed, IsOff, IsPair, all_of, bare, fresh_of, kids_of, taken_of};

use crate::expert::UnlinkFault;
use crate::index::{has_place, put_place, reserve_place, take_place};
use crate::queue::Queue;
use inc_value::NodeId;
use index_lists::IndexLists;
use point_map::PointMap;
use std::alloc::{AllocError, Global};

/// A link: the node, and whether it was linked since all links were taken up. Those that were stand in the first list, and
/// the fresh ones in the second.
#[derive(Clone, Copy)]
pub(crate) struct Link {
    pub(crate) node: NodeId,
    pub(crate) fresh: bool,
}

/// Makes room for a link of a node.
pub(crate) fn make_room(
    alloc: Global,
    links: &mut IndexLists<Link>,
    index: &mut PointMap<Queue>,
    node: NodeId,
) -> Result<(), AllocError>
    requires indexed { IsIndexed links.old index.old }
    ensures indexed { IsIndexed links.new index.new }
    ensures taken { list_at links.new 0 ≡ list_at links.old 0 }
    ensures fresh { list_at links.new 1 ≡ list_at links.old 1 }
    ensures wide { OnOk result (1 < length links.new.lists) }
    ensures spare { OnOk result (0 < links.new.spare) }
    ensures room { OnOk result (HasRoom index.new node) }
{
    widen(links)?;
    reserve_place(alloc, index, node)
}

/// Makes the lists, if they aren't made, and room for one row more.
fn widen(links: &mut IndexLists<Link>) -> Result<(), AllocError>
    requires two { IsPair links.old }
    ensures two { IsPair links.new }
    ensures taken { list_at links.new 0 ≡ list_at links.old 0 }
    ensures fresh { list_at links.new 1 ≡ list_at links.old 1 }
    ensures wide { OnOk result (1 < length links.new.lists) }
    ensures spare { OnOk result (0 < links.new.spare) }
{
    links.widen(2)?;
    links.reserve(1)
}

/// Links a node behind the others.
pub(crate) fn put_link(links: &mut IndexLists<Link>, index: &mut PointMap<Queue>, node: NodeId)
    requires indexed { IsIndexed links.old index.old }
    requires wide { 1 < length links.old.lists }
    requires spare { 0 < links.old.spare }
    requires room { HasRoom index.old node }
    ensures indexed { IsIndexed links.new index.new }
    ensures taken { taken_of links.new ≡ taken_of links.old }
    ensures fresh { kids_of (fresh_of links.new) ≡ kids_of (fresh_of links.old) ++ node ∷ [] }
    ensures count { length (fresh_of links.new) ≡ length (fresh_of links.old) + 1 }
{
    let place = links.push_back(1, Link { node, fresh: true });
    put_place(index, node, place);
}

/// Takes off the first link of a node, if it is linked. The answer is whether it had been taken up.
pub(crate) fn take_link(
    links: &mut IndexLists<Link>,
    index: &mut PointMap<Queue>,
    node: NodeId,
) -> Result<bool, UnlinkFault>
    requires indexed { IsIndexed links.old index.old }
    ensures indexed { IsIndexed links.new index.new }
    ensures off { IfOk result (IsOff links.old links.new node) }
    ensures absent { OnErr result (Among node (kids_of (all_of links.old)) → ⊥) }
    ensures err { OnErr result (links.new ≡ links.old) }
{
    let Some(place) = take_place(index, node) else {
        return Err(UnlinkFault::NotLinked);
    };
    let link = links.remove(place);
    Ok(!link.fresh)
}

/// Whether a node is linked.
pub(crate) fn is_linked(links: &IndexLists<Link>, index: &PointMap<Queue>, node: NodeId) -> bool
    requires indexed { IsIndexed links.now index.now }
    ensures { IsTrue result ↔ Among node (kids_of (all_of links.now)) }
{
    has_place(index, node)
}

/// Moves the fresh links behind the others, where they stand at the same places.
pub(crate) fn take_all(links: &mut IndexLists<Link>)
    requires marked { AreMarked links.old }
    ensures marked { AreMarked links.new }
    ensures all { all_of links.new ≡ all_of links.old }
    ensures none { list_at links.new 1 ≡ [] }
{
    if links.width() < 2 {
        return;
    }
    while let Some((_place, link)) = links.pop_front(1) {
        let _same = links.push_back(
            0,
            Link {
                node: link.node,
                fresh: false,
            },
        );
    }
}

/// Makes room for so many in all.
pub(crate) fn reserve_in_all(kids: &mut Vec<NodeId>, count: usize) -> Result<(), AllocError>
    ensures room { OnOk result (count ≤ vec_capacity kids.new) }
    ensures capacity { vec_capacity kids.old ≤ vec_capacity kids.new }
    ensures items { kids.new.items ≡ kids.old.items }
{
    kids.reserve(count.saturating_sub(kids.len()))
}

/// Lays the linked nodes out in one list.
pub(crate) fn lay_out(links: &IndexLists<Link>, kids: &mut Vec<NodeId>)
    requires two { IsPair links.now }
    requires room { length (all_of links.now) ≤ vec_capacity kids.old }
    ensures items { kids.new.items ≡ kids_of (taken_of links.now) ++ kids_of (fresh_of links.now) }
    ensures capacity { vec_capacity kids.new ≡ vec_capacity kids.old }
{
    kids.clear();
    if links.width() < 2 {
        return;
    }
    lay_list(links, 0, kids);
    lay_list(links, 1, kids);
}

/// Puts the nodes of a list of links behind others.
fn lay_list(links: &IndexLists<Link>, list: usize, kids: &mut Vec<NodeId>)
    requires within { list < length links.now.lists }
    requires room { vec_len kids.old + length (list_at links.now list) ≤ vec_capacity kids.old }
    ensures items { kids.new.items ≡ kids.old.items ++ kids_of (bare (list_at links.now list)) }
    ensures len { vec_len kids.new ≡ vec_len kids.old + length (list_at links.now list) }
    ensures capacity { vec_capacity kids.new ≡ vec_capacity kids.old }
{
    for link in links.rows(list) {
        kids.push_reserved(link.node);
    }
}
