//! What an expert reads while links are put on, taken off and taken up.

ghost use Rattle.expert_nodes.specs.Experts.{IsCreated};

use expert_nodes::{Experts, LinkFault};
use inc_value::NodeId;
use std::alloc::Global;

const EXPERT: NodeId = NodeId { slot: 9, gen_: 9 };

fn node(number: usize) -> NodeId {
    NodeId {
        slot: number,
        gen_: 0,
    }
}

/// Links a node, and tells whether it was: 0 where there are as many links as there may be, and 1 where it was.
fn link(experts: &mut Experts, id: NodeId, number: usize) -> u64
    requires created { IsCreated experts.old id }
    ensures created { IsCreated experts.new id }
{
    match experts.link(id, node(number)) {
        Ok(()) => 1,
        Err(LinkFault::LinksFull) => 0,
        Err(LinkFault::Memory) => 9,
    }
}

/// Takes off a node's first link, and tells which it was: 0 where there is none, 1 where it was fresh, and 2 where it had
/// been taken up.
fn unlink(experts: &mut Experts, id: NodeId, number: usize) -> u64
    requires created { IsCreated experts.old id }
    ensures created { IsCreated experts.new id }
{
    match experts.unlink(id, node(number)) {
        Ok(true) => 2,
        Ok(false) => 1,
        Err(_) => 0,
    }
}

/// All links are taken up, and their number is the answer.
fn take_up(experts: &mut Experts, id: NodeId) -> usize
    requires created { IsCreated experts.old id }
    ensures created { IsCreated experts.new id }
{
    experts.take_up(id);
    experts.taken(id)
}

/// The numbers of the nodes that an expert reads, in order, as the digits of one number.
fn digits(experts: &mut Experts, id: NodeId) -> u64
    requires created { IsCreated experts.old id }
    ensures created { IsCreated experts.new id }
{
    experts.tidy(id);
    let mut sum: u64 = 0;
    for kid in experts.kids(id) {
        sum = sum.saturating_mul(10).saturating_add(kid.slot as u64);
    }
    sum
}

/// Links the nodes of some numbers, and tells whether all were.
fn link_all(experts: &mut Experts, id: NodeId, numbers: &[usize]) -> bool
    requires created { IsCreated experts.old id }
    ensures created { IsCreated experts.new id }
{
    let mut linked: u64 = 0;
    for number in numbers {
        linked = linked.saturating_add(link(experts, id, *number));
    }
    linked == numbers.len() as u64
}

/// Whether the first link of a node goes, and tells whether it had been taken up.
fn first_links_go(experts: &mut Experts, id: NodeId) -> bool
    requires created { IsCreated experts.old id }
    ensures created { IsCreated experts.new id }
{
    let linked = link_all(experts, id, &[1, 2, 1, 3]);
    let taken = take_up(experts, id);
    let fresh = link(experts, id, 2);
    let one = unlink(experts, id, 1);
    let then = digits(experts, id);
    let two = unlink(experts, id, 2);
    let last = unlink(experts, id, 2);
    let none = unlink(experts, id, 2);
    let end = digits(experts, id);
    linked
        && taken == 4
        && fresh == 1
        && one == 2
        && then == 2132
        && two == 2
        && last == 1
        && none == 0
        && end == 13
}

/// Whether a stale mark stands until it is cleared.
fn marks_stand(experts: &mut Experts, id: NodeId) -> bool
    requires created { IsCreated experts.old id }
    ensures created { IsCreated experts.new id }
{
    let before = experts.is_stale(id);
    experts.make_stale(id);
    let linked = link(experts, id, 1);
    let then = experts.is_stale(id);
    experts.clear_stale(id);
    !before && linked == 1 && then && !experts.is_stale(id)
}

/// How many links of one node are put on, of so many.
fn fill(experts: &mut Experts, id: NodeId, links: usize) -> u64
    requires created { IsCreated experts.old id }
    ensures created { IsCreated experts.new id }
{
    let mut linked: u64 = 0;
    for _ in 0..links {
        linked = linked.saturating_add(link(experts, id, 7));
    }
    linked
}

fn experts_are_well(alloc: Global) -> bool {
    let mut experts = Experts::new(alloc);
    if experts.create(EXPERT).is_err() {
        drop(experts);
        return false;
    }
    let order = first_links_go(&mut experts, EXPERT);
    let marks = marks_stand(&mut experts, EXPERT);
    let filled = fill(&mut experts, EXPERT, 4_094);
    drop(experts);
    order && marks && filled == 4_093
}

#[test]
fn links_of_an_expert(rt: HostRuntime) {
    assert!(rt; experts_are_well(rt.alloc()));
}
