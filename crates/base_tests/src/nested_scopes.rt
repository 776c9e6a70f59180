//! Scopes within one another that are killed.

ghost use Rattle.std.specs.Prelude.{◌≡◌, ◌<◌, ◌≤◌, []};
ghost use Rattle.inc_value.specs.declared.node.NodeId.{NodeId};
ghost use Rattle.scopes.specs.Scopes.{StandsIn};

use inc_value::NodeId;
use scopes::Scopes;
use std::alloc::Global;

fn node(slot: usize) -> NodeId
    ensures { result.slot ≡ slot }
{
    NodeId { slot, gen_: 0 }
}

/// Puts a node into a scope, by their slots, where only nodes of lower slots stand in scopes, and tells whether there was
/// memory.
fn enter(scopes: &mut Scopes, scope: usize, slot: usize) -> bool
    requires killed { scopes.old.killed ≡ [] }
    requires below { (n s : NodeId) → StandsIn scopes.old n s → n.slot < slot }
    ensures killed { scopes.new.killed ≡ [] }
    ensures up_to { (n s : NodeId) → StandsIn scopes.new n s → n.slot ≤ slot }
{
    scopes.enter(node(scope), node(slot)).is_ok()
}

/// Puts 1 and 2 into the scope of 0, 3 into that of 1 and 4 into that of 9, and tells whether there was memory.
fn enter_all(scopes: &mut Scopes) -> bool
    requires standing { scopes.old.standing ≡ [] }
    requires killed { scopes.old.killed ≡ [] }
    ensures killed { scopes.new.killed ≡ [] }
{
    let one = enter(scopes, 0, 1);
    let two = enter(scopes, 0, 2);
    let three = enter(scopes, 1, 3);
    let four = enter(scopes, 9, 4);
    one && two && three && four
}

/// What a node that is given counts: a one for 1, a ten for 2, a hundred for 3, and a thousand for any other.
fn worth(given: Option<NodeId>) -> u64 {
    let Some(node) = given else {
        return 0;
    };
    match node.slot {
        1 => 1,
        2 => 10,
        3 => 100,
        _ => 1_000,
    }
}

/// What is given in so many calls, in sum.
fn given(scopes: &mut Scopes, calls: usize) -> u64 {
    let mut sum: u64 = 0;
    for _ in 0..calls {
        sum = sum.saturating_add(worth(scopes.next_killed()));
    }
    sum
}

/// Whether 1, 2 and 3 are given once each where the scope of 0 is killed.
fn die_together(scopes: &mut Scopes) -> bool
    requires killed { scopes.old.killed ≡ [] }
{
    scopes.kill(node(0));
    given(scopes, 3) == 111 && scopes.next_killed().is_none()
}

/// The same of scopes of their own.
fn scopes_are_well(alloc: Global) -> bool {
    let mut scopes = Scopes::new(alloc);
    let well = enter_all(&mut scopes) && die_together(&mut scopes);
    drop(scopes);
    well
}

#[test]
fn nested_scopes_die_together(rt: HostRuntime) {
    assert!(rt; scopes_are_well(rt.alloc()));
}
