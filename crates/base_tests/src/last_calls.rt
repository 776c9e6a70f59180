//! Lists of last calls, which get room beforehand.

use fold_nodes::LastFold;
use map_nodes::LastArgs;
use std::alloc::Global;

/// Whether the lists of a map's and of a fold's last call get room for three and for eight values, and keep none yet.
fn lists_have_room(alloc: Global) -> bool {
    let mut arguments = LastArgs::new(alloc);
    let mut kids = LastFold::new(alloc);
    let three = arguments.reserve(3).is_ok();
    let eight = kids.reserve(8).is_ok();
    let none = arguments.args().is_none() && kids.kids().is_none();
    drop(arguments);
    drop(kids);
    three && eight && none
}

#[test]
fn last_calls_have_room(rt: HostRuntime) {
    assert!(rt; lists_have_room(rt.alloc()));
}
