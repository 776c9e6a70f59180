//! Rows of two lists that are put behind others, read and taken off.

ghost use Rattle.std.specs.Prelude.{◌≡◌, ◌<◌, length};

use index_lists::IndexLists;
use std::alloc::Global;

/// Puts a row behind the others of a list, and tells whether there was memory.
fn put(lists: &mut IndexLists<u64>, list: usize, row: u64) -> bool
    requires list { list < length lists.old.lists }
    ensures width { length lists.new.lists ≡ length lists.old.lists }
{
    if lists.reserve(1).is_err() {
        return false;
    }
    let _place = lists.push_back(list, row);
    true
}

/// The rows of a list in order, as the digits of a number.
fn digits(lists: &IndexLists<u64>, list: usize) -> u64
    requires list { list < length lists.now.lists }
{
    let mut sum: u64 = 0;
    for row in lists.rows(list) {
        sum = sum.saturating_mul(10).saturating_add(*row);
    }
    sum
}

/// The first row of a list, read at its place and then taken off; 0 where the list is empty.
fn take_first(lists: &mut IndexLists<u64>, list: usize) -> u64
    requires list { list < length lists.old.lists }
    ensures width { length lists.new.lists ≡ length lists.old.lists }
{
    let Some(place) = lists.first(list) else {
        return 0;
    };
    let read = *lists.row(place);
    let taken = lists.remove(place);
    if read == taken { read } else { 0 }
}

/// Whether rows come out of two lists in the order in which they were put in, and each list keeps its own.
fn rows_are_well(alloc: Global) -> bool {
    let mut lists = IndexLists::new(alloc);
    if lists.widen(2).is_err() || lists.width() < 2 {
        drop(lists);
        return false;
    }
    let first = put(&mut lists, 0, 1);
    let other = put(&mut lists, 1, 7);
    let second = put(&mut lists, 0, 2);
    let there = first && other && second && digits(&lists, 0) == 12 && lists.len() == 3;
    let taken = take_first(&mut lists, 0);
    let left = digits(&lists, 0) == 2 && digits(&lists, 1) == 7 && lists.len() == 2;
    let last = take_first(&mut lists, 0);
    let none = take_first(&mut lists, 0);
    drop(lists);
    there && taken == 1 && left && last == 2 && none == 0
}

#[test]
fn rows_stand_in_order(rt: HostRuntime) {
    assert!(rt; rows_are_well(rt.alloc()));
}
