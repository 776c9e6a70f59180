//! Points that turn needed or unneeded, and what turns with them.
ghost use Rattle.std.specs.Prelude.{◌≡◌, ◌+◌, ◌<◌, ◌≤◌, ◌^◌, ◌++◌, ◌∷◌, [], Some, true, false, length, vec_len, vec_capacity};
ghost use Rattle.point_map.specs.Rows.{Changes, Holds};
ghost use Rattle.necessity.specs.Turn.{to_needed};
ghost use Rattle.necessity.specs.Counting.{need_at, needed_in, behind, due_where, recounted, waiting_after};
ghost use Rattle.necessity.specs.Counting.{KeepsRootCounts, NoNewRows, IsUnderWay, IsAtRest};

use crate::need::{Need, Turn};
use crate::rows::need_of;
use inc_value::Point;
use link_table::{Link, LinkTable};
use point_map::PointMap;

/// Counts one link more at a point, or one fewer: one from a reader that has turned. A point that turns with it waits.
pub fn recount(rows: &mut PointMap<Need>, waiting: &mut Vec<Point>, p: Point, turn: Turn)
    requires there { Holds rows.old p }
    requires fits { to_needed turn ≡ true → (need_at rows.old p).by + 1 < 2 ^ 64 }
    requires counted { to_needed turn ≡ false → 0 < (need_at rows.old p).by }
    requires room { vec_len waiting.old < vec_capacity waiting.old }
    ensures row { Changes rows.old rows.new p (Some (recounted (to_needed turn) (need_at rows.old p))) }
    ensures waiting { waiting.new.items ≡ waiting_after (needed_in rows.old p) (needed_in rows.new p) waiting.old.items p }
    ensures capacity { vec_capacity waiting.new ≡ vec_capacity waiting.old }
{
    let need = rows.get_mut(p).unwrap();
    let turns = need.recount(turn);
    if turns {
        waiting.push_reserved(p);
    }
}

/// Counts the links of a point that has turned anew at its kids. The kids that turn with it wait.
pub fn recount_kids(
    links: &LinkTable,
    rows: &mut PointMap<Need>,
    waiting: &mut Vec<Point>,
    p: Point,
    turn: Turn,
)
    requires under_way { IsUnderWay (to_needed turn) links.now rows.old (waiting.old.items ++ p ∷ []) [] }
    requires fits { length links.now.all < 2 ^ 64 }
    requires room { length waiting.old.items + behind (to_needed turn) links.now rows.old (waiting.old.items ++ p ∷ [])
        ≤ vec_capacity waiting.old }
    ensures under_way { IsUnderWay (to_needed turn) links.now rows.new waiting.new.items [] }
    ensures roots { KeepsRootCounts rows.old rows.new }
    ensures rows { NoNewRows rows.old rows.new }
    ensures behind { length waiting.new.items + behind (to_needed turn) links.now rows.new waiting.new.items
        ≤ length waiting.old.items + behind (to_needed turn) links.now rows.old (waiting.old.items ++ p ∷ []) }
    ensures capacity { vec_capacity waiting.new ≡ vec_capacity waiting.old }
{
    for k in links.kids(p) {
        recount(rows, waiting, k, turn);
    }
}

/// Counts the links of all points that wait anew, and of all that turn with them.
pub fn settle(links: &LinkTable, rows: &mut PointMap<Need>, waiting: &mut Vec<Point>, turn: Turn)
    requires under_way { IsUnderWay (to_needed turn) links.now rows.old waiting.old.items [] }
    requires fits { length links.now.all < 2 ^ 64 }
    requires room { length waiting.old.items + behind (to_needed turn) links.now rows.old waiting.old.items
        ≤ vec_capacity waiting.old }
    ensures at_rest { IsAtRest links.now rows.new }
    ensures none_wait { waiting.new.items ≡ [] }
    ensures roots { KeepsRootCounts rows.old rows.new }
    ensures rows { NoNewRows rows.old rows.new }
    ensures capacity { vec_capacity waiting.new ≡ vec_capacity waiting.old }
{
    while let Some(p) = waiting.pop() {
        recount_kids(links, rows, waiting, p, turn);
    }
}

/// Counts a link that comes or goes, and all that turns with it.
pub fn recount_link(
    links: &LinkTable,
    rows: &mut PointMap<Need>,
    waiting: &mut Vec<Point>,
    link: Link,
    turn: Turn,
)
    requires under_way { IsUnderWay (to_needed turn) links.now rows.old [] (due_where (needed_in rows.old link.reader) link.kid) }
    requires fits { length links.now.all < 2 ^ 64 }
    requires none_wait { waiting.old.items ≡ [] }
    requires room { length (due_where (needed_in rows.old link.reader) link.kid) + behind (to_needed turn) links.now rows.old []
        ≤ vec_capacity waiting.old }
    ensures at_rest { IsAtRest links.now rows.new }
    ensures none_wait { waiting.new.items ≡ [] }
    ensures roots { KeepsRootCounts rows.old rows.new }
    ensures rows { NoNewRows rows.old rows.new }
    ensures capacity { vec_capacity waiting.new ≡ vec_capacity waiting.old }
{
    if need_of(rows, link.reader).is_above_zero() {
        recount(rows, waiting, link.kid, turn);
        settle(links, rows, waiting, turn);
    }
}
