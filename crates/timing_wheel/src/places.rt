ghost use Rattle.std.specs.Prelude.{◌≡◌, ℕ, ◌+◌, ◌<◌, ◌≤◌, ◌==◌, if◌then◌else◌, None, Some, IsSome, is_some, IsOk, OnOk};
ghost use Rattle.timing_wheel.specs.Places.{key_point, place_of};

use inc_value::{NodeId, Part, Point};
use point_map::PointMap;
use std::alloc::AllocError;

// The point at which a key is kept.
fn point_of(key: u64) -> Point
    ensures { result ≡ key_point key }
{
    Point {
        node: NodeId {
            slot: key as usize,
            gen_: 0,
        },
        part: Part::Main,
    }
}

/// Whether a key has a place.
pub(crate) fn holds(places: &PointMap<usize>, key: u64) -> bool
    ensures { result ≡ is_some (place_of places.now key) }
{
    places.holds(point_of(key))
}

// For how many keys room is made at first.
const FIRST: usize = 125;

/// Makes room for the places of the first keys at once, where there is memory for it.
fn make_first(places: &mut PointMap<usize>)
    ensures finds { (q : ℕ) → place_of places.new q ≡ place_of places.old q }
    ensures spare { places.old.spare ≤ places.new.spare }
{
    if places.len() == 0 {
        let _made: Result<_, _> = places.reserve(FIRST);
    }
}

/// Makes room for the place of one more key.
pub(crate) fn make_place(places: &mut PointMap<usize>) -> Result<(), AllocError>
    ensures finds { (q : ℕ) → place_of places.new q ≡ place_of places.old q }
    ensures room { OnOk result (1 ≤ places.new.spare) }
    ensures spare { places.old.spare ≤ places.new.spare }
    ensures succeeds { 0 < places.old.spare → IsOk result }
{
    make_first(places);
    places.reserve(1)
}

/// Keeps the place of a key that has none.
pub(crate) fn keep(places: &mut PointMap<usize>, key: u64, place: usize)
    requires absent { place_of places.old key ≡ None }
    requires spare { 0 < places.old.spare }
    ensures finds { (q : ℕ) → place_of places.new q ≡ if key == q then Some place else place_of places.old q }
    ensures spare { places.new.spare + 1 ≡ places.old.spare }
{
    places.insert(point_of(key), place);
}

/// Gives up the place of a key, and answers it.
pub(crate) fn give_up(places: &mut PointMap<usize>, key: u64) -> usize
    requires there { IsSome (place_of places.old key) }
    ensures value { place_of places.old key ≡ Some result }
    ensures finds { (q : ℕ) → place_of places.new q ≡ if key == q then None else place_of places.old q }
    ensures spare { places.new.spare ≡ places.old.spare + 1 }
{
    places.remove(point_of(key))
}
