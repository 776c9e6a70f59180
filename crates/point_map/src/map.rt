ghost use Rattle.std.specs.Prelude.{◌%◌, [], ℕ, ◌≡◌, ◌+◌, ◌-◌, ◌*◌, ◌^◌, ◌<◌, ◌≤◌, min, None, Some, is_some, IsSome, IfSome, IfNone, IsTrue, IsOk, IfOk, OnOk, OnErr, option_copied, option_map};
ghost use Rattle.point_map.specs.Buckets.{Buckets as Seen, kept_count};
ghost use Rattle.point_map.specs.BySlot.{IsBySlot, own_bucket, rows_of};
ghost use Rattle.point_map.specs.Rows.{at, count, standing, Holds, Changes, KeepsRows, SamePoints, IsWalk};

use crate::buckets::Buckets;
use inc_value::Point;
use std::alloc::{AllocError, Global};
use std::marker::Model;
use std::mem;

/// A finite map from points to rows. Each point is in the bucket of its slot, so it is found in constant time.
/// `reserve` makes room, and no other call takes memory.
pub struct PointMap<R> {
    buckets: Buckets<R>,
    alloc: Global,
}

// (written out: whoever drops one proves one call, and no drop of its parts)
impl<R: Drop> Drop for PointMap<R> {
    fn drop(self) {
        let PointMap { buckets, alloc: _ } = self;
        drop(buckets);
    }
}

impl<R> Model for PointMap<R> {
    ghost use Rattle.point_map.specs.BySlot.{rows_of, IsBySlot};
    ghost use Rattle.point_map.specs.Rows.{Rows};

    ghost Value = { Rows R };

    ghost view = { λ m. rows_of m.buckets };

    ghost invariant = { λ m. IsBySlot m.buckets };
}

// The bucket of a slot. Where a map has room for all slots none is divided, which would take most of the time of a look.
fn wrapped(slot: usize, width: usize) -> usize
    requires some { 0 < width }
    ensures { result ≡ slot % width }
{
    if slot < width { slot } else { slot % width }
}

// The bucket of a point, or none where there are no buckets.
fn bucket_of(p: Point, width: usize) -> Option<usize>
    ensures within { IfSome result (λ b. b < width) }
    ensures own { IfSome result (λ b. b ≡ own_bucket p width) }
    ensures none { IfNone result (width ≡ 0) }
{
    if width == 0 {
        return None;
    }
    Some(wrapped(p.node.slot, width))
}

// How much room is made for `n` more points: at least twice what there was, so that growing takes constant time a point.
// None where there is no number for it.
fn room_for(len: usize, spare: usize, n: usize) -> Option<usize>
    ensures enough { IfSome result (λ room. len + n ≤ room) }
    ensures doubled { IfSome result (λ room. min (2 * (len + spare)) (2 ^ 64 - 1) ≤ room) }
    ensures none { IfNone result (2 ^ 64 ≤ len + n) }
{
    let least = len.checked_add(n)?;
    Some(least.max(len.saturating_add(spare).saturating_mul(2)))
}

// Empty buckets for so many points. Their number is odd, as slots of one kind are often an even number apart.
fn buckets_for<R>(alloc: Global, room: usize) -> Result<Buckets<R>, AllocError>
    ensures empty { IfOk result (λ b. b.kept ≡ []) }
    ensures spare { IfOk result (λ b. b.spare ≡ room) }
    ensures by_slot { IfOk result (λ b. IsBySlot b) }
{
    Buckets::new(alloc, room | 1, room)
}

// Puts a point that isn't there into its bucket.
fn put<R>(buckets: &mut Buckets<R>, p: Point, row: R)
    requires by_slot { IsBySlot buckets.old }
    requires absent { at (rows_of buckets.old) p ≡ None }
    requires spare { 0 < buckets.old.spare }
    ensures by_slot { IsBySlot buckets.new }
    ensures changes { Changes (rows_of buckets.old) (rows_of buckets.new) p (Some row) }
    ensures count { kept_count buckets.new ≡ kept_count buckets.old + 1 }
    ensures width { buckets.new.width ≡ buckets.old.width }
    ensures spare { buckets.new.spare + 1 ≡ buckets.old.spare }
{
    let bucket = wrapped(p.node.slot, buckets.width());
    let _place = buckets.push(bucket, p, row);
}

// Moves every point over, each into its bucket.
fn move_points<R: Drop>(mut from: Buckets<R>, to: &mut Buckets<R>)
    requires from_by_slot { IsBySlot from }
    requires to_by_slot { IsBySlot to.old }
    requires empty { to.old.kept ≡ [] }
    requires room { kept_count from ≤ to.old.spare }
    ensures by_slot { IsBySlot to.new }
    ensures rows { KeepsRows (rows_of from) (rows_of to.new) }
    ensures count { kept_count to.new ≡ kept_count from }
    ensures spare { to.new.spare + kept_count from ≡ to.old.spare }
{
    for bucket in 0..from.width() {
        while let Some((_place, p, row)) = from.pop(bucket) {
            put(to, p, row);
        }
    }
}

impl<R> PointMap<R> {
    ghost use Rattle.std.specs.Option.{option_copied_mut};
    ghost use Rattle.std.specs.Borrow.{sem};
    ghost use Rattle.point_map.specs.Lends.{lends_row};

    /// No points, and no room yet. This takes no memory.
    pub fn new(alloc: Global) -> PointMap<R>
        ensures empty { result.places ≡ [] }
        ensures spare { result.spare ≡ 0 }
    {
        PointMap {
            buckets: Buckets::none(alloc),
            alloc,
        }
    }

    /// Makes room for `n` more points, so that as many inserts need no memory. Without memory the map stays as it is.
    /// Where there is too little room each point is moved, and the room is at least doubled.
    pub fn reserve(&mut self, n: usize) -> Result<(), AllocError>
    where
        R: Drop,
        ensures rows { KeepsRows self.old self.new }
        ensures count { count self.new ≡ count self.old }
        ensures room { OnOk result (n ≤ self.new.spare) }
        ensures spare { self.old.spare ≤ self.new.spare }
        ensures err { OnErr result (self.new ≡ self.old) }
        ensures had_room { n ≤ self.old.spare → self.new ≡ self.old }
        ensures succeeds { n ≤ self.old.spare → IsOk result }
    {
        let spare = self.buckets.spare();
        if n <= spare {
            return Ok(());
        }
        let room = room_for(self.buckets.len(), spare, n).ok_or(AllocError)?;
        let grown = buckets_for(self.alloc, room)?;
        let old = mem::replace(&mut self.buckets, grown);
        move_points(old, &mut self.buckets);
        Ok(())
    }

    /// How many points are there.
    pub fn len(&self) -> usize
        ensures { result ≡ count self.now }
    {
        self.buckets.len()
    }

    /// Whether the point is there.
    pub fn holds(&self, p: Point) -> bool
        ensures { result ≡ is_some (at self.now p) }
    {
        self.place_of(p).is_some()
    }

    /// The row of a point, if it is there.
    pub fn get(&self, p: Point) -> Option<&R>
        ensures { option_copied result ≡ at self.now p }
    {
        let i = self.place_of(p)?;
        self.row_at(i)
    }

    /// The row of a point for writing, if it is there. What is written through it stays, and all else is as it was.
    pub fn get_mut(&mut self, p: Point) -> Option<&mut R>
        ensures* writes_back { sem 𝓛 (lends_row R.row self.entry p result) }
        ensures value { option_copied_mut result ≡ at self.old p }
    {
        let i = self.place_of(p)?;
        self.buckets.get_mut(i)
    }

    /// Inserts a point that isn't there. This takes one of the spare places and no memory.
    pub fn insert(&mut self, p: Point, row: R)
        requires absent { at self.old p ≡ None }
        requires spare { 0 < self.old.spare }
        ensures changes { Changes self.old self.new p (Some row) }
        ensures count { count self.new ≡ count self.old + 1 }
        ensures spare { self.new.spare + 1 ≡ self.old.spare }
    {
        put(&mut self.buckets, p, row);
    }

    /// Puts another row in place of that of a point, which is given back.
    pub fn replace(&mut self, p: Point, row: R) -> R
        requires there { Holds self.old p }
        ensures value { at self.old p ≡ Some result }
        ensures changes { Changes self.old self.new p (Some row) }
        ensures points { SamePoints self.old self.new }
        ensures count { count self.new ≡ count self.old }
        ensures spare { self.new.spare ≡ self.old.spare }
    {
        let there = self.get_mut(p).unwrap();
        mem::replace(there, row)
    }

    /// Takes a point off, and gives its row. Its place is spare again.
    pub fn remove(&mut self, p: Point) -> R
        requires there { Holds self.old p }
        ensures value { at self.old p ≡ Some result }
        ensures changes { Changes self.old self.new p None }
        ensures count { count self.new + 1 ≡ count self.old }
        ensures spare { self.new.spare ≡ self.old.spare + 1 }
    {
        let i = self.place_of(p).unwrap();
        let (_point, row) = self.buckets.take(i);
        row
    }

    /// A number that no place of a point reaches: `point_at` below it gives each point once.
    pub fn places(&self) -> usize
        ensures { IsWalk self.now result }
    {
        self.buckets.places()
    }

    /// The point at a place, if one stands there.
    pub fn point_at(&self, i: usize) -> Option<Point>
        ensures { result ≡ option_map (λ e. e.0) (standing self.now i) }
    {
        self.buckets.point_at(i)
    }

    fn row_at(&self, i: usize) -> Option<&R>
        ensures { option_copied result ≡ option_map (λ e. e.1) (standing self.now i) }
    {
        self.buckets.get(i)
    }

    // The place of a point.
    fn place_of(&self, p: Point) -> Option<usize>
        ensures found { IfSome result (λ i. option_map (λ e. e.0) (standing self.now i) ≡ Some p) }
        ensures row { IfSome result (λ i. option_map (λ e. e.1) (standing self.now i) ≡ at self.now p) }
        ensures absent { IfNone result (at self.now p ≡ None) }
    {
        let bucket = bucket_of(p, self.buckets.width())?;
        self.buckets.find(bucket, p)
    }
}
