ghost use Rattle.std.specs.Prelude.{[], ℕ, ◌⊎◌, ◌≡◌, ◌+◌, ◌<◌, ◌≤◌, None, Some, IsSome, IfSome, IfNone, OnSome, IsOk, IfOk, OnOk, ◌≢◌, OnErr, true, false, option_copied, option_map, length, max};
ghost use Rattle.point_map.specs.Buckets.{Kept, kept_at, kept_count, KeptChanges, IsKeptIn, IsEmptyBucket, IsTaken, IsAt};
ghost use Rattle.point_map.specs.Chains.{NoneOnChain};
ghost use Rattle.point_map.specs.Links.{point_in, next_in};

use inc_value::Point;
use slab::Slab;
use std::alloc::{AllocError, Global};
use std::marker::Model;
use std::mem;

#[derive(Drop)]
struct Link<R> {
    bucket: usize,
    point: Point,
    next: Option<usize>,
    row: R,
}

/// Points in numbered buckets, each point at a place of its own. A push, a pop and a removal take constant time and no memory.
pub struct Buckets<R> {
    heads: Vec<Option<usize>>,
    links: Slab<Link<R>>,
    spare: usize,
}

// (written out: whoever drops one proves one call, and no drop of its parts)
impl<R: Drop> Drop for Buckets<R> {
    fn drop(self) {
        let Buckets {
            heads,
            links,
            spare: _,
        } = self;
        drop(heads);
        drop(links);
    }
}

impl<R> Model for Buckets<R> {
    ghost use Rattle.std.specs.Prelude.{◌+◌, ◌≤◌, None, length, map, option_map, option_and_then, slice_index_or};
    ghost use Rattle.slab.specs.Slab.{slab_len};
    ghost use Rattle.point_map.specs.Buckets.{Buckets as Seen};
    ghost use Rattle.point_map.specs.Chains.{IsLinked};

    ghost Value = { Seen R };

    ghost view = { λ b. record {
      kept = map (option_map (λ l. record { bucket = l.bucket; point = l.point; row = l.row })) b.links.slots;
      width = length b.heads.items;
      spare = b.spare;
    } };

    ghost invariant = { λ b.
        IsLinked
        b.heads.items
        (λ k. option_and_then (λ l. l.next) (slice_index_or b.links.slots k None))
        (λ k. option_map (λ l. l.bucket) (slice_index_or b.links.slots k None))
        × (slab_len b.links + b.spare ≤ b.links.capacity) };
}

// Whether the link at a place has the point.
fn is_point_at<R>(links: &Slab<Link<R>>, place: usize, p: Point) -> bool
    ensures found { result ≡ true → point_in links.now place ≡ Some p }
    ensures other { result ≡ false → point_in links.now place ≢ Some p }
{
    match links.get(place) {
        Some(link) => link.point == p,
        None => false,
    }
}

// The place that a link leads to.
fn next_of<R>(links: &Slab<Link<R>>, place: usize) -> Option<usize>
    ensures { result ≡ next_in links.now place }
{
    let link = links.get(place)?;
    link.next
}

// The place of a point on a chain. No chain is longer than the room for links.
fn find_from<R>(links: &Slab<Link<R>>, first: Option<usize>, p: Point) -> Option<usize>
    ensures found { IfSome result (λ i. point_in links.now i ≡ Some p) }
    ensures absent { IfNone result (NoneOnChain (next_in links.now) first links.now.capacity (λ k. point_in links.now k ≡ Some p)) }
{
    let mut at = first;
    for _step in 0..links.capacity() {
        let place = at?;
        if is_point_at(links, place, p) {
            return Some(place);
        }
        at = next_of(links, place);
    }
    None
}

impl<R> Buckets<R> {
    ghost use Rattle.std.specs.Option.{option_copied_mut};
    ghost use Rattle.std.specs.Borrow.{sem};
    ghost use Rattle.point_map.specs.Lends.{lends_kept};

    /// No buckets, and no room. This takes no memory.
    pub fn none(alloc: Global) -> Buckets<R>
        ensures empty { result.kept ≡ [] }
        ensures width { result.width ≡ 0 }
        ensures spare { result.spare ≡ 0 }
    {
        Buckets {
            heads: Vec::new(alloc),
            links: Slab::new(alloc),
            spare: 0,
        }
    }

    /// So many empty buckets, with room for `n` points.
    pub fn new(alloc: Global, width: usize, n: usize) -> Result<Buckets<R>, AllocError>
        ensures empty { IfOk result (λ b. b.kept ≡ []) }
        ensures width { IfOk result (λ b. b.width ≡ width) }
        ensures spare { IfOk result (λ b. b.spare ≡ n) }
    {
        Ok(Buckets {
            heads: vec![in alloc; None; width]?,
            links: Slab::with_capacity(alloc, n)?,
            spare: n,
        })
    }

    /// Makes at least so many buckets, the new ones empty. Without memory the buckets stay as they are.
    pub fn widen(&mut self, width: usize) -> Result<(), AllocError>
        ensures kept { self.new.kept ≡ self.old.kept }
        ensures width { OnOk result (self.new.width ≡ max self.old.width width) }
        ensures spare { self.new.spare ≡ self.old.spare }
        ensures err { OnErr result (self.new ≡ self.old) }
        ensures succeeds { width ≤ self.old.width → IsOk result }
    {
        if width <= self.heads.len() {
            return Ok(());
        }
        self.heads.resize(width, None)
    }

    /// Makes room for `n` more points. Without memory the buckets stay as they are.
    pub fn reserve(&mut self, n: usize) -> Result<(), AllocError>
        ensures kept { self.new.kept ≡ self.old.kept }
        ensures width { self.new.width ≡ self.old.width }
        ensures room { OnOk result (n ≤ self.new.spare) }
        ensures spare { self.old.spare ≤ self.new.spare }
        ensures exact { (self.new.spare ≡ self.old.spare) ⊎ (self.new.spare ≡ n) }
        ensures err { OnErr result (self.new ≡ self.old) }
        ensures had_room { n ≤ self.old.spare → self.new ≡ self.old }
        ensures succeeds { n ≤ self.old.spare → IsOk result }
    {
        if n <= self.spare {
            return Ok(());
        }
        self.links.reserve(n)?;
        self.spare = n;
        Ok(())
    }

    /// How many points are kept.
    pub fn len(&self) -> usize
        ensures { result ≡ kept_count self.now }
    {
        self.links.len()
    }

    /// How many buckets there are.
    pub fn width(&self) -> usize
        ensures { result ≡ self.now.width }
    {
        self.heads.len()
    }

    /// How many points can still be pushed without memory.
    pub fn spare(&self) -> usize
        ensures { result ≡ self.now.spare }
    {
        self.spare
    }

    /// A number that no place of a point reaches.
    pub fn places(&self) -> usize
        ensures { length self.now.kept ≤ result }
    {
        self.links.capacity()
    }

    /// The row of the point at a place, if one is there.
    pub fn get(&self, place: usize) -> Option<&R>
        ensures { option_copied result ≡ option_map (λ k. k.row) (kept_at self.now place) }
    {
        let link = self.links.get(place)?;
        Some(&link.row)
    }

    /// The row of the point at a place for writing, if one is there. What is written through it stays, and all else is
    /// as it was.
    pub fn get_mut(&mut self, place: usize) -> Option<&mut R>
        ensures* writes_back { sem 𝓛 (lends_kept R.row self.entry place result) }
        ensures value { option_copied_mut result ≡ option_map (λ k. k.row) (kept_at self.old place) }
    {
        let link = self.links.get_mut(place)?;
        Some(&mut link.row)
    }

    /// A place of a bucket, or none where it is empty.
    pub fn head(&self, bucket: usize) -> Option<usize>
        requires { bucket < self.now.width }
        ensures some { IfSome result (IsKeptIn self.now bucket) }
        ensures none { IfNone result (IsEmptyBucket self.now bucket) }
    {
        self.heads[bucket]
    }

    /// The place of a point in a bucket, or none where the bucket doesn't have it.
    pub fn find(&self, bucket: usize, p: Point) -> Option<usize>
        requires { bucket < self.now.width }
        ensures found { IfSome result (λ i. option_map (λ k. k.point) (kept_at self.now i) ≡ Some p) }
        ensures absent { IfNone result ((i : ℕ) (k : Kept R) → kept_at self.now i ≡ Some k → k.bucket ≡ bucket → k.point ≢ p) }
    {
        // The capacity is what bounds the number of links.
        let _room = self.links.capacity();
        find_from(&self.links, self.heads[bucket], p)
    }

    /// Puts a point into a bucket, at the place that is answered. This takes one of the spare places.
    pub fn push(&mut self, bucket: usize, point: Point, row: R) -> usize
        requires bucket { bucket < self.old.width }
        requires spare { 0 < self.old.spare }
        ensures vacant { kept_at self.old result ≡ None }
        ensures changes { KeptChanges self.old self.new result (Some (record { bucket = bucket; point = point; row = row })) }
        ensures count { kept_count self.new ≡ kept_count self.old + 1 }
        ensures width { self.new.width ≡ self.old.width }
        ensures spare { self.new.spare + 1 ≡ self.old.spare }
    {
        let next = self.heads[bucket];
        let place = self.links.insert_reserved(Link {
            bucket,
            point,
            next,
            row,
        });
        self.heads[bucket] = Some(place);
        self.spare -= 1;
        place
    }

    /// Takes a point off a bucket, with its place and its row. None where the bucket is empty.
    pub fn pop(&mut self, bucket: usize) -> Option<(usize, Point, R)>
        requires { bucket < self.old.width }
        ensures was { IfSome result (λ r. kept_at self.old r.0 ≡ Some (record { bucket = bucket; point = r.1; row = r.2 })) }
        ensures changes { IfSome result (λ r. KeptChanges self.old self.new r.0 None) }
        ensures count { OnSome result (kept_count self.new + 1 ≡ kept_count self.old) }
        ensures width { self.new.width ≡ self.old.width }
        ensures spare { OnSome result (self.new.spare ≡ self.old.spare + 1) }
        ensures none { IfNone result (IsEmptyBucket self.old bucket) }
        ensures unchanged { IfNone result (self.new ≡ self.old) }
    {
        let place = self.heads[bucket]?;
        let Link {
            bucket: _,
            point,
            next,
            row,
        } = self.links.try_remove(place).unwrap();
        self.heads[bucket] = next;
        // The capacity is what says that `spare + 1` fits.
        let _room = self.links.capacity();
        self.spare += 1;
        Some((place, point, row))
    }

    /// Takes off the point at a place. Another point of its bucket may move there.
    pub fn take(&mut self, place: usize) -> (Point, R)
        requires there { IsSome (kept_at self.old place) }
        ensures was { IsAt (kept_at self.old place) result.0 result.1 }
        ensures taken { IsTaken self.old self.new place }
        ensures count { kept_count self.new + 1 ≡ kept_count self.old }
        ensures width { self.new.width ≡ self.old.width }
        ensures spare { self.new.spare ≡ self.old.spare + 1 }
    {
        let bucket = self.bucket_of(place);
        let (head, point, row) = self.pop(bucket).unwrap();
        if head == place {
            (point, row)
        } else {
            self.put(place, point, row)
        }
    }

    /// The point at a place, if one is there.
    pub fn point_at(&self, place: usize) -> Option<Point>
        ensures { result ≡ option_map (λ k. k.point) (kept_at self.now place) }
    {
        let link = self.links.get(place)?;
        Some(link.point)
    }

    /// The bucket of the point at a place.
    pub fn bucket_of(&self, place: usize) -> usize
        requires { IsSome (kept_at self.now place) }
        ensures value { option_map (λ k. k.bucket) (kept_at self.now place) ≡ Some result }
        ensures within { result < self.now.width }
    {
        let link = self.links.get(place).unwrap();
        link.bucket
    }

    // Puts another point with its row in place of the one at a place.
    fn put(&mut self, place: usize, point: Point, row: R) -> (Point, R)
        requires there { IsSome (kept_at self.old place) }
        ensures was { IsAt (kept_at self.old place) result.0 result.1 }
        ensures now { kept_at self.new place ≡ option_map (λ k. record { bucket = k.bucket; point = point; row = row }) (kept_at self.old place) }
        ensures others { (j : ℕ) → j ≢ place → kept_at self.new j ≡ kept_at self.old j }
        ensures count { kept_count self.new ≡ kept_count self.old }
        ensures width { self.new.width ≡ self.old.width }
        ensures spare { self.new.spare ≡ self.old.spare }
    {
        let link = self.links.get_mut(place).unwrap();
        let old_point = mem::replace(&mut link.point, point);
        let old_row = mem::replace(&mut link.row, row);
        (old_point, old_row)
    }
}
