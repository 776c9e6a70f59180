//! The necessary part of a graph.
ghost use Rattle.std.specs.Prelude.{◌≡◌, ◌≢◌, ◌<◌, ◌≤◌, ◌↔◌, None, Some, is_some, IsTrue, IsFalse, IfOk, OnOk, OnErr, IfErr, IfSome, IfNone, length};
ghost use Rattle.inc_value.specs.declared.node.Point.{Point, Point as APoint};
ghost use Rattle.point_map.specs.Rows.{at, Holds, Changes, KeepsRows};
ghost use Rattle.link_table.specs.Links.{times, Reads, KeepsLinks, OneLinkMore, AreReaders, AreKids};
ghost use Rattle.link_table.specs.Walks.{readers_left, kids_left};
ghost use Rattle.recompute_heap.specs.Agree.{IsLeast, IsEmpty};
ghost use Rattle.necessity.specs.Need.{root_times, KeepsRoots, OneRootMore, IsRoot};
ghost use Rattle.height_order.specs.Chains.{ReadsWith, IsChain, IsPath, Leads, HasChain, NoRepeats};
ghost use Rattle.height_order.specs.Levels.{level, KeepsPoints, IsExactBelow};
ghost use Rattle.height_order.specs.Faults.{IfPath, IfOver};
ghost use Rattle.necessary_graph.specs.Part.{web, Needed, IsInStep, AlsoNeeded};
ghost use Rattle.necessary_graph.specs.Readers.{HasReaders};
ghost use Rattle.necessary_graph.specs.Sweep.{IsUnlinked, IsReduced, IsUnrooted};

use crate::readers::{Skip, put, put_readers};
use crate::sweep::{Leaves, raise_moved, sweep_unheld, take_out};
use height_order::{ClimbQueue, LinkFault, make_link};
use inc_value::Point;
use link_table::{Kids, Link, Readers};
use point_rows::PointRows;
use std::alloc::{AllocError, Global};
use std::marker::Model;

/// Points with heights, roots, counted links, and the points that are to be recomputed. Each call leaves them in step:
/// heights rise along links and are at most 128, only needed points have links of their own, needed points are there, and
/// the points that are to be recomputed are needed, each at its height. So a point is needed where it is a root or is read,
/// and nothing is counted but roots.
pub struct NecessaryGraph {
    alloc: Global,
    rows: PointRows,
    points: usize,
    climb: ClimbQueue,
    moved: Vec<Point>,
}

// (written out: whoever drops one proves one call, and no drop of its parts)
impl Drop for NecessaryGraph {
    fn drop(self) {
        let NecessaryGraph {
            alloc: _,
            rows,
            points: _,
            climb,
            moved,
        } = self;
        drop(rows);
        drop(climb);
        drop(moved);
    }
}

impl Model for NecessaryGraph {
    ghost use Rattle.necessary_graph.specs.Part.{NecessaryPart, IsInStep};
    ghost use Rattle.necessary_graph.specs.Room.{HasRoom};
    ghost use Rattle.necessary_graph.specs.Part.{part_of};

    ghost Value = { NecessaryPart };

    ghost view = { λ g. part_of g.rows };

    ghost invariant = { λ g.
        IsInStep (part_of g.rows)
        × HasRoom g.rows.heights g.rows.heap g.points };
}

impl NecessaryGraph {
    /// No points. This takes no memory.
    pub fn new(alloc: Global) -> NecessaryGraph
        ensures points { (p : Point) → at result.heights p ≡ None }
        ensures roots { (p : Point) → root_times result.roots p ≡ 0 }
        ensures links { (p q : Point) → times result.links p q ≡ 0 }
        ensures heap { IsEmpty result.heap }
        ensures in_step { IsInStep result }
    {
        NecessaryGraph {
            alloc,
            rows: PointRows::new(alloc),
            points: 0,
            climb: ClimbQueue::new(alloc),
            moved: Vec::new(alloc),
        }
    }

    /// Adds a point that isn't there, at a height, and makes room for it in the heap. Without memory nothing changes.
    pub fn add(&mut self, p: Point, height: u32) -> Result<(), AllocError>
        requires absent { at self.old.heights p ≡ None }
        requires low { height ≤ 128 }
        ensures added { OnOk result (Changes self.old.heights self.new.heights p (Some height)) }
        ensures err { OnErr result (KeepsRows self.old.heights self.new.heights) }
        ensures roots { self.new.roots ≡ self.old.roots }
        ensures links { self.new.links ≡ self.old.links }
        ensures heap { KeepsRows self.old.heap self.new.heap }
        ensures in_step { IsInStep self.new }
    {
        let points = self.points.checked_add(1).ok_or(AllocError)?;
        self.rows.reserve(points - self.rows.heap_len())?;
        self.rows.add(p, height)?;
        self.points = points;
        Ok(())
    }

    /// Drops a point that isn't needed: it is no root, has no links either way and isn't in the heap.
    pub fn drop_point(&mut self, p: Point)
        requires there { Holds self.old.heights p }
        requires unneeded { Needed self.old p → ⊥ }
        ensures dropped { Changes self.old.heights self.new.heights p None }
        ensures roots { self.new.roots ≡ self.old.roots }
        ensures links { self.new.links ≡ self.old.links }
        ensures heap { self.new.heap ≡ self.old.heap }
        ensures in_step { IsInStep self.new }
    {
        self.rows.drop_point(p);
        self.points -= 1;
    }

    /// Puts a root on, once more, and answers whether the point wasn't needed before. Without memory nothing changes.
    pub fn root_on(&mut self, p: Point) -> Result<bool, AllocError>
        requires there { Holds self.old.heights p }
        ensures rooted { OnOk result (OneRootMore self.old.roots self.new.roots p) }
        ensures newly { IfOk result (λ newly. IsFalse newly ↔ Needed self.old p) }
        ensures needed { OnOk result (AlsoNeeded self.old self.new p) }
        ensures err { OnErr result (KeepsRoots self.old.roots self.new.roots) }
        ensures heights { self.new.heights ≡ self.old.heights }
        ensures links { KeepsLinks self.old.links self.new.links }
        ensures heap { self.new.heap ≡ self.old.heap }
        ensures in_step { IsInStep self.new }
    {
        let newly = !self.rows.is_held(p);
        self.rows.add_root(p)?;
        Ok(newly)
    }

    /// Takes a root off, once. What is no longer needed then loses its links and leaves the heap, and leaves that are no
    /// longer needed are dropped. This takes no memory.
    pub fn root_off<L: Leaves>(&mut self, p: Point, leaves: &L)
        requires root { IsRoot (web self.old) p }
        ensures unrooted { IsUnrooted (L.is_leaf leaves.now) self.old self.new p }
        ensures in_step { IsInStep self.new }
    {
        self.rows.remove_root(p);
        sweep_unheld(&mut self.rows, &mut self.points, p, leaves);
    }

    /// Makes `p` read `q`, once more, and answers whether `q` wasn't needed before. Heights may change of points that
    /// lead to `p`, and of what these and `q` lead to; those in the heap follow. `Path`: `q` leads to `p`. `Over`: with
    /// the link some chain would have 130 points. A refusal leaves links, roots and the points of the heap, and `Path`
    /// the heights too.
    pub fn link(&mut self, p: Point, q: Point) -> Result<bool, LinkFault>
        requires needed { Needed self.old p }
        requires kid { Holds self.old.heights q }
        ensures linked { OnOk result (OneLinkMore self.old.links self.new.links p q) }
        ensures newly { IfOk result (λ newly. IsFalse newly ↔ Needed self.old q) }
        ensures needed { OnOk result (AlsoNeeded self.old self.new q) }
        ensures err { OnErr result (KeepsLinks self.old.links self.new.links) }
        ensures roots { KeepsRoots self.old.roots self.new.roots }
        ensures points { KeepsPoints self.old.heights self.new.heights }
        ensures heap { KeepsPoints self.old.heap self.new.heap }
        ensures path { IfErr result (λ e. IfPath (λ list. IsPath (Reads self.old.links) list q p) e) }
        ensures path_once { IfErr result (λ e. IfPath NoRepeats e) }
        ensures path_kept { IfErr result (λ e. IfPath (λ _. KeepsRows self.old.heights self.new.heights) e) }
        ensures no_path { OnOk result (Leads (Reads self.old.links) q p → ⊥) }
        ensures over { IfErr result (λ e. IfOver (λ list. IsChain (ReadsWith self.old.links p q) list) e) }
        ensures over_length { IfErr result (λ e. IfOver (λ list. length list ≡ 130) e) }
        ensures over_no_path { IfErr result (λ e. IfOver (λ _. Leads (Reads self.old.links) q p → ⊥) e) }
        ensures over_levelled { IfErr result (λ e. IfOver (λ _. IsExactBelow self.new.heights self.new.links p q) e) }
        ensures no_over { OnOk result (HasChain (ReadsWith self.old.links p q) 130 → ⊥) }
        ensures still { level self.old.heights q < level self.old.heights p → KeepsRows self.old.heights self.new.heights }
        ensures in_step { IsInStep self.new }
    {
        let newly = !self.rows.is_held(q);
        self.moved.clear();
        let linked = make_link(
            self.alloc,
            &mut self.rows,
            &mut self.climb,
            Link { reader: p, kid: q },
            &mut self.moved,
        );
        raise_moved(&mut self.rows, &self.moved);
        linked?;
        Ok(newly)
    }

    /// Takes a link from `p` to `q` off, once. What is no longer needed then loses its links and leaves the heap, and
    /// leaves that are no longer needed are dropped. This takes no memory.
    pub fn unlink<L: Leaves>(&mut self, p: Point, q: Point, leaves: &L)
        requires linked { Reads self.old.links p q }
        ensures unlinked { IsUnlinked (L.is_leaf leaves.now) self.old self.new p q }
        ensures in_step { IsInStep self.new }
    {
        self.rows.remove_link(p, q);
        sweep_unheld(&mut self.rows, &mut self.points, q, leaves);
    }

    /// Takes all links of a needed point off but those to one point. What is no longer needed then loses its links and
    /// leaves the heap, and leaves that are no longer needed are dropped. This takes no memory.
    pub fn reduce<L: Leaves>(&mut self, p: Point, kept: Point, leaves: &L)
        requires needed { Needed self.old p }
        ensures reduced { IsReduced (L.is_leaf leaves.now) self.old self.new p kept }
        ensures in_step { IsInStep self.new }
    {
        while let Some(_kid) = self.unlink_beside(p, kept, leaves) {}
    }

    // Takes the last link of `p` off that leads to another point than `kept`, as `unlink` does, and gives that point. None
    // where `p` reads no other.
    fn unlink_beside<L: Leaves>(&mut self, p: Point, kept: Point, leaves: &L) -> Option<Point>
        ensures unlinked { IfSome result (λ q. IsUnlinked (L.is_leaf leaves.now) self.old self.new p q) }
        ensures other { IfSome result (λ q. q ≢ kept) }
        ensures none { IfNone result ((q : APoint) → Reads self.old.links p q → q ≡ kept) }
        ensures unchanged { IfNone result (self.new ≡ self.old) }
        ensures was_in_step { IsInStep self.old }
        ensures in_step { IsInStep self.new }
    {
        let kid = self.rows.pop_kid_beside(p, kept)?;
        sweep_unheld(&mut self.rows, &mut self.points, kid, leaves);
        Some(kid)
    }

    /// Puts a needed point into the heap at its height, unless it is in. This takes no memory.
    pub fn insert(&mut self, p: Point)
        requires needed { Needed self.old p }
        ensures inserted { Changes self.old.heap self.new.heap p (at self.old.heights p) }
        ensures rest { self.new ≡ record self.old { heap = self.new.heap } }
        ensures in_step { IsInStep self.new }
    {
        put(&mut self.rows, p);
    }

    /// Puts the readers of a point into the heap, each at its height, but for those that are in and those that are
    /// passed over. This takes no memory.
    pub fn insert_readers<S: Skip>(&mut self, q: Point, skip: &S)
        ensures inserted { HasReaders self.old.heights self.old.links q (S.skipped skip.now) self.old.heap self.new.heap }
        ensures rest { self.new ≡ record self.old { heap = self.new.heap } }
        ensures in_step { IsInStep self.new }
    {
        put_readers(&mut self.rows, q, skip);
    }

    /// Takes a point from the heap, if it is in.
    pub fn remove(&mut self, p: Point)
        ensures removed { Changes self.old.heap self.new.heap p None }
        ensures rest { self.new ≡ record self.old { heap = self.new.heap } }
        ensures in_step { IsInStep self.new }
    {
        take_out(&mut self.rows, p);
    }

    /// Takes a point of least height from the heap and gives it, any one of them. None where the heap is empty.
    pub fn pop_least(&mut self) -> Option<Point>
        ensures was { IfSome result (λ p. Holds self.old.heap p) }
        ensures least { IfSome result (λ p. IsLeast self.old.heap (level self.old.heights p)) }
        ensures removed { IfSome result (λ p. Changes self.old.heap self.new.heap p None) }
        ensures none { IfNone result (IsEmpty self.old.heap) }
        ensures unchanged { IfNone result (self.new ≡ self.old) }
        ensures rest { self.new ≡ record self.old { heap = self.new.heap } }
        ensures in_step { IsInStep self.new }
    {
        let p = self.rows.pop_least()?;
        Some(p)
    }

    /// Whether the point is in the heap.
    pub fn holds(&self, p: Point) -> bool
        ensures { result ≡ is_some (at self.now.heap p) }
    {
        self.rows.in_heap(p)
    }

    /// Whether the point is there.
    pub fn is_there(&self, p: Point) -> bool
        ensures { result ≡ is_some (at self.now.heights p) }
    {
        self.rows.holds(p)
    }

    /// Whether the point is a root.
    pub fn is_root(&self, p: Point) -> bool
        ensures { IsTrue result ↔ IsRoot (web self.now) p }
    {
        self.rows.root_count(p) > 0
    }

    /// Whether the point is a root, or reached from one over links.
    pub fn is_needed(&self, p: Point) -> bool
        ensures { IsTrue result ↔ Needed self.now p }
    {
        self.rows.is_held(p)
    }

    /// The height of a point, at most 128.
    pub fn height(&self, p: Point) -> u32
        requires there { Holds self.now.heights p }
        ensures height { result ≡ level self.now.heights p }
        ensures low { result ≤ 128 }
    {
        self.rows.level_of(p)
    }

    /// Whether `p` reads `q`.
    pub fn reads(&self, p: Point, q: Point) -> bool
        ensures { IsTrue result ↔ Reads self.now.links p q }
    {
        self.rows.reads(p, q)
    }

    /// The points that read `q`, each once for each link.
    pub fn readers(&self, q: Point) -> Readers<'_>
        ensures { AreReaders self.now.links q (readers_left result) }
    {
        self.rows.readers(q)
    }

    /// The points that `p` reads, each once for each link.
    pub fn kids(&self, p: Point) -> Kids<'_>
        ensures { AreKids self.now.links p (kids_left result) }
    {
        self.rows.kids(p)
    }
}
