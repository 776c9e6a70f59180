//! The table of links.
ghost use Rattle.std.specs.Prelude.{[], ◌≡◌, ◌≢◌, ◌↔◌, IsTrue, IfSome, IfNone, OnOk, OnErr};
ghost use Rattle.inc_value.specs.declared.node.Point.{Point};
ghost use Rattle.link_table.specs.Links.{times, Reads, IsRead, KeepsLinks, OneLinkMore, AreKids, AreReaders};
ghost use Rattle.link_table.specs.Walks.{kids_left, readers_left};

use crate::ends::{End, EndLists};
use crate::sides::{add_ends, kid_place, last_beside, pop_ends, remove_ends};
use crate::walks::{Kids, Readers};
use inc_value::Point;
use std::alloc::{AllocError, Global};
use std::marker::Model;

/// Links between points. A point may read another more than once, and each link is taken off for
/// itself. A contract sees a bag of links.
///
/// Each link has an end among the kids of its reader and one among the readers of its kid, and each of
/// the two tells the place of the other. So a link goes in constant time, however many others its points have,
/// but for a search through the shorter of the two lists.
pub struct LinkTable {
    alloc: Global,
    kids: EndLists,
    readers: EndLists,
}

// (written out: whoever drops one proves one call, and no drop of its parts)
impl Drop for LinkTable {
    fn drop(self) {
        let LinkTable {
            alloc: _,
            kids,
            readers,
        } = self;
        drop(kids);
        drop(readers);
    }
}

impl Model for LinkTable {
    ghost use Rattle.link_table.specs.Links.{Links};

    ghost Value = { Links };

    ghost use Rattle.link_table.specs.Ends.{links_of, IsLinked};

    ghost view = { λ t. record { all = links_of t.kids } };

    ghost invariant = { λ t. IsLinked t.kids t.readers };
}

impl LinkTable {
    /// No links. This takes no memory.
    pub fn new(alloc: Global) -> LinkTable
        ensures none { result.all ≡ [] }
    {
        LinkTable {
            alloc,
            kids: EndLists::new(alloc),
            readers: EndLists::new(alloc),
        }
    }

    /// Makes p read q, once more. Without memory the links stay as they are.
    pub fn add(&mut self, p: Point, q: Point) -> Result<(), AllocError>
        ensures added { OnOk result (OneLinkMore self.old self.new p q) }
        ensures err { OnErr result (KeepsLinks self.old self.new) }
    {
        let done = add_ends(self.alloc, &mut self.kids, &mut self.readers, p, q);
        // The walk over its places is what says that each point has one row.
        let _places = self.kids.rows.places();
        done
    }

    /// Takes a link from p to q off, once. This takes no memory.
    pub fn remove(&mut self, p: Point, q: Point)
        requires there { Reads self.old p q }
        ensures removed { OneLinkMore self.new self.old p q }
    {
        let (i, back) = kid_place(&self.kids, &self.readers, p, q).unwrap();
        let end = End { point: q, back };
        remove_ends(&mut self.kids, &mut self.readers, p, i, end);
        // The walk over its places is what says that each point has one row.
        let _places = self.kids.rows.places();
    }

    /// Takes the last link of p off, and gives the point that it led to. None where p reads none. Nothing is
    /// searched for, and this takes no memory.
    pub fn pop_kid(&mut self, p: Point) -> Option<Point>
        ensures removed { IfSome result (λ q. OneLinkMore self.new self.old p q) }
        ensures none { IfNone result ((q : Point) → times self.old p q ≡ 0) }
        ensures unchanged { IfNone result (self.new ≡ self.old) }
    {
        let Some(kid) = pop_ends(&mut self.kids, &mut self.readers, p) else {
            return None;
        };
        // The walk over its places is what says that each point has one row.
        let _places = self.kids.rows.places();
        Some(kid)
    }

    /// Takes the last link of p off that leads to another point than this one, and gives the point that it led to. None
    /// where p reads no other. This takes no memory.
    pub fn pop_kid_beside(&mut self, p: Point, kept: Point) -> Option<Point>
        ensures removed { IfSome result (λ q. OneLinkMore self.new self.old p q) }
        ensures other { IfSome result (λ q. q ≢ kept) }
        ensures none { IfNone result ((q : Point) → Reads self.old p q → q ≡ kept) }
        ensures unchanged { IfNone result (self.new ≡ self.old) }
    {
        let Some((i, last)) = last_beside(self.kids.of(p), kept) else {
            return None;
        };
        remove_ends(&mut self.kids, &mut self.readers, p, i, last);
        // The walk over its places is what says that each point has one row.
        let _places = self.kids.rows.places();
        Some(last.point)
    }

    /// Whether p reads q.
    pub fn reads(&self, p: Point, q: Point) -> bool
        ensures { IsTrue result ↔ Reads self.now p q }
    {
        kid_place(&self.kids, &self.readers, p, q).is_some()
    }

    /// Whether some point reads q.
    pub fn is_read(&self, q: Point) -> bool
        ensures { IsTrue result ↔ IsRead self.now q }
    {
        // No row is empty, so a point is read where it has a row.
        self.readers.rows.holds(q)
    }

    /// The points that p reads, each once for each link.
    pub fn kids(&self, p: Point) -> Kids<'_>
        ensures { AreKids self.now p (kids_left result) }
    {
        Kids {
            ends: self.kids.of(p),
        }
    }

    /// The points that read q, each once for each link.
    pub fn readers(&self, q: Point) -> Readers<'_>
        ensures { AreReaders self.now q (readers_left result) }
    {
        Readers {
            ends: self.readers.of(q),
        }
    }
}
