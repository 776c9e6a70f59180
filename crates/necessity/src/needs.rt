//! Roots and attached links, and which points are needed.
ghost use Rattle.std.specs.Prelude.{◌≡◌, [], ◌↔◌, IsTrue, OnOk, OnErr};
ghost use Rattle.inc_value.specs.declared.node.Point.{Point};
ghost use Rattle.link_table.specs.Links.{Reads, KeepsLinks, OneLinkMore, AreReaders, AreKids};
ghost use Rattle.link_table.specs.Walks.{readers_left, kids_left};
ghost use Rattle.necessity.specs.Need.{root_times, KeepsRoots, OneRootMore, IsRoot, IsNeeded, Leads};

use crate::cascade::{recount_kids, recount_link, settle};
use crate::need::{Need, Turn};
use crate::rows::{forget, need_of, open, put};
use inc_value::Point;
use link_table::{Kids, Link, LinkTable, Readers};
use point_map::PointMap;
use std::alloc::{AllocError, Global};
use std::marker::Model;

/// Roots and attached links between points, both counted. A point is needed where it is reached from a root.
pub struct Needs {
    links: LinkTable,
    rows: PointMap<Need>,
    attached: usize,
    waiting: Vec<Point>,
}

// (written out: whoever drops one proves one call, and no drop of its parts)
impl Drop for Needs {
    fn drop(self) {
        let Needs {
            links,
            rows,
            attached: _,
            waiting,
        } = self;
        drop(links);
        drop(rows);
        drop(waiting);
    }
}

impl Model for Needs {
    ghost use Rattle.std.specs.Prelude.{vec_capacity};
    ghost use Rattle.necessity.specs.Need.{Web};
    ghost use Rattle.necessity.specs.Counting.{roots_of, AreSoundNeeds};

    ghost Value = { Web };

    ghost view = { λ n. record { roots = roots_of n.rows; links = n.links } };

    ghost invariant = { λ n. AreSoundNeeds n.links n.rows n.attached n.waiting.items (vec_capacity n.waiting) };
}

impl Needs {
    /// No roots and no links. This takes no memory.
    pub fn new(alloc: Global) -> Needs
        ensures roots { (a : Point) → root_times result.roots a ≡ 0 }
        ensures links { result.links.all ≡ [] }
    {
        Needs {
            links: LinkTable::new(alloc),
            rows: PointMap::new(alloc),
            attached: 0,
            waiting: Vec::new(alloc),
        }
    }

    /// Puts a root on, once more. The error is want of memory, which leaves all as it was; a point that is
    /// a root 2^64 - 1 times finds none.
    pub fn make_needed(&mut self, p: Point) -> Result<(), AllocError>
        ensures root { OnOk result (OneRootMore self.old.roots self.new.roots p) }
        ensures links { KeepsLinks self.old.links self.new.links }
        ensures err { OnErr result (KeepsRoots self.old.roots self.new.roots) }
    {
        let need = need_of(&self.rows, p);
        let roots = need.roots.checked_add(1).ok_or(AllocError)?;
        self.rows.reserve(1)?;
        put(&mut self.rows, p, Need { roots, ..need });
        if need.is_above_zero() {
            return Ok(());
        }
        recount_kids(
            &self.links,
            &mut self.rows,
            &mut self.waiting,
            p,
            Turn::Needed,
        );
        settle(&self.links, &mut self.rows, &mut self.waiting, Turn::Needed);
        Ok(())
    }

    /// Takes a root off, once. This takes no memory.
    pub fn make_unneeded(&mut self, p: Point)
        requires root { IsRoot self.old p }
        ensures root { OneRootMore self.new.roots self.old.roots p }
        ensures links { KeepsLinks self.old.links self.new.links }
    {
        let need = need_of(&self.rows, p);
        let left = Need {
            roots: need.roots - 1,
            ..need
        };
        let _was = self.rows.replace(p, left);
        if left.is_above_zero() {
            return;
        }
        recount_kids(
            &self.links,
            &mut self.rows,
            &mut self.waiting,
            p,
            Turn::Unneeded,
        );
        settle(
            &self.links,
            &mut self.rows,
            &mut self.waiting,
            Turn::Unneeded,
        );
        forget(&self.links, &mut self.rows, p);
    }

    /// Makes p read q, once more. The error is want of memory, which leaves all as it was.
    pub fn attach(&mut self, p: Point, q: Point) -> Result<(), AllocError>
        requires acyclic { Leads self.old q p → ⊥ }
        ensures link { OnOk result (OneLinkMore self.old.links self.new.links p q) }
        ensures roots { KeepsRoots self.old.roots self.new.roots }
        ensures err { OnErr result (KeepsLinks self.old.links self.new.links) }
    {
        self.waiting.reserve(self.attached + 1)?;
        self.rows.reserve(2)?;
        self.links.add(p, q)?;
        self.attached += 1;
        open(&mut self.rows, p);
        open(&mut self.rows, q);
        recount_link(
            &self.links,
            &mut self.rows,
            &mut self.waiting,
            Link { reader: p, kid: q },
            Turn::Needed,
        );
        Ok(())
    }

    /// Takes a link from p to q off, once. This takes no memory.
    pub fn detach(&mut self, p: Point, q: Point)
        requires there { Reads self.old.links p q }
        ensures link { OneLinkMore self.new.links self.old.links p q }
        ensures roots { KeepsRoots self.old.roots self.new.roots }
    {
        self.links.remove(p, q);
        self.attached -= 1;
        recount_link(
            &self.links,
            &mut self.rows,
            &mut self.waiting,
            Link { reader: p, kid: q },
            Turn::Unneeded,
        );
        forget(&self.links, &mut self.rows, p);
        forget(&self.links, &mut self.rows, q);
    }

    /// Whether the point is a root.
    pub fn is_root(&self, p: Point) -> bool
        ensures { IsTrue result ↔ IsRoot self.now p }
    {
        need_of(&self.rows, p).roots > 0
    }

    /// Whether the point is a root, or reached from one over attached links.
    pub fn is_needed(&self, p: Point) -> bool
        ensures { IsTrue result ↔ IsNeeded self.now p }
    {
        need_of(&self.rows, p).is_above_zero()
    }

    /// Whether p reads q.
    pub fn reads(&self, p: Point, q: Point) -> bool
        ensures { IsTrue result ↔ Reads self.now.links p q }
    {
        self.links.reads(p, q)
    }

    /// The points that read q, each once for each link.
    pub fn readers(&self, q: Point) -> Readers<'_>
        ensures { AreReaders self.now.links q (readers_left result) }
    {
        self.links.readers(q)
    }

    /// The points that p reads, each once for each link.
    pub fn kids(&self, p: Point) -> Kids<'_>
        ensures { AreKids self.now.links p (kids_left result) }
    {
        self.links.kids(p)
    }
}
