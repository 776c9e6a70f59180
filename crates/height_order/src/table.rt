//! Tables of points with heights and links.
ghost use Rattle.std.specs.Prelude.{◌≡◌, Some, OnOk, OnErr};
ghost use Rattle.inc_value.specs.declared.node.Point.{Point};
ghost use Rattle.point_map.specs.Rows.{Holds, Changes};
ghost use Rattle.link_table.specs.Links.{Reads, KeepsLinks, OneLinkMore, AreKids, AreReaders};
ghost use Rattle.link_table.specs.Walks.{kids_left, readers_left};
ghost use Rattle.height_order.specs.Levels.{level};

use crate::levels::level_of;
use inc_value::Point;
use link_table::{Kids, LinkTable, Readers};
use point_map::PointMap;
use std::alloc::AllocError;

/// Points with heights and counted links between them, as a new link reads and writes them.
pub trait HeightTable {
    ghost use Rattle.height_order.specs.Levels.{Web};

    // the heights and the links
    ghost web: { Self → Web };

    // what is kept beside them
    ghost Rest: { Type 0 };

    ghost rest: { Self → Rest };

    /// The height of a point, 0 where it isn't there.
    fn level_of(&self, p: Point) -> u32
        ensures { result ≡ level (web self.now).heights p };

    /// Gives a point another height.
    fn set_level(&mut self, p: Point, height: u32)
        requires there { Holds (web self.old).heights p }
        ensures changes { Changes (web self.old).heights (web self.new).heights p (Some height) }
        ensures links { (web self.new).links ≡ (web self.old).links }
        ensures rest { rest self.new ≡ rest self.old };

    /// Makes p read q, once more. Without memory the links stay as they are.
    fn add_link(&mut self, p: Point, q: Point) -> Result<(), AllocError>
        requires reader { Holds (web self.old).heights p }
        requires kid { Holds (web self.old).heights q }
        ensures added { OnOk result (OneLinkMore (web self.old).links (web self.new).links p q) }
        ensures err { OnErr result (KeepsLinks (web self.old).links (web self.new).links) }
        ensures heights { (web self.new).heights ≡ (web self.old).heights }
        ensures rest { rest self.new ≡ rest self.old };

    /// Takes a link from p to q off, once. This takes no memory.
    fn remove_link(&mut self, p: Point, q: Point)
        requires there { Reads (web self.old).links p q }
        ensures removed { OneLinkMore (web self.new).links (web self.old).links p q }
        ensures heights { (web self.new).heights ≡ (web self.old).heights }
        ensures rest { rest self.new ≡ rest self.old };

    /// The points that p reads, each once for each link.
    fn kids(&self, p: Point) -> Kids<'_>
        ensures { AreKids (web self.now).links p (kids_left result) };

    /// The points that read q, each once for each link.
    fn readers(&self, q: Point) -> Readers<'_>
        ensures { AreReaders (web self.now).links q (readers_left result) };
}

/// Heights and links that stand in tables of their own.
pub(crate) struct Tables {
    pub(crate) heights: PointMap<u32>,
    pub(crate) links: LinkTable,
}

// (written out: whoever drops one proves one call, and no drop of its parts)
impl Drop for Tables {
    fn drop(self) {
        let Tables { heights, links } = self;
        drop(heights);
        drop(links);
    }
}

impl HeightTable for Tables {
    ghost use Rattle.height_order.specs.Levels.{Web};

    ghost web = { λ t. record { heights = t.heights; links = t.links } };

    ghost Rest = { Unit {0} };

    ghost rest = { λ _. tt };

    fn level_of(&self, p: Point) -> u32 {
        level_of(&self.heights, p)
    }

    fn set_level(&mut self, p: Point, height: u32) {
        self.heights.replace(p, height);
    }

    fn add_link(&mut self, p: Point, q: Point) -> Result<(), AllocError> {
        self.links.add(p, q)
    }

    fn remove_link(&mut self, p: Point, q: Point) {
        self.links.remove(p, q);
    }

    fn kids(&self, p: Point) -> Kids<'_> {
        self.links.kids(p)
    }

    fn readers(&self, q: Point) -> Readers<'_> {
        self.links.readers(q)
    }
}
