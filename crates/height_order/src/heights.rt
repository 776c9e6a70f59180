//! Points with heights that rise along every link.
ghost use Rattle.std.specs.Prelude.{◌≡◌, ◌≤◌, None, Some, is_some, OnOk, OnErr};
ghost use Rattle.inc_value.specs.declared.node.Point.{Point};
ghost use Rattle.point_map.specs.Rows.{at, Holds, Changes, KeepsRows};
ghost use Rattle.link_table.specs.Links.{times, Reads, OneLinkMore};
ghost use Rattle.height_order.specs.Levels.{level, Rises, KeepsPoints, IsExact, Tells};
ghost use Rattle.height_order.specs.Answers.{IsLinkAnswer};

use crate::climb::ClimbQueue;
use crate::levels::{add_at, level_of};
use crate::linking::{adopt_all, make_link};
use crate::table::Tables;
use inc_value::Point;
use link_table::{Link, LinkTable};
use point_map::PointMap;
use std::alloc::{AllocError, Global};
use std::marker::Model;

/// Why a link isn't made.
#[derive(Drop)]
pub enum LinkFault {
    /// The kid leads to the reader already: these points, from the kid to the reader, each reading the next.
    Path(Vec<Point>),
    /// With the link there would be this chain of 130 points, each reading the next.
    Over(Vec<Point>),
    Memory,
}

impl From<AllocError> for LinkFault {
    ghost use Rattle.std.specs.Prelude.{◌≡◌};
    ghost use Rattle.height_order.specs.declared.heights.LinkFault.TheVariants.{Memory};

    ghost from_gives = { λ _ e. e ≡ Memory };

    fn from(_e: AllocError) -> LinkFault {
        LinkFault::Memory
    }
}

/// Points with heights from 0 to 128, and counted links between them. Each point stands higher than
/// every point that it reads.
pub struct Heights {
    alloc: Global,
    tables: Tables,
    queue: ClimbQueue,
}

// (written out: whoever drops one proves one call, and no drop of its parts)
impl Drop for Heights {
    fn drop(self) {
        let Heights {
            alloc: _,
            tables,
            queue,
        } = self;
        drop(tables);
        drop(queue);
    }
}

impl Model for Heights {
    ghost use Rattle.height_order.specs.Levels.{Web, AreSoundHeights};

    ghost Value = { Web };

    ghost view = { λ s. record { heights = s.tables.heights; links = s.tables.links } };

    ghost invariant = { λ s. AreSoundHeights s.tables.heights s.tables.links };
}

impl Heights {
    /// No points. This takes no memory.
    pub fn new(alloc: Global) -> Heights
        ensures points { (p : Point) → at result.heights p ≡ None }
        ensures links { (p q : Point) → times result.links p q ≡ 0 }
    {
        Heights {
            alloc,
            tables: Tables {
                heights: PointMap::new(alloc),
                links: LinkTable::new(alloc),
            },
            queue: ClimbQueue::new(alloc),
        }
    }

    /// Adds a point that isn't there, at height 0 and without links. Without memory nothing changes.
    pub fn add(&mut self, p: Point) -> Result<(), AllocError>
        requires absent { at self.old.heights p ≡ None }
        ensures added { OnOk result (Changes self.old.heights self.new.heights p (Some 0)) }
        ensures links { self.new.links ≡ self.old.links }
        ensures err { OnErr result (KeepsRows self.old.heights self.new.heights) }
    {
        self.add_at(p, 0)
    }

    /// Adds a point that isn't there, at a height of at most 128 and without links. Heights needn't be
    /// least: a point that is added above what it is to read moves nothing when it is linked. Without
    /// memory nothing changes.
    pub fn add_at(&mut self, p: Point, height: u32) -> Result<(), AllocError>
        requires absent { at self.old.heights p ≡ None }
        requires low { height ≤ 128 }
        ensures added { OnOk result (Changes self.old.heights self.new.heights p (Some height)) }
        ensures links { self.new.links ≡ self.old.links }
        ensures err { OnErr result (KeepsRows self.old.heights self.new.heights) }
    {
        add_at(&mut self.tables.heights, p, height)
    }

    /// Drops a point without links.
    pub fn drop_point(&mut self, p: Point)
        requires there { Holds self.old.heights p }
        requires reads_none { (q : Point) → times self.old.links p q ≡ 0 }
        requires unread { (q : Point) → times self.old.links q p ≡ 0 }
        ensures dropped { Changes self.old.heights self.new.heights p None }
        ensures links { self.new.links ≡ self.old.links }
    {
        self.tables.heights.remove(p);
    }

    /// Whether the point is there.
    pub fn holds(&self, p: Point) -> bool
        ensures { result ≡ is_some (at self.now.heights p) }
    {
        self.tables.heights.holds(p)
    }

    /// The height of a point, at most 128.
    pub fn height(&self, p: Point) -> u32
        requires there { Holds self.now.heights p }
        ensures height { result ≡ level self.now.heights p }
        ensures low { result ≤ 128 }
        ensures rises { Rises (Reads self.now.links) (level self.now.heights) }
    {
        level_of(&self.tables.heights, p)
    }

    /// Makes `p` read `q` once more. Each point whose height changes is appended to `moved`, once,
    /// whatever is answered. `Path`: `q` leads to `p`. `Over`: with the link some chain would have
    /// 130 points; `p`, `q` and all that they lead to are levelled before. A refusal leaves the links,
    /// and all but `Over` the heights. Where `p` is higher than `q` already heights stay.
    ///
    /// Points that lead to `p` and stand too low are lifted. Where one of them would pass 128 they are
    /// levelled, with those that they lead to and that their levels rest on. No other points but the
    /// readers of the lifted ones and the kids of the levelled ones are looked at.
    pub fn link(&mut self, p: Point, q: Point, moved: &mut Vec<Point>) -> Result<(), LinkFault>
        requires reader { Holds self.old.heights p }
        requires kid { Holds self.old.heights q }
        ensures { IsLinkAnswer self.old self.new p q moved.old.items moved.new.items result }
    {
        let new = Link { reader: p, kid: q };
        make_link(self.alloc, &mut self.tables, &mut self.queue, new, moved)
    }

    /// Takes one link off. Heights stay.
    pub fn unlink(&mut self, p: Point, q: Point)
        requires linked { Reads self.old.links p q }
        ensures unlinked { OneLinkMore self.new.links self.old.links p q }
        ensures heights { self.new.heights ≡ self.old.heights }
    {
        self.tables.links.remove(p, q);
    }

    /// Lowers each height to the length of its point's longest chain. Each point whose height changes is
    /// appended to `moved`, once. Without memory nothing changes.
    pub fn relevel(&mut self, moved: &mut Vec<Point>) -> Result<(), AllocError>
        ensures exact { OnOk result (IsExact self.new.heights self.new.links) }
        ensures links { self.new.links ≡ self.old.links }
        ensures points { KeepsPoints self.old.heights self.new.heights }
        ensures moved { Tells (level self.old.heights) (level self.new.heights) moved.old.items moved.new.items }
        ensures err { OnErr result (self.new ≡ self.old) }
    {
        let mut levels = PointMap::new(self.alloc);
        let levelled = adopt_all(&mut self.tables, &mut levels, moved);
        drop(levels);
        levelled
    }
}
