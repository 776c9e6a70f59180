//! Walks over the links of a point.
ghost use Rattle.std.specs.Prelude.{◌≡◌};
ghost use Rattle.link_table.specs.Ends.{points};
ghost use Rattle.link_table.specs.Walks.{kids_left, readers_left};

use crate::ends::End;
use inc_value::Point;

/// The points that a point reads, each once for each link. From [`LinkTable::kids`](crate::LinkTable::kids).
#[derive(Drop)]
pub struct Kids<'a> {
    pub(crate) ends: &'a [End],
}

/// The readers of a point, each once for each link. From [`LinkTable::readers`](crate::LinkTable::readers).
#[derive(Drop)]
pub struct Readers<'a> {
    pub(crate) ends: &'a [End],
}

impl<'a> Kids<'a> {
    /// The points at the other ends.
    #[inline]
    pub fn over(ends: &'a [End]) -> Kids<'a>
        ensures { kids_left result ≡ points ends.now }
    {
        Kids { ends }
    }
}

impl<'a> Readers<'a> {
    /// The points at the other ends.
    #[inline]
    pub fn over(ends: &'a [End]) -> Readers<'a>
        ensures { readers_left result ≡ points ends.now }
    {
        Readers { ends }
    }
}

impl<'a> Iterator for Kids<'a> {
    ghost use Rattle.std.specs.Iterator.{YieldsFirst, item_count};
    ghost use Rattle.link_table.specs.Walks.{kids_left};

    type Item = Point;

    ghost next_gives = { YieldsFirst kids_left };

    ghost remaining = { item_count kids_left };

    fn next(&mut self) -> Option<Point> {
        let Some((kid, rest)) = self.ends.split_first() else {
            return None;
        };
        self.ends = rest;
        Some(kid.point)
    }
}

impl<'a> Iterator for Readers<'a> {
    ghost use Rattle.std.specs.Iterator.{YieldsFirst, item_count};
    ghost use Rattle.link_table.specs.Walks.{readers_left};

    type Item = Point;

    ghost next_gives = { YieldsFirst readers_left };

    ghost remaining = { item_count readers_left };

    fn next(&mut self) -> Option<Point> {
        let Some((reader, rest)) = self.ends.split_first() else {
            return None;
        };
        self.ends = rest;
        Some(reader.point)
    }
}
