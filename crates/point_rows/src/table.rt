//! Rows of points as a new link reads and writes them.

use crate::rows::PointRows;
use height_order::HeightTable;
use inc_value::Point;
use link_table::{Kids, Readers};
use std::alloc::AllocError;

impl HeightTable for PointRows {
    ghost use Rattle.std.specs.Prelude.{ℕ};
    ghost use Rattle.point_map.specs.Rows.{Rows};
    ghost use Rattle.necessity.specs.Need.{Roots};

    ghost web = { λ s. record { heights = s.heights; links = s.links } };

    ghost Rest = { Roots × Rows ℕ };

    ghost rest = { λ s. (s.roots, s.heap) };

    fn level_of(&self, p: Point) -> u32 {
        PointRows::level_of(self, p)
    }

    fn set_level(&mut self, p: Point, height: u32) {
        PointRows::set_level(self, p, height);
    }

    fn add_link(&mut self, p: Point, q: Point) -> Result<(), AllocError> {
        PointRows::add_link(self, p, q)
    }

    fn remove_link(&mut self, p: Point, q: Point) {
        PointRows::remove_link(self, p, q);
    }

    fn kids(&self, p: Point) -> Kids<'_> {
        PointRows::kids(self, p)
    }

    fn readers(&self, q: Point) -> Readers<'_> {
        PointRows::readers(self, q)
    }
}
