ghost use Rattle.std.specs.Prelude.{[], ◌≡◌, None, Some, is_some, OnOk, OnErr, option_copied};
ghost use Rattle.point_map.specs.Rows.{at, Holds, StandsOnce};
ghost use Rattle.row_map.specs.Turns.{IsAdded, IsRemoved};

use crate::Entry;
use inc_value::Point;
use slab::Slab;
use slot_map::SlotMap;
use std::alloc::{AllocError, Global};
use std::marker::Model;

/// A finite map from points to rows. A point is found by its number, which is the place of its row.
pub struct RowMap<R> {
    numbers: SlotMap<usize>,
    rows: Slab<Entry<R>>,
}

// (written out: whoever drops one proves one call, and no drop of its parts)
impl<R: Drop> Drop for RowMap<R> {
    fn drop(self) {
        let RowMap { numbers, rows } = self;
        drop(numbers);
        drop(rows);
    }
}

impl<R> Model for RowMap<R> {
    ghost use Rattle.point_map.specs.Rows.{Rows};
    ghost use Rattle.row_map.specs.Numbers.{rows_of, IsNumbered};

    ghost Value = { Rows R };

    ghost view = { λ m. rows_of m.rows.slots };

    ghost invariant = { λ m. IsNumbered m.numbers (rows_of m.rows.slots) };
}

impl<R> RowMap<R> {
    ghost use Rattle.std.specs.Option.{option_copied_mut};
    ghost use Rattle.std.specs.Borrow.{sem};
    ghost use Rattle.row_map.specs.Lends.{lends_row};

    /// No points, and no room. This takes no memory.
    pub fn new(alloc: Global) -> RowMap<R>
        ensures { result.places ≡ [] }
    {
        RowMap {
            numbers: SlotMap::new(alloc),
            rows: Slab::new(alloc),
        }
    }

    /// The row of a point, if it is there.
    #[inline]
    pub fn get(&self, p: Point) -> Option<&R>
        ensures value { option_copied result ≡ at self.now p }
        ensures once { StandsOnce self.now.places }
    {
        let number = *self.numbers.get(p)?;
        let entry = self.rows.get(number)?;
        Some(&entry.row)
    }

    /// The row of a point for writing, if it is there. What is written through it stays, and all else is as it was.
    #[inline]
    pub fn get_mut(&mut self, p: Point) -> Option<&mut R>
        ensures* writes_back { sem 𝓛 (lends_row R.row self.entry p result) }
        ensures value { option_copied_mut result ≡ at self.old p }
    {
        let number = *self.numbers.get(p)?;
        let entry = self.rows.get_mut(number)?;
        Some(&mut entry.row)
    }

    /// Whether the point is there.
    #[inline]
    pub fn holds(&self, p: Point) -> bool
        ensures value { result ≡ is_some (at self.now p) }
        ensures once { StandsOnce self.now.places }
    {
        self.numbers.holds(p)
    }

    /// Adds a point that isn't there, at a place that was vacant. Without memory nothing changes.
    pub fn add(&mut self, p: Point, row: R) -> Result<(), AllocError>
    where
        R: Drop,
        requires absent { at self.old p ≡ None }
        ensures added { OnOk result (IsAdded self.old self.new p row) }
        ensures err { OnErr result (self.new ≡ self.old) }
    {
        self.rows.reserve(1)?;
        self.numbers.add(p, self.rows.vacant_key())?;
        let _number = self.rows.insert_reserved(Entry { point: p, row });
        Ok(())
    }

    /// Takes a point off, and gives its row. Its place is vacant then.
    pub fn remove(&mut self, p: Point) -> R
        requires there { Holds self.old p }
        ensures value { at self.old p ≡ Some result }
        ensures removed { IsRemoved self.old self.new p }
    {
        let number = self.numbers.remove(p);
        let Entry { point: _, row } = self.rows.try_remove(number).unwrap();
        row
    }
}
