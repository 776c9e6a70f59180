ghost use Rattle.std.specs.Prelude.{[], ℕ, ◌≡◌, ◌≢◌, ◌<◌, ◌≤◌, None, Some, is_some, IsSome, IsTrue, IsFalse, IfOk, OnOk, OnErr, option_copied, option_map, slice_set, length};
ghost use Rattle.point_map.specs.Rows.{at, Holds, Changes, KeepsRows};
ghost use Rattle.slot_map.specs.Slots.{cell, IsFreeCell};

use inc_value::{NodeId, Part, Point};
use point_map::PointMap;
use std::alloc::{AllocError, Global};
use std::marker::Model;
use std::mem;

/// A finite map from points to rows. The main point of a node is found by one index and one comparison, unless its
/// slot's cell has another generation.
pub struct SlotMap<R> {
    cells: Vec<Option<(Point, R)>>,
    beside: PointMap<R>,
}

// (written out: whoever drops one proves one call, and no drop of its parts)
impl<R: Drop> Drop for SlotMap<R> {
    fn drop(self) {
        let SlotMap { cells, beside } = self;
        drop(cells);
        drop(beside);
    }
}

impl<R> Model for SlotMap<R> {
    ghost use Rattle.point_map.specs.Rows.{Rows};
    ghost use Rattle.slot_map.specs.Slots.{rows_of, IsBySlot, IsApart};

    ghost Value = { Rows R };

    ghost view = { λ m. rows_of m.cells.items m.beside };

    ghost invariant = { λ m. IsBySlot m.cells.items × IsApart m.cells.items m.beside };
}

// Whether the cell of a point's slot has the point.
#[inline]
fn has_cell<R>(cells: &[Option<(Point, R)>], p: Point) -> bool
    ensures found { IsTrue result → (r : R) × (cell cells.now p.node.slot ≡ Some (p, r)) }
    ensures other { IsFalse result → (r : R) → cell cells.now p.node.slot ≢ Some (p, r) }
{
    if p.node.slot >= cells.len() {
        return false;
    }
    match &cells[p.node.slot] {
        Some((q, _row)) => *q == p,
        None => false,
    }
}

// The row in a cell that has one.
#[inline]
fn row_at<R>(cells: &[Option<(Point, R)>], i: usize) -> &R
    requires within { i < length cells.now }
    requires some { IsSome (cell cells.now i) }
    ensures { Some result.now ≡ option_map (λ e. e.1) (cell cells.now i) }
{
    let (_point, row) = cells[i].as_ref().unwrap();
    row
}

// The row of a point that has no cell. It stands apart: callers take in the code that finds all others, and no more.
// The point comes in its parts, so that none is copied into memory for the call.
#[inline(never)]
fn find_beside<R>(beside: &PointMap<R>, slot: usize, gen_: u64, part: Part) -> Option<&R>
    ensures { option_copied result ≡ at beside.now (record { node = record { slot = slot; gen_ = gen_ }; part = part }) }
{
    beside.get(Point {
        node: NodeId { slot, gen_ },
        part,
    })
}

// Puts something in place of what stands in a cell, which is given back.
fn exchange<R>(cells: &mut Vec<Option<(Point, R)>>, i: usize, new: Option<(Point, R)>) -> R
    requires within { i < length cells.old.items }
    requires some { IsSome (cell cells.old.items i) }
    ensures was { Some result ≡ option_map (λ e. e.1) (cell cells.old.items i) }
    ensures now { cells.new.items ≡ slice_set cells.old.items i new }
{
    let (_point, row) = mem::replace(&mut cells[i], new).unwrap();
    row
}

// Puts a point with its row into a cell.
fn fill<R: Drop>(cells: &mut Vec<Option<(Point, R)>>, i: usize, new: (Point, R))
    requires { i < length cells.old.items }
    ensures { cells.new.items ≡ slice_set cells.old.items i (Some new) }
{
    cells[i] = Some(new);
}

// Makes so many cells that a slot has its own, the new ones empty.
fn widen<R: Drop>(cells: &mut Vec<Option<(Point, R)>>, slot: usize) -> Result<(), AllocError>
    ensures cells { (i : ℕ) → cell cells.new.items i ≡ cell cells.old.items i }
    ensures wide { OnOk result (slot < length cells.new.items) }
{
    while cells.len() <= slot {
        cells.push(None)?;
    }
    Ok(())
}

// Makes room for a point, and tells whether it is in the cell of its slot.
fn open<R: Drop>(
    cells: &mut Vec<Option<(Point, R)>>,
    beside: &mut PointMap<R>,
    p: Point,
) -> Result<bool, AllocError>
    ensures cells { (i : ℕ) → cell cells.new.items i ≡ cell cells.old.items i }
    ensures beside { KeepsRows beside.old beside.new }
    ensures in_cell { IfOk result (λ here. IsTrue here → IsFreeCell cells.new.items p) }
    ensures outside { IfOk result (λ here. IsFalse here → 0 < beside.new.spare) }
{
    if p.part == Part::Main {
        widen(cells, p.node.slot)?;
        if cells[p.node.slot].is_none() {
            return Ok(true);
        }
    }
    beside.reserve(1)?;
    Ok(false)
}

impl<R> SlotMap<R> {
    ghost use Rattle.std.specs.Option.{option_copied_mut};
    ghost use Rattle.std.specs.Borrow.{sem};
    ghost use Rattle.slot_map.specs.Lends.{lends_row};

    /// No points, and no room. This takes no memory.
    pub fn new(alloc: Global) -> SlotMap<R>
        ensures { result.places ≡ [] }
    {
        SlotMap {
            cells: Vec::new(alloc),
            beside: PointMap::new(alloc),
        }
    }

    /// The row of a point, if it is there.
    #[inline]
    pub fn get(&self, p: Point) -> Option<&R>
        ensures { option_copied result ≡ at self.now p }
    {
        if has_cell(&self.cells, p) {
            return Some(row_at(&self.cells, p.node.slot));
        }
        find_beside(&self.beside, p.node.slot, p.node.gen_, p.part)
    }

    /// The row of a point for writing, if it is there. What is written through it stays, and all else is as it was.
    #[inline]
    pub fn get_mut(&mut self, p: Point) -> Option<&mut R>
        ensures* writes_back { sem 𝓛 (lends_row R.row self.entry p result) }
        ensures value { option_copied_mut result ≡ at self.old p }
    {
        if has_cell(&self.cells, p) {
            let there = self.cells[p.node.slot].as_mut().unwrap();
            return Some(&mut there.1);
        }
        if !self.beside.holds(p) {
            return None;
        }
        let row = self.beside.get_mut(p).unwrap();
        Some(row)
    }

    /// Whether the point is there.
    #[inline]
    pub fn holds(&self, p: Point) -> bool
        ensures { result ≡ is_some (at self.now p) }
    {
        self.get(p).is_some()
    }

    /// Adds a point that isn't there. Without memory nothing changes.
    pub fn add(&mut self, p: Point, row: R) -> Result<(), AllocError>
    where
        R: Drop,
        requires absent { at self.old p ≡ None }
        ensures added { OnOk result (Changes self.old self.new p (Some row)) }
        ensures err { OnErr result (KeepsRows self.old self.new) }
    {
        if open(&mut self.cells, &mut self.beside, p)? {
            fill(&mut self.cells, p.node.slot, (p, row));
        } else {
            self.beside.insert(p, row);
        }
        Ok(())
    }

    /// Puts another row in place of that of a point, which is given back.
    pub fn replace(&mut self, p: Point, row: R) -> R
        requires there { Holds self.old p }
        ensures value { at self.old p ≡ Some result }
        ensures changes { Changes self.old self.new p (Some row) }
    {
        if has_cell(&self.cells, p) {
            return exchange(&mut self.cells, p.node.slot, Some((p, row)));
        }
        self.beside.replace(p, row)
    }

    /// Takes a point off, and gives its row.
    pub fn remove(&mut self, p: Point) -> R
        requires there { Holds self.old p }
        ensures value { at self.old p ≡ Some result }
        ensures changes { Changes self.old self.new p None }
    {
        if has_cell(&self.cells, p) {
            return exchange(&mut self.cells, p.node.slot, None);
        }
        self.beside.remove(p)
    }
}
