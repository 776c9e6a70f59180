//! Links that are put on, also in a second try, and links and roots that are taken off.
ghost use Rattle.std.specs.Prelude.{◌≡◌, ◌≢◌, ◌⊎◌, ◌↔◌, ◌<◌, [], true, Some, IsTrue, IsFalse};
ghost use Rattle.inc_value.specs.declared.node.Point.{Point};
ghost use Rattle.point_map.specs.Rows.{at};
ghost use Rattle.link_table.specs.Links.{Reads};
ghost use Rattle.necessity.specs.Need.{IsRoot};
ghost use Rattle.necessary_graph.specs.Part.{Needed, IsInStep, web};
ghost use Rattle.necessary_graph.specs.Sweep.{IsUnlinked, IsUnrooted};
ghost use Rattle.node_outcomes.specs.Row.{stage_in};
ghost use Rattle.wiring.specs.Answers.{ConnectAnswers, LinkAnswers};
ghost use Rattle.wiring.specs.Kept.{IsKept};
ghost use Rattle.wiring.specs.Refusing.{IsWhy};
ghost use Rattle.wiring.specs.Wiring.{MayRead, IsSpared, IsTarget};
ghost use Rattle.wiring.specs.Graph.{rowless};

use crate::refused::Refused;
use crate::work::Work;
use inc_value::Point;
use necessary_graph::{Leaves, LinkFault};
use node_arena::Arena;
use node_outcomes::{Progress, Stage, is_gated};
use slot_map::SlotMap;
use std::alloc::AllocError;

/// The points without a row, which are those of dead nodes: they are there only while they are needed.
#[derive(Drop)]
pub(crate) struct Rowless<'a> {
    pub rows: &'a SlotMap<Progress>,
}

impl<'a> Leaves for Rowless<'a> {
    ghost use Rattle.std.specs.Prelude.{not, is_some};
    ghost use Rattle.point_map.specs.Rows.{at};

    ghost is_leaf = { λ s p. not (is_some (at s.rows.now p)) };

    fn has(&self, p: Point) -> bool {
        !self.rows.holds(p)
    }
}

impl Work {
    /// Links a needed point to what it reads. Where the link makes a circle or a chain that is too long, links that weren't
    /// confirmed in this round are taken off, and it is tried again. It is refused for good once all of them are off. False
    /// where the reader isn't needed any more then, or waits for its gate.
    pub fn connect(&mut self, arena: &Arena, p: Point, q: Point) -> Result<bool, Refused>
        requires needed { Needed self.old.graph p }
        requires reader { MayRead self.old p q }
        requires spared { IsSpared arena.now self.old p }
        requires target { IsTarget arena.now self.old q }
        requires kept { IsKept arena.now self.old }
        ensures { ConnectAnswers arena.now self.old self.new p q result }
    {
        while let Err(fault) = self.try_link(arena, p, q) {
            if self.is_final(&fault) {
                return Err(refusal(q, fault));
            }
            let gated = is_gated(&self.rows, p);
            self.make_way(arena, points_of(&fault));
            drop(fault);
            if !self.is_still(p, gated) {
                return Ok(false);
            }
        }
        Ok(true)
    }

    /// Whether a link that is refused so isn't tried again.
    fn is_final(&self, fault: &LinkFault) -> bool
        ensures strict { IsTrue result → (self.now.retries ≡ 0) ⊎ (fault.now ≡ LinkFault.Memory) }
        ensures retried { IsFalse result → 0 < self.now.retries }
        ensures walked { IsFalse result → fault.now ≢ LinkFault.Memory }
    {
        match fault {
            LinkFault::Memory => true,
            LinkFault::Path(_) | LinkFault::Over(_) => self.retries == 0,
        }
    }

    /// Whether a point is needed and, if it had more than its gate's link, wasn't put back to that.
    fn is_still(&self, p: Point, gated: bool) -> bool
        ensures { IsTrue result ↔ (Needed self.now.graph p
            × (stage_in (at self.now.rows p) ≡ Some Stage.Gated → IsTrue gated)) }
    {
        self.graph.is_needed(p) && (gated || !is_gated(&self.rows, p))
    }

    /// Links a needed point to what it reads, if that makes no circle and no chain that is too long.
    fn try_link(&mut self, arena: &Arena, p: Point, q: Point) -> Result<(), LinkFault>
        requires needed { Needed self.old.graph p }
        requires reader { MayRead self.old p q }
        requires target { IsTarget arena.now self.old q }
        requires kept { IsKept arena.now self.old }
        ensures { LinkAnswers arena.now self.old self.new p q result }
    {
        let _ = arena;
        let opened = match self.make_room(q) {
            Ok(opened) => opened,
            Err(AllocError) => return Err(LinkFault::Memory),
        };
        match self.graph.link(p, q) {
            Ok(newly) => {
                self.wake(q, newly);
                Ok(())
            }
            Err(fault) => {
                self.close(q, opened);
                Err(fault)
            }
        }
    }

    /// Takes a link off, once. What is no longer needed then loses its links and leaves the heap, and points of dead nodes
    /// that are no longer needed are dropped. This takes no memory.
    pub fn unlink(&mut self, p: Point, q: Point)
        requires linked { Reads self.old.graph.links p q }
        ensures unlinked { IsUnlinked (rowless self.old) self.old.graph self.new.graph p q }
        ensures step { IsInStep self.new.graph }
        ensures rest { self.new ≡ record self.old { graph = self.new.graph } }
    {
        let rowless = Rowless { rows: &self.rows };
        self.graph.unlink(p, q, &rowless);
    }

    /// Takes a root off, once. What goes with it is what goes with a link.
    pub fn root_off(&mut self, p: Point)
        requires root { IsRoot (web self.old.graph) p }
        ensures unrooted { IsUnrooted (rowless self.old) self.old.graph self.new.graph p }
        ensures step { IsInStep self.new.graph }
        ensures rest { self.new ≡ record self.old { graph = self.new.graph } }
    {
        let rowless = Rowless { rows: &self.rows };
        self.graph.root_off(p, &rowless);
    }
}

/// The points that a fault tells.
fn points_of(fault: &LinkFault) -> &[Point] {
    match fault {
        LinkFault::Path(points) | LinkFault::Over(points) => points.as_slice(),
        LinkFault::Memory => &[],
    }
}

/// Why a stabilize is refused where a link to the point is.
fn refusal(q: Point, fault: LinkFault) -> Refused
    ensures { IsWhy q fault result }
{
    match fault {
        LinkFault::Memory => Refused::Memory,
        LinkFault::Over(points) => Refused::Height(points),
        LinkFault::Path(mut points) => match points.push(q) {
            Ok(()) => Refused::Cycle(points),
            Err(_) => Refused::Memory,
        },
    }
}
