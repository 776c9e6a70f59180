//! Who looks at which node.
ghost use Rattle.std.specs.Prelude.{◌≡◌, ◌<◌, ◌≤◌, ℕ, filter, length, OnOk};
ghost use Rattle.inc_value.specs.Choice.{Among};
ghost use Rattle.observers.specs.Keeping.{is_used, listed_at, LooksAll, CoversNews, CoversNode, StayDue, KeepsListed};

use crate::due::Due;
use crate::observer::{Observer, is_used};
use inc_value::{NodeId, Point};
use point_map::PointMap;
use std::alloc::{AllocError, Global};

/// The places of the observers that look at a node.
#[derive(Drop)]
pub(crate) struct Looking {
    pub places: Vec<u32>,
}

/// Puts an observer behind those that look at a node. Without memory no observer went.
pub(crate) fn list(
    alloc: Global,
    looking: &mut PointMap<Looking>,
    node: NodeId,
    place: u32,
) -> Result<(), AllocError>
    ensures listed { OnOk result (Among place (listed_at looking.new node)) }
    ensures kept { KeepsListed looking.old looking.new }
{
    let p = Point::main(node);
    if let Some(there) = looking.get_mut(p) {
        there.places.push(place)?;
        return Ok(());
    }
    looking.reserve(1)?;
    let mut places = Vec::new(alloc);
    places.push(place)?;
    looking.insert(p, Looking { places });
    Ok(())
}

/// The observers in use of these nodes are due. Those that were ended go from the nodes' lists. This takes no memory.
pub(crate) fn gather(
    made: &[Observer],
    looking: &mut PointMap<Looking>,
    due: &mut Due,
    news: &[NodeId],
)
    requires looks { LooksAll made.now looking.old }
    requires width { length made.now ≤ due.old.width }
    ensures looks { LooksAll made.now looking.new }
    ensures covers { CoversNews made.now news.now due.new.places }
    ensures stay { StayDue due.old.places due.new.places }
    ensures width { due.new.width ≡ due.old.width }
{
    for node in news {
        look(made, looking, due, *node);
    }
}

/// The observers in use of a node are due.
fn look(made: &[Observer], looking: &mut PointMap<Looking>, due: &mut Due, node: NodeId)
    requires looks { LooksAll made.now looking.old }
    requires width { length made.now ≤ due.old.width }
    ensures looks { LooksAll made.now looking.new }
    ensures covers { CoversNode made.now node due.new.places }
    ensures stay { StayDue due.old.places due.new.places }
    ensures width { due.new.width ≡ due.old.width }
{
    let Some(there) = looking.get_mut(Point::main(node)) else {
        return;
    };
    keep_used(made, &mut there.places);
    put_all(due, &there.places);
}

/// Those go that aren't in use.
fn keep_used(made: &[Observer], places: &mut Vec<u32>)
    ensures { places.new.items ≡ filter (is_used made.now) places.old.items }
{
    places.retain(|place| is_used(made, *place));
}

/// These places are due.
fn put_all(due: &mut Due, places: &[u32])
    ensures there { (i : ℕ) → Among i places.now → i < due.old.width → Among i due.new.places }
    ensures stay { StayDue due.old.places due.new.places }
    ensures width { due.new.width ≡ due.old.width }
{
    for place in places {
        due.put(*place);
    }
}
