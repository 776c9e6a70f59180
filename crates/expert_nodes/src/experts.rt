//! The links of each expert, and which experts are stale.
ghost use Rattle.std.specs.Prelude.{◌≡◌, ◌↔◌, ◌≤◌, [], length, true, false, None, Some, is_some, IsTrue, IfOk, OnOk, OnErr, IsErrOf};
ghost use Rattle.inc_value.specs.Choice.{Among};
ghost use Rattle.expert_nodes.specs.Experts.{ExpertChanges, IsCreated, KeepsExperts, expert_at, expert_of, is_stale_at, is_tidy_at, kids_at};
ghost use Rattle.expert_nodes.specs.Experts.{marked, point_of, taken_at, taken_up, tidied, unlinked, with_link, without_link};

use crate::expert::{Expert, LinkFault, UnlinkFault};
use inc_value::{NodeId, Part, Point};
use point_map::PointMap;
use std::alloc::{AllocError, Global};
use std::marker::Model;

/// The experts that were created: of each the nodes that it reads at present, in order, and whether it is stale. `link` and
/// `unlink` take constant time, whatever the number of links. Links are fresh until all are taken up. Only `create` and
/// `link` take memory.
pub struct Experts {
    experts: PointMap<Expert>,
    alloc: Global,
}

// (written out: whoever drops one proves one call, and no drop of its parts)
impl Drop for Experts {
    fn drop(self) {
        let Experts { experts, alloc: _ } = self;
        drop(experts);
    }
}

impl Model for Experts {
    ghost use Rattle.std.specs.Prelude.{List};
    ghost use Rattle.expert_nodes.specs.Experts.{ExpertPlace};

    ghost Value = { List ExpertPlace };

    ghost view = { λ e. e.experts.places };
}

// The point at which an expert is kept.
fn point_of(id: NodeId) -> Point
    ensures { result ≡ point_of id }
{
    Point {
        node: id,
        part: Part::Main,
    }
}

impl Experts {
    /// No experts. This takes no memory.
    pub fn new(alloc: Global) -> Experts
        ensures { result ≡ [] }
    {
        Experts {
            experts: PointMap::new(alloc),
            alloc,
        }
    }

    /// An expert that wasn't created before, without links and not stale. Fails only for want of memory, and then nothing
    /// changes.
    pub fn create(&mut self, id: NodeId) -> Result<(), AllocError>
        requires absent { expert_at self.old id ≡ None }
        ensures created { OnOk result (ExpertChanges self.old self.new id (Some unlinked)) }
        ensures err { OnErr result (self.new ≡ self.old) }
    {
        self.experts.reserve(1)?;
        self.experts.insert(point_of(id), Expert::new(self.alloc));
        Ok(())
    }

    /// Whether an expert was created.
    pub fn holds(&self, id: NodeId) -> bool
        ensures { result ≡ is_some (expert_at self.now id) }
    {
        self.experts.holds(point_of(id))
    }

    /// An expert is no more, and may be created again. This takes no memory.
    pub fn forget(&mut self, id: NodeId)
        requires created { IsCreated self.old id }
        ensures { ExpertChanges self.old self.new id None }
    {
        drop(self.experts.remove(point_of(id)));
    }

    /// Links a node behind the others of an expert, unless that has 4,096 links. A node may be linked more than once.
    /// A refusal changes nothing.
    pub fn link(&mut self, id: NodeId, kid: NodeId) -> Result<(), LinkFault>
        requires created { IsCreated self.old id }
        ensures linked { OnOk result (ExpertChanges self.old self.new id (Some (with_link kid (expert_of self.old id)))) }
        ensures full { IsErrOf result LinkFault.LinksFull ↔ (4096 ≤ length (kids_at self.old id)) }
        ensures err { OnErr result (KeepsExperts self.old self.new) }
    {
        let expert = self.experts.get_mut(point_of(id)).unwrap();
        expert.link(kid)
    }

    /// Takes off the first link of a node; the others stay in order. The answer is whether it had been taken up. Refused
    /// exactly where the node isn't linked, and then nothing changes. This takes no memory.
    pub fn unlink(&mut self, id: NodeId, kid: NodeId) -> Result<bool, UnlinkFault>
        requires created { IsCreated self.old id }
        ensures unlinked { IfOk result (λ taken. ExpertChanges self.old self.new id (Some (without_link kid taken (expert_of self.old id)))) }
        ensures there { OnOk result (Among kid (kids_at self.old id)) }
        ensures taken { IfOk result (λ taken. taken ≡ true ↔ Among kid (taken_at self.old id)) }
        ensures absent { OnErr result (Among kid (kids_at self.old id) → ⊥) }
        ensures err { OnErr result (KeepsExperts self.old self.new) }
    {
        let expert = self.experts.get_mut(point_of(id)).unwrap();
        expert.unlink(kid)
    }

    /// Lays the nodes that an expert reads out in one list, for `kids`. Where nothing was linked or unlinked since that was
    /// last done it does nothing; else it costs as much as there are links. This takes no memory.
    pub fn tidy(&mut self, id: NodeId)
        requires created { IsCreated self.old id }
        ensures { ExpertChanges self.old self.new id (Some (tidied (expert_of self.old id))) }
    {
        let expert = self.experts.get_mut(point_of(id)).unwrap();
        expert.tidy();
    }

    /// All links of an expert are taken up, and its nodes tidy. This takes no memory.
    pub fn take_up(&mut self, id: NodeId)
        requires created { IsCreated self.old id }
        ensures { ExpertChanges self.old self.new id (Some (taken_up (expert_of self.old id))) }
    {
        let expert = self.experts.get_mut(point_of(id)).unwrap();
        expert.take_up();
    }

    /// The nodes that an expert reads, in order, where they are tidy.
    pub fn kids(&self, id: NodeId) -> &[NodeId]
        requires created { IsCreated self.now id }
        requires tidy { is_tidy_at self.now id ≡ true }
        ensures { result.now ≡ kids_at self.now id }
    {
        self.experts.get(point_of(id)).unwrap().kids()
    }

    /// Whether an expert has 4,096 links.
    pub fn is_full(&self, id: NodeId) -> bool
        requires created { IsCreated self.now id }
        ensures { IsTrue result ↔ (4096 ≤ length (kids_at self.now id)) }
    {
        self.experts.get(point_of(id)).unwrap().is_full()
    }

    /// Whether an expert reads a node. This takes constant time.
    pub fn is_linked(&self, id: NodeId, kid: NodeId) -> bool
        requires created { IsCreated self.now id }
        ensures { IsTrue result ↔ Among kid (kids_at self.now id) }
    {
        self.experts.get(point_of(id)).unwrap().is_linked(kid)
    }

    /// How many links of an expert were taken up: the fresh ones are behind these.
    pub fn taken(&self, id: NodeId) -> usize
        requires created { IsCreated self.now id }
        ensures { result ≡ length (taken_at self.now id) }
    {
        self.experts.get(point_of(id)).unwrap().taken()
    }

    /// Makes an expert stale. This takes no memory.
    pub fn make_stale(&mut self, id: NodeId)
        requires created { IsCreated self.old id }
        ensures { ExpertChanges self.old self.new id (Some (marked true (expert_of self.old id))) }
    {
        self.mark(id, true);
    }

    /// An expert is no more stale. This takes no memory.
    pub fn clear_stale(&mut self, id: NodeId)
        requires created { IsCreated self.old id }
        ensures { ExpertChanges self.old self.new id (Some (marked false (expert_of self.old id))) }
    {
        self.mark(id, false);
    }

    /// Whether an expert was made stale since it was created or last cleared.
    pub fn is_stale(&self, id: NodeId) -> bool
        requires created { IsCreated self.now id }
        ensures { result ≡ is_stale_at self.now id }
    {
        self.experts.get(point_of(id)).unwrap().is_stale()
    }

    fn mark(&mut self, id: NodeId, stale: bool)
        requires created { IsCreated self.old id }
        ensures { ExpertChanges self.old self.new id (Some (marked stale (expert_of self.old id))) }
    {
        let expert = self.experts.get_mut(point_of(id)).unwrap();
        expert.mark(stale);
    }
}
