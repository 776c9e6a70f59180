//! One expert: its links, and whether it is stale.
ghost use Rattle.std.specs.Prelude.{◌≡◌, ◌↔◌, ◌<◌, ◌≤◌, ◌+◌, ◌++◌, length, true, false, IsTrue, IfOk, OnOk, OnErr, IsErrOf};
ghost use Rattle.inc_value.specs.Choice.{Among};
ghost use Rattle.expert_nodes.specs.Experts.{kids_of_expert, marked, taken_up, tidied, unlinked, with_link, without_link};

use crate::links::{
    Link, is_linked, lay_out, make_room, put_link, reserve_in_all, take_all, take_link,
};
use crate::queue::Queue;
use inc_value::NodeId;
use index_lists::IndexLists;
use point_map::PointMap;
use std::alloc::{AllocError, Global};
use std::marker::Model;

/// The greatest number of links of one expert.
const MOST_LINKS: usize = 4096;

/// Why a node isn't linked.
#[derive(Drop)]
pub enum LinkFault {
    /// The expert has 4,096 links.
    LinksFull,
    Memory,
}

/// Why a node isn't unlinked.
#[derive(Drop)]
pub enum UnlinkFault {
    /// The node isn't among those that the expert reads.
    NotLinked,
}

/// The links of one expert, and whether it is stale. The links stand in lists by index, so that one that is taken off moves
/// no other; an index has the places of each node's links. The nodes are laid out in one list when they are to be read.
pub(crate) struct Expert {
    // Those that were taken up, and the fresh ones.
    links: IndexLists<Link>,
    index: PointMap<Queue>,
    // The linked nodes in order, where they are tidy. There is always room for them.
    kids: Vec<NodeId>,
    // How many links are fresh.
    fresh: usize,
    tidy: bool,
    stale: bool,
    alloc: Global,
}

// (written out: whoever drops one proves one call, and no drop of its parts)
impl Drop for Expert {
    fn drop(self) {
        let Expert {
            links,
            index,
            kids,
            fresh: _,
            tidy: _,
            stale: _,
            alloc: _,
        } = self;
        drop(links);
        drop(index);
        drop(kids);
    }
}

impl Model for Expert {
    ghost use Rattle.std.specs.Prelude.{vec_capacity};
    ghost use Rattle.expert_nodes.specs.Experts.{Expert as Seen};
    ghost use Rattle.expert_nodes.specs.Links.{AreKept, fresh_of, kids_of, taken_of};

    ghost Value = { Seen };

    ghost view = { λ e. record {
      taken = kids_of (taken_of e.links);
      fresh = kids_of (fresh_of e.links);
      tidy = e.tidy;
      stale = e.stale;
    } };

    ghost invariant = { λ e. AreKept e.links e.index e.fresh (vec_capacity e.kids) e.tidy e.kids.items };
}

/// How many links are fresh once one is off that had been taken up, or was fresh.
fn left_fresh(fresh: usize, taken: bool) -> usize
    requires some { taken ≡ false → 0 < fresh }
    ensures taken { taken ≡ true → result ≡ fresh }
    ensures fresh { taken ≡ false → result + 1 ≡ fresh }
{
    if taken { fresh } else { fresh - 1 }
}

impl Expert {
    /// No links, and not stale. This takes no memory.
    pub(crate) fn new(alloc: Global) -> Expert
        ensures { result ≡ unlinked }
    {
        Expert {
            links: IndexLists::new(alloc),
            index: PointMap::new(alloc),
            kids: Vec::new(alloc),
            fresh: 0,
            tidy: true,
            stale: false,
            alloc,
        }
    }

    /// Links a node behind the others, unless there are 4,096 links. A refusal changes nothing.
    pub(crate) fn link(&mut self, kid: NodeId) -> Result<(), LinkFault>
        ensures linked { OnOk result (self.new ≡ with_link kid self.old) }
        ensures full { IsErrOf result LinkFault.LinksFull ↔ (4096 ≤ length (kids_of_expert self.old)) }
        ensures err { OnErr result (self.new ≡ self.old) }
    {
        let count = self.links.len();
        if count >= MOST_LINKS {
            return Err(LinkFault::LinksFull);
        }
        match reserve_in_all(&mut self.kids, count + 1) {
            Ok(()) => {}
            Err(AllocError) => return Err(LinkFault::Memory),
        }
        match make_room(self.alloc, &mut self.links, &mut self.index, kid) {
            Ok(()) => {}
            Err(AllocError) => return Err(LinkFault::Memory),
        }
        put_link(&mut self.links, &mut self.index, kid);
        self.fresh += 1;
        self.tidy = false;
        Ok(())
    }

    /// Takes off the first link of a node, if it is linked. The answer is whether that had been taken up.
    pub(crate) fn unlink(&mut self, kid: NodeId) -> Result<bool, UnlinkFault>
        ensures unlinked { IfOk result (λ taken. self.new ≡ without_link kid taken self.old) }
        ensures there { OnOk result (Among kid (kids_of_expert self.old)) }
        ensures taken { IfOk result (λ taken. taken ≡ true ↔ Among kid self.old.taken) }
        ensures absent { OnErr result (Among kid (kids_of_expert self.old) → ⊥) }
        ensures err { OnErr result (self.new ≡ self.old) }
    {
        match take_link(&mut self.links, &mut self.index, kid) {
            Ok(taken) => {
                self.fresh = left_fresh(self.fresh, taken);
                self.tidy = false;
                Ok(taken)
            }
            Err(fault) => Err(fault),
        }
    }

    /// Lays the linked nodes out in one list, if they aren't. This takes no memory.
    pub(crate) fn tidy(&mut self)
        ensures { self.new ≡ tidied self.old }
    {
        if self.tidy {
            return;
        }
        lay_out(&self.links, &mut self.kids);
        self.tidy = true;
    }

    /// All links are taken up, and the nodes laid out. This takes no memory.
    pub(crate) fn take_up(&mut self)
        ensures { self.new ≡ taken_up self.old }
    {
        self.tidy();
        take_all(&mut self.links);
        self.fresh = 0;
    }

    /// The linked nodes in order, where they are tidy.
    pub(crate) fn kids(&self) -> &[NodeId]
        requires tidy { self.now.tidy ≡ true }
        ensures { result.now ≡ kids_of_expert self.now }
    {
        self.kids.as_slice()
    }

    /// Whether there are 4,096 links.
    pub(crate) fn is_full(&self) -> bool
        ensures { IsTrue result ↔ (4096 ≤ length (kids_of_expert self.now)) }
    {
        self.links.len() >= MOST_LINKS
    }

    /// Whether a node is linked.
    pub(crate) fn is_linked(&self, kid: NodeId) -> bool
        ensures { IsTrue result ↔ Among kid (kids_of_expert self.now) }
    {
        is_linked(&self.links, &self.index, kid)
    }

    /// How many links were taken up.
    pub(crate) fn taken(&self) -> usize
        ensures { result ≡ length self.now.taken }
    {
        self.links.len() - self.fresh
    }

    /// Whether it is stale.
    pub(crate) fn is_stale(&self) -> bool
        ensures { result ≡ self.now.stale }
    {
        self.stale
    }

    /// Makes it stale, or no more so.
    pub(crate) fn mark(&mut self, stale: bool)
        ensures { self.new ≡ marked stale self.old }
    {
        self.stale = stale;
    }
}
