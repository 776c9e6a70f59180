//! The observers of a graph.
ghost use Rattle.std.specs.Prelude.{◌≡◌, ◌↔◌, ◌++◌, ◌∷◌, [], ◌<◌, ◌≤◌, ◌-◌, ◌^◌, None, Some, length, drop, IfOk, IfErr, OnOk, OnErr, IsOk, IsErr, IsErrOf, IsSome, slice_set};
ghost use Rattle.observers.specs.Observers.{new_observer, ended, in_use, node_at, shown_at, watched, told_by, notices_of, IsCurrent, AllLight};

use crate::due::Due;
use crate::looking::{Looking, gather, list};
use crate::notice::Notice;
use crate::observer::{Observer, Watch, begin, is_open, node_at, nodes_in_use};
use crate::settle::{Settled, finish};
use crate::sight::Sight;
use inc_value::{NodeId, ObsId, Outcome};
use point_map::PointMap;
use std::alloc::{AllocError, Global};
use std::marker::Model;
use std::mem;

/// Why no observer is made.
#[derive(Clone, Copy, PartialEq, Eq)]
pub enum ObserveFault {
    /// There is no further number for one.
    TooMany,
    Memory,
}

/// Why an observer is neither ended nor watched.
#[derive(Clone, Copy, PartialEq, Eq)]
pub enum UseFault {
    /// It was never made, or it was ended.
    Unknown,
}

/// Why an observer shows nothing.
#[derive(Clone, Copy, PartialEq, Eq)]
pub enum ValueFault {
    /// It was never made, or it was ended.
    Unknown,
    /// No round ended since it was made.
    NotStabilized,
}

/// The observers that were made, in order, what each shows, and what was told of watched ones last. They know nothing of how
/// nodes are kept up to date: what they show stays until they are told of a round.
pub struct Observers {
    alloc: Global,
    made: Vec<Observer>,
    /// By node those that look at it and are in use. Others may be among them, which go when the node is looked at.
    looking: PointMap<Looking>,
    /// Those that the next round looks at whatever it does: which show nothing yet, or of which nothing was told yet.
    due: Due,
    /// What a round makes of observers and tells, while it ends. There is room for all observers, and nothing between any
    /// two calls.
    settled: Vec<Settled>,
    told: Vec<Notice>,
    notices: Vec<Notice>,
    /// The room of the list of nodes that were news in a round before.
    room: Vec<NodeId>,
}

// (written out: whoever drops one proves one call, and no drop of its parts)
impl Drop for Observers {
    fn drop(self) {
        let Observers {
            alloc: _,
            made,
            looking,
            due,
            settled,
            told,
            notices,
            room,
        } = self;
        drop(made);
        drop(looking);
        drop(due);
        drop(settled);
        drop(told);
        drop(notices);
        drop(room);
    }
}

impl Model for Observers {
    ghost use Rattle.observers.specs.Observers.{ObserversView};
    ghost use Rattle.observers.specs.Keeping.{AwaitingAreDue, HasRooms, LooksAll, ShowWhatWasTold};

    ghost Value = { ObserversView };

    ghost view = { λ s. record { made = s.made.items; notices = s.notices.items } };

    ghost use Rattle.std.specs.Prelude.{◌≡◌, ◌-◌, ◌^◌, ◌≤◌, [], length, vec_capacity};

    ghost invariant = { λ s. LooksAll s.made.items s.looking
        × AwaitingAreDue s.made.items s.due.places
        × ShowWhatWasTold s.made.items
        × (length s.made.items ≤ s.due.width)
        × (length s.made.items ≤ 2 ^ 32 - 1)
        × (s.settled.items ≡ [])
        × (s.told.items ≡ [])
        × HasRooms s.due.width (vec_capacity s.settled) (vec_capacity s.told) (vec_capacity s.notices) };
}

impl Observers {
    /// No observers. This takes no memory.
    pub fn new(alloc: Global) -> Observers
        ensures made { result.made ≡ [] }
        ensures notices { result.notices ≡ [] }
    {
        Observers {
            alloc,
            made: Vec::new(alloc),
            looking: PointMap::new(alloc),
            due: Due::new(alloc),
            settled: Vec::new(alloc),
            told: Vec::new(alloc),
            notices: Vec::new(alloc),
            room: Vec::new(alloc),
        }
    }

    /// The observers that were made, in order.
    pub fn made(&self) -> &[Observer]
        ensures { result.now ≡ self.now.made }
    {
        &self.made
    }

    /// What was told by the last round, in the order of the observers.
    pub fn notices(&self) -> &[Notice]
        ensures { result.now ≡ self.now.notices }
    {
        &self.notices
    }

    /// The nodes of the observers in use from a place on, in order. Where there is none this takes no memory.
    pub fn in_use(&self, from: usize) -> Result<Vec<NodeId>, AllocError>
        requires within { from ≤ length self.now.made }
        ensures used { IfOk result (λ nodes. nodes.items ≡ in_use (drop from self.now.made)) }
        ensures some { OnErr result (from < length self.now.made) }
    {
        nodes_in_use(self.alloc, &self.made[from..])
    }

    /// The node that an observer looks at, if it is in use.
    pub fn node_at(&self, observer: ObsId) -> Option<NodeId>
        ensures { result ≡ node_at self.now.made observer }
    {
        node_at(&self.made, observer.0)
    }

    /// What an observer shows: the outcome that its node had at the end of the last round.
    pub fn value(&self, observer: ObsId) -> Result<&Outcome, ValueFault>
        ensures shown { IfOk result (λ outcome. shown_at self.now.made observer ≡ Some outcome.now) }
        ensures unknown { IsErrOf result ValueFault.Unknown ↔ (node_at self.now.made observer ≡ None) }
        ensures not_stabilized { IsErrOf result ValueFault.NotStabilized
            ↔ (IsSome (node_at self.now.made observer) × (shown_at self.now.made observer ≡ None)) }
    {
        match self.made.get(observer.0 as usize) {
            Some(found) if found.in_use => match &found.shown {
                Some(outcome) => Ok(outcome),
                None => Err(ValueFault::NotStabilized),
            },
            _ => Err(ValueFault::Unknown),
        }
    }

    /// Makes an observer of a node, behind the others: its number is how many were made before it, and is never given again.
    /// It shows nothing yet, and isn't watched. Where it is refused nothing changes.
    pub fn observe(&mut self, node: NodeId) -> Result<ObsId, ObserveFault>
        ensures id { IfOk result (λ o. o.0 ≡ length self.old.made) }
        ensures made { OnOk result (self.new.made ≡ self.old.made ++ new_observer node ∷ []) }
        ensures too_many { IsErrOf result ObserveFault.TooMany ↔ (2 ^ 32 - 1 ≤ length self.old.made) }
        ensures notices { self.new.notices ≡ self.old.notices }
        ensures err { OnErr result (self.new ≡ self.old) }
    {
        let place = self.made.len();
        if place >= u32::MAX as usize {
            return Err(ObserveFault::TooMany);
        }
        match self.add(node, place as u32) {
            Ok(()) => Ok(ObsId(place as u32)),
            Err(AllocError) => Err(ObserveFault::Memory),
        }
    }

    /// Makes an observer of a node at the place behind the others. It takes all the memory that its notices need, unless they
    /// tell of texts.
    fn add(&mut self, node: NodeId, place: u32) -> Result<(), AllocError>
        requires place { place ≡ length self.old.made }
        requires few { length self.old.made < 2 ^ 32 - 1 }
        ensures made { OnOk result (self.new.made ≡ self.old.made ++ new_observer node ∷ []) }
        ensures notices { self.new.notices ≡ self.old.notices }
        ensures err { OnErr result (self.new ≡ self.old) }
    {
        let width = place as usize + 1;
        self.settled.reserve(width)?;
        self.told.reserve(width)?;
        self.notices
            .reserve(width.saturating_sub(self.notices.len()))?;
        self.due.widen(width)?;
        list(self.alloc, &mut self.looking, node, place)?;
        self.made.push(Observer {
            node,
            in_use: true,
            shown: None,
            watch: Watch::Off,
        })?;
        self.due.put(place);
        Ok(())
    }

    /// Ends an observer, and gives the node that it looked at. It takes no memory, and constant time. Where it is refused
    /// nothing changes.
    pub fn end(&mut self, observer: ObsId) -> Result<NodeId, UseFault>
        ensures node { IfOk result (λ node. node_at self.old.made observer ≡ Some node) }
        ensures ended { IfOk result (λ node. self.new.made ≡ slice_set self.old.made observer.0 (ended node)) }
        ensures unknown { IsErrOf result UseFault.Unknown ↔ (node_at self.old.made observer ≡ None) }
        ensures notices { self.new.notices ≡ self.old.notices }
        ensures err { OnErr result (self.new ≡ self.old) }
    {
        let Some(node) = node_at(&self.made, observer.0) else {
            return Err(UseFault::Unknown);
        };
        self.made[observer.0 as usize] = Observer {
            node,
            in_use: false,
            shown: None,
            watch: Watch::Off,
        };
        Ok(node)
    }

    /// Watches an observer from now on: the next round tells what it shows then. One that is watched stays as it is. It takes
    /// no memory. Where it is refused nothing changes.
    pub fn watch(&mut self, observer: ObsId) -> Result<(), UseFault>
        ensures watched { OnOk result (self.new.made ≡ watched observer.0 self.old.made) }
        ensures known { OnOk result (IsSome (node_at self.old.made observer)) }
        ensures unknown { IsErrOf result UseFault.Unknown ↔ (node_at self.old.made observer ≡ None) }
        ensures notices { self.new.notices ≡ self.old.notices }
        ensures err { OnErr result (self.new ≡ self.old) }
    {
        if node_at(&self.made, observer.0).is_none() {
            return Err(UseFault::Unknown);
        }
        self.begin(observer.0);
        Ok(())
    }

    /// Watches the observer at a place, which is in use, from now on.
    fn begin(&mut self, place: u32)
        requires used { IsSome (node_at self.old.made (record { 0 = place })) }
        ensures made { self.new.made ≡ watched place self.old.made }
        ensures notices { self.new.notices ≡ self.old.notices }
    {
        if is_open(&self.made, place) {
            begin(&mut self.made, place);
            self.due.put(place);
        }
    }

    /// An empty list for the nodes that are news in a round. Its room is that of the list that was kept last.
    pub fn news_room(&mut self) -> Vec<NodeId>
        ensures none { result.items ≡ [] }
        ensures stay { self.new ≡ self.old }
    {
        let mut news = mem::replace(&mut self.room, Vec::new(self.alloc));
        news.clear();
        news
    }

    /// Keeps the room of a list for the news of the next round.
    pub fn keep_room(&mut self, news: Vec<NodeId>)
        ensures { self.new ≡ self.old }
    {
        drop(mem::replace(&mut self.room, news));
    }

    /// A round ended. Observers in use show what their nodes show now. Of watched ones it tells, in the order in which they were
    /// made: of one that nothing was told of yet the outcome, of another that it changed, where it did. Where a node isn't news,
    /// its observers show what it shows, and no time goes into them. Only a text that is shown or told needs memory; without it
    /// nothing changes.
    pub fn tell<S: Sight>(&mut self, sight: &S, news: &[NodeId]) -> Result<(), AllocError>
        requires current { IsCurrent (S.shows sight.now) news.now self.old.made }
        ensures made { OnOk result (self.new.made ≡ told_by (S.shows sight.now) self.old.made) }
        ensures notices { OnOk result (self.new.notices ≡ notices_of (S.shows sight.now) 0 self.old.made) }
        ensures light { AllLight (S.shows sight.now) self.old.made → IsOk result }
        ensures err { OnErr result (self.new ≡ self.old) }
    {
        gather(&self.made, &mut self.looking, &mut self.due, news);
        finish(
            self.alloc,
            sight,
            &mut self.made,
            &mut self.due,
            &mut self.settled,
            &mut self.told,
            &mut self.notices,
        )
    }

    /// A round ended, as `tell` has it, of which nobody knows what is news: time goes into each observer.
    pub fn tell_all<S: Sight>(&mut self, sight: &S) -> Result<(), AllocError>
        ensures made { OnOk result (self.new.made ≡ told_by (S.shows sight.now) self.old.made) }
        ensures notices { OnOk result (self.new.notices ≡ notices_of (S.shows sight.now) 0 self.old.made) }
        ensures light { AllLight (S.shows sight.now) self.old.made → IsOk result }
        ensures err { OnErr result (self.new ≡ self.old) }
    {
        self.due.put_below(self.made.len());
        finish(
            self.alloc,
            sight,
            &mut self.made,
            &mut self.due,
            &mut self.settled,
            &mut self.told,
            &mut self.notices,
        )
    }
}
