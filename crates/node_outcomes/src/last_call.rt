//! What a node's function was last called on, and what it gave.
ghost use Rattle.std.specs.Prelude.{◌≡◌, ◌≤◌, ◌↔◌, false, None, Some, IfOk, option_copied};
ghost use Rattle.node_outcomes.specs.LastCall.{HasRoom, IsGivenOn, room_in, room_of, values_in};
ghost use Rattle.node_outcomes.specs.declared.last_call.Kept.{Kept as TheKept};

use crate::sight::make_room;
use fold_nodes::LastFold;
use inc_value::Value;
use map_nodes::LastArgs;
use smallvec::SmallVec;
use std::alloc::{AllocError, Global};
use std::marker::Model;
use std::mem;

/// What a node's function was last called on, if it was called, and what it gave; and lists for the next call, with room
/// for so many values.
pub struct LastCall {
    pub(crate) kept: Kept,
    pub(crate) given: Option<Value>,
    pub(crate) spare: Spare,
}

/// Where the values of the next call are gathered, and for how many there is room.
#[derive(Drop)]
pub(crate) enum Spare {
    /// For two at most: any list has the room.
    Few(usize),
    Many(Box<Many>),
}

/// A list with room for so many values.
#[derive(Drop)]
pub(crate) struct Many {
    pub(crate) list: SmallVec<Value, 2>,
    room: usize,
}

// (written out: whoever drops one proves one call, and no drop of its parts)
impl Drop for LastCall {
    fn drop(self) {
        let LastCall { kept, given, spare } = self;
        drop(kept);
        drop(given);
        drop(spare);
    }
}

/// The values of the last call, by what calls.
#[derive(Drop)]
pub(crate) enum Kept {
    Map(LastArgs),
    Fold(LastFold),
}

impl Model for LastCall {
    ghost use Rattle.node_outcomes.specs.LastCall.{HasRoom, Last, call_of, room_of, values_in};

    ghost Value = { Last };

    ghost view = { λ c. record { call = call_of (values_in c.kept) c.given; room = room_of c.spare } };

    ghost invariant = { λ c. HasRoom c.kept c.spare };
}

/// A call that is kept.
#[derive(Drop)]
pub struct Called<'a> {
    pub arguments: &'a [Value],
    pub result: &'a Value,
}

impl<'a> Model for Called<'a> {
    ghost use Rattle.stabilize_round.specs.State.{Call};

    ghost Value = { Call };

    ghost view = { λ c. record { arguments = c.arguments.now; result = c.result.now } };
}

impl Kept {
    /// No values yet, with room for so many: of a fold, or of another node that calls a function.
    fn new(alloc: Global, folds: bool, n: usize) -> Result<Kept, AllocError>
        ensures none { IfOk result (λ k. values_in k ≡ None) }
        ensures room { IfOk result (λ k. n ≤ room_in k) }
    {
        if folds {
            let mut kept = LastFold::new(alloc);
            return match kept.reserve(n) {
                Ok(()) => Ok(Kept::Fold(kept)),
                Err(AllocError) => {
                    drop(kept);
                    Err(AllocError)
                }
            };
        }
        let mut kept = LastArgs::new(alloc);
        match kept.reserve(n) {
            Ok(()) => Ok(Kept::Map(kept)),
            Err(AllocError) => {
                drop(kept);
                Err(AllocError)
            }
        }
    }

    /// The values that are kept, if some are.
    fn values(&self) -> Option<&[Value]>
        ensures { option_copied result ≡ values_in self.now }
    {
        match self {
            Kept::Map(kept) => kept.args(),
            Kept::Fold(kept) => kept.kids(),
        }
    }

    /// Whether no values are kept, or others than these.
    #[inline]
    fn is_stale(&self, values: &[Value]) -> bool
        ensures { (result ≡ false) ↔ (values_in self.now ≡ Some values.now) }
    {
        match self {
            Kept::Map(kept) => kept.stale_by_args(values),
            Kept::Fold(kept) => kept.stale_by_kids(values),
        }
    }

    /// Keeps the values of a list in place of those before. The list gets their room.
    #[inline]
    pub(crate) fn keep(&mut self, list: &mut SmallVec<Value, 2>)
        ensures values { values_in self.new ≡ Some list.old.items }
        ensures room { room_in self.new ≡ list.old.capacity }
        ensures given { list.new.capacity ≡ room_in self.old }
    {
        match self {
            Kept::Map(kept) => kept.keep(list),
            Kept::Fold(kept) => kept.keep(list),
        }
    }
}

impl LastCall {
    /// The function was not called yet, and there is room for no values. This takes no memory.
    pub(crate) fn none(alloc: Global) -> LastCall
        ensures { result ≡ record { call = None; room = 0 } }
    {
        LastCall {
            kept: Kept::Map(LastArgs::new(alloc)),
            given: None,
            spare: Spare::Few(0),
        }
    }

    /// The function, a fold's or another node's, was not called yet, and can be on so many values.
    pub(crate) fn with_room(alloc: Global, folds: bool, n: usize) -> Result<LastCall, AllocError>
        ensures { IfOk result (λ l. l ≡ record { call = None; room = n }) }
    {
        let kept = match Kept::new(alloc, folds, n) {
            Ok(kept) => kept,
            Err(AllocError) => return Err(AllocError),
        };
        let spare = match room_for(alloc, n) {
            Ok(spare) => spare,
            Err(AllocError) => {
                drop(kept);
                return Err(AllocError);
            }
        };
        Ok(LastCall {
            kept,
            given: None,
            spare,
        })
    }

    /// The last call, if there was one.
    pub fn get(&self) -> Option<Called<'_>>
        ensures { result ≡ self.now.call }
    {
        match (self.kept.values(), &self.given) {
            (Some(arguments), Some(result)) => Some(Called { arguments, result }),
            _ => None,
        }
    }

    /// What the function gave when it was last called, if that was on these values.
    #[inline]
    pub(crate) fn given_on(&self, values: &[Value]) -> Option<&Value>
        ensures { IsGivenOn values.now self.now.call (option_copied result) }
    {
        if self.kept.is_stale(values) {
            return None;
        }
        self.given.as_ref()
    }

    /// Keeps a call on the values of a list, which gets others. This takes no memory.
    #[inline]
    pub(crate) fn keep(&mut self, list: &mut SmallVec<Value, 2>, value: Value)
        ensures { self.new ≡ record {
          call = Some (record { arguments = list.old.items; result = value });
          room = self.old.room;
        } }
    {
        match &mut self.spare {
            // The room stays: the values go over to a list that has it.
            Spare::Many(many) if list.capacity() < many.room && list.len() <= many.room => {
                many.list.clear();
                many.list.append(list).unwrap();
                self.kept.keep(&mut many.list);
            }
            _ => self.kept.keep(list),
        }
        self.given = Some(value);
    }
}

/// Room for so many values.
fn room_for(alloc: Global, n: usize) -> Result<Spare, AllocError>
    ensures room { IfOk result (λ s. room_of s ≡ n) }
    ensures has { IfOk result (λ s. (kept : TheKept) → n ≤ room_in kept → HasRoom kept s) }
{
    if n <= 2 {
        return Ok(Spare::Few(n));
    }
    let mut list = SmallVec::new(alloc);
    match make_room(&mut list, n) {
        Ok(()) => match Box::new(alloc, Many { list, room: n }) {
            Ok(many) => Ok(Spare::Many(many)),
            Err(_) => Err(AllocError),
        },
        Err(AllocError) => {
            drop(list);
            Err(AllocError)
        }
    }
}

/// Keeps a call on the values of a list, which is empty then and gets the room of those before.
pub(crate) fn keep_call(
    kept: &mut Kept,
    given: &mut Option<Value>,
    list: &mut SmallVec<Value, 2>,
    value: Value,
)
    ensures values { values_in kept.new ≡ Some list.old.items }
    ensures given { given.new ≡ Some value }
    ensures room { room_in kept.new ≡ list.old.capacity }
    ensures spare { list.new.capacity ≡ room_in kept.old }
{
    kept.keep(list);
    drop(mem::replace(given, Some(value)));
    list.clear();
}
