//! Functions kept in boxes.
ghost use Rattle.std.specs.Prelude.{◌≤◌, ◌+◌, length};

use crate::table::{apply_at, build_at, map_has, side_has};
use inc_value::{FnId, FnKind, FnRef, NodeId, Value};
use node_arena::{BuildFault, Builder, Functions, MapFn, MoreFault, RhsFn};
use std::alloc::{AllocError, Global};

/// The most functions that are kept.
const MOST: usize = 65_535;

/// Functions kept in boxes: maps and functions of right sides, at most 65,535.
///
/// Whoever makes the boxes hands them over; nothing here makes one. A graph over such functions is made and
/// used by functions that are generic in [`Functions`]: they take the keeper, and names of functions that it
/// knows or boxes as its `More`, and they give plain values. The caller, who makes the boxes, calls these with a
/// `Closures`. It cannot name the graph's type itself, nor any other type whose invariant speaks of what its
/// functions promise: the toolchain takes no such type over a keeper of boxes.
///
/// An example stands in the crate `closure_examples`: `held` makes a `Holder`, whose invariant is of a graph's
/// form, and asks it; `kept` has one function more kept beside another; `bind_and_build` builds right sides.
/// Tests of `graph_tests` make the boxes and call these.
pub struct Closures {
    maps: Vec<Box<dyn MapFn>>,
    sides: Vec<Box<dyn RhsFn>>,
    calls: u64,
    wants: u64,
    builds: u64,
    adds: u64,
    ghost few: { length maps.items + length sides.items ≤ 65535 },
}

// (written out: whoever drops one proves one call, and no drop of its parts)
impl Drop for Closures {
    fn drop(self) {
        let Closures {
            maps,
            sides,
            calls: _,
            wants: _,
            builds: _,
            adds: _,
        } = self;
        drop(maps);
        drop(sides);
    }
}

/// A function that can be kept.
#[derive(Drop)]
pub enum NewFn {
    /// A map.
    Map(Box<dyn MapFn>),
    /// A function of right sides.
    Rhs(Box<dyn RhsFn>),
}

impl Closures {
    ghost use Rattle.std.specs.Prelude.{◌≡◌, ◌<◌, ◌+◌, ◌↔◌, false, IfOk, IfErr, OnOk, OnErr, IsTrue};
    ghost use Rattle.inc_value.specs.Sig.{IsMapSig};
    ghost use Rattle.node_arena.specs.RightSide.{AreUsable, Means, KeepsMeanings, one_taken};
    ghost use Rattle.inc_value.specs.declared.function.FnRef.{FnRef};
    ghost use Rattle.node_arena.specs.declared.stored.MoreFault.{MoreFault};
    ghost use Rattle.closures.specs.Tables.{map_of, side_of, map_brought, side_brought};

    /// A keeper of no functions, with nothing counted. What it keeps takes its memory from `alloc`.
    pub fn new(alloc: Global) -> Closures
        ensures none { (f : FnRef) → ⟦<Closures as Functions>⟧.known result f ≡ false }
        ensures sound { ⟦<Closures as Functions>⟧.is_sound result }
        ensures tally { ⟦<Closures as Functions>⟧.tally result
            ≡ record { builds = 0; adds = 0; taken = 0; most = 65535 } }
        ensures calls { ⟦<Closures as Functions>⟧.calls result ≡ 0 }
        ensures wants { ⟦<Closures as Functions>⟧.wants result ≡ 0 }
    {
        Closures {
            maps: Vec::new(alloc),
            sides: Vec::new(alloc),
            calls: 0,
            wants: 0,
            builds: 0,
            adds: 0,
        }
    }

    /// How often maps were called, up to 2^64 - 1.
    pub fn calls(&self) -> u64
        ensures { result ≡ ⟦<Closures as Functions>⟧.calls self.now }
    {
        self.calls
    }

    /// Keeps a map, and gives its name. Functions that were known stay so, and mean what they meant. It is
    /// refused as one too many exactly where 65,535 functions are kept, and else where there is no memory. A
    /// refused call hands the map back, and makes none known.
    pub fn add_map(&mut self, map: Box<dyn MapFn>) -> Result<FnRef, (MoreFault, Box<dyn MapFn>)>
        requires sound { ⟦<Closures as Functions>⟧.is_sound self.old }
        requires is_map { IsMapSig (map_sig map) }
        ensures sound { ⟦<Closures as Functions>⟧.is_sound self.new }
        ensures known { IfOk result (λ f. IsTrue (⟦<Closures as Functions>⟧.known self.new f)) }
        ensures means { IfOk result (λ f. Means (⟦<Closures as Functions>⟧.value self.new)
            (⟦<Closures as Functions>⟧.right self.new) f (map_brought (map_of (map_sig map) (map_value map)))) }
        ensures keeps_meanings { KeepsMeanings (⟦<Closures as Functions>⟧.named self.old) (⟦<Closures as Functions>⟧.named self.new)
            (⟦<Closures as Functions>⟧.known self.old) (⟦<Closures as Functions>⟧.known self.new)
            (⟦<Closures as Functions>⟧.value self.old) (⟦<Closures as Functions>⟧.value self.new)
            (⟦<Closures as Functions>⟧.right self.old) (⟦<Closures as Functions>⟧.right self.new) }
        ensures tally { ⟦<Closures as Functions>⟧.tally self.new
            ≡ one_taken result (⟦<Closures as Functions>⟧.tally self.old) }
        ensures calls { ⟦<Closures as Functions>⟧.calls self.new ≡ ⟦<Closures as Functions>⟧.calls self.old }
        ensures wants { ⟦<Closures as Functions>⟧.wants self.new ≡ ⟦<Closures as Functions>⟧.wants self.old }
        ensures room { OnOk result ((⟦<Closures as Functions>⟧.tally self.old).taken < 65535) }
        ensures too_many { IfErr result (λ e. (e.0 ≡ MoreFault.TooMany)
            ↔ ((⟦<Closures as Functions>⟧.tally self.old).taken ≡ 65535)) }
        ensures back { IfErr result (λ e. e.1 ≡ map) }
        ensures no_more { OnErr result ((f : FnRef) → ⟦<Closures as Functions>⟧.known self.new f
            ≡ ⟦<Closures as Functions>⟧.known self.old f) }
    {
        if self.maps.len() + self.sides.len() >= MOST {
            return Err((MoreFault::TooMany, map));
        }
        if self.maps.reserve(1).is_err() {
            return Err((MoreFault::Memory, map));
        }
        let sig = map.sig();
        let number = self.maps.len() as u64;
        self.maps.push_reserved(map);
        Ok(FnRef {
            id: FnId {
                kind: FnKind::Map,
                number,
            },
            sig,
        })
    }

    /// Keeps a function of right sides, and gives its name. Functions that were known stay so, and mean what
    /// they meant. It is refused as one too many exactly where 65,535 functions are kept, and else where there
    /// is no memory. A refused call hands the function back, and makes none known.
    pub fn add_rhs(&mut self, side: Box<dyn RhsFn>) -> Result<FnRef, (MoreFault, Box<dyn RhsFn>)>
        requires sound { ⟦<Closures as Functions>⟧.is_sound self.old }
        requires usable { AreUsable (⟦<Closures as Functions>⟧.known self.old)
            (⟦<Closures as Functions>⟧.right self.old) (rhs side) }
        ensures sound { ⟦<Closures as Functions>⟧.is_sound self.new }
        ensures known { IfOk result (λ f. IsTrue (⟦<Closures as Functions>⟧.known self.new f)) }
        ensures means { IfOk result (λ f. Means (⟦<Closures as Functions>⟧.value self.new)
            (⟦<Closures as Functions>⟧.right self.new) f (side_brought (side_of (rhs_sig side) (rhs side)))) }
        ensures keeps_meanings { KeepsMeanings (⟦<Closures as Functions>⟧.named self.old) (⟦<Closures as Functions>⟧.named self.new)
            (⟦<Closures as Functions>⟧.known self.old) (⟦<Closures as Functions>⟧.known self.new)
            (⟦<Closures as Functions>⟧.value self.old) (⟦<Closures as Functions>⟧.value self.new)
            (⟦<Closures as Functions>⟧.right self.old) (⟦<Closures as Functions>⟧.right self.new) }
        ensures tally { ⟦<Closures as Functions>⟧.tally self.new
            ≡ one_taken result (⟦<Closures as Functions>⟧.tally self.old) }
        ensures calls { ⟦<Closures as Functions>⟧.calls self.new ≡ ⟦<Closures as Functions>⟧.calls self.old }
        ensures wants { ⟦<Closures as Functions>⟧.wants self.new ≡ ⟦<Closures as Functions>⟧.wants self.old }
        ensures room { OnOk result ((⟦<Closures as Functions>⟧.tally self.old).taken < 65535) }
        ensures too_many { IfErr result (λ e. (e.0 ≡ MoreFault.TooMany)
            ↔ ((⟦<Closures as Functions>⟧.tally self.old).taken ≡ 65535)) }
        ensures back { IfErr result (λ e. e.1 ≡ side) }
        ensures no_more { OnErr result ((f : FnRef) → ⟦<Closures as Functions>⟧.known self.new f
            ≡ ⟦<Closures as Functions>⟧.known self.old f) }
    {
        if self.maps.len() + self.sides.len() >= MOST {
            return Err((MoreFault::TooMany, side));
        }
        if self.sides.reserve(1).is_err() {
            return Err((MoreFault::Memory, side));
        }
        let sig = side.sig();
        let number = self.sides.len() as u64;
        self.sides.push_reserved(side);
        Ok(FnRef {
            id: FnId {
                kind: FnKind::Rhs,
                number,
            },
            sig,
        })
    }
}

impl Functions for Closures {
    ghost use Rattle.std.specs.Prelude.{◌+◌, length, map, None};
    ghost use Rattle.closures.specs.Counting.{IsCalledOnce};
    ghost use Rattle.closures.specs.Tables.{map_of, side_of, is_known, value_in, side_in};
    ghost use Rattle.closures.specs.Tables.{AreSound, map_brought, side_brought};
    ghost use Rattle.closures.specs.TableLaws.{maps_known, maps_typed, maps_proper, maps_base, sides_hold};
    ghost use Rattle.closures.specs.declared.closures.NewFn.TheVariants as new;

    type More = NewFn;

    ghost named = { λ s name. None };

    ghost known = { λ s f. is_known
        (map (λ b. map_of ((MapFn-box b).map_sig b.value) ((MapFn-box b).map_value b.value)) s.maps.items)
        (map (λ b. side_of ((RhsFn-box b).rhs_sig b.value) ((RhsFn-box b).rhs b.value)) s.sides.items) f };

    ghost value = { λ s f args. value_in
        (map (λ b. map_of ((MapFn-box b).map_sig b.value) ((MapFn-box b).map_value b.value)) s.maps.items) f args };

    ghost calls = { λ s. s.calls };

    ghost wants = { λ s. s.wants };

    ghost is_sound = { λ s. AreSound
        (map (λ b. map_of ((MapFn-box b).map_sig b.value) ((MapFn-box b).map_value b.value)) s.maps.items)
        (map (λ b. side_of ((RhsFn-box b).rhs_sig b.value) ((RhsFn-box b).rhs b.value)) s.sides.items) };

    ghost right = { λ s f. side_in
        (map (λ b. side_of ((RhsFn-box b).rhs_sig b.value) ((RhsFn-box b).rhs b.value)) s.sides.items) f };

    ghost tally = { λ s. record {
      builds = s.builds;
      adds = s.adds;
      taken = length s.maps.items + length s.sides.items;
      most = 65535;
    } };

    ghost calls_once = { λ old new f. IsCalledOnce f
        (map (λ b. (MapFn-box b).map_calls b.value) old.maps.items)
        (map (λ b. (RhsFn-box b).rhs_builds b.value) old.sides.items)
        (map (λ b. (MapFn-box b).map_calls b.value) new.maps.items)
        (map (λ b. (RhsFn-box b).rhs_builds b.value) new.sides.items) };

    ghost brings = { λ m. elim m [
      | new.Map b ↦ map_brought (map_of ((MapFn-box b).map_sig b.value) ((MapFn-box b).map_value b.value))
      | new.Rhs b ↦ side_brought (side_of ((RhsFn-box b).rhs_sig b.value) ((RhsFn-box b).rhs b.value))
    ] };

    fn more(&mut self, alloc: Global, m: NewFn) -> Result<FnRef, (MoreFault, NewFn)> {
        let _ = alloc;
        match m {
            NewFn::Map(map) => match self.add_map(map) {
                Ok(f) => Ok(f),
                Err((fault, map)) => Err((fault, NewFn::Map(map))),
            },
            NewFn::Rhs(side) => match self.add_rhs(side) {
                Ok(f) => Ok(f),
                Err((fault, side)) => Err((fault, NewFn::Rhs(side))),
            },
        }
    }

    fn knows(&self, f: FnRef) -> bool {
        match f.id.kind {
            FnKind::Map => map_has(&self.maps, f.id.number, f.sig),
            FnKind::Rhs => side_has(&self.sides, f.id.number, f.sig),
        }
    }

    fn apply(&mut self, alloc: Global, f: &FnRef, args: &[Value]) -> Result<Value, AllocError> {
        self.calls = self.calls.saturating_add(1);
        let value = apply_at(alloc, &mut self.maps, f.id.number, args);
        if value.is_err() {
            self.wants = self.wants.saturating_add(1);
        }
        value
    }

    fn build(
        &mut self,
        alloc: Global,
        f: FnRef,
        left: &Value,
        captures: &[NodeId],
        builder: &mut Builder,
    ) -> Result<NodeId, BuildFault> {
        let given = builder.given();
        self.builds = self.builds.saturating_add(1);
        let root = build_at(alloc, &mut self.sides, f.id.number, left, captures, builder);
        self.adds = self.adds.saturating_add(builder.given() - given);
        root
    }

    ghost known_maps = { λ s sound. maps_known _ _ sound };

    ghost typed = { λ s sound. maps_typed _ _ sound };

    ghost proper = { λ s sound. maps_proper _ _ sound };

    ghost no_reference = { λ s sound. maps_base _ _ sound };

    ghost sides = { λ s sound. sides_hold _ _ sound };
}
