//! The functions of a library, and bodies, as those of a graph.
ghost use Rattle.std.specs.Prelude.{◌≡◌, ◌≤◌, length, option_map, option_copied};
ghost use Rattle.script_functions.specs.Keeping.{maker_of, side_made};

use crate::Body;
use crate::keeping::{build_at, has_body};
use inc_value::{FnId, FnKind, FnRef, NodeId, Value};
use node_arena::{BuildFault, Builder, Functions, Library, MoreFault, RhsFn};
use std::alloc::{AllocError, Global};

/// The most bodies that are kept.
const MOST: usize = 1_099_511_627_776;

/// The functions of a library as maps, and bodies as functions of right sides. Maps can't tell nodes apart: to a map
/// each reference leads to one and the same node.
pub struct ScriptFns<L: Library> {
    library: L,
    bodies: Vec<Body>,
    builds: u64,
    adds: u64,
    ghost few: { length bodies.items ≤ 1099511627776 },
}

// (written out: whoever drops one proves one call, and no drop of its parts)
impl<L: Library> Drop for ScriptFns<L> {
    fn drop(self) {
        let ScriptFns {
            library,
            bodies,
            builds: _,
            adds: _,
        } = self;
        drop(library);
        drop(bodies);
    }
}

impl<L: Library> ScriptFns<L> {
    /// The functions of the library, and no body. What is kept takes its memory from `alloc`.
    pub fn new(alloc: Global, library: L) -> ScriptFns<L>
        ensures library { result.library ≡ library }
        ensures sound { ⟦<ScriptFns<L> as Functions>⟧.is_sound result }
        ensures tally { ⟦<ScriptFns<L> as Functions>⟧.tally result
            ≡ record { builds = 0; adds = 0; taken = 0; most = 1099511627776 } }
    {
        ScriptFns {
            library,
            bodies: Vec::new(alloc),
            builds: 0,
            adds: 0,
        }
    }

    /// The library.
    pub fn library(&self) -> &L
        ensures { result.now ≡ self.now.library }
    {
        &self.library
    }

    /// How often a right side was built, or was to be. The count stays at its last value.
    pub fn builds(&self) -> u64
        ensures { result ≡ self.now.builds }
    {
        self.builds
    }

    /// How many nodes were added by builds. The count stays at its last value.
    pub fn adds(&self) -> u64
        ensures { result ≡ self.now.adds }
    {
        self.adds
    }

    /// The body whose right sides the function makes, if it is one that is kept.
    pub fn body(&self, f: FnRef) -> Option<&Body>
        ensures { ⟦<ScriptFns<L> as Functions>⟧.right self.now f ≡ side_made (option_map maker_of (option_copied result)) }
    {
        match f.id.kind {
            FnKind::Map => None,
            FnKind::Rhs => self.bodies.get(f.id.number as usize),
        }
    }

    /// The library, handed back.
    pub fn into_library(self) -> L
        ensures { result ≡ self.library }
    {
        let ScriptFns {
            library,
            bodies,
            builds: _,
            adds: _,
        } = self;
        drop(bodies);
        library
    }
}

impl<L: Library> Functions for ScriptFns<L> {
    ghost use Rattle.std.specs.Prelude.{◌≡◌, length};
    ghost use Rattle.script_model.specs.Values.{seen_value};
    ghost use Rattle.script_functions.specs.Keeping.{maker_of, makers, is_known, side_in, AreSound, brought, KeepsBodies};
    ghost use Rattle.script_functions.specs.KeepingLaws.{maps_have_sigs, maps_typed, maps_proper, maps_base};
    ghost use Rattle.script_functions.specs.KeepingLaws.{sides_hold};
    ghost use Rattle.script_functions.specs.UnnamedLaws.{still_typed, still_proper, none_seen};

    type More = Body;

    ghost named = { λ s. L.named s.library };

    ghost known = { λ s. is_known (L.known s.library) (makers s.bodies.items) };

    ghost value = { λ s. seen_value (L.value s.library) };

    ghost calls = { λ s. L.calls s.library };

    ghost wants = { λ s. L.wants s.library };

    ghost is_sound = { λ s. AreSound (L.known s.library) (makers s.bodies.items) };

    ghost right = { λ s. side_in (makers s.bodies.items) };

    ghost tally = { λ s. record {
      builds = s.builds;
      adds = s.adds;
      taken = length s.bodies.items;
      most = 1099511627776;
    } };

    // (maps are the library's, whose calls `calls` are; bodies don't count)
    ghost calls_once = { λ old new f. Unit {0} };

    ghost brings = { λ b. brought (maker_of b) };

    ghost keeps = { λ old new. (new.library ≡ old.library) × (new.builds ≡ old.builds) × KeepsBodies old.bodies.items new.bodies.items 1 };

    fn more(&mut self, alloc: Global, m: Body) -> Result<FnRef, (MoreFault, Body)> {
        let _ = alloc;
        if self.bodies.len() >= MOST {
            return Err((MoreFault::TooMany, m));
        }
        if self.bodies.reserve(1).is_err() {
            return Err((MoreFault::Memory, m));
        }
        let sig = m.sig();
        let number = self.bodies.len() as u64;
        self.bodies.push_reserved(m);
        Ok(FnRef {
            id: FnId {
                kind: FnKind::Rhs,
                number,
            },
            sig,
        })
    }

    fn knows(&self, f: FnRef) -> bool {
        match f.id.kind {
            FnKind::Map => self.library.knows(f),
            FnKind::Rhs => has_body(&self.bodies, f.id.number, f.sig),
        }
    }

    fn apply(&mut self, alloc: Global, f: &FnRef, args: &[Value]) -> Result<Value, AllocError> {
        self.library.apply(alloc, f, args)
    }

    fn build(
        &mut self,
        alloc: Global,
        f: FnRef,
        left: &Value,
        captures: &[NodeId],
        builder: &mut Builder,
    ) -> Result<NodeId, BuildFault> {
        let given = builder.given();
        self.builds = self.builds.saturating_add(1);
        let root = build_at(
            alloc,
            &mut self.bodies,
            f.id.number,
            left,
            captures,
            builder,
        );
        self.adds = self.adds.saturating_add(builder.given() - given);
        root
    }

    ghost known_maps = { λ s sound. maps_have_sigs _ _ (L.known_maps s.library) };

    ghost typed = { λ s sound. maps_typed _ _ _ (still_typed _ _ (L.no_reference s.library) (L.typed s.library)) };

    ghost proper = { λ s sound. maps_proper _ _ _ (still_proper _ _ (L.no_reference s.library) (L.proper s.library)) };

    ghost no_reference = { λ s sound. maps_base _ _ _ (none_seen (L.known s.library) (L.value s.library)) };

    ghost sides = { λ s sound. sides_hold _ _ sound };
}
