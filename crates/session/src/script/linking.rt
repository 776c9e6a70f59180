//! The lists of a script's experts, which commands change.
ghost use Rattle.std.specs.Prelude.{◌≡◌, None, IfOk, IsFalse, IsTrue, OnErr};
ghost use Rattle.formula_lang.specs.Fits.{IsExpertOf, LinkFits, UnlinkFits};
ghost use Rattle.inc_value.specs.declared.ty.Ty.{Ty as ATy};
ghost use Rattle.script_graph.specs.State.{MatchesMoment};
ghost use Rattle.script_model.specs.Check.{Link, NotLinked, Stale, TooManyLinks, Unlink};
ghost use Rattle.script_model.specs.Formula.{meanings_of};
ghost use Rattle.script_model.specs.Step.{Moment, is_barred, moved};
ghost use Rattle.session.specs.Carried.{IsBeside};

use super::Script;
use node_arena::Library;
use std::alloc::AllocError;

impl<L: Library> Script<L> {
    /// Puts a declaration behind an expert's list; false where that is full. Without memory the script stays.
    pub(crate) fn link(&mut self, expert: usize, target: usize) -> Result<bool, AllocError>
        requires unbroken { self.old.kept.broken ≡ None }
        requires fits { LinkFits self.old.kept.names expert target }
        ensures linked { let F = meanings_of (L.named self.old.library) (L.value self.old.library) in
            IfOk result (λ done. IsTrue done → (m : Moment) → MatchesMoment F self.old.kept m
            → MatchesMoment F self.new.kept (moved m (Link expert target)) × IsFalse (is_barred m.present (Link expert target) TooManyLinks)) }
        ensures full { let F = meanings_of (L.named self.old.library) (L.value self.old.library) in
            IfOk result (λ done. IsFalse done → (self.new.kept ≡ self.old.kept) × ((m : Moment)
            → MatchesMoment F self.old.kept m → IsTrue (is_barred m.present (Link expert target) TooManyLinks))) }
        ensures stopped { let F = meanings_of (L.named self.old.library) (L.value self.old.library) in
            OnErr result ((m : Moment) → MatchesMoment F self.old.kept m → MatchesMoment F self.new.kept m) }
        ensures beside { IsBeside 0 0 self.old self.new }
    {
        self.graph.keeps_sound();
        self.graph
            .relink(self.nodes.at(expert), self.nodes.at(target))
    }

    /// Takes a declaration off an expert's list, where it stands first; false where it isn't there. This takes no memory.
    pub(crate) fn unlink(&mut self, expert: usize, target: usize) -> bool
        requires unbroken { self.old.kept.broken ≡ None }
        requires fits { UnlinkFits self.old.kept.names expert target }
        ensures unlinked { let F = meanings_of (L.named self.old.library) (L.value self.old.library) in
            IsTrue result → (m : Moment) → MatchesMoment F self.old.kept m
            → MatchesMoment F self.new.kept (moved m (Unlink expert target)) × IsFalse (is_barred m.present (Unlink expert target) NotLinked) }
        ensures absent { let F = meanings_of (L.named self.old.library) (L.value self.old.library) in
            IsFalse result → (self.new.kept ≡ self.old.kept) × ((m : Moment)
            → MatchesMoment F self.old.kept m → IsTrue (is_barred m.present (Unlink expert target) NotLinked)) }
        ensures beside { IsBeside 0 0 self.old self.new }
    {
        self.graph.keeps_sound();
        self.graph
            .take_off(self.nodes.at(expert), self.nodes.at(target))
    }

    /// Has an expert's function called anew by the next stabilize in which it is needed. This takes no memory.
    pub(crate) fn make_stale(&mut self, expert: usize)
        requires unbroken { self.old.kept.broken ≡ None }
        requires fits { (element : ATy) × IsExpertOf self.old.kept.names expert element }
        ensures stale { let F = meanings_of (L.named self.old.library) (L.value self.old.library) in
            (m : Moment) → MatchesMoment F self.old.kept m → MatchesMoment F self.new.kept (moved m (Stale expert)) }
        ensures beside { IsBeside 0 0 self.old self.new }
    {
        self.graph.keeps_sound();
        self.graph.renew(self.nodes.at(expert));
    }
}
