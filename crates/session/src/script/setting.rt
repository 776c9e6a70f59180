//! Assignments in a script.
ghost use Rattle.std.specs.Prelude.{◌≡◌, None, OnOk, OnErr};
ghost use Rattle.formula_lang.specs.CommandView.{constant_view};
ghost use Rattle.formula_lang.specs.Fits.{AssignmentFits};
ghost use Rattle.script_graph.specs.State.{MatchesMoment};
ghost use Rattle.script_model.specs.Check.{Assign};
ghost use Rattle.script_model.specs.Formula.{meanings_of};
ghost use Rattle.script_model.specs.Step.{Moment, moved};
ghost use Rattle.session.specs.Carried.{IsBeside};

use super::Script;
use formula_elab::value_of;
use formula_lang::Constant;
use node_arena::Library;
use std::alloc::AllocError;

impl<L: Library> Script<L> {
    /// Gives the variable of a target a value that fits. Without memory nothing changes.
    pub(crate) fn set(&mut self, target: usize, value: &Constant) -> Result<(), AllocError>
        requires fits { AssignmentFits self.old.kept.names target (constant_view value.now) }
        requires unbroken { self.old.kept.broken ≡ None }
        ensures set { let F = meanings_of (L.named self.old.library) (L.value self.old.library) in
            OnOk result ((m : Moment) → MatchesMoment F self.old.kept m
            → MatchesMoment F self.new.kept (moved m (Assign target (constant_view value.now)))) }
        ensures kept { OnErr result (self.new ≡ self.old) }
        ensures beside { IsBeside 0 0 self.old self.new }
    {
        match value_of(self.alloc, value, self.nodes.as_slice()) {
            Ok(value) => {
                self.graph.keeps_sound();
                self.graph.assign(self.nodes.at(target), value);
                self.graph.keeps_sound();
                Ok(())
            }
            Err(fault) => Err(fault),
        }
    }
}
