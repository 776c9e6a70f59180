//! The clock of a script, moved on.
ghost use Rattle.std.specs.Prelude.{◌≡◌, ◌≤ℤ◌, None, OnOk, OnErr};
ghost use Rattle.formula_lang.specs.Fits.{TimeFits};
ghost use Rattle.graph.specs.Clock.{MovesTo};
ghost use Rattle.graph.specs.Effects.{KeepsAll};
ghost use Rattle.graph.specs.Standing.{IsUnbroken};
ghost use Rattle.script_graph.specs.State.{MatchesMoment};
ghost use Rattle.script_model.specs.Check.{Advance};
ghost use Rattle.script_model.specs.Formula.{meanings_of};
ghost use Rattle.script_model.specs.Step.{Moment, moved};
ghost use Rattle.session.specs.Carried.{IsBeside};

use super::{Script, no_memory};
use formula_lang::Nanoseconds;
use graph::Graph;
use node_arena::Library;
use script_functions::ScriptFns;
use std::alloc::AllocError;

impl<L: Library> Script<L> {
    /// Moves the clock on to a time that fits, in nanoseconds. Without memory the script stays.
    pub(crate) fn advance(&mut self, time: u64) -> Result<(), AllocError>
        requires fits { TimeFits self.old.kept.names time }
        requires unbroken { self.old.kept.broken ≡ None }
        ensures moved { let F = meanings_of (L.named self.old.library) (L.value self.old.library) in
            OnOk result ((m : Moment) → MatchesMoment F self.old.kept m
            → MatchesMoment F self.new.kept (moved m (Advance time))) }
        ensures kept { let F = meanings_of (L.named self.old.library) (L.value self.old.library) in
            OnErr result ((m : Moment) → MatchesMoment F self.old.kept m → MatchesMoment F self.new.kept m) }
        ensures beside { IsBeside 0 0 self.old self.new }
    {
        let to = Nanoseconds::new(time).time();
        self.graph.keeps_sound();
        match move_time(&mut self.graph, to) {
            Ok(()) => {
                self.graph.keeps_sound();
                self.names.set_now(to);
                Ok(())
            }
            Err(fault) => {
                self.graph.keeps_sound();
                Err(fault)
            }
        }
    }
}

/// Moves the time of a graph on. Without memory its nodes stay, and all that is kept beside them.
fn move_time<L: Library>(graph: &mut Graph<ScriptFns<L>>, to: i64) -> Result<(), AllocError>
    requires unbroken { IsUnbroken graph.old }
    requires later { graph.old.nodes.time ≤ℤ to }
    ensures moved { OnOk result (MovesTo graph.old graph.new to) }
    ensures kept { OnErr result (KeepsAll graph.old graph.new) }
{
    match graph.advance(to) {
        Ok(()) => Ok(()),
        Err(fault) => Err(no_memory(fault)),
    }
}
