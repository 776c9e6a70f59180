//! What is written of a line behind what it prints.

use node_arena::Library;
use session::Session;
use std::alloc::AllocError;

/// What a run writes of each line behind what the line prints.
pub trait Report<L: Library> {
    ghost use Rattle.std.specs.Prelude.{◌≡◌, ◌≢◌, ℕ, List, [], ◌∷◌, ◌++◌, OnOk, OnErr};
    ghost use Rattle.script_model.specs.Step.{Reply, Refusal, Refused};
    ghost use Rattle.script_run.specs.Counts.{Count};
    ghost use Rattle.script_run.specs.Steps.{counted_at};
    ghost use Rattle.script_run.specs.Telling.{Behind, TellsRound};

    // what is written behind the replies to a line
    ghost behind: { Behind };

    // whether the counts of calls and builds, and the session's count of accepted stabilizes, were so high when they were noted
    ghost noted: { Self → Count → ℕ → Type 0 };

    /// Notes how many calls the library has counted, how many builds the session, and how many
    /// stabilizes were accepted, before a line is taken.
    fn note(&mut self, session: &Session<L>)
        ensures { noted self.new (counted_at L.calls session.now) session.now.kept.accepted };

    /// Appends what is written behind a line to what the line printed.
    ///
    /// # Errors
    ///
    /// [`AllocError`] where there is no memory for it.
    fn append(&self, session: &Session<L>, buffer: &mut Vec<u8>) -> Result<(), AllocError>
        ensures told { OnOk result ((was : Count) (accepted : ℕ) (replies : List Reply) → noted self.now was accepted
            → TellsRound accepted session.now.kept.accepted replies
            → buffer.new.items ≡ buffer.old.items ++ behind replies was (counted_at L.calls session.now)) }
        ensures wanted { OnErr result ((was : Count) (accepted : ℕ) (replies : List Reply) → noted self.now was accepted
            → TellsRound accepted session.now.kept.accepted replies
            → behind replies was (counted_at L.calls session.now) ≢ []) };

    // nothing is written behind a refusal
    ghost quiet: { (why : Refusal) (was is : Count) → behind (Refused why ∷ []) was is ≡ [] };
}
