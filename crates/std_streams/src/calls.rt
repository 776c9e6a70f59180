//! Counts of calls.
ghost use Rattle.std.specs.Prelude.{◌≡◌, IsErr, MatchResult, Ok};

use script_io::Failed;
use std::io;

/// How many calls were made, and how many of them failed. Each count stays at 2^64 - 1 once there.
#[derive(Clone, Copy, PartialEq, Eq)]
pub struct Calls {
    pub made: u64,
    pub failed: u64,
}

impl Calls {
    ghost use Rattle.std_streams.specs.Counted.{IsCounted, none_made};

    /// Before the first call.
    pub fn new() -> Calls
        ensures { result ≡ none_made }
    {
        Calls { made: 0, failed: 0 }
    }

    /// Counts a call by its answer, and passes the answer on.
    pub fn count<T>(&mut self, answer: io::Result<T>) -> Result<T, Failed>
        ensures counted { IsCounted self.old self.new result }
        ensures passed { MatchResult answer (λ x. result ≡ Ok x) (λ _. IsErr result) }
    {
        self.made = self.made.saturating_add(1);
        match answer {
            Ok(value) => Ok(value),
            Err(_) => {
                self.failed = self.failed.saturating_add(1);
                Err(Failed)
            }
        }
    }
}
