//! Libraries that tell how many functions were called.
ghost use Rattle.std.specs.Prelude.{◌≡◌};

use node_arena::Library;
use std_library::StdLib;

/// A library that tells how often `apply` was called.
pub trait CountedLibrary: Library {
    /// How many functions were called, up to 2^64 - 1.
    fn call_count(&self) -> u64
        ensures { result ≡ Self.calls self.now };
}

impl CountedLibrary for StdLib {
    fn call_count(&self) -> u64 {
        self.calls()
    }
}
