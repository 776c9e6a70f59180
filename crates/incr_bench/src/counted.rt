//! Functions whose calls are counted.

use closures::Closures;
use node_arena::Functions;
use script_functions::ScriptFns;
use std_library::StdLib;

/// Functions of a graph that tell how often they were called.
pub trait Counted: Functions {
    ghost use Rattle.std.specs.Prelude.{◌≡◌};

    /// How often maps were called so far, up to 2^64 - 1.
    fn count(&self) -> u64
        ensures { result ≡ Self.calls self.now };
}

impl Counted for ScriptFns<StdLib> {
    fn count(&self) -> u64 {
        self.library().calls()
    }
}

impl Counted for Closures {
    fn count(&self) -> u64 {
        self.calls()
    }
}
