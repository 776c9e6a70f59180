//! Sources of bytes.
ghost use Rattle.std.specs.Prelude.{ℕ, List, [], ◌∷◌, length, Option, None};
ghost use Rattle.std.specs.Io.{ReadsAtMost};
ghost use Rattle.std.specs.Io.KnownBytes.{Appends, ReadConsumes};
ghost use Rattle.script_io.specs.Causes.{HasCause};

/// A call failed. The count of faults of the source or the sink tells how often.
#[derive(Clone, Copy, Debug, PartialEq, Eq)]
pub struct Failed;

/// Where a script comes from.
pub trait Source {
    /// The bytes still to come, where the source tells them.
    ghost left: { Self → Option (List ℕ) };

    /// How often it has failed, up to 2^64 - 1.
    ghost faults: { Self → ℕ };

    /// The room that each read so far was offered, in order, where the source notes it.
    ghost offered: { Self → Option (List ℕ) } = { λ _. None };

    /// Fills the front of `buf` and answers how many bytes it gave; 0 into a buffer that isn't empty is
    /// the end. `Failed` takes nothing from what is left.
    fn read(&mut self, buf: &mut [u8]) -> Result<usize, Failed>
        ensures bound { ReadsAtMost result buf.new }
        ensures bytes { ReadConsumes (left self.old) (left self.new) result buf.new }
        ensures cause { HasCause (faults self.old) (faults self.new) result }
        ensures offered { Appends (offered self.old) (offered self.new) (length buf.old ∷ []) };
}
