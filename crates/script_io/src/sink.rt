//! Sinks of bytes.
ghost use Rattle.std.specs.Prelude.{◌≡◌, ℕ, ◌<◌, List, [], Option, length, take, IfOk, OnOk, OnErr};
ghost use Rattle.std.specs.Io.{WritesAtMost};
ghost use Rattle.std.specs.Io.KnownBytes.{Appends, WriteAppends};
ghost use Rattle.script_io.specs.Causes.{HasCause};

use crate::Failed;

/// Where a transcript goes.
pub trait Sink {
    /// What was written so far, where the sink tells it.
    ghost written: { Self → Option (List ℕ) };

    /// How often it has failed, up to 2^64 - 1.
    ghost faults: { Self → ℕ };

    /// Takes the front of `buf` and answers how many bytes it took, at least one of a piece that isn't
    /// empty. `Failed` takes none.
    fn write(&mut self, buf: &[u8]) -> Result<usize, Failed>
        ensures bound { WritesAtMost result buf.now }
        ensures some { 0 < length buf.now → IfOk result (λ n. 0 < n) }
        ensures bytes { WriteAppends (written self.old) (written self.new) result buf.now }
        ensures cause { HasCause (faults self.old) (faults self.new) result };
}

/// Writes all of `bytes`, in as many calls as that takes. `Failed` comes from the first call that
/// fails; the front of the bytes is written then.
pub fn write_whole<K: Sink>(out: &mut K, bytes: &[u8]) -> Result<(), Failed>
    ensures ok { OnOk result (Appends (K.written out.old) (K.written out.new) bytes.now) }
    ensures prefix { OnErr result ((n : ℕ) × (n < length bytes.now) × Appends (K.written out.old) (K.written out.new) (take n bytes.now)) }
    ensures cause { HasCause (K.faults out.old) (K.faults out.new) result }
{
    let mut done = 0;
    while done < bytes.len() {
        done += out.write(&bytes[done..])?;
    }
    Ok(())
}

/// Writes all that the buffer holds, and clears it. On `Failed` it holds what it held.
pub fn deliver<K: Sink>(out: &mut K, buffer: &mut Vec<u8>) -> Result<(), Failed>
    ensures ok { OnOk result (Appends (K.written out.old) (K.written out.new) buffer.old.items) }
    ensures cleared { OnOk result (buffer.new.items ≡ []) }
    ensures kept { OnErr result (buffer.new.items ≡ buffer.old.items) }
    ensures prefix { OnErr result ((n : ℕ) × (n < length buffer.old.items) × Appends (K.written out.old) (K.written out.new) (take n buffer.old.items)) }
    ensures cause { HasCause (K.faults out.old) (K.faults out.new) result }
{
    write_whole(out, buffer)?;
    buffer.clear();
    Ok(())
}
