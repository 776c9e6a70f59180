//! Readers and writers of std whose calls are counted.
ghost use Rattle.std.specs.Prelude.{◌≡◌};
ghost use Rattle.std.specs.Io.{ReadsAtMost, WritesAtMost};
ghost use Rattle.std.specs.Io.KnownBytes.{Keeps, ReadConsumes, WriteAppends};
ghost use Rattle.std_streams.specs.Counted.{IsCounted, none_made};

use crate::Calls;
use script_io::Failed;
use std::io::{Read, Write};
use std::marker::Model;

/// A reader of std, and its calls so far. Each call is one of the reader's.
#[derive(Drop)]
pub struct CountedReader<R> {
    inner: R,
    reads: Calls,
}

impl<R> Model for CountedReader<R> {
    ghost use Rattle.std_streams.specs.Counted.{Reading};

    ghost Value = { Reading R };

    ghost view = { λ r. record { inner = r.inner; reads = r.reads } };
}

impl<R: Read> CountedReader<R> {
    /// A reader of which no call was made.
    pub fn new(inner: R) -> CountedReader<R>
        ensures { result ≡ record { inner = inner; reads = none_made } }
    {
        CountedReader {
            inner,
            reads: Calls::new(),
        }
    }

    /// Reads once.
    pub fn read(&mut self, buf: &mut [u8]) -> Result<usize, Failed>
        ensures bound { ReadsAtMost result buf.new }
        ensures bytes { ReadConsumes (R.remaining self.old.inner) (R.remaining self.new.inner) result buf.new }
        ensures counted { IsCounted self.old.reads self.new.reads result }
    {
        self.reads.count(self.inner.read(buf))
    }
}

/// A writer of std, and its calls so far. Each call is one of the writer's.
#[derive(Drop)]
pub struct CountedWriter<W> {
    inner: W,
    writes: Calls,
    flushes: Calls,
}

impl<W> Model for CountedWriter<W> {
    ghost use Rattle.std_streams.specs.Counted.{Writing};

    ghost Value = { Writing W };

    ghost view = { λ w. record { inner = w.inner; writes = w.writes; flushes = w.flushes } };
}

impl<W: Write> CountedWriter<W> {
    /// A writer of which no call was made.
    pub fn new(inner: W) -> CountedWriter<W>
        ensures { result ≡ record { inner = inner; writes = none_made; flushes = none_made } }
    {
        CountedWriter {
            inner,
            writes: Calls::new(),
            flushes: Calls::new(),
        }
    }

    /// Writes once.
    pub fn write(&mut self, buf: &[u8]) -> Result<usize, Failed>
        ensures bound { WritesAtMost result buf.now }
        ensures bytes { WriteAppends (W.contents self.old.inner) (W.contents self.new.inner) result buf.now }
        ensures counted { IsCounted self.old.writes self.new.writes result }
        ensures flushes { self.new.flushes ≡ self.old.flushes }
    {
        self.writes.count(self.inner.write(buf))
    }

    /// Flushes once.
    pub fn flush(&mut self) -> Result<(), Failed>
        ensures bytes { Keeps (W.contents self.old.inner) (W.contents self.new.inner) }
        ensures counted { IsCounted self.old.flushes self.new.flushes result }
        ensures writes { self.new.writes ≡ self.old.writes }
    {
        self.flushes.count(self.inner.flush())
    }
}
