//! The standard streams as a source and a sink.
ghost use Rattle.std.specs.Prelude.{◌≡◌, ℕ, ◌<◌, ◌≤◌, None, IfOk, OnErr, IsErr, length, take};
ghost use Rattle.std.specs.Io.{ReadsAtMost, WritesAtMost};
ghost use Rattle.std.specs.Io.KnownBytes.{Appends, ReadConsumes, WriteAppends};
ghost use Rattle.inc_value.specs.Counts.{raised, raised_on_err};
ghost use Rattle.script_io.specs.Causes.{HasCause};
ghost use Rattle.std_streams.specs.Counted.{IsCounted, WritesOnce, none_made};

use crate::{CountedReader, CountedWriter};
use script_io::{Failed, Sink, Source};
use std::io::{Read, Write};
use std::marker::Model;

/// A source over a reader of std, as standard input (`rt.stdin()`). Each call makes one read, which
/// gives what is there, and fails where that fails. It tells what the reader tells, which of standard
/// input is nothing.
#[derive(Drop)]
pub struct StdSource<R> {
    reader: CountedReader<R>,
}

impl<R> Model for StdSource<R> {
    ghost use Rattle.std_streams.specs.Counted.{Reading};

    ghost Value = { Reading R };

    ghost view = { λ s. s.reader };
}

impl<R: Read> StdSource<R> {
    /// A source of what the reader gives, with no call yet.
    pub fn new(inner: R) -> StdSource<R>
        ensures { result ≡ record { inner = inner; reads = none_made } }
    {
        StdSource {
            reader: CountedReader::new(inner),
        }
    }
}

impl<R: Read> Source for StdSource<R> {
    ghost left = { λ s. R.remaining s.inner };

    ghost faults = { λ s. s.reads.failed };

    fn read(&mut self, buf: &mut [u8]) -> Result<usize, Failed>
        ensures bound { ReadsAtMost result buf.new }
        ensures bytes { ReadConsumes (R.remaining self.old.inner) (R.remaining self.new.inner) result buf.new }
        ensures cause { HasCause self.old.reads.failed self.new.reads.failed result }

        // One read is made, and fails exactly where the call does.
        ensures counted { IsCounted self.old.reads self.new.reads result }
    {
        self.reader.read(buf)
    }
}

/// A sink over a writer of std, as standard output (`rt.stdout()`). Each call makes one write and
/// flushes it. It fails where one of these fails, and where nothing was taken of a piece that isn't
/// empty. As a sink it doesn't tell what was written: a writer that fails to flush may have taken
/// bytes in that call. What its calls pass on to the writer their own clauses tell.
#[derive(Drop)]
pub struct StdSink<W> {
    writer: CountedWriter<W>,
    faults: u64,
}

impl<W> Model for StdSink<W> {
    ghost use Rattle.std_streams.specs.Counted.{Sinking};

    ghost Value = { Sinking W };

    ghost view = { λ s. record { writer = s.writer; faults = s.faults } };
}

impl<W: Write> StdSink<W> {
    /// A sink into the writer, with no call and no fault yet.
    pub fn new(inner: W) -> StdSink<W>
        ensures { result ≡ record { writer = record { inner = inner; writes = none_made; flushes = none_made }; faults = 0 } }
    {
        StdSink {
            writer: CountedWriter::new(inner),
            faults: 0,
        }
    }

    /// Counts a fault.
    fn fail(&mut self) -> Result<usize, Failed>
        ensures failed { IsErr result }
        ensures writer { self.new.writer ≡ self.old.writer }
        ensures faults { self.new.faults ≡ raised self.old.faults }
        ensures cause { HasCause self.old.faults self.new.faults result }
    {
        self.faults = self.faults.saturating_add(1);
        Err(Failed)
    }
}

impl<W: Write> Sink for StdSink<W> {
    ghost written = { λ _. None };

    ghost faults = { λ s. s.faults };

    fn write(&mut self, buf: &[u8]) -> Result<usize, Failed>
        ensures bound { WritesAtMost result buf.now }
        ensures some { 0 < length buf.now → IfOk result (λ n. 0 < n) }
        ensures bytes { WriteAppends None None result buf.now }
        ensures cause { HasCause self.old.faults self.new.faults result }
        ensures faults { self.new.faults ≡ raised_on_err result self.old.faults }

        // One write and one flush are made, and the call fails exactly where one of these does or nothing was taken.
        ensures once { WritesOnce W.contents buf.now self.old.writer self.new.writer result }

        // The writer was given just the bytes that are counted, and by a failed call a front of the piece.
        ensures passed { IfOk result (λ n. Appends (W.contents self.old.writer.inner) (W.contents self.new.writer.inner) (take n buf.now)) }
        ensures front { OnErr result ((n : ℕ) × (n ≤ length buf.now) × Appends (W.contents self.old.writer.inner) (W.contents self.new.writer.inner) (take n buf.now)) }
    {
        let count = match self.writer.write(buf) {
            Ok(count) => count,
            Err(Failed) => return self.fail(),
        };
        if count == 0 && !buf.is_empty() {
            return self.fail();
        }
        match self.writer.flush() {
            Ok(()) => Ok(count),
            Err(Failed) => self.fail(),
        }
    }
}
