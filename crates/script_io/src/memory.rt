//! Sources and sinks in memory.
ghost use Rattle.std.specs.Prelude.{◌≡◌, ◌⊎◌, ◌↔◌, ℕ, ◌+◌, ◌-◌, ◌<◌, ◌≤◌, min, length, take, [], Some, None, IfOk, OnOk, OnErr, IsErr, IsOk, is_ok, if◌then◌else◌, Ok};
ghost use Rattle.std.specs.List.{Contains};
ghost use Rattle.std.specs.Io.{ReadsAtMost, WritesAtMost};
ghost use Rattle.std.specs.Io.KnownBytes.{ReadConsumes, WriteAppends};
ghost use Rattle.inc_value.specs.Counts.{raised};
ghost use Rattle.script_io.specs.Causes.{HasCause};
ghost use Rattle.script_io.specs.Memory.{SourceState, SinkState};

use crate::{Failed, Sink, Source};
use std::alloc::{AllocError, Global};
use std::marker::Model;

/// Copies the front of `bytes` into the front of `buf`, as much as both have and at most `most` bytes.
/// The answer is how many.
fn copy_front(bytes: &[u8], buf: &mut [u8], most: usize) -> usize
    ensures count { result ≡ min (min most (length buf.old)) (length bytes.now) }
    ensures front { take result buf.new ≡ take result bytes.now }
{
    let count = most.min(buf.len()).min(bytes.len());
    buf[..count].copy_from_slice(&bytes[..count]);
    count
}

/// A source of bytes in memory that gives at most a piece of them in a call, and fails the calls whose
/// numbers, counted from 1, are listed.
#[derive(Drop)]
pub struct MemSource {
    bytes: Vec<u8>,
    given: usize,
    piece: usize,
    fails: Vec<u64>,
    calls: u64,
    faults: u64,
}

impl Model for MemSource {
    ghost use Rattle.std.specs.Prelude.{◌<◌, ◌≤◌, drop, length};
    ghost use Rattle.script_io.specs.Memory.{SourceState};

    ghost Value = { SourceState };

    ghost view = { λ s. record { left = drop s.given s.bytes.items; piece = s.piece; fails = s.fails.items; calls = s.calls; faults = s.faults } };

    ghost invariant = { λ s. (s.given ≤ length s.bytes.items) × (0 < s.piece) };
}

impl MemSource {
    /// A source of these bytes that gives at most `piece` of them in a call, and fails the calls whose
    /// numbers `fails` has. It keeps the vectors that it is given and takes no memory of its own.
    pub fn new(
        _alloc: Global,
        bytes: Vec<u8>,
        piece: usize,
        fails: Vec<u64>,
    ) -> Result<MemSource, AllocError>
        requires piece { 0 < piece }
        ensures made { IsOk result }
        ensures ok { IfOk result (λ s. s ≡ record { left = bytes.items; piece = piece; fails = fails.items; calls = 0; faults = 0 }) }
    {
        Ok(MemSource {
            bytes,
            given: 0,
            piece,
            fails,
            calls: 0,
            faults: 0,
        })
    }
}

impl Source for MemSource {
    ghost use Rattle.std.specs.Prelude.{Some};

    ghost left = { λ s. Some s.left };

    ghost faults = { λ s. s.faults };

    fn read(&mut self, buf: &mut [u8]) -> Result<usize, Failed>
        ensures bound { ReadsAtMost result buf.new }
        ensures bytes { ReadConsumes (Some self.old.left) (Some self.new.left) result buf.new }
        ensures cause { HasCause self.old.faults self.new.faults result }

        // A call fails exactly where its number is listed, and only that raises the count of faults.
        ensures failed { IsErr result ↔ Contains self.old.fails (raised self.old.calls) }
        ensures faults { self.new.faults ≡ (if is_ok result then self.old.faults else raised self.old.faults) }

        // Any other gives as much as fits into the buffer and a piece.
        ensures count { IfOk result (λ n. n ≡ min (min self.old.piece (length buf.old)) (length self.old.left)) }
        ensures calls { self.new.calls ≡ raised self.old.calls }
        ensures piece { self.new.piece ≡ self.old.piece }
        ensures fails { self.new.fails ≡ self.old.fails }
    {
        self.calls = self.calls.saturating_add(1);
        if self.fails.contains(&self.calls) {
            self.faults = self.faults.saturating_add(1);
            return Err(Failed);
        }
        let count = copy_front(&self.bytes[self.given..], buf, self.piece);
        self.given += count;
        Ok(count)
    }
}

/// A source of bytes in memory that never fails, and gives as much in a call as fits into the buffer.
#[derive(Drop)]
pub struct SureSource {
    bytes: Vec<u8>,
    given: usize,
}

impl Model for SureSource {
    ghost use Rattle.std.specs.Prelude.{List, ℕ, ◌≤◌, drop, length};

    ghost Value = { List ℕ };

    ghost view = { λ s. drop s.given s.bytes.items };

    ghost invariant = { λ s. s.given ≤ length s.bytes.items };
}

impl SureSource {
    /// A source of these bytes. It keeps the vector that it is given and takes no memory of its own.
    pub fn new(_alloc: Global, bytes: Vec<u8>) -> Result<SureSource, AllocError>
        ensures made { IsOk result }
        ensures ok { IfOk result (λ s. s ≡ bytes.items) }
    {
        Ok(SureSource { bytes, given: 0 })
    }
}

impl Source for SureSource {
    ghost use Rattle.std.specs.Prelude.{Some};

    ghost left = { λ s. Some s };

    ghost faults = { λ _. 0 };

    fn read(&mut self, buf: &mut [u8]) -> Result<usize, Failed>
        ensures bound { ReadsAtMost result buf.new }
        ensures bytes { ReadConsumes (Some self.old) (Some self.new) result buf.new }
        ensures cause { HasCause 0 0 result }

        // It never fails, and gives all that fits into the buffer.
        ensures count { result ≡ Ok (min (length buf.old) (length self.old)) }
    {
        let count = copy_front(&self.bytes[self.given..], buf, buf.len());
        self.given += count;
        Ok(count)
    }
}

/// A sink into memory that has room for a number of bytes, and fails the calls whose numbers, counted
/// from 1, are listed.
#[derive(Drop)]
pub struct MemSink {
    bytes: Vec<u8>,
    room: usize,
    fails: Vec<u64>,
    calls: u64,
    faults: u64,
}

impl Model for MemSink {
    ghost use Rattle.std.specs.Prelude.{◌≤◌, length, vec_capacity};
    ghost use Rattle.script_io.specs.Memory.{SinkState};

    ghost Value = { SinkState };

    ghost view = { λ s. record { written = s.bytes.items; room = s.room; fails = s.fails.items; calls = s.calls; faults = s.faults } };

    ghost invariant = { λ s. (length s.bytes.items ≤ s.room) × (s.room ≤ vec_capacity s.bytes) };
}

impl MemSink {
    /// A sink with room for `room` bytes, which it reserves, that fails the calls whose numbers `fails`
    /// has.
    pub fn new(alloc: Global, room: usize, fails: Vec<u64>) -> Result<MemSink, AllocError>
        ensures ok { IfOk result (λ s. s ≡ record { written = []; room = room; fails = fails.items; calls = 0; faults = 0 }) }
    {
        Ok(MemSink {
            bytes: Vec::with_capacity(alloc, room)?,
            room,
            fails,
            calls: 0,
            faults: 0,
        })
    }

    /// What was written so far.
    pub fn written(&self) -> &[u8]
        ensures { result.now ≡ self.now.written }
    {
        &self.bytes
    }
}

impl Sink for MemSink {
    ghost use Rattle.std.specs.Prelude.{Some};

    ghost written = { λ s. Some s.written };

    ghost faults = { λ s. s.faults };

    fn write(&mut self, buf: &[u8]) -> Result<usize, Failed>
        ensures bound { WritesAtMost result buf.now }
        ensures some { 0 < length buf.now → IfOk result (λ n. 0 < n) }
        ensures bytes { WriteAppends (Some self.old.written) (Some self.new.written) result buf.now }
        ensures cause { HasCause self.old.faults self.new.faults result }

        // A call fails exactly where its number is listed, or where no room is left for a piece that isn't empty.
        ensures failed { IsErr result ↔ (Contains self.old.fails (raised self.old.calls) ⊎ ((0 < length buf.now) × (self.old.room ≤ length self.old.written))) }
        ensures faults { self.new.faults ≡ (if is_ok result then self.old.faults else raised self.old.faults) }

        // Any other takes as much as there is room for.
        ensures count { IfOk result (λ n. n ≡ min (length buf.now) (self.old.room - length self.old.written)) }
        ensures calls { self.new.calls ≡ raised self.old.calls }
        ensures room { self.new.room ≡ self.old.room }
        ensures fails { self.new.fails ≡ self.old.fails }
    {
        self.calls = self.calls.saturating_add(1);
        let count = buf.len().min(self.room - self.bytes.len());
        let is_full = count == 0 && !buf.is_empty();
        if is_full || self.fails.contains(&self.calls) {
            self.faults = self.faults.saturating_add(1);
            return Err(Failed);
        }
        match self.bytes.extend_from_slice(&buf[..count]) {
            Ok(()) => Ok(count),
            Err(_) => unreachable!(),
        }
    }
}

/// A sink that takes each piece whole, keeps nothing and never fails. It doesn't tell what was written.
#[derive(Clone, Copy, Default)]
pub struct SureSink;

impl SureSink {
    /// A sink.
    pub fn new() -> SureSink {
        SureSink
    }
}

impl Sink for SureSink {
    ghost written = { λ _. None };

    ghost faults = { λ _. 0 };

    fn write(&mut self, buf: &[u8]) -> Result<usize, Failed>
        ensures bound { WritesAtMost result buf.now }
        ensures some { 0 < length buf.now → IfOk result (λ n. 0 < n) }
        ensures bytes { WriteAppends None None result buf.now }
        ensures cause { HasCause 0 0 result }

        // It takes the piece whole.
        ensures whole { result ≡ Ok (length buf.now) }
    {
        Ok(buf.len())
    }
}
