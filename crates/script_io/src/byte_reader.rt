//! The bytes of a source one after another, up to a limit.
ghost use Rattle.std.specs.Prelude.{◌≡◌, ◌≢◌, ◌<◌, ◌≤◌, ◌+◌, [], ◌∷◌, IsTrue, length, IfOk, IsErr, Ok, Err, false, true};
ghost use Rattle.std.specs.Io.KnownBytes.{Keeps, IsAtEnd, prepend_known};
ghost use Rattle.script_io.specs.Causes.{HasCause, Rose};
ghost use Rattle.script_io.specs.Bytes.{Gives, TakesHeld, AreOfferedWhole};

use crate::{Failed, Source};
use std::alloc::{AllocError, Global};
use std::marker::Model;

/// How many bytes a read is offered room for.
const BUFFER: usize = 4096;

/// Why there is no next byte.
#[derive(Clone, Copy, PartialEq, Eq)]
pub enum Stop {
    End,
    Limit,
    ReadFault,
}

/// Bytes that were read from a source, and how many of them were taken so far.
#[derive(Drop)]
pub struct ByteReader {
    buffer: Vec<u8>,
    start: usize,
    end: usize,
    taken: u64,
}

impl Model for ByteReader {
    ghost use Rattle.std.specs.Prelude.{◌≡◌, ◌≤◌, length, take, drop};
    ghost use Rattle.script_io.specs.Lines.{Stream};

    ghost Value = { Stream };

    ghost view = { λ r. record { held = drop r.start (take r.end r.buffer.items); taken = r.taken } };

    ghost invariant = { λ r. (r.start ≤ r.end) × (r.end ≤ length r.buffer.items) × (length r.buffer.items ≡ 4096) };
}

impl ByteReader {
    /// A reader that has read nothing. It takes the room for its reads.
    pub fn new(alloc: Global) -> Result<ByteReader, AllocError>
        ensures ok { IfOk result (λ r. r ≡ record { held = []; taken = 0 }) }
    {
        Ok(ByteReader {
            buffer: vec![in alloc; 0; BUFFER]?,
            start: 0,
            end: 0,
            taken: 0,
        })
    }

    /// How many bytes were taken so far.
    pub fn taken(&self) -> u64
        ensures { result ≡ self.now.taken }
    {
        self.taken
    }

    /// Whether another byte comes. It reads only where no byte is held.
    fn is_ready<S: Source>(&mut self, source: &mut S) -> Result<bool, Failed>
        ensures ahead { Keeps (prepend_known self.old.held (S.left source.old)) (prepend_known self.new.held (S.left source.new)) }
        ensures ready { IfOk result (λ ready. IsTrue ready → 0 < length self.new.held) }
        ensures at_end { result ≡ Ok false → (self.new.held ≡ []) × IsAtEnd (S.left source.new) }
        ensures failed { IsErr result → self.new.held ≡ [] }
        ensures taken { self.new.taken ≡ self.old.taken }
        ensures unread { 0 < length self.old.held → (source.new ≡ source.old) × (self.new.held ≡ self.old.held) × (result ≡ Ok true) }
        ensures few { length self.new.held ≤ 4096 }
        ensures cause { HasCause (S.faults source.old) (S.faults source.new) result }
        ensures offered { AreOfferedWhole (S.offered source.old) (S.offered source.new) }
    {
        if self.start < self.end {
            return Ok(true);
        }
        self.start = 0;
        self.end = 0;
        let count = source.read(&mut self.buffer)?;
        self.end = count;
        Ok(count > 0)
    }

    /// Takes the next byte, where fewer than `limit` were taken. Without one nothing is taken.
    pub fn next<S: Source>(&mut self, source: &mut S, limit: u64) -> Result<u8, Stop>
        requires within { self.old.taken ≤ limit }
        ensures gives { Gives self.old self.new (S.left source.old) (S.left source.new) limit result }
        ensures within { self.new.taken ≤ limit }
        ensures unread { 0 < length self.old.held → source.new ≡ source.old }
        ensures from_held { 0 < length self.old.held → TakesHeld self.old self.new result }
        ensures few { length self.new.held ≤ 4096 }
        ensures later { S.faults source.old ≤ S.faults source.new }
        ensures fault { result ≡ Err Stop.ReadFault → Rose (S.faults source.old) (S.faults source.new) }
        ensures unfailed { result ≢ Err Stop.ReadFault → S.faults source.new ≡ S.faults source.old }
        ensures offered { AreOfferedWhole (S.offered source.old) (S.offered source.new) }
    {
        match self.is_ready(source) {
            Ok(true) => {}
            Ok(false) => return Err(Stop::End),
            Err(Failed) => return Err(Stop::ReadFault),
        }
        if self.taken == limit {
            return Err(Stop::Limit);
        }
        let byte = self.buffer[self.start];
        self.start += 1;
        self.taken += 1;
        Ok(byte)
    }
}
