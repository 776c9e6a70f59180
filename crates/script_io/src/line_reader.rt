//! The lines of a source.
ghost use Rattle.std.specs.Prelude.{◌≡◌, ◌≢◌, ◌⊎◌, ℕ, ◌+◌, ◌<◌, ◌≤◌, List, [], ◌∷◌, ◌++◌, length, take, false, vec_capacity, IfOk};
ghost use Rattle.script_io.specs.Bytes.{AreOfferedWhole};
ghost use Rattle.script_io.specs.Causes.{Rose};
ghost use Rattle.script_io.specs.Lines.{Takes, HoldsEnough, fresh, is_last};

use crate::Source;
use crate::byte_reader::{ByteReader, Stop};
use std::alloc::{AllocError, Global};
use std::marker::Model;

/// The most bytes that a line may have.
const LONGEST: usize = 4096;

/// What a reader of lines got.
#[derive(Clone, Copy, PartialEq, Eq)]
pub enum Got {
    /// A line, which `line` tells.
    Line,

    /// A line of more than 4,096 bytes, which was skipped.
    TooLong,

    /// The end of the source.
    End,

    /// The limit: so many bytes were taken, and another one came.
    Limit,

    /// A fault of the source.
    ReadFault,
}

/// A reader of the lines of a source. A line ends at a newline, or at the end of the source where at
/// least one byte stands after the last newline. Each read is offered room for 4,096 bytes, and is made
/// only where every byte read before was taken and another one is needed.
#[derive(Drop)]
pub struct LineReader {
    bytes: ByteReader,
    line: Vec<u8>,
    is_ended: bool,
}

impl Model for LineReader {
    ghost use Rattle.std.specs.Prelude.{◌≡◌, ◌≤◌, vec_capacity};
    ghost use Rattle.script_io.specs.Lines.{Reader};

    ghost Value = { Reader };

    ghost view = { λ r. record { held = r.bytes.held; line = r.line.items; taken = r.bytes.taken; ended = r.is_ended } };

    ghost invariant = { λ r. 4096 ≤ vec_capacity r.line };
}

/// Puts a byte at the end of a line, where it isn't full.
fn push_within(line: &mut Vec<u8>, byte: u8)
    requires short { length line.old.items ≤ 4096 }
    requires room { 4096 ≤ vec_capacity line.old }
    ensures items { line.new.items ≡ take 4096 (line.old.items ++ byte ∷ []) }
    ensures capacity { vec_capacity line.new ≡ vec_capacity line.old }
{
    if line.len() < LONGEST {
        line.push_reserved(byte);
    }
}

/// What was got, where a line of this length ended. A line that is too long is let go.
fn whole(line: &mut Vec<u8>, length: u64) -> Got
    ensures line { length ≤ 4096 → (result ≡ Got.Line) × (line.new.items ≡ line.old.items) }
    ensures too_long { 4096 < length → (result ≡ Got.TooLong) × (line.new.items ≡ []) }
    ensures open { is_last result ≡ false }
    ensures capacity { vec_capacity line.new ≡ vec_capacity line.old }
{
    if length <= LONGEST as u64 {
        return Got::Line;
    }
    line.clear();
    Got::TooLong
}

impl LineReader {
    /// A reader that has read nothing. It takes the room for a line and for a read.
    pub fn new(alloc: Global) -> Result<LineReader, AllocError>
        ensures ok { IfOk result (λ r. r ≡ fresh) }
    {
        Ok(LineReader {
            bytes: ByteReader::new(alloc)?,
            line: Vec::with_capacity(alloc, LONGEST)?,
            is_ended: false,
        })
    }

    /// The line that the last call of `next` got, without its newline, or nothing where it got none.
    pub fn line(&self) -> &[u8]
        ensures { result.now ≡ self.now.line }
    {
        &self.line
    }

    /// How many bytes of the source were taken so far.
    pub fn taken(&self) -> u64
        ensures { result ≡ self.now.taken }
    {
        self.bytes.taken()
    }

    /// Whether the reader must not be asked again.
    pub fn is_ended(&self) -> bool
        ensures { result ≡ self.now.ended }
    {
        self.is_ended
    }

    /// Takes the next line of the source, as long as at most `limit` bytes are taken in all. After
    /// `End`, `Limit` and `ReadFault` the reader must not be asked again. It takes no memory.
    ///
    /// Nothing is read while a newline is held, or more bytes than may be taken, and each read is
    /// offered room for 4,096 bytes. Only `ReadFault` tells a failed read, and no read is made after it.
    pub fn next<S: Source>(&mut self, src: &mut S, limit: u64) -> Got
        requires within { self.old.taken ≤ limit }
        requires open { self.old.ended ≡ false }
        ensures takes { (part : List ℕ) × Takes self.old self.new (S.left src.old) (S.left src.new) limit result part }
        ensures within { self.new.taken ≤ limit }
        ensures grows { result ≡ Got.Line → self.old.taken < self.new.taken }
        ensures grows_too_long { result ≡ Got.TooLong → self.old.taken < self.new.taken }
        ensures unread { HoldsEnough self.old limit → src.new ≡ src.old }
        ensures few { length self.new.held ≤ 4096 }
        ensures offered { AreOfferedWhole (S.offered src.old) (S.offered src.new) }
        ensures later { S.faults src.old ≤ S.faults src.new }
        ensures fault { result ≡ Got.ReadFault → Rose (S.faults src.old) (S.faults src.new) }
        ensures unfailed { result ≢ Got.ReadFault → S.faults src.new ≡ S.faults src.old }
        ensures ended { self.new.ended ≡ is_last result }
        ensures cleared { (result ≡ Got.Line) ⊎ (self.new.line ≡ []) }
    {
        self.line.clear();
        let mut length = 0u64;
        loop {
            match self.bytes.next(src, limit) {
                Ok(b'\n') => return whole(&mut self.line, length),
                Ok(byte) => {
                    push_within(&mut self.line, byte);
                    length += 1;
                }
                Err(Stop::End) => {
                    if length > 0 {
                        return whole(&mut self.line, length);
                    }
                    self.is_ended = true;
                    return Got::End;
                }
                Err(Stop::Limit) => {
                    self.line.clear();
                    self.is_ended = true;
                    return Got::Limit;
                }
                Err(Stop::ReadFault) => {
                    self.line.clear();
                    self.is_ended = true;
                    return Got::ReadFault;
                }
            }
        }
    }
}
