//! What printed lines come to.
ghost use Rattle.std.specs.Prelude.{◌≡◌, ◌+◌, ◌<◌, ◌^◌, ◌++◌, true, false, List, ℕ, length, OnOk};
ghost use Rattle.script_io.specs.Lines.{lines_of};
ghost use Rattle.generated_script.specs.Summary.{summary_of, summary_line};
ghost use Rattle.generated_script.specs.Counting.{IsEnded, counted, counts_byte, nothing, summary_counted};

use crate::numbers::add_number;
use std::alloc::AllocError;
use std::marker::Model;

/// How a refusal begins; a digit follows.
const REFUSED: &[u8] = b"refused ";

/// What the bytes that were printed come to: how many lines they have, how many they are, their sum
/// modulo 2^32, and how many of the lines are refusals. The bytes are not kept.
#[derive(Drop)]
pub struct Tally {
    lines: u128,
    bytes: u128,
    sum: u32,
    refused: u128,

    // with which bytes the line that has begun goes on where it is a refusal; none where that is settled
    ahead: Option<&'static [u8]>,
}

impl Model for Tally {
    ghost use Rattle.std.specs.Prelude.{◌≤◌, option_map};
    ghost use Rattle.generated_script.specs.Counting.{Count};

    ghost Value = { Count };

    ghost view = { λ t. record { lines = t.lines; bytes = t.bytes; sum = t.sum; refused = t.refused; ahead = option_map (λ s. s.now) t.ahead } };

    // there are no more lines than bytes
    ghost invariant = { λ t. (t.lines ≤ t.bytes) × (t.refused ≤ t.bytes) };
}

impl Tally {
    /// Before anything was printed.
    pub fn new() -> Tally
        ensures { result ≡ nothing }
    {
        Tally {
            lines: 0,
            bytes: 0,
            sum: 0,
            refused: 0,
            ahead: Some(REFUSED),
        }
    }

    /// Counts a byte of a line, which is no newline.
    fn go_on(&mut self, byte: u8)
        requires { self.old.bytes < 2 ^ 127 }
        ensures { self.new ≡ counts_byte false self.old byte }
    {
        self.bytes += 1;
        self.sum = self.sum.wrapping_add(byte as u32);
        match self.ahead {
            None => {}
            Some([]) => {
                if byte.is_ascii_digit() {
                    self.refused += 1;
                }
                self.ahead = None;
            }
            Some([first, rest @ ..]) => {
                self.ahead = if byte == *first { Some(rest) } else { None };
            }
        }
    }

    /// Counts a newline.
    fn end_line(&mut self)
        requires { self.old.bytes < 2 ^ 127 }
        ensures { self.new ≡ counts_byte true self.old 10 }
    {
        self.lines += 1;
        self.bytes += 1;
        self.sum = self.sum.wrapping_add(10);
        self.ahead = Some(REFUSED);
    }

    /// Counts bytes that were printed, of which there are fewer than 2^127 so far.
    pub fn add(&mut self, printed: &[u8])
        requires { self.old.bytes + length printed.now < 2 ^ 127 }
        ensures counted { self.new ≡ counted self.old printed.now }
        ensures bytes { self.new.bytes ≡ self.old.bytes + length printed.now }
    {
        for byte in printed {
            if *byte == b'\n' {
                self.end_line();
            } else {
                self.go_on(*byte);
            }
        }
    }

    /// Appends the line that tells what was counted: where `printed` was, and ends with a newline, the
    /// summary of its lines.
    ///
    /// # Errors
    ///
    /// [`AllocError`] where there is no memory for it.
    pub fn append_summary(&self, buffer: &mut Vec<u8>) -> Result<(), AllocError>
        ensures { (printed : List ℕ) → self.now ≡ counted nothing printed → IsEnded printed
            → OnOk result (buffer.new.items ≡ buffer.old.items ++ summary_line (summary_of (lines_of printed))) }
    {
        self.append_counts(buffer)
    }

    /// Appends the line that tells the counts.
    fn append_counts(&self, buffer: &mut Vec<u8>) -> Result<(), AllocError>
        ensures { OnOk result (buffer.new.items ≡ buffer.old.items ++ summary_line (summary_counted self.now)) }
    {
        add_number(b"lines ", self.lines, buffer)?;
        add_number(b" bytes ", self.bytes, buffer)?;
        add_number(b" sum ", self.sum, buffer)?;
        add_number(b" refused ", self.refused, buffer)?;
        buffer.extend_from_slice(b"\n")?;
        Ok(())
    }
}
