//! Short texts of printable ASCII.
ghost use Rattle.std.specs.Prelude.{◌≡◌, ◌<◌, ◌≤◌, ◌↔◌, length, Any, IfOk, OnOk, IsErrOf, IsTrue};
ghost use Rattle.inc_value.specs.Text.{IsPrintable, IsText};

use std::alloc::{AllocError, Global};
use std::marker::Model;
use thiserror::Error;

/// The most bytes that a text may have.
const MAX_LEN: usize = 4_096;

/// A text: at most 4,096 bytes, each from 0x20 to 0x7E.
pub struct Text {
    bytes: Vec<u8>,
}

// (written out: whoever drops one proves one call, and no drop of its parts)
impl Drop for Text {
    fn drop(self) {
        let Text { bytes } = self;
        drop(bytes);
    }
}

impl Model for Text {
    ghost use Rattle.std.specs.Prelude.{List, ℕ};

    ghost Value = { List ℕ };

    ghost use Rattle.inc_value.specs.Text.{IsText};

    ghost view = { λ t. t.bytes.items };

    ghost invariant = { λ t. IsText t.bytes.items };
}

/// Why bytes are no text.
#[derive(Clone, Copy, Debug, PartialEq, Eq, Error)]
pub enum TextFault {
    /// There are more than 4,096 bytes.
    #[error("a text has at most 4,096 bytes")]
    TooLong,
    /// Some byte is not from 0x20 to 0x7E.
    #[error("a text is of printable ASCII")]
    NotPrintable,
    /// There is no memory for a copy of the bytes.
    #[error("out of memory")]
    Memory,
}

impl Text {
    /// A text of the bytes. Bytes that are too long are reported as such, whatever they are.
    pub fn new(alloc: Global, bytes: &[u8]) -> Result<Text, TextFault>
        ensures ok { IfOk result (λ t. t ≡ bytes.now) }
        ensures text { OnOk result (IsText bytes.now) }
        ensures too_long { IsErrOf result TextFault.TooLong ↔ (4096 < length bytes.now) }
        ensures not_printable { IsErrOf result TextFault.NotPrintable
            ↔ ((length bytes.now ≤ 4096) × Any (λ b. ¬ IsPrintable b) bytes.now) }
    {
        if bytes.len() > MAX_LEN {
            return Err(TextFault::TooLong);
        }
        if bytes.iter().any(|byte| !is_printable(*byte)) {
            return Err(TextFault::NotPrintable);
        }
        let bytes = Vec::from_slice(alloc, bytes).map_err(|_| TextFault::Memory)?;
        Ok(Text { bytes })
    }

    /// The bytes of the text.
    pub fn bytes(&self) -> &[u8]
        ensures value { result.now ≡ self.now }
        ensures text { IsText self.now }
    {
        &self.bytes
    }

    /// A text of the same bytes.
    pub fn copy(&self, alloc: Global) -> Result<Text, AllocError>
        ensures { IfOk result (λ t. t ≡ self.now) }
    {
        let bytes = Vec::from_slice(alloc, &self.bytes)?;
        Ok(Text { bytes })
    }

    /// Whether both texts have the same bytes.
    pub fn same(&self, other: &Text) -> bool
        ensures { IsTrue result ↔ (self.now ≡ other.now) }
    {
        self.bytes() == other.bytes()
    }
}

/// Whether a text may have the byte.
fn is_printable(byte: u8) -> bool
    ensures { IsTrue result ↔ IsPrintable byte }
{
    (b' '..=b'~').contains(&byte)
}
