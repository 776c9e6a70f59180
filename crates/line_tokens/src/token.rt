//! Tokens.
ghost use Rattle.std.specs.Prelude.{◌≡◌, All};
ghost use Rattle.inc_value.specs.Text.{IsPrintable};

use std::marker::Model;

/// A unit of time.
#[derive(Clone, Copy, PartialEq, Eq)]
pub enum TimeUnit {
    /// `ns`.
    Nanoseconds,
    /// `us`.
    Microseconds,
    /// `ms`.
    Milliseconds,
    /// `s`.
    Seconds,
}

/// A sign.
#[derive(Clone, Copy, PartialEq, Eq)]
pub enum Sign {
    /// `(`.
    Open,
    /// `)`.
    Close,
    /// `[`.
    OpenBracket,
    /// `]`.
    CloseBracket,
    /// `,`.
    Comma,
    /// `:`.
    Colon,
    /// `=`.
    Equals,
    /// `&`.
    Ampersand,
}

/// What stands between the quotes of a text, without the escapes, seen as its bytes: printable ones.
#[derive(Drop)]
pub struct Content {
    bytes: Vec<u8>,
}

impl Model for Content {
    ghost use Rattle.std.specs.Prelude.{List, ℕ, All};
    ghost use Rattle.inc_value.specs.Text.{IsPrintable};

    ghost Value = { List ℕ };

    ghost view = { λ c. c.bytes.items };

    ghost invariant = { λ c. All IsPrintable c.bytes.items };
}

impl Content {
    /// The content with these bytes.
    pub(crate) fn new(bytes: Vec<u8>) -> Content
        requires { All IsPrintable bytes.items }
        ensures { result ≡ bytes.items }
    {
        Content { bytes }
    }

    /// The bytes of the content.
    pub fn bytes(&self) -> &[u8]
        ensures value { result.now ≡ self.now }
        ensures printable { All IsPrintable result.now }
    {
        &self.bytes
    }
}

/// A token of a line.
#[derive(Drop)]
pub enum Token<'a> {
    /// A letter or `_`, and the letters, digits and `_` behind it.
    Word(&'a [u8]),
    /// Digits, behind a `-` where it is negative.
    Number { negative: bool, digits: &'a [u8] },
    /// Digits with a unit of time.
    Time { digits: &'a [u8], unit: TimeUnit },
    /// A text.
    Text(Content),
    /// `advance-to`.
    AdvanceTo,
    /// A sign.
    Punctuation(Sign),
}

/// Stands in each unused place of a row of tokens.
impl<'a> Default for Token<'a> {
    fn default() -> Token<'a> {
        Token::AdvanceTo
    }
}
