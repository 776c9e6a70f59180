//! The tokens of a line.
ghost use Rattle.std.specs.Prelude.{◌≡◌, ◌≢◌, ◌<◌, ◌≤◌, length, map, IfOk, IfSome, IfNone, ℕ, List, [], ◌∷◌, ◌++◌, Bool, true, false, None, is_some, option_map, slice_index, drop, IsTrue};
ghost use Rattle.std.specs.List.{list_all, prefix_len};
ghost use Rattle.inc_value.specs.Text.{IsPrintable};
ghost use Rattle.script_model.specs.Language.{is_digit, is_word_byte};
ghost use Rattle.script_model.specs.Tokens as tokens;
ghost use Rattle.script_model.specs.Tokens.{AreSpelled};
ghost use Rattle.script_model.specs.Reading.{sign_of, unit_of, number_token, digits_length, run_token, minus_token, run_length, begins_no_run, begins_advance_to, word_or_number, negative_number, is_escapable, is_printable, text_from, text_token, first_token};
ghost use Rattle.line_tokens.specs.View.{sign_view, token_view, unit_view};
ghost use Rattle.line_tokens.specs.Reading.{front_view, content_view};

use crate::token::{Content, Sign, TimeUnit, Token};
use smallvec::SmallVec;
use std::alloc::{AllocError, Global};

/// Whether words are made of this byte: a letter, a digit or `_`.
fn is_word_byte(byte: u8) -> bool
    ensures { result ≡ is_word_byte byte }
{
    byte.is_ascii_alphanumeric() || byte == b'_'
}

/// How many letters, digits and `_` stand at the front.
fn run_length(rest: &[u8]) -> usize
    ensures length { result ≡ run_length rest.now }
    ensures within { result ≤ length rest.now }
{
    rest.iter().take_while(|byte| is_word_byte(**byte)).count()
}

/// How many digits stand at the front.
fn digits_length(rest: &[u8]) -> usize
    ensures length { result ≡ digits_length rest.now }
    ensures within { result ≤ length rest.now }
{
    rest.iter().take_while(|byte| byte.is_ascii_digit()).count()
}

/// Whether every byte is a digit.
fn are_digits(run: &[u8]) -> bool
    ensures { result ≡ list_all is_digit run.now }
{
    run.iter().all(|byte| byte.is_ascii_digit())
}

/// The sign that a byte is.
fn sign(byte: u8) -> Option<Sign>
    ensures { option_map sign_view result ≡ sign_of byte }
{
    match byte {
        b'(' => Some(Sign::Open),
        b')' => Some(Sign::Close),
        b'[' => Some(Sign::OpenBracket),
        b']' => Some(Sign::CloseBracket),
        b',' => Some(Sign::Comma),
        b':' => Some(Sign::Colon),
        b'=' => Some(Sign::Equals),
        b'&' => Some(Sign::Ampersand),
        _ => None,
    }
}

/// The unit of time that bytes name.
fn unit(name: &[u8]) -> Option<TimeUnit>
    ensures { option_map unit_view result ≡ unit_of name.now }
{
    match name {
        b"ns" => Some(TimeUnit::Nanoseconds),
        b"us" => Some(TimeUnit::Microseconds),
        b"ms" => Some(TimeUnit::Milliseconds),
        b"s" => Some(TimeUnit::Seconds),
        _ => None,
    }
}

/// The number of these digits, or, where a unit stands behind them, the time; none where anything
/// else does.
fn number<'a>(digits: &'a [u8], suffix: &[u8]) -> Option<Token<'a>>
    ensures { option_map token_view result ≡ number_token digits.now suffix.now }
{
    if suffix.is_empty() {
        return Some(Token::Number {
            negative: false,
            digits,
        });
    }
    let unit = unit(suffix)?;
    Some(Token::Time { digits, unit })
}

/// The token of a longest run of letters, digits and `_`; none for an empty one, and for one that
/// begins with a digit and is neither a number nor a time.
fn run_token<'a>(run: &'a [u8]) -> Option<Token<'a>>
    ensures { option_map token_view result ≡ run_token run.now }
{
    let first = run.first()?;
    if !first.is_ascii_digit() {
        return Some(Token::Word(run));
    }
    let (digits, suffix) = run.split_at(digits_length(run));
    number(digits, suffix)
}

/// The number of a `-` and the longest run directly behind it; none for an empty run, and for one
/// with anything but digits.
fn minus_token<'a>(run: &'a [u8]) -> Option<Token<'a>>
    ensures { option_map token_view result ≡ minus_token run.now }
{
    let _first = run.first()?;
    if are_digits(run) {
        Some(Token::Number {
            negative: true,
            digits: run,
        })
    } else {
        None
    }
}

/// Whether no letter, digit or `_` stands at the front.
fn begins_no_run(rest: &[u8]) -> bool
    ensures { result ≡ begins_no_run rest.now }
{
    match rest {
        [] => true,
        [first, ..] => !is_word_byte(*first),
    }
}

/// What is left behind an `advance-to` at the front; none where it does not stand there, or a letter,
/// a digit or `_` follows it.
fn behind_advance_to<'a>(line: &'a [u8]) -> Option<&'a [u8]>
    ensures begins { is_some result ≡ begins_advance_to line.now }
    ensures rest { IfSome result (λ rest. rest.now ≡ drop 10 line.now) }
{
    let rest = line.strip_prefix(b"advance-to".as_slice())?;
    if begins_no_run(rest) {
        Some(rest)
    } else {
        None
    }
}

/// The word, the number without a sign, the time or the `advance-to` that a line begins with, and
/// what is left behind it; none where no such token stands there.
fn word_or_number<'a>(line: &'a [u8]) -> Option<(Token<'a>, &'a [u8])>
    ensures { option_map front_view result ≡ word_or_number line.now }
{
    if let Some(rest) = behind_advance_to(line) {
        return Some((Token::AdvanceTo, rest));
    }
    let (run, rest) = line.split_at(run_length(line));
    let token = run_token(run)?;
    Some((token, rest))
}

/// The number that a `-` begins, with what is behind the `-`, and what is left behind the number; none
/// where no token stands there.
fn negative_number<'a>(after: &'a [u8]) -> Option<(Token<'a>, &'a [u8])>
    ensures { option_map front_view result ≡ negative_number after.now }
{
    let (run, rest) = after.split_at(run_length(after));
    let token = minus_token(run)?;
    Some((token, rest))
}

/// Whether a `\` may stand before the byte inside a text: `"` or `\`.
fn is_escapable(byte: u8) -> bool
    ensures { result ≡ is_escapable byte }
{
    byte == b'"' || byte == b'\\'
}

/// The byte of a text's content that stands in front of `behind` as `first`, or as an escape that
/// `first` begins, and what is left behind it; none where no content stands there.
fn content_byte<'a>(first: u8, behind: &'a [u8]) -> Option<(u8, &'a [u8])>
    requires { first ≢ 34 }
    ensures some { IfSome result (λ found. (content : List ℕ) → text_from content false (first ∷ behind.now) ≡ text_from (content ++ found.0 ∷ []) false found.1.now) }
    ensures none { IfNone result ((content : List ℕ) → text_from content false (first ∷ behind.now) ≡ None) }
    ensures printable { IfSome result (λ found. IsPrintable found.0) }
    ensures shorter { IfSome result (λ found. length found.1.now ≤ length behind.now) }
{
    if first == b'\\' {
        let [byte, rest @ ..] = behind else {
            return None;
        };
        if is_escapable(*byte) {
            Some((*byte, rest))
        } else {
            None
        }
    } else if matches!(first, b' '..=b'~') {
        Some((first, behind))
    } else {
        None
    }
}

/// The content of a text, with what is behind its opening quote, and what is left behind its closing
/// quote; none where it has no closing quote, a `\` stands before another byte than `"` and `\`, or a byte
/// is not printable.
fn text<'a>(alloc: Global, after: &'a [u8]) -> Result<Option<(Content, &'a [u8])>, AllocError>
    ensures { IfOk result (λ found. option_map content_view found ≡ text_from [] false after.now) }
{
    let mut bytes = Vec::new(alloc);
    let mut left = after;
    while let [first, behind @ ..] = left {
        if *first == b'"' {
            return Ok(Some((Content::new(bytes), behind)));
        }
        let Some((byte, rest)) = content_byte(*first, behind) else {
            return Ok(None);
        };
        bytes.push(byte)?;
        left = rest;
    }
    Ok(None)
}

/// The text with what is behind its opening quote, and what is left behind it; none where no text
/// stands there.
fn text_token<'a>(
    alloc: Global,
    after: &'a [u8],
) -> Result<Option<(Token<'a>, &'a [u8])>, AllocError>
    ensures { IfOk result (λ found. option_map front_view found ≡ text_token after.now) }
{
    match text(alloc, after)? {
        Some((content, rest)) => Ok(Some((Token::Text(content), rest))),
        None => Ok(None),
    }
}

/// The token that a line begins with, and what is left behind it; none where no token stands there.
fn first_token<'a>(
    alloc: Global,
    line: &'a [u8],
) -> Result<Option<(Token<'a>, &'a [u8])>, AllocError>
    ensures { IfOk result (λ found. option_map front_view found ≡ first_token line.now) }
{
    let [first, after @ ..] = line else {
        return Ok(None);
    };
    if *first == b'"' {
        return text_token(alloc, after);
    }
    if *first == b'-' {
        return Ok(negative_number(after));
    }
    match sign(*first) {
        Some(sign) => Ok(Some((Token::Punctuation(sign), after))),
        None => Ok(word_or_number(line)),
    }
}

/// The tokens of a line; none where a byte begins no token, a text has no end, a `\` stands before
/// another byte, or a number runs into letters. Up to four of them take no memory, but that of texts.
pub fn tokens<'a>(
    alloc: Global,
    line: &'a [u8],
) -> Result<Option<SmallVec<Token<'a>, 4>>, AllocError>
    ensures found { IfOk result (λ r. IfSome r (λ ts. AreSpelled (map token_view ts.items) line.now)) }
    ensures none { IfOk result (λ r. IfNone r ((ts : List tokens.Token) → AreSpelled ts line.now → ⊥)) }
{
    let mut found = SmallVec::new(alloc);
    let mut rest = line;
    while let [first, after @ ..] = rest {
        if *first == b' ' {
            rest = after;
            continue;
        }
        let Some((token, behind)) = first_token(alloc, rest)? else {
            return Ok(None);
        };
        found.push(token)?;
        rest = behind;
    }
    Ok(Some(found))
}
