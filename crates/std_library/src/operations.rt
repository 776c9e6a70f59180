//! What the functions compute, where std has no word for it.
ghost use Rattle.std.specs.Prelude.{◌≡◌, ◌<◌, IfOk, OnOk, pos};
ghost use Rattle.std.specs.Prelude as list;
ghost use Rattle.std.specs.Fmt.{signed_decimal};
ghost use Rattle.inc_value.specs.Text.{IsText};
ghost use Rattle.std_library.specs.Operations as says;

use inc_value::{Text, TextFault, Value};
use std::alloc::{AllocError, Global};

/// The most bytes that a text may have.
const MAX_LEN: usize = 4_096;

/// The quotient, cut toward 0 and wrapped. By 0 it is 0.
pub(crate) fn quotient(a: i64, b: i64) -> i64
    ensures { result ≡ says.quotient a b }
{
    if b == 0 { 0 } else { a.wrapping_div(b) }
}

/// What that quotient leaves, with the sign of the first. By 0 it is 0.
pub(crate) fn remainder(a: i64, b: i64) -> i64
    ensures { result ≡ says.remainder a b }
{
    if b == 0 { 0 } else { a.wrapping_rem(b) }
}

/// The sum of the integers among the values, wrapped.
pub(crate) fn sum(values: &[Value]) -> i64
    ensures { result ≡ says.sum_of values.now }
{
    let mut sum: i64 = 0;
    for value in values {
        sum = sum.wrapping_add(integer(value));
    }
    sum
}

/// The integer that the value is, and 0 for any other value.
fn integer(value: &Value) -> i64
    ensures { result ≡ says.int_of value.now }
{
    match value {
        Value::Int(number) => *number,
        Value::Bool(_) | Value::Text(_) | Value::Node(..) => 0,
    }
}

/// The first 4,096 bytes of one text after the other.
pub(crate) fn joined(alloc: Global, first: &Text, second: &Text) -> Result<Text, AllocError>
    ensures { IfOk result (λ t. t ≡ says.joined first.now second.now) }
{
    let mut bytes = Vec::from_slice(alloc, first.bytes())?;
    let second = second.bytes();
    let taken = (MAX_LEN - bytes.len()).min(second.len());
    bytes.extend_from_slice(&second[..taken])?;
    text(alloc, &bytes)
}

/// How many bytes the text has.
pub(crate) fn length(text: &Text) -> i64
    ensures { result ≡ pos (list.length text.now) }
{
    text.bytes().len() as i64
}

/// The number in decimal, with `-` before a negative one.
pub(crate) fn shown(alloc: Global, number: i64) -> Result<Text, AllocError>
    ensures { IfOk result (λ t. t ≡ signed_decimal number) }
{
    let digits = format!(in alloc; "{number}")?;
    text(alloc, digits.as_bytes())
}

/// The text of the bytes, which are those of a text.
fn text(alloc: Global, bytes: &[u8]) -> Result<Text, AllocError>
    requires { IsText bytes.now }
    ensures { IfOk result (λ t. t ≡ bytes.now) }
{
    match Text::new(alloc, bytes) {
        Ok(text) => Ok(text),
        Err(TextFault::Memory) => Err(AllocError),
        Err(TextFault::TooLong | TextFault::NotPrintable) => unreachable!(),
    }
}
