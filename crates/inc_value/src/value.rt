//! Values.
ghost use Rattle.std.specs.Prelude.{◌≡◌, ◌≢◌, ◌++◌, ◌↔◌, false, IfOk, OnOk, OnErr, IsOk, IsTrue, codes};
ghost use Rattle.inc_value.specs.Value.{type_of, printed_value, escaped, escaped_byte};

use crate::{Base, NodeId, Text, Ty};
use std::alloc::{AllocError, Global};

/// What a node holds.
pub enum Value {
    Int(i64),
    Bool(bool),
    Text(Text),
    Node(NodeId, Base),
}

// (written out: whoever drops one proves one call, and no drop of its parts)
impl Drop for Value {
    fn drop(self) {
        match self {
            Value::Int(_) | Value::Bool(_) | Value::Node(_, _) => {}
            Value::Text(text) => drop(text),
        }
    }
}

/// What stands in a place of a short list that is not used.
impl Default for Value {
    ghost use Rattle.inc_value.specs.declared.value.Value.TheVariants.{Bool};

    ghost is_default = { λ v. v ≡ Bool false };

    fn default() -> Value {
        Value::Bool(false)
    }
}

impl Value {
    /// The type of the value.
    pub fn ty(&self) -> Ty
        ensures { result ≡ type_of self.now }
    {
        match self {
            Value::Int(_) => Ty::Int,
            Value::Bool(_) => Ty::Bool,
            Value::Text(_) => Ty::Text,
            Value::Node(_, base) => Ty::Node(*base),
        }
    }

    /// Whether both values are of one type and equal.
    #[inline]
    pub fn same(&self, other: &Value) -> bool
        ensures { IsTrue result ↔ (self.now ≡ other.now) }
    {
        match (self, other) {
            (Value::Int(a), Value::Int(b)) => a == b,
            (Value::Bool(a), Value::Bool(b)) => a == b,
            (Value::Text(a), Value::Text(b)) => a.same(b),
            (Value::Node(a, a_base), Value::Node(b, b_base)) => a == b && a_base == b_base,
            _ => false,
        }
    }

    /// An equal value. Only a text needs memory.
    #[inline]
    pub fn copy(&self, alloc: Global) -> Result<Value, AllocError>
        ensures ok { IfOk result (λ v. v ≡ self.now) }
        ensures scalar { type_of self.now ≢ Ty.Text → IsOk result }
    {
        Ok(match self {
            Value::Int(number) => Value::Int(*number),
            Value::Bool(truth) => Value::Bool(*truth),
            Value::Text(text) => Value::Text(text.copy(alloc)?),
            Value::Node(node, base) => Value::Node(*node, *base),
        })
    }

    /// Appends the value as it is printed, where a node reference has the name.
    pub fn print_into(
        &self,
        alloc: Global,
        name: &[u8],
        out: &mut Vec<u8>,
    ) -> Result<(), AllocError>
        ensures ok { OnOk result (out.new.items ≡ out.old.items ++ printed_value name.now self.now) }
        ensures err { OnErr result (out.new.items ≡ out.old.items) }
    {
        let printed = self.printed(alloc, name)?;
        out.extend_from_slice(&printed)
    }

    /// The value as it is printed.
    fn printed(&self, alloc: Global, name: &[u8]) -> Result<Vec<u8>, AllocError>
        ensures { IfOk result (λ v. v.items ≡ printed_value name.now self.now) }
    {
        match self {
            Value::Int(number) => Ok(format!(in alloc; "{number}")?.into_bytes()),
            Value::Bool(true) => Vec::from_slice(alloc, b"true"),
            Value::Bool(false) => Vec::from_slice(alloc, b"false"),
            Value::Text(text) => quoted(alloc, text.bytes()),
            Value::Node(..) => {
                let mut printed = Vec::from_slice(alloc, b"&")?;
                printed.extend_from_slice(name)?;
                Ok(printed)
            }
        }
    }
}

/// The bytes in double quotes, with a `\` before each `"` and `\`.
fn quoted(alloc: Global, bytes: &[u8]) -> Result<Vec<u8>, AllocError>
    ensures { IfOk result (λ v. v.items ≡ codes "\"" ++ escaped bytes.now ++ codes "\"") }
{
    let mut printed = Vec::from_slice(alloc, b"\"")?;
    for byte in bytes {
        push_escaped(&mut printed, *byte)?;
    }
    printed.push(b'"')?;
    Ok(printed)
}

/// Appends the byte as it stands between quotes.
fn push_escaped(out: &mut Vec<u8>, byte: u8) -> Result<(), AllocError>
    ensures { OnOk result (out.new.items ≡ out.old.items ++ escaped_byte byte) }
{
    if byte == b'"' || byte == b'\\' {
        out.push(b'\\')?;
    }
    out.push(byte)?;
    Ok(())
}
