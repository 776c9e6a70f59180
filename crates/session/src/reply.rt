//! The lines that a session writes.
ghost use Rattle.std.specs.Prelude.{◌≡◌, ◌++◌, OnOk, OnErr};
ghost use Rattle.inc_value.specs.Outcome.{printed_outcome};
ghost use Rattle.session.specs.Answered.{Extends};
ghost use Rattle.session.specs.Replies.{broken_line, change_line, done_line, first_line, invalid_line, line_of, refused_line, shown_line, stable_line, too_deep_line};

use inc_value::{Outcome, Value};
use itoa::Buffer;
use std::alloc::{AllocError, Global};

/// Appends the reply to an accepted command.
pub(crate) fn write_done(out: &mut Vec<u8>) -> Result<(), AllocError>
    ensures ok { OnOk result (out.new.items ≡ out.old.items ++ done_line) }
    ensures err { OnErr result (out.new.items ≡ out.old.items) }
{
    out.extend_from_slice(b"ok\n")
}

/// Appends the reply to a refused line.
pub(crate) fn write_refused(alloc: Global, number: u8, out: &mut Vec<u8>) -> Result<(), AllocError>
    ensures ok { OnOk result (out.new.items ≡ out.old.items ++ refused_line number) }
    ensures err { OnErr result (out.new.items ≡ out.old.items) }
{
    let line = format!(in alloc; "refused {number}\n")?;
    out.extend_from_slice(line.as_bytes())
}

/// Appends the reply to a line that is refused since the session is broken, with the number of what
/// broke it.
pub(crate) fn write_broken(alloc: Global, number: u8, out: &mut Vec<u8>) -> Result<(), AllocError>
    ensures ok { OnOk result (out.new.items ≡ out.old.items ++ broken_line number) }
    ensures err { OnErr result (out.new.items ≡ out.old.items) }
{
    let line = format!(in alloc; "refused 22 {number}\n")?;
    out.extend_from_slice(line.as_bytes())
}

/// Appends the reply to a stabilize that is refused for the depth of a declaration.
pub(crate) fn write_too_deep(
    alloc: Global,
    name: &[u8],
    out: &mut Vec<u8>,
) -> Result<(), AllocError>
    ensures ok { OnOk result (out.new.items ≡ out.old.items ++ too_deep_line name.now) }
    ensures err { OnErr result (out.new.items ≡ out.old.items) }
{
    let mut line = Vec::new(alloc);
    line.extend_from_slice(b"refused 21 height ")?;
    line.extend_from_slice(name)?;
    line.push(b'\n')?;
    out.extend_from_slice(&line)
}

/// Appends the reply to an accepted stabilize, the `round`-th of them.
pub(crate) fn write_stable(round: u64, out: &mut Vec<u8>) -> Result<(), AllocError>
    ensures ok { OnOk result (out.new.items ≡ out.old.items ++ stable_line round) }
    ensures err { OnErr result (out.new.items ≡ out.old.items) }
{
    let written = out.len();
    match add_stable(round, out) {
        Ok(()) => Ok(()),
        Err(fault) => {
            out.truncate(written);
            Err(fault)
        }
    }
}

/// The same. Without memory some of it may be written.
fn add_stable(round: u64, out: &mut Vec<u8>) -> Result<(), AllocError>
    ensures ok { OnOk result (out.new.items ≡ out.old.items ++ stable_line round) }
    ensures err { OnErr result (Extends out.old.items out.new.items) }
{
    let mut digits = Buffer::new();
    out.extend_from_slice(b"stable ")?;
    out.extend_from_slice(digits.format(round).as_bytes())?;
    out.extend_from_slice(b"\n")
}

/// Appends an observer's name, these bytes and an outcome, where a reference is printed as the name `referred`.
fn write_outcome(
    alloc: Global,
    observer: &[u8],
    between: &[u8],
    outcome: &Outcome,
    referred: &[u8],
    out: &mut Vec<u8>,
) -> Result<(), AllocError>
    ensures ok { OnOk result (out.new.items
        ≡ out.old.items ++ line_of (observer.now ++ (between.now ++ printed_outcome referred.now outcome.now))) }
    ensures err { OnErr result (out.new.items ≡ out.old.items) }
{
    let written = out.len();
    match add_outcome(alloc, observer, between, outcome, referred, out) {
        Ok(()) => Ok(()),
        Err(fault) => {
            out.truncate(written);
            Err(fault)
        }
    }
}

/// The same. Without memory some of it may be written.
fn add_outcome(
    alloc: Global,
    observer: &[u8],
    between: &[u8],
    outcome: &Outcome,
    referred: &[u8],
    out: &mut Vec<u8>,
) -> Result<(), AllocError>
    ensures ok { OnOk result (out.new.items
        ≡ out.old.items ++ line_of (observer.now ++ (between.now ++ printed_outcome referred.now outcome.now))) }
    ensures err { OnErr result (Extends out.old.items out.new.items) }
{
    out.extend_from_slice(observer)?;
    out.extend_from_slice(between)?;
    add_printed(alloc, outcome, referred, out)?;
    out.extend_from_slice(b"\n")
}

/// Appends an outcome as it is printed, where a reference is printed as the name `referred`. An integer takes no
/// memory but that of `out`.
fn add_printed(
    alloc: Global,
    outcome: &Outcome,
    referred: &[u8],
    out: &mut Vec<u8>,
) -> Result<(), AllocError>
    ensures ok { OnOk result (out.new.items ≡ out.old.items ++ printed_outcome referred.now outcome.now) }
    ensures err { OnErr result (out.new.items ≡ out.old.items) }
{
    match outcome {
        Outcome::Val(Value::Int(number)) => {
            let mut digits = Buffer::new();
            out.extend_from_slice(digits.format(*number).as_bytes())
        }
        Outcome::Val(Value::Bool(_) | Value::Text(_) | Value::Node(..)) | Outcome::Invalid => {
            outcome.print_into(alloc, referred, out)
        }
    }
}

/// Appends what an observer shows, where a reference is printed as the name `referred`.
pub(crate) fn write_shown(
    alloc: Global,
    observer: &[u8],
    outcome: &Outcome,
    referred: &[u8],
    out: &mut Vec<u8>,
) -> Result<(), AllocError>
    ensures ok { OnOk result (out.new.items ≡ out.old.items ++ shown_line observer.now referred.now outcome.now) }
    ensures err { OnErr result (out.new.items ≡ out.old.items) }
{
    write_outcome(alloc, observer, b" = ", outcome, referred, out)
}

/// Appends the first notice of a watched observer, where a reference is printed as the name `referred`.
pub(crate) fn write_init(
    alloc: Global,
    observer: &[u8],
    outcome: &Outcome,
    referred: &[u8],
    out: &mut Vec<u8>,
) -> Result<(), AllocError>
    ensures ok { OnOk result (out.new.items ≡ out.old.items ++ first_line observer.now referred.now outcome.now) }
    ensures err { OnErr result (out.new.items ≡ out.old.items) }
{
    write_outcome(alloc, observer, b" init ", outcome, referred, out)
}

/// Appends a notice of a change, where references are printed as these names.
pub(crate) fn write_change(
    alloc: Global,
    observer: &[u8],
    before: &Outcome,
    referred_before: &[u8],
    now: &Outcome,
    referred: &[u8],
    out: &mut Vec<u8>,
) -> Result<(), AllocError>
    ensures ok { OnOk result (out.new.items
        ≡ out.old.items ++ change_line observer.now referred_before.now before.now referred.now now.now) }
    ensures err { OnErr result (out.new.items ≡ out.old.items) }
{
    let mut line = Vec::new(alloc);
    line.extend_from_slice(observer)?;
    line.extend_from_slice(b" change ")?;
    before.print_into(alloc, referred_before, &mut line)?;
    line.push(b' ')?;
    now.print_into(alloc, referred, &mut line)?;
    line.push(b'\n')?;
    out.extend_from_slice(&line)
}

/// Appends a notice that an outcome turned to Invalid.
pub(crate) fn write_invalid(
    alloc: Global,
    observer: &[u8],
    out: &mut Vec<u8>,
) -> Result<(), AllocError>
    ensures ok { OnOk result (out.new.items ≡ out.old.items ++ invalid_line observer.now) }
    ensures err { OnErr result (out.new.items ≡ out.old.items) }
{
    let mut line = Vec::new(alloc);
    line.extend_from_slice(observer)?;
    line.extend_from_slice(b" invalid\n")?;
    out.extend_from_slice(&line)
}
