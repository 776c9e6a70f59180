//! What the stabilize that was accepted last told of watched observers, one notice after the other.
ghost use Rattle.std.specs.Prelude.{◌≡◌, ◌++◌, ℕ, List, IfOk, OnErr, OnOk};
ghost use Rattle.session.specs.Notices.{IsBefore, IsNow, IsPrinted, ReadsNotice, ReadsParts, kind_of};

use super::Session;
use crate::script::Script;
use graph::{Notice, Told};
use inc_value::Outcome;
use node_arena::Library;
use std::alloc::{AllocError, Global};

/// What is told of an observer: what it shows at first, another value, or that what it shows turned to Invalid.
#[derive(Clone, Copy)]
pub enum NoticeKind {
    Init,
    Change,
    Invalid,
}

/// The kind of a notice, and how many bytes each of its parts has: the observer's name, what was told of it before, and what
/// it shows now.
#[derive(Clone, Copy)]
pub struct NoticeParts {
    pub kind: NoticeKind,
    pub name: usize,
    pub before: usize,
    pub now: usize,
}

impl<L: Library> Session<L> {
    /// Appends the parts of a notice: the observer's name, what was told of it before, and what it shows now, both as they are
    /// printed. `number` counts the notices of the stabilize that was accepted last from 0, in the order in which their observers
    /// were made. An observer that ended since has no name, and only a change has something before. `None` where there is no
    /// notice with this number.
    pub fn notice(
        &self,
        number: usize,
        out: &mut Vec<u8>,
    ) -> Result<Option<NoticeParts>, AllocError>
        ensures read { IfOk result (λ parts. ReadsNotice self.now.kept number out.old.items parts out.new.items) }
        ensures unwritten { OnErr result (out.new.items ≡ out.old.items) }
    {
        let notices = self.script.notices();
        if number >= notices.len() {
            return Ok(None);
        }
        match write_parts(self.alloc, &self.script, &notices[number], out) {
            Ok(parts) => Ok(Some(parts)),
            Err(AllocError) => Err(AllocError),
        }
    }
}

/// Appends the parts of a notice. Without memory nothing is written.
fn write_parts<L: Library>(
    alloc: Global,
    script: &Script<L>,
    notice: &Notice,
    out: &mut Vec<u8>,
) -> Result<NoticeParts, AllocError>
    ensures ok { IfOk result (λ parts. ReadsParts script.now.kept notice.now out.old.items parts out.new.items) }
    ensures err { OnErr result (out.new.items ≡ out.old.items) }
{
    let mut text = Vec::new(alloc);
    text.extend_from_slice(script.observer_name(notice.observer))?;
    let behind_name = text.len();
    write_before(alloc, script, &notice.told, &mut text)?;
    let behind_before = text.len();
    write_now(alloc, script, &notice.told, &mut text)?;
    out.extend_from_slice(&text)?;
    Ok(NoticeParts {
        kind: kind_of(&notice.told),
        name: behind_name,
        before: behind_before - behind_name,
        now: text.len() - behind_before,
    })
}

/// The kind of what is told.
fn kind_of(told: &Told) -> NoticeKind
    ensures { result ≡ kind_of told.now }
{
    match told {
        Told::Init(_) => NoticeKind::Init,
        Told::Change(_, _) => NoticeKind::Change,
        Told::Invalid => NoticeKind::Invalid,
    }
}

/// Appends what was told before, which only a change has.
fn write_before<L: Library>(
    alloc: Global,
    script: &Script<L>,
    told: &Told,
    text: &mut Vec<u8>,
) -> Result<(), AllocError>
    ensures { OnOk result ((bytes : List ℕ) × IsBefore script.now.kept told.now bytes × (text.new.items ≡ text.old.items ++ bytes)) }
{
    match told {
        Told::Change(before, _) => write_outcome(alloc, script, before, text),
        Told::Init(_) | Told::Invalid => Ok(()),
    }
}

/// Appends what the observer shows now.
fn write_now<L: Library>(
    alloc: Global,
    script: &Script<L>,
    told: &Told,
    text: &mut Vec<u8>,
) -> Result<(), AllocError>
    ensures { OnOk result ((bytes : List ℕ) × IsNow script.now.kept told.now bytes × (text.new.items ≡ text.old.items ++ bytes)) }
{
    match told {
        Told::Init(now) | Told::Change(_, now) => write_outcome(alloc, script, now, text),
        Told::Invalid => text.extend_from_slice(b"invalid"),
    }
}

/// Appends an outcome as it is printed.
fn write_outcome<L: Library>(
    alloc: Global,
    script: &Script<L>,
    outcome: &Outcome,
    text: &mut Vec<u8>,
) -> Result<(), AllocError>
    ensures { OnOk result ((bytes : List ℕ) × IsPrinted script.now.kept outcome.now bytes × (text.new.items ≡ text.old.items ++ bytes)) }
{
    outcome.print_into(alloc, script.referred_name(outcome), text)
}
