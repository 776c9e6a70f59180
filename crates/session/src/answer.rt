//! What a line is answered with, and what it does.
ghost use Rattle.std.specs.Prelude.{IsTrue, true, ◌≡◌, ◌<◌, ◌≤◌, ◌+◌, ◌-◌, ◌++◌, ◌^◌, ℕ, List, None, Some, length, IfOk, OnOk, OnErr};
ghost use Rattle.formula_lang.specs.CommandView.{body_view, constant_view};
ghost use Rattle.formula_lang.specs.Fits.{AssignmentFits, DeclarationFits, GrabFits, IsExpertOf, LinkFits, ObserverFits, TimeFits, UnlinkFits};
ghost use Rattle.inc_value.specs.declared.ty.Ty.{Ty as ATy};
ghost use Rattle.line_parser.specs.TreeView.{line_view};
ghost use Rattle.script_model.specs.Check.{Advance, Assign, Declare, Link, Observe, Show, Stabilize, Stale, Take, Unlink, Unobserve, Watch, is_among};
ghost use Rattle.script_model.specs.Formula.{binds_of_body, meanings_of};
ghost use Rattle.script_model.specs.Grammar.{IsLine};
ghost use Rattle.session.specs.Answered.{Extends};
ghost use Rattle.session.specs.Carried.{HasRoom, Performs, Refuses, TakesBytes, Treats};
ghost use Rattle.session.specs.Replies.{AreNoticeLines, IsAcceptedWritten, IsNoticeLine, broken_line, cycle_line, refused_line, too_deep_line, name_in};
ghost use Rattle.session.specs.declared.answer.Did.TheVariants.{Refused};
ghost use Rattle.script_graph.specs.Stabilizing.{CyclePasses, IsCycleMet, closed};

use crate::places::room_behind_body;
use crate::refusal::Refusal;
use crate::reply::{
    write_broken, write_change, write_done, write_init, write_invalid, write_refused, write_shown,
    write_stable, write_too_deep,
};
use crate::request::{Request, read_request};
use crate::script::{Script, Stabilized};
use formula_lang::{CheckFault, Command, Constant, Declaration, Names, check};
use graph::{Notice, Told};
use inc_value::Ty;
use line_parser::Line;
use node_arena::Library;
use std::alloc::{AllocError, Global};

/// How a line was taken: it prints nothing, it was accepted, or it was refused with this number.
#[derive(Clone, Copy, PartialEq, Eq)]
pub enum Did {
    Blank,
    Accepted,
    Refused(u8),
}

/// Answers what a line asks for. Without memory nothing is written.
pub(crate) fn answer_whole<L: Library>(
    alloc: Global,
    script: &mut Script<L>,
    text: &[u8],
    out: &mut Vec<u8>,
) -> Result<Did, AllocError>
    requires { HasRoom script.old.kept }
    ensures answered { TakesBytes (λ l. meanings_of (L.named l) (L.value l)) L.known L.calls text.now script.old script.new
        out.old.items out.new.items result }
    ensures unwritten { OnErr result (out.new.items ≡ out.old.items) }
{
    let written = out.len();
    match answer(alloc, script, text, out) {
        Ok(did) => Ok(did),
        Err(fault) => {
            out.truncate(written);
            Err(fault)
        }
    }
}

/// Answers what a line asks for. Without memory some of it may be written.
fn answer<L: Library>(
    alloc: Global,
    script: &mut Script<L>,
    text: &[u8],
    out: &mut Vec<u8>,
) -> Result<Did, AllocError>
    requires { HasRoom script.old.kept }
    ensures { TakesBytes (λ l. meanings_of (L.named l) (L.value l)) L.known L.calls text.now script.old script.new
        out.old.items out.new.items result }
{
    match read_request(alloc, text) {
        Ok(Request::TooLong) => refuse(alloc, Refusal::LineTooLong.number(), out),
        Ok(Request::Blank) => Ok(Did::Blank),
        Ok(Request::Malformed) => refuse(alloc, Refusal::NoCommand.number(), out),
        Ok(Request::TooDeep) => refuse(alloc, Refusal::LineTooDeep.number(), out),
        Ok(Request::Asks(line)) => {
            let answered = carry_out(alloc, script, &line, out);
            drop(line);
            answered
        }
        Err(AllocError) => Err(AllocError),
    }
}

/// Carries out a line, or refuses it.
fn carry_out<L: Library>(
    alloc: Global,
    script: &mut Script<L>,
    line: &Line,
    out: &mut Vec<u8>,
) -> Result<Did, AllocError>
    requires room { HasRoom script.old.kept }
    requires asked { (bytes : List ℕ) × IsLine bytes (line_view line.now) }
    ensures { Treats (λ l. meanings_of (L.named l) (L.value l)) L.known L.calls (line_view line.now) script.old script.new
        out.old.items out.new.items result }
{
    if let Some(number) = script.broken() {
        return refuse_broken(alloc, number, out);
    }
    let command = match check(alloc, line, script.names(), script.library()) {
        Ok(command) => command,
        Err(CheckFault::Refusal(number)) => return refuse(alloc, number, out),
        Err(CheckFault::Memory) => return Err(AllocError),
    };
    let done = match &command {
        Command::Declare { name, ty, body } => {
            declare(alloc, script, name.bytes(), *ty, body, out)
        }
        Command::Grab { name, ty, bind } => grab(alloc, script, name.bytes(), *ty, *bind, out),
        Command::Assign { target, value } => set(script, *target, value, out),
        Command::Observe { observer, target } => observe(script, observer.bytes(), *target, out),
        Command::Unobserve { observer } => unobserve(script, observer.bytes(), out),
        Command::Watch { observer } => watch(script, observer.bytes(), out),
        Command::Link { expert, target } => link(alloc, script, *expert, *target, out),
        Command::Unlink { expert, target } => unlink(alloc, script, *expert, *target, out),
        Command::Stale { expert } => make_stale(script, *expert, out),
        Command::Advance { time } => advance(script, *time, out),
        Command::Stabilize => stabilize(alloc, script, out),
        Command::Show { observer } => show(alloc, script, observer.bytes(), out),
    };
    drop(command);
    done
}

/// Declares a name, where there is room for its places.
fn declare<L: Library>(
    alloc: Global,
    script: &mut Script<L>,
    name: &[u8],
    ty: Ty,
    body: &Declaration,
    out: &mut Vec<u8>,
) -> Result<Did, AllocError>
    requires fits { DeclarationFits (L.known script.old.library) script.old.kept.names name.now ty (body_view body.now) }
    requires unbroken { script.old.kept.broken ≡ None }
    requires room { HasRoom script.old.kept }
    requires binds { binds_of_body (body_view body.now) ≤ 64 }
    ensures { Performs (λ l. meanings_of (L.named l) (L.value l)) L.known L.calls (Declare name.now ty (body_view body.now))
        script.old script.new out.old.items out.new.items result }
{
    let Some(room) = room_behind_body(body, script.room()) else {
        return refuse(alloc, Refusal::TooManyPlaces.number(), out);
    };
    match write_done(out) {
        Ok(()) => match script.declare(name, ty, body, room) {
            Ok(()) => Ok(Did::Accepted),
            Err(fault) => Err(fault),
        },
        Err(fault) => Err(fault),
    }
}

/// Declares a name for the present right side of a bind, once that is built for a value.
fn grab<L: Library>(
    alloc: Global,
    script: &mut Script<L>,
    name: &[u8],
    ty: Ty,
    bind: usize,
    out: &mut Vec<u8>,
) -> Result<Did, AllocError>
    requires fits { GrabFits script.old.kept.names name.now ty bind }
    requires unbroken { script.old.kept.broken ≡ None }
    ensures { Performs (λ l. meanings_of (L.named l) (L.value l)) L.known L.calls (Take name.now ty bind)
        script.old script.new out.old.items out.new.items result }
{
    let Some(root) = script.right_side(bind) else {
        return refuse(alloc, Refusal::NotBuilt.number(), out);
    };
    match write_done(out) {
        Ok(()) => match script.grab(name, ty, root) {
            Ok(()) => Ok(Did::Accepted),
            Err(fault) => Err(fault),
        },
        Err(fault) => Err(fault),
    }
}

/// Gives a variable a value.
fn set<L: Library>(
    script: &mut Script<L>,
    target: usize,
    value: &Constant,
    out: &mut Vec<u8>,
) -> Result<Did, AllocError>
    requires unbroken { script.old.kept.broken ≡ None }
    requires fits { AssignmentFits script.old.kept.names target (constant_view value.now) }
    ensures { Performs (λ l. meanings_of (L.named l) (L.value l)) L.known L.calls (Assign target (constant_view value.now))
        script.old script.new out.old.items out.new.items result }
{
    match write_done(out) {
        Ok(()) => match script.set(target, value) {
            Ok(()) => Ok(Did::Accepted),
            Err(fault) => Err(fault),
        },
        Err(fault) => Err(fault),
    }
}

/// Moves the clock on.
fn advance<L: Library>(
    script: &mut Script<L>,
    time: u64,
    out: &mut Vec<u8>,
) -> Result<Did, AllocError>
    requires unbroken { script.old.kept.broken ≡ None }
    requires fits { TimeFits script.old.kept.names time }
    ensures { Performs (λ l. meanings_of (L.named l) (L.value l)) L.known L.calls (Advance time)
        script.old script.new out.old.items out.new.items result }
{
    match write_done(out) {
        Ok(()) => match script.advance(time) {
            Ok(()) => Ok(Did::Accepted),
            Err(fault) => Err(fault),
        },
        Err(fault) => Err(fault),
    }
}

/// Adds an observer.
fn observe<L: Library>(
    script: &mut Script<L>,
    name: &[u8],
    target: usize,
    out: &mut Vec<u8>,
) -> Result<Did, AllocError>
    requires unbroken { script.old.kept.broken ≡ None }
    requires observers { length script.old.kept.graph.observers < 2 ^ 32 - 1 }
    requires fits { ObserverFits script.old.kept.names name.now target }
    ensures { Performs (λ l. meanings_of (L.named l) (L.value l)) L.known L.calls (Observe name.now target) script.old script.new
        out.old.items out.new.items result }
{
    match write_done(out) {
        Ok(()) => match script.observe(name, target) {
            Ok(()) => Ok(Did::Accepted),
            Err(fault) => Err(fault),
        },
        Err(fault) => Err(fault),
    }
}

/// Ends an observer.
fn unobserve<L: Library>(
    script: &mut Script<L>,
    name: &[u8],
    out: &mut Vec<u8>,
) -> Result<Did, AllocError>
    requires unbroken { script.old.kept.broken ≡ None }
    requires in_use { IsTrue (is_among script.old.kept.names.observers name.now) }
    ensures { Performs (λ l. meanings_of (L.named l) (L.value l)) L.known L.calls (Unobserve name.now) script.old script.new
        out.old.items out.new.items result }
{
    match write_done(out) {
        Ok(()) => {
            script.unobserve(name);
            Ok(Did::Accepted)
        }
        Err(fault) => Err(fault),
    }
}

/// Watches an observer.
fn watch<L: Library>(
    script: &mut Script<L>,
    name: &[u8],
    out: &mut Vec<u8>,
) -> Result<Did, AllocError>
    requires unbroken { script.old.kept.broken ≡ None }
    requires in_use { IsTrue (is_among script.old.kept.names.observers name.now) }
    ensures { Performs (λ l. meanings_of (L.named l) (L.value l)) L.known L.calls (Watch name.now) script.old script.new
        out.old.items out.new.items result }
{
    match write_done(out) {
        Ok(()) => {
            script.watch(name);
            Ok(Did::Accepted)
        }
        Err(fault) => Err(fault),
    }
}

/// Puts a declaration behind an expert's list, which isn't full.
fn link<L: Library>(
    alloc: Global,
    script: &mut Script<L>,
    expert: usize,
    target: usize,
    out: &mut Vec<u8>,
) -> Result<Did, AllocError>
    requires unbroken { script.old.kept.broken ≡ None }
    requires fits { LinkFits script.old.kept.names expert target }
    ensures { Performs (λ l. meanings_of (L.named l) (L.value l)) L.known L.calls (Link expert target) script.old script.new
        out.old.items out.new.items result }
{
    let written = out.len();
    match write_done(out) {
        Ok(()) => match script.link(expert, target) {
            Ok(true) => Ok(Did::Accepted),
            Ok(false) => {
                out.truncate(written);
                refuse(alloc, Refusal::TooManyLinks.number(), out)
            }
            Err(fault) => Err(fault),
        },
        Err(fault) => Err(fault),
    }
}

/// Takes a declaration off an expert's list, where it stands there.
fn unlink<L: Library>(
    alloc: Global,
    script: &mut Script<L>,
    expert: usize,
    target: usize,
    out: &mut Vec<u8>,
) -> Result<Did, AllocError>
    requires unbroken { script.old.kept.broken ≡ None }
    requires fits { UnlinkFits script.old.kept.names expert target }
    ensures { Performs (λ l. meanings_of (L.named l) (L.value l)) L.known L.calls (Unlink expert target) script.old script.new
        out.old.items out.new.items result }
{
    let written = out.len();
    match write_done(out) {
        Ok(()) => {
            if script.unlink(expert, target) {
                Ok(Did::Accepted)
            } else {
                out.truncate(written);
                refuse(alloc, Refusal::NotLinked.number(), out)
            }
        }
        Err(fault) => Err(fault),
    }
}

/// Has an expert's function called anew.
fn make_stale<L: Library>(
    script: &mut Script<L>,
    expert: usize,
    out: &mut Vec<u8>,
) -> Result<Did, AllocError>
    requires unbroken { script.old.kept.broken ≡ None }
    requires fits { (element : ATy) × IsExpertOf script.old.kept.names expert element }
    ensures { Performs (λ l. meanings_of (L.named l) (L.value l)) L.known L.calls (Stale expert) script.old script.new
        out.old.items out.new.items result }
{
    match write_done(out) {
        Ok(()) => {
            script.make_stale(expert);
            Ok(Did::Accepted)
        }
        Err(fault) => Err(fault),
    }
}

/// Appends notices. Without memory some of them may be written.
fn write_notices<L: Library>(
    alloc: Global,
    script: &Script<L>,
    notices: &[Notice],
    out: &mut Vec<u8>,
) -> Result<(), AllocError>
    ensures ok { OnOk result ((bytes : List ℕ) × AreNoticeLines script.now.kept notices.now bytes × (out.new.items ≡ out.old.items ++ bytes)) }
    ensures err { OnErr result (Extends out.old.items out.new.items) }
{
    for notice in notices {
        write_notice(alloc, script, notice, out)?;
    }
    Ok(())
}

/// Appends a notice. Without memory nothing is written.
fn write_notice<L: Library>(
    alloc: Global,
    script: &Script<L>,
    notice: &Notice,
    out: &mut Vec<u8>,
) -> Result<(), AllocError>
    ensures ok { OnOk result ((line : List ℕ) × IsNoticeLine script.now.kept notice.now line × (out.new.items ≡ out.old.items ++ line)) }
    ensures err { OnErr result (out.new.items ≡ out.old.items) }
{
    let name = script.observer_name(notice.observer);
    match &notice.told {
        Told::Init(now) => write_init(alloc, name, now, script.referred_name(now), out),
        Told::Change(before, now) => write_change(
            alloc,
            name,
            before,
            script.referred_name(before),
            now,
            script.referred_name(now),
            out,
        ),
        Told::Invalid => write_invalid(alloc, name, out),
    }
}

/// Writes what an observer shows, once it shows something.
fn show<L: Library>(
    alloc: Global,
    script: &Script<L>,
    name: &[u8],
    out: &mut Vec<u8>,
) -> Result<Did, AllocError>
    requires unbroken { script.now.kept.broken ≡ None }
    requires in_use { IsTrue (is_among script.now.kept.names.observers name.now) }
    ensures { Performs (λ l. meanings_of (L.named l) (L.value l)) L.known L.calls (Show name.now) script.now script.now
        out.old.items out.new.items result }
{
    match script.shown(name) {
        Some(outcome) => {
            match write_shown(alloc, name, outcome, script.referred_name(outcome), out) {
                Ok(()) => Ok(Did::Accepted),
                Err(fault) => Err(fault),
            }
        }
        None => refuse(alloc, Refusal::NotStabilized.number(), out),
    }
}

/// Accepts a stabilize. Without memory the session is broken, or the stabilize was accepted, and of its lines some are
/// missing.
fn stabilize<L: Library>(
    alloc: Global,
    script: &mut Script<L>,
    out: &mut Vec<u8>,
) -> Result<Did, AllocError>
    requires room { HasRoom script.old.kept }
    requires unbroken { script.old.kept.broken ≡ None }
    ensures { Performs (λ l. meanings_of (L.named l) (L.value l)) L.known L.calls Stabilize script.old script.new
        out.old.items out.new.items result }
{
    match script.stabilize() {
        Ok(Stabilized::Accepted) => {
            match write_accepted(alloc, script, out) {
                Ok(()) => Ok(Did::Accepted),
                Err(fault) => Err(fault),
            }
        }
        Ok(Stabilized::Circular) => refuse_circular(alloc, script, out),
        Ok(Stabilized::TooDeep { target }) => refuse_too_deep(alloc, script, target, out),
        Err(fault) => Err(fault),
    }
}

/// Appends the reply to an accepted stabilize, and what it told. Without memory some of it may be written.
fn write_accepted<L: Library>(
    alloc: Global,
    script: &Script<L>,
    out: &mut Vec<u8>,
) -> Result<(), AllocError>
    ensures ok { OnOk result (IsAcceptedWritten script.now.kept out.old.items out.new.items) }
    ensures err { OnErr result (Extends out.old.items out.new.items) }
{
    match write_stable(script.accepted(), out) {
        Ok(()) => write_notices(alloc, script, script.notices(), out),
        Err(fault) => Err(fault),
    }
}

/// Refuses a stabilize for a cycle of declarations. Without memory the session is broken for want of it.
fn refuse_circular<L: Library>(
    alloc: Global,
    script: &mut Script<L>,
    out: &mut Vec<u8>,
) -> Result<Did, AllocError>
    requires met { IsCycleMet script.old.kept.graph.refused }
    ensures how { IfOk result (λ how. how ≡ Refused 20) }
    ensures written { OnOk result ((targets : List ℕ)
        × CyclePasses script.old.kept.graph script.old.kept.names.declared script.old.kept.nodes targets
        × (out.new.items ≡ out.old.items ++ cycle_line (name_in script.old.kept.names) (closed targets))) }
    ensures unwritten { OnErr result (Extends out.old.items out.new.items) }
    ensures ok { OnOk result (script.new ≡ script.old) }
    ensures broken { OnErr result (script.new ≡ record script.old { kept = record script.old.kept { broken = Some 0 } }) }
{
    let written = script.write_cycle(out);
    match written {
        Ok(()) => Ok(Did::Refused(20)),
        Err(fault) => {
            script.break_with(0);
            Err(fault)
        }
    }
}

/// Refuses a stabilize for the depth of a declaration. Without memory the session is broken for want of it.
fn refuse_too_deep<L: Library>(
    alloc: Global,
    script: &mut Script<L>,
    target: usize,
    out: &mut Vec<u8>,
) -> Result<Did, AllocError>
    ensures how { IfOk result (λ how. how ≡ Refused 21) }
    ensures written { OnOk result (out.new.items ≡ out.old.items ++ too_deep_line (name_in script.old.kept.names target)) }
    ensures unwritten { OnErr result (Extends out.old.items out.new.items) }
    ensures ok { OnOk result (script.new ≡ script.old) }
    ensures broken { OnErr result (script.new ≡ record script.old { kept = record script.old.kept { broken = Some 0 } }) }
{
    let written = write_too_deep(alloc, script.name_at(target), out);
    match written {
        Ok(()) => Ok(Did::Refused(21)),
        Err(fault) => {
            script.break_with(0);
            Err(fault)
        }
    }
}

/// Refuses a line.
fn refuse(alloc: Global, number: u8, out: &mut Vec<u8>) -> Result<Did, AllocError>
    ensures { Refuses number (refused_line number) out.old.items out.new.items result }
{
    match write_refused(alloc, number, out) {
        Ok(()) => Ok(Did::Refused(number)),
        Err(fault) => Err(fault),
    }
}

/// Refuses a line of a broken session, with the number of what broke it.
fn refuse_broken(alloc: Global, number: u8, out: &mut Vec<u8>) -> Result<Did, AllocError>
    ensures { Refuses 22 (broken_line number) out.old.items out.new.items result }
{
    match write_broken(alloc, number, out) {
        Ok(()) => Ok(Did::Refused(Refusal::Broken { kept: number }.number())),
        Err(fault) => Err(fault),
    }
}
