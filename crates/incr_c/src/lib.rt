//! The calls of `session_slots` for programs in other languages, under the names that these link.
#![tactic(auto)]

ghost use Rattle.std.specs.Prelude.{◌≡◌, ◌≤◌, ◌<◌, length};
ghost use Rattle.session_slots.specs.Answers.{code_of};
ghost use Rattle.session_slots.specs.Notices.{nothing_told};
ghost use Rattle.session_slots.specs.Slots.{At, Closes, NoticesIn, Opens, ReadsIn, TakesIn};
ghost use Rattle.session_slots.specs.declared.answer.Answer.TheVariants.{NoSlot};

use session_slots::{Slot, Told, close_at, line_at, notice_at, open_at, rest_at};
use std::alloc::Global;

/// Opens a session in the slot: 1. Where the slot has one already that one stays, and the answer is -5; without memory the
/// slot has none, and the answer is -2.
#[unsafe(no_mangle)]
pub extern "C" fn incr_open(alloc: Global, slot: &mut Slot) -> i32
    ensures { Opens slot.old result slot.new }
{
    slot.open(alloc)
}

/// Gives the slot's session its next line, without its newline, and copies out all that is to be read where there is room for it.
/// `count` is how much that is. The answer is 0 for a line that asks for nothing, 1 for an accepted one, 100 and a refusal's
/// number for a refused one, -1 without a session, -2 without memory and -3 where a session has taken as many lines as it may.
#[unsafe(no_mangle)]
pub extern "C" fn incr_line(
    alloc: Global,
    slot: &mut Slot,
    text: &[u8],
    out: &mut [u8],
    count: &mut usize,
) -> i32
    ensures { TakesIn text.now out.old out.new count.new slot.old result slot.new }
{
    slot.line(alloc, text, out, count)
}

/// Copies out all that is to be read where there is room for it, and says in `count` how much that is: 1, or -1 without a session.
#[unsafe(no_mangle)]
pub extern "C" fn incr_rest(
    alloc: Global,
    slot: &mut Slot,
    out: &mut [u8],
    count: &mut usize,
) -> i32
    ensures { ReadsIn out.old out.new count.new slot.old result slot.new }
{
    slot.rest(alloc, out, count)
}

/// Copies out a notice of the last accepted stabilize of the slot's session, by its number from 0 on, where there is room for it: the
/// observer's name, what was told of it before and what it shows now, one directly behind the other. `told` says how long they are, and
/// which stabilize it was. The answer is 1 for what is told first of an observer, 2 for a change, 3 where it turned to Invalid, 0 where
/// there is no notice with this number, -1 without a session and -2 without memory. Nothing changes in the session.
#[unsafe(no_mangle)]
pub extern "C" fn incr_notice(
    alloc: Global,
    slot: &mut Slot,
    notice: usize,
    out: &mut [u8],
    told: &mut Told,
) -> i32
    ensures { NoticesIn notice out.old out.new told.new slot.old result slot.new }
{
    slot.notice(alloc, notice, out, told)
}

/// Ends the session of the slot: 1, or -1 where it has none.
#[unsafe(no_mangle)]
pub extern "C" fn incr_close(alloc: Global, slot: &mut Slot) -> i32
    ensures { Closes slot.old result slot.new }
{
    slot.close(alloc)
}

/// `incr_open` in the slot with this number, or -4 where there is none.
#[unsafe(no_mangle)]
pub extern "C" fn incr_open_at(alloc: Global, slots: &mut [Slot], number: usize) -> i32
    ensures beyond { length slots.old ≤ number → (result ≡ code_of NoSlot) × (slots.new ≡ slots.old) }
    ensures within { number < length slots.old → At slots.old number slots.new (λ old new. Opens old result new) }
{
    open_at(alloc, slots, number)
}

/// `incr_line` at the slot with this number, or -4 where there is none.
#[unsafe(no_mangle)]
pub extern "C" fn incr_line_at(
    alloc: Global,
    slots: &mut [Slot],
    number: usize,
    text: &[u8],
    out: &mut [u8],
    count: &mut usize,
) -> i32
    ensures beyond { length slots.old ≤ number → (result ≡ code_of NoSlot) × (slots.new ≡ slots.old) × (count.new ≡ 0) × (out.new ≡ out.old) }
    ensures within { number < length slots.old → At slots.old number slots.new (λ old new. TakesIn text.now out.old out.new count.new old result new) }
{
    line_at(alloc, slots, number, text, out, count)
}

/// `incr_rest` at the slot with this number, or -4 where there is none.
#[unsafe(no_mangle)]
pub extern "C" fn incr_rest_at(
    alloc: Global,
    slots: &mut [Slot],
    number: usize,
    out: &mut [u8],
    count: &mut usize,
) -> i32
    ensures beyond { length slots.old ≤ number → (result ≡ code_of NoSlot) × (slots.new ≡ slots.old) × (count.new ≡ 0) × (out.new ≡ out.old) }
    ensures within { number < length slots.old → At slots.old number slots.new (λ old new. ReadsIn out.old out.new count.new old result new) }
{
    rest_at(alloc, slots, number, out, count)
}

/// `incr_notice` at the slot with this number, or -4 where there is none.
#[unsafe(no_mangle)]
pub extern "C" fn incr_notice_at(
    alloc: Global,
    slots: &mut [Slot],
    number: usize,
    notice: usize,
    out: &mut [u8],
    told: &mut Told,
) -> i32
    ensures beyond { length slots.old ≤ number → (result ≡ code_of NoSlot) × (slots.new ≡ slots.old) × (told.new ≡ nothing_told 0) × (out.new ≡ out.old) }
    ensures within { number < length slots.old → At slots.old number slots.new (λ old new. NoticesIn notice out.old out.new told.new old result new) }
{
    notice_at(alloc, slots, number, notice, out, told)
}

/// `incr_close` at the slot with this number, or -4 where there is none.
#[unsafe(no_mangle)]
pub extern "C" fn incr_close_at(alloc: Global, slots: &mut [Slot], number: usize) -> i32
    ensures beyond { length slots.old ≤ number → (result ≡ code_of NoSlot) × (slots.new ≡ slots.old) }
    ensures within { number < length slots.old → At slots.old number slots.new (λ old new. Closes old result new) }
{
    close_at(alloc, slots, number)
}
