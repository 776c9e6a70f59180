//! The calls at one slot of many, by its number.
ghost use Rattle.std.specs.Prelude.{◌≡◌, ◌≤◌, ◌<◌, ◌↔◌, length, IsTrue};
ghost use Rattle.session_slots.specs.Answers.{code_of};
ghost use Rattle.session_slots.specs.Notices.{nothing_told};
ghost use Rattle.session_slots.specs.Slots.{At, Closes, NoticesIn, Opens, ReadsIn, TakesIn};
ghost use Rattle.session_slots.specs.declared.answer.Answer.TheVariants.{NoSlot};

use crate::answer::Answer;
use crate::slot::Slot;
use crate::told::Told;
use std::alloc::Global;

/// Whether there is a slot with this number.
fn has(slots: &[Slot], number: usize) -> bool
    ensures { IsTrue result ↔ number < length slots.now }
{
    number < slots.len()
}

/// `Slot::open` in the slot with this number, or -4 where there is none.
pub fn open_at(alloc: Global, slots: &mut [Slot], number: usize) -> i32
    ensures beyond { length slots.old ≤ number → (result ≡ code_of NoSlot) × (slots.new ≡ slots.old) }
    ensures within { number < length slots.old → At slots.old number slots.new (λ old new. Opens old result new) }
{
    if !has(slots, number) {
        return Answer::NoSlot.code();
    }
    slots[number].open(alloc)
}

/// `Slot::line` at the slot with this number, or -4 where there is none.
pub fn line_at(
    alloc: Global,
    slots: &mut [Slot],
    number: usize,
    text: &[u8],
    out: &mut [u8],
    count: &mut usize,
) -> i32
    ensures beyond { length slots.old ≤ number → (result ≡ code_of NoSlot) × (slots.new ≡ slots.old) × (count.new ≡ 0) × (out.new ≡ out.old) }
    ensures within { number < length slots.old → At slots.old number slots.new (λ old new. TakesIn text.now out.old out.new count.new old result new) }
{
    if !has(slots, number) {
        *count = 0;
        return Answer::NoSlot.code();
    }
    slots[number].line(alloc, text, out, count)
}

/// `Slot::rest` at the slot with this number, or -4 where there is none.
pub fn rest_at(
    alloc: Global,
    slots: &mut [Slot],
    number: usize,
    out: &mut [u8],
    count: &mut usize,
) -> i32
    ensures beyond { length slots.old ≤ number → (result ≡ code_of NoSlot) × (slots.new ≡ slots.old) × (count.new ≡ 0) × (out.new ≡ out.old) }
    ensures within { number < length slots.old → At slots.old number slots.new (λ old new. ReadsIn out.old out.new count.new old result new) }
{
    if !has(slots, number) {
        *count = 0;
        return Answer::NoSlot.code();
    }
    slots[number].rest(alloc, out, count)
}

/// `Slot::notice` at the slot with this number, or -4 where there is none.
pub fn notice_at(
    alloc: Global,
    slots: &mut [Slot],
    number: usize,
    notice: usize,
    out: &mut [u8],
    told: &mut Told,
) -> i32
    ensures beyond { length slots.old ≤ number → (result ≡ code_of NoSlot) × (slots.new ≡ slots.old) × (told.new ≡ nothing_told 0) × (out.new ≡ out.old) }
    ensures within { number < length slots.old → At slots.old number slots.new (λ old new. NoticesIn notice out.old out.new told.new old result new) }
{
    if !has(slots, number) {
        *told = Told::nothing(0);
        return Answer::NoSlot.code();
    }
    slots[number].notice(alloc, notice, out, told)
}

/// `Slot::close` at the slot with this number, or -4 where there is none.
pub fn close_at(alloc: Global, slots: &mut [Slot], number: usize) -> i32
    ensures beyond { length slots.old ≤ number → (result ≡ code_of NoSlot) × (slots.new ≡ slots.old) }
    ensures within { number < length slots.old → At slots.old number slots.new (λ old new. Closes old result new) }
{
    if !has(slots, number) {
        return Answer::NoSlot.code();
    }
    slots[number].close(alloc)
}
