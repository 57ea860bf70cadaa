//! The place of one buffer, which may have none.
ghost use Rattle.std.specs.Prelude.{◌≡◌, ◌<◌, ◌≤◌, ◌-◌, false, length, is_none, is_some, IsSome, IfSome};
ghost use Rattle.std.specs.List.{position};
ghost use Rattle.std.specs.Option.{option_map, option_map_or};
ghost use Rattle.con_page.specs.Words.Page.{IsPage};
ghost use Rattle.con_screens.specs.Buffer.{buffer_written, told_on};
ghost use Rattle.con_screens.specs.Words.Buffer.{alternate_on, alternate_off};
ghost use Rattle.con_screens.specs.Words.Buffers.{with_handles};
ghost use Rattle.con_screens.specs.Slot.{HasPages, Keeps};
ghost use Rattle.con_screens.specs.Words.Stamps.{remembered};

use crate::buffer::Buffer;
use con_screen::{Answers, Screen};

pub fn is_live(slot: &Option<Buffer>) -> bool
    ensures { result ≡ is_some slot.now }
{
    slot.is_some()
}

/// The first place without a buffer.
pub fn first_free(slots: &[Option<Buffer>]) -> Option<usize>
    ensures first { result ≡ position is_none slots.now }
    ensures inside { IfSome result (λ at. at < length slots.now) }
{
    slots.iter().position(|slot| slot.is_none())
}

pub fn handles(slot: &Option<Buffer>) -> u32
    ensures { result ≡ option_map_or (λ b. b.handles) slot.now 0 }
{
    match slot {
        Some(buffer) => buffer.handles,
        None => 0,
    }
}

pub fn set_handles(slot: &mut Option<Buffer>, handles: u32)
    ensures slot { slot.new ≡ option_map (with_handles handles) slot.old }
    ensures remembered { option_map remembered slot.new ≡ option_map remembered slot.old }
{
    match slot {
        Some(buffer) => buffer.handles = handles,
        None => {}
    }
}

pub fn is_alternate(slot: &Option<Buffer>) -> bool
    ensures { result ≡ option_map_or (λ b. b.alternate) slot.now false }
{
    match slot {
        Some(buffer) => buffer.alternate,
        None => false,
    }
}

pub fn birth(slot: &Option<Buffer>) -> u64
    ensures { result ≡ option_map_or (λ b. b.birth) slot.now 0 }
{
    match slot {
        Some(buffer) => buffer.birth,
        None => 0,
    }
}

pub fn screen(slot: &Option<Buffer>) -> &Screen
    requires { IsSome slot.now }
    ensures { IfSome slot.now (λ b. result.now ≡ b.shown) }
{
    match slot {
        Some(buffer) => &buffer.shown,
        None => unreachable!(),
    }
}

pub fn alternate_on_in(slot: &mut Option<Buffer>)
    requires { HasPages slot.old }
    ensures slot { slot.new ≡ option_map alternate_on slot.old }
    ensures kept { Keeps slot.old slot.new }
    ensures remembered { option_map remembered slot.new ≡ option_map remembered slot.old }
{
    match slot {
        Some(buffer) => buffer.alternate_on(),
        None => {}
    }
}

pub fn alternate_off_in(slot: &mut Option<Buffer>)
    requires { HasPages slot.old }
    ensures slot { slot.new ≡ option_map alternate_off slot.old }
    ensures kept { Keeps slot.old slot.new }
    ensures remembered { option_map remembered slot.new ≡ option_map remembered slot.old }
{
    match slot {
        Some(buffer) => buffer.alternate_off(),
        None => {}
    }
}

pub fn write_in(slot: &mut Option<Buffer>, units: &[u16], answers: &mut Answers)
    requires pages { HasPages slot.old }
    requires live { IsSome slot.old }
    requires room { length units.now ≤ answers.old.room }
    ensures slot { slot.new ≡ option_map (buffer_written answers.old.told units.now) slot.old }
    ensures answers { answers.new ≡ record { told = told_on slot.old answers.old.told units.now; room = answers.old.room - length units.now } }
    ensures kept { Keeps slot.old slot.new }
    ensures remembered { option_map remembered slot.new ≡ option_map remembered slot.old }
{
    match slot {
        Some(buffer) => buffer.write(units, answers),
        None => unreachable!(),
    }
}
