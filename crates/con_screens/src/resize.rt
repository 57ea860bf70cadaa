//! Resizing a buffer with the window.
ghost use Rattle.std.specs.Prelude.{◌≡◌, ℕ, ◌<◌, ◌≤◌, None, length, map, slice_index_or, IfOk};
ghost use Rattle.std.specs.Option.{option_map};
ghost use Rattle.con_page.specs.Words.Page.{IsPage};
ghost use Rattle.con_page.specs.Words.Fit.{AreSizes};
ghost use Rattle.con_screens.specs.Words.Buffer.{HasWindow};
ghost use Rattle.con_screens.specs.Slot.{HasPages, HaveWindow};
ghost use Rattle.con_screens.specs.Resize.{side_after, buffer_resized};
ghost use Rattle.con_screens.specs.Words.Resize.{target, IsBufferFit, IsSlotFit};

use crate::buffer::Buffer;
use crate::fits::BufferFit;
use con_screen::Screen;
use con_units::{OutOfMemory, Size};
use std::alloc::Global;
use std::mem;

fn side_after(side: u16, old: u16, new: u16) -> u16
    ensures { result ≡ side_after side old new }
{
    if side == old { new } else { side.max(new) }
}

// The size of a screen's buffer after the window's old size becomes another one.
fn target(alternate: bool, screen: &Screen, old: Size, window: Size) -> Size
    requires page { IsPage screen.now.page }
    requires wide { old.w ≡ screen.now.page.w }
    requires tall { old.h ≡ screen.now.page.h }
    requires some { (0 < window.w) × (0 < window.h) }
    requires few { (window.w ≤ 512) × (window.h ≤ 256) }
    ensures size { result ≡ target alternate screen.now.page window }
    ensures sizes { AreSizes result window }
{
    let size = screen.grid().size();
    if alternate {
        window
    } else {
        Size {
            w: side_after(size.w, old.w, window.w),
            h: side_after(size.h, old.h, window.h),
        }
    }
}

fn fit_buffer(buffer: &Buffer, old: Size, window: Size) -> Result<BufferFit, OutOfMemory>
    requires shown { HasWindow buffer.now.shown old.w old.h }
    requires hidden { HasWindow buffer.now.hidden old.w old.h }
    requires some { (0 < window.w) × (0 < window.h) }
    requires few { (window.w ≤ 512) × (window.h ≤ 256) }
    ensures { IfOk result (λ f. IsBufferFit window buffer.now f) }
{
    let shown_size = target(buffer.alternate, &buffer.shown, old, window);
    let hidden_size = target(!buffer.alternate, &buffer.hidden, old, window);
    Ok(BufferFit {
        shown: buffer.shown.fit(shown_size, window)?,
        hidden: buffer.hidden.fit(hidden_size, window)?,
    })
}

/// Takes the memory for the place of a buffer, if there is one.
pub fn fit_slot(
    slot: &Option<Buffer>,
    old: Size,
    window: Size,
) -> Result<Option<BufferFit>, OutOfMemory>
    requires windows { HaveWindow old.w old.h slot.now }
    requires some { (0 < window.w) × (0 < window.h) }
    requires few { (window.w ≤ 512) × (window.h ≤ 256) }
    ensures { IfOk result (λ f. IsSlotFit window slot.now f) }
{
    match slot {
        Some(buffer) => Ok(Some(fit_buffer(buffer, old, window)?)),
        None => Ok(None),
    }
}

fn resize_buffer(buffer: &mut Buffer, fit: BufferFit, window: Size)
    requires shown { IsPage buffer.old.shown.page }
    requires hidden { IsPage buffer.old.hidden.page }
    requires fit { IsBufferFit window buffer.old fit }
    ensures buffer { buffer.new ≡ buffer_resized window buffer.old }
    ensures shown_page { IsPage buffer.new.shown.page }
    ensures hidden_page { IsPage buffer.new.hidden.page }
{
    let BufferFit { shown, hidden } = fit;
    buffer.shown.resize(shown);
    buffer.hidden.resize(hidden);
}

/// Resizes the buffer of a place, if there is one.
pub fn resize_slot(slot: &mut Option<Buffer>, fit: Option<BufferFit>, window: Size)
    requires pages { HasPages slot.old }
    requires fit { IsSlotFit window slot.old fit }
    ensures slot { slot.new ≡ option_map (buffer_resized window) slot.old }
    ensures pages { HasPages slot.new }
{
    match slot {
        Some(buffer) => {
            match fit {
                Some(fit) => resize_buffer(buffer, fit, window),
                None => unreachable!(),
            }
        }
        None => {}
    }
}

/// Takes the memory for all places.
pub fn fit_slots(
    alloc: Global,
    slots: &[Option<Buffer>],
    old: Size,
    window: Size,
) -> Result<Vec<Option<BufferFit>>, OutOfMemory>
    requires windows { (id : ℕ) → HaveWindow old.w old.h (slice_index_or slots.now id None) }
    requires some { (0 < window.w) × (0 < window.h) }
    requires few { (window.w ≤ 512) × (window.h ≤ 256) }
    ensures count { IfOk result (λ v. length v.items ≡ length slots.now) }
    ensures each { IfOk result (λ v. (id : ℕ) → IsSlotFit window (slice_index_or slots.now id None) (slice_index_or v.items id None)) }
{
    let Ok(mut fits) = Vec::with_capacity(alloc, slots.len()) else {
        return Err(OutOfMemory);
    };
    for at in 0..slots.len() {
        fits.push_reserved(fit_slot(&slots[at], old, window)?);
    }
    Ok(fits)
}

/// Resizes the buffers of all places.
pub fn resize_slots(
    slots: &mut Vec<Option<Buffer>>,
    fits: &mut Vec<Option<BufferFit>>,
    window: Size,
)
    requires pages { (id : ℕ) → HasPages (slice_index_or slots.old.items id None) }
    requires count { length fits.old.items ≡ length slots.old.items }
    requires each { (id : ℕ) → IsSlotFit window (slice_index_or slots.old.items id None) (slice_index_or fits.old.items id None) }
    ensures slots { slots.new.items ≡ map (option_map (buffer_resized window)) slots.old.items }
    ensures pages { (id : ℕ) → HasPages (slice_index_or slots.new.items id None) }
{
    let count = slots.len();
    for at in 0..count {
        let fit = mem::replace(&mut fits[at], None);
        resize_slot(&mut slots[at], fit, window);
    }
}
