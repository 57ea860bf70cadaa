//! Callers with variables: what a crate above does with the promises, with no proof of its own.
ghost use Rattle.std.specs.Prelude.{◌≡◌, ℕ, ◌+◌, ◌<◌, ◌≤◌, Bool, true, false, IfOk, IfErr, IfSome, IsTrue, ◌↔◌, Ok, Err, if◌then◌else◌};
ghost use Rattle.std.specs.Option.{IfNone};
ghost use Rattle.con_handles.specs.Handles.{is_at, is_owned, new_number};
ghost use Rattle.con_handles.specs.Words.Handles.{is_used};
ghost use Rattle.con_handles.specs.Tables.{tally, on};
ghost use Rattle.con_procs.specs.Procs.{is_attached, programs_of};
ghost use Rattle.con_history.specs.Histories.{used_by};
ghost use Rattle.con_history.specs.Words.Histories.{can_use};

use con_handles::{Handles, Object, is_counted};
use con_history::Histories;
use con_procs::{Procs, is_attached_still};
use con_units::{Code, OutOfMemory, Units};

/// Opens a handle: no process has a number twice, or more than 64 of them, and one handle more stands for the object.
pub fn opened(handles: &mut Handles, process: u8, object: Object, rights: u8) -> Result<u32, Code>
    requires { 0 < handles.old.spare }
    ensures counted { IfOk result (λ _. (t : Object → Bool)
        → tally (on t) handles.new.open_ones ≡ (if t object then 1 else 0) + tally (on t) handles.old.open_ones) }
    ensures refused { IfErr result (λ _. handles.new ≡ handles.old) }
    ensures once { (p n : ℕ) → tally (is_at p n) handles.new.open_ones ≤ 1 }
    ensures few { (p : ℕ) → tally (is_owned p) handles.new.open_ones ≤ 64 }
{
    is_counted();
    handles.open(process, object, rights)
}

/// Closes a handle: one handle less stands for its object.
pub fn closed(handles: &mut Handles, process: u8, handle: u32) -> Result<Object, Code>
    ensures counted { IfOk result (λ o. (t : Object → Bool)
        → (if t o then 1 else 0) + tally (on t) handles.new.open_ones ≡ tally (on t) handles.old.open_ones) }
    ensures once { (p n : ℕ) → tally (is_at p n) handles.new.open_ones ≤ 1 }
{
    is_counted();
    handles.close(process, handle)
}

/// Takes a process's handles one after another, as a process that exits does.
pub fn taken(handles: &mut Handles, process: u8) -> Option<Object>
    ensures counted { IfSome result (λ o. (t : Object → Bool)
        → (if t o then 1 else 0) + tally (on t) handles.new.open_ones ≡ tally (on t) handles.old.open_ones) }
    ensures none { IfNone result (handles.new ≡ handles.old) }
{
    handles.take_any(process)
}

/// Knows the number before it opens, as one that makes something for the handle first.
pub fn made(handles: &mut Handles, process: u8, object: Object) -> Result<u32, Code>
    requires { 0 < handles.old.spare }
    ensures number { result ≡ new_number handles.old.open_ones process }
    ensures free { IfOk result (λ n. is_used handles.old.open_ones process n ≡ false) }
{
    let number = handles.next(process)?;
    match handles.open(process, object, 3) {
        Ok(_) => Ok(number),
        Err(_) => unreachable!(),
    }
}

/// Opens where the process has fewer than 64, which never fails.
pub fn opened_below(handles: &mut Handles, process: u8, object: Object) -> bool
    requires { 0 < handles.old.spare }
    ensures { IsTrue result ↔ (new_number handles.old.open_ones process ≡ Err Code.Limit) }
{
    if handles.is_full(process) {
        return true;
    }
    match handles.open(process, object, 1) {
        Ok(_) => false,
        Err(_) => unreachable!(),
    }
}

/// An event and a setting leave a process attached.
pub fn still_attached(procs: &mut Procs, process: u8, other: u8)
    requires { (is_attached procs.old process ≡ true) × (is_attached procs.old other ≡ true) }
    ensures { (is_attached procs.new process ≡ true) × (is_attached procs.new other ≡ true) }
{
    is_attached_still();
    procs.signal(0, 0);
    procs.set_ignore(process, true);
    procs.take_pending(other);
    let _ = procs.add_handler(other, 0);
}

/// A process that exits is attached no more, and another one is as it was.
pub fn exited(procs: &mut Procs, process: u8, status: u32)
    requires { is_attached procs.old process ≡ true }
    ensures { is_attached procs.new process ≡ false }
{
    is_attached_still();
    procs.exit(process, status);
}

/// A program uses its history, while those of the attached processes stay.
pub fn history_used(
    histories: &mut Histories,
    procs: &Procs,
    program: &Units,
) -> Result<bool, OutOfMemory>
    ensures histories { IfOk result (λ _. histories.new ≡ used_by histories.old program.now (programs_of procs.now)) }
    ensures answer { IfOk result (λ can. can ≡ can_use histories.old program.now (programs_of procs.now)) }
{
    let room = histories.use_room(program)?;
    Ok(histories.use_of(program, procs.programs(), room))
}
