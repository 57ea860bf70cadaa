// The places, 64 for each process.
ghost use Rattle.std.specs.Prelude.{◌≡◌, ℕ, ◌+◌, ◌-◌, ◌*◌, ◌<◌, ◌≤◌, List, [], length, OnOk, OnErr, OnSome, IfSome, Ok, Err, Some, None, slice_set, slice_get, slice_index_or, option_map, vec_len, vec_capacity, nat_le, ◌&&◌, false, true};
ghost use Rattle.con_handles.specs.Handles.{find_handle, is_kind, allowed, entered, without};
ghost use Rattle.con_handles.specs.Words.Handles.{is_used, least_free, least_of};
ghost use Rattle.con_handles.specs.Places.{listed, place_of, handle_of, held_in};

use crate::handle::{Handle, Held, Kind, Object};
use con_units::{Code, OutOfMemory};

/// How many handles a process may have.
pub const MOST: u32 = 64;

const PLACES: usize = 16384;

/// The place of a number of 1 to 64.
pub fn place(process: u8, number: u32) -> usize
    requires low { 1 ≤ number }
    requires high { number ≤ 64 }
    ensures is { result ≡ place_of process number }
    ensures within { result < 16384 }
{
    process as usize * 64 + (number as usize - 1)
}

/// Makes the places of all processes.
pub fn fill(places: &mut Vec<Option<Held>>) -> Result<(), OutOfMemory>
    ensures same { listed 0 places.new.items ≡ listed 0 places.old.items }
    ensures len { OnOk result (16384 ≤ vec_len places.new) }
    ensures less { vec_len places.old ≤ vec_len places.new }
    ensures most { vec_len places.old ≤ 16384 → vec_len places.new ≤ 16384 }
{
    if places.len() >= PLACES {
        return Ok(());
    }
    if places.reserve(PLACES - places.len()).is_err() {
        return Err(OutOfMemory);
    }
    while places.len() < PLACES {
        places.push_reserved(None);
    }
    Ok(())
}

fn held_at(places: &[Option<Held>], at: usize) -> Option<Held>
    ensures { result ≡ held_in (slice_get places.now at) }
{
    match places.get(at) {
        Some(held) => *held,
        None => None,
    }
}

/// The handle of a process and a number, in constant time.
pub fn found(places: &[Option<Held>], process: u8, number: u32) -> Option<Handle>
    ensures is { result ≡ find_handle (listed 0 places.now) process number }
    ensures process { IfSome result (λ h. h.process ≡ process) }
    ensures number { IfSome result (λ h. h.number ≡ number) }
    ensures low { OnSome result (1 ≤ number) }
    ensures high { OnSome result (number ≤ 64) }
{
    if number < 1 {
        return None;
    }
    if number > MOST {
        return None;
    }
    match held_at(places, place(process, number)) {
        Some(held) => Some(Handle {
            process,
            number,
            object: held.object,
            rights: held.rights,
        }),
        None => None,
    }
}

/// Whether the process uses the number.
pub fn used(places: &[Option<Held>], process: u8, number: u32) -> bool
    ensures { result ≡ is_used (listed 0 places.now) process number }
{
    found(places, process, number).is_some()
}

/// The least free number, or 65.
pub fn first_free(places: &[Option<Held>], process: u8) -> u32
    ensures is { result ≡ least_free (listed 0 places.now) process }
    ensures low { 1 ≤ result }
    ensures free { result ≤ 64 → is_used (listed 0 places.now) process result ≡ false }
{
    let mut number = 1;
    while number <= MOST {
        if !used(places, process, number) {
            return number;
        }
        number += 1;
    }
    number
}

/// Puts a handle at a free place.
pub fn put(places: &mut [Option<Held>], process: u8, number: u32, held: Held)
    requires room { 16384 ≤ length places.old }
    requires low { 1 ≤ number }
    requires high { number ≤ 64 }
    requires free { is_used (listed 0 places.old) process number ≡ false }
    ensures { listed 0 places.new ≡ entered (handle_of process number held) (listed 0 places.old) }
{
    places[place(process, number)] = Some(held);
}

/// Empties a place.
pub fn remove(places: &mut [Option<Held>], process: u8, number: u32)
    requires low { 1 ≤ number }
    requires high { number ≤ 64 }
    ensures { listed 0 places.new ≡ without (listed 0 places.old) process number }
{
    let at = place(process, number);
    if at < places.len() {
        places[at] = None;
    }
}

/// The process's handle with the least number.
pub fn least(places: &[Option<Held>], process: u8) -> Option<Handle>
    ensures is { result ≡ least_of (listed 0 places.now) process }
    ensures low { IfSome result (λ h. 1 ≤ h.number) }
    ensures high { IfSome result (λ h. h.number ≤ 64) }
    ensures process { IfSome result (λ h. h.process ≡ process) }
    ensures least { IfSome result (λ h. (m : ℕ) → is_used (listed 0 places.now) process m ≡ true → h.number ≤ m) }
{
    let mut number = 1;
    while number <= MOST {
        if let Some(handle) = found(places, process, number) {
            return Some(handle);
        }
        number += 1;
    }
    None
}

fn is_kind_of(kind: Kind, object: Object) -> bool
    ensures { result ≡ is_kind kind object }
{
    match (kind, object) {
        (Kind::Any, _) => true,
        (Kind::Input, Object::Input) => true,
        (Kind::Output, Object::Output(_)) => true,
        _ => false,
    }
}

/// What a handle stands for, if it has this kind and this right.
pub fn may(handle: Handle, kind: Kind, right: u8) -> Result<Object, Code>
    ensures { result ≡ allowed handle kind right }
{
    if !is_kind_of(kind, handle.object) {
        return Err(Code::BadHandle);
    }
    if handle.rights & right != right {
        return Err(Code::Denied);
    }
    Ok(handle.object)
}
