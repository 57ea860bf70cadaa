//! Which part of a line's text one read answers, and what is left of it.
ghost use Rattle.std.specs.Prelude.{◌≡◌, ℕ, ◌≤◌, [], length, min, take, drop, IfOk, if◌then◌else◌};
ghost use Rattle.con_machine.specs.Reads.{line_front};
ghost use Rattle.con_machine.specs.Words.Reads.{ends_line, part_told, part_left};
ghost use Rattle.con_machine.specs.Began.{part_end};

use crate::calls::copies::text_in;
use crate::reads::noted::Noted;
use con_units::{OutOfMemory, Units};

// Whether a unit and what stands behind it are CR and LF.
fn ends_line(unit: u16, rest: &[u16]) -> bool
    ensures { result ≡ ends_line unit rest.now }
{
    match rest.first() {
        Some(next) => unit == 13 && *next == 10,
        None => false,
    }
}

// Where the front of a text ends that one read answers.
pub(crate) fn line_front(n: usize, units: &[u16]) -> usize
    ensures is { result ≡ line_front n units.now }
    ensures within { result ≤ length units.now }
{
    let mut k = 0usize;
    while k < n && k < units.len() {
        if ends_line(units[k], &units[k + 1..]) {
            return k + (n - k).min(2);
        }
        k += 1;
    }
    k
}

// Where the part ends that a read answers, as it was noted.
fn part_end(note: &Noted, units: &[u16]) -> usize
    ensures is { result ≡ part_end note.now units.now }
    ensures within { result ≤ length units.now }
{
    let n = note.n as usize;
    if note.woken {
        n.min(units.len())
    } else {
        line_front(n, units)
    }
}

/// What is left of a line's text for its handle, in memory that is given, or in other where it is too small.
pub(crate) fn part_left(room: Units, note: &Noted, units: &[u16]) -> Result<Units, OutOfMemory>
    requires { room ≡ [] }
    ensures { IfOk result (λ u. u ≡ part_left note.now units.now) }
{
    text_in(room, &units[part_end(note, units)..])
}

/// What a read answers of a line's text.
pub(crate) fn part_told(note: &Noted, units: Units) -> Units
    ensures { result ≡ part_told note.now units }
{
    let end = part_end(note, units.as_slice());
    let mut list = units.into_vec();
    list.truncate(end);
    Units(list)
}
