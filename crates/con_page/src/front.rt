//! Units at the front that are printed.
ghost use Rattle.std.specs.Prelude.{◌≡◌, ◌≤◌, true, length, take, min, max};
ghost use Rattle.std.specs.List.{list_all};
ghost use Rattle.con_units.specs.Plain.{is_plain};
ghost use Rattle.con_page.specs.Run as run;

use con_vtgram::plain_count;

// How many units are looked at together.
const BLOCK: usize = 16;

// How many units are looked at one by one, before blocks.
const SHORT: usize = 8;

fn lesser(a: u16, b: u16) -> u16
    ensures { result ≡ min a b }
{
    a.min(b)
}

fn greater(a: u16, b: u16) -> u16
    ensures { result ≡ max a b }
{
    a.max(b)
}

// Whether all units are printable. The least and the greatest of them are found many units at a time.
fn are_printable(units: &[u16]) -> bool
    ensures { result ≡ true → list_all is_plain units.now ≡ true }
{
    let mut least = 0xFFFF;
    let mut most = 0;
    for unit in units {
        least = lesser(least, *unit);
        most = greater(most, *unit);
    }
    0x20 <= least && most <= 0x7E
}

// How many units at the front are printable, in whole blocks.
fn printable_blocks(units: &[u16]) -> usize
    ensures count { result ≤ length units.now }
    ensures all { list_all is_plain (take result units.now) ≡ true }
{
    let mut at = 0;
    while at + BLOCK <= units.len() {
        if !are_printable(&units[at..at + BLOCK]) {
            return at;
        }
        at += BLOCK;
    }
    at
}

/// How many units at the front are printable, up to a limit. A short run is counted unit by unit.
pub(crate) fn printable_front(units: &[u16], limit: usize) -> usize
    ensures count { result ≤ length units.now }
    ensures limit { result ≤ limit }
    ensures all { list_all is_plain (take result units.now) ≡ true }
{
    let limit = limit.min(units.len());
    let near = plain_count(&units[..limit.min(SHORT)]);
    if near < SHORT {
        return near;
    }
    let far = near + printable_blocks(&units[near..limit]);
    far + plain_count(&units[far..limit])
}

fn is_printed(unit: u16) -> bool
    ensures { result ≡ run.is_printed unit }
{
    (0x20 <= unit && unit <= 0x7E) || 0xA0 <= unit
}

/// How many units at the front are no controls, up to a limit.
pub(crate) fn printed_front(units: &[u16], limit: usize) -> usize
    ensures count { result ≤ length units.now }
    ensures limit { result ≤ limit }
    ensures all { list_all run.is_printed (take result units.now) ≡ true }
{
    let end = limit.min(units.len());
    let mut count = 0;
    while count < end {
        if !is_printed(units[count]) {
            return count;
        }
        count += 1;
    }
    count
}
