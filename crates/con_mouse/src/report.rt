//! Reports.
ghost use Rattle.std.specs.Prelude.{◌≡◌, ℕ, ◌+◌, ◌<◌, ◌≤◌, Bool, true, List, [], ◌∷◌, ◌++◌, length, drop, Option, Some, None, option_map, if◌then◌else◌, IfSome};
ghost use Rattle.con_mouse.specs.Reports as spec;
ghost use Rattle.con_mouse.specs.Words.Reports.{IsReport};

use crate::numbers::{field, number};

/// What a terminal tells of the mouse.
#[derive(Clone, Copy, PartialEq, Eq)]
pub struct Report {
    /// The button and its flags, below 128: 4 shift, 8 alt, 16 ctrl, 32 a move, 64 a wheel.
    pub b: u16,
    /// The column, from 1 to 32,767.
    pub x: u16,
    /// The row, from 1 to 32,767.
    pub y: u16,
    /// Whether the report ends in `M`.
    pub press: bool,
}

fn has_lead(bytes: &[u8]) -> bool
    ensures is { (if result then Some (drop 3 bytes.now) else None) ≡ spec.lead bytes.now }
    ensures within { result ≡ true → 3 ≤ length bytes.now }
{
    bytes.len() >= 3 && bytes[0] == 0x1B && bytes[1] == 0x5B && bytes[2] == 0x3C
}

fn checked(b: u16, x: u16, y: u16, press: bool) -> Option<Report>
    requires column { x ≤ 32767 }
    requires row { y ≤ 32767 }
    ensures is { result ≡ spec.checked b x y press }
    ensures fits { IfSome result IsReport }
{
    if b < 128 && 1 <= x && 1 <= y {
        Some(Report { b, x, y, press })
    } else {
        None
    }
}

// What stands behind the three numbers: one byte, M or m.
fn ended(b: u16, x: u16, y: u16, bytes: &[u8]) -> Option<Report>
    requires column { x ≤ 32767 }
    requires row { y ≤ 32767 }
    ensures is { result ≡ spec.ended b x y bytes.now }
    ensures fits { IfSome result IsReport }
{
    if bytes.len() != 1 {
        return None;
    }
    if bytes[0] == 0x4D {
        checked(b, x, y, true)
    } else if bytes[0] == 0x6D {
        checked(b, x, y, false)
    } else {
        None
    }
}

fn with_row(b: u16, x: u16, bytes: &[u8]) -> Option<Report>
    requires { x ≤ 32767 }
    ensures is { result ≡ spec.with_row b x bytes.now }
    ensures fits { IfSome result IsReport }
{
    match number(bytes) {
        None => None,
        Some(y) => ended(b, x, y.value, &bytes[y.len..]),
    }
}

fn with_column(b: u16, bytes: &[u8]) -> Option<Report>
    ensures is { result ≡ spec.with_column b bytes.now }
    ensures fits { IfSome result IsReport }
{
    match field(bytes) {
        None => None,
        Some(x) => with_row(b, x.value, &bytes[x.len..]),
    }
}

fn with_button(bytes: &[u8]) -> Option<Report>
    ensures is { result ≡ spec.with_button bytes.now }
    ensures fits { IfSome result IsReport }
{
    match field(bytes) {
        None => None,
        Some(b) => with_column(b.value, &bytes[b.len..]),
    }
}

/// The report that the bytes spell, all of them: ESC `[<`, three numbers of one to five decimal digits with `;` between, the
/// button below 128 and the place from 1 to 32,767, and `M` or `m`. None: they spell none.
pub fn report_of(bytes: &[u8]) -> Option<Report>
    ensures is { result ≡ spec.report_of bytes.now }
    ensures fits { IfSome result IsReport }
{
    if has_lead(bytes) {
        with_button(&bytes[3..])
    } else {
        None
    }
}
