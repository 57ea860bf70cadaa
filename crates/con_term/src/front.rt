//! A character at the front of bytes that are no ASCII, and its units.
ghost use Rattle.std.specs.Prelude.{IfSome, ◌≡◌, ◌+◌, ◌-◌, ◌/◌, ◌%◌, ◌≤◌, ◌<◌, [], ◌∷◌};
ghost use Rattle.std.specs.Int.{is_in_range};
ghost use Rattle.con_units.specs.Utf8.{may_follow};
ghost use Rattle.con_term.specs.Front.{IsFront};
ghost use Rattle.con_term.specs.Play.{units_of};

/// How many bytes the character has, and which it is.
#[derive(Clone, Copy)]
pub struct Front {
    pub count: usize,
    pub code: u32,
}

fn follows(a: u8, b: u8) -> bool
    ensures { result ≡ may_follow a b }
{
    let low = if a == 0xE0 {
        0xA0
    } else if a == 0xF0 {
        0x90
    } else {
        0x80
    };
    let high = if a == 0xED {
        0x9F
    } else if a == 0xF4 {
        0x8F
    } else {
        0xBF
    };
    low <= b && b <= high
}

fn is_within(low: u8, high: u8, byte: u8) -> bool
    ensures { result ≡ is_in_range low high byte }
{
    low <= byte && byte <= high
}

// A byte that no character begins with, which counts as U+FFFD.
fn one(bytes: &[u8]) -> Option<Front>
    ensures { IfSome result (IsFront bytes.now) }
{
    if bytes.len() < 1 {
        return None;
    }
    let a = bytes[0];
    if a < 0x80 {
        return None;
    }
    if is_within(0xC2, 0xF4, a) {
        return None;
    }
    Some(Front {
        count: 1,
        code: 0xFFFD,
    })
}

fn two(bytes: &[u8]) -> Option<Front>
    ensures { IfSome result (IsFront bytes.now) }
{
    if bytes.len() < 2 {
        return None;
    }
    let a = bytes[0];
    let b = bytes[1];
    if !is_within(0xC2, 0xDF, a) {
        return None;
    }
    if !is_within(0x80, 0xBF, b) {
        return None;
    }
    Some(Front {
        count: 2,
        code: (a as u32 - 0xC0) * 64 + (b as u32 - 0x80),
    })
}

fn three(bytes: &[u8]) -> Option<Front>
    ensures { IfSome result (IsFront bytes.now) }
{
    if bytes.len() < 3 {
        return None;
    }
    let a = bytes[0];
    let b = bytes[1];
    let c = bytes[2];
    if !is_within(0xE0, 0xEF, a) {
        return None;
    }
    if !follows(a, b) {
        return None;
    }
    if !is_within(0x80, 0xBF, c) {
        return None;
    }
    Some(Front {
        count: 3,
        code: (a as u32 - 0xE0) * 4096 + (b as u32 - 0x80) * 64 + (c as u32 - 0x80),
    })
}

fn four(bytes: &[u8]) -> Option<Front>
    ensures { IfSome result (IsFront bytes.now) }
{
    if bytes.len() < 4 {
        return None;
    }
    let a = bytes[0];
    let b = bytes[1];
    let c = bytes[2];
    let d = bytes[3];
    if !is_within(0xF0, 0xF4, a) {
        return None;
    }
    if !follows(a, b) {
        return None;
    }
    if !is_within(0x80, 0xBF, c) {
        return None;
    }
    if !is_within(0x80, 0xBF, d) {
        return None;
    }
    Some(Front {
        count: 4,
        code: (a as u32 - 0xF0) * 262144
            + (b as u32 - 0x80) * 4096
            + (c as u32 - 0x80) * 64
            + (d as u32 - 0x80),
    })
}

/// The character at the front, where all its bytes are there: of two to four bytes, or U+FFFD for a byte that no character begins with.
pub fn front_character(bytes: &[u8]) -> Option<Front>
    ensures { IfSome result (IsFront bytes.now) }
{
    let Some(first) = bytes.first() else {
        return None;
    };
    match *first {
        0xC2..=0xDF => two(bytes),
        0xE0..=0xEF => three(bytes),
        0xF0..=0xF4 => four(bytes),
        _ => one(bytes),
    }
}

/// The high and the low unit of a character above U+FFFF.
#[tactic(auto, unfolding(crate::specs::Play::units_of))]
pub fn surrogates(code: u32) -> (u16, u16)
    requires { (0x10000 ≤ code) × (code < 0x140000) }
    ensures high { result.0 ≡ 0xD800 + (code - 0x10000) / 0x400 }
    ensures low { result.1 ≡ 0xDC00 + (code - 0x10000) % 0x400 }
    ensures units { result.0 ∷ result.1 ∷ [] ≡ units_of code }
{
    let above = code - 0x10000;
    (
        (0xD800 + above / 0x400) as u16,
        (0xDC00 + above % 0x400) as u16,
    )
}
