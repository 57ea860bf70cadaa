//! The rows of the table: which key bytes stand for.
ghost use Rattle.std.specs.Prelude.{◌≡◌, ℕ, ◌<◌, ◌≤◌, ◌+◌, IfSome, ◌^◌, true, List, [], ◌∷◌};
ghost use Rattle.con_vtin.specs.Table as spec;

use con_records::Key;

/// A key that goes down once.
pub fn pressed(vk: u16, unit: u16, state: u32) -> Key
    ensures { result ≡ spec.pressed vk unit state }
{
    Key {
        down: true,
        repeat: 1,
        vk,
        scan: 0,
        unit,
        state,
    }
}

/// U+FFFD, where bytes are no key.
pub fn replacement() -> Key
    ensures { result ≡ spec.replacement }
{
    pressed(0, 0xFFFD, 0)
}

/// The escape key.
pub fn escape() -> Key
    ensures { result ≡ spec.escape }
{
    pressed(0x1B, 0x1B, 0)
}

fn is_capital(byte: u8) -> bool
    ensures { result ≡ spec.is_capital byte }
{
    0x41 <= byte && byte <= 0x5A
}

fn printable_vk(byte: u8) -> u16
    ensures { result ≡ spec.printable_vk byte }
{
    if byte == 0x20 || (0x30 <= byte && byte <= 0x39) || is_capital(byte) {
        byte as u16
    } else if 0x61 <= byte && byte <= 0x7A {
        byte as u16 - 0x20
    } else {
        0
    }
}

fn printable_key(byte: u8) -> Key
    ensures { result ≡ spec.printable_key byte }
{
    let vk = printable_vk(byte);
    if is_capital(byte) {
        pressed(vk, byte as u16, 0x10)
    } else {
        pressed(vk, byte as u16, 0)
    }
}

fn ctrl_key(byte: u8) -> Key
    ensures { result ≡ spec.ctrl_key byte }
{
    if byte == 0 {
        pressed(0x20, 0, 0x08)
    } else if byte <= 0x1A {
        pressed(0x40 + byte as u16, byte as u16, 0x08)
    } else {
        pressed(0, byte as u16, 0x08)
    }
}

// VK_TAB, VK_RETURN, VK_ESCAPE, VK_BACK, or another control.
fn control_key(byte: u8) -> Key
    ensures { result ≡ spec.control_key byte }
{
    if byte == 0x09 || byte == 0x0D || byte == 0x1B {
        pressed(byte as u16, byte as u16, 0)
    } else if byte == 0x7F {
        pressed(0x08, 0x08, 0)
    } else if byte == 0x08 {
        pressed(0x08, 0x7F, 0x08)
    } else {
        ctrl_key(byte)
    }
}

/// The key of a byte below 0x80.
pub fn byte_key(byte: u8) -> Key
    ensures { result ≡ spec.byte_key byte }
{
    if 0x20 <= byte && byte <= 0x7E {
        printable_key(byte)
    } else {
        control_key(byte)
    }
}

/// The key with alt.
pub fn with_alt(key: Key) -> Key
    requires { key.state + 2 < 2 ^ 32 }
    ensures { result ≡ spec.with_alt key }
{
    Key {
        state: key.state + 2,
        ..key
    }
}

// VK_UP, VK_DOWN, VK_RIGHT, VK_LEFT, VK_HOME, VK_END.
fn six_vk(byte: u8) -> Option<u16>
    ensures { result ≡ spec.six_vk byte }
{
    match byte {
        0x41 => Some(0x26),
        0x42 => Some(0x28),
        0x43 => Some(0x27),
        0x44 => Some(0x25),
        0x48 => Some(0x24),
        0x46 => Some(0x23),
        _ => None,
    }
}

// VK_INSERT, VK_DELETE, VK_PRIOR, VK_NEXT.
fn page_vk(digit: u8) -> Option<u16>
    ensures { result ≡ spec.page_vk digit }
{
    match digit {
        0x32 => Some(0x2D),
        0x33 => Some(0x2E),
        0x35 => Some(0x21),
        0x36 => Some(0x22),
        _ => None,
    }
}

// VK_F5 to VK_F8.
fn teen_vk(digit: u8) -> Option<u16>
    ensures { result ≡ spec.teen_vk digit }
{
    if digit == 0x35 {
        Some(0x74)
    } else if 0x37 <= digit && digit <= 0x39 {
        Some(digit as u16 + 0x3E)
    } else {
        None
    }
}

// VK_F9 to VK_F12.
fn twenty_vk(digit: u8) -> Option<u16>
    ensures { result ≡ spec.twenty_vk digit }
{
    if 0x30 <= digit && digit <= 0x31 {
        Some(digit as u16 + 0x48)
    } else if 0x33 <= digit && digit <= 0x34 {
        Some(digit as u16 + 0x47)
    } else {
        None
    }
}

fn function_vk(tens: u8, ones: u8) -> Option<u16>
    ensures { result ≡ spec.function_vk tens ones }
{
    if tens == 0x31 {
        teen_vk(ones)
    } else if tens == 0x32 {
        twenty_vk(ones)
    } else {
        None
    }
}

// VK_F1 to VK_F4.
fn first_vk(byte: u8) -> Option<u16>
    ensures { result ≡ spec.first_vk byte }
{
    if 0x50 <= byte && byte <= 0x53 {
        Some(byte as u16 + 0x20)
    } else {
        None
    }
}

fn enhanced(state: u32, vk: Option<u16>) -> Option<Key>
    requires { state < 0x20 }
    ensures { result ≡ spec.enhanced state vk }
{
    match vk {
        Some(code) => Some(pressed(code, 0, 0x100 + state)),
        None => None,
    }
}

fn ordinary(state: u32, vk: Option<u16>) -> Option<Key>
    ensures { result ≡ spec.ordinary state vk }
{
    match vk {
        Some(code) => Some(pressed(code, 0, state)),
        None => None,
    }
}

/// The key of a last letter, and what was held down with it.
pub fn letter_key(state: u32, byte: u8) -> Option<Key>
    requires { state < 0x20 }
    ensures { result ≡ spec.letter_key state byte }
{
    match enhanced(state, six_vk(byte)) {
        Some(key) => Some(key),
        None => ordinary(state, first_vk(byte)),
    }
}

fn is_modifier(byte: u8) -> bool
    ensures { result ≡ spec.is_modifier byte }
{
    0x31 <= byte && byte <= 0x38
}

fn modifier_state(byte: u8) -> u32
    requires { spec.is_modifier byte ≡ true }
    ensures value { result ≡ spec.modifier_state byte }
    ensures small { result < 0x20 }
{
    let m = byte as u32 - 0x31;
    m % 2 * 0x10 + m / 2 % 2 * 0x02 + m / 4 * 0x08
}

/// The key of a control sequence, by what stands between ESC [ and its last byte; no key for other sequences.
pub fn control_sequence_key(body: &[u8], last: u8) -> Option<Key>
    ensures { result ≡ spec.control_sequence_key body.now last }
{
    match body {
        [] => enhanced(0, six_vk(last)),
        [digit] => if last == 0x7E {
            enhanced(0, page_vk(*digit))
        } else {
            None
        },
        [tens, ones] => if last == 0x7E {
            ordinary(0, function_vk(*tens, *ones))
        } else {
            None
        },
        [digit, separator, modifier] => one_number(*digit, *separator, *modifier, last),
        [tens, ones, separator, modifier] => {
            two_digits(*tens, *ones, *separator, *modifier, last)
        }
        _ => None,
    }
}

fn one_number(digit: u8, separator: u8, modifier: u8, last: u8) -> Option<Key>
    ensures { result ≡ spec.control_sequence_key (digit ∷ separator ∷ modifier ∷ []) last }
{
    if separator == 0x3B && is_modifier(modifier) {
        let state = modifier_state(modifier);
        if last == 0x7E {
            enhanced(state, page_vk(digit))
        } else if digit == 0x31 {
            letter_key(state, last)
        } else {
            None
        }
    } else {
        None
    }
}

fn two_digits(tens: u8, ones: u8, separator: u8, modifier: u8, last: u8) -> Option<Key>
    ensures { result ≡ spec.control_sequence_key (tens ∷ ones ∷ separator ∷ modifier ∷ []) last }
{
    if separator == 0x3B && is_modifier(modifier) && last == 0x7E {
        ordinary(modifier_state(modifier), function_vk(tens, ones))
    } else {
        None
    }
}
