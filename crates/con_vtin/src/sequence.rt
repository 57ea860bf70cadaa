//! The units that a key sends.
ghost use Rattle.std.specs.Prelude.{◌≡◌, ℕ, ◌≤◌, ◌==◌, option_to_list};
ghost use Rattle.con_vtin.specs.Sequences as spec;
ghost use Rattle.con_vtin.specs.Words.Sequences as spec_words;

use con_records::Key;

/// The units that a key sends, and zeros behind them.
#[derive(Clone, Copy, PartialEq, Eq)]
pub struct Sequence {
    /// How many units there are: 0 to 7.
    pub count: u8,
    /// The units, and zeros.
    pub units: [u16; 8],
}

/// Where in the table a key without a unit stands.
#[derive(Clone, Copy, PartialEq, Eq)]
pub enum Row {
    /// One of the six keys whose letter this is.
    Letter(u8),
    /// F1 to F4.
    First(u8),
    /// A key of one digit.
    Page(u8),
    /// F5 to F12, of two digits.
    Function(u8, u8),
}

// VK_UP, VK_DOWN, VK_RIGHT, VK_LEFT, VK_HOME, VK_END.
fn arrow_row(vk: u16) -> Option<Row>
    ensures { result ≡ spec.arrow_row vk }
{
    match vk {
        0x26 => Some(Row::Letter(0x41)),
        0x28 => Some(Row::Letter(0x42)),
        0x27 => Some(Row::Letter(0x43)),
        0x25 => Some(Row::Letter(0x44)),
        0x24 => Some(Row::Letter(0x48)),
        0x23 => Some(Row::Letter(0x46)),
        _ => None,
    }
}

// VK_INSERT, VK_DELETE, VK_PRIOR, VK_NEXT.
fn page_row(vk: u16) -> Option<Row>
    ensures { result ≡ spec.page_row vk }
{
    match vk {
        0x2D => Some(Row::Page(0x32)),
        0x2E => Some(Row::Page(0x33)),
        0x21 => Some(Row::Page(0x35)),
        0x22 => Some(Row::Page(0x36)),
        _ => None,
    }
}

// VK_F1 to VK_F12.
fn function_row(vk: u16) -> Option<Row>
    ensures { result ≡ spec.function_row vk }
{
    if 0x70 <= vk && vk <= 0x73 {
        Some(Row::First((vk - 0x20) as u8))
    } else if vk == 0x74 {
        Some(Row::Function(0x31, 0x35))
    } else if 0x75 <= vk && vk <= 0x77 {
        Some(Row::Function(0x31, (vk - 0x3E) as u8))
    } else if 0x78 <= vk && vk <= 0x79 {
        Some(Row::Function(0x32, (vk - 0x48) as u8))
    } else if 0x7A <= vk && vk <= 0x7B {
        Some(Row::Function(0x32, (vk - 0x47) as u8))
    } else {
        None
    }
}

fn row_of(key: Key) -> Option<Row>
    ensures { result ≡ spec.row_of key }
{
    if key.unit != 0 {
        return None;
    }
    match arrow_row(key.vk) {
        Some(row) => Some(row),
        None => match page_row(key.vk) {
            Some(row) => Some(row),
            None => function_row(key.vk),
        },
    }
}

fn alt_in(state: u32) -> u32
    ensures value { result ≡ spec.alt_in state }
    ensures small { result ≤ 1 }
{
    state / 0x02 % 2
}

fn ctrl_in(state: u32) -> u32
    ensures value { result ≡ spec.ctrl_in state }
    ensures small { result ≤ 1 }
{
    state / 0x08 % 2
}

fn modifier_of(state: u32) -> u16
    ensures value { result ≡ spec.modifier_of state }
    ensures small { result ≤ 0x38 }
{
    let shift = state / 0x10 % 2;
    (0x31 + shift + 2 * alt_in(state) + 4 * ctrl_in(state)) as u16
}

fn plain_row(row: Row, cursor_keys: bool) -> Sequence
    ensures units { result ≡ spec_words.padded (spec.plain_row row cursor_keys) }
    ensures few { result.count ≤ 7 }
{
    match row {
        Row::Letter(last) => {
            let opener = if cursor_keys { 0x4F } else { 0x5B };
            Sequence {
                count: 3,
                units: [0x1B, opener, last as u16, 0, 0, 0, 0, 0],
            }
        }
        Row::First(last) => Sequence {
            count: 3,
            units: [0x1B, 0x4F, last as u16, 0, 0, 0, 0, 0],
        },
        Row::Page(digit) => Sequence {
            count: 4,
            units: [0x1B, 0x5B, digit as u16, 0x7E, 0, 0, 0, 0],
        },
        Row::Function(tens, ones) => Sequence {
            count: 5,
            units: [0x1B, 0x5B, tens as u16, ones as u16, 0x7E, 0, 0, 0],
        },
    }
}

fn modified_row(row: Row, modifier: u16) -> Sequence
    ensures units { result ≡ spec_words.padded (spec.modified_row row modifier) }
    ensures few { result.count ≤ 7 }
{
    match row {
        Row::Letter(last) => Sequence {
            count: 6,
            units: [0x1B, 0x5B, 0x31, 0x3B, modifier, last as u16, 0, 0],
        },
        Row::First(last) => Sequence {
            count: 6,
            units: [0x1B, 0x5B, 0x31, 0x3B, modifier, last as u16, 0, 0],
        },
        Row::Page(digit) => Sequence {
            count: 6,
            units: [0x1B, 0x5B, digit as u16, 0x3B, modifier, 0x7E, 0, 0],
        },
        Row::Function(tens, ones) => Sequence {
            count: 7,
            units: [
                0x1B,
                0x5B,
                tens as u16,
                ones as u16,
                0x3B,
                modifier,
                0x7E,
                0,
            ],
        },
    }
}

// The one unit of a key of no row, without alt.
fn own_unit(key: Key) -> Option<u16>
    ensures { option_to_list result ≡ spec.own_units key }
{
    if key.vk == 0x08 {
        if ctrl_in(key.state) == 1 {
            Some(0x08)
        } else {
            Some(0x7F)
        }
    } else if key.vk == 0 && key.unit == 0 {
        None
    } else {
        Some(key.unit)
    }
}

fn own_sequence(key: Key) -> Sequence
    ensures units { result ≡ spec_words.padded (spec.escaped (spec.alt_in key.state == 1) (spec.own_units key)) }
    ensures few { result.count ≤ 7 }
{
    match own_unit(key) {
        None => Sequence {
            count: 0,
            units: [0; 8],
        },
        Some(unit) => if alt_in(key.state) == 1 {
            Sequence {
                count: 2,
                units: [0x1B, unit, 0, 0, 0, 0, 0, 0],
            }
        } else {
            Sequence {
                count: 1,
                units: [unit, 0, 0, 0, 0, 0, 0, 0],
            }
        },
    }
}

/// The units that a key sends to a program that reads virtual terminal input, by whether cursor keys are in
/// application mode.
pub fn sequence_of(key: Key, cursor_keys: bool) -> Sequence
    ensures units { result ≡ spec_words.padded (spec.key_units key cursor_keys) }
    ensures few { result.count ≤ 7 }
{
    match row_of(key) {
        None => own_sequence(key),
        Some(row) => {
            let modifier = modifier_of(key.state);
            if modifier == 0x31 {
                plain_row(row, cursor_keys)
            } else {
                modified_row(row, modifier)
            }
        }
    }
}
