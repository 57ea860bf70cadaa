//! Which record is which key.
ghost use Rattle.std.specs.Prelude.{◌≡◌};
ghost use Rattle.con_cooked.specs.Keys.{key_of};
ghost use Rattle.con_cooked.specs.Parts.{arrow_of, page_of, edit_of, code_of, key_in, is_typed};
ghost use Rattle.con_cooked.specs.Cooked.{is_return};

use con_records::{Key, Record};

/// A key of an edited line, before the history is asked.
#[derive(Clone, Copy, PartialEq, Eq)]
pub enum LineKey {
    /// A unit.
    Unit(u16),
    /// Ends the line.
    Return,
    Back,
    Delete,
    Escape,
    Left,
    Right,
    WordLeft,
    WordRight,
    Home,
    End,
    Insert,
    /// An older line of the history.
    Up,
    /// A newer one.
    Down,
    /// The oldest.
    PageUp,
    /// The newest.
    PageDown,
    /// The rest of the newest.
    Rest,
    /// One that begins as the text does.
    Search,
    Nothing,
}

// VK_INSERT, VK_DELETE, VK_F3, VK_F8.
fn edit_code(vk: u16) -> LineKey
    ensures { result ≡ edit_of vk }
{
    match vk {
        0x2D => LineKey::Insert,
        0x2E => LineKey::Delete,
        0x72 => LineKey::Rest,
        0x77 => LineKey::Search,
        _ => LineKey::Nothing,
    }
}

// VK_PRIOR, VK_NEXT, VK_END, VK_HOME.
fn page_code(vk: u16) -> LineKey
    ensures { result ≡ page_of vk }
{
    match vk {
        0x21 => LineKey::PageUp,
        0x22 => LineKey::PageDown,
        0x23 => LineKey::End,
        0x24 => LineKey::Home,
        _ => edit_code(vk),
    }
}

// VK_LEFT, VK_UP, VK_RIGHT, VK_DOWN.
fn arrow_code(vk: u16, ctrl: bool) -> LineKey
    ensures { result ≡ arrow_of vk ctrl }
{
    match vk {
        0x25 => if ctrl {
            LineKey::WordLeft
        } else {
            LineKey::Left
        },
        0x26 => LineKey::Up,
        0x27 => if ctrl {
            LineKey::WordRight
        } else {
            LineKey::Right
        },
        0x28 => LineKey::Down,
        _ => page_code(vk),
    }
}

// Return, back, escape, or a key by its code.
fn code(vk: u16, unit: u16, ctrl: bool) -> LineKey
    ensures { result ≡ code_of vk unit ctrl }
{
    if unit == 0x0D || vk == 0x0D {
        LineKey::Return
    } else if vk == 0x08 || unit == 0x08 {
        LineKey::Back
    } else if vk == 0x1B {
        LineKey::Escape
    } else {
        arrow_code(vk, ctrl)
    }
}

fn is_typed(unit: u16) -> bool
    ensures { result ≡ is_typed unit }
{
    0x20 <= unit && (unit < 0x7F || 0x9F < unit)
}

/// The key that a key-down is.
fn key(pressed: &Key) -> LineKey
    ensures { result ≡ key_in pressed.now }
{
    if !pressed.down {
        LineKey::Nothing
    } else if is_typed(pressed.unit) {
        LineKey::Unit(pressed.unit)
    } else {
        code(pressed.vk, pressed.unit, pressed.state & 8 != 0)
    }
}

/// The key that a record is; only key-downs act.
#[tactic(auto, using(crate::proofs::Table::key_read))]
pub fn read_key(pressed: &Record) -> LineKey
    ensures { result ≡ key_of pressed.now }
{
    match pressed {
        Record::Key(down) => key(down),
        Record::Mouse(_) => LineKey::Nothing,
        Record::Size(_) => LineKey::Nothing,
        Record::Menu(_) => LineKey::Nothing,
        Record::Focus(_) => LineKey::Nothing,
    }
}

/// Whether a key is return.
pub fn is_return(key: LineKey) -> bool
    ensures { result ≡ is_return key }
{
    match key {
        LineKey::Return => true,
        _ => false,
    }
}
