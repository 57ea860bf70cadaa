//! One input record.

use con_units::Size;

/// A key that went down or up, as `KEY_EVENT_RECORD` of the Console API documentation.
#[derive(Clone, Copy, PartialEq, Eq)]
pub struct Key {
    /// Whether the key went down.
    pub down: bool,
    /// How often it repeats, 1 for a key pressed once.
    pub repeat: u16,
    /// The virtual-key code.
    pub vk: u16,
    /// The virtual scan code.
    pub scan: u16,
    /// The UTF-16 unit that the key stands for, 0 for none.
    pub unit: u16,
    /// The control key state: 0x0002 `LEFT_ALT_PRESSED`, 0x0008 `LEFT_CTRL_PRESSED`, 0x0010 `SHIFT_PRESSED`, 0x0100 `ENHANCED_KEY`.
    pub state: u32,
}

/// What the mouse did, as `MOUSE_EVENT_RECORD` of the Console API documentation.
#[derive(Clone, Copy, PartialEq, Eq)]
pub struct Mouse {
    /// The column, from 0.
    pub x: i16,
    /// The row, from 0.
    pub y: i16,
    /// The buttons that are down, a bit each: 1 `FROM_LEFT_1ST_BUTTON_PRESSED`, 2 `RIGHTMOST_BUTTON_PRESSED`, 4
    /// `FROM_LEFT_2ND_BUTTON_PRESSED`; at a wheel its motion in the high half.
    pub buttons: u32,
    /// The control key state, as a key's.
    pub state: u32,
    /// What happened: 1 `MOUSE_MOVED`, 2 `DOUBLE_CLICK`, 4 `MOUSE_WHEELED`, 8 `MOUSE_HWHEELED`, 0 a button.
    pub flags: u32,
}

/// One record of the input queue, as `INPUT_RECORD` of the Console API documentation.
#[derive(Clone, Copy, PartialEq, Eq)]
pub enum Record {
    /// A key went down or up.
    Key(Key),
    /// The mouse moved, or a button of it changed.
    Mouse(Mouse),
    /// The window has this size from now on.
    Size(Size),
    /// A menu command of this number.
    Menu(u32),
    /// The focus was gained (true) or lost.
    Focus(bool),
}
