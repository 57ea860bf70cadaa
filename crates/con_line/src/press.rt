//! The keys that edit a line.

/// A key that edits a line.
#[derive(Clone, Copy, PartialEq, Eq)]
pub enum Press {
    /// Types this unit.
    Unit(u16),
    /// One place to the left.
    Left,
    /// One place to the right.
    Right,
    /// Back over spaces, then over other units.
    WordLeft,
    /// On over other units, then over spaces.
    WordRight,
    /// To the beginning.
    Home,
    /// To the end.
    End,
    /// The unit before the caret goes.
    Back,
    /// The unit at the caret goes.
    Delete,
    /// Turns the insert flag over.
    Insert,
    /// Empties the line.
    Clear,
    /// Makes the text a line of the history, with the caret at its end.
    Recall,
    /// Appends, to the text up to the caret, what the newest line of the history has from there.
    RestOfLast,
    /// Makes the text a line of the history that begins as the text does up to the caret, which stays.
    Match,
    /// Changes nothing.
    Nothing,
}
