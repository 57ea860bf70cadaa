//! What a press answers.

/// What to draw of a line again: its units from `offset` to `end`, then `blanks` blanks, and the caret.
#[derive(Clone, Copy, PartialEq, Eq)]
pub struct Echo {
    /// The first place, from 0, at which the new line differs from the old one.
    pub offset: u16,
    /// The length of the new line.
    pub end: u16,
    /// How many places behind the new line the old one had.
    pub blanks: u16,
    /// The place of the caret.
    pub caret: u16,
}

/// Whether a read goes on after a press.
#[derive(Clone, Copy, PartialEq, Eq)]
pub enum Progress {
    /// It takes further records.
    Going(Echo),
    /// The return key went down: the line is whole.
    Done(Echo),
    /// A masked control went down: the line is handed over as it stands, and nothing is to be drawn.
    Woken,
}
