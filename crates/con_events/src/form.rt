//! What a call or another event is answered with.

/// What an event is answered with, where it is not refused.
#[derive(Clone, Copy, Drop)]
pub enum Form {
    /// Nothing but that it is done.
    Nothing,
    /// A number.
    Number,
    /// So many numbers.
    Fields(u8),
    /// A number, and whether something is so.
    NumberAndFlag,
    /// The four sides of a rectangle.
    Sides,
    /// Any count of numbers.
    Ids,
    /// A text, or words.
    Units,
    /// Records.
    Records,
    /// The sides of a rectangle and its cells.
    Cells,
    /// Texts.
    Lines,
    /// What a wait gives: a text or records.
    Wait,
    /// A control event.
    Control,
}
