//! What a line says.

use con_events::{Entry, Reply};

/// An event, what it was answered, and the length of the terminal's stream after it where it is a picture, else 0.
#[derive(Drop)]
pub struct Said {
    pub entry: Entry,
    pub reply: Reply,
    pub end: u64,
}

/// What one line is.
#[derive(Drop)]
pub enum LineRead {
    /// An event and its answer.
    Event(Said),
    /// The last line, which tells this status.
    End(u8),
    /// None of these.
    Neither,
}
