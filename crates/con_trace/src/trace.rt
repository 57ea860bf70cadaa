//! What a report says.

use con_events::{Entries, PieceEnds, Replies};

/// What a whole report determines: the history, a reply for each entry, the length of the terminal's stream after each picture, and
/// the status.
#[derive(Drop)]
pub struct Trace {
    pub entries: Entries,
    pub replies: Replies,
    pub ends: PieceEnds,
    pub status: u8,
}

/// Why a text was not read.
#[derive(Clone, Copy, Drop)]
pub enum TraceFault {
    /// The first line, from 0, that is none of a report.
    Line(u64),
    /// There was no memory.
    OutOfMemory,
}
