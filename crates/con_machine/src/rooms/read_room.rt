//! The memory of a read.

use con_history::HistoryRoom;
use con_readers::OpenRead;
use con_units::Units;

/// The read, room for its program's history, what is left of the handle's rest after it, and room for what its own line leaves.
#[derive(Drop)]
pub struct LineRoom {
    pub(crate) read: OpenRead,
    pub(crate) history: HistoryRoom,
    pub(crate) back: Units,
    pub(crate) rest: Units,
}

/// What a read that begins needs to its end: in line mode, without it, and nothing where it is refused.
#[derive(Drop)]
pub enum Beginning {
    Refused,
    Line(LineRoom),
    Plain(OpenRead),
}
