//! What a turn was.

/// What a thread did in a turn: it entered an event, it has nothing to do yet, or it is gone.
pub enum Moved {
    Entered,
    Waits,
    Gone,
}
