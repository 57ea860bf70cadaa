//! Pieces of bytes that one thread puts and another takes, in order.
//!
//! - [`pipe`]: makes the two [`PipeEnds`] of a pipe, with room for some pieces.
//! - [`PipeIn`]: puts pieces, and at last the end mark. [`PipeOut`]: takes them, and `None` once it took the end mark.
//! - [`meet`]: compares the two ends, once one thread has both again.
//!
//! Contracts see a [`PipeIn`] as the pieces that it put and whether it is finished, and a [`PipeOut`] as the pieces that it
//! took and whether it took the end mark, and both as the room that they were made with (`specs/PipeEnds`). What was taken is a
//! beginning of what was put, and all of it once the end mark was taken.
//!
//! A thread that waits for room or for a piece looks a few times, then lets others run, and then sleeps until the other
//! end has done something. Only [`pipe`] takes memory.
//!
//! Never promised: that there is room or a piece ever, and how long one waits for it.
#![tactic(auto)]

mod ends;
mod put;
mod signal;
mod take;

pub use ends::{PipeEnds, meet, pipe};
pub use put::PipeIn;
pub use take::PipeOut;
