//! The report of a session that ran: the lines of its history, its last line, and the status that goes with them.
//!
//! - [`write_report`] writes a line for each event and its reply, with the stream's length after each picture, and then a last line.
//! - [`last_of`] is the last line of a session that ended so, [`mirror_last_of`] that of one with a second terminal, which may have failed.
//! - [`status_by`] is the status of a session whose report was written so.
//!
//! In `specs/`, `Telling` has a report as far as it is told, and how a session's end is told; `Laws` is for the crates above.
//!
//! Never promised: that there is memory for a line.
#![tactic(auto)]

pub mod last;
pub mod telling;

pub use last::{last_of, mirror_last_of, status_by};
pub use telling::write_report;
