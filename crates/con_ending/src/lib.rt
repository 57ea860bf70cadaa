//! How a call ends: the statuses that every form has, the last line of a report that tells one, and the session of a file, or why there is none.
//!
//! - [`close`] writes a last line alone, and answers its status; [`status_after`] is the status of a call that wrote its report.
//! - [`bytes_of`] reads the file of a name, [`session_in`] the session that bytes are, [`session_of`] both; [`Unrun`] says why there is none.
//!
//! In `specs/`, `Ending` says how a report goes, `Files` what a file is, the reasons for which there is no session, and how a call of a file ends; `Laws` has
//! the code's own words, and what a write makes of a report.
//!
//! Never promised: that there is memory for a line or a session.
#![tactic(auto)]

pub mod ending;
pub mod file;

pub use ending::{
    DONE, LINK, MEMORY, MIRROR, REPORT, TERMINAL, TOO_LONG, USAGE, close, status_after, status_told,
};
pub use file::{Unrun, bytes_of, session_in, session_of};
