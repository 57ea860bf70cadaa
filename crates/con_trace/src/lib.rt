//! Reports: a line for each event of a session with its answer, and a last line that tells the status.
//!
//! [`write_entry`] writes the line of an entry and its reply to any sink, [`write_end`] the last line, and [`write_audit`] the one line
//! that an audit tells. A line is one compact JSON array and a line feed, `[ACTOR,NAME,[ARGUMENTS],REPLY]`; units, words and bytes stand
//! in it as one text of hexadecimal digits. The bytes that were written are exactly `line_text` of `specs/Line`, `ending_text` of
//! `specs/Ending`, or `found_text` of `specs/Audit`; after a refusal a front of them.
//!
//! [`read`] gives back the [`Trace`] that a report determines (`IsReport` of `specs/Report`), and refuses any other text with its first wrong
//! line ([`TraceFault`]). [`report_tells`] is the law that a report determines the history, the replies, the lengths after pictures
//! and the last line, whether or not a console gives these replies; [`none_is_wrong`] that no line of a report is wrong.
//!
//! A [`Line`] is written value by value, in one pass over what is shown, with no tree in between. A line is read by the kit's reader of
//! JSON, told by [`Form`] and the table of con_events, and written again: so it is spelled in one way.
//!
//! Never promised: that memory is there, what a real sink holds, and that a console gives the replies of a report.
#![tactic(auto)]

/// What a call gave. Where it gave a fault, the function ends with that fault, as by `?`, which calls two more functions to convert it, to be
/// proved at each such call.
macro_rules! given {
    ($call:expr) => {
        match $call {
            Ok(value) => value,
            Err(fault) => return Err(fault),
        }
    };
}

pub mod audit;
pub mod ending;
pub mod entry;
pub mod last;
pub mod laws;
pub mod lines;
pub mod reading;
pub mod reply;
pub mod trace;

pub use audit::{AuditLine, write_audit};
pub use con_lines::{EndLine, Line, Said};
pub use ending::write_end;
pub use entry::write_entry;
pub use laws::{none_is_wrong, report_tells};
pub use reading::read;
pub use trace::{Trace, TraceFault};
