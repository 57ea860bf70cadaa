//! What a terminal tells of the mouse: the reports of xterm's SGR mouse mode, and the mouse records that are made of them.
//!
//! - [`report_of`] reads a report from the bytes of a control sequence: ESC `[<`, three decimal numbers with `;` between, and
//!   `M` where a button went down or the mouse moved, or `m` where a button went up.
//! - [`Buttons`] are those that are held. [`Buttons::press`] makes the record of a report, by one table.
//!
//! The forms are those of "Xterm Control Sequences", "Extended coordinates", SGR (1006); the records are those of
//! `MOUSE_EVENT_RECORD` of the Console API documentation. In `specs/`, `Reports` has the reports and `Presses` the table.
//! No call takes memory.
//!
//! Never promised: that a terminal sends reports, or which ones. It is asked for none here.
#![tactic(auto)]

pub mod buttons;
mod numbers;
pub mod report;

pub use buttons::Buttons;
pub use report::{Report, report_of};
