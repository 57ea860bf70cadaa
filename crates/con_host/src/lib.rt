//! The top call: what the program does with its words, its link, its terminal and its report.
//!
//! [`console_host`] reads the words, and then
//! - `type` and `play`: what [`con_text`] does with the link's bytes;
//! - `run SESSION`, `solo SESSION`, `mirror SESSION` and `gen N`: what [`con_sessions`] does with the session of a file ([`host_run`], [`host_solo`],
//!   [`host_mirror`]) or of a number ([`host_gen`]);
//! - `audit SESSION LINK STREAM REPORT`: what [`con_inspect`] says of four files.
//!
//! Its contract says, for each status that it answers, what was taken from the link, and what the terminals and the
//! report have.
//!
//! Never promised: that memory is there, that a read of the link returns, that `run` does, and that two of its threads run at once.
#![tactic(auto)]

pub mod host;

pub use con_sessions::{host_gen, host_mirror, host_run, host_solo};
pub use host::console_host;
