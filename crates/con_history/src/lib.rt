//! The lines that were read, by program.
//!
//! [`Histories`] keeps for each program the lines that were typed at its prompts, oldest first, and the programs in
//! order of use. Contracts see a `LineHistories`: the programs' `ProgramLines`, least recently used first, and the
//! settings (how many lines a history has at most, how many histories there are at most, and whether a new line
//! drops its equals).
//!
//! - [`Histories::use_of`] makes a program's history the most recently used one, and makes it where there is none.
//! - [`Histories::add`] puts a line last, [`Histories::search`] looks for one by its beginning,
//!   [`Histories::count`] and [`Histories::at`] list them, [`Histories::clear`] empties a history.
//! - [`Histories::configure`] changes the settings, and drops what no longer fits.
//!
//! Memory is taken by `new` and in the two calls that make room, [`Histories::use_room`] and
//! [`Histories::configure_room`]; they change nothing else. Programs are told apart exactly, unit by unit.
//! Nothing here knows what a line means, who types it, or which key asks for it.
#![tactic(auto)]

mod histories;
mod history;
mod info;
mod kept;
mod room;

pub use histories::Histories;
pub use info::HistoryInfo;
pub use room::{ConfigRoom, HistoryRoom};
