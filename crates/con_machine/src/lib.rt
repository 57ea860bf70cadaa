//! The whole console as one machine: an event of an actor is one step, a new console and one reply. con_console enters them.
//!
//! The definitions stand in `specs/`. `State` is the console as contracts see it: lists, numbers and texts, and
//! no room. `Call` is one table of what each call of a client does, with its refusals in one order: 109, 6, 5, 87, 31, 1816;
//! what several rows say stands in `Outcome` and in the file of their group (`HandleCalls`, `ScreenCalls`, `CellCalls`,
//! `ProcessCalls`). Each row has a name, for the contract of the method that does it, in the file of the same name in `specs/Words/`, or in
//! `InputCalls` or `LineCalls`.
//! `Reads` has a client's waits, `Serving` what open reads do with the records that are there and what shows of it, `Terminal`
//! what comes from the terminal's side, `Closing` and `Signals` how reads end early, and `Painting` what is painted and when.
//! `Step` joins them: `step`, and `is_ready`, which says when an event may be entered; `History` runs a list of entries.
//!
//! In `src/`, [`Parts`] is the console, `calls` has a client's calls, a file for each group, and what they do to buffers; `reads` a read from its
//! beginning until it is collected; `painting` when a Paint is due and what it shows; `terminal` what comes from the terminal's side; `rooms` the memory
//! that events take.
//!
//! Never promised: that a client that waits is ever answered, and which actor comes first.
#![tactic(auto)]

mod calls;
mod clients;
mod closing;
mod exits;
mod painting;
mod parts;
mod reads;
mod ready;
mod rooms;
mod starting;
mod terminal;
mod title;
pub mod view_laws;

pub use painting::seen::Seen;
pub use parts::Parts;
pub use reads::noted::Noted;
pub use reads::notes::Notes;
pub use reads::rest::Rest;
pub use reads::rests::Rests;
pub use ready::is_size;
pub use rooms::call_room::CallRoom;
pub use rooms::client_room::ClientRoom;
pub use rooms::paint_room::PaintRoom;
pub use rooms::read_room::{Beginning, LineRoom};
pub use rooms::rect_room::RectRoom;
pub use rooms::room::Room;
pub use rooms::terminal_room::SideRoom;
pub use title::Title;
