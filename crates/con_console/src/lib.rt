//! The console that actors share: when an event of an actor may be entered, the memory that it takes, and its entry.
//!
//! A [`Console`] is con_machine's [`Parts`](con_machine::Parts), in which each event has its effect, and whose `State` and `step` contracts speak of. In
//! `ready` stands when an event may be entered, in `entering` the way of an event from its memory to its reply, in `clients` what an attached client's event
//! does, and in `play` a history that is entered in order. `machine` is the console in a book of turns.
//!
//! Never promised: that a client that waits is ever answered, and which actor comes first.
#![tactic(auto)]

mod clients;
mod console;
mod entering;
mod machine;
mod play;
mod ready;
mod shown;

pub use console::Console;
pub use shown::Shown;
