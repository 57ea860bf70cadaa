//! Handlers of control events, and the chain in which a process asks them.
//!
//! A handler is whatever implements [`CtrlHandler`]. Contracts see two meanings of it: what it remembers, which is how often it
//! was asked, the last event and its kind, and what it will answer. A [`Chain`] is the list of the boxes that were added, oldest first.
//!
//! - [`Chain::deliver`] asks from the newest down to the first that answers true.
//! - [`Chain::remove`] drops a handler; [`Chain::add`] is the only call that takes memory, and hands the box back where there is none.
//! - [`Swallow`], [`Note`], [`Once`] and [`Tally`] are handlers of the kinds 1 to 4.
//!
//! It makes no box, and promises nothing of what a handler does besides its answer.
#![tactic(auto)]

pub mod chain;
pub mod handler;
mod note;
mod once;
mod swallow;
mod tally;

pub use chain::{Chain, Delivered, Unadded};
pub use handler::CtrlHandler;
pub use note::Note;
pub use once::Once;
pub use swallow::Swallow;
pub use tally::Tally;
