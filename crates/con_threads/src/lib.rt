//! The threads of a session, what each of them does in a turn, and what it promises: each client, the terminal's side, the painter and the writer
//! has one of its own.
//!
//! - A [`Ledger`] is a console with the replies that it gave, as a book keeps it: one lock, one history.
//! - A [`Scribe`] enters the events of one actor there, and knows what it has seen of the history.
//! - A [`ClientThread`] takes a turn of its script, a [`SideThread`] enters what it read of the link by [`pass_on`], a [`PainterThread`] makes
//!   a frame of a Paint outside the lock, and a [`WriterThread`] writes a piece.
//!
//! Their [`Signals`] tell when all are made, before which none begins: where one cannot be made, which is want of memory, all return. That
//! nothing was entered, read or written then is no clause.
//!
//! con_run makes them, has each take its turns until it returns, beside the others, and makes an outcome of what they leave.
//!
//! Never promised: that a thread gets its turn, how long it waits, and that two of them ran at once.
#![tactic(auto)]

mod client;
mod ledger;
mod listing;
mod painter;
mod post;
mod scribe;
mod side;
mod signals;
mod writer;

pub use client::ClientThread;
pub use ledger::{Ledger, LedgerView, Told};
pub use painter::PainterThread;
pub use scribe::Scribe;
pub use side::{SideThread, pass_on};
pub use signals::Signals;
pub use writer::WriterThread;
