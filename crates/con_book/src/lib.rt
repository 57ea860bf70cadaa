//! One lock over a machine, and one history of what was done to it.
//!
//! - [`Machine`]: what a book keeps. It takes one event after another; its `prepare` takes all memory, its `apply` none.
//! - [`Book`] and [`Pass`]: threads share a book by reference, and each takes turns with a pass of its own. One turn is
//!   one event. [`Opened`] and [`Closed`]: what a book begins with, and what it leaves.
//! - [`Logged`]: an entry of the history.
//! - [`EntryRoom`]: room for what the entries of the log become, got while it grows.
//! - [`Bell`]: lets threads sleep until there may be something to do.
//! - [`counter`]: a small machine. [`laws`]: what follows from the definitions.
//!
//! Contracts see a pass as what it knows, [`PassView`](view::PassView): the entries that it has seen, which begin the history, and its
//! own events. `specs/Passes` reads a pass, `specs/Turn` says what a turn does to one, and `specs/History` what a list of
//! entries means. A turn adds entries of other actors, and then the caller's; its reply is the machine's at that
//! place. At [`Book::close`] the log is one legal history, in which each actor's entries are its pass's own.
//!
//! Inside, a book is a ticket lock: `specs/Lock` has its rule, and `specs/Plays` what each kind of step tells. A thread
//! that waits with a ticket looks a few times, then lets others run, and then sleeps until another turn is served. One that finds a ticket out
//! waits at a door, a mutex of std, before it draws its own, so that few wait with a ticket, and the others sleep.
//!
//! Never promised: that a thread gets its turn, how long it waits, and what a bell does.
#![tactic(auto)]

pub mod bell;
pub mod book;
pub mod counter;
pub mod ends;
pub mod history;
mod kept;
pub mod laws;
pub mod machine;
pub mod pass;
mod plays;
pub mod room;
pub mod view;

pub use bell::Bell;
pub use book::Book;
pub use ends::{Closed, Opened};
pub use history::Logged;
pub use machine::Machine;
pub use pass::Pass;
pub use room::{Counted, EntryRoom, OfLogged};
