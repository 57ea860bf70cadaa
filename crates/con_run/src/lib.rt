//! A session by threads, from its beginning to its outcome. The threads are con_threads', with what each does in a turn.
//!
//! [`run_session`] makes all of them, each with a pass of one book, lets them run beside each other, each turn by turn until it returns (`work`),
//! takes their passes together once all have returned, paints what is still due, closes the book and leaves an `Outcome`, as a session by turns
//! does.
//!
//! Where a thread cannot be made, which is want of memory, all return. That nothing was entered, read or written then is no clause.
//!
//! Never promised: that a thread gets its turn, how long it waits, and that two of them ran at once.
#![tactic(auto)]

mod abreast;
mod close;
mod closing;
mod crew;
mod edges;
mod gather;
mod paired;
mod run;
mod session;
mod work;

pub use session::run_session;
