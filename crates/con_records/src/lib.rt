//! The queue of input records.
//!
//! A [`Record`] is one thing that happened to the console's input: a key pressed or released, the mouse, a
//! new size of the window, a menu command, or the focus gained or lost, with the fields of the Console API
//! documentation's `INPUT_RECORD`.
//!
//! [`Records`] is the queue. Contracts see it as a `Queue`: the list of records in order of arrival, and
//! `spare`, how many more are promised to fit. [`Records::reserve`] is the one call that takes memory;
//! [`Records::append_reserved`] and [`Records::write`] put records last within that promise, and
//! [`Records::take`], [`Records::pop`] and [`Records::flush`] remove them from the front, each in the time of what it
//! removes. [`Records::peek`] copies and removes nothing. [`Taken`] is a list of records on its own, as an event or a
//! reply carries it; contracts see it as that list.
//!
//! Nothing is promised of how much memory the queue holds beyond `spare`, nor that it ever gives any back.
#![tactic(auto)]

pub mod record;
pub mod records;
pub mod taken;

pub use record::{Key, Mouse, Record};
pub use records::Records;
pub use taken::Taken;
