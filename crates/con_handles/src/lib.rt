//! The handles of all processes.
//!
//! A table is a finite map from a process and a number to an object and rights. Contracts see it as the list of its
//! handles in rising order of process and number, and beside it a promised number: for how many handles there is room.
//!
//! - [`Handles::reserve`] makes room, and is the only call that takes memory.
//! - [`Handles::open`] gives the least free number from 1, of at most 64 for each process.
//! - [`Handles::next`] and [`Handles::is_full`] say beforehand what `open` will answer.
//! - [`Handles::look`] says what a handle stands for, in constant time, or why it may not be used.
//! - [`Handles::close`] and [`Handles::take_any`] remove a handle.
//!
//! Every table is rising and has no number twice (`IsTable`), and each call that leaves one says so. [`is_counted`] has the
//! laws of how many handles pass a test, such as those of one object, as handles are opened and closed.
//!
//! It doesn't know what an object is, and releases none: who closes a handle gets its object back.
#![tactic(auto)]

pub mod handle;
pub mod handles;
pub mod laws;
mod places;

pub use handle::{Handle, Held, Kind, Object};
pub use handles::Handles;
pub use laws::is_counted;
