//! A line read with editing.
//!
//! [`Cooked`] takes the records that a line read takes, one by one, and keeps the line that they edit. Contracts see a
//! `CookedRead`: the read's program, its insert flag and its text at the beginning, its mask, and the list of all presses, each with
//! the lines of the program's history at that moment; `line_of` folds the table of keys over that list. The code keeps a buffer with
//! a caret and the recalled place.
//!
//! - [`Cooked::begin`] takes all the memory that the read will ever use.
//! - [`Cooked::press`] applies one record and answers an [`Echo`]: four numbers that tell, with the line's units, what to
//!   draw again. It is done exactly at a key-down of return, and woken exactly at a masked control, which is tried first.
//! - [`Cooked::finish`] adds the line to the history and gives the lines that it stands for, each ended by CR LF. Of a read that
//!   was woken it gives the text with the control where the caret is, and adds nothing.
//!
//! [`laws`] has what follows: what a read without a mask is, and that an echo leaves alone what a line began with.
//!
//! Nothing here knows a screen, or who serves the records.
#![tactic(auto)]

mod cooked;
mod keys;
pub mod laws;
mod mask;
mod moment;
mod progress;
mod recall;

pub use cooked::Cooked;
pub use progress::{Echo, Progress};
