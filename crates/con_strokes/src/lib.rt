//! What a painter sends, piece by piece, each with what it does to a terminal that is between sequences.
//!
//! Each call that appends bytes says where they lead every page of the specified terminal, and how many cells they print
//! or erase (`specs/Leads`); these compose.
//!
//! - [`emit`]: single controls and control sequences, and a unit.
//! - [`pen`]: the shortest sequence that makes the pen of one attribute that of another.
//! - [`spot`]: where the cursor stands, as far as it is known, and the way to another place.
//! - [`cells`]: a cell that is printed; whether cells are the same.
//! - [`width`]: units on whose width terminals agree.
//! - [`checksum`]: a number for a row's cells, by which rows that differ are told apart.
//!
//! In `specs/`, `Ink` is the pen of an attribute, and `Compared` says which rows differ and which are lifted.
//!
//! Never promised: which bytes are written, and that they are the fewest.
#![tactic(auto)]

pub mod cells;
pub mod checksum;
pub mod emit;
pub mod pen;
pub mod spot;
pub mod width;
