//! The painter: bytes that bring a terminal to the next view.
//!
//! A [`Painter`] keeps the view that it painted last, and writes what differs: the spans of cells in rows that changed,
//! rows that were lifted by one sequence, rows that became blank by another, the cursor where it has to move. Contracts
//! see it as what it keeps (`specs/Painter`, `Kept`).
//!
//! - [`Painter::paint`] appends a frame. One clause says of every terminal that the painter allows: the bytes bring it to
//!   one that shows the view and that the painter allows again, and print or erase few cells; a view that was painted
//!   last gives no byte. It takes no memory.
//! - [`Painter::resize`] forgets the last view: the next frame is a whole one, as the first.
//! - [`room_for`]: the spare that a frame may need.
//!
//! Never promised: which bytes are written, and that they are the fewest.
#![tactic(auto)]

pub mod columns;
pub mod frame;
pub mod lift;
pub mod painter;
pub mod rows;
pub mod span;

pub use painter::{Painter, room_for};
