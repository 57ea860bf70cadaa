//! What every crate of the console speaks of.
//!
//! - [`Attr`] and [`Cell`]: an attribute word with the bits of 0xC0FF alone, and a cell that shows a unit of one column.
//!   Every unit reaches a cell through [`stored`], and every word through [`Attr::of`].
//! - [`Coord`], [`Rect`], [`Size`], [`clip`]: places count from 0, x (the column) then y (the row).
//! - [`Units`], [`Bytes`], [`Rows`], [`Marks`]: lists; contracts see what they hold, never their room.
//! - [`View`], [`Sight`], [`Frame`], [`FrameFault`], [`BufferId`], [`Code`], [`OutOfMemory`]: words that crates pass on.
//! - [`Utf8`]: a decoder of UTF-8 that is fed byte by byte. Contracts see the bytes that it holds.
//! - [`limits`]: the greatest sizes and numbers that the console takes, for the code and, in `specs/Limits`, for contracts.
//! - [`Past`]: a list that exists in proofs alone.
//!
//! In `specs/`, `Split` says how any text falls into sequences, whatever the sequences are, and `SplitLaws` that this
//! does not depend on how the text is cut.
//!
//! Only `copied` takes memory. Nothing here says what a unit's glyph looks like.
#![tactic(auto)]

pub mod attr;
pub mod cell;
pub mod code;
pub mod limits;
pub mod lists;
pub mod past;
pub mod place;
pub mod shade;
pub mod utf8;
pub mod view;

pub use attr::Attr;
pub use cell::{Cell, stored};
pub use code::{Code, OutOfMemory};
pub use lists::{Bytes, Marks, Rows, Units};
pub use past::Past;
pub use place::{Coord, Rect, Size, clip, index_of};
pub use shade::{Shade, is_near_by_parts, near};
pub use utf8::{Decoded, Utf8, is_inverse_of_encoding, is_read_by_cases, is_read_however_cut};
pub use view::{BufferId, Frame, FrameFault, Sight, View};
