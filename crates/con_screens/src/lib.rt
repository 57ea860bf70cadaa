//! The screen buffers of a console: which are live, which is active, the alternate screen of each, and what shows.
//!
//! Contracts see [`Screens`] as a `Buffers` (`specs/Buffers.antt`): the live buffers by their ids, the window's sides, the
//! active id, and the number that the next buffer gets. A buffer (`specs/Buffer.antt`) has two screens of the window's
//! size, of which one is shown; every call on it acts on the shown one.
//!
//! - [`Screens::create_room`] takes the memory of a buffer, and [`Screens::create`] makes it under the least free id:
//!   `Limit` exactly where eight are live. [`Screens::retain_handle`] and [`Screens::release_handle`] count handles; the
//!   last one released takes the buffer away. The main buffer has the id 0, is always there, and is not counted.
//! - [`Screens::birth`] tells buffers apart that had the same id one after the other.
//! - [`Screens::write`] goes on with the other screen where a text switches (the private mode 1049 of xterm);
//!   [`Screens::alternate_on`] and [`Screens::alternate_off`] switch by themselves.
//! - [`Screens::resize_room`] takes the memory of a resize of the window, and [`Screens::resize_all`] does it
//!   (`specs/Resize.antt`).
//! - [`Screens::view`] is the window of the active buffer (`specs/View.antt`); [`Screens::renewed`] makes it of the view that was known last.
//!
//! Every call needs buffers within their bounds (`AreBuffers`) and leaves such; [`Screens::screen_mut`] lends a screen
//! that must keep its window's size, and [`is_kept_when_lent`] says that one with the same sides leaves such buffers too.
//! [`is_counted`], [`is_written_in_turn`] and [`is_seen_by_rows`] are the laws of handles, of texts in parts and of the
//! rows of a view. Only `new`, `create_room` and `resize_room` take memory. Handles are counted here, not named: who
//! holds them is another crate's.
#![tactic(auto)]

mod buffer;
mod fits;
mod laws;
mod resize;
mod room;
mod screens;
mod shows;
mod slot;
mod view;

pub use fits::AllFits;
pub use laws::{
    is_counted, is_kept_when_lent, is_known_when_numbered, is_seen_by_rows, is_written_in_turn,
};
pub use room::NewBuffer;
pub use screens::Screens;
