//! One screen, and what a text does to it.
//!
//! Contracts see a [`Screen`] as a page (con_page) and its unfinished text, of which the code keeps no unit but those of a title.
//!
//! - con_page's `specs/Effect.antt` says what each item of a text does; `specs/Written.antt` what a text does: its items, one
//!   after the other.
//! - [`Screen::write`] is that, however a text is cut, up to a switch of the alternate screen; what a text tells
//!   besides (reports, a title, the cursor key mode, the switch) goes to [`Answers`], which have their room beforehand.
//! - [`Screen::set_cursor`], [`Screen::set_window_origin`], [`Screen::set_attr`], [`Screen::set_mode`],
//!   [`Screen::set_cursor_info`] set a part; [`Screen::info`] tells what there is to know; [`Screen::grid`] and
//!   [`Screen::grid_mut`] lend the cells.
//! - [`Screen::echo`] and [`Screen::echo_end`] show a line that is edited, which begins at an `Origin`
//!   (`specs/Echo.antt`).
//! - [`Screen::fit`] takes the memory of a resize, and [`Screen::resize`] does it.
//!
//! Every call needs a page within its bounds (`IsPage`) and leaves one. Only `new`, `fit`, and of [`Answers`] `room`,
//! `reserve` and `clear` take memory. Nothing is said of how the cells look on a terminal.
#![tactic(auto)]

pub mod answers;
pub mod screen;
mod write;

pub use answers::Answers;
pub use screen::{
    Screen, is_echoed_by_part, is_laid_row_by_row, is_switched_whole, is_told_within,
    is_written_whole,
};
