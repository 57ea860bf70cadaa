//! The actors of a session, each with what it keeps between its turns, and the console that they take turns at.
//!
//! - A [`Desk`] is a console with the history of what was entered and how it was answered.
//! - A [`Door`] is a way to a console at which a client has its turns. A desk is one at which nothing is entered in between; at another
//!   one others may enter events there, and a client's turn is the same.
//! - A client's [`Worker`] knows how far it is in its script, and its [`Hands`] hold its chain of handlers and what is left of its rack;
//!   a [`Seat`] holds both. [`leave`], [`collect`] and [`next_step`] are parts of its turn at any door; [`begin`], [`call_plain`],
//!   [`call_add`] and [`call_remove`] are steps by their kinds, and [`must_leave`] and [`is_granted`] what it makes of an answer.
//! - The terminal's [`Side`]: [`event_for`] is what it enters for a frame, with [`ends_the_link`] and [`end_by_fault`].
//! - The painter's [`Canvas`]: [`frame_length`] and [`end_after`] tell where its frames end.
//! - The [`Second`] terminal has a mirror, which attends to the frames of the link ([`attend`]); [`draw_part`] makes the frame of its part of a view.
//!
//! A [`Stage`] has the desk, the terminal's side and the canvas. A session begins by [`begun`] and leaves an [`Outcome`] ([`left_by`]), with a second
//! terminal a [`Mirrored`] ([`left_with`]); [`end_by`] says why it ended.
//!
//! The words of turns, of rounds and of what a session leaves stand in `specs/`, with the laws of these words, for whoever lets the
//! actors have their turns: con_session by rounds, con_threads each in a thread of its own.
//!
//! Where there is no memory a part of a turn entered nothing, or one event that it may, and says so.
#![tactic(auto)]

mod canvas;
mod desk;
mod door;
mod hands;
mod mirrored;
mod outcome;
mod seat;
mod second;
mod side;
mod stage;
mod step;
mod worker;

pub use canvas::{Canvas, end_after, frame_length};
pub use desk::{Brief, Desk, Picture, as_listed, brief_for};
pub use door::Door;
pub use hands::Hands;
pub use mirrored::{Mirrored, left_with};
pub use outcome::{Outcome, end_by, left_by, nothing_left};
pub use seat::Seat;
pub use second::{Second, as_plain_read, attend, attended, draw_part, none_attached};
pub use side::{Side, end_by_fault, ends_the_link, event_for};
pub use stage::{Stage, begun};
pub use step::{begin, call_add, call_plain, call_remove, next_step};
pub use worker::{CTRL_EXIT, Worker, collect, is_granted, leave, must_leave};
