//! A mirror: a second terminal of any size, which attaches and detaches, and shows the part of a view round its cursor.
//!
//! [`Mirror::attach`] begins with a terminal of which nothing is known but its size; [`Mirror::paint`] then appends bytes that
//! make it show the part of a view, and [`Mirror::detach`] ends that. The part has the terminal's size. It begins at the view's
//! upper left corner, or, where the cursor shows and stands further right or below, so that the cursor stands in its last
//! column or row. Past the view it has spaces in white on black.
//!
//! In `specs/`, `Part` defines the part, `Mirror` has the words of the contracts over con_paint's, and `PartLaws` says of a part
//! that it is whole and, cell by cell, what it shows ([`is_seen_by_cells`]).
//!
//! Never promised: that a real terminal does what the specified one does, and that a part stays where it was while the cursor moves.
#![tactic(auto)]

pub mod attached;
pub mod laws;
pub mod mirror;
pub mod part;

pub use laws::is_seen_by_cells;
pub use mirror::Mirror;
