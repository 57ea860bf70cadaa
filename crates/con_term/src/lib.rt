//! The specified terminal: it plays bytes on a grid of cells, and tells what it shows.
//!
//! - [`Terminal`]: contracts see its page, the bytes that are no character yet and the units that are no item yet.
//!   [`Terminal::play`] and [`Terminal::play_all`] give what the definition gives for the whole bytes, however they are cut;
//!   [`Terminal::view`] and [`Terminal::page`] tell what it shows.
//! - `page`, `block`, `sheet`, `cells`, `ends`, `front`: its page, the block of its cells, the sheet behind it, changes of cells, line feeds and
//!   carriage returns in a row, and a character of several bytes.
//!
//! `new` and `resize` take memory, and nothing else does. A terminal never answers, and never writes.
#![tactic(auto)]

pub mod block;
pub mod cells;
pub mod ends;
pub mod front;
pub mod page;
pub mod sheet;
pub mod terminal;

pub use terminal::Terminal;
