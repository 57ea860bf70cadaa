//! Texts of UTF-16 code units: of what a terminal shows, and of bytes.
//!
//! - [`dump`]: the text that tells what a terminal shows.
//! - [`decode`]: the units that bytes complete, for who has a text and no terminal.
//!
//! Only `dump` takes memory.
#![tactic(auto)]

pub mod text;
pub mod units;

pub use text::dump;
pub use units::decode;
