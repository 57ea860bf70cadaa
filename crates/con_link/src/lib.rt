//! Frames of a link, by which a terminal sends its input.
//!
//! A frame is spelled by its bytes, numbers with the high byte first: `B` (0x42), a length of 2 bytes from 1 to 4,096 and
//! that many bytes; `Q` (0x51), nothing more was typed for a while; `R` (0x52), a width of 1 to 512 and a height of 1 to
//! 256, 2 bytes each; `P` (0x50) asks for a frame of output; `X` (0x58) hangs up. This format is this project's own.
//!
//! A link may have a second terminal: then there are `A` (0x41), with a width and a height as `R` has them, by which it
//! attaches, and `D` (0x44), by which it detaches. Elsewhere both are faults of kind Tag.
//!
//! A [`LinkReader`] reads a link's frames one after another. Contracts see it as the number of bytes that it has taken.
//! [`LinkReader::next`] takes the bytes of the frame that it answers and none past it, or the bytes up to the one that
//! shows a fault and none past that. It answers `TooLong` where it took one byte more than 16,777,216 in all. What it
//! answers, and how much it takes, the place and the bytes still to come determine ([`one_answer`]), but for a failed
//! source and want of memory. [`LinkReader::next_mirrored`] does the same over a link with a second terminal
//! ([`one_mirror_answer`]). [`all_frames`] reads a whole link without one.
//!
//! Never promised: what a real link holds, that a read returns, how many calls of its source a frame takes, and any
//! further answer after a fault but that no byte is taken twice.
#![tactic(auto)]

pub mod all;
pub mod fault;
pub mod fill;
pub mod laws;
pub mod mirror;
pub mod reader;

pub use all::all_frames;
pub use con_units::{Frame, FrameFault};
pub use fault::LinkFault;
pub use laws::{no_frame, one_answer, one_frame, one_mirror_answer, one_mirror_frame};
pub use mirror::MirrorFrame;
pub use reader::LinkReader;
