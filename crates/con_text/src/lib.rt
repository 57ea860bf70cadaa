//! The forms that take the link's bytes as they are: a text that is shown as one frame, and bytes that are played on the specified terminal.
//!
//! - [`host_type`]: reads the link to its end as UTF-8 text, writes it on one screen of 80 by 25 where virtual terminal sequences act, and writes one
//!   frame that shows it to the terminal;
//! - [`host_play`]: plays the link's bytes on the specified terminal of a size, and writes its dump to the report.
//!
//! Memory does not grow with the link: a piece of 4,096 bytes is read, heard and forgotten ([`read_link`]).
//!
//! Never promised: that memory is there, and that a read of the link returns.
#![tactic(auto)]

pub mod framing;
pub mod playing;
pub mod reading;
pub mod text;
pub mod typing;

pub use playing::{dumped, host_play};
pub use reading::read_link;
pub use typing::host_type;
