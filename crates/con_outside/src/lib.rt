//! The outside: what bytes come from, and what they go to.
//!
//! A [`Source`] has bytes still to come, a [`Sink`] has bytes written, and [`Files`] are read by name; an object may leave
//! untold which. Each counts its failures, and that count never falls, so that an answer `Failed` has a cause which the
//! caller can name. A [`Gate`] is called round the steps of scripts.
//!
//! - in memory, told to fail at chosen calls: [`MemorySource`], [`MemorySink`], [`MemoryFiles`];
//! - in memory, with no failure: [`SureSource`], [`SureSink`], [`SureFiles`];
//! - round a reader, a writer and the files of std, whose contents are untold: [`StdSource`], [`StdSink`], [`DiskFiles`], and
//!   [`DiskSink`], which writes one file and makes it at its first write;
//! - a gate that does nothing: [`NoGate`].
//!
//! [`write_whole`] writes all of some bytes, and [`read_whole`] reads all that a source has left.
//!
//! In `specs/`, `Outside` has the words of these contracts, `Named` those of files, `Reading` what is read to the end, and
//! `Laws` how two reads or two writes compose.
//!
//! Never promised: what a real file, pipe or terminal holds, and that a read returns.
#![tactic(auto)]

pub mod files;
pub mod gate;
pub mod memory;
pub mod reading;
pub mod real;
pub mod sure;
pub mod traits;
pub mod writing;

pub use files::{Files, Found, MemoryFiles, SureFiles};
pub use gate::{Gate, NoGate};
pub use memory::{MemorySink, MemorySource};
pub use reading::read_whole;
pub use real::{DiskFiles, DiskSink, StdSink, StdSource};
pub use sure::{SureSink, SureSource};
pub use traits::{Failed, Fault, Sink, Source};
pub use writing::write_whole;
