//! The forms that run a session: that of a file, by threads, by turns or with a second terminal, and that of a number.
//!
//! - [`host_run`]: reads the session of a file, runs it by threads, and writes its history to the report;
//! - [`host_solo`]: the same by turns on one thread;
//! - [`host_mirror`]: the same with a second terminal, which attaches and detaches by frames of the link and shows a part of each picture;
//! - [`host_gen`]: runs the generated session of a number by turns, without a link, and writes its summary to the report.
//!
//! In `specs/`, `Sessions`, `Mirroring` and `Generating` say how each of them ends, by what was taken from the link and what the terminals and the report
//! have, `Foretold` what a link's bytes alone say of that end, and `Summary` what a generated session's report is; `Laws` is for the crates above.
//!
//! Never promised: that memory is there, that a read of the link returns, that `run` does, and that two of its threads run at once.
#![tactic(auto)]

pub mod generating;
pub mod mirror;
pub mod run;
pub mod session;
pub mod solo;
pub mod summary;

pub use generating::host_gen;
pub use mirror::host_mirror;
pub use run::host_run;
pub use solo::host_solo;
