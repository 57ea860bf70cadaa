//! The open reads of all processes, in the order in which they began.
//!
//! Contracts see the list of the reads and a promised number: for how many more there is room. A read has all the memory that it
//! needs, so no call but [`Readers::reserve`] takes any. The first read that is not done is served: it starts, then it takes
//! records until it is done or none is left, and then the next one follows.
//!
//! - [`Readers::begin`] puts a read last. [`Readers::pump`] does one step, and says which.
//! - [`Readers::answer`] shows the answer of a read that is done, [`Readers::collect`] removes the read and gives it;
//!   [`Readers::cancel`] removes any.
//! - [`Readers::abort_line`] ends the first line read with ctrl+C, [`Readers::close_all`] each read as the console closes.
//!
//! `settled` says what all steps until `Idle` come to, without speaking of steps, and [`laws`] has what follows: that serving loses
//! no record and gives none twice, what each read answers of the records that it took, and that no process gets two reads.
//! It never waits, and doesn't show an echo: it tells what to show.
#![tactic(auto)]

pub mod answer;
pub mod laws;
pub mod open;
pub mod readers;
pub mod step;
pub mod wants_records;
pub mod wants_units;

pub use answer::Answer;
pub use open::{Open, OpenRead};
pub use readers::Readers;
pub use step::{ReadStep, is_idle};
pub use wants_records::WantsRecords;
pub use wants_units::WantsUnits;
