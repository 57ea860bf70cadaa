//! Laws of the console's histories: what holds of every list of entries, whoever entered them. Each function has an empty body; its clauses are the law.
//!
//! - [`fates`]: no record is lost, and what became of each; [`once`]: each goes to one removing read at most; [`rests`]: what a line read leaves.
//! - [`histories`]: how histories are joined, by rounds too; [`session`]: how a session opens, and what stands at its end.
//! - [`presence`] and [`handlers`]: what an event leaves of other clients, and that a place is added once.
//! - [`cuts`], [`settled`] and [`stamps`]: however bytes are cut; what changes nothing; that stamps of rows are told by nobody but the painter.
//!
//! In `specs/`, `Rounds` has what it is to go by rounds, `Whole` what a whole session leaves, `Fates`, `Answers`, `Texts`, `Remains` and `Once` what
//! became of records, and `RoundWords`, `Walks`, `AnswerWalks`, `TextWalks`, `Left` and `Rested` the same as the proofs walk it; `TerminalRuns` what
//! a terminal shows that plays a stream, `Cut`, `Settled`, `Presence`, `Opens` and `Unstamped` what the other laws say; the files `..Laws` are for
//! the crates above.
#![tactic(auto)]

pub mod cuts;
pub mod fates;
pub mod handlers;
pub mod histories;
pub mod once;
pub mod presence;
pub mod rests;
pub mod session;
pub mod settled;
pub mod stamps;
