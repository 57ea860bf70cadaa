//! The edited line and the list of reads, as a caller sees them: callers with variables, also of histories, aliases and cooked reads,
//! and rows of what no session shows. There is nothing to run.
#![tactic(auto)]

pub mod callers;
pub mod rows;
