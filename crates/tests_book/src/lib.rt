//! Tests of con_book and con_pipe, and callers that use their clauses with variables. All of it is proved with the tests, so once.
//!
//! - `turns`: what a turn, a new pass and a pass that was taken in tell.
//! - `desk`: a machine that keeps room for what its log becomes.
//! - `histories`: what follows for passes. `pipes`: a pipe's room.
#![tactic(auto)]

#[cfg(test)]
mod desk;
#[cfg(test)]
mod histories;
#[cfg(test)]
mod member;
#[cfg(test)]
mod outcome;
#[cfg(test)]
mod passing;
#[cfg(test)]
mod pipes;
#[cfg(test)]
mod sixteen;
#[cfg(test)]
mod turns;
#[cfg(test)]
mod two;
