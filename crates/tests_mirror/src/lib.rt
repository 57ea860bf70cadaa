//! Callers of con_mirror that use its promises. What a second terminal shows, and its frames, are in crate `cases`,
//! `data/mirror.cases`.
#![tactic(auto)]

pub mod callers;
