//! Lines of a file of cases, and whether lines that came are the wanted ones.
//!
//! `wanted` compares them: [`wanted::first_difference`] tells none exactly where they are as wanted (`specs/Wanted`). `line` is a line with its number, and
//! `fault` what may be wrong with it. What wanted lines are written of is in case_files.
#![tactic(auto)]

pub mod fault;
pub mod line;
pub mod wanted;
