//! The words of the command line.
//!
//! [`Form::of`] tells what the words ask for, in a table of its own words (`specs/Words`); a command of `clap` reads them (con_command).
#![tactic(auto)]

mod words;

pub use words::Form;
