//! The words of the command line as a command of `clap`.
//!
//! [`matches`] gives them to a command with a subcommand for each form (`specs/Command`, as `clap` sees it); [`word`] and [`files`] tell what stands behind
//! the subcommand's name. Which words are a form is in con_words.
#![tactic(auto)]

mod command;

pub use command::{Files, files, matches, word};
