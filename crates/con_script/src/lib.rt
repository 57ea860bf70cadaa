//! Sessions from documents, and generated ones.
//!
//! A document is a text of JSON: a version, the window's size, and for each client its program, its group and its calls.
//! [`read_session`] gives the [`Session`](con_events::Session) that it is, or the place of its first fault.
//!
//! What a document is, and the words in which the clauses here say what is read of it, are con_document's, with their laws.
//!
//! [`generated`] gives a large session from a number (`specs/Generated`).
//!
//! Nothing is promised of how much memory a reading takes beyond what its document needs.
#![tactic(auto)]

pub mod client;
pub mod cursor;
pub mod draws;
pub mod generator;
pub mod keys;
pub mod lists;
pub mod place;
pub mod session;
pub mod steps;
pub mod text;
pub mod version;

pub use generator::generated;
pub use place::SessionFault;
pub use session::read_session;
