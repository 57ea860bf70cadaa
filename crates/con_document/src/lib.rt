//! Which session a document is, and laws of it.
//!
//! `specs/Readers` says which step a value of JSON is (`IsStep`): an array of its name and of its arguments, as a document writes them (`IsWritten`).
//! `specs/Document` says in what order a document is read by a reader of steps, what the path of its first fault is (`document_of`), and what bytes are
//! where steps are read so (`IsDocument`). The words of con_script's code are `specs/Values` and `specs/Steps`, a reader by the rows of con_events' table,
//! and `specs/Session`, with the places of faults; by `specs/StepLaws` that reader reads those steps, no other reader does, and what it finds is the
//! document.
//!
//! The laws stand here, and the code in con_script, whose edits touch none of them.
#![tactic(auto)]

pub mod version;

pub use version::Version;
