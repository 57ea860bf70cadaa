//! The versions of documents.

/// How a document is to be read.
#[derive(Clone, Copy, PartialEq, Eq)]
pub enum Version {
    /// At most 16 clients.
    One,
    /// At most 64 clients, which may begin a line with a text (`read-with`).
    Two,
}
