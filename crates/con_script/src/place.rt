//! Where faults stand.

use con_units::Units;

/// Where in a client a fault stands.
#[derive(Drop)]
pub(crate) enum Place {
    Whole,
    Key(String),
    Call(usize),
}

/// Where in a document a fault stands.
#[derive(Drop)]
pub(crate) enum Site {
    All,
    Key(String),
    Client(usize, Place),
}

/// Why a client was not read.
#[derive(Drop)]
pub(crate) enum Halt {
    At(Place),
    OutOfMemory,
}

/// Why a document was not read.
#[derive(Drop)]
pub(crate) enum Stop {
    At(Site),
    OutOfMemory,
}

/// Why bytes are no session.
#[derive(Drop)]
pub enum SessionFault {
    /// They are no JSON (RFC 8259) in UTF-8, nested to depth 127; also where a number is too large for a double.
    Json,
    /// The path of the first fault: keys joined by `.`, places written `[i]`, empty where the whole is no object.
    At(Units),
    /// There was no memory.
    OutOfMemory,
}
