// What a handle stands for.
use con_units::BufferId;

/// What a handle stands for: the console's input, or a screen buffer.
#[derive(Clone, Copy, PartialEq, Eq, Debug)]
pub enum Object {
    /// The console's input.
    Input,
    /// A screen buffer.
    Output(BufferId),
}

/// The kind of handle that a call needs.
#[derive(Clone, Copy, PartialEq, Eq, Debug)]
pub enum Kind {
    /// One of the input.
    Input,
    /// One of a screen buffer.
    Output,
    /// Either.
    Any,
}

/// An object and the rights to it: 1 to read (`GENERIC_READ`), 2 to write (`GENERIC_WRITE`), 3 for both.
#[derive(Clone, Copy, PartialEq, Eq)]
pub struct Held {
    pub object: Object,
    pub rights: u8,
}

/// A handle.
#[derive(Clone, Copy, PartialEq, Eq)]
pub struct Handle {
    /// The process that it belongs to, from 1 on.
    pub process: u8,
    /// Its number there, from 1 to 64.
    pub number: u32,
    /// What it stands for.
    pub object: Object,
    /// The rights to it, as those of [`Held`].
    pub rights: u8,
}
