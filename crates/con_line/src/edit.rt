//! What a key changed.

/// What a key changed in a text: the places from `first` on, of which there were `before`.
#[derive(Clone, Copy, PartialEq, Eq)]
pub struct Edit {
    /// The first place, from 0, at which the old and the new text differ; the length of the shorter one where one
    /// begins with the other.
    pub first: u16,
    /// How many units the text had before.
    pub before: u16,
}
