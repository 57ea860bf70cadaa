//! The memory of a Paint.

use con_units::{Marks, View};

/// What is made ready for a Paint: the view for the answer, and once more for the console to keep; which rows may differ
/// from the view at the last Paint; and whether nothing was painted on a terminal of this size.
#[derive(Drop)]
pub struct PaintRoom {
    pub(crate) view: View,
    pub(crate) kept: View,
    pub(crate) marks: Marks,
    pub(crate) fresh: bool,
}
