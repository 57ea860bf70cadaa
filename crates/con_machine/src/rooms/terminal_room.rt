//! The memory of an event that is no client's.

use crate::rooms::paint_room::PaintRoom;
use con_records::Key;
use con_screens::AllFits;

/// What is made ready for an event of the terminal's side, or for a Paint.
#[derive(Drop)]
pub enum SideRoom {
    /// It needs no memory.
    Nothing,
    /// For the keys of a byte.
    Keys(Vec<Key>),
    /// A Resize's.
    Fits(AllFits),
    /// A Paint's.
    Paint(PaintRoom),
}
