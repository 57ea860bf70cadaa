//! The memory that events take, got before they have their effects.
pub(crate) mod call_room;
pub(crate) mod client_room;
pub(crate) mod paint_room;
pub(crate) mod preparing;
pub(crate) mod read_room;
pub(crate) mod rect_room;
pub(crate) mod room;
pub(crate) mod terminal_room;
pub(crate) mod unused;
