//! The memory of a call.

use crate::rooms::rect_room::RectRoom;
use con_alias::AliasRoom;
use con_events::Reply;
use con_history::ConfigRoom;
use con_page::Fit;
use con_screen::Answers;
use con_screens::NewBuffer;

/// What a call is given that takes memory, made ready in the state in which it is entered.
#[derive(Drop)]
pub enum CallRoom {
    /// It takes none, or what is promised in the console.
    Nothing,
    /// The whole answer of a call that changes nothing.
    Told(Reply),
    /// A buffer.
    Buffer(NewBuffer),
    /// Another size of a buffer. None where that is refused.
    Size(Option<Fit>),
    /// What a text tells.
    Text(Answers),
    /// Cells. None where they are refused.
    Cells(Option<RectRoom>),
    /// The histories of other settings.
    Settings(ConfigRoom),
    /// An alias.
    Alias(AliasRoom),
}
