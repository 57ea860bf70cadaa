//! What a unit completes.
ghost use Rattle.std.specs.Prelude.{◌≡◌};
ghost use Rattle.con_vtgram.specs.State.{item_of};

use crate::item::{Csi, Item};

/// The kind of the item that a unit completes. What else it holds is the unit, or in the splitter.
#[derive(Clone, Copy, PartialEq, Eq)]
pub enum Found {
    /// No item.
    Nothing,
    /// The unit is printed.
    Print,
    /// The unit is a control that acts.
    Control,
    /// An escape sequence, which the unit ends.
    Escape,
    /// A choice of a character set, which the unit ends.
    Charset,
    /// A control sequence, which the splitter keeps.
    Sequence,
    /// A title, whose text the splitter keeps.
    Title,
}

impl Found {
    /// The item, of this unit and this control sequence.
    pub fn item(self, unit: u16, csi: &Csi) -> Option<Item>
        ensures { result ≡ item_of self unit csi.now }
    {
        match self {
            Found::Nothing => None,
            Found::Print => Some(Item::Print(unit)),
            Found::Control => Some(Item::Control(unit)),
            Found::Escape => Some(Item::Escape(unit)),
            Found::Charset => Some(Item::Charset(unit)),
            Found::Sequence => Some(Item::Csi(*csi)),
            Found::Title => Some(Item::Title),
        }
    }
}
