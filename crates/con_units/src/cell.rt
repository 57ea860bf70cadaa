//! Cells, and the units that they may hold.
ghost use Rattle.std.specs.Prelude.{◌≡◌, true};
ghost use Rattle.con_units.specs.Plain.{is_plain};
ghost use Rattle.con_units.specs.Stored.{stored_unit};
ghost use Rattle.con_units.specs.Glyph.{cell_of, plain_cell};

use crate::attr::Attr;
use std::marker::Model;
use unicode_width::UnicodeWidthChar;

/// What a cell shows for a unit: the unit, or U+FFFD where it is not one column wide by itself.
#[tactic(auto, unfolding(crate::specs::Stored::is_shown, unicode_width::specs::Width::char_width))]
pub fn stored(unit: u16) -> u16
    ensures { result ≡ stored_unit unit }
{
    if 0x20 <= unit && unit <= 0x7E {
        return unit;
    }
    if unit <= 0x9F {
        return 0xFFFD;
    }
    match char::from_u32(unit as u32) {
        Some(c) => match c.width() {
            Some(1) => unit,
            _ => 0xFFFD,
        },
        None => 0xFFFD,
    }
}

/// A cell of a screen: a unit that it shows, and an attribute.
#[derive(Clone, Copy, PartialEq, Eq)]
pub struct Cell {
    unit: u16,
    attr: Attr,
}

impl Model for Cell {
    ghost use Rattle.std.specs.Prelude.{◌≡◌};
    ghost use Rattle.con_units.specs.Stored.{stored_unit};
    ghost use Rattle.con_units.specs.Glyph.{Glyph};

    ghost Value = { Glyph };

    ghost view = { λ c. record { unit = c.unit; attr = c.attr } };

    ghost invariant = { λ c. stored_unit c.unit ≡ c.unit };

    ghost inverse = { λ c. record { unit = c.unit; attr = c.attr } };
}

impl Cell {
    /// A cell that shows the unit.
    pub fn new(unit: u16, attr: Attr) -> Cell
        ensures { result ≡ cell_of unit attr }
    {
        Cell {
            unit: stored(unit),
            attr,
        }
    }

    /// A cell that shows a unit of printable ASCII, which is stored as it is.
    #[tactic(auto, unfolding(crate::specs::Stored::is_shown, unicode_width::specs::Width::char_width))]
    pub fn of_plain(unit: u16, attr: Attr) -> Cell
        requires { is_plain unit ≡ true }
        ensures { result ≡ cell_of unit attr }
    {
        Cell { unit, attr }
    }

    /// The unit that it shows.
    pub fn unit(self) -> u16
        ensures value { result ≡ self.unit }
        ensures kept { stored_unit result ≡ result }
    {
        self.unit
    }

    /// Its attribute.
    pub fn attr(self) -> Attr
        ensures { result ≡ self.attr }
    {
        self.attr
    }

    /// The same cell with plain shades, as a client reads it.
    pub fn plain(self) -> Cell
        ensures { result ≡ plain_cell self }
    {
        Cell {
            unit: self.unit,
            attr: self.attr.plain(),
        }
    }
}
