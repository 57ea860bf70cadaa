//! Texts and bytes from hexadecimal digits.

ghost use Rattle.std.specs.Prelude.{◌≡◌, ◌+◌, ◌*◌, Some, None, IfOk, IfErr, option_and_then};
ghost use Rattle.con_units.specs.Glyph.{cell_of as cell_of_unit};
ghost use Rattle.con_units.specs.Attr.{plain};
ghost use Rattle.con_events.specs.Reading.{IsForm};
ghost use Rattle.con_lines.specs.Told.{hex_value, byte_told, unit_told, unhex_units, unhex_bytes, cells_from};

use con_events::Misread;
use con_units::{Attr, Bytes, Cell, Rows, Units};
use std::alloc::Global;

/// The value of a lower-case digit.
fn value_of(c: u8) -> Option<u8>
    ensures { result ≡ hex_value c }
{
    if 48 <= c && c <= 57 {
        Some(c - 48)
    } else if 97 <= c && c <= 102 {
        Some(c - 87)
    } else {
        None
    }
}

/// The byte of two digits.
#[tactic(auto, unfolding(crate::specs::Told::byte_told))]
fn byte_of(a: u8, b: u8) -> Option<u8>
    ensures { result ≡ byte_told a b }
{
    let high = found!(value_of(a));
    let low = found!(value_of(b));
    Some(high * 16 + low)
}

/// The unit of four digits.
#[tactic(auto, unfolding(crate::specs::Told::byte_told, crate::specs::Told::unit_told))]
fn unit_of(a: u8, b: u8, c: u8, d: u8) -> Option<u16>
    ensures { result ≡ unit_told a b c d }
{
    let high = found!(byte_of(a, b));
    let third = found!(value_of(c));
    let last = found!(value_of(d));
    Some((high as u16 * 16 + third as u16) * 16 + last as u16)
}

/// Units of four digits each.
pub fn units_from(alloc: Global, text: &[u8]) -> Result<Units, Misread>
    ensures ok { IfOk result (λ us. unhex_units text.now ≡ Some us) }
    ensures form { IfErr result (λ e. IsForm e → unhex_units text.now ≡ None) }
{
    let mut units = Vec::new(alloc);
    let mut rest = text;
    while let [a, b, c, d, more @ ..] = rest {
        let Some(unit) = unit_of(*a, *b, *c, *d) else {
            return Err(Misread::Form);
        };
        let Ok(()) = units.push(unit) else {
            return Err(Misread::OutOfMemory);
        };
        rest = more;
    }
    if rest.is_empty() {
        Ok(Units(units))
    } else {
        Err(Misread::Form)
    }
}

/// Bytes of two digits each.
pub fn bytes_from(alloc: Global, text: &[u8]) -> Result<Bytes, Misread>
    ensures ok { IfOk result (λ bs. unhex_bytes text.now ≡ Some bs) }
    ensures form { IfErr result (λ e. IsForm e → unhex_bytes text.now ≡ None) }
{
    let mut bytes = Vec::new(alloc);
    let mut rest = text;
    while let [a, b, more @ ..] = rest {
        let Some(byte) = byte_of(*a, *b) else {
            return Err(Misread::Form);
        };
        let Ok(()) = bytes.push(byte) else {
            return Err(Misread::OutOfMemory);
        };
        rest = more;
    }
    if rest.is_empty() {
        Ok(Bytes(bytes))
    } else {
        Err(Misread::Form)
    }
}

/// The cell of a unit and a word.
fn cell_of(unit: u16, word: u16) -> Cell
    ensures { result ≡ cell_of_unit unit (plain word) }
{
    Cell::new(unit, Attr::of(word))
}

/// Cells of a unit and a word each.
pub fn cells_of(alloc: Global, units: &[u16]) -> Result<Rows, Misread>
    ensures ok { IfOk result (λ gs. cells_from units.now ≡ Some gs) }
    ensures form { IfErr result (λ e. IsForm e → cells_from units.now ≡ None) }
{
    let mut cells = Vec::new(alloc);
    let mut rest = units;
    while let [unit, word, more @ ..] = rest {
        let Ok(()) = cells.push(cell_of(*unit, *word)) else {
            return Err(Misread::OutOfMemory);
        };
        rest = more;
    }
    if rest.is_empty() {
        Ok(Rows(cells))
    } else {
        Err(Misread::Form)
    }
}
