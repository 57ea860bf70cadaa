//! Texts of documents as UTF-16.

ghost use Rattle.std.specs.Prelude.{◌≡◌, ◌++◌, IfOk};
ghost use Rattle.std.specs.Char.Escape.{encode_utf16};
ghost use Rattle.con_document.specs.Units.{text_units};

use con_units::{OutOfMemory, Units};
use std::alloc::Global;

/// Puts the one or two units of a character last.
fn push_character(units: &mut Vec<u16>, character: char) -> Result<(), OutOfMemory>
    ensures { IfOk result (λ _. units.new.items ≡ units.old.items ++ encode_utf16 character) }
{
    let code = character as u32;
    if code < 0x10000 {
        return match units.push(code as u16) {
            Ok(()) => Ok(()),
            Err(_) => Err(OutOfMemory),
        };
    }
    let above = code - 0x10000;
    let high = units.push((0xD800 + above / 1024) as u16);
    let low = units.push((0xDC00 + above % 1024) as u16);
    match (high, low) {
        (Ok(()), Ok(())) => Ok(()),
        _ => Err(OutOfMemory),
    }
}

/// The units of a text.
#[tactic(auto, unfolding(con_document::specs::Units::text_units))]
pub(crate) fn units_of(alloc: Global, text: &str) -> Result<Units, OutOfMemory>
    ensures { IfOk result (λ us. us ≡ text_units text.now) }
{
    let mut units = Vec::new(alloc);
    for character in text.chars() {
        push_character(&mut units, character)?;
    }
    Ok(Units(units))
}
