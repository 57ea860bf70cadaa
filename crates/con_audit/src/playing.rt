//! Bytes, and what becomes known with them.
ghost use Rattle.std.specs.Prelude.{◌≡◌, ℕ, List, [], ◌∷◌, flat_map, option_to_list};
ghost use Rattle.con_term.specs.Play.{units_of};
ghost use Rattle.con_audit.specs.Known.{marked};
ghost use Rattle.con_audit.specs.Partial.{played};
ghost use Rattle.con_audit.specs.Flags.{known_by};
ghost use Rattle.con_audit.specs.Playing.{partial_of, typed_partial};

use crate::marking::{Flags, learn};
use con_term::page::Page;
use con_units::Utf8;
use con_vtgram::Splitter;

fn learn_unit(
    page: &mut Page,
    marks: &mut Page,
    flags: Flags,
    units: &mut Splitter,
    unit: u16,
) -> Flags
    requires tied { marks.old ≡ marked page.old (known_by marks.old flags) }
    ensures typed { (b : List ℕ) → partial_of b page.new units.new marks.new result
        ≡ typed_partial (partial_of b page.old units.old marks.old flags) (unit ∷ []) }
    ensures tied { marks.new ≡ marked page.new (known_by marks.new result) }
{
    let found = units.advance(unit);
    learn(page, marks, flags, found, unit, units.sequence())
}

#[tactic(auto, unfolding(con_term::specs::Play::units_of))]
fn learn_character(
    page: &mut Page,
    marks: &mut Page,
    flags: Flags,
    units: &mut Splitter,
    character: char,
) -> Flags
    requires tied { marks.old ≡ marked page.old (known_by marks.old flags) }
    ensures typed { (b : List ℕ) → partial_of b page.new units.new marks.new result
        ≡ typed_partial (partial_of b page.old units.old marks.old flags) (units_of character) }
    ensures tied { marks.new ≡ marked page.new (known_by marks.new result) }
{
    let code = character as u32;
    if code < 0x10000 {
        learn_unit(page, marks, flags, units, code as u16)
    } else {
        let above = code - 0x10000;
        let first = learn_unit(page, marks, flags, units, (0xD800 + above / 1024) as u16);
        learn_unit(page, marks, first, units, (0xDC00 + above % 1024) as u16)
    }
}

fn learn_if(
    page: &mut Page,
    marks: &mut Page,
    flags: Flags,
    units: &mut Splitter,
    character: Option<char>,
) -> Flags
    requires tied { marks.old ≡ marked page.old (known_by marks.old flags) }
    ensures typed { (b : List ℕ) → partial_of b page.new units.new marks.new result
        ≡ typed_partial (partial_of b page.old units.old marks.old flags) (flat_map units_of (option_to_list character)) }
    ensures tied { marks.new ≡ marked page.new (known_by marks.new result) }
{
    match character {
        Some(character) => learn_character(page, marks, flags, units, character),
        None => flags,
    }
}

/// Learns from a byte.
pub fn learn_byte(
    bytes: &mut Utf8,
    page: &mut Page,
    marks: &mut Page,
    flags: Flags,
    units: &mut Splitter,
    byte: u8,
) -> Flags
    requires tied { marks.old ≡ marked page.old (known_by marks.old flags) }
    ensures played { partial_of bytes.new page.new units.new marks.new result ≡ played (partial_of bytes.old page.old units.old marks.old flags) (byte ∷ []) }
    ensures tied { marks.new ≡ marked page.new (known_by marks.new result) }
{
    let decoded = bytes.feed(byte);
    let first = learn_if(page, marks, flags, units, decoded.first);
    learn_if(page, marks, first, units, decoded.second)
}

/// Learns from bytes, one after another.
pub fn learn_all(
    bytes: &mut Utf8,
    page: &mut Page,
    marks: &mut Page,
    flags: Flags,
    units: &mut Splitter,
    input: &[u8],
) -> Flags
    requires tied { marks.old ≡ marked page.old (known_by marks.old flags) }
    ensures played { partial_of bytes.new page.new units.new marks.new result ≡ played (partial_of bytes.old page.old units.old marks.old flags) input.now }
    ensures tied { marks.new ≡ marked page.new (known_by marks.new result) }
{
    let mut known = flags;
    for byte in input {
        known = learn_byte(bytes, page, marks, known, units, *byte);
    }
    known
}
