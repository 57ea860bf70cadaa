//! Values of con_units: rows of colours, words and bytes, worked out by hand; callers of lists; and what is run: tables of units and rectangles, and how much
//! memory a value takes.
ghost use Rattle.std.specs.Prelude.{◌≡◌, ◌++◌, ◌∷◌, [], true, map, length, IfOk, option_to_list};
ghost use Rattle.std.specs.List.{range_with_len};
ghost use Rattle.con_units.specs.Attr.{plain};
ghost use Rattle.con_units.specs.Code.{number_of};
ghost use Rattle.con_units.specs.Glyph.{cell_of, plain_cell};
ghost use Rattle.con_units.specs.Shade.{near};
ghost use Rattle.con_units.specs.Split.{next, split};
ghost use Rattle.con_units.specs.Utf8.{utf8};
ghost use Rattle.con_units.specs.Words.Shade.{shade_of};
ghost use Rattle.con_units.specs.declared.code.Code.TheVariants.{Limit, Aborted};
ghost use Rattle.con_units.specs.declared.shade.Shade.TheVariants.{Index};
ghost use Rattle.tests_screens.specs.Values.{nearest};

use con_units::{
    Attr, Bytes, Cell, Marks, OutOfMemory, Past, Rect, Rows, Shade, Units, Utf8, clip, stored,
};

/// The colours that stand for the indices 16 to 255.
pub fn colours_are_the_nearest()
    ensures { map near (range_with_len 16 240) ≡ nearest }
{}

/// Words, a unit and codes.
pub fn numbers_are_those_of_the_table()
    ensures word { (plain 0xFFFF).word ≡ 0xC0FF }
    ensures unit { (cell_of 7 (plain 0x4031)).unit ≡ 0xFFFD }
    ensures attr { (cell_of 7 (plain 0x4031)).attr.word ≡ 0x4031 }
    ensures limit { number_of Limit ≡ 1816 }
    ensures aborted { number_of Aborted ≡ 995 }
{}

/// A character of three bytes comes whole, and ill-formed bytes give one replacement for each part.
pub fn characters_come_whole()
    ensures first { split utf8 (0xE2 ∷ []) ≡ record { items = []; tail = 0xE2 ∷ [] } }
    ensures second { next utf8 (0xE2 ∷ []) 0x82 ≡ record { items = []; tail = 0xE2 ∷ 0x82 ∷ [] } }
    ensures euro { next utf8 (0xE2 ∷ 0x82 ∷ []) 0xAC ≡ record { items = 0x20AC ∷ []; tail = [] } }
    ensures broken { next utf8 (0xF0 ∷ 0x90 ∷ []) 0x41 ≡ record { items = 0xFFFD ∷ 0x41 ∷ []; tail = [] } }
    ensures held { split utf8 (0xF0 ∷ 0x90 ∷ []) ≡ record { items = []; tail = 0xF0 ∷ 0x90 ∷ [] } }
{}

/// How many bytes a decoder holds that is cleared behind a byte.
pub fn held_behind(decoder: &mut Utf8, byte: u8) -> u8
    ensures { result ≡ 0 }
{
    decoder.feed(byte);
    decoder.clear();
    decoder.held()
}

/// A cell keeps its shades, and has none as it is read.
#[tactic(auto, unfolding(con_units::specs::Shade::near))]
pub fn shaded_cell() -> Cell
    ensures fore { result.attr.fore ≡ Index 196 }
    ensures back { result.attr.back ≡ shade_of 21 }
    ensures plain { plain_cell result ≡ cell_of 0x41 (plain 0xC09C) }
{
    Cell::new(
        0x41,
        Attr::shaded(0xC09C, Shade::Index(196), Shade::Index(21)),
    )
}

/// How many units are the same in memory of their own.
pub fn copied_count(units: &Units) -> Result<usize, OutOfMemory>
    ensures { IfOk result (λ n. n ≡ length units.now) }
{
    let copy = units.copied()?;
    Ok(copy.len())
}

/// Whether there are no bytes, and how many marks and cells there are.
pub fn lengths(bytes: &Bytes, marks: &Marks, rows: &Rows) -> (bool, usize, usize)
    ensures none { bytes.now ≡ [] → result.0 ≡ true }
    ensures marks { result.1 ≡ length marks.now }
    ensures rows { result.2 ≡ length rows.now }
{
    (bytes.is_empty(), marks.len(), rows.len())
}

/// A unit more in a list that is in proofs alone.
pub fn grown(past: &mut Past<u16>, unit: u16)
    ensures { past.new ≡ past.old ++ unit ∷ [] }
{
    past.push(unit);
}

// Units, and what a cell stores of each.
const STORED: [(u16, u16); 12] = [
    (0x20, 0x20),
    (0x7E, 0x7E),
    (0x7F, 0xFFFD),
    (0x1B, 0xFFFD),
    (0x9F, 0xFFFD),
    (0xE9, 0xE9),
    (0x300, 0xFFFD),
    (0x20AC, 0x20AC),
    (0x4E00, 0xFFFD),
    (0xD800, 0xFFFD),
    (0xE000, 0xE000),
    (0xFFFD, 0xFFFD),
];

// The first unit of the table that is stored otherwise, or how many there are.
fn first_wrong_unit() -> usize {
    for at in 0..STORED.len() {
        let (unit, shown) = STORED[at];
        if stored(unit) != shown {
            return at;
        }
    }
    STORED.len()
}

// Whether rectangles meet in their common cells, and those that have none do not.
fn rectangles_meet() -> bool {
    let screen = Rect {
        left: 0,
        top: 0,
        right: 9,
        bottom: 4,
    };
    let over = Rect {
        left: -3,
        top: 4,
        right: 2,
        bottom: 8,
    };
    let corner = Rect {
        left: 0,
        top: 4,
        right: 2,
        bottom: 4,
    };
    let beside = Rect {
        left: 3,
        top: 0,
        right: 9,
        bottom: 9,
    };
    clip(screen, over) == Some(corner) && clip(corner, beside) == None
}

#[test]
fn units_are_stored_and_rectangles_meet(rt: HostRuntime) {
    let sizes = [size_of::<Past<u16>>(), size_of::<Cell>()];
    assert!(rt; first_wrong_unit() == 12 && rectangles_meet() && sizes == [0, 8]);
}
