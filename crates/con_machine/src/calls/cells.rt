//! What a call does to the cells that a buffer shows.
ghost use Rattle.std.specs.Prelude.{◌≡◌, ℕ, List, OnOk, OnErr, length, Option, if◌then◌else◌};
ghost use Rattle.con_handles.specs.declared.handle.Handle.{Handle};
ghost use Rattle.con_units.specs.Attr.{plain};
ghost use Rattle.con_units.specs.Glyph.{cell_of, plain_cell};
ghost use Rattle.con_rects.specs.Area.{cell_count};
ghost use Rattle.con_rects.specs.Rules.{rect_written};
ghost use Rattle.con_rects.specs.Runs.{run_count, units_written, words_written, unit_filled, word_filled};
ghost use Rattle.con_rects.specs.Scroll.{scrolled};
ghost use Rattle.con_screens.specs.Words.Buffers.{AreBuffers, IsLive};
ghost use Rattle.con_screens.specs.Words.Stamps.{all_remembered};
ghost use Rattle.con_machine.specs.CellCalls.{run_answer};
ghost use Rattle.con_machine.specs.Words.CellCalls.{cells_at, cells_left, rect_answer};
ghost use Rattle.con_machine.specs.Sound.{AreCounted};

use con_screens::Screens;
use con_units::{Attr, BufferId, Cell, Code, Coord, Rect};

/// Writes cells over a rectangle.
pub(crate) fn write_rect(
    screens: &mut Screens,
    id: BufferId,
    rect: Rect,
    cells: &[Cell],
) -> Result<Rect, Code>
    requires buffers { AreBuffers screens.old }
    requires live { IsLive screens.old id.0 }
    requires full { length cells.now ≡ cell_count rect }
    ensures answer { result ≡ rect_answer (cells_at screens.old id.0) rect }
    ensures changed { OnOk result (screens.new ≡ cells_left screens.old id.0 (rect_written (cells_at screens.old id.0) rect cells.now)) }
    ensures refused { OnErr result (screens.new ≡ screens.old) }
    ensures kept { AreBuffers screens.new }
    ensures counted { (hs : List Handle) → AreCounted screens.old hs → AreCounted screens.new hs }
    ensures remembered { all_remembered screens.new ≡ all_remembered screens.old }
{
    con_rects::write_rect(screens.screen_mut(id).grid_mut(), rect, cells)
}

/// Writes units over a run.
pub(crate) fn write_units(
    screens: &mut Screens,
    id: BufferId,
    from: Coord,
    units: &[u16],
) -> Result<u32, Code>
    requires buffers { AreBuffers screens.old }
    requires live { IsLive screens.old id.0 }
    ensures answer { result ≡ run_answer (cells_at screens.old id.0) from (length units.now) }
    ensures changed { OnOk result (screens.new ≡ cells_left screens.old id.0 (units_written (cells_at screens.old id.0) from units.now)) }
    ensures refused { OnErr result (screens.new ≡ screens.old) }
    ensures kept { AreBuffers screens.new }
    ensures counted { (hs : List Handle) → AreCounted screens.old hs → AreCounted screens.new hs }
    ensures remembered { all_remembered screens.new ≡ all_remembered screens.old }
{
    con_rects::write_run_units(screens.screen_mut(id).grid_mut(), from, units)
}

/// Writes words over a run.
pub(crate) fn write_words(
    screens: &mut Screens,
    id: BufferId,
    from: Coord,
    words: &[u16],
) -> Result<u32, Code>
    requires buffers { AreBuffers screens.old }
    requires live { IsLive screens.old id.0 }
    ensures answer { result ≡ run_answer (cells_at screens.old id.0) from (length words.now) }
    ensures changed { OnOk result (screens.new ≡ cells_left screens.old id.0 (words_written (cells_at screens.old id.0) from words.now)) }
    ensures refused { OnErr result (screens.new ≡ screens.old) }
    ensures kept { AreBuffers screens.new }
    ensures counted { (hs : List Handle) → AreCounted screens.old hs → AreCounted screens.new hs }
    ensures remembered { all_remembered screens.new ≡ all_remembered screens.old }
{
    con_rects::write_run_attrs(screens.screen_mut(id).grid_mut(), from, words)
}

/// Writes a unit over a run.
pub(crate) fn fill_units(screens: &mut Screens, id: BufferId, from: Coord, n: u32, unit: u16) -> u32
    requires buffers { AreBuffers screens.old }
    requires live { IsLive screens.old id.0 }
    ensures count { result ≡ run_count (cells_at screens.old id.0) from n }
    ensures changed { screens.new ≡ cells_left screens.old id.0 (unit_filled (cells_at screens.old id.0) from n unit) }
    ensures kept { AreBuffers screens.new }
    ensures counted { (hs : List Handle) → AreCounted screens.old hs → AreCounted screens.new hs }
    ensures remembered { all_remembered screens.new ≡ all_remembered screens.old }
{
    con_rects::fill_units(screens.screen_mut(id).grid_mut(), from, n, unit)
}

/// Writes a word over a run.
pub(crate) fn fill_words(screens: &mut Screens, id: BufferId, from: Coord, n: u32, word: u16) -> u32
    requires buffers { AreBuffers screens.old }
    requires live { IsLive screens.old id.0 }
    ensures count { result ≡ run_count (cells_at screens.old id.0) from n }
    ensures changed { screens.new ≡ cells_left screens.old id.0 (word_filled (cells_at screens.old id.0) from n word) }
    ensures kept { AreBuffers screens.new }
    ensures counted { (hs : List Handle) → AreCounted screens.old hs → AreCounted screens.new hs }
    ensures remembered { all_remembered screens.new ≡ all_remembered screens.old }
{
    con_rects::fill_attrs(screens.screen_mut(id).grid_mut(), from, n, word)
}

// The cell of a unit and a word, which has plain shades.
fn plain_fill(unit: u16, word: u16) -> Cell
    ensures is { result ≡ cell_of unit (plain word) }
    ensures plain { plain_cell result ≡ result }
{
    let attr = Attr::of(word);
    // For `plain`: a look at the word tells what every attribute is.
    let _ = attr.bits();
    Cell::new(unit, attr)
}

/// Moves cells.
pub(crate) fn scroll(
    screens: &mut Screens,
    id: BufferId,
    source: Rect,
    clip: Option<Rect>,
    dest: Coord,
    unit: u16,
    word: u16,
)
    requires buffers { AreBuffers screens.old }
    requires live { IsLive screens.old id.0 }
    ensures changed { screens.new ≡ cells_left screens.old id.0 (scrolled (cells_at screens.old id.0) source clip dest (cell_of unit (plain word))) }
    ensures kept { AreBuffers screens.new }
    ensures counted { (hs : List Handle) → AreCounted screens.old hs → AreCounted screens.new hs }
    ensures remembered { all_remembered screens.new ≡ all_remembered screens.old }
{
    let fill = plain_fill(unit, word);
    con_rects::scroll_rect(screens.screen_mut(id).grid_mut(), source, clip, dest, fill);
}
