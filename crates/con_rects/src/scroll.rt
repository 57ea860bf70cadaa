//! Scrolling a rectangle.
ghost use Rattle.std.specs.Prelude.{◌≡◌, ◌+◌, ◌-◌, ◌*◌, ◌<◌, ◌≤◌, true, false};
ghost use Rattle.con_units.specs.Glyph.{plain_cell};
ghost use Rattle.con_grid.specs.Words.Picture.{IsPicture};
ghost use Rattle.con_rects.specs.Parts.{has_cells};
ghost use Rattle.con_rects.specs.Rules.{redrawn};
ghost use Rattle.con_rects.specs.Scroll.{scrolled};
ghost use Rattle.con_rects.specs.Moves.{shift_to, clip_area, common, shifted, move_rule, free_rule, goes_back, goes_on, ComesFrom};

use crate::area::{Area, ahead, area_of};
use con_grid::Grid;
use con_units::{Cell, Coord, Rect};

/// How far cells move to each side.
#[derive(Clone, Copy, PartialEq, Eq)]
pub struct Shift {
    pub right: usize,
    pub left: usize,
    pub down: usize,
    pub up: usize,
}

fn shift_from(source: &Rect, dest: Coord) -> Shift
    ensures shift { result ≡ shift_to source.now dest }
    ensures small { (result.right < 131072) × (result.left < 131072) × (result.down < 131072) × (result.up < 131072) }
{
    Shift {
        right: ahead(source.left, dest.x),
        left: ahead(dest.x, source.left),
        down: ahead(source.top, dest.y),
        up: ahead(dest.y, source.top),
    }
}

fn clip_of(clip: &Option<Rect>, width: usize, height: usize) -> Area
    ensures { result ≡ clip_area clip.now width height }
{
    match clip {
        None => Area {
            left: 0,
            top: 0,
            right: width,
            bottom: height,
        },
        Some(rect) => area_of(rect, width, height),
    }
}

fn common_of(a: &Area, b: &Area) -> Area
    ensures { result ≡ common a.now b.now }
{
    Area {
        left: a.left.max(b.left),
        top: a.top.max(b.top),
        right: a.right.min(b.right),
        bottom: a.bottom.min(b.bottom),
    }
}

fn shifted_by(area: &Area, shift: &Shift) -> Area
    requires area { (area.now.left < 131072) × (area.now.top < 131072) × (area.now.right < 131072) × (area.now.bottom < 131072) }
    requires shift { (shift.now.right < 131072) × (shift.now.down < 131072) }
    ensures { result ≡ shifted area.now shift.now }
{
    Area {
        left: (area.left + shift.right).saturating_sub(shift.left),
        top: (area.top + shift.down).saturating_sub(shift.up),
        right: (area.right + shift.right).saturating_sub(shift.left),
        bottom: (area.bottom + shift.down).saturating_sub(shift.up),
    }
}

impl Shift {
    fn goes_back(&self) -> bool
        ensures { result ≡ goes_back self.now }
    {
        self.down == 0 && (0 < self.up || self.right == 0)
    }
}

/// Moves cells into an area, in the order of the rows.
fn move_back(grid: &mut Grid, to: &Area, shift: &Shift)
    requires some { has_cells to.now ≡ true }
    requires comes { ComesFrom grid.old to.now shift.now }
    requires back { goes_back shift.now ≡ true }
    ensures grid { grid.new ≡ redrawn grid.old (move_rule grid.old to.now shift.now) }
    ensures picture { IsPicture grid.new }
{
    let width = grid.size().w as usize;
    for y in to.top..to.bottom {
        for x in to.left..to.right {
            let cell = grid.at(
                (y + shift.up - shift.down) * width + (x + shift.left - shift.right),
            );
            grid.put(y * width + x, cell);
        }
    }
}

/// Moves cells into an area, against the order of the rows.
fn move_on(grid: &mut Grid, to: &Area, shift: &Shift)
    requires some { has_cells to.now ≡ true }
    requires comes { ComesFrom grid.old to.now shift.now }
    requires on { goes_on shift.now ≡ true }
    ensures grid { grid.new ≡ redrawn grid.old (move_rule grid.old to.now shift.now) }
    ensures picture { IsPicture grid.new }
{
    let width = grid.size().w as usize;
    let mut y = to.bottom;
    while to.top < y {
        y -= 1;
        let mut x = to.right;
        while to.left < x {
            x -= 1;
            let cell = grid.at(
                (y + shift.up - shift.down) * width + (x + shift.left - shift.right),
            );
            grid.put(y * width + x, cell);
        }
    }
}

/// Fills the cells of an area that are not in another.
fn fill_left(grid: &mut Grid, from: &Area, to: &Area, fill: Cell)
    requires some { has_cells from.now ≡ true }
    requires right { from.now.right ≤ grid.old.width }
    requires bottom { from.now.bottom ≤ grid.old.height }
    ensures grid { grid.new ≡ redrawn grid.old (free_rule grid.old from.now to.now fill) }
    ensures picture { IsPicture grid.new }
{
    let width = grid.size().w as usize;
    for y in from.top..from.bottom {
        for x in from.left..from.right {
            if !to.contains(x, y) {
                grid.put(y * width + x, fill);
            }
        }
    }
}

/// Moves cells into an area, in the order in which none is read after it was written.
fn move_cells(grid: &mut Grid, to: &Area, shift: &Shift)
    requires some { has_cells to.now ≡ true }
    requires comes { ComesFrom grid.old to.now shift.now }
    requires one { goes_back shift.now ≡ false → goes_on shift.now ≡ true }
    ensures grid { grid.new ≡ redrawn grid.old (move_rule grid.old to.now shift.now) }
    ensures picture { IsPicture grid.new }
{
    if shift.goes_back() {
        move_back(grid, to, shift);
    } else {
        move_on(grid, to, shift);
    }
}

/// Moves cells into an area that may have none.
fn move_into(grid: &mut Grid, to: &Area, shift: &Shift)
    requires comes { has_cells to.now ≡ true → ComesFrom grid.old to.now shift.now }
    requires one { goes_back shift.now ≡ false → goes_on shift.now ≡ true }
    ensures grid { grid.new ≡ redrawn grid.old (move_rule grid.old to.now shift.now) }
    ensures picture { IsPicture grid.new }
{
    // the grid is a picture, for `picture` where nothing is written
    let _size = grid.size();
    if to.has_cells() {
        move_cells(grid, to, shift);
    }
}

/// Fills the cells of an area, which may have none, that are not in another.
fn fill_out(grid: &mut Grid, from: &Area, to: &Area, fill: Cell)
    requires right { from.now.right ≤ grid.old.width }
    requires bottom { from.now.bottom ≤ grid.old.height }
    ensures grid { grid.new ≡ redrawn grid.old (free_rule grid.old from.now to.now fill) }
    ensures picture { IsPicture grid.new }
{
    // the grid is a picture, for `picture` where nothing is written
    let _size = grid.size();
    if from.has_cells() {
        fill_left(grid, from, to, fill);
    }
}

/// Moves the cells of the part of `source` that the grid has, so that the corner of `source` comes to `dest`,
/// and fills what they leave. Nothing outside `clip` changes, if there is one.
pub fn scroll_rect(grid: &mut Grid, source: Rect, clip: Option<Rect>, dest: Coord, fill: Cell)
    ensures grid { grid.new ≡ scrolled grid.old source clip dest (plain_cell fill) }
    ensures picture { IsPicture grid.new }
{
    let size = grid.size();
    let width = size.w as usize;
    let height = size.h as usize;
    let shift = shift_from(&source, dest);
    let limits = clip_of(&clip, width, height);
    let area = area_of(&source, width, height);
    let moved = shifted_by(&area, &shift);
    let to = common_of(&moved, &limits);
    let from = common_of(&area, &limits);
    move_into(grid, &to, &shift);
    fill_out(grid, &from, &to, fill.plain());
}
