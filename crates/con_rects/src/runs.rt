//! Writing over the cells of a run.
ghost use Rattle.std.specs.Prelude.{replicate, ◌≡◌, ◌+◌, ◌-◌, ◌*◌, ◌<◌, ◌≤◌, ◌^◌, ◌&&◌, min, length, IfOk, IfErr};
ghost use Rattle.con_units.specs.declared.code.Code.TheVariants.{Limit};
ghost use Rattle.con_grid.specs.Picture.{place as place_of};
ghost use Rattle.con_grid.specs.Words.Picture.{IsPicture};
ghost use Rattle.con_rects.specs.Rules.{redrawn};
ghost use Rattle.con_rects.specs.Runs.{run_count};
ghost use Rattle.con_rects.specs.Runs.{units_written, words_written, unit_filled, word_filled};
ghost use Rattle.con_rects.specs.Parts.{has_place, run_length, run_rule, with_unit, with_word};

use crate::area::natural_of;
use con_grid::Grid;
use con_units::{Attr, Cell, Code, Coord};

fn has(grid: &Grid, at: Coord) -> bool
    ensures { result ≡ has_place grid.now at }
{
    let size = grid.size();
    0 <= at.x
        && 0 <= at.y
        && natural_of(at.x) < size.w as usize
        && natural_of(at.y) < size.h as usize
}

/// The place in the list of cells, for a start that the grid has.
pub fn start_of(grid: &Grid, at: Coord) -> usize
    ensures { result ≡ place_of grid.now at }
{
    natural_of(at.y) * grid.size().w as usize + natural_of(at.x)
}

/// How many cells there are from a start on.
pub fn room_from(grid: &Grid, at: Coord) -> usize
    ensures room { result ≡ run_length grid.now at }
    ensures small { result < 2 ^ 21 }
    ensures picture { IsPicture grid.now }
    ensures inside { 0 < result → place_of grid.now at + result ≡ length grid.now.cells }
{
    let size = grid.size();
    let count = size.w as usize * size.h as usize;
    if has(grid, at) {
        count - start_of(grid, at)
    } else {
        0
    }
}

fn other_unit(cell: Cell, unit: u16) -> Cell
    ensures { result ≡ with_unit cell unit }
{
    Cell::new(unit, cell.attr())
}

fn other_word(cell: Cell, word: u16) -> Cell
    ensures { result ≡ with_word cell word }
{
    Cell::new(cell.unit(), Attr::of(word))
}

/// Writes a unit over n cells from a place in the list of cells on.
fn fill_unit(grid: &mut Grid, from: usize, n: usize, unit: u16)
    requires { 0 < n → from + n ≤ length grid.old.cells }
    ensures grid { grid.new ≡ redrawn grid.old (run_rule grid.old from n with_unit (replicate n unit)) }
    ensures picture { IsPicture grid.new }
{
    // the grid is a picture, for `picture` where nothing is written
    let _size = grid.size();
    for k in 0..n {
        let cell = other_unit(grid.at(from + k), unit);
        grid.put(from + k, cell);
    }
}

/// Writes a word over n cells from a place in the list of cells on.
fn fill_word(grid: &mut Grid, from: usize, n: usize, word: u16)
    requires { 0 < n → from + n ≤ length grid.old.cells }
    ensures grid { grid.new ≡ redrawn grid.old (run_rule grid.old from n with_word (replicate n word)) }
    ensures picture { IsPicture grid.new }
{
    // the grid is a picture, for `picture` where nothing is written
    let _size = grid.size();
    for k in 0..n {
        let cell = other_word(grid.at(from + k), word);
        grid.put(from + k, cell);
    }
}

/// Writes units over n cells from a place in the list of cells on.
fn write_units(grid: &mut Grid, from: usize, n: usize, units: &[u16])
    requires inside { 0 < n → from + n ≤ length grid.old.cells }
    requires given { n ≤ length units.now }
    ensures grid { grid.new ≡ redrawn grid.old (run_rule grid.old from n with_unit units.now) }
    ensures picture { IsPicture grid.new }
{
    // the grid is a picture, for `picture` where nothing is written
    let _size = grid.size();
    for k in 0..n {
        let cell = other_unit(grid.at(from + k), units[k]);
        grid.put(from + k, cell);
    }
}

/// Writes words over n cells from a place in the list of cells on.
fn write_words(grid: &mut Grid, from: usize, n: usize, words: &[u16])
    requires inside { 0 < n → from + n ≤ length grid.old.cells }
    requires given { n ≤ length words.now }
    ensures grid { grid.new ≡ redrawn grid.old (run_rule grid.old from n with_word words.now) }
    ensures picture { IsPicture grid.new }
{
    // the grid is a picture, for `picture` where nothing is written
    let _size = grid.size();
    for k in 0..n {
        let cell = other_word(grid.at(from + k), words[k]);
        grid.put(from + k, cell);
    }
}

/// Writes units over cells row by row from a start, as far as there are cells, and tells over how many. Their attributes
/// stay (`WriteConsoleOutputCharacter`).
///
/// A start outside the grid changes none. `Limit` says that there are more than 16,384.
pub fn write_run_units(grid: &mut Grid, from: Coord, units: &[u16]) -> Result<u32, Code>
    ensures done { IfOk result (λ r. (run_count grid.old from (length units.now) ≤ 16384) × (r ≡ run_count grid.old from (length units.now))
        × (grid.new ≡ units_written grid.old from units.now)) }
    ensures refused { IfErr result (λ e. (e ≡ Limit) × (16384 < run_count grid.old from (length units.now)) × (grid.new ≡ grid.old)) }
    ensures picture { IsPicture grid.new }
{
    let count = units.len().min(room_from(grid, from));
    if 16384 < count {
        return Err(Code::Limit);
    }
    let at = start_of(grid, from);
    write_units(grid, at, count, units);
    Ok(count as u32)
}

/// Writes words with plain shades over cells row by row from a start, as far as there are cells, and tells over how many
/// (`WriteConsoleOutputAttribute`).
///
/// A start outside the grid changes none. `Limit` says that there are more than 16,384.
pub fn write_run_attrs(grid: &mut Grid, from: Coord, words: &[u16]) -> Result<u32, Code>
    ensures done { IfOk result (λ r. (run_count grid.old from (length words.now) ≤ 16384) × (r ≡ run_count grid.old from (length words.now))
        × (grid.new ≡ words_written grid.old from words.now)) }
    ensures refused { IfErr result (λ e. (e ≡ Limit) × (16384 < run_count grid.old from (length words.now)) × (grid.new ≡ grid.old)) }
    ensures picture { IsPicture grid.new }
{
    let count = words.len().min(room_from(grid, from));
    if 16384 < count {
        return Err(Code::Limit);
    }
    let at = start_of(grid, from);
    write_words(grid, at, count, words);
    Ok(count as u32)
}

/// Writes a unit over n cells row by row from a start, or over as many as there are, and tells how many. Their attributes
/// stay (`FillConsoleOutputCharacter`).
pub fn fill_units(grid: &mut Grid, from: Coord, n: u32, unit: u16) -> u32
    ensures count { result ≡ run_count grid.old from n }
    ensures grid { grid.new ≡ unit_filled grid.old from n unit }
    ensures picture { IsPicture grid.new }
{
    let count = (n as usize).min(room_from(grid, from));
    let at = start_of(grid, from);
    fill_unit(grid, at, count, unit);
    count as u32
}

/// Writes a word with plain shades over n cells row by row from a start, or over as many as there are, and tells how many
/// (`FillConsoleOutputAttribute`).
pub fn fill_attrs(grid: &mut Grid, from: Coord, n: u32, word: u16) -> u32
    ensures count { result ≡ run_count grid.old from n }
    ensures grid { grid.new ≡ word_filled grid.old from n word }
    ensures picture { IsPicture grid.new }
{
    let count = (n as usize).min(room_from(grid, from));
    let at = start_of(grid, from);
    fill_word(grid, at, count, word);
    count as u32
}
