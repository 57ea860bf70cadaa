//! The part of a rectangle that a buffer has.
ghost use Rattle.std.specs.Prelude.{◌≡◌, ℤ, pos, negsuc, ◌-ℤ◌, ◌<◌, ◌≤◌, ◌↔◌};
ghost use Rattle.con_units.specs.Natural.{natural};
ghost use Rattle.con_units.specs.Rect.{IsIn};
ghost use Rattle.con_rects.specs.Area.{used_rect};
ghost use Rattle.con_rects.specs.Parts.{wide, past, area_in, area_size, is_within, has_cells, rect_of, whole};

use con_units::{Coord, Rect, Size};

/// Columns and rows of a buffer, up to those at its right and bottom and without these.
#[derive(Clone, Copy, PartialEq, Eq)]
pub struct Area {
    pub left: usize,
    pub top: usize,
    pub right: usize,
    pub bottom: usize,
}

pub fn natural_of(number: i16) -> usize
    ensures { result ≡ natural number }
{
    if number < 0 { 0 } else { number as usize }
}

pub fn past_of(number: i16) -> usize
    ensures { result ≡ past number }
{
    if number < 0 { 0 } else { number as usize + 1 }
}

/// How far a number is above another, and 0 where it is not.
pub fn ahead(from: i16, to: i16) -> usize
    ensures value { result ≡ natural (to -ℤ from) }
    ensures small { result < 131072 }
{
    let by = i32::from(to) - i32::from(from);
    if by < 0 { 0 } else { by as usize }
}

/// How many columns a rectangle has as it is given.
pub fn wide_of(rect: &Rect) -> usize
    ensures { result ≡ wide rect.now }
{
    if rect.left <= rect.right {
        ahead(rect.left, rect.right) + 1
    } else {
        0
    }
}

pub fn place(x: usize, y: usize) -> Coord
    requires x { x < 512 }
    requires y { y < 2048 }
    ensures x { result.x ≡ pos x }
    ensures y { result.y ≡ pos y }
{
    Coord {
        x: x as i16,
        y: y as i16,
    }
}

pub fn area_of(rect: &Rect, width: usize, height: usize) -> Area
    ensures { result ≡ area_in rect.now width height }
{
    Area {
        left: natural_of(rect.left),
        top: natural_of(rect.top),
        right: past_of(rect.right).min(width),
        bottom: past_of(rect.bottom).min(height),
    }
}

impl Area {
    /// Whether it has a column and a row.
    pub fn contains(&self, x: usize, y: usize) -> bool
        ensures { result ≡ is_within self.now x y }
    {
        self.left <= x && x < self.right && self.top <= y && y < self.bottom
    }

    /// Whether it has a cell.
    pub fn has_cells(&self) -> bool
        ensures { result ≡ has_cells self.now }
    {
        self.left < self.right && self.top < self.bottom
    }

    /// How many cells it has.
    pub fn count(&self) -> usize
        requires wide { self.now.right ≤ 512 }
        requires tall { self.now.bottom ≤ 2048 }
        ensures { result ≡ area_size self.now }
    {
        self.right.saturating_sub(self.left) * self.bottom.saturating_sub(self.top)
    }

    /// It as a rectangle.
    pub fn rect(&self) -> Rect
        requires wide { self.now.right ≤ 512 }
        requires tall { self.now.bottom ≤ 2048 }
        ensures { result ≡ rect_of self.now }
    {
        if self.has_cells() {
            Rect {
                left: self.left as i16,
                top: self.top as i16,
                right: (self.right - 1) as i16,
                bottom: (self.bottom - 1) as i16,
            }
        } else {
            Rect {
                left: 0,
                top: 0,
                right: -1,
                bottom: -1,
            }
        }
    }
}

/// The part of a rectangle that a buffer of this size has, or (0, 0, -1, -1) where it has none of it.
pub fn used(size: Size, rect: Rect) -> Rect
    requires wide { size.w ≤ 512 }
    requires tall { size.h ≤ 2048 }
    ensures rect { result ≡ used_rect rect size.w size.h }
    ensures common { (x y : ℤ) → IsIn result x y ↔ (IsIn rect x y × IsIn (whole size.w size.h) x y) }
    ensures none { ((x y : ℤ) → ¬ (IsIn rect x y × IsIn (whole size.w size.h) x y))
        → result ≡ record { left = pos 0; top = pos 0; right = negsuc 0; bottom = negsuc 0 } }
{
    area_of(&rect, size.w as usize, size.h as usize).rect()
}
