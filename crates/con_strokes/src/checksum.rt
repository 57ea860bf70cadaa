//! A checksum of each row's cells: rows whose checksums differ are not the same.
ghost use Rattle.std.specs.Prelude.{◌≡◌, ◌+◌, ◌<◌, ◌≤◌, ℕ, true, if◌then◌else◌, length, slice_index_or};
ghost use Rattle.con_strokes.specs.Checksum.{shade_number, cell_number, next_checksum, checksum_of};

use con_units::{Cell, Shade};

/// The checksums of a row: as it was painted last, and as it is in the view that is painted.
#[derive(Clone, Copy)]
pub struct Checksums {
    pub was: u64,
    pub now: u64,
}

// A shade's number.
fn of_shade(shade: Shade) -> u64
    ensures value { result ≡ shade_number shade }
    ensures small { result < 256 }
{
    match shade {
        Shade::Plain => 0,
        Shade::Index(n) => n as u64,
    }
}

// A cell's number, of 48 bits.
fn of_cell(cell: Cell) -> u64
    ensures { result ≡ cell_number cell }
{
    let attr = cell.attr();
    let word = attr.bits() as u64;
    let fore = of_shade(attr.fore());
    let back = of_shade(attr.back());
    cell.unit() as u64 + word * 0x10000 + fore * 0x1_0000_0000 + back * 0x100_0000_0000
}

// The checksum with one more cell.
#[tactic(auto, unfolding(crate::specs::Checksum::next_checksum))]
fn next(sum: u64, cell: Cell) -> u64
    ensures { result ≡ next_checksum sum cell }
{
    sum.wrapping_mul(6364136223846793005)
        .wrapping_add(of_cell(cell))
}

// The checksum of a row.
fn checksum(row: &[Cell]) -> u64
    ensures { result ≡ checksum_of row.now }
{
    let mut sum = 0;
    for i in 0..row.len() {
        sum = next(sum, row[i]);
    }
    sum
}

/// The checksums of a row that is painted next: the one that it had is what it was, and where it differs its cells are summed.
pub fn renewed(before: Checksums, differs: bool, row: &[Cell]) -> Checksums
    ensures was { result.was ≡ before.now }
    ensures now { result.now ≡ (if differs then checksum_of row.now else before.now) }
{
    let was = before.now;
    if differs {
        let now = checksum(row);
        return Checksums { was, now };
    }
    Checksums { was, now: was }
}

/// Whether each row has the checksum that the row so many behind it had.
pub fn agree(sums: &[Checksums], by: usize) -> bool
    requires { by ≤ length sums.now }
    ensures agree { result ≡ true → (y : ℕ) (a b : Checksums) → y + by < length sums.now
        → (slice_index_or sums.now y a).now ≡ (slice_index_or sums.now (y + by) b).was }
    ensures differ { ((y : ℕ) (a b : Checksums) → y + by < length sums.now
        → (slice_index_or sums.now y a).now ≡ (slice_index_or sums.now (y + by) b).was) → result ≡ true }
{
    for y in 0..sums.len() - by {
        let now = sums[y].now;
        let was = sums[y + by].was;
        if now != was {
            return false;
        }
    }
    true
}
