//! A line that is kept, with checksums of its beginnings.
ghost use Rattle.std.specs.Prelude.{◌≡◌, ℕ, ◌+◌, ◌*◌, ◌/◌, ◌≤◌, List, length, take, fold, nat_eq};
ghost use Rattle.std.specs.List.{starts_with};
ghost use Rattle.con_history.specs.Sums.{AreSums, next_sum, sum_of};

use con_units::Units;
use std::marker::Model;

/// How many units there are from one checksum to the next.
const BLOCK: usize = 64;
/// How many checksums a line of 1,024 units has.
const BLOCKS: usize = 16;

/// A line of at most 1,024 units. Contracts see its units.
#[derive(Drop)]
pub struct Kept {
    units: Units,
    sums: [u32; BLOCKS],
}

impl Model for Kept {
    ghost use Rattle.std.specs.Prelude.{ℕ, ◌≤◌, List, length};
    ghost use Rattle.con_history.specs.Sums.{AreSums};

    ghost Value = { List ℕ };

    ghost view = { λ kept. kept.units };

    ghost invariant = { λ kept. (length kept.units ≤ 1024) × AreSums kept.units kept.sums };
}

// The checksum with one unit more.
#[tactic(auto, unfolding(crate::specs::Sums::next_sum))]
fn next(sum: u32, unit: u16) -> u32
    ensures { result ≡ next_sum sum unit }
{
    sum.wrapping_mul(16_777_619).wrapping_add(unit as u32)
}

// The checksum with these units more.
fn sum_on(sum: u32, units: &[u16]) -> u32
    ensures { result ≡ fold next_sum sum units.now }
{
    let mut after = sum;
    for i in 0..units.len() {
        after = next(after, units[i]);
    }
    after
}

// The checksums of a line's beginnings.
fn sums(units: &[u16]) -> [u32; BLOCKS]
    requires { length units.now ≤ 1024 }
    ensures { AreSums units.now result }
{
    let mut sums = [0; BLOCKS];
    let mut sum = 0;
    for b in 0..units.len() / BLOCK {
        sum = sum_on(sum, &units[b * BLOCK..(b + 1) * BLOCK]);
        sums[b] = sum;
    }
    sums
}

/// The checksum of the whole blocks that units begin with.
pub fn whole_sum(units: &[u16]) -> u32
    ensures { result ≡ sum_of (take (length units.now / 64 * 64) units.now) }
{
    sum_on(0, &units[..units.len() / BLOCK * BLOCK])
}

impl Kept {
    /// A line, with its checksums.
    pub fn new(units: Units) -> Kept
        requires { length units ≤ 1024 }
        ensures { result ≡ units }
    {
        let sums = sums(units.as_slice());
        Kept { units, sums }
    }

    /// The line.
    pub fn units(&self) -> &Units
        ensures units { result.now ≡ self.now }
        ensures short { length result.now ≤ 1024 }
    {
        &self.units
    }

    /// Whether the line begins with these units, whose whole blocks have this checksum. A line that does not is mostly told by its
    /// checksum or by the units behind the last whole block.
    pub fn begins_with(&self, start: &[u16], sum: u32) -> bool
        requires { sum ≡ sum_of (take (length start.now / 64 * 64) start.now) }
        ensures { result ≡ starts_with nat_eq self.now start.now }
    {
        let units = self.units.as_slice();
        let blocks = start.len() / BLOCK;
        if units.len() < start.len() {
            return false;
        }
        if 0 < blocks && self.sums[blocks - 1] != sum {
            return false;
        }
        let whole = blocks * BLOCK;
        units[whole..].starts_with(&start[whole..]) && units.starts_with(start)
    }
}
