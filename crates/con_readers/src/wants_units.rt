// A read of units without line mode.
ghost use Rattle.std.specs.Prelude.{◌≡◌, ℕ, ◌+◌, ◌-◌, ◌<◌, ◌≤◌, List, [], ◌∷◌, ◌++◌, length, IfOk, OnOk, IfErr, vec_len, vec_capacity};
ghost use Rattle.con_readers.specs.Wants.{typed_unit, units_of, rest_of};

use con_records::{Record, Records};
use con_units::{OutOfMemory, Units};
use std::alloc::Global;
use std::marker::Model;

/// A read of at most so many units, with room for these. Contracts see how many it wants.
pub struct WantsUnits {
    n: usize,
    room: Vec<u16>,
}

impl Model for WantsUnits {
    ghost use Rattle.std.specs.Prelude.{◌≡◌, ℕ, ◌≤◌, ◌<◌, vec_len, vec_capacity};

    ghost Value = { ℕ };

    ghost view = { λ a. a.n };

    ghost invariant = { λ a. (a.n ≤ vec_capacity a.room) × (vec_len a.room ≡ 0) × (0 < a.n) };
}

// By hand, so that what drops one has this call in its proof, and not all that lies in one.
impl Drop for WantsUnits {
    fn drop(self) {
        let WantsUnits { n: _, room: _ } = self;
    }
}

/// The unit of a key-down, or 0.
pub fn unit_of(one: Record) -> u16
    ensures { result ≡ typed_unit one }
{
    match one {
        Record::Key(key) => { if key.down { key.unit } else { 0 } }
        Record::Mouse(_) => 0,
        Record::Size(_) => 0,
        Record::Menu(_) => 0,
        Record::Focus(_) => 0,
    }
}

fn take_units(n: usize, records: &mut Records, out: &mut Vec<u16>)
    requires room { n ≤ vec_capacity out.old }
    requires empty { out.old.items ≡ [] }
    ensures out { out.new.items ≡ units_of n records.old.items }
    ensures rest { records.new ≡ record records.old { items = rest_of n records.old.items } }
    ensures room { vec_capacity out.new ≡ vec_capacity out.old }
{
    while out.len() < n {
        let Some(one) = records.pop() else {
            break;
        };
        let unit = unit_of(one);
        if unit != 0 {
            out.push_reserved(unit);
        }
    }
}

impl WantsUnits {
    /// A read of n units.
    pub fn new(alloc: Global, n: u32) -> Result<WantsUnits, OutOfMemory>
        requires { 0 < n }
        ensures { IfOk result (λ w. w ≡ n) }
    {
        let n = n as usize;
        match Vec::with_capacity(alloc, n) {
            Ok(room) => Ok(WantsUnits { n, room }),
            Err(_) => Err(OutOfMemory),
        }
    }

    /// Takes records up to the last unit that it wants. Where they have no unit it still wants all.
    pub fn take(self, records: &mut Records) -> Result<Units, WantsUnits>
        ensures units { IfOk result (λ units. units ≡ units_of self records.old.items) }
        ensures some { OnOk result (0 < length (units_of self records.old.items)) }
        ensures none { IfErr result (λ wants. (wants ≡ self) × (units_of self records.old.items ≡ []) × (records.new ≡ record records.old { items = [] })) }
        ensures rest { IfOk result (λ units. records.new ≡ record records.old { items = rest_of self records.old.items }) }
    {
        let WantsUnits { n, mut room } = self;
        take_units(n, records, &mut room);
        if room.is_empty() {
            Err(WantsUnits { n, room })
        } else {
            Ok(Units(room))
        }
    }
}
