//! The console's title.
ghost use Rattle.std.specs.Prelude.{◌≡◌, ◌≤◌, [], length, IfOk};

use con_units::OutOfMemory;
use std::alloc::Global;
use std::marker::Model;

/// At most 255 units, for which there is always room.
#[derive(Drop)]
pub struct Title {
    units: Vec<u16>,
}

impl Model for Title {
    ghost use Rattle.std.specs.Prelude.{ℕ, ◌≤◌, List, vec_len, vec_capacity};

    ghost Value = { List ℕ };

    ghost view = { λ t. t.units.items };

    ghost invariant = { λ t. (vec_len t.units ≤ 255) × (255 ≤ vec_capacity t.units) };
}

impl Title {
    /// No unit.
    pub fn new(alloc: Global) -> Result<Title, OutOfMemory>
        ensures { IfOk result (λ t. t ≡ []) }
    {
        match Vec::with_capacity(alloc, 255) {
            Ok(units) => Ok(Title { units }),
            Err(_) => Err(OutOfMemory),
        }
    }

    /// Its units.
    pub fn as_slice(&self) -> &[u16]
        ensures is { result.now ≡ self.now }
        ensures few { length result.now ≤ 255 }
    {
        self.units.as_slice()
    }

    /// What the memory comes from.
    pub fn allocator(&self) -> Global {
        *self.units.allocator()
    }

    /// It becomes these units.
    pub fn set(&mut self, units: &[u16])
        requires { length units.now ≤ 255 }
        ensures { self.new ≡ units.now }
    {
        self.units.clear();
        for unit in units {
            self.units.push_reserved(*unit);
        }
    }
}
