// A read of records.
ghost use Rattle.std.specs.Prelude.{◌≡◌, ◌+◌, ◌<◌, ◌≤◌, take, IfOk};
ghost use Rattle.con_records.specs.Queue.{without_first};

use con_records::{Record, Records, Taken};
use con_units::OutOfMemory;
use std::alloc::Global;
use std::marker::Model;

/// A read of at most so many records, of one at least, with room for these. Contracts see how many it wants.
pub struct WantsRecords {
    n: usize,
    room: Vec<Record>,
}

impl Model for WantsRecords {
    ghost use Rattle.std.specs.Prelude.{◌≡◌, ℕ, ◌≤◌, ◌<◌, vec_len, vec_capacity};

    ghost Value = { ℕ };

    ghost view = { λ a. a.n };

    ghost invariant = { λ a. (a.n ≤ vec_capacity a.room) × (vec_len a.room ≡ 0) × (0 < a.n) };
}

// By hand, so that what drops one has this call in its proof, and not all that lies in one.
impl Drop for WantsRecords {
    fn drop(self) {
        let WantsRecords { n: _, room: _ } = self;
    }
}

impl WantsRecords {
    /// A read of n records.
    pub fn new(alloc: Global, n: u32) -> Result<WantsRecords, OutOfMemory>
        requires { 0 < n }
        ensures { IfOk result (λ w. w ≡ n) }
    {
        let n = n as usize;
        match Vec::with_capacity(alloc, n) {
            Ok(room) => Ok(WantsRecords { n, room }),
            Err(_) => Err(OutOfMemory),
        }
    }

    /// Takes the first records, as many as there are of those that it wants.
    pub fn take(self, records: &mut Records) -> Taken
        ensures taken { result ≡ take self records.old.items }
        ensures rest { records.new ≡ without_first records.old self }
    {
        let WantsRecords { n, mut room } = self;
        records.take(n, &mut room);
        Taken(room)
    }
}
