// The places of the handlers that a process may add.
ghost use Rattle.std.specs.Prelude.{◌≡◌, ℕ, ◌<◌, List, length, IfOk, slice_get, slice_set, replicate};
ghost use Rattle.con_procs.specs.declared.rack.Place.{Place};
ghost use Rattle.con_procs.specs.declared.rack.Place.TheVariants.{Fresh};

use con_units::OutOfMemory;
use std::alloc::Global;
use std::marker::Model;

/// What a place of a rack is: never added, in the chain, or taken out again. A place is added at most once.
#[derive(Clone, Copy, PartialEq, Eq)]
pub enum Place {
    Fresh,
    Chained,
    Removed,
}

/// The places of one process. Contracts see the list of them.
pub struct Rack {
    places: Vec<Place>,
}

impl Model for Rack {
    ghost use Rattle.std.specs.Prelude.{List};
    ghost use Rattle.con_procs.specs.declared.rack.Place.{Place};

    ghost Value = { List Place };

    ghost view = { λ a. a.places.items };
}

// By hand, so that what drops one has this call in its proof, and not all that lies in one.
impl Drop for Rack {
    fn drop(self) {
        let Rack { places: _ } = self;
    }
}

impl Rack {
    /// So many places, none of which was added.
    pub fn new(alloc: Global, count: u8) -> Result<Rack, OutOfMemory>
        ensures { IfOk result (λ r. r ≡ replicate count Place.Fresh) }
    {
        let mut places = match Vec::with_capacity(alloc, count as usize) {
            Ok(places) => places,
            Err(_) => return Err(OutOfMemory),
        };
        for i in 0..count {
            // the loop's invariant counts by it
            let _ = i;
            places.push_reserved(Place::Fresh);
        }
        Ok(Rack { places })
    }

    /// What the place is, if the rack has it.
    pub fn place(&self, place: u8) -> Option<Place>
        ensures { result ≡ slice_get self.now place }
    {
        self.places.get(place as usize).copied()
    }

    /// Changes a place.
    pub fn set(&mut self, place: u8, to: Place)
        ensures { self.new ≡ slice_set self.old place to }
    {
        let at = place as usize;
        if at < self.places.len() {
            self.places[at] = to;
        }
    }
}
