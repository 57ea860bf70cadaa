//! What is left of a line for the next read.
ghost use Rattle.std.specs.Prelude.{◌≡◌, []};

use con_units::Units;
use std::alloc::Global;
use std::mem;

/// The units of a finished line that a read did not answer, kept for the next line read of that handle.
#[derive(Drop)]
pub struct Rest {
    pub process: u8,
    pub handle: u32,
    pub units: Units,
}

impl Rest {
    /// It becomes these units.
    pub(crate) fn set(&mut self, units: Units)
        ensures { self.new ≡ record self.old { units = units } }
    {
        self.units = units;
    }

    /// An empty rest takes other memory, and stays as it was.
    pub(crate) fn give_room(&mut self, room: Units)
        requires { room ≡ [] }
        ensures { self.new ≡ self.old }
    {
        if self.units.as_slice().is_empty() {
            self.units = room;
        }
    }

    /// The memory of an empty rest, which stays empty without it; none of one that is not.
    pub(crate) fn take_room(&mut self, alloc: Global) -> Units
        ensures empty { result ≡ [] }
        ensures same { self.new ≡ self.old }
    {
        let none = Units(Vec::new(alloc));
        if self.units.as_slice().is_empty() {
            mem::replace(&mut self.units, none)
        } else {
            none
        }
    }
}
