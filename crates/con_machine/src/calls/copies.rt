//! Lists in memory of their own.
ghost use Rattle.std.specs.Prelude.{◌≡◌, [], IfOk};

use con_events::Numbers;
use con_units::{OutOfMemory, Units};
use std::alloc::Global;

/// These numbers, in memory of their own.
pub(crate) fn numbers(alloc: Global, list: &[i64]) -> Result<Numbers, OutOfMemory>
    ensures { IfOk result (λ n. n ≡ list.now) }
{
    let Ok(mut room) = Vec::with_capacity(alloc, list.len()) else {
        return Err(OutOfMemory);
    };
    for number in list {
        room.push_reserved(*number);
    }
    Ok(Numbers(room))
}

/// These units, in memory that is given, or in other where it is too small.
pub(crate) fn text_in(room: Units, units: &[u16]) -> Result<Units, OutOfMemory>
    requires { room ≡ [] }
    ensures { IfOk result (λ u. u ≡ units.now) }
{
    let mut list = room.into_vec();
    if list.reserve(units.len()).is_err() {
        return Err(OutOfMemory);
    }
    for unit in units {
        list.push_reserved(*unit);
    }
    Ok(Units(list))
}

/// These units, in memory of their own.
pub(crate) fn text(alloc: Global, units: &[u16]) -> Result<Units, OutOfMemory>
    ensures { IfOk result (λ u. u ≡ units.now) }
{
    text_in(Units(Vec::new(alloc)), units)
}
