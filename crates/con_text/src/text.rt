//! Units as bytes of UTF-8.

ghost use Rattle.std.specs.Prelude.{◌≡◌, ℕ, ◌+◌, ◌*◌, ◌/◌, ◌%◌, ◌<◌, ◌≤◌, List, [], ◌∷◌, ◌++◌, IfOk, OnOk, flat_map};
ghost use Rattle.con_text.specs.Encoded.{unit_bytes};

use con_units::OutOfMemory;
use std::alloc::{AllocError, Global};

// Puts the bytes of a unit last.
#[tactic(auto, unfolding(crate::specs::Encoded::unit_bytes))]
fn push_unit(out: &mut Vec<u8>, unit: u16) -> Result<(), AllocError>
    ensures { OnOk result (out.new.items ≡ out.old.items ++ unit_bytes unit) }
{
    if unit < 0x80 {
        out.push(unit as u8)?;
    } else if unit < 0x800 {
        out.push((192 + unit / 64) as u8)?;
        out.push((128 + unit % 64) as u8)?;
    } else {
        out.push((224 + unit / 4096) as u8)?;
        out.push((128 + unit / 64 % 64) as u8)?;
        out.push((128 + unit % 64) as u8)?;
    }
    Ok(())
}

/// The UTF-8 of units (RFC 3629), none of which is half of a surrogate pair.
pub fn encoded(alloc: Global, units: &[u16]) -> Result<Vec<u8>, OutOfMemory>
    ensures { IfOk result (λ bytes. bytes.items ≡ flat_map unit_bytes units.now) }
{
    let mut out = Vec::new(alloc);
    for unit in units {
        if push_unit(&mut out, *unit).is_err() {
            return Err(OutOfMemory);
        }
    }
    Ok(out)
}
