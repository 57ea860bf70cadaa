//! Reading all that a source has left.

ghost use Rattle.std.specs.Prelude.{◌≡◌, ℕ, ◌+◌, ◌<◌, ◌≤◌, List, [], ◌++◌, length, take, Option, Some, None, IfSome, IfOk};
ghost use Rattle.con_outside.specs.Outside.{Rose, then_left};
ghost use Rattle.con_outside.specs.Reading.{IsRead};

use crate::files::{Found, MOST};
use crate::traits::{Fault, Source};

/// Reads to the end of a source into the empty `out`, unless it has more than 16,777,216 bytes.
pub fn read_whole<I: Source>(source: &mut I, out: &mut Vec<u8>) -> Result<Found, Fault>
    requires { out.old.items ≡ [] }
    ensures read { IfOk result (λ f. IsRead f (I.left source.old) out.new.items (I.left source.new)) }
    ensures bound { result ≡ Ok Found.Whole → length out.new.items ≤ 16777216 }
    ensures failed { result ≡ Err Fault.Failed → Rose (I.faults source.old) (I.faults source.new) }
    ensures never_falls { I.faults source.old ≤ I.faults source.new }
{
    let mut piece = [0u8; 4096];
    while out.len() <= MOST {
        match source.read(&mut piece) {
            Ok(0) => return Ok(Found::Whole),
            Ok(n) => {
                if out.extend_from_slice(&piece[..n]).is_err() {
                    return Err(Fault::OutOfMemory);
                }
            }
            Err(_) => return Err(Fault::Failed),
        }
    }
    Ok(Found::TooLong)
}
