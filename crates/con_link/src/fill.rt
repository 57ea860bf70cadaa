//! Filling a buffer from a link.

ghost use Rattle.std.specs.Prelude.{◌≡◌, ℕ, ◌+◌, ◌<◌, ◌≤◌, List, [], ◌++◌, length, take, Option, Some, None, IfSome};
ghost use Rattle.con_outside.specs.Outside.{Rose, then_left};
ghost use Rattle.con_link.specs.Walked.{Fills, fault_as};

use crate::fault::LinkFault;
use con_outside::Source;
use con_units::FrameFault;

/// The most bytes that a link may have: one more is taken, which tells that there are more.
pub const MOST: u64 = 16_777_216;

#[derive(Clone, Copy, PartialEq, Eq, Drop)]
pub enum Filled {
    Full,
    Cut,
    TooLong,
    Failed,
}

/// Fills a buffer, and takes no byte more.
pub fn fill<I: Source>(link: &mut I, buf: &mut [u8], taken: &mut u64) -> Filled
    requires { taken.old ≤ MOST }
    ensures took { (text : List ℕ) × (I.left link.old ≡ then_left text (I.left link.new))
        × (taken.new ≡ taken.old + length text) × Fills result text buf.new (I.left link.new) taken.new }
    ensures failed { result ≡ Filled.Failed → Rose (I.faults link.old) (I.faults link.new) }
    ensures never_falls { I.faults link.old ≤ I.faults link.new }
{
    let mut at = 0;
    while at < buf.len() {
        let room = (MOST + 1 - *taken) as usize;
        let end = at + room.min(buf.len() - at);
        match link.read(&mut buf[at..end]) {
            Ok(0) => return Filled::Cut,
            Ok(n) => {
                at += n;
                *taken += n as u64;
            }
            Err(_) => return Filled::Failed,
        }
        if *taken > MOST {
            return Filled::TooLong;
        }
    }
    Filled::Full
}

/// The answer where a buffer was not filled.
pub fn fault_of(filled: Filled, place: u64) -> LinkFault
    ensures { result ≡ fault_as filled place }
{
    match filled {
        Filled::Full | Filled::Failed => LinkFault::Failed,
        Filled::Cut => LinkFault::Bad {
            place,
            kind: FrameFault::Cut,
        },
        Filled::TooLong => LinkFault::TooLong,
    }
}
