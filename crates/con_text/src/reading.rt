//! ReadEnd a link to its end.

ghost use Rattle.std.specs.Prelude.{◌≡◌, ◌≢◌, ℕ, ◌+◌, ◌<◌, ◌≤◌, List, [], ◌++◌, length, Option, Some, None, IfSome, OnOk};
ghost use Rattle.con_outside.specs.Outside.{Rose, then_left};
ghost use Rattle.con_text.specs.Words.Link.{IsRead};

use con_outside::Source;
use con_units::OutOfMemory;

/// The most bytes that a link may have: 16 MiB.
pub const MOST: u64 = 16_777_216;

// The bytes that are asked for at once.
const PIECE: usize = 4096;

/// How the reading of a link ended.
#[derive(Clone, Copy, PartialEq, Eq, Drop)]
pub enum ReadEnd {
    /// The link was read to its end.
    End,
    /// The link failed.
    Failed,
    /// More than 16,777,216 bytes were taken.
    TooLong,
    /// There was no memory for what was heard.
    Memory,
}

/// What takes in the bytes of a link, piece by piece.
pub trait Listener {
    /// What the bytes make of it.
    ghost became: { Self → List ℕ → Self → Type 0 };

    /// Takes in the next bytes, at most 4,096.
    fn hear(&mut self, bytes: &[u8]) -> Result<(), OutOfMemory>
        requires { length bytes.now ≤ 4096 }
        ensures { OnOk result (became self.old bytes.now self.new) };

    ghost nothing_heard: { (s : Self) → became s [] s };

    ghost heard_in_turn: { (a b : List ℕ) (s t u : Self) → became s a t → became t b u → became s (a ++ b) u };
}

/// Reads a link to its end, to a fault, or past the most bytes that it may have, and hands them to a listener.
pub fn read_link<I: Source, L: Listener>(link: &mut I, listener: &mut L) -> ReadEnd
    ensures taken { (text : List ℕ) × (I.left link.old ≡ then_left text (I.left link.new)) × IsRead result text (I.left link.new)
        × (result ≢ ReadEnd.Memory → L.became listener.old text listener.new) }
    ensures failed { result ≡ ReadEnd.Failed → Rose (I.faults link.old) (I.faults link.new) }
    ensures never_falls { I.faults link.old ≤ I.faults link.new }
{
    let mut piece = [0u8; PIECE];
    let mut total: u64 = 0;
    while total <= MOST {
        match link.read(&mut piece) {
            Ok(0) => return ReadEnd::End,
            Ok(n) => match listener.hear(&piece[..n]) {
                Ok(()) => total += n as u64,
                Err(_) => return ReadEnd::Memory,
            },
            Err(_) => return ReadEnd::Failed,
        }
    }
    ReadEnd::TooLong
}
