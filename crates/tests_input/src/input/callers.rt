//! What a caller knows of keys and link frames, with bytes and readers that it does not know.

ghost use Rattle.std.specs.Prelude.{◌≡◌, ℕ, ◌+◌, ◌*◌, ◌≤◌, Bool, true, List, [], ◌∷◌, ◌++◌, length, flat_map, Option, Some, None, Err, OnOk, IfErr, vec_len, vec_capacity};
ghost use Rattle.std.specs.List.{list_all};
ghost use Rattle.con_units.specs.Split.{next, split_after};
ghost use Rattle.con_outside.specs.Outside.{then_left};
ghost use Rattle.con_link.specs.Frames.{spelling, is_frame, goes_on};
ghost use Rattle.con_vtin.specs.Keys.{quieted};
ghost use Rattle.con_vtin.specs.Words.Keys.{grammar};
ghost use Rattle.con_vtin.specs.Pieces.{typed, piece_grammar};
ghost use Rattle.con_vtin.specs.Words.Pieces.{ended_piece};
ghost use Rattle.con_vtin.specs.Words.Sequences.{sent};

use con_link::{LinkFault, all_frames};
use con_outside::Source;
use con_records::Key;
use con_units::Frame;
use con_vtin::{KeyReader, is_read_in_pieces, is_sent_within_its_bytes};
use std::alloc::Global;

/// Two bytes give at most as many keys, and send at most as many units, as there were bytes held, and two more.
pub fn feed_two(reader: &mut KeyReader, first: u8, second: u8, out: &mut Vec<Key>)
    requires none { out.old.items ≡ [] }
    requires room { 256 ≤ vec_capacity out.old }
    ensures keys { 2 * vec_len out.new ≤ 2 * (length reader.old.held + 2) }
    ensures most { vec_len out.new ≤ 34 }
    ensures units { (cursor_keys : Bool) → length (sent out.new.items cursor_keys) + length reader.new.held ≤ length reader.old.held + 2 }
{
    let held = reader.held();
    prove!(held <= 32);
    reader.feed(first, out);
    reader.feed(second, out);
}

/// A byte and quiet send at most as many units as there were bytes held, and one more; nothing is held then.
pub fn feed_then_quiet(reader: &mut KeyReader, byte: u8, out: &mut Vec<Key>)
    requires none { out.old.items ≡ [] }
    requires room { 256 ≤ vec_capacity out.old }
    ensures held { reader.new.held ≡ [] }
    ensures keys { vec_len out.new ≤ length reader.old.held + 1 }
    ensures units { (cursor_keys : Bool) → length (sent out.new.items cursor_keys) ≤ length reader.old.held + 1 }
{
    let held = reader.held();
    prove!(held <= 32);
    reader.feed(byte, out);
    reader.quiet(out);
}

/// What a byte gives, its keys and then the sequence that it ended without one, are its pieces.
pub fn feed_piece(reader: &mut KeyReader, byte: u8, out: &mut Vec<Key>)
    requires none { out.old.items ≡ [] }
    requires room { 64 ≤ vec_capacity out.old }
    ensures pieces { (next piece_grammar reader.old.held byte).items ≡ typed out.new.items ++ ended_piece reader.new.ended }
{
    is_read_in_pieces();
    reader.feed(byte, out);
}

/// The records of bytes, however they are cut: two for each key, or one for each unit, are at most two a byte, those held before
/// among them.
pub fn records_of_bytes()
    ensures keys { (held bytes : List ℕ) → 2 * length (split_after grammar held bytes).items ≤ 2 * (length held + length bytes) }
    ensures units { (held bytes : List ℕ) (cursor_keys : Bool) → length (sent (split_after grammar held bytes).items cursor_keys) ≤ length held + length bytes }
    ensures quiet { (held : List ℕ) (cursor_keys : Bool) → length (sent (quieted held) cursor_keys) ≤ length held }
{
    is_sent_within_its_bytes();
}

/// Where a fault stopped the reading of a link, no frame before it ends the link, and all of them were spelled there.
pub fn frames_before_a_fault<I: Source>(
    alloc: Global,
    link: &mut I,
    frames: &mut Vec<Frame>,
) -> Result<(), LinkFault>
    requires { frames.old.items ≡ [] }
    ensures whole { OnOk result (I.left link.old ≡ then_left (flat_map spelling frames.new.items) (I.left link.new)) }
    ensures before { result ≡ Err LinkFault.TooLong → list_all goes_on frames.new.items ≡ true }
    ensures taken { IfErr result (λ fault. (text : List ℕ) × (I.left link.old ≡ then_left (flat_map spelling frames.new.items ++ text) (I.left link.new))) }
{
    all_frames(alloc, link, frames)
}
