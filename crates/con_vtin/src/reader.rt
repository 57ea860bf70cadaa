//! Keys, byte by byte.
ghost use Rattle.std.specs.Prelude.{◌≡◌, ◌≢◌, ℕ, ◌+◌, ◌≤◌, Bool, true, List, [], ◌∷◌, ◌++◌, length, option_map, vec_len, vec_capacity};
ghost use Rattle.con_units.specs.Split.{next};
ghost use Rattle.con_vtin.specs.Keys.{quieted};
ghost use Rattle.con_vtin.specs.Words.Keys.{grammar};
ghost use Rattle.con_vtin.specs.Holding.{held_of, IsApart, is_text};
ghost use Rattle.con_vtin.specs.Words.Pieces.{KeyReading, ended_by};
ghost use Rattle.con_vtin.specs.Words.Sequences.{sent};

use crate::character::{push_byte, push_replacements};
use crate::ended::Ended;
use crate::table::replacement;
use crate::unfinished::{Advance, Unfinished};
use con_records::Key;
use con_units::Utf8;
use std::marker::Model;

/// A reader of keys. Contracts see the bytes that it holds, which are no key yet, at most 32 of them, and the control sequence
/// that the last byte ended and that gave no key.
#[derive(Drop)]
pub struct KeyReader {
    sequence: Unfinished,
    text: Utf8,
    ended: Ended,
}

impl Model for KeyReader {
    ghost use Rattle.std.specs.Prelude.{ℕ, List};
    ghost use Rattle.con_vtin.specs.Holding.{held_of, IsApart};
    ghost use Rattle.con_vtin.specs.Words.Pieces.{KeyReading};

    ghost Value = { KeyReading };

    ghost view = { λ r. record { held = held_of r.sequence r.text; ended = r.ended } };

    ghost invariant = { λ r. IsApart r.sequence r.text };
}

// One more byte, where no sequence is held.
fn feed_text(sequence: &mut Unfinished, text: &mut Utf8, byte: u8, out: &mut Vec<Key>)
    requires none { sequence.old ≡ [] }
    requires text { is_text text.old ≡ true }
    requires room { vec_len out.old + 4 ≤ vec_capacity out.old }
    ensures keys { out.new.items ≡ out.old.items ++ (next grammar text.old byte).items }
    ensures tail { held_of sequence.new text.new ≡ (next grammar text.old byte).tail }
    ensures apart { IsApart sequence.new text.new }
    ensures room { vec_capacity out.new ≡ vec_capacity out.old }
{
    if byte == 0x1B {
        if text.held() > 0 {
            out.push_reserved(replacement());
        }
        text.clear();
        sequence.begin();
    } else {
        push_byte(text, byte, out);
    }
}

// One more byte, after a sequence.
fn feed_sequence(sequence: &mut Unfinished, text: &mut Utf8, byte: u8, out: &mut Vec<Key>)
    requires some { sequence.old ≢ [] }
    requires none { text.old ≡ [] }
    requires room { vec_len out.old + 64 ≤ vec_capacity out.old }
    ensures keys { out.new.items ≡ out.old.items ++ (next grammar sequence.old byte).items }
    ensures tail { held_of sequence.new text.new ≡ (next grammar sequence.old byte).tail }
    ensures apart { IsApart sequence.new text.new }
    ensures room { vec_capacity out.new ≡ vec_capacity out.old }
{
    match sequence.advance(byte) {
        Advance::GoesOn => {}
        Advance::Ends(key) => {
            if let Some(key) = key {
                out.push_reserved(key);
            }
        }
        Advance::Breaks => {
            sequence.push_broken(out);
            sequence.clear();
            feed_text(sequence, text, byte, out);
        }
    }
}

impl KeyReader {
    /// A reader that holds nothing.
    pub fn new() -> KeyReader
        ensures { result ≡ record { held = []; ended = None } }
    {
        KeyReader {
            sequence: Unfinished::new(),
            text: Utf8::new(),
            ended: Ended::new(),
        }
    }

    /// How many bytes are held.
    pub fn held(&self) -> u8
        ensures is { result ≡ length self.now.held }
        ensures most { result ≤ 32 }
    {
        if self.sequence.is_empty() {
            self.text.held()
        } else {
            self.sequence.len()
        }
    }

    /// The bytes of the whole `ESC [` sequence that the last byte ended and that gave no key. None: it ended no such one.
    pub fn ended(&self) -> Option<&[u8]>
        ensures { option_map (λ bytes. bytes.now) result ≡ self.now.ended }
    {
        self.ended.get()
    }

    fn note(&mut self, byte: u8)
        ensures held { self.new.held ≡ self.old.held }
        ensures ended { self.new.ended ≡ ended_by self.old.held byte }
    {
        if self.sequence.is_empty() {
            self.ended.clear();
        } else if self.sequence.ends_keyless(byte) {
            self.ended.keep(self.sequence.as_slice(), byte);
        } else {
            self.ended.clear();
        }
    }

    fn take(&mut self, byte: u8, out: &mut Vec<Key>)
        requires { vec_len out.old + 64 ≤ vec_capacity out.old }
        ensures keys { out.new.items ≡ out.old.items ++ (next grammar self.old.held byte).items }
        ensures held { self.new.held ≡ (next grammar self.old.held byte).tail }
        ensures ended { self.new.ended ≡ self.old.ended }
        ensures most { length self.new.held ≤ 32 }
        ensures room { vec_capacity out.new ≡ vec_capacity out.old }
    {
        if self.sequence.is_empty() {
            feed_text(&mut self.sequence, &mut self.text, byte, out);
        } else {
            feed_sequence(&mut self.sequence, &mut self.text, byte, out);
        }
    }

    /// Takes a byte, and adds the keys that it completes to a vector with room for 64. It adds no more keys, and
    /// these send no more units, than there are bytes held, and itself, less those that are held then.
    pub fn feed(&mut self, byte: u8, out: &mut Vec<Key>)
        requires { vec_len out.old + 64 ≤ vec_capacity out.old }
        ensures keys { out.new.items ≡ out.old.items ++ (next grammar self.old.held byte).items }
        ensures held { self.new.held ≡ (next grammar self.old.held byte).tail }
        ensures ended { self.new.ended ≡ ended_by self.old.held byte }
        ensures most { length self.new.held ≤ 32 }
        ensures few { vec_len out.new + length self.new.held ≤ vec_len out.old + length self.old.held + 1 }
        ensures units { (cursor_keys : Bool)
            → length (sent out.new.items cursor_keys) + length self.new.held ≤ length (sent out.old.items cursor_keys) + length self.old.held + 1 }
        ensures room { vec_capacity out.new ≡ vec_capacity out.old }
    {
        self.note(byte);
        self.take(byte, out);
    }

    /// Nothing comes for a while: adds the keys of what is held, at most one for each byte, which sends at most one unit, to a
    /// vector with room for 64, and holds nothing.
    pub fn quiet(&mut self, out: &mut Vec<Key>)
        requires { vec_len out.old + 64 ≤ vec_capacity out.old }
        ensures keys { out.new.items ≡ out.old.items ++ quieted self.old.held }
        ensures held { self.new ≡ record { held = []; ended = None } }
        ensures few { vec_len out.new ≤ vec_len out.old + length self.old.held }
        ensures units { (cursor_keys : Bool) → length (sent out.new.items cursor_keys) ≤ length (sent out.old.items cursor_keys) + length self.old.held }
        ensures most { vec_len out.new ≤ vec_len out.old + 32 }
        ensures room { vec_capacity out.new ≡ vec_capacity out.old }
    {
        self.ended.clear();
        if self.sequence.is_empty() {
            push_replacements(self.text.held(), out);
            self.text.clear();
        } else {
            self.sequence.push_broken(out);
            self.sequence.clear();
        }
    }
}
