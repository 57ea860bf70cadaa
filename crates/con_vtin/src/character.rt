//! The keys of characters.
ghost use Rattle.std.specs.Prelude.{◌≡◌, ℕ, ◌+◌, ◌<◌, ◌≤◌, List, [], ◌∷◌, ◌++◌, length, flat_map, false, ◌==◌, true, option_to_list, vec_len, vec_capacity};
ghost use Rattle.con_units.specs.Split.{next};
ghost use Rattle.con_vtin.specs.Table.{character_keys};
ghost use Rattle.con_vtin.specs.Keys.{replacements};
ghost use Rattle.con_vtin.specs.Words.Keys.{grammar};
ghost use Rattle.con_vtin.specs.Holding.{is_text};

use crate::table::{byte_key, pressed, replacement};
use con_records::Key;
use con_units::Utf8;

/// Adds the keys of a character.
pub fn push_character(c: char, out: &mut Vec<Key>)
    requires { vec_len out.old + 2 ≤ vec_capacity out.old }
    ensures keys { out.new.items ≡ out.old.items ++ character_keys c }
    ensures few { vec_len out.new ≤ vec_len out.old + 2 }
    ensures room { vec_capacity out.new ≡ vec_capacity out.old }
{
    let code = c as u32;
    if code < 0x80 {
        out.push_reserved(byte_key(code as u8));
    } else if code < 0x10000 {
        out.push_reserved(pressed(0, code as u16, 0));
    } else {
        out.push_reserved(pressed(0, 0xD800 + ((code - 0x10000) / 0x400) as u16, 0));
        out.push_reserved(pressed(0, 0xDC00 + ((code - 0x10000) % 0x400) as u16, 0));
    }
}

fn push_if_some(c: Option<char>, out: &mut Vec<Key>)
    requires { vec_len out.old + 2 ≤ vec_capacity out.old }
    ensures keys { out.new.items ≡ out.old.items ++ flat_map character_keys (option_to_list c) }
    ensures few { vec_len out.new ≤ vec_len out.old + 2 }
    ensures room { vec_capacity out.new ≡ vec_capacity out.old }
{
    if let Some(c) = c {
        push_character(c, out);
    }
}

/// Takes a byte of a character, and adds the keys of the characters that it completes.
pub fn push_byte(text: &mut Utf8, byte: u8, out: &mut Vec<Key>)
    requires text { is_text text.old ≡ true }
    requires plain { (byte == 0x1B) ≡ false }
    requires room { vec_len out.old + 4 ≤ vec_capacity out.old }
    ensures keys { out.new.items ≡ out.old.items ++ (next grammar text.old byte).items }
    ensures tail { text.new ≡ (next grammar text.old byte).tail }
    ensures text { is_text text.new ≡ true }
    ensures few { vec_len out.new ≤ vec_len out.old + 4 }
    ensures room { vec_capacity out.new ≡ vec_capacity out.old }
{
    let decoded = text.feed(byte);
    push_if_some(decoded.first, out);
    push_if_some(decoded.second, out);
}

/// Adds a key of U+FFFD for each of the bytes.
pub fn push_replacements(n: u8, out: &mut Vec<Key>)
    requires { vec_len out.old + n ≤ vec_capacity out.old }
    ensures keys { (bytes : List ℕ) → length bytes ≡ n → out.new.items ≡ out.old.items ++ replacements bytes }
    ensures few { vec_len out.new ≡ vec_len out.old + n }
    ensures room { vec_capacity out.new ≡ vec_capacity out.old }
{
    for i in 0..n {
        // the loop's invariant counts by it
        let _ = i;
        out.push_reserved(replacement());
    }
}
