//! UTF-8, byte by byte.
ghost use Rattle.std.specs.Prelude.{◌≡◌, ℕ, ◌+◌, ◌*◌, ◌<◌, ◌≤◌, ◌++◌, List, [], ◌∷◌, length, option_to_list, false, true, IfSome, IfNone};
ghost use Rattle.std.specs.Char.{InScalarRange, IsScalar, encode_utf8};
ghost use Rattle.con_units.specs.Split.{begun, next, split, split_after, with_items};
ghost use Rattle.con_units.specs.Held.{held_bytes, IsHeld};
ghost use Rattle.con_units.specs.Laws.{IsReadSo};
ghost use Rattle.con_units.specs.Utf8.{utf8, may_follow, is_continuation, is_cut_character, whole_character};
ghost use Rattle.std.specs.Option.{option_map};

use std::marker::Model;

/// The bytes of a character that is not whole yet.
#[derive(Clone, Copy)]
enum Held {
    Nothing,
    One(u8),
    Two(u8, u8),
    Three(u8, u8, u8),
}

/// A decoder that is fed byte by byte. Contracts see it as the bytes that it holds.
pub struct Utf8 {
    held: Held,
}

impl Model for Utf8 {
    ghost use Rattle.std.specs.Prelude.{ℕ, List};

    ghost Value = { List ℕ };

    ghost use Rattle.con_units.specs.Held.{held_bytes, IsHeld};

    ghost view = { λ u. held_bytes u.held };

    ghost invariant = { λ u. IsHeld u.held };
}

// By hand, so that what drops one has this call in its proof, and not all that lies in one.
impl Drop for Utf8 {
    fn drop(self) {
        let Utf8 { held: _ } = self;
    }
}

/// The characters that a byte completes, the earlier one first.
#[derive(Clone, Copy, PartialEq, Eq)]
pub struct Decoded {
    pub first: Option<char>,
    pub second: Option<char>,
}

fn follows(a: u8, b: u8) -> bool
    ensures { result ≡ may_follow a b }
{
    let low = if a == 0xE0 {
        0xA0
    } else if a == 0xF0 {
        0x90
    } else {
        0x80
    };
    let high = if a == 0xED {
        0x9F
    } else if a == 0xF4 {
        0x8F
    } else {
        0xBF
    };
    low <= b && b <= high
}

fn continues(b: u8) -> bool
    ensures { result ≡ is_continuation b }
{
    0x80 <= b && b <= 0xBF
}

fn character(code: u32) -> char
    requires { InScalarRange code }
    ensures { result ≡ code }
{
    match char::from_u32(code) {
        Some(c) => c,
        None => unreachable!(),
    }
}

// What a byte begins, with nothing held.
fn begin(byte: u8) -> (Held, Option<char>)
    ensures items { option_to_list result.1 ≡ (begun utf8 byte).items }
    ensures tail { held_bytes result.0 ≡ (begun utf8 byte).tail }
    ensures held { IsHeld result.0 }
{
    if byte < 0x80 {
        (Held::Nothing, Some(byte as char))
    } else if 0xC2 <= byte && byte <= 0xF4 {
        (Held::One(byte), None)
    } else {
        (Held::Nothing, Some('\u{FFFD}'))
    }
}

// What is held and a byte more, where they still are the front of a character.
fn longer(held: Held, byte: u8) -> Option<Held>
    requires held { IsHeld held }
    requires begun { ¬ (held_bytes held ≡ []) }
    ensures some { IfSome result (λ h. (held_bytes h ≡ held_bytes held ++ byte ∷ []) × IsHeld h × (is_cut_character (held_bytes held ++ byte ∷ []) ≡ true)) }
    ensures none { IfNone result (is_cut_character (held_bytes held ++ byte ∷ []) ≡ false) }
{
    match held {
        Held::One(a) if 0xE0 <= a && follows(a, byte) => Some(Held::Two(a, byte)),
        Held::Two(a, b) if 0xF0 <= a && continues(byte) => Some(Held::Three(a, b, byte)),
        _ => None,
    }
}

// The character that a byte makes whole after what is held.
fn completed(held: Held, byte: u8) -> Option<char>
    requires held { IsHeld held }
    requires begun { ¬ (held_bytes held ≡ []) }
    ensures { whole_character (held_bytes held ++ byte ∷ []) ≡ option_map (λ c. c ∷ []) result }
{
    match held {
        Held::One(a) if a < 0xE0 && continues(byte) => {
            Some(character((a as u32 - 0xC0) * 64 + (byte as u32 - 0x80)))
        }
        Held::Two(a, b) if a < 0xF0 && continues(byte) => Some(character(
            (a as u32 - 0xE0) * 4096 + (b as u32 - 0x80) * 64 + (byte as u32 - 0x80),
        )),
        Held::Three(a, b, c) if continues(byte) => Some(character(
            (a as u32 - 0xF0) * 262144
                + (b as u32 - 0x80) * 4096
                + (c as u32 - 0x80) * 64
                + (byte as u32 - 0x80),
        )),
        _ => None,
    }
}

// What a byte gives after what is held.
#[tactic(auto, unfolding(crate::specs::Split::next))]
fn step(held: Held, byte: u8) -> (Held, Decoded)
    requires { IsHeld held }
    ensures items { option_to_list result.1.first ++ option_to_list result.1.second ≡ (next utf8 (held_bytes held) byte).items }
    ensures tail { held_bytes result.0 ≡ (next utf8 (held_bytes held) byte).tail }
    ensures held { IsHeld result.0 }
{
    if let Held::Nothing = held {
        let (held, first) = begin(byte);
        let second = None;
        return (held, Decoded { first, second });
    }
    if let Some(held) = longer(held, byte) {
        let first = None;
        let second = None;
        return (held, Decoded { first, second });
    }
    match completed(held, byte) {
        Some(c) => {
            let first = Some(c);
            let second = None;
            (Held::Nothing, Decoded { first, second })
        }
        None => {
            let (held, second) = begin(byte);
            let first = Some('\u{FFFD}');
            (held, Decoded { first, second })
        }
    }
}

impl Utf8 {
    /// A decoder that holds nothing.
    pub fn new() -> Utf8
        ensures { result ≡ [] }
    {
        Utf8 {
            held: Held::Nothing,
        }
    }

    /// The number of bytes that are held.
    pub fn held(&self) -> u8
        ensures { result ≡ length self.now }
    {
        match self.held {
            Held::Nothing => 0,
            Held::One(_) => 1,
            Held::Two(_, _) => 2,
            Held::Three(_, _, _) => 3,
        }
    }

    /// Takes a byte, and gives the characters that it completes.
    pub fn feed(&mut self, byte: u8) -> Decoded
        ensures items { option_to_list result.first ++ option_to_list result.second ≡ (next utf8 self.old byte).items }
        ensures held { self.new ≡ (next utf8 self.old byte).tail }
    {
        let (held, decoded) = step(self.held, byte);
        self.held = held;
        decoded
    }

    /// Drops the bytes that are held.
    pub fn clear(&mut self)
        ensures { self.new ≡ [] }
    {
        self.held = Held::Nothing;
    }
}

/// Bytes are read by the three cases of their sequences, which determine the characters.
pub fn is_read_by_cases()
    ensures { IsReadSo utf8 }
{}

/// What the standard library encodes of a character, a decoder that holds nothing gives back, and then holds nothing.
pub fn is_inverse_of_encoding()
    ensures { (c : ℕ) → IsScalar c → split utf8 (encode_utf8 c) ≡ record { items = c ∷ []; tail = [] } }
{}

/// However bytes are cut, their characters are those of the whole.
pub fn is_read_however_cut()
    ensures { (held front rest : List ℕ)
        → split_after utf8 held (front ++ rest) ≡ with_items (split_after utf8 held front).items (split_after utf8 (split_after utf8 held front).tail rest) }
{}
