// The control sequence that the last byte ended, and that gave no key.
ghost use Rattle.std.specs.Prelude.{◌≡◌, ℕ, ◌+◌, ◌<◌, ◌≤◌, List, [], ◌∷◌, ◌++◌, length, take, Option, Some, None, option_map};

use std::marker::Model;

/// The bytes of a control sequence, at most 33, or none.
#[derive(Drop)]
pub(crate) struct Ended {
    count: u8,
    bytes: [u8; 33],
}

impl Model for Ended {
    ghost use Rattle.std.specs.Prelude.{ℕ, List, Option, ◌≤◌};
    ghost use Rattle.con_vtin.specs.Holding.{kept_of};

    ghost Value = { Option (List ℕ) };

    ghost view = { λ s. kept_of s.count s.bytes };

    ghost invariant = { λ s. s.count ≤ 33 };
}

impl Ended {
    /// None.
    pub(crate) fn new() -> Ended
        ensures { result ≡ None }
    {
        Ended {
            count: 0,
            bytes: [0; 33],
        }
    }

    /// None from now on.
    pub(crate) fn clear(&mut self)
        ensures { self.new ≡ None }
    {
        self.count = 0;
    }

    /// The bytes held, and the byte that ended them.
    pub(crate) fn keep(&mut self, held: &[u8], byte: u8)
        requires { length held.now ≤ 32 }
        ensures { self.new ≡ Some (held.now ++ byte ∷ []) }
    {
        let count = held.len();
        self.bytes[..count].copy_from_slice(held);
        self.bytes[count] = byte;
        self.count = count as u8 + 1;
    }

    /// The bytes, if there are any.
    pub(crate) fn get(&self) -> Option<&[u8]>
        ensures { option_map (λ bytes. bytes.now) result ≡ self.now }
    {
        if self.count == 0 {
            None
        } else {
            Some(&self.bytes[..self.count as usize])
        }
    }
}
