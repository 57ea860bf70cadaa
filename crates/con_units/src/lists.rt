//! Small types round vectors. Contracts see each as the list that it holds, and nothing of its room.
ghost use Rattle.std.specs.Prelude.{◌≡◌, ℕ, List, length, [], IsTrue, ◌↔◌, IfOk};

use crate::cell::Cell;
use crate::code::OutOfMemory;
use std::marker::Model;

/// The UTF-16 code units of a text.
pub struct Units(pub Vec<u16>);

impl Model for Units {
    ghost use Rattle.std.specs.Prelude.{List, ℕ, Bool};

    ghost Value = { List ℕ };

    ghost view = { λ list. list.0.items };
}

// By hand, so that what drops one has this call in its proof, and not all that lies in one.
impl Drop for Units {
    fn drop(self) {
        let Units(_) = self;
    }
}

impl Units {
    /// The units in order.
    pub fn as_slice(&self) -> &[u16]
        ensures { result.now ≡ self.now }
    {
        self.0.as_slice()
    }

    /// The vector of the units.
    pub fn into_vec(self) -> Vec<u16>
        ensures { result.items ≡ self }
    {
        let Units(list) = self;
        list
    }

    /// How many there are.
    pub fn len(&self) -> usize
        ensures { result ≡ length self.now }
    {
        self.0.len()
    }

    /// Whether there is none.
    pub fn is_empty(&self) -> bool
        ensures { IsTrue result ↔ (self.now ≡ []) }
    {
        self.0.is_empty()
    }

    /// The same list in memory of its own.
    pub fn copied(&self) -> Result<Units, OutOfMemory>
        ensures { IfOk result (λ copy. copy ≡ self.now) }
    {
        match self.0.clone() {
            Ok(list) => Ok(Units(list)),
            Err(_) => Err(OutOfMemory),
        }
    }
}

/// Bytes as they go over a wire.
pub struct Bytes(pub Vec<u8>);

impl Model for Bytes {
    ghost use Rattle.std.specs.Prelude.{List, ℕ, Bool};

    ghost Value = { List ℕ };

    ghost view = { λ list. list.0.items };
}

// By hand, so that what drops one has this call in its proof, and not all that lies in one.
impl Drop for Bytes {
    fn drop(self) {
        let Bytes(_) = self;
    }
}

impl Bytes {
    /// The bytes in order.
    pub fn as_slice(&self) -> &[u8]
        ensures { result.now ≡ self.now }
    {
        self.0.as_slice()
    }

    /// The vector of the bytes.
    pub fn into_vec(self) -> Vec<u8>
        ensures { result.items ≡ self }
    {
        let Bytes(list) = self;
        list
    }

    /// How many there are.
    pub fn len(&self) -> usize
        ensures { result ≡ length self.now }
    {
        self.0.len()
    }

    /// Whether there is none.
    pub fn is_empty(&self) -> bool
        ensures { IsTrue result ↔ (self.now ≡ []) }
    {
        self.0.is_empty()
    }

    /// The same list in memory of its own.
    pub fn copied(&self) -> Result<Bytes, OutOfMemory>
        ensures { IfOk result (λ copy. copy ≡ self.now) }
    {
        match self.0.clone() {
            Ok(list) => Ok(Bytes(list)),
            Err(_) => Err(OutOfMemory),
        }
    }
}

/// The cells of rows of one width, row by row from the top, each from the left.
pub struct Rows(pub Vec<Cell>);

impl Model for Rows {
    ghost use Rattle.std.specs.Prelude.{List, ℕ, Bool};
    ghost use Rattle.con_units.specs.Glyph.{Glyph};

    ghost Value = { List Glyph };

    ghost view = { λ list. list.0.items };
}

// By hand, so that what drops one has this call in its proof, and not all that lies in one.
impl Drop for Rows {
    fn drop(self) {
        let Rows(_) = self;
    }
}

impl Rows {
    /// The cells in order.
    pub fn as_slice(&self) -> &[Cell]
        ensures { result.now ≡ self.now }
    {
        self.0.as_slice()
    }

    /// How many there are.
    pub fn len(&self) -> usize
        ensures { result ≡ length self.now }
    {
        self.0.len()
    }

    /// Whether there is none.
    pub fn is_empty(&self) -> bool
        ensures { IsTrue result ↔ (self.now ≡ []) }
    {
        self.0.is_empty()
    }

    /// The same list in memory of its own.
    pub fn copied(&self) -> Result<Rows, OutOfMemory>
        ensures { IfOk result (λ copy. copy ≡ self.now) }
    {
        match self.0.clone() {
            Ok(list) => Ok(Rows(list)),
            Err(_) => Err(OutOfMemory),
        }
    }
}

/// A mark for each row of a view, from the top: a row without one is as it was.
pub struct Marks(pub Vec<bool>);

impl Model for Marks {
    ghost use Rattle.std.specs.Prelude.{List, ℕ, Bool};

    ghost Value = { List Bool };

    ghost view = { λ list. list.0.items };
}

// By hand, so that what drops one has this call in its proof, and not all that lies in one.
impl Drop for Marks {
    fn drop(self) {
        let Marks(_) = self;
    }
}

impl Marks {
    /// The marks in order.
    pub fn as_slice(&self) -> &[bool]
        ensures { result.now ≡ self.now }
    {
        self.0.as_slice()
    }

    /// How many there are.
    pub fn len(&self) -> usize
        ensures { result ≡ length self.now }
    {
        self.0.len()
    }

    /// Whether there is none.
    pub fn is_empty(&self) -> bool
        ensures { IsTrue result ↔ (self.now ≡ []) }
    {
        self.0.is_empty()
    }

    /// The same list in memory of its own.
    pub fn copied(&self) -> Result<Marks, OutOfMemory>
        ensures { IfOk result (λ copy. copy ≡ self.now) }
    {
        match self.0.clone() {
            Ok(list) => Ok(Marks(list)),
            Err(_) => Err(OutOfMemory),
        }
    }
}
