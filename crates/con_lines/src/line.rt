//! A line's bytes, value by value.

ghost use Rattle.std.specs.Prelude.{◌≡◌, ◌++◌, IfOk};
ghost use Rattle.json.specs.Print.{escape};
ghost use Rattle.serde_json.specs.Data.{null as null_data, boolean, string};
ghost use Rattle.con_lines.specs.Hex.{hex_bytes, hex_units};
ghost use Rattle.con_lines.specs.Shown.{natural as natural_data, whole as whole_data, units_text, cell_words};
ghost use Rattle.con_lines.specs.Writing.{more, parted, put, opened, shut as shut_array, nothing_written};

use crate::hex::{push_bytes, push_cells, push_units};
use con_units::{Cell, OutOfMemory};
use itoa::Buffer;
use std::alloc::Global;
use std::marker::Model;

/// JSON without spaces, value by value: what is written so far, and whether a comma is due before the next value.
#[derive(Drop)]
pub struct Line {
    out: Vec<u8>,
    later: bool,
}

impl Model for Line {
    ghost use Rattle.con_lines.specs.Writing.{Written};

    ghost Value = { Written };

    ghost view = { λ line. record { bytes = line.out.items; later = line.later } };
}

#[tactic(auto, using(crate::proofs::Puts::values))]
impl Line {
    /// Nothing yet.
    pub fn new(alloc: Global) -> Line
        ensures { result ≡ nothing_written }
    {
        Line {
            out: Vec::new(alloc),
            later: false,
        }
    }

    /// What is written so far.
    pub fn as_slice(&self) -> &[u8]
        ensures { result.now ≡ self.now.bytes }
    {
        self.out.as_slice()
    }

    /// Makes ready for one more value.
    #[tactic(auto, unfolding(crate::specs::Writing::parted))]
    pub fn comma(&mut self) -> Result<(), OutOfMemory>
        ensures { IfOk result (λ _. self.new ≡ parted self.old) }
    {
        if self.later {
            let Ok(()) = self.out.push(44) else {
                return Err(OutOfMemory);
            };
        }
        self.later = true;
        Ok(())
    }

    /// Writes bytes of one value.
    #[tactic(auto, unfolding(crate::specs::Writing::more))]
    pub fn append(&mut self, bytes: &[u8]) -> Result<(), OutOfMemory>
        ensures { IfOk result (λ _. self.new ≡ more self.old bytes.now) }
    {
        match self.out.extend_from_slice(bytes) {
            Ok(()) => Ok(()),
            Err(_) => Err(OutOfMemory),
        }
    }

    /// Makes ready for one more value, and writes its bytes or their front.
    pub(crate) fn value(&mut self, bytes: &[u8]) -> Result<(), OutOfMemory>
        ensures { IfOk result (λ _. self.new ≡ more (parted self.old) bytes.now) }
    {
        given!(self.comma());
        self.append(bytes)
    }

    /// A number of 0 or more.
    pub fn natural(&mut self, n: u64) -> Result<(), OutOfMemory>
        ensures { IfOk result (λ _. self.new ≡ put self.old (natural_data n)) }
    {
        let mut buffer = Buffer::new();
        self.value(buffer.format(n).as_bytes())
    }

    /// A number with its sign.
    pub fn whole(&mut self, n: i64) -> Result<(), OutOfMemory>
        ensures { IfOk result (λ _. self.new ≡ put self.old (whole_data n)) }
    {
        let mut buffer = Buffer::new();
        self.value(buffer.format(n).as_bytes())
    }

    /// True or false.
    pub fn truth(&mut self, b: bool) -> Result<(), OutOfMemory>
        ensures { IfOk result (λ _. self.new ≡ put self.old (boolean b)) }
    {
        if b {
            self.value(b"true")
        } else {
            self.value(b"false")
        }
    }

    /// Nothing.
    pub fn null(&mut self) -> Result<(), OutOfMemory>
        ensures { IfOk result (λ _. self.new ≡ put self.old null_data) }
    {
        self.value(b"null")
    }

    /// A text in which no character is escaped.
    pub fn word(&mut self, text: &str) -> Result<(), OutOfMemory>
        requires { escape text.now ≡ text.now }
        ensures { IfOk result (λ _. self.new ≡ put self.old (string text.now)) }
    {
        given!(self.value(b"\""));
        given!(self.append(text.as_bytes()));
        self.append(b"\"")
    }

    #[tactic(auto, unfolding(crate::specs::Writing::more))]
    fn append_units(&mut self, units: &[u16]) -> Result<(), OutOfMemory>
        ensures { IfOk result (λ _. self.new ≡ more self.old (hex_units units.now)) }
    {
        push_units(&mut self.out, units)
    }

    #[tactic(auto, unfolding(crate::specs::Writing::more))]
    fn append_bytes(&mut self, bytes: &[u8]) -> Result<(), OutOfMemory>
        ensures { IfOk result (λ _. self.new ≡ more self.old (hex_bytes bytes.now)) }
    {
        push_bytes(&mut self.out, bytes)
    }

    #[tactic(auto, unfolding(crate::specs::Writing::more))]
    fn append_cells(&mut self, cells: &[Cell]) -> Result<(), OutOfMemory>
        ensures { IfOk result (λ _. self.new ≡ more self.old (hex_units (cell_words cells.now))) }
    {
        push_cells(&mut self.out, cells)
    }

    /// Units in hexadecimal.
    pub fn units(&mut self, units: &[u16]) -> Result<(), OutOfMemory>
        ensures { IfOk result (λ _. self.new ≡ put self.old (units_text units.now)) }
    {
        given!(self.value(b"\""));
        given!(self.append_units(units));
        self.append(b"\"")
    }

    /// Bytes in hexadecimal.
    pub fn bytes(&mut self, bytes: &[u8]) -> Result<(), OutOfMemory>
        ensures { IfOk result (λ _. self.new ≡ put self.old (string (hex_bytes bytes.now))) }
    {
        given!(self.value(b"\""));
        given!(self.append_bytes(bytes));
        self.append(b"\"")
    }

    /// Cells in hexadecimal.
    pub fn cells(&mut self, cells: &[Cell]) -> Result<(), OutOfMemory>
        ensures { IfOk result (λ _. self.new ≡ put self.old (units_text (cell_words cells.now))) }
    {
        given!(self.value(b"\""));
        given!(self.append_cells(cells));
        self.append(b"\"")
    }

    /// An array begins.
    #[tactic(auto, unfolding(crate::specs::Writing::more, crate::specs::Writing::parted, crate::specs::Writing::opened))]
    pub fn open(&mut self) -> Result<(), OutOfMemory>
        ensures { IfOk result (λ _. self.new ≡ opened self.old) }
    {
        given!(self.value(b"["));
        self.later = false;
        Ok(())
    }

    /// An array begins, with a text in which no character is escaped as its first value.
    pub fn open_with(&mut self, text: &str) -> Result<(), OutOfMemory>
        requires { escape text.now ≡ text.now }
        ensures { IfOk result (λ _. self.new ≡ put (opened self.old) (string text.now)) }
    {
        given!(self.open());
        self.word(text)
    }

    /// An array ends.
    #[tactic(auto, unfolding(crate::specs::Writing::more, crate::specs::Writing::shut))]
    pub fn shut(&mut self) -> Result<(), OutOfMemory>
        ensures { IfOk result (λ _. self.new ≡ shut_array self.old) }
    {
        given!(self.append(b"]"));
        self.later = true;
        Ok(())
    }
}
