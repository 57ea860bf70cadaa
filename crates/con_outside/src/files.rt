//! Files by name: the trait, and files in memory.

ghost use Rattle.std.specs.Prelude.{ℕ, ◌≡◌, ◌≢◌, ◌<◌, ◌≤◌, ◌⊎◌, List, [], length, map, Option, Some, None, IfOk, OnErr, IfSome, string_bytes};
ghost use Rattle.con_outside.specs.Outside.{Rose};
ghost use Rattle.con_outside.specs.Words.Named.{IsFound, file_in, place_in};

use crate::memory::{fails, raise};
use crate::traits::Fault;

/// How many bytes a file may have that is read: 16,777,216.
pub const MOST: usize = 16_777_216;

/// What was found under a name.
#[derive(Clone, Copy, PartialEq, Eq, Drop)]
pub enum Found {
    /// The file, whole.
    Whole,
    /// No file has this name.
    Missing,
    /// The file has more than 16,777,216 bytes.
    TooLong,
}

/// Files that are read by name. A read changes none of them.
pub trait Files {
    /// The file of each name, where they are told.
    ghost files: { Self → Option (List ℕ → Option (List ℕ)) };

    /// How often it has failed. The count never falls, and stays once it is the greatest `u64`.
    ghost faults: { Self → ℕ };

    /// Reads the whole file of a name into the empty `out`. What `out` has after another answer than `Whole` is not told.
    /// `Fault::Failed` comes only where the count of failures rose.
    fn read_all(&mut self, name: &str, out: &mut Vec<u8>) -> Result<Found, Fault>
        requires { out.old.items ≡ [] }
        ensures found { IfOk result (λ f. IfSome (files self.old) (λ file. IsFound f (file name.now) out.new.items)) }
        ensures bound { result ≡ Ok Found.Whole → length out.new.items ≤ 16777216 }
        ensures same { files self.new ≡ files self.old }
        ensures failed { result ≡ Err Fault.Failed → Rose (faults self.old) (faults self.new) }
        ensures never_falls { faults self.old ≤ faults self.new };
}

/// The place of the first name that is this one, or how many names there are.
pub fn place_of(names: &[String], name: &str) -> usize
    ensures { result ≡ place_in (map string_bytes names.now) name.now }
{
    let mut at = 0;
    while at < names.len() {
        if names[at].as_str() == name {
            return at;
        }
        at += 1;
    }
    at
}

/// Reads the text of a name out of lists of names and texts.
pub fn read_named(
    names: &[String],
    texts: &[Vec<u8>],
    name: &str,
    out: &mut Vec<u8>,
) -> Result<Found, Fault>
    requires { out.old.items ≡ [] }
    ensures found { IfOk result (λ f. IsFound f (file_in (map string_bytes names.now) (map (λ t. t.items) texts.now) name.now) out.new.items) }
    ensures bound { result ≡ Ok Found.Whole → length out.new.items ≤ 16777216 }
    ensures sure { result ≢ Err Fault.Failed }
{
    match texts.get(place_of(names, name)) {
        None => Ok(Found::Missing),
        Some(text) => copy_text(text.as_slice(), out),
    }
}

/// Copies a text that is not too long.
pub fn copy_text(text: &[u8], out: &mut Vec<u8>) -> Result<Found, Fault>
    requires { out.old.items ≡ [] }
    ensures found { IfOk result (λ f. IsFound f (Some text.now) out.new.items) }
    ensures bound { result ≡ Ok Found.Whole → length out.new.items ≤ 16777216 }
    ensures sure { result ≢ Err Fault.Failed }
{
    if text.len() > MOST {
        return Ok(Found::TooLong);
    }
    match out.extend_from_slice(text) {
        Ok(()) => Ok(Found::Whole),
        Err(_) => Err(Fault::OutOfMemory),
    }
}

/// Files in memory, which can be told to fail. The text of a name stands at the name's place; a name without a text is
/// no file.
#[derive(Drop)]
pub struct MemoryFiles {
    pub names: Vec<String>,
    pub texts: Vec<Vec<u8>>,
    pub fail: Vec<u64>,
    pub calls: u64,
    pub faults: u64,
}

impl Files for MemoryFiles {
    ghost files = { λ s. Some (file_in (map string_bytes s.names.items) (map (λ t. t.items) s.texts.items)) };

    ghost faults = { λ s. s.faults };

    fn read_all(&mut self, name: &str, out: &mut Vec<u8>) -> Result<Found, Fault> {
        if fails(self.fail.as_slice(), &mut self.calls) {
            raise(&mut self.faults);
            return Err(Fault::Failed);
        }
        read_named(self.names.as_slice(), self.texts.as_slice(), name, out)
    }
}

/// Files in memory, with no failure but want of memory.
#[derive(Drop)]
pub struct SureFiles {
    pub names: Vec<String>,
    pub texts: Vec<Vec<u8>>,
}

impl Files for SureFiles {
    ghost files = { λ s. Some (file_in (map string_bytes s.names.items) (map (λ t. t.items) s.texts.items)) };

    ghost faults = { λ _. 0 };

    fn read_all(&mut self, name: &str, out: &mut Vec<u8>) -> Result<Found, Fault> {
        read_named(self.names.as_slice(), self.texts.as_slice(), name, out)
    }
}
