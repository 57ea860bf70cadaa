//! The last line of a report.

ghost use Rattle.std.specs.Prelude.{string_bytes, ◌≡◌, List, [], ◌∷◌, ◌++◌, IfOk};
ghost use Rattle.std.specs.Char.Utf16.{utf16_lossy_chars};
ghost use Rattle.std.specs.Str.{encode_utf8_all};
ghost use Rattle.json.specs.Print.{escape};
ghost use Rattle.serde_json.specs.Data.{string};
ghost use Rattle.serde_json.specs.Written.{compact_text};
ghost use Rattle.con_lines.specs.Ending.{alone as alone_ending, worded as worded_ending};
ghost use Rattle.con_lines.specs.Ending.{kind_text, ending_data};
ghost use Rattle.con_lines.specs.Writing.{put};

use crate::line::Line;
use con_units::{FrameFault, OutOfMemory, Units};
use serde_json::Value;
use std::alloc::Global;

/// The last line of a report, which tells the status.
#[derive(Drop)]
pub enum EndLine {
    /// A status alone.
    Plain(u8),
    /// A status and a word.
    Word(u8, &'static str),
    /// Status 3 with the path of the first fault of a document.
    Path(Units),
    /// Status 8 with the place and kind of a fault of the link.
    Frame(u64, FrameFault),
}

/// The word for a kind of fault.
#[tactic(auto, unfolding(json::specs::Print::escape_byte))]
pub fn kind_word(kind: FrameFault) -> &'static str
    ensures name { result.now ≡ kind_text kind }
    ensures plain { escape result.now ≡ result.now }
{
    match kind {
        FrameFault::Tag => "tag",
        FrameFault::Length => "length",
        FrameFault::Size => "size",
        FrameFault::Cut => "cut",
    }
}

/// A text as JSON, owned.
fn quoted(alloc: Global, text: String) -> Result<String, OutOfMemory>
    ensures { IfOk result (λ s. string_bytes s ≡ compact_text (string (string_bytes text))) }
{
    let value = Value::String(text);
    let shown = value.to_string(alloc);
    drop(value);
    match shown {
        Ok(shown) => Ok(shown),
        Err(_) => Err(OutOfMemory),
    }
}

#[tactic(auto, using(crate::proofs::Puts::arrays), unfolding(json::specs::Print::escape_byte))]
impl Line {
    /// Any text.
    #[tactic(auto, using(crate::proofs::Puts::values))]
    pub fn any_text(&mut self, alloc: Global, text: String) -> Result<(), OutOfMemory>
        ensures { IfOk result (λ _. self.new ≡ put self.old (string (string_bytes text))) }
    {
        let shown = given!(quoted(alloc, text));
        self.value(shown.as_bytes())
    }

    /// A status alone.
    pub fn alone(&mut self, status: u8) -> Result<(), OutOfMemory>
        ensures { IfOk result (λ _. self.new ≡ put self.old (ending_data (alone_ending status))) }
    {
        self.named("end", &[status as i64])
    }

    /// A status and a text.
    pub fn worded(&mut self, alloc: Global, status: u8, text: String) -> Result<(), OutOfMemory>
        ensures { IfOk result (λ _. self.new ≡ put self.old (ending_data (worded_ending status (string_bytes text)))) }
    {
        given!(self.open_with("end"));
        given!(self.natural(status as u64));
        given!(self.any_text(alloc, text));
        self.shut()
    }
}

/// The same text in memory of its own.
pub fn owned(alloc: Global, text: &str) -> Result<String, OutOfMemory>
    ensures { IfOk result (λ s. string_bytes s ≡ text.now) }
{
    match String::from_str(alloc, text) {
        Ok(copy) => Ok(copy),
        Err(_) => Err(OutOfMemory),
    }
}

/// The units as UTF-8, with U+FFFD for half of a pair.
pub fn spelled(alloc: Global, units: &Units) -> Result<String, OutOfMemory>
    ensures { IfOk result (λ s. string_bytes s ≡ encode_utf8_all (utf16_lossy_chars units.now)) }
{
    match String::from_utf16_lossy(alloc, units.as_slice()) {
        Ok(text) => Ok(text),
        Err(_) => Err(OutOfMemory),
    }
}
