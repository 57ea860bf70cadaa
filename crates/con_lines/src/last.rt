//! The last line, read.

ghost use Rattle.std.specs.Prelude.{◌≡◌, Some, None, IfSome, option_map, option_and_then};
ghost use Rattle.serde_json.specs.Find.{as_str};
ghost use Rattle.serde_json.specs.View.{view, items_view};
ghost use Rattle.con_lines.specs.Ending.{at_frame, IsEnding, status_of};
ghost use Rattle.con_lines.specs.Last.{last_of, TextFits};
ghost use Rattle.con_lines.specs.Told.{length_in, kind_in, alone_in, is_worded, worded_in, ending_items, ending_in};

use crate::answers::length as number;
use con_units::FrameFault;
use serde_json::Value;

/// A last line as it is read.
#[derive(Clone, Copy, Drop)]
pub enum Last<'v> {
    /// A status alone.
    Alone(u8),
    /// A status and a text.
    Worded(u8, &'v str),
    /// Status 8, with a place and a kind.
    Frame(u64, FrameFault),
}

impl<'v> Last<'v> {
    /// The status that it tells.
    pub fn status(&self) -> u8
        ensures { result ≡ status_of (last_of self.now) }
    {
        match self {
            Last::Alone(status) => *status,
            Last::Worded(status, _) => *status,
            Last::Frame(_, _) => 8,
        }
    }
}

/// The kind of a fault by its word.
fn kind(word: &str) -> Option<FrameFault>
    ensures { result ≡ kind_in word.now }
{
    match word {
        "tag" => Some(FrameFault::Tag),
        "length" => Some(FrameFault::Length),
        "size" => Some(FrameFault::Size),
        "cut" => Some(FrameFault::Cut),
        _ => None,
    }
}

/// A status that stands alone.
fn alone(status: u64) -> Option<Last<'static>>
    ensures told { option_map last_of result ≡ alone_in status }
    ensures text { IfSome result (λ last. TextFits (last_of last)) }
{
    match status {
        0 => Some(Last::Alone(0)),
        9 => Some(Last::Alone(9)),
        _ => None,
    }
}

/// Whether a status stands with the text.
fn has_text(status: u64, text: &str) -> bool
    ensures { result ≡ is_worded status text.now }
{
    match status {
        2 => text == "usage",
        3 => true,
        4 => text == "link",
        5 => text == "term",
        7 => text == "missing" || text == "failed",
        10 => text == "too long",
        12 => text == "mirror",
        _ => false,
    }
}

/// A status with a text.
fn worded(status: u64, text: &str) -> Option<Last<'_>>
    ensures told { option_map last_of result ≡ worded_in status text.now }
    ensures text { IfSome result (λ last. TextFits (last_of last)) }
{
    if has_text(status, text) && status <= 12 {
        Some(Last::Worded(status as u8, text))
    } else {
        None
    }
}

/// A last line from a status alone.
fn of_status(status: &Value) -> Option<Last<'static>>
    ensures told { option_map last_of result ≡ option_and_then alone_in (length_in (view status.now)) }
    ensures text { IfSome result (λ last. TextFits (last_of last)) }
{
    alone(found!(number(status)))
}

/// A last line from a status and a text.
fn of_text<'v>(status: &Value, text: &'v Value) -> Option<Last<'v>>
    ensures told { option_map last_of result ≡ option_and_then (λ n. option_and_then (worded_in n) (as_str (view text.now))) (length_in (view status.now)) }
    ensures text { IfSome result (λ last. TextFits (last_of last)) }
{
    let status = found!(number(status));
    worded(status, found!(text.as_str()))
}

/// A last line from a place and a word.
fn of_frame(place: &Value, word: &Value) -> Option<Last<'static>>
    ensures told { option_map last_of result
        ≡ option_and_then (λ place. option_map (at_frame place) (option_and_then kind_in (as_str (view word.now)))) (length_in (view place.now)) }
    ensures text { IfSome result (λ last. TextFits (last_of last)) }
{
    let place = found!(number(place));
    let word = found!(word.as_str());
    Some(Last::Frame(place, found!(kind(word))))
}

fn last_of_items(items: &[Value]) -> Option<Last<'_>>
    ensures told { option_map last_of result ≡ ending_items (items_view items.now) }
    ensures text { IfSome result (λ last. TextFits (last_of last)) }
{
    match items {
        [_, alone] => of_status(alone),
        [_, status, text] => of_text(status, text),
        [_, _, place, word] => of_frame(place, word),
        _ => None,
    }
}

/// The last line that a value is, where its text is UTF-8.
fn ending_told(value: &Value) -> Option<Last<'_>>
    ensures told { option_map last_of result ≡ ending_in (view value.now) }
    ensures text { IfSome result (λ last. TextFits (last_of last)) }
{
    last_of_items(found!(value.as_array()).as_slice())
}

/// The last line that a value is.
pub fn ending(value: &Value) -> Option<Last<'_>>
    ensures told { option_map last_of result ≡ ending_in (view value.now) }
    ensures fits { IfSome result (λ last. IsEnding (last_of last)) }
{
    ending_told(value)
}
