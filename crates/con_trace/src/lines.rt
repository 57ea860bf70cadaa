//! A line, read.

ghost use Rattle.std.specs.Prelude.{◌≡◌, Some, None, IfOk, IsTrue, ◌↔◌, option_and_then};
ghost use Rattle.con_events.specs.Reading.{IsForm};
ghost use Rattle.serde_json.specs.Read.{read as read_json};
ghost use Rattle.serde_json.specs.View.{view};
ghost use Rattle.con_lines.specs.Told.{said_in};
ghost use Rattle.con_trace.specs.Cut.{IsLineRead};
ghost use Rattle.con_lines.specs.Line.{line_text};

use crate::entry::line_of;
use crate::last::is_ending_of;
use con_events::Misread;
use con_lines::last::ending;
use con_lines::saying::said;
use con_lines::{LineRead, Said};
use con_units::OutOfMemory;
use serde_json::Value;
use std::alloc::Global;

/// Whether the line of an event and its answer is this one.
pub fn is_line_of(alloc: Global, said: &Said, line: &[u8]) -> Result<bool, OutOfMemory>
    ensures { IfOk result (λ b. IsTrue b ↔ (line.now ≡ line_text said.now.entry said.now.reply said.now.end)) }
{
    let written = given!(line_of(alloc, &said.entry, &said.reply, said.end));
    Ok(written.as_slice() == line)
}

/// What a line is whose JSON is this value.
fn told(alloc: Global, value: &Value, line: &[u8]) -> Result<LineRead, OutOfMemory>
    requires { read_json line.now ≡ Some (view value.now) }
    ensures { IfOk result (λ r. IsLineRead r line.now) }
{
    match said(alloc, value) {
        Ok(said) => event_told(alloc, said, line),
        Err(misread) => no_event_told(alloc, misread, value, line),
    }
}

/// What a line is whose JSON says this event and answer.
fn event_told(alloc: Global, said: Said, line: &[u8]) -> Result<LineRead, OutOfMemory>
    requires { option_and_then said_in (read_json line.now) ≡ Some said }
    ensures { IfOk result (λ r. IsLineRead r line.now) }
{
    let Ok(same) = is_line_of(alloc, &said, line) else {
        drop(said);
        return Err(OutOfMemory);
    };
    if same {
        Ok(LineRead::Event(said))
    } else {
        drop(said);
        Ok(LineRead::Neither)
    }
}

/// What a line is whose JSON is this value, which was not read as an event.
fn no_event_told(
    alloc: Global,
    misread: Misread,
    value: &Value,
    line: &[u8],
) -> Result<LineRead, OutOfMemory>
    requires json { read_json line.now ≡ Some (view value.now) }
    requires no_event { IsForm misread → said_in (view value.now) ≡ None }
    ensures { IfOk result (λ r. IsLineRead r line.now) }
{
    match misread {
        Misread::OutOfMemory => Err(OutOfMemory),
        Misread::Form => last_told(alloc, value, line),
    }
}

/// What a line is whose JSON is this value and no event's.
fn last_told(alloc: Global, value: &Value, line: &[u8]) -> Result<LineRead, OutOfMemory>
    requires json { read_json line.now ≡ Some (view value.now) }
    requires no_event { said_in (view value.now) ≡ None }
    ensures { IfOk result (λ r. IsLineRead r line.now) }
{
    match ending(value) {
        Some(last) => {
            if is_ending_of(alloc, &last, line)? {
                Ok(LineRead::End(last.status()))
            } else {
                Ok(LineRead::Neither)
            }
        }
        None => Ok(LineRead::Neither),
    }
}

/// What a line is.
pub fn line_read(alloc: Global, line: &[u8]) -> Result<LineRead, OutOfMemory>
    ensures { IfOk result (λ r. IsLineRead r line.now) }
{
    match Value::from_slice(alloc, line) {
        Ok(value) => told(alloc, &value, line),
        Err(error) => {
            if error.is_memory() {
                Err(OutOfMemory)
            } else {
                Ok(LineRead::Neither)
            }
        }
    }
}
