//! An event and its answer, from a line.

ghost use Rattle.std.specs.Prelude.{◌≡◌, Some, None, IfOk, IfErr, option_map};
ghost use Rattle.con_events.specs.Reading.{IsForm};
ghost use Rattle.serde_json.specs.Data.{item, no_items};
ghost use Rattle.serde_json.specs.View.{view, items_view};
ghost use Rattle.con_lines.specs.Told.{one_digit, digits_after, client_in, actor_in, answer_in, answered, said_by, said_items, said_in};

use crate::answers::{painted, reply};
use crate::events::event;
use crate::form::form_of_event;
use crate::said::Said;
use con_events::{Actor, Entry, Event, Misread, Reply};
use serde_json::Value;
use std::alloc::Global;

/// A number below 256 from its decimal digits.
fn small_number(digits: &[u8]) -> Option<u8>
    ensures { result ≡ digits_after 0 digits.now }
{
    let mut n: u8 = 0;
    for digit in digits {
        n = found!(more_by(n, *digit));
    }
    Some(n)
}

/// A number with one more digit.
fn more_by(n: u8, digit: u8) -> Option<u8>
    ensures { result ≡ one_digit n digit }
{
    if digit < 48 || 57 < digit {
        return None;
    }
    let more = n as u16 * 10 + (digit - 48) as u16;
    if more < 256 { Some(more as u8) } else { None }
}

/// A client's number, 1 to 255, behind a `c`.
fn client(name: &[u8]) -> Option<u8>
    ensures { result ≡ client_in name.now }
{
    match name {
        [99, digits @ ..] => match small_number(digits) {
            Some(0) => None,
            other => other,
        },
        _ => None,
    }
}

/// Who acts.
fn actor(name: &str) -> Option<Actor>
    ensures { result ≡ actor_in name.now }
{
    match name {
        "t" => Some(Actor::Terminal),
        "p" => Some(Actor::Painter),
        _ => match client(name.as_bytes()) {
            Some(client) => Some(Actor::Client(client)),
            None => None,
        },
    }
}

/// What an event was answered, and the stream's length after a picture.
fn answer(alloc: Global, event: &Event, value: &Value) -> Result<(Reply, u64), Misread>
    ensures ok { IfOk result (λ r. answer_in event.now (view value.now) ≡ Some r) }
    ensures form { IfErr result (λ e. IsForm e → answer_in event.now (view value.now) ≡ None) }
{
    match event {
        Event::Paint => match painted(value) {
            Some(end) => Ok((Reply::Done, end)),
            None => Err(Misread::Form),
        },
        _ => Ok((given!(reply(alloc, form_of_event(event), value)), 0)),
    }
}

/// An actor's event and its answer.
fn said_of(
    alloc: Global,
    actor: Actor,
    name: &str,
    arguments: &[Value],
    value: &Value,
) -> Result<Said, Misread>
    ensures ok { IfOk result (λ s. said_by actor name.now (items_view arguments.now) (view value.now) ≡ Some s) }
    ensures form { IfErr result (λ e. IsForm e → said_by actor name.now (items_view arguments.now) (view value.now) ≡ None) }
{
    let event = given!(event(alloc, actor, name, arguments));
    with_answer(alloc, actor, event, value)
}

/// An event with its answer.
fn with_answer(alloc: Global, actor: Actor, event: Event, value: &Value) -> Result<Said, Misread>
    ensures ok { IfOk result (λ s. option_map (λ p. answered actor event p) (answer_in event (view value.now)) ≡ Some s) }
    ensures form { IfErr result (λ e. IsForm e → option_map (λ p. answered actor event p) (answer_in event (view value.now)) ≡ None) }
{
    match answer(alloc, &event, value) {
        Ok((reply, end)) => Ok(Said {
            entry: Entry { actor, event },
            reply,
            end,
        }),
        Err(misread) => {
            drop(event);
            Err(misread)
        }
    }
}

/// An event and its answer from who acts, a name, arguments and an answer.
fn said_by_parts(
    alloc: Global,
    who: &Value,
    name: &Value,
    arguments: &Value,
    answer: &Value,
) -> Result<Said, Misread>
    ensures ok { IfOk result (λ s.
        said_items (item (view who.now) (item (view name.now) (item (view arguments.now) (item (view answer.now) no_items)))) ≡ Some s) }
    ensures form { IfErr result (λ e. IsForm e →
        said_items (item (view who.now) (item (view name.now) (item (view arguments.now) (item (view answer.now) no_items)))) ≡ None) }
{
    let Some(who) = who.as_str() else {
        return Err(Misread::Form);
    };
    let Some(actor) = actor(who) else {
        return Err(Misread::Form);
    };
    let Some(name) = name.as_str() else {
        return Err(Misread::Form);
    };
    let Some(arguments) = arguments.as_array() else {
        return Err(Misread::Form);
    };
    said_of(alloc, actor, name, arguments.as_slice(), answer)
}

/// An event and its answer from the four items of a line.
fn four(alloc: Global, items: &[Value]) -> Result<Said, Misread>
    ensures ok { IfOk result (λ s. said_items (items_view items.now) ≡ Some s) }
    ensures form { IfErr result (λ e. IsForm e → said_items (items_view items.now) ≡ None) }
{
    match items {
        [who, name, arguments, answer] => said_by_parts(alloc, who, name, arguments, answer),
        _ => Err(Misread::Form),
    }
}

/// An event and its answer.
pub fn said(alloc: Global, value: &Value) -> Result<Said, Misread>
    ensures ok { IfOk result (λ s. said_in (view value.now) ≡ Some s) }
    ensures form { IfErr result (λ e. IsForm e → said_in (view value.now) ≡ None) }
{
    match value.as_array() {
        Some(items) => four(alloc, items.as_slice()),
        None => Err(Misread::Form),
    }
}
