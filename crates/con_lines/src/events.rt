//! Events from a line.

ghost use Rattle.std.specs.Prelude.{◌≡◌, ℕ, Some, None, IfOk, IfErr, IfSome, option_map, option_and_then};
ghost use Rattle.con_events.specs.Reading.{IsForm, call_from, whole};
ghost use Rattle.serde_json.specs.View.{view, items_view};
ghost use Rattle.con_lines.specs.Told.{as_told, number_pair_in, unit_pair_in, read_with_in, none_in, feed_in, exit_in, call_in};
ghost use Rattle.con_lines.specs.Told.{only as only_item, of_terminal as terminal_in, of_client as client_event_in, of_painter as painter_in, event_in};

use crate::answers::{is_bare, only};
use crate::cursor::{Cursor, units};
use crate::unhex::bytes_from;
use con_events::{Actor, Event, Misread, Wanted, whole_call};
use con_units::Size;
use con_values::{ItemsLeft, number, unit};
use serde_json::Value;
use std::alloc::Global;

/// Two numbers of 32 bits.
fn number_pair(items: &[Value]) -> Option<(u32, u32)>
    ensures { result ≡ number_pair_in (items_view items.now) }
{
    match items {
        [first, last] => Some((found!(number(first)), found!(number(last)))),
        _ => None,
    }
}

/// Two numbers of 16 bits.
fn unit_pair(items: &[Value]) -> Option<(u16, u16)>
    ensures { result ≡ unit_pair_in (items_view items.now) }
{
    match items {
        [first, last] => Some((found!(unit(first)), found!(unit(last)))),
        _ => None,
    }
}

fn read_with(alloc: Global, items: &[Value]) -> Result<Event, Misread>
    ensures ok { IfOk result (λ e. read_with_in (items_view items.now) ≡ Some e) }
    ensures form { IfErr result (λ e. IsForm e → read_with_in (items_view items.now) ≡ None) }
{
    match items {
        [handle, n, initial, mask] => {
            let Some(handle) = number(handle) else {
                return Err(Misread::Form);
            };
            let Some(n) = number(n) else {
                return Err(Misread::Form);
            };
            let Some(mask) = number(mask) else {
                return Err(Misread::Form);
            };
            let initial = given!(units(alloc, initial));
            Ok(Event::Begin(Wanted::ReadWith {
                handle,
                n,
                initial,
                mask,
            }))
        }
        _ => Err(Misread::Form),
    }
}

fn feed(alloc: Global, value: &Value) -> Result<Event, Misread>
    ensures ok { IfOk result (λ e. feed_in (view value.now) ≡ Some e) }
    ensures form { IfErr result (λ e. IsForm e → feed_in (view value.now) ≡ None) }
{
    match value.as_str() {
        Some(text) => Ok(Event::Feed(given!(bytes_from(alloc, text.as_bytes())))),
        None => Err(Misread::Form),
    }
}

/// A call by its name.
fn call(alloc: Global, name: &str, items: &[Value]) -> Result<Event, Misread>
    ensures ok { IfOk result (λ e. call_in name.now (items_view items.now) ≡ Some e) }
    ensures form { IfErr result (λ e. IsForm e → call_in name.now (items_view items.now) ≡ None) }
{
    let mut cursor = Cursor {
        alloc,
        items: ItemsLeft { left: items },
    };
    Ok(Event::Call(given!(whole_call(name, &mut cursor))))
}

#[tactic(auto, unfolding(crate::specs::Told::of_terminal))]
fn of_terminal(alloc: Global, name: &str, items: &[Value]) -> Result<Event, Misread>
    ensures ok { IfOk result (λ e. terminal_in name.now (items_view items.now) ≡ Some e) }
    ensures form { IfErr result (λ e. IsForm e → terminal_in name.now (items_view items.now) ≡ None) }
{
    match name {
        "feed" => match only(items) {
            Some(one) => feed(alloc, one),
            None => Err(Misread::Form),
        },
        "quiet" => {
            if is_bare(items) {
                Ok(Event::Quiet)
            } else {
                Err(Misread::Form)
            }
        }
        "resize" => match unit_pair(items) {
            Some((w, h)) => Ok(Event::Resize(Size { w, h })),
            None => Err(Misread::Form),
        },
        "ask" => {
            if is_bare(items) {
                Ok(Event::Ask)
            } else {
                Err(Misread::Form)
            }
        }
        "hangup" => {
            if is_bare(items) {
                Ok(Event::Hangup)
            } else {
                Err(Misread::Form)
            }
        }
        "drained" => {
            if is_bare(items) {
                Ok(Event::Drained)
            } else {
                Err(Misread::Form)
            }
        }
        _ => Err(Misread::Form),
    }
}

#[tactic(auto, unfolding(crate::specs::Told::of_client))]
fn of_client(alloc: Global, name: &str, items: &[Value]) -> Result<Event, Misread>
    ensures ok { IfOk result (λ e. client_event_in name.now (items_view items.now) ≡ Some e) }
    ensures form { IfErr result (λ e. IsForm e → client_event_in name.now (items_view items.now) ≡ None) }
{
    match name {
        "begin-read" => match number_pair(items) {
            Some((handle, n)) => Ok(Event::Begin(Wanted::Read { handle, n })),
            None => Err(Misread::Form),
        },
        "begin-read-input" => match number_pair(items) {
            Some((handle, n)) => Ok(Event::Begin(Wanted::ReadInput { handle, n })),
            None => Err(Misread::Form),
        },
        "begin-read-with" => read_with(alloc, items),
        "collect" => {
            if is_bare(items) {
                Ok(Event::Collect)
            } else {
                Err(Misread::Form)
            }
        }
        "take-ctrl" => {
            if is_bare(items) {
                Ok(Event::TakeCtrl)
            } else {
                Err(Misread::Form)
            }
        }
        "exit" => exit(items),
        _ => call(alloc, name, items),
    }
}

fn exit(items: &[Value]) -> Result<Event, Misread>
    ensures ok { IfOk result (λ e. exit_in (items_view items.now) ≡ Some e) }
    ensures form { IfErr result (λ e. IsForm e → exit_in (items_view items.now) ≡ None) }
{
    let Some(one) = only(items) else {
        return Err(Misread::Form);
    };
    match number(one) {
        Some(status) => Ok(Event::Exit(status)),
        None => Err(Misread::Form),
    }
}

#[tactic(auto, unfolding(crate::specs::Told::of_painter))]
fn of_painter(name: &str, items: &[Value]) -> Result<Event, Misread>
    ensures ok { IfOk result (λ e. painter_in name.now (items_view items.now) ≡ Some e) }
    ensures form { IfErr result (λ e. IsForm e → painter_in name.now (items_view items.now) ≡ None) }
{
    match name {
        "paint" => {
            if is_bare(items) {
                Ok(Event::Paint)
            } else {
                Err(Misread::Form)
            }
        }
        _ => Err(Misread::Form),
    }
}

/// An actor's event, by its name and its arguments.
pub fn event(alloc: Global, actor: Actor, name: &str, items: &[Value]) -> Result<Event, Misread>
    ensures ok { IfOk result (λ e. event_in actor name.now (items_view items.now) ≡ Some e) }
    ensures form { IfErr result (λ e. IsForm e → event_in actor name.now (items_view items.now) ≡ None) }
{
    match actor {
        Actor::Client(_) => of_client(alloc, name, items),
        Actor::Terminal => of_terminal(alloc, name, items),
        Actor::Painter => of_painter(name, items),
    }
}
