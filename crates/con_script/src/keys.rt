//! The keys of an object.

ghost use Rattle.std.specs.Prelude.{◌≡◌, map, option_map};
ghost use Rattle.serde_json.specs.View.{view, items_view, members_view};
ghost use Rattle.con_document.specs.Session.{first_missing, first_unknown, is_among, keys_spot, member_at, within, array_within};
ghost use Rattle.con_script.specs.Places.{Keeps, HaltsAt};

use crate::place::{Halt, Place};
use serde_json::{Map, Value};
use std::alloc::Global;

/// The first of the keys that an object lacks.
fn missing<'k>(value: &Value, keys: &[&'k str]) -> Option<&'k str>
    ensures { option_map (λ key. key.now) result ≡ first_missing (map (λ key. key.now) keys.now) (view value.now) }
{
    for key in keys {
        if value.get(*key).is_none() {
            return Some(*key);
        }
    }
    None
}

fn is_known(keys: &[&str], name: &str) -> bool
    ensures { result ≡ is_among (map (λ key. key.now) keys.now) name.now }
{
    for key in keys {
        if *key == name {
            return true;
        }
    }
    false
}

/// The least key of an object that is none of these.
fn unknown<'v>(object: &'v Map<String, Value>, keys: &[&str]) -> Option<&'v str>
    ensures { option_map (λ key. key.now) result ≡ first_unknown (map (λ key. key.now) keys.now) (members_view object.now.entries) }
{
    for (name, _) in object {
        if !is_known(keys, name.as_str()) {
            return Some(name.as_str());
        }
    }
    None
}

/// A refusal at a key.
pub(crate) fn halt_at(alloc: Global, key: &str) -> Halt
    ensures { HaltsAt key.now result }
{
    match String::from_str(alloc, key) {
        Ok(key) => Halt::At(Place::Key(key)),
        Err(_) => Halt::OutOfMemory,
    }
}

/// Refuses what is no object with these keys alone.
pub(crate) fn check_keys(alloc: Global, value: &Value, keys: &[&str]) -> Result<(), Halt>
    ensures { Keeps result (keys_spot (map (λ key. key.now) keys.now) (view value.now)) }
{
    let Some(object) = value.as_object() else {
        return Err(Halt::At(Place::Whole));
    };
    if let Some(key) = missing(value, keys) {
        return Err(halt_at(alloc, key));
    }
    if let Some(key) = unknown(object, keys) {
        return Err(halt_at(alloc, key));
    }
    Ok(())
}

fn items_within<'v>(items: &'v [Value], least: usize, most: usize) -> Option<&'v [Value]>
    ensures { option_map (λ vs. items_view vs.now) result ≡ within least most (items_view items.now) }
{
    let count = items.len();
    if least <= count && count <= most {
        Some(items)
    } else {
        None
    }
}

fn array_of<'v>(value: &'v Value, least: usize, most: usize) -> Option<&'v [Value]>
    ensures { option_map (λ vs. items_view vs.now) result ≡ array_within least most (view value.now) }
{
    match value.as_array() {
        Some(items) => items_within(items.as_slice(), least, most),
        None => None,
    }
}

/// The items of an array under a key, where there are so many.
pub(crate) fn array_at<'v>(
    value: &'v Value,
    key: &str,
    least: usize,
    most: usize,
) -> Option<&'v [Value]>
    ensures { option_map (λ vs. items_view vs.now) result ≡ array_within least most (member_at key.now (view value.now)) }
{
    match value.get(key) {
        Some(member) => array_of(member, least, most),
        None => None,
    }
}
