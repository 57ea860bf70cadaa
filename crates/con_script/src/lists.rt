//! Values of a document as arguments that take memory.

ghost use Rattle.std.specs.Prelude.{◌≡◌, Some, None, IfOk, IfErr};
ghost use Rattle.con_events.specs.Reading.{IsForm};
ghost use Rattle.serde_json.specs.View.{view, items_view};
ghost use Rattle.con_document.specs.Values.{text_in, units_items, list_in, words_in};

use crate::text::units_of;
use con_events::{Misread, Words};
use con_units::Units;
use con_values::unit;
use serde_json::Value;
use std::alloc::Global;

/// A text.
pub(crate) fn text(alloc: Global, value: &Value) -> Result<Units, Misread>
    ensures ok { IfOk result (λ us. text_in (view value.now) ≡ Some us) }
    ensures form { IfErr result (λ e. IsForm e → text_in (view value.now) ≡ None) }
{
    let Some(text) = value.as_str() else {
        return Err(Misread::Form);
    };
    match units_of(alloc, text) {
        Ok(units) => Ok(units),
        Err(_) => Err(Misread::OutOfMemory),
    }
}

fn units_in(alloc: Global, items: &[Value]) -> Result<Units, Misread>
    ensures ok { IfOk result (λ us. units_items (items_view items.now) ≡ Some us) }
    ensures form { IfErr result (λ e. IsForm e → units_items (items_view items.now) ≡ None) }
{
    let mut units = Vec::new(alloc);
    for item in items {
        let Some(u) = unit(item) else {
            return Err(Misread::Form);
        };
        let Ok(()) = units.push(u) else {
            return Err(Misread::OutOfMemory);
        };
    }
    Ok(Units(units))
}

/// Numbers of 16 bits in order.
pub(crate) fn list(alloc: Global, value: &Value) -> Result<Units, Misread>
    ensures ok { IfOk result (λ us. list_in (view value.now) ≡ Some us) }
    ensures form { IfErr result (λ e. IsForm e → list_in (view value.now) ≡ None) }
{
    match value.as_array() {
        Some(items) => units_in(alloc, items.as_slice()),
        None => Err(Misread::Form),
    }
}

/// A number of 16 bits for each cell, or one for all.
pub(crate) fn words(alloc: Global, value: &Value) -> Result<Words, Misread>
    ensures ok { IfOk result (λ ws. words_in (view value.now) ≡ Some ws) }
    ensures form { IfErr result (λ e. IsForm e → words_in (view value.now) ≡ None) }
{
    match value.as_array() {
        Some(items) => Ok(Words::Each(units_in(alloc, items.as_slice())?)),
        None => match unit(value) {
            Some(word) => Ok(Words::One(word)),
            None => Err(Misread::Form),
        },
    }
}
