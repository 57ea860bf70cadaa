//! The arguments of an event in a line.

ghost use Rattle.std.specs.Prelude.{◌≡◌, Some, None, IfOk, IfErr};
ghost use Rattle.con_events.specs.Reading.{IsForm};
ghost use Rattle.serde_json.specs.View.{view, items_view};
ghost use Rattle.con_lines.specs.Told.{units_in, words_in, as_told};

use crate::unhex::units_from;
use con_events::{Arguments, Misread, Words};
use con_records::Taken;
use con_units::{Rect, Units};
use con_values::{ItemsLeft, clip, number, records, rect, signed, take, unit};
use serde_json::Value;
use std::alloc::Global;

/// Units in hexadecimal.
pub fn units(alloc: Global, value: &Value) -> Result<Units, Misread>
    ensures ok { IfOk result (λ us. units_in (view value.now) ≡ Some us) }
    ensures form { IfErr result (λ e. IsForm e → units_in (view value.now) ≡ None) }
{
    match value.as_str() {
        Some(text) => units_from(alloc, text.as_bytes()),
        None => Err(Misread::Form),
    }
}

/// A word for all cells, or one for each in hexadecimal.
fn words(alloc: Global, value: &Value) -> Result<Words, Misread>
    ensures ok { IfOk result (λ ws. words_in (view value.now) ≡ Some ws) }
    ensures form { IfErr result (λ e. IsForm e → words_in (view value.now) ≡ None) }
{
    match value.as_str() {
        Some(text) => Ok(Words::Each(given!(units_from(alloc, text.as_bytes())))),
        None => match unit(value) {
            Some(word) => Ok(Words::One(word)),
            None => Err(Misread::Form),
        },
    }
}

/// The arguments that are left.
#[derive(Drop)]
pub struct Cursor<'v> {
    pub alloc: Global,
    pub items: ItemsLeft<'v>,
}

impl Arguments for Cursor<'_> {
    ghost left = { λ c. as_told (items_view c.items.left.now) };

    fn is_done(&self) -> bool {
        self.items.left.is_empty()
    }

    fn number(&mut self) -> Result<u32, Misread> {
        match take(&mut self.items) {
            Some(value) => number(value).ok_or(Misread::Form),
            None => Err(Misread::Form),
        }
    }

    fn signed(&mut self) -> Result<i16, Misread> {
        match take(&mut self.items) {
            Some(value) => signed(value).ok_or(Misread::Form),
            None => Err(Misread::Form),
        }
    }

    fn unit(&mut self) -> Result<u16, Misread> {
        match take(&mut self.items) {
            Some(value) => unit(value).ok_or(Misread::Form),
            None => Err(Misread::Form),
        }
    }

    fn flag(&mut self) -> Result<bool, Misread> {
        match take(&mut self.items) {
            Some(value) => value.as_bool().ok_or(Misread::Form),
            None => Err(Misread::Form),
        }
    }

    fn text(&mut self) -> Result<Units, Misread> {
        match take(&mut self.items) {
            Some(value) => units(self.alloc, value),
            None => Err(Misread::Form),
        }
    }

    fn rect(&mut self) -> Result<Rect, Misread> {
        match take(&mut self.items) {
            Some(value) => rect(value).ok_or(Misread::Form),
            None => Err(Misread::Form),
        }
    }

    fn clip(&mut self) -> Result<Option<Rect>, Misread> {
        match take(&mut self.items) {
            Some(value) => clip(value).ok_or(Misread::Form),
            None => Err(Misread::Form),
        }
    }

    fn words(&mut self) -> Result<Words, Misread> {
        match take(&mut self.items) {
            Some(value) => words(self.alloc, value),
            None => Err(Misread::Form),
        }
    }

    fn list(&mut self) -> Result<Units, Misread> {
        match take(&mut self.items) {
            Some(value) => units(self.alloc, value),
            None => Err(Misread::Form),
        }
    }

    fn records(&mut self) -> Result<Taken, Misread> {
        match take(&mut self.items) {
            Some(value) => records(self.alloc, value),
            None => Err(Misread::Form),
        }
    }
}
