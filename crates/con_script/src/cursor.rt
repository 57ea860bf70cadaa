//! The arguments of a call in a document.

ghost use Rattle.std.specs.Prelude.{◌≡◌};
ghost use Rattle.serde_json.specs.View.{items_view};
ghost use Rattle.con_document.specs.Values.{arguments};

use crate::lists::{list, text, words};
use con_events::{Arguments, Misread, Words};
use con_records::Taken;
use con_units::{Rect, Units};
use con_values::{ItemsLeft, clip, number, records, rect, signed, take, unit};
use std::alloc::Global;

/// The arguments that are left of a call.
#[derive(Drop)]
pub(crate) struct Cursor<'v> {
    pub(crate) alloc: Global,
    pub(crate) items: ItemsLeft<'v>,
}

impl Arguments for Cursor<'_> {
    ghost left = { λ c. arguments (items_view c.items.left.now) };

    fn is_done(&self) -> bool {
        self.items.left.is_empty()
    }

    fn number(&mut self) -> Result<u32, Misread> {
        match take(&mut self.items) {
            Some(value) => number(value).ok_or(Misread::Form),
            None => Err(Misread::Form),
        }
    }

    fn signed(&mut self) -> Result<i16, Misread> {
        match take(&mut self.items) {
            Some(value) => signed(value).ok_or(Misread::Form),
            None => Err(Misread::Form),
        }
    }

    fn unit(&mut self) -> Result<u16, Misread> {
        match take(&mut self.items) {
            Some(value) => unit(value).ok_or(Misread::Form),
            None => Err(Misread::Form),
        }
    }

    fn flag(&mut self) -> Result<bool, Misread> {
        match take(&mut self.items) {
            Some(value) => value.as_bool().ok_or(Misread::Form),
            None => Err(Misread::Form),
        }
    }

    fn text(&mut self) -> Result<Units, Misread> {
        match take(&mut self.items) {
            Some(value) => text(self.alloc, value),
            None => Err(Misread::Form),
        }
    }

    fn rect(&mut self) -> Result<Rect, Misread> {
        match take(&mut self.items) {
            Some(value) => rect(value).ok_or(Misread::Form),
            None => Err(Misread::Form),
        }
    }

    fn clip(&mut self) -> Result<Option<Rect>, Misread> {
        match take(&mut self.items) {
            Some(value) => clip(value).ok_or(Misread::Form),
            None => Err(Misread::Form),
        }
    }

    fn words(&mut self) -> Result<Words, Misread> {
        match take(&mut self.items) {
            Some(value) => words(self.alloc, value),
            None => Err(Misread::Form),
        }
    }

    fn list(&mut self) -> Result<Units, Misread> {
        match take(&mut self.items) {
            Some(value) => list(self.alloc, value),
            None => Err(Misread::Form),
        }
    }

    fn records(&mut self) -> Result<Taken, Misread> {
        match take(&mut self.items) {
            Some(value) => records(self.alloc, value),
            None => Err(Misread::Form),
        }
    }
}
