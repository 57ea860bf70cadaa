//! Values of JSON as numbers, rectangles and input records.
//!
//! [`number`], [`unit`] and [`signed`] give a whole number within its range, [`rect`] and [`clip`] a rectangle from an array of its four
//! sides, [`records`] input records, each an array of its name and its fields by the table of con_events. Documents and reports
//! have these in common. [`ItemsLeft`] goes along an array by [`take`]; [`Fields`] reads a record's fields.
//!
//! `specs/Values` says which values are one (`number_in`, `rect_in`, `records_in`). Only [`records`] takes memory.
#![tactic(auto)]

pub mod fields;
pub mod items;
pub mod values;

pub use fields::{Fields, records};
pub use items::{ItemsLeft, take};
pub use values::{clip, number, rect, signed, unit};
