//! A line that is being edited.
//!
//! [`Line`] keeps a text of at most 1,024 UTF-16 code units, a caret in it, and whether a typed unit is put in or
//! written over the one at the caret. Contracts see it as a `LineText`: its units, its caret from 0, its insert flag.
//!
//! - [`Line::new`] takes all the memory that the line will ever use: no later call takes any.
//! - [`Line::press`] applies one key by the table of `specs/Line.antt`, one equation a key. Which line of the history a
//!   key brings in, its caller decides. The answer, [`Edit`], tells the first place at which the new text differs
//!   from the old one, and the old length: what has to be drawn again, and no more.
//! - [`Line::text`], [`Line::caret`] and [`Line::into_units`] tell what stands there.
//!
//! A line knows nothing of a screen, of records or of key codes. The return key isn't one of its keys.
#![tactic(auto)]

mod edit;
mod line;
mod press;

pub use edit::Edit;
pub use line::Line;
pub use press::Press;
