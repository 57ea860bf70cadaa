//! What an event answers.

use con_records::Taken;
use con_units::{Code, Marks, Rect, Rows, Units, View};
use std::marker::Model;

/// Whole numbers in the order of the call's row; true is 1 and false 0. Contracts see the list.
#[derive(Drop)]
pub struct Numbers(pub Vec<i64>);

impl Model for Numbers {
    ghost use Rattle.std.specs.Prelude.{List, ℤ};

    ghost Value = { List ℤ };

    ghost view = { λ list. list.0.items };
}

/// Texts in order. Contracts see the list.
#[derive(Drop)]
pub struct Lines(pub Vec<Units>);

impl Model for Lines {
    ghost use Rattle.std.specs.Prelude.{List, ℕ};

    ghost Value = { List (List ℕ) };

    ghost view = { λ list. list.0.items };
}

/// What an event answers.
#[derive(Drop)]
pub enum Reply {
    /// It is done.
    Done,
    /// It is refused, and changed nothing; or a wait ended without an answer.
    Fail(Code),
    /// A handle, a mode or a count.
    Number(u32),
    /// Several numbers.
    Numbers(Numbers),
    /// A text, or words.
    Units(Units),
    /// Records of the input.
    Records(Taken),
    /// The part of a rectangle that was used, and its cells.
    Cells(Rect, Rows),
    /// Several texts.
    Lines(Lines),
    /// A control event.
    Ctrl(u32),
    /// What the console shows, which rows may differ from the view before, and whether it is for a terminal of a new size.
    View(View, Marks, bool),
}
