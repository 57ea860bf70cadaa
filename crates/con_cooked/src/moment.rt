//! A press with the history of its moment, in proofs alone.
ghost use Rattle.std.specs.Prelude.{◌≡◌};
ghost use Rattle.con_history.specs.Histories.{lines_of};

use con_history::Histories;
use con_records::Record;
use con_units::Units;
use std::marker::Model;
use std::snapshot::Snapshot;

/// A record, and the lines of a program's history at that moment.
#[derive(Drop)]
pub struct Stamped {
    pressed: Record,
    histories: Snapshot<Histories>,
    program: Snapshot<Units>,
}

impl Model for Stamped {
    ghost use Rattle.con_history.specs.Histories.{lines_of};
    ghost use Rattle.con_cooked.specs.Cooked.{Moment};

    ghost Value = { Moment };

    ghost view = { λ m. record { pressed = m.pressed; lines = lines_of m.histories.value m.program.value } };
}

impl Stamped {
    /// The record at this moment.
    pub fn of(pressed: &Record, histories: &Histories, program: &Units) -> Stamped
        ensures { result ≡ record { pressed = pressed.now; lines = lines_of histories.now program.now } }
    {
        Stamped {
            pressed: *pressed,
            histories: Snapshot::of(histories),
            program: Snapshot::of(program),
        }
    }
}
