//! Keys on their own.

use con_records::Key;
use std::marker::Model;

/// Keys in the order in which they were pressed. Contracts see the list, and no capacity.
#[derive(Drop)]
pub struct Keys(pub Vec<Key>);

impl Model for Keys {
    ghost use Rattle.std.specs.Prelude.{List};
    ghost use Rattle.con_records.specs.declared.record.Key.{Key};

    ghost Value = { List Key };

    ghost view = { λ list. list.0.items };
}
