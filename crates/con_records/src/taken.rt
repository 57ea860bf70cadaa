//! Records on their own.

use crate::record::Record;
use std::marker::Model;

/// Records that were taken out of a queue, or are to be put in. Contracts see the list, and no capacity.
pub struct Taken(pub Vec<Record>);

impl Model for Taken {
    ghost use Rattle.std.specs.Prelude.{List};
    ghost use Rattle.con_records.specs.declared.record.Record.{Record};

    ghost Value = { List Record };

    ghost view = { λ t. t.0.items };
}

// By hand, so that what drops one has this call in its proof, and not all that lies in one.
impl Drop for Taken {
    fn drop(self) {
        let Taken(_) = self;
    }
}
