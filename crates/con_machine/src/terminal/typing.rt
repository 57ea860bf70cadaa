//! Keys from the terminal, as records.
ghost use Rattle.std.specs.Prelude.{◌≡◌, ◌≤◌, ◌-◌, ◌++◌, ◌&&◌, map, length};
ghost use Rattle.con_records.specs.Queue.{appended};
ghost use Rattle.con_machine.specs.ScreenCalls.{reported};
ghost use Rattle.con_machine.specs.Terminal.{is_break, records_of};

use crate::calls::screen_calls::has_bit;
use crate::parts::Parts;
use con_records::{Key, Record, Records};
use con_vtin::sequence_of;

// A unit as a key that went down.
fn reported(unit: u16) -> Record
    ensures { result ≡ reported unit }
{
    Record::Key(Key {
        down: true,
        repeat: 1,
        vk: 0,
        scan: 0,
        unit,
        state: 0,
    })
}

/// Stores a record for each unit.
pub(crate) fn store_units(records: &mut Records, units: &[u16])
    requires { length units.now ≤ records.old.spare }
    ensures { records.new ≡ appended records.old (map reported units.now) }
{
    for unit in units {
        records.append_reserved(reported(*unit));
    }
}

impl Parts {
    /// Whether a key is ctrl+C, where the input is processed.
    pub(crate) fn is_break(&self, key: Key) -> bool
        ensures { result ≡ is_break self.now.state key }
    {
        has_bit(self.mode, 1) && key.vk == 0x43 && key.unit == 3 && has_bit(key.state, 8)
    }

    /// Stores a key, down and up; or, in input mode 0x0200, a record for each unit of its sequence.
    pub(crate) fn store_key(&mut self, key: Key)
        requires { length (records_of self.old.state key) ≤ self.old.spare.records }
        ensures state { self.new.state ≡ record self.old.state { records = self.old.state.records ++ records_of self.old.state key } }
        ensures spare { self.new.spare ≡ record self.old.spare { records = self.old.spare.records - length (records_of self.old.state key) } }
    {
        if has_bit(self.mode, 0x200) {
            let sequence = sequence_of(key, self.cursor_keys);
            let count = sequence.count as usize;
            store_units(&mut self.records, &sequence.units[..count]);
        } else {
            let mut up = key;
            up.down = false;
            self.records.append_reserved(Record::Key(key));
            self.records.append_reserved(Record::Key(up));
        }
    }
}
