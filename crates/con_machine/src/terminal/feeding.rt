//! Bytes from the terminal.
ghost use Rattle.std.specs.Prelude.{◌≡◌, ℕ, ◌+◌, ◌*◌, ◌≤◌, ◌<◌, length, fold, IfSome, IfOk, vec_capacity};
ghost use Rattle.con_mouse.specs.Words.Reports.{IsReport};
ghost use Rattle.con_machine.specs.Terminal.{records_of, key_taken, fed, quiet};
ghost use Rattle.con_machine.specs.Feeding.{byte_taken, stored_count, told_report};

use crate::parts::Parts;
use con_mouse::{Report, report_of};
use con_records::Key;
use con_units::OutOfMemory;
use con_vtin::{KeyReader, is_read_in_pieces};

// The report that the last byte ended.
fn ended_report(keys: &KeyReader) -> Option<Report>
    ensures is { result ≡ told_report keys.now.ended }
    ensures fits { IfSome result IsReport }
{
    match keys.ended() {
        None => None,
        Some(bytes) => report_of(bytes),
    }
}

impl Parts {
    // A key: ctrl+C is signalled to all, once what stands before it is served, and another one is stored.
    fn take_key(&mut self, key: Key)
        requires { length (records_of self.old.state key) ≤ self.old.spare.records }
        ensures state { self.new.state ≡ key_taken self.old.state key }
        ensures spare { self.old.spare.records ≤ self.new.spare.records + length (records_of self.old.state key) }
    {
        if self.is_break(key) {
            self.settle();
            self.signal(0, 0);
        } else {
            self.store_key(key);
        }
    }

    // Keys, in their order.
    fn take_keys(&mut self, keys: &[Key])
        requires { stored_count self.old.state keys.now ≤ self.old.spare.records }
        ensures state { self.new.state ≡ fold key_taken self.old.state keys.now }
        ensures spare { self.old.spare.records ≤ self.new.spare.records + stored_count self.old.state keys.now }
    {
        for key in keys {
            self.take_key(*key);
        }
    }

    // A byte: its keys, and then the report that it ends.
    fn take_byte(&mut self, byte: u8, keys: &mut Vec<Key>)
        requires keys { 64 ≤ vec_capacity keys.old }
        requires room { 2 * (length self.old.state.held + 1) ≤ self.old.spare.records }
        ensures state { self.new.state ≡ byte_taken self.old.state byte }
        ensures spare { self.old.spare.records + 2 * length self.new.state.held ≤ self.new.spare.records + 2 * (length self.old.state.held + 1) }
        ensures keys { vec_capacity keys.new ≡ vec_capacity keys.old }
    {
        is_read_in_pieces();
        keys.clear();
        self.keys.feed(byte, keys);
        let report = ended_report(&self.keys);
        self.take_keys(keys.as_slice());
        self.take_report(report);
    }

    /// Takes the memory of a Feed of so many bytes, or of a Quiet: room for the records, and for the keys of a byte. Nothing
    /// that is seen changes.
    pub(crate) fn feed_room(&mut self, bytes: usize) -> Result<Vec<Key>, OutOfMemory>
        ensures state { self.new.state ≡ self.old.state }
        ensures keys { IfOk result (λ keys. 64 ≤ vec_capacity keys) }
        ensures records { IfOk result (λ keys. 2 * (bytes + length self.new.state.held) ≤ self.new.spare.records) }
    {
        let held = self.keys.held() as usize;
        let Some(units) = bytes.checked_add(held) else {
            return Err(OutOfMemory);
        };
        let Some(records) = units.checked_mul(2) else {
            return Err(OutOfMemory);
        };
        self.records.reserve(records)?;
        match Vec::with_capacity(self.title.allocator(), 64) {
            Ok(keys) => Ok(keys),
            Err(_) => Err(OutOfMemory),
        }
    }

    /// Feed: the keys and the reports of the bytes, after those that are held, are taken in their order.
    pub(crate) fn feed(&mut self, bytes: &[u8], keys: Vec<Key>)
        requires keys { 64 ≤ vec_capacity keys }
        requires room { 2 * (length bytes.now + length self.old.state.held) ≤ self.old.spare.records }
        ensures { self.new.state ≡ fed self.old.state bytes.now }
    {
        let mut keys = keys;
        for byte in bytes {
            self.take_byte(*byte, &mut keys);
        }
    }

    /// Quiet: nothing came for a while, and what was held becomes keys.
    #[tactic(auto, unfolding(crate::specs::Terminal::quiet))]
    pub(crate) fn quiet(&mut self, keys: Vec<Key>)
        requires keys { 64 ≤ vec_capacity keys }
        requires room { 2 * length self.old.state.held ≤ self.old.spare.records }
        ensures { self.new.state ≡ quiet self.old.state }
    {
        let mut keys = keys;
        keys.clear();
        self.keys.quiet(&mut keys);
        self.take_keys(keys.as_slice());
    }
}
