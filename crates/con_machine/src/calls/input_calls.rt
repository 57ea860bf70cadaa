//! Calls on the input queue.
ghost use Rattle.std.specs.Prelude.{◌≡◌, ◌≤◌, length, IfOk};
ghost use Rattle.con_units.specs.Limits.{most_records};
ghost use Rattle.con_machine.specs.InputCalls.{peek_told, peeked, wrote_input, counted, flushed};

use crate::parts::Parts;
use con_events::Reply;
use con_handles::Kind;
use con_records::{Record, Records, Taken};
use con_units::limits::MOST_RECORDS;
use con_units::{Code, OutOfMemory};
use std::alloc::Global;

// The first records, in memory of their own.
fn peek(alloc: Global, records: &Records, n: u32) -> Result<Reply, OutOfMemory>
    ensures { IfOk result (λ r. r ≡ peek_told records.now.items n) }
{
    if n == 0 {
        return Ok(Reply::Fail(Code::BadArgument));
    }
    if MOST_RECORDS < n as usize {
        return Ok(Reply::Fail(Code::Limit));
    }
    let Ok(mut room) = Vec::with_capacity(alloc, (n as usize).min(records.count())) else {
        return Err(OutOfMemory);
    };
    records.peek(n as usize, &mut room);
    Ok(Reply::Records(Taken(room)))
}

impl Parts {
    /// `PeekConsoleInput`. 87: no record; 1816: more than 1,024.
    pub(crate) fn told_records(&self, p: u8, h: u32, n: u32) -> Result<Reply, OutOfMemory>
        ensures reply { IfOk result (λ r. r ≡ (peeked self.now.state p h n).reply) }
    {
        match self.guard(p, h, Kind::Input, 1) {
            Err(code) => Ok(Reply::Fail(code)),
            Ok(_) => peek(self.title.allocator(), &self.records, n),
        }
    }

    /// `WriteConsoleInput`. 1816: more than 1,024 records.
    pub(crate) fn write_input(&mut self, p: u8, h: u32, records: &[Record]) -> Reply
        requires room { length records.now ≤ most_records → length records.now ≤ self.old.spare.records }
        ensures state { self.new.state ≡ (wrote_input self.old.state p h records.now).after }
        ensures reply { result ≡ (wrote_input self.old.state p h records.now).reply }
    {
        match self.guard(p, h, Kind::Input, 2) {
            Err(code) => Reply::Fail(code),
            Ok(_) => {
                if MOST_RECORDS < records.len() {
                    return Reply::Fail(Code::Limit);
                }
                self.records.write(records);
                Reply::Number(records.len() as u32)
            }
        }
    }

    /// `GetNumberOfConsoleInputEvents`.
    pub(crate) fn told_count(&self, p: u8, h: u32) -> Reply
        ensures reply { result ≡ (counted self.now.state p h).reply }
    {
        match self.guard(p, h, Kind::Input, 1) {
            Err(code) => Reply::Fail(code),
            Ok(_) => Reply::Number(self.records.count().min(4294967295) as u32),
        }
    }

    /// `FlushConsoleInputBuffer`.
    pub(crate) fn flush(&mut self, p: u8, h: u32) -> Reply
        ensures state { self.new.state ≡ (flushed self.old.state p h).after }
        ensures reply { result ≡ (flushed self.old.state p h).reply }
    {
        match self.guard(p, h, Kind::Input, 2) {
            Err(code) => Reply::Fail(code),
            Ok(_) => {
                self.records.flush();
                Reply::Done
            }
        }
    }
}
