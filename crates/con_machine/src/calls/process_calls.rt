//! Calls on processes, control events and handlers.
ghost use Rattle.std.specs.Prelude.{◌≡◌, ◌≤◌, true, pos, map, length, IfOk};
ghost use Rattle.con_procs.specs.Procs.{is_attached, ids_of};
ghost use Rattle.con_machine.specs.ProcessCalls.{is_no_signal};
ghost use Rattle.con_machine.specs.Words.ProcessCalls.{listed_processes, sent_signal, set_ignore, added_handler, removed_handler};
ghost use Rattle.con_machine.specs.Signals.{signalled_to};

use crate::parts::Parts;
use con_events::{Numbers, Reply};
use con_procs::Procs;
use con_units::{Code, OutOfMemory};
use std::alloc::Global;

// The attached processes' numbers.
fn ids(alloc: Global, procs: &Procs) -> Result<Vec<u8>, OutOfMemory>
    ensures { IfOk result (λ ids. ids.items ≡ ids_of procs.now) }
{
    let Ok(mut room) = Vec::with_capacity(alloc, procs.count() as usize) else {
        return Err(OutOfMemory);
    };
    procs.ids(&mut room);
    Ok(room)
}

fn numbers_of(alloc: Global, ids: &[u8]) -> Result<Numbers, OutOfMemory>
    ensures { IfOk result (λ n. n ≡ map (λ id. pos id) ids.now) }
{
    let Ok(mut room) = Vec::with_capacity(alloc, ids.len()) else {
        return Err(OutOfMemory);
    };
    for id in ids {
        room.push_reserved(i64::from(*id));
    }
    Ok(Numbers(room))
}

fn is_no_signal(procs: &Procs, event: u32, group: u32) -> bool
    ensures { result ≡ is_no_signal procs.now event group }
{
    1 < event || (event == 1 && group != 0 && !procs.group_known(group))
}

impl Parts {
    /// `GetConsoleProcessList`.
    pub(crate) fn told_processes(&self) -> Result<Reply, OutOfMemory>
        ensures reply { IfOk result (λ r. r ≡ (listed_processes self.now.state).reply) }
    {
        if self.closed {
            return Ok(Reply::Fail(Code::Closed));
        }
        let alloc = self.title.allocator();
        let ids = ids(alloc, &self.procs)?;
        Ok(Reply::Numbers(numbers_of(alloc, ids.as_slice())?))
    }

    /// The event becomes pending for whom it reaches. Ctrl+C (0) to all (group 0) ends the first line read that is not
    /// done.
    pub(crate) fn signal(&mut self, event: u32, group: u32)
        requires { event ≤ 2 }
        ensures state { self.new.state ≡ signalled_to self.old.state event group }
        ensures spare { self.new.spare ≡ self.old.spare }
    {
        self.procs.signal(event, group);
        if event == 0 && group == 0 {
            self.readers.abort_line();
        }
    }

    /// `GenerateConsoleCtrlEvent`. 87: an event above 1; ctrl+break to a group other than 0 that no attached process has.
    pub(crate) fn send_signal(&mut self, event: u32, group: u32) -> Reply
        ensures state { self.new.state ≡ (sent_signal self.old.state event group).after }
        ensures reply { result ≡ (sent_signal self.old.state event group).reply }
    {
        if self.closed {
            return Reply::Fail(Code::Closed);
        }
        if is_no_signal(&self.procs, event, group) {
            return Reply::Fail(Code::BadArgument);
        }
        self.signal(event, group);
        Reply::Done
    }

    /// `SetConsoleCtrlHandler` without a handler.
    pub(crate) fn set_ignore(&mut self, p: u8, on: bool) -> Reply
        requires { is_attached self.old.state.procs p ≡ true }
        ensures state { self.new.state ≡ (set_ignore self.old.state p on).after }
        ensures reply { result ≡ (set_ignore self.old.state p on).reply }
    {
        if self.closed {
            return Reply::Fail(Code::Closed);
        }
        self.procs.set_ignore(p, on);
        Reply::Done
    }

    /// `SetConsoleCtrlHandler` that adds. 87: a place that the rack does not have, or that was added before.
    pub(crate) fn add_handler(&mut self, p: u8, place: u32) -> Reply
        requires { is_attached self.old.state.procs p ≡ true }
        ensures state { self.new.state ≡ (added_handler self.old.state p place).after }
        ensures reply { result ≡ (added_handler self.old.state p place).reply }
    {
        if self.closed {
            return Reply::Fail(Code::Closed);
        }
        if 255 < place {
            return Reply::Fail(Code::BadArgument);
        }
        match self.procs.add_handler(p, place as u8) {
            Err(code) => Reply::Fail(code),
            Ok(()) => Reply::Done,
        }
    }

    /// `SetConsoleCtrlHandler` that removes. 87: a place that is not in the chain.
    pub(crate) fn remove_handler(&mut self, p: u8, place: u32) -> Reply
        requires { is_attached self.old.state.procs p ≡ true }
        ensures state { self.new.state ≡ (removed_handler self.old.state p place).after }
        ensures reply { result ≡ (removed_handler self.old.state p place).reply }
    {
        if self.closed {
            return Reply::Fail(Code::Closed);
        }
        if 255 < place {
            return Reply::Fail(Code::BadArgument);
        }
        match self.procs.remove_handler(p, place as u8) {
            Err(code) => Reply::Fail(code),
            Ok(()) => Reply::Done,
        }
    }
}
