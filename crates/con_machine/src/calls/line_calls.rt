//! Calls on histories and aliases.
ghost use Rattle.std.specs.Prelude.{◌≡◌, IfOk, IsTrue, true, map};
ghost use Rattle.con_procs.specs.Procs.{is_attached};
ghost use Rattle.con_history.specs.Histories.{lines_of};
ghost use Rattle.con_history.specs.Words.Histories.{room_for_configure};
ghost use Rattle.con_alias.specs.Aliases.{entries_in};
ghost use Rattle.con_alias.specs.Room.{room_for, has_room};
ghost use Rattle.con_machine.specs.LineCalls.{told_history_info, set_history, listed_history, cleared_history, added_alias, removed_alias, told_alias};
ghost use Rattle.con_machine.specs.LineCalls.{listed_aliases, info_numbers, pair_of};

use crate::calls::copies::{numbers, text};
use crate::parts::Parts;
use crate::rooms::unused::refused;
use con_alias::{AliasRoom, Aliases};
use con_events::{Lines, Numbers, Reply};
use con_history::{ConfigRoom, Histories, HistoryInfo};
use con_units::{Code, OutOfMemory, Units};
use std::alloc::Global;

fn info_numbers(alloc: Global, info: HistoryInfo) -> Result<Numbers, OutOfMemory>
    ensures { IfOk result (λ n. n ≡ info_numbers info) }
{
    numbers(
        alloc,
        &[
            i64::from(info.lines),
            i64::from(info.number),
            i64::from(info.flag),
        ],
    )
}

// A program's lines, oldest first.
fn lines(alloc: Global, histories: &Histories, program: &Units) -> Result<Lines, OutOfMemory>
    ensures { IfOk result (λ l. l ≡ lines_of histories.now program.now) }
{
    let count = histories.count(program);
    let Ok(mut room) = Vec::with_capacity(alloc, count) else {
        return Err(OutOfMemory);
    };
    for k in 0..count {
        room.push_reserved(histories.at(program, k).copied()?);
    }
    Ok(Lines(room))
}

// A source, `=`, and its target.
fn pair(alloc: Global, source: &[u16], target: &[u16]) -> Result<Units, OutOfMemory>
    ensures { IfOk result (λ u. u ≡ pair_of (record { source = source.now; target = target.now })) }
{
    let Ok(mut room) = Vec::with_capacity(alloc, source.len() + 1 + target.len()) else {
        return Err(OutOfMemory);
    };
    for unit in source {
        room.push_reserved(*unit);
    }
    room.push_reserved(0x3D);
    for unit in target {
        room.push_reserved(*unit);
    }
    Ok(Units(room))
}

// A program's aliases, in order of insertion.
fn pairs(alloc: Global, aliases: &Aliases, program: &Units) -> Result<Lines, OutOfMemory>
    ensures { IfOk result (λ l. l ≡ map pair_of (entries_in aliases.now.programs program.now)) }
{
    let count = aliases.count(program);
    let Ok(mut room) = Vec::with_capacity(alloc, count) else {
        return Err(OutOfMemory);
    };
    for k in 0..count {
        let one = aliases.at(program, k);
        room.push_reserved(pair(alloc, one.source.as_slice(), one.target.as_slice())?);
    }
    Ok(Lines(room))
}

impl Parts {
    /// `GetConsoleHistoryInfo`.
    pub(crate) fn told_history_info(&self) -> Result<Reply, OutOfMemory>
        ensures reply { IfOk result (λ r. r ≡ (told_history_info self.now.state).reply) }
    {
        if self.closed {
            return Ok(Reply::Fail(Code::Closed));
        }
        let info = self.histories.info();
        Ok(Reply::Numbers(info_numbers(self.title.allocator(), info)?))
    }

    /// `SetConsoleHistoryInfo`. 87: lines of 0 or above 999, a number of 0 or above 64, a flag above 1.
    pub(crate) fn set_history(&mut self, info: HistoryInfo, room: ConfigRoom) -> Reply
        requires room { room ≡ room_for_configure self.old.state.histories info }
        ensures state { self.new.state ≡ (set_history self.old.state info.lines info.number info.flag).after }
        ensures reply { result ≡ (set_history self.old.state info.lines info.number info.flag).reply }
    {
        if self.closed {
            return Reply::Fail(Code::Closed);
        }
        match self.histories.configure(info, room) {
            Err(code) => Reply::Fail(code),
            Ok(()) => Reply::Done,
        }
    }

    /// `GetConsoleCommandHistory` of the own program.
    pub(crate) fn told_history(&self, p: u8) -> Result<Reply, OutOfMemory>
        requires { is_attached self.now.state.procs p ≡ true }
        ensures reply { IfOk result (λ r. r ≡ (listed_history self.now.state p).reply) }
    {
        if self.closed {
            return Ok(Reply::Fail(Code::Closed));
        }
        let program = self.procs.program(p);
        Ok(Reply::Lines(lines(self.title.allocator(), &self.histories, program)?))
    }

    /// `ExpungeConsoleCommandHistory` of the own program.
    pub(crate) fn clear_history(&mut self, p: u8) -> Reply
        requires { is_attached self.old.state.procs p ≡ true }
        ensures state { self.new.state ≡ (cleared_history self.old.state p).after }
        ensures reply { result ≡ (cleared_history self.old.state p).reply }
    {
        if self.closed {
            return Reply::Fail(Code::Closed);
        }
        self.histories.clear(self.procs.program(p));
        Reply::Done
    }

    /// `AddConsoleAlias`. 87: a program or source not of 1 to 255 units, a target not of 1 to 1,024, a space in the source,
    /// a control in source or target; 1816: the program has 256, and this one is new.
    pub(crate) fn add_alias(
        &mut self,
        program: &Units,
        source: &Units,
        target: &Units,
        room: AliasRoom,
    ) -> Reply
        requires room { room ≡ room_for self.old.state.aliases program.now source.now target.now }
        requires ready { IsTrue (has_room self.old.spare.aliases program.now) }
        ensures state { self.new.state ≡ (added_alias self.old.state program.now source.now target.now).after }
        ensures reply { result ≡ (added_alias self.old.state program.now source.now target.now).reply }
    {
        if self.closed {
            return refused(Code::Closed, room);
        }
        match self.aliases.add(program, source, target, room) {
            Err(code) => Reply::Fail(code),
            Ok(()) => Reply::Done,
        }
    }

    /// `AddConsoleAlias` without a target. 31: there is no such alias.
    pub(crate) fn remove_alias(&mut self, program: &Units, source: &Units) -> Reply
        ensures state { self.new.state ≡ (removed_alias self.old.state program.now source.now).after }
        ensures reply { result ≡ (removed_alias self.old.state program.now source.now).reply }
    {
        if self.closed {
            return Reply::Fail(Code::Closed);
        }
        match self.aliases.remove(program, source) {
            Err(code) => Reply::Fail(code),
            Ok(()) => Reply::Done,
        }
    }

    /// `GetConsoleAlias`. 31: there is no such alias.
    pub(crate) fn told_alias(&self, program: &Units, source: &Units) -> Result<Reply, OutOfMemory>
        ensures reply { IfOk result (λ r. r ≡ (told_alias self.now.state program.now source.now).reply) }
    {
        if self.closed {
            return Ok(Reply::Fail(Code::Closed));
        }
        match self.aliases.get(program, source) {
            Err(code) => Ok(Reply::Fail(code)),
            Ok(target) => Ok(Reply::Units(text(self.title.allocator(), target.as_slice())?)),
        }
    }

    /// `GetConsoleAliases`.
    pub(crate) fn told_aliases(&self, program: &Units) -> Result<Reply, OutOfMemory>
        ensures reply { IfOk result (λ r. r ≡ (listed_aliases self.now.state program.now).reply) }
    {
        if self.closed {
            return Ok(Reply::Fail(Code::Closed));
        }
        Ok(Reply::Lines(pairs(self.title.allocator(), &self.aliases, program)?))
    }
}
