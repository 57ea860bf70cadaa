//! Line histories by program.
ghost use Rattle.std.specs.Prelude.{◌≡◌, ℕ, ◌≤◌, ◌<◌, ◌-◌, ◌+◌, ◌==◌, ◌↔◌, List, [], ◌∷◌, ◌++◌, All, MatchOption, not, position, length, take, drop, map, replicate, slice_index_or, IfOk, IfErr, IsErr, IsTrue, OnErr, Ok, Err, if◌then◌else◌, vec_len, vec_capacity};
ghost use Rattle.std.specs.Bool.{OnFalse};
ghost use Rattle.con_units.specs.Words.Units.{same_units};
ghost use Rattle.con_history.specs.Histories.{LineHistories, ProgramLines, newest, found, lines_of, changed_in, added, added_to, cleared, used_by, is_refused, configured};
ghost use Rattle.con_history.specs.Words.Histories.{IsShort, place_of, lines_in, idle_place, can_use, room_for_use, room_for_configure};
ghost use Rattle.con_history.specs.Parts.{shortened, is_busy};

use crate::history::History;
use crate::info::HistoryInfo;
use crate::room::{ConfigRoom, EmptyLines, HistoryRoom};
use con_units::{Code, OutOfMemory, Units};
use std::alloc::Global;
use std::marker::Model;

/// How many histories there may be at most.
const MOST_HISTORIES: usize = 64;
/// How many lines a history may keep at most.
const MOST_LINES: u32 = 999;

/// The histories of all programs.
pub struct Histories {
    used: Vec<History>,
    info: HistoryInfo,
}

impl Model for Histories {
    ghost use Rattle.con_history.specs.Histories.{LineHistories};
    ghost use Rattle.con_history.specs.Sound.{IsSound};

    ghost Value = { LineHistories };

    ghost view = { λ a. record { used = a.used.items; info = a.info } };

    ghost invariant = { λ a. IsSound a.used a.info };
}

// By hand, so that what drops one has this call in its proof, and not all that lies in one.
impl Drop for Histories {
    fn drop(self) {
        let Histories { used: _, info: _ } = self;
    }
}

// The place of a program's history.
fn position(used: &[History], program: &Units) -> Option<usize>
    ensures { result ≡ position (λ h. same_units h.program program.now) used.now }
{
    used.iter().position(|history| history.is_of(program))
}

// The place of the least recently used history whose program isn't busy.
fn idle_position(used: &[History], busy: &[Units]) -> Option<usize>
    ensures { result ≡ position (λ h. not (is_busy busy.now h.program)) used.now }
{
    used.iter().position(|history| !history.is_one_of(busy))
}

// Where a program's history stands, or how many there are.
fn place(used: &[History], program: &Units) -> usize
    ensures place { result ≡ place_of program.now used.now }
    ensures within { result ≤ length used.now }
{
    match position(used, program) {
        Some(k) => k,
        None => used.len(),
    }
}

// Where the first history stands whose program isn't busy, or how many there are.
fn first_idle(used: &[History], busy: &[Units]) -> usize
    ensures place { result ≡ idle_place busy.now used.now }
    ensures within { result ≤ length used.now }
{
    match idle_position(used, busy) {
        Some(k) => k,
        None => used.len(),
    }
}

// A program's history.
fn history_of<'a>(used: &'a [History], program: &Units) -> Option<&'a History>
    ensures { MatchOption result (lines_in used.now program.now ≡ []) (λ h. h.now.lines ≡ lines_in used.now program.now) }
{
    let known = place(used, program);
    if known < used.len() {
        Some(&used[known])
    } else {
        None
    }
}

// A line more in a program's history.
fn add_in(used: &mut [History], program: &Units, line: Units, no_duplicates: bool)
    requires { length line ≤ 1024 }
    ensures { used.new ≡ changed_in (λ h. record h { lines = added no_duplicates h.limit h.lines line }) used.old program.now }
{
    let known = place(used, program);
    if known < used.len() {
        let history = &mut used[known];
        history.add(line, no_duplicates);
    }
}

// No line in a program's history.
fn clear_in(used: &mut [History], program: &Units)
    ensures { used.new ≡ changed_in (λ h. record h { lines = [] }) used.old program.now }
{
    let known = place(used, program);
    if known < used.len() {
        let history = &mut used[known];
        history.clear();
    }
}

// One of some buffers of the same capacity.
fn take_last(buffers: &mut Vec<EmptyLines>, lines: usize) -> EmptyLines
    requires some { 0 < vec_len buffers.old }
    requires same { buffers.old.items ≡ replicate (vec_len buffers.old) lines }
    ensures one { result ≡ lines }
    ensures rest { buffers.new.items ≡ replicate (vec_len buffers.old - 1) lines }
{
    match buffers.pop() {
        Some(empty) => empty,
        None => unreachable!(),
    }
}

// Moves the lines of each history into a buffer of the new capacity.
fn move_all(used: &mut [History], buffers: &mut Vec<EmptyLines>, lines: usize)
    requires { buffers.old.items ≡ replicate (length used.old) lines }
    ensures { used.new ≡ map (shortened lines) used.old }
{
    for history in used.iter_mut() {
        history.move_into(take_last(buffers, lines).into_lines());
    }
}

impl Histories {
    /// No history; 50 lines in each, 4 of them, and a new line doesn't drop its equals.
    pub fn new(alloc: Global) -> Result<Histories, OutOfMemory>
        ensures { IfOk result (λ h. h ≡ record { used = []; info = record { lines = 50; number = 4; flag = 0 } }) }
    {
        let Ok(used) = Vec::with_capacity(alloc, MOST_HISTORIES) else {
            return Err(OutOfMemory);
        };
        Ok(Histories {
            used,
            info: HistoryInfo {
                lines: 50,
                number: 4,
                flag: 0,
            },
        })
    }

    /// The settings.
    pub fn info(&self) -> HistoryInfo
        ensures { result ≡ self.now.info }
    {
        self.info
    }

    /// Makes room for [`use_of`](Histories::use_of) of this program, and changes nothing else.
    pub fn use_room(&mut self, program: &Units) -> Result<HistoryRoom, OutOfMemory>
        ensures room { IfOk result (λ room. room ≡ room_for_use self.old program.now) }
        ensures same { self.new ≡ self.old }
    {
        if place(&self.used, program) < self.used.len() {
            return Ok(HistoryRoom { fresh: None });
        }
        let alloc = *self.used.allocator();
        let fresh = History::new(alloc, program, self.info.lines as usize)?;
        Ok(HistoryRoom { fresh: Some(fresh) })
    }

    /// Makes a program's history the most recently used one, and makes it where there is none. Where their number is
    /// reached then, the least recently used one goes, of those whose program isn't busy. False, and nothing changes,
    /// where there is none to go.
    pub fn use_of(&mut self, program: &Units, busy: &[Units], room: HistoryRoom) -> bool
        requires { room ≡ room_for_use self.old program.now }
        ensures histories { self.new ≡ used_by self.old program.now busy.now }
        ensures answer { result ≡ can_use self.old program.now busy.now }
    {
        let known = place(&self.used, program);
        if known < self.used.len() {
            let history = self.used.remove(known);
            self.used.push_reserved(history);
            return true;
        }
        let Some(fresh) = room.into_fresh() else {
            unreachable!()
        };
        if self.used.len() >= self.info.number as usize {
            let idle = first_idle(&self.used, busy);
            if idle == self.used.len() {
                return false;
            }
            self.used.remove(idle);
        }
        self.used.push_reserved(fresh);
        true
    }

    /// How many lines a program's history has; none where there is no history.
    pub fn count(&self, program: &Units) -> usize
        ensures { result ≡ length (lines_of self.now program.now) }
    {
        match history_of(&self.used, program) {
            Some(history) => history.count(),
            None => 0,
        }
    }

    /// A line of a program's history, from 0, oldest first.
    pub fn at(&self, program: &Units, k: usize) -> &Units
        requires { k < length (lines_of self.now program.now) }
        ensures line { (d : List ℕ) → result.now ≡ slice_index_or (lines_of self.now program.now) k d }
        ensures short { length result.now ≤ 1024 }
    {
        match history_of(&self.used, program) {
            Some(history) => history.at(k),
            None => unreachable!(),
        }
    }

    /// Puts a line last in a program's history, where there is one and the line isn't empty. With flag 1 the lines
    /// that equal it go first. A full history loses its oldest line.
    pub fn add(&mut self, program: &Units, line: Units)
        requires { length line ≤ 1024 }
        ensures { self.new ≡ added_to self.old program.now line }
    {
        let no_duplicates = self.info.flag == 1;
        add_in(self.used.as_mut_slice(), program, line, no_duplicates);
    }

    /// The first line of a program's history that begins with these units, going from before `from` down to the
    /// oldest, and then from the newest down to `from`.
    pub fn search(&self, program: &Units, start: &[u16], from: usize) -> Option<usize>
        requires { from ≤ length (lines_of self.now program.now) }
        ensures { result ≡ found start.now (lines_of self.now program.now) from }
    {
        match history_of(&self.used, program) {
            Some(history) => history.search(start, from),
            None => None,
        }
    }

    /// Makes room for [`configure`](Histories::configure) with these settings, and changes nothing else.
    pub fn configure_room(&mut self, info: &HistoryInfo) -> Result<ConfigRoom, OutOfMemory>
        ensures room { IfOk result (λ room. room ≡ room_for_configure self.old info.now) }
        ensures same { self.new ≡ self.old }
    {
        let alloc = *self.used.allocator();
        let n = if refused(info) {
            0
        } else {
            self.used.len().min(info.number as usize)
        };
        Ok(ConfigRoom {
            buffers: empty_lines(alloc, n, info.lines as usize)?,
        })
    }

    /// Changes the settings. Refused as a bad argument: no line or more than 999, no history or more than 64, another
    /// flag than 0 and 1. Where too many histories exist, the least recently used ones go; the others keep their newest
    /// lines.
    pub fn configure(&mut self, info: HistoryInfo, mut room: ConfigRoom) -> Result<(), Code>
        requires { room ≡ room_for_configure self.old info }
        ensures histories { self.new ≡ configured self.old info }
        ensures refused { IsErr result ↔ IsTrue (is_refused info) }
        ensures code { IfErr result (λ code. code ≡ Code.BadArgument) }
    {
        if refused(&info) {
            return Err(Code::BadArgument);
        }
        drop_oldest(&mut self.used, info.number as usize);
        move_all(
            self.used.as_mut_slice(),
            &mut room.buffers,
            info.lines as usize,
        );
        self.info = info;
        Ok(())
    }

    /// Removes all lines of a program's history.
    pub fn clear(&mut self, program: &Units)
        ensures { self.new ≡ cleared self.old program.now }
    {
        clear_in(self.used.as_mut_slice(), program);
    }
}

// Whether settings are refused.
fn refused(info: &HistoryInfo) -> bool
    ensures refused { result ≡ is_refused info.now }
    ensures allowed { OnFalse result ((info.now.lines ≤ 999) × (info.now.number ≤ 64)) }
{
    info.lines == 0
        || MOST_LINES < info.lines
        || info.number == 0
        || (MOST_HISTORIES as u32) < info.number
        || 1 < info.flag
}

// So many empty buffers.
fn empty_lines(alloc: Global, n: usize, lines: usize) -> Result<Vec<EmptyLines>, OutOfMemory>
    ensures { IfOk result (λ buffers. buffers.items ≡ replicate n lines) }
{
    let Ok(mut buffers) = Vec::with_capacity(alloc, n) else {
        return Err(OutOfMemory);
    };
    for _ in 0..n {
        buffers.push_reserved(EmptyLines::new(alloc, lines)?);
    }
    Ok(buffers)
}

// Removes the least recently used ones beyond a number.
fn drop_oldest(used: &mut Vec<History>, number: usize)
    ensures items { used.new.items ≡ newest number used.old.items }
    ensures len { vec_len used.new ≤ number }
    ensures room { vec_capacity used.new ≡ vec_capacity used.old }
{
    for _ in 0..used.len().saturating_sub(number) {
        used.remove(0);
    }
}
