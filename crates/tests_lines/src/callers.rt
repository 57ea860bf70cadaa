//! Callers with variables: what a crate above does with the promises, with no proof of its own.
ghost use Rattle.std.specs.Prelude.{◌≡◌, ◌≤◌, ◌<◌, ℕ, List, ◌∷◌, true, length, slice_get, Some, IfOk, IfSome, OnOk};
ghost use Rattle.con_alias.specs.Aliases.{AliasList, added, add_answer};
ghost use Rattle.con_alias.specs.Words.Aliases.{has_control};
ghost use Rattle.con_cooked.specs.Cooked.{line_of, answer_of};
ghost use Rattle.con_cooked.specs.Words.Cooked.{echo_between};
ghost use Rattle.con_cooked.specs.Parts.{lines_for};
ghost use Rattle.con_readers.specs.Act.{ended, woke};
ghost use Rattle.con_readers.specs.Distinct.{AreDistinct};
ghost use Rattle.con_readers.specs.Pieces.{front};
ghost use Rattle.con_readers.specs.Reads.{place_of, answer_in};
ghost use Rattle.con_readers.specs.Words.Reads.{pumped, answered_in};
ghost use Rattle.con_readers.specs.Serving.{served, is_done};
ghost use Rattle.con_readers.specs.Wants.{units_of};
ghost use Rattle.con_cooked.specs.declared.cooked.Cooked.{Cooked as CookedValue};
ghost use Rattle.con_records.specs.declared.record.Record.{Record as RecordValue};

use con_alias::{Aliases, has_control};
use con_cooked::laws::no_mask_is_a_plain_read;
use con_cooked::{Cooked, Echo};
use con_history::Histories;
use con_readers::laws::{
    a_read_answers_its_piece, distinct_reads_stay_distinct, units_answer_their_piece,
};
use con_readers::{Answer, OpenRead, ReadStep, Readers, WantsRecords};
use con_records::Records;
use con_units::{Code, OutOfMemory, Units};
use std::alloc::Global;

/// Adds an alias in the room that is made for it.
pub fn add(
    aliases: &mut Aliases,
    program: &Units,
    source: &Units,
    target: &Units,
) -> Result<Result<(), Code>, OutOfMemory>
    ensures aliases { OnOk result (aliases.new.programs ≡ added aliases.old.programs program.now source.now target.now) }
    ensures answer { IfOk result (λ answer. answer ≡ add_answer aliases.old.programs program.now source.now target.now) }
{
    let room = aliases.add_room(program, source, target)?;
    Ok(aliases.add(program, source, target, room))
}

/// Serves one step, and closes.
pub fn serve_and_close(
    readers: &mut Readers,
    records: &mut Records,
    histories: &mut Histories,
    aliases: &Aliases,
) -> ReadStep
    requires { AreDistinct readers.old.reads }
    ensures { AreDistinct readers.new.reads }
{
    distinct_reads_stay_distinct();
    let step = readers.pump(records, histories, aliases);
    readers.close_all();
    step
}

/// A read with no mask answers the lines that its text stands for.
pub fn is_answered_by_lines(read: &Cooked)
    requires { read.now.mask ≡ 0 }
    ensures { (ls : List AliasList) → answer_of read.now ls ≡ lines_for ls read.now.program (line_of read.now).line.units }
{
    no_mask_is_a_plain_read();
    let _read = read;
}

/// Begins a line read with a text, where it is one that a read may begin with.
pub fn begin_with(
    alloc: Global,
    program: Units,
    initial: &[u16],
    mask: u32,
) -> Result<Option<Cooked>, OutOfMemory>
    ensures { IfOk result (λ begun. IfSome begun (λ line. line.initial ≡ initial.now)) }
{
    if initial.len() > 1024 || has_control(initial) {
        return Ok(None);
    }
    Ok(Some(Cooked::begin(alloc, program, 0x0007, initial, mask)?))
}

/// A read of some records, where some are wanted.
pub fn want(alloc: Global, n: u32) -> Result<Option<WantsRecords>, OutOfMemory>
    ensures { IfOk result (λ wants. IfSome wants (λ w. (w ≡ n) × (0 < w))) }
{
    if n == 0 {
        return Ok(None);
    }
    Ok(Some(WantsRecords::new(alloc, n)?))
}

/// How many units a step shows: those of the first read's text from the first change on.
pub fn shown(
    readers: &mut Readers,
    records: &mut Records,
    histories: &mut Histories,
    aliases: &Aliases,
) -> usize
    ensures { result ≤ 1024 }
{
    match readers.pump(records, histories, aliases) {
        ReadStep::Echo(_, echo) => readers.head_text()[echo.offset as usize..echo.end as usize].len(),
        _ => 0,
    }
}

/// What a step shows is what differs between two lines.
pub fn echoed(
    readers: &mut Readers,
    records: &mut Records,
    histories: &mut Histories,
    aliases: &Aliases,
) -> Option<Echo>
    ensures { IfSome result (λ e. (old : CookedValue) × (new : CookedValue) × (e ≡ echo_between (line_of old).line (line_of new).line)) }
{
    match readers.pump(records, histories, aliases) {
        ReadStep::Echo(_, echo) => Some(echo),
        _ => None,
    }
}

/// Whose read is done after a step, and which one it was.
pub fn finished(
    readers: &mut Readers,
    records: &mut Records,
    histories: &mut Histories,
    aliases: &Aliases,
) -> Option<u8>
    ensures { IfSome result (λ p. (read : OpenRead) × (len : ℕ)
        × ((pumped aliases.now.programs readers.old.reads records.old.items histories.old).act ≡ Some (ended p read len))) }
{
    match readers.pump(records, histories, aliases) {
        ReadStep::Finished(process, _) => Some(process),
        _ => None,
    }
}

/// Whose line a control ended in a step, and the line.
pub fn woken(
    readers: &mut Readers,
    records: &mut Records,
    histories: &mut Histories,
    aliases: &Aliases,
) -> Option<u8>
    ensures { IfSome result (λ p. (line : CookedValue)
        × ((pumped aliases.now.programs readers.old.reads records.old.items histories.old).act ≡ Some (woke p line))) }
{
    match readers.pump(records, histories, aliases) {
        ReadStep::Woken(process) => Some(process),
        _ => None,
    }
}

/// How many units a done read answers, if it answers units.
pub fn answered_units(readers: &Readers, process: u8) -> Option<usize>
    ensures { IfSome result (λ n. (units : List ℕ)
        × (answered_in (slice_get readers.now.reads (place_of readers.now.reads process)) ≡ Some (Answer.Units units)) × (n ≡ length units)) }
{
    match readers.answer(process) {
        Some(Answer::Units(units)) => Some(units.len()),
        _ => None,
    }
}

/// The units of a read that is done, if it answers units.
pub fn collected(readers: &mut Readers, process: u8) -> Option<Units>
    ensures { IfSome result (λ units. answer_in (slice_get readers.old.reads (place_of readers.old.reads process)) ≡ Answer.Units units) }
{
    if !readers.done(process) {
        return None;
    }
    match readers.collect(process) {
        Answer::Units(units) => Some(units),
        _ => None,
    }
}

/// What is there answers a read of records, and of units.
pub fn answered_from(records: &Records, histories: &Histories, aliases: &Aliases)
    ensures records { (p n : ℕ) (r : RecordValue) (rs : List RecordValue) → records.now.items ≡ r ∷ rs →
        (served p aliases.now.programs (OpenRead.Records n) (r ∷ rs) histories.now).read
        ≡ OpenRead.Done (Answer.Records (front (r ∷ rs) (served p aliases.now.programs (OpenRead.Records n) (r ∷ rs) histories.now).records)) }
    ensures units { (p n : ℕ) → is_done (served p aliases.now.programs (OpenRead.Units n) records.now.items histories.now).read ≡ true →
        (served p aliases.now.programs (OpenRead.Units n) records.now.items histories.now).read
        ≡ OpenRead.Done (Answer.Units (units_of n (front records.now.items
        (served p aliases.now.programs (OpenRead.Units n) records.now.items histories.now).records))) }
{
    a_read_answers_its_piece();
    units_answer_their_piece();
    let _records = records;
    let _histories = histories;
    let _aliases = aliases;
}
