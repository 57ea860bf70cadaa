// An open read.
ghost use Rattle.std.specs.Prelude.{◌≡◌, ℕ, List, [], ◌∷◌, length, ◌≤◌, option_copied};
ghost use Rattle.con_readers.specs.Wants.{units_of};
ghost use Rattle.con_readers.specs.Lines.{line_text};
ghost use Rattle.con_readers.specs.Words.Lines.{line_after, line_progress};
ghost use Rattle.con_readers.specs.Words.Act.{told};
ghost use Rattle.con_readers.specs.Serving.{is_done, is_line};
ghost use Rattle.con_readers.specs.Words.Serving.{took, took_units, took_one, took_line};
ghost use Rattle.con_readers.specs.Reads.{failed, answer_of};
ghost use Rattle.con_readers.specs.Words.Reads.{moved, moved_on, closed_one, answered, text_in};

use crate::answer::Answer;
use crate::step::ReadStep;
use crate::wants_records::WantsRecords;
use crate::wants_units::WantsUnits;
use con_alias::Aliases;
use con_cooked::{Cooked, Progress};
use con_history::Histories;
use con_records::{Record, Records};
use con_units::Code;
use std::mem;

/// What a read wants, or its answer.
#[derive(Drop)]
pub enum OpenRead {
    /// A line, in line mode (`ENABLE_LINE_INPUT`).
    Line(Cooked),
    /// Units without line mode.
    Units(WantsUnits),
    /// Records.
    Records(WantsRecords),
    /// It is done, with this answer.
    Done(Answer),
}

/// A process's read.
pub struct Open {
    /// Whose read it is, from 1 on.
    pub process: u8,
    /// Whether it was the first that is not done.
    pub started: bool,
    /// What it wants, or its answer.
    pub read: OpenRead,
}

// By hand, so that what drops one has this call in its proof, and not all that lies in one.
impl Drop for Open {
    fn drop(self) {
        let Open {
            process: _,
            started: _,
            read: _,
        } = self;
    }
}

/// A read after a step, and what the step was.
#[derive(Drop)]
pub struct Taking {
    pub read: OpenRead,
    pub step: ReadStep,
}

fn take_units(
    process: u8,
    wants: WantsUnits,
    records: &mut Records,
    histories: &Histories,
) -> Taking
    ensures read { result.read ≡ (took_units process wants records.old.items histories.now (units_of wants records.old.items)).read }
    ensures step { result.step ≡ told (took_units process wants records.old.items histories.now (units_of wants records.old.items)).act }
    ensures records { records.new
        ≡ record records.old { items = (took_units process wants records.old.items histories.now (units_of wants records.old.items)).records } }
{
    // They stand in the clauses alone.
    let _ = histories;
    match wants.take(records) {
        Ok(units) => Taking {
            read: OpenRead::Done(Answer::Units(units)),
            step: ReadStep::Finished(process, 0),
        },
        Err(wants) => Taking {
            read: OpenRead::Units(wants),
            step: ReadStep::Dropped(process),
        },
    }
}

/// Nothing happened.
fn unchanged(read: OpenRead) -> Taking
    ensures read { result.read ≡ read }
    ensures step { result.step ≡ told None }
{
    Taking {
        read,
        step: ReadStep::Idle,
    }
}

fn length_of(line: &Cooked) -> u16
    ensures { result ≡ length (line_text line.now) }
{
    line.text().len() as u16
}

/// A line takes one record.
fn take_one(
    process: u8,
    mut line: Cooked,
    one: Record,
    histories: &mut Histories,
    aliases: &Aliases,
) -> Taking
    ensures read { result.read
        ≡ (took_one process aliases.now.programs line (line_after line one histories.old) [] histories.old (line_progress line one histories.old)).read }
    ensures step { result.step
        ≡ told (took_one process aliases.now.programs line (line_after line one histories.old) [] histories.old (line_progress line one histories.old)).act }
    ensures histories { histories.new
        ≡ (took_one process aliases.now.programs line (line_after line one histories.old) [] histories.old (line_progress line one histories.old)).histories }
{
    match line.press(&one, histories) {
        Progress::Going(echo) => Taking {
            read: OpenRead::Line(line),
            step: ReadStep::Echo(process, echo),
        },
        Progress::Done(_) => {
            let len = length_of(&line);
            Taking {
                read: OpenRead::Done(Answer::Units(line.finish(histories, aliases))),
                step: ReadStep::Finished(process, len),
            }
        }
        Progress::Woken => Taking {
            read: OpenRead::Done(Answer::Units(line.finish(histories, aliases))),
            step: ReadStep::Woken(process),
        },
    }
}

fn take_line(
    process: u8,
    line: Cooked,
    records: &mut Records,
    histories: &mut Histories,
    aliases: &Aliases,
) -> Taking
    ensures read { result.read ≡ (took_line process aliases.now.programs line records.old.items histories.old).read }
    ensures step { result.step ≡ told (took_line process aliases.now.programs line records.old.items histories.old).act }
    ensures records { records.new ≡ record records.old { items = (took_line process aliases.now.programs line records.old.items histories.old).records } }
    ensures histories { histories.new ≡ (took_line process aliases.now.programs line records.old.items histories.old).histories }
{
    match records.pop() {
        Some(one) => take_one(process, line, one, histories, aliases),
        None => unchanged(OpenRead::Line(line)),
    }
}

/// One step of a read.
fn take(
    process: u8,
    read: OpenRead,
    records: &mut Records,
    histories: &mut Histories,
    aliases: &Aliases,
) -> Taking
    ensures read { result.read ≡ (took process aliases.now.programs read records.old.items histories.old).read }
    ensures step { result.step ≡ told (took process aliases.now.programs read records.old.items histories.old).act }
    ensures records { records.new ≡ record records.old { items = (took process aliases.now.programs read records.old.items histories.old).records } }
    ensures histories { histories.new ≡ (took process aliases.now.programs read records.old.items histories.old).histories }
{
    match read {
        OpenRead::Records(wants) => Taking {
            read: OpenRead::Done(Answer::Records(wants.take(records))),
            step: ReadStep::Finished(process, 0),
        },
        OpenRead::Units(wants) => take_units(process, wants, records, histories),
        OpenRead::Line(line) => take_line(process, line, records, histories, aliases),
        OpenRead::Done(answer) => unchanged(OpenRead::Done(answer)),
    }
}

impl OpenRead {
    /// Whether it is done.
    pub fn done(&self) -> bool
        ensures { result ≡ is_done self.now }
    {
        matches!(self, OpenRead::Done(_))
    }

    /// Whether it is a line that is not done.
    pub fn line(&self) -> bool
        ensures { result ≡ is_line self.now }
    {
        matches!(self, OpenRead::Line(_))
    }

    /// Its answer, where it is done.
    pub fn answer(&self) -> Option<&Answer>
        ensures { option_copied result ≡ answered self.now }
    {
        match self {
            OpenRead::Done(answer) => Some(answer),
            OpenRead::Line(_) => None,
            OpenRead::Units(_) => None,
            OpenRead::Records(_) => None,
        }
    }

    /// The text so far of a line that is not done, and none for another read.
    pub fn text(&self) -> &[u16]
        ensures text { result.now ≡ text_in self.now }
        ensures few { length result.now ≤ 1024 }
    {
        match self {
            OpenRead::Line(line) => line.text(),
            OpenRead::Units(_) => &[],
            OpenRead::Records(_) => &[],
            OpenRead::Done(_) => &[],
        }
    }
}

impl Open {
    /// One step of the first read that is not done.
    pub fn advance(
        &mut self,
        records: &mut Records,
        histories: &mut Histories,
        aliases: &Aliases,
    ) -> ReadStep
        ensures one { self.new ≡ (moved aliases.now.programs self.old records.old.items histories.old).one }
        ensures records { records.new ≡ record records.old { items = (moved aliases.now.programs self.old records.old.items histories.old).records } }
        ensures histories { histories.new ≡ (moved aliases.now.programs self.old records.old.items histories.old).histories }
        ensures step { result ≡ told (moved aliases.now.programs self.old records.old.items histories.old).act }
    {
        if !self.started {
            self.started = true;
            return ReadStep::Started(self.process);
        }
        if records.count() == 0 {
            return ReadStep::Idle;
        }
        let nothing = OpenRead::Done(Answer::Fail(Code::Closed));
        let read = mem::replace(&mut self.read, nothing);
        let Taking { read, step } = take(self.process, read, records, histories, aliases);
        self.read = read;
        step
    }

    /// Ends the read with a refusal.
    pub fn end(&mut self, why: Code)
        ensures { self.new ≡ failed why self.old }
    {
        self.read = OpenRead::Done(Answer::Fail(why));
    }

    /// Ends the read, if it is not done, since the console closes.
    pub fn close(&mut self)
        ensures { self.new ≡ closed_one self.old }
    {
        if !self.read.done() {
            self.end(Code::Closed);
        }
    }

    /// The answer of a read that is done.
    pub fn into_answer(self) -> Answer
        ensures { result ≡ answer_of self.read }
    {
        let Open {
            process: _,
            started: _,
            read,
        } = self;
        match read {
            OpenRead::Done(answer) => answer,
            _ => Answer::Fail(Code::Closed),
        }
    }
}
