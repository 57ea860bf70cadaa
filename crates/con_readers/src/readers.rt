// The list of reads.
ghost use Rattle.std.specs.Prelude.{◌≡◌, slice_index_or, ℕ, ◌+◌, ◌-◌, ◌<◌, ◌≤◌, List, [], ◌∷◌, ◌++◌, length, OnOk, OnErr, true, false, not, max, is_some, slice_get, Some, option_copied};
ghost use Rattle.con_readers.specs.Lines.{line_text};
ghost use Rattle.con_readers.specs.Act.{Act, typed};
ghost use Rattle.con_readers.specs.Words.Act.{told, IsOf, IsIn};
ghost use Rattle.con_readers.specs.Steps.{is_idle};
ghost use Rattle.con_readers.specs.Serving.{is_done};
ghost use Rattle.con_readers.specs.Reads.{begun, settled, is_open, has_done, has_undone, place_of, is_open_line, without, answer_in, all_closed, line_aborted};
ghost use Rattle.con_readers.specs.Words.Reads.{Pumped, Queued, settled_after, work, pumped, done_upto, is_at_rest, head_text, is_of, answered_in};
ghost use Rattle.std.specs.List.{position_or_len, position};

use crate::answer::Answer;
use crate::open::{Open, OpenRead};
use crate::step::ReadStep;
use con_alias::Aliases;
use con_cooked::laws::a_common_front_is_not_drawn;
use con_history::Histories;
use con_records::Records;
use con_units::{Code, OutOfMemory};
use std::alloc::Global;
use std::marker::Model;

/// The open reads in the order in which they began. Contracts also see for how many more there is room.
pub struct Readers {
    reads: Vec<Open>,
    spare: usize,
}

impl Model for Readers {
    ghost use Rattle.std.specs.Prelude.{◌+◌, ◌≤◌, vec_len, vec_capacity};
    ghost use Rattle.con_readers.specs.Words.Reads.{Queued};

    ghost Value = { Queued };

    ghost view = { λ a. record { reads = a.reads.items; spare = a.spare } };

    ghost invariant = { λ a. vec_len a.reads + a.spare ≤ vec_capacity a.reads };
}

// By hand, so that what drops one has this call in its proof, and not all that lies in one.
impl Drop for Readers {
    fn drop(self) {
        let Readers { reads: _, spare: _ } = self;
    }
}

fn first_open(reads: &[Open]) -> usize
    ensures before { done_upto result reads.now ≡ true }
    ensures here { (o : Open) → result < length reads.now → o ≡ slice_index_or reads.now result o → is_done o.read ≡ false }
    ensures within { result ≤ length reads.now }
{
    for (i, one) in reads.iter().enumerate() {
        if !one.read.done() {
            return i;
        }
    }
    reads.len()
}

fn pump_reads(
    reads: &mut [Open],
    records: &mut Records,
    histories: &mut Histories,
    aliases: &Aliases,
) -> ReadStep
    ensures reads { reads.new ≡ (pumped aliases.now.programs reads.old records.old.items histories.old).reads }
    ensures records { records.new ≡ record records.old { items = (pumped aliases.now.programs reads.old records.old.items histories.old).records } }
    ensures histories { histories.new ≡ (pumped aliases.now.programs reads.old records.old.items histories.old).histories }
    ensures step { result ≡ told (pumped aliases.now.programs reads.old records.old.items histories.old).act }
{
    let i = first_open(reads);
    if i < reads.len() {
        let one = &mut reads[i];
        one.advance(records, histories, aliases)
    } else {
        ReadStep::Idle
    }
}

fn try_find_place(reads: &[Open], process: u8) -> Option<usize>
    ensures { result ≡ position (is_of process) reads.now }
{
    reads.iter().position(|o| o.process == process)
}

fn find_place(reads: &[Open], process: u8) -> usize
    ensures { result ≡ place_of reads.now process }
{
    match try_find_place(reads, process) {
        Some(i) => i,
        None => reads.len(),
    }
}

fn try_find_line(reads: &[Open]) -> Option<usize>
    ensures { result ≡ position is_open_line reads.now }
{
    reads.iter().position(|o| o.read.line())
}

fn find_line(reads: &[Open]) -> usize
    ensures { result ≡ position_or_len is_open_line reads.now }
{
    match try_find_line(reads) {
        Some(i) => i,
        None => reads.len(),
    }
}

fn abort_first_line(reads: &mut [Open])
    ensures { reads.new ≡ line_aborted reads.old }
{
    let i = find_line(reads);
    if i < reads.len() {
        let one = &mut reads[i];
        one.end(Code::Aborted);
    }
}

fn close_reads(reads: &mut [Open])
    ensures { reads.new ≡ all_closed reads.old }
{
    for i in 0..reads.len() {
        let one = &mut reads[i];
        one.close();
    }
}

fn first_text(reads: &[Open]) -> &[u16]
    ensures text { result.now ≡ head_text reads.now }
    ensures few { length result.now ≤ 1024 }
{
    let i = first_open(reads);
    if i < reads.len() {
        let one = &reads[i];
        one.read.text()
    } else {
        &[]
    }
}

impl Readers {
    /// No read, and room for none.
    pub fn new(alloc: Global) -> Readers
        ensures { result ≡ record { reads = []; spare = 0 } }
    {
        Readers {
            reads: Vec::new(alloc),
            spare: 0,
        }
    }

    /// Makes room for one read.
    pub fn reserve(&mut self) -> Result<(), OutOfMemory>
        ensures ok { OnOk result (self.new ≡ record self.old { spare = max self.old.spare 1 }) }
        ensures err { OnErr result (self.new ≡ self.old) }
    {
        if self.spare < 1 {
            if self.reads.reserve(1).is_err() {
                return Err(OutOfMemory);
            }
            self.spare = 1;
        }
        Ok(())
    }

    /// Puts a process's read last.
    pub fn begin(&mut self, process: u8, read: OpenRead)
        requires room { 0 < self.old.spare }
        requires none { is_open self.old.reads process ≡ false }
        ensures { self.new ≡ record { reads = self.old.reads ++ begun process read ∷ []; spare = self.old.spare - 1 } }
    {
        self.reads.push_reserved(Open {
            process,
            started: false,
            read,
        });
        self.spare -= 1;
    }

    // One step, and what it tells.
    fn step(
        &mut self,
        records: &mut Records,
        histories: &mut Histories,
        aliases: &Aliases,
    ) -> ReadStep
        ensures reads { self.new ≡ record self.old { reads = (pumped aliases.now.programs self.old.reads records.old.items histories.old).reads } }
        ensures records { records.new ≡ record records.old { items = (pumped aliases.now.programs self.old.reads records.old.items histories.old).records } }
        ensures histories { histories.new ≡ (pumped aliases.now.programs self.old.reads records.old.items histories.old).histories }
        ensures step { result ≡ told (pumped aliases.now.programs self.old.reads records.old.items histories.old).act }
        ensures idle { is_idle result ≡ not (is_some (pumped aliases.now.programs self.old.reads records.old.items histories.old).act) }
        ensures rest { is_idle result ≡ is_at_rest self.old.reads records.old.items }
        ensures tells { IsOf result (pumped aliases.now.programs self.old.reads records.old.items histories.old).act }
        ensures inside { IsIn result (head_text (pumped aliases.now.programs self.old.reads records.old.items histories.old).reads) }
    {
        a_common_front_is_not_drawn();
        pump_reads(self.reads.as_mut_slice(), records, histories, aliases)
    }

    /// One step of the first read that is not done. `Idle`: there is none, or it has started and no record is left.
    pub fn pump(
        &mut self,
        records: &mut Records,
        histories: &mut Histories,
        aliases: &Aliases,
    ) -> ReadStep
        ensures reads { self.new ≡ record self.old { reads = (pumped aliases.now.programs self.old.reads records.old.items histories.old).reads } }
        ensures records { records.new ≡ record records.old { items = (pumped aliases.now.programs self.old.reads records.old.items histories.old).records } }
        ensures histories { histories.new ≡ (pumped aliases.now.programs self.old.reads records.old.items histories.old).histories }
        ensures step { result ≡ told (pumped aliases.now.programs self.old.reads records.old.items histories.old).act }
        ensures idle { is_idle result ≡ not (is_some (pumped aliases.now.programs self.old.reads records.old.items histories.old).act) }
        ensures rest { is_idle result ≡ is_at_rest self.old.reads records.old.items }

        // all steps until Idle come to what `settled` says, and they end
        ensures settles { settled aliases.now.programs self.old.reads records.old.items histories.old
            ≡ settled_after aliases.now.programs (pumped aliases.now.programs self.old.reads records.old.items histories.old) }
        ensures less { is_some (pumped aliases.now.programs self.old.reads records.old.items histories.old).act ≡ true
            → work (pumped aliases.now.programs self.old.reads records.old.items histories.old).reads
            (pumped aliases.now.programs self.old.reads records.old.items histories.old).records < work self.old.reads records.old.items }

        // what a caller is told of the step, an echo being what differs between the line before and after, and that it lies in the first read's text
        ensures tells { IsOf result (pumped aliases.now.programs self.old.reads records.old.items histories.old).act }
        ensures inside { IsIn result (head_text (pumped aliases.now.programs self.old.reads records.old.items histories.old).reads) }

        // where a line took a record, that text is the line's
        ensures text { (p : ℕ) (old new : _) → (pumped aliases.now.programs self.old.reads records.old.items histories.old).act ≡ Some (typed p old new)
            → head_text (pumped aliases.now.programs self.old.reads records.old.items histories.old).reads ≡ line_text new }
    {
        self.step(records, histories, aliases)
    }

    /// The text so far of the first read that is not done, where it is of a line, and else none.
    pub fn head_text(&self) -> &[u16]
        ensures text { result.now ≡ head_text self.now.reads }
        ensures few { length result.now ≤ 1024 }
    {
        first_text(self.reads.as_slice())
    }

    /// Whether the process has a read here.
    pub fn open(&self, process: u8) -> bool
        ensures { result ≡ is_open self.now.reads process }
    {
        self.reads.iter().any(|o| o.process == process)
    }

    /// Whether the process's read is done.
    pub fn done(&self, process: u8) -> bool
        ensures { result ≡ has_done self.now.reads process }
    {
        let i = find_place(self.reads.as_slice(), process);
        match self.reads.get(i) {
            Some(one) => one.read.done(),
            None => false,
        }
    }

    /// Whether the process has a read that is not done.
    pub fn undone(&self, process: u8) -> bool
        ensures { result ≡ has_undone self.now.reads process }
    {
        let i = find_place(self.reads.as_slice(), process);
        match self.reads.get(i) {
            Some(one) => !one.read.done(),
            None => false,
        }
    }

    /// The answer of the process's read, where it is done.
    pub fn answer(&self, process: u8) -> Option<&Answer>
        ensures { option_copied result ≡ answered_in (slice_get self.now.reads (place_of self.now.reads process)) }
    {
        let i = find_place(self.reads.as_slice(), process);
        match self.reads.get(i) {
            Some(one) => one.read.answer(),
            None => None,
        }
    }

    /// Removes the process's read, which is done, and gives its answer.
    pub fn collect(&mut self, process: u8) -> Answer
        requires { has_done self.old.reads process ≡ true }
        ensures answer { result ≡ answer_in (slice_get self.old.reads (place_of self.old.reads process)) }
        ensures rest { self.new ≡ record self.old { reads = without self.old.reads process } }
    {
        let i = find_place(self.reads.as_slice(), process);
        let one = self.reads.remove(i);
        one.into_answer()
    }

    /// Removes the process's read, if it has one.
    pub fn cancel(&mut self, process: u8)
        ensures { self.new ≡ record self.old { reads = without self.old.reads process } }
    {
        let i = find_place(self.reads.as_slice(), process);
        if i < self.reads.len() {
            self.reads.remove(i);
        }
    }

    /// Ends the first line read that is not done, with `Aborted` and no text.
    pub fn abort_line(&mut self)
        ensures { self.new ≡ record self.old { reads = line_aborted self.old.reads } }
    {
        abort_first_line(self.reads.as_mut_slice());
    }

    /// Ends each read that is not done, with `Closed`.
    pub fn close_all(&mut self)
        ensures { self.new ≡ record self.old { reads = all_closed self.old.reads } }
    {
        close_reads(self.reads.as_mut_slice());
    }
}
