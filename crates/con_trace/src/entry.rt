//! A line for an event and its answer.

ghost use Rattle.std.specs.Prelude.{◌≡◌, ◌≤◌, List, [], ◌∷◌, ◌++◌, IfOk, OnOk, OnErr, length, take, Option};
ghost use Rattle.con_outside.specs.Outside.{Rose, then_written, WroteFront, WrotePart};
ghost use Rattle.con_lines.specs.Line.{line_data, line_text, ended};
ghost use Rattle.con_lines.specs.Writing.{put, nothing_written};

use crate::reply::answer;
use con_events::{Entry, Reply};
use con_lines::Line;
use con_lines::acts::name_of_event;
use con_outside::{Fault, Sink, write_whole};
use con_units::OutOfMemory;
use std::alloc::Global;

/// The line of an event and its answer, as one array.
#[tactic(auto, using(con_lines::proofs::Puts::arrays), unfolding(json::specs::Print::escape_byte))]
fn whole_entry(line: &mut Line, entry: &Entry, reply: &Reply, end: u64) -> Result<(), OutOfMemory>
    ensures { IfOk result (λ _. line.new ≡ put line.old (line_data entry.now reply.now end)) }
{
    given!(line.open());
    given!(line.actor(entry.actor));
    given!(line.word(name_of_event(&entry.event)));
    given!(line.all_arguments(&entry.event));
    given!(answer(line, &entry.event, reply, end));
    line.shut()
}

/// The line of an event and its answer, with its line feed, where nothing is written yet.
#[tactic(auto, unfolding(con_lines::specs::Line::line_text, con_lines::specs::Writing::put, con_lines::specs::Writing::more))]
fn ended_entry(line: &mut Line, entry: &Entry, reply: &Reply, end: u64) -> Result<(), OutOfMemory>
    requires { line.old ≡ nothing_written }
    ensures { IfOk result (λ _. line.new.bytes ≡ ended (line_text entry.now reply.now end)) }
{
    given!(whole_entry(line, entry, reply, end));
    line.append(b"\n")
}

/// The line of an event and its answer, with no line feed.
#[tactic(auto, unfolding(con_lines::specs::Line::line_text, con_lines::specs::Writing::put))]
pub fn line_of(alloc: Global, entry: &Entry, reply: &Reply, end: u64) -> Result<Line, OutOfMemory>
    ensures { IfOk result (λ line. line.bytes ≡ line_text entry.now reply.now end) }
{
    let mut line = Line::new(alloc);
    given!(whole_entry(&mut line, entry, reply, end));
    Ok(line)
}

/// Writes the line of an event and its answer, with its line feed. `end` is the length of the terminal's stream after a picture,
/// and counts for nothing with other events. After a refusal a front of the line was written, and never all of it.
#[tactic(auto, using(crate::proofs::Ended::nothing_yet))]
pub fn write_entry<R: Sink>(
    alloc: Global,
    out: &mut R,
    entry: &Entry,
    reply: &Reply,
    end: u64,
) -> Result<(), Fault>
    ensures front { WroteFront (ended (line_text entry.now reply.now end)) (R.written out.old) (R.written out.new) }
    ensures whole { OnOk result (R.written out.new ≡ then_written (R.written out.old) (ended (line_text entry.now reply.now end))) }
    ensures part { OnErr result (WrotePart (ended (line_text entry.now reply.now end)) (R.written out.old) (R.written out.new)) }
    ensures failed { result ≡ Err Fault.Failed → Rose (R.faults out.old) (R.faults out.new) }
    ensures never_falls { R.faults out.old ≤ R.faults out.new }
{
    let mut line = Line::new(alloc);
    let Ok(()) = ended_entry(&mut line, entry, reply, end) else {
        return Err(Fault::OutOfMemory);
    };
    write_whole(out, line.as_slice())
}
