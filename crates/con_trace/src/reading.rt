//! A whole report, read.

ghost use Rattle.std.specs.Prelude.{◌≡◌, ◌+◌, ◌<◌, ◌≤◌, List, [], ◌∷◌, ◌++◌, Some, None, IfOk, IfErr, IfSome, option_map, length, position, ◌==◌};
ghost use Rattle.con_trace.specs.Report.{IsReport};
ghost use Rattle.con_trace.specs.Cut.{cut_line as line_cut, IsFault, with_said, with_end};

use crate::lines::line_read;
use crate::trace::{Trace, TraceFault};
use con_events::{Entries, Entry, Event, PieceEnds, Replies, Reply};
use con_lines::{LineRead, Said};
use con_units::OutOfMemory;
use std::alloc::Global;
use std::marker::Model;

/// What was read so far.
#[derive(Drop)]
struct Gathered {
    entries: Vec<Entry>,
    replies: Vec<Reply>,
    ends: Vec<u64>,
}

impl Model for Gathered {
    ghost use Rattle.con_trace.specs.Report.{History};

    ghost Value = { History };

    ghost view = { λ g. record { entries = g.entries.items; replies = g.replies.items; ends = g.ends.items } };
}

impl Gathered {
    fn new(alloc: Global) -> Gathered
        ensures { result ≡ record { entries = []; replies = []; ends = [] } }
    {
        Gathered {
            entries: Vec::new(alloc),
            replies: Vec::new(alloc),
            ends: Vec::new(alloc),
        }
    }

    /// The stream's length after a picture; nothing of any other event.
    fn push_end(&mut self, event: &Event, end: u64) -> Result<(), OutOfMemory>
        ensures { IfOk result (λ _. self.new ≡ record {
          entries = self.old.entries;
          replies = self.old.replies;
          ends = self.old.ends ++ with_end event.now end [];
        }) }
    {
        let Event::Paint = event else {
            return Ok(());
        };
        match self.ends.push(end) {
            Ok(()) => Ok(()),
            Err(_) => Err(OutOfMemory),
        }
    }

    /// An event and its answer.
    fn push_both(&mut self, entry: Entry, reply: Reply) -> Result<(), OutOfMemory>
        ensures { IfOk result (λ _. self.new ≡ record {
          entries = self.old.entries ++ entry ∷ [];
          replies = self.old.replies ++ reply ∷ [];
          ends = self.old.ends;
        }) }
    {
        if self.entries.reserve(1).is_err() {
            drop(entry);
            drop(reply);
            return Err(OutOfMemory);
        }
        if self.replies.reserve(1).is_err() {
            drop(entry);
            drop(reply);
            return Err(OutOfMemory);
        }
        self.entries.push_reserved(entry);
        self.replies.push_reserved(reply);
        Ok(())
    }

    /// One line more.
    fn push(&mut self, said: Said) -> Result<(), OutOfMemory>
        ensures { IfOk result (λ _. self.new ≡ with_said self.old said) }
    {
        match self.push_end(&said.entry.event, said.end) {
            Ok(()) => self.push_both(said.entry, said.reply),
            Err(_) => {
                drop(said);
                Err(OutOfMemory)
            }
        }
    }

    /// All that was read, with the status.
    fn trace(self, status: u8) -> Trace
        ensures entries { result.entries ≡ self.entries }
        ensures replies { result.replies ≡ self.replies }
        ensures ends { result.ends ≡ self.ends }
        ensures status { result.status ≡ status }
    {
        Trace {
            entries: Entries(self.entries),
            replies: Replies(self.replies),
            ends: PieceEnds(self.ends),
            status,
        }
    }
}

/// The place of the first line feed.
fn feed_at(text: &[u8]) -> Option<usize>
    ensures place { result ≡ position (λ b. b == 10) text.now }
    ensures inside { IfSome result (λ k. k < length text.now) }
{
    text.iter().position(|byte| *byte == 10)
}

/// What stands before and behind the first line feed.
fn cut_line(text: &[u8]) -> Option<(&[u8], &[u8])>
    ensures { option_map (λ p. (p.0.now, p.1.now)) result ≡ line_cut text.now }
{
    match feed_at(text) {
        Some(k) => Some((&text[..k], &text[k + 1..])),
        None => None,
    }
}

/// One more than a number of lines of the bytes that is less than the number of bytes.
fn one_more(count: u64, bytes: &[u8]) -> u64
    requires { count < length bytes.now }
    ensures { result ≡ count + 1 }
{
    let size = bytes.len() as u64;
    if count < size { count + 1 } else { count }
}

/// The history, the replies, the streams' lengths and the status that a report determines; any other text is refused with its first
/// wrong line. A text that ends before a last line is wrong at the line after the last, one that goes on behind it at the line
/// behind it.
pub fn read(alloc: Global, bytes: &[u8]) -> Result<Trace, TraceFault>
    ensures report { IfOk result (λ t. IsReport bytes.now t) }
    ensures fault { IfErr result (λ e. IsFault e bytes.now) }
{
    let mut lines = Gathered::new(alloc);
    let mut rest = bytes;
    let mut count = 0;
    'report: loop {
        match cut_line(rest) {
            None => return Err(TraceFault::Line(count)),
            Some((line, behind)) => {
                let next = one_more(count, bytes);
                match line_read(alloc, line) {
                    Ok(LineRead::Event(said)) => {
                        let Ok(()) = lines.push(said) else {
                            return Err(TraceFault::OutOfMemory);
                        };
                    }
                    Ok(LineRead::End(status)) => {
                        return if behind.is_empty() {
                            Ok(lines.trace(status))
                        } else {
                            Err(TraceFault::Line(next))
                        };
                    }
                    Ok(LineRead::Neither) => return Err(TraceFault::Line(count)),
                    Err(_) => return Err(TraceFault::OutOfMemory),
                }
                rest = behind;
                count = next;
            }
        }
    }
}
