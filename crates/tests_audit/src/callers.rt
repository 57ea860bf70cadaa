//! What a caller knows of all terminals by bytes alone, and of a run by its audit.
ghost use Rattle.std.specs.Prelude.{◌≡◌, ◌<◌, ◌≤◌, true, [], Some, IfOk, if◌then◌else◌};
ghost use Rattle.con_term.specs.Play.{play};
ghost use Rattle.con_term.specs.Terminal.{Terminal, IsTerminal, Shows};
ghost use Rattle.con_machine.specs.Turns.{is_paint, paints};
ghost use Rattle.con_audit.specs.Agrees.{Agrees};
ghost use Rattle.con_audit.specs.Headline.{IsRun};
ghost use Rattle.con_audit.specs.declared.verdict.Verdict.TheVariants as verdicts;

use con_audit::{Partial, Verdict, a_partial_terminal_stays_true, audit, yes_is_a_run};
use con_events::{Entry, Event, Reply, Session};
use con_units::{OutOfMemory, Size, View};
use std::alloc::Global;

/// Plays bytes, and tells whether every terminal that was known so far now shows the view.
pub fn is_shown_by_all(partial: &mut Partial, bytes: &[u8], view: &View) -> bool
    ensures { (t : Terminal) → Agrees partial.old t → result ≡ true → Shows (play t bytes.now) view.now }
{
    a_partial_terminal_stays_true();
    partial.play_all(bytes);
    partial.knows(view)
}

/// Whether bytes show the view on every terminal of this size that is between sequences.
pub fn shows_everywhere(
    alloc: Global,
    size: Size,
    bytes: &[u8],
    view: &View,
) -> Result<bool, OutOfMemory>
    requires some { (0 < size.w) × (0 < size.h) }
    requires few { (size.w ≤ 512) × (size.h ≤ 256) }
    ensures { IfOk result (λ is. (t : Terminal) → IsTerminal size.w size.h t → is ≡ true → Shows (play t bytes.now) view.now) }
{
    a_partial_terminal_stays_true();
    let mut partial = Partial::new(alloc, size)?;
    Ok(is_shown_by_all(&mut partial, bytes, view))
}

// Whether it is a Paint, as a number.
fn as_paint(entry: &Entry) -> usize
    ensures { result ≡ (if is_paint entry.now.event then 1 else 0) }
{
    match &entry.event {
        Event::Paint => 1,
        _ => 0,
    }
}

// How many Paints there are.
fn count_paints(entries: &[Entry]) -> usize
    ensures { result ≡ paints entries.now }
{
    let mut count = 0usize;
    for entry in entries {
        count += as_paint(entry);
    }
    count
}

/// Whether all of it is a run, where there are as many replies as entries, as many ends as Paints, and a link that is not too long.
pub fn is_run(
    alloc: Global,
    session: &Session,
    link: &[u8],
    stream: &[u8],
    entries: &[Entry],
    replies: &[Reply],
    ends: &[u64],
) -> Result<Option<Verdict>, OutOfMemory>
    ensures { IfOk result (λ found. found ≡ Some verdicts.Yes
        → IsRun (record {
          session = session.now;
          racks = [];
          link = link.now;
          stream = stream.now;
          entries = entries.now;
          replies = replies.now;
          ends = ends.now;
        })) }
{
    if 16_777_216 < link.len() {
        return Ok(None);
    }
    if replies.len() != entries.len() {
        return Ok(None);
    }
    if ends.len() != count_paints(entries) {
        return Ok(None);
    }
    yes_is_a_run();
    let verdict = audit(alloc, session, &[], link, stream, entries, replies, ends)?;
    Ok(Some(verdict))
}
