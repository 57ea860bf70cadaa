//! The summary of a session.

ghost use Rattle.std.specs.Prelude.{◌≡◌, ℕ, ◌+◌, ◌≤◌, ◌++◌, [], true, IfOk, length, string_bytes};
ghost use Rattle.con_machine.specs.Follows.{session_start};
ghost use Rattle.con_machine.specs.History.{is_legal};
ghost use Rattle.con_machine.specs.Turns.{paints};
ghost use Rattle.con_text.specs.Playing.{dump_after};
ghost use Rattle.con_sessions.specs.Summary.{refusal, refusals, records_left, counts_text, summary_text, window};

use con_actors::Outcome;
use con_console::Console;
use con_events::{Entry, Reply, Session};
use con_term::Terminal;
use con_text::dumped;
use con_units::{OutOfMemory, Size};
use std::alloc::Global;

const WINDOW: Size = Size { w: 80, h: 25 };

// 1 for an event that was refused.
fn refusal(reply: &Reply) -> u64
    ensures is { result ≡ refusal reply.now }
    ensures one { result ≤ 1 }
{
    match reply {
        Reply::Fail(_) => 1,
        _ => 0,
    }
}

// How many events were refused.
fn refused(replies: &[Reply]) -> u64
    ensures { result ≡ refusals replies.now }
{
    let mut count = 0;
    for reply in replies {
        count += refusal(reply);
    }
    count
}

// How many records a history leaves in the queue: it is entered once more, in a console of its own.
fn queued(alloc: Global, session: &Session, entries: &[Entry]) -> Result<usize, OutOfMemory>
    requires legal { is_legal (session_start session.now []) entries.now ≡ true }
    ensures { IfOk result (λ n. n ≡ records_left session.now entries.now) }
{
    let mut console = Console::new(alloc, session, &[])?;
    // Its answers are those of the session, and are not looked at here; the console steps as the history says.
    let _replies = console.play(entries)?;
    Ok(console.queued())
}

// The lines of the counts.
fn counts(
    alloc: Global,
    refused: u64,
    records: usize,
    painted: usize,
) -> Result<String, OutOfMemory>
    ensures { IfOk result (λ text. string_bytes text ≡ counts_text refused records painted) }
{
    match format!(in alloc;
        "calls 2000\nrefused {refused}\nrecords {records}\npaints {painted}\n"
    ) {
        Ok(text) => Ok(text),
        Err(_) => Err(OutOfMemory),
    }
}

// The dump of a blank terminal that was played a stream.
fn shown(alloc: Global, stream: &[u8]) -> Result<Vec<u8>, OutOfMemory>
    ensures { IfOk result (λ bytes. bytes.items ≡ dump_after window stream.now) }
{
    let mut terminal = Terminal::new(alloc, WINDOW)?;
    terminal.play_all(stream);
    dumped(alloc, &terminal)
}

fn joined(alloc: Global, front: &[u8], back: &[u8]) -> Result<Vec<u8>, OutOfMemory>
    ensures { IfOk result (λ bytes. bytes.items ≡ front.now ++ back.now) }
{
    let mut bytes = Vec::new(alloc);
    let Ok(()) = bytes.extend_from_slice(front) else {
        return Err(OutOfMemory);
    };
    let Ok(()) = bytes.extend_from_slice(back) else {
        return Err(OutOfMemory);
    };
    Ok(bytes)
}

/// The summary of a session without handlers that ran, and whose stream this is: what was refused, the records that are left, the
/// Paints, and what a blank terminal shows that was played the stream.
pub fn summary(
    alloc: Global,
    session: &Session,
    outcome: &Outcome,
    stream: &[u8],
) -> Result<Vec<u8>, OutOfMemory>
    requires legal { is_legal (session_start session.now []) outcome.now.entries ≡ true }
    requires painted { length outcome.now.ends ≡ paints outcome.now.entries }
    ensures { IfOk result (λ bytes. bytes.items ≡ summary_text session.now outcome.now.entries outcome.now.replies stream.now) }
{
    let refused = refused(outcome.replies.0.as_slice());
    let records = queued(alloc, session, outcome.entries.0.as_slice())?;
    let painted = outcome.ends.0.as_slice().len();
    let counts = counts(alloc, refused, records, painted)?;
    let shown = shown(alloc, stream)?;
    joined(alloc, counts.as_bytes(), shown.as_slice())
}
