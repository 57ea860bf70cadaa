//! The last line of a session that ran, and its status.

ghost use Rattle.std.specs.Prelude.{◌≡◌};
ghost use Rattle.con_events.specs.declared.end.End.{End as Ended};
ghost use Rattle.con_lines.specs.Ending.{status_of};
ghost use Rattle.con_lines.specs.Words.Ending.{ending_of};
ghost use Rattle.con_ending.specs.Laws.{status_after};
ghost use Rattle.con_telling.specs.Telling.{ending_after, mirror_ending};

use con_ending::{status_after, status_told};
use con_events::End;
use con_outside::Fault;
use con_trace::EndLine;

/// The last line of a session that ended so.
pub fn last_of(end: End) -> EndLine
    ensures { ending_of result ≡ ending_after end }
{
    match end {
        End::Done => EndLine::Plain(0),
        End::Term => EndLine::Word(5, "term"),
        End::Link => EndLine::Word(4, "link"),
        End::TooLong => EndLine::Word(10, "too long"),
        End::Bad { place, kind } => EndLine::Frame(place, kind),
        End::Memory => EndLine::Plain(9),
    }
}

// The last line where all was done, but for a second terminal that may have failed.
fn done_line(lost: bool) -> EndLine
    ensures { ending_of result ≡ mirror_ending Ended.Done lost }
{
    if lost {
        EndLine::Word(12, "mirror")
    } else {
        EndLine::Plain(0)
    }
}

/// The last line of a session with a second terminal that ended so.
pub fn mirror_last_of(end: End, lost: bool) -> EndLine
    ensures { ending_of result ≡ mirror_ending end lost }
{
    match end {
        End::Done => done_line(lost),
        _ => last_of(end),
    }
}

/// The status of a session whose report, with this last line, was written so.
pub fn status_by(written: Result<(), Fault>, last: &EndLine) -> u8
    ensures { result ≡ status_after written (status_of (ending_of last.now)) }
{
    status_after(written, status_told(last))
}
