//! What is found of the bytes of four files.

ghost use Rattle.std.specs.Prelude.{◌≡◌};
ghost use Rattle.con_trace.specs.Words.Audit.{found_of};
ghost use Rattle.con_inspect.specs.Finding.{told, told_verdict, status_found, word_of};

use con_audit::{Verdict, What};
use con_ending::DONE;
use con_trace::AuditLine;

/// The files are no run.
pub const NO_RUN: u8 = 13;

/// What is found of four files, of which the first is a session's document.
#[derive(Clone, Copy, PartialEq, Eq, Drop)]
pub enum Finding {
    /// The report is none: its first line, from 0, that is wrong.
    WrongLine(u64),
    /// The report has another status than 0, and so many entries.
    OtherStatus(u64),
    /// What an audit finds.
    Audited(Verdict),
}

// The word for a part.
fn word(part: What) -> &'static str
    ensures { result.now ≡ word_of part }
{
    match part {
        What::Ready => "ready",
        What::Reply => "reply",
        What::Follows => "follows",
        What::End => "end",
        What::Shows => "shows",
        What::Whole => "whole",
    }
}

// The line that tells a verdict.
fn verdict_line(verdict: Verdict) -> AuditLine
    ensures { found_of result ≡ told_verdict verdict }
{
    match verdict {
        Verdict::Yes => AuditLine::Yes,
        Verdict::No { place, what } => AuditLine::No {
            place,
            part: word(what),
        },
    }
}

impl Finding {
    /// The line that tells it.
    pub fn line(self) -> AuditLine
        ensures { found_of result ≡ told self }
    {
        match self {
            Finding::WrongLine(place) => AuditLine::No {
                place,
                part: "line",
            },
            Finding::OtherStatus(count) => AuditLine::No {
                place: count,
                part: "whole",
            },
            Finding::Audited(verdict) => verdict_line(verdict),
        }
    }

    /// Its status.
    pub fn status(self) -> u8
        ensures { result ≡ status_found self }
    {
        match self {
            Finding::Audited(Verdict::Yes) => DONE,
            _ => NO_RUN,
        }
    }
}
