//! What a run left.
use crate::setup::End;
use con_units::Bytes;

/// What a case answered, wrote to the terminal and to the second one, and reported.
#[derive(Drop)]
pub struct Ran {
    pub status: u8,
    pub written: Bytes,
    pub second: Bytes,
    pub report: Bytes,
}

// Whether these bytes begin all of some, are not all of them, and are more than there were the last time.
fn is_further(some: &Bytes, all: &Bytes, last: Option<usize>) -> bool {
    let (some, all) = (some.as_slice(), all.as_slice());
    let is_more = match last {
        Some(length) => length < some.len(),
        None => some.is_empty(),
    };
    all.starts_with(some) && some.len() < all.len() && is_more
}

/// Whether a run in which a call of an end failed left what it has to of a run in which none does: a front of what that end has there, longer than
/// the last one. Of files nothing is.
pub fn has_part(end: End, ran: &Ran, sure: &Ran, last: Option<usize>) -> bool {
    let is_same = ran.written.as_slice() == sure.written.as_slice();
    match end {
        End::Files => false,
        End::Link => true,
        End::Term => is_further(&ran.written, &sure.written, last),
        End::Second => is_same && is_further(&ran.second, &sure.second, last),
        End::Report => is_same && is_further(&ran.report, &sure.report, last),
    }
}

/// How much an end has of a run.
pub fn length(end: End, ran: &Ran) -> usize {
    match end {
        End::Second => ran.second.len(),
        End::Report => ran.report.len(),
        _ => ran.written.len(),
    }
}

/// What two runs do not share, if anything: the status, the terminal's stream or the report.
pub fn has_other(ran: &Ran, sure: &Ran) -> Option<&'static str> {
    if ran.status != sure.status {
        Some("status")
    } else if ran.written.as_slice() != sure.written.as_slice() {
        Some("stream")
    } else if ran.report.as_slice() != sure.report.as_slice() {
        Some("report")
    } else {
        None
    }
}
