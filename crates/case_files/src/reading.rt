//! Texts that are read as reports.
use crate::part::{Head, Part};
use crate::setup::number;
use case_lines::fault::{Fault, Wrong};
use case_lines::line::Line;
use std::alloc::{AllocError, Global};

// The line that a part says: `at line 3`.
fn wrong_line(line: Line<'_>) -> Result<u64, Wrong> {
    match line.text.strip_prefix("at line ") {
        Some(count) => number::<u64>(line.part(count)),
        None => Err(line.wrong(Fault::Line)),
    }
}

/// What differs where a line of a text, counted from 1, is its first wrong one.
pub fn wrong_difference(
    alloc: Global,
    at: u64,
    parts: &[Part<'_>],
) -> Result<Option<String>, Wrong> {
    for part in parts {
        if part.head == Head::Wrong && given!(wrong_line(part.rest)) == at {
            return Ok(None);
        }
    }
    Ok(Some(given!(
        format!(in alloc; "it is wrong at line {at}"),
        Wrong::from(AllocError)
    )))
}

/// What differs where a text is a report with this status.
pub fn status_difference(
    alloc: Global,
    status: u8,
    parts: &[Part<'_>],
) -> Result<Option<String>, Wrong> {
    for part in parts {
        if part.head == Head::Wrong {
            return Ok(Some(given!(
                String::from_str(alloc, "it is a report"),
                Wrong::from(AllocError)
            )));
        }
        if part.head == Head::Status && given!(number::<u8>(part.rest)) != status {
            return Ok(Some(given!(
                format!(in alloc; "status {status}"),
                Wrong::from(AllocError)
            )));
        }
    }
    Ok(None)
}

/// A line as a report of its own, behind some lines.
pub fn reported(alloc: Global, before: &[u8], line: &str) -> Result<Vec<u8>, AllocError> {
    let mut bytes = Vec::new(alloc);
    given!(bytes.extend_from_slice(before));
    given!(bytes.extend_from_slice(line.as_bytes()));
    given!(bytes.extend_from_slice(b"\n[\"end\",0]\n"));
    Ok(bytes)
}
