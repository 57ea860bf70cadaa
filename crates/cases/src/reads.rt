//! Texts are read as reports.
use case_files::part::{Head, Part, only};
use case_files::reading::{reported, status_difference, wrong_difference};
use case_files::setup::Setup;
use case_lines::fault::Wrong;
use case_lines::line::Line;
use con_events::Event;
use con_outside::SureSink;
use con_trace::{Trace, TraceFault, read, write_entry};
use con_units::{Bytes, OutOfMemory};
use std::alloc::{AllocError, Global};

// What is written for what a report says of its events.
fn written(alloc: Global, trace: &Trace) -> Result<Bytes, OutOfMemory> {
    let mut sink = SureSink {
        written: Bytes(Vec::new(alloc)),
    };
    let mut ends = trace.ends.0.as_slice().iter();
    for (entry, reply) in trace
        .entries
        .0
        .as_slice()
        .iter()
        .zip(trace.replies.0.as_slice())
    {
        let end = match entry.event {
            Event::Paint => ends.next().copied().unwrap_or(1),
            _ => 0,
        };
        if write_entry(alloc, &mut sink, entry, reply, end).is_err() {
            return Err(OutOfMemory);
        }
    }
    Ok(sink.written)
}

// Whether what is written for a report's events are its lines before the last one.
fn comes_back(alloc: Global, trace: &Trace, bytes: &[u8]) -> Result<bool, OutOfMemory> {
    let written = given!(written(alloc, trace));
    match bytes.strip_prefix(written.as_slice()) {
        Some(last) => Ok(last.starts_with(b"[\"end\",")),
        None => Ok(false),
    }
}

// What differs where a text is a report.
fn report_difference(
    alloc: Global,
    trace: &Trace,
    bytes: &[u8],
    parts: &[Part<'_>],
) -> Result<Option<String>, Wrong> {
    if given!(comes_back(alloc, trace, bytes), Wrong::from(AllocError)) {
        return status_difference(alloc, trace.status, parts);
    }
    let text = String::from_str(alloc, "written again it is another text");
    Ok(Some(given!(text, Wrong::from(AllocError))))
}

// What differs where a text is read.
fn text_difference(
    alloc: Global,
    bytes: &[u8],
    parts: &[Part<'_>],
) -> Result<Option<String>, Wrong> {
    match read(alloc, bytes) {
        Ok(trace) => report_difference(alloc, &trace, bytes, parts),
        Err(TraceFault::Line(line)) => wrong_difference(alloc, line.saturating_add(1), parts),
        Err(TraceFault::OutOfMemory) => Err(Wrong::from(OutOfMemory)),
    }
}

/// A line of a report that stands before another one.
const BEFORE: &[u8] = b"[\"t\",\"quiet\",[],[\"ok\"]]\n";

// Whether the second line of a text is its first wrong one.
fn is_wrong_second(alloc: Global, bytes: &[u8]) -> bool {
    match read(alloc, bytes) {
        Err(TraceFault::Line(line)) => line == 1,
        _ => false,
    }
}

// The first of some lines that is not wrong between two lines of a report.
fn taken(alloc: Global, lines: &[Line<'_>]) -> Result<Option<String>, AllocError> {
    for line in lines {
        let bytes = given!(reported(alloc, BEFORE, line.text));
        if !is_wrong_second(alloc, bytes.as_slice()) {
            let number = line.number;
            let text = format!(in alloc; "line {number} of the file is not refused");
            return Ok(Some(given!(text)));
        }
    }
    Ok(None)
}

// What differs of the first text of a case that does.
fn texts_difference(
    alloc: Global,
    texts: &[Vec<u8>],
    parts: &[Part<'_>],
) -> Result<Option<String>, Wrong> {
    for text in texts {
        match text_difference(alloc, text.as_slice(), parts) {
            Ok(None) => {}
            told => return told,
        }
    }
    Ok(None)
}

// What differs of the first lines that are to be refused and are not.
fn unread_difference(alloc: Global, parts: &[Part<'_>]) -> Result<Option<String>, AllocError> {
    for part in parts {
        if part.head == Head::Unread {
            match taken(alloc, part.lines) {
                Ok(None) => {}
                told => return told,
            }
        }
    }
    Ok(None)
}

// That each part says something of texts.
fn only_of_texts(parts: &[Part<'_>]) -> Result<(), Wrong> {
    only(
        parts,
        &[
            Head::File,
            Head::Bytes,
            Head::Status,
            Head::Wrong,
            Head::Unread,
            Head::Differs,
        ],
    )
}

/// What differs where the texts of a case, and lines that are to be refused, are read.
pub fn reads_difference(alloc: Global, parts: &[Part<'_>]) -> Result<Option<String>, Wrong> {
    given!(only_of_texts(parts));
    let setup = given!(Setup::of(alloc, parts));
    match texts_difference(alloc, setup.texts.as_slice(), parts) {
        Ok(None) => {
            let told = unread_difference(alloc, parts);
            Ok(given!(told, Wrong::from(AllocError)))
        }
        told => told,
    }
}
