//! Whether a case ran as it has to.
use crate::showing::dump;
use case_files::came::Came;
use case_files::cells::size;
use case_files::comparing::{
    bytes_shown, cells_difference, dump_difference, report_difference, status_difference,
    stream_difference, wants_status,
};
use case_files::part::{Head, Part, first_word};
use case_files::setup::Failing;
use case_lines::fault::Wrong;
use con_ending::MEMORY;
use con_units::Size;
use std::alloc::{AllocError, Global};
use std::str;

/// What differs from what is wanted, or `None`. The wanted parts stand between parts `or`, and those up to one of them are enough. Want of
/// memory is a difference of every case that does not want it.
pub fn difference(
    alloc: Global,
    came: &Came<'_>,
    parts: &[Part<'_>],
    failing: Failing,
) -> Result<Option<String>, Wrong> {
    let always = if failing == Failing::NONE && !came.has_lengths() {
        "lengths after pictures that fall, or do not end with the stream"
    } else if came.status == MEMORY && !given!(wants_status(parts, MEMORY)) {
        "want of memory"
    } else {
        return wanted_difference(alloc, came, parts);
    };
    Ok(Some(given!(String::from_str(alloc, always), Wrong::from(AllocError))))
}

// What differs from the wanted parts before the first `or`, where something differs from those before each one.
fn wanted_difference(
    alloc: Global,
    came: &Came<'_>,
    parts: &[Part<'_>],
) -> Result<Option<String>, Wrong> {
    let mut first = None;
    for parts in parts.split(|part| part.head == Head::Or) {
        match given!(one_difference(alloc, came, parts)) {
            None => return Ok(None),
            Some(text) => {
                if first.is_none() {
                    first = Some(text);
                }
            }
        }
    }
    Ok(first)
}

// What differs from the first of some parts that does.
fn one_difference(
    alloc: Global,
    came: &Came<'_>,
    parts: &[Part<'_>],
) -> Result<Option<String>, Wrong> {
    for part in parts {
        match part_difference(alloc, came, part) {
            Ok(None) => {}
            told => return told,
        }
    }
    Ok(None)
}

// What differs from a part.
fn part_difference(
    alloc: Global,
    came: &Came<'_>,
    part: &Part<'_>,
) -> Result<Option<String>, Wrong> {
    match part.head {
        Head::Status => status_difference(alloc, came, part.rest),
        Head::Report => report_difference(alloc, came, part),
        Head::Stream => stream_difference(alloc, came.stream, part),
        Head::Second => second(alloc, came.second, part),
        Head::Dump => shown(alloc, came, part),
        Head::Cells => cells_difference(alloc, came, part.rest),
        _ => Ok(None),
    }
}

// What differs from a wanted dump of a terminal that is played some bytes.
fn dumped(
    alloc: Global,
    size: Size,
    bytes: &[u8],
    part: &Part<'_>,
) -> Result<Option<String>, AllocError> {
    let dump = given!(dump(alloc, size, bytes));
    dump_difference(
        alloc,
        part,
        str::from_utf8(dump.as_slice()).unwrap_or("no UTF-8"),
    )
}

// What differs of the second terminal: its dump at a size, or its stream.
fn second(alloc: Global, bytes: &[u8], part: &Part<'_>) -> Result<Option<String>, Wrong> {
    let (side, _) = first_word(part.rest.text);
    if side.is_empty() || side == "of" {
        return stream_difference(alloc, bytes, part);
    }
    let size = given!(size(part.rest.part(side)));
    let told = given!(dumped(alloc, size, bytes, part), Wrong::from(AllocError));
    Ok(told)
}

// What differs of the terminal's dump, or of that which is the report.
fn shown(alloc: Global, came: &Came<'_>, part: &Part<'_>) -> Result<Option<String>, Wrong> {
    let (side, rest) = first_word(part.rest.text);
    let size = given!(size(part.rest.part(side)));
    if came.is_played {
        let told = given!(
            dump_difference(alloc, part, came.report),
            Wrong::from(AllocError)
        );
        return Ok(told);
    }
    match given!(bytes_shown(came, part.rest.part(rest))) {
        Some(bytes) => Ok(given!(dumped(alloc, size, bytes, part), Wrong::from(AllocError))),
        None => Ok(Some(given!(
            String::from_str(alloc, "no such picture"),
            Wrong::from(AllocError)
        ))),
    }
}
