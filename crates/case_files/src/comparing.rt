//! Wanted parts beside what came.
use crate::came::Came;
use crate::cells::{cells, size};
use crate::expanding::{dump_lines, report_lines};
use crate::part::{Head, Part, first_word};
use crate::setup::{all_bytes, number};
use case_lines::fault::{Fault, Wrong};
use case_lines::line::Line;
use case_lines::wanted::{Difference, Wanted, Way, first_difference, is_blank, is_line};
use std::alloc::{AllocError, Global};
use std::str;

/// The lines of a text.
pub fn lines_of<'a>(alloc: Global, text: &'a str) -> Result<Vec<&'a str>, AllocError> {
    let mut out = Vec::new(alloc);
    for line in text.split_terminator('\n') {
        given!(out.push(line), AllocError);
    }
    Ok(out)
}

/// Whether one of the wanted parts is this status.
pub fn wants_status(parts: &[Part<'_>], status: u8) -> Result<bool, Wrong> {
    for part in parts {
        if part.head == Head::Status && given!(number::<u8>(part.rest)) == status {
            return Ok(true);
        }
    }
    Ok(false)
}

// The difference that a case wants.
fn wanted_difference(alloc: Global, parts: &[Part<'_>]) -> Result<Option<String>, AllocError> {
    for part in parts {
        if part.head == Head::Differs {
            let mut text = given!(String::from_str(alloc, part.rest.text));
            for line in part.lines {
                given!(text.push('\n'));
                given!(text.push_str(line.text));
            }
            return Ok(Some(text));
        }
    }
    Ok(None)
}

/// What is told of a case that differs so: nothing where this is the difference that it wants, and what is told where it wants none.
pub fn judged(
    alloc: Global,
    parts: &[Part<'_>],
    told: Option<String>,
) -> Result<Option<String>, AllocError> {
    let Some(wanted) = given!(wanted_difference(alloc, parts)) else {
        return Ok(told);
    };
    let Some(told) = told else {
        return Ok(Some(given!(format!(in alloc; "no difference\nwanted difference: {wanted}"))));
    };
    if told.as_str() == wanted.as_str() {
        return Ok(None);
    }
    Ok(Some(given!(format!(in alloc; "{told}\nwanted difference: {wanted}"))))
}

/// What differs from a wanted status.
pub fn status_difference(
    alloc: Global,
    came: &Came<'_>,
    line: Line<'_>,
) -> Result<Option<String>, Wrong> {
    let wanted = given!(number::<u8>(line));
    if wanted == came.status {
        return Ok(None);
    }
    let got = came.status;
    let last = came.lines.as_slice().last().copied().unwrap_or("");
    Ok(Some(given!(
        format!(in alloc; "status {got}, wanted {wanted}: {last}"),
        Wrong::from(AllocError)
    )))
}

// A difference in words.
fn told(
    alloc: Global,
    what: &str,
    lines: &[&str],
    difference: Difference<'_>,
) -> Result<String, AllocError> {
    let at = difference.at.saturating_add(1);
    let got = lines.get(difference.at).copied().unwrap_or("nothing");
    match difference.wanted {
        Some(line) => {
            let (number, wanted) = (line.number, line.text);
            format!(in alloc;
                "line {at} of the {what}: {got}\n    wanted (line {number} of the file): {wanted}"
            )
        }
        None => format!(in alloc; "line {at} of the {what}: {got}\n    wanted: nothing"),
    }
}

/// What differs of lines.
pub fn compared(
    alloc: Global,
    way: Way,
    wanted: &[Wanted<'_>],
    lines: &[&str],
) -> Result<Option<String>, AllocError> {
    let Some(difference) = first_difference(way, wanted, lines) else {
        return Ok(None);
    };
    let what = match way {
        Way::Report => "report",
        Way::Dump => "dump",
        Way::Picture => "pictures",
    };
    Ok(Some(given!(told(alloc, what, lines, difference))))
}

// Whether a wanted line is one of some.
fn is_among(wanted: &Wanted<'_>, lines: &[&str]) -> bool {
    for line in lines {
        if is_line(Way::Report, wanted.text.as_str(), *line) {
            return true;
        }
    }
    false
}

// The first line that is not there.
fn lacking(
    alloc: Global,
    wanted: &[Wanted<'_>],
    lines: &[&str],
) -> Result<Option<String>, AllocError> {
    for one in wanted {
        if !is_among(one, lines) {
            let (number, wanted) = (one.line.number, one.line.text);
            return Ok(Some(given!(format!(in alloc;
                "the report has not (line {number} of the file): {wanted}"
            ))));
        }
    }
    Ok(None)
}

// The lines of an actor, or those with one name: `c1`, or `c1 take-ctrl`.
fn lines_with<'a>(
    alloc: Global,
    lines: &[&'a str],
    actor: &str,
) -> Result<Vec<&'a str>, AllocError> {
    let (actor, name) = first_word(actor);
    let begin = given!(match name {
        "" => format!(in alloc; "[\"{actor}\","),
        _ => format!(in alloc; "[\"{actor}\",\"{name}\","),
    });
    let mut out = Vec::new(alloc);
    for line in lines {
        if line.starts_with(begin.as_str()) {
            given!(out.push(*line), AllocError);
        }
    }
    Ok(out)
}

/// What differs from a wanted report.
pub fn report_difference(
    alloc: Global,
    came: &Came<'_>,
    part: &Part<'_>,
) -> Result<Option<String>, Wrong> {
    let wanted = given!(report_lines(alloc, part.lines));
    let (word, actor) = first_word(part.rest.text);
    let (wanted, lines) = (wanted.as_slice(), came.lines.as_slice());
    match word {
        "" => Ok(given!(
            compared(alloc, Way::Report, wanted, lines),
            Wrong::from(AllocError)
        )),
        "of" => {
            let lines = given!(lines_with(alloc, lines, actor), Wrong::from(AllocError));
            Ok(given!(
                compared(alloc, Way::Report, wanted, lines.as_slice()),
                Wrong::from(AllocError)
            ))
        }
        "has" => Ok(given!(lacking(alloc, wanted, lines), Wrong::from(AllocError))),
        _ => Err(part.rest.wrong(Fault::Line)),
    }
}

// How many bytes two begin with that are the same.
fn same_bytes(one: &[u8], other: &[u8]) -> usize {
    for (at, (a, b)) in one.iter().zip(other.iter()).enumerate() {
        if *a != *b {
            return at;
        }
    }
    one.len().min(other.len())
}

/// What differs from a wanted stream.
pub fn stream_difference(
    alloc: Global,
    bytes: &[u8],
    part: &Part<'_>,
) -> Result<Option<String>, Wrong> {
    let got = bytes.len();
    let (word, count) = first_word(part.rest.text);
    if word == "of" {
        let wanted = given!(number::<usize>(part.rest.part(count)));
        if wanted == got {
            return Ok(None);
        }
        return Ok(Some(given!(
            format!(in alloc; "a stream of {got} bytes, wanted {wanted}"),
            Wrong::from(AllocError)
        )));
    }
    let wanted = given!(all_bytes(alloc, part.lines));
    if wanted.as_slice() == bytes {
        return Ok(None);
    }
    let same = same_bytes(bytes, wanted.as_slice());
    let more = wanted.len();
    Ok(Some(given!(
        format!(in alloc; "a stream of {got} bytes, wanted {more}; the first {same} are the same"),
        Wrong::from(AllocError)
    )))
}

/// The first and the last picture that a line says.
pub fn pictures(line: Line<'_>) -> Result<(usize, usize), Wrong> {
    let (word, rest) = first_word(line.text);
    match word {
        "picture" => {
            let last = given!(number::<usize>(line.part(rest)));
            Ok((1, last))
        }
        "pictures" => {
            let Some((first, last)) = rest.split_once(" to ") else {
                return Err(line.wrong(Fault::Line));
            };
            let first = given!(number::<usize>(line.part(first)));
            let last = given!(number::<usize>(line.part(last)));
            Ok((first, last))
        }
        _ => Err(line.wrong(Fault::Line)),
    }
}

/// The bytes that pictures wrote of which a line says which, all where it says none; `None` where there are none such.
pub fn bytes_shown<'a>(came: &Came<'a>, line: Line<'_>) -> Result<Option<&'a [u8]>, Wrong> {
    if line.text.is_empty() {
        return Ok(Some(came.stream));
    }
    let (first, last) = given!(pictures(line));
    Ok(came.between(first, last))
}

// The place of the last row that is not blank, 0 where there is none.
fn last_row(lines: &[&str]) -> usize {
    let mut last = 0;
    for (at, line) in lines.iter().enumerate() {
        if line.starts_with('|') && !is_blank(*line) {
            last = at;
        }
    }
    last
}

// Lines without the rows of spaces behind the last other one.
fn trimmed<'a>(alloc: Global, lines: &[&'a str]) -> Result<Vec<&'a str>, AllocError> {
    let rows = last_row(lines);
    let mut out = Vec::new(alloc);
    for (at, line) in lines.iter().enumerate() {
        if at <= rows || !is_blank(*line) {
            given!(out.push(*line), AllocError);
        }
    }
    Ok(out)
}

// The same of wanted lines.
fn trimmed_lines<'a>(alloc: Global, lines: &[Line<'a>]) -> Result<Vec<Line<'a>>, AllocError> {
    let mut texts = Vec::new(alloc);
    for line in lines {
        given!(texts.push(line.text), AllocError);
    }
    let rows = last_row(texts.as_slice());
    let mut out = Vec::new(alloc);
    for (at, line) in lines.iter().enumerate() {
        if at <= rows || !is_blank(line.text) {
            given!(out.push(*line), AllocError);
        }
    }
    Ok(out)
}

/// What differs from a wanted dump.
pub fn dump_difference(
    alloc: Global,
    part: &Part<'_>,
    text: &str,
) -> Result<Option<String>, AllocError> {
    let lines = given!(trimmed_lines(alloc, part.lines));
    let wanted = given!(dump_lines(alloc, lines.as_slice()));
    let all = given!(lines_of(alloc, text));
    let came = given!(trimmed(alloc, all.as_slice()));
    compared(alloc, Way::Dump, wanted.as_slice(), came.as_slice())
}

/// What differs of the lines of a text.
pub fn lines_difference(
    alloc: Global,
    way: Way,
    wanted: &[Wanted<'_>],
    text: &[u8],
) -> Result<Option<String>, AllocError> {
    let lines = given!(lines_of(alloc, str::from_utf8(text).unwrap_or("no UTF-8")));
    compared(alloc, way, wanted, lines.as_slice())
}

/// Whether a picture prints more cells than a line says.
pub fn cells_difference(
    alloc: Global,
    came: &Came<'_>,
    line: Line<'_>,
) -> Result<Option<String>, Wrong> {
    let (side, rest) = first_word(line.text);
    let size = given!(size(line.part(side)));
    let Some((picture, most)) = rest.split_once(" most ") else {
        return Err(line.wrong(Fault::Line));
    };
    let (_, last) = given!(pictures(line.part(picture)));
    let most = given!(number::<usize>(line.part(most)));
    let Some(bytes) = came.between(last, last) else {
        return Ok(Some(given!(
            String::from_str(alloc, "no such picture"),
            Wrong::from(AllocError)
        )));
    };
    let got = cells(bytes, size);
    if got <= most {
        return Ok(None);
    }
    Ok(Some(given!(
        format!(in alloc; "picture {last} prints {got} cells, wanted {most} at most"),
        Wrong::from(AllocError)
    )))
}
