//! What came of a run, as it is compared.
use crate::comparing::lines_of;
use crate::ran::Ran;
use std::alloc::{AllocError, Global};
use std::str;

/// How the line of a picture begins.
const PICTURE: &str = "[\"p\",\"paint\",[],[\"painted\",";

/// How the line of a client begins.
const CLIENT: &str = "[\"c";

/// What came of a case: the status, the terminal's stream and that of the second one, the report and its lines, how long the stream was
/// after each picture, and whether the report is that of `play`.
#[derive(Drop)]
pub struct Came<'a> {
    pub status: u8,
    pub stream: &'a [u8],
    pub second: &'a [u8],
    pub report: &'a str,
    pub lines: Vec<&'a str>,
    pub ends: Vec<usize>,
    pub is_played: bool,
}

impl<'a> Came<'a> {
    /// What came of a run.
    pub fn of(alloc: Global, ran: &'a Ran, is_played: bool) -> Result<Came<'a>, AllocError> {
        let report = str::from_utf8(ran.report.as_slice()).unwrap_or("no UTF-8");
        let lines = given!(lines_of(alloc, report));
        let ends = given!(ends(alloc, lines.as_slice()));
        Ok(Came {
            status: ran.status,
            stream: ran.written.as_slice(),
            second: ran.second.as_slice(),
            report,
            lines,
            ends,
            is_played,
        })
    }

    /// Whether the lengths after pictures never fall, and the last one is the length of the stream.
    pub fn has_lengths(&self) -> bool {
        let mut last = 0;
        for end in self.ends.as_slice() {
            if *end < last {
                return false;
            }
            last = *end;
        }
        self.ends.is_empty() || last == self.stream.len()
    }

    /// How many lines of the report are those of clients.
    pub fn clients(&self) -> u64 {
        let mut count = 0u64;
        for line in self.lines.as_slice() {
            if line.starts_with(CLIENT) {
                count = count.saturating_add(1);
            }
        }
        count
    }

    // How long the stream is after so many pictures.
    fn end(&self, pictures: usize) -> Option<usize> {
        match pictures.checked_sub(1) {
            None => Some(0),
            Some(at) => self.ends.as_slice().get(at).copied(),
        }
    }

    /// What pictures wrote, counted from 1.
    pub fn between(&self, first: usize, last: usize) -> Option<&'a [u8]> {
        match (self.end(first.saturating_sub(1)), self.end(last)) {
            (Some(from), Some(end)) => self.stream.get(from..end),
            _ => None,
        }
    }
}

// How long the stream was after each picture.
fn ends(alloc: Global, lines: &[&str]) -> Result<Vec<usize>, AllocError> {
    let mut out = Vec::new(alloc);
    for line in lines {
        if let Some(rest) = line.strip_prefix(PICTURE) {
            let digits = rest.strip_suffix("]]").unwrap_or("");
            given!(out.push(digits.parse::<usize>().unwrap_or(0)), AllocError);
        }
    }
    Ok(out)
}
