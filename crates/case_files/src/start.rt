//! What events are entered on, and what is wanted of them.
use crate::cells::size;
use crate::expanding::{dump_lines, report_lines};
use crate::part::{Head, Part, first_word};
use crate::setup::number;
use case_lines::fault::{Fault, Wrong};
use case_lines::line::Line;
use case_lines::wanted::Wanted;
use con_units::Size;
use std::alloc::{AllocError, Global};

/// A console that starts: its window, its number of clients, and how many handlers each client's rack has. The program of client 1
/// is `a`, that of client 2 is `b`, and so on; its group is its number.
#[derive(Drop)]
pub struct Start {
    pub size: Size,
    pub clients: u8,
    pub racks: Vec<u8>,
}

// The numbers of a line, none in an empty one.
fn numbers(alloc: Global, line: Line<'_>) -> Result<Vec<u8>, Wrong> {
    let mut out = Vec::new(alloc);
    for word in line.text.split(' ') {
        if !word.is_empty() {
            let number = given!(number::<u8>(line.part(word)));
            given!(out.push(number), Wrong::from(AllocError));
        }
    }
    Ok(out)
}

impl Start {
    /// The console that a line says: `80x25 clients 4 racks 2 2`.
    pub fn of(alloc: Global, line: Line<'_>) -> Result<Start, Wrong> {
        let (side, rest) = first_word(line.text);
        let (count, after) = rest.split_once(" racks ").unwrap_or((rest, ""));
        let Some(count) = count.strip_prefix("clients ") else {
            return Err(line.wrong(Fault::Line));
        };
        let size = given!(size(line.part(side)));
        let clients = given!(number::<u8>(line.part(count)));
        let racks = given!(numbers(alloc, line.part(after)));
        Ok(Start {
            size,
            clients,
            racks,
        })
    }
}

/// What the lines of the first part of a head stand for.
pub fn wanted_at<'a>(
    alloc: Global,
    parts: &[Part<'a>],
    head: Head,
) -> Result<Vec<Wanted<'a>>, Wrong> {
    for part in parts {
        if part.head == head {
            return match head {
                Head::Report => report_lines(alloc, part.lines),
                _ => Ok(given!(dump_lines(alloc, part.lines), Wrong::from(AllocError))),
            };
        }
    }
    Ok(Vec::new(alloc))
}
