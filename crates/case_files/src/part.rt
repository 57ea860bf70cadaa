//! The lines of a file of cases, and the parts of a case.
use case_lines::fault::{Fault, Wrong};
use case_lines::line::Line;
use std::alloc::{AllocError, Global};

/// The lines of a file that are neither empty nor a comment.
pub fn lines<'a>(alloc: Global, text: &'a str) -> Result<Vec<Line<'a>>, AllocError> {
    let mut out = Vec::new(alloc);
    for (at, text) in text.lines().enumerate() {
        if !text.is_empty() && !text.starts_with('#') {
            let number = at.saturating_add(1);
            given!(out.push(Line { number, text }), AllocError);
        }
    }
    Ok(out)
}

/// The name of the case that a line begins.
pub fn case_name<'a>(text: &'a str) -> Option<&'a str> {
    text.strip_prefix("== ")
}

/// What a part of a case says.
#[derive(Clone, Copy, PartialEq, Eq)]
pub enum Head {
    Words,
    Events,
    Reads,
    File,
    Bytes,
    Link,
    Order,
    Times,
    Fails,
    Each,
    Like,
    Audit,
    Takes,
    Status,
    Report,
    Stream,
    Second,
    Dump,
    Pictures,
    Wrong,
    Unread,
    Cells,
    Or,
    Differs,
}

/// The first word of a line, and what stands behind it.
pub fn first_word<'a>(text: &'a str) -> (&'a str, &'a str) {
    text.split_once(' ').unwrap_or((text, ""))
}

impl Head {
    /// What the part says that a word heads.
    fn of(word: &str) -> Option<Head> {
        match word {
            "words:" => Some(Head::Words),
            "events" => Some(Head::Events),
            "reads" => Some(Head::Reads),
            "file" => Some(Head::File),
            "bytes" => Some(Head::Bytes),
            "link" => Some(Head::Link),
            "order" => Some(Head::Order),
            "times" => Some(Head::Times),
            "fails" => Some(Head::Fails),
            "each" => Some(Head::Each),
            "like" => Some(Head::Like),
            "audit" => Some(Head::Audit),
            "takes" => Some(Head::Takes),
            "status" => Some(Head::Status),
            "report" => Some(Head::Report),
            "stream" => Some(Head::Stream),
            "second" => Some(Head::Second),
            "dump" => Some(Head::Dump),
            "pictures" => Some(Head::Pictures),
            "wrong" => Some(Head::Wrong),
            "unread" => Some(Head::Unread),
            "cells" => Some(Head::Cells),
            "or" => Some(Head::Or),
            "differs" => Some(Head::Differs),
            _ => None,
        }
    }

    // Whether a part that is headed so is one line alone.
    fn is_one_line(self) -> bool {
        match self {
            Head::Words | Head::Events | Head::Reads => true,
            Head::Times | Head::Fails | Head::Each | Head::Like | Head::Takes => true,
            Head::Status | Head::Cells | Head::Wrong | Head::Or => true,
            _ => false,
        }
    }
}

/// A part of a case: the line that heads it, without its first word, and its lines.
#[derive(Clone, Copy)]
pub struct Part<'a> {
    pub head: Head,
    pub rest: Line<'a>,
    pub lines: &'a [Line<'a>],
}

// Whether a line heads a part.
fn is_head(text: &str) -> bool {
    Head::of(first_word(text).0).is_some()
}

/// The parts of these lines.
pub fn parts<'a>(alloc: Global, lines: &'a [Line<'a>]) -> Result<Vec<Part<'a>>, Wrong> {
    let mut out = Vec::new(alloc);
    for chunk in lines.chunk_by(|_, next| !is_head(next.text)) {
        if let Some((first, lines)) = chunk.split_first() {
            let part = given!(part_of(*first, lines));
            given!(out.push(part), Wrong::from(AllocError));
        }
    }
    Ok(out)
}

// The part that a line heads.
fn part_of<'a>(line: Line<'a>, lines: &'a [Line<'a>]) -> Result<Part<'a>, Wrong> {
    let (word, rest) = first_word(line.text);
    let Some(head) = Head::of(word) else {
        return Err(line.wrong(Fault::Head));
    };
    match lines.first() {
        Some(below) if head.is_one_line() => Err(below.wrong(Fault::Head)),
        _ => Ok(Part {
            head,
            rest: line.part(rest),
            lines,
        }),
    }
}

/// That each part is headed so that it says something of such a case.
pub fn only(parts: &[Part<'_>], heads: &[Head]) -> Result<(), Wrong> {
    for part in parts {
        if !heads.contains(&part.head) {
            return Err(part.rest.wrong(Fault::Head));
        }
    }
    Ok(())
}
