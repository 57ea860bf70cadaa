//! What an audit changes of the four files before it.
use crate::expanding::expanded;
use crate::part::first_word;
use crate::setup::{End, Setup, number};
use crate::strings::bytes;
use case_lines::fault::{Fault, Wrong};
use case_lines::line::Line;
use std::alloc::{AllocError, Global};

/// The place of the report among the four files.
pub const REPORT: usize = 3;

// The place of a file among the four.
fn place(line: Line<'_>, name: &str) -> Result<usize, Wrong> {
    match name {
        "session" => Ok(0),
        "link" => Ok(1),
        "stream" => Ok(2),
        "report" => Ok(REPORT),
        _ => Err(line.wrong(Fault::Line)),
    }
}

// A text in which some lines from a place on are gone, and others stand there.
fn with_lines(
    alloc: Global,
    text: &[u8],
    at: usize,
    gone: usize,
    new: &[u8],
) -> Result<Vec<u8>, AllocError> {
    let mut out = Vec::new(alloc);
    for (number, line) in text.split_inclusive(|byte| *byte == 10).enumerate() {
        if number == at {
            given!(out.extend_from_slice(new));
        }
        if number < at || at.saturating_add(gone) <= number {
            given!(out.extend_from_slice(line));
        }
    }
    Ok(out)
}

// How many lines a text has.
fn line_count(text: &[u8]) -> usize {
    let mut count = 0usize;
    let mut last = 10u8;
    for byte in text {
        if last == 10 {
            count = count.saturating_add(1);
        }
        last = *byte;
    }
    count
}

// The place of the line that a word names: its number, counted from 1, or `last`.
fn line_place(line: Line<'_>, word: &str, text: &[u8]) -> Result<usize, Wrong> {
    let count = line_count(text);
    let number = match word {
        "last" => count,
        _ => given!(number::<usize>(line.part(word))),
    };
    match number.checked_sub(1) {
        Some(at) if at < count => Ok(at),
        _ => Err(line.wrong(Fault::Number)),
    }
}

// The line that is written so, with its line feed.
fn line_bytes(alloc: Global, line: Line<'_>) -> Result<Vec<u8>, Wrong> {
    let text = given!(expanded(alloc, line));
    let mut out = Vec::new(alloc);
    given!(
        out.extend_from_slice(text.as_bytes()),
        Wrong::from(AllocError)
    );
    given!(out.push(10), Wrong::from(AllocError));
    Ok(out)
}

// Changes a line of the report: so many lines are gone, and a line stands there where one is given.
fn change_line(
    alloc: Global,
    setup: &mut Setup,
    rest: Line<'_>,
    gone: usize,
    is_given: bool,
) -> Result<(), Wrong> {
    let (word, behind) = first_word(rest.text);
    let new = if is_given {
        given!(line_bytes(alloc, rest.part(behind)))
    } else {
        Vec::new(alloc)
    };
    if let Some(text) = setup.texts.as_mut_slice().get_mut(REPORT) {
        let at = given!(line_place(rest, word, text.as_slice()));
        *text = given!(
            with_lines(alloc, text.as_slice(), at, gone, new.as_slice()),
            Wrong::from(AllocError)
        );
    }
    Ok(())
}

// Changes a bit of a file, whose byte and bit are counted from 0.
fn change_bit(setup: &mut Setup, rest: Line<'_>) -> Result<(), Wrong> {
    let (name, behind) = first_word(rest.text);
    let (at, bit) = first_word(behind);
    let place = given!(place(rest, name));
    let at = given!(number::<usize>(rest.part(at)));
    let bit = given!(number::<u32>(rest.part(bit)));
    let Some(mask) = 1_u8.checked_shl(bit) else {
        return Err(rest.wrong(Fault::Number));
    };
    if let Some(text) = setup.texts.as_mut_slice().get_mut(place) {
        if let Some(byte) = text.as_mut_slice().get_mut(at) {
            *byte = *byte ^ mask;
            return Ok(());
        }
    }
    Err(rest.wrong(Fault::Number))
}

// Puts bytes in the place of a file, or behind what it has.
fn put(alloc: Global, setup: &mut Setup, rest: Line<'_>, is_behind: bool) -> Result<(), Wrong> {
    let (name, strings) = first_word(rest.text);
    let place = given!(place(rest, name));
    let bytes = given!(bytes(alloc, rest.part(strings)));
    if let Some(text) = setup.texts.as_mut_slice().get_mut(place) {
        if is_behind {
            given!(
                text.extend_from_slice(bytes.as_slice()),
                Wrong::from(AllocError)
            );
        } else {
            *text = bytes;
        }
    }
    Ok(())
}

// Takes the last byte of a file away.
fn shorten(setup: &mut Setup, rest: Line<'_>) -> Result<(), Wrong> {
    let place = given!(place(rest, rest.text));
    if let Some(text) = setup.texts.as_mut_slice().get_mut(place) {
        let _last = text.pop();
    }
    Ok(())
}

// Takes a file away.
fn lose(alloc: Global, setup: &mut Setup, rest: Line<'_>) -> Result<(), Wrong> {
    let place = given!(place(rest, rest.text));
    if let Some(name) = setup.names.as_mut_slice().get_mut(place) {
        *name = given!(String::from_str(alloc, "lost"), Wrong::from(AllocError));
    }
    Ok(())
}

// Lets a call of the files or of the report fail.
fn fail(setup: &mut Setup, rest: Line<'_>) -> Result<(), Wrong> {
    let (name, call) = first_word(rest.text);
    let call = given!(number::<u64>(rest.part(call)));
    let end = match name {
        "files" => End::Files,
        "report" => End::Report,
        _ => return Err(rest.wrong(Fault::Line)),
    };
    setup.failing = setup.failing.with(end, call);
    Ok(())
}

/// Does to an audit what a line says.
pub fn change(alloc: Global, setup: &mut Setup, line: Line<'_>) -> Result<(), Wrong> {
    let (verb, rest) = first_word(line.text);
    let rest = line.part(rest);
    match verb {
        "lose" => lose(alloc, setup, rest),
        "put" => put(alloc, setup, rest, false),
        "append" => put(alloc, setup, rest, true),
        "shorten" => shorten(setup, rest),
        "flip" => change_bit(setup, rest),
        "remove" => change_line(alloc, setup, rest, 1, false),
        "replace" => change_line(alloc, setup, rest, 1, true),
        "insert" => change_line(alloc, setup, rest, 0, true),
        "break" => fail(setup, rest),
        _ => Err(line.wrong(Fault::Line)),
    }
}
