//! What wanted lines stand for.
use crate::strings::{Kind, Quoted, byte_list, strings_in, unit_list};
use case_lines::fault::{Fault, Wrong};
use case_lines::line::Line;
use case_lines::wanted::{NUMBER, Wanted};
use std::alloc::{AllocError, Global};

/// What lines of a wanted dump stand for.
pub fn dump_lines<'a>(alloc: Global, lines: &[Line<'a>]) -> Result<Vec<Wanted<'a>>, AllocError> {
    let mut out = Vec::new(alloc);
    for line in lines {
        let text = given!(String::from_str(alloc, line.text));
        given!(out.push(Wanted { line: *line, text }), AllocError);
    }
    Ok(out)
}

/// What lines of a wanted report stand for.
pub fn report_lines<'a>(alloc: Global, lines: &[Line<'a>]) -> Result<Vec<Wanted<'a>>, Wrong> {
    let mut out = Vec::new(alloc);
    for line in lines {
        let text = given!(expanded(alloc, *line));
        given!(
            out.push(Wanted { line: *line, text }),
            Wrong::from(AllocError)
        );
    }
    Ok(out)
}

// Puts what stands outside of strings last.
fn push_bare(out: &mut String, bare: &str) -> Result<(), AllocError> {
    for c in bare.chars() {
        given!(out.push(if c == '?' { char::from(NUMBER) } else { c }));
    }
    Ok(())
}

// Puts what stands outside of strings last, with the quotation mark of a string that ends before it, or begins behind it.
fn push_between(
    out: &mut String,
    bare: &str,
    (ends, begins): (bool, bool),
) -> Result<(), AllocError> {
    given!(out.push_str(if ends { "\"" } else { "" }));
    given!(push_bare(out, bare));
    out.push_str(if begins { "\"" } else { "" })
}

// Puts a text last, so often.
fn push_times(out: &mut String, text: &str, times: usize) -> Result<(), AllocError> {
    for _ in 0..times {
        given!(out.push_str(text));
    }
    Ok(())
}

/// What a line of a wanted report stands for.
pub fn expanded(alloc: Global, line: Line<'_>) -> Result<String, Wrong> {
    let strings = given!(strings_in(alloc, line));
    let mut out = String::new(alloc);
    let mut inside = false;
    for quoted in strings.quoted.as_slice() {
        let is_bare = quoted.kind == Kind::Bare;
        if is_bare || !inside || !quoted.before.trim().is_empty() {
            let marks = (inside, !is_bare);
            given!(
                push_between(&mut out, quoted.before, marks),
                Wrong::from(AllocError)
            );
            inside = !is_bare;
        }
        let text = given!(told(alloc, line, quoted));
        given!(
            push_times(&mut out, text.as_str(), quoted.times),
            Wrong::from(AllocError)
        );
    }
    given!(
        push_between(&mut out, strings.end, (inside, false)),
        Wrong::from(AllocError)
    );
    Ok(out)
}

// What a string of a report has for one of a wanted line, once.
fn told(alloc: Global, line: Line<'_>, quoted: &Quoted<'_>) -> Result<String, Wrong> {
    match quoted.kind {
        Kind::Plain => Ok(given!(
            String::from_str(alloc, quoted.text),
            Wrong::from(AllocError)
        )),
        Kind::Bare => {
            let bytes = given!(byte_list(alloc, line, quoted.text));
            Ok(given!(String::from_utf8(bytes), line.wrong(Fault::String)))
        }
        Kind::Units => {
            let units = given!(unit_list(alloc, line, quoted.text));
            Ok(given!(units_told(alloc, units.as_slice()), Wrong::from(AllocError)))
        }
        Kind::Bytes => {
            let bytes = given!(byte_list(alloc, line, quoted.text));
            Ok(given!(bytes_told(alloc, bytes.as_slice()), Wrong::from(AllocError)))
        }
        Kind::Cells(word) => {
            let units = given!(unit_list(alloc, line, quoted.text));
            Ok(given!(
                cells_told(alloc, units.as_slice(), word),
                Wrong::from(AllocError)
            ))
        }
    }
}

fn units_told(alloc: Global, units: &[u16]) -> Result<String, AllocError> {
    let mut out = String::new(alloc);
    for unit in units {
        given!(write!(out, "{unit:04x}"));
    }
    Ok(out)
}

fn cells_told(alloc: Global, units: &[u16], word: u16) -> Result<String, AllocError> {
    let mut out = String::new(alloc);
    for unit in units {
        given!(write!(out, "{unit:04x}{word:04x}"));
    }
    Ok(out)
}

fn bytes_told(alloc: Global, bytes: &[u8]) -> Result<String, AllocError> {
    let mut out = String::new(alloc);
    for byte in bytes {
        given!(write!(out, "{byte:02x}"));
    }
    Ok(out)
}
