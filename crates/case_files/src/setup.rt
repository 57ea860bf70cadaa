//! What a case runs.
use crate::part::{Head, Part, first_word};
use crate::strings::{bytes, repeated};
use case_lines::fault::{Fault, Wrong};
use case_lines::line::Line;
use std::alloc::{AllocError, Global};
use std::str::FromStr;

/// The words, the files of a name each and what the terminal sends; the call of the files, the link, the
/// terminals and the report that fails, counted from 0, where `u64::MAX` is none, and the most bytes that the last three take at once.
#[derive(Drop)]
pub struct Setup {
    pub words: Vec<String>,
    pub names: Vec<String>,
    pub texts: Vec<Vec<u8>>,
    pub link: Vec<u8>,
    pub failing: Failing,
    pub most: usize,
}

/// An end of the outside.
#[derive(Clone, Copy, PartialEq, Eq)]
pub enum End {
    Files,
    Link,
    Term,
    Second,
    Report,
}

impl End {
    // The end of a name.
    fn of(name: &str) -> Option<End> {
        match name {
            "files" => Some(End::Files),
            "link" => Some(End::Link),
            "term" => Some(End::Term),
            "second" => Some(End::Second),
            "report" => Some(End::Report),
            _ => None,
        }
    }
}

/// The calls that fail.
#[derive(Clone, Copy, PartialEq, Eq)]
pub struct Failing {
    pub files: u64,
    pub link: u64,
    pub term: u64,
    pub second: u64,
    pub report: u64,
}

impl Failing {
    /// No call.
    pub const NONE: Failing = Failing {
        files: u64::MAX,
        link: u64::MAX,
        term: u64::MAX,
        second: u64::MAX,
        report: u64::MAX,
    };

    /// The same, and this call of an end.
    pub fn with(self, end: End, call: u64) -> Failing {
        match end {
            End::Files => Failing {
                files: call,
                ..self
            },
            End::Link => Failing { link: call, ..self },
            End::Term => Failing { term: call, ..self },
            End::Second => Failing {
                second: call,
                ..self
            },
            End::Report => Failing {
                report: call,
                ..self
            },
        }
    }
}

impl Setup {
    /// No words, no files, an empty link, and no call that fails.
    pub fn new(alloc: Global) -> Setup {
        Setup {
            words: Vec::new(alloc),
            names: Vec::new(alloc),
            texts: Vec::new(alloc),
            link: Vec::new(alloc),
            failing: Failing::NONE,
            most: usize::MAX,
        }
    }

    // Does what a part says of what is run.
    fn take(&mut self, alloc: Global, part: &Part<'_>) -> Result<(), Wrong> {
        match part.head {
            Head::Words => words(alloc, part.rest, &mut self.words),
            Head::File => {
                let text = given!(text(alloc, part.lines), Wrong::from(AllocError));
                Ok(given!(self.file(alloc, part, text), Wrong::from(AllocError)))
            }
            Head::Bytes => {
                let text = given!(all_bytes(alloc, part.lines));
                Ok(given!(self.file(alloc, part, text), Wrong::from(AllocError)))
            }
            Head::Link => link(alloc, part.lines, &mut self.link),
            Head::Fails => {
                let (end, call) = given!(end_number(part.rest));
                self.failing = self.failing.with(end, call);
                Ok(())
            }
            Head::Takes => {
                self.most = given!(number::<usize>(part.rest));
                Ok(())
            }
            _ => Ok(()),
        }
    }

    // A file of this name.
    fn file(&mut self, alloc: Global, part: &Part<'_>, text: Vec<u8>) -> Result<(), AllocError> {
        let name = given!(String::from_str(alloc, part.rest.text));
        given!(self.names.push(name), AllocError);
        given!(self.texts.push(text), AllocError);
        Ok(())
    }

    /// The first word, or an empty one.
    pub fn form(&self) -> &str {
        match self.words.as_slice().first() {
            Some(word) => word.as_str(),
            None => "",
        }
    }

    /// What the parts of a case say of what is run.
    pub fn of(alloc: Global, parts: &[Part<'_>]) -> Result<Setup, Wrong> {
        let mut setup = Setup::new(alloc);
        for part in parts {
            given!(setup.take(alloc, part));
        }
        Ok(setup)
    }
}

/// The number that a line is.
pub fn number<N: FromStr>(line: Line<'_>) -> Result<N, Wrong>
where
    <N as FromStr>::Err: Drop,
{
    match line.text.parse::<N>() {
        Ok(number) => Ok(number),
        Err(_) => Err(line.wrong(Fault::Number)),
    }
}

// The words of a line.
fn words(alloc: Global, line: Line<'_>, out: &mut Vec<String>) -> Result<(), Wrong> {
    for word in line.text.split(' ') {
        if word.starts_with('"') {
            let bytes = given!(bytes(alloc, line.part(word)));
            let word = given!(String::from_utf8(bytes), line.wrong(Fault::String));
            given!(out.push(word), Wrong::from(AllocError));
        } else if !word.is_empty() {
            let word = given!(String::from_str(alloc, word), Wrong::from(AllocError));
            given!(out.push(word), Wrong::from(AllocError));
        }
    }
    Ok(())
}

// Lines as the text of a file.
fn text(alloc: Global, lines: &[Line<'_>]) -> Result<Vec<u8>, AllocError> {
    let mut out = Vec::new(alloc);
    for line in lines {
        given!(out.extend_from_slice(line.text.as_bytes()));
        given!(out.push(10), AllocError);
    }
    Ok(out)
}

/// The bytes of lines of strings.
pub fn all_bytes(alloc: Global, lines: &[Line<'_>]) -> Result<Vec<u8>, Wrong> {
    let mut out = Vec::new(alloc);
    for line in lines {
        let bytes = given!(bytes(alloc, *line));
        given!(
            out.extend_from_slice(bytes.as_slice()),
            Wrong::from(AllocError)
        );
    }
    Ok(out)
}

/// How often a case is run.
pub fn times(parts: &[Part<'_>]) -> Result<u32, Wrong> {
    for part in parts {
        if part.head == Head::Times {
            return number::<u32>(part.rest);
        }
    }
    Ok(1)
}

/// The end of which each call is to fail in turn, and how many have to at least.
pub fn failing_end(parts: &[Part<'_>]) -> Result<Option<(End, u64)>, Wrong> {
    for part in parts {
        if part.head == Head::Each {
            let end = given!(end_number(part.rest));
            return Ok(Some(end));
        }
    }
    Ok(None)
}

/// The other words with which a case has to leave the same.
pub fn other_words(alloc: Global, parts: &[Part<'_>]) -> Result<Option<Vec<String>>, Wrong> {
    for part in parts {
        if part.head == Head::Like {
            let mut out = Vec::new(alloc);
            given!(words(alloc, part.rest, &mut out));
            return Ok(Some(out));
        }
    }
    Ok(None)
}

// The end and the number that a line says.
fn end_number(line: Line<'_>) -> Result<(End, u64), Wrong> {
    let (name, count) = first_word(line.text);
    match End::of(name) {
        Some(end) => {
            let count = given!(number::<u64>(line.part(count)));
            Ok((end, count))
        }
        None => Err(line.wrong(Fault::Line)),
    }
}

// What the terminal sends by lines.
fn link(alloc: Global, lines: &[Line<'_>], out: &mut Vec<u8>) -> Result<(), Wrong> {
    for line in lines {
        given!(frame(alloc, *line, out));
    }
    Ok(())
}

// What the terminal sends by a line.
fn frame(alloc: Global, line: Line<'_>, out: &mut Vec<u8>) -> Result<(), Wrong> {
    let (tag, rest) = first_word(line.text);
    let rest = line.part(rest);
    match tag {
        "B" => typed(alloc, rest, out),
        "R" => size(0x52, rest, out),
        "A" => size(0x41, rest, out),
        "D" => frames(0x44, rest, out),
        "Q" => frames(0x51, rest, out),
        "P" => frames(0x50, rest, out),
        "X" => frames(0x58, rest, out),
        "raw" => {
            let bytes = given!(bytes(alloc, rest));
            given!(
                out.extend_from_slice(bytes.as_slice()),
                Wrong::from(AllocError)
            );
            Ok(())
        }
        _ => Err(line.wrong(Fault::Line)),
    }
}

// A frame of typed bytes.
fn typed(alloc: Global, line: Line<'_>, out: &mut Vec<u8>) -> Result<(), Wrong> {
    let bytes = given!(bytes(alloc, line));
    let length = given!(u16::try_from(bytes.len()), line.wrong(Fault::Number));
    let [high, low] = length.to_be_bytes();
    given!(
        out.extend_from_slice(&[0x42, high, low]),
        Wrong::from(AllocError)
    );
    given!(
        out.extend_from_slice(bytes.as_slice()),
        Wrong::from(AllocError)
    );
    Ok(())
}

// A frame of a size.
fn size(tag: u8, line: Line<'_>, out: &mut Vec<u8>) -> Result<(), Wrong> {
    let (width, height) = first_word(line.text);
    let [w, x] = given!(number::<u16>(line.part(width))).to_be_bytes();
    let [h, y] = given!(number::<u16>(line.part(height))).to_be_bytes();
    given!(
        out.extend_from_slice(&[tag, w, x, h, y]),
        Wrong::from(AllocError)
    );
    Ok(())
}

// A frame without more, so often as the line says.
fn frames(tag: u8, line: Line<'_>, out: &mut Vec<u8>) -> Result<(), Wrong> {
    match repeated(line.text) {
        Some((times, "")) => {
            for _ in 0..times {
                given!(out.push(tag), Wrong::from(AllocError));
            }
            Ok(())
        }
        _ => Err(line.wrong(Fault::Number)),
    }
}
