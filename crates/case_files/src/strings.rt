//! Strings, as they stand in lines of cases.
use case_lines::fault::{Fault, Wrong};
use case_lines::line::Line;
use std::alloc::{AllocError, Global};

/// What a string stands for.
#[derive(Clone, Copy, PartialEq, Eq)]
pub enum Kind {
    /// Itself.
    Plain,
    /// Itself, without quotation marks.
    Bare,
    /// The digits of its UTF-16 units.
    Units,
    /// The digits of its bytes.
    Bytes,
    /// The digits of cells, each with this word.
    Cells(u16),
}

/// A string: what stands before it, what it stands for, its text as it is written, and how often it comes.
#[derive(Clone, Copy)]
pub struct Quoted<'a> {
    pub before: &'a str,
    pub kind: Kind,
    pub text: &'a str,
    pub times: usize,
}

/// The strings of a line, and what stands behind the last one.
#[derive(Drop)]
pub struct Strings<'a> {
    pub quoted: Vec<Quoted<'a>>,
    pub end: &'a str,
}

// What stands outside and inside of the quotation marks of a text, by turns.
fn cut<'a>(alloc: Global, text: &'a str) -> Result<Vec<&'a str>, AllocError> {
    let mut out = Vec::new(alloc);
    let mut from: usize = 0;
    let mut escaped = false;
    for (at, c) in text.char_indices() {
        if c == '"' && !escaped {
            given!(out.push(text.get(from..at).unwrap_or("")), AllocError);
            from = at.saturating_add(1);
        }
        escaped = c == '\\' && !escaped && out.len() % 2 == 1;
    }
    given!(out.push(text.get(from..).unwrap_or("")), AllocError);
    Ok(out)
}

// Where the digits end that a text begins with.
fn digits_end(text: &str) -> usize {
    for (at, byte) in text.as_bytes().iter().enumerate() {
        if !byte.is_ascii_digit() {
            return at;
        }
    }
    text.len()
}

/// How often something comes, by what stands behind it: `* 5` or nothing; and what stands behind that.
pub fn repeated<'a>(after: &'a str) -> Option<(usize, &'a str)> {
    let Some(count) = after.trim_start().strip_prefix('*') else {
        return Some((1, after));
    };
    let count = count.trim_start();
    let (digits, rest) = count.split_at_checked(digits_end(count))?;
    match digits.parse::<usize>() {
        Ok(times) => Some((times, rest)),
        Err(_) => None,
    }
}

// The word of the cells that a string stands for, and what stands before that.
fn cells_before<'a>(before: &'a str) -> Option<(&'a str, Kind)> {
    let at = before.len().checked_sub(5)?;
    let (front, digits) = before.split_at_checked(at)?;
    let digits = digits.strip_prefix('c')?;
    match u16::from_str_radix(digits, 16) {
        Ok(word) => Some((front, Kind::Cells(word))),
        Err(_) => None,
    }
}

// What a string stands for, by what stands before it, and what stands before that.
fn kind_before<'a>(before: &'a str) -> (&'a str, Kind) {
    if let Some(cells) = cells_before(before) {
        return cells;
    }
    if let Some(rest) = before.strip_suffix('u') {
        return (rest, Kind::Units);
    }
    if let Some(rest) = before.strip_suffix('t') {
        return (rest, Kind::Bare);
    }
    match before.strip_suffix('b') {
        Some(rest) => (rest, Kind::Bytes),
        None => (before, Kind::Plain),
    }
}

/// The strings of a line.
pub fn strings_in<'a>(alloc: Global, line: Line<'a>) -> Result<Strings<'a>, Wrong> {
    let cut = given!(cut(alloc, line.text), Wrong::from(AllocError));
    let Some((first, others)) = cut.as_slice().split_first() else {
        return Err(line.wrong(Fault::String));
    };
    let mut quoted = Vec::new(alloc);
    let mut before = *first;
    for pair in others.chunks(2) {
        let [text, after] = pair else {
            return Err(line.wrong(Fault::String));
        };
        let Some((times, rest)) = repeated(*after) else {
            return Err(line.wrong(Fault::Number));
        };
        let (bare, kind) = kind_before(before);
        let one = Quoted {
            before: bare,
            kind,
            text: *text,
            times,
        };
        given!(quoted.push(one), Wrong::from(AllocError));
        before = rest;
    }
    Ok(Strings {
        quoted,
        end: before,
    })
}

// A character of a string, or the number of a unit or a byte.
#[derive(Clone, Copy)]
enum Item {
    Char(char),
    Code(u16),
}

// Where the next character of a string stands: behind a backslash, or with so many digits still to come.
#[derive(Clone, Copy)]
enum At {
    Text,
    Escape,
    Digits(u8, u16),
}

// The character that a backslash and this one stand for.
fn escape_of(c: char) -> Option<char> {
    match c {
        'n' => Some('\n'),
        'r' => Some('\r'),
        't' => Some('\t'),
        'e' => Some('\u{1b}'),
        '\\' => Some('\\'),
        '"' => Some('"'),
        _ => None,
    }
}

// One more digit of a number.
fn digit(left: u8, code: u16, c: char) -> Option<(At, Option<Item>)> {
    let digit = u16::try_from(c.to_digit(16)?).ok()?;
    let code = (code << 4) | digit;
    if left <= 1 {
        Some((At::Text, Some(Item::Code(code))))
    } else {
        Some((At::Digits(left - 1, code), None))
    }
}

// Where a string stands behind a character, and what has come to its end there; `None` where no string is written so.
fn next(at: At, c: char) -> Option<(At, Option<Item>)> {
    match at {
        At::Text if c == '\\' => Some((At::Escape, None)),
        At::Text => Some((At::Text, Some(Item::Char(c)))),
        At::Escape if c == 'x' => Some((At::Digits(2, 0), None)),
        At::Escape if c == 'u' => Some((At::Digits(4, 0), None)),
        At::Escape => Some((At::Text, Some(Item::Char(escape_of(c)?)))),
        At::Digits(left, code) => digit(left, code, c),
    }
}

// The characters and numbers of a string.
fn items(alloc: Global, line: Line<'_>, text: &str) -> Result<Vec<Item>, Wrong> {
    let mut out = Vec::new(alloc);
    let mut at = At::Text;
    for c in text.chars() {
        let Some((then, item)) = next(at, c) else {
            return Err(line.wrong(Fault::String));
        };
        if let Some(item) = item {
            given!(out.push(item), Wrong::from(AllocError));
        }
        at = then;
    }
    match at {
        At::Text => Ok(out),
        _ => Err(line.wrong(Fault::String)),
    }
}

/// The bytes of a string's text.
pub fn byte_list(alloc: Global, line: Line<'_>, text: &str) -> Result<Vec<u8>, Wrong> {
    let mut out = Vec::new(alloc);
    let items = given!(items(alloc, line, text));
    for item in items.as_slice() {
        match *item {
            Item::Char(c) => {
                let mut bytes = [0u8; 4];
                let bytes = c.encode_utf8(&mut bytes).as_bytes();
                given!(out.extend_from_slice(bytes), Wrong::from(AllocError));
            }
            Item::Code(code) => {
                let byte = given!(u8::try_from(code), line.wrong(Fault::String));
                given!(out.push(byte), Wrong::from(AllocError));
            }
        }
    }
    Ok(out)
}

/// The UTF-16 units of a string's text.
pub fn unit_list(alloc: Global, line: Line<'_>, text: &str) -> Result<Vec<u16>, Wrong> {
    let mut out = Vec::new(alloc);
    let items = given!(items(alloc, line, text));
    for item in items.as_slice() {
        match *item {
            Item::Char(c) => {
                let mut units = [0u16; 2];
                let units = c.encode_utf16(&mut units);
                given!(out.extend_from_slice(units), Wrong::from(AllocError));
            }
            Item::Code(code) => given!(out.push(code), Wrong::from(AllocError)),
        }
    }
    Ok(out)
}

/// The bytes of a line of strings.
pub fn bytes(alloc: Global, line: Line<'_>) -> Result<Vec<u8>, Wrong> {
    let strings = given!(strings_in(alloc, line));
    let mut out = Vec::new(alloc);
    for quoted in strings.quoted.as_slice() {
        if quoted.kind != Kind::Plain || !quoted.before.trim().is_empty() {
            return Err(line.wrong(Fault::Line));
        }
        let bytes = given!(byte_list(alloc, line, quoted.text));
        for _ in 0..quoted.times {
            given!(
                out.extend_from_slice(bytes.as_slice()),
                Wrong::from(AllocError)
            );
        }
    }
    if strings.end.trim().is_empty() {
        Ok(out)
    } else {
        Err(line.wrong(Fault::Line))
    }
}
