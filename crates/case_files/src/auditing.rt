//! What is audited, and what an audit answered.
use crate::changing::change;
use crate::expanding::expanded;
use crate::part::{Part, first_word};
use crate::ran::Ran;
use crate::setup::{Setup, number};
use case_lines::fault::{Fault, Wrong};
use case_lines::line::Line;
use case_lines::wanted::is_told;
use std::alloc::{AllocError, Global};
use std::str;

/// Whether a word is that of a session by turns or by threads.
pub fn is_session(word: &str) -> bool {
    word == "solo" || word == "run"
}

// The text of the file that is named so.
fn named<'a>(setup: &'a Setup, name: &str) -> &'a [u8] {
    let files = setup.names.as_slice().iter().zip(setup.texts.as_slice());
    for (other, text) in files {
        if other.as_str() == name {
            return text.as_slice();
        }
    }
    &[]
}

/// The texts of the four files of an audit, in the order of its words.
type Texts<'a> = (&'a [u8], &'a [u8], &'a [u8], &'a [u8]);

// The four texts that a case has for an audit: what a session left that was done, or the files that the words name.
fn texts<'a>(given: &'a Setup, ran: &'a Ran, is_done: bool) -> Option<Texts<'a>> {
    match given.words.as_slice() {
        [form, name] if is_session(form.as_str()) && is_done => Some((
            named(given, name.as_str()),
            given.link.as_slice(),
            ran.written.as_slice(),
            ran.report.as_slice(),
        )),
        [form, session, link, stream, report] if form.as_str() == "audit" => Some((
            named(given, session.as_str()),
            named(given, link.as_str()),
            named(given, stream.as_str()),
            named(given, report.as_str()),
        )),
        _ => None,
    }
}

// One more file of an audit, whose name is its next word.
fn add_file(alloc: Global, setup: &mut Setup, name: &str, text: &[u8]) -> Result<(), AllocError> {
    let word = given!(String::from_str(alloc, name));
    given!(setup.words.push(word), AllocError);
    let name = given!(String::from_str(alloc, name));
    given!(setup.names.push(name), AllocError);
    let text = given!(Vec::from_slice(alloc, text), AllocError);
    given!(setup.texts.push(text), AllocError);
    Ok(())
}

// The audit of four files.
fn audit_with(
    alloc: Global,
    (session, link, stream, report): Texts<'_>,
) -> Result<Setup, AllocError> {
    let mut setup = Setup::new(alloc);
    let word = given!(String::from_str(alloc, "audit"));
    given!(setup.words.push(word), AllocError);
    given!(add_file(alloc, &mut setup, "session", session));
    given!(add_file(alloc, &mut setup, "link", link));
    given!(add_file(alloc, &mut setup, "stream", stream));
    given!(add_file(alloc, &mut setup, "report", report));
    Ok(setup)
}

/// The audit of what a case has for one, if anything: what a session left that was done, or its files.
pub fn audit_of(
    alloc: Global,
    parts: &[Part<'_>],
    ran: &Ran,
    is_done: bool,
) -> Result<Option<Setup>, Wrong> {
    let given = given!(Setup::of(alloc, parts));
    match texts(&given, ran, is_done) {
        Some(texts) => Ok(Some(given!(audit_with(alloc, texts), Wrong::from(AllocError)))),
        None => Ok(None),
    }
}

/// The audit of what a case has for one, with the changes of lines.
pub fn changed_audit(
    alloc: Global,
    parts: &[Part<'_>],
    part: &Part<'_>,
    changes: &[Line<'_>],
    ran: &Ran,
    is_done: bool,
) -> Result<Setup, Wrong> {
    let Some(mut setup) = given!(audit_of(alloc, parts, ran, is_done)) else {
        return Err(part.rest.wrong(Fault::Audit));
    };
    for line in changes {
        given!(change(alloc, &mut setup, *line));
    }
    Ok(setup)
}

/// What differs of what an audit of this name answered.
pub fn answered(
    alloc: Global,
    name: &str,
    ran: &Ran,
    status: u8,
    line: &str,
) -> Result<Option<String>, AllocError> {
    let text = str::from_utf8(ran.report.as_slice()).unwrap_or("no UTF-8");
    let got = text.strip_suffix('\n').unwrap_or(text);
    let is_alone = ran.written.as_slice().is_empty() && ran.second.as_slice().is_empty();
    if ran.status == status && is_told(line, got) && is_alone {
        return Ok(None);
    }
    let other = ran.status;
    Ok(Some(given!(format!(in alloc;
        "audit {name}: status {other}, {got}\n    wanted: {status}, {line}"
    ))))
}

/// What differs of what an audit answered of which a line says what it has to: `answers 13 LINE`.
pub fn answer_difference(
    alloc: Global,
    name: &str,
    ran: &Ran,
    wanted: Line<'_>,
) -> Result<Option<String>, Wrong> {
    let Some(answer) = wanted.text.strip_prefix("answers ") else {
        return Err(wanted.wrong(Fault::Line));
    };
    let (status, line) = first_word(answer);
    let status = given!(number::<u8>(wanted.part(status)));
    let line = given!(expanded(alloc, wanted.part(line)));
    Ok(given!(
        answered(alloc, name, ran, status, line.as_str()),
        Wrong::from(AllocError)
    ))
}
