//! The four files of an audit.

ghost use Rattle.std.specs.Prelude.{◌≡◌, ◌≤◌, [], IfOk, IfErr};
ghost use Rattle.con_outside.specs.Outside.{Rose};
ghost use Rattle.con_inspect.specs.Four.{four_of, AreFiles};
ghost use Rattle.con_inspect.specs.Words.Four.{Barred, Explains, IsRead};

use con_ending::Unrun;
use con_outside::{Fault, Files, Found};
use con_trace::EndLine;
use std::alloc::Global;
use std::marker::Model;

/// The bytes of four files.
#[derive(Drop)]
pub struct Contents {
    pub session: Vec<u8>,
    pub link: Vec<u8>,
    pub stream: Vec<u8>,
    pub report: Vec<u8>,
}

impl Model for Contents {
    ghost use Rattle.con_inspect.specs.Four.{Four, four_of};

    ghost Value = { Four };

    ghost view = { λ c. four_of c.session.items c.link.items c.stream.items c.report.items };
}

// Reads a file into the empty `out`, and answers whether this is all of it: else it is too long.
fn fill<F: Files>(name: &str, files: &mut F, out: &mut Vec<u8>) -> Result<bool, Unrun>
    requires { out.old.items ≡ [] }
    ensures read { IfOk result (IsRead (F.files files.old) name.now out.new.items) }
    ensures told { IfErr result (Explains (F.files files.old) name.now (Rose (F.faults files.old) (F.faults files.new))) }
    ensures same { F.files files.new ≡ F.files files.old }
    ensures never_falls { F.faults files.old ≤ F.faults files.new }
{
    match files.read_all(name, out) {
        Ok(Found::Whole) => Ok(true),
        Ok(Found::TooLong) => Ok(false),
        Ok(Found::Missing) => Err(Unrun::Told(EndLine::Word(7, "missing"))),
        Err(Fault::Failed) => Err(Unrun::Told(EndLine::Word(7, "failed"))),
        Err(Fault::OutOfMemory) => Err(Unrun::OutOfMemory),
    }
}

/// The bytes of the files of these names, read in this order. A file that is missing comes before one that is too long.
pub fn read_files<F: Files>(
    alloc: Global,
    session: &str,
    link: &str,
    stream: &str,
    report: &str,
    files: &mut F,
) -> Result<Contents, Unrun>
    ensures whole { IfOk result (AreFiles (F.files files.old) (four_of session.now link.now stream.now report.now)) }
    ensures told { IfErr result (Barred (F.files files.old) (four_of session.now link.now stream.now report.now)
        (Rose (F.faults files.old) (F.faults files.new))) }
    ensures never_falls { F.faults files.old ≤ F.faults files.new }
{
    let mut session_bytes = Vec::new(alloc);
    let mut link_bytes = Vec::new(alloc);
    let mut stream_bytes = Vec::new(alloc);
    let mut report_bytes = Vec::new(alloc);
    let has_session = given!(fill(session, files, &mut session_bytes));
    let has_link = given!(fill(link, files, &mut link_bytes));
    let has_stream = given!(fill(stream, files, &mut stream_bytes));
    let has_report = given!(fill(report, files, &mut report_bytes));
    if has_session && has_link && has_stream && has_report {
        Ok(Contents {
            session: session_bytes,
            link: link_bytes,
            stream: stream_bytes,
            report: report_bytes,
        })
    } else {
        Err(Unrun::Told(EndLine::Word(3, "length")))
    }
}
