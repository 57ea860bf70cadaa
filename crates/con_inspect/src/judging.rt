//! What is found of the bytes of four files.

ghost use Rattle.std.specs.Prelude.{◌≡◌, ◌≤◌, ◌++◌, [], ◌∷◌, length, replicate, Ok, IfOk, IfErr};
ghost use Rattle.con_events.specs.Session.{Clients};
ghost use Rattle.con_document.specs.Document.{IsDocument};
ghost use Rattle.con_trace.specs.Report.{IsReport};
ghost use Rattle.con_ending.specs.Words.Files.{Misread};
ghost use Rattle.con_inspect.specs.Finding.{kinds, Finds};

use crate::files::Contents;
use crate::finding::Finding;
use con_audit::audit;
use con_ending::{Unrun, session_in};
use con_events::Session;
use con_trace::{Trace, TraceFault, read};
use con_units::{Bytes, OutOfMemory};
use std::alloc::Global;

// The kinds of the handlers in a client's rack.
fn rack(alloc: Global) -> Result<Bytes, OutOfMemory>
    ensures { IfOk result (λ rack. rack ≡ kinds) }
{
    match vec![in alloc; 1, 2, 3, 4] {
        Ok(rack) => Ok(Bytes(rack)),
        Err(_) => Err(OutOfMemory),
    }
}

// One more rack.
fn push_rack(alloc: Global, racks: &mut Vec<Bytes>) -> Result<(), OutOfMemory>
    ensures { IfOk result (λ _. racks.new.items ≡ racks.old.items ++ kinds ∷ []) }
{
    let Ok(rack) = rack(alloc) else {
        return Err(OutOfMemory);
    };
    match racks.push(rack) {
        Ok(()) => Ok(()),
        Err(_) => Err(OutOfMemory),
    }
}

// A rack for each of so many clients.
fn racks_of(alloc: Global, count: usize) -> Result<Vec<Bytes>, OutOfMemory>
    ensures { IfOk result (λ racks. racks.items ≡ replicate count kinds) }
{
    let mut racks = Vec::new(alloc);
    for _client in 0..count {
        if push_rack(alloc, &mut racks).is_err() {
            return Err(OutOfMemory);
        }
    }
    Ok(racks)
}

// What the audit of a report with status 0 finds.
fn audited(
    alloc: Global,
    session: &Session,
    contents: &Contents,
    trace: &Trace,
) -> Result<Finding, OutOfMemory>
    requires report { IsReport contents.now.report trace.now }
    requires done { trace.now.status ≡ 0 }
    requires few { length contents.now.link ≤ 16777216 }
    ensures { IfOk result (Finds session.now contents.now) }
{
    let Ok(racks) = racks_of(alloc, session.scripts().len()) else {
        return Err(OutOfMemory);
    };
    let verdict = audit(
        alloc,
        session,
        racks.as_slice(),
        contents.link.as_slice(),
        contents.stream.as_slice(),
        trace.entries.0.as_slice(),
        trace.replies.0.as_slice(),
        trace.ends.0.as_slice(),
    );
    match verdict {
        Ok(verdict) => Ok(Finding::Audited(verdict)),
        Err(_) => Err(OutOfMemory),
    }
}

// What is found of a report.
fn traced(
    alloc: Global,
    session: &Session,
    contents: &Contents,
    trace: &Trace,
) -> Result<Finding, OutOfMemory>
    requires report { IsReport contents.now.report trace.now }
    requires few { length contents.now.link ≤ 16777216 }
    ensures { IfOk result (Finds session.now contents.now) }
{
    if trace.status != 0 {
        return Ok(Finding::OtherStatus(trace.entries.0.len() as u64));
    }
    audited(alloc, session, contents, trace)
}

// What is found of the bytes of a session's report, and of the other files.
fn found(alloc: Global, session: &Session, contents: &Contents) -> Result<Finding, OutOfMemory>
    requires few { length contents.now.link ≤ 16777216 }
    ensures { IfOk result (Finds session.now contents.now) }
{
    match read(alloc, contents.report.as_slice()) {
        Ok(trace) => traced(alloc, session, contents, &trace),
        Err(TraceFault::Line(place)) => Ok(Finding::WrongLine(place)),
        Err(TraceFault::OutOfMemory) => Err(OutOfMemory),
    }
}

/// What is found of the bytes of four files, or why the first is no session's document.
pub fn judge(alloc: Global, contents: &Contents) -> Result<Finding, Unrun>
    requires few { length contents.now.link ≤ 16777216 }
    ensures found { IfOk result (λ f. (session : Clients) × IsDocument contents.now.session (Ok session) × Finds session contents.now f) }
    ensures told { IfErr result (Misread contents.now.session) }
{
    let session = given!(session_in(alloc, contents.session.as_slice()));
    match found(alloc, &session, contents) {
        Ok(finding) => Ok(finding),
        Err(OutOfMemory) => Err(Unrun::OutOfMemory),
    }
}
