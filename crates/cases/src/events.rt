//! Events are entered on a new console, one after another.
ghost use Rattle.std.specs.Prelude.{◌≡◌, true, false, IfOk, IfErr, IfSome};
ghost use Rattle.con_machine.specs.Marks.{told, Tells};
ghost use Rattle.con_machine.specs.Step.{is_clients, is_ready, step};

use case_files::comparing::lines_difference;
use case_files::part::{Head, Part, only};
use case_files::picture::push_picture;
use case_files::reading::reported;
use case_files::start::{Start, wanted_at};
use case_lines::fault::{Fault, Wrong};
use case_lines::line::Line;
use case_lines::wanted::{Wanted, Way};
use con_console::Console;
use con_events::{Entry, Event, Reply, Script, Scripts, Session, Steps};
use con_outside::SureSink;
use con_trace::{Trace, TraceFault, read, write_entry};
use con_units::{Bytes, OutOfMemory, Units};
use std::alloc::{AllocError, Global};

/// What stands before an event that is not ready.
const UNREADY: &str = "not ready ";

/// The lines of the events with the console's answers, and the pictures.
#[derive(Drop)]
struct Answers {
    lines: SureSink,
    pictures: String,
}

// The script of a client that calls nothing.
fn script(alloc: Global, client: u8) -> Result<Script, AllocError> {
    let program = given!(
        Vec::from_slice(alloc, &[0x61 + u16::from(client)]),
        AllocError
    );
    Ok(Script {
        program: Units(program),
        group: u32::from(client) + 1,
        steps: Steps(Vec::new(alloc)),
    })
}

// The scripts of so many clients.
fn scripts(alloc: Global, clients: u8) -> Result<Scripts, AllocError> {
    let mut scripts = Vec::new(alloc);
    for client in 0..clients {
        let script = given!(script(alloc, client));
        given!(scripts.push(script), AllocError);
    }
    Ok(Scripts(scripts))
}

// A console that starts so; `None` where no session has so many clients.
fn opened(alloc: Global, start: &Start) -> Result<Option<Console>, OutOfMemory> {
    let scripts = given!(scripts(alloc, start.clients), OutOfMemory);
    let Some(session) = Session::new(start.size, scripts) else {
        return Ok(None);
    };
    let console = given!(Console::new(alloc, &session, start.racks.as_slice()));
    Ok(Some(console))
}

// A line of a report as a report of its own.
fn read_line(alloc: Global, line: Line<'_>, text: &str) -> Result<Trace, Wrong> {
    let bytes = given!(reported(alloc, b"", text), Wrong::from(AllocError));
    match read(alloc, bytes.as_slice()) {
        Ok(trace) => Ok(trace),
        Err(TraceFault::Line(_)) => Err(line.wrong(Fault::Line)),
        Err(TraceFault::OutOfMemory) => Err(Wrong::from(OutOfMemory)),
    }
}

// Enters an event where it is ready, once more where there was no memory: the console steps, and the answer is the step's. Else the state
// stays. All that a Collect needs was taken at its Begin.
fn entered(console: &mut Console, entry: &Entry) -> Result<Option<Reply>, OutOfMemory>
    ensures client { IfOk result (λ o. IfSome o (λ r. is_clients entry.now.event ≡ true
        → r ≡ (step console.old.state entry.now.actor entry.now.event).reply)) }
    ensures reply { IfOk result (λ o. IfSome o (λ r. told r ≡ (step console.old.state entry.now.actor entry.now.event).reply)) }
    ensures tells { IfOk result (λ o. IfSome o (λ r. Tells console.old.state entry.now.event r)) }
    ensures after { IfOk result (λ o. IfSome o (λ _. console.new.state ≡ (step console.old.state entry.now.actor entry.now.event).after)) }
    ensures memory { IfErr result (λ _. console.new.state ≡ console.old.state) }
    ensures unready { is_ready console.old.state entry.now.actor entry.now.event ≡ false → console.new.state ≡ console.old.state }
{
    if !console.ready(entry.actor, &entry.event) {
        return Ok(None);
    }
    let room = match console.prepare(entry.actor, &entry.event) {
        Ok(room) => room,
        Err(OutOfMemory) => match entry.event {
            Event::Collect => return Ok(None),
            _ => console.prepare(entry.actor, &entry.event)?,
        },
    };
    Ok(Some(console.apply(entry.actor, &entry.event, room)))
}

// Puts an event and its answer last.
fn push_reply(
    alloc: Global,
    came: &mut Answers,
    entry: &Entry,
    reply: &Reply,
) -> Result<(), AllocError> {
    if write_entry(alloc, &mut came.lines, entry, reply, 0).is_err() {
        return Err(AllocError);
    }
    push_picture(alloc, &mut came.pictures, reply)
}

// Puts an event that is not ready last.
fn push_unready(came: &mut Answers, text: &str) -> Result<(), AllocError> {
    let out = &mut came.lines.written.0;
    given!(out.extend_from_slice(UNREADY.as_bytes()));
    given!(out.extend_from_slice(text.as_bytes()));
    given!(out.push(10), AllocError);
    Ok(())
}

// Enters an event that stands in a line so.
fn enter_entry(
    alloc: Global,
    console: &mut Console,
    text: &str,
    entry: &Entry,
    came: &mut Answers,
) -> Result<(), AllocError> {
    match entered(console, entry) {
        Ok(Some(reply)) => push_reply(alloc, came, entry, &reply),
        Ok(None) => push_unready(came, text),
        Err(_) => Err(AllocError),
    }
}

// Enters the event of a line.
fn enter(
    alloc: Global,
    console: &mut Console,
    wanted: &Wanted<'_>,
    came: &mut Answers,
) -> Result<(), Wrong> {
    let text = wanted.text.as_str();
    let text = text.strip_prefix(UNREADY).unwrap_or(text);
    let trace = given!(read_line(alloc, wanted.line, text));
    match trace.entries.0.as_slice().first() {
        Some(entry) => {
            given!(
                enter_entry(alloc, console, text, entry, came),
                Wrong::from(AllocError)
            );
            Ok(())
        }
        None => Err(wanted.line.wrong(Fault::Line)),
    }
}

// Enters the events of lines one after another.
fn enter_all(
    alloc: Global,
    console: &mut Console,
    wanted: &[Wanted<'_>],
    came: &mut Answers,
) -> Result<(), Wrong> {
    for one in wanted {
        given!(enter(alloc, console, one, came));
    }
    Ok(())
}

// Enters the events of lines on a new console.
fn run(
    alloc: Global,
    head: Line<'_>,
    wanted: &[Wanted<'_>],
    came: &mut Answers,
) -> Result<(), Wrong> {
    let start = given!(Start::of(alloc, head));
    match opened(alloc, &start) {
        Ok(Some(console)) => {
            let mut console = console;
            enter_all(alloc, &mut console, wanted, came)
        }
        Ok(None) => Err(head.wrong(Fault::Number)),
        Err(_) => Err(Wrong::from(AllocError)),
    }
}

// What differs of the lines and the pictures that came.
fn came_difference(
    alloc: Global,
    wanted: &[Wanted<'_>],
    pictures: &[Wanted<'_>],
    came: &Answers,
) -> Result<Option<String>, AllocError> {
    match lines_difference(alloc, Way::Report, wanted, came.lines.written.as_slice()) {
        Ok(None) => lines_difference(alloc, Way::Picture, pictures, came.pictures.as_bytes()),
        told => told,
    }
}

/// What differs where the events of a wanted report are entered on the console that a line says.
pub fn events_difference(
    alloc: Global,
    head: Line<'_>,
    parts: &[Part<'_>],
) -> Result<Option<String>, Wrong> {
    given!(only(parts, &[Head::Report, Head::Pictures, Head::Differs]));
    let wanted = given!(wanted_at(alloc, parts, Head::Report));
    let pictures = given!(wanted_at(alloc, parts, Head::Pictures));
    let mut came = Answers {
        lines: SureSink {
            written: Bytes(Vec::new(alloc)),
        },
        pictures: String::new(alloc),
    };
    given!(run(alloc, head, wanted.as_slice(), &mut came));
    let told = came_difference(alloc, wanted.as_slice(), pictures.as_slice(), &came);
    Ok(given!(told, Wrong::from(AllocError)))
}
