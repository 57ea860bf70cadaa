//! A console at the beginning of a session.
ghost use Rattle.std.specs.Prelude.{◌≡◌, ℕ, ◌+◌, ◌<◌, ◌≤◌, ◌++◌, [], length, IfOk, OnOk, slice_index_or};
ghost use Rattle.con_handles.specs.Tables.{IsTable};
ghost use Rattle.con_machine.specs.State.{opening, starts_of, handles_from};
ghost use Rattle.con_machine.specs.Words.State.{first_handles, start_of};
ghost use Rattle.con_machine.specs.Opened.{AreBefore, opened_ones};

use crate::parts::Parts;
use crate::reads::notes::Notes;
use crate::reads::rests::Rests;
use crate::title::Title;
use con_alias::Aliases;
use con_events::{Script, Session};
use con_handles::{Handles, Object};
use con_history::Histories;
use con_mouse::Buttons;
use con_procs::{ProcStart, Procs};
use con_readers::Readers;
use con_records::Records;
use con_screens::Screens;
use con_units::{BufferId, OutOfMemory};
use con_vtin::KeyReader;
use std::alloc::Global;

/// The input mode of a new console: processed input, lines, echo and insert, and the mouse.
const FIRST_MODE: u32 = 0x0037;

// How many handlers a client's rack has; none where there is no rack.
fn rack_of(racks: &[u8], i: usize) -> u8
    ensures { result ≡ slice_index_or racks.now i 0 }
{
    if i < racks.len() { racks[i] } else { 0 }
}

fn start_of(script: &Script, rack: u8) -> Result<ProcStart, OutOfMemory>
    ensures { IfOk result (λ s. s ≡ start_of script.now rack) }
{
    Ok(ProcStart {
        program: script.program.copied()?,
        group: script.group,
        rack,
    })
}

// How the clients' processes start.
fn starts_of(alloc: Global, scripts: &[Script], racks: &[u8]) -> Result<Vec<ProcStart>, OutOfMemory>
    ensures { IfOk result (λ starts. starts.items ≡ starts_of scripts.now racks.now) }
{
    let Ok(mut starts) = Vec::with_capacity(alloc, scripts.len()) else {
        return Err(OutOfMemory);
    };
    for i in 0..scripts.len() {
        let start = start_of(&scripts[i], rack_of(racks, i))?;
        starts.push_reserved(start);
    }
    Ok(starts)
}

// A handle more of a process, with all rights.
fn open_one(handles: &mut Handles, p: u8, object: Object) -> Result<(), OutOfMemory>
    ensures open { OnOk result (handles.new.open_ones ≡ opened_ones p object handles.old.open_ones) }
    ensures table { IsTable handles.new.open_ones }
{
    handles.reserve()?;
    // Where the process has all its handles there is none more, as in `opened_ones`.
    let _ = handles.open(p, object, 3);
    Ok(())
}

// The standard handles of a process, the others having handles of processes before it alone.
fn open_first(handles: &mut Handles, p: u8) -> Result<(), OutOfMemory>
    requires before { AreBefore p handles.old.open_ones }
    ensures open { OnOk result (handles.new.open_ones ≡ handles.old.open_ones ++ first_handles p) }
    ensures table { IsTable handles.new.open_ones }
{
    open_one(handles, p, Object::Input)?;
    open_one(handles, p, Object::Output(BufferId(0)))?;
    open_one(handles, p, Object::Output(BufferId(0)))
}

// The standard handles of each client.
fn open_all(alloc: Global, scripts: &[Script]) -> Result<Handles, OutOfMemory>
    requires { length scripts.now ≤ 64 }
    ensures open { IfOk result (λ h. h.open_ones ≡ handles_from 1 scripts.now) }
    ensures table { IfOk result (λ h. IsTable h.open_ones) }
{
    let mut handles = Handles::new(alloc);
    for i in 0..scripts.len() {
        open_first(&mut handles, i as u8 + 1)?;
    }
    Ok(handles)
}

impl Parts {
    /// The console of a session whose clients have just started, with racks of so many handlers; a missing rack has none.
    pub fn new(alloc: Global, session: &Session, racks: &[u8]) -> Result<Parts, OutOfMemory>
        ensures state { IfOk result (λ c. c.state ≡ opening session.now racks.now) }
    {
        let scripts = session.scripts();
        let starts = starts_of(alloc, scripts, racks)?;
        let procs = Procs::new(alloc, starts.as_slice())?;
        let handles = open_all(alloc, scripts)?;
        let screens = Screens::new(alloc, session.size())?;
        let histories = Histories::new(alloc)?;
        let title = Title::new(alloc)?;
        Ok(Parts {
            handles,
            procs,
            readers: Readers::new(alloc),
            notes: Notes::new(alloc),
            rests: Rests::new(alloc),
            records: Records::new(alloc),
            screens,
            histories,
            aliases: Aliases::new(alloc),
            keys: KeyReader::new(),
            buttons: Buttons::new(),
            mode: FIRST_MODE,
            cursor_keys: false,
            title,
            drained: false,
            closed: false,
            painted: None,
            resized: false,
            asked: false,
            seen: None,
        })
    }
}
