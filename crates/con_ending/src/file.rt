//! The session of a file, or why there is none.

ghost use Rattle.std.specs.Prelude.{◌≤◌, ℕ, List, Ok, IfOk, IfErr};
ghost use Rattle.con_outside.specs.Outside.{Rose};
ghost use Rattle.con_document.specs.Document.{IsDocument};
ghost use Rattle.con_ending.specs.Files.{IsFile};
ghost use Rattle.con_ending.specs.Words.Files.{Explains, Misread};

use con_events::Session;
use con_outside::{Fault, Files, Found};
use con_script::{SessionFault, read_session};
use con_trace::EndLine;
use std::alloc::Global;

/// Why there is no session.
#[derive(Drop)]
pub enum Unrun {
    /// The last line that says why.
    Told(EndLine),
    /// There was no memory.
    OutOfMemory,
}

/// The bytes of the file.
pub fn bytes_of<F: Files>(alloc: Global, name: &str, files: &mut F) -> Result<Vec<u8>, Unrun>
    ensures bytes { IfOk result (λ bytes. IsFile (F.files files.old) name.now bytes.items) }
    ensures told { IfErr result (Explains (F.files files.old) name.now (Rose (F.faults files.old) (F.faults files.new))) }
    ensures never_falls { F.faults files.old ≤ F.faults files.new }
{
    let mut bytes = Vec::new(alloc);
    match files.read_all(name, &mut bytes) {
        Ok(Found::Whole) => Ok(bytes),
        Ok(Found::Missing) => Err(Unrun::Told(EndLine::Word(7, "missing"))),
        Ok(Found::TooLong) => Err(Unrun::Told(EndLine::Word(3, "length"))),
        Err(Fault::Failed) => Err(Unrun::Told(EndLine::Word(7, "failed"))),
        Err(Fault::OutOfMemory) => Err(Unrun::OutOfMemory),
    }
}

/// The session that the bytes of a file are.
#[tactic(auto, using(crate::proofs::FileLemmas::no_json_by, crate::proofs::FileLemmas::no_session_by))]
pub fn session_in(alloc: Global, bytes: &[u8]) -> Result<Session, Unrun>
    ensures session { IfOk result (λ session. IsDocument bytes.now (Ok session)) }
    ensures told { IfErr result (Misread bytes.now) }
{
    match read_session(alloc, bytes) {
        Ok(session) => Ok(session),
        Err(SessionFault::Json) => Err(Unrun::Told(EndLine::Word(3, "json"))),
        Err(SessionFault::At(path)) => Err(Unrun::Told(EndLine::Path(path))),
        Err(SessionFault::OutOfMemory) => Err(Unrun::OutOfMemory),
    }
}

/// The session of the file.
pub fn session_of<F: Files>(alloc: Global, name: &str, files: &mut F) -> Result<Session, Unrun>
    ensures session { IfOk result (λ session. (bytes : List ℕ) × IsFile (F.files files.old) name.now bytes × IsDocument bytes (Ok session)) }
    ensures told { IfErr result (Explains (F.files files.old) name.now (Rose (F.faults files.old) (F.faults files.new))) }
    ensures never_falls { F.faults files.old ≤ F.faults files.new }
{
    match bytes_of(alloc, name, files) {
        Ok(bytes) => session_in(alloc, bytes.as_slice()),
        Err(unrun) => Err(unrun),
    }
}
