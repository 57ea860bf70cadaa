//! Callers that use each clause with bytes and numbers that they do not know.

ghost use Rattle.std.specs.Prelude.{◌≡◌, ◌↔◌, ℕ, List, IsTrue, Some, None, Ok, Err, IfOk, IfSome, IsSome, length};
ghost use Rattle.con_events.specs.Session.{Clients};
ghost use Rattle.con_document.specs.Document.{IsDocument, json_of};
ghost use Rattle.con_document.specs.Units.{text_units};
ghost use Rattle.con_script.specs.Generated.{session_drawn};

use con_script::{SessionFault, generated, read_session};
use con_units::{OutOfMemory, Units};
use std::alloc::Global;

/// Whether bytes are JSON.
pub fn is_json(alloc: Global, bytes: &[u8]) -> Result<bool, OutOfMemory>
    ensures { IfOk result (λ yes. IsTrue yes ↔ IsSome (json_of bytes.now)) }
{
    match read_session(alloc, bytes) {
        Ok(_session) => Ok(true),
        Err(SessionFault::At(_path)) => Ok(true),
        Err(SessionFault::Json) => Ok(false),
        Err(SessionFault::OutOfMemory) => Err(OutOfMemory),
    }
}

/// The path of the first fault of bytes that are JSON.
pub fn fault(alloc: Global, bytes: &[u8]) -> Result<Option<Units>, OutOfMemory>
    ensures { IfOk result (λ found. IfSome found (λ text. (at : List ℕ) × IsDocument bytes.now (Err at) × (text ≡ text_units at))) }
{
    match read_session(alloc, bytes) {
        Err(SessionFault::At(path)) => Ok(Some(path)),
        Err(SessionFault::OutOfMemory) => Err(OutOfMemory),
        _ => Ok(None),
    }
}

/// How many clients a document has that is a session.
pub fn count(alloc: Global, bytes: &[u8]) -> Result<Option<usize>, OutOfMemory>
    ensures { IfOk result (λ found. IfSome found (λ n. (c : Clients) × IsDocument bytes.now (Ok c) × (n ≡ length c.scripts))) }
{
    match read_session(alloc, bytes) {
        Ok(session) => Ok(Some(session.scripts().len())),
        Err(SessionFault::OutOfMemory) => Err(OutOfMemory),
        _ => Ok(None),
    }
}

/// How many clients the session of a number has.
pub fn drawn_clients(alloc: Global, seed: u32) -> Result<usize, OutOfMemory>
    ensures { IfOk result (λ n. n ≡ 4) }
{
    Ok(generated(alloc, seed)?.scripts().len())
}
