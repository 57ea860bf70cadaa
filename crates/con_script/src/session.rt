//! Reading a session.

ghost use Rattle.std.specs.Prelude.{◌≡◌, ◌<◌, ℕ, List, None, Ok, Err, IfOk, IfErr, codes, option_map};
ghost use Rattle.serde_json.specs.View.{view, items_view};
ghost use Rattle.con_document.specs.Session.{key_of, or_fault, member_at, size_items, size_in, between};
ghost use Rattle.con_document.specs.Session.{as_where, keys_spot, top_keys, version_in, client_at, clients_in, each_from, path, session_in};
ghost use Rattle.con_document.specs.Document.{IsDocument, json_of};
ghost use Rattle.con_document.specs.Steps.{step_in};
ghost use Rattle.con_document.specs.Units.{text_units};
ghost use Rattle.con_script.specs.Places.{Answers, StopsAt, KeepsAll, IsJson, IsAt, stands};

use crate::client::script;
use crate::keys::{array_at, check_keys};
use crate::place::{Halt, Place, SessionFault, Site, Stop};
use crate::text::units_of;
use crate::version::{most_clients_of, read_version};
use con_document::Version;
use con_events::{Script, Scripts, Session};
use con_units::{OutOfMemory, Size, Units};
use serde_json::Value;
use std::alloc::Global;

/// A refusal at a key.
fn stop_at(alloc: Global, key: &str) -> Stop
    ensures { StopsAt key.now result }
{
    match String::from_str(alloc, key) {
        Ok(key) => Stop::At(Site::Key(key)),
        Err(_) => Stop::OutOfMemory,
    }
}

fn check_top(alloc: Global, value: &Value) -> Result<(), Stop>
    ensures { KeepsAll result (option_map as_where (keys_spot top_keys (view value.now))) }
{
    let keys = ["version", "size", "clients"];
    match check_keys(alloc, value, &keys) {
        Ok(()) => Ok(()),
        Err(Halt::At(Place::Key(key))) => Err(Stop::At(Site::Key(key))),
        Err(Halt::At(_)) => Err(Stop::At(Site::All)),
        Err(Halt::OutOfMemory) => Err(Stop::OutOfMemory),
    }
}

fn version_at(alloc: Global, value: &Value) -> Result<Version, Stop>
    ensures { Answers result (or_fault (key_of (codes "version")) (version_in (member_at (codes "version") (view value.now)))) }
{
    let found = match value.get("version") {
        Some(member) => read_version(member),
        None => None,
    };
    match found {
        Some(version) => Ok(version),
        None => Err(stop_at(alloc, "version")),
    }
}

fn side(value: &Value, most: u64) -> Option<u16>
    requires { most < 65536 }
    ensures { result ≡ between 1 most (view value.now) }
{
    match value.as_u64() {
        Some(n) if 1 <= n && n <= most => Some(n as u16),
        _ => None,
    }
}

fn size_of(items: &[Value]) -> Option<Size>
    ensures { result ≡ size_items (items_view items.now) }
{
    match items {
        [w, h] => Some(Size {
            w: side(w, 512)?,
            h: side(h, 256)?,
        }),
        _ => None,
    }
}

fn size(value: &Value) -> Option<Size>
    ensures { result ≡ size_in (member_at (codes "size") (view value.now)) }
{
    size_of(value.get("size")?.as_array()?.as_slice())
}

fn size_at(alloc: Global, value: &Value) -> Result<Size, Stop>
    ensures { Answers result (or_fault (key_of (codes "size")) (size_in (member_at (codes "size") (view value.now)))) }
{
    match size(value) {
        Some(size) => Ok(size),
        None => Err(stop_at(alloc, "size")),
    }
}

fn client(alloc: Global, version: Version, i: usize, value: &Value) -> Result<Script, Stop>
    ensures { Answers result (client_at (step_in version) i (view value.now)) }
{
    match script(alloc, version, value) {
        Ok(script) => Ok(script),
        Err(Halt::At(place)) => Err(Stop::At(Site::Client(i, place))),
        Err(Halt::OutOfMemory) => Err(Stop::OutOfMemory),
    }
}

fn scripts_of(alloc: Global, version: Version, items: &[Value]) -> Result<Scripts, Stop>
    ensures { Answers result (each_from (client_at (step_in version)) 0 (items_view items.now)) }
{
    let mut scripts = Vec::new(alloc);
    for (i, item) in items.iter().enumerate() {
        match client(alloc, version, i, item) {
            Ok(script) => {
                let Ok(()) = scripts.push(script) else {
                    return Err(Stop::OutOfMemory);
                };
            }
            Err(stop) => return Err(stop),
        }
    }
    Ok(Scripts(scripts))
}

#[tactic(auto, unfolding(con_document::specs::Session::clients_in))]
fn clients(alloc: Global, version: Version, value: &Value) -> Result<Scripts, Stop>
    ensures { Answers result (clients_in step_in version (member_at (codes "clients") (view value.now))) }
{
    match array_at(value, "clients", 1, most_clients_of(version)) {
        Some(items) => scripts_of(alloc, version, items),
        None => Err(stop_at(alloc, "clients")),
    }
}

/// The session that a value of JSON is.
fn session(alloc: Global, value: &Value) -> Result<Session, Stop>
    ensures { Answers result (session_in step_in (view value.now)) }
{
    check_top(alloc, value)?;
    let version = version_at(alloc, value)?;
    let size = size_at(alloc, value)?;
    let scripts = clients(alloc, version, value)?;
    match Session::new(size, scripts) {
        Some(session) => Ok(session),
        None => Err(stop_at(alloc, "clients")),
    }
}

/// The path of a place.
fn path_of(alloc: Global, site: Site) -> Result<Units, OutOfMemory>
    ensures { IfOk result (λ us. us ≡ path (stands site)) }
{
    let text = match site {
        Site::All => Ok(String::new(alloc)),
        Site::Key(key) => Ok(key),
        Site::Client(i, Place::Whole) => format!(in alloc; "clients[{i}]"),
        Site::Client(i, Place::Key(key)) => format!(in alloc; "clients[{i}].{key}"),
        Site::Client(i, Place::Call(j)) => format!(in alloc; "clients[{i}].calls[{j}]"),
    };
    match text {
        Ok(text) => units_of(alloc, text.as_str()),
        Err(_) => Err(OutOfMemory),
    }
}

/// The session that a document is.
///
/// `Json` where the bytes are no value of JSON in UTF-8, nested to depth 127; `At` where the value is no session, with the path
/// of its first fault. Of equal keys in one object the last one holds.
pub fn read_session(alloc: Global, bytes: &[u8]) -> Result<Session, SessionFault>
    ensures ok { IfOk result (λ s. IsDocument bytes.now (Ok s)) }
    ensures json { IfErr result (λ e. IsJson e (json_of bytes.now ≡ None)) }
    ensures at { IfErr result (λ e. IsAt e (λ text. (at : List ℕ) × IsDocument bytes.now (Err at) × (text ≡ text_units at))) }
{
    let value = match Value::from_slice(alloc, bytes) {
        Ok(value) => value,
        Err(error) if error.is_memory() => return Err(SessionFault::OutOfMemory),
        Err(_) => return Err(SessionFault::Json),
    };
    match session(alloc, &value) {
        Ok(session) => Ok(session),
        Err(Stop::At(site)) => match path_of(alloc, site) {
            Ok(path) => Err(SessionFault::At(path)),
            Err(_) => Err(SessionFault::OutOfMemory),
        },
        Err(Stop::OutOfMemory) => Err(SessionFault::OutOfMemory),
    }
}
