//! What the console is asked and what it answers, as data alone.
//!
//! An [`Event`] is what an [`Actor`] does in one step: a client's [`Call`], the beginning of a wait ([`Wanted`]) and its
//! end, bytes and sizes from the terminal's side, a picture for the painter. A [`Reply`] is what that step answers. An
//! [`Entry`] is an event with its actor, as a history lists it.
//!
//! A [`Session`] is what clients will do: a window's size and a [`Script`] for each client, within stated limits.
//! [`End`] says why a session ended.
//!
//! [`Numbers`], [`Lines`], [`Steps`], [`Scripts`], [`Entries`], [`Replies`] and [`PieceEnds`] are vectors that contracts see as
//! lists.
//!
//! Calls have a table (`specs/Table`): each call's name, its arguments in order, and the [`Form`] of its answer. [`read_call`] reads a call from
//! whatever gives [`Arguments`], by a name; [`name`] and [`tell`] show one to whatever [`Shows`] arguments. So a document and a
//! report have one table, and what is told is what is read. Input records have a table too (`specs/RecordTable`), read by [`read_record`] and shown by
//! [`tell_record`].
//!
//! Nothing is promised here of what an event does.
#![tactic(auto)]

/// What a call gave. Where it gave a fault, the function ends with that fault, as by `?`, which calls two more functions to convert it: their
/// proof cost more than all else here.
macro_rules! given {
    ($call:expr) => {
        match $call {
            Ok(value) => value,
            Err(fault) => return Err(fault),
        }
    };
}

pub mod actor;
pub mod args;
pub mod arguments;
pub mod call;
pub mod end;
pub mod entry;
pub mod event;
pub mod form;
pub mod history;
mod names;
pub mod reading;
pub mod recording;
pub mod reply;
pub mod script;
pub mod session;
pub mod telling;

pub use actor::Actor;
pub use args::{Args, arguments_of};
pub use arguments::{Arguments, Misread};
pub use call::{Call, Words};
pub use end::End;
pub use entry::Entry;
pub use event::{Event, Wanted};
pub use form::Form;
pub use history::{Entries, PieceEnds, Replies};
pub use reading::{read_call, whole_call};
pub use recording::{read_record, record_name, tell_record, whole_record};
pub use reply::{Lines, Numbers, Reply};
pub use script::{Script, Scripts, Step, Steps};
pub use session::Session;
pub use telling::{Shows, name, tell};
