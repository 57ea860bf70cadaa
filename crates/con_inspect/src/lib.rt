//! The audit of a finished run, over four files: a session's document, a link, the stream of a terminal, and a report.
//!
//! - [`host_audit`] reads them by name, writes the one line that tells what was found, and answers a status: 0 where they are a run, 13 where
//!   they are none, 7 where a file is missing or was not read, 3 where one is too long or the document is no session, 6 where the line of a run could not
//!   be written, 9 where there was no memory.
//! - [`read_files`] has the bytes of the files ([`Contents`]), or why there is nothing to audit; [`judge`] what is found of them ([`Finding`]).
//!   [`one_judgement`] is the law that told files determine what status is answered.
//!
//! In `specs/`, `Four` says of files by name why there is nothing to audit, `Finding` what is found of their bytes, with con_audit's verdict, and
//! `Auditing` how it all ends: with status 0 the bytes of the files are a run.
//!
//! Never promised: that there is memory, what real files hold, and that every run is audited with yes.
#![tactic(auto)]

/// What a call gave. Where it gave no value, the function ends with what it told, as by `?`, without the two calls that convert it.
macro_rules! given {
    ($call:expr) => {
        match $call {
            Ok(value) => value,
            Err(why) => return Err(why),
        }
    };
}

pub mod auditing;
pub mod files;
pub mod finding;
pub mod judging;
pub mod laws;

pub use auditing::host_audit;
pub use files::{Contents, read_files};
pub use finding::Finding;
pub use judging::judge;
pub use laws::one_judgement;
