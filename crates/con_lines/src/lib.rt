//! How a line of a report is spelled, and how it is read.
//!
//! A [`Line`] is written value by value, in one pass over what is shown, with no tree in between: values (`line`), arguments and records
//! (`shows`), answers (`reply`), who acts and what (`acts`), and what a last line has beside its status (`ending`). What it shows is
//! `specs/Shown`, what each event is answered with `specs/Form`, the line of an event `specs/Line`, the last line `specs/Ending`, and
//! `specs/Fits` says which lines there are.
//!
//! The way back is from a value of the kit's reader of JSON: [`said`](saying::said) gives the event and the answer that a line says,
//! [`ending`](last::ending) the last line that it is (`specs/Told`). Both take a value that may be spelled in another way; whoever reads a
//! report writes what it read again, and compares.
//!
//! Units, words and bytes stand in a line as one text of hexadecimal digits. Never promised: that memory is there.
#![tactic(auto)]

/// What a call gave. Where it gave a fault, the function ends with that fault, as by `?`, which calls two more functions to convert it, to be
/// proved at each such call.
macro_rules! given {
    ($call:expr) => {
        match $call {
            Ok(value) => value,
            Err(fault) => return Err(fault),
        }
    };
}

/// What a call found. Where it found nothing, the function ends with nothing, as by `?`.
macro_rules! found {
    ($call:expr) => {
        match $call {
            Some(value) => value,
            None => return None,
        }
    };
}

pub mod acts;
pub mod answers;
pub mod cursor;
pub mod ending;
pub mod events;
pub mod form;
pub mod hex;
pub mod last;
pub mod line;
pub mod reply;
pub mod said;
pub mod saying;
pub mod shows;
pub mod unhex;

pub use ending::EndLine;
pub use line::Line;
pub use said::{LineRead, Said};
