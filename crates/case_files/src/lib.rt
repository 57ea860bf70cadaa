//! What a case is written of, and what comes of it beside what it wants, for the program `cases`, which runs them: all that knows neither the
//! console nor its host.
//!
//! A case: the lines and parts of a file of cases (`part`), its strings (`strings`), what it runs (`setup`), what its wanted lines stand for
//! (`expanding`), and the rules (`rule`) of the order in which steps, a terminal and a link come (`order`, `ends`).
#![tactic(auto)]

/// What a call gave. Where it gave a fault, the function ends with that fault, or with the one that stands behind the call. A `?` calls two more
/// functions, to be proved at each such call.
macro_rules! given {
    ($call:expr) => {
        match $call {
            Ok(value) => value,
            Err(fault) => return Err(fault),
        }
    };
    ($call:expr, $fault:expr) => {
        match $call {
            Ok(value) => value,
            Err(_) => return Err($fault),
        }
    };
}

pub mod auditing;
pub mod came;
pub mod cells;
pub mod changing;
pub mod comparing;
pub mod ends;
pub mod expanding;
pub mod order;
pub mod part;
pub mod picture;
pub mod ran;
pub mod reading;
pub mod rule;
pub mod setup;
pub mod start;
pub mod strings;
