// What a read answers.
use con_records::Taken;
use con_units::{Code, Units};

/// What a read that is done answers.
#[derive(Drop)]
pub enum Answer {
    /// The units of a line or of a read of units (`ReadConsole`).
    Units(Units),
    /// The records of a read of records (`ReadConsoleInput`).
    Records(Taken),
    /// Why it ended without: `Aborted` by ctrl+C, `Closed` with the console.
    Fail(Code),
}
