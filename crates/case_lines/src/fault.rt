//! What is wrong with a file of cases.
use con_units::OutOfMemory;
use std::alloc::{AllocError, AllocFailed};
use std::fmt;

/// What is wrong with a line.
#[derive(Clone, Copy, PartialEq, Eq, Drop)]
pub enum Fault {
    /// There was no memory for what it stands for.
    Memory,
    /// A case does not begin with its name and what is run.
    Case,
    /// No part is headed so.
    Head,
    /// No line of its part is written so.
    Line,
    /// No string is written so.
    String,
    /// A number that is none, or too large.
    Number,
    /// A size that no terminal has.
    Size,
    /// What a case leaves that is no session with status 0 cannot be audited.
    Audit,
}

impl fmt::Display for Fault {
    fn fmt<W: fmt::Write>(&self, f: &mut fmt::Formatter<W>) -> fmt::Result {
        let text = match self {
            Fault::Memory => "out of memory",
            Fault::Case => "a case begins with its name and what is run",
            Fault::Head => "no part is headed so",
            Fault::Line => "no line of this part",
            Fault::String => "no string",
            Fault::Number => "no number",
            Fault::Size => "no size of a terminal",
            Fault::Audit => "only a session with status 0 is audited",
        };
        write!(f, "{text}")
    }
}

/// A line, counted from 1, and what is wrong with it. Want of memory is nobody's line, 0.
#[derive(Clone, Copy, PartialEq, Eq, Drop)]
pub struct Wrong {
    pub line: usize,
    pub fault: Fault,
}

impl From<AllocError> for Wrong {
    fn from(_error: AllocError) -> Wrong {
        Wrong {
            line: 0,
            fault: Fault::Memory,
        }
    }
}

impl<T: Drop> From<AllocFailed<T>> for Wrong {
    fn from(_error: AllocFailed<T>) -> Wrong {
        Wrong {
            line: 0,
            fault: Fault::Memory,
        }
    }
}

impl From<OutOfMemory> for Wrong {
    fn from(_error: OutOfMemory) -> Wrong {
        Wrong {
            line: 0,
            fault: Fault::Memory,
        }
    }
}
