//! A line of a file of cases.
use crate::fault::{Fault, Wrong};

/// A line of a file, with its number, counted from 1.
#[derive(Clone, Copy)]
pub struct Line<'a> {
    pub number: usize,
    pub text: &'a str,
}

impl<'a> Line<'a> {
    /// That something is wrong with this line.
    pub fn wrong(&self, fault: Fault) -> Wrong {
        Wrong {
            line: self.number,
            fault,
        }
    }

    /// A part of this line.
    pub fn part(&self, text: &'a str) -> Line<'a> {
        Line {
            number: self.number,
            text,
        }
    }
}
