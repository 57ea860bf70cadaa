//! Room that is made before a call that takes no memory.
ghost use Rattle.std.specs.Prelude.{◌≡◌, [], IfOk};

use crate::history::History;
use crate::kept::Kept;
use circular_buffer::HeapCircularBuffer;
use con_units::OutOfMemory;
use std::alloc::Global;
use std::marker::Model;

/// Room for [`Histories::use_of`](crate::Histories::use_of): an empty history, where the program has none.
pub struct HistoryRoom {
    pub(crate) fresh: Option<History>,
}

impl Model for HistoryRoom {
    ghost use Rattle.std.specs.Prelude.{Option};
    ghost use Rattle.con_history.specs.Histories.{ProgramLines};

    ghost Value = { Option ProgramLines };

    ghost view = { λ room. room.fresh };
}

// By hand, so that what drops one has this call in its proof, and not all that lies in one.
impl Drop for HistoryRoom {
    fn drop(self) {
        let HistoryRoom { fresh: _ } = self;
    }
}

impl HistoryRoom {
    /// The history itself.
    pub(crate) fn into_fresh(self) -> Option<History>
        ensures { result ≡ self }
    {
        let HistoryRoom { fresh } = self;
        fresh
    }
}

/// An empty buffer for lines. Contracts see how many fit.
pub struct EmptyLines {
    lines: HeapCircularBuffer<Kept>,
}

impl Model for EmptyLines {
    ghost use Rattle.std.specs.Prelude.{ℕ, ◌≡◌, []};

    ghost Value = { ℕ };

    ghost view = { λ empty. empty.lines.capacity };

    ghost invariant = { λ empty. empty.lines.items ≡ [] };
}

// By hand, so that what drops one has this call in its proof, and not all that lies in one.
impl Drop for EmptyLines {
    fn drop(self) {
        let EmptyLines { lines: _ } = self;
    }
}

impl EmptyLines {
    /// Memory for so many lines.
    pub fn new(alloc: Global, limit: usize) -> Result<EmptyLines, OutOfMemory>
        ensures { IfOk result (λ empty. empty ≡ limit) }
    {
        match HeapCircularBuffer::with_capacity(alloc, limit) {
            Ok(lines) => Ok(EmptyLines { lines }),
            Err(_) => Err(OutOfMemory),
        }
    }

    /// The buffer itself.
    pub fn into_lines(self) -> HeapCircularBuffer<Kept>
        ensures empty { result.items ≡ [] }
        ensures capacity { result.capacity ≡ self }
    {
        let EmptyLines { lines } = self;
        lines
    }
}

/// Room for [`Histories::configure`](crate::Histories::configure): a buffer of the new capacity for each history that stays.
pub struct ConfigRoom {
    pub(crate) buffers: Vec<EmptyLines>,
}

impl Model for ConfigRoom {
    ghost use Rattle.std.specs.Prelude.{List, ℕ};

    ghost Value = { List ℕ };

    ghost view = { λ room. room.buffers.items };
}

// By hand, so that what drops one has this call in its proof, and not all that lies in one.
impl Drop for ConfigRoom {
    fn drop(self) {
        let ConfigRoom { buffers: _ } = self;
    }
}
