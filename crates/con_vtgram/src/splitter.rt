//! A splitter that contracts see as its unfinished text.
ghost use Rattle.std.specs.Prelude.{◌≡◌, ◌≢◌, [], map, option_to_list, IfOk, length, ◌≤◌, true, false};
ghost use Rattle.con_units.specs.Split.{next};
ghost use Rattle.con_vtgram.specs.Spoken.{spoken, spoken_by};
ghost use Rattle.con_vtgram.specs.Text.{grammar};
ghost use Rattle.con_vtgram.specs.State.{item_of};
ghost use Rattle.con_vtgram.specs.Few.{AreFew};

use crate::automaton::{Phase, Sequence, step};
use crate::found::Found;
use crate::item::{Csi, Item};
use con_units::{OutOfMemory, Past};
use std::alloc::Global;
use std::marker::Model;

/// A splitter. Contracts see it as the units that are no item yet, of which it keeps a title's alone, the text of the last
/// title, and the last control sequence.
#[derive(Drop)]
pub struct Splitter {
    phase: Phase,
    sequence: Sequence,
    past: Past<u16>,
    title: Vec<u16>,
}

impl Model for Splitter {
    ghost use Rattle.con_vtgram.specs.Reads.{Reader};

    ghost Value = { Reader };

    ghost use Rattle.con_vtgram.specs.Reader.{reader_of, IsReader};

    ghost view = { reader_of };

    ghost invariant = { IsReader };
}

impl Splitter {
    /// A splitter with no unfinished text, and room for a title.
    pub fn new(alloc: Global) -> Result<Splitter, OutOfMemory>
        ensures tail { IfOk result (λ s. s.tail ≡ []) }
        ensures title { IfOk result (λ s. s.title ≡ []) }
    {
        let Ok(title) = Vec::with_capacity(alloc, 255) else {
            return Err(OutOfMemory);
        };
        Ok(Splitter {
            phase: Phase::Ground,
            sequence: Sequence::none(),
            past: Past::new(),
            title,
        })
    }

    /// Takes a unit, and tells the kind of the item that it completes. A control sequence and a title's text stay in the
    /// splitter until the next call.
    pub fn advance(&mut self, unit: u16) -> Found
        ensures items { option_to_list (item_of result unit self.new.sequence) ≡ (next grammar self.old.tail unit).items }
        ensures tail { self.new.tail ≡ (next grammar self.old.tail unit).tail }
        ensures spoken { map (spoken_by self.new.title) (option_to_list (item_of result unit self.new.sequence)) ≡ (next spoken self.old.tail unit).items }
        ensures rest { self.new.tail ≡ (next spoken self.old.tail unit).tail }
    {
        let step = step(self.phase, unit, &mut self.sequence, &mut self.title);
        self.phase = step.phase;
        self.past.push(unit);
        step.found
    }

    /// Takes a unit, and gives the item that it completes.
    pub fn feed(&mut self, unit: u16) -> Option<Item>
        ensures items { option_to_list result ≡ (next grammar self.old.tail unit).items }
        ensures tail { self.new.tail ≡ (next grammar self.old.tail unit).tail }
        ensures spoken { map (spoken_by self.new.title) (option_to_list result) ≡ (next spoken self.old.tail unit).items }
        ensures rest { self.new.tail ≡ (next spoken self.old.tail unit).tail }
    {
        let found = self.advance(unit);
        found.item(unit, self.sequence())
    }

    /// The last control sequence.
    pub fn sequence(&self) -> &Csi
        ensures { result.now ≡ self.now.sequence }
    {
        &self.sequence.csi
    }

    /// The text of the last title, at most 255 units.
    pub fn title(&self) -> &[u16]
        ensures title { result.now ≡ self.now.title }
        ensures short { length result.now ≤ 255 }
    {
        self.title.as_slice()
    }

    /// Drops unfinished text.
    pub fn clear(&mut self)
        ensures { self.new ≡ record self.old { tail = [] } }
    {
        self.phase = Phase::Ground;
        self.past = Past::new();
    }

    /// Whether there is no unfinished text.
    pub fn is_clear(&self) -> bool
        ensures clear { result ≡ true → self.now.tail ≡ [] }
        ensures unfinished { result ≡ false → self.now.tail ≢ [] }
    {
        match self.phase {
            Phase::Ground => true,
            _ => false,
        }
    }
}

/// Each unit completes at most one item, and a title has at most 255 units.
pub fn completes_one_item()
    ensures { AreFew }
{}
