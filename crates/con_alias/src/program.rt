//! The aliases of one program.
ghost use Rattle.std.specs.Prelude.{◌≡◌, ℕ, ◌≤◌, ◌<◌, List, [], max, Bool, not, is_some, length, slice_index_or, IfOk, OnOk, OnErr, option_copied};
ghost use Rattle.std.specs.Option.{option_map};
ghost use Rattle.con_alias.specs.Aliases.{Entry, find_entry, is_full, with_entry};
ghost use Rattle.con_alias.specs.Words.Aliases.{without_entry};
ghost use Rattle.con_alias.specs.Room.{Listed};

use crate::alias::{Alias, Target};
use crate::name::{Source, Word};
use con_units::OutOfMemory;
use indexmap::IndexMap;
use std::alloc::Global;
use std::marker::Model;

/// How many aliases a program has at most.
const MOST_ALIASES: usize = 256;

/// A program's aliases in order of insertion, and for how many more there is memory.
pub struct ProgramAliases {
    aliases: IndexMap<Source, Target>,
    spare: usize,
}

impl Model for ProgramAliases {
    ghost use Rattle.std.specs.Prelude.{◌≤◌};
    ghost use Rattle.indexmap.specs.IndexMap.{spare as map_spare};
    ghost use Rattle.con_alias.specs.Room.{Listed, entries_of};

    ghost Value = { Listed };

    ghost view = { λ a. record { entries = entries_of a.aliases.entries; spare = a.spare } };

    ghost invariant = { λ a. a.spare ≤ map_spare a.aliases };
}

// By hand, so that what drops one has this call in its proof, and not all that lies in one.
impl Drop for ProgramAliases {
    fn drop(self) {
        let ProgramAliases {
            aliases: _,
            spare: _,
        } = self;
    }
}

impl ProgramAliases {
    /// No alias, and room for one.
    pub fn new(alloc: Global) -> Result<ProgramAliases, OutOfMemory>
        ensures { IfOk result (λ list. list ≡ record { entries = []; spare = 1 }) }
    {
        match IndexMap::with_capacity(alloc, 1) {
            Ok(aliases) => Ok(ProgramAliases { aliases, spare: 1 }),
            Err(_) => Err(OutOfMemory),
        }
    }

    /// How many there are.
    pub fn count(&self) -> usize
        ensures { result ≡ length self.now.entries }
    {
        self.aliases.len()
    }

    /// Makes room for one more.
    pub fn add_room(&mut self) -> Result<(), OutOfMemory>
        ensures ok { OnOk result (self.new ≡ record self.old { spare = max self.old.spare 1 }) }
        ensures err { OnErr result (self.new ≡ self.old) }
    {
        if self.spare == 0 {
            if self.aliases.reserve(1).is_err() {
                return Err(OutOfMemory);
            }
            self.spare = 1;
        }
        Ok(())
    }

    /// Adds an alias, or gives a present one its new target. False, and nothing changes, where 256 are there and this
    /// one is new.
    pub fn add(&mut self, new: Alias) -> bool
        requires { 0 < self.old.spare }
        ensures list { self.new.entries ≡ with_entry self.old.entries new }
        ensures answer { result ≡ not (is_full self.old.entries new.source) }
    {
        let (source, target) = new.parts();
        if self.aliases.len() >= MOST_ALIASES && !self.aliases.contains_key(source.word()) {
            return false;
        }
        self.aliases.insert(source, target).unwrap();
        self.spare -= 1;
        true
    }

    /// Removes an alias; false where there is none.
    pub fn remove(&mut self, source: &[u16]) -> bool
        ensures list { self.new ≡ record self.old { entries = without_entry self.old.entries source.now } }
        ensures found { result ≡ is_some (find_entry self.old.entries source.now) }
    {
        self.aliases.shift_remove(Word(source)).is_some()
    }

    /// The target of a source's alias.
    pub fn find(&self, source: &[u16]) -> Option<&Target>
        ensures { option_copied result ≡ option_map (λ e. e.target) (find_entry self.now.entries source.now) }
    {
        self.aliases.get(Word(source))
    }

    /// The alias at a place, in order of insertion.
    pub fn at(&self, k: usize) -> (&Source, &Target)
        requires { k < length self.now.entries }
        ensures source { (d : Entry) → result.0.now ≡ (slice_index_or self.now.entries k d).source }
        ensures target { (d : Entry) → result.1.now ≡ (slice_index_or self.now.entries k d).target }
    {
        self.aliases.get_index(k).unwrap()
    }
}
