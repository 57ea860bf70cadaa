//! The aliases of all programs.
ghost use Rattle.std.specs.Prelude.{◌≡◌, ℕ, ◌≤◌, ◌<◌, ◌-◌, ◌||◌, ◌==◌, List, [], Bool, not, is_some, Some, None, length, max, slice_index_or, option_copied, unwrap_or, IfOk, IsOk, OnErr, OnOk, IsTrue, MatchOption, if◌then◌else◌, vec_capacity};
ghost use Rattle.std.specs.List.{list_any};
ghost use Rattle.std.specs.Bool.{OnFalse};
ghost use Rattle.con_units.specs.Stored.{is_control};
ghost use Rattle.std.specs.Option.{option_map};
ghost use Rattle.con_alias.specs.Aliases.{Entry, entries_in, is_bad, is_no_source, added, add_answer, alias_at, removed, remove_answer};
ghost use Rattle.con_alias.specs.Words.Aliases.{has_control};
ghost use Rattle.con_alias.specs.Room.{room_for, has_room};
ghost use Rattle.con_alias.specs.Expansion.{expansion, lines_of};

use crate::alias::{Alias, Target};
use crate::expand::{append, behind_word, fits, spell, word};
use crate::program::ProgramAliases;
use crate::room::AliasRoom;
use con_units::{Code, OutOfMemory, Units};
use indexmap::IndexMap;
use std::alloc::Global;
use std::marker::Model;

const SOURCE_UNITS: usize = 255;

const TARGET_UNITS: usize = 1024;

/// An alias: its source as it was written first, and its target.
#[derive(Drop)]
pub struct Pair<'a> {
    pub source: &'a Units,
    pub target: &'a Units,
}

/// The aliases of all programs.
pub struct Aliases {
    programs: IndexMap<Vec<u16>, ProgramAliases>,
    spare: usize,
}

impl Model for Aliases {
    ghost use Rattle.std.specs.Prelude.{◌≤◌};
    ghost use Rattle.indexmap.specs.IndexMap.{spare as map_spare};
    ghost use Rattle.con_alias.specs.Room.{AliasTable, Places, lists_of, places_of};

    ghost Value = { AliasTable };

    ghost view = { λ a. record { programs = lists_of a.programs.entries; places = record { lists = places_of a.programs.entries; spare = a.spare } } };

    ghost invariant = { λ a. a.spare ≤ map_spare a.programs };
}

// By hand, so that what drops one has this call in its proof, and not all that lies in one.
impl Drop for Aliases {
    fn drop(self) {
        let Aliases {
            programs: _,
            spare: _,
        } = self;
    }
}

/// Whether a text has a control: a unit of 0x00 to 0x1F or 0x7F to 0x9F.
pub fn has_control(text: &[u16]) -> bool
    ensures { result ≡ has_control text.now }
{
    text.iter()
        .any(|unit| *unit < 0x20 || (0x7F <= *unit && *unit <= 0x9F))
}

fn is_any_space(text: &[u16]) -> bool
    ensures { result ≡ list_any (λ u. u == 32) text.now }
{
    text.iter().any(|unit| *unit == 32)
}

// Whether texts are refused.
fn refused(program: &Units, source: &Units, target: &Units) -> bool
    ensures refused { result ≡ is_bad program.now source.now target.now }
    ensures source { OnFalse result (length source.now ≤ 255) }
    ensures target { OnFalse result (length target.now ≤ 1024) }
{
    is_no_source(program.as_slice())
        || is_no_source(source.as_slice())
        || target.as_slice().is_empty()
        || TARGET_UNITS < target.as_slice().len()
        || is_any_space(source.as_slice())
        || has_control(source.as_slice())
        || has_control(target.as_slice())
}

// Whether a source is one that no alias can have.
fn is_no_source(source: &[u16]) -> bool
    ensures { result ≡ is_no_source source.now }
{
    source.is_empty() || SOURCE_UNITS < source.len()
}

// Ok, or else this code.
fn answer(ok: bool, code: Code) -> Result<(), Code>
    ensures { result ≡ (if ok then Ok tt else Err code) }
{
    if ok { Ok(()) } else { Err(code) }
}

// Writes the lines that a target stands for, if they have at most 4,096 units without their ends, and says whether they do.
fn spell_lines(target: &Target, rest: &[u16], out: &mut Vec<u16>) -> bool
    requires empty { out.old.items ≡ [] }
    requires spare { 5122 ≤ vec_capacity out.old }
    ensures lines { out.new.items ≡ unwrap_or (lines_of target.now rest.now) [] }
    ensures answer { result ≡ is_some (lines_of target.now rest.now) }
    ensures room { vec_capacity out.old ≤ vec_capacity out.new }
{
    let target = target.units().as_slice();
    if !fits(target, rest) {
        return false;
    }
    spell(target, rest, out);
    append(out, &[13, 10]);
    true
}

impl Aliases {
    /// No alias.
    pub fn new(alloc: Global) -> Aliases
        ensures { result ≡ record { programs = []; places = record { lists = []; spare = 0 } } }
    {
        Aliases {
            programs: IndexMap::new(alloc),
            spare: 0,
        }
    }

    // Room for an alias, and for the list of a program that has none.
    fn room(
        &self,
        program: &Units,
        source: &Units,
        target: &Units,
    ) -> Result<AliasRoom, OutOfMemory>
        ensures { IfOk result (λ room. room ≡ room_for self.now.programs program.now source.now target.now) }
    {
        let alloc = *self.programs.allocator();
        if refused(program, source, target) {
            return Ok(AliasRoom {
                new: None,
                list: None,
            });
        }
        let new = Alias::of(source, target)?;
        if self.programs.contains_key(program.as_slice()) {
            return Ok(AliasRoom {
                new: Some(new),
                list: None,
            });
        }
        let copy = program.copied()?;
        let program = copy.into_vec();
        let list = ProgramAliases::new(alloc)?;
        Ok(AliasRoom {
            new: Some(new),
            list: Some((program, list)),
        })
    }

    // Room for one more list.
    fn list_room(&mut self) -> Result<(), OutOfMemory>
        ensures ok { OnOk result (self.new ≡ record self.old { places = record self.old.places { spare = max self.old.places.spare 1 } }) }
        ensures err { OnErr result (self.new ≡ self.old) }
    {
        if self.spare == 0 {
            if self.programs.reserve(1).is_err() {
                return Err(OutOfMemory);
            }
            self.spare = 1;
        }
        Ok(())
    }

    /// Makes room for [`add`](Aliases::add) of these texts, and changes nothing that is shown.
    pub fn add_room(
        &mut self,
        program: &Units,
        source: &Units,
        target: &Units,
    ) -> Result<AliasRoom, OutOfMemory>
        ensures room { IfOk result (λ room. room ≡ room_for self.new.programs program.now source.now target.now) }
        ensures aliases { self.new.programs ≡ self.old.programs }
        ensures ready { OnOk result (IsTrue (has_room self.new.places program.now)) }
        ensures err { OnErr result (self.new ≡ self.old) }
    {
        let room = self.room(program, source, target)?;
        if let Some(list) = self.programs.get_mut(program.as_slice()) {
            list.add_room()?;
            return Ok(room);
        }
        self.list_room()?;
        Ok(room)
    }

    /// Adds an alias for a program; a present source keeps its place and its first spelling and takes the new target.
    /// Refused as a bad argument: a program or source not of 1 to 255 units, a target not of 1 to 1,024, a space in the
    /// source, a control in source or target. Refused at the limit: 256 are there and this one is new.
    pub fn add(
        &mut self,
        program: &Units,
        source: &Units,
        target: &Units,
        room: AliasRoom,
    ) -> Result<(), Code>
        requires room { room ≡ room_for self.old.programs program.now source.now target.now }
        requires ready { IsTrue (has_room self.old.places program.now) }
        ensures aliases { self.new.programs ≡ added self.old.programs program.now source.now target.now }
        ensures refused { result ≡ add_answer self.old.programs program.now source.now target.now }
    {
        if refused(program, source, target) {
            return Err(Code::BadArgument);
        }
        let AliasRoom { new, list } = room;
        let Some(new) = new else { unreachable!() };
        if let Some(list) = self.programs.get_mut(program.as_slice()) {
            return answer(list.add(new), Code::Limit);
        }
        let Some((program, mut list)) = list else {
            unreachable!()
        };
        list.add(new);
        self.programs.insert(program, list).unwrap();
        self.spare -= 1;
        Ok(())
    }

    /// Removes a program's alias. Refused where it has no such alias.
    pub fn remove(&mut self, program: &Units, source: &Units) -> Result<(), Code>
        ensures aliases { self.new ≡ record self.old { programs = removed self.old.programs program.now source.now } }
        ensures answer { result ≡ remove_answer self.old.programs program.now source.now }
    {
        let units = source.as_slice();
        if is_no_source(units) {
            return Err(Code::NoAlias);
        }
        if let Some(list) = self.programs.get_mut(program.as_slice()) {
            return answer(list.remove(units), Code::NoAlias);
        }
        Err(Code::NoAlias)
    }

    // The program's list.
    fn list_of(&self, program: &Units) -> Option<&ProgramAliases>
        ensures { MatchOption result (entries_in self.now.programs program.now ≡ []) (λ l. l.now.entries ≡ entries_in self.now.programs program.now) }
    {
        self.programs.get(program.as_slice())
    }

    // The target of the alias that a source names.
    fn find(&self, program: &Units, source: &[u16]) -> Option<&Target>
        ensures { option_copied result ≡ option_map (λ e. e.target) (alias_at self.now.programs program.now source.now) }
    {
        if is_no_source(source) {
            return None;
        }
        match self.list_of(program) {
            Some(list) => list.find(source),
            None => None,
        }
    }

    /// The target of a program's alias. Refused where it has no such alias.
    pub fn get(&self, program: &Units, source: &Units) -> Result<&Units, Code>
        ensures { MatchOption (alias_at self.now.programs program.now source.now) (result ≡ Err Code.NoAlias)
            (λ e. IfOk result (λ t. t.now ≡ e.target) × IsOk result) }
    {
        match self.find(program, source.as_slice()) {
            Some(target) => Ok(target.units()),
            None => Err(Code::NoAlias),
        }
    }

    /// How many aliases a program has.
    pub fn count(&self, program: &Units) -> usize
        ensures { result ≡ length (entries_in self.now.programs program.now) }
    {
        match self.list_of(program) {
            Some(list) => list.count(),
            None => 0,
        }
    }

    /// A program's alias at a place, from 0, in order of insertion.
    pub fn at(&self, program: &Units, k: usize) -> Pair<'_>
        requires { k < length (entries_in self.now.programs program.now) }
        ensures source { (d : Entry) → result.source.now ≡ (slice_index_or (entries_in self.now.programs program.now) k d).source }
        ensures target { (d : Entry) → result.target.now ≡ (slice_index_or (entries_in self.now.programs program.now) k d).target }
    {
        match self.list_of(program) {
            Some(list) => {
                let (source, target) = list.at(k);
                Pair {
                    source: source.units(),
                    target: target.units(),
                }
            }
            None => unreachable!(),
        }
    }

    /// Writes the lines that a line stands for, each ended by CR LF, by the program's alias that the first word names.
    /// False, and nothing is written, where it is left as it is: where there is no such alias, or where the lines have
    /// more than 4,096 units without their ends.
    pub fn expand(&self, program: &Units, line: &[u16], out: &mut Vec<u16>) -> bool
        requires line { length line.now ≤ 1024 }
        requires empty { out.old.items ≡ [] }
        requires spare { 5122 ≤ vec_capacity out.old }
        ensures lines { out.new.items ≡ unwrap_or (expansion self.now.programs program.now line.now) [] }
        ensures answer { result ≡ is_some (expansion self.now.programs program.now line.now) }
        ensures room { vec_capacity out.old ≤ vec_capacity out.new }
    {
        match self.find(program, word(line)) {
            Some(target) => spell_lines(target, behind_word(line), out),
            None => false,
        }
    }
}
