//! A terminal that plays bytes.
ghost use Rattle.std.specs.Prelude.{◌≡◌, ℕ, List, ◌<◌, ◌≤◌, ◌*◌, [], ◌∷◌, flat_map, option_to_list, ◌++◌};
ghost use Rattle.std.specs.Prelude.{IfOk, OnOk, MatchResult, length, take, vec_capacity, true};
ghost use Rattle.con_term.specs.Play.{units_of, play};
ghost use Rattle.con_term.specs.Steps.{typed};
ghost use Rattle.con_term.specs.Inside.{parts};
ghost use Rattle.con_term.specs.Page.{IsPage, blank_page};
ghost use Rattle.con_term.specs.Terminal.{IsTerminal};
ghost use Rattle.con_term.specs.Words.Terminal.{view_of};
ghost use Rattle.con_term.specs.Front.{IsPrintedAs};

use crate::ends::is_end;
use crate::front::{front_character, surrogates};
use crate::page::Page;
use con_units::{Cell, OutOfMemory, Size, Utf8, View};
use con_vtgram::{Found, Splitter, is_plain, plain_is_printed};
use std::alloc::Global;
use std::marker::Model;

/// A terminal. Contracts see its page, and the bytes and the units that are no item yet.
#[derive(Drop)]
pub struct Terminal {
    page: Page,
    bytes: Utf8,
    units: Splitter,
}

impl Model for Terminal {
    ghost use Rattle.con_term.specs.Terminal.{Terminal};

    ghost Value = { Terminal };

    ghost use Rattle.con_term.specs.Inside.{terminal_of};

    ghost view = { terminal_of };
}

impl Terminal {
    /// A blank terminal between sequences, in the word 0x0007, with a visible cursor at (0, 0).
    pub fn new(alloc: Global, size: Size) -> Result<Terminal, OutOfMemory>
        requires some { (0 < size.w) × (0 < size.h) }
        requires few { (size.w ≤ 512) × (size.h ≤ 256) }
        ensures blank { IfOk result (λ t. t ≡ record { page = blank_page size.w size.h; bytes = []; units = [] }) }
        ensures terminal { IfOk result (λ t. IsTerminal size.w size.h t) }
    {
        let page = Page::new(alloc, size)?;
        page.is_page();
        let units = Splitter::new(alloc)?;
        Ok(Terminal {
            page,
            bytes: Utf8::new(),
            units,
        })
    }

    /// Makes it blank, at another size; unchanged where there is no memory.
    pub fn resize(&mut self, size: Size) -> Result<(), OutOfMemory>
        requires some { (0 < size.w) × (0 < size.h) }
        requires few { (size.w ≤ 512) × (size.h ≤ 256) }
        ensures blank { MatchResult result (λ _. self.new ≡ record { page = blank_page size.w size.h; bytes = []; units = [] }) (λ _. self.new ≡ self.old) }
        ensures terminal { OnOk result (IsTerminal size.w size.h self.new) }
    {
        let page = Page::new(self.page.allocator(), size)?;
        page.is_page();
        self.page = page;
        self.bytes.clear();
        self.units.clear();
        Ok(())
    }

    /// Its size, in cells.
    pub fn size(&self) -> Size
        ensures sides { (result.w ≡ self.now.page.w) × (result.h ≡ self.now.page.h) }
        ensures few { (result.w ≤ 512) × (result.h ≤ 256) }
    {
        self.page.size()
    }

    /// Whether it is between sequences: no byte and no unit waits for more.
    pub fn is_between(&self) -> bool
        ensures between { result ≡ true → IsTerminal self.now.page.w self.now.page.h self.now }
        ensures within { (w h : ℕ) → IsTerminal w h self.now → result ≡ true }
    {
        if self.bytes.held() != 0 {
            return false;
        }
        self.page.is_page();
        self.units.is_clear()
    }

    /// Its cells, row by row.
    pub fn cells(&self) -> &[Cell]
        ensures { result.now ≡ self.now.page.cells }
    {
        self.page.cells()
    }

    /// What it shows, in a list that is empty and has room for all cells.
    pub fn view(&self, rows: Vec<Cell>) -> View
        requires none { rows.items ≡ [] }
        requires room { self.now.page.h * self.now.page.w ≤ vec_capacity rows }
        ensures { result ≡ view_of self.now.page }
    {
        self.page.view(rows)
    }

    /// Its page.
    pub fn page(&self) -> &Page
        ensures { result.now ≡ self.now.page }
    {
        &self.page
    }

    /// Plays a byte.
    pub fn play(&mut self, byte: u8)
        ensures played { self.new ≡ play self.old (byte ∷ []) }
        ensures kept { IsPage self.new.page }
        ensures sides { (self.new.page.w ≡ self.old.page.w) × (self.new.page.h ≡ self.old.page.h) }
    {
        byte_played(&mut self.bytes, &mut self.page, &mut self.units, byte);
        self.page.is_page();
    }

    /// Plays bytes, one after another.
    pub fn play_all(&mut self, bytes: &[u8])
        ensures played { self.new ≡ play self.old bytes.now }
        ensures kept { IsPage self.new.page }
        ensures sides { (self.new.page.w ≡ self.old.page.w) × (self.new.page.h ≡ self.old.page.h) }
    {
        all_played(&mut self.bytes, &mut self.page, &mut self.units, bytes);
        self.page.is_page();
    }
}

fn unit_typed(page: &mut Page, units: &mut Splitter, unit: u16)
    ensures { (b : List ℕ) → parts b page.new units.new ≡ typed (parts b page.old units.old) (unit ∷ []) }
{
    let found = units.advance(unit);
    match found {
        Found::Nothing => {}
        _ => page.apply(found, unit, units.sequence()),
    }
}

#[tactic(auto, unfolding(crate::specs::Play::units_of))]
fn character_typed(page: &mut Page, units: &mut Splitter, character: char)
    ensures { (b : List ℕ) → parts b page.new units.new ≡ typed (parts b page.old units.old) (units_of character) }
{
    let code = character as u32;
    if code < 0x10000 {
        unit_typed(page, units, code as u16);
    } else {
        let (high, low) = surrogates(code);
        unit_typed(page, units, high);
        unit_typed(page, units, low);
    }
}

fn character_if(page: &mut Page, units: &mut Splitter, character: Option<char>)
    ensures { (b : List ℕ) → parts b page.new units.new ≡ typed (parts b page.old units.old) (flat_map units_of (option_to_list character)) }
{
    if let Some(character) = character {
        character_typed(page, units, character);
    }
}

fn byte_played(bytes: &mut Utf8, page: &mut Page, units: &mut Splitter, byte: u8)
    ensures { parts bytes.new page.new units.new ≡ play (parts bytes.old page.old units.old) (byte ∷ []) }
{
    if byte < 0x80 {
        if bytes.held() == 0 {
            unit_typed(page, units, byte as u16);
            return;
        }
    }
    let decoded = bytes.feed(byte);
    character_if(page, units, decoded.first);
    character_if(page, units, decoded.second);
}

// Plays bytes at the front that go at once, between sequences: printable ASCII, line feeds and carriage returns, or a character of
// several bytes. Tells how many.
fn run_played(bytes: &Utf8, page: &mut Page, units: &Splitter, input: &[u8]) -> usize
    ensures few { result ≤ length input.now }
    ensures played { parts bytes.now page.new units.now ≡ play (parts bytes.now page.old units.now) (take result input.now) }
{
    if !units.is_clear() {
        return 0;
    }
    if bytes.held() != 0 {
        return 0;
    }
    let Some(first) = input.first() else {
        return 0;
    };
    if is_plain(*first as u16) {
        plain_is_printed();
        return page.print_run(input);
    }
    if is_end(*first) {
        return page.end_rows(input);
    }
    character_printed(page, input)
}

// Prints a character of several bytes at the front that is no control, and tells how many bytes it has.
fn character_printed(page: &mut Page, input: &[u8]) -> usize
    ensures few { result ≤ length input.now }
    ensures printed { IsPrintedAs page.old page.new (take result input.now) }
{
    let Some(front) = front_character(input) else {
        return 0;
    };
    if front.code < 0xA0 {
        return 0;
    }
    page.print_character(front.code);
    front.count
}

fn all_played(bytes: &mut Utf8, page: &mut Page, units: &mut Splitter, input: &[u8])
    ensures { parts bytes.new page.new units.new ≡ play (parts bytes.old page.old units.old) input.now }
{
    let mut at = 0;
    while at < input.len() {
        let count = run_played(bytes, page, units, &input[at..]);
        if count == 0 {
            byte_played(bytes, page, units, input[at]);
            at += 1;
        } else {
            at += count;
        }
    }
}
