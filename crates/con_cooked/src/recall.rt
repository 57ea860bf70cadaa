//! The line and the recalled place.
ghost use Rattle.std.specs.Prelude.{◌≡◌, ℕ, ◌+◌, ◌-◌, ◌≤◌, ◌<◌, List, [], Bool, true, false, Option, Some, None, length, take, min, slice_index_or, unwrap_or, ◌≢◌, IfSome, IfOk, if◌then◌else◌};
ghost use Rattle.con_line.specs.Words.Line.{IsLine, edit_between};
ghost use Rattle.con_history.specs.Histories.{lines_of, found};
ghost use Rattle.con_cooked.specs.Cooked.{Edited, recall, key_pressed, place_in};
ghost use Rattle.con_cooked.specs.Parts.{edited, opened};

use crate::keys::LineKey;
use con_history::Histories;
use con_line::{Edit, Line, Press};
use con_units::{OutOfMemory, Units};
use std::alloc::Global;
use std::marker::Model;

const NO_LINE: [u16; 0] = [];

/// A line that is edited, and which line of the history was recalled last.
#[derive(Drop)]
pub struct EditedLine {
    line: Line,
    recalled: Option<usize>,
}

impl Model for EditedLine {
    ghost use Rattle.con_cooked.specs.Cooked.{Edited};

    ghost Value = { Edited };

    ghost view = { λ e. record { line = e.line; recalled = e.recalled } };
}

impl EditedLine {
    /// A text, with the caret at its end.
    pub fn new(alloc: Global, insert: bool, initial: &[u16]) -> Result<EditedLine, OutOfMemory>
        requires { length initial.now ≤ 1024 }
        ensures { IfOk result (λ e. e ≡ opened insert initial.now) }
    {
        let mut line = Line::new(alloc, insert)?;
        line.press(Press::Recall, initial);
        Ok(EditedLine {
            line,
            recalled: None,
        })
    }

    /// The line.
    pub fn line(&self) -> &Line
        ensures { result.now ≡ self.now.line }
    {
        &self.line
    }

    /// The line's text in its memory.
    pub fn into_units(self) -> Units
        ensures text { result ≡ self.line.units }
        ensures few { length result ≤ 1024 }
    {
        self.line.into_units()
    }

    // A key that asks no history.
    fn plain(&mut self, key: Press) -> Edit
        requires { key ≢ Press.Match }
        ensures line { self.new ≡ edited self.old key }
        ensures edit { result ≡ edit_between self.old.line.units self.new.line.units }
    {
        self.line.press(key, &NO_LINE)
    }

    // A key that changes nothing.
    fn nothing(&mut self) -> Edit
        ensures line { self.new ≡ self.old }
        ensures edit { result ≡ edit_between self.old.line.units self.new.line.units }
    {
        self.line.press(Press::Nothing, &NO_LINE)
    }

    fn clear(&mut self) -> Edit
        ensures line { self.new ≡ key_pressed self.old LineKey.Escape [] }
        ensures edit { result ≡ edit_between self.old.line.units self.new.line.units }
    {
        self.recalled = None;
        self.line.press(Press::Clear, &NO_LINE)
    }

    // The recalled place, or the number of lines.
    fn place(&self, count: usize) -> usize
        ensures place { result ≡ min (unwrap_or self.now.recalled count) count }
        ensures within { result ≤ count }
    {
        match self.recalled {
            Some(k) => k.min(count),
            None => count,
        }
    }

    // One line of the history in place of the text.
    fn recall(&mut self, histories: &Histories, program: &Units, k: usize) -> Edit
        requires { 0 < length (lines_of histories.now program.now) → k < length (lines_of histories.now program.now) }
        ensures line { self.new ≡ recall self.old (lines_of histories.now program.now) k }
        ensures edit { result ≡ edit_between self.old.line.units self.new.line.units }
    {
        if histories.count(program) == 0 {
            return self.nothing();
        }
        self.recalled = Some(k);
        self.line
            .press(Press::Recall, histories.at(program, k).as_slice())
    }

    // One older than the recalled line, or the newest.
    fn up(&mut self, histories: &Histories, program: &Units) -> Edit
        ensures line { self.new ≡ key_pressed self.old LineKey.Up (lines_of histories.now program.now) }
        ensures edit { result ≡ edit_between self.old.line.units self.new.line.units }
    {
        let place = self.place(histories.count(program)).saturating_sub(1);
        self.recall(histories, program, place)
    }

    // The newest line.
    fn newest(&mut self, histories: &Histories, program: &Units) -> Edit
        ensures line { self.new ≡ key_pressed self.old LineKey.PageDown (lines_of histories.now program.now) }
        ensures edit { result ≡ edit_between self.old.line.units self.new.line.units }
    {
        let last = histories.count(program).saturating_sub(1);
        self.recall(histories, program, last)
    }

    fn rest(&mut self, histories: &Histories, program: &Units) -> Edit
        ensures line { self.new ≡ key_pressed self.old LineKey.Rest (lines_of histories.now program.now) }
        ensures edit { result ≡ edit_between self.old.line.units self.new.line.units }
    {
        let count = histories.count(program);
        if count == 0 {
            return self.line.press(Press::RestOfLast, &NO_LINE);
        }
        self.line.press(
            Press::RestOfLast,
            histories.at(program, count - 1).as_slice(),
        )
    }

    // One newer than the recalled line.
    fn down(&mut self, histories: &Histories, program: &Units) -> Edit
        ensures line { self.new ≡ key_pressed self.old LineKey.Down (lines_of histories.now program.now) }
        ensures edit { result ≡ edit_between self.old.line.units self.new.line.units }
    {
        let last = histories.count(program).saturating_sub(1);
        match self.recalled {
            Some(k) => {
                let next = if k < last { k + 1 } else { last };
                self.recall(histories, program, next)
            }
            None => self.nothing(),
        }
    }

    // The line that begins as the text does up to the caret.
    fn search(&mut self, histories: &Histories, program: &Units) -> Edit
        ensures line { self.new ≡ key_pressed self.old LineKey.Search (lines_of histories.now program.now) }
        ensures edit { result ≡ edit_between self.old.line.units self.new.line.units }
    {
        let from = self.place(histories.count(program));
        match self.found(histories, program, from) {
            Some(k) => {
                self.recalled = Some(k);
                self.line
                    .press(Press::Match, histories.at(program, k).as_slice())
            }
            None => self.nothing(),
        }
    }

    // Where that line stands.
    fn found(&self, histories: &Histories, program: &Units, from: usize) -> Option<usize>
        requires { from ≤ length (lines_of histories.now program.now) }
        ensures found { result ≡ found (take self.now.line.caret self.now.line.units) (lines_of histories.now program.now) from }
        ensures within { IfSome result (λ k. k < length (lines_of histories.now program.now)) }
        ensures reaches { IfSome result (λ k. self.now.line.caret ≤ length (slice_index_or (lines_of histories.now program.now) k [])) }
    {
        let caret = self.line.caret() as usize;
        histories.search(program, &self.line.text()[..caret], from)
    }

    /// Applies a key, with the lines of the program's history.
    pub fn press(&mut self, key: LineKey, histories: &Histories, program: &Units) -> Edit
        ensures line { self.new ≡ key_pressed self.old key (lines_of histories.now program.now) }
        ensures edit { result ≡ edit_between self.old.line.units self.new.line.units }
    {
        match key {
            LineKey::Unit(unit) => self.plain(Press::Unit(unit)),
            LineKey::Back => self.plain(Press::Back),
            LineKey::Delete => self.plain(Press::Delete),
            LineKey::Escape => self.clear(),
            LineKey::Left => self.plain(Press::Left),
            LineKey::Right => self.plain(Press::Right),
            LineKey::WordLeft => self.plain(Press::WordLeft),
            LineKey::WordRight => self.plain(Press::WordRight),
            LineKey::Home => self.plain(Press::Home),
            LineKey::End => self.plain(Press::End),
            LineKey::Insert => self.plain(Press::Insert),
            LineKey::Up => self.up(histories, program),
            LineKey::Down => self.down(histories, program),
            LineKey::PageUp => self.recall(histories, program, 0),
            LineKey::PageDown => self.newest(histories, program),
            LineKey::Rest => self.rest(histories, program),
            LineKey::Search => self.search(histories, program),
            LineKey::Return | LineKey::Nothing => self.nothing(),
        }
    }
}
