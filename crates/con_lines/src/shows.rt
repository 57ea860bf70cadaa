//! Arguments of calls, and records, in a line.

ghost use Rattle.std.specs.Prelude.{◌≡◌, List, [], ◌∷◌, IfOk, map};
ghost use Rattle.json.specs.Print.{escape};
ghost use Rattle.serde_json.specs.Data.{boolean, string};
ghost use Rattle.con_events.specs.Arg.{Number, Signed, OneUnit, Flag, Text, Area, Clip, WordsOf, WordList, Records};
ghost use Rattle.con_lines.specs.Shown.{list_of, whole as whole_data, rect_data, record_data};
ghost use Rattle.con_lines.specs.Words.Shown.{records_data};
ghost use Rattle.con_lines.specs.Writing.{put, put_each, put_arg};

use crate::line::Line;
use con_events::{Shows, Words};
use con_records::{Record, Taken};
use con_units::{OutOfMemory, Rect, Units};

#[tactic(auto, using(crate::proofs::Puts::arrays), unfolding(json::specs::Print::escape_byte))]
impl Line {
    /// Numbers one after another.
    pub(crate) fn each_number(&mut self, numbers: &[i64]) -> Result<(), OutOfMemory>
        ensures { IfOk result (λ _. self.new ≡ put_each self.old (map whole_data numbers.now)) }
    {
        for n in numbers {
            given!(self.whole(*n));
        }
        Ok(())
    }

    /// An array of numbers.
    pub(crate) fn all_numbers(&mut self, numbers: &[i64]) -> Result<(), OutOfMemory>
        ensures { IfOk result (λ _. self.new ≡ put self.old (list_of (map whole_data numbers.now))) }
    {
        given!(self.open());
        given!(self.each_number(numbers));
        self.shut()
    }

    /// An array of a word and numbers.
    pub(crate) fn named(&mut self, word: &'static str, numbers: &[i64]) -> Result<(), OutOfMemory>
        requires { escape word.now ≡ word.now }
        ensures { IfOk result (λ _. self.new ≡ put self.old (list_of (string word.now ∷ map whole_data numbers.now))) }
    {
        given!(self.open_with(word));
        given!(self.each_number(numbers));
        self.shut()
    }

    /// An array of a word, whether something is so, and numbers.
    #[tactic(auto, using(crate::proofs::Puts::array_two_more))]
    fn flagged(&mut self, word: &'static str, set: bool, numbers: &[i64]) -> Result<(), OutOfMemory>
        requires { escape word.now ≡ word.now }
        ensures { IfOk result (λ _. self.new ≡ put self.old (list_of (string word.now ∷ boolean set ∷ map whole_data numbers.now))) }
    {
        given!(self.open_with(word));
        given!(self.truth(set));
        given!(self.each_number(numbers));
        self.shut()
    }

    /// The four sides of a rectangle, as an array.
    pub fn sides(&mut self, rect: Rect) -> Result<(), OutOfMemory>
        ensures { IfOk result (λ _. self.new ≡ put self.old (rect_data rect)) }
    {
        self.all_numbers(&[
            rect.left as i64,
            rect.top as i64,
            rect.right as i64,
            rect.bottom as i64,
        ])
    }

    /// A record of the input, as an array of its name and its fields.
    pub fn record(&mut self, one: &Record) -> Result<(), OutOfMemory>
        ensures { IfOk result (λ _. self.new ≡ put self.old (record_data one.now)) }
    {
        match one {
            Record::Key(key) => self.flagged(
                "key",
                key.down,
                &[
                    key.repeat as i64,
                    key.vk as i64,
                    key.scan as i64,
                    key.unit as i64,
                    key.state as i64,
                ],
            ),
            Record::Mouse(mouse) => self.named(
                "mouse",
                &[
                    mouse.x as i64,
                    mouse.y as i64,
                    mouse.buttons as i64,
                    mouse.state as i64,
                    mouse.flags as i64,
                ],
            ),
            Record::Size(size) => self.named("size", &[size.w as i64, size.h as i64]),
            Record::Menu(id) => self.named("menu", &[*id as i64]),
            Record::Focus(set) => self.flagged("focus", *set, &[]),
        }
    }

    /// Records one after another.
    fn each_record(&mut self, records: &[Record]) -> Result<(), OutOfMemory>
        ensures { IfOk result (λ _. self.new ≡ put_each self.old (map record_data records.now)) }
    {
        for one in records {
            given!(self.record(one));
        }
        Ok(())
    }

    /// An array of records.
    pub fn all_records(&mut self, records: &[Record]) -> Result<(), OutOfMemory>
        ensures { IfOk result (λ _. self.new ≡ put self.old (records_data records.now)) }
    {
        given!(self.open());
        given!(self.each_record(records));
        self.shut()
    }
}

impl Shows for Line {
    ghost put = { put_arg };

    fn number(&mut self, n: u32) -> Result<(), OutOfMemory> {
        self.natural(n as u64)
    }

    fn signed(&mut self, n: i16) -> Result<(), OutOfMemory> {
        self.whole(n as i64)
    }

    fn unit(&mut self, n: u16) -> Result<(), OutOfMemory> {
        self.natural(n as u64)
    }

    fn flag(&mut self, n: bool) -> Result<(), OutOfMemory> {
        self.truth(n)
    }

    fn text(&mut self, n: &Units) -> Result<(), OutOfMemory> {
        self.units(n.as_slice())
    }

    fn rect(&mut self, n: Rect) -> Result<(), OutOfMemory> {
        self.sides(n)
    }

    fn clip(&mut self, n: Option<Rect>) -> Result<(), OutOfMemory> {
        match n {
            Some(rect) => self.sides(rect),
            None => self.null(),
        }
    }

    fn words(&mut self, n: &Words) -> Result<(), OutOfMemory> {
        match n {
            Words::One(word) => self.natural(*word as u64),
            Words::Each(words) => self.units(words.as_slice()),
        }
    }

    fn list(&mut self, n: &Units) -> Result<(), OutOfMemory> {
        self.units(n.as_slice())
    }

    fn records(&mut self, n: &Taken) -> Result<(), OutOfMemory> {
        self.all_records(n.0.as_slice())
    }
}
