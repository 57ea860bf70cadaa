//! Answers in a line.

ghost use Rattle.std.specs.Prelude.{◌≡◌, List, [], ◌∷◌, IfOk, map};
ghost use Rattle.json.specs.Print.{escape};
ghost use Rattle.serde_json.specs.Data.{string};
ghost use Rattle.con_lines.specs.Shown.{list_of, natural as natural_data, whole as whole_data, units_text, rect_data, cell_words};
ghost use Rattle.con_lines.specs.Words.Shown.{records_data};
ghost use Rattle.con_lines.specs.Line.{ok as ok_data, number_and_flag as number_and_flag_data, numbers_data, reply_data};
ghost use Rattle.con_lines.specs.Writing.{put, put_each};

use crate::line::Line;
use con_events::{Form, Reply};
use con_units::{OutOfMemory, Units};

#[tactic(auto, using(crate::proofs::Puts::arrays), unfolding(json::specs::Print::escape_byte))]
impl Line {
    /// Texts one after another.
    fn each_line(&mut self, lines: &[Units]) -> Result<(), OutOfMemory>
        ensures { IfOk result (λ _. self.new ≡ put_each self.old (map units_text lines.now)) }
    {
        for line in lines {
            given!(self.units(line.as_slice()));
        }
        Ok(())
    }

    /// An array of texts.
    fn all_lines(&mut self, lines: &[Units]) -> Result<(), OutOfMemory>
        ensures { IfOk result (λ _. self.new ≡ put self.old (list_of (map units_text lines.now))) }
    {
        given!(self.open());
        given!(self.each_line(lines));
        self.shut()
    }

    /// A number, whether something is so, and further numbers.
    fn number_and_flag(&mut self, numbers: &[i64]) -> Result<(), OutOfMemory>
        ensures { IfOk result (λ _. self.new ≡ put_each self.old (number_and_flag_data numbers.now)) }
    {
        match numbers {
            [] => Ok(()),
            [first] => self.whole(*first),
            [first, flag, rest @ ..] => {
                given!(self.whole(*first));
                given!(self.truth(*flag != 0));
                self.each_number(rest)
            }
        }
    }

    /// A number of any size, behind a word.
    pub fn word_and_number(&mut self, word: &'static str, n: u64) -> Result<(), OutOfMemory>
        requires { escape word.now ≡ word.now }
        ensures { IfOk result (λ _. self.new ≡ put self.old (list_of (string word.now ∷ natural_data n ∷ []))) }
    {
        given!(self.open_with(word));
        given!(self.natural(n));
        self.shut()
    }

    /// That it is done.
    pub fn done(&mut self) -> Result<(), OutOfMemory>
        ensures { IfOk result (λ _. self.new ≡ put self.old (ok_data [])) }
    {
        self.named("ok", &[])
    }

    /// Numbers, as the form has them.
    fn numbers(&mut self, form: Form, numbers: &[i64]) -> Result<(), OutOfMemory>
        ensures { IfOk result (λ _. self.new ≡ put self.old (numbers_data form numbers.now)) }
    {
        match form {
            Form::Fields(_) => self.named("ok", numbers),
            Form::NumberAndFlag => {
                given!(self.open_with("ok"));
                given!(self.number_and_flag(numbers));
                self.shut()
            }
            _ => {
                given!(self.open_with("ok"));
                given!(self.all_numbers(numbers));
                self.shut()
            }
        }
    }

    /// What a reply shows for an event of a form.
    pub fn reply(&mut self, form: Form, reply: &Reply) -> Result<(), OutOfMemory>
        ensures { IfOk result (λ _. self.new ≡ put self.old (reply_data form reply.now)) }
    {
        match reply {
            Reply::Done => self.done(),
            Reply::Fail(code) => self.named("fail", &[code.number() as i64]),
            Reply::Number(n) => self.named("ok", &[*n as i64]),
            Reply::Numbers(numbers) => self.numbers(form, numbers.0.as_slice()),
            Reply::Units(units) => {
                given!(self.open_with("ok"));
                given!(self.units(units.as_slice()));
                self.shut()
            }
            Reply::Records(records) => {
                given!(self.open_with("ok"));
                given!(self.all_records(records.0.as_slice()));
                self.shut()
            }
            Reply::Cells(rect, cells) => {
                given!(self.open_with("ok"));
                given!(self.sides(*rect));
                given!(self.cells(cells.as_slice()));
                self.shut()
            }
            Reply::Lines(lines) => {
                given!(self.open_with("ok"));
                given!(self.all_lines(lines.0.as_slice()));
                self.shut()
            }
            Reply::Ctrl(n) => self.named("ctrl", &[*n as i64]),
            Reply::View(_, _, _) => self.null(),
        }
    }
}
