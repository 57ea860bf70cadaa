//! Callers that use the clauses and laws of con_screen at every value.
ghost use Rattle.std.specs.Prelude.{◌≡◌, ◌+◌, ◌*◌, ◌<◌, ◌≤◌, ◌^◌, [], true, OnOk, OnErr, length, take, option_to_list};
ghost use Rattle.con_units.specs.Split.{next};
ghost use Rattle.con_vtgram.specs.Text.{grammar};
ghost use Rattle.con_vtgram.specs.State.{item_of};
ghost use Rattle.con_page.specs.Sides.{sides};
ghost use Rattle.con_page.specs.Words.Page.{IsPage};
ghost use Rattle.con_screen.specs.Told.{nothing_told};
ghost use Rattle.con_screen.specs.Words.Told.{HasShortTitle};
ghost use Rattle.con_screen.specs.Written.{written};

use con_page::Origin;
use con_screen::{Answers, Screen, is_told_within};
use con_units::{Code, Coord, OutOfMemory};
use con_vtgram::{Found, Splitter};

/// Sets the pen and the mode.
pub fn restyle(screen: &mut Screen, word: u16, mode: u32) -> Result<(), Code>
    requires page { IsPage screen.old.page }
    ensures page { IsPage screen.new.page }
    ensures sides { sides screen.new.page ≡ sides screen.old.page }
{
    screen.set_attr(word);
    screen.set_mode(mode)
}

/// Moves the window and the cursor, and shows it.
pub fn look_at(screen: &mut Screen, corner: Coord, at: Coord, size: u32) -> Result<(), Code>
    requires page { IsPage screen.old.page }
    ensures page { IsPage screen.new.page }
    ensures sides { sides screen.new.page ≡ sides screen.old.page }
{
    screen.set_window_origin(corner)?;
    screen.set_cursor(at)?;
    screen.set_cursor_info(size, true)
}

/// Shows a typed line, and ends it.
pub fn type_line(screen: &mut Screen, origin: Origin, units: &[u16], end: u16)
    requires page { IsPage screen.old.page }
    requires short { length units.now < 2 ^ 16 }
    ensures page { IsPage screen.new.page }
    ensures sides { sides screen.new.page ≡ sides screen.old.page }
{
    let origin = screen.echo(origin, 0, units, 0, end);
    screen.echo_end(origin, end);
}

/// An alternate screen begins, and takes the mode of another screen.
pub fn show_alternate(screen: &mut Screen, main: &Screen, other: &Screen)
    requires page { IsPage screen.old.page }
    requires main { IsPage main.now.page }
    requires other { IsPage other.now.page }
    ensures page { IsPage screen.new.page }
    ensures sides { sides screen.new.page ≡ sides screen.old.page }
{
    screen.begin_alternate(main);
    screen.take_mode(other);
}

/// Writes two texts in turn, each up to a switch.
pub fn write_both(screen: &mut Screen, front: &[u16], rest: &[u16], answers: &mut Answers)
    requires page { IsPage screen.old.page }
    requires room { length front.now + length rest.now ≤ answers.old.room }
    ensures page { IsPage screen.new.page }
    ensures sides { sides screen.new.page ≡ sides screen.old.page }
{
    screen.write(front, answers);
    screen.write(rest, answers);
}

/// Writes a text, whose reports and title fit into room that was made before.
pub fn write_within(screen: &mut Screen, units: &[u16], answers: &mut Answers) -> usize
    requires page { IsPage screen.old.page }
    requires room { length units.now ≤ answers.old.room }
    ensures reports { length answers.new.told.reports ≤ length answers.old.told.reports + 10 * length (take result units.now) }
    ensures title { HasShortTitle answers.old.told → HasShortTitle answers.new.told }
{
    is_told_within();
    screen.write(units, answers)
}

/// Makes room for two writes, each by itself.
pub fn make_room(answers: &mut Answers, front: usize, rest: usize) -> Result<(), OutOfMemory>
    requires few { (front ≤ 16777216) × (rest ≤ 16777216) }
    ensures room { OnOk result ((front ≤ answers.new.room) × (rest ≤ answers.new.room)) }
    ensures kept { answers.old.room ≤ answers.new.room }
    ensures told { answers.new.told ≡ answers.old.told }
{
    answers.reserve(front)?;
    answers.reserve(rest)
}

/// Writes a text, and tells what it alone tells.
pub fn write_anew(screen: &mut Screen, units: &[u16], answers: &mut Answers) -> usize
    requires page { IsPage screen.old.page }
    requires room { length units.now ≤ answers.old.room }
    ensures told { answers.new.told ≡ (written screen.old nothing_told (take result units.now)).told }
{
    answers.forget();
    screen.write(units, answers)
}

/// Forgets an unfinished text: the next unit comes as behind none.
pub fn begin_anew(splitter: &mut Splitter, unit: u16) -> Found
    ensures items { option_to_list (item_of result unit splitter.new.sequence) ≡ (next grammar [] unit).items }
    ensures tail { splitter.new.tail ≡ (next grammar [] unit).tail }
{
    splitter.clear();
    splitter.advance(unit)
}

/// Whether an unfinished text is forgotten.
pub fn is_forgotten(splitter: &mut Splitter) -> bool
    ensures { result ≡ true }
{
    splitter.clear();
    splitter.is_clear()
}
