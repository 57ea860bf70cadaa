//! What a write does with each unit, or with a run of printable ones.
ghost use Rattle.std.specs.Prelude.{◌≡◌, ℕ, ◌-◌, ◌<◌, ◌≤◌, true, [], length, take, Some};
ghost use Rattle.con_vtgram.specs.Text as text;
ghost use Rattle.con_vtgram.specs.State.{item_of};
ghost use Rattle.con_vtgram.specs.declared.item.Csi.{Csi as TheCsi};
ghost use Rattle.con_vtgram.specs.declared.item.Item.TheVariants as item;
ghost use Rattle.con_screen.specs.Told as tells;
ghost use Rattle.con_screen.specs.Words.Told as tells_words;
ghost use Rattle.con_screen.specs.Parts as parts;
ghost use Rattle.con_page.specs.Words.Page.{IsPage};
ghost use Rattle.con_screen.specs.Done.{Done, DoneSome, IsRun};
ghost use Rattle.con_page.specs.Applied.{effect_if};
ghost use Rattle.con_screen.specs.Completed.{told_if, switch_if};

use crate::answers::Answers;
use con_page::ends::is_end;
use con_page::page::sequence::is_reset;
use con_page::{Mode, Page};
use con_vtgram::{Csi, Found, Splitter};

fn is_acting(unit: u16) -> bool
    ensures { result ≡ text.is_acting unit }
{
    (7 <= unit && unit <= 10) || unit == 13
}

pub(crate) fn has_sequences(mode: Mode) -> bool
    ensures { result ≡ parts.has_sequences mode }
{
    mode.processed && mode.sequences
}

// What a unit completes where sequences do not act.
fn found_alone(mode: Mode, unit: u16) -> Found
    ensures { (csi : TheCsi) → item_of result unit csi ≡ Some (parts.item_alone mode unit) }
{
    if mode.processed && is_acting(unit) {
        Found::Control
    } else {
        Found::Print
    }
}

#[tactic(auto, unfolding(crate::specs::Told::is_switch))]
fn is_switch(csi: &Csi) -> bool
    ensures { result ≡ tells.is_switch (item.Csi csi.now) }
{
    csi.inter == 0 && csi.private && csi.params[0] == 1049 && (csi.last == 0x68 || csi.last == 0x6C)
}

fn tell_private(csi: &Csi, answers: &mut Answers)
    requires { 0 < answers.old.room }
    ensures { answers.new ≡ record { told = tells_words.private_told answers.old.told csi.now; room = answers.old.room - 1 } }
{
    let on = match csi.last {
        0x68 => true,
        0x6C => false,
        _ => {
            answers.spend(1);
            return;
        }
    };
    match csi.params[0] {
        1 => answers.tell_keys(on),
        1049 => answers.tell_alternate(on),
        _ => answers.spend(1),
    }
}

fn tell_plain(page: &Page, csi: &Csi, answers: &mut Answers)
    requires page { IsPage page.now }
    requires room { 0 < answers.old.room }
    ensures { answers.new ≡ record { told = tells_words.plain_told page.now answers.old.told csi.now; room = answers.old.room - 1 } }
{
    if csi.last == 0x6E && csi.params[0] == 6 {
        answers.tell_cursor(page.report_row(), page.report_column());
    } else if csi.last == 0x63 && csi.params[0] == 0 {
        answers.tell_device();
    } else {
        answers.spend(1);
    }
}

#[tactic(auto, unfolding(crate::specs::Told::csi_told))]
fn tell_csi(page: &Page, csi: &Csi, answers: &mut Answers)
    requires page { IsPage page.now }
    requires room { 0 < answers.old.room }
    ensures { answers.new ≡ record { told = tells.csi_told page.now answers.old.told csi.now; room = answers.old.room - 1 } }
{
    if is_reset(csi) {
        answers.tell_keys(false);
    } else if csi.inter != 0 {
        answers.spend(1);
    } else if csi.private {
        tell_private(csi, answers);
    } else {
        tell_plain(page, csi, answers);
    }
}

// What the item that a unit completes tells, and whether it switches.
#[tactic(auto, unfolding(crate::specs::Told::told_after, crate::specs::Told::is_switch))]
fn tell(
    page: &Page,
    found: Found,
    unit: u16,
    csi: &Csi,
    title: &[u16],
    answers: &mut Answers,
) -> bool
    requires page { IsPage page.now }
    requires room { 0 < answers.old.room }
    requires short { length title.now ≤ 255 }
    ensures told { answers.new ≡ record { told = told_if page.now answers.old.told title.now (item_of found unit csi.now); room = answers.old.room - 1 } }
    ensures switch { result ≡ switch_if (item_of found unit csi.now) }
{
    match found {
        Found::Sequence => {
            tell_csi(page, csi, answers);
            is_switch(csi)
        }
        Found::Title => {
            answers.tell_title(title);
            false
        }
        _ => {
            answers.spend(1);
            false
        }
    }
}

// What the item that a unit completes does and tells, and whether it switches.
fn hear(
    page: &mut Page,
    found: Found,
    unit: u16,
    csi: &Csi,
    title: &[u16],
    answers: &mut Answers,
) -> bool
    requires page { IsPage page.old }
    requires room { 0 < answers.old.room }
    requires short { length title.now ≤ 255 }
    ensures page { IsPage page.new }
    ensures effect { page.new ≡ effect_if page.old (item_of found unit csi.now) }
    ensures told { answers.new ≡ record { told = told_if page.old answers.old.told title.now (item_of found unit csi.now); room = answers.old.room - 1 } }
    ensures switch { result ≡ switch_if (item_of found unit csi.now) }
{
    let switched = tell(page, found, unit, csi, title, answers);
    page.apply(found, unit, csi);
    switched
}

// Writes a unit.
fn write_unit(page: &mut Page, text: &mut Splitter, unit: u16, answers: &mut Answers) -> bool
    requires page { IsPage page.old }
    requires room { 0 < answers.old.room }
    ensures page { IsPage page.new }
    ensures done { Done (record { page = page.old; text = text.old.tail }) answers.old unit page.new text.new.tail answers.new result }
{
    let mode = page.mode();
    if has_sequences(mode) {
        let found = text.advance(unit);
        match found {
            Found::Nothing => {
                answers.spend(1);
                false
            }
            _ => hear(page, found, unit, text.sequence(), text.title(), answers),
        }
    } else {
        let found = found_alone(mode, unit);
        hear(page, found, unit, text.sequence(), &[], answers)
    }
}

// Writes the units at the front that go at once, where no sequence is unfinished, and tells how many: printed ones of the cursor's row,
// or line feeds and carriage returns.
fn write_run(page: &mut Page, text: &Splitter, units: &[u16]) -> usize
    requires page { IsPage page.old }
    requires some { 0 < length units.now }
    ensures page { IsPage page.new }
    ensures count { result ≤ length units.now }
    ensures run { IsRun (record { page = page.old; text = text.now.tail }) (take result units.now) page.new }
{
    if !text.is_clear() {
        return 0;
    }
    let first = units[0];
    if 0x20 <= first {
        return page.print_run(units);
    }
    if is_end(first) {
        return page.end_rows(units);
    }
    0
}

// Writes some units: a run, or one.
pub(crate) fn write_some(
    page: &mut Page,
    text: &mut Splitter,
    units: &[u16],
    answers: &mut Answers,
) -> (usize, bool)
    requires page { IsPage page.old }
    requires some { 0 < length units.now }
    requires room { length units.now ≤ answers.old.room }
    ensures page { IsPage page.new }
    ensures done { DoneSome (record { page = page.old; text = text.old.tail }) answers.old
        (take result.0 units.now) page.new text.new.tail answers.new result.1 }
    ensures count { 0 < result.0 }
    ensures inside { result.0 ≤ length units.now }
    ensures one { result.1 ≡ true → result.0 ≡ 1 }
{
    let n = write_run(page, text, units);
    if 0 < n {
        answers.spend(n);
        (n, false)
    } else {
        let switched = write_unit(page, text, units[0], answers);
        (1, switched)
    }
}
