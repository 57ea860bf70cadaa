//! What becomes known with an item.
ghost use Rattle.std.specs.Prelude.{◌≡◌, ℕ, ◌&&◌, ◌==◌, true, false, not, length, fold, option_to_list, if◌then◌else◌};
ghost use Rattle.con_term.specs.Effect.{effect};
ghost use Rattle.con_vtgram.specs.Pen.{starting_pen};
ghost use Rattle.con_term.specs.Page.{Page};
ghost use Rattle.con_vtgram.specs.State.{item_of};
ghost use Rattle.con_vtgram.specs.declared.item.Item.TheVariants as Item;
ghost use Rattle.con_audit.specs.Known.{ink, marked, final, rests_on_cursor, tells_cursor, tells_visible};
ghost use Rattle.con_audit.specs.Known.{tells_pen, all_learned, has_zero, resets, is_single};
ghost use Rattle.con_vtgram.specs.Sgr.{with_next};
ghost use Rattle.con_vtgram.specs.declared.pen.ParameterRole.TheVariants.{Plain};
ghost use Rattle.con_audit.specs.Flags.{any_of, known_by, is_sgr, forgotten, shade_csi, lift_csi, plain_csi, flags_after, next_role};

use con_term::page::Page;
use con_vtgram::pen::{Layer, ParameterRole};
use con_vtgram::{Csi, Found};

/// Which of pen, visibility and cursor are known.
#[derive(Clone, Copy, PartialEq, Eq)]
pub struct Flags {
    pub pen: bool,
    pub visible: bool,
    pub cursor: bool,
}

/// CSI 38;5;16 m, the pen of marks of cells that are not known.
pub fn shade() -> Csi
    ensures { result ≡ shade_csi }
{
    Csi {
        private: false,
        count: 3,
        params: [38, 5, 16, 0, 0, 0, 0, 0, 0, 0, 0, 0, 0, 0, 0, 0],
        inter: 0,
        last: 0x6D,
    }
}

// CSI 256 S, by which all rows go up.
fn lift() -> Csi
    ensures { result ≡ lift_csi }
{
    Csi {
        private: false,
        count: 1,
        params: [256, 0, 0, 0, 0, 0, 0, 0, 0, 0, 0, 0, 0, 0, 0, 0],
        inter: 0,
        last: 0x53,
    }
}

// CSI m, the pen of marks of cells that are known.
fn plain() -> Csi
    ensures { result ≡ plain_csi }
{
    Csi {
        private: false,
        count: 0,
        params: [0, 0, 0, 0, 0, 0, 0, 0, 0, 0, 0, 0, 0, 0, 0, 0],
        inter: 0,
        last: 0x6D,
    }
}

// The final byte of a control sequence without ? and intermediate, or 0.
fn final_of(csi: &Csi) -> u16
    ensures { result ≡ final (Item.Csi csi.now) }
{
    if csi.inter == 0 && !csi.private {
        csi.last
    } else {
        0
    }
}

fn is_sgr(found: Found, csi: &Csi) -> bool
    ensures { (u : ℕ) → result ≡ any_of is_sgr (item_of found u csi.now) }
{
    match found {
        Found::Sequence => final_of(csi) == 0x6D,
        _ => false,
    }
}

fn rests_on_cursor(found: Found, unit: u16, csi: &Csi) -> bool
    ensures { result ≡ any_of rests_on_cursor (item_of found unit csi.now) }
{
    match found {
        Found::Print => true,
        Found::Control => unit == 10,
        Found::Sequence => {
            let last = final_of(csi);
            last == 0x4A || last == 0x4B || last == 0x58
        }
        _ => false,
    }
}

fn tells_cursor(found: Found, unit: u16, csi: &Csi) -> bool
    ensures { result ≡ any_of tells_cursor (item_of found unit csi.now) }
{
    // no item of one unit tells it: the clause alone speaks of the unit
    let _ = unit;
    match found {
        Found::Sequence => {
            let last = final_of(csi);
            last == 0x48 || last == 0x66
        }
        _ => false,
    }
}

fn tells_visible(found: Found, unit: u16, csi: &Csi) -> bool
    ensures { result ≡ any_of tells_visible (item_of found unit csi.now) }
{
    // no item of one unit tells it: the clause alone speaks of the unit
    let _ = unit;
    match found {
        Found::Sequence => {
            csi.inter == 0
                && csi.private
                && csi.params[0] == 25
                && (csi.last == 0x68 || csi.last == 0x6C)
        }
        _ => false,
    }
}

// What the parameter of SGR behind this one is.
fn next_role(role: ParameterRole, n: u16) -> ParameterRole
    ensures { result ≡ next_role role n }
{
    match role {
        ParameterRole::Plain => match n {
            38 => ParameterRole::Kind(Layer::Fore),
            48 => ParameterRole::Kind(Layer::Back),
            _ => ParameterRole::Plain,
        },
        ParameterRole::Kind(layer) => match n {
            5 => ParameterRole::Number(layer),
            2 => ParameterRole::Skip(3),
            _ => ParameterRole::Over,
        },
        ParameterRole::Number(_) => ParameterRole::Plain,
        ParameterRole::Skip(count) => {
            if 1 < count {
                ParameterRole::Skip(count - 1)
            } else {
                ParameterRole::Plain
            }
        }
        ParameterRole::Over => ParameterRole::Over,
    }
}

// A 0 that stands by itself.
fn is_reset(role: ParameterRole, n: u16) -> bool
    ensures { result ≡ (is_single role && (n == 0)) }
{
    matches!(role, ParameterRole::Plain) && n == 0
}

// Whether a 0 stands by itself among parameters.
fn has_zero(parameters: &[u16]) -> bool
    ensures { result ≡ has_zero (with_next starting_pen Plain) parameters.now }
{
    let mut role = ParameterRole::Plain;
    for parameter in parameters {
        if is_reset(role, *parameter) {
            return true;
        }
        role = next_role(role, *parameter);
    }
    false
}

fn resets(csi: &Csi) -> bool
    ensures { result ≡ resets csi.now }
{
    csi.count == 0 || has_zero(&csi.params[..csi.count.min(16) as usize])
}

fn tells_pen(found: Found, csi: &Csi) -> bool
    ensures { (u : ℕ) → result ≡ any_of tells_pen (item_of found u csi.now) }
{
    match found {
        Found::Sequence => final_of(csi) == 0x6D && resets(csi),
        _ => false,
    }
}

/// All marks become unknown.
pub fn forget(marks: &mut Page, pen: bool)
    requires { marks.old.pen ≡ ink pen }
    ensures { marks.new ≡ forgotten marks.old }
{
    marks.is_page();
    marks.apply(Found::Sequence, 0, &shade());
    marks.apply(Found::Sequence, 0, &lift());
    if pen {
        marks.apply(Found::Sequence, 0, &plain());
    }
}

// The marks after another item than SGR.
fn mark_cells(marks: &mut Page, flags: Flags, found: Found, unit: u16, csi: &Csi)
    requires pen { marks.old.pen ≡ ink flags.pen }
    requires other { any_of is_sgr (item_of found unit csi.now) ≡ false }
    ensures { marks.new ≡ (if not flags.cursor && any_of rests_on_cursor (item_of found unit csi.now)
        then forgotten (fold effect marks.old (option_to_list (item_of found unit csi.now)))
        else fold effect marks.old (option_to_list (item_of found unit csi.now))) }
{
    marks.apply(found, unit, csi);
    if !flags.cursor && rests_on_cursor(found, unit, csi) {
        forget(marks, flags.pen);
    }
}

// The pen becomes known.
fn becomes_known(flags: Flags, csi: &Csi) -> bool
    ensures { result ≡ (not flags.pen && resets csi.now) }
{
    !flags.pen && resets(csi)
}

// The marks after SGR.
fn mark_pen(marks: &mut Page, flags: Flags, csi: &Csi)
    requires { marks.old.pen ≡ ink flags.pen }
    ensures { marks.new ≡ record marks.old { pen = if not flags.pen && resets csi.now then starting_pen else ink flags.pen } }
{
    if becomes_known(flags, csi) {
        marks.apply(Found::Sequence, 0, &plain());
    }
}

// The marks after an item, or none.
fn mark(marks: &mut Page, flags: Flags, found: Found, unit: u16, csi: &Csi)
    requires { marks.old.pen ≡ ink flags.pen }
    ensures { (s : Page) → length marks.old.cells ≡ length s.cells → marks.old ≡ marked s (known_by marks.old flags)
        → marks.new ≡ marked (fold effect s (option_to_list (item_of found unit csi.now)))
        (all_learned s (known_by marks.old flags) (option_to_list (item_of found unit csi.now))) }
{
    if is_sgr(found, csi) {
        mark_pen(marks, flags, csi);
    } else {
        mark_cells(marks, flags, found, unit, csi);
    }
}

fn next_flags(flags: Flags, found: Found, unit: u16, csi: &Csi) -> Flags
    ensures { result ≡ flags_after flags (item_of found unit csi.now) }
{
    Flags {
        pen: flags.pen || tells_pen(found, csi),
        visible: flags.visible || tells_visible(found, unit, csi),
        cursor: flags.cursor || tells_cursor(found, unit, csi),
    }
}

/// An item changes the page, and what is known of it.
pub fn learn(
    page: &mut Page,
    marks: &mut Page,
    flags: Flags,
    found: Found,
    unit: u16,
    csi: &Csi,
) -> Flags
    requires tied { marks.old ≡ marked page.old (known_by marks.old flags) }
    ensures page { page.new ≡ fold effect page.old (option_to_list (item_of found unit csi.now)) }
    ensures known { known_by marks.new result ≡ all_learned page.old (known_by marks.old flags) (option_to_list (item_of found unit csi.now)) }
    ensures tied { marks.new ≡ marked page.new (known_by marks.new result) }
{
    page.is_page();
    marks.is_page();
    mark(marks, flags, found, unit, csi);
    page.apply(found, unit, csi);
    next_flags(flags, found, unit, csi)
}
