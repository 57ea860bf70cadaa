//! Pens: the shortest control sequence that makes the pen of one attribute that of another.
ghost use Rattle.std.specs.Prelude.{◌≡◌, ◌+◌, ◌/◌, ◌%◌, ◌<◌, ◌≤◌, ◌++◌, ◌==◌, true, false, nat_le, ◌||◌};
ghost use Rattle.std.specs.Vec.{vec_len, vec_capacity};
ghost use Rattle.con_units.specs.Attr.{plain};
ghost use Rattle.con_units.specs.Words.Attr.{IsAttribute};
ghost use Rattle.con_vtgram.specs.Pen.{nibble as nibble_of};
ghost use Rattle.con_term.specs.Page.{Page};
ghost use Rattle.con_strokes.specs.Bytes.{csi_bytes, parts, separated};
ghost use Rattle.con_strokes.specs.Ink.{pen_for};
ghost use Rattle.con_strokes.specs.Leads.{Leads};
ghost use Rattle.con_strokes.specs.Pens as pens;

use crate::cells::is_same_attr;
use crate::emit::{append, number_if};
use con_units::{Attr, Shade, near};

/// What a control sequence changes of a pen: all of it to what a terminal starts with, and then single parts.
#[derive(Clone, Copy)]
pub struct Changes {
    pub reset: bool,
    pub bold: bool,
    pub underline: bool,
    pub negative: bool,
    pub foreground: bool,
    pub background: bool,
}

/// The attribute that a terminal starts with.
pub fn plain_attr() -> Attr
    ensures { result ≡ plain 7 }
{
    Attr::of(7)
}

fn nibble(c: u16) -> u16
    requires { c < 8 }
    ensures number { result ≡ nibble_of c }
    ensures small { result < 8 }
{
    c % 2 * 4 + c / 2 % 2 * 2 + c / 4 % 2
}

#[tactic(auto, unfolding(crate::specs::Pens::colour_number))]
fn colour_number(dark: u16, bright: u16, c: u16) -> u16
    requires small { (c < 16) × (dark < 200) × (bright < 200) }
    ensures number { result ≡ pens.colour_number dark bright c }
    ensures small { result < 1000 }
{
    if c < 8 {
        dark + nibble(c)
    } else {
        bright + nibble(c - 8)
    }
}

fn is_plain(shade: Shade) -> bool
    ensures { result ≡ pens.is_plain shade }
{
    match shade {
        Shade::Plain => true,
        Shade::Index(_) => false,
    }
}

// Whether both colours are those that a terminal starts with, which a person may have chosen.
fn is_default(attr: Attr) -> bool
    ensures { result ≡ pens.is_default attr }
{
    attr.bits() % 256 == 7 && is_plain(attr.fore()) && is_plain(attr.back())
}

// Whether the foreground is that of an index with its intensity set.
fn is_bold(attr: Attr) -> bool
    ensures { result ≡ pens.is_bold attr }
{
    match attr.fore() {
        Shade::Plain => false,
        Shade::Index(n) => attr.bits() % 16 != near(n) as u16,
    }
}

fn bold_number(attr: Attr) -> u16
    ensures number { result ≡ pens.bold_number attr }
    ensures small { result < 1000 }
{
    if is_bold(attr) { 1 } else { 22 }
}

fn underline_number(attr: Attr) -> u16
    ensures number { result ≡ pens.underline_number attr }
    ensures small { result < 1000 }
{
    if 0x8000 <= attr.bits() { 4 } else { 24 }
}

fn negative_number(attr: Attr) -> u16
    ensures number { result ≡ pens.negative_number attr }
    ensures small { result < 1000 }
{
    if attr.bits() / 0x4000 % 2 == 1 { 7 } else { 27 }
}

#[tactic(auto, unfolding(crate::specs::Pens::foreground_number))]
fn foreground_number(attr: Attr) -> u16
    ensures number { result ≡ pens.foreground_number attr }
    ensures small { result < 1000 }
{
    if is_default(attr) {
        39
    } else {
        colour_number(30, 90, attr.bits() % 16)
    }
}

#[tactic(auto, unfolding(crate::specs::Pens::background_number))]
fn background_number(attr: Attr) -> u16
    ensures number { result ≡ pens.background_number attr }
    ensures small { result < 1000 }
{
    if is_default(attr) {
        49
    } else {
        colour_number(40, 100, attr.bits() / 16 % 16)
    }
}

fn differ(a: bool, b: bool) -> bool
    ensures { result ≡ false → a ≡ b }
{
    a != b
}

fn shades_differ(a: Shade, b: Shade) -> bool
    ensures { result ≡ false → a ≡ b }
{
    match a {
        Shade::Plain => match b {
            Shade::Plain => false,
            Shade::Index(_) => true,
        },
        Shade::Index(m) => match b {
            Shade::Plain => true,
            Shade::Index(n) => m != n,
        },
    }
}

// Whether one of three holds.
fn any(a: bool, b: bool, c: bool) -> bool
    ensures { result ≡ (a || b || c) }
{
    a || b || c
}

// The parts in which the pens of two attributes differ. Colours that a terminal starts with are sent as such, both or none.
fn differences(reset: bool, from: Attr, attr: Attr) -> Changes
    ensures reset { result.reset ≡ reset }
    ensures bold { result.bold ≡ false → pens.is_bold from ≡ pens.is_bold attr }
    ensures underline { result.underline ≡ false → nat_le 0x8000 from.word ≡ nat_le 0x8000 attr.word }
    ensures negative { result.negative ≡ false → (from.word / 0x4000 % 2 == 1) ≡ (attr.word / 0x4000 % 2 == 1) }
    ensures foreground { result.foreground ≡ false → (from.word % 16 ≡ attr.word % 16) × (from.fore ≡ attr.fore) }
    ensures background { result.background ≡ false → (from.word / 16 % 16 ≡ attr.word / 16 % 16) × (from.back ≡ attr.back) }
{
    let was = from.bits();
    let word = attr.bits();
    let both = differ(is_default(from), is_default(attr));
    let bold = differ(is_bold(from), is_bold(attr));
    let underline = differ(0x8000 <= was, 0x8000 <= word);
    let negative = differ(was / 0x4000 % 2 == 1, word / 0x4000 % 2 == 1);
    let fore = shades_differ(from.fore(), attr.fore());
    let back = shades_differ(from.back(), attr.back());
    let foreground = any(both, was % 16 != word % 16, fore);
    let background = any(both, was / 16 % 16 != word / 16 % 16, back);
    Changes {
        reset,
        bold,
        underline,
        negative,
        foreground,
        background,
    }
}

fn is_some(changes: Changes) -> bool
    ensures { result ≡ pens.is_some changes }
{
    changes.reset
        || changes.bold
        || changes.underline
        || changes.negative
        || changes.foreground
        || changes.background
}

// How many bytes a number takes with its semicolon, where it is wanted.
fn length_if(wanted: bool, n: u16) -> u16
    ensures { result ≤ 4 }
{
    if !wanted {
        0
    } else if n < 10 {
        2
    } else if n < 100 {
        3
    } else {
        4
    }
}

// The same of a colour's own number, or of the three of an index.
fn colour_length_if(wanted: bool, shade: Shade, n: u16) -> u16
    ensures { result ≤ 9 }
{
    match shade {
        Shade::Plain => length_if(wanted, n),
        Shade::Index(index) => length_if(wanted, index as u16) + if wanted { 5 } else { 0 },
    }
}

fn length_of(changes: Changes, attr: Attr) -> u16 {
    length_if(changes.reset, 0)
        + length_if(changes.bold, bold_number(attr))
        + length_if(changes.underline, underline_number(attr))
        + length_if(changes.negative, negative_number(attr))
        + colour_length_if(changes.foreground, attr.fore(), foreground_number(attr))
        + colour_length_if(changes.background, attr.back(), background_number(attr))
}

fn is_shorter(on: Changes, anew: Changes, attr: Attr) -> bool
    ensures { result ≡ true → pens.is_some on ≡ true }
{
    is_some(on) && length_of(on, attr) < length_of(anew, attr)
}

// The changes that take fewest bytes.
fn changes_of(before: Attr, attr: Attr) -> Changes
    ensures { pens.IsEnough result before attr }
{
    let on = differences(false, before, attr);
    let anew = differences(true, plain_attr(), attr);
    if is_shorter(on, anew, attr) { on } else { anew }
}

// Appends a colour's own number, or the three of an index, where it is wanted, and tells whether there are some then.
fn colour_if(out: &mut Vec<u8>, some: bool, wanted: bool, layer: u16, shade: Shade, n: u16) -> bool
    requires few { (layer < 1000) × (n < 1000) }
    requires room { vec_len out.old + 12 ≤ vec_capacity out.old }
    ensures bytes { out.new.items ≡ out.old.items ++ separated some (parts wanted (pens.colour_numbers layer shade n)) }
    ensures some { result ≡ (some || wanted) }
    ensures capacity { vec_capacity out.new ≡ vec_capacity out.old }
    ensures few { vec_len out.new ≤ vec_len out.old + 12 }
{
    match shade {
        Shade::Plain => number_if(out, some, wanted, n),
        Shade::Index(index) => {
            let first = number_if(out, some, wanted, layer);
            let second = number_if(out, first, wanted, 5);
            number_if(out, second, wanted, index as u16)
        }
    }
}

#[tactic(auto, unfolding(crate::specs::Bytes::csi_bytes))]
fn pen_bytes(out: &mut Vec<u8>, changes: Changes, attr: Attr)
    requires room { vec_len out.old + 43 ≤ vec_capacity out.old }
    ensures bytes { out.new.items ≡ out.old.items ++ csi_bytes (pens.numbers_of changes attr) 0x6D }
    ensures capacity { vec_capacity out.new ≡ vec_capacity out.old }
    ensures few { vec_len out.new ≤ vec_len out.old + 43 }
{
    let fore = foreground_number(attr);
    let back = background_number(attr);
    out.push_reserved(0x1B);
    out.push_reserved(0x5B);
    let first = number_if(out, false, changes.reset, 0);
    let second = number_if(out, first, changes.bold, bold_number(attr));
    let third = number_if(out, second, changes.underline, underline_number(attr));
    let fourth = number_if(out, third, changes.negative, negative_number(attr));
    let fifth = colour_if(out, fourth, changes.foreground, 38, attr.fore(), fore);
    let _ = colour_if(out, fifth, changes.background, 48, attr.back(), back);
    out.push_reserved(0x6D);
}

/// Chooses the pen of an attribute, where the pen is that of the attribute before.
pub fn choose(out: &mut Vec<u8>, before: Attr, attr: Attr)
    requires room { vec_len out.old + 43 ≤ vec_capacity out.old }
    ensures leads { (s : Page) → s.pen ≡ pen_for before → Leads out.old.items out.new.items s (record s { pen = pen_for attr }) 0 }
    ensures quiet { before ≡ attr → out.new.items ≡ out.old.items }
    ensures kept { IsAttribute attr × (attr.word < 0x10000) }
    ensures capacity { vec_capacity out.new ≡ vec_capacity out.old }
    ensures few { vec_len out.new ≤ vec_len out.old + 43 }
{
    if is_same_attr(before, attr) {
        return;
    }
    if is_same_attr(attr, plain_attr()) {
        append(out, b"\x1B[m");
    } else {
        let changes = changes_of(before, attr);
        pen_bytes(out, changes, attr);
    }
}
