//! The text that tells what a terminal shows.
ghost use Rattle.std.specs.Prelude.{◌≡◌, ◌+◌, ◌*◌, ◌<◌, ◌≤◌, ◌++◌, ◌∷◌, [], ◌==◌, List, length, IfOk, OnOk, vec_len, vec_capacity};
ghost use Rattle.con_units.specs.Decimal.{decimal};
ghost use Rattle.con_units.specs.Glyph.{Glyph};
ghost use Rattle.std.specs.Char.{digit_char};
ghost use Rattle.con_units.specs.Attr.{plain};
ghost use Rattle.con_term.specs.Same.{same_shade, same_attr};
ghost use Rattle.con_dump.specs.Dump.{hex_word, shade_text, head_line, row_line, run_line, run_lines, rows_text, runs_text, dump as dump_of};

use crate::units::push_bytes;
use con_term::Terminal;
use con_term::page::Page;
use con_units::{Attr, Cell, OutOfMemory, Shade, Size, Units};
use std::alloc::AllocError;

// How many units a run's line has at most: three numbers, a word, two indices, and what stands between them.
const RUN: usize = 28;

// How many units the head has at most.
const HEAD: usize = 23;

#[tactic(auto, unfolding(con_units::specs::Decimal::decimal))]
fn number(out: &mut Vec<u16>, n: u16)
    requires few { n < 1000 }
    requires room { vec_len out.old + 3 ≤ vec_capacity out.old }
    ensures items { out.new.items ≡ out.old.items ++ decimal n }
    ensures len { vec_len out.new ≤ vec_len out.old + 3 }
    ensures capacity { vec_capacity out.new ≡ vec_capacity out.old }
{
    if 100 <= n {
        out.push_reserved(0x30 + n / 100);
    }
    if 10 <= n {
        out.push_reserved(0x30 + n / 10 % 10);
    }
    out.push_reserved(0x30 + n % 10);
}

fn digit(d: u16) -> u16
    requires { d < 16 }
    ensures { result ≡ digit_char d }
{
    if d < 10 { 0x30 + d } else { 0x57 + d }
}

#[tactic(auto, unfolding(crate::specs::Dump::hex_word))]
fn word(out: &mut Vec<u16>, word: u16)
    requires room { vec_len out.old + 4 ≤ vec_capacity out.old }
    ensures items { out.new.items ≡ out.old.items ++ hex_word word }
    ensures len { vec_len out.new ≤ vec_len out.old + 4 }
    ensures capacity { vec_capacity out.new ≡ vec_capacity out.old }
{
    out.push_reserved(digit(word / 4096));
    out.push_reserved(digit(word / 256 % 16));
    out.push_reserved(digit(word / 16 % 16));
    out.push_reserved(digit(word % 16));
}

// The further word of a layer that has an index.
#[tactic(auto, unfolding(crate::specs::Dump::shade_text))]
fn shade(out: &mut Vec<u16>, letter: u16, of: Shade)
    requires room { vec_len out.old + 5 ≤ vec_capacity out.old }
    ensures items { out.new.items ≡ out.old.items ++ shade_text letter of }
    ensures len { vec_len out.new ≤ vec_len out.old + 5 }
    ensures capacity { vec_capacity out.new ≡ vec_capacity out.old }
{
    if let Shade::Index(index) = of {
        out.push_reserved(0x20);
        out.push_reserved(letter);
        number(out, index as u16);
    }
}

fn is_same_shade(a: Shade, b: Shade) -> bool
    ensures { result ≡ same_shade a b }
{
    match a {
        Shade::Plain => match b {
            Shade::Plain => true,
            Shade::Index(_) => false,
        },
        Shade::Index(m) => match b {
            Shade::Plain => false,
            Shade::Index(n) => m == n,
        },
    }
}

#[tactic(auto, unfolding(con_term::specs::Same::same_attr))]
fn is_same(a: Attr, b: Attr) -> bool
    ensures { result ≡ same_attr a b }
{
    a.bits() == b.bits() && is_same_shade(a.fore(), b.fore()) && is_same_shade(a.back(), b.back())
}

// The attribute that is not told.
fn untold() -> Attr
    ensures { result ≡ plain 7 }
{
    Attr::of(7)
}

#[tactic(auto, unfolding(crate::specs::Dump::run_line))]
fn run(out: &mut Vec<u16>, y: u16, x: u16, n: u16, of: Attr)
    requires few { (y < 1000) × (x < 1000) × (n < 1000) }
    requires room { vec_len out.old + 28 ≤ vec_capacity out.old }
    ensures items { out.new.items ≡ out.old.items ++ run_line y x n of }
    ensures len { vec_len out.new ≤ vec_len out.old + 28 }
    ensures capacity { vec_capacity out.new ≡ vec_capacity out.old }
{
    if is_same(of, untold()) || n == 0 {
        return;
    }
    out.push_reserved(0x40);
    number(out, y);
    out.push_reserved(0x2C);
    number(out, x);
    out.push_reserved(0x2B);
    number(out, n);
    out.push_reserved(0x20);
    word(out, of.bits());
    shade(out, 0x66, of.fore());
    shade(out, 0x62, of.back());
    out.push_reserved(0x0A);
}

fn line(out: &mut Vec<u16>, row: &[Cell])
    requires room { vec_len out.old + length row.now + 3 ≤ vec_capacity out.old }
    ensures { out.new.items ≡ out.old.items ++ row_line row.now }
{
    out.push_reserved(0x7C);
    for cell in row {
        out.push_reserved(cell.unit());
    }
    out.push_reserved(0x7C);
    out.push_reserved(0x0A);
}

/// Cells with one attribute: from a column on, so many.
#[derive(Clone, Copy)]
struct Stretch {
    x: u16,
    n: u16,
    attr: Attr,
}

// One more cell of a row.
#[tactic(auto, unfolding(crate::specs::Dump::run_lines))]
fn more(out: &mut Vec<u16>, y: u16, so_far: Stretch, cell: &Cell) -> Stretch
    requires few { (y < 1000) × (so_far.x + so_far.n < 999) }
    requires room { vec_len out.old + 28 ≤ vec_capacity out.old }
    ensures lines { (cs : List Glyph) → out.new.items ++ run_lines y result.x result.n result.attr cs
        ≡ out.old.items ++ run_lines y so_far.x so_far.n so_far.attr (cell.now ∷ cs) }
    ensures few { result.x + result.n ≡ so_far.x + so_far.n + 1 }
    ensures len { vec_len out.new ≤ vec_len out.old + 28 }
    ensures capacity { vec_capacity out.new ≡ vec_capacity out.old }
{
    let attr = cell.attr();
    if is_same(attr, so_far.attr) {
        return Stretch {
            x: so_far.x,
            n: so_far.n + 1,
            attr: so_far.attr,
        };
    }
    run(out, y, so_far.x, so_far.n, so_far.attr);
    Stretch {
        x: so_far.x + so_far.n,
        n: 1,
        attr,
    }
}

// The lines of a row's runs.
#[tactic(auto, unfolding(crate::specs::Dump::run_lines))]
fn runs(out: &mut Vec<u16>, y: u16, row: &[Cell])
    requires few { (y < 1000) × (length row.now < 999) }
    requires room { vec_len out.old + 28 * (length row.now + 1) ≤ vec_capacity out.old }
    ensures { out.new.items ≡ out.old.items ++ run_lines y 0 0 (plain 7) row.now }
{
    let mut so_far = Stretch {
        x: 0,
        n: 0,
        attr: untold(),
    };
    for cell in row {
        so_far = more(out, y, so_far, cell);
    }
    run(out, y, so_far.x, so_far.n, so_far.attr);
}

// The lines of all rows.
fn all_rows(out: &mut Vec<u16>, cells: &[Cell], size: Size) -> Result<(), AllocError>
    requires few { (size.w ≤ 512) × (size.h ≤ 256) }
    requires whole { length cells.now ≡ size.h * size.w }
    ensures { OnOk result (out.new.items ≡ out.old.items ++ rows_text size.w cells.now size.h) }
{
    let width = size.w as usize;
    for y in 0..size.h {
        let from = y as usize * width;
        out.reserve(width + 3)?;
        line(out, &cells[from..from + width]);
    }
    Ok(())
}

// The runs of all rows.
fn all_runs(out: &mut Vec<u16>, cells: &[Cell], size: Size) -> Result<(), AllocError>
    requires few { (size.w ≤ 512) × (size.h ≤ 256) }
    requires whole { length cells.now ≡ size.h * size.w }
    ensures { OnOk result (out.new.items ≡ out.old.items ++ runs_text size.w cells.now size.h) }
{
    let width = size.w as usize;
    for y in 0..size.h {
        let from = y as usize * width;
        out.reserve(RUN * (width + 1))?;
        runs(out, y, &cells[from..from + width]);
    }
    Ok(())
}

#[tactic(auto, unfolding(crate::specs::Dump::head_line))]
fn head(out: &mut Vec<u16>, page: &Page)
    requires { vec_len out.old + 23 ≤ vec_capacity out.old }
    ensures { out.new.items ≡ out.old.items ++ head_line page.now }
{
    number(out, page.size().w);
    out.push_reserved(0x78);
    number(out, page.size().h);
    push_bytes(out, b" cursor ");
    if page.is_visible() {
        number(out, page.column());
        out.push_reserved(0x2C);
        number(out, page.row());
    } else {
        push_bytes(out, b"hidden");
    }
    out.push_reserved(0x0A);
}

// Puts the text that tells what a page shows last.
#[tactic(auto, unfolding(crate::specs::Dump::dump))]
fn append(page: &Page, out: &mut Vec<u16>) -> Result<(), AllocError>
    ensures { OnOk result (out.new.items ≡ out.old.items ++ dump_of page.now) }
{
    out.reserve(HEAD)?;
    head(out, page);
    all_rows(out, page.cells(), page.size())?;
    all_runs(out, page.cells(), page.size())
}

/// The text that tells what a terminal shows.
pub fn dump(terminal: &Terminal) -> Result<Units, OutOfMemory>
    ensures { IfOk result (λ text. text ≡ dump_of terminal.now.page) }
{
    let page = terminal.page();
    let mut text = Vec::new(page.allocator());
    match append(page, &mut text) {
        Ok(()) => Ok(Units(text)),
        Err(_) => Err(OutOfMemory),
    }
}
