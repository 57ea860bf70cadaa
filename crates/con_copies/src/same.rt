//! Whether two events are the same, or two of their parts, or two replies.
ghost use Rattle.std.specs.Prelude.{◌≡◌, ◌↔◌, true};
ghost use Rattle.con_events.specs.Shapes.{told};
ghost use Rattle.con_copies.specs.Shapes.{shape_of};

use con_events::{Args, Call, Event, Reply, Wanted, Words, arguments_of, name};
use con_records::Record;
use con_units::{Bytes, Cell, Rect, Units, View};

// Whether two texts are the same.
fn same_units(a: &Units, b: &Units) -> bool
    ensures { (result ≡ true) ↔ (a.now ≡ b.now) }
{
    a.0.as_slice() == b.0.as_slice()
}

// Whether two lists of records are the same.
fn same_records(a: &[Record], b: &[Record]) -> bool
    ensures { (result ≡ true) ↔ (a.now ≡ b.now) }
{
    a == b
}

/// Whether two waits are the same.
pub fn same_wanted(a: &Wanted, b: &Wanted) -> bool
    ensures { (result ≡ true) ↔ (a.now ≡ b.now) }
{
    match (a, b) {
        (
            Wanted::Read { handle, n },
            Wanted::Read {
                handle: other,
                n: m,
            },
        ) => { *handle == *other && *n == *m }
        (
            Wanted::ReadInput { handle, n },
            Wanted::ReadInput {
                handle: other,
                n: m,
            },
        ) => { *handle == *other && *n == *m }
        (
            Wanted::ReadWith {
                handle,
                n,
                initial,
                mask,
            },
            Wanted::ReadWith {
                handle: other,
                n: m,
                initial: text,
                mask: bits,
            },
        ) => *handle == *other && *n == *m && same_units(initial, text) && *mask == *bits,
        _ => false,
    }
}

// Whether two corners are the same, each of a column and a row.
fn same_corner(column: i16, row: i16, other_column: i16, other_row: i16) -> bool
    ensures { (result ≡ true) ↔ ((column ≡ other_column) × (row ≡ other_row)) }
{
    column == other_column && row == other_row
}

// Whether two rectangles are the same.
fn same_rect(a: &Rect, b: &Rect) -> bool
    ensures { (result ≡ true) ↔ (a.now ≡ b.now) }
{
    same_corner(a.left, a.top, b.left, b.top) && same_corner(a.right, a.bottom, b.right, b.bottom)
}

// Whether two clips are the same.
fn same_clip(a: &Option<Rect>, b: &Option<Rect>) -> bool
    ensures { (result ≡ true) ↔ (a.now ≡ b.now) }
{
    match (a, b) {
        (Some(clip), Some(other)) => same_rect(clip, other),
        (None, None) => true,
        _ => false,
    }
}

// Whether two targets of a scroll are the same: column and row, and the unit and word of the fill.
fn same_target(a: ((i16, i16), (u16, u16)), b: ((i16, i16), (u16, u16))) -> bool
    ensures { (result ≡ true) ↔ (a ≡ b) }
{
    a == b
}

// Whether two lists of words are the same.
fn same_words(a: &Words, b: &Words) -> bool
    ensures { (result ≡ true) ↔ (a.now ≡ b.now) }
{
    match (a, b) {
        (Words::One(word), Words::One(other)) => *word == *other,
        (Words::Each(words), Words::Each(others)) => same_units(words, others),
        _ => false,
    }
}

// Whether two calls' arguments are the same, and numbers alone.
fn same_numbers_of(args: &Args<'_>, other: &Args<'_>) -> bool
    ensures { (result ≡ true) ↔ ((shape_of args.now ≡ 0) × (told args.now ≡ told other.now)) }
{
    match (args, other) {
        (Args::Nothing, Args::Nothing) => true,
        (Args::Flag(a), Args::Flag(h)) => *a == *h,
        (Args::Number(a), Args::Number(h)) => *a == *h,
        (Args::Attr(a, b), Args::Attr(h, i)) => *a == *h && *b == *i,
        (Args::TwoNumbers(a, b), Args::TwoNumbers(h, i)) => *a == *h && *b == *i,
        (Args::ThreeNumbers(a, b, c), Args::ThreeNumbers(h, i, j)) => *a == *h
            && *b == *i
            && *c == *j,
        (Args::CursorInfo(a, b, c), Args::CursorInfo(h, i, j)) => *a == *h && *b == *i && *c == *j,
        (Args::Place(a, b, c), Args::Place(h, i, j)) => *a == *h && *b == *i && *c == *j,
        (Args::Run(a, b, c, d), Args::Run(h, i, j, k)) => *a == *h
            && *b == *i
            && *c == *j
            && *d == *k,
        (Args::Fill(a, b, c, d, e), Args::Fill(h, i, j, k, l)) => *a == *h
            && *b == *i
            && *c == *j
            && *d == *k
            && *e == *l,
        _ => false,
    }
}

// Whether two calls' arguments are the same, with a text, a rectangle or records among them.
fn same_others_of(args: &Args<'_>, other: &Args<'_>) -> bool
    ensures { (result ≡ true) ↔ ((shape_of args.now ≡ 1) × (told args.now ≡ told other.now)) }
{
    match (args, other) {
        (Args::Text(a), Args::Text(h)) => same_units(a, h),
        (Args::TwoTexts(a, b), Args::TwoTexts(h, i)) => same_units(a, h) && same_units(b, i),
        (Args::ThreeTexts(a, b, c), Args::ThreeTexts(h, i, j)) => same_units(a, h)
            && same_units(b, i)
            && same_units(c, j),
        (Args::Write(a, b), Args::Write(h, i)) => *a == *h && same_units(b, i),
        (Args::Records(a, b), Args::Records(h, i)) => *a == *h
            && same_records(b.0.as_slice(), i.0.as_slice()),
        (Args::Units(a, b, c, d), Args::Units(h, i, j, k)) => *a == *h
            && *b == *i
            && *c == *j
            && same_units(d, k),
        (Args::Attrs(a, b, c, d), Args::Attrs(h, i, j, k)) => *a == *h
            && *b == *i
            && *c == *j
            && same_units(d, k),
        (Args::Area(a, b), Args::Area(h, i)) => *a == *h && same_rect(b, i),
        (Args::Cells(a, b, c, d), Args::Cells(h, i, j, k)) => *a == *h
            && same_rect(b, i)
            && same_units(c, j)
            && same_words(d, k),
        (Args::Scroll(a, b, c, d, e), Args::Scroll(h, i, j, k, l)) => *a == *h
            && same_rect(b, i)
            && same_clip(c, j)
            && same_target((*d, *e), (*k, *l)),
        _ => false,
    }
}

// Whether two calls' arguments are the same.
fn same_args(args: &Args<'_>, other: &Args<'_>) -> bool
    ensures { (result ≡ true) ↔ (told args.now ≡ told other.now) }
{
    same_numbers_of(args, other) || same_others_of(args, other)
}

/// Whether two calls are the same: of one name, with the same arguments.
pub fn same_call(a: &Call, b: &Call) -> bool
    ensures { (result ≡ true) ↔ (a.now ≡ b.now) }
{
    name(a) == name(b) && same_args(&arguments_of(a), &arguments_of(b))
}

// Whether two lists of bytes are the same.
fn same_bytes(a: &Bytes, b: &Bytes) -> bool
    ensures { (result ≡ true) ↔ (a.now ≡ b.now) }
{
    a.0.as_slice() == b.0.as_slice()
}

/// Whether two events are the same.
pub fn same_event(a: &Event, b: &Event) -> bool
    ensures { (result ≡ true) ↔ (a.now ≡ b.now) }
{
    match (a, b) {
        (Event::Call(call), Event::Call(other)) => same_call(call, other),
        (Event::Begin(wanted), Event::Begin(other)) => same_wanted(wanted, other),
        (Event::Collect, Event::Collect) => true,
        (Event::TakeCtrl, Event::TakeCtrl) => true,
        (Event::Exit(status), Event::Exit(other)) => *status == *other,
        (Event::Feed(bytes), Event::Feed(other)) => same_bytes(bytes, other),
        (Event::Quiet, Event::Quiet) => true,
        (Event::Resize(size), Event::Resize(other)) => size.w == other.w && size.h == other.h,
        (Event::Ask, Event::Ask) => true,
        (Event::Hangup, Event::Hangup) => true,
        (Event::Drained, Event::Drained) => true,
        (Event::Paint, Event::Paint) => true,
        _ => false,
    }
}

// Whether two lists of numbers are the same.
fn same_numbers(a: &[i64], b: &[i64]) -> bool
    ensures { (result ≡ true) ↔ (a.now ≡ b.now) }
{
    a == b
}

// Whether two lists of texts are the same.
fn same_texts(a: &[Units], b: &[Units]) -> bool
    ensures { (result ≡ true) ↔ (a.now ≡ b.now) }
{
    if a.len() != b.len() {
        return false;
    }
    for at in 0..a.len() {
        if !same_units(&a[at], &b[at]) {
            return false;
        }
    }
    true
}

// Whether two lists of marks are the same.
fn same_marks(a: &[bool], b: &[bool]) -> bool
    ensures { (result ≡ true) ↔ (a.now ≡ b.now) }
{
    if a.len() != b.len() {
        return false;
    }
    for at in 0..a.len() {
        if a[at] != b[at] {
            return false;
        }
    }
    true
}

// Whether two lists of cells are the same.
fn same_glyphs(a: &[Cell], b: &[Cell]) -> bool
    ensures { (result ≡ true) ↔ (a.now ≡ b.now) }
{
    if a.len() != b.len() {
        return false;
    }
    for at in 0..a.len() {
        if a[at] != b[at] {
            return false;
        }
    }
    true
}

// Whether two pictures are the same.
fn same_view(a: &View, b: &View) -> bool
    ensures { (result ≡ true) ↔ (a.now ≡ b.now) }
{
    a.size.w == b.size.w
        && a.size.h == b.size.h
        && a.visible == b.visible
        && same_corner(a.cursor.x, a.cursor.y, b.cursor.x, b.cursor.y)
        && same_glyphs(a.rows.0.as_slice(), b.rows.0.as_slice())
}

/// Whether two replies are the same.
pub fn same_reply(a: &Reply, b: &Reply) -> bool
    ensures { (result ≡ true) ↔ (a.now ≡ b.now) }
{
    match (a, b) {
        (Reply::Done, Reply::Done) => true,
        (Reply::Fail(code), Reply::Fail(other)) => *code == *other,
        (Reply::Number(number), Reply::Number(other)) => *number == *other,
        (Reply::Numbers(numbers), Reply::Numbers(other)) => same_numbers(
            numbers.0.as_slice(),
            other.0.as_slice(),
        ),
        (Reply::Units(units), Reply::Units(other)) => same_units(units, other),
        (Reply::Records(records), Reply::Records(other)) => {
            same_records(records.0.as_slice(), other.0.as_slice())
        }
        (Reply::Cells(area, cells), Reply::Cells(other, others)) => {
            same_rect(area, other) && same_glyphs(cells.0.as_slice(), others.0.as_slice())
        }
        (Reply::Lines(lines), Reply::Lines(other)) => {
            same_texts(lines.0.as_slice(), other.0.as_slice())
        }
        (Reply::Ctrl(event), Reply::Ctrl(other)) => *event == *other,
        (Reply::View(view, marks, anew), Reply::View(other, rows, fresh)) => {
            same_view(view, other)
                && same_marks(marks.0.as_slice(), rows.0.as_slice())
                && *anew == *fresh
        }
        _ => false,
    }
}
