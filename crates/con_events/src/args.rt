//! A call's arguments, by their kinds.

ghost use Rattle.std.specs.Prelude.{◌≡◌};
ghost use Rattle.con_events.specs.Shapes.{told};
ghost use Rattle.con_events.specs.Words.Table.{args_of};

use crate::call::{Call, Words};
use con_records::Taken;
use con_units::{Rect, Units};

/// The arguments of a call, in order.
#[derive(Drop)]
pub enum Args<'c> {
    Nothing,
    Number(u32),
    TwoNumbers(u32, u32),
    ThreeNumbers(u32, u32, u32),
    CursorInfo(u32, u32, bool),
    Place(u32, i16, i16),
    Run(u32, i16, i16, u32),
    Fill(u32, i16, i16, u32, u16),
    Units(u32, i16, i16, &'c Units),
    Attrs(u32, i16, i16, &'c Units),
    Attr(u32, u16),
    Write(u32, &'c Units),
    Records(u32, &'c Taken),
    Area(u32, Rect),
    Cells(u32, Rect, &'c Units, &'c Words),
    Scroll(u32, Rect, Option<Rect>, (i16, i16), (u16, u16)),
    Text(&'c Units),
    TwoTexts(&'c Units, &'c Units),
    ThreeTexts(&'c Units, &'c Units, &'c Units),
    Flag(bool),
}

/// A call's arguments.
pub fn arguments_of(call: &Call) -> Args<'_>
    ensures { told result ≡ args_of call.now }
{
    match call {
        Call::Title
        | Call::HistoryInfo
        | Call::HistoryList
        | Call::HistoryClear
        | Call::Processes => Args::Nothing,
        Call::BufferCreate(a)
        | Call::OpenOut(a)
        | Call::OpenIn(a)
        | Call::Close(a)
        | Call::Activate(a)
        | Call::Mode(a)
        | Call::Info(a)
        | Call::CursorInfo(a)
        | Call::Count(a)
        | Call::Flush(a)
        | Call::HandlerAdd(a)
        | Call::HandlerRemove(a) => Args::Number(*a),
        Call::Duplicate(a, b) | Call::SetMode(a, b) | Call::Peek(a, b) | Call::Signal(a, b) =>
            Args::TwoNumbers(*a, *b),
        Call::SetSize(a, b, c) | Call::SetHistory(a, b, c) => Args::ThreeNumbers(*a, *b, *c),
        Call::SetCursor(a, b, c) | Call::SetOrigin(a, b, c) => Args::Place(*a, *b, *c),
        Call::SetCursorInfo(a, b, c) => Args::CursorInfo(*a, *b, *c),
        Call::SetAttr(a, b) => Args::Attr(*a, *b),
        Call::SetTitle(a) | Call::AliasList(a) => Args::Text(a),
        Call::Write(a, b) => Args::Write(*a, b),
        Call::RectRead(a, b) => Args::Area(*a, *b),
        Call::RectWrite(a, b, c, d) => Args::Cells(*a, *b, c, d),
        Call::RunReadUnits(a, b, c, d) | Call::RunReadAttrs(a, b, c, d) => Args::Run(
            *a, *b, *c, *d,
        ),
        Call::RunWriteUnits(a, b, c, d) => Args::Units(*a, *b, *c, d),
        Call::RunWriteAttrs(a, b, c, d) => Args::Attrs(*a, *b, *c, d),
        Call::FillUnits(a, b, c, d, e) | Call::FillAttrs(a, b, c, d, e) => Args::Fill(
            *a, *b, *c, *d, *e,
        ),
        Call::Scroll(a, b, c, d, e, f, g) => Args::Scroll(*a, *b, *c, (*d, *e), (*f, *g)),
        Call::WriteInput(a, b) => Args::Records(*a, b),
        Call::AliasAdd(a, b, c) => Args::ThreeTexts(a, b, c),
        Call::AliasRemove(a, b) | Call::AliasGet(a, b) => Args::TwoTexts(a, b),
        Call::Ignore(a) => Args::Flag(*a),
    }
}
