//! Copies of what a script says.
ghost use Rattle.std.specs.Prelude.{◌≡◌, IfOk};

use con_events::{Call, Wanted, Words};
use con_records::Taken;
use con_units::OutOfMemory;

fn copied_words(words: &Words) -> Result<Words, OutOfMemory>
    ensures { IfOk result (λ copy. copy ≡ words.now) }
{
    match words {
        Words::One(word) => Ok(Words::One(*word)),
        Words::Each(list) => Ok(Words::Each(list.copied()?)),
    }
}

fn copied_records(records: &Taken) -> Result<Taken, OutOfMemory>
    ensures { IfOk result (λ copy. copy ≡ records.now) }
{
    match records.0.clone() {
        Ok(list) => Ok(Taken(list)),
        Err(_) => Err(OutOfMemory),
    }
}

/// A wait as a script says it.
pub fn copied_wanted(wanted: &Wanted) -> Result<Wanted, OutOfMemory>
    ensures { IfOk result (λ copy. copy ≡ wanted.now) }
{
    match wanted {
        Wanted::Read { handle, n } => Ok(Wanted::Read {
            handle: *handle,
            n: *n,
        }),
        Wanted::ReadInput { handle, n } => Ok(Wanted::ReadInput {
            handle: *handle,
            n: *n,
        }),
        Wanted::ReadWith {
            handle,
            n,
            initial,
            mask,
        } => Ok(Wanted::ReadWith {
            handle: *handle,
            n: *n,
            initial: initial.copied()?,
            mask: *mask,
        }),
    }
}

/// A call as a script says it.
pub fn copied_call(call: &Call) -> Result<Call, OutOfMemory>
    ensures { IfOk result (λ copy. copy ≡ call.now) }
{
    match call {
        Call::BufferCreate(a) => Ok(Call::BufferCreate(*a)),
        Call::OpenOut(a) => Ok(Call::OpenOut(*a)),
        Call::OpenIn(a) => Ok(Call::OpenIn(*a)),
        Call::Close(a) => Ok(Call::Close(*a)),
        Call::Duplicate(a, b) => Ok(Call::Duplicate(*a, *b)),
        Call::Activate(a) => Ok(Call::Activate(*a)),
        Call::Mode(a) => Ok(Call::Mode(*a)),
        Call::SetMode(a, b) => Ok(Call::SetMode(*a, *b)),
        Call::Info(a) => Ok(Call::Info(*a)),
        Call::SetSize(a, b, c) => Ok(Call::SetSize(*a, *b, *c)),
        Call::SetCursor(a, b, c) => Ok(Call::SetCursor(*a, *b, *c)),
        Call::CursorInfo(a) => Ok(Call::CursorInfo(*a)),
        Call::SetCursorInfo(a, b, c) => Ok(Call::SetCursorInfo(*a, *b, *c)),
        Call::SetOrigin(a, b, c) => Ok(Call::SetOrigin(*a, *b, *c)),
        Call::SetAttr(a, b) => Ok(Call::SetAttr(*a, *b)),
        Call::Title => Ok(Call::Title),
        Call::SetTitle(a) => Ok(Call::SetTitle(a.copied()?)),
        Call::Write(a, b) => Ok(Call::Write(*a, b.copied()?)),
        Call::RectRead(a, b) => Ok(Call::RectRead(*a, *b)),
        Call::RectWrite(a, b, c, d) => Ok(Call::RectWrite(*a, *b, c.copied()?, copied_words(d)?)),
        Call::RunReadUnits(a, b, c, d) => Ok(Call::RunReadUnits(*a, *b, *c, *d)),
        Call::RunReadAttrs(a, b, c, d) => Ok(Call::RunReadAttrs(*a, *b, *c, *d)),
        Call::RunWriteUnits(a, b, c, d) => Ok(Call::RunWriteUnits(*a, *b, *c, d.copied()?)),
        Call::RunWriteAttrs(a, b, c, d) => Ok(Call::RunWriteAttrs(*a, *b, *c, d.copied()?)),
        Call::FillUnits(a, b, c, d, e) => Ok(Call::FillUnits(*a, *b, *c, *d, *e)),
        Call::FillAttrs(a, b, c, d, e) => Ok(Call::FillAttrs(*a, *b, *c, *d, *e)),
        Call::Scroll(a, b, c, d, e, f, g) => Ok(Call::Scroll(*a, *b, *c, *d, *e, *f, *g)),
        Call::Peek(a, b) => Ok(Call::Peek(*a, *b)),
        Call::WriteInput(a, b) => Ok(Call::WriteInput(*a, copied_records(b)?)),
        Call::Count(a) => Ok(Call::Count(*a)),
        Call::Flush(a) => Ok(Call::Flush(*a)),
        Call::HistoryInfo => Ok(Call::HistoryInfo),
        Call::SetHistory(a, b, c) => Ok(Call::SetHistory(*a, *b, *c)),
        Call::HistoryList => Ok(Call::HistoryList),
        Call::HistoryClear => Ok(Call::HistoryClear),
        Call::AliasAdd(a, b, c) => Ok(Call::AliasAdd(a.copied()?, b.copied()?, c.copied()?)),
        Call::AliasRemove(a, b) => Ok(Call::AliasRemove(a.copied()?, b.copied()?)),
        Call::AliasGet(a, b) => Ok(Call::AliasGet(a.copied()?, b.copied()?)),
        Call::AliasList(a) => Ok(Call::AliasList(a.copied()?)),
        Call::Processes => Ok(Call::Processes),
        Call::Signal(a, b) => Ok(Call::Signal(*a, *b)),
        Call::Ignore(a) => Ok(Call::Ignore(*a)),
        Call::HandlerAdd(a) => Ok(Call::HandlerAdd(*a)),
        Call::HandlerRemove(a) => Ok(Call::HandlerRemove(*a)),
    }
}
