//! What a client calls.

use con_records::Taken;
use con_units::{Rect, Units};

/// The attribute words of a rectangle: one for all of its cells, or one for each, row by row.
#[derive(Drop)]
pub enum Words {
    One(u16),
    Each(Units),
}

/// A call of the Console API that is answered at once, with its arguments in their order. A handle comes first where the
/// call has one; coordinates count from 0, x then y.
pub enum Call {
    /// `CreateConsoleScreenBuffer`: rights.
    BufferCreate(u32),
    /// `CreateFile` of `CONOUT$`: rights.
    OpenOut(u32),
    /// `CreateFile` of `CONIN$`: rights.
    OpenIn(u32),
    /// `CloseHandle`.
    Close(u32),
    /// `DuplicateHandle`: handle, rights.
    Duplicate(u32, u32),
    /// `SetConsoleActiveScreenBuffer`.
    Activate(u32),
    /// `GetConsoleMode`.
    Mode(u32),
    /// `SetConsoleMode`: handle, mode.
    SetMode(u32, u32),
    /// `GetConsoleScreenBufferInfo`.
    Info(u32),
    /// `SetConsoleScreenBufferSize`: handle, width, height.
    SetSize(u32, u32, u32),
    /// `SetConsoleCursorPosition`: handle, column, row.
    SetCursor(u32, i16, i16),
    /// `GetConsoleCursorInfo`.
    CursorInfo(u32),
    /// `SetConsoleCursorInfo`: handle, size in percent, whether it shows.
    SetCursorInfo(u32, u32, bool),
    /// `SetConsoleWindowInfo`: handle, left column, top row.
    SetOrigin(u32, i16, i16),
    /// `SetConsoleTextAttribute`: handle, word.
    SetAttr(u32, u16),
    /// `GetConsoleTitle`.
    Title,
    /// `SetConsoleTitle`.
    SetTitle(Units),
    /// `WriteConsole`: handle, text.
    Write(u32, Units),
    /// `ReadConsoleOutput`: handle, rectangle.
    RectRead(u32, Rect),
    /// `WriteConsoleOutput`: handle, rectangle, units and words row by row.
    RectWrite(u32, Rect, Units, Words),
    /// `ReadConsoleOutputCharacter`: handle, column, row, count.
    RunReadUnits(u32, i16, i16, u32),
    /// `ReadConsoleOutputAttribute`: handle, column, row, count.
    RunReadAttrs(u32, i16, i16, u32),
    /// `WriteConsoleOutputCharacter`: handle, column, row, units.
    RunWriteUnits(u32, i16, i16, Units),
    /// `WriteConsoleOutputAttribute`: handle, column, row, words.
    RunWriteAttrs(u32, i16, i16, Units),
    /// `FillConsoleOutputCharacter`: handle, column, row, count, unit.
    FillUnits(u32, i16, i16, u32, u16),
    /// `FillConsoleOutputAttribute`: handle, column, row, count, word.
    FillAttrs(u32, i16, i16, u32, u16),
    /// `ScrollConsoleScreenBuffer`: handle, source, clip, target's column and row, unit and word of the fill.
    Scroll(u32, Rect, Option<Rect>, i16, i16, u16, u16),
    /// `PeekConsoleInput`: handle, count.
    Peek(u32, u32),
    /// `WriteConsoleInput`: handle, records.
    WriteInput(u32, Taken),
    /// `GetNumberOfConsoleInputEvents`.
    Count(u32),
    /// `FlushConsoleInputBuffer`.
    Flush(u32),
    /// `GetConsoleHistoryInfo`.
    HistoryInfo,
    /// `SetConsoleHistoryInfo`: lines of a history, number of histories, flag.
    SetHistory(u32, u32, u32),
    /// `GetConsoleCommandHistory` of the own program.
    HistoryList,
    /// `ExpungeConsoleCommandHistory` of the own program.
    HistoryClear,
    /// `AddConsoleAlias`: program, source, target.
    AliasAdd(Units, Units, Units),
    /// `AddConsoleAlias` without a target: program, source.
    AliasRemove(Units, Units),
    /// `GetConsoleAlias`: program, source.
    AliasGet(Units, Units),
    /// `GetConsoleAliases`: program.
    AliasList(Units),
    /// `GetConsoleProcessList`.
    Processes,
    /// `GenerateConsoleCtrlEvent`: event, group.
    Signal(u32, u32),
    /// `SetConsoleCtrlHandler` without a handler: whether ctrl+C is ignored.
    Ignore(bool),
    /// `SetConsoleCtrlHandler` that adds: place in the rack.
    HandlerAdd(u32),
    /// `SetConsoleCtrlHandler` that removes: place in the rack.
    HandlerRemove(u32),
}

// By hand, so that what drops a call has this one in its proof, and not a case for each of its kinds.
impl Drop for Call {
    fn drop(self) {
        match self {
            Call::BufferCreate(_) => {}
            Call::OpenOut(_) => {}
            Call::OpenIn(_) => {}
            Call::Close(_) => {}
            Call::Duplicate(_, _) => {}
            Call::Activate(_) => {}
            Call::Mode(_) => {}
            Call::SetMode(_, _) => {}
            Call::Info(_) => {}
            Call::SetSize(_, _, _) => {}
            Call::SetCursor(_, _, _) => {}
            Call::CursorInfo(_) => {}
            Call::SetCursorInfo(_, _, _) => {}
            Call::SetOrigin(_, _, _) => {}
            Call::SetAttr(_, _) => {}
            Call::Title => {}
            Call::SetTitle(_) => {}
            Call::Write(_, _) => {}
            Call::RectRead(_, _) => {}
            Call::RectWrite(_, _, _, _) => {}
            Call::RunReadUnits(_, _, _, _) => {}
            Call::RunReadAttrs(_, _, _, _) => {}
            Call::RunWriteUnits(_, _, _, _) => {}
            Call::RunWriteAttrs(_, _, _, _) => {}
            Call::FillUnits(_, _, _, _, _) => {}
            Call::FillAttrs(_, _, _, _, _) => {}
            Call::Scroll(_, _, _, _, _, _, _) => {}
            Call::Peek(_, _) => {}
            Call::WriteInput(_, _) => {}
            Call::Count(_) => {}
            Call::Flush(_) => {}
            Call::HistoryInfo => {}
            Call::SetHistory(_, _, _) => {}
            Call::HistoryList => {}
            Call::HistoryClear => {}
            Call::AliasAdd(_, _, _) => {}
            Call::AliasRemove(_, _) => {}
            Call::AliasGet(_, _) => {}
            Call::AliasList(_) => {}
            Call::Processes => {}
            Call::Signal(_, _) => {}
            Call::Ignore(_) => {}
            Call::HandlerAdd(_) => {}
            Call::HandlerRemove(_) => {}
        }
    }
}
