//! Calls by their names.

ghost use Rattle.std.specs.Prelude.{◌≡◌, IfSome, IfNone, None};
ghost use Rattle.con_events.specs.Names.{word, looked_up};
ghost use Rattle.con_events.specs.Words.Table.{row_of};

/// A call by its name, as a tree: the calls whose arguments begin with the same kinds stand together.
#[derive(Clone, Copy, Drop)]
pub enum Name {
    /// Without an argument.
    Bare(Bare),
    /// Those that begin with a number, which is a handle for the most part.
    Handle(OnHandle),
    /// Those that begin with a text.
    Text(OnText),
    /// A flag.
    Ignore,
}

/// A call without an argument.
#[derive(Clone, Copy, Drop)]
pub enum Bare {
    Title,
    HistoryInfo,
    HistoryList,
    HistoryClear,
    Processes,
}

/// A call whose first argument is a number.
#[derive(Clone, Copy, Drop)]
pub enum OnHandle {
    BufferCreate,
    OpenOut,
    OpenIn,
    Close,
    Activate,
    Mode,
    Info,
    CursorInfo,
    Count,
    Flush,
    HandlerAdd,
    HandlerRemove,
    SetAttr,
    Write,
    WriteInput,
    /// Those that have one more number.
    Number(OnNumber),
    /// Those that have a column and a row.
    Place(OnPlace),
    /// Those that have a rectangle.
    Area(OnArea),
}

/// A call whose first two arguments are numbers.
#[derive(Clone, Copy, Drop)]
pub enum OnNumber {
    Duplicate,
    SetMode,
    Peek,
    Signal,
    SetSize,
    SetHistory,
    SetCursorInfo,
}

/// A call whose first arguments are a handle, a column and a row.
#[derive(Clone, Copy, Drop)]
pub enum OnPlace {
    SetCursor,
    SetOrigin,
    RunWriteUnits,
    RunWriteAttrs,
    /// Those that have a count.
    Run(OnRun),
}

/// A call whose first arguments are a handle, a column, a row and a count.
#[derive(Clone, Copy, Drop)]
pub enum OnRun {
    RunReadUnits,
    RunReadAttrs,
    FillUnits,
    FillAttrs,
}

/// A call whose first arguments are a handle and a rectangle.
#[derive(Clone, Copy, Drop)]
pub enum OnArea {
    RectRead,
    RectWrite,
    Scroll,
}

/// A call whose first argument is a text.
#[derive(Clone, Copy, Drop)]
pub enum OnText {
    SetTitle,
    AliasList,
    AliasRemove,
    AliasGet,
    AliasAdd,
}

/// Each name with its call, in the order of the table.
const NAMES: [(&str, Name); 44] = [
    ("buffer-create", Name::Handle(OnHandle::BufferCreate)),
    ("open-out", Name::Handle(OnHandle::OpenOut)),
    ("open-in", Name::Handle(OnHandle::OpenIn)),
    ("close", Name::Handle(OnHandle::Close)),
    (
        "duplicate",
        Name::Handle(OnHandle::Number(OnNumber::Duplicate)),
    ),
    ("activate", Name::Handle(OnHandle::Activate)),
    ("mode", Name::Handle(OnHandle::Mode)),
    (
        "set-mode",
        Name::Handle(OnHandle::Number(OnNumber::SetMode)),
    ),
    ("info", Name::Handle(OnHandle::Info)),
    (
        "set-size",
        Name::Handle(OnHandle::Number(OnNumber::SetSize)),
    ),
    (
        "set-cursor",
        Name::Handle(OnHandle::Place(OnPlace::SetCursor)),
    ),
    ("cursor-info", Name::Handle(OnHandle::CursorInfo)),
    (
        "set-cursor-info",
        Name::Handle(OnHandle::Number(OnNumber::SetCursorInfo)),
    ),
    (
        "set-origin",
        Name::Handle(OnHandle::Place(OnPlace::SetOrigin)),
    ),
    ("set-attr", Name::Handle(OnHandle::SetAttr)),
    ("title", Name::Bare(Bare::Title)),
    ("set-title", Name::Text(OnText::SetTitle)),
    ("write", Name::Handle(OnHandle::Write)),
    ("rect-read", Name::Handle(OnHandle::Area(OnArea::RectRead))),
    (
        "rect-write",
        Name::Handle(OnHandle::Area(OnArea::RectWrite)),
    ),
    (
        "run-read-units",
        Name::Handle(OnHandle::Place(OnPlace::Run(OnRun::RunReadUnits))),
    ),
    (
        "run-read-attrs",
        Name::Handle(OnHandle::Place(OnPlace::Run(OnRun::RunReadAttrs))),
    ),
    (
        "run-write-units",
        Name::Handle(OnHandle::Place(OnPlace::RunWriteUnits)),
    ),
    (
        "run-write-attrs",
        Name::Handle(OnHandle::Place(OnPlace::RunWriteAttrs)),
    ),
    (
        "fill-units",
        Name::Handle(OnHandle::Place(OnPlace::Run(OnRun::FillUnits))),
    ),
    (
        "fill-attrs",
        Name::Handle(OnHandle::Place(OnPlace::Run(OnRun::FillAttrs))),
    ),
    ("scroll", Name::Handle(OnHandle::Area(OnArea::Scroll))),
    ("peek", Name::Handle(OnHandle::Number(OnNumber::Peek))),
    ("write-input", Name::Handle(OnHandle::WriteInput)),
    ("count", Name::Handle(OnHandle::Count)),
    ("flush", Name::Handle(OnHandle::Flush)),
    ("history-info", Name::Bare(Bare::HistoryInfo)),
    (
        "set-history",
        Name::Handle(OnHandle::Number(OnNumber::SetHistory)),
    ),
    ("history-list", Name::Bare(Bare::HistoryList)),
    ("history-clear", Name::Bare(Bare::HistoryClear)),
    ("alias-add", Name::Text(OnText::AliasAdd)),
    ("alias-remove", Name::Text(OnText::AliasRemove)),
    ("alias-get", Name::Text(OnText::AliasGet)),
    ("alias-list", Name::Text(OnText::AliasList)),
    ("processes", Name::Bare(Bare::Processes)),
    ("signal", Name::Handle(OnHandle::Number(OnNumber::Signal))),
    ("ignore", Name::Ignore),
    ("handler-add", Name::Handle(OnHandle::HandlerAdd)),
    ("handler-remove", Name::Handle(OnHandle::HandlerRemove)),
];

/// The call that stands beside a name in a list, where the name stands there.
#[tactic(auto, unfolding(crate::specs::Names::looked_up))]
fn look_up(names: &[(&str, Name)], wanted: &str) -> Option<Name>
    ensures { result ≡ looked_up wanted.now names.now }
{
    for at in 0..names.len() {
        if wanted == names[at].0 {
            return Some(names[at].1);
        }
    }
    None
}

/// The call of a name, where there is one.
pub fn call_named(wanted: &str) -> Option<Name>
    ensures some { IfSome result (λ n. word n ≡ wanted.now) }
    ensures none { IfNone result (row_of wanted.now ≡ None) }
{
    look_up(&NAMES, wanted)
}
