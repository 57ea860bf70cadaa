//! A call told to whoever shows it.

ghost use Rattle.std.specs.Prelude.{◌≡◌, List, [], ◌∷◌, IfOk};
ghost use Rattle.con_events.specs.Arg.{Arg, Number, Signed, OneUnit, Flag, Text, Area, Clip, WordsOf, WordList, Records};
ghost use Rattle.con_events.specs.Words.Arg.{put_all};
ghost use Rattle.con_events.specs.Shapes.{told};
ghost use Rattle.con_events.specs.Words.Table.{name_of, args_of};

use crate::args::{Args, arguments_of};
use crate::call::{Call, Words};
use con_records::Taken;
use con_units::{OutOfMemory, Rect, Units};

/// What shows arguments, one after another.
pub trait Shows {
    ghost put: { Self → Arg → Self };

    fn number(&mut self, n: u32) -> Result<(), OutOfMemory>
        ensures { IfOk result (λ _. self.new ≡ put self.old (Number n)) };

    fn signed(&mut self, n: i16) -> Result<(), OutOfMemory>
        ensures { IfOk result (λ _. self.new ≡ put self.old (Signed n)) };

    fn unit(&mut self, n: u16) -> Result<(), OutOfMemory>
        ensures { IfOk result (λ _. self.new ≡ put self.old (OneUnit n)) };

    fn flag(&mut self, n: bool) -> Result<(), OutOfMemory>
        ensures { IfOk result (λ _. self.new ≡ put self.old (Flag n)) };

    fn text(&mut self, n: &Units) -> Result<(), OutOfMemory>
        ensures { IfOk result (λ _. self.new ≡ put self.old (Text n.now)) };

    fn rect(&mut self, n: Rect) -> Result<(), OutOfMemory>
        ensures { IfOk result (λ _. self.new ≡ put self.old (Area n)) };

    fn clip(&mut self, n: Option<Rect>) -> Result<(), OutOfMemory>
        ensures { IfOk result (λ _. self.new ≡ put self.old (Clip n)) };

    fn words(&mut self, n: &Words) -> Result<(), OutOfMemory>
        ensures { IfOk result (λ _. self.new ≡ put self.old (WordsOf n.now)) };

    fn list(&mut self, n: &Units) -> Result<(), OutOfMemory>
        ensures { IfOk result (λ _. self.new ≡ put self.old (WordList n.now)) };

    fn records(&mut self, n: &Taken) -> Result<(), OutOfMemory>
        ensures { IfOk result (λ _. self.new ≡ put self.old (Records n.now)) };
}

/// A call's name.
pub fn name(call: &Call) -> &'static str
    ensures { result.now ≡ name_of call.now }
{
    match call {
        Call::BufferCreate(_) => "buffer-create",
        Call::OpenOut(_) => "open-out",
        Call::OpenIn(_) => "open-in",
        Call::Close(_) => "close",
        Call::Duplicate(_, _) => "duplicate",
        Call::Activate(_) => "activate",
        Call::Mode(_) => "mode",
        Call::SetMode(_, _) => "set-mode",
        Call::Info(_) => "info",
        Call::SetSize(_, _, _) => "set-size",
        Call::SetCursor(_, _, _) => "set-cursor",
        Call::CursorInfo(_) => "cursor-info",
        Call::SetCursorInfo(_, _, _) => "set-cursor-info",
        Call::SetOrigin(_, _, _) => "set-origin",
        Call::SetAttr(_, _) => "set-attr",
        Call::Title => "title",
        Call::SetTitle(_) => "set-title",
        Call::Write(_, _) => "write",
        Call::RectRead(_, _) => "rect-read",
        Call::RectWrite(_, _, _, _) => "rect-write",
        Call::RunReadUnits(_, _, _, _) => "run-read-units",
        Call::RunReadAttrs(_, _, _, _) => "run-read-attrs",
        Call::RunWriteUnits(_, _, _, _) => "run-write-units",
        Call::RunWriteAttrs(_, _, _, _) => "run-write-attrs",
        Call::FillUnits(_, _, _, _, _) => "fill-units",
        Call::FillAttrs(_, _, _, _, _) => "fill-attrs",
        Call::Scroll(_, _, _, _, _, _, _) => "scroll",
        Call::Peek(_, _) => "peek",
        Call::WriteInput(_, _) => "write-input",
        Call::Count(_) => "count",
        Call::Flush(_) => "flush",
        Call::HistoryInfo => "history-info",
        Call::SetHistory(_, _, _) => "set-history",
        Call::HistoryList => "history-list",
        Call::HistoryClear => "history-clear",
        Call::AliasAdd(_, _, _) => "alias-add",
        Call::AliasRemove(_, _) => "alias-remove",
        Call::AliasGet(_, _) => "alias-get",
        Call::AliasList(_) => "alias-list",
        Call::Processes => "processes",
        Call::Signal(_, _) => "signal",
        Call::Ignore(_) => "ignore",
        Call::HandlerAdd(_) => "handler-add",
        Call::HandlerRemove(_) => "handler-remove",
    }
}

/// Tells arguments. What stands behind one that could not be told is told all the same: nobody reads it.
fn tell_args<S: Shows>(args: Args<'_>, out: &mut S) -> Result<(), OutOfMemory>
    ensures { IfOk result (λ _. out.new ≡ put_all S.put out.old (told args.entry)) }
{
    match args {
        Args::Nothing => Ok(()),
        Args::Number(a) => out.number(a),
        Args::TwoNumbers(a, b) => out.number(a).and(out.number(b)),
        Args::ThreeNumbers(a, b, c) => out.number(a).and(out.number(b)).and(out.number(c)),
        Args::CursorInfo(a, b, shows) => out.number(a).and(out.number(b)).and(out.flag(shows)),
        Args::Place(a, x, y) => out.number(a).and(out.signed(x)).and(out.signed(y)),
        Args::Run(a, x, y, n) => out
            .number(a)
            .and(out.signed(x))
            .and(out.signed(y))
            .and(out.number(n)),
        Args::Fill(a, x, y, n, with) => out
            .number(a)
            .and(out.signed(x))
            .and(out.signed(y))
            .and(out.number(n))
            .and(out.unit(with)),
        Args::Units(a, x, y, units) => out
            .number(a)
            .and(out.signed(x))
            .and(out.signed(y))
            .and(out.text(units)),
        Args::Attrs(a, x, y, words) => out
            .number(a)
            .and(out.signed(x))
            .and(out.signed(y))
            .and(out.list(words)),
        Args::Attr(a, word) => out.number(a).and(out.unit(word)),
        Args::Write(a, units) => out.number(a).and(out.text(units)),
        Args::Records(a, input) => out.number(a).and(out.records(input)),
        Args::Area(a, area) => out.number(a).and(out.rect(area)),
        Args::Cells(a, area, units, words) => out
            .number(a)
            .and(out.rect(area))
            .and(out.text(units))
            .and(out.words(words)),
        Args::Scroll(a, source, clip, to, fill) => tell_scroll(a, source, clip, to, fill, out),
        Args::Text(a) => out.text(a),
        Args::TwoTexts(a, b) => out.text(a).and(out.text(b)),
        Args::ThreeTexts(a, b, c) => out.text(a).and(out.text(b)).and(out.text(c)),
        Args::Flag(a) => out.flag(a),
    }
}

/// Tells the arguments of a scroll.
fn tell_scroll<S: Shows>(
    handle: u32,
    source: Rect,
    clip: Option<Rect>,
    to: (i16, i16),
    fill: (u16, u16),
    out: &mut S,
) -> Result<(), OutOfMemory>
    ensures { IfOk result (λ _. out.new ≡ put_all S.put out.old
        (Number handle ∷ Area source ∷ Clip clip ∷ Signed to.0 ∷ Signed to.1 ∷ OneUnit fill.0 ∷ OneUnit fill.1 ∷ [])) }
{
    out.number(handle)
        .and(out.rect(source))
        .and(out.clip(clip))
        .and(out.signed(to.0))
        .and(out.signed(to.1))
        .and(out.unit(fill.0))
        .and(out.unit(fill.1))
}

/// A call's arguments, in order.
pub fn tell<S: Shows>(call: &Call, out: &mut S) -> Result<(), OutOfMemory>
    ensures { IfOk result (λ _. out.new ≡ put_all S.put out.old (args_of call.now)) }
{
    tell_args(arguments_of(call), out)
}
