//! What types keep of a history, read value by value.

ghost use Rattle.std.specs.Prelude.{◌≡◌, ◌<◌};
ghost use Rattle.con_units.specs.Words.Attr.{masked};
ghost use Rattle.con_units.specs.Stored.{stored_unit};
ghost use Rattle.con_events.specs.Arg.{Clip, WordsOf};
ghost use Rattle.con_events.specs.Fits.{AreUnits, ArgFits, RecordFits, RectFits};
ghost use Rattle.con_events.specs.Words.Fits.{ArgsFit, IsSmall, RecordsFit};
ghost use Rattle.con_events.specs.Table.{wanted_spelled};
ghost use Rattle.con_events.specs.Words.Table.{args_of};
ghost use Rattle.con_lines.specs.Fits.{EventFits};
ghost use Rattle.con_lines.specs.Words.Fits.{AreBytes, AreTexts, AreWhole, IsWhole};
ghost use Rattle.con_lines.specs.Shown.{cell_words};
ghost use Rattle.con_forms.specs.Kept.{ActorKeeps, AreCells, EndKeeps, EndsKeep, EntriesKeep, EntryKeeps, Kept, RepliesKeep, ReplyKeeps};

use con_events::{
    Actor, Call, End, Entries, Entry, Event, PieceEnds, Replies, Reply, Wanted, Words,
};
use con_records::{Key, Mouse, Record};
use con_units::{Cell, Rect, Units};

// Units, and words.
fn units(coming: &[u16])
    ensures { AreUnits coming.now }
{
    let mut rest = coming;
    while let [one, later @ ..] = rest {
        unit(*one);
        rest = later;
    }
}

// A byte.
fn byte(n: u8)
    ensures { n < 256 }
{}

// Bytes.
fn bytes(coming: &[u8])
    ensures { AreBytes coming.now }
{
    let mut rest = coming;
    while let [one, later @ ..] = rest {
        byte(*one);
        rest = later;
    }
}

// A number of 64 bits.
fn whole(n: &i64)
    ensures { IsWhole n.now }
{
    // a number that is read tells its range
    let _n = *n;
}

// Numbers with a sign.
fn numbers(coming: &[i64])
    ensures { AreWhole coming.now }
{
    let mut rest = coming;
    while let [one, later @ ..] = rest {
        whole(one);
        rest = later;
    }
}

// Texts.
fn texts(coming: &[Units])
    ensures { AreTexts coming.now }
{
    let mut rest = coming;
    while let [one, later @ ..] = rest {
        units(one.as_slice());
        rest = later;
    }
}

// A length of the stream.
fn length(n: u64)
    ensures { n < 18446744073709551616 }
{}

// Lengths of the stream.
fn lengths(coming: &[u64])
    ensures { EndsKeep coming.now }
{
    let mut rest = coming;
    while let [one, later @ ..] = rest {
        length(*one);
        rest = later;
    }
}

// A key.
fn key(key: &Key)
    ensures { RecordFits (Record.Key key.now) }
{
    unit(key.repeat);
    unit(key.vk);
    unit(key.scan);
    unit(key.unit);
    number(key.state);
}

// What the mouse did.
fn mouse(mouse: &Mouse)
    ensures { RecordFits (Record.Mouse mouse.now) }
{
    signed(&mouse.x);
    signed(&mouse.y);
    number(mouse.buttons);
    number(mouse.state);
    number(mouse.flags);
}

// A record.
fn one_record(one: &Record)
    ensures { RecordFits one.now }
{
    match one {
        Record::Key(what) => key(what),
        Record::Mouse(what) => mouse(what),
        Record::Size(size) => {
            unit(size.w);
            unit(size.h);
        }
        Record::Menu(n) => number(*n),
        Record::Focus(_) => {}
    }
}

// Records.
fn records(coming: &[Record])
    ensures { RecordsFit coming.now }
{
    let mut rest = coming;
    while let [one, later @ ..] = rest {
        one_record(one);
        rest = later;
    }
}

// A coordinate.
fn signed(n: &i16)
    ensures { IsSmall n.now }
{
    // a number that is read tells its range
    let _n = *n;
}

// A number.
fn number(n: u32)
    ensures { n < 4294967296 }
{}

// A unit, or a word.
fn unit(n: u16)
    ensures { n < 65536 }
{}

// A rectangle.
fn rect(rect: &Rect)
    ensures { RectFits rect.now }
{
    signed(&rect.left);
    signed(&rect.top);
    signed(&rect.right);
    signed(&rect.bottom);
}

// A cell's unit is stored, and its word has no other bits than words have.
fn cell(cell: Cell)
    ensures unit { cell.unit < 65536 }
    ensures word { cell.attr.word < 65536 }
    ensures stored { stored_unit cell.unit ≡ cell.unit }
    ensures masked { masked cell.attr.word ≡ cell.attr.word }
{
    unit(cell.unit());
    unit(cell.attr().bits());
}

// Cells.
fn cells(coming: &[Cell])
    ensures units { AreUnits (cell_words coming.now) }
    ensures cells { AreCells coming.now }
{
    let mut rest = coming;
    while let [one, later @ ..] = rest {
        cell(*one);
        rest = later;
    }
}

// A handle, a column and a row.
fn place(handle: u32, x: &i16, y: &i16)
    ensures { (handle < 4294967296) × IsSmall x.now × IsSmall y.now }
{
    number(handle);
    signed(x);
    signed(y);
}

// What clips a scroll.
fn clip(clip: &Option<Rect>)
    ensures { ArgFits (Clip clip.now) }
{
    match clip {
        None => {}
        Some(one) => rect(one),
    }
}

// The words of a rectangle.
fn words(words: &Words)
    ensures { ArgFits (WordsOf words.now) }
{
    match words {
        Words::One(word) => unit(*word),
        Words::Each(list) => units(list.as_slice()),
    }
}

// The arguments of a call.
fn call(call: &Call)
    ensures { ArgsFit (args_of call.now) }
{
    match call {
        Call::Title
        | Call::HistoryInfo
        | Call::HistoryList
        | Call::HistoryClear
        | Call::Processes
        | Call::Ignore(_) => {}
        Call::BufferCreate(a)
        | Call::OpenOut(a)
        | Call::OpenIn(a)
        | Call::Close(a)
        | Call::Activate(a)
        | Call::Mode(a)
        | Call::Info(a)
        | Call::CursorInfo(a)
        | Call::Count(a)
        | Call::Flush(a)
        | Call::HandlerAdd(a)
        | Call::HandlerRemove(a) => number(*a),
        Call::Duplicate(a, b)
        | Call::SetMode(a, b)
        | Call::Peek(a, b)
        | Call::Signal(a, b)
        | Call::SetCursorInfo(a, b, _) => {
            number(*a);
            number(*b);
        }
        Call::SetSize(a, b, c) | Call::SetHistory(a, b, c) => {
            number(*a);
            number(*b);
            number(*c);
        }
        Call::SetCursor(a, b, c) | Call::SetOrigin(a, b, c) => place(*a, b, c),
        Call::SetAttr(a, b) => {
            number(*a);
            unit(*b);
        }
        Call::SetTitle(a) | Call::AliasList(a) => units(a.as_slice()),
        Call::Write(a, b) => {
            number(*a);
            units(b.as_slice());
        }
        Call::RectRead(a, b) => {
            number(*a);
            rect(b);
        }
        Call::RectWrite(a, b, c, d) => {
            number(*a);
            rect(b);
            units(c.as_slice());
            words(d);
        }
        Call::RunReadUnits(a, b, c, d) | Call::RunReadAttrs(a, b, c, d) => {
            place(*a, b, c);
            number(*d);
        }
        Call::RunWriteUnits(a, b, c, d) | Call::RunWriteAttrs(a, b, c, d) => {
            place(*a, b, c);
            units(d.as_slice());
        }
        Call::FillUnits(a, b, c, d, e) | Call::FillAttrs(a, b, c, d, e) => {
            place(*a, b, c);
            number(*d);
            unit(*e);
        }
        Call::Scroll(a, b, c, d, e, f, g) => scroll(*a, b, c, d, e, *f, *g),
        Call::WriteInput(a, b) => {
            number(*a);
            records(b.0.as_slice());
        }
        Call::AliasAdd(a, b, c) => {
            units(a.as_slice());
            units(b.as_slice());
            units(c.as_slice());
        }
        Call::AliasRemove(a, b) | Call::AliasGet(a, b) => {
            units(a.as_slice());
            units(b.as_slice());
        }
    }
}

// The arguments of a scroll.
fn scroll(handle: u32, source: &Rect, within: &Option<Rect>, x: &i16, y: &i16, fill: u16, word: u16)
    ensures { ArgsFit (args_of (Call.Scroll handle source.now within.now x.now y.now fill word)) }
{
    number(handle);
    rect(source);
    clip(within);
    signed(x);
    signed(y);
    unit(fill);
    unit(word);
}

// What a client waits for.
fn wanted(wanted: &Wanted)
    ensures { ArgsFit (wanted_spelled wanted.now).1 }
{
    match wanted {
        Wanted::Read { handle, n } | Wanted::ReadInput { handle, n } => {
            number(*handle);
            number(*n);
        }
        Wanted::ReadWith {
            handle,
            n,
            initial,
            mask,
        } => {
            number(*handle);
            number(*n);
            units(initial.as_slice());
            number(*mask);
        }
    }
}

fn event(event: &Event)
    ensures { EventFits event.now }
{
    match event {
        Event::Call(one) => call(one),
        Event::Begin(one) => wanted(one),
        Event::Exit(status) => number(*status),
        Event::Feed(list) => bytes(list.as_slice()),
        Event::Resize(size) => {
            unit(size.w);
            unit(size.h);
        }
        _ => {}
    }
}

fn actor(actor: Actor)
    ensures { ActorKeeps actor }
{
    match actor {
        Actor::Client(client) => byte(client),
        Actor::Terminal | Actor::Painter => {}
    }
}

fn last(end: End)
    ensures { EndKeeps end }
{
    match end {
        End::Bad { place, .. } => length(place),
        _ => {}
    }
}

fn entries(coming: &[Entry])
    ensures { EntriesKeep coming.now }
{
    let mut rest = coming;
    while let [one, later @ ..] = rest {
        actor(one.actor);
        event(&one.event);
        rest = later;
    }
}

fn reply(reply: &Reply)
    ensures { ReplyKeeps reply.now }
{
    match reply {
        Reply::Number(n) => number(*n),
        Reply::Numbers(list) => numbers(list.0.as_slice()),
        Reply::Units(list) => units(list.as_slice()),
        Reply::Records(list) => records(list.0.as_slice()),
        Reply::Cells(part, list) => {
            rect(part);
            cells(list.as_slice());
        }
        Reply::Lines(list) => texts(list.0.as_slice()),
        Reply::Ctrl(n) => number(*n),
        _ => {}
    }
}

fn replies(coming: &[Reply])
    ensures { RepliesKeep coming.now }
{
    let mut rest = coming;
    while let [one, later @ ..] = rest {
        reply(one);
        rest = later;
    }
}

/// Reads a history, its answers, its lengths and its end, and tells what their types keep of them.
pub fn types_are_kept(history: &Entries, answers: &Replies, ends: &PieceEnds, end: End)
    ensures { Kept history.now answers.now ends.now end }
{
    entries(history.0.as_slice());
    replies(answers.0.as_slice());
    lengths(ends.0.as_slice());
    last(end);
}
