//! Reading a call.

ghost use Rattle.std.specs.Prelude.{◌≡◌, [], ◌∷◌, Some, None, IfOk, IfErr};
ghost use Rattle.con_events.specs.Arg.{Number, Signed, Area, Text};
ghost use Rattle.con_events.specs.Names.{before, word, word_bare, word_handle, word_number, word_place, word_run, word_area, word_text};
ghost use Rattle.con_events.specs.Names.{kinds, kinds_handle, kinds_number, kinds_place, kinds_run, kinds_area, kinds_text};
ghost use Rattle.con_events.specs.declared.names.OnArea.TheVariants as on_area;
ghost use Rattle.con_events.specs.Reading.{IsForm, args_from, call_from, whole};
ghost use Rattle.con_events.specs.Words.Table.{name_of, args_of};

use crate::arguments::{Arguments, Misread};
use crate::call::Call;
use crate::names::{Bare, Name, OnArea, OnHandle, OnNumber, OnPlace, OnRun, OnText, call_named};
use con_units::{Rect, Units};

/// A call without arguments.
fn bare_call(name: Bare) -> Call
    ensures name { name_of result ≡ word_bare name }
    ensures args { args_of result ≡ [] }
{
    match name {
        Bare::Title => Call::Title,
        Bare::HistoryInfo => Call::HistoryInfo,
        Bare::HistoryList => Call::HistoryList,
        Bare::HistoryClear => Call::HistoryClear,
        Bare::Processes => Call::Processes,
    }
}

/// A call that begins with two numbers, which are read.
fn number_call<A: Arguments>(name: OnNumber, a: u32, b: u32, args: &mut A) -> Result<Call, Misread>
    ensures ok { IfOk result (λ c. (name_of c ≡ word_number name)
        × (before (Number a ∷ Number b ∷ []) (args_from (kinds_number name) (A.left args.old)) ≡ Some (args_of c, A.left args.new))) }
    ensures form { IfErr result (λ e. IsForm e → args_from (kinds_number name) (A.left args.old) ≡ None) }
{
    match name {
        OnNumber::Duplicate => Ok(Call::Duplicate(a, b)),
        OnNumber::SetMode => Ok(Call::SetMode(a, b)),
        OnNumber::Peek => Ok(Call::Peek(a, b)),
        OnNumber::Signal => Ok(Call::Signal(a, b)),
        OnNumber::SetSize => Ok(Call::SetSize(a, b, given!(args.number()))),
        OnNumber::SetHistory => Ok(Call::SetHistory(a, b, given!(args.number()))),
        OnNumber::SetCursorInfo => Ok(Call::SetCursorInfo(a, b, given!(args.flag()))),
    }
}

/// A call that begins with a handle, a column, a row and a count, which are read.
fn run_call<A: Arguments>(
    name: OnRun,
    handle: u32,
    x: i16,
    y: i16,
    count: u32,
    args: &mut A,
) -> Result<Call, Misread>
    ensures ok { IfOk result (λ c. (name_of c ≡ word_run name)
        × (before (Number handle ∷ Signed x ∷ Signed y ∷ Number count ∷ []) (args_from (kinds_run name) (A.left args.old))
        ≡ Some (args_of c, A.left args.new))) }
    ensures form { IfErr result (λ e. IsForm e → args_from (kinds_run name) (A.left args.old) ≡ None) }
{
    match name {
        OnRun::RunReadUnits => Ok(Call::RunReadUnits(handle, x, y, count)),
        OnRun::RunReadAttrs => Ok(Call::RunReadAttrs(handle, x, y, count)),
        OnRun::FillUnits => Ok(Call::FillUnits(handle, x, y, count, given!(args.unit()))),
        OnRun::FillAttrs => Ok(Call::FillAttrs(handle, x, y, count, given!(args.unit()))),
    }
}

/// A call that begins with a handle, a column and a row, which are read.
fn place_call<A: Arguments>(
    name: OnPlace,
    handle: u32,
    x: i16,
    y: i16,
    args: &mut A,
) -> Result<Call, Misread>
    ensures ok { IfOk result (λ c. (name_of c ≡ word_place name)
        × (before (Number handle ∷ Signed x ∷ Signed y ∷ []) (args_from (kinds_place name) (A.left args.old)) ≡ Some (args_of c, A.left args.new))) }
    ensures form { IfErr result (λ e. IsForm e → args_from (kinds_place name) (A.left args.old) ≡ None) }
{
    match name {
        OnPlace::SetCursor => Ok(Call::SetCursor(handle, x, y)),
        OnPlace::SetOrigin => Ok(Call::SetOrigin(handle, x, y)),
        OnPlace::RunWriteUnits => Ok(Call::RunWriteUnits(handle, x, y, given!(args.text()))),
        OnPlace::RunWriteAttrs => Ok(Call::RunWriteAttrs(handle, x, y, given!(args.list()))),
        OnPlace::Run(name) => {
            let count = given!(args.number());
            run_call(name, handle, x, y, count, args)
        }
    }
}

/// A scroll of which the handle and the source are read.
fn scroll<A: Arguments>(handle: u32, source: Rect, args: &mut A) -> Result<Call, Misread>
    ensures ok { IfOk result (λ c. (name_of c ≡ word_area on_area.Scroll)
        × (before (Number handle ∷ Area source ∷ []) (args_from (kinds_area on_area.Scroll) (A.left args.old)) ≡ Some (args_of c, A.left args.new))) }
    ensures form { IfErr result (λ e. IsForm e → args_from (kinds_area on_area.Scroll) (A.left args.old) ≡ None) }
{
    Ok(Call::Scroll(
        handle,
        source,
        given!(args.clip()),
        given!(args.signed()),
        given!(args.signed()),
        given!(args.unit()),
        given!(args.unit()),
    ))
}

/// A call that begins with a handle and a rectangle, which are read.
fn area_call<A: Arguments>(
    name: OnArea,
    handle: u32,
    area: Rect,
    args: &mut A,
) -> Result<Call, Misread>
    ensures ok { IfOk result (λ c. (name_of c ≡ word_area name)
        × (before (Number handle ∷ Area area ∷ []) (args_from (kinds_area name) (A.left args.old)) ≡ Some (args_of c, A.left args.new))) }
    ensures form { IfErr result (λ e. IsForm e → args_from (kinds_area name) (A.left args.old) ≡ None) }
{
    match name {
        OnArea::RectRead => Ok(Call::RectRead(handle, area)),
        OnArea::RectWrite => Ok(Call::RectWrite(
            handle,
            area,
            given!(args.text()),
            given!(args.words()),
        )),
        OnArea::Scroll => scroll(handle, area, args),
    }
}

/// A call that begins with a number, which is read.
fn handle_call<A: Arguments>(name: OnHandle, handle: u32, args: &mut A) -> Result<Call, Misread>
    ensures ok { IfOk result (λ c. (name_of c ≡ word_handle name)
        × (before (Number handle ∷ []) (args_from (kinds_handle name) (A.left args.old)) ≡ Some (args_of c, A.left args.new))) }
    ensures form { IfErr result (λ e. IsForm e → args_from (kinds_handle name) (A.left args.old) ≡ None) }
{
    match name {
        OnHandle::BufferCreate => Ok(Call::BufferCreate(handle)),
        OnHandle::OpenOut => Ok(Call::OpenOut(handle)),
        OnHandle::OpenIn => Ok(Call::OpenIn(handle)),
        OnHandle::Close => Ok(Call::Close(handle)),
        OnHandle::Activate => Ok(Call::Activate(handle)),
        OnHandle::Mode => Ok(Call::Mode(handle)),
        OnHandle::Info => Ok(Call::Info(handle)),
        OnHandle::CursorInfo => Ok(Call::CursorInfo(handle)),
        OnHandle::Count => Ok(Call::Count(handle)),
        OnHandle::Flush => Ok(Call::Flush(handle)),
        OnHandle::HandlerAdd => Ok(Call::HandlerAdd(handle)),
        OnHandle::HandlerRemove => Ok(Call::HandlerRemove(handle)),
        OnHandle::SetAttr => Ok(Call::SetAttr(handle, given!(args.unit()))),
        OnHandle::Write => Ok(Call::Write(handle, given!(args.text()))),
        OnHandle::WriteInput => Ok(Call::WriteInput(handle, given!(args.records()))),
        OnHandle::Number(name) => {
            let second = given!(args.number());
            number_call(name, handle, second, args)
        }
        OnHandle::Place(name) => {
            let x = given!(args.signed());
            let y = given!(args.signed());
            place_call(name, handle, x, y, args)
        }
        OnHandle::Area(name) => {
            let area = given!(args.rect());
            area_call(name, handle, area, args)
        }
    }
}

/// A call that begins with a text, which is read.
fn text_call<A: Arguments>(name: OnText, first: Units, args: &mut A) -> Result<Call, Misread>
    ensures ok { IfOk result (λ c. (name_of c ≡ word_text name)
        × (before (Text first ∷ []) (args_from (kinds_text name) (A.left args.old)) ≡ Some (args_of c, A.left args.new))) }
    ensures form { IfErr result (λ e. IsForm e → args_from (kinds_text name) (A.left args.old) ≡ None) }
{
    match name {
        OnText::SetTitle => Ok(Call::SetTitle(first)),
        OnText::AliasList => Ok(Call::AliasList(first)),
        OnText::AliasRemove => Ok(Call::AliasRemove(first, given!(args.text()))),
        OnText::AliasGet => Ok(Call::AliasGet(first, given!(args.text()))),
        OnText::AliasAdd => Ok(Call::AliasAdd(first, given!(args.text()), given!(args.text()))),
    }
}

/// The call that a name stands for, with its arguments taken.
fn named_call<A: Arguments>(name: Name, args: &mut A) -> Result<Call, Misread>
    ensures ok { IfOk result (λ c. (name_of c ≡ word name) × (args_from (kinds name) (A.left args.old) ≡ Some (args_of c, A.left args.new))) }
    ensures form { IfErr result (λ e. IsForm e → args_from (kinds name) (A.left args.old) ≡ None) }
{
    match name {
        Name::Bare(name) => Ok(bare_call(name)),
        Name::Handle(name) => {
            let handle = given!(args.number());
            handle_call(name, handle, args)
        }
        Name::Text(name) => {
            let first = given!(args.text());
            text_call(name, first, args)
        }
        Name::Ignore => Ok(Call::Ignore(given!(args.flag()))),
    }
}

/// The call of a name, with its arguments taken.
pub fn read_call<A: Arguments>(name: &str, args: &mut A) -> Result<Call, Misread>
    ensures ok { IfOk result (λ c. call_from name.now (A.left args.old) ≡ Some (c, A.left args.new)) }
    ensures form { IfErr result (λ e. IsForm e → call_from name.now (A.left args.old) ≡ None) }
{
    match call_named(name) {
        Some(name) => named_call(name, args),
        None => Err(Misread::Form),
    }
}

/// The call of a name, with nothing after its arguments.
pub fn whole_call<A: Arguments>(name: &str, args: &mut A) -> Result<Call, Misread>
    ensures ok { IfOk result (λ c. whole (call_from name.now (A.left args.old)) ≡ Some c) }
    ensures form { IfErr result (λ e. IsForm e → whole (call_from name.now (A.left args.old)) ≡ None) }
{
    let call = read_call(name, args);
    if args.is_done() {
        call
    } else {
        call.and(Err(Misread::Form))
    }
}
