//! What an event is answered with.

ghost use Rattle.std.specs.Prelude.{◌≡◌};
ghost use Rattle.con_lines.specs.Form.{form_of};
ghost use Rattle.con_lines.specs.Words.Form.{call_form};

use con_events::{Call, Event, Form};

/// What a call is answered with.
pub fn call_form_of(call: &Call) -> Form
    ensures { result ≡ call_form call.now }
{
    match call {
        Call::BufferCreate(_) => Form::Number,
        Call::OpenOut(_) => Form::Number,
        Call::OpenIn(_) => Form::Number,
        Call::Duplicate(_, _) => Form::Number,
        Call::Mode(_) => Form::Number,
        Call::Info(_) => Form::Fields(9),
        Call::CursorInfo(_) => Form::NumberAndFlag,
        Call::Title => Form::Units,
        Call::Write(_, _) => Form::Number,
        Call::RectRead(_, _) => Form::Cells,
        Call::RectWrite(_, _, _, _) => Form::Sides,
        Call::RunReadUnits(_, _, _, _) => Form::Units,
        Call::RunReadAttrs(_, _, _, _) => Form::Units,
        Call::RunWriteUnits(_, _, _, _) => Form::Number,
        Call::RunWriteAttrs(_, _, _, _) => Form::Number,
        Call::FillUnits(_, _, _, _, _) => Form::Number,
        Call::FillAttrs(_, _, _, _, _) => Form::Number,
        Call::Peek(_, _) => Form::Records,
        Call::WriteInput(_, _) => Form::Number,
        Call::Count(_) => Form::Number,
        Call::HistoryInfo => Form::Fields(3),
        Call::HistoryList => Form::Lines,
        Call::AliasGet(_, _) => Form::Units,
        Call::AliasList(_) => Form::Lines,
        Call::Processes => Form::Ids,
        _ => Form::Nothing,
    }
}

/// What an event is answered with. A picture is answered with the stream's length, which is no reply of this kind.
pub fn form_of_event(event: &Event) -> Form
    ensures { result ≡ form_of event.now }
{
    match event {
        Event::Call(call) => call_form_of(call),
        Event::Collect => Form::Wait,
        Event::TakeCtrl => Form::Control,
        _ => Form::Nothing,
    }
}
