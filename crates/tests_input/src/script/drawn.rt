use con_events::{Call, Script, Session, Step};
use con_records::{Key, Record};
use con_script::generated;
use con_units::Rect;
use std::alloc::Global;

/// What a call of a client is.
#[derive(Clone, Copy, PartialEq)]
enum Seen {
    Mode(u32, u32),
    Text(usize, u16, u16),
    Cursor(i16, i16),
    Attrs(i16, i16, u32, u16),
    Area(Rect),
    Key(u16),
    Peek(u32, u32),
    Another,
}

/// The length of a text, its first unit and its last.
fn text(units: &[u16]) -> Seen {
    match units {
        [] => Seen::Another,
        [only] => Seen::Text(1, *only, *only),
        [first, .., last] => Seen::Text(units.len(), *first, *last),
    }
}

fn key(records: &[Record]) -> Seen {
    match records {
        [
            Record::Key(
                Key {
                    down: true,
                    repeat: 1,
                    vk: 0,
                    scan: 0,
                    unit,
                    state: 0,
                },
            ),
        ] => Seen::Key(*unit),
        _ => Seen::Another,
    }
}

fn seen_of(step: &Step) -> Seen {
    match step {
        Step::Call(Call::SetMode(handle, mode)) => Seen::Mode(*handle, *mode),
        Step::Call(Call::Write(2, units)) => text(units.as_slice()),
        Step::Call(Call::SetCursor(2, x, y)) => Seen::Cursor(*x, *y),
        Step::Call(Call::FillAttrs(2, x, y, n, word)) => Seen::Attrs(*x, *y, *n, *word),
        Step::Call(Call::RectRead(2, area)) => Seen::Area(*area),
        Step::Call(Call::WriteInput(1, records)) => key(records.0.as_slice()),
        Step::Call(Call::Peek(handle, n)) => Seen::Peek(*handle, *n),
        _ => Seen::Another,
    }
}

/// What a call of a client is, both counted from 0.
fn call(session: &Session, client: usize, at: usize) -> Seen {
    match session.scripts().get(client) {
        Some(script) => match script.steps.0.as_slice().get(at) {
            Some(step) => seen_of(step),
            None => Seen::Another,
        },
        None => Seen::Another,
    }
}

// Whether calls of the first client are these.
fn begins_as_seven(session: &Session) -> bool {
    let area = Rect {
        left: 2,
        top: 5,
        right: 19,
        bottom: 21,
    };
    call(session, 0, 0) == Seen::Mode(2, 7)
        && call(session, 0, 1) == Seen::Key(102)
        && call(session, 0, 4) == Seen::Text(2, 13, 10)
        && call(session, 0, 5) == Seen::Cursor(24, 14)
        && call(session, 0, 8) == Seen::Area(area)
        && call(session, 0, 9) == Seen::Peek(1, 4)
        && call(session, 0, 11) == Seen::Text(17, 83, 75)
}

// Whether calls of the last client are these, and none stands behind them.
fn ends_as_seven(session: &Session) -> bool {
    call(session, 3, 0) == Seen::Mode(2, 7)
        && call(session, 3, 497) == Seen::Text(5, 27, 109)
        && call(session, 3, 498) == Seen::Text(34, 49, 88)
        && call(session, 3, 499) == Seen::Text(2, 13, 10)
        && call(session, 3, 500) == Seen::Another
}

// Whether a client has the group of this number, and its program is `gen` with the digit of that.
fn is_client(script: &Script, digit: u16, group: u32) -> bool {
    script.program.as_slice() == [103, 101, 110, digit].as_slice() && script.group == group
}

// Whether there are clients of the groups 1 to 4, in this order.
fn has_four_groups(session: &Session) -> bool {
    match session.scripts() {
        [first, second, third, fourth] => {
            is_client(first, 49, 1)
                && is_client(second, 50, 2)
                && is_client(third, 51, 3)
                && is_client(fourth, 52, 4)
        }
        _ => false,
    }
}

fn is_as_of_seven(alloc: Global) -> bool {
    match generated(alloc, 7) {
        Ok(session) => {
            begins_as_seven(&session) && ends_as_seven(&session) && has_four_groups(&session)
        }
        Err(_) => false,
    }
}

// Whether calls are those of the session of the greatest number.
fn has_last_calls(session: &Session) -> bool {
    call(session, 0, 1) == Seen::Peek(1, 4)
        && call(session, 0, 2) == Seen::Attrs(64, 1, 70, 127)
        && call(session, 0, 3) == Seen::Text(1, 85, 85)
        && call(session, 3, 499) == Seen::Attrs(78, 5, 171, 95)
}

fn is_as_of_the_greatest(alloc: Global) -> bool {
    match generated(alloc, 4294967295) {
        Ok(session) => has_last_calls(&session),
        Err(_) => false,
    }
}

#[test]
fn sessions_of_two_numbers(rt: HostRuntime) {
    assert!(rt; is_as_of_seven(rt.alloc()) && is_as_of_the_greatest(rt.alloc()));
}
