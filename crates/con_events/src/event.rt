//! What an actor does in one step.

use crate::call::Call;
use con_units::{Bytes, Size, Units};

/// What a client waits for.
pub enum Wanted {
    /// `ReadConsole`: at most `n` units of a line, or of characters.
    Read {
        handle: u32,
        n: u32,
    },
    /// `ReadConsoleInput`: at most `n` records.
    ReadInput {
        handle: u32,
        n: u32,
    },
    /// `ReadConsole` with a `CONSOLE_READCONSOLE_CONTROL`: the line begins with `initial`, and a control unit whose bit is
    /// set in `mask` ends the read.
    ReadWith {
        handle: u32,
        n: u32,
        initial: Units,
        mask: u32,
    },
}

// By hand, as that of a call.
impl Drop for Wanted {
    fn drop(self) {
        match self {
            Wanted::Read { handle: _, n: _ } => {}
            Wanted::ReadInput { handle: _, n: _ } => {}
            Wanted::ReadWith {
                handle: _,
                n: _,
                initial: _,
                mask: _,
            } => {}
        }
    }
}

/// One event. The first five are a client's, `Paint` is the painter's, and the others are the terminal side's. Each names its function of the Windows API,
/// where there is one.
pub enum Event {
    /// A function of the Console API that is answered at once: each [`Call`] names its own.
    Call(Call),
    /// `ReadConsole` or `ReadConsoleInput` is called, and waits.
    Begin(Wanted),
    /// The answer of that wait is taken, as the function returns.
    Collect,
    /// The oldest control event that waits for the client is taken: what its `HandlerRoutine` is called with.
    TakeCtrl,
    /// `ExitProcess`, with what `FreeConsole` does: the client ends, with this status.
    Exit(u32),
    /// The terminal sent bytes: what the input side of `CreatePseudoConsole` reads.
    Feed(Bytes),
    /// The terminal sent nothing for a while: bytes that are no key yet become keys. This project's own.
    Quiet,
    /// `ResizePseudoConsole`: the terminal has this size from here on, in columns and rows.
    Resize(Size),
    /// The terminal asks for a picture. This project's own.
    Ask,
    /// `ClosePseudoConsole`: the terminal went away.
    Hangup,
    /// The terminal sends nothing any more. This project's own.
    Drained,
    /// The picture that the console shows is taken, for the output side of `CreatePseudoConsole`.
    Paint,
}

// By hand, as that of a call.
impl Drop for Event {
    fn drop(self) {
        match self {
            Event::Call(_) => {}
            Event::Begin(_) => {}
            Event::Collect => {}
            Event::TakeCtrl => {}
            Event::Exit(_) => {}
            Event::Feed(_) => {}
            Event::Quiet => {}
            Event::Resize(_) => {}
            Event::Ask => {}
            Event::Hangup => {}
            Event::Drained => {}
            Event::Paint => {}
        }
    }
}
