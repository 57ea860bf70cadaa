//! The writer's thread, until it returns.
ghost use Rattle.con_threads.specs.Writers.{HasWritten};

use con_outside::Sink;
use con_threads::{Signals, WriterThread};
use std::sync::Wait;

/// Takes pieces until the end mark, and writes each.
pub fn writer_work<R: Wait, O: Sink>(
    writer: &mut WriterThread,
    rt: &R,
    term: &mut O,
    signals: &Signals,
)
    ensures { HasWritten writer.old writer.new (O.written term.old) (O.written term.new) (O.faults term.old) (O.faults term.new) }
{
    for _ in rt.forever() {
        match writer.take.next(rt) {
            Some(piece) => writer.write(term, &piece, signals),
            None => return,
        }
    }
    unreachable!()
}
