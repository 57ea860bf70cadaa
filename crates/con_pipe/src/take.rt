// The end of a pipe that takes.
ghost use Rattle.std.specs.Prelude.{◌≡◌, true, false, [], ◌∷◌, ◌++◌, IfSome};
ghost use Rattle.std.specs.Option.{IfNone};
ghost use Rattle.rtrb.specs.Ring.{received, SameConsumer};
ghost use Rattle.con_pipe.specs.Pieces.{is_ended};

use crate::signal::Signal;
use con_units::Bytes;
use rtrb::Consumer;
use std::alloc::Global;
use std::sync::{Arc, Wait};

/// The end that takes pieces. Contracts see what it took, `pieces_taken`, and whether it `has_ended`.
#[derive(Drop)]
pub struct PipeOut {
    // `None` in the ring is the end mark.
    pub(crate) consumer: Consumer<Option<Bytes>>,
    pub(crate) ended: bool,
    pub(crate) signal: Arc<Signal, Global>,
    ghost ends: { ended ≡ is_ended (received consumer) },
}

// Waits for an item, and takes it.
fn take_first<R: Wait>(
    rt: &R,
    signal: &Signal,
    consumer: &mut Consumer<Option<Bytes>>,
) -> Option<Bytes>
    ensures ring { SameConsumer consumer.old consumer.new }
    ensures received { received consumer.new ≡ received consumer.old ++ result ∷ [] }
{
    let mut looks = 0u32;
    for _ in rt.forever() {
        let mark = signal.mark();
        if let Ok(item) = consumer.pop() {
            signal.note();
            return item;
        }
        signal.pause(rt, looks, mark);
        looks = looks.saturating_add(1);
    }
    unreachable!()
}

impl PipeOut {
    ghost use Rattle.con_pipe.specs.PipeEnds.{pieces_taken, has_ended, IsSameOut};

    // Waits for an item, and takes it.
    fn take<R: Wait>(&mut self, rt: &R) -> Option<Bytes>
        requires { has_ended self.old ≡ false }
        ensures pipe { IsSameOut self.old self.new }
        ensures piece { IfSome result (λ piece. (pieces_taken self.new ≡ pieces_taken self.old ++ piece ∷ []) × (has_ended self.new ≡ false)) }
        ensures end { IfNone result ((pieces_taken self.new ≡ pieces_taken self.old) × (has_ended self.new ≡ true)) }
    {
        let item = take_first(rt, &self.signal, &mut self.consumer);
        self.ended = item.is_none();
        item
    }

    /// Waits for a piece, and takes it. `None` comes exactly where the end mark was taken, in this call or before.
    pub fn next<R: Wait>(&mut self, rt: &R) -> Option<Bytes>
        ensures pipe { IsSameOut self.old self.new }
        ensures piece { IfSome result (λ piece. (pieces_taken self.new ≡ pieces_taken self.old ++ piece ∷ []) × (has_ended self.new ≡ false)) }
        ensures end { IfNone result ((pieces_taken self.new ≡ pieces_taken self.old) × (has_ended self.new ≡ true)) }
        ensures stays { has_ended self.old ≡ true → has_ended self.new ≡ true }
    {
        if self.ended {
            return None;
        }
        self.take(rt)
    }
}
