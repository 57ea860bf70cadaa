// The end of a pipe that puts.
ghost use Rattle.std.specs.Prelude.{◌≡◌, true, false, [], ◌∷◌, ◌++◌};
ghost use Rattle.rtrb.specs.Ring.{sent, SameProducer};
ghost use Rattle.con_pipe.specs.Pieces.{is_ended, is_proper};

use crate::signal::Signal;
use con_units::Bytes;
use rtrb::{Producer, PushError};
use std::alloc::Global;
use std::sync::{Arc, Wait};

/// The end that puts pieces. Contracts see what it put, `pieces_put`, and whether it `is_finished`.
#[derive(Drop)]
pub struct PipeIn {
    // `None` in the ring is the end mark.
    pub(crate) producer: Producer<Option<Bytes>>,
    pub(crate) finished: bool,
    pub(crate) signal: Arc<Signal, Global>,
    ghost ends: { (finished ≡ is_ended (sent producer)) × (is_proper (sent producer) ≡ true) },
}

// Waits for room, and puts the item last.
fn put_last<R: Wait>(
    rt: &R,
    signal: &Signal,
    producer: &mut Producer<Option<Bytes>>,
    item: Option<Bytes>,
)
    ensures ring { SameProducer producer.old producer.new }
    ensures sent { sent producer.new ≡ sent producer.old ++ item ∷ [] }
{
    let mut item = item;
    let mut looks = 0u32;
    for _ in rt.forever() {
        let mark = signal.mark();
        match producer.push(item) {
            Ok(()) => {
                signal.note();
                return;
            }
            Err(PushError::Full(back)) => item = back,
        }
        signal.pause(rt, looks, mark);
        looks = looks.saturating_add(1);
    }
    unreachable!()
}

impl PipeIn {
    ghost use Rattle.con_pipe.specs.PipeEnds.{pieces_put, is_finished, IsSameIn};

    /// Waits for room, and puts the piece last.
    pub fn push<R: Wait>(&mut self, rt: &R, piece: Bytes)
        requires { is_finished self.old ≡ false }
        ensures pipe { IsSameIn self.old self.new }
        ensures put { pieces_put self.new ≡ pieces_put self.old ++ piece ∷ [] }
        ensures open { is_finished self.new ≡ false }
    {
        put_last(rt, &self.signal, &mut self.producer, Some(piece));
    }

    // Waits for room, and puts the end mark.
    fn end<R: Wait>(&mut self, rt: &R)
        requires { is_finished self.old ≡ false }
        ensures pipe { IsSameIn self.old self.new }
        ensures put { pieces_put self.new ≡ pieces_put self.old }
        ensures finished { is_finished self.new ≡ true }
    {
        put_last(rt, &self.signal, &mut self.producer, None);
        self.finished = true;
    }

    /// Waits for room, and puts the end mark. After it nothing more can be put.
    pub fn finish<R: Wait>(&mut self, rt: &R)
        requires { is_finished self.old ≡ false }
        ensures pipe { IsSameIn self.old self.new }
        ensures put { pieces_put self.new ≡ pieces_put self.old }
        ensures finished { is_finished self.new ≡ true }
    {
        self.end(rt);
    }
}
