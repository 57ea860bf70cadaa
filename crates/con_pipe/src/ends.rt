// A pipe's two ends together.
ghost use Rattle.std.specs.Prelude.{◌≡◌, ◌<◌, ◌≤◌, true, false, [], IfOk};
ghost use Rattle.con_pipe.specs.Pieces.{StartsWith};
ghost use Rattle.con_pipe.specs.PipeEnds.{pieces_put, is_finished, pieces_taken, has_ended, put_room, take_room, IsPipe, IsSameIn, IsSameOut};

use crate::put::PipeIn;
use crate::signal::Signal;
use crate::take::PipeOut;
use con_units::OutOfMemory;
use rtrb::RingBuffer;
use std::alloc::Global;
use std::sync::Arc;

/// The two ends of a new pipe. Each may go to a thread of its own.
#[derive(Drop)]
pub struct PipeEnds {
    pub put: PipeIn,
    pub take: PipeOut,
}

/// A pipe with room for this many pieces, 1 to 1,024. The end mark takes the place of a piece.
pub fn pipe(alloc: Global, pieces: usize) -> Result<PipeEnds, OutOfMemory>
    requires { (0 < pieces) × (pieces ≤ 1024) }
    ensures pipe { IfOk result (λ ends. IsPipe ends.put ends.take) }
    ensures room { IfOk result (λ ends. (put_room ends.put ≡ pieces) × (take_room ends.take ≡ pieces)) }
    ensures put { IfOk result (λ ends. (pieces_put ends.put ≡ []) × (is_finished ends.put ≡ false)) }
    ensures take { IfOk result (λ ends. (pieces_taken ends.take ≡ []) × (has_ended ends.take ≡ false)) }
{
    let Ok(signal) = Arc::new(alloc, Signal::new()) else {
        return Err(OutOfMemory);
    };
    let Ok(other) = Arc::try_clone(&signal) else {
        return Err(OutOfMemory);
    };
    let Ok((producer, consumer)) = RingBuffer::new(alloc, pieces) else {
        return Err(OutOfMemory);
    };
    Ok(PipeEnds {
        put: PipeIn {
            producer,
            finished: false,
            signal,
        },
        take: PipeOut {
            consumer,
            ended: false,
            signal: other,
        },
    })
}

// Looks at one end beside the other.
fn compare(put: &mut PipeIn, take: &mut PipeOut)
    requires { IsPipe put.old take.old }
    ensures put { IsSameIn put.old put.new × (pieces_put put.new ≡ pieces_put put.old) × (is_finished put.new ≡ is_finished put.old) }
    ensures take { IsSameOut take.old take.new × (pieces_taken take.new ≡ pieces_taken take.old) × (has_ended take.new ≡ has_ended take.old) }
    ensures first { StartsWith (pieces_put put.new) (pieces_taken take.new) }
    ensures all { has_ended take.new ≡ true → (pieces_taken take.new ≡ pieces_put put.new) × (is_finished put.new ≡ true) }
{
    take.consumer.slots_beside(&mut put.producer);
}

/// Compares the two ends of one pipe: the pieces taken are a beginning of the pieces put, in order, and they are all of
/// them, and the pipe is finished, where the end mark was taken.
pub fn meet(put: &mut PipeIn, take: &mut PipeOut)
    requires { IsPipe put.old take.old }
    ensures put { IsSameIn put.old put.new × (pieces_put put.new ≡ pieces_put put.old) × (is_finished put.new ≡ is_finished put.old) }
    ensures take { IsSameOut take.old take.new × (pieces_taken take.new ≡ pieces_taken take.old) × (has_ended take.new ≡ has_ended take.old) }
    ensures first { StartsWith (pieces_put put.new) (pieces_taken take.new) }
    ensures all { has_ended take.new ≡ true → (pieces_taken take.new ≡ pieces_put put.new) × (is_finished put.new ≡ true) }
{
    compare(put, take);
}
