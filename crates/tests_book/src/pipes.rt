//! A pipe's room, as one that makes it sees it.

ghost use Rattle.std.specs.Prelude.{◌≡◌, ◌<◌, ◌≤◌, [], ◌∷◌, false, IfOk};
ghost use Rattle.con_pipe.specs.PipeEnds.{pieces_put, is_finished, put_room, take_room, IsPipe};

use con_pipe::{PipeEnds, pipe};
use con_units::{Bytes, OutOfMemory};
use std::alloc::Global;
use std::sync::Wait;

/// A pipe that has its room still when a piece was put.
pub fn pipe_with<R: Wait>(
    rt: &R,
    alloc: Global,
    pieces: usize,
    first: Bytes,
) -> Result<PipeEnds, OutOfMemory>
    requires { (0 < pieces) × (pieces ≤ 1024) }
    ensures room { IfOk result (λ ends. (put_room ends.put ≡ pieces) × (take_room ends.take ≡ pieces)) }
    ensures put { IfOk result (λ ends. (pieces_put ends.put ≡ first ∷ []) × (is_finished ends.put ≡ false)) }
    ensures pipe { IfOk result (λ ends. IsPipe ends.put ends.take) }
{
    let PipeEnds { mut put, take } = pipe(alloc, pieces)?;
    put.push(rt, first);
    Ok(PipeEnds { put, take })
}
