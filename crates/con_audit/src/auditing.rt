//! The audit of a finished run.
ghost use Rattle.std.specs.Prelude.{◌≡◌, ◌≤◌, length, All, IfOk};
ghost use Rattle.con_machine.specs.Turns.{paints};
ghost use Rattle.con_audit.specs.Audit.{IsAudited};

use crate::frames::frames_of;
use crate::judging::verdict_on;
use crate::verdict::Verdict;
use con_events::{Entry, Reply, Session};
use con_units::{Bytes, OutOfMemory};
use std::alloc::Global;

/// Whether entries, replies and ends are those of a run of the session, with racks of handlers of these kinds, the first client's first,
/// over the link, whose output is the stream; and where not, which entry is the first that shows it, and by what. `ends` has the number of
/// bytes of the stream there were after each Paint, in order.
pub fn audit(
    alloc: Global,
    session: &Session,
    racks: &[Bytes],
    link: &[u8],
    stream: &[u8],
    entries: &[Entry],
    replies: &[Reply],
    ends: &[u64],
) -> Result<Verdict, OutOfMemory>
    requires few { All (λ rack. length rack ≤ 255) racks.now }
    requires short { length link.now ≤ 16777216 }
    requires replies { length replies.now ≡ length entries.now }
    requires ends { length ends.now ≡ paints entries.now }
    ensures audited { IfOk result (λ verdict. IsAudited
        (record {
          session = session.now;
          racks = racks.now;
          link = link.now;
          stream = stream.now;
          entries = entries.now;
          replies =
              replies.now;
          ends = ends.now;
        }) verdict) }
{
    let frames = frames_of(alloc, link)?;
    let frames = frames.as_slice();
    verdict_on(
        alloc, session, racks, frames, stream, entries, replies, ends,
    )
}
