//! An audit, entry by entry.
ghost use Rattle.std.specs.Prelude.{◌≡◌, ◌≤◌, ℕ, List, [], length, All, IfOk};
ghost use Rattle.con_units.specs.declared.view.Frame.{Frame};
ghost use Rattle.con_audit.specs.Audit.{Given, AreFrames, IsVerdict, IsAudited};
ghost use Rattle.con_audit.specs.Judging.{Stands, Reads};

use crate::judge::Judge;
use crate::verdict::{Verdict, What};
use con_events::{Entry, Reply, Session};
use con_units::{Bytes, Frame, OutOfMemory};
use std::alloc::Global;

/// The verdict, by the frames of the link.
pub fn verdict_on(
    alloc: Global,
    session: &Session,
    racks: &[Bytes],
    frames: &[Frame],
    stream: &[u8],
    entries: &[Entry],
    replies: &[Reply],
    ends: &[u64],
) -> Result<Verdict, OutOfMemory>
    requires few { All (λ rack. length rack ≤ 255) racks.now }
    requires replies { length replies.now ≡ length entries.now }
    ensures { (link : List ℕ) → AreFrames link frames.now
        → IfOk result (λ verdict. IsAudited
        (record {
          session = session.now;
          racks = racks.now;
          link = link;
          stream = stream.now;
          entries = entries.now;
          replies = replies.now;
          ends = ends.now;
        }) verdict) }
{
    let mut judge = Judge::new(alloc, session, racks, frames, ends)?;
    judged(&mut judge, stream, entries, replies, ends)
}

// The verdict of a judge that stands before the first entry.
fn judged(
    judge: &mut Judge,
    stream: &[u8],
    entries: &[Entry],
    replies: &[Reply],
    ends: &[u64],
) -> Result<Verdict, OutOfMemory>
    requires { length replies.now ≡ length entries.now }
    ensures { (g : Given) (frames : List Frame) → Reads g stream.now entries.now replies.now ends.now
        → Stands judge.old.console.state judge.old.tracks.items judge.old.side judge.old.watch g frames []
        → IfOk result (λ verdict. IsVerdict g frames verdict) }
{
    for place in 0..entries.len() {
        let found = judge.entry(stream, &entries[place], &replies[place])?;
        if let Some(what) = found {
            return Ok(Verdict::No {
                place: place as u64,
                what,
            });
        }
    }
    if judge.is_whole(stream, ends) {
        Ok(Verdict::Yes)
    } else {
        Ok(Verdict::No {
            place: entries.len() as u64,
            what: What::Whole,
        })
    }
}
