//! What a session leaves behind, and why it ended.
ghost use Rattle.std.specs.Prelude.{◌≡◌, []};
ghost use Rattle.con_events.specs.declared.end.End.{End};
ghost use Rattle.con_actors.specs.Solo.{end_by};

use crate::desk::Desk;
use crate::stage::Stage;
use con_events::{End, Entries, PieceEnds, Replies};
use std::alloc::Global;

/// What a session leaves behind: its history, the answers, where each frame ends in the terminal's stream, and why it ended.
/// A Paint counts as answered by Done.
#[derive(Drop)]
pub struct Outcome {
    pub entries: Entries,
    pub replies: Replies,
    pub ends: PieceEnds,
    pub end: End,
}

/// Why a session ended in which nobody has anything left to do: the terminal failed, or by the end that its side has.
pub fn end_by(failed: bool, end: End) -> End
    ensures { result ≡ end_by failed end }
{
    if failed { End::Term } else { end }
}

/// What a stage leaves behind.
pub fn left_by(stage: Stage, end: End) -> Outcome
    ensures entries { result.entries ≡ stage.desk.entries.items }
    ensures replies { result.replies ≡ stage.desk.replies.items }
    ensures ends { result.ends ≡ stage.canvas.ends.items }
    ensures end { result.end ≡ end }
{
    let Stage {
        desk,
        reader: _,
        side: _,
        canvas,
    } = stage;
    let Desk {
        console: _,
        entries,
        replies,
    } = desk;
    Outcome {
        entries: Entries(entries),
        replies: Replies(replies),
        ends: PieceEnds(canvas.ends),
        end,
    }
}

/// What is left where there was no memory to begin with.
pub fn nothing_left(alloc: Global) -> Outcome
    ensures entries { result.entries ≡ [] }
    ensures replies { result.replies ≡ [] }
    ensures ends { result.ends ≡ [] }
    ensures end { result.end ≡ End.Memory }
{
    Outcome {
        entries: Entries(Vec::new(alloc)),
        replies: Replies(Vec::new(alloc)),
        ends: PieceEnds(Vec::new(alloc)),
        end: End::Memory,
    }
}
