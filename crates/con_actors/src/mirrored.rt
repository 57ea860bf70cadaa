//! What a session with a second terminal leaves behind.
ghost use Rattle.std.specs.Prelude.{◌≡◌};

use crate::outcome::Outcome;
use crate::second::Second;
use con_events::PieceEnds;

/// What a session with a second terminal leaves behind: what any session does, where the second terminal's stream ends after each Paint,
/// and whether its sink failed.
#[derive(Drop)]
pub struct Mirrored {
    pub outcome: Outcome,
    pub ends: PieceEnds,
    pub failed: bool,
}

/// What is left of a session, with its second terminal.
pub fn left_with(outcome: Outcome, second: Second) -> Mirrored
    ensures outcome { result.outcome ≡ outcome }
    ensures ends { result.ends ≡ second.ends.items }
    ensures failed { result.failed ≡ second.failed }
{
    Mirrored {
        outcome,
        ends: PieceEnds(second.ends),
        failed: second.failed,
    }
}
