//! The last line, written as it was read.

ghost use Rattle.std.specs.Prelude.{◌≡◌, IfOk, IsTrue, ◌↔◌};
ghost use Rattle.con_lines.specs.Ending.{ending_data, ending_text};
ghost use Rattle.con_lines.specs.Last.{last_of};
ghost use Rattle.con_lines.specs.Writing.{put};

use crate::ending::at_frame;
use con_lines::Line;
use con_lines::ending::owned;
use con_lines::last::Last;
use con_units::OutOfMemory;
use std::alloc::Global;

/// A last line.
fn last_line(line: &mut Line, alloc: Global, last: &Last<'_>) -> Result<(), OutOfMemory>
    ensures { IfOk result (λ _. line.new ≡ put line.old (ending_data (last_of last.now))) }
{
    match last {
        Last::Alone(status) => line.alone(*status),
        Last::Worded(status, text) => line.worded(alloc, *status, given!(owned(alloc, text))),
        Last::Frame(place, kind) => at_frame(line, *place, *kind),
    }
}

/// Whether the line is this last line.
#[tactic(auto, unfolding(con_lines::specs::Ending::ending_text, con_lines::specs::Writing::put))]
pub fn is_ending_of(alloc: Global, last: &Last<'_>, line: &[u8]) -> Result<bool, OutOfMemory>
    ensures { IfOk result (λ b. IsTrue b ↔ (line.now ≡ ending_text (last_of last.now))) }
{
    let mut written = Line::new(alloc);
    given!(last_line(&mut written, alloc, last));
    Ok(written.as_slice() == line)
}
