//! What an event was answered, in a line.

ghost use Rattle.std.specs.Prelude.{◌≡◌, List, [], ◌∷◌, IfOk};
ghost use Rattle.json.specs.Print.{escape};
ghost use Rattle.con_lines.specs.Line.{answer_data};
ghost use Rattle.con_lines.specs.Writing.{put};

use con_events::{Event, Reply};
use con_lines::Line;
use con_lines::form::form_of_event;
use con_units::OutOfMemory;

/// What an event was answered: for a picture the stream's length after it.
#[tactic(auto, unfolding(json::specs::Print::escape_byte))]
pub fn answer(line: &mut Line, event: &Event, reply: &Reply, end: u64) -> Result<(), OutOfMemory>
    ensures { IfOk result (λ _. line.new ≡ put line.old (answer_data event.now reply.now end)) }
{
    match event {
        Event::Paint => line.word_and_number("painted", end),
        _ => line.reply(form_of_event(event), reply),
    }
}
