//! Callers that use the laws of con_screens at every id.
ghost use Rattle.std.specs.Prelude.{◌≡◌, ◌≢◌, ℕ, ◌+◌, ◌*◌, ◌<◌, ◌≤◌, ◌==◌, [], IfOk, true, false, ◌++◌, length, vec_capacity, if◌then◌else◌};
ghost use Rattle.con_units.specs.View.{row_of, row_part};
ghost use Rattle.con_units.specs.Words.View.{IsWhole};
ghost use Rattle.con_page.specs.Sides.{sides};
ghost use Rattle.con_page.specs.Words.Fit.{IsFit};
ghost use Rattle.con_screen.specs.Told.{Told};
ghost use Rattle.con_screens.specs.Buffer.{buffer_written};
ghost use Rattle.con_screens.specs.Buffers.{handles_of, is_alternate, screen_at, with_buffer};
ghost use Rattle.con_screens.specs.Words.Buffers.{AreBuffers, IsLive, IsRoom};
ghost use Rattle.con_screens.specs.View.{view_of};
ghost use Rattle.con_screens.specs.Words.Stamps.{WasShown, all_remembered};

use con_page::Fit;
use con_screen::Answers;
use con_screens::{
    NewBuffer, Screens, is_counted, is_kept_when_lent, is_seen_by_rows, is_written_in_turn,
};
use con_units::{BufferId, Cell, Code, Coord, View};

/// Sets the pen of a buffer.
pub fn set_attr(screens: &mut Screens, id: BufferId, word: u16)
    requires buffers { AreBuffers screens.old }
    requires live { IsLive screens.old id.0 }
    ensures kept { AreBuffers screens.new }
    ensures counted { (k : ℕ) → handles_of screens.new k ≡ handles_of screens.old k }
    ensures remembered { all_remembered screens.new ≡ all_remembered screens.old }
{
    is_kept_when_lent();
    screens.screen_mut(id).set_attr(word);
}

/// Moves the cursor of a buffer.
pub fn set_cursor(screens: &mut Screens, id: BufferId, at: Coord) -> Result<(), Code>
    requires buffers { AreBuffers screens.old }
    requires live { IsLive screens.old id.0 }
    ensures kept { AreBuffers screens.new }
    ensures counted { (k : ℕ) → handles_of screens.new k ≡ handles_of screens.old k }
    ensures remembered { all_remembered screens.new ≡ all_remembered screens.old }
{
    is_kept_when_lent();
    screens.screen_mut(id).set_cursor(at)
}

/// Resizes what a buffer shows, behind the window.
pub fn set_size(screens: &mut Screens, id: BufferId, fit: Fit)
    requires buffers { AreBuffers screens.old }
    requires live { IsLive screens.old id.0 }
    requires fit { IsFit (screen_at screens.old id.0).page fit }
    requires window { (fit.window.w ≡ screens.old.w) × (fit.window.h ≡ screens.old.h) }
    requires alternate { is_alternate screens.old id.0 ≡ true → fit.buffer ≡ fit.window }
    ensures kept { AreBuffers screens.new }
    ensures counted { (k : ℕ) → handles_of screens.new k ≡ handles_of screens.old k }
{
    is_kept_when_lent();
    screens.screen_mut(id).resize(fit);
}

/// Counts a handle more.
pub fn retain(screens: &mut Screens, id: BufferId)
    requires buffers { AreBuffers screens.old }
    requires live { IsLive screens.old id.0 }
    requires few { id.0 ≢ 0 → handles_of screens.old id.0 < 65535 }
    ensures kept { AreBuffers screens.new }
    ensures counted { (k : ℕ) → k ≢ 0 → handles_of screens.new k ≡ (if id.0 == k then 1 else 0) + handles_of screens.old k }
{
    is_counted();
    screens.retain_handle(id);
}

/// Counts a handle less.
pub fn release(screens: &mut Screens, id: BufferId)
    requires buffers { AreBuffers screens.old }
    requires live { IsLive screens.old id.0 }
    requires some { (k : ℕ) → id.0 ≡ k → 0 < handles_of screens.old k }
    ensures kept { AreBuffers screens.new }
    ensures counted { (k : ℕ) → k ≢ 0 → (if id.0 == k then 1 else 0) + handles_of screens.new k ≡ handles_of screens.old k }
{
    is_counted();
    screens.release_handle(id);
}

/// Makes a buffer.
pub fn create(screens: &mut Screens, room: NewBuffer) -> Result<BufferId, Code>
    requires buffers { AreBuffers screens.old }
    requires room { IsRoom screens.old room }
    ensures kept { AreBuffers screens.new }
    ensures counted { IfOk result (λ id. (k : ℕ) → handles_of screens.new k ≡ (if id.0 == k then 1 else 0) + handles_of screens.old k) }
{
    is_counted();
    screens.create(room)
}

/// Writes two texts in turn.
pub fn write_both(
    screens: &mut Screens,
    id: BufferId,
    front: &[u16],
    rest: &[u16],
    answers: &mut Answers,
)
    requires buffers { AreBuffers screens.old }
    requires live { IsLive screens.old id.0 }
    requires room { length front.now + length rest.now ≤ answers.old.room }
    ensures whole { (t : Told) → screens.new ≡ with_buffer screens.old id.0 (buffer_written t (front.now ++ rest.now)) }
    ensures kept { AreBuffers screens.new }
{
    is_written_in_turn();
    screens.write(id, front, answers);
    screens.write(id, rest, answers);
}

/// What a console shows.
pub fn seen(screens: &Screens, rows: Vec<Cell>) -> View
    requires buffers { AreBuffers screens.now }
    requires empty { rows.items ≡ [] }
    requires spare { screens.now.w * screens.now.h ≤ vec_capacity rows }
    ensures whole { IsWhole result }
    ensures rows { (y : ℕ) → y < screens.now.h
        → row_of screens.now.w result.rows y
        ≡ row_part (screen_at screens.now screens.now.active).page.grid.width (screen_at screens.now screens.now.active).page.grid.cells
        (screen_at screens.now screens.now.active).page.left screens.now.w ((screen_at screens.now screens.now.active).page.top + y) }
{
    is_seen_by_rows();
    screens.view(rows)
}

/// Whether the console shows what it showed when the number was last raised, at the window's present place.
pub fn is_as_it_was(screens: &Screens, last: &View) -> bool
    requires buffers { AreBuffers screens.now }
    requires shown { WasShown (sides (screen_at screens.now screens.now.active).page) (screen_at screens.now screens.now.active).page.left
        (screen_at screens.now screens.now.active).page.top last.now }
    ensures as_it_was { result ≡ true → view_of (screen_at screens.now screens.now.active).page ≡ last.now }
    ensures changed { result ≡ false → ¬ (view_of (screen_at screens.now screens.now.active).page ≡ last.now) }
{
    screens.shows(last, true)
}

/// Raises the number of a buffer's screen, so that its view is known from here on.
pub fn note(screens: &mut Screens, id: BufferId, number: u64)
    requires buffers { AreBuffers screens.old }
    requires live { IsLive screens.old id.0 }
    requires risen { (screen_at screens.old id.0).page.grid.now < number }
    ensures kept { AreBuffers screens.new }
{
    screens.set_now(id, number);
}
