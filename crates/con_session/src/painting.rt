//! The painter's turn: a Paint, its frame, and the frame's bytes to the terminal.
ghost use Rattle.std.specs.Prelude.{◌≡◌, ◌⊎◌, ℕ, ◌<◌, ◌≤◌, true, false, List, length, slice_index_or, IfOk, IfSome, Option, if◌then◌else◌};
ghost use Rattle.con_units.specs.Words.Limits.{IsWindow};
ghost use Rattle.con_units.specs.View.{row_of};
ghost use Rattle.con_units.specs.Words.View.{IsWhole};
ghost use Rattle.con_units.specs.declared.place.Size.{Size};
ghost use Rattle.con_outside.specs.Outside.{Rose};
ghost use Rattle.con_term.specs.Terminal.{Terminal};
ghost use Rattle.con_paint.specs.Painter.{Allows, IsShown, Paints, unpainted};
ghost use Rattle.con_machine.specs.History.{run};
ghost use Rattle.con_machine.specs.Marks.{AreMarks};
ghost use Rattle.con_laws.specs.Rounds.{Begun};
ghost use Rattle.con_machine.specs.Turns.{paints};
ghost use Rattle.con_actors.specs.Painting.{CanvasIs, IsTied, PainterActs, PainterFails, PaintTurn, Pictured, acted};
ghost use Rattle.con_actors.specs.Words.Sender.{FailsBy};

use con_actors::{Canvas, Desk, Picture, end_after, frame_length};
use con_events::{Actor, Event};
use con_outside::{Fault, Sink, write_whole};
use con_paint::{Painter, room_for};
use con_units::{OutOfMemory, Size};

// A painter that knows nothing, where nothing is known of the terminal.
fn ready_for(painter: &mut Painter, size: Size, fresh: bool) -> Result<(), OutOfMemory>
    requires { IsWindow size.w size.h }
    ensures { IfOk result (λ _. painter.new ≡ (if fresh then unpainted size.w size.h else painter.old)) }
{
    if fresh {
        painter.resize(size)?;
        return Ok(());
    }
    Ok(())
}

/// Writes a frame of the picture to `out`, in the place of what was there. The painter then knows the terminal to show it.
pub fn draw(painter: &mut Painter, out: &mut Vec<u8>, picture: &Picture) -> Result<(), OutOfMemory>
    requires whole { IsWhole picture.now.view }
    requires window { IsWindow picture.now.view.size.w picture.now.view.size.h }
    requires marks { length picture.now.marks ≡ picture.now.view.size.h }
    requires size { picture.now.fresh ≡ false → (picture.now.view.size.w ≡ painter.old.w) × (picture.now.view.size.h ≡ painter.old.h) }
    requires marked { picture.now.fresh ≡ false → (y : ℕ) → y < painter.old.h → slice_index_or picture.now.marks y false ≡ false
        → row_of painter.old.w picture.now.view.rows y ≡ row_of painter.old.w painter.old.cells y }
    ensures paints { IfOk result
        (λ _. (t : Terminal) → Allows (if picture.now.fresh then unpainted picture.now.view.size.w picture.now.view.size.h else painter.old) t
        → Paints (if picture.now.fresh then unpainted picture.now.view.size.w picture.now.view.size.h else painter.old)
        painter.new picture.now.view out.new.items t) }
    ensures shown { IfOk result (λ _. IsShown painter.new picture.now.view) }
    ensures size { IfOk result (λ _. (painter.new.w ≡ picture.now.view.size.w) × (painter.new.h ≡ picture.now.view.size.h)) }
{
    let size = picture.view.size;
    out.clear();
    if out.reserve(room_for(size)).is_err() {
        return Err(OutOfMemory);
    }
    ready_for(painter, size, picture.fresh)?;
    painter.paint(&picture.view, &picture.marks, out);
    Ok(())
}

/// A turn of the painter: a Paint with its frame, where one is ready and the terminal has not failed. It answers what was painted,
/// also where the terminal failed in it; none: no Paint was entered.
pub fn painted<O: Sink>(
    desk: &mut Desk,
    canvas: &mut Canvas,
    term: &mut O,
) -> Result<Option<Picture>, OutOfMemory>
    requires { IsTied desk.old.console.state canvas.old.painter }
    ensures pictured { Pictured result desk.old.console.state desk.new.console.state desk.old.entries.items desk.new.entries.items
        desk.old.replies.items desk.new.replies.items }
    ensures marks { IfOk result (λ o. IfSome o (λ p. AreMarks desk.old.console.state p.marks)) }
    ensures acts { (b : Begun) → desk.old.console.state ≡ run b.state desk.old.entries.items
        → FailsBy canvas.old.failed b.failed (paints desk.old.entries.items) → PainterActs (acted result) b desk.old.entries.items }
    ensures served { IfOk result (λ _. (desk.new.console.state.asked ≡ false) ⊎ (canvas.new.failed ≡ true)) }
    ensures tied { IfOk result (λ _. IsTied desk.new.console.state canvas.new.painter) }
    ensures fails { PainterFails (acted result) canvas.old.failed canvas.new.failed }
    ensures still { canvas.old.failed ≡ true → term.new ≡ term.old }
    ensures failed { canvas.new.failed ≡ true → (canvas.old.failed ≡ true) ⊎ Rose (O.faults term.old) (O.faults term.new) }
    ensures never_falls { O.faults term.old ≤ O.faults term.new }
    ensures turn { (b : Begun) (size : Size) (before : Option (List ℕ)) (ps : List (List ℕ)) → desk.old.console.state ≡ run b.state desk.old.entries.items
        → CanvasIs b desk.old.entries.items size canvas.old.painter ps canvas.old.ends.items canvas.old.end before (O.written term.old) canvas.old.failed
        → PaintTurn (acted result) b desk.old.console.state desk.new.console.state desk.old.entries.items desk.new.entries.items desk.old.replies.items
        desk.new.replies.items size canvas.new.painter ps canvas.new.ends.items canvas.new.end before (O.written term.new) canvas.new.failed }
{
    if canvas.failed {
        return Ok(None);
    }
    if !desk.console.ready(Actor::Painter, &Event::Paint) {
        return Ok(None);
    }
    if canvas.ends.reserve(1).is_err() {
        return Err(OutOfMemory);
    }
    let picture = desk.paint()?;
    draw(&mut canvas.painter, &mut canvas.out, &picture)?;
    let end = end_after(canvas.end, frame_length(&canvas.out))?;
    canvas.end = end;
    canvas.ends.push_reserved(end);
    match write_whole(term, canvas.out.as_slice()) {
        Ok(()) => Ok(Some(picture)),
        Err(Fault::Failed) => {
            canvas.failed = true;
            Ok(Some(picture))
        }
        Err(Fault::OutOfMemory) => Err(OutOfMemory),
    }
}

// Whether a Paint was entered.
fn has_painted(painted: Result<Option<Picture>, OutOfMemory>) -> Result<bool, OutOfMemory>
    ensures { result ≡ acted painted }
{
    match painted {
        Ok(Some(_)) => Ok(true),
        Ok(None) => Ok(false),
        Err(lack) => Err(lack),
    }
}

/// The painter's turn. False: no Paint was entered.
pub fn painter_turn<O: Sink>(
    desk: &mut Desk,
    canvas: &mut Canvas,
    term: &mut O,
) -> Result<bool, OutOfMemory>
    requires { IsTied desk.old.console.state canvas.old.painter }
    ensures acts { (b : Begun) → desk.old.console.state ≡ run b.state desk.old.entries.items
        → FailsBy canvas.old.failed b.failed (paints desk.old.entries.items) → PainterActs result b desk.old.entries.items }
    ensures served { IfOk result (λ _. (desk.new.console.state.asked ≡ false) ⊎ (canvas.new.failed ≡ true)) }
    ensures tied { IfOk result (λ _. IsTied desk.new.console.state canvas.new.painter) }
    ensures fails { PainterFails result canvas.old.failed canvas.new.failed }
    ensures still { canvas.old.failed ≡ true → term.new ≡ term.old }
    ensures failed { canvas.new.failed ≡ true → (canvas.old.failed ≡ true) ⊎ Rose (O.faults term.old) (O.faults term.new) }
    ensures never_falls { O.faults term.old ≤ O.faults term.new }
    ensures turn { (b : Begun) (size : Size) (before : Option (List ℕ)) (ps : List (List ℕ)) → desk.old.console.state ≡ run b.state desk.old.entries.items
        → CanvasIs b desk.old.entries.items size canvas.old.painter ps canvas.old.ends.items canvas.old.end before (O.written term.old) canvas.old.failed
        → PaintTurn result b desk.old.console.state desk.new.console.state desk.old.entries.items desk.new.entries.items desk.old.replies.items
        desk.new.replies.items size canvas.new.painter ps canvas.new.ends.items canvas.new.end before (O.written term.new) canvas.new.failed }
{
    has_painted(painted(desk, canvas, term))
}
