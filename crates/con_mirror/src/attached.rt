//! A terminal that is attached.
ghost use Rattle.std.specs.Prelude.{◌≡◌, ◌+◌, ◌*◌, ◌≤◌, ◌++◌, length, drop, true, IfOk, IfSome, None, Some};
ghost use Rattle.std.specs.Vec.{vec_len, vec_capacity};
ghost use Rattle.con_units.specs.Words.Limits.{IsWindow};
ghost use Rattle.con_units.specs.Words.View.{IsWhole};
ghost use Rattle.con_paint.specs.Painter.{IsShown, frame_room, unpainted};
ghost use Rattle.con_mirror.specs.Inside.{IsAttached, given_in};
ghost use Rattle.con_mirror.specs.Mirror.{AreSince, Mirrored, size_in};
ghost use Rattle.con_mirror.specs.Part.{part};

use crate::part::{Corner, blank, corner_in, put_part};
use con_paint::Painter;
use con_units::{Coord, Marks, OutOfMemory, Rows, Size, View};
use std::alloc::Global;
use std::snapshot::Snapshot;

/// The view that was given last, in proofs alone, and where its part begins.
#[derive(Drop)]
pub struct Given {
    pub corner: Corner,
    pub view: Snapshot<View>,
}

/// A terminal that is attached: its painter, the part that it was shown last, a mark for each of its rows, where it became another
/// one then, and the view that was given then.
#[derive(Drop)]
pub struct Attached {
    pub painter: Painter,
    pub shown: View,
    pub marks: Marks,
    pub given: Option<Given>,
}

// Blanks for all cells of a size.
fn blanks(alloc: Global, size: Size) -> Result<Rows, OutOfMemory>
    requires { IsWindow size.w size.h }
    ensures { IfOk result (λ rows. length rows ≡ size.h * size.w) }
{
    match Vec::from_elem(alloc, blank(), size.h as usize * size.w as usize) {
        Ok(cells) => Ok(Rows(cells)),
        Err(_) => Err(OutOfMemory),
    }
}

// A mark for each row of a size.
fn all_marked(alloc: Global, size: Size) -> Result<Marks, OutOfMemory>
    ensures { IfOk result (λ marks. length marks ≡ size.h) }
{
    match Vec::from_elem(alloc, true, size.h as usize) {
        Ok(marks) => Ok(Marks(marks)),
        Err(_) => Err(OutOfMemory),
    }
}

// Whether the part of the view that was given last begins there.
fn begins_at(given: &Option<Given>, corner: Corner) -> bool
    ensures some { result ≡ true → ¬ (given.now ≡ None) }
    ensures corner { IfSome given.now (λ g. result ≡ true → (g.corner.left ≡ corner.left) × (g.corner.top ≡ corner.top)) }
{
    match given {
        Some(given) => given.corner.left == corner.left && given.corner.top == corner.top,
        None => false,
    }
}

impl Attached {
    /// A terminal of this size, of which nothing is known.
    pub fn new(alloc: Global, size: Size) -> Result<Attached, OutOfMemory>
        requires { IsWindow size.w size.h }
        ensures attached { IfOk result IsAttached }
        ensures new { IfOk result (λ a. a.painter ≡ unpainted size.w size.h) }
        ensures given { IfOk result (λ a. given_in a.given ≡ None) }
    {
        let painter = Painter::new(alloc, size)?;
        let rows = blanks(alloc, size)?;
        let marks = all_marked(alloc, size)?;
        Ok(Attached {
            painter,
            shown: View {
                size,
                rows,
                cursor: Coord { x: 0, y: 0 },
                visible: false,
            },
            marks,
            given: None,
        })
    }

    /// Appends a frame of the view's part.
    pub fn paint(&mut self, view: &View, since: &Marks, out: &mut Vec<u8>)
        requires attached { IsAttached self.old }
        requires view { IsWhole view.now }
        requires since { AreSince (given_in self.old.given) view.now since.now }
        requires room { vec_len out.old + frame_room self.old.painter.w self.old.painter.h ≤ vec_capacity out.old }
        ensures attached { IsAttached self.new }
        ensures paints { Mirrored self.old.painter self.new.painter view.now (drop (length out.old.items) out.new.items) }
        ensures appends { out.new.items ≡ out.old.items ++ drop (length out.old.items) out.new.items }
        ensures shown { IsShown self.new.painter (part view.now (size_in self.new.painter)) }
        ensures quiet { IsShown self.old.painter (part view.now (size_in self.old.painter)) → out.new.items ≡ out.old.items }
        ensures given { given_in self.new.given ≡ Some view.now }
        ensures capacity { vec_capacity out.new ≡ vec_capacity out.old }
    {
        let corner = corner_in(view, self.shown.size);
        let stays = begins_at(&self.given, corner);
        put_part(&mut self.shown, &mut self.marks, view, since, corner, stays);
        self.given = Some(Given {
            corner,
            view: Snapshot::of(view),
        });
        self.painter.paint(&self.shown, &self.marks, out);
    }
}
