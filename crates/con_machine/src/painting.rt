//! When a Paint is due, and what it does.
ghost use Rattle.std.specs.Prelude.{◌≡◌, ◌||◌, IfOk, true, not, is_none, Some, replicate};
ghost use Rattle.con_events.specs.declared.reply.Reply.TheVariants as replies;
ghost use Rattle.con_machine.specs.Painting.{view_now, is_paint_due, painted};
ghost use Rattle.con_machine.specs.Marks.{seen_at, IsPaintRoom};

use crate::parts::Parts;
use crate::rooms::paint_room::PaintRoom;
use con_events::Reply;
use con_units::{OutOfMemory, View};

pub(crate) mod seen;
pub(crate) mod showing;

// Whether nothing was painted on a terminal of this size.
fn is_fresh(resized: bool, painted: &Option<View>) -> bool
    ensures { result ≡ (resized || is_none painted.now) }
{
    resized || painted.is_none()
}

// Whether all rows are marked.
fn marks_all(fresh: bool, known: bool) -> bool
    ensures { result ≡ (fresh || not known) }
{
    fresh || !known
}

impl Parts {
    /// Whether a Paint is due: nothing was painted, the view is another one, or a Resize or an Ask stands after the last
    /// Paint. Where the view is seen in the same place as then, only stamped rows are looked at.
    pub fn is_paint_due(&self) -> bool
        ensures { result ≡ is_paint_due self.now.state }
    {
        self.resized || self.asked || !showing::is_painted(&self.screens, self.seen, &self.painted)
    }

    /// Takes the memory of a Paint, and changes nothing. All rows are marked at the first Paint and after a Resize, and
    /// where the active buffer, its shown screen or its window's place is another one than at the last Paint.
    pub(crate) fn paint_room(&self) -> Result<PaintRoom, OutOfMemory>
        ensures room { IfOk result (λ r. IsPaintRoom self.now.state r) }
        ensures moved { IfOk result (λ r. ¬ (self.now.seen ≡ Some (seen_at self.now.state.buffers))
            → r.marks ≡ replicate (view_now self.now.state).size.h true) }
    {
        let alloc = self.title.allocator();
        let fresh = is_fresh(self.resized, &self.painted);
        let known = showing::is_known(&self.screens, self.seen);
        let all = marks_all(fresh, known);
        let view = showing::view_behind(alloc, &self.screens, self.seen, &self.painted)?;
        let kept = showing::copied(alloc, &view)?;
        let marks = showing::marks(alloc, &self.screens, view.size.h, all)?;
        Ok(PaintRoom {
            view,
            kept,
            marks,
            fresh,
        })
    }

    /// A Paint: the view is painted from here on, and no Resize and no Ask stands after it.
    #[tactic(auto, unfolding(crate::specs::Painting::painted))]
    pub(crate) fn paint(&mut self, room: PaintRoom) -> Reply
        requires { IsPaintRoom self.old.state room }
        ensures state { self.new.state ≡ painted self.old.state }
        ensures reply { result ≡ replies.View (view_now self.old.state) room.marks room.fresh }
    {
        let PaintRoom {
            view,
            kept,
            marks,
            fresh,
        } = room;
        self.seen = showing::stamp(&mut self.screens);
        self.painted = Some(kept);
        self.resized = false;
        self.asked = false;
        Reply::View(view, marks, fresh)
    }
}
