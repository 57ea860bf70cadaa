//! A mirror: a second terminal that attaches and detaches.
ghost use Rattle.std.specs.Prelude.{◌≡◌, ◌++◌, length, drop, Some, None, IfNone, IfSome, MatchResult};
ghost use Rattle.std.specs.Vec.{vec_len, vec_capacity};
ghost use Rattle.con_units.specs.Words.Limits.{IsWindow};
ghost use Rattle.con_units.specs.Words.View.{IsWhole};
ghost use Rattle.con_paint.specs.Painter.{unpainted};
ghost use Rattle.con_mirror.specs.Mirror.{AreSince, HasRoom, IsMirrored, WasMirrored, at_size};

use crate::attached::Attached;
use con_units::{Marks, OutOfMemory, Size, View};
use std::alloc::Global;
use std::marker::Model;

/// A second terminal of any size that attaches and detaches, and shows the part of a view round its cursor. Contracts see what its
/// painter keeps, where one is attached, and the view that was given last.
#[derive(Drop)]
pub struct Mirror {
    alloc: Global,
    attached: Option<Attached>,
}

impl Model for Mirror {
    ghost use Rattle.con_mirror.specs.Mirror.{Following};

    ghost Value = { Following };

    ghost use Rattle.con_mirror.specs.Inside.{following_of, IsInside};

    ghost view = { following_of };

    ghost invariant = { IsInside };
}

impl Mirror {
    /// A mirror to which no terminal is attached.
    pub fn new(alloc: Global) -> Mirror
        ensures kept { result.kept ≡ None }
        ensures given { result.given ≡ None }
    {
        Mirror {
            alloc,
            attached: None,
        }
    }

    /// Attaches a terminal of this size, 1 to 512 columns and 1 to 256 rows, of which nothing else is known, with the room of its
    /// parts. One that was attached before is detached. Unchanged where there is no memory.
    pub fn attach(&mut self, size: Size) -> Result<(), OutOfMemory>
        requires { IsWindow size.w size.h }
        ensures { MatchResult result (λ _. (self.new.kept ≡ Some (unpainted size.w size.h)) × (self.new.given ≡ None)) (λ _. self.new ≡ self.old) }
    {
        let attached = Attached::new(self.alloc, size)?;
        self.attached = Some(attached);
        Ok(())
    }

    /// Detaches the terminal, if one is attached.
    pub fn detach(&mut self)
        ensures kept { self.new.kept ≡ None }
        ensures given { self.new.given ≡ None }
    {
        self.attached = None;
    }

    /// The size of the terminal that is attached; `None` where none is.
    pub fn size(&self) -> Option<Size>
        ensures size { result ≡ at_size self.now.kept }
        ensures window { IfSome result (λ z. IsWindow z.w z.h) }
        ensures none { IfNone result (self.now.given ≡ None) }
    {
        match &self.attached {
            Some(attached) => Some(attached.shown.size),
            None => None,
        }
    }

    /// Appends a frame: bytes that bring each terminal of the attached one's size that the mirror allows to one that shows the part
    /// of the view, and that the mirror allows again; none where it shows that part already. A row of the view without a mark is as
    /// it was in the view that was given last, if one was since the terminal was attached. The bytes before stay as they were. It
    /// takes no memory.
    pub fn paint(&mut self, view: &View, marks: &Marks, out: &mut Vec<u8>)
        requires view { IsWhole view.now }
        requires marks { AreSince self.old.given view.now marks.now }
        requires room { HasRoom self.old.kept (vec_len out.old) (vec_capacity out.old) }
        ensures paints { IsMirrored self.old.kept self.new.kept view.now (drop (length out.old.items) out.new.items) }
        ensures appends { out.new.items ≡ out.old.items ++ drop (length out.old.items) out.new.items }
        ensures size { at_size self.new.kept ≡ at_size self.old.kept }
        ensures shown { WasMirrored self.new.kept view.now }
        ensures given { self.new.given ≡ Some view.now }
        ensures quiet { WasMirrored self.old.kept view.now → out.new.items ≡ out.old.items }
        ensures capacity { vec_capacity out.new ≡ vec_capacity out.old }
    {
        match &mut self.attached {
            Some(attached) => attached.paint(view, marks, out),
            None => unreachable!(),
        }
    }
}
