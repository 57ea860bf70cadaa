//! A terminal of which only what bytes tell is known.
ghost use Rattle.std.specs.Prelude.{◌≡◌, ◌<◌, ◌≤◌, ◌↔◌, true, IfOk};
ghost use Rattle.con_audit.specs.Partial.{unknown, played, IsKnown};

use crate::knowing::{are_known, shows};
use crate::marking::{Flags, forget, shade};
use crate::playing::learn_all;
use con_term::page::Page;
use con_units::{OutOfMemory, Size, Utf8, View};
use con_vtgram::{Found, Splitter};
use std::alloc::Global;
use std::marker::Model;

/// A partial terminal: it plays bytes as a terminal does, and knows of which cells, and whether of the pen, the visibility and the
/// cursor, the bytes alone tell what they are. Contracts see a terminal, whose other values mean nothing, and what is known of it.
#[derive(Drop)]
pub struct Partial {
    bytes: Utf8,
    units: Splitter,
    page: Page,
    marks: Page,
    flags: Flags,
}

impl Model for Partial {
    ghost use Rattle.con_audit.specs.Partial.{Partial};

    ghost Value = { Partial };

    ghost use Rattle.con_audit.specs.Inside.{partial_of_parts, IsTied};

    ghost view = { partial_of_parts };

    ghost invariant = { IsTied };
}

impl Partial {
    /// A partial terminal of this size, in cells, between sequences, of which nothing else is known.
    pub fn new(alloc: Global, size: Size) -> Result<Partial, OutOfMemory>
        requires some { (0 < size.w) × (0 < size.h) }
        requires few { (size.w ≤ 512) × (size.h ≤ 256) }
        ensures { IfOk result (λ p. p ≡ unknown size.w size.h) }
    {
        let page = Page::new(alloc, size)?;
        let mut marks = Page::new(alloc, size)?;
        forget(&mut marks, true);
        marks.apply(Found::Sequence, 0, &shade());
        let units = Splitter::new(alloc)?;
        let flags = Flags {
            pen: false,
            visible: false,
            cursor: false,
        };
        Ok(Partial {
            bytes: Utf8::new(),
            units,
            page,
            marks,
            flags,
        })
    }

    /// The allocator of its cells.
    pub fn allocator(&self) -> Global {
        self.page.allocator()
    }

    /// Plays bytes, one after another. Takes no memory.
    pub fn play_all(&mut self, bytes: &[u8])
        ensures { self.new ≡ played self.old bytes.now }
    {
        self.flags = learn_all(
            &mut self.bytes,
            &mut self.page,
            &mut self.marks,
            self.flags,
            &mut self.units,
            bytes,
        );
    }

    /// Whether it is known that a terminal of which this is known shows the view: all cells and the visibility are known, the
    /// cursor where the view shows one, they are the view's, and the terminal is between sequences.
    pub fn knows(&self, view: &View) -> bool
        ensures { (result ≡ true) ↔ IsKnown self.now view.now }
    {
        are_known(self.marks.cells(), self.flags, view.visible)
            && shows(&self.page, &self.bytes, &self.units, view)
    }
}
