//! A partial terminal that plays a stream, piece by piece.
ghost use Rattle.std.specs.Prelude.{◌≡◌, ◌<◌, ◌≤◌, ◌↔◌, ℕ, List, true, IfOk, MatchResult, length};
ghost use Rattle.con_units.specs.declared.view.Sight.TheVariants as sights;
ghost use Rattle.con_audit.specs.Partial.{IsKnown};
ghost use Rattle.con_audit.specs.Watching.{watching, watched, painted_to, EndsIn};

use crate::partial::Partial;
use con_units::{OutOfMemory, Size, View};
use std::alloc::Global;
use std::marker::Model;

/// A partial terminal that plays a stream piece by piece, one for each picture, and begins anew at each new size. Contracts see the
/// partial terminal, how many bytes of the stream it has played, and where the pieces to come end.
#[derive(Drop)]
pub struct Watch<'a> {
    partial: Partial,
    from: u64,
    ends: &'a [u64],
}

impl<'a> Model for Watch<'a> {
    ghost use Rattle.con_audit.specs.Watching.{Watch};

    ghost Value = { Watch };

    ghost view = { λ w. record { partial = w.partial; from = w.from; ends = w.ends.now } };
}

impl<'a> Watch<'a> {
    /// At the stream's beginning, at this size, with the ends of all pieces.
    pub fn new(alloc: Global, size: Size, ends: &'a [u64]) -> Result<Watch<'a>, OutOfMemory>
        requires some { (0 < size.w) × (0 < size.h) }
        requires few { (size.w ≤ 512) × (size.h ≤ 256) }
        ensures { IfOk result (λ w. w ≡ watching size ends.now) }
    {
        let partial = Partial::new(alloc, size)?;
        Ok(Watch {
            partial,
            from: 0,
            ends,
        })
    }

    /// Whether there is a next piece, which ends at or behind the last one's end, and in the stream.
    pub fn has_end(&self, stream: &[u8]) -> bool
        ensures { (result ≡ true) ↔ EndsIn (length stream.now) self.now.from self.now.ends }
    {
        match self.ends.first() {
            Some(end) => self.from <= *end && *end <= stream.len() as u64,
            None => false,
        }
    }

    /// Plays the next piece.
    pub fn paint(&mut self, stream: &[u8])
        requires { EndsIn (length stream.now) self.old.from self.old.ends }
        ensures { self.new ≡ painted_to stream.now self.old self.old.ends }
    {
        let Some(end) = self.ends.first() else {
            return;
        };
        let end = *end;
        self.partial
            .play_all(&stream[self.from as usize..end as usize]);
        self.from = end;
        self.ends = &self.ends[1..];
    }

    /// Begins anew at a size; unchanged where there is no memory.
    pub fn resize(&mut self, size: Size) -> Result<(), OutOfMemory>
        requires some { (0 < size.w) × (0 < size.h) }
        requires few { (size.w ≤ 512) × (size.h ≤ 256) }
        ensures { (stream : List ℕ) → MatchResult result (λ _. self.new ≡ watched stream self.old (sights.Resize size)) (λ _. self.new ≡ self.old) }
    {
        let partial = Partial::new(self.partial.allocator(), size)?;
        self.partial = partial;
        Ok(())
    }

    /// Whether the view is known to be shown.
    pub fn knows(&self, view: &View) -> bool
        ensures { (result ≡ true) ↔ IsKnown self.now.partial view.now }
    {
        self.partial.knows(view)
    }
}
