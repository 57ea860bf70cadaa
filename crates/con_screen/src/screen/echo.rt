//! What a line that is edited does to the screen.
ghost use Rattle.std.specs.Prelude.{◌≡◌, ℕ, ◌+◌, ◌<◌, ◌^◌, length};
ghost use Rattle.con_page.specs.Words.Page.{IsPage};
ghost use Rattle.con_page.specs.Sides.{sides};
ghost use Rattle.con_page.specs.Echo.{ended};
ghost use Rattle.con_screen.specs.Words.Echo.{part_echoed, IsEchoedByPart, IsLaidRowByRow};

use crate::screen::Screen;
use con_page::Origin;

impl Screen {
    /// Shows a change of a line that begins at `origin`: its units from place `offset` on, up to its end, then `blanks`
    /// blanks, and the cursor at the place `caret`. Answers the origin for the next change: the buffer scrolls as far as
    /// the place behind the line needs.
    pub fn echo(
        &mut self,
        origin: Origin,
        offset: u16,
        units: &[u16],
        blanks: u16,
        caret: u16,
    ) -> Origin
        requires page { IsPage self.old.page }
        requires end { offset + length units.now < 2 ^ 16 }
        ensures screen { self.new ≡ (part_echoed self.old origin offset units.now blanks caret).screen }
        ensures origin { result ≡ (part_echoed self.old origin offset units.now blanks caret).origin }
        ensures page { IsPage self.new.page }
        ensures sides { sides self.new.page ≡ sides self.old.page }
    {
        self.page.echo(origin, offset, units, blanks, caret)
    }

    /// Ends a line of this length that begins at `origin`: the cursor goes to the beginning of the row below. A place past
    /// the buffer's end counts as one in its last row.
    pub fn echo_end(&mut self, origin: Origin, length: u16)
        requires page { IsPage self.old.page }
        ensures screen { self.new ≡ record self.old { page = ended self.old.page origin length } }
        ensures page { IsPage self.new.page }
        ensures sides { sides self.new.page ≡ sides self.old.page }
    {
        self.page.end_line(origin, length);
    }
}

/// What a change of a line's whole text does follows from the first difference, the units from there on, by how much the
/// text became shorter, and the caret.
pub fn is_echoed_by_part()
    ensures { IsEchoedByPart }
{}

/// Place `k` of a line is the `k`-th cell after its origin, row by row, and the buffer scrolls by the least number of rows
/// that brings the place behind the line in.
pub fn is_laid_row_by_row()
    ensures { IsLaidRowByRow }
{}
