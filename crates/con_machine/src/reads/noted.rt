//! What the console notes of an open read.
ghost use Rattle.std.specs.Prelude.{◌≡◌, ◌<◌, ◌^◌, true};
ghost use Rattle.con_machine.specs.Words.Serving.{cell_before};

use con_page::Origin;
use con_units::BufferId;

/// What is noted of a process's open line read: its handle and how many units it asked for at most; whether it echoes,
/// and how many units of its line stood on the screen when it began; from its start on, the buffer on which its line
/// shows, by id and birth, and the cell of its first unit; and whether a masked control ended it.
#[derive(Clone, Copy)]
pub struct Noted {
    pub process: u8,
    pub handle: u32,
    pub n: u32,
    pub echoes: bool,
    pub ahead: u16,
    pub buffer: BufferId,
    pub birth: u64,
    pub origin: Origin,
    pub woken: bool,
}

// The cell that lies n cells before a place, row by row, in rows of a width.
fn cell_before(width: u16, x: u16, y: u16, n: u16) -> Origin
    requires inside { x < width }
    requires low { y < 2 ^ 15 }
    ensures { result ≡ cell_before width x y n }
{
    let wide = u32::from(width);
    let rows = (u32::from(n).saturating_sub(u32::from(x)) + (wide - 1)) / wide;
    Origin {
        x: (u32::from(x) + rows * wide - u32::from(n)) as u16,
        y: i32::from(y) - rows as i32,
    }
}

impl Noted {
    /// The read becomes the first one, while the cursor stands at a place of a buffer whose rows have this width: the
    /// line began as many cells before.
    pub(crate) fn start(&mut self, buffer: BufferId, birth: u64, width: u16, x: u16, y: u16)
        requires inside { x < width }
        requires low { y < 2 ^ 15 }
        ensures { self.new ≡ record self.old { buffer = buffer; birth = birth; origin = cell_before width x y self.old.ahead } }
    {
        self.buffer = buffer;
        self.birth = birth;
        self.origin = cell_before(width, x, y, self.ahead);
    }

    /// The line begins at another cell.
    pub(crate) fn set_origin(&mut self, origin: Origin)
        ensures { self.new ≡ record self.old { origin = origin } }
    {
        self.origin = origin;
    }

    /// A masked control ended the read.
    pub(crate) fn wake(&mut self)
        ensures { self.new ≡ record self.old { woken = true } }
    {
        self.woken = true;
    }
}
