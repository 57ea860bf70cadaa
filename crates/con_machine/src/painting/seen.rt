//! Where the view was seen that was painted last.
ghost use Rattle.std.specs.Prelude.{◌≡◌};
ghost use Rattle.con_machine.specs.Sound.{known_without};

use con_handles::Object;
use con_units::BufferId;

/// The buffer, whether its alternate screen, and the window's left column and top row.
#[derive(Clone, Copy, PartialEq, Eq)]
pub struct Seen {
    pub buffer: BufferId,
    pub alternate: bool,
    pub left: u16,
    pub top: u16,
}

/// What is known still of the view that was painted last, where a handle of this object goes. The main buffer stays.
pub(crate) fn without(seen: Option<Seen>, object: Object) -> Option<Seen>
    ensures { result ≡ known_without object seen }
{
    let Object::Output(id) = object else {
        return seen;
    };
    let one = seen?;
    if id.0 == 0 || one.buffer.0 != id.0 {
        Some(one)
    } else {
        None
    }
}
