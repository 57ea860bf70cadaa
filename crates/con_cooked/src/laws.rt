//! What follows from the definitions.
ghost use Rattle.std.specs.Prelude.{◌≡◌, ℕ, List};
ghost use Rattle.con_line.specs.Line.{LineText};
ghost use Rattle.con_cooked.specs.Cooked.{CookedRead};
ghost use Rattle.con_cooked.specs.Laws.{IsPlain, DrawsBehind, BeginsWith};

/// A read with no mask takes its keys by the table alone, and gives the lines that its text stands for.
pub fn no_mask_is_a_plain_read()
    ensures { (r : CookedRead) → r.mask ≡ 0 → IsPlain r }
{}

/// An echo leaves the places of what both lines begin with alone. So the initial text is not drawn until a key changes it.
pub fn a_common_front_is_not_drawn()
    ensures { (front : List ℕ) (old new : LineText) → BeginsWith front old.units → BeginsWith front new.units → DrawsBehind front old new }
{}
