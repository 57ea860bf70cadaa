//! Cells that move where a row of three was scrolled, worked out by hand. There is nothing to run.
ghost use Rattle.std.specs.Prelude.{◌≡◌, ◌∷◌, []};
ghost use Rattle.tests_screens.specs.Values.{units, changed_across, most_moved};

/// The units behind changes on both sides of the block's end, and behind moves over it.
pub fn cells_move_past_a_scrolled_row()
    ensures changed { units changed_across ≡ 0x64 ∷ 0x65 ∷ 0x66 ∷ 0x20 ∷ 0x2D ∷ 0x78 ∷ 0x7A ∷ 0x2A ∷ 0x3D ∷ [] }
    ensures moved { units most_moved ≡ 0x66 ∷ 0x2B ∷ 0x20 ∷ 0x2D ∷ 0x78 ∷ 0x2F ∷ 0x2F ∷ 0x7A ∷ 0x2A ∷ [] }
{}
