//! Rows worked out by hand: what terminals show of bytes that come in pieces, and the units of bytes. There is nothing to run.
ghost use Rattle.std.specs.Prelude.{◌≡◌, ◌++◌, ◌∷◌, [], pos, true, length, map, codes};
ghost use Rattle.con_dump.specs.Dump.{dump};
ghost use Rattle.con_term.specs.Play.{play};
ghost use Rattle.con_term.specs.Words.Terminal.{view_of};
ghost use Rattle.tests_screens.specs.Terminals.{blank, within, line};
ghost use Rattle.tests_screens.specs.Units.{rows, behind, decoded};

/// A terminal that takes bytes one by one is within a sequence at their end; one that takes a new size is between sequences, and blank.
pub fn a_terminal_takes_bytes_one_by_one()
    ensures cut { within.units ≡ 0x1B ∷ 0x5B ∷ [] }
    ensures shown { dump within.page ≡ line (codes "3x1 cursor hidden") ++ line (codes "|ab |") ++ line (codes "@0,1+1 8004") }
    ensures between { play (blank 2 1) (0x63 ∷ []) ≡ record (play (blank 2 1) (0x63 ∷ [])) { bytes = []; units = [] } }
    ensures resized { dump (play (blank 2 1) (0x63 ∷ [])).page ≡ line (codes "2x1 cursor 1,0") ++ line (codes "|c |") }
{}

/// A view has all cells.
pub fn a_view_has_all_cells()
    ensures cells { length (view_of (play (blank 2 1) (0x78 ∷ [])).page).rows ≡ 2 }
    ensures cursor { (view_of (play (blank 2 1) (0x78 ∷ [])).page).cursor.x ≡ pos 1 }
    ensures visible { (view_of (play (blank 2 1) (0x78 ∷ [])).page).visible ≡ true }
{}

/// Bytes of UTF-8 have the units of the table, at the front and behind 62 letters: where 64 bytes are looked at together, a text that begins before
/// they end goes on past them. That a cut makes no difference is `decode_both`.
pub fn bytes_have_their_units()
    ensures front { map decoded rows ≡ rows }
    ensures chunk { map (λ r. decoded (behind 62 r)) rows ≡ map (behind 62) rows }
{}
