//! Rows worked out by hand: what screens go through, and what is shown of them then, or told. There is nothing to run.
ghost use Rattle.std.specs.Prelude.{◌≡◌, ◌++◌, ◌∷◌, [], pos, true, false, map, replicate, take, slice_index, codes};
ghost use Rattle.std.specs.List.{list_all};
ghost use Rattle.con_units.specs.Split.{next, split};
ghost use Rattle.con_vtgram.specs.Text.{grammar};
ghost use Rattle.con_units.specs.Plain.{is_plain as is_plain_unit};
ghost use Rattle.con_vtgram.specs.declared.item.Item.TheVariants.{Print};
ghost use Rattle.tests_screens.specs.Screens.{seen, showing, with_text, at};
ghost use Rattle.tests_screens.specs.Lines.{changes, thirteen, left_by, to_be_left, ends, within_margins, seen_behind};
ghost use Rattle.tests_screens.specs.Lines.{with_end, four_keys, printed_behind, followed, worded, words};
ghost use Rattle.tests_screens.specs.Texts.{texts, heard_of, to_be_heard};

/// A line changes that begins somewhere on the cells `ABCDEFGHIJKLM  `.
pub fn a_line_changes()
    ensures { map (left_by thirteen) changes ≡ map to_be_left changes }
{}

/// A line ends on the same cells, with margins in the first two rows.
pub fn a_line_ends()
    ensures { map (seen_behind within_margins) ends ≡ map (λ e. e.shown) ends }
{}

/// Lines from their first key to their end: in the last row; where a wrap is due, which no print takes after an echo nor after a line's end;
/// in a window that follows the cursor; and in the word of the pen.
pub fn lines_are_typed_and_end()
    ensures keys { seen four_keys.screen ≡ showing (codes "        abcd        ") 0 0 2 1 }
    ensures returned { seen (with_end four_keys.screen four_keys.origin 4) ≡ showing (codes "cd                  ") 0 0 0 1 }
    ensures due { seen printed_behind ≡ showing (codes "ABCDx          ") 0 0 4 0 }
    ensures ended { seen (with_text (with_end printed_behind (at 4 (pos 0)) 0) (codes "y")) ≡ showing (codes "ABCDxy         ") 0 0 1 1 }
    ensures window { seen followed ≡ showing (codes "                a       ") 3 1 5 2 }
    ensures below { seen (with_end followed (at 4 (pos 2)) 1) ≡ showing (codes "                a       ") 0 2 0 3 }
    ensures pen { words worded ≡ replicate 8 0x07 ++ replicate 7 0x1E }
    ensures half { seen worded ≡ showing (codes "fghijklm" ++ 0xFFFD ∷ codes "a     ") 0 0 0 2 }
{}

/// A text tells reports, a title, the cursor key mode and the alternate screen, and is read up to a switch.
pub fn a_text_tells()
    ensures { map heard_of texts ≡ map to_be_heard texts }
{}

/// The front of a sequence is no item, and an `m` behind none is a letter; that a text can be forgotten is `begin_anew`.
pub fn a_text_is_unfinished()
    ensures front { split grammar (0x1B ∷ 0x5B ∷ 0x33 ∷ []) ≡ record { items = []; tail = 0x1B ∷ 0x5B ∷ 0x33 ∷ [] } }
    ensures anew { next grammar [] 0x6D ≡ record { items = Print 0x6D ∷ []; tail = [] } }
{}

/// A run ends at a control: what `plain_count` tells of `a~`, a return and `b` is two.
pub fn a_run_ends_at_a_control()
    ensures plain { list_all is_plain_unit (take 2 (0x61 ∷ 0x7E ∷ 0x0D ∷ 0x62 ∷ [])) ≡ true }
    ensures longest { is_plain_unit (slice_index (0x61 ∷ 0x7E ∷ 0x0D ∷ 0x62 ∷ []) 2) ≡ false }
{}
