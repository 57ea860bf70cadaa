//! Rows worked out by hand, of what no session shows: what the definitions of the public contracts come to there.
ghost use Rattle.std.specs.Prelude.{◌≡◌, ℕ, List, [], ◌∷◌, Some, true, false};
ghost use Rattle.con_history.specs.declared.histories.Histories.{Histories as HistoriesValue};
ghost use Rattle.con_alias.specs.Aliases.{AliasList};
ghost use Rattle.con_readers.specs.Reads.{all_closed, is_open, without};
ghost use Rattle.tests_lines.specs.Rows.{change, from, steps, reads_after, two_reads, one_record, answered_by};

use con_line::Press;
use con_readers::{Answer, ReadStep};
use con_units::Code;

/// A change begins where the texts differ: behind equal units that a typed one joins, and at the end of what two lines begin with.
/// The units 97 to 102 are a to f.
pub fn a_change_begins_where_the_texts_differ()
    ensures over { change false (97 ∷ 97 ∷ 98 ∷ []) 0 (Press.Unit 97) [] ≡ from 3 3 }
    ensures put_in { change true (97 ∷ 97 ∷ 98 ∷ []) 0 (Press.Unit 97) [] ≡ from 2 3 }
    ensures rest { change true (97 ∷ 98 ∷ 99 ∷ []) 1 Press.RestOfLast (97 ∷ 98 ∷ 100 ∷ 101 ∷ []) ≡ from 2 3 }
    ensures matched { change true (97 ∷ 98 ∷ 100 ∷ 101 ∷ []) 1 Press.Match (97 ∷ 102 ∷ []) ≡ from 1 4 }
    ensures recalled { change true [] 0 Press.Recall (97 ∷ 98 ∷ 99 ∷ []) ≡ from 0 0 }
{}

/// Of two reads of a record, with one record, the first is served first. Then the console closes, and the first read is cancelled.
pub fn the_first_read_is_served_first()
    ensures steps { (al : List AliasList) (hs : HistoriesValue) →
        steps 5 al two_reads one_record hs ≡ ReadStep.Started 1 ∷ ReadStep.Finished 1 0 ∷ ReadStep.Started 2 ∷ ReadStep.Idle ∷ ReadStep.Idle ∷ [] }
    ensures closed { (al : List AliasList) (hs : HistoriesValue) →
        answered_by (all_closed (reads_after 5 al two_reads one_record hs)) 2 ≡ Some (Answer.Fail Code.Closed) }
    ensures cancelled { (al : List AliasList) (hs : HistoriesValue) →
        is_open (without (all_closed (reads_after 5 al two_reads one_record hs)) 1) 1 ≡ false }
{}
