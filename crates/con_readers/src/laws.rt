// What follows from the definitions.
ghost use Rattle.std.specs.Prelude.{◌≡◌, ℕ, [], ◌∷◌, ◌++◌, List, true, false};
ghost use Rattle.con_records.specs.declared.record.Record.{Record};
ghost use Rattle.con_history.specs.declared.histories.Histories.{Histories};
ghost use Rattle.con_alias.specs.Aliases.{AliasList};
ghost use Rattle.con_cooked.specs.declared.cooked.Cooked.{Cooked};
ghost use Rattle.con_readers.specs.declared.open.Open.{Open};
ghost use Rattle.con_readers.specs.Wants.{units_of};
ghost use Rattle.con_readers.specs.Serving.{is_done, served};
ghost use Rattle.con_readers.specs.Reads.{settled, begun, is_open, without, all_closed, line_aborted};
ghost use Rattle.con_readers.specs.Words.Reads.{pumped};
ghost use Rattle.con_readers.specs.Pieces.{front, joined};
ghost use Rattle.con_readers.specs.Words.Pieces.{pieces_of};
ghost use Rattle.con_readers.specs.Words.Answering.{EndsLine};
ghost use Rattle.con_readers.specs.Distinct.{processes_in, AreDistinct};

use crate::answer::Answer;
use crate::open::OpenRead;

/// What the reads took, in order, and what is left, are all of the records.
pub fn serving_loses_nothing()
    ensures { (al : List AliasList) (os : List Open) (rs : List Record) (hs : Histories)
        → joined (pieces_of al os rs hs) ++ (settled al os rs hs).records ≡ rs }
{}

/// A read of records that finds one is done, and answers just what it took.
pub fn a_read_answers_its_piece()
    ensures { (p n : ℕ) (al : List AliasList) (r : Record) (rs : List Record) (hs : Histories) →
        (served p al (OpenRead.Records n) (r ∷ rs) hs).read
        ≡ OpenRead.Done (Answer.Records (front (r ∷ rs) (served p al (OpenRead.Records n) (r ∷ rs) hs).records)) }
{}

/// A read of units that is done answers the units of just what it took.
pub fn units_answer_their_piece()
    ensures { (p n : ℕ) (al : List AliasList) (rs : List Record) (hs : Histories) → is_done (served p al (OpenRead.Units n) rs hs).read ≡ true →
        (served p al (OpenRead.Units n) rs hs).read ≡ OpenRead.Done (Answer.Units (units_of n (front rs (served p al (OpenRead.Units n) rs hs).records))) }
{}

/// A line read that is done took the records up to the first masked control or return, and answers what its line is then.
pub fn a_line_answers_its_piece()
    ensures { (p : ℕ) (al : List AliasList) (line : Cooked) (rs : List Record) (hs : Histories) → is_done (served p al (OpenRead.Line line) rs hs).read ≡ true →
        EndsLine al line rs hs (served p al (OpenRead.Line line) rs hs) }
{}

/// Serving, closing and ctrl+C leave whose reads they are, and in which order.
pub fn reads_keep_their_processes()
    ensures pumped { (al : List AliasList) (os : List Open) (rs : List Record) (hs : Histories) → processes_in (pumped al os rs hs).reads ≡ processes_in os }
    ensures settled { (al : List AliasList) (os : List Open) (rs : List Record) (hs : Histories) → processes_in (settled al os rs hs).reads ≡ processes_in os }
    ensures closed { (os : List Open) → processes_in (all_closed os) ≡ processes_in os }
    ensures aborted { (os : List Open) → processes_in (line_aborted os) ≡ processes_in os }
{}

/// Reads of distinct processes stay so: while they are served, where they end, where one begins of a process that has none, and where
/// one goes.
pub fn distinct_reads_stay_distinct()
    ensures pumped { (al : List AliasList) (os : List Open) (rs : List Record) (hs : Histories) → AreDistinct os → AreDistinct (pumped al os rs hs).reads }
    ensures settled { (al : List AliasList) (os : List Open) (rs : List Record) (hs : Histories) → AreDistinct os → AreDistinct (settled al os rs hs).reads }
    ensures closed { (os : List Open) → AreDistinct os → AreDistinct (all_closed os) }
    ensures aborted { (os : List Open) → AreDistinct os → AreDistinct (line_aborted os) }
    ensures begun { (os : List Open) (p : ℕ) (read : OpenRead) → is_open os p ≡ false → AreDistinct os → AreDistinct (os ++ begun p read ∷ []) }
    ensures gone { (os : List Open) (p : ℕ) → AreDistinct os → AreDistinct (without os p) }
{}
