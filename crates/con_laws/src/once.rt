//! What became of the records of a session's history, whole.
ghost use Rattle.std.specs.Prelude.{◌≡◌, ℕ, List, []};
ghost use Rattle.con_events.specs.Session.{Clients};
ghost use Rattle.con_events.specs.declared.entry.Entry.{Entry};
ghost use Rattle.con_machine.specs.State.{State};
ghost use Rattle.con_machine.specs.Follows.{session_start};
ghost use Rattle.con_laws.specs.Once.{TakenOnce};
ghost use Rattle.con_laws.specs.Settled.{IsSettled};

use crate::fates::{
    a_peek_changes_no_fate, a_read_answers_the_records_of_its_fate, a_read_fails_by_its_cause,
    a_text_is_of_the_records_of_its_fate, no_record_is_lost,
};
use con_readers::laws::serving_loses_nothing;

/// In each history of a session a record of the input goes to at most one read that removes it, each read answers what is of just the
/// records that went to it, or what was left of a line, or nothing where it asked for none, or why it failed, and a peek changes nothing.
/// So it is from every console with no read, nothing left of a line, and nothing left to do.
pub fn each_record_is_taken_once()
    ensures console { (s : State) (h : List Entry) → s.reads ≡ [] → s.noted ≡ [] → s.rests ≡ [] → IsSettled s → TakenOnce s h }
    ensures session { (session : Clients) (racks : List (List ℕ)) (h : List Entry) → TakenOnce (session_start session racks) h }
{
    serving_loses_nothing();
    no_record_is_lost();
    a_read_answers_the_records_of_its_fate();
    a_text_is_of_the_records_of_its_fate();
    a_read_fails_by_its_cause();
    a_peek_changes_no_fate();
}
