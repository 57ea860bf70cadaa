//! What became of each record of the input, over every history.
//!
//! `arrived` are the records that came in, in order, and `fate` says of each who took it: the read of a `Begin`, or a flush,
//! named by its place in the history; or nobody, and then it is there. What a read takes and drops is taken by it.
ghost use Rattle.std.specs.Prelude.{◌≡◌, ◌⊎◌, ◌++◌, ℕ, true, List, [], ◌∷◌, Some};
ghost use Rattle.con_events.specs.declared.actor.Actor.TheVariants as actors;
ghost use Rattle.con_events.specs.declared.call.Call.TheVariants as calls;
ghost use Rattle.con_events.specs.declared.entry.Entry.{Entry};
ghost use Rattle.con_events.specs.declared.event.Event.TheVariants as events;
ghost use Rattle.con_events.specs.declared.reply.Reply.TheVariants as replies;
ghost use Rattle.con_procs.specs.Procs.{is_attached};
ghost use Rattle.con_readers.specs.Pieces.{joined};
ghost use Rattle.con_readers.specs.Reads.{has_done};
ghost use Rattle.con_machine.specs.State.{State, rest_in};
ghost use Rattle.con_machine.specs.History.{run};
ghost use Rattle.con_machine.specs.Step.{step};
ghost use Rattle.con_laws.specs.Words.Answers.{opens};
ghost use Rattle.con_laws.specs.AnswerWalks.{console_before, was_interrupted, was_cut_off, is_aborted, is_closed};
ghost use Rattle.con_laws.specs.Left.{LeftBy};
ghost use Rattle.con_laws.specs.TextWalks.{AnswersText};
ghost use Rattle.con_laws.specs.Texts.{asked_for};
ghost use Rattle.con_laws.specs.Fates.{Taker, Begun, done_for};
ghost use Rattle.con_laws.specs.Walks.{Begin, arrived, pieces, fate, fated, last_begin, wants_records, AnswersRecords};

use con_readers::laws::{
    a_line_answers_its_piece, serving_loses_nothing, units_answer_their_piece,
};

/// What was there and what arrived are what reads took and flushes removed, piece by piece and in order, and what is there. So a
/// record has one fate, and the records of a fate are the pieces of its taker.
pub fn no_record_is_lost()
    ensures records { (s : State) (h : List Entry) → s.records ++ arrived s h ≡ joined (pieces s h) ++ (run s h).records }
    ensures fates { (s : State) (h : List Entry) (t : Taker) → fated s h t ≡ joined (done_for t (pieces s h)) }
{
    serving_loses_nothing();
}

/// A peek changes no fate: after it each record has the fate that it had before, and one that had none is there yet. And a fate that
/// a record has stays, whatever happens later.
pub fn a_peek_changes_no_fate()
    ensures peeked { (s : State) (h : List Entry) (p hd n k : ℕ) → s.reads ≡ []
        → (let x : Entry = record { actor = actors.Client p; event = events.Call (calls.Peek hd n) } in fate s (h ++ x ∷ []) k ≡ fate s h k) }
    ensures stays { (s : State) (h later : List Entry) (k : ℕ) (t : Taker) → fate s h k ≡ Some t → fate s (h ++ later) k ≡ Some t }
{
    serving_loses_nothing();
}

/// A `Collect` of an attached client whose last `Begin` before it is of a read of records answers exactly the records whose fate is
/// that `Begin`, in order of arrival, whatever happens later. Where the console closed before there was one it answers that, and
/// no record has that fate.
pub fn a_read_answers_the_records_of_its_fate()
    ensures { (s : State) (h later : List Entry) (p : ℕ) (b : Begin) → last_begin s h p ≡ Some b → wants_records b.wanted ≡ true
        → is_attached (run s h).procs p ≡ true → has_done (run s h).reads p ≡ true
        → (let x : Entry = record { actor = actors.Client p; event = events.Collect } in
        AnswersRecords (step (run s h) x.actor x.event).reply (fated s (h ++ x ∷ later) (Begun b.place))) }
{
    serving_loses_nothing();
    units_answer_their_piece();
}

/// A `Collect` of an attached client answers that ctrl+C ended its read exactly where ctrl+C was signalled to all while that read, of
/// the client's last `Begin`, was the first line read that was not done; and that the console closed exactly where it closed while
/// the read was not done.
pub fn a_read_fails_by_its_cause()
    ensures aborted { (s : State) (h : List Entry) (p : ℕ) (b : Begin) → last_begin s h p ≡ Some b → is_attached (run s h).procs p ≡ true
        → has_done (run s h).reads p ≡ true
        → is_aborted (step (run s h) (actors.Client p) events.Collect).reply ≡ was_interrupted (Begun b.place) (pieces s h) }
    ensures closed { (s : State) (h : List Entry) (p : ℕ) (b : Begin) → last_begin s h p ≡ Some b → is_attached (run s h).procs p ≡ true
        → has_done (run s h).reads p ≡ true
        → is_closed (step (run s h) (actors.Client p) events.Collect).reply ≡ was_cut_off (Begun b.place) (pieces s h) }
{
    units_answer_their_piece();
}

/// Where a `Collect` of an attached client answers units, they are what the definitions of lines and reads give for exactly the records
/// whose fate is the client's last `Begin`. Of a line: the records end it by a return key or a masked control, and each is pressed with the
/// lines of its program's history at that moment. Of a read of units: the first units of them. Or the read took no record, since it
/// asked for none, or was answered by what was left of a line, and then the units are those that its `Begin` found.
pub fn a_text_is_of_the_records_of_its_fate()
    ensures { (s : State) (h later : List Entry) (p : ℕ) (b : Begin) (units : List ℕ) → s.noted ≡ [] → last_begin s h p ≡ Some b
        → is_attached (run s h).procs p ≡ true → has_done (run s h).reads p ≡ true
        → (let x : Entry = record { actor = actors.Client p; event = events.Collect } in let all = h ++ x ∷ later in
        (step (run s h) x.actor x.event).reply ≡ replies.Units units
        → AnswersText (opens (console_before s all b.place) p b.wanted) (asked_for b.wanted) (done_for (Begun b.place) (pieces s all))
        (fated s all (Begun b.place)) units) }
{
    serving_loses_nothing();
    units_answer_their_piece();
    a_line_answers_its_piece();
}

/// What is left of a line for the next line read of a handle is nothing, or an earlier line read of that handle left it: a `Collect` of
/// one answered the front of its text, or a `Begin` of one was answered by the front of what was left then, and this followed.
pub fn what_is_left_is_of_an_earlier_line()
    ensures { (s : State) (h : List Entry) (p hd : ℕ) → s.rests ≡ [] → (rest_in (run s h).rests p hd ≡ []) ⊎ LeftBy s h p hd (rest_in (run s h).rests p hd) }
{}
