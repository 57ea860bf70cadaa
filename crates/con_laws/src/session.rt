//! What holds at the beginning and at the end of a session.
ghost use Rattle.std.specs.Prelude.{◌≡◌, ℕ, ◌<◌, ◌≤◌, length, Bool, true, false, List};
ghost use Rattle.con_events.specs.Session.{Clients};
ghost use Rattle.con_events.specs.declared.actor.Actor.TheVariants as actors;
ghost use Rattle.con_events.specs.declared.entry.Entry.{Entry};
ghost use Rattle.con_events.specs.declared.event.Event.TheVariants as events;
ghost use Rattle.con_procs.specs.Procs.{is_attached};
ghost use Rattle.con_machine.specs.State.{State};
ghost use Rattle.con_machine.specs.Step.{is_ready};
ghost use Rattle.con_machine.specs.History.{run};
ghost use Rattle.con_machine.specs.Turns.{sent, has_ended};
ghost use Rattle.con_machine.specs.Follows.{session_start};
ghost use Rattle.con_laws.specs.Whole.{ShowsAll};
ghost use Rattle.con_laws.specs.Opens.{Opens, WaitsOrGone};

/// A session opens with its clients attached, and nothing read, asked for or painted, in a window of its size.
pub fn a_session_opens()
    ensures { (session : Clients) (racks : List (List ℕ)) → Opens session (session_start session racks) }
{}

/// Where no Paint is ready, there was one, nothing was resized behind it, and it showed what there is now.
pub fn the_last_paint_shows_all()
    ensures { (session : Clients) (racks : List (List ℕ)) (h : List Entry) → is_ready (run (session_start session racks) h) actors.Painter events.Paint ≡ false
        → ShowsAll (session_start session racks) h }
{}

/// And the other way: where the last Paint showed what there is now, nothing was resized behind it, and nothing is asked for, no Paint
/// is ready.
pub fn nothing_is_due()
    ensures { (s : State) (h : List Entry) → ShowsAll s h → (run s h).asked ≡ false → is_ready (run s h) actors.Painter events.Paint ≡ false }
{}

/// Once the terminal's side has ended, it is never so that all who are left wait for reads.
pub fn nobody_waits_at_the_end()
    ensures { (session : Clients) (racks : List (List ℕ)) (h : List Entry) → has_ended false (sent h) ≡ true
        → ((p : ℕ) → 0 < p → p ≤ length session.scripts → WaitsOrGone (run (session_start session racks) h) p) → (p : ℕ) → 0 < p → p ≤ length session.scripts
        → is_attached (run (session_start session racks) h).procs p ≡ false }
{}
