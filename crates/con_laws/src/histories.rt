//! What follows from the definitions of histories, for whoever keeps one.
ghost use Rattle.std.specs.Prelude.{◌≡◌, ℕ, ◌+◌, ◌&&◌, Bool, true, false, List, [], ◌∷◌, ◌++◌, Option};
ghost use Rattle.con_units.specs.declared.view.Frame.{Frame};
ghost use Rattle.con_events.specs.declared.actor.Actor.{Actor};
ghost use Rattle.con_events.specs.declared.entry.Entry.{Entry};
ghost use Rattle.con_events.specs.declared.actor.Actor.TheVariants as actors;
ghost use Rattle.con_events.specs.declared.event.Event.{Event};
ghost use Rattle.con_events.specs.declared.event.Event.TheVariants as events;
ghost use Rattle.con_events.specs.declared.reply.Reply.TheVariants as replies;
ghost use Rattle.con_events.specs.declared.script.Step.{Step};
ghost use Rattle.con_machine.specs.State.{State};
ghost use Rattle.con_machine.specs.Step.{step, is_ready};
ghost use Rattle.con_machine.specs.Painting.{view_now};
ghost use Rattle.con_machine.specs.Moves.{Moves};
ghost use Rattle.con_machine.specs.History.{run, replies_of, is_legal};
ghost use Rattle.con_machine.specs.Turns.{turns, turn_of, sent, is_client, is_terminal, is_last_sent, has_ended, paints};
ghost use Rattle.con_machine.specs.Sights.{sights_of};
ghost use Rattle.con_machine.specs.Words.Along.{after};
ghost use Rattle.con_laws.specs.AlongLaws.{all_coming};
ghost use Rattle.con_machine.specs.Client.{FollowsScript, client_after};
ghost use Rattle.con_machine.specs.Words.Client.{May};
ghost use Rattle.con_machine.specs.Follows.{is_one_of, are_of_session, MaySend, sent_one, FollowsLink, MayAct, AreAnswered};
ghost use Rattle.con_machine.specs.Words.Follows.{asks};
ghost use Rattle.con_laws.specs.Rounds.{Begun};
ghost use Rattle.con_laws.specs.RoundWords.{AreTurns, IsTurn, AreRounds, entry_of, round_entries, all_entries, all_order, is_nobody};

/// Of two histories, one behind the other: the console after them, the replies, whether each event is ready, what a client
/// did, what the terminal's side sent, what was shown and how often.
pub fn histories_are_joined()
    ensures after { (s : State) (h g : List Entry) → run s (h ++ g) ≡ run (run s h) g }
    ensures replies { (s : State) (h g : List Entry) → replies_of s (h ++ g) ≡ replies_of s h ++ replies_of (run s h) g }
    ensures legal { (s : State) (h g : List Entry) → is_legal s (h ++ g) ≡ (is_legal s h && is_legal (run s h) g) }
    ensures clients { (s : State) (p : ℕ) (h g : List Entry) → turns s p (h ++ g) ≡ turns s p h ++ turns (run s h) p g }
    ensures side { (h g : List Entry) → sent (h ++ g) ≡ sent h ++ sent g }
    ensures shown { (s : State) (h g : List Entry) → sights_of s (h ++ g) ≡ sights_of s h ++ sights_of (run s h) g }
    ensures counted { (h g : List Entry) → paints (h ++ g) ≡ paints h + paints g }
{}

/// One more entry is a turn of its actor, and of nobody else.
pub fn an_entry_is_its_actors()
    ensures own { (s : State) (p : ℕ) (h : List Entry) (x : Entry) → is_client p x.actor ≡ true
        → turns s p (h ++ x ∷ []) ≡ turns s p h ++ turn_of (run s h) p x ∷ [] }
    ensures other { (s : State) (p : ℕ) (h : List Entry) (x : Entry) → is_client p x.actor ≡ false → turns s p (h ++ x ∷ []) ≡ turns s p h }
    ensures sent_own { (h : List Entry) (x : Entry) → is_terminal x.actor ≡ true → sent (h ++ x ∷ []) ≡ sent h ++ x.event ∷ [] }
    ensures sent_other { (h : List Entry) (x : Entry) → is_terminal x.actor ≡ false → sent (h ++ x ∷ []) ≡ sent h }
    ensures ended { (b : Bool) (es : List Event) (e : Event) → has_ended b (es ++ e ∷ []) ≡ is_last_sent e }
{}

/// Rounds go on by one more turn, and by one more round.
pub fn rounds_go_on()
    ensures turn { (b : Begun) (h : List Entry) (by : List Actor) (ts : List (Option Event)) (a : Actor) (t : Option Event) → AreTurns false b h by ts
        → IsTurn b (h ++ round_entries by ts) a t → AreTurns false b h (by ++ a ∷ []) (ts ++ t ∷ []) }
    ensures entries { (b : Begun) (h : List Entry) (by : List Actor) (ts : List (Option Event)) (a : Actor) (t : Option Event) → AreTurns false b h by ts
        → round_entries (by ++ a ∷ []) (ts ++ t ∷ []) ≡ round_entries by ts ++ entry_of a t }
    ensures broken { (b : Begun) (h : List Entry) (by more : List Actor) (ts : List (Option Event)) → AreTurns false b h by ts
        → AreTurns true b h (by ++ more) ts }
    ensures round { (b : Begun) (h : List Entry) (rounds : List (List (Option Event))) (one : List (Option Event)) → AreRounds b h rounds
        → AreTurns false b (h ++ all_entries (all_order b) rounds) (all_order b) one → is_nobody one ≡ false → AreRounds b h (rounds ++ one ∷ []) }
    ensures all_entries { (by : List Actor) (rounds : List (List (Option Event))) (one : List (Option Event))
        → all_entries by (rounds ++ one ∷ []) ≡ all_entries by rounds ++ round_entries by one }
{}

/// An Ask and a Resize stand until the next Paint, which shows what there is; no other event changes what is asked for, whether
/// the size is a new one, and what was painted last.
pub fn an_event_moves_the_picture()
    ensures { (s : State) (a : Actor) (e : Event) → Moves s e (step s a e).after }
{}

/// What is asked for may be painted, and a Paint answers the view.
pub fn what_is_asked_for_is_due()
    ensures due { (s : State) → s.asked ≡ true → is_ready s actors.Painter events.Paint ≡ true }
    ensures view { (s : State) → (step s actors.Painter events.Paint).reply ≡ replies.View (view_now s) [] false }
{}

/// One entry more stands behind a history exactly where it is ready, its actor is one of the session's, and it is what its actor may
/// do next: both ways, for what a client's entries follow, the terminal's side, and what was asked for.
pub fn an_entry_more_may_stand()
    ensures ready { (s : State) (h : List Entry) (x : Entry) → is_legal s h ≡ true → is_legal s (h ++ x ∷ []) ≡ true
        → is_ready (run s h) x.actor x.event ≡ true }
    ensures legal { (s : State) (h : List Entry) (x : Entry) → is_legal s h ≡ true → is_ready (run s h) x.actor x.event ≡ true
        → is_legal s (h ++ x ∷ []) ≡ true }
    ensures actor { (n : ℕ) (h : List Entry) (x : Entry) → are_of_session n (h ++ x ∷ []) ≡ true → is_one_of n x.actor ≡ true }
    ensures of_session { (n : ℕ) (h : List Entry) (x : Entry) → are_of_session n h ≡ true → is_one_of n x.actor ≡ true → are_of_session n (h ++ x ∷ []) ≡ true }
    ensures may_client { (s : State) (steps : List Step) (kinds : List ℕ) (h : List Entry) (x : Entry) (p : ℕ) → is_client p x.actor ≡ true
        → FollowsScript steps kinds (turns s p (h ++ x ∷ [])) → May (client_after steps kinds (turns s p h)) (turn_of (run s h) p x) }
    ensures client { (s : State) (steps : List Step) (kinds : List ℕ) (h : List Entry) (x : Entry) (p : ℕ) → is_client p x.actor ≡ true
        → FollowsScript steps kinds (turns s p h) → May (client_after steps kinds (turns s p h)) (turn_of (run s h) p x)
        → FollowsScript steps kinds (turns s p (h ++ x ∷ [])) }
    ensures may_send { (cut : Bool) (frames : List Frame) (h : List Entry) (x : Entry) → is_terminal x.actor ≡ true
        → FollowsLink cut frames (sent (h ++ x ∷ [])) → MaySend cut (after sent_one (all_coming frames) (sent h)) x.event }
    ensures link { (cut : Bool) (frames : List Frame) (h : List Entry) (x : Entry) → is_terminal x.actor ≡ true → FollowsLink cut frames (sent h)
        → MaySend cut (after sent_one (all_coming frames) (sent h)) x.event → FollowsLink cut frames (sent (h ++ x ∷ [])) }
    ensures may_act { (lost : Bool) (h : List Entry) (x : Entry) → AreAnswered lost (h ++ x ∷ []) → MayAct lost (after asks false h) x.actor }
    ensures answered { (lost : Bool) (h : List Entry) (x : Entry) → AreAnswered lost h → MayAct lost (after asks false h) x.actor
        → AreAnswered lost (h ++ x ∷ []) }
{}

/// An Ask is the terminal's, and whether one is asked for and not painted is told by the history.
pub fn a_history_tells_what_is_asked_for()
    ensures terminal { (s : State) (a : Actor) → is_ready s a events.Ask ≡ true → is_terminal a ≡ true }
    ensures asked { (s : State) (h : List Entry) → (run s h).asked ≡ after asks s.asked h }
{}
