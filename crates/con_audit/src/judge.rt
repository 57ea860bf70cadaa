//! What is known behind the entries of a run that is audited, and what is found of one entry more.
ghost use Rattle.std.specs.Prelude.{◌≡◌, ◌↔◌, ◌<◌, ◌≤◌, ◌-◌, ◌&&◌, ◌==◌, List, [], true, false, not, length, map, set, get_or, slice_get, All, Some, IfOk};
ghost use Rattle.con_units.specs.declared.place.Size.{Size};
ghost use Rattle.con_units.specs.declared.view.Frame.{Frame};
ghost use Rattle.con_units.specs.declared.view.View.{View};
ghost use Rattle.con_events.specs.Session.{is_size};
ghost use Rattle.con_events.specs.declared.entry.Entry.{Entry};
ghost use Rattle.con_events.specs.declared.actor.Actor.TheVariants as actors;
ghost use Rattle.con_events.specs.declared.event.Event.TheVariants as events;
ghost use Rattle.con_events.specs.declared.reply.Reply.TheVariants as replies;
ghost use Rattle.con_machine.specs.Along.{Along};
ghost use Rattle.con_machine.specs.Words.Along.{after};
ghost use Rattle.con_machine.specs.Client.{starting, moved_on};
ghost use Rattle.con_machine.specs.Follows.{is_one_of, steps_of, kinds_of};
ghost use Rattle.con_machine.specs.Marks.{told};
ghost use Rattle.con_machine.specs.Sights.{sights_at};
ghost use Rattle.con_machine.specs.State.{State};
ghost use Rattle.con_machine.specs.Step.{is_ready};
ghost use Rattle.con_machine.specs.Turns.{is_pending, is_paint};
ghost use Rattle.con_audit.specs.Audit.{Given, last_end};
ghost use Rattle.con_audit.specs.Partial.{IsKnown};
ghost use Rattle.con_audit.specs.Side.{Side as Sides};
ghost use Rattle.con_audit.specs.Track.{turn};
ghost use Rattle.con_audit.specs.Watching.{watched, IsSeen};
ghost use Rattle.con_audit.specs.Judging.{AreTracks, Stands, IsSaid, MayStand, EndsAt, Pictures, client_at, entered_by, side_by, all_gone, Judges, IsAnswered};

use crate::client::Track;
use crate::side::Side;
use crate::verdict::What;
use crate::watch::Watch;
use con_console::Console;
use con_copies::same_reply;
use con_events::{Actor, Entry, Event, Reply, Script, Session, Step};
use con_units::{Bytes, Frame, OutOfMemory};
use std::alloc::Global;

/// What is known behind entries: the console, each client, the terminal's side, and the partial terminal.
#[derive(Drop)]
pub struct Judge<'a> {
    pub console: Console,
    pub tracks: Vec<Track<'a>>,
    pub side: Side<'a>,
    pub watch: Watch<'a>,
}

// How many handlers each rack has.
fn counts_of(alloc: Global, racks: &[Bytes]) -> Result<Vec<u8>, OutOfMemory>
    requires { All (λ rack. length rack ≤ 255) racks.now }
    ensures { IfOk result (λ counts. counts.items ≡ map (λ kinds. length kinds) racks.now) }
{
    let Ok(mut counts) = Vec::with_capacity(alloc, racks.len()) else {
        return Err(OutOfMemory);
    };
    for rack in racks {
        counts.push_reserved(rack.len() as u8);
    }
    Ok(counts)
}

// The kinds of a client's handlers; none where there is no rack.
fn kinds_at<'a>(racks: &'a [Bytes], at: usize) -> &'a [u8]
    ensures { result.now ≡ get_or racks.now at [] }
{
    match racks.get(at) {
        Some(kinds) => kinds.as_slice(),
        None => &[],
    }
}

// What a script does.
fn steps_in(script: &Script) -> &[Step]
    ensures { result.now ≡ script.now.steps }
{
    script.steps.0.as_slice()
}

// Each client before its first entry.
fn tracks_of<'a>(
    alloc: Global,
    session: &'a Session,
    racks: &'a [Bytes],
) -> Result<Vec<Track<'a>>, OutOfMemory>
    ensures { IfOk result (λ tracks. AreTracks (length session.now.scripts) (λ p. starting (steps_of session.now p) (kinds_of racks.now p)) tracks.items) }
{
    let scripts = session.scripts();
    let Ok(mut tracks) = Vec::with_capacity(alloc, scripts.len()) else {
        return Err(OutOfMemory);
    };
    for at in 0..scripts.len() {
        let script = &scripts[at];
        let steps = steps_in(script);
        tracks.push_reserved(Track::new(alloc, steps, kinds_at(racks, at)));
    }
    Ok(tracks)
}

// Whether a reply that was told is the answer; of a Paint any is.
fn is_said(event: &Event, answer: &Reply, reply: &Reply) -> bool
    ensures { (result ≡ true) ↔ IsSaid event.now answer.now reply.now }
{
    is_paint(event) || same_reply(reply, answer)
}

fn is_paint(event: &Event) -> bool
    ensures { result ≡ is_paint event.now }
{
    match event {
        Event::Paint => true,
        _ => false,
    }
}

// Whether an actor may enter an event.
fn may_stand(tracks: &[Track], side: &Side, actor: Actor, event: &Event) -> bool
    ensures { (result ≡ true) ↔ MayStand tracks.now side.now actor event.now }
{
    match actor {
        Actor::Client(p) => may_go_on(tracks, p, event),
        Actor::Terminal => side.may(event),
        Actor::Painter => true,
    }
}

// Whether a client is one of the session's.
fn is_one_of(tracks: &[Track], p: u8) -> bool
    ensures { result ≡ is_one_of (length tracks.now) (actors.Client p) }
{
    0 < p && p as usize <= tracks.len()
}

// Whether a client is one of the session's, and may enter an event.
fn may_go_on(tracks: &[Track], p: u8, event: &Event) -> bool
    ensures { (s : Sides) → (result ≡ true) ↔ MayStand tracks.now s (actors.Client p) event.now }
{
    if !is_one_of(tracks, p) {
        return false;
    }
    tracks[p as usize - 1].may(event)
}

// Whether a Paint ends where it may.
fn has_end(watch: &Watch, stream: &[u8], event: &Event) -> bool
    ensures { (result ≡ true) ↔ EndsAt stream.now watch.now event.now }
{
    match event {
        Event::Paint => watch.has_end(stream),
        _ => true,
    }
}

// Whether an answer's view is known to be shown.
fn is_seen(watch: &Watch, answer: &Reply) -> bool
    ensures { (v : View) → told answer.now ≡ replies.View v [] false → (result ≡ true) ↔ IsKnown watch.now.partial v }
{
    match answer {
        Reply::View(view, _, _) => watch.knows(view),
        _ => false,
    }
}

// The partial terminal goes on by an event; whether a Paint's view is known to be shown.
fn see(watch: &mut Watch, stream: &[u8], event: &Event, answer: &Reply) -> Result<bool, OutOfMemory>
    requires size { (z : Size) → event.now ≡ events.Resize z → is_size z ≡ true }
    requires end { EndsAt stream.now watch.old event.now }
    ensures seen { (s : State) → Pictures event.now answer.now s
        → IfOk result (λ seen. (seen ≡ true) ↔ Along (IsSeen stream.now) (watched stream.now) watch.old (sights_at s event.now)) }
    ensures watch { (s : State) → Pictures event.now answer.now s
        → IfOk result (λ _. watch.new ≡ after (watched stream.now) watch.old (sights_at s event.now)) }
{
    match event {
        Event::Paint => {
            watch.paint(stream);
            Ok(is_seen(watch, answer))
        }
        Event::Resize(size) => {
            watch.resize(*size)?;
            Ok(true)
        }
        _ => Ok(true),
    }
}

// A client entered an event.
fn go_on(
    tracks: &mut Vec<Track>,
    p: u8,
    event: &Event,
    answer: &Reply,
    pending: bool,
) -> Result<(), OutOfMemory>
    requires { (0 < p) × (p ≤ length tracks.old.items) }
    ensures { IfOk result (λ _. tracks.new.items ≡ set tracks.old.items (p - 1) (moved_on (client_at tracks.old.items p) (turn event.now answer.now pending))) }
{
    let track = &mut tracks[p as usize - 1];
    track.enter(event, answer, pending)?;
    Ok(())
}

// All clients have left.
fn have_all_left(tracks: &[Track]) -> bool
    ensures { result ≡ all_gone tracks.now }
{
    for track in tracks {
        if !track.has_left() {
            return false;
        }
    }
    true
}

// Where the last piece ends.
fn last_end(ends: &[u64]) -> u64
    ensures { result ≡ last_end 0 ends.now }
{
    let mut end = 0;
    for next in ends {
        end = *next;
    }
    end
}

impl<'a> Judge<'a> {
    /// Before the first entry.
    pub fn new(
        alloc: Global,
        session: &'a Session,
        racks: &'a [Bytes],
        frames: &'a [Frame],
        ends: &'a [u64],
    ) -> Result<Judge<'a>, OutOfMemory>
        requires { All (λ rack. length rack ≤ 255) racks.now }
        ensures { (g : Given) → g.session ≡ session.now → g.racks ≡ racks.now → g.ends ≡ ends.now
            → IfOk result (λ j. Stands j.console.state j.tracks.items j.side j.watch g frames.now []) }
    {
        let counts = counts_of(alloc, racks)?;
        let tracks = tracks_of(alloc, session, racks)?;
        let watch = Watch::new(alloc, session.size(), ends)?;
        let console = Console::new(alloc, session, counts.as_slice())?;
        Ok(Judge {
            console,
            tracks,
            side: Side::new(frames),
            watch,
        })
    }

    /// What one entry more is the first to break, or nothing, and then the judge stands behind it. `reply` is the one that was told.
    pub fn entry(
        &mut self,
        stream: &[u8],
        entry: &Entry,
        reply: &Reply,
    ) -> Result<Option<What>, OutOfMemory>
        ensures { (g : Given) (frames : List Frame) (h : List Entry)
            → Stands self.old.console.state self.old.tracks.items self.old.side self.old.watch g frames h
            → g.stream ≡ stream.now → slice_get g.replies (length h) ≡ Some reply.now
            → IfOk result (λ found. Judges found g frames h entry.now
            (Stands self.new.console.state self.new.tracks.items self.new.side self.new.watch g frames)) }
    {
        if !self.console.ready(entry.actor, &entry.event) {
            return Ok(Some(What::Ready));
        }
        let room = self.console.prepare(entry.actor, &entry.event)?;
        let answer = self.console.apply(entry.actor, &entry.event, room);
        self.found(stream, entry, &answer, reply)
    }

    // What an entry that is ready, and was answered so by the console, is the first to break of the other parts; or nothing.
    fn found(
        &mut self,
        stream: &[u8],
        entry: &Entry,
        answer: &Reply,
        reply: &Reply,
    ) -> Result<Option<What>, OutOfMemory>
        requires { (z : Size) → entry.now.event ≡ events.Resize z → is_size z ≡ true }
        ensures { (s : State) (g : Given) (frames : List Frame) (h : List Entry) → Stands s self.old.tracks.items self.old.side self.old.watch g frames h
            → g.stream ≡ stream.now → slice_get g.replies (length h) ≡ Some reply.now
            → IsAnswered s self.old.console.state entry.now.actor entry.now.event answer.now
            → IfOk result (λ found. Judges found g frames h entry.now
            (Stands self.new.console.state self.new.tracks.items self.new.side self.new.watch g frames)) }
    {
        if !is_said(&entry.event, answer, reply) {
            return Ok(Some(What::Reply));
        }
        if !may_stand(
            self.tracks.as_slice(),
            &self.side,
            entry.actor,
            &entry.event,
        ) {
            return Ok(Some(What::Follows));
        }
        if !has_end(&self.watch, stream, &entry.event) {
            return Ok(Some(What::End));
        }
        let shown = see(&mut self.watch, stream, &entry.event, answer)?;
        if !shown {
            return Ok(Some(What::Shows));
        }
        self.note(entry.actor, &entry.event, answer)?;
        Ok(None)
    }

    // The clients and the terminal's side go on by an event, which the console has answered so.
    fn note(&mut self, actor: Actor, event: &Event, answer: &Reply) -> Result<(), OutOfMemory>
        requires { MayStand self.old.tracks.items self.old.side actor event.now }
        ensures tracks { IfOk result (λ _. self.new.tracks.items
            ≡ entered_by self.old.tracks.items actor event.now answer.now (is_pending self.old.console.state)) }
        ensures side { IfOk result (λ _. self.new.side ≡ side_by self.old.side actor event.now) }
        ensures console { self.new.console.state ≡ self.old.console.state }
        ensures watch { self.new.watch ≡ self.old.watch }
    {
        match actor {
            Actor::Client(p) => {
                let pending = self.console.pending(p);
                go_on(&mut self.tracks, p, event, answer, pending)?;
                self.side.note(event);
                Ok(())
            }
            Actor::Terminal => {
                self.side.send(event);
                Ok(())
            }
            Actor::Painter => {
                self.side.note(event);
                Ok(())
            }
        }
    }

    /// Whether all have done what they do, behind all entries.
    pub fn is_whole(&self, stream: &[u8], ends: &[u64]) -> bool
        ensures { result ≡ ((last_end 0 ends.now == length stream.now) &&
            (all_gone self.now.tracks.items && (self.now.side.sender.ended && not (is_ready self.now.console.state actors.Painter events.Paint)))) }
    {
        last_end(ends) == stream.len() as u64
            && have_all_left(self.tracks.as_slice())
            && self.is_quiet()
    }

    // Whether the terminal's side has ended, and no Paint is due.
    fn is_quiet(&self) -> bool
        ensures { result ≡ (self.now.side.sender.ended && not (is_ready self.now.console.state actors.Painter events.Paint)) }
    {
        self.side.has_ended() && !self.console.ready(Actor::Painter, &Event::Paint)
    }
}
