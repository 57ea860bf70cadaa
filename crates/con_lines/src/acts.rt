//! Who acts, and what, in a line.

ghost use Rattle.std.specs.Prelude.{◌≡◌, List, [], ◌∷◌, ◌++◌, map, codes, IfOk};
ghost use Rattle.json.specs.Print.{escape};
ghost use Rattle.serde_json.specs.Data.{string};
ghost use Rattle.con_lines.specs.Shown.{list_of, shown};
ghost use Rattle.con_events.specs.Table.{wanted_spelled};
ghost use Rattle.con_lines.specs.Words.Form.{event_name};
ghost use Rattle.con_lines.specs.Line.{actor_text, event_data};
ghost use Rattle.con_lines.specs.Writing.{put, put_each};

use crate::line::Line;
use con_events::{Actor, Event, Shows, Wanted, name, tell};
use con_units::OutOfMemory;
use itoa::Buffer;

/// The name of a wait's begin.
#[tactic(auto, unfolding(json::specs::Print::escape_byte))]
fn wanted_name_of(wanted: &Wanted) -> &'static str
    ensures name { result.now ≡ codes "begin-" ++ (wanted_spelled wanted.now).0 }
    ensures plain { escape result.now ≡ result.now }
{
    match wanted {
        Wanted::Read { .. } => "begin-read",
        Wanted::ReadInput { .. } => "begin-read-input",
        Wanted::ReadWith { .. } => "begin-read-with",
    }
}

/// An event's name.
#[tactic(auto, using(crate::proofs::Names::call_name_plain), unfolding(json::specs::Print::escape_byte))]
pub fn name_of_event(event: &Event) -> &'static str
    ensures name { result.now ≡ event_name event.now }
    ensures plain { escape result.now ≡ result.now }
{
    match event {
        Event::Call(call) => name(call),
        Event::Begin(wanted) => wanted_name_of(wanted),
        Event::Collect => "collect",
        Event::TakeCtrl => "take-ctrl",
        Event::Exit(_) => "exit",
        Event::Feed(_) => "feed",
        Event::Quiet => "quiet",
        Event::Resize(_) => "resize",
        Event::Ask => "ask",
        Event::Hangup => "hangup",
        Event::Drained => "drained",
        Event::Paint => "paint",
    }
}

#[tactic(auto, using(crate::proofs::Puts::arrays), unfolding(json::specs::Print::escape_byte))]
impl Line {
    /// A client's number behind a `c`.
    #[tactic(auto, using(crate::proofs::Puts::client_is))]
    fn client(&mut self, client: u8) -> Result<(), OutOfMemory>
        ensures { IfOk result (λ _. self.new ≡ put self.old (string (actor_text (Actor.Client client)))) }
    {
        let mut buffer = Buffer::new();
        given!(self.value(b"\"c"));
        given!(self.append(buffer.format(client).as_bytes()));
        self.append(b"\"")
    }

    /// Who acts.
    pub fn actor(&mut self, actor: Actor) -> Result<(), OutOfMemory>
        ensures { IfOk result (λ _. self.new ≡ put self.old (string (actor_text actor))) }
    {
        match actor {
            Actor::Client(client) => self.client(client),
            Actor::Terminal => self.word("t"),
            Actor::Painter => self.word("p"),
        }
    }

    fn wanted(&mut self, wanted: &Wanted) -> Result<(), OutOfMemory>
        ensures { IfOk result (λ _. self.new ≡ put_each self.old (map shown (wanted_spelled wanted.now).1)) }
    {
        match wanted {
            Wanted::Read { handle, n } | Wanted::ReadInput { handle, n } => {
                given!(self.number(*handle));
                self.number(*n)
            }
            Wanted::ReadWith {
                handle,
                n,
                initial,
                mask,
            } => {
                given!(self.number(*handle));
                given!(self.number(*n));
                given!(self.text(initial));
                self.number(*mask)
            }
        }
    }

    /// An event's arguments, one after another.
    fn arguments(&mut self, event: &Event) -> Result<(), OutOfMemory>
        ensures { IfOk result (λ _. self.new ≡ put_each self.old (event_data event.now)) }
    {
        match event {
            Event::Call(call) => tell(call, self),
            Event::Begin(wanted) => self.wanted(wanted),
            Event::Exit(status) => self.number(*status),
            Event::Feed(bytes) => self.bytes(bytes.as_slice()),
            Event::Resize(size) => {
                given!(self.unit(size.w));
                self.unit(size.h)
            }
            _ => Ok(()),
        }
    }

    /// An event's arguments, as an array.
    pub fn all_arguments(&mut self, event: &Event) -> Result<(), OutOfMemory>
        ensures { IfOk result (λ _. self.new ≡ put self.old (list_of (event_data event.now))) }
    {
        given!(self.open());
        given!(self.arguments(event));
        self.shut()
    }
}
