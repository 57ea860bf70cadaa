//! The handlers of one client: its rack, and its chain.
ghost use Rattle.std.specs.Prelude.{◌≡◌, ◌==◌, ℕ, Bool, true, false, List, [], Some, None, map, length, ◌≤◌, get_or, slice_set, IfOk};
ghost use Rattle.std.specs.Prelude.{if◌then◌else◌};
ghost use Rattle.std.specs.List.{position, remove};
ghost use Rattle.con_machine.specs.Chain.{Handler};
ghost use Rattle.con_machine.specs.Words.Chain.{delivered_to, is_handled, with_handler, without_handler};
ghost use Rattle.con_machine.specs.Follows.{kinds_of};
ghost use Rattle.con_laws.specs.Rounds.{Begun};
ghost use Rattle.con_actors.specs.Held.{HandsAre, HandsStand, at_place};
ghost use Rattle.con_actors.specs.Worker.{told_kind};
ghost use Rattle.con_actors.specs.Words.Worker.{places_in, stand_once};

use con_handlers::{Chain, CtrlHandler, Delivered};
use con_units::OutOfMemory;
use std::alloc::Global;

/// The handlers of one client.
#[derive(Drop)]
pub struct Hands {
    pub chain: Chain,
    /// The places in the rack that the chain's handlers have.
    pub places: Vec<u32>,
    /// Those that were never in the chain, each at its place.
    pub rack: Vec<Option<Box<dyn CtrlHandler + Send>>>,
}

// The handler at a place of a rack, which has it no more.
fn taken(
    rack: &mut Vec<Option<Box<dyn CtrlHandler + Send>>>,
    place: usize,
) -> Option<Box<dyn CtrlHandler + Send>>
    ensures handler { result ≡ get_or rack.old.items place None }
    ensures rest { rack.new.items ≡ slice_set rack.old.items place None }
{
    if place >= rack.len() {
        return None;
    }
    rack[place].take()
}

// The handler at an index, if there is one, is dropped.
fn drop_at(chain: &mut Chain, index: usize)
    requires { 0 ≤ index }
    ensures { chain.new.handlers.items ≡ remove chain.old.handlers.items index }
{
    let _ = chain.remove(index);
}

fn index_of(places: &[u32], place: u32) -> Option<usize>
    ensures { result ≡ position (λ one. one == place) places.now }
{
    places.iter().position(|one| *one == place)
}

// The rack as it came.
fn filled(
    alloc: Global,
    rack: Vec<Box<dyn CtrlHandler + Send>>,
) -> Result<Vec<Option<Box<dyn CtrlHandler + Send>>>, OutOfMemory>
    ensures { IfOk result (λ slots. slots.items ≡ map Some rack.items) }
{
    let mut slots = Vec::new(alloc);
    for handler in rack {
        if slots.push(Some(handler)).is_err() {
            return Err(OutOfMemory);
        }
    }
    Ok(slots)
}

impl Hands {
    /// The handlers of a client that has added none.
    pub fn new(alloc: Global, rack: Vec<Box<dyn CtrlHandler + Send>>) -> Result<Hands, OutOfMemory>
        requires { 0 ≤ length rack.items }
        ensures stand { IfOk result (λ hands. (b : Begun) (p : ℕ) → kinds_of b.racks p ≡ map (λ b. told_kind (memory b)) rack.items
            → HandsStand b p [] memory hands) }
    {
        let rack = filled(alloc, rack)?;
        Ok(Hands {
            chain: Chain::new(alloc),
            places: Vec::new(alloc),
            rack,
        })
    }

    /// Asks the chain. Whether a handler handled the event.
    pub fn deliver(&mut self, event: u32) -> bool
        requires { 0 ≤ event }
        ensures handled { (hs : List Handler) (doubtful : Bool) → HandsAre hs doubtful memory self.old
            → (doubtful ≡ false → result ≡ is_handled hs event) × HandsAre (delivered_to hs event) doubtful memory self.new }
        ensures rack { self.new.rack.items ≡ self.old.rack.items }
    {
        match self.chain.deliver(event) {
            Delivered::Handled(_) => true,
            Delivered::Unhandled => false,
        }
    }

    /// Puts the handler at this place of the rack last in the chain. The rack has it no more.
    pub fn add(&mut self, place: u32) -> Result<(), OutOfMemory>
        requires { 0 ≤ place }
        ensures added { IfOk result (λ done. (hs : List Handler) (doubtful : Bool) → HandsAre hs doubtful memory self.old
            → HandsAre (with_handler hs place (at_place memory self.old place))
            (if at_place memory self.old place == 0 then true else doubtful) memory self.new) }
        ensures rest { IfOk result (λ done. (i : ℕ) → (i == place) ≡ false → at_place memory self.new i ≡ at_place memory self.old i) }
    {
        let Some(handler) = taken(&mut self.rack, place as usize) else {
            return Ok(());
        };
        if self.places.reserve(1).is_err() {
            return Err(OutOfMemory);
        }
        if self.chain.add(handler).is_err() {
            return Err(OutOfMemory);
        }
        self.places.push_reserved(place);
        Ok(())
    }

    /// Takes the handler of this place out of the chain.
    #[tactic(auto, using(crate::proofs::ChainLaws::removed_hands))]
    pub fn remove(&mut self, place: u32)
        requires { 0 ≤ place }
        ensures removed { (hs : List Handler) (doubtful : Bool) → stand_once (places_in hs) ≡ true
            → HandsAre hs doubtful memory self.old → HandsAre (without_handler hs place) doubtful memory self.new }
        ensures rack { self.new.rack.items ≡ self.old.rack.items }
    {
        let Some(index) = index_of(self.places.as_slice(), place) else {
            return;
        };
        self.places.remove(index);
        drop_at(&mut self.chain, index);
    }
}
