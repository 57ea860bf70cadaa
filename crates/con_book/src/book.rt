// A book: one lock over a machine, and one history.
ghost use Rattle.std.specs.Prelude.{◌≡◌, ◌≢◌, ℕ, ◌+◌, ◌<◌, ◌%◌, ◌^◌, [], ◌∷◌, ◌++◌, None, IfOk, IfErr, IfSome, true, false, length};
ghost use Rattle.std.specs.Option.{IfNone};

use crate::ends::{Closed, Opened};
use crate::history::Logged;
use crate::kept::Kept;
use crate::machine::Machine;
use crate::pass::{Keeper, Pass, Place};
use crate::plays::{Cut, Draw, Glue, Look, Mind, Named, Serve, Turns};
use crate::view::PassView;
use atomic_table::{Refused, Table};
use con_units::OutOfMemory;
use std::alloc::Global;
use std::hint::spin_loop;
use std::marker::Brand;
use std::snapshot::Snapshot;
use std::sync::atomic::AtomicU64;
use std::sync::atomic::Ordering::SeqCst;
use std::sync::{Mutex, MutexGuard, Wait};
use std::thread::yield_now;

// The words of the table: the number of tickets drawn, and the number of turns served.
const DRAWN: usize = 1;

const SERVED: usize = 2;

// How often a thread that waits looks before it lets others run, and before it sleeps.
const SPINS: u32 = 64;

const YIELDS: u32 = 128;

/// A machine that many threads use, one event at a time, and the one history of what they did.
///
/// It is a ticket lock by design, behind a door that lets few threads draw a ticket at once; who is served first is no promise. Threads share it by
/// reference, each with a [`Pass`] of its own.
/// Every call takes a pass of this book (`pass_id` of the pass is `book_id` of the book).
#[derive(Drop)]
pub struct Book<M: Machine> {
    table: Table<
        Keeper<M>,
        PassView<<M as Machine>::State, <M as Machine>::Event>,
        Snapshot<M>,
        Turns<M>,
        Global,
    >,
    // The threads that sleep until another turn is served.
    sleepers: AtomicU64,
    // Who finds a ticket out waits here before it draws one. It keeps no fact: the tickets do.
    door: Mutex<()>,
    ghost sized: { (table.shared.table_id.words ≡ 3) × (table.shared.table_id.slots ≡ 1) },
}

impl<M: Machine> Book<M> {
    ghost use Rattle.con_book.specs.History.{after};
    ghost use Rattle.con_book.specs.Lock.{tickets, moving, gave, newcomer, both};
    ghost use Rattle.con_book.specs.Held.{Entered, HasEntered, IsDue, MayPut, HasLeft, HasLeftWith, Acts};
    ghost use Rattle.con_book.specs.Turn.{Enters, SeesOthers, IsBlocked, Opens, has_pass, IsLonger, OwnIsMine, Ends};
    ghost use Rattle.con_book.specs.Passes.{book_id, pass_id, view_of, actor_of, IsSamePass};

    /// A book that keeps this machine, with no entry yet.
    pub fn new(alloc: Global, machine: M) -> Result<Opened<M>, OutOfMemory>
        ensures book { IfOk result (λ opened. pass_id opened.pass ≡ book_id opened.book) }
        ensures pass { IfOk result (λ opened. Opens (M.state machine) (view_of opened.pass)) }
    {
        let start = Snapshot::of(&machine);
        let Ok(mut slots) = Vec::with_capacity(alloc, 1) else {
            return Err(OutOfMemory);
        };
        let log = Vec::new(alloc);
        slots.push_reserved(Some(Kept { machine, log }));
        match Table::new(alloc, &[1, 0, 0], slots, &start) {
            Ok((table, seat)) => Ok(Opened {
                book: Book {
                    table,
                    sleepers: AtomicU64::new(0),
                    door: Mutex::new(()),
                },
                pass: Pass { actor: 0, seat },
            }),
            Err(Refused { slots: _ }) => Err(OutOfMemory),
        }
    }

    // Waits at the door where a ticket is out, and stands in it until its turn is over. So hardly more than one thread waits with a ticket,
    // and the others sleep. One that comes while no ticket is out goes past them.
    fn wait_at_door<R: Wait>(&self, rt: &R) -> Option<MutexGuard<'_, ()>> {
        let shared = &self.table.shared;
        if shared.peek(DRAWN) == shared.peek(SERVED) {
            None
        } else {
            Some(self.door.lock(rt))
        }
    }

    // Waits for its turn, and takes the machine.
    fn enter<R: Wait>(&self, rt: &R, seat: &mut Place<M>) -> Kept<M, M::Event>
        requires table { seat.old.table_id ≡ self.now.table.shared.table_id }
        requires idle { (tickets seat.old.me.0.stage ≡ 0) × (seat.old.me.1 ≡ []) × (seat.old.me.0.live ≡ true) }
        ensures table { seat.new.table_id ≡ seat.old.table_id }
        ensures entered { Entered M.state (moving M.next M.is_ready M.blank) seat.old.me.0 result seat.new.me }
    {
        let shared = &self.table.shared;
        let ticket = shared.fetch_add::<Draw>(seat, DRAWN, 1);
        let mut looks = 0u32;
        for _ in rt.forever() {
            let served = shared.load::<Look<M>>(seat, SERVED);
            if served == ticket {
                return shared.exchange(seat, 0, None).unwrap();
            }
            self.pause(rt, looks, served);
            looks = looks.saturating_add(1);
        }
        unreachable!()
    }

    // Lets time pass: first a moment, then the time of other threads, and in the end until another turn is served.
    fn pause<R: Wait>(&self, rt: &R, looks: u32, served: u64) {
        if looks < SPINS {
            spin_loop();
        } else if looks < YIELDS {
            yield_now();
        } else {
            self.sleepers.fetch_add(1, SeqCst);
            self.table
                .shared
                .park(rt, SERVED, (served & 0xffff_ffff) as u32);
            self.sleepers.fetch_sub(1, SeqCst);
        }
    }

    // Puts the machine back, and lets the next one have its turn.
    fn leave(&self, seat: &mut Place<M>, kept: Kept<M, M::Event>)
        requires table { seat.old.table_id ≡ self.now.table.shared.table_id }
        requires place { IsDue seat.old.me }
        requires live { seat.old.me.0.live ≡ true }
        requires machine { MayPut M.state (moving M.next M.is_ready M.blank) seat.old.me.0 kept }
        ensures table { seat.new.table_id ≡ seat.old.table_id }
        ensures place { HasLeft seat.old.me.0 kept.log.items seat.new.me }
    {
        let shared = &self.table.shared;
        let None = shared.exchange(seat, 0, Some(kept)) else {
            unreachable!()
        };
        shared.fetch_add::<Serve>(seat, SERVED, 1);
        self.wake();
    }

    // Wakes those that sleep until another turn is served.
    fn wake(&self) {
        if self.sleepers.load(SeqCst) != 0 {
            self.table.shared.wake_all(SERVED);
        }
    }

    // Enters the event into the machine that was taken, and puts it back.
    fn act(
        &self,
        seat: &mut Place<M>,
        actor: u32,
        kept: Kept<M, M::Event>,
        event: M::Event,
    ) -> Result<M::Reply, OutOfMemory>
        requires table { seat.old.table_id ≡ self.now.table.shared.table_id }
        requires actor { actor ≡ seat.old.me.0.actor }
        requires live { seat.old.me.0.live ≡ true }
        requires ready { M.is_ready (M.state kept.machine) actor event ≡ true }
        requires entered { HasEntered M.state (moving M.next M.is_ready M.blank) kept seat.old.me }
        ensures table { seat.new.table_id ≡ seat.old.table_id }
        ensures left { HasLeftWith seat.old.me.0 seat.new.me }
        ensures entered { Acts M.state (moving M.next M.is_ready M.blank) M.answer M.answer_to M.tells kept event result seat.old.me seat.new.me }
    {
        let Kept {
            mut machine,
            mut log,
        } = kept;
        if log.reserve(1).is_err() {
            self.leave(seat, Kept { machine, log });
            return Err(OutOfMemory);
        }
        match machine.prepare(actor, &event) {
            Ok(room) => {
                let reply = machine.apply(actor, &event, room);
                log.push_reserved(Logged { actor, event });
                self.leave(seat, Kept { machine, log });
                Ok(reply)
            }
            Err(refused) => {
                self.leave(seat, Kept { machine, log });
                Err(refused)
            }
        }
    }

    /// Enters an event that is ready in every state.
    ///
    /// With a reply, the pass has seen entries of other actors since, and then this event. The reply is the machine's
    /// after all entries before the event. Where there was no memory, nothing was entered.
    pub fn turn<R: Wait>(
        &self,
        rt: &R,
        pass: &mut Pass<M>,
        event: M::Event,
    ) -> Result<M::Reply, OutOfMemory>
        requires book { pass_id pass.old ≡ book_id self.now }
        requires ready { (s : M.State) → M.is_ready s (actor_of pass.old) event ≡ true }
        ensures pass { IsSamePass pass.old pass.new }
        ensures entered { IfOk result (λ reply. Enters M.next M.is_ready M.answer M.answer_to M.tells (view_of pass.old) event reply (view_of pass.new)) }
        ensures refused { IfErr result (λ _. SeesOthers (view_of pass.old) (view_of pass.new)) }
    {
        let _door = self.wait_at_door(rt);
        let kept = self.enter(rt, &mut pass.seat);
        self.act(&mut pass.seat, pass.actor, kept, event)
    }

    /// Enters an event if it is ready.
    ///
    /// With a reply, all is as after [`Book::turn`]. `None` comes only where the event is not ready in the machine after
    /// the history that the pass has then seen. Then, and where there was no memory, nothing was entered.
    pub fn turn_if_ready<R: Wait>(
        &self,
        rt: &R,
        pass: &mut Pass<M>,
        event: M::Event,
    ) -> Result<Option<M::Reply>, OutOfMemory>
        requires book { pass_id pass.old ≡ book_id self.now }
        ensures pass { IsSamePass pass.old pass.new }
        ensures entered { IfOk result (λ answer. IfSome answer (λ reply. Enters M.next M.is_ready M.answer M.answer_to M.tells
            (view_of pass.old) event reply (view_of pass.new))) }
        ensures blocked { IfOk result (λ answer. IfNone answer (SeesOthers (view_of pass.old) (view_of pass.new)
            × IsBlocked M.next M.is_ready (view_of pass.new) event)) }
        ensures refused { IfErr result (λ _. SeesOthers (view_of pass.old) (view_of pass.new)) }
    {
        let _door = self.wait_at_door(rt);
        let kept = self.enter(rt, &mut pass.seat);
        if !kept.machine.ready(pass.actor, &event) {
            self.leave(&mut pass.seat, kept);
            return Ok(None);
        }
        match self.act(&mut pass.seat, pass.actor, kept, event) {
            Ok(reply) => Ok(Some(reply)),
            Err(refused) => Err(refused),
        }
    }

    /// Whether this event of the pass's actor is ready in the machine after the history that the pass has then seen.
    ///
    /// It enters nothing and takes no memory.
    pub fn check<R: Wait>(&self, rt: &R, pass: &mut Pass<M>, event: &M::Event) -> bool
        requires book { pass_id pass.old ≡ book_id self.now }
        ensures pass { IsSamePass pass.old pass.new }
        ensures seen { SeesOthers (view_of pass.old) (view_of pass.new) }
        ensures ready { result ≡ M.is_ready (after M.next (view_of pass.new).start (view_of pass.new).seen) (actor_of pass.new) event.now }
    {
        let _door = self.wait_at_door(rt);
        let kept = self.enter(rt, &mut pass.seat);
        let ready = kept.machine.ready(pass.actor, event);
        self.leave(&mut pass.seat, kept);
        ready
    }

    fn cut<N: Named>(&self, seat: &mut Place<M>, actor: u32) -> Place<M>
        requires table { seat.old.table_id ≡ self.now.table.shared.table_id }
        requires actor { actor ≡ N.actor }
        requires fresh { (seat.old.me.0.opens ≡ true) × (seat.old.me.0.live ≡ true) × (has_pass actor seat.old.me.0 ≡ false) }
        ensures left { (seat.new.table_id ≡ seat.old.table_id) × (seat.new.me ≡ (gave actor seat.old.me.0, seat.old.me.1)) }
        ensures right { (result.table_id ≡ seat.old.table_id) × (result.me ≡ (newcomer actor seat.old.me.0, [])) }
    {
        self.table.shared.split_seat::<Cut<N>>(seat)
    }

    /// A pass for an actor that had none, made by the opening pass. It has seen what the opening pass has seen.
    ///
    /// It takes no memory.
    pub fn pass(&self, of: &mut Pass<M>, actor: u32) -> Pass<M>
        requires book { pass_id of.old ≡ book_id self.now }
        requires opening { (view_of of.old).opens ≡ true }
        requires fresh { has_pass actor (view_of of.old) ≡ false }
        ensures book { (pass_id of.new ≡ pass_id of.old) × (pass_id result ≡ pass_id of.old) }
        ensures of { view_of of.new ≡ gave actor (view_of of.old) }
        ensures new { view_of result ≡ newcomer actor (view_of of.old) }
        ensures mine { OwnIsMine (view_of result) }
    {
        let mut seat = self.cut::<Brand>(&mut of.seat, actor);
        self.table.shared.load::<Mind>(&mut seat, 0);
        Pass { actor, seat }
    }

    /// Takes a pass that is not the opening one into another.
    ///
    /// That one then has seen what either had seen, of which the one is a beginning of the other, and keeps the actor,
    /// the entries and the own events of the pass that was taken in, and of all that it had taken in.
    pub fn join(&self, into: &mut Pass<M>, other: Pass<M>)
        requires book { (pass_id into.old ≡ book_id self.now) × (pass_id other ≡ book_id self.now) }
        requires other { (view_of other).opens ≡ false }
        ensures book { pass_id into.new ≡ pass_id into.old }
        ensures both { view_of into.new ≡ both (view_of into.old) (view_of other) }
        ensures seen { IsLonger (view_of into.old) (view_of other) (view_of into.new) }
        ensures mine { OwnIsMine (view_of into.new) }
    {
        let Pass { actor: _, seat } = other;
        let shared = &self.table.shared;
        shared.join_seat::<Glue<M>>(&mut into.seat, seat);
        shared.load::<Mind>(&mut into.seat, 0);
    }

    // What the book kept, once every other pass was taken into this one.
    fn finish(self, last: Pass<M>) -> Kept<M, M::Event>
        requires book { pass_id last ≡ book_id self }
        requires opening { (view_of last).opens ≡ true }
        requires whole { length (view_of last).kept ≡ length (view_of last).made }
        ensures { Ends M.state M.next M.is_ready (view_of last) result.log.items result.machine }
    {
        let Book {
            table,
            sleepers: _,
            door: _,
        } = self;
        let Pass { actor: _, seat } = last;
        let mut closed = table.close_with(seat);
        let slot = closed.take(0);
        closed.free();
        slot.unwrap()
    }

    /// The machine and its history, once every other pass was taken into the opening one, directly or by way of others.
    ///
    /// The history is legal, and each actor's entries in it are the own events of its pass.
    pub fn close(self, last: Pass<M>) -> Closed<M>
        requires book { pass_id last ≡ book_id self }
        requires opening { (view_of last).opens ≡ true }
        requires whole { length (view_of last).kept ≡ length (view_of last).made }
        ensures { Ends M.state M.next M.is_ready (view_of last) result.log.items result.machine }
    {
        let Kept { machine, log } = self.finish(last);
        Closed { machine, log }
    }
}
