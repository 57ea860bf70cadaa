//! Handlers that write down what they are asked, and count how often they are dropped, and a case that is run with them.
ghost use Rattle.std.specs.Prelude.{◌≤◌, All, IfOk, length};
ghost use Rattle.con_handlers.specs.Words.Memory.{memory_of};

use crate::running::{Racks, host_racks};
use case_files::order::Order;
use case_files::ran::Ran;
use case_files::setup::Setup;
use con_handlers::CtrlHandler;
use con_handlers::handler::one_more;
use std::alloc::{AllocError, Global};
use std::sync::atomic::AtomicU64;
use std::sync::atomic::Ordering::SeqCst;
use std::sync::{Arc, Wait};
use std::thread::Threads;

/// How many handlers are watched.
const WATCHED: usize = 4;

/// What watched handlers were asked, and how often each was dropped, for all to see.
#[derive(Drop)]
struct Seen {
    asked: [AtomicU64; WATCHED],
    dropped: AtomicU64,
}

impl Seen {
    // Nobody was asked or dropped.
    fn new() -> Seen {
        Seen {
            asked: [
                AtomicU64::new(0),
                AtomicU64::new(0),
                AtomicU64::new(0),
                AtomicU64::new(0),
            ],
            dropped: AtomicU64::new(0),
        }
    }

    // A handler was asked. Nobody but itself writes here.
    fn ask(&self, handler: u32, event: u32) {
        if let Some(asked) = self.asked.get(handler as usize) {
            let digit = u64::from(event).wrapping_add(1);
            asked.store(
                asked.load(SeqCst).wrapping_mul(10).wrapping_add(digit),
                SeqCst,
            );
        }
    }

    // What each handler was asked, in order: a decimal digit for each event, one more than it.
    fn asked(&self) -> [u64; WATCHED] {
        let [a, b, c, d] = &self.asked;
        [
            a.load(SeqCst),
            b.load(SeqCst),
            c.load(SeqCst),
            d.load(SeqCst),
        ]
    }

    // How often each handler was dropped: a hexadecimal digit for each, that of the first one last.
    fn dropped(&self) -> u64 {
        self.dropped.load(SeqCst)
    }
}

/// A handler that answers always the same.
struct Watched {
    handler: u32,
    answer: bool,
    count: u64,
    last: u32,
    seen: Arc<Seen, Global>,
}

impl Watched {
    // One that was never asked.
    fn of(seen: &Arc<Seen, Global>, handler: u32, answer: bool) -> Result<Watched, AllocError> {
        Ok(Watched {
            handler,
            answer,
            count: 0,
            last: 0,
            seen: Arc::try_clone(seen)?,
        })
    }
}

impl Drop for Watched {
    fn drop(self) {
        let digit = 16u64.checked_pow(self.handler).unwrap_or(0);
        self.seen.dropped.fetch_add(digit, SeqCst);
        let Watched {
            handler: _handler,
            answer: _answer,
            count: _count,
            last: _last,
            seen: _seen,
        } = self;
    }
}

impl CtrlHandler for Watched {
    ghost memory = { λ h. memory_of h.count h.last 0 };

    ghost will = { λ h _. h.answer };

    fn handle(&mut self, event: u32) -> bool {
        self.seen.ask(self.handler, event);
        self.count = one_more(self.count);
        self.last = event;
        self.answer
    }
}

// Two handlers for the first client, one for the second one, and one for a client that no session here has.
fn racks_of(
    alloc: Global,
    first: Box<dyn CtrlHandler + Send>,
    newer: Box<dyn CtrlHandler + Send>,
    second: Box<dyn CtrlHandler + Send>,
    third: Box<dyn CtrlHandler + Send>,
) -> Result<Racks, AllocError>
    ensures { IfOk result (λ racks. All (λ rack. length rack.items ≤ 255) racks.items) }
{
    let mut two = Vec::new(alloc);
    two.push(first)?;
    two.push(newer)?;
    let mut one = Vec::new(alloc);
    one.push(second)?;
    let mut other = Vec::new(alloc);
    other.push(third)?;
    let mut racks = Vec::new(alloc);
    racks.push(two)?;
    racks.push(one)?;
    racks.push(other)?;
    Ok(racks)
}

// Runs a case with watched handlers, each of which is seen. All but the second one handle each event.
fn watch<T: Threads + Wait + Sync>(
    rt: &T,
    alloc: Global,
    setup: Setup,
    seen: &Arc<Seen, Global>,
    order: &Order,
) -> Result<Ran, AllocError> {
    let racks = racks_of(
        alloc,
        Box::new(alloc, Watched::of(seen, 0, true)?)?,
        Box::new(alloc, Watched::of(seen, 1, false)?)?,
        Box::new(alloc, Watched::of(seen, 2, true)?)?,
        Box::new(alloc, Watched::of(seen, 3, true)?)?,
    )?;
    host_racks(rt, alloc, setup, racks, order)
}

/// What a case leaves that is run with watched handlers, two of the first client, one of the second, and one of a third, in an order; `None` where
/// they were asked something else than this, or one of them was not dropped once.
pub fn watched_case<T: Threads + Wait + Sync>(
    rt: &T,
    alloc: Global,
    setup: Setup,
    order: &Order,
    asked: [u64; WATCHED],
) -> Result<Option<Ran>, AllocError> {
    let seen = given!(Arc::new(alloc, Seen::new()), AllocError);
    let ran = given!(watch(rt, alloc, setup, &seen, order));
    if seen.asked() == asked && seen.dropped() == 0x1111 {
        Ok(Some(ran))
    } else {
        Ok(None)
    }
}
