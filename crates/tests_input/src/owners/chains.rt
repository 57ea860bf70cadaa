//! What no session shows of handlers: which one handles, that each is dropped once, and that one for which there was no memory is added then.
ghost use Rattle.std.specs.Prelude.{◌≡◌};
ghost use Rattle.con_handlers.specs.Answers.{raised};
ghost use Rattle.con_handlers.specs.Words.Memory.{memory_of};

use con_handlers::handler::one_more;
use con_handlers::{Chain, CtrlHandler, Delivered, Note, Tally, Unadded};
use std::alloc::Global;
use std::sync::Arc;
use std::sync::atomic::{AtomicU64, Ordering};
use std::test::Fail;

/// A handler that counts, for all to see, how often it was asked and dropped.
struct Watched {
    answer: bool,
    asked: u64,
    last: u32,
    seen: Arc<AtomicU64, Global>,
    dropped: Arc<AtomicU64, Global>,
}

impl Drop for Watched {
    fn drop(self) {
        self.dropped.fetch_add(1, Ordering::SeqCst);
        let Watched {
            answer: _answer,
            asked: _asked,
            last: _last,
            seen: _seen,
            dropped: _dropped,
        } = self;
    }
}

impl CtrlHandler for Watched {
    ghost memory = { λ h. memory_of h.asked h.last 0 };

    ghost will = { λ h _. h.answer };

    fn handle(&mut self, event: u32) -> bool {
        self.seen.fetch_add(1, Ordering::SeqCst);
        self.asked = one_more(self.asked);
        self.last = event;
        self.answer
    }
}

/// How often handlers were asked, or dropped.
type Count = Arc<AtomicU64, Global>;

fn now(seen: &Count, dropped: &Count) -> [u64; 2] {
    [seen.load(Ordering::SeqCst), dropped.load(Ordering::SeqCst)]
}

// Adds a note, and tells whether it did.
fn add_note(alloc: Global, chain: &mut Chain) -> Result<bool, Fail> {
    let note = Box::new(alloc, Note::new())?;
    Ok(chain.add(note).is_ok())
}

// Adds a tally, and tells whether it did.
fn add_tally(alloc: Global, chain: &mut Chain) -> Result<bool, Fail> {
    let tally = Box::new(alloc, Tally::new())?;
    Ok(chain.add(tally).is_ok())
}

// Which one handles each event, of a tally between two notes.
fn told(alloc: Global, chain: &mut Chain) -> Result<[Delivered; 3], Fail> {
    if !add_note(alloc, chain)? || !add_tally(alloc, chain)? || !add_note(alloc, chain)? {
        return Ok([Delivered::Unhandled; 3]);
    }
    Ok([chain.deliver(0), chain.deliver(1), chain.deliver(2)])
}

fn told_anew(alloc: Global) -> Result<[Delivered; 3], Fail> {
    let mut chain = Chain::new(alloc);
    told(alloc, &mut chain)
}

#[test]
fn which_handles_is_told(rt: HostRuntime) -> Result<(), Fail> {
    let told = told_anew(rt.alloc())?;
    assert_eq!(rt;
        told,
        [
            Delivered::Unhandled,
            Delivered::Handled(1),
            Delivered::Handled(1)
        ]
    );
    Ok(())
}

// A handler that counts.
fn one_watched(answer: bool, seen: &Count, dropped: &Count) -> Result<Watched, Fail> {
    let seen = Arc::try_clone(seen)?;
    let dropped = Arc::try_clone(dropped)?;
    Ok(Watched {
        answer,
        asked: 0,
        last: 0,
        seen,
        dropped,
    })
}

// What the chain says to a handler that counts.
fn add_watched(
    alloc: Global,
    chain: &mut Chain,
    answer: bool,
    seen: &Count,
    dropped: &Count,
) -> Result<Result<(), Unadded>, Fail> {
    let one = Box::new(alloc, one_watched(answer, seen, dropped)?)?;
    Ok(chain.add(one))
}

// Adds three handlers, of which the second answers true, and tells whether it did.
fn add_three(
    alloc: Global,
    chain: &mut Chain,
    seen: &Count,
    dropped: &Count,
) -> Result<bool, Fail> {
    let mut added = true;
    for answer in [false, true, false] {
        added = add_watched(alloc, chain, answer, seen, dropped)?.is_ok() && added;
    }
    Ok(added)
}

// The counts behind an event, and behind another one that comes once the second handler is removed; and whether each was answered as it should be.
fn asked_and_removed(chain: &mut Chain, seen: &Count, dropped: &Count) -> ([[u64; 2]; 2], bool) {
    let handled = chain.deliver(0);
    let asked = now(seen, dropped);
    let removed = chain.remove(1).is_ok();
    let passed = chain.deliver(0);
    (
        [asked, now(seen, dropped)],
        removed && handled == Delivered::Handled(1) && passed == Delivered::Unhandled,
    )
}

fn three_asked(
    alloc: Global,
    seen: &Count,
    dropped: &Count,
) -> Result<([[u64; 2]; 2], bool), Fail> {
    let mut chain = Chain::new(alloc);
    let added = add_three(alloc, &mut chain, seen, dropped)?;
    let (counts, right) = asked_and_removed(&mut chain, seen, dropped);
    Ok((counts, added && right))
}

// The same, with the counts once the chain is dropped.
fn three_dropped(alloc: Global) -> Result<([[u64; 2]; 3], bool), Fail> {
    let seen = Arc::new(alloc, AtomicU64::new(0))?;
    let dropped = Arc::new(alloc, AtomicU64::new(0))?;
    let (counts, right) = three_asked(alloc, &seen, &dropped)?;
    Ok(([counts[0], counts[1], now(&seen, &dropped)], right))
}

#[test]
fn each_is_dropped_once(rt: HostRuntime) -> Result<(), Fail> {
    let (counts, right) = three_dropped(rt.alloc())?;
    assert!(rt; right && counts == [[2, 0], [4, 1], [4, 3]]);
    Ok(())
}

// Whether the chain asks just so many others, and a handler that was refused is added then.
fn is_added_then(chain: &mut Chain, unadded: Unadded, others: u64, seen: &Count) -> bool {
    let before = seen.load(Ordering::SeqCst);
    chain.deliver(1);
    let asked = seen.load(Ordering::SeqCst).wrapping_sub(before);
    let added = chain.add(unadded.handler).is_ok();
    asked == others && added
}

// Adds five handlers, each a second time where it was refused, and tells whether that was right, and how many are asked then.
fn five_asked(
    alloc: Global,
    chain: &mut Chain,
    seen: &Count,
    dropped: &Count,
) -> Result<(bool, u64), Fail> {
    let mut right = true;
    for others in 0..5 {
        if let Err(unadded) = add_watched(alloc, chain, false, seen, dropped)? {
            right = is_added_then(chain, unadded, others, seen) && right;
        }
    }
    let before = seen.load(Ordering::SeqCst);
    chain.deliver(0);
    Ok((right, seen.load(Ordering::SeqCst).wrapping_sub(before)))
}

fn five_anew(alloc: Global, seen: &Count, dropped: &Count) -> Result<(bool, u64), Fail> {
    let mut chain = Chain::new(alloc);
    five_asked(alloc, &mut chain, seen, dropped)
}

// The same, with how many were dropped.
fn five_dropped(alloc: Global) -> Result<(bool, u64, u64), Fail> {
    let seen = Arc::new(alloc, AtomicU64::new(0))?;
    let dropped = Arc::new(alloc, AtomicU64::new(0))?;
    let (right, asked) = five_anew(alloc, &seen, &dropped)?;
    Ok((right, asked, dropped.load(Ordering::SeqCst)))
}

// With `rt try --test --fail-alloc N` an allocation fails, where the chain grows too: it is then as it was, so it asks just the others.
#[test]
fn one_that_was_refused_is_added(rt: HostRuntime) -> Result<(), Fail> {
    let told = five_dropped(rt.alloc())?;
    assert_eq!(rt; told, (true, 5, 5));
    Ok(())
}
