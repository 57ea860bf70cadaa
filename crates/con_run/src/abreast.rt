//! Each of a row beside the others.
ghost use Rattle.std.specs.Prelude.{◌≡◌, ℕ, ◌+◌, ◌^◌, ◌<◌, length};
ghost use Rattle.std.specs.Thread.{IsSync, IsSend};
ghost use Rattle.std.specs.Fork.{AcceptsAt, AcceptsEach, ChangesAt, ChangesEach};
ghost use Rattle.con_run.specs.Abreast.{AllAre, AllBecame};

use crate::paired::beside;
use con_threads::Signals;
use std::sync::Wait;
use std::thread::Threads;

// Calls f at one.
fn at<T, F: Fn(usize, &mut T)>(f: &F, place: usize, one: &mut T)
    requires { AcceptsAt F.Fn f.now place one.old }
    ensures { ChangesAt F.Fn f.now place one.old one.new }
{
    f(place, one);
}

// The same of a part of the row that begins at `base`.
#[cycle(row)]
fn from<R: Threads + Wait + Sync, T: Send, F: Fn(usize, &mut T) + Sync>(
    rt: &R,
    signals: &Signals,
    f: &F,
    base: usize,
    row: &mut [T],
)
    requires { AllAre (AcceptsAt F.Fn f.now) base row.old }
    ensures { AllBecame (ChangesAt F.Fn f.now) base row.old row.new }
{
    if row.is_empty() {
        return;
    }
    if row.len() == 1 {
        at(f, base, &mut row[0]);
        return;
    }
    let low = row.len() / 2;
    let (front, back) = row.split_at_mut(low);
    halves(rt, signals, f, base, front, base + low, back);
}

// Both halves of a part of the row, beside each other.
#[cycle(row)]
fn halves<R: Threads + Wait + Sync, T: Send, F: Fn(usize, &mut T) + Sync>(
    rt: &R,
    signals: &Signals,
    f: &F,
    base: usize,
    front: &mut [T],
    mid: usize,
    back: &mut [T],
)
    requires some { (0 < length front.old) × (0 < length back.old) }
    requires front { AllAre (AcceptsAt F.Fn f.now) base front.old }
    requires back { AllAre (AcceptsAt F.Fn f.now) mid back.old }
    ensures front { AllBecame (ChangesAt F.Fn f.now) base front.old front.new }
    ensures back { AllBecame (ChangesAt F.Fn f.now) mid back.old back.new }
{
    let mut one = ||
        requires { IsSync R.row × IsSync F.row × IsSend T.row × AllAre (AcceptsAt F.Fn f.now) base front.now }
        ensures { AllBecame (ChangesAt F.Fn f.entry.now) base front.entry.now front.exit.now }
    { from(rt, signals, f, base, front) };
    let mut two = ||
        requires { IsSync R.row × IsSync F.row × IsSend T.row × AllAre (AcceptsAt F.Fn f.now) mid back.now }
        ensures { AllBecame (ChangesAt F.Fn f.entry.now) mid back.entry.now back.exit.now }
    { from(rt, signals, f, mid, back) };
    beside(rt, signals, &mut one, &mut two);
}

/// Calls f at each of a row, with its place, each beside the others. So many threads are made, less one.
pub fn each_beside<R: Threads + Wait + Sync, T: Send, F: Fn(usize, &mut T) + Sync>(
    rt: &R,
    signals: &Signals,
    row: &mut [T],
    f: &F,
)
    requires { AcceptsEach F.Fn f.now row.old }
    ensures { ChangesEach F.Fn f.now row.old row.new }
{
    from(rt, signals, f, 0, row);
}
