//! Tab stops: for each column, whether a tab stops there.
ghost use Rattle.std.specs.Prelude.{IfOk, ◌≡◌, ◌<◌, ◌≤◌, length, replicate, false};
ghost use Rattle.con_page.specs.Effect as now;
ghost use Rattle.con_page.specs.Setters.{default_tabs};

use std::alloc::{AllocError, Global};

// The next tab stop to the right, or the last column.
fn stop_right(tabs: &[bool], at: u16) -> u16
    requires inside { at < length tabs.now }
    requires few { length tabs.now ≤ 512 }
    ensures stop { result ≡ now.tab_right tabs.now (length tabs.now) at }
    ensures inside { result < length tabs.now }
{
    let mut x = at as usize;
    while x + 1 < tabs.len() {
        let stop = tabs[x + 1];
        if stop {
            return (x + 1) as u16;
        }
        x += 1;
    }
    x as u16
}

// The next tab stop to the left, or column 0.
fn stop_left(tabs: &[bool], at: u16) -> u16
    requires inside { at < length tabs.now }
    ensures stop { result ≡ now.tab_left tabs.now at }
    ensures inside { result ≤ at }
{
    let mut x = at as usize;
    while 0 < x {
        let stop = tabs[x - 1];
        if stop {
            return (x - 1) as u16;
        }
        x -= 1;
    }
    0
}

pub(crate) fn stops_right(tabs: &[bool], at: u16, n: u32) -> u16
    requires inside { at < length tabs.now }
    requires few { length tabs.now ≤ 512 }
    ensures stop { result ≡ now.times n (now.tab_right tabs.now (length tabs.now)) at }
    ensures inside { result < length tabs.now }
{
    let mut at = at;
    for k in 0..n {
        let next = stop_right(tabs, at);
        if next == at {
            return at;
        }
        at = next;
    }
    at
}

pub(crate) fn stops_left(tabs: &[bool], at: u16, n: u32) -> u16
    requires inside { at < length tabs.now }
    ensures stop { result ≡ now.times n (now.tab_left tabs.now) at }
    ensures inside { result < length tabs.now }
{
    let mut at = at;
    for k in 0..n {
        let next = stop_left(tabs, at);
        if next == at {
            return at;
        }
        at = next;
    }
    at
}

pub(crate) fn clear(tabs: &mut [bool])
    ensures { tabs.new ≡ replicate (length tabs.old) false }
{
    tabs.fill(false);
}

pub(crate) fn default_stops(alloc: Global, width: usize) -> Result<Vec<bool>, AllocError>
    ensures stops { IfOk result (λ v. v.items ≡ default_tabs width) }
    ensures count { IfOk result (λ v. length v.items ≡ width) }
{
    let mut stops = Vec::with_capacity(alloc, width)?;
    for at in 0..width {
        stops.push_reserved(0 < at && at % 8 == 0);
    }
    Ok(stops)
}
