//! Copies of what a script says, and whether two events are the same.
//!
//! [`copied_call`] and [`copied_wanted`] make a second call or wait like the first. [`same_event`], [`same_call`], [`same_wanted`] and [`same_reply`] tell
//! whether two are the same.
//!
//! They stand apart from con_events, whose tables need none of them.
#![tactic(auto)]

mod copying;
pub mod same;

pub use copying::{copied_call, copied_wanted};
pub use same::{same_call, same_event, same_reply, same_wanted};
