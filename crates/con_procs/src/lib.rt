//! Attached processes, and the control events that wait for them.
//!
//! Contracts see the list of the processes, the first of which has the number 1. Each has its program, its group, whether it
//! ignores ctrl+C, its status once it has exited, its pending events (at most 64, oldest first) and its rack of handlers.
//!
//! - [`Procs::new`] takes all memory; no other call takes any.
//! - [`Procs::signal`] makes an event pending: ctrl+C (0), ctrl+break (1) or close (2).
//! - [`Procs::take_pending`] gives the oldest pending event.
//! - [`Procs::add_handler`] and [`Procs::remove_handler`] say which places of its rack a process has in its chain.
//!
//! It runs no process, and promises nothing of when one takes its events.
#![tactic(auto)]

pub mod laws;
pub mod pending;
pub mod proc;
pub mod procs;
pub mod rack;

pub use laws::is_attached_still;
pub use pending::Pending;
pub use proc::{Proc, ProcStart};
pub use procs::Procs;
pub use rack::{Place, Rack};
