//! The audit of a finished run, and what bytes tell of a terminal whose beginning is not known.
//!
//! - [`audit`]: whether entries, replies, ends and a stream are those of a run of a session over a link; and where not, which entry is the
//!   first that shows it, and by what ([`Verdict`], [`What`]; `specs/Audit`). [`yes_is_a_run`] says what a yes says,
//!   [`an_audit_goes_entry_by_entry`] what one entry more must keep. A yes rests on no worker, lock or painter of a session.
//! - [`Partial`]: a terminal that begins with nothing known but its size. [`Partial::play_all`] plays bytes; [`Partial::knows`] tells
//!   whether it is known, by these bytes alone, that the terminal shows a view. Contracts see the specified terminal of con_term and
//!   what is known of it: of each cell, of the pen as a whole, of the visibility, and of the cursor with its pending wrap.
//! - [`Watch`]: a partial terminal that plays a stream, a piece for each picture, and begins anew at each new size.
//! - [`a_partial_terminal_stays_true`] is the law: what is known holds of every terminal.
//! - `judge`, `judging`: an entry, and all of them. `frames`, `side`, `client`, `chain`: the link's frames, and what stands behind the entries so
//!   far of the terminal's side and of a client. `marking`, `playing`, `knowing`: an item, bytes, and a view.
//!
//! No effect of an item is said here: con_term's page does what it does to cells, once with the cells and once with a mark in the place
//! of each. Nothing is promised of a terminal of another size, or of one that is amidst a sequence at the beginning; nothing of rounds;
//! and not that every run is audited with yes.
#![tactic(auto)]

pub mod auditing;
pub mod chain;
pub mod client;
pub mod frames;
mod judge;
mod judging;
pub mod knowing;
pub mod laws;
pub mod marking;
pub mod partial;
pub mod playing;
pub mod side;
pub mod verdict;
pub mod watch;

pub use auditing::audit;
pub use laws::{a_partial_terminal_stays_true, an_audit_goes_entry_by_entry, yes_is_a_run};
pub use partial::Partial;
pub use verdict::{Verdict, What};
pub use watch::Watch;
