//! Text items: the units of a text, split into characters, controls, escape sequences, control sequences and titles; and the
//! pen that control sequences choose.
//!
//! - [`Splitter`]: it is fed unit by unit. Contracts see a `Reader`: the units that are no item yet, of which it keeps a title's alone,
//!   the text of the last title, and the last control sequence. However a text is cut, the items are those of the whole.
//! - [`Item`], [`Csi`]: what a text falls into. [`Found`]: the kind of an item alone, for callers that take the rest in place.
//! - [`plain_count`], [`is_plain`]: runs of printable ASCII; [`plain_is_printed`] is the law that they are printed unit by unit.
//! - [`pen`]: the colours and flags that cells are written in, and what the parameters of SGR make of them.
//! - [`completes_one_item`] is the law that a unit completes at most one item, and that a title has at most 255 units.
//!
//! Only [`Splitter::new`] takes memory, for a title. Nothing here says what an item does to a screen, but to its pen.
#![tactic(auto)]

pub mod automaton;
pub mod found;
pub mod item;
pub mod pen;
pub mod plain;
pub mod splitter;

pub use found::Found;
pub use item::{Csi, Item};
pub use plain::{is_plain, plain_count, plain_is_printed};
pub use splitter::{Splitter, completes_one_item};
