//! An event in a history.

use crate::actor::Actor;
use crate::event::Event;

/// An event and who did it.
#[derive(Drop)]
pub struct Entry {
    pub actor: Actor,
    pub event: Event,
}
