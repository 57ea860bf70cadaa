// An entry of a history.

/// One event that was entered, and the actor that entered it.
#[derive(Drop)]
pub struct Logged<E> {
    pub actor: u32,
    pub event: E,
}
