// What a pass knows.
use crate::history::Logged;
use std::collections::LinkedList;

/// Where a pass stands in the queue for the lock. A ticket's number has no upper bound here.
pub enum Stage {
    /// It has no ticket.
    Idle,
    /// It has drawn this ticket.
    Waiting(u64),
    /// Its ticket is the one that is served, and it has the machine.
    Due(u64),
}

/// What a pass knew when another one took it in.
pub struct Joined<E> {
    pub actor: u32,
    pub seen: LinkedList<Logged<E>>,
    pub mine: LinkedList<E>,
}

/// What a pass knows. No value of it is made: it stands in proofs alone.
pub struct PassView<S, E> {
    /// The state of the machine that the book was made of.
    pub start: S,
    /// Whose pass it is.
    pub actor: u32,
    /// The entries that it has seen, oldest first. They begin the history.
    pub seen: LinkedList<Logged<E>>,
    /// What it had seen before it last took in another pass.
    pub had: LinkedList<Logged<E>>,
    /// The events of its own actor, oldest first.
    pub mine: LinkedList<E>,
    /// It was not taken in by another pass.
    pub live: bool,
    /// It is the one that the book was made with.
    pub opens: bool,
    /// The actors that it gave a pass, the last one first.
    pub made: LinkedList<u32>,
    /// The passes that it has taken in, and those that they had taken in.
    pub kept: LinkedList<Joined<E>>,
    /// Its parts of the 2^32 tickets that can be out.
    pub parts: u64,
    pub stage: Stage,
}
