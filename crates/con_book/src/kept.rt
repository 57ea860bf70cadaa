// What a book's slot holds.
use crate::history::Logged;

/// A machine, and all that was entered, oldest first.
#[derive(Drop)]
pub struct Kept<M, E> {
    pub machine: M,
    pub log: Vec<Logged<E>>,
}
