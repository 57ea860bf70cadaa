// What a book begins with, and what it leaves.
use crate::book::Book;
use crate::history::Logged;
use crate::machine::Machine;
use crate::pass::Pass;

/// A new book, and the opening pass, which is that of actor 0.
#[derive(Drop)]
pub struct Opened<M: Machine> {
    pub book: Book<M>,
    pub pass: Pass<M>,
}

/// What a book leaves: the machine, and every event that was entered, oldest first.
#[derive(Drop)]
pub struct Closed<M: Machine> {
    pub machine: M,
    pub log: Vec<Logged<M::Event>>,
}
