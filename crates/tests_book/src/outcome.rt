// What many threads leave of a book.
use con_book::Logged;
use con_book::counter::Tick;

/// What many threads leave of a book: the machine's count and the log, how many replies they got, the sum of these, and how
/// many of them found their event ready in the end.
#[derive(Drop)]
pub struct Outcome {
    pub count: u64,
    pub log: Vec<Logged<Tick>>,
    pub replies: u32,
    pub sum: u64,
    pub ready: u32,
}

/// How many entries of a log are an actor's.
pub fn entries_of(log: &[Logged<Tick>], actor: u32) -> usize {
    let mut count = 0usize;
    for entry in log {
        if entry.actor == actor {
            count = count.saturating_add(1);
        }
    }
    count
}
